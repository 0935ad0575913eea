// The tokens that wait for articles.
ghost use Rattle.std.specs.Prelude.{◌≡◌, ◌≢◌, ◌++◌, ◌∷◌, [], ℕ, List, OnErr, OnOk, MatchOption};
ghost use Rattle.std.specs.Prelude.{filter, not};
ghost use Rattle.rnews.specs.Waits.{StandsFor, Wait, is_for, tokens_for};

use funnel::{MsgId, Token};
use std::alloc::{AllocError, Global};
use std::collections::BTreeMap;

// The tokens that wait for the article with one message-id.
#[derive(Drop)]
enum Tokens {
    One(Token),
    Several,
}

/// The tokens that wait, each for the article with one message-id. Adding and taking one costs logarithmic time.
#[derive(Drop)]
pub struct Waiting {
    alloc: Global,
    by_id: BTreeMap<Vec<u8>, Tokens>,
}

impl Waiting {
    pub fn new(alloc: Global) -> Self
        ensures { StandsFor result [] }
    {
        Waiting {
            alloc,
            by_id: BTreeMap::new(alloc),
        }
    }

    /// Has the token wait for the article with this message-id. A token that is added twice waits twice.
    ///
    /// # Errors
    /// `NoMemory` if memory was refused; then the same tokens wait as before.
    pub fn add(&mut self, token: Token, id: &MsgId) -> Result<(), AllocError>
        ensures ok { OnOk result ((waits : List Wait) → StandsFor self.old waits
            → StandsFor self.new (waits ++ record { token = token; id = id.now } ∷ [])) }
        ensures unchanged { OnErr result
            ((waits : List Wait) → StandsFor self.old waits → StandsFor self.new waits) }
    {
        let key = Vec::from_slice(self.alloc, id.bytes())?;
        let tokens = if self.by_id.contains_key(id.bytes()) {
            Tokens::Several
        } else {
            Tokens::One(token)
        };
        self.by_id.insert(key, tokens)?;
        Ok(())
    }

    /// Takes out the one token that waits for the article with this message-id; `None`, and nothing changes, if no
    /// token waits for it, or several do.
    pub fn take(&mut self, id: &MsgId) -> Option<Token>
        ensures { (waits : List Wait) → StandsFor self.old waits → MatchOption result
            (((token : List ℕ) → tokens_for id.now waits ≢ token ∷ [])
            × StandsFor self.new waits)
            (λ token. (tokens_for id.now waits ≡ token ∷ [])
            × StandsFor self.new (filter (λ wait. not (is_for id.now wait)) waits)) }
    {
        match self.by_id.get(id.bytes()) {
            Some(Tokens::One(_)) => {}
            _ => return None,
        }
        match self.by_id.remove(id.bytes()) {
            Some(Tokens::One(token)) => Some(token),
            Some(Tokens::Several) => None,
            None => None,
        }
    }
}
