// A store of articles in memory.
ghost use Rattle.std.specs.Prelude.{◌≡◌, ◌≢◌, ◌↔◌, ℕ, List, Option, IfErr, IfOk, OnErr, OnOk};
ghost use Rattle.std.specs.Option.{is_some};
ghost use Rattle.dot_codec.specs.Lines.{IsSendable};
ghost use Rattle.article_store.specs.Finds.{IsFound, IsSaidBy};
ghost use Rattle.article_store.specs.Texts.{text_at};

use crate::store::{Articles, Found, StoreFault};
use bytes::Bytes;
use dot_codec::is_sendable;
use funnel::Token;
use std::alloc::{AllocError, Global};
use std::collections::BTreeMap;

/// A store of articles in memory, for drills and tests. It takes any text, even one without a written form.
#[derive(Drop)]
pub struct MemArticles {
    alloc: Global,
    texts: BTreeMap<Vec<u8>, Bytes>,
}

impl MemArticles {
    pub fn new(alloc: Global) -> Self
        ensures { (token : List ℕ) → text_at result token ≡ None }
    {
        MemArticles {
            alloc,
            texts: BTreeMap::new(alloc),
        }
    }

    /// Puts a text under the token, in place of the one that was there. The text is shared and not copied.
    ///
    /// # Errors
    /// `NoMemory` if memory was refused; then all texts stay as they were.
    pub fn insert(&mut self, token: &Token, text: Bytes) -> Result<(), AllocError>
        ensures ok { OnOk result (text_at self.new token.now ≡ Some text) }
        ensures keeps_others { OnOk result
            ((other : List ℕ) → other ≢ token.now
            → text_at self.new other ≡ text_at self.old other) }
        ensures unchanged { OnErr result
            ((other : List ℕ) → text_at self.new other ≡ text_at self.old other) }
    {
        let key = Vec::from_slice(self.alloc, token.bytes())?;
        self.texts.insert(key, text)?;
        Ok(())
    }

    /// Removes the text under the token, and returns whether there was one.
    pub fn remove(&mut self, token: &Token) -> bool
        ensures found { result ≡ is_some (text_at self.old token.now) }
        ensures gone { text_at self.new token.now ≡ None }
        ensures keeps_others { (other : List ℕ) → other ≢ token.now
            → text_at self.new other ≡ text_at self.old other }
    {
        self.texts.remove(token.bytes()).is_some()
    }
}

impl Articles for MemArticles {
    ghost says = { λ store token text. text_at store token ≡ text };

    /// The text under the token, if it has a written form; the store keeps it. It is shared and not copied.
    ///
    /// # Errors
    /// [`StoreFault::NoMemory`] if there is a text with a written form and memory was refused. Never
    /// [`StoreFault::Disk`].
    fn fetch(&mut self, token: &Token) -> Result<Found, StoreFault>
        ensures sendable { IfOk result IsFound }
        ensures said { IfOk result (IsSaidBy (λ text. text_at self.old token.now ≡ text)) }
        ensures unchanged { (other : List ℕ) → text_at self.new other ≡ text_at self.old other }
        ensures kinds { IfErr result (λ fault. fault ≡ StoreFault.NoMemory) }
        ensures there { OnErr result
            ((text : List ℕ) × (text_at self.old token.now ≡ Some text) × IsSendable text) }
    {
        match self.texts.get(token.bytes()) {
            None => Ok(Found::Gone),
            Some(text) if is_sendable(text.as_slice()) => Ok(Found::Article(text.clone()?)),
            Some(_) => Ok(Found::Unsendable),
        }
    }
}
