// Texts of articles that were read a short while ago.
ghost use Rattle.std.specs.Prelude.{◌≡◌, ◌≤◌, [], IfOk, OnErr, OnOk, length, option_copied};
ghost use Rattle.connections.specs.Kept.{by_token, first_within, kept_with, latest_with, octets_in, octets_of};
ghost use Rattle.connections.specs.Kept.{text_for, text_if_for};

use bytes::Bytes;
use funnel::{MsgId, Token};
use lru::LruCache;
use std::alloc::{AllocError, Global};
use std::marker::Model;
use std::num::NonZeroUsize;

// How many octets the texts that are kept have at most in all.
const TEXTS_MAX_OCTETS: usize = 4_194_304;

// How many texts are kept at most.
const TEXTS_MAX: usize = 4_096;

// A text that was read so many seconds ago is too old.
const OLD_SECONDS: u64 = 10;

/// A text, of the article with this message-id.
#[derive(Drop)]
pub(crate) struct KeptText {
    id: MsgId,
    text: Bytes,
    // The second in which it was read.
    read_at: u64,
}

impl KeptText {
    // The text, if it has this message-id and is not too old.
    fn text_for(&self, id: &MsgId, now: u64) -> Option<&Bytes>
        ensures { option_copied result ≡ text_if_for id.now now self.now }
    {
        if self.id.bytes() == id.bytes() && now.saturating_sub(self.read_at) < OLD_SECONDS {
            Some(&self.text)
        } else {
            None
        }
    }
}

/// Texts of articles that were read a short while ago: 4,096 and 4,194,304 octets of them at most, the latest.
///
/// Contracts see each under its token, the latest first.
#[derive(Drop)]
pub(crate) struct KeptTexts {
    alloc: Global,
    texts: LruCache<Vec<u8>, KeptText>,
    octets: usize,
}

impl Model for KeptTexts {
    ghost use Rattle.std.specs.Prelude.{List, ℕ, ◌≡◌, ◌≤◌};
    ghost use Rattle.connections.specs.declared.kept_texts.KeptText.{KeptText};

    ghost Value = { List (List ℕ × KeptText) };

    ghost use Rattle.connections.specs.Kept.{by_token, octets_in};

    ghost view = { λ a. by_token a.texts.entries };

    ghost invariant = { λ a. (a.octets ≡ octets_in a.texts.entries)
        × ((a.octets ≤ 4194304) × (a.texts.cap ≡ 4096)) };
}

impl KeptTexts {
    /// None yet.
    ///
    /// # Errors
    /// Memory was refused.
    pub fn new(alloc: Global) -> Result<Self, AllocError>
        ensures { IfOk result (λ texts. texts ≡ []) }
    {
        let most = NonZeroUsize::new(TEXTS_MAX).unwrap();
        Ok(KeptTexts {
            alloc,
            texts: LruCache::sparse(alloc, most)?,
            octets: 0,
        })
    }

    /// The text that was kept under this token, if it has this message-id and was read less than 10 seconds ago.
    pub fn text_for(&self, token: &Token, id: &MsgId, now: u64) -> Option<&Bytes>
        ensures { option_copied result ≡ text_for token.now id.now now self.now }
    {
        self.texts.peek(token.bytes())?.text_for(id, now)
    }

    /// Keeps a text that was read now, in place of any other under its token, unless it alone is too long.
    ///
    /// # Errors
    /// Memory was refused: nothing has changed.
    pub fn keep(
        &mut self,
        token: &Token,
        id: &MsgId,
        text: &Bytes,
        now: u64,
    ) -> Result<(), AllocError>
        ensures ok { OnOk result (self.new ≡ kept_with token.now
            (record { id = id.now; text = text.now; read_at = now }) self.old) }
        ensures unchanged { OnErr result (self.new ≡ self.old) }
    {
        if text.len() > TEXTS_MAX_OCTETS {
            return Ok(());
        }
        let key = Vec::from_slice(self.alloc, token.bytes())?;
        let kept = KeptText {
            id: id.clone()?,
            text: text.clone()?,
            read_at: now,
        };
        let octets = push(&mut self.texts, self.octets, key, kept)?;
        self.octets = drop_oldest(&mut self.texts, octets);
        Ok(())
    }
}

// Adds a text under this token, in place of the one that was there or of the oldest of 4,096. `octets` is how many
// octets all texts have in all; returns how many they have then.
fn push(
    texts: &mut LruCache<Vec<u8>, KeptText>,
    octets: usize,
    token: Vec<u8>,
    kept: KeptText,
) -> Result<usize, AllocError>
    requires sum { octets ≡ octets_in texts.old.entries }
    requires within { octets ≤ 4194304 }
    requires short { length kept.text ≤ 4194304 }
    requires most { texts.old.cap ≡ 4096 }
    ensures texts { OnOk result (by_token texts.new.entries
        ≡ latest_with 4096 token.items kept (by_token texts.old.entries)) }
    ensures octets { IfOk result (λ octets. octets ≡ octets_in texts.new.entries) }
    ensures cap { texts.new.cap ≡ 4096 }
    ensures unchanged { OnErr result (texts.new ≡ texts.old) }
{
    let _count = texts.len();
    let more = kept.text.len();
    let gone = texts.push(token, kept)?;
    Ok(octets + more - octets_of(&gone))
}

// How many octets the text of this pair has.
fn octets_of(pair: &Option<(Vec<u8>, KeptText)>) -> usize
    ensures { result ≡ octets_of pair.now }
{
    match pair {
        Some((_, kept)) => kept.text.len(),
        None => 0,
    }
}

// Drops the oldest texts as long as they have too many octets in all: `octets`. Returns how many they have then.
fn drop_oldest(texts: &mut LruCache<Vec<u8>, KeptText>, octets: usize) -> usize
    requires sum { octets ≡ octets_in texts.old.entries }
    ensures texts { by_token texts.new.entries
        ≡ first_within 4194304 (by_token texts.old.entries) }
    ensures sum { result ≡ octets_in texts.new.entries }
    ensures within { result ≤ 4194304 }
    ensures cap { texts.new.cap ≡ texts.old.cap }
{
    let mut octets = octets;
    while octets > TEXTS_MAX_OCTETS {
        match texts.pop_lru() {
            Some((_, oldest)) => octets -= oldest.text.len(),
            None => unreachable!(),
        }
    }
    octets
}
