// What a step of a script does with one connection (docs/FORMATS.md).
ghost use Rattle.std.specs.Prelude.{◌≡◌, ◌≢◌, ◌<◌, ◌∷◌, [], ℕ, List, Some, codes, length};
ghost use Rattle.std.specs.Prelude.{option_map, IfNone, IfOk, IfSome, MatchOption};
ghost use Rattle.drill_script.specs.Action.{ActionView, Escapes, IsWritten, Spells, Supplies, action_view, line_of};
ghost use Rattle.drill_script.specs.Step.{Acts, step_view};
ghost use Rattle.drill_script.specs.Parts.{ActionOf};
ghost use Rattle.article_store.specs.declared.store.Found.{Found};

use article_store::Found;
use bytes::Bytes;
use hex::FromHexError;
use std::alloc::{AllocError, Global};
use world_core::Step;

/// What a step does with a connection.
#[derive(Drop)]
pub enum Action {
    /// The least candidate of the peer is claimed and offered.
    Hand,
    /// These octets come in from the peer.
    Receive(Vec<u8>),
    /// This was found for the article that is wanted.
    Supply(Found),
    /// The connection breaks.
    Break,
}

impl Action {
    /// Reads the action that a word names, with the text after the connection's number; `None` if it names none.
    ///
    /// # Errors
    /// Memory was refused.
    pub(crate) fn read(
        alloc: Global,
        word: &[u8],
        text: Option<&[u8]>,
    ) -> Result<Option<Action>, AllocError>
        ensures { IfOk result (λ action. MatchOption action
            ((said : ActionView) → ActionOf word.now (option_map (λ t. t.now) text.entry) said → ⊥)
            (λ made. ActionOf word.now (option_map (λ t. t.now) text.entry) (action_view made))) }
    {
        match (word, text) {
            (b"hand", None) => Ok(Some(Action::Hand)),
            (b"break", None) => Ok(Some(Action::Break)),
            (b"say", Some(text)) => Ok(Some(Action::Receive(line_of(alloc, text)?))),
            (b"raw", Some(text)) => match octets_of(alloc, text)? {
                Some(octets) => Ok(Some(Action::Receive(octets))),
                None => Ok(None),
            },
            (b"article", Some(text)) => match found_of(alloc, text)? {
                Some(found) => Ok(Some(Action::Supply(found))),
                None => Ok(None),
            },
            _ => Ok(None),
        }
    }

    /// The step that does this with the connection of this number.
    pub(crate) fn on(self, number: u64) -> Step
        ensures { step_view result ≡ Acts number (action_view self) }
    {
        match self {
            Action::Hand => Step::Hand(number),
            Action::Receive(octets) => Step::Bytes(number, octets),
            Action::Supply(found) => Step::Article(number, found),
            Action::Break => Step::Break(number),
        }
    }
}

// Adds CR LF to a text.
fn line_of(alloc: Global, text: &[u8]) -> Result<Vec<u8>, AllocError>
    ensures { IfOk result (λ line. line.items ≡ line_of text.now) }
{
    let mut line = Vec::from_slice(alloc, text)?;
    line.extend_from_slice(b"\r\n")?;
    Ok(line)
}

/// The octets spelled by one or more pairs of hexadecimal digits; `None` if anything else is among them.
///
/// # Errors
/// Memory was refused.
pub(crate) fn octets_of(alloc: Global, digits: &[u8]) -> Result<Option<Vec<u8>>, AllocError>
    ensures { IfOk result (λ octets. MatchOption octets
        ((spelt : List ℕ) → Spells digits.now spelt → ⊥)
        (λ spelt. Spells digits.now spelt.items)) }
{
    if digits.is_empty() {
        return Ok(None);
    }
    match hex::decode(alloc, digits) {
        Ok(octets) => Ok(Some(octets)),
        Err(FromHexError::OutOfMemory) => Err(AllocError),
        Err(_) => Ok(None),
    }
}

// The article that this text says was found, or that it is gone; `None` if the text says neither.
fn found_of(alloc: Global, text: &[u8]) -> Result<Option<Found>, AllocError>
    ensures { IfOk result (λ found. MatchOption found
        ((told : Found) → ActionOf (codes "article") (Some text.now) (Supplies told) → ⊥)
        (λ told. ActionOf (codes "article") (Some text.now) (Supplies told))) }
{
    if text == b"gone".as_slice() {
        return Ok(Some(Found::Gone));
    }
    match unescape(alloc, text)? {
        Some(text) => Ok(Some(Found::Article(Bytes::from_vec(text)?))),
        None => Ok(None),
    }
}

/// Reads a text that is written with escapes; `None` if a backslash escapes no known letter.
///
/// # Errors
/// Memory was refused.
pub(crate) fn unescape(alloc: Global, written: &[u8]) -> Result<Option<Vec<u8>>, AllocError>
    ensures { IfOk result (λ text. MatchOption text
        ((octets : List ℕ) → IsWritten written.now octets → ⊥)
        (λ octets. IsWritten written.now octets.items)) }
{
    let mut text = Vec::with_capacity(alloc, written.len())?;
    let mut rest = written;
    while !rest.is_empty() {
        let Some((octet, behind)) = first_octet(rest) else {
            return Ok(None);
        };
        text.push(octet)?;
        rest = behind;
    }
    Ok(Some(text))
}

// The first octet that is written, and what follows it; `None` if a backslash escapes no known letter.
fn first_octet(written: &[u8]) -> Option<(u8, &[u8])>
    ensures none { IfNone result (written.now ≢ []
        → (text : List ℕ) → IsWritten written.now text → ⊥) }
    ensures from { IfSome result (λ first. (text : List ℕ) → IsWritten first.1.now text
        → IsWritten written.now (first.0 ∷ text)) }
    ensures to { IfSome result (λ first. (text : List ℕ) → IsWritten written.now text
        → (behind : List ℕ) × (text ≡ first.0 ∷ behind) × IsWritten first.1.now behind) }
    ensures shorter { IfSome result (λ first. length first.1.now < length written.now) }
{
    match written {
        [b'\\', letter, behind @ ..] => Some((escaped_octet(*letter)?, behind)),
        [b'\\'] => None,
        [octet, behind @ ..] => Some((*octet, behind)),
        [] => None,
    }
}

fn escaped_octet(letter: u8) -> Option<u8>
    ensures { MatchOption result ((octet : ℕ) → Escapes letter octet → ⊥)
        (λ octet. Escapes letter octet) }
{
    match letter {
        b'n' => Some(b'\n'),
        b'r' => Some(b'\r'),
        b'0' => Some(b'\0'),
        b'\\' => Some(b'\\'),
        _ => None,
    }
}
