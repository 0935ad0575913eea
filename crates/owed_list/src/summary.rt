// How much waits for a name, and the line of a summary that says so.
ghost use Rattle.std.specs.Prelude.{◌≡◌, ◌++◌, IfOk, OnOk, codes, decimal};
ghost use Rattle.ledger_core.specs.State.{line_octets};
ghost use Rattle.recovery.specs.Words.{ledger_of};
ghost use Rattle.owed_list.specs.Summary.{none_waits, octets_text, oldest_of, oldest_text, summary_text, together};
ghost use Rattle.owed_list.specs.Summary.{waiting_of, with_article};

use crate::directory::ReadTape;
use crate::lines::add_word;
use funnel::{MsgId, Token};
use ledger_core::Key;
use std::alloc::AllocError;

/// How much waits for a name.
#[derive(Clone, Copy)]
pub(crate) struct Waiting {
    /// How many articles.
    pub articles: u64,
    /// The sum of the octets of their tokens and message-ids, and 2 for each, as the status report counts them.
    pub octets: u64,
}

impl Waiting {
    /// Nothing.
    pub fn none() -> Self
        ensures { result ≡ none_waits }
    {
        Waiting {
            articles: 0,
            octets: 0,
        }
    }

    /// What a tape owes.
    pub fn of_tape(tape: &ReadTape) -> Self
        ensures { result ≡ waiting_of (ledger_of tape.now) }
    {
        let totals = tape.totals();
        Waiting {
            articles: totals.owed,
            octets: totals.owed_bytes,
        }
    }

    /// Adds an article. Either figure stays at the greatest `u64`.
    pub fn add(&mut self, token: &Token, id: &MsgId)
        ensures { self.new ≡ with_article self.old token.now id.now }
    {
        self.articles = self.articles.saturating_add(1);
        self.octets = self.octets.saturating_add(line_octets(token, id));
    }

    // Both together.
    fn and(self, other: Waiting) -> Waiting
        ensures { result ≡ together self other }
    {
        Waiting {
            articles: self.articles.saturating_add(other.articles),
            octets: self.octets.saturating_add(other.octets),
        }
    }
}

// The octets of a line that names only this article.
fn line_octets(token: &Token, id: &MsgId) -> u64
    ensures { result ≡ line_octets token.now id.now }
{
    token.bytes().len() as u64 + id.bytes().len() as u64 + 2
}

/// Adds `NAME N OCTETS NUMBER` and an LF, for the name of this tape, for which so much waits beside it.
///
/// # Errors
/// Memory was refused.
pub(crate) fn add_summary(
    out: &mut Vec<u8>,
    name: &[u8],
    beside: Waiting,
    tape: &ReadTape,
) -> Result<(), AllocError>
    ensures { OnOk result (out.new.items ≡ out.old.items ++ summary_text name.now
        (together beside (waiting_of (ledger_of tape.now))) (oldest_of (ledger_of tape.now))) }
{
    let oldest = oldest_of(tape)?;
    add_figures(out, name, beside.and(Waiting::of_tape(tape)), oldest)
}

// The key of the oldest debt of a tape.
fn oldest_of(tape: &ReadTape) -> Result<Option<Key>, AllocError>
    ensures { IfOk result (λ key. key ≡ oldest_of (ledger_of tape.now)) }
{
    let keys = tape.keys()?;
    match keys.as_slice() {
        [key, ..] => Ok(Some(*key)),
        [] => Ok(None),
    }
}

// Adds `NAME N OCTETS NUMBER` and an LF.
fn add_figures(
    out: &mut Vec<u8>,
    name: &[u8],
    waiting: Waiting,
    oldest: Option<Key>,
) -> Result<(), AllocError>
    ensures { OnOk result (out.new.items
        ≡ out.old.items ++ summary_text name.now waiting oldest) }
{
    add_word(out, name)?;
    add_number(out, waiting.articles)?;
    add_octets(out, waiting)?;
    add_oldest(out, oldest)?;
    out.push(b'\n')?;
    Ok(())
}

// Adds a number and a space.
fn add_number(out: &mut Vec<u8>, number: u64) -> Result<(), AllocError>
    ensures { OnOk result (out.new.items ≡ out.old.items ++ (decimal number ++ codes " ")) }
{
    add_word(out, itoa::Buffer::new().format(number).as_bytes())
}

// Adds the octets, or `-` if no article waits, and a space.
fn add_octets(out: &mut Vec<u8>, waiting: Waiting) -> Result<(), AllocError>
    ensures { OnOk result (out.new.items
        ≡ out.old.items ++ (octets_text waiting ++ codes " ")) }
{
    if waiting.articles == 0 {
        return add_word(out, b"-");
    }
    add_number(out, waiting.octets)
}

// Adds the number of the oldest debt, or `-` if there is none.
fn add_oldest(out: &mut Vec<u8>, oldest: Option<Key>) -> Result<(), AllocError>
    ensures { OnOk result (out.new.items ≡ out.old.items ++ oldest_text oldest) }
{
    match oldest {
        Some(key) => key.add_text(out),
        None => out.extend_from_slice(b"-"),
    }
}
