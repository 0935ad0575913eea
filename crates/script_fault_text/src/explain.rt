// Why a line of a script is refused.
ghost use Rattle.std.specs.Prelude.{◌≡◌, IfOk, IfSome, OnOk, ◌++◌};
ghost use Rattle.script_fault_text.specs.FaultText.{AreOn, AreOnDeclaration, AreOnPeer, first_text, first_word};
ghost use Rattle.script_fault_text.specs.FaultText.{form_text, line_at};

use crate::line::{first_word, line_at, space_from};
use crate::misfit::{Place, add_misfit, add_parts};
use crate::part::parts_of;
use crate::settings::{on_second, settings_lines};
use drill_script::{BrokenRule, split_peer};
use std::alloc::{AllocError, Global};

// The words that a line may begin with.
const FIRST_WORDS: &[u8] =
    b"#, peer, tape, line, flush, begin, part, seal, connect, hand, say, raw, article, break, tick, shed, \
    rotate, import, stop or restart";

/// The lines that explain why the line of this number, counted from 1, of a script from `source` is refused: the
/// column, the word that stands there, and what is expected in its place; for the settings of a peer the explanation
/// of a configuration. None if the words of the reason say all.
///
/// # Errors
/// Memory was refused.
pub fn explain_fault(
    alloc: Global,
    source: &[u8],
    script: &[u8],
    number: usize,
    reason: BrokenRule,
) -> Result<Vec<u8>, AllocError>
    ensures { IfOk result (λ lines. AreOn source.now number (line_at script.now number) reason
        lines.items) }
{
    let place = Place { source, number };
    let line = line_at(alloc, script, number)?;
    match reason {
        BrokenRule::NoStep => on_form(alloc, place, line),
        BrokenRule::NoTape => on_form(alloc, place, line),
        BrokenRule::NoPeer => on_peer(alloc, place, line),
        BrokenRule::PeerBehindStep => on_first(alloc, place, line, b"it before the first step"),
        BrokenRule::TapeBehindStep => on_first(alloc, place, line, b"it before the first step"),
        BrokenRule::DeclaredTwice => {
            on_second(alloc, place, line, b"a name that no line above declares")
        }
        BrokenRule::NoPeerOfTape => {
            on_second(
                alloc,
                place,
                line,
                b"the name of a peer that a line above declares",
            )
        }
        BrokenRule::TapeTwice => {
            on_second(alloc, place, line, b"a disk that no line above gives")
        }
        BrokenRule::Unended => Ok(Vec::new(alloc)),
    }
}

// The message on the first word of a line.
fn on_first(
    alloc: Global,
    place: Place<'_>,
    line: &[u8],
    wanted: &[u8],
) -> Result<Vec<u8>, AllocError>
    ensures { IfOk result (λ lines. lines.items
        ≡ first_text place.entry.source.now place.entry.number line.now wanted.now) }
{
    let mut out = Vec::new(alloc);
    add_misfit(&mut out, place, 0, first_word(line), wanted)?;
    Ok(out)
}

// The message on a line that does not have its form; none if it has.
fn on_form(alloc: Global, place: Place<'_>, line: &[u8]) -> Result<Vec<u8>, AllocError>
    ensures { IfOk result (λ lines. lines.items
        ≡ form_text place.entry.source.now place.entry.number line.now) }
{
    match parts_of(first_word(line)) {
        None => on_first(alloc, place, line, FIRST_WORDS),
        Some(parts) => {
            let mut out = Vec::new(alloc);
            add_parts(&mut out, place, line, parts, space_from(line, 0))?;
            Ok(out)
        }
    }
}

// The lines on a peer's line.
fn on_peer(alloc: Global, place: Place<'_>, line: &[u8]) -> Result<Vec<u8>, AllocError>
    ensures { IfOk result
        (λ lines. AreOnPeer place.entry.source.now place.entry.number line.now lines.items) }
{
    let lines = on_form(alloc, place, line)?;
    if !lines.is_empty() {
        return Ok(lines);
    }
    match line.strip_prefix(b"peer ") {
        Some(declaration) => on_declaration(alloc, place, line, declaration),
        None => Ok(lines),
    }
}

// The lines on the settings of the peer that is declared behind `peer ` on a line.
fn on_declaration(
    alloc: Global,
    place: Place<'_>,
    line: &[u8],
    declaration: &[u8],
) -> Result<Vec<u8>, AllocError>
    ensures { IfOk result (λ lines. AreOnDeclaration place.entry.source.now place.entry.number
        line.now declaration.now lines.items) }
{
    let (name, items) = split_peer(declaration);
    settings_lines(alloc, place, line, name, items)
}
