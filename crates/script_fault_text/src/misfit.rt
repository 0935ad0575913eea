// The message on a word of a line that is not what is expected there.
ghost use Rattle.std.specs.Prelude.{◌≡◌, ◌++◌, ◌<◌, ◌+◌, OnOk, IfSome, length, map};
ghost use Rattle.script_fault_text.specs.FaultText.{ended_text, ending, last_text, misfit_text, missing_text};
ghost use Rattle.script_fault_text.specs.FaultText.{part_text, parts_text, place_text, shown, visible};

use crate::line::{space_from, word_after};
use crate::part::Part;
use std::alloc::AllocError;

// How many octets of a word are shown.
const SHOWN_OCTETS: usize = 40;

/// Where a line is: its number in the script from this source.
#[derive(Clone, Copy)]
pub struct Place<'a> {
    pub source: &'a [u8],
    pub number: usize,
}

/// Adds the message that something else than `word` is wanted at this place of a line, of which so many octets come
/// before it.
///
/// # Errors
/// Memory was refused.
pub fn add_misfit(
    out: &mut Vec<u8>,
    place: Place<'_>,
    before: usize,
    word: &[u8],
    wanted: &[u8],
) -> Result<(), AllocError>
    requires { before < 18446744073709551615 }
    ensures { OnOk result (out.new.items ≡ out.old.items
        ++ misfit_text place.entry.source.now place.entry.number before word.now wanted.now) }
{
    add_place(out, place, before + 1)?;
    out.extend_from_slice(b": \"")?;
    add_shown(out, word)?;
    out.extend_from_slice(b": expected ")?;
    out.extend_from_slice(wanted)?;
    out.push(b'\n')?;
    Ok(())
}

// Adds what a message begins with: the source, the line and the column, from 1.
fn add_place(out: &mut Vec<u8>, place: Place<'_>, column: usize) -> Result<(), AllocError>
    ensures { OnOk result (out.new.items ≡ out.old.items
        ++ place_text place.entry.source.now place.entry.number column) }
{
    out.extend_from_slice(place.source)?;
    out.extend_from_slice(b": line ")?;
    out.extend_from_slice(itoa::Buffer::new().format(place.number).as_bytes())?;
    out.extend_from_slice(b", column ")?;
    out.extend_from_slice(itoa::Buffer::new().format(column).as_bytes())?;
    Ok(())
}

// Adds the first octets of a word as they can be shown, and the closing quote; two dots follow if there are more.
fn add_shown(out: &mut Vec<u8>, word: &[u8]) -> Result<(), AllocError>
    ensures { OnOk result (out.new.items ≡ out.old.items ++ shown word.now) }
{
    add_visible(out, &word[..word.len().min(SHOWN_OCTETS)])?;
    out.extend_from_slice(ending(word.len()))?;
    Ok(())
}

// The end of a word that has so many octets.
fn ending(count: usize) -> &'static [u8]
    ensures { result.now ≡ ending count }
{
    if count <= SHOWN_OCTETS {
        b"\""
    } else {
        b"\".."
    }
}

fn add_visible(out: &mut Vec<u8>, word: &[u8]) -> Result<(), AllocError>
    ensures { OnOk result (out.new.items ≡ out.old.items ++ map visible word.now) }
{
    for octet in word {
        out.push(visible(*octet))?;
    }
    Ok(())
}

// An octet as it is shown: a question mark if it is not visible ASCII or a space.
fn visible(octet: u8) -> u8
    ensures { result ≡ visible octet }
{
    if octet < 32 || octet > 126 {
        b'?'
    } else {
        octet
    }
}

/// Adds the message on the first of these parts that the line does not have, or on what follows the last. The first
/// part begins after the space at this place; without a space the line has ended.
///
/// # Errors
/// Memory was refused.
pub fn add_parts(
    out: &mut Vec<u8>,
    place: Place<'_>,
    line: &[u8],
    parts: &[Part],
    space: Option<usize>,
) -> Result<(), AllocError>
    requires { IfSome space (λ s. s < length line.now) }
    ensures { OnOk result (out.new.items ≡ out.old.items
        ++ parts_text place.entry.source.now place.entry.number line.now parts.now space) }
{
    match parts {
        [] => add_ended(out, place, line, space),
        [part] => add_last(out, place, line, *part, space),
        [part, others @ ..] => match space {
            None => add_missing(out, place, line, *part),
            Some(space) => match part.misfit_place(word_after(line, space)) {
                None => add_parts(out, place, line, others, space_from(line, space + 1)),
                Some(_) => add_part(out, place, *part, space, word_after(line, space)),
            },
        },
    }
}

// Adds the message on what follows the last part, if anything does.
fn add_ended(
    out: &mut Vec<u8>,
    place: Place<'_>,
    line: &[u8],
    space: Option<usize>,
) -> Result<(), AllocError>
    requires { IfSome space (λ s. s < length line.now) }
    ensures { OnOk result (out.new.items ≡ out.old.items
        ++ ended_text place.entry.source.now place.entry.number line.now space) }
{
    match space {
        None => Ok(()),
        Some(space) => add_misfit(out, place, space, &line[space..], b"the end of the line"),
    }
}

// Adds the message on a part before which the line has ended, if it may not.
fn add_missing(
    out: &mut Vec<u8>,
    place: Place<'_>,
    line: &[u8],
    part: Part,
) -> Result<(), AllocError>
    ensures { OnOk result (out.new.items ≡ out.old.items
        ++ missing_text place.entry.source.now place.entry.number line.now part) }
{
    if part.may_lack() {
        Ok(())
    } else {
        add_misfit(out, place, line.len(), b"", part.wanted().as_bytes())
    }
}

// Adds the message on the last part, which is all that is left of the line.
fn add_last(
    out: &mut Vec<u8>,
    place: Place<'_>,
    line: &[u8],
    part: Part,
    space: Option<usize>,
) -> Result<(), AllocError>
    requires { IfSome space (λ s. s < length line.now) }
    ensures { OnOk result (out.new.items ≡ out.old.items
        ++ last_text place.entry.source.now place.entry.number line.now part space) }
{
    match space {
        None => add_missing(out, place, line, part),
        Some(space) => add_part(out, place, part, space, &line[space + 1..]),
    }
}

// Adds the message on this text after a space, if it is not what the part has to be.
fn add_part(
    out: &mut Vec<u8>,
    place: Place<'_>,
    part: Part,
    space: usize,
    text: &[u8],
) -> Result<(), AllocError>
    requires { space + length text.now < 9223372036854775808 }
    ensures { OnOk result (out.new.items ≡ out.old.items
        ++ part_text place.entry.source.now place.entry.number part space text.now) }
{
    match part.misfit_place(text) {
        None => Ok(()),
        Some(misfit) => {
            add_misfit(
                out,
                place,
                space + 1 + misfit,
                &text[misfit..],
                part.wanted().as_bytes(),
            )
        }
    }
}
