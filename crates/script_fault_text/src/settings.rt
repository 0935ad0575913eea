// Why the settings of a peer's line are refused.
ghost use Rattle.std.specs.Prelude.{◌≡◌, ◌++◌, ◌-◌, ◌∷◌, [], IfOk};
ghost use Rattle.drill_script.specs.Peer.{IsNamedWith};
ghost use Rattle.script_fault_text.specs.FaultText.{AreOnSettings, block_text, second_text};

use crate::line::{space_from, word_after};
use crate::misfit::{Place, add_misfit};
use drill_script::write_peer;
use feed_conf::{ConfFaultKind, explain, read_conf};
use std::alloc::{AllocError, Global};

// What is expected where settings have no fault of their own.
const ONE_PEER: &[u8] = b"the settings of one peer of this name";

/// The lines on the settings of the peer of this name on this line: those that explain their fault as that of a
/// configuration whose line has this number.
///
/// # Errors
/// Memory was refused.
pub fn settings_lines(
    alloc: Global,
    place: Place<'_>,
    line: &[u8],
    name: &[u8],
    items: &[u8],
) -> Result<Vec<u8>, AllocError>
    ensures { IfOk result (λ lines. AreOnSettings place.entry.source.now place.entry.number line.now
        name.now items.now lines.items) }
{
    let text = block_text(alloc, place.number, name, items)?;
    match read_conf(alloc, &text) {
        Ok(_) => on_second(alloc, place, line, ONE_PEER),
        Err(fault) if fault.kind == ConfFaultKind::NoMemory => Err(AllocError),
        Err(fault) => explain(alloc, place.source, &text, fault),
    }
}

// The block, after as many empty lines as come before its line.
fn block_text(
    alloc: Global,
    number: usize,
    name: &[u8],
    items: &[u8],
) -> Result<Vec<u8>, AllocError>
    ensures { IfOk result (λ text. text.items ≡ block_text number name.now items.now) }
{
    let mut text = Vec::new(alloc);
    text.resize(number.saturating_sub(1), b'\n')?;
    text.extend_from_slice(&write_peer(alloc, name, items)?)?;
    Ok(text)
}

/// The message that something else is wanted in place of the second word of a line; none if it has no space.
///
/// # Errors
/// Memory was refused.
pub fn on_second(
    alloc: Global,
    place: Place<'_>,
    line: &[u8],
    wanted: &[u8],
) -> Result<Vec<u8>, AllocError>
    ensures { IfOk result (λ lines. lines.items
        ≡ second_text place.entry.source.now place.entry.number line.now wanted.now) }
{
    let mut out = Vec::new(alloc);
    match space_from(line, 0) {
        None => {}
        Some(space) => add_misfit(&mut out, place, space + 1, word_after(line, space), wanted)?,
    }
    Ok(out)
}
