// The lines that a drill prints (docs/FORMATS.md).
ghost use Rattle.std.specs.Prelude.{◌≡◌, ◌++◌, OnOk, decimal as digits_of, flat_map, map};
ghost use Rattle.world_core.specs.Stands.{counts_in};
ghost use Rattle.world_core.specs.Output.{views_by, view_of};
ghost use Rattle.drill.specs.Printed.{broken_text, end_text, refused_text, step_text, steps_text};
ghost use Rattle.drill.specs.Printed.{totals_text};

use ledger_core::Totals;
use std::alloc::AllocError;
use world_core::{Fault, Output, PeerTotals};

pub fn add_steps(out: &mut Vec<u8>, lines: &[Vec<Output>]) -> Result<(), AllocError>
    ensures { OnOk result (out.new.items ≡ out.old.items ++ steps_text (views_by lines.now)) }
{
    for step in lines {
        add_step(out, step)?;
    }
    Ok(())
}

fn add_step(out: &mut Vec<u8>, step: &[Output]) -> Result<(), AllocError>
    ensures { OnOk result (out.new.items ≡ out.old.items ++ step_text (map view_of step.now)) }
{
    let alloc = *out.allocator();
    for outputs in step {
        out.extend_from_slice(&outputs.line(alloc)?)?;
    }
    Ok(())
}

/// Adds a line of counts for each peer.
pub fn add_totals(out: &mut Vec<u8>, totals: &[PeerTotals]) -> Result<(), AllocError>
    ensures { OnOk result
        (out.new.items ≡ out.old.items ++ flat_map totals_text (counts_in totals.now)) }
{
    for peer in totals {
        add_peer(out, peer)?;
    }
    Ok(())
}

// `NAME taken T answered A dropped D owed O bytes B`.
fn add_peer(out: &mut Vec<u8>, peer: &PeerTotals) -> Result<(), AllocError>
    ensures { OnOk result
        (out.new.items ≡ out.old.items ++ totals_text (peer.now.name, peer.now.totals)) }
{
    let Totals {
        taken,
        answered,
        dropped,
        owed,
        owed_bytes,
    } = peer.totals;
    out.extend_from_slice(peer.name.bytes())?;
    add_count(out, b" taken ", taken)?;
    add_count(out, b" answered ", answered)?;
    add_count(out, b" dropped ", dropped)?;
    add_count(out, b" owed ", owed)?;
    add_count(out, b" bytes ", owed_bytes)?;
    out.push(b'\n')?;
    Ok(())
}

/// `end STEPS`.
pub fn add_end(out: &mut Vec<u8>, steps: usize) -> Result<(), AllocError>
    ensures { OnOk result (out.new.items ≡ out.old.items ++ end_text steps) }
{
    add_count(out, b"end ", steps as u64)?;
    out.push(b'\n')?;
    Ok(())
}

/// `script N`.
pub fn add_broken(out: &mut Vec<u8>, line: usize) -> Result<(), AllocError>
    ensures { OnOk result (out.new.items ≡ out.old.items ++ broken_text line) }
{
    add_count(out, b"script ", line as u64)?;
    out.push(b'\n')?;
    Ok(())
}

/// `step N: KIND`.
pub fn add_refused(out: &mut Vec<u8>, step: usize, kind: Fault) -> Result<(), AllocError>
    ensures { OnOk result (out.new.items ≡ out.old.items ++ refused_text step kind) }
{
    add_count(out, b"step ", step as u64)?;
    out.extend_from_slice(b": ")?;
    out.extend_from_slice(kind.name().as_bytes())?;
    out.push(b'\n')?;
    Ok(())
}

fn add_count(out: &mut Vec<u8>, word: &[u8], number: u64) -> Result<(), AllocError>
    ensures { OnOk result (out.new.items ≡ out.old.items ++ (word.now ++ digits_of number)) }
{
    out.extend_from_slice(word)?;
    out.extend_from_slice(itoa::Buffer::new().format(number).as_bytes())
}
