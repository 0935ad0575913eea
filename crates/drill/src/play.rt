// A text, played as a drill: what is printed, and how it ends.
ghost use Rattle.std.specs.Prelude.{◌≡◌, ◌≢◌, ◌++◌, [], flat_map, length, IfOk};
ghost use Rattle.std.specs.List.{IsDistinct};
ghost use Rattle.std.specs.Str.{bytes_eq};
ghost use Rattle.world_core.specs.Given.{disks_names};
ghost use Rattle.world_core.specs.Stands.{counts_in};
ghost use Rattle.world_core.specs.Output.{views_by};
ghost use Rattle.drill.specs.Drill.{IsDrill, IsPlayed, ending_without, line_of};
ghost use Rattle.drill.specs.Printed.{end_text, refused_text, steps_text, totals_text};

use crate::ending::{Ending, Refusal, TapeRefusal, Why};
use crate::print::{add_broken, add_end, add_refused, add_steps, add_totals};
use drill_script::{Script, ScriptFault, read_script};
use std::alloc::{AllocError, Global};
use world_core::{Fault, Report, TapesFault, World, WorldFault};

/// What a drill prints, and how it ends.
#[derive(Drop)]
pub struct Played {
    pub printed: Vec<u8>,
    pub ending: Ending,
}

/// Plays the script that a text is, or reports the first line that breaks the rules.
///
/// # Errors
/// Memory was refused for reading the script or for what is printed.
pub fn play(alloc: Global, text: &[u8]) -> Result<Played, AllocError>
    ensures { IfOk result (λ played. IsDrill text.now played.printed.items played.ending) }
{
    match read_script(alloc, text) {
        Ok(script) => play_script(alloc, script),
        Err(ScriptFault::Broken { line, reason }) => {
            let mut printed = Vec::new(alloc);
            add_broken(&mut printed, line)?;
            let why = Why::Script(reason);
            Ok(Played {
                printed,
                ending: Ending::Refused(Refusal { line, why }),
            })
        }
        Err(ScriptFault::NoMemory) => Err(AllocError),
    }
}

// Takes a script's steps in a world that begins from its tapes.
fn play_script(alloc: Global, script: Script) -> Result<Played, AllocError>
    requires distinct { IsDistinct bytes_eq (disks_names script.peers.items) }
    requires placed { length script.lines.items ≡ length script.steps.items }
    ensures { IfOk result (λ played. IsPlayed script played.printed.items played.ending) }
{
    let Script {
        peers,
        intake,
        steps,
        lines,
    } = script;
    let mut world = match World::with_disks(alloc, peers, intake) {
        Ok(world) => world,
        Err(fault) => return Ok(not_begun(alloc, fault)),
    };
    match world.run(&steps) {
        Ok(report) => done(alloc, &report, steps.len()),
        Err(fault) => refused(alloc, &lines, &fault),
    }
}

fn not_begun(alloc: Global, fault: TapesFault) -> Played
    ensures prints { result.printed.items ≡ [] }
    ensures ends { result.ending ≡ ending_without fault }
{
    let ending = match fault {
        TapesFault::Tape { peer, fault } => Ending::NoTape(TapeRefusal { peer, fault }),
        TapesFault::NoMemory => Ending::NoMemory,
    };
    Played {
        printed: Vec::new(alloc),
        ending,
    }
}

fn done(alloc: Global, report: &Report, steps: usize) -> Result<Played, AllocError>
    ensures prints { IfOk result (λ played. played.printed.items
        ≡ steps_text (views_by report.now.lines.items)
        ++ (flat_map totals_text (counts_in report.now.totals.items) ++ end_text steps)) }
    ensures ends { IfOk result (λ played. played.ending ≡ Ending.Done) }
{
    let mut printed = Vec::new(alloc);
    add_steps(&mut printed, &report.lines)?;
    add_totals(&mut printed, &report.totals)?;
    add_end(&mut printed, steps)?;
    Ok(Played {
        printed,
        ending: Ending::Done,
    })
}

fn refused(alloc: Global, lines: &[usize], fault: &WorldFault) -> Result<Played, AllocError>
    ensures prints { IfOk result (λ played. played.printed.items
        ≡ steps_text (views_by fault.now.lines.items)
        ++ refused_text fault.now.step fault.now.kind) }
    ensures no_memory { fault.now.kind ≡ Fault.NoMemory
        → IfOk result (λ played. played.ending ≡ Ending.NoMemory) }
    ensures refused { fault.now.kind ≢ Fault.NoMemory → IfOk result (λ played. played.ending
        ≡ Ending.Refused (record {
          line = line_of lines.now fault.now.step;
          why = Why.Step fault.now.kind;
        })) }
{
    let mut printed = Vec::new(alloc);
    add_steps(&mut printed, &fault.lines)?;
    add_refused(&mut printed, fault.step, fault.kind)?;
    Ok(Played {
        printed,
        ending: ending_of(lines, fault.step, fault.kind),
    })
}

// How a drill ends if this step was refused; `lines` has the line of each step.
fn ending_of(lines: &[usize], step: usize, kind: Fault) -> Ending
    ensures no_memory { kind ≡ Fault.NoMemory → result ≡ Ending.NoMemory }
    ensures refused { kind ≢ Fault.NoMemory → result ≡ Ending.Refused (record {
      line = line_of lines.now step;
      why = Why.Step kind;
    }) }
{
    match kind {
        Fault::NoMemory => Ending::NoMemory,
        kind => Ending::Refused(Refusal {
            line: line_of(lines, step),
            why: Why::Step(kind),
        }),
    }
}

// The line of a step, from 1; 0 if there is no such step.
fn line_of(lines: &[usize], step: usize) -> usize
    ensures { result ≡ line_of lines.now step }
{
    let Some(index) = step.checked_sub(1) else {
        return 0;
    };
    match lines.get(index) {
        Some(line) => *line,
        None => 0,
    }
}
