// Drill scripts (docs/FORMATS.md).
ghost use Rattle.std.specs.Prelude.{◌≡◌, ◌≢◌, ◌↔◌, ℕ, Err, IfErr, IfOk, IsOk, length};
ghost use Rattle.std.specs.List.{IsDistinct};
ghost use Rattle.std.specs.Str.{bytes_eq};
ghost use Rattle.drill_script.specs.Script.{IsFirstBroken, IsScript, IsReportedOf, KeepsRules, NamesLine};
ghost use Rattle.drill_script.specs.declared.fault.ScriptFault.TheVariants.{NoMemory};
ghost use Rattle.world_core.specs.Given.{disks_names};

use crate::draft::Draft;
use crate::fault::{BrokenRule, ScriptFault};
use feed_conf::PeerConf;
use funnel::{first_line, without_cr};
use std::alloc::Global;
use world_core::Step;

/// A script that keeps its rules.
#[derive(Drop)]
pub struct Script {
    /// The peers, in byte order of their names, each with what the first and the second disk of its tape hold before
    /// the first step.
    pub peers: Vec<(PeerConf, Vec<u8>, Vec<u8>)>,
    /// What the disks of the intake's tape hold then.
    pub intake: (Vec<u8>, Vec<u8>),
    /// The steps, in order.
    pub steps: Vec<Step>,
    /// The line number of each step among all lines, from 1.
    pub lines: Vec<usize>,
}

/// Reads a script. Each of its lines ends with LF, and one CR before that is dropped.
///
/// # Errors
/// `Broken` at the first line that breaks the rules; octets after the last LF count as a line. `NoMemory`.
pub fn read_script(alloc: Global, text: &[u8]) -> Result<Script, ScriptFault>
    ensures ok { IfOk result (IsScript text.now) }
    // The names of its peers are distinct.
    ensures distinct { IfOk result (λ script. IsDistinct bytes_eq
        (disks_names script.peers.items)) }
    ensures placed { IfOk result
        (λ script. length script.lines.items ≡ length script.steps.items) }
    ensures broken { IfErr result (IsReportedOf text.now) }
    // Except for want of memory, `Ok` and `Err` each come exactly when they should.
    ensures keeps { result ≢ Err NoMemory → IsOk result ↔ KeepsRules text.now }
    ensures first { (line : ℕ) → result ≢ Err NoMemory
        → NamesLine result line ↔ IsFirstBroken text.now line }
{
    let mut draft = Draft::new(alloc);
    let mut rest = text;
    let mut line_number = 1;
    while let Some((line, more)) = first_line(rest) {
        draft.add(alloc, line_number, without_cr(line))?;
        rest = more;
        line_number += 1;
    }
    if !rest.is_empty() {
        return Err(ScriptFault::Broken {
            line: line_number,
            reason: BrokenRule::Unended,
        });
    }
    let script = draft.finish(alloc)?;
    Ok(script)
}
