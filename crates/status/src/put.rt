// Writes texts; if the writer fails, a prefix of them was written.
ghost use Rattle.std.specs.Prelude.{◌≤◌, length, take, IfOk, OnOk, OnErr};
ghost use Rattle.std.specs.Io.KnownBytes.{Appends};
ghost use Rattle.status.specs.Prefixes.{AppendsPrefix};

use crate::lines::ReportFault;
use std::io::{ErrorKind, Write};

#[tactic(auto, using(crate::proofs::Parts::at_start, crate::proofs::Parts::at_end, crate::proofs::Parts::rest_left))]
// Writes all of a text. `write_all` would do the same, but says nothing of what was written before a fault.
pub(crate) fn put<W: Write>(out: &mut W, text: &[u8]) -> Result<(), ReportFault>
    ensures whole { OnOk result (Appends (W.contents out.old) (W.contents out.new) text.now) }
    ensures prefix { OnErr result (AppendsPrefix (W.contents out.old)
        (W.contents out.new) text.now) }
{
    let mut rest = text;
    for _ in 0..u64::MAX {
        if rest.is_empty() {
            return Ok(());
        }
        let count = put_some(out, rest)?;
        let (_, behind) = rest.split_at(count);
        rest = behind;
    }
    Err(ReportFault::Write)
}

#[tactic(auto, using(crate::proofs::Parts::write_prefix, crate::proofs::Parts::kept_none))]
// Writes some of a text that is not empty, and returns how many octets; none if the write was interrupted.
fn put_some<W: Write>(out: &mut W, text: &[u8]) -> Result<usize, ReportFault>
    ensures within { IfOk result (λ count. count ≤ length text.now) }
    ensures some { IfOk result (λ count.
        Appends (W.contents out.old) (W.contents out.new) (take count text.now)) }
    ensures prefix { OnErr result (AppendsPrefix (W.contents out.old)
        (W.contents out.new) text.now) }
{
    match out.write(text) {
        Ok(0) => Err(ReportFault::Write),
        Ok(count) => Ok(count),
        Err(error) if error.kind() == ErrorKind::Interrupted => Ok(0),
        Err(_) => Err(ReportFault::Write),
    }
}
