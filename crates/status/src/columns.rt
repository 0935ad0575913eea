// The columns of a line: a text padded with spaces, after it or before it, to the column's width.
ghost use Rattle.std.specs.Prelude.{◌≤◌, OnOk, OnErr};
ghost use Rattle.std.specs.Io.KnownBytes.{Appends};
ghost use Rattle.status.specs.Prefixes.{AppendsPrefix};
ghost use Rattle.status.specs.Report.{left, number, spaces};

use crate::lines::ReportFault;
use crate::put::put;
use funnel::PeerName;
use std::io::Write;

const COLUMN_MAX_OCTETS: usize = 20;

const SPACES: [u8; COLUMN_MAX_OCTETS] = [b' '; COLUMN_MAX_OCTETS];

pub(crate) fn put_name<W: Write>(
    out: &mut W,
    width: usize,
    name: &PeerName,
) -> Result<(), ReportFault>
    requires { width ≤ 20 }
    ensures whole { OnOk result
        (Appends (W.contents out.old) (W.contents out.new) (left width name.now)) }
    ensures prefix { OnErr result
        (AppendsPrefix (W.contents out.old) (W.contents out.new) (left width name.now)) }
{
    let octets = name.bytes();
    put(out, octets)?;
    put_spaces(out, width.saturating_sub(octets.len()))
}

// Writes a space, and a number at the right of a column.
pub(crate) fn put_number<W: Write>(out: &mut W, width: usize, value: u64) -> Result<(), ReportFault>
    requires { width ≤ 12 }
    ensures whole { OnOk result
        (Appends (W.contents out.old) (W.contents out.new) (number width value)) }
    ensures prefix { OnErr result
        (AppendsPrefix (W.contents out.old) (W.contents out.new) (number width value)) }
{
    let mut buffer = itoa::Buffer::new();
    let digits = buffer.format(value).as_bytes();
    put_spaces(out, width.saturating_sub(digits.len()) + 1)?;
    put(out, digits)
}

fn put_spaces<W: Write>(out: &mut W, count: usize) -> Result<(), ReportFault>
    requires { count ≤ 20 }
    ensures whole { OnOk result
        (Appends (W.contents out.old) (W.contents out.new) (spaces count)) }
    ensures prefix { OnErr result
        (AppendsPrefix (W.contents out.old) (W.contents out.new) (spaces count)) }
{
    put(out, &SPACES[..count])
}
