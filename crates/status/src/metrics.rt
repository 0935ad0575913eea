// The live report as Prometheus reads it.
ghost use Rattle.std.specs.Prelude.{◌≡◌, OnOk, OnErr, flat_map};
ghost use Rattle.std.specs.Io.KnownBytes.{Appends};
ghost use Rattle.status.specs.Metrics.{families_text, family_text, head_text, metrics_text};
ghost use Rattle.status.specs.Metrics.{peer_text, run_text, sample_text};
ghost use Rattle.status.specs.Prefixes.{AppendsPrefix};

use crate::family::{FAMILIES, Family, help_of, kind_of, name_of, value_of};
use crate::lines::ReportFault;
use crate::live::{LiveReport, LiveStatus};
use crate::pieces::Piece::{Escaped, Number, Text};
use crate::pieces::put_pieces;
use std::io::Write;

/// Writes the live report in Prometheus' text format, version 0.0.4 (docs/FORMATS.md). It takes no memory. The writer
/// is not flushed.
///
/// # Errors
/// [`ReportFault::Write`] if the writer failed; a prefix of the report was written.
pub fn write_metrics<W: Write>(report: &LiveReport<'_>, out: &mut W) -> Result<(), ReportFault>
    ensures whole { OnOk result
        (Appends (W.contents out.old) (W.contents out.new) (metrics_text report.now)) }
    ensures prefix { OnErr result
        (AppendsPrefix (W.contents out.old) (W.contents out.new) (metrics_text report.now)) }
{
    put_run(out, report)?;
    put_families(out, report.peers)
}

// Writes what is said of the whole run.
fn put_run<W: Write>(out: &mut W, report: &LiveReport<'_>) -> Result<(), ReportFault>
    ensures whole { OnOk result
        (Appends (W.contents out.old) (W.contents out.new) (run_text report.now)) }
    ensures prefix { OnErr result
        (AppendsPrefix (W.contents out.old) (W.contents out.new) (run_text report.now)) }
{
    put_pieces(
        out,
        &[
            Text(b"# HELP innfeed_start_time_seconds When the run began, in seconds since 1970.\n"),
            Text(b"# TYPE innfeed_start_time_seconds gauge\n"),
            Text(b"innfeed_start_time_seconds "),
            Number(report.started),
            Text(
                b"\n# HELP innfeed_written_time_seconds When this was written, in seconds since 1970.\n",
            ),
            Text(b"# TYPE innfeed_written_time_seconds gauge\n"),
            Text(b"innfeed_written_time_seconds "),
            Number(report.written),
            Text(
                b"\n# HELP innfeed_acknowledged_line Up to which number lines are acknowledged.\n",
            ),
            Text(b"# TYPE innfeed_acknowledged_line gauge\n"),
            Text(b"innfeed_acknowledged_line "),
            Number(report.acknowledged),
            Text(b"\n"),
        ],
    )
}

fn put_families<W: Write>(out: &mut W, peers: &[LiveStatus<'_>]) -> Result<(), ReportFault>
    ensures whole { OnOk result (Appends (W.contents out.old) (W.contents out.new)
        (families_text peers.now)) }
    ensures prefix { OnErr result (AppendsPrefix (W.contents out.old) (W.contents out.new)
        (families_text peers.now)) }
{
    put_each(out, &FAMILIES, peers)
}

fn put_each<W: Write>(
    out: &mut W,
    families: &[Family],
    peers: &[LiveStatus<'_>],
) -> Result<(), ReportFault>
    ensures whole { OnOk result (Appends (W.contents out.old) (W.contents out.new)
        (flat_map (family_text peers.now) families.now)) }
    ensures prefix { OnErr result (AppendsPrefix (W.contents out.old) (W.contents out.new)
        (flat_map (family_text peers.now) families.now)) }
{
    for family in families {
        put_family(out, *family, peers)?;
    }
    Ok(())
}

fn put_family<W: Write>(
    out: &mut W,
    family: Family,
    peers: &[LiveStatus<'_>],
) -> Result<(), ReportFault>
    ensures whole { OnOk result (Appends (W.contents out.old) (W.contents out.new)
        (family_text peers.now family)) }
    ensures prefix { OnErr result (AppendsPrefix (W.contents out.old) (W.contents out.new)
        (family_text peers.now family)) }
{
    put_head(out, name_of(family), help_of(family), kind_of(family))?;
    put_samples(out, family, peers)
}

// Writes the two lines before the samples of a family.
fn put_head<'a, W: Write>(
    out: &mut W,
    name: &'a [u8],
    help: &'a [u8],
    kind: &'a [u8],
) -> Result<(), ReportFault>
    ensures whole { OnOk result (Appends (W.contents out.old) (W.contents out.new)
        (head_text name.now help.now kind.now)) }
    ensures prefix { OnErr result (AppendsPrefix (W.contents out.old) (W.contents out.new)
        (head_text name.now help.now kind.now)) }
{
    put_pieces(
        out,
        &[
            Text(b"# HELP innfeed_"),
            Text(name),
            Text(b" "),
            Text(help),
            Text(b"\n# TYPE innfeed_"),
            Text(name),
            Text(b" "),
            Text(kind),
            Text(b"\n"),
        ],
    )
}

fn put_samples<W: Write>(
    out: &mut W,
    family: Family,
    peers: &[LiveStatus<'_>],
) -> Result<(), ReportFault>
    ensures whole { OnOk result (Appends (W.contents out.old) (W.contents out.new)
        (flat_map (peer_text family) peers.now)) }
    ensures prefix { OnErr result (AppendsPrefix (W.contents out.old) (W.contents out.new)
        (flat_map (peer_text family) peers.now)) }
{
    for peer in peers {
        put_sample(
            out,
            name_of(family),
            peer.name.bytes(),
            value_of(family, peer),
        )?;
    }
    Ok(())
}

fn put_sample<'a, W: Write>(
    out: &mut W,
    name: &'a [u8],
    peer: &'a [u8],
    value: u64,
) -> Result<(), ReportFault>
    ensures whole { OnOk result (Appends (W.contents out.old) (W.contents out.new)
        (sample_text name.now peer.now value)) }
    ensures prefix { OnErr result (AppendsPrefix (W.contents out.old) (W.contents out.new)
        (sample_text name.now peer.now value)) }
{
    put_pieces(
        out,
        &[
            Text(b"innfeed_"),
            Text(name),
            Text(b"{peer=\""),
            Escaped(peer),
            Text(b"\"} "),
            Number(value),
            Text(b"\n"),
        ],
    )
}
