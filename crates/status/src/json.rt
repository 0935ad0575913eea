// The live report as a JSON object.
ghost use Rattle.std.specs.Prelude.{◌≡◌, ◌++◌, OnOk, OnErr, flat_map};
ghost use Rattle.std.specs.Io.KnownBytes.{Appends};
ghost use Rattle.status.specs.Json.{head_text, json_text, next_text, peer_text, peers_text, row_text};
ghost use Rattle.status.specs.Live.{phase_word, retry_in};
ghost use Rattle.status.specs.Prefixes.{AppendsPrefix};

use crate::lines::ReportFault;
use crate::live::{LiveReport, LiveStatus};
use crate::pieces::Piece::{Escaped, Number, Text};
use crate::pieces::put_pieces;
use crate::put::put;
use peer_counts::PeerPhase;
use std::io::Write;

/// Writes the live report as one JSON object (docs/FORMATS.md). It takes no memory. The writer is not flushed.
///
/// # Errors
/// [`ReportFault::Write`] if the writer failed; a prefix of the report was written.
pub fn write_json<W: Write>(report: &LiveReport<'_>, out: &mut W) -> Result<(), ReportFault>
    ensures whole { OnOk result
        (Appends (W.contents out.old) (W.contents out.new) (json_text report.now)) }
    ensures prefix { OnErr result
        (AppendsPrefix (W.contents out.old) (W.contents out.new) (json_text report.now)) }
{
    put_head(out, report)?;
    put_peers(out, report.uptime, report.peers)?;
    put(out, b"\n]}\n")
}

fn put_head<W: Write>(out: &mut W, report: &LiveReport<'_>) -> Result<(), ReportFault>
    ensures whole { OnOk result
        (Appends (W.contents out.old) (W.contents out.new) (head_text report.now)) }
    ensures prefix { OnErr result
        (AppendsPrefix (W.contents out.old) (W.contents out.new) (head_text report.now)) }
{
    put_pieces(
        out,
        &[
            Text(b"{\"version\":1,\"written\":"),
            Number(report.written),
            Text(b",\"started\":"),
            Number(report.started),
            Text(b",\"uptime\":"),
            Number(report.uptime),
            Text(b",\"acknowledged\":"),
            Number(report.acknowledged),
            Text(b",\"peers\":["),
        ],
    )
}

fn put_peers<W: Write>(
    out: &mut W,
    uptime: u64,
    peers: &[LiveStatus<'_>],
) -> Result<(), ReportFault>
    ensures whole { OnOk result
        (Appends (W.contents out.old) (W.contents out.new) (peers_text uptime peers.now)) }
    ensures prefix { OnErr result
        (AppendsPrefix (W.contents out.old) (W.contents out.new) (peers_text uptime peers.now)) }
{
    match peers {
        [] => Ok(()),
        [first, rest @ ..] => {
            put_peer(out, b"\n", uptime, first)?;
            put_rest(out, uptime, rest)
        }
    }
}

// Writes peers that come after another one.
fn put_rest<W: Write>(out: &mut W, uptime: u64, peers: &[LiveStatus<'_>]) -> Result<(), ReportFault>
    ensures whole { OnOk result (Appends (W.contents out.old) (W.contents out.new)
        (flat_map (next_text uptime) peers.now)) }
    ensures prefix { OnErr result (AppendsPrefix (W.contents out.old) (W.contents out.new)
        (flat_map (next_text uptime) peers.now)) }
{
    for peer in peers {
        put_peer(out, b",\n", uptime, peer)?;
    }
    Ok(())
}

// Writes a peer after this text.
fn put_peer<W: Write>(
    out: &mut W,
    before: &[u8],
    uptime: u64,
    peer: &LiveStatus<'_>,
) -> Result<(), ReportFault>
    ensures whole { OnOk result (Appends (W.contents out.old) (W.contents out.new)
        (before.now ++ peer_text uptime peer.now)) }
    ensures prefix { OnErr result (AppendsPrefix (W.contents out.old) (W.contents out.new)
        (before.now ++ peer_text uptime peer.now)) }
{
    let figures = &peer.figures;
    put_row(
        out,
        before,
        peer.name.bytes(),
        phase_word(figures.phase),
        uptime.saturating_sub(figures.since),
        retry_in(uptime, figures.retry),
        peer,
    )
}

// Writes the object of a peer after this text. Its name and its state, since when it has that, and when it is tried
// again, are given.
fn put_row<'a, W: Write>(
    out: &mut W,
    before: &'a [u8],
    name: &'a [u8],
    state: &'a [u8],
    since: u64,
    retry: u64,
    peer: &LiveStatus<'a>,
) -> Result<(), ReportFault>
    ensures whole { OnOk result (Appends (W.contents out.old) (W.contents out.new)
        (before.now ++ row_text name.now state.now since retry peer.now)) }
    ensures prefix { OnErr result (AppendsPrefix (W.contents out.old) (W.contents out.new)
        (before.now ++ row_text name.now state.now since retry peer.now)) }
{
    let (figures, totals) = (&peer.figures, &peer.totals);
    let counts = &figures.counts;
    put_pieces(
        out,
        &[
            Text(before),
            Text(b"{\"name\":\""),
            Escaped(name),
            Text(b"\",\"state\":\""),
            Text(state),
            Text(b"\",\"since\":"),
            Number(since),
            Text(b",\"retry_in\":"),
            Number(retry),
            Text(b",\"reason\":\""),
            Escaped(peer.reason),
            Text(b"\",\"connections\":"),
            Number(figures.connections),
            Text(b",\"in_flight\":"),
            Number(figures.in_flight),
            Text(b",\"made\":"),
            Number(counts.made),
            Text(b",\"offered\":"),
            Number(counts.offered),
            Text(b",\"accepted\":"),
            Number(counts.accepted),
            Text(b",\"refused\":"),
            Number(counts.refused),
            Text(b",\"rejected\":"),
            Number(counts.rejected),
            Text(b",\"deferred\":"),
            Number(counts.deferred),
            Text(b",\"missing\":"),
            Number(counts.missing),
            Text(b",\"unsendable\":"),
            Number(counts.unsendable),
            Text(b",\"sent_octets\":"),
            Number(counts.sent_octets),
            Text(b",\"taken\":"),
            Number(totals.taken),
            Text(b",\"answered\":"),
            Number(totals.answered),
            Text(b",\"dropped\":"),
            Number(totals.dropped),
            Text(b",\"queued\":"),
            Number(totals.owed),
            Text(b",\"queued_octets\":"),
            Number(totals.owed_bytes),
            Text(b"}"),
        ],
    )
}

// The word for how a peer does.
fn phase_word(phase: PeerPhase) -> &'static [u8]
    ensures { result.now ≡ phase_word phase }
{
    match phase {
        PeerPhase::Idle => b"idle",
        PeerPhase::Up => b"up",
        PeerPhase::Waiting => b"waiting",
        PeerPhase::Failed => b"failed",
    }
}

// In how many seconds a peer is tried again; 0 if it is not, or at once.
fn retry_in(uptime: u64, retry: Option<u64>) -> u64
    ensures { result ≡ retry_in uptime retry }
{
    match retry {
        Some(retry) => retry.saturating_sub(uptime),
        None => 0,
    }
}
