// The report: a header, and a line for each peer.
ghost use Rattle.std.specs.Prelude.{OnOk, OnErr, flat_map};
ghost use Rattle.std.specs.Io.KnownBytes.{Appends};
ghost use Rattle.status.specs.Prefixes.{AppendsPrefix};
ghost use Rattle.status.specs.Report.{peer_text, report_text};

use crate::columns::{put_name, put_number};
use crate::put::put;
use funnel::PeerName;
use ledger_core::Totals;
use std::io::Write;
use thiserror::Error;

const HEADER: &[u8] =
    b"peer                      taken   answered    dropped       owed        bytes\n";

/// The figures of one peer.
#[derive(Clone, Copy)]
pub struct PeerStatus<'a> {
    pub name: &'a PeerName,
    /// What its ledger counts.
    pub totals: Totals,
}

/// Why a report was not written whole.
#[derive(Clone, Copy, Debug, PartialEq, Eq, Error)]
pub enum ReportFault {
    /// The writer failed, or took no octet.
    #[error("Write")]
    Write,
}

/// Writes the status report: a header, and a line for each peer in this order (docs/FORMATS.md). It takes no memory.
/// The writer is not flushed.
///
/// # Errors
/// [`ReportFault::Write`] if the writer failed; a prefix of the report was written.
pub fn report<W: Write>(peers: &[PeerStatus<'_>], out: &mut W) -> Result<(), ReportFault>
    ensures whole { OnOk result
        (Appends (W.contents out.old) (W.contents out.new) (report_text peers.now)) }
    ensures prefix { OnErr result
        (AppendsPrefix (W.contents out.old) (W.contents out.new) (report_text peers.now)) }
{
    put(out, HEADER)?;
    put_peers(out, peers)
}

fn put_peers<W: Write>(out: &mut W, peers: &[PeerStatus<'_>]) -> Result<(), ReportFault>
    ensures whole { OnOk result
        (Appends (W.contents out.old) (W.contents out.new) (flat_map peer_text peers.now)) }
    ensures prefix { OnErr result
        (AppendsPrefix (W.contents out.old) (W.contents out.new) (flat_map peer_text peers.now)) }
{
    for peer in peers {
        put_peer(out, peer)?;
    }
    Ok(())
}

fn put_peer<W: Write>(out: &mut W, peer: &PeerStatus<'_>) -> Result<(), ReportFault>
    ensures whole { OnOk result
        (Appends (W.contents out.old) (W.contents out.new) (peer_text peer.now)) }
    ensures prefix { OnErr result
        (AppendsPrefix (W.contents out.old) (W.contents out.new) (peer_text peer.now)) }
{
    put_name(out, 20, peer.name)?;
    put_number(out, 10, peer.totals.taken)?;
    put_number(out, 10, peer.totals.answered)?;
    put_number(out, 10, peer.totals.dropped)?;
    put_number(out, 10, peer.totals.owed)?;
    put_number(out, 12, peer.totals.owed_bytes)?;
    put(out, b"\n")
}
