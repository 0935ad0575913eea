// The families of samples that a live report has of each peer.
ghost use Rattle.std.specs.Prelude.{◌≡◌};
ghost use Rattle.status.specs.Family.{help_of, is_failed, is_up, kind_of, name_of, value_of};

use crate::live::LiveStatus;
use peer_counts::PeerPhase;

/// A family of samples: one for each peer.
#[derive(Clone, Copy)]
pub(crate) enum Family {
    Made,
    Offered,
    Accepted,
    Refused,
    Rejected,
    Deferred,
    Missing,
    Unsendable,
    SentBytes,
    Taken,
    Answered,
    Dropped,
    Queued,
    QueuedBytes,
    Connections,
    InFlight,
    Up,
    Failed,
}

/// All families, in the order in which they are written.
pub(crate) const FAMILIES: [Family; 18] = [
    Family::Made,
    Family::Offered,
    Family::Accepted,
    Family::Refused,
    Family::Rejected,
    Family::Deferred,
    Family::Missing,
    Family::Unsendable,
    Family::SentBytes,
    Family::Taken,
    Family::Answered,
    Family::Dropped,
    Family::Queued,
    Family::QueuedBytes,
    Family::Connections,
    Family::InFlight,
    Family::Up,
    Family::Failed,
];

/// Its name, without the prefix that all have.
pub(crate) fn name_of(family: Family) -> &'static [u8]
    ensures { result.now ≡ name_of family }
{
    match family {
        Family::Made => b"connections_made_total",
        Family::Offered => b"offered_total",
        Family::Accepted => b"accepted_total",
        Family::Refused => b"refused_total",
        Family::Rejected => b"rejected_total",
        Family::Deferred => b"deferred_total",
        Family::Missing => b"missing_total",
        Family::Unsendable => b"unsendable_total",
        Family::SentBytes => b"sent_bytes_total",
        Family::Taken => b"taken_total",
        Family::Answered => b"answered_total",
        Family::Dropped => b"dropped_total",
        Family::Queued => b"queued",
        Family::QueuedBytes => b"queued_bytes",
        Family::Connections => b"connections",
        Family::InFlight => b"in_flight",
        Family::Up => b"up",
        Family::Failed => b"failed",
    }
}

/// Whether its samples only grow.
pub(crate) fn kind_of(family: Family) -> &'static [u8]
    ensures { result.now ≡ kind_of family }
{
    match family {
        Family::Made => b"counter",
        Family::Offered => b"counter",
        Family::Accepted => b"counter",
        Family::Refused => b"counter",
        Family::Rejected => b"counter",
        Family::Deferred => b"counter",
        Family::Missing => b"counter",
        Family::Unsendable => b"counter",
        Family::SentBytes => b"counter",
        Family::Taken => b"counter",
        Family::Answered => b"counter",
        Family::Dropped => b"counter",
        Family::Queued => b"gauge",
        Family::QueuedBytes => b"gauge",
        Family::Connections => b"gauge",
        Family::InFlight => b"gauge",
        Family::Up => b"gauge",
        Family::Failed => b"gauge",
    }
}

/// What its samples are.
pub(crate) fn help_of(family: Family) -> &'static [u8]
    ensures { result.now ≡ help_of family }
{
    match family {
        Family::Made => b"Connections on which the peer agreed to a mode.",
        Family::Offered => b"Articles offered on a connection, each time that they were.",
        Family::Accepted => b"Articles that the peer took (235, 239).",
        Family::Refused => b"Articles that the peer did not want (435, 438).",
        Family::Rejected => b"Articles that the peer rejected (437, 439).",
        Family::Deferred => b"Answers that an article is to be offered later (431, 436).",
        Family::Missing => b"Articles that were not in the spool, each time that they were wanted.",
        Family::Unsendable => b"Articles that are in the spool and cannot be sent.",
        Family::SentBytes => b"Octets of the articles that were sent, as the spool has them.",
        Family::Taken => b"Articles that the peer was ever to get, by its tape.",
        Family::Answered => b"Articles that the peer answered for good, by its tape.",
        Family::Dropped => b"Articles that were dropped, by its tape.",
        Family::Queued => b"Articles that the peer is owed.",
        Family::QueuedBytes => b"Octets of tokens and message-ids that the peer is owed.",
        Family::Connections => b"Connections on which the peer has agreed to a mode.",
        Family::InFlight => b"Articles that are offered and not answered.",
        Family::Up => b"Whether the peer has agreed to a mode on a connection that is open.",
        Family::Failed => b"Whether the peer's tape failed.",
    }
}

/// The value of its sample of a peer.
pub(crate) fn value_of(family: Family, peer: &LiveStatus<'_>) -> u64
    ensures { result ≡ value_of family peer.now }
{
    match family {
        Family::Made => peer.figures.counts.made,
        Family::Offered => peer.figures.counts.offered,
        Family::Accepted => peer.figures.counts.accepted,
        Family::Refused => peer.figures.counts.refused,
        Family::Rejected => peer.figures.counts.rejected,
        Family::Deferred => peer.figures.counts.deferred,
        Family::Missing => peer.figures.counts.missing,
        Family::Unsendable => peer.figures.counts.unsendable,
        Family::SentBytes => peer.figures.counts.sent_octets,
        Family::Taken => peer.totals.taken,
        Family::Answered => peer.totals.answered,
        Family::Dropped => peer.totals.dropped,
        Family::Queued => peer.totals.owed,
        Family::QueuedBytes => peer.totals.owed_bytes,
        Family::Connections => peer.figures.connections,
        Family::InFlight => peer.figures.in_flight,
        Family::Up => u64::from(is_up(peer.figures.phase)),
        Family::Failed => u64::from(is_failed(peer.figures.phase)),
    }
}

fn is_up(phase: PeerPhase) -> bool
    ensures { result ≡ is_up phase }
{
    match phase {
        PeerPhase::Up => true,
        PeerPhase::Idle | PeerPhase::Waiting | PeerPhase::Failed => false,
    }
}

fn is_failed(phase: PeerPhase) -> bool
    ensures { result ≡ is_failed phase }
{
    match phase {
        PeerPhase::Failed => true,
        PeerPhase::Idle | PeerPhase::Up | PeerPhase::Waiting => false,
    }
}
