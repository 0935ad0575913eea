// A source that is closed for good.
ghost use Rattle.std.specs.Prelude.{◌≡◌, ◌≤◌};
ghost use Rattle.flusher.specs.Sealed.{IsFlushed};
ghost use Rattle.peer_queue.specs.Words.{ledger_of};

use disk_model::Disk;
use flusher::PostPeer;

/// A source of a peer that is closed for good: the note that closes it is on the disks, and so are those of its lines.
#[derive(Clone, Copy, Debug, PartialEq, Eq)]
pub struct ClosedSource {
    number: u32,
}

impl ClosedSource {
    /// Made of a station that has closed this source, and at which nothing pends.
    pub(crate) fn of<D: Disk>(peer: &PostPeer<D>, number: u32) -> ClosedSource
        requires closed { number ≤ (ledger_of peer.now.station).closed }
        requires flushed { IsFlushed peer.now.station }
        ensures { result.number ≡ number }
    {
        let _ = peer;
        ClosedSource { number }
    }

    /// The number of the source.
    pub fn number(self) -> u32
        ensures { result ≡ self.number }
    {
        self.number
    }
}
