// Why a call of a post was refused.
ghost use Rattle.std.specs.Prelude.{◌≡◌, ◌↔◌, IsTrue};
ghost use Rattle.flusher.specs.Faults.{HasBroken, IsOfTape};
ghost use Rattle.peer_queue.specs.Faults.{station_fault};

use peer_queue::StationFault;
use recovery::TapeFault;
use thiserror::Error;

/// Why a call of a post is refused.
#[derive(Clone, Copy, Debug, PartialEq, Eq, Error)]
pub enum PostFault {
    /// The station of this peer refused.
    #[error("Station {fault}")]
    Station { peer: usize, fault: StationFault },
    /// The intake tape refused.
    #[error("Intake {0}")]
    Intake(TapeFault),
    /// The line's number, or a tally, would pass its greatest value.
    #[error("CountFull")]
    CountFull,
    /// The mark of this peer's front is not the share's; or the front or the tape that was found at its place is
    /// another peer's; or the tape doesn't owe what the front does; or the front doesn't accept the answer of a flush,
    /// which is of another tape's place, or counts more than was sent. No run meets it.
    #[error("Stranger")]
    Stranger { peer: usize },
    /// Memory was refused.
    #[error("NoMemory")]
    NoMemory,
    /// This peer's front is in use, or its tape, which alone has the texts of a debt, and the call waits for nobody.
    #[error("Busy")]
    Busy { peer: usize },
}

impl PostFault {
    // Whether a tape failed, so that the other peers' debts can be worked off, and no more lines be taken.
    pub(crate) fn is_of_tape(&self) -> bool
        ensures { IsTrue result ↔ IsOfTape self.now }
    {
        match self {
            PostFault::Station {
                fault: StationFault::Broken | StationFault::Tape(_),
                ..
            } => true,
            PostFault::Intake(fault) => !matches!(fault, TapeFault::NoMemory),
            _ => false,
        }
    }
}

impl PostFault {
    // A fault of a peer's tape.
    pub(crate) fn of_tape(peer: usize, fault: TapeFault) -> PostFault
        ensures { result ≡ PostFault.Station peer (station_fault fault) }
    {
        let fault = match fault {
            TapeFault::Broken => StationFault::Broken,
            TapeFault::NoMemory => StationFault::NoMemory,
            fault => StationFault::Tape(fault),
        };
        PostFault::Station { peer, fault }
    }

    // Whether a disk of a peer's tape failed, now or before.
    pub(crate) fn has_broken(&self) -> bool
        ensures { IsTrue result ↔ HasBroken self.now }
    {
        matches!(
            self,
            PostFault::Station {
                fault: StationFault::Broken | StationFault::Tape(TapeFault::Disk),
                ..
            }
        )
    }
}

// Why a front did not take a line.
#[derive(Clone, Copy, Debug, PartialEq, Eq)]
pub(crate) enum TakeFault {
    Stranger,
    Station(StationFault),
}
