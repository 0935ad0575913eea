// Why a call of a station was refused.
ghost use Rattle.std.specs.Prelude.{◌≡◌};
ghost use Rattle.peer_queue.specs.Faults.{station_fault};
ghost use Rattle.peer_queue.specs.declared.fault.StationFault.TheVariants.{NoMemory as NoStationMemory};

use recovery::TapeFault;
use std::alloc::AllocError;
use thiserror::Error;

/// Why a station refuses a call. A refusal changes nothing, except that a `Tape(Disk)` of `flush` or `rotate` breaks
/// the station; one of `claim` or `debt` does not.
#[derive(Clone, Copy, Debug, PartialEq, Eq, Error)]
pub enum StationFault {
    /// That connection does not hold that debt.
    #[error("NotHeld")]
    NotHeld,
    /// A `flush` or a `rotate` failed on a disk before. A front is broken from the call `broke` on: its tape failed at
    /// its owner.
    #[error("Broken")]
    Broken,
    /// The tape refused. A tape's `Broken` and `NoMemory` come as the station's own.
    #[error("Tape {0}")]
    Tape(TapeFault),
    /// Memory was refused.
    #[error("NoMemory")]
    NoMemory,
}

impl From<AllocError> for StationFault {
    ghost from_gives = { λ _ e. e ≡ NoStationMemory };

    fn from(_: AllocError) -> Self {
        StationFault::NoMemory
    }
}

// A tape's fault, as a station reports it.
pub(crate) fn station_fault(fault: TapeFault) -> StationFault
    ensures { result ≡ station_fault fault }
{
    match fault {
        TapeFault::Broken => StationFault::Broken,
        TapeFault::NoMemory => StationFault::NoMemory,
        fault => StationFault::Tape(fault),
    }
}
