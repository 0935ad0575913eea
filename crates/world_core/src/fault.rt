// Why a step of a world is refused.
ghost use Rattle.std.specs.Prelude.{◌≡◌};
ghost use Rattle.world_core.specs.Fault.{fault_name, fault_of, fault_of_station};
ghost use Rattle.world_core.specs.declared.fault.Fault.TheVariants.{NoMemory, Tape};
ghost use Rattle.world_core.specs.declared.fault.TapesFault.TheVariants.{NoMemory as NoTapesMemory};

use crate::output::Output;
use funnel::PeerName;
use ledger_core::LedgerFault;
use peer_queue::StationFault;
use recovery::TapeFault;
use std::alloc::{AllocError, AllocFailed};
use std::fmt::{self, Display, Formatter, Write};
use thiserror::Error;

/// Why a step is refused.
#[derive(Clone, Copy, Debug, PartialEq, Eq, Error)]
pub enum Fault {
    /// No peer has this name.
    NoPeer,
    /// There is no connection of this number: none was made, or a stop (a crash) ended it.
    NoConnection,
    /// All has stopped: the only steps are `Restart` and the arming of a stop.
    Stopped,
    /// Nothing is stopped, so there is nothing to restart.
    Running,
    /// The connection wants no article.
    NotNeeded,
    /// A tape refused, for a reason other than memory.
    Tape(TapeFault),
    /// The number of a line or of a connection would pass the greatest there is.
    CountFull,
    /// Memory was refused.
    NoMemory,
    /// No number is kept to be sealed, or some peer was not flushed since it was kept.
    NotFlushed,
}

impl Fault {
    /// The word by which messages and scripts report it; `Tape` is followed by the tape's fault.
    pub fn name(self) -> &'static str
        ensures { result.now ≡ fault_name self }
    {
        match self {
            Fault::NoPeer => "NoPeer",
            Fault::NoConnection => "NoConnection",
            Fault::Stopped => "Stopped",
            Fault::Running => "Running",
            Fault::NotNeeded => "NotNeeded",
            Fault::Tape(fault) => tape_name(fault),
            Fault::CountFull => "CountFull",
            Fault::NoMemory => "NoMemory",
            Fault::NotFlushed => "NotFlushed",
        }
    }

    // A tape's fault, as a step reports it.
    pub(crate) fn from_tape(fault: TapeFault) -> Fault
        ensures { result ≡ fault_of fault }
    {
        match fault {
            TapeFault::NoMemory => Fault::NoMemory,
            other => Fault::Tape(other),
        }
    }

    // A station's fault, as a step reports it. No step makes a station settle what it does not hold.
    pub(crate) fn from_station(fault: StationFault) -> Fault
        ensures { result ≡ fault_of_station fault }
    {
        match fault {
            StationFault::NotHeld => Fault::NoConnection,
            StationFault::Broken => Fault::Tape(TapeFault::Broken),
            StationFault::Tape(fault) => Fault::from_tape(fault),
            StationFault::NoMemory => Fault::NoMemory,
        }
    }
}

impl Display for Fault {
    fn fmt<W: Write>(&self, f: &mut Formatter<W>) -> fmt::Result {
        f.write_str(self.name())
    }
}

fn tape_name(fault: TapeFault) -> &'static str
    ensures { result.now ≡ fault_name (Tape fault) }
{
    match fault {
        TapeFault::Damaged { .. } => "Tape Damaged",
        TapeFault::Disk => "Tape Disk",
        TapeFault::Broken => "Tape Broken",
        TapeFault::TapeFull => "Tape TapeFull",
        TapeFault::GenerationFull => "Tape GenerationFull",
        TapeFault::PendingFull => "Tape PendingFull",
        TapeFault::NoMemory => "Tape NoMemory",
        TapeFault::Note(LedgerFault::OldNumber) => "Tape Note OldNumber",
        TapeFault::Note(LedgerFault::NotOwed) => "Tape Note NotOwed",
        TapeFault::Note(LedgerFault::CountFull) => "Tape Note CountFull",
        TapeFault::Note(LedgerFault::NoMemory) => "Tape Note NoMemory",
    }
}

/// Why a step was refused, and at which tape: a peer's, by its rank, or the intake's. The tape matters only if a disk
/// failed.
#[derive(Clone, Copy, Debug, PartialEq, Eq)]
pub(crate) struct Halt {
    pub(crate) rank: Option<usize>,
    pub(crate) fault: Fault,
}

/// A run that ended at a refused step.
#[derive(Debug, Drop)]
pub struct WorldFault {
    /// Which step it was, from 1 on; 0 if the world was not made.
    pub step: usize,
    /// Why it was refused.
    pub kind: Fault,
    /// What each step before it reported.
    pub lines: Vec<Vec<Output>>,
}

/// Why no world was made of given tapes.
#[derive(Debug, Drop, Error)]
pub enum TapesFault {
    /// The tape of this peer, or the intake's if there is none, was refused: `Damaged` if the octets are no tape, or
    /// `Disk` if memory was refused to a disk in memory.
    #[error("Tape {fault}")]
    Tape {
        peer: Option<PeerName>,
        fault: TapeFault,
    },
    /// Memory was refused.
    #[error("NoMemory")]
    NoMemory,
}

impl From<AllocError> for Fault {
    ghost from_gives = { λ _ fault. fault ≡ NoMemory };

    fn from(_: AllocError) -> Self {
        Fault::NoMemory
    }
}

impl From<AllocError> for Halt {
    ghost from_gives = { λ _ halt. halt.fault ≡ NoMemory };

    fn from(_: AllocError) -> Self {
        Halt {
            rank: None,
            fault: Fault::NoMemory,
        }
    }
}

impl From<AllocError> for TapesFault {
    ghost from_gives = { λ _ fault. fault ≡ NoTapesMemory };

    fn from(_: AllocError) -> Self {
        TapesFault::NoMemory
    }
}

impl<T: Drop> From<AllocFailed<T>> for TapesFault {
    ghost from_gives = { λ _ fault. fault ≡ NoTapesMemory };

    fn from(_: AllocFailed<T>) -> Self {
        TapesFault::NoMemory
    }
}

impl<T: Drop> From<AllocFailed<T>> for Fault {
    ghost from_gives = { λ _ fault. fault ≡ NoMemory };

    fn from(_: AllocFailed<T>) -> Self {
        Fault::NoMemory
    }
}
