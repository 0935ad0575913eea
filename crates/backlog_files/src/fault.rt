// Why a backlog file was not imported.
use peer_queue::StationFault;
use std::alloc::AllocError;
use std::io;
use thiserror::Error;

/// Why a file was not taken in to its end, or not all of it is acknowledged. What was taken in stays. Unless the last
/// flush failed, its source stays open, so that the next try goes on after what was taken in.
#[derive(Debug, Drop, Error)]
pub enum ImportFault {
    /// The file cannot be read further, for the system's reason; or memory was refused.
    #[error("{0}")]
    Unread(io::Error),
    /// The station refused.
    #[error("{0}")]
    Station(StationFault),
}

impl From<io::Error> for ImportFault {
    ghost use Rattle.std.specs.Prelude.{◌≢◌};
    ghost use Rattle.backlog_files.specs.declared.fault.ImportFault.TheVariants.{Station};
    ghost use Rattle.peer_queue.specs.declared.fault.StationFault.{StationFault};

    ghost from_gives = { λ _ given. (fault : StationFault) → given ≢ Station fault };

    fn from(reason: io::Error) -> Self {
        ImportFault::Unread(reason)
    }
}

impl From<StationFault> for ImportFault {
    ghost use Rattle.std.specs.Prelude.{◌≡◌};
    ghost use Rattle.backlog_files.specs.declared.fault.ImportFault.TheVariants.{Station};

    ghost from_gives = { λ fault given. given ≡ Station fault };

    fn from(fault: StationFault) -> Self {
        ImportFault::Station(fault)
    }
}

/// Why the backlog file of a peer was not taken in, or not removed.
#[derive(Debug, Drop, Error)]
pub enum BacklogFault {
    /// The file at this path cannot be read, or must not be taken in, for this reason. It is left as it is.
    #[error("cannot read {path}: {reason}")]
    Unread { path: String, reason: io::Error },
    /// The file at this path was taken in but cannot be removed, for this reason.
    #[error("cannot remove {path}: {reason}")]
    Unremoved { path: String, reason: io::Error },
    /// The peer's station refused.
    #[error("{0}")]
    Station(StationFault),
    /// Memory was refused.
    #[error("NoMemory")]
    NoMemory,
}

impl BacklogFault {
    pub(crate) fn of_import(path: String, fault: ImportFault) -> Self {
        match fault {
            ImportFault::Unread(reason) => BacklogFault::Unread { path, reason },
            ImportFault::Station(fault) => BacklogFault::Station(fault),
        }
    }
}

impl From<StationFault> for BacklogFault {
    fn from(fault: StationFault) -> Self {
        BacklogFault::Station(fault)
    }
}

impl From<AllocError> for BacklogFault {
    fn from(_: AllocError) -> Self {
        BacklogFault::NoMemory
    }
}
