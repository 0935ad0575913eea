// Why lines were not kept.
ghost use Rattle.std.specs.Prelude.{◌≡◌};
ghost use Rattle.kept_lines.specs.declared.fault.KeepFault.TheVariants.{Disk, NoMemory};

use disk_model::DiskFault;
use std::alloc::{AllocError, AllocFailed};

/// Why lines were not kept.
#[derive(Clone, Copy, Debug, PartialEq, Eq)]
pub enum KeepFault {
    /// The file of a peer that is left out could not be written or synced: [`crate::Keeper::lost`] has its name.
    Disk,
    /// Memory was refused.
    NoMemory,
}

impl From<AllocError> for KeepFault {
    ghost from_gives = { λ _ fault. fault ≡ NoMemory };

    fn from(_: AllocError) -> Self {
        KeepFault::NoMemory
    }
}

impl<T: Drop> From<AllocFailed<T>> for KeepFault {
    ghost from_gives = { λ _ fault. fault ≡ NoMemory };

    fn from(_: AllocFailed<T>) -> Self {
        KeepFault::NoMemory
    }
}

impl From<DiskFault> for KeepFault {
    ghost from_gives = { λ _ fault. fault ≡ Disk };

    fn from(_: DiskFault) -> Self {
        KeepFault::Disk
    }
}
