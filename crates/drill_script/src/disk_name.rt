// The name of a disk of a tape, as a script's `tape` line has it (docs/FORMATS.md).
ghost use Rattle.std.specs.Prelude.{◌≡◌, IfOk, List, MatchOption, Option, ℕ};

use crate::stop_request::INTAKE;
use funnel::PeerName;
use std::alloc::{AllocError, Global};

/// One of the two disks of a tape.
#[derive(Clone, Copy, Debug, PartialEq, Eq)]
pub enum TapeDisk {
    First,
    Second,
}

/// A disk of a tape.
#[derive(Drop)]
pub struct DiskName {
    /// The peer of the tape; `None` for the intake's.
    pub peer: Option<PeerName>,
    pub disk: TapeDisk,
}

impl DiskName {
    ghost use Rattle.drill_script.specs.DiskName.{Names, NamesTape};
    ghost use Rattle.drill_script.specs.declared.disk_name.DiskName.{DiskName};

    /// Reads `TAPE` for the first disk or `TAPE~b` for the second; `None` if the word is neither. TAPE is a peer's name
    /// or `~intake`.
    ///
    /// # Errors
    /// Memory was refused.
    pub(crate) fn read(alloc: Global, word: &[u8]) -> Result<Option<DiskName>, AllocError>
        ensures { IfOk result (λ name. MatchOption name
            ((other : DiskName) → Names word.now other → ⊥) (Names word.now)) }
    {
        match word.strip_suffix(b"~b") {
            Some(tape) => DiskName::of_tape(alloc, tape, TapeDisk::Second),
            None => DiskName::of_tape(alloc, word, TapeDisk::First),
        }
    }

    // This disk of the tape of this name.
    fn of_tape(alloc: Global, tape: &[u8], disk: TapeDisk) -> Result<Option<DiskName>, AllocError>
        ensures { IfOk result (λ name. MatchOption name
            ((peer : Option (List ℕ)) → NamesTape tape.now peer → ⊥)
            (λ name. (name.disk ≡ disk) × NamesTape tape.now name.peer)) }
    {
        if tape == INTAKE {
            return Ok(Some(DiskName { peer: None, disk }));
        }
        match PeerName::read(alloc, tape)? {
            Some(name) => Ok(Some(DiskName {
                peer: Some(name),
                disk,
            })),
            None => Ok(None),
        }
    }
}
