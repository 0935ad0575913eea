//! Lines of the funnel that no tape takes: those of peers that are left out of a run, and those that name unknown
//! peers. They are kept in files beside the tapes.
//!
//! May touch the disks that it is given. The crate above reads a batch of lines ([`ReadLines`]), has a [`Keeper`] keep
//! them, and takes only the [`KeptLines`] that it returns: what a line names besides the run's peers is durable by
//! then. What is written, and what a stop may leave of it, is `specs/Kept.antt` and `specs/Texts.antt`.
#![tactic(auto)]

mod fault;
mod keeper;
mod kept_file;
mod names;
mod read_line;
mod texts;

pub use fault::KeepFault;
pub use keeper::{Keeper, KeptLines, UnknownKept};
pub use kept_file::KeptFile;
pub use read_line::{ReadLine, ReadLines, Reading};
