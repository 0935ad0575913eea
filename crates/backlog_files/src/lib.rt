//! Backlog files: lists of articles that an administrator puts into the backlog directory, one for a peer. They are
//! taken in as debts of that peer, and removed.
//!
//! May touch the files of that directory, and the tape of the peer. The crate above uses [`BacklogFiles`]: `take_in`
//! takes in the file of a peer, if there is one. What the lines of a file make of the peer's ledger is proved
//! (`specs/Imports.antt`: [`take_in`]); what the system's files give is tested.
#![tactic(auto)]

mod closed_source;
mod fault;
mod files;
mod import;
mod import_report;
mod same_file;
mod taken_in;

pub use closed_source::ClosedSource;
pub use fault::{BacklogFault, ImportFault};
pub use files::{BacklogFiles, Imported};
pub use import::take_in;
pub use import_report::ImportReport;
pub use taken_in::TakenIn;
