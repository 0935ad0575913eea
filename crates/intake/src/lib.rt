//! All of a run but its feeders: tapes are opened, backlog files and the funnel's lines are taken in, and what a run
//! has done and owes is reported.
//!
//! May touch the backlog directory, the funnel, the status file and the clock, and wait for the locks of a post. The
//! crate above opens with [`open_tapes`], [`take_backlogs`] and [`open_funnel`], runs an [`IntakeWorker`] beside its
//! feeders, and ends with [`close`]. It is proved when `taken N` is printed, how lines that go nowhere are counted, how
//! many connections fit, and what a [`RunError`] adds to how a run ended.
#![tactic(auto)]

mod accounts;
mod backlogs;
mod batch_wait;
mod closing;
mod countdown;
mod disks;
mod intake_worker;
mod keeping;
mod live_files;
mod look_pace;
mod named_buffers;
mod nowhere;
mod open_files;
mod ordered;
mod owner;
mod placed_file;
mod progress;
mod run_error;
mod source;
mod spare_room;
mod status_file;
mod stop_file;
mod suspect_files;
mod tapes;
mod unknown_lines;
mod unprinted;

pub use accounts::{Accounts, account_of, read_accounts};
pub use backlogs::{OtherFiles, flush_stations, take_backlogs};
pub use closing::{WorkerShares, close, remove_stop};
pub use countdown::{Countdown, CountedWorker};
pub use intake_worker::IntakeWorker;
pub use keeping::{LineKeeper, keeper_for};
pub use live_files::LiveFiles;
pub use named_buffers::NamedBuffers;
pub use nowhere::Nowhere;
pub use open_files::most_connections;
pub use owner::refuse_root;
pub use progress::Progress;
pub use run_error::{RunError, add_all, log_reason};
pub use source::{is_followed, open_funnel};
pub use spare_room::{KeptRoom, remove_room};
pub use status_file::StatusFile;
pub use stop_file::StopFile;
pub use suspect_files::{keep_suspects, log_malformed_suspects, read_suspects};
pub use tapes::{LeftOut, Tapes, log_tape_fault, open_tapes};
pub use unknown_lines::log_unknown_lines;
pub use unprinted::Unprinted;
