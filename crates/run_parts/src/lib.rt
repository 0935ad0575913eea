//! The parts of a run that need no feeder: what is opened and made before its threads start, what the threads use of
//! the system, and what is left and reported once they have ended.
//!
//! May touch the spool of articles, the clock and the log, and by `intake` the backlog directory, the funnel and the
//! status file; it opens no socket and starts no thread. The crate above opens a run ([`open_run`]), makes its parts
//! ([`prepare_run`]), runs them, and ends it ([`close_run`], [`OpenRun::end`]). It is proved which target and which
//! host each peer has, that each station of a run can be split, and that a failed sync stays failed.
#![tactic(auto)]

mod env;
mod feeding;
mod left;
mod opening;
mod places;
mod prepared;
mod spool;
mod spool_sync;
mod start_and_end;
mod suspects;
mod taking;
mod targets;
mod thread_runtime;

pub use env::RunEnv;
pub use feeding::Feeding;
pub use left::{LeftIntake, LeftWorkers, add_unread, close_run, left_by};
pub use opening::{Backlogs, OpenRun, OpenTapes, Request, open_run};
pub use prepared::{Prepared, Ready, prepare_run};
pub use spool::{HostSpool, HostSpools, SpoolPaths, Spools};
pub use spool_sync::{SpoolSync, SyncedBuffers};
pub use suspects::keep_all;
pub use taking::Taking;
pub use targets::by_name;
pub use thread_runtime::{LoggedSystem, System, ThreadRuntime};
