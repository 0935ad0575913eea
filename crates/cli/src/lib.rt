//! What each order of the command line does: drills, checks of a configuration, feeds, and what is printed if one
//! fails.
//!
//! May touch only the reader of files, what feeds peers, the reader and the two writers that it is given; it stands
//! on `drill`, `feed_conf` and `conf_text`, on `recovery` for the faults of tapes, on `log_writer` for the levels of
//! lines, and on `feed_ends` for what feeds peers, a trait, so that threads and sockets stay out of it. The program
//! above uses `run`: its clause says which exit status comes with which text on standard output and which line on
//! standard error (docs/MANUAL.md), and that the status is not lost if that line cannot be written. The contract of
//! `drill` says what a drill prints; that clause cites it (`specs/Ends.antt`).
#![tactic(auto)]

mod check;
mod end_lines;
mod exit;
mod fault;
mod files;
mod order;
mod runner;
mod strangers;

pub use exit::Exit;
pub use files::ReadFile;
pub use order::Order;
pub use runner::{Ended, run};

/// The version of innfeed.
pub const VERSION: &str = "0.2.0";
