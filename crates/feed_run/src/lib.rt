//! A whole run: `run_parts` opens the tapes and the funnel and makes what the threads work with, two feeders, the
//! flusher and the intake run in their threads, and it is reported what was done.
//!
//! May touch sockets, the clock and threads, and by `run_parts` the spool of articles, the backlog directory, the
//! funnel and the status file. The crates above give [`SystemFeeds`] to `cli::run`, which reports how the run ended.
//! What is acknowledged, sent and owed is up to the crates below; here calls are proved to be safe, and to return
//! unless they wait.
#![tactic(auto)]

mod ending;
mod feeders;
mod run;
mod system;

pub use system::{SystemFeeds, feed_with};
