//! The log of a run: a thread of its own writes it, so that nothing else waits for whoever reads it.
//!
//! May start that thread, wait for its own lock, read the clock, and write to the output that it is given. The crates
//! above share a [`RunLog`], which has a [`LogWriter`] once it has begun; [`LastLines`] takes what is written at the
//! end of a run. It is proved of the state inside the lock, [`LogQueue`], that lines come out in order, each whole, or
//! are counted in their place (`specs/LogQueue.antt`).
#![tactic(auto)]

mod last_lines;
mod leveled_write;
mod line_head;
mod log_queue;
mod log_writer;
mod output;
mod run_log;

pub use last_lines::LastLines;
pub use leveled_write::LeveledWrite;
pub use line_head::LineHead;
pub use log_queue::{LogQueue, Portion, QUEUE_MAX_LINES};
pub use log_writer::LogWriter;
pub use run_log::RunLog;
/// Memory was refused.
pub use std::alloc::AllocError as NoMemory;
