//! Drills: a script's steps, taken by a world whose disks are in memory, and the lines that report them.
//!
//! May touch the reader and the writer that it is given and nothing else; it stands on `drill_script` for what is
//! read and on `world_core` for what is run. The crates above use `run_script` (docs/FORMATS.md), whose contract says
//! what is printed and how a drill ends, by the script that the text is and the run of its steps
//! (`specs/Drill.antt`). The laws of whole runs hold of each drill (`laws`).
#![tactic(auto)]

mod ending;
pub mod laws;
mod play;
mod print;
mod runner;

pub use drill_script::BrokenRule;
pub use ending::{Ending, Refusal, TapeRefusal, Why};
pub use runner::run_script;
pub use world_core::Fault;
