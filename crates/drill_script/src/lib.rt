//! The reader of drill scripts: it returns which peers a script declares, what their tapes hold at first and which
//! step each line says, or its first broken line.
//!
//! May touch nothing but memory; it stands on `feed_conf` and `funnel` for the peers and their names, on `world_core`
//! for the steps, on `article_store` and `disk_model` for what they carry. The crates above use `read_script`
//! (docs/FORMATS.md), and to explain its faults `read_number`, `split_peer` and `write_peer`, by which it reads.
//! `specs/Line.antt` defines form by form what each line says, `specs/Script.antt` what a whole script is and which
//! line is its first broken one.
#![tactic(auto)]

mod action;
mod disk_name;
mod draft;
mod fault;
pub mod laws;
mod numbers;
mod peer;
mod read;
mod sentence;
mod step;
mod stop_request;
mod words;

pub use fault::{BrokenRule, ScriptFault};
pub use numbers::read_number;
pub use peer::{split_peer, write_peer};
pub use read::{Script, read_script};
/// Memory was refused.
pub use std::alloc::AllocError as NoMemory;
