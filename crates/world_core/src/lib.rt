//! Worlds: all peers of a feed, the intake's tape and the connections, as steps move them; and any stop (a crash) and
//! restart of them.
//!
//! [`World::run`] takes a list of steps. It may touch nothing but memory: its tapes lie on disks in memory, which a
//! stop may cut off before or within any call. The crates above use the contract of `run` alone: what a world has been
//! through is a value of the definitions (`specs/Past.antt`), each step makes the next such value (`specs/Runs.antt`),
//! and at each moment whatever a stop leaves holds every acknowledged note (`specs/Safe.antt`).
#![tactic(auto)]

mod connection;
mod connections;
mod fault;
mod halt;
mod imports;
pub mod laws;
mod lines;
mod make;
mod output;
mod peer;
mod report;
mod restart;
mod run;
mod stations;
mod step;
mod stop;
mod stops;
mod tape_steps;
mod tapes;
mod world;

pub use fault::{Fault, TapesFault, WorldFault};
pub use output::{Handed, Output, OwedAt};
pub use report::{PeerTotals, Report};
pub use step::Step;
pub use world::World;
