//! The lines that explain why a line of a drill script is refused: which word of it, in which column, and what is
//! expected there.
//!
//! May touch nothing but memory; it stands on `drill_script` for the faults and forms of scripts, on `feed_conf` for
//! the settings of a peer, on `funnel` for names, and on `itoa`, which writes numbers. The crates above use
//! `explain_fault`, whose lines `specs/FaultText.antt` defines.
#![tactic(auto)]

mod explain;
mod line;
mod misfit;
mod part;
mod settings;

pub use explain::explain_fault;
/// Memory was refused.
pub use std::alloc::AllocError as NoMemory;
