//! The text of a configuration that was read: all its settings in force, in the form of innfeed.conf(5).
//!
//! May touch nothing but memory; it stands on `feed_conf` for the settings and on `itoa`, which writes numbers. The
//! crates above use `conf_text`, which returns the text that `specs/ConfText.antt` defines. If that text is read
//! again, it gives the same settings, and nothing is ignored or limited.
#![tactic(auto)]

mod file;
mod line;
mod peer;

pub use file::conf_text;
/// Memory was refused.
pub use std::alloc::AllocError as NoMemory;
