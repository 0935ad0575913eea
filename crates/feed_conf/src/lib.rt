//! The settings of the feed (innfeed.conf(5), in this profile): reads a configuration and returns each peer's values.
//!
//! May touch nothing but memory; it stands on `funnel` for the names of peers, on `memchr` for the search for line
//! ends, and on `itoa`, which writes numbers. The crates above use `read_conf`, which returns what
//! `specs/Settings.antt` gives as the meaning of the text's lexemes (`specs/Lexemes.antt`, `specs/Items.antt`,
//! `specs/Reading.antt`), or its first fault; what `Conf` returns of that; `explain` and `advise`, which say more of
//! a fault and of settings that are ignored (`specs/Explanation.antt`, `specs/Advice.antt`); and `read_digits`, which
//! reads a number in digits.
#![tactic(auto)]

mod advice;
mod conf;
mod digits;
mod explanation;
mod fault;
mod item;
mod key;
pub mod laws;
mod lexeme;
mod peers;
mod read;
mod reader;
mod settings;
mod table;
mod value;

pub use advice::advise;
pub use conf::{Conf, Ignored, PeerConf};
pub use digits::{DigitsFault, read_digits};
pub use explanation::explain;
pub use fault::{ConfFault, ConfFaultKind};
pub use settings::read_conf;
/// Memory was refused.
pub use std::alloc::AllocError as NoMemory;
