//! One NNTP connection of a feeder as a value: debts, replies and articles go in; commands and outcomes come out.
//!
//! May touch nothing but memory; it stands on `reply_reader` for replies, on `dot_codec` for blocks, on `ledger_core`
//! for debts. The crates above use `Conn`: each call says what it makes of every transcript that the connection
//! stands for (`specs/Stands.antt`, over the transcript of `specs/History.antt`). What holds over whole transcripts
//! is in the crate `conn_laws`.
#![tactic(auto)]

mod article;
mod check_switch;
mod codes;
mod conn;
mod deferral;
mod held;
mod kept;
mod lines;
mod lookup;
mod machine;
mod mode;
mod offer;
mod options;
mod outcome;
mod phase;
mod quiet;
mod ready;
mod reason;
mod verdict;

pub use article::ArticleFault;
pub use codes::Meaning;
pub use conn::Conn;
pub use deferral::Deferral;
pub use mode::Mode;
pub use offer::{Back, OfferFault};
pub use options::{CxnId, Options};
pub use outcome::Outcome;
pub use ready::Ready;
pub use reason::Reason;
/// Memory was refused.
pub use std::alloc::AllocError as NoMemory;
pub use verdict::Verdict;
