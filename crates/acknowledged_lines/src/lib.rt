//! Up to which line of a funnel all lines are acknowledged, as the intake's tape says.
//!
//! May touch nothing but memory: the tape is the caller's. It stands on `recovery` for that tape. The crates above use
//! [`Acknowledged`] as a number that a tape with nothing pending has noted: what is deleted for good, and what is told
//! to be acknowledged, goes by it.
#![tactic(auto)]

mod acknowledged;

pub use acknowledged::Acknowledged;
