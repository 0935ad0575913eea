//! That each call of the feeder's threads under a lock is a *section* of `sections`, or a few, one after another: what
//! its contract says is the section's equation. So the laws of `sections` hold of what the threads do.
//!
//! Runs nothing: each function has an empty body, and its contract is a law. A law begins from a station's past for
//! which what the lock keeps stands (`specs/Stands.antt`, `specs/Ends.antt`), and from all that the call's contract
//! says (`specs/FrontClauses.antt`, `specs/SideClauses.antt`); it gives the sections, by the call's answer, and a later
//! past for which what the lock keeps stands then. What the other lock keeps stands for that, too.
#![tactic(auto)]

pub mod ends;
pub mod fronts;
pub mod receipts;
pub mod runs;
pub mod sides;
