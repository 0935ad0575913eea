//! A station: all that one peer is owed, and where each debt is: ready, held by one connection, or later until a
//! moment.
//!
//! May touch the disks that it is given and nothing else; it stands on `recovery`, `deferral` and `conn_core`. It is
//! not Sync: whoever shares it puts a lock round it. The crates above use `Station`: its ledger as a
//! history of notes (`specs/Words.antt`, `StandsFor`), so that the tape's stop theorem is the station's, the places of
//! the debts as plain data (`specs/DebtPlace.antt`), and what an outcome of a connection makes of both
//! (`specs/Settled.antt`, `Finishes`). Once it is split they use the tape and its `Front`, by the same words
//! (`specs/Front.antt`, `specs/FrontCalls.antt`).
#![tactic(auto)]

mod fault;
mod front;
mod laws;
mod limits;
mod outbox;
mod place_index;
mod settled;
mod split;
mod station;
mod wait;

pub use fault::StationFault;
pub use front::Front;
pub use laws::{each_number_has_one_place, each_number_has_one_place_at, reopened};
pub use limits::{Limits, Owed, Shed};
pub use settled::{Settled, deferred_until, key_in};
pub use station::Station;
/// Memory was refused.
pub use std::alloc::AllocError as NoMemory;
