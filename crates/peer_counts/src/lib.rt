//! What became of the debts of each peer, counted by the feeders of a run while it goes on.
//!
//! May touch nothing but what the feeders and the intake share, behind locks. It stands on `std` alone.
//! The crates above count into a [`PeerCounts`], and share a [`CountTable`]: each feeder publishes there what it has
//! counted for a peer, and the intake reads the sum of both. What a lock guards has exact contracts (`specs/`).
#![tactic(auto)]

mod count_table;
mod counts;
mod figures;
mod record;

pub use count_table::CountTable;
pub use counts::PeerCounts;
pub use figures::{FeederFigures, PeerFigures, PeerPhase};
pub use record::LivePeer;
