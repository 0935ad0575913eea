//! What a feed is asked for, and how it ended: the seam between what the program prints and what feeds peers.
//!
//! May touch nothing: it has a trait and plain values, over `feed_conf` for settings and `recovery` for the faults of
//! tapes. The crates above use [`Feeds`]: one makes calls of it and reports each [`FeedEnd`], and another feeds peers.
//! Neither stands on the other. The clauses of the trait say what a call made of the value and of what was written, by
//! `fed` and `listed`, which each implementation may choose.
#![tactic(auto)]

mod feed_end;
mod feeds;
mod listing;
mod source;

pub use feed_end::{FeedEnd, FileError, Owing, TapeError};
pub use feeds::Feeds;
pub use listing::{Listing, Scope};
pub use source::Source;
