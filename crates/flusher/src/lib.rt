//! The fronts and the tapes of all peers, each under a lock of its own, what is counted of them, and the flusher.
//!
//! May touch the disks of the tapes, and wait for locks.
//! The crates above use `Post`: no call of it syncs a disk while it has the lock of a front. What the threads count is
//! kept by six token ledgers (`share.rt` says what those are).
#![tactic(auto)]

mod article_sync;
mod calls;
mod claiming;
mod closing;
mod fault;
mod flushes;
mod flushing;
mod front_desk;
mod naming;
mod noted;
mod pace;
mod peer;
mod post;
mod read_ahead;
mod reported;
mod room;
mod rooms;
mod rounds;
mod sealing;
mod share;
mod signals;
mod stray;
mod taking;
mod tally;
mod tape_desk;
mod threads;

pub use article_sync::{ArticleSync, NoSync, Unsynced};
pub use closing::{CloseFault, ClosedPeer, ClosedPost, Unclosed};
pub use fault::PostFault;
pub use flushes::Flusher;
pub use naming::{Blanks, Naming};
pub use pace::{Free, Pace, Place, Who};
pub use peer::{PostPeer, Sums};
pub use post::Post;
pub use reported::Reported;
pub use sealing::{PlaceProgress, Receipt, SyncedLine, TakenLine};
pub use share::{FeederShare, IntakeShare};
pub use signals::Signals;
pub use stray::Stray;
pub use threads::{NoThread, Work, run_feeders, run_threads};
