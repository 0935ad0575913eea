//! A peer's notes on their way from its front to its tape, which another thread syncs: by one queue, in order and once.
//!
//! May touch the disks of the tape, and wait for the queue. The crates above use `Sender`, a front and the pass that
//! sends: the notes sent and unsent make up the front's shape (`specs/Noted.antt`); and `Side`, a tape and the pass
//! that receives: what was received, less the kept note, makes up the tape's ledger (`specs/Owns.antt`). By the rule of
//! the queue (`specs/Relay.antt`) what was sent is what was received, followed by what the queue holds; so at `join`
//! the tape's ledger, followed by the notes that are left, has the front's shape (`specs/Folds.antt`).
#![tactic(auto)]

mod drain;
mod joined;
mod rejoin;
mod rule;
mod sender;
mod side;
mod splitting;

pub use joined::{Joined, join};
pub use rejoin::Left;
pub use rule::{InOrder, NotePass, NoteQueue, PassLog, QUEUE_MAX_NOTES, Relays, queue, split_pass};
pub use sender::Sender;
pub use side::Side;
pub use splitting::split;
