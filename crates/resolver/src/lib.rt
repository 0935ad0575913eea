//! Looks hosts up in threads of the resolver's own, so that no thread that feeds waits for a name.
//!
//! May start threads, wait for its own two locks, look names up by the [`LookUp`] that it is given, and wake polls.
//! The crates above share a [`Resolver`]: they ask for a host and go on, and take its news when they are woken. At
//! most 8 look-ups run at once, and there is never a second one for a host that is being looked up or waits for it:
//! those are contracts of the state inside the lock (`src/look_up_queue.rt`, `specs/LookUpQueue.antt`).
#![tactic(auto)]

mod host;
mod latest_answer;
mod look_up;
mod look_up_queue;
mod resolver;

pub use host::{Answer, Host};
pub use look_up::{LookUp, SystemLookUp};
pub use resolver::Resolver;
/// Memory was refused.
pub use std::alloc::AllocError as NoMemory;
