//! Reply lines of a news server (RFC 3977, sections 3.1 and 3.2), read from pieces of any size.
//!
//! May touch nothing but memory; it stands on `funnel` for message-ids and on `memchr` for the search for line ends.
//! The crates above use `ReplyReader`: whatever octets it was fed and replies it gave, after each call it stands for
//! those and the call's own (`specs/Stream.antt`, over the reply lines of `specs/Reply.antt`). The laws of these
//! definitions are in `laws`.
#![tactic(auto)]

mod fault;
pub mod laws;
mod line;
mod reader;
mod unread;

pub use fault::ReplyFault;
pub use line::Reply;
pub use reader::{REPLY_MAX_OCTETS, ReplyReader};
/// Memory was refused.
pub use std::alloc::AllocError as NoMemory;
