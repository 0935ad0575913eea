//! The names and the lines of a news server's outgoing feed: message-ids, tokens, names of peers, funnel lines, and the
//! lines of backlog files.
//!
//! May touch nothing but memory; it stands on `memchr`, which finds line ends. The crates above use the three names, as
//! lists of octets that keep their form (`specs/Names.antt`); `read_line` and `read_backlog_line`, which read exactly
//! the lines of `specs/Line.antt` and report the first fault of any other; `LineCutter`, which returns the lines of
//! what it was fed, whatever the pieces, and `first_line`, which takes one (`specs/Stream.antt`); and `next_word`,
//! which takes the words of any text one by one (`specs/Words.antt`).
#![tactic(auto)]

mod backlog_line;
mod cutter;
mod line;
mod malformed;
mod names;
mod words;

pub use backlog_line::{read_backlog_line, reads_backlog_once};
pub use cutter::{LineCutter, first_line, splits_once};
pub use line::{FunnelLine, LINE_MAX_OCTETS, LineFault, read_line, reads_once, without_cr};
pub use malformed::Malformed;
pub use names::{Form, MsgId, MsgIdForm, Name, PeerName, PeerNameForm, Token, TokenForm};
/// Memory was refused.
pub use std::alloc::AllocError as NoMemory;
pub use words::next_word;
