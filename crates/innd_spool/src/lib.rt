//! Articles where innd keeps them: a store that reads innd's own spool by the tokens of its storage API, and a folder
//! of copies for all other tokens.
//!
//! May touch files, which it only reads and syncs; it stands on `innd_storage` for the formats of the spool, on
//! `dot_codec` for articles in wire format, and on `header_fields` for the message-id that an article has. The crates
//! above use `InndSpool` as a `SpoolDirectory` of `article_store`: its `fetch_for` hands out only articles that can be
//! sent and have the message-id that is asked for, and says `Gone` only if it knows where to look
//! (`specs/Spools.antt`). [`has_articles`] says whether the directory of innd's articles is mounted, and
//! [`BufferSync`] syncs a buffer of CNFS.
#![tactic(auto)]

mod article_file;
mod buffer_article;
mod buffer_sync;
mod buffers;
mod faults;
mod files;
mod groups;
mod looks;
mod reads;
mod spool;
mod texts;

pub use buffer_sync::BufferSync;
pub use files::has_articles;
pub use spool::InndSpool;
/// Memory was refused.
pub use std::alloc::AllocError as NoMemory;
