//! The fields in the header of an article (RFC 5536, section 2.2): the message-id that the article has.
//!
//! May touch nothing but memory; it stands on `funnel` for the form of a message-id. The crates above use `message_id`,
//! which returns exactly what the header's one field Message-ID has (`specs/Header.antt`).
#![tactic(auto)]

mod header;

pub use header::message_id;
/// Memory was refused.
pub use std::alloc::AllocError as NoMemory;
