//! Batches of articles as news systems hand them on: which line comes before an article, and which token is waiting for
//! an article with a message-id.
//!
//! May touch nothing but memory. The crates above use `article_length`, which reads the line before an article, and
//! `Waiting`, which holds the token of the article for each message-id. The message-id in an article's header is what
//! `message_id` of `header_fields` returns.
#![tactic(auto)]

mod batch_line;
mod waiting;

pub use batch_line::article_length;
/// Memory was refused.
pub use std::alloc::AllocError as NoMemory;
pub use waiting::Waiting;
