//! The formats of innd's spool: tokens of its storage API, and what they name in a tradspool, among the files of
//! timehash, and in the buffers of CNFS.
//!
//! May touch nothing but memory: the spool's files are the caller's. The crates above use [`read_token`], which reads
//! the place that a token means (`specs/Tokens.antt`); [`timehash_path`] and [`tradspool_path`], the file there
//! (`specs/Paths.antt`); [`read_map_line`] and [`read_cycbuff_line`], lines of the files that say where newsgroups and
//! buffers are (`specs/MapLines.antt`, `specs/CycbuffLines.antt`); and [`read_header`], [`is_set`] and
//! [`read_article_head`], what lies in a buffer (`specs/Cycbuffs.antt`, `specs/ArticleHeads.antt`).
#![tactic(auto)]

mod article_head;
mod buffer_name;
mod cycbuff;
mod cycbuff_line;
mod map_line;
mod numbers;
mod paths;
mod places;
mod token;

pub use article_head::{ArticleHead, bits_offset, is_set, read_article_head};
pub use buffer_name::BufferName;
pub use cycbuff::{ARTICLE_HEAD_OCTETS, CycbuffHeader, HEADER_OCTETS, HeaderFault, read_header};
pub use cycbuff_line::{CycbuffLine, CycbuffLineFault, read_cycbuff_line};
pub use map_line::{MapLine, read_map_line};
pub use paths::{timehash_path, tradspool_path};
/// Memory was refused.
pub use std::alloc::AllocError as NoMemory;
pub use token::{CnfsToken, StorageToken, TimehashToken, TokenFault, TradspoolToken, read_token};
