//! Article texts as multi-line blocks (RFC 3977, section 3.1.1), and back: lines, doubled dots, the dot that ends a
//! block.
//!
//! May touch nothing but memory; it stands on `bytes` for the block and on `memchr` for the search for line ends. The
//! crates above use `to_block`, whose block is `written` of the text's lines, `is_sendable`, and `from_block`, which
//! reads exactly the read forms of lines and otherwise returns the first fault (`specs/Lines.antt`,
//! `specs/Block.antt`, `specs/Fault.antt`), and `stored_text`, which reads what innd stores in wire format
//! (`specs/Stored.antt`). The laws of these definitions are in `laws`.
#![tactic(auto)]

mod fault;
pub mod laws;
mod read;
mod scan;
mod stored;
mod write;

pub use fault::{BlockFault, BlockRefusal};
pub use read::from_block;
pub use stored::stored_text;
pub use write::{TEXT_MAX_OCTETS, is_sendable, put_block, to_block};
