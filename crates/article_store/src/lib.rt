//! Article texts under their tokens: a trait for stores, a store in memory for drills and tests, and a store of files
//! below a directory.
//!
//! May touch memory, and `Folder` the files of its directory, which it only reads; it stands on `funnel` for tokens,
//! on `dot_codec` for which texts have a written form, on `memchr` for the search for octets that no text may have, and
//! on `bytes`, by which a text is shared and not copied.
//! The crates above use the trait `Articles`: its `fetch` hands out only texts that have a written form, and by its
//! member `says` a store says which text is under a token (`specs/Finds.antt`).
#![tactic(auto)]

mod copy;
mod folder;
mod front;
mod mem;
mod store;
mod unsendable;

pub use folder::{Folder, read_article};
pub use front::read_front;
pub use mem::MemArticles;
pub use std::alloc::AllocError as NoMemory;
pub use store::{Articles, Found, SpoolDirectory, StoreFault};
pub use unsendable::{Unsendable, unsendable_cause};
