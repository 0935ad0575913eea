//! The segments of a funnel: files of one directory that have its lines one after another, each named after its first.
//!
//! May touch nothing but memory: the directory and its files are the caller's. The crates above use [`read_name`] and
//! [`name_of`], which go from names to numbers and back (`specs/Names.antt`), and [`Segments`] as the rising list of
//! the numbers of first lines (`specs/Firsts.antt`): which segment has the next line, which comes after one, and which
//! come before one. A [`Listing`] takes the names of a directory in any order and becomes that list. [`laws`] says why
//! the next line is found whatever a crash leaves (`specs/Stops.antt`).
#![tactic(auto)]

pub mod laws;
mod listing;
mod name;
mod place;
mod segments;

pub use listing::Listing;
pub use name::{NameFault, name_of, read_name};
pub use place::SegmentPlace;
pub use segments::{AddFault, Segments};
/// Memory was refused.
pub use std::alloc::AllocError as NoMemory;
