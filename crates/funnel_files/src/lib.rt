//! Reading a funnel, which is a file, a pipe or a directory of segments, line by line.
//!
//! May touch the funnel's files: it reads them, makes what it read of segments durable, and removes segments if it is
//! asked to. The crate above uses [`Funnel`]: `next` returns the lines as they come, and `tidy` removes the segments
//! whose lines are all acknowledged. Proved are which lines are passed over (`specs/Funnel.antt`), when segments do not
//! fit together (`Position`), when some may have become removable (`specs/Due.antt`), and that no other is removed
//! (`segment_directory.rt`); what the system's files give is tested.
#![tactic(auto)]

mod end_pace;
mod fault;
mod held_names;
mod line_file;
mod lines;
mod listing_pace;
mod plain;
mod position;
mod segment;
mod segment_directory;
mod segmented;
mod tidying;
mod watch;

pub use fault::{FewLines, FunnelFault};
pub use line_file::LineFile;
pub use lines::{Funnel, Next};
pub use position::Misfit;
