//! The arguments of innfeed's command line, and the order that they give.
//!
//! May touch nothing but the arguments that it is given; it stands on `clap`, which reads options, and on the orders
//! of `cli`. The program above uses `read_args`. It stands apart from the program because `clap` is expensive to
//! prove: here that is done once, and neither the program nor the tests of the command line prove it again.
#![tactic(auto)]

mod args;

pub use args::{Asked, read_args};
