//! Moves octets between a connection and a link, in turns: what is put out is sent, what comes is taken in.
//!
//! May touch a connection, and a link that it is given; only `SocketLink` touches a socket. It stands on `conn_core`.
//! The crates above use `drive`, or `put_out` and `take_in`, over a `Link`: each call says what it makes of every
//! transcript that the connection stands for, as a chain of sends and receipts (`specs/Chain.antt`). `laws` says of
//! whole chains that octets go and come in order, with nothing lost and nothing repeated.
#![tactic(auto)]

pub mod laws;
mod link;
mod memory;
mod moved;
mod socket;
mod turn;

pub use link::Link;
pub use memory::{End, MemLink};
pub use moved::Moved;
pub use socket::SocketLink;
pub use turn::{Driven, drive, put_out, take_in};
