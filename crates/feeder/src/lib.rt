//! Feeders: each is the work of one thread, and runs its share of the connections to all peers over real sockets.
//!
//! May touch sockets, the clock, a store of articles, the resolver, and the stations of a post, and wait for their
//! locks.
//! The crates above make a [`Feeder`] for each thread, which share a `SpoolTally`, `Suspects` and `Outages` of
//! `connections`, and run it as a [`flusher::Work`]; connection k of each peer belongs to feeder k mod 2. What a feeder
//! does in a turn is proved safe, and that it takes nothing to a station but what a connection gave. What is decided of
//! connections has its contracts in `connections`; here that is how long a feeder sleeps.
#![tactic(auto)]

mod connecting;
mod fault;
mod feeder;
mod feeder_turns;
mod peer_state;
mod post_view;
mod publishing;
mod service;
mod service_list;
mod shutdown;
mod told_outages;
mod uptime;
mod wake_reason;

pub use fault::FeederFault;
pub use feeder::Feeder;
