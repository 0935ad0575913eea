//! The connections of a feeder to its peers: each with its socket, and what is decided and logged of them.
//!
//! May touch the sockets that it is given, a store of articles, and what the feeders of a run share, behind locks. It
//! knows no station: what became of a debt leaves a connection as a [`GivenOutcome`], which nobody else can make.
//! The crate above makes each [`PeerConnection`] and moves it on, and asks what is decided: when a slot is tried again
//! ([`Slot`]), at which address ([`PeerTarget`]), at which debt a connection failed, which missing article is dropped,
//! when a suspect is offered, and when a peer counts as down. Each of these has a contract (`specs/`).
#![tactic(auto)]

mod answer_counts;
mod article_source;
mod blame;
mod close_reason;
mod conn_calls;
mod debt_texts;
mod deferrals;
mod descriptors;
mod drop_count;
mod feeder_parts;
mod feeder_spool;
mod given_outcome;
mod kept_texts;
mod large_rooms;
mod last_stage;
mod line_head;
pub mod logging;
mod login_failure;
mod login_stage;
mod missing;
mod outages;
mod peer_connection;
mod peer_reach;
mod setbacks;
mod slot;
mod spool;
mod spool_tally;
mod suspect_list;
mod suspects;
mod target;
mod unread_paths;

pub use article_source::{ArticleSource, texts_are_of_their_debts};
pub use debt_texts::texts_of;
pub use deferrals::Deferrals;
pub use drop_count::DroppedArticle;
pub use feeder_parts::FeederParts;
pub use feeder_spool::FeederSpool;
pub use given_outcome::{GivenOutcome, ReturnTicket};
pub use large_rooms::LargeRooms;
pub use last_stage::{ClaimStep, claim_step, stage_moment};
pub use missing::{OutcomeStep, due_at, kept_until, step_of};
pub use outages::Outages;
pub use peer_connection::{ConnectionOwner, PeerConnection};
pub use setbacks::Setbacks;
pub use slot::Slot;
pub use spool::Spool;
pub use spool_tally::{SpoolRule, SpoolTally};
pub use suspects::Suspects;
pub use target::PeerTarget;
pub use unread_paths::UnreadPaths;
