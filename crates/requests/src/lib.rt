//! Requests: how an administrator asks something of a running innfeed, by files in the backlog directory.
//!
//! May touch the files `~ask.PID` and `~answer.PID` of a directory, and their `.new` forms, and no other; it stands on
//! `funnel` for names. It starts no thread, locks nothing and makes no directory.
//! The crate above that runs makes a [`Requests`], whose `next` gives one [`Taken`] after another; with that alone an
//! answer can be written, once. The crate above that asks calls [`ask`]. A request is read and written exactly as
//! `specs/Requests.antt` says: one text for each, and for any other text its first fault.
#![tactic(auto)]

mod answer;
mod asker;
mod faults;
mod fields;
mod files;
mod laws;
mod names;
mod number;
mod reading;
mod request;
mod take;
mod words;
mod writing;

pub use answer::{Answer, AnswerStatus, read_answer, write_answer};
pub use asker::{ASK_SECONDS, AskFault, ask};
pub use faults::{FileFault, RequestFault};
pub use files::PassedReason;
pub use laws::{one_spelling, written_is_read};
pub use reading::{REQUEST_MAX_OCTETS, read_request};
pub use request::Request;
pub use take::{Found, PassedOver, Requests, Taken};
pub use writing::write_request;
