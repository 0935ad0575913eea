//! The status report: a line for each peer, with what it was given and what it is owed.
//!
//! May touch nothing but the writer that it is given, and takes no memory; it stands on `funnel` for names and on
//! `ledger_core` for what a ledger counts.
//! The crates above use `report`: its clauses give the whole text (`specs/Report.antt`); if the writer fails, a prefix
//! of it was written.
#![tactic(auto)]

mod columns;
mod family;
mod json;
mod lines;
mod live;
mod metrics;
mod pieces;
mod put;

pub use json::write_json;
pub use lines::{PeerStatus, ReportFault, report};
pub use live::{LiveReport, LiveStatus};
pub use metrics::write_metrics;
