// What a run of steps reports.
use crate::output::Output;
use funnel::PeerName;
use ledger_core::Totals;

/// What a peer has taken, answered and dropped, and what it is owed.
#[derive(Debug, Drop)]
pub struct PeerTotals {
    pub name: PeerName,
    pub totals: Totals,
}

/// What a run of steps reported.
#[derive(Debug, Drop)]
pub struct Report {
    /// What each step reported, one value for each line.
    pub lines: Vec<Vec<Output>>,
    /// Each peer's counts, in byte order of their names; empty while all is stopped.
    pub totals: Vec<PeerTotals>,
}
