// What a run has done so far, for those who watch it.
use funnel::PeerName;
use ledger_core::Totals;
use peer_counts::PeerFigures;

/// What a run has done so far.
#[derive(Clone, Copy)]
pub struct LiveReport<'a> {
    /// When this was written, in seconds since 1970.
    pub written: u64,
    /// When the run began, in seconds since 1970.
    pub started: u64,
    /// For how many seconds the run has gone on.
    pub uptime: u64,
    /// Up to which number lines are acknowledged.
    pub acknowledged: u64,
    /// In byte order of their names.
    pub peers: &'a [LiveStatus<'a>],
}

/// The figures of one peer.
#[derive(Clone, Copy)]
pub struct LiveStatus<'a> {
    pub name: &'a PeerName,
    /// What its ledger counts.
    pub totals: Totals,
    /// What the feeders count.
    pub figures: PeerFigures,
    /// Why its last connection was lost or could not be made; empty if that has not happened.
    pub reason: &'a [u8],
}
