// What one feeder has of a peer, and what both have together.
ghost use Rattle.std.specs.Prelude.{◌≡◌};
ghost use Rattle.peer_counts.specs.Figures.{earlier_of, figures_of, no_figures, phase_of};

use crate::counts::PeerCounts;

/// What one feeder has of a peer.
#[derive(Clone, Copy)]
pub struct FeederFigures {
    /// What it has counted since the run began.
    pub counts: PeerCounts,
    /// How many of its connections the peer has agreed to a mode on, and are not closed.
    pub connections: u64,
    /// How many debts are on its connections.
    pub in_flight: u64,
    /// The second of the run in which it tries the peer again, if one of its slots waits for that.
    pub waits_until: Option<u64>,
    /// Whether the peer's tape failed.
    pub has_failed: bool,
}

/// How a peer does.
#[derive(Clone, Copy, PartialEq, Eq)]
pub enum PeerPhase {
    /// There is no connection, and none is waited for.
    Idle,
    /// There is a connection on which it agreed to a mode.
    Up,
    /// There is no such connection, and it is tried again later.
    Waiting,
    /// Its tape failed.
    Failed,
}

/// What both feeders have of a peer.
#[derive(Clone, Copy)]
pub struct PeerFigures {
    /// What they have counted since the run began.
    pub counts: PeerCounts,
    /// On how many connections the peer has agreed to a mode.
    pub connections: u64,
    /// How many debts are on connections.
    pub in_flight: u64,
    pub phase: PeerPhase,
    /// Since which second of the run it is in that phase.
    pub since: u64,
    /// The second of the run in which it is tried again, if a slot waits for that.
    pub retry: Option<u64>,
}

impl FeederFigures {
    /// Those of a feeder that has done nothing.
    pub fn new() -> Self
        ensures { result ≡ no_figures }
    {
        FeederFigures {
            counts: PeerCounts::new(),
            connections: 0,
            in_flight: 0,
            waits_until: None,
            has_failed: false,
        }
    }
}

/// How a peer does of which two feeders have this.
pub(crate) fn phase_of(first: &FeederFigures, second: &FeederFigures) -> PeerPhase
    ensures { result ≡ phase_of first.now second.now }
{
    if first.has_failed || second.has_failed {
        PeerPhase::Failed
    } else if first.connections > 0 || second.connections > 0 {
        PeerPhase::Up
    } else if first.waits_until.is_some() || second.waits_until.is_some() {
        PeerPhase::Waiting
    } else {
        PeerPhase::Idle
    }
}

/// What two feeders have of a peer that is in its phase since this second.
pub(crate) fn figures_of(first: &FeederFigures, second: &FeederFigures, since: u64) -> PeerFigures
    ensures { result ≡ figures_of first.now second.now since }
{
    PeerFigures {
        counts: first.counts.plus(&second.counts),
        connections: first.connections.saturating_add(second.connections),
        in_flight: first.in_flight.saturating_add(second.in_flight),
        phase: phase_of(first, second),
        since,
        retry: earlier_of(first.waits_until, second.waits_until),
    }
}

// The earlier of two seconds that may be there.
fn earlier_of(first: Option<u64>, second: Option<u64>) -> Option<u64>
    ensures { result ≡ earlier_of first second }
{
    match (first, second) {
        (Some(first), Some(second)) => Some(first.min(second)),
        (Some(first), None) => Some(first),
        (None, second) => second,
    }
}
