// A peer, as one feeder works for it.
use crate::told_outages::UntoldOutage;
use connections::logging::text_of;
use connections::{PeerTarget, Setbacks};
use peer_counts::FeederFigures;
use std::alloc::Global;

// How often in a run a peer's slots are tried again at once, after a connection that failed once its peer had agreed to
// a mode.
const RETRIES_MAX: u64 = 8;

/// A peer, as one feeder works for it.
#[derive(Drop)]
pub(crate) struct PeerState {
    pub target: PeerTarget,
    pub setbacks: Setbacks,
    /// How many of the resolver's answers for its host this feeder has seen.
    pub seen: u64,
    /// The second in which its host was looked up last.
    pub asked: Option<u64>,
    /// Its host is unknown, and its slots that are due are to fail for that.
    pub is_unknown: bool,
    /// Why its host could not be looked up, by the resolver's latest answer.
    pub look_up_fault: Option<String>,
    /// Why it is down, until that is told.
    pub untold: Option<UntoldOutage>,
    /// It gets no more debts in this run: its tape failed, or the spool is missing.
    pub is_closed: bool,
    /// What this feeder has of it, as it was published last; what was counted since on connections that are over is
    /// added.
    pub figures: FeederFigures,
    /// All else of it is done, and its suspects of earlier runs are offered, each once.
    pub is_last_stage: bool,
    // How often its connections may still be tried again at once.
    retries: u64,
}

impl PeerState {
    pub fn new(alloc: Global, target: PeerTarget) -> Self {
        // Two feeders share the retries.
        let retries = RETRIES_MAX / target.feeders().max(1);
        PeerState {
            target,
            setbacks: Setbacks::new(alloc),
            seen: 0,
            asked: None,
            is_unknown: false,
            look_up_fault: None,
            untold: None,
            is_closed: false,
            figures: FeederFigures::new(),
            is_last_stage: false,
            retries,
        }
    }

    /// Whether a slot may be tried again at once, after a connection that failed. Uses up one retry.
    pub fn take_retry(&mut self) -> bool {
        let is_left = self.retries > 0;
        self.retries = self.retries.saturating_sub(1);
        is_left
    }
}

/// The name of the peer with this index; empty if there is none.
pub(crate) fn name_of(peers: &[PeerState], at: usize) -> &str {
    match peers.get(at) {
        Some(peer) => text_of(&peer.target.name),
        None => "",
    }
}
