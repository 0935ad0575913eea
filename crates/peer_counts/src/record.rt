// What is known of a peer: what each feeder has published last, since when it does as it does, and why it was lost.
ghost use Rattle.std.specs.Prelude.{◌≡◌, ◌≢◌, OnOk, OnErr, IfOk, [], take};
ghost use Rattle.peer_counts.specs.Figures.{no_figures};
ghost use Rattle.peer_counts.specs.Record.{figures_in, since_after};

use crate::figures::{FeederFigures, PeerFigures, figures_of, phase_of};
use std::alloc::{AllocError, Global};

const REASON_MAX_OCTETS: usize = 200;

/// A peer, as both feeders know it.
#[derive(Drop)]
pub struct LivePeer {
    pub figures: PeerFigures,
    /// Why its last connection was lost or could not be made: at most 200 octets; none if that has not happened.
    pub reason: Vec<u8>,
}

/// What is known of a peer.
#[derive(Drop)]
pub(crate) struct PeerRecord {
    first: FeederFigures,
    second: FeederFigures,
    since: u64,
    reason: Vec<u8>,
}

impl PeerRecord {
    /// Nothing was published.
    pub fn new(alloc: Global) -> Self
        ensures figures { (result.first ≡ no_figures) × (result.second ≡ no_figures) }
        ensures since { result.since ≡ 0 }
        ensures reason { result.reason.items ≡ [] }
    {
        PeerRecord {
            first: FeederFigures::new(),
            second: FeederFigures::new(),
            since: 0,
            reason: Vec::new(alloc),
        }
    }

    /// Feeder `which`, 0 or 1, has these figures in this second of the run: they take the place of those that it
    /// published before.
    pub fn publish(&mut self, which: u8, figures: FeederFigures, now: u64)
        ensures first { which ≡ 0
            → (self.new.first ≡ figures) × (self.new.second ≡ self.old.second) }
        ensures second { which ≢ 0
            → (self.new.first ≡ self.old.first) × (self.new.second ≡ figures) }
        ensures since { self.new.since ≡ since_after self.old self.new now }
        ensures reason { self.new.reason ≡ self.old.reason }
    {
        let before = phase_of(&self.first, &self.second);
        if which == 0 {
            self.first = figures;
        } else {
            self.second = figures;
        }
        if phase_of(&self.first, &self.second) != before {
            self.since = now;
        }
    }

    /// A connection was lost or could not be made, for this reason; at most 200 octets of it are kept.
    ///
    /// # Errors
    /// Memory was refused: nothing has changed.
    pub fn set_reason(&mut self, alloc: Global, reason: &[u8]) -> Result<(), AllocError>
        ensures ok { OnOk result (self.new.reason.items ≡ take 200 reason.now) }
        ensures unchanged { OnErr result (self.new ≡ self.old) }
        ensures figures { (self.new.first ≡ self.old.first) × (self.new.second ≡ self.old.second) }
        ensures since { self.new.since ≡ self.old.since }
    {
        self.reason = Vec::from_slice(alloc, head_of(reason))?;
        Ok(())
    }

    /// What both feeders have.
    pub fn figures(&self) -> PeerFigures
        ensures { result ≡ figures_in self.now }
    {
        figures_of(&self.first, &self.second, self.since)
    }

    /// All that is known.
    ///
    /// # Errors
    /// Memory was refused.
    pub fn live(&self, alloc: Global) -> Result<LivePeer, AllocError>
        ensures figures { IfOk result (λ live. live.figures ≡ figures_in self.now) }
        ensures reason { IfOk result (λ live. live.reason.items ≡ self.now.reason.items) }
    {
        let reason = Vec::from_slice(alloc, &self.reason)?;
        Ok(LivePeer {
            figures: self.figures(),
            reason,
        })
    }
}

// At most the first 200 octets of a text.
fn head_of(text: &[u8]) -> &[u8]
    ensures { result.now ≡ take 200 text.now }
{
    if text.len() <= REASON_MAX_OCTETS {
        text
    } else {
        &text[..REASON_MAX_OCTETS]
    }
}
