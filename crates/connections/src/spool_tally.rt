// What the feeders of a run share about their spool.
use crate::drop_count::{DroppedArticle, PeerDrops};
use crate::logging::{log_drops, log_none_found, text_of};
use crate::missing::{MissingTokens, is_kept};
use funnel::{PeerName, Token};
use ledger_core::Cause;
use log::Log;
use std::alloc::{AllocError, Global};
use std::sync::atomic::{AtomicBool, AtomicU64, Ordering};
use std::sync::{Mutex, Wait};

/// What the feeders of a run share about their spool: whether an article was found, which were missing until then, and
/// how many were dropped for each peer. It writes the lines about these.
#[derive(Drop)]
pub struct SpoolTally {
    // The path of the spool's directory.
    path: String,
    has_found: AtomicBool,
    // Twenty articles were missing, and none had been found.
    has_none: AtomicBool,
    // How many feeders have ended.
    ended: AtomicU64,
    counts: Mutex<SpoolCounts>,
}

#[derive(Drop)]
struct SpoolCounts {
    missing: MissingTokens,
    // Whether it was told that none was found.
    is_told: bool,
    // In the order of the stations.
    peers: Vec<PeerDrops>,
}

impl SpoolTally {
    /// Nothing is counted for any of `peers` peers. `path` is that of the spool's directory (`news-spool`).
    ///
    /// # Errors
    /// Memory was refused.
    pub fn new(alloc: Global, path: &str, peers: usize) -> Result<Self, AllocError> {
        let mut drops = Vec::new(alloc);
        for _ in 0..peers {
            drops.push(PeerDrops::new())?;
        }
        Ok(SpoolTally {
            path: String::from_str(alloc, path)?,
            has_found: AtomicBool::new(false),
            has_none: AtomicBool::new(false),
            ended: AtomicU64::new(0),
            counts: Mutex::new(SpoolCounts {
                missing: MissingTokens::new(alloc),
                is_told: false,
                peers: drops,
            }),
        })
    }

    /// Logs at the end of a run, after both feeders, what was dropped since it was logged last: for each of these
    /// peers, the names of which are in the order of their stations. If articles were missing and none was found, that
    /// is logged, too, unless it was before.
    pub fn log<R: Wait + Log>(&self, rt: &R, names: &[PeerName]) {
        for (peer, name) in names.iter().enumerate() {
            self.log_peer(rt, peer, text_of(name));
        }
        if let Some(count) = self.untold(rt) {
            log_none_found(rt, self.path.as_str(), count);
        }
    }

    /// Logs what was dropped for this peer since it was logged last.
    pub fn log_peer<R: Wait + Log>(&self, rt: &R, peer: usize, name: &str) {
        if let Some(drops) = self.take_drops(rt, peer) {
            log_drops(rt, name, &drops);
        }
    }

    /// Logs that no article was found, if some were missing.
    pub fn log_none_found<R: Wait + Log>(&self, rt: &R) {
        let count = self.missing(rt);
        if count > 0 {
            log_none_found(rt, self.path.as_str(), count);
        }
    }

    /// Whether an article of the run was found.
    pub fn has_found(&self) -> bool {
        self.has_found.load(Ordering::SeqCst)
    }

    /// An article was found.
    pub(crate) fn set_found(&self) {
        if !self.has_found() {
            self.has_found.store(true, Ordering::SeqCst);
        }
    }

    /// Whether twenty articles were missing before one was found.
    pub(crate) fn has_none(&self) -> bool {
        self.has_none.load(Ordering::SeqCst)
    }

    /// A feeder has ended. Returns whether the other has, too.
    pub fn end(&self) -> bool {
        self.ended.fetch_add(1, Ordering::SeqCst) > 0
    }

    /// How many different articles were missing, at most 20, if none was found; otherwise 0.
    pub fn missing<R: Wait>(&self, rt: &R) -> usize {
        if self.has_found() {
            0
        } else {
            self.counts.lock(rt).missing.count()
        }
    }

    /// The article under this token is missing, and none was found yet. The twentieth is logged as the spool's fault.
    /// If memory is refused, it is not counted.
    pub fn add_missing<R: Wait + Log>(&self, rt: &R, token: &Token) {
        let mut counts = self.counts.lock(rt);
        let _ = counts.missing.add(token);
        if counts.missing.is_full() && !counts.is_told {
            counts.is_told = true;
            let count = counts.missing.count();
            drop(counts);
            self.has_none.store(true, Ordering::SeqCst);
            log_none_found(rt, self.path.as_str(), count);
        }
    }

    /// An article was dropped for this peer and this cause: `None` if memory was refused for its words.
    pub fn add_drop<R: Wait>(
        &self,
        rt: &R,
        peer: usize,
        cause: Cause,
        article: Option<DroppedArticle>,
    ) {
        if let Some(drops) = self.counts.lock(rt).peers.get_mut(peer) {
            drops.add(cause, article);
        }
    }

    // What was dropped for this peer since the last call.
    fn take_drops<R: Wait>(&self, rt: &R, peer: usize) -> Option<PeerDrops> {
        let mut counts = self.counts.lock(rt);
        let drops = counts.peers.get_mut(peer)?;
        Some(drops.take())
    }

    // How many articles were missing, if none was found and that was not told yet.
    fn untold<R: Wait>(&self, rt: &R) -> Option<usize> {
        let count = self.missing(rt);
        if count == 0 || self.counts.lock(rt).is_told {
            None
        } else {
            Some(count)
        }
    }
}

/// What becomes of articles that are missing, for one feeder.
#[derive(Clone, Copy)]
pub struct SpoolRule<'a> {
    pub tally: &'a SpoolTally,
    /// Whether all that are missing are dropped, even if none was found yet.
    pub drops_missing: bool,
    /// Whether the run goes on until it is asked to end. Then a spool in which none of twenty articles was found counts
    /// as one that is not there.
    pub is_lasting: bool,
}

impl SpoolRule<'_> {
    /// Whether the article under this token is missing because the spool counts as one that is not there.
    pub(crate) fn is_out_of_reach(&self, token: &Token) -> bool {
        self.is_lasting
            && self.tally.has_none()
            && is_kept(token, self.tally.has_found(), self.drops_missing)
    }
}
