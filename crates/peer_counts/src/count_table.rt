// What the feeders and the intake of a run share about what was counted.
use crate::figures::FeederFigures;
use crate::record::{LivePeer, PeerRecord};
use std::alloc::{AllocError, Global};
use std::sync::{Mutex, Wait};

/// What the feeders of a run have counted for each peer, for the intake to read. A peer is named by the index of its
/// station; nothing is kept for one that is not there.
#[derive(Drop)]
pub struct CountTable {
    alloc: Global,
    peers: Vec<Mutex<PeerRecord>>,
}

impl CountTable {
    /// Nothing was counted for so many peers.
    ///
    /// # Errors
    /// Memory was refused.
    pub fn new(alloc: Global, peers: usize) -> Result<Self, AllocError> {
        let mut records = Vec::new(alloc);
        for _ in 0..peers {
            records.push(Mutex::new(PeerRecord::new(alloc)))?;
        }
        Ok(CountTable {
            alloc,
            peers: records,
        })
    }

    /// Feeder `which`, 0 or 1, has these figures of the peer in this second of the run.
    pub fn publish<R: Wait>(
        &self,
        rt: &R,
        peer: usize,
        which: u8,
        figures: FeederFigures,
        now: u64,
    ) {
        if let Some(record) = self.peers.get(peer) {
            record.lock(rt).publish(which, figures, now);
        }
    }

    /// A connection of the peer was lost or could not be made, for this reason. If memory is refused, the earlier
    /// reason stays.
    pub fn set_reason<R: Wait>(&self, rt: &R, peer: usize, reason: &[u8]) {
        if let Some(record) = self.peers.get(peer) {
            let _ = record.lock(rt).set_reason(self.alloc, reason);
        }
    }

    /// What both feeders have of the peer, by what each has published last; `None` if there is no such peer.
    ///
    /// # Errors
    /// Memory was refused.
    pub fn read<R: Wait>(&self, rt: &R, peer: usize) -> Result<Option<LivePeer>, AllocError> {
        match self.peers.get(peer) {
            Some(record) => Ok(Some(record.lock(rt).live(self.alloc)?)),
            None => Ok(None),
        }
    }
}
