// What the feeders of a run share about peers that are down.
use crate::peer_reach::PeerReach;
use std::alloc::{AllocError, Global};
use std::sync::{Mutex, Wait};

/// Which peers are down, and which of them were told to be: what the feeders of a run share about that. A peer is named
/// by the index of its station.
#[derive(Drop)]
pub struct Outages {
    peers: Vec<Mutex<PeerReach>>,
}

impl Outages {
    /// None of so many peers is down.
    ///
    /// # Errors
    /// Memory was refused.
    pub fn new(alloc: Global, peers: usize) -> Result<Self, AllocError> {
        let mut reaches = Vec::new(alloc);
        for _ in 0..peers {
            reaches.push(Mutex::new(PeerReach::new()))?;
        }
        Ok(Outages { peers: reaches })
    }

    /// A connection of the peer has agreed to a mode. Returns whether the peer was told to be down.
    pub fn agreed<R: Wait>(&self, rt: &R, peer: usize) -> bool {
        match self.peers.get(peer) {
            Some(reach) => reach.lock(rt).agreed(),
            None => false,
        }
    }

    /// A connection of the peer that had agreed to a mode is over.
    pub fn ended<R: Wait>(&self, rt: &R, peer: usize) {
        if let Some(reach) = self.peers.get(peer) {
            reach.lock(rt).ended();
        }
    }

    /// A try to connect to the peer has failed in this second. Returns whether the peer is down and was not told to be.
    pub fn failed<R: Wait>(&self, rt: &R, peer: usize, now: u64) -> bool {
        let Some(reach) = self.peers.get(peer) else {
            return false;
        };
        let mut reach = reach.lock(rt);
        reach.failed(now);
        reach.is_untold()
    }

    /// Whether it is to be told now that the peer is down. One feeder is given true; from then on it counts as told.
    pub fn tell<R: Wait>(&self, rt: &R, peer: usize, now: u64) -> bool {
        match self.peers.get(peer) {
            Some(reach) => reach.lock(rt).tell(now),
            None => false,
        }
    }

    /// Whether the peer is down and was not told to be.
    pub fn is_untold<R: Wait>(&self, rt: &R, peer: usize) -> bool {
        match self.peers.get(peer) {
            Some(reach) => reach.lock(rt).is_untold(),
            None => false,
        }
    }
}
