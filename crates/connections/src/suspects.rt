// What the feeders of a run share about suspects.
use crate::suspect_list::{Suspect, SuspectList};
use funnel::PeerName;
use ledger_core::{Debt, Key};
use std::alloc::{AllocError, Global};
use std::sync::atomic::{AtomicBool, Ordering};
use std::sync::{Mutex, Wait};

/// The suspects of all peers, which the feeders of a run share: articles at which connections failed, in this run or an
/// earlier one, and that have not ended since. What is lost of them, for want of memory, is offered as any other.
#[derive(Drop)]
pub struct Suspects {
    alloc: Global,
    // In the order of the stations.
    peers: Vec<PeerSuspects>,
}

#[derive(Drop)]
struct PeerSuspects {
    name: PeerName,
    // Whether there is any; and any of an earlier run that was not offered in this one.
    has_any: AtomicBool,
    has_pending: AtomicBool,
    list: Mutex<SuspectList>,
}

impl Suspects {
    /// Those of no peer.
    pub fn new(alloc: Global) -> Self {
        Suspects {
            alloc,
            peers: Vec::new(alloc),
        }
    }

    /// Adds the next peer, by its name, with its suspects of earlier runs, which [`Suspects::text`] gave: the last
    /// 4,096 of them. Returns how many lines are malformed, which are passed over.
    ///
    /// # Errors
    /// Memory was refused: the peer is not added.
    pub fn add_peer(&mut self, name: PeerName, text: &[u8]) -> Result<u64, AllocError> {
        let mut list = SuspectList::new(self.alloc);
        let malformed = list.read(self.alloc, text)?;
        self.peers.push(PeerSuspects {
            name,
            has_any: AtomicBool::new(!list.is_empty()),
            has_pending: AtomicBool::new(list.first_place().is_some()),
            list: Mutex::new(list),
        })?;
        Ok(malformed)
    }

    /// How many peers there are.
    pub fn peers(&self) -> usize {
        self.peers.len()
    }

    /// The name of this peer, if there is one.
    pub fn name(&self, peer: usize) -> Option<&PeerName> {
        match self.peers.get(peer) {
            Some(shared) => Some(&shared.name),
            None => None,
        }
    }

    /// Those of this peer, a line each: the token, a space, the message-id. The latest come last.
    ///
    /// # Errors
    /// Memory was refused.
    pub fn text<R: Wait>(&self, rt: &R, peer: usize) -> Result<Vec<u8>, AllocError> {
        match self.peers.get(peer) {
            Some(shared) => shared.list.lock(rt).text(self.alloc),
            None => Ok(Vec::new(self.alloc)),
        }
    }

    /// Whether there is a suspect of an earlier run of this peer that was not offered in this one.
    pub fn has_pending(&self, peer: usize) -> bool {
        match self.peers.get(peer) {
            Some(shared) => shared.has_pending.load(Ordering::SeqCst),
            None => false,
        }
    }

    /// The place of the first such suspect.
    pub fn first_place<R: Wait>(&self, rt: &R, peer: usize) -> Option<u64> {
        self.peers.get(peer)?.list.lock(rt).first_place()
    }

    /// The place of this debt's article, if it is such a suspect.
    pub fn place<R: Wait>(&self, rt: &R, peer: usize, debt: &Debt) -> Option<u64> {
        let shared = self.peers.get(peer)?;
        if !shared.has_pending.load(Ordering::SeqCst) {
            return None;
        }
        shared.list.lock(rt).place(debt.token(), debt.id())
    }

    /// This debt is offered, or waits no longer than others.
    pub fn meet<R: Wait>(&self, rt: &R, peer: usize, debt: &Debt) {
        if let Some(shared) = self.peers.get(peer) {
            let mut list = shared.list.lock(rt);
            list.meet(debt.key(), debt.token(), debt.id());
            shared.note(&list);
        }
    }

    /// A connection failed at this debt. If memory is refused, it is no suspect.
    pub fn add<R: Wait>(&self, rt: &R, peer: usize, debt: &Debt) {
        if let Some(shared) = self.peers.get(peer)
            && let Ok(suspect) = Suspect::of_debt(debt)
        {
            let mut list = shared.list.lock(rt);
            let _ = list.add(suspect);
            shared.note(&list);
        }
    }

    /// The debt of this key has ended.
    pub fn forget<R: Wait>(&self, rt: &R, peer: usize, key: Key) {
        if let Some(shared) = self.peers.get(peer)
            && shared.has_any.load(Ordering::SeqCst)
        {
            let mut list = shared.list.lock(rt);
            list.forget(key);
            shared.note(&list);
        }
    }

    /// The debt of such a suspect, with this place, has ended.
    pub fn end_pending<R: Wait>(&self, rt: &R, peer: usize, place: u64) {
        if let Some(shared) = self.peers.get(peer) {
            let mut list = shared.list.lock(rt);
            list.end_pending(place);
            shared.note(&list);
        }
    }
}

impl PeerSuspects {
    // Notes what there is, for those that look without the lock.
    fn note(&self, list: &SuspectList) {
        self.has_any.store(!list.is_empty(), Ordering::SeqCst);
        self.has_pending
            .store(list.first_place().is_some(), Ordering::SeqCst);
    }
}
