// How much room for debts the connections of each peer have, over both feeders.
ghost use Rattle.std.specs.Prelude.{◌<◌, length};

use crate::{Naming, Post};
use disk_model::Disk;
use std::sync::atomic::Ordering;

impl<D: Disk, N: Naming> Post<D, N> {
    /// Counts the room of a connection that is to be opened, if the peer is owed more debts than its counted
    /// connections have room for, or if its connections are failing. Returns whether it was counted; `None` if the
    /// peer's front is in use. This is decided under the front's lock, so that two feeders do not both take the last
    /// room.
    pub fn try_take_room(&self, peer: usize, room: u64) -> Option<bool>
        requires { peer < length self.now.names }
    {
        let desk = self.free_front(peer)?;
        let owed = desk.totals().owed;
        let at = &self.peers[peer];
        let is_wanted = at.room.load(Ordering::SeqCst) < owed;
        if !is_wanted && !at.is_failing.load(Ordering::SeqCst) {
            return Some(false);
        }
        let _ = at
            .room
            .fetch_update(Ordering::SeqCst, Ordering::SeqCst, |counted| {
                Some(counted.saturating_add(room))
            });
        Some(true)
    }

    /// This much room of a peer's connections is no longer counted. The count never falls below 0.
    pub fn give_room(&self, peer: usize, room: u64)
        requires { peer < length self.now.names }
    {
        let counted = &self.peers[peer].room;
        let _ = counted.fetch_update(Ordering::SeqCst, Ordering::SeqCst, |counted| {
            Some(counted.saturating_sub(room))
        });
    }

    /// A connection of the peer failed, or one agreed to a mode. While a peer's connections are failing, any room that
    /// is asked for is counted, so that all its slots are tried at once: a dead host costs one wait, and not one for
    /// each slot.
    pub fn set_failing(&self, peer: usize, is_failing: bool)
        requires { peer < length self.now.names }
    {
        self.peers[peer]
            .is_failing
            .store(is_failing, Ordering::SeqCst);
    }
}
