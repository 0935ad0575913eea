// What a feeder logs of peers that are down, in a run that goes on until it is ended.
use crate::Feeder;
use crate::peer_state::name_of;
use connections::logging::{HowOver, log_down, log_up, text_of};
use connections::{ArticleSource, PeerConnection};
use flusher::Naming;
use log::Log;
use std::io;
use std::net::Net;
use std::sync::Wait;

/// Why a peer is down, until that is told.
#[derive(Drop)]
pub(crate) struct UntoldOutage {
    /// The slot at which a try failed.
    pub slot: usize,
    pub reason: String,
}

impl<S: ArticleSource + Drop, C: Net + Drop, N: Naming> Feeder<S, C, N> {
    /// The peer of this connection has agreed to a mode. If it was told to be down, it is told to be up again.
    pub(crate) fn note_agreed<R: Wait + Log>(&self, rt: &R, key: usize) {
        if let Some(connection) = self.connections.get(key)
            && let Some(slot) = self.slots.get(connection.slot())
            && self.is_lasting
            && self.outages.agreed(rt, connection.peer())
        {
            log_up(rt, name_of(&self.peers, slot.target()));
        }
    }

    /// This connection is over. If its peer had not agreed to a mode, a try has failed, unless the feeder ended it.
    pub(crate) fn note_over<R: Wait>(&mut self, rt: &R, now: u64, connection: &PeerConnection) {
        if !self.is_lasting {
            return;
        }
        if connection.mode().is_some() {
            self.outages.ended(rt, connection.peer());
        } else if !connection.is_left_early() {
            let reason = format!(in self.alloc; "{}", HowOver(connection)).ok();
            self.note_failed(rt, connection.slot(), now, reason);
        }
    }

    /// No connection could be begun at this slot of this peer: the host is not known, or for this error.
    pub(crate) fn note_unmade<R: Wait>(
        &mut self,
        rt: &R,
        at: usize,
        slot: usize,
        now: u64,
        error: &io::Error,
    ) {
        let Some(peer) = self.peers.get(at) else {
            return;
        };
        if !self.is_lasting && self.counts.is_none() {
            return;
        }
        let reason = match &peer.look_up_fault {
            Some(fault) if peer.is_unknown => {
                format!(in self.alloc; "cannot look up its host: {}", fault.as_str())
            }
            _ => format!(in self.alloc; "cannot connect: {}", error),
        };
        let reason = reason.ok();
        self.publish_reason(rt, slot, &reason);
        if self.is_lasting {
            self.note_failed(rt, slot, now, reason);
        }
    }

    // A try at this slot has failed, for this reason. If the slot waits now, because there is no other address to try,
    // its peer may be down. If memory was refused for the reason, the next failure has another.
    fn note_failed<R: Wait>(&mut self, rt: &R, slot_at: usize, now: u64, reason: Option<String>) {
        let Some(slot) = self.slots.get(slot_at) else {
            return;
        };
        let Some(peer) = self.peers.get_mut(slot.target()) else {
            return;
        };
        if !slot.is_waiting() || !self.outages.failed(rt, peer.target.peer, now) {
            return;
        }
        if let Some(reason) = reason {
            peer.untold = Some(UntoldOutage {
                slot: slot_at,
                reason,
            });
        }
    }

    /// Logs which peers are down that were not told to be, once that has been so for some seconds.
    pub(crate) fn tell_outages<R: Wait + Log>(&mut self, rt: &R, now: u64) {
        for at in 0..self.peers.len() {
            self.tell_outage(rt, at, now);
        }
    }

    // Logs that a peer is down, if that is to be told now and this feeder knows why.
    fn tell_outage<R: Wait + Log>(&mut self, rt: &R, at: usize, now: u64) {
        let Some(peer) = self.peers.get_mut(at) else {
            return;
        };
        let Some(untold) = &peer.untold else {
            return;
        };
        if self.outages.tell(rt, peer.target.peer, now) {
            let wait = match self.slots.get(untold.slot) {
                Some(slot) => slot.wait_left(now),
                None => 0,
            };
            log_down(rt, text_of(&peer.target.name), untold.reason.as_str(), wait);
        }
        if !self.outages.is_untold(rt, peer.target.peer) {
            peer.untold = None;
        }
    }
}
