// What a feeder publishes of each peer, for those who watch the run.
use crate::Feeder;
use connections::logging::HowOver;
use connections::{ArticleSource, PeerConnection, Slot};
use flusher::Naming;
use peer_counts::FeederFigures;
use std::net::Net;
use std::sync::Wait;

impl<S: ArticleSource + Drop, C: Net + Drop, N: Naming> Feeder<S, C, N> {
    /// Publishes for each peer what was counted up to now, if anybody reads that.
    pub(crate) fn publish_counts<R: Wait>(&mut self, rt: &R, now: u64) {
        if self.counts.is_none() {
            return;
        }
        for at in 0..self.peers.len() {
            self.begin_figures(at);
        }
        self.add_connections();
        self.add_slots(now);
        self.publish_all(rt, now);
    }

    // Of a peer nothing is open, but what was counted and that its tape failed stays.
    fn begin_figures(&mut self, at: usize) {
        if let Some(peer) = self.peers.get_mut(at) {
            peer.figures.connections = 0;
            peer.figures.in_flight = 0;
            peer.figures.waits_until = None;
        }
    }

    // Adds what each connection has counted since the last time, and what it has now, to what its peer has.
    fn add_connections(&mut self) {
        for key in 0..self.connections.capacity() {
            self.add_connection(key);
        }
    }

    // Adds the slots that wait to what their peers have.
    fn add_slots(&mut self, now: u64) {
        for slot in &self.slots {
            if let Some(peer) = self.peers.get_mut(slot.target()) {
                add_slot(&mut peer.figures, slot, now);
            }
        }
    }

    fn publish_all<R: Wait>(&self, rt: &R, now: u64) {
        let Some(counts) = &self.counts else {
            return;
        };
        for peer in &self.peers {
            counts.publish(rt, peer.target.peer, self.which, peer.figures, now);
        }
    }

    // Adds a connection, if there is one, to what its peer has.
    fn add_connection(&mut self, key: usize) {
        let Some(connection) = self.connections.get_mut(key) else {
            return;
        };
        let Some(slot) = self.slots.get(connection.slot()) else {
            return;
        };
        if let Some(peer) = self.peers.get_mut(slot.target()) {
            let figures = &mut peer.figures;
            figures.counts.add(&connection.take_counts());
            figures.in_flight = figures.in_flight.saturating_add(connection.held());
            if connection.mode().is_some() && connection.closed().is_none() {
                figures.connections = figures.connections.saturating_add(1);
            }
        }
    }

    /// A connection is over: adds what was counted on it.
    pub(crate) fn add_counts(&mut self, connection: &mut PeerConnection) {
        if let Some(slot) = self.slots.get(connection.slot())
            && let Some(peer) = self.peers.get_mut(slot.target())
        {
            peer.figures.counts.add(&connection.take_counts());
        }
    }

    /// A connection is over: publishes how it ended, if its slot waits for that.
    pub(crate) fn publish_end<R: Wait>(&self, rt: &R, connection: &PeerConnection) {
        if self.counts.is_some() && !connection.is_left_early() {
            let reason = format!(in self.alloc; "{}", HowOver(connection)).ok();
            self.publish_reason(rt, connection.slot(), &reason);
        }
    }

    /// The last connection or try at this slot has failed, for this reason: publishes that, if the slot waits now. If
    /// memory was refused for the reason, the earlier one stays.
    pub(crate) fn publish_reason<R: Wait>(&self, rt: &R, slot: usize, reason: &Option<String>) {
        if let Some(counts) = &self.counts
            && let Some(reason) = reason
            && let Some(slot) = self.slots.get(slot)
            && slot.is_waiting()
            && let Some(peer) = self.peers.get(slot.target())
        {
            counts.set_reason(rt, peer.target.peer, reason.as_bytes());
        }
    }
}

// Adds a slot that waits: its peer is tried again by then at the latest.
fn add_slot(figures: &mut FeederFigures, slot: &Slot, now: u64) {
    if slot.is_waiting() {
        let until = now.saturating_add(slot.wait_left(now));
        figures.waits_until = match figures.waits_until {
            Some(earlier) => Some(earlier.min(until)),
            None => Some(until),
        };
    }
}
