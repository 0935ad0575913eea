// Opening connections.
use crate::Feeder;
use crate::peer_state::name_of;
use crate::post_view::PostView;
use conn_core::{Conn, CxnId};
use connections::logging::{log_unknown, log_unmade, text_of};
use connections::{ArticleSource, ConnectionOwner, PeerConnection};
use disk_model::Disk;
use event_loop::SocketLink;
use flusher::{Naming, Pace};
use log::Log;
use mio::Token;
use mio::net::TcpStream;
use resolver::Answer;
use std::io::{self, ErrorKind};
use std::net::Net;
use std::sync::Wait;

// Whether to go on with the peer's next slot.
#[derive(Clone, Copy, PartialEq, Eq)]
enum SlotScan {
    // The slot has a connection now, or failed.
    Next,
    // The peer's connections have room for all that it is owed, or nothing more can be done now.
    Enough,
}

impl<S: ArticleSource + Drop, C: Net + Drop, N: Naming> Feeder<S, C, N> {
    /// Begins to connect the slots that are due, no more for a peer than it needs, if slots are to be checked and
    /// debts are claimed. A peer whose front is in use is checked again at the next turn.
    pub(crate) fn connect_due<D: Disk, R: Wait + Log, P: Pace>(
        &mut self,
        rt: &R,
        view: &PostView<'_, D, N, P>,
        last_phase: bool,
    ) {
        if !self.checks_slots {
            return;
        }
        self.checks_slots = false;
        if !view.claims {
            return;
        }
        for at in 0..self.peers.len() {
            self.read_news(rt, at);
            self.connect_peer(rt, view, at, last_phase);
        }
    }

    // Takes the resolver's answer for a peer's host, if there is a new one. A name that was known keeps its addresses.
    fn read_news<R: Wait + Log>(&mut self, rt: &R, at: usize) {
        let Some(peer) = self.peers.get_mut(at) else {
            return;
        };
        match self
            .hosts
            .news(rt, peer.target.peer, &mut peer.seen)
            .unwrap_or(None)
        {
            Some(Answer::Found(addresses)) => {
                peer.is_unknown = false;
                peer.target.addresses = addresses;
            }
            Some(Answer::Unknown(reason)) => {
                peer.is_unknown = peer.target.addresses.is_empty();
                // Both feeders get the answer; one logs it.
                if self.which == 0 {
                    log_unknown(rt, text_of(&peer.target.name), reason.as_str());
                }
                peer.look_up_fault = Some(reason);
            }
            None => {}
        }
    }

    // Begins to connect slots of a peer that are due, while it is owed more than its connections can hold.
    fn connect_peer<D: Disk, R: Wait + Log, P: Pace>(
        &mut self,
        rt: &R,
        view: &PostView<'_, D, N, P>,
        at: usize,
        last_phase: bool,
    ) {
        for slot in self.slots_from(at)..self.slots_to(at) {
            let is_due = match self.slots.get(slot) {
                Some(slot) => slot.is_due(view.now, last_phase),
                None => false,
            };
            if is_due && self.connect_slot(rt, view, at, slot, last_phase) == SlotScan::Enough {
                break;
            }
        }
        if let Some(peer) = self.peers.get_mut(at) {
            peer.is_unknown &= self.checks_slots;
        }
    }

    // Begins to connect a slot of a peer that is due, if the peer is owed more than its connections can hold.
    fn connect_slot<D: Disk, R: Wait + Log, P: Pace>(
        &mut self,
        rt: &R,
        view: &PostView<'_, D, N, P>,
        at: usize,
        slot: usize,
        last_phase: bool,
    ) -> SlotScan {
        let Some(peer) = self.peers.get(at) else {
            return SlotScan::Enough;
        };
        if peer.is_closed {
            return SlotScan::Enough;
        }
        let (index, room) = (peer.target.peer, peer.target.room());
        match view.take_room(index, room) {
            Some(true) => {}
            Some(false) => return SlotScan::Enough,
            None => {
                self.checks_slots = true;
                return SlotScan::Enough;
            }
        }
        if peer.target.addresses.is_empty() && !peer.is_unknown {
            view.give_room(index, room);
            self.ask(rt, at, view.now);
            return SlotScan::Enough;
        }
        self.begin(rt, view, at, slot, last_phase);
        SlotScan::Next
    }

    // Begins to connect a slot. If the slot had to wait, its peer's host is looked up again meanwhile.
    fn begin<D: Disk, R: Wait + Log, P: Pace>(
        &mut self,
        rt: &R,
        view: &PostView<'_, D, N, P>,
        at: usize,
        slot: usize,
        last_phase: bool,
    ) {
        let waited = match self.slots.get(slot) {
            Some(slot) => slot.is_waiting(),
            None => false,
        };
        if waited {
            self.ask(rt, at, view.now);
        }
        if let Err(error) = self.connect(at, slot, view.now) {
            if !self.is_unknown(at) {
                log_unmade(rt, name_of(&self.peers, at), &error);
            }
            if let Some(peer) = self.peers.get(at) {
                view.give_room(peer.target.peer, peer.target.room());
            }
            self.unmade(view, slot, last_phase);
            self.note_unmade(rt, at, slot, view.now, &error);
        }
    }

    // Has a peer's host looked up, at most once a second.
    fn ask<R: Wait>(&mut self, rt: &R, at: usize, now: u64) {
        if let Some(peer) = self.peers.get_mut(at)
            && peer.asked != Some(now)
        {
            peer.asked = Some(now);
            self.hosts.ask(rt, peer.target.peer);
        }
    }

    fn is_unknown(&self, at: usize) -> bool {
        match self.peers.get(at) {
            Some(peer) => peer.is_unknown,
            None => false,
        }
    }

    /// A slot could not be connected to one of its peer's addresses. In the last phase the peer's other slots are then
    /// tried at once.
    pub(crate) fn unmade<D: Disk, P: Pace>(
        &mut self,
        view: &PostView<'_, D, N, P>,
        at: usize,
        last_phase: bool,
    ) {
        let Some(slot) = self.slots.get_mut(at) else {
            return;
        };
        let Some(peer) = self.peers.get(slot.target()) else {
            return;
        };
        slot.unmade(view.now, peer.target.addresses.len());
        if last_phase {
            view.set_failing(peer.target.peer, true);
        }
        self.checks_slots = true;
    }

    // Begins to connect a slot, to the next address of its peer.
    fn connect(&mut self, at: usize, slot_at: usize, now: u64) -> io::Result<()> {
        let (Some(slot), Some(peer)) = (self.slots.get_mut(slot_at), self.peers.get(at)) else {
            return Err(io::Error::from(ErrorKind::NotFound));
        };
        let address = peer.target.address(slot.tries());
        slot.tried();
        let Some(address) = address else {
            return Err(io::Error::from(ErrorKind::AddrNotAvailable));
        };
        let mut link = SocketLink::new(TcpStream::connect(&self.net, address)?)?;
        let Some(next) = self.number.checked_add(2) else {
            return Err(io::Error::from(ErrorKind::QuotaExceeded));
        };
        let conn = Conn::new(self.alloc, CxnId(self.number), peer.target.options)?;
        let login = peer.target.login(self.alloc)?;
        self.connections.reserve(1)?;
        link.register(self.poll.registry(), Token(self.connections.vacant_key()))?;
        let owner = ConnectionOwner {
            peer: peer.target.peer,
            slot: slot_at,
            room: peer.target.room(),
        };
        let made = PeerConnection::new(self.alloc, conn, link, login, address, owner, now);
        let _ = self.connections.insert_reserved(made);
        self.number = next;
        Ok(())
    }
}
