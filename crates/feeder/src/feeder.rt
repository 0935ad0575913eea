// A feeder: its connections, their slots, and what it uses.
ghost use Rattle.std.specs.Prelude.{◌≡◌, ◌+◌, ◌-◌, ◌/◌, ◌%◌};

use crate::FeederFault;
use crate::peer_state::PeerState;
use crate::service_list::ServiceList;
use connections::{
    ArticleSource, FeederParts, FeederSpool, LargeRooms, Outages, PeerConnection, PeerTarget, Slot,
    SpoolTally, Suspects, UnreadPaths,
};
use flusher::{FeederShare, Naming};
use mio::{Events, Poll, Token, Waker};
use peer_counts::CountTable;
use resolver::Resolver;
use slab::Slab;
use std::alloc::{AllocError, Global};
use std::io;
use std::net::Net;
use std::sync::Arc;
use std::time::Instant;

const BUFFER_OCTETS: usize = 65_536;

/// How many events one poll reports at most.
pub(crate) const EVENTS_MAX: usize = 1_024;

/// The token of the wakers. Connections have their keys.
pub(crate) const WAKER_TOKEN: Token = Token(usize::MAX);

/// One thread's work: its connections to all peers. It owns all that it uses, so it goes into its thread by value and
/// comes back.
#[derive(Drop)]
pub struct Feeder<S: ArticleSource + Drop, C: Net + Drop, N: Naming> {
    /// Its share of what is counted.
    pub share: FeederShare<N>,
    /// The first fault: of a peer's tape, or the one that ended its work.
    pub fault: Option<FeederFault>,
    /// The files that it could not read.
    pub unread: UnreadPaths,
    // As the parts have these two.
    pub(crate) is_lasting: bool,
    pub(crate) drops_missing: bool,
    // Where it publishes what it has counted, if anybody reads that.
    pub(crate) counts: Option<Arc<CountTable>>,
    pub(crate) alloc: Global,
    pub(crate) net: C,
    pub(crate) hosts: Resolver,
    pub(crate) spool: FeederSpool<S>,
    // What it shares with the other feeder about the spool.
    pub(crate) tally: Arc<SpoolTally>,
    // What it shares with the other feeder about suspects.
    pub(crate) suspects: Arc<Suspects>,
    // What it shares with the other feeder about peers that are down.
    pub(crate) outages: Arc<Outages>,
    // It has seen that an article of the run was found.
    pub(crate) has_found: bool,
    // The second in which it logged last what was dropped.
    pub(crate) drops_logged: u64,
    pub(crate) start: Instant,
    pub(crate) which: u8,
    pub(crate) peers: Vec<PeerState>,
    // Those of the first peer, then those of the second, and so on.
    pub(crate) slots: Vec<Slot>,
    // For each peer, how many slots there are up to its last.
    ends: Vec<usize>,
    pub(crate) connections: Slab<PeerConnection>,
    // Those that are to be serviced.
    pub(crate) listed: ServiceList,
    // A front of its peers was found to be half full of pending notes, and no flush was ordered for that.
    pub(crate) is_half_full: bool,
    // The large rooms of their outputs.
    pub(crate) rooms: LargeRooms,
    pub(crate) poll: Poll,
    pub(crate) events: Events,
    pub(crate) buffer: Vec<u8>,
    // The number of the next connection.
    pub(crate) number: u64,
    // The last second that passed for the connections.
    pub(crate) ticked: Option<u64>,
    // Slots are to be checked: one may be due.
    pub(crate) checks_slots: bool,
    // A peer's tape has failed, and the other threads have no signal of it yet.
    pub(crate) has_lost_tape: bool,
    // The second in which it saw the last phase begin.
    pub(crate) last_phase_since: Option<u64>,
    // The second in which it saw that the run is to end in good order.
    pub(crate) draining_since: Option<u64>,
}

impl<S: ArticleSource + Drop, C: Net + Drop, N: Naming> Feeder<S, C, N> {
    /// The feeder of these parts. If it has connections to several peers, what it reads in the spool is kept for the
    /// others for a while. `net` is the capability to open sockets, and `hosts` looks up the peers' hosts.
    ///
    /// # Errors
    /// The system's, if no poll can be made; memory was refused.
    pub fn new(
        alloc: Global,
        net: C,
        hosts: Resolver,
        parts: FeederParts<S>,
        share: FeederShare<N>,
    ) -> io::Result<Self> {
        let polled = Polled::new(alloc, &net)?;
        let planned = Planned::new(alloc, &parts.targets, parts.which)?;
        let FeederParts {
            which,
            targets,
            spool,
            tally,
            suspects,
            outages,
            start,
            counts,
            is_lasting,
            drops_missing,
        } = parts;
        let spool = FeederSpool::new(alloc, spool, planned.served)?;
        let peers = states_of(alloc, targets)?;
        Ok(Feeder {
            share,
            fault: None,
            unread: UnreadPaths::new(alloc),
            is_lasting,
            drops_missing,
            counts,
            alloc,
            net,
            hosts,
            spool,
            tally,
            suspects,
            outages,
            has_found: false,
            drops_logged: 0,
            start,
            which,
            peers,
            slots: planned.slots,
            ends: planned.ends,
            connections: Slab::new(alloc),
            listed: ServiceList::new(alloc),
            is_half_full: false,
            rooms: LargeRooms::new(),
            poll: polled.poll,
            events: polled.events,
            buffer: polled.buffer,
            number: u64::from(which),
            ticked: None,
            checks_slots: true,
            has_lost_tape: false,
            last_phase_since: None,
            draining_since: None,
        })
    }

    /// What wakes it, from any thread: it then checks all its connections and slots. It is of no use once the feeder is
    /// gone.
    ///
    /// # Errors
    /// The system's, if none can be made.
    pub fn waker(&self) -> io::Result<Waker> {
        Waker::new(self.poll.registry(), WAKER_TOKEN)
    }

    pub(crate) fn slots_of(&self, at: usize) -> &[Slot] {
        self.slots
            .get(self.slots_from(at)..self.slots_to(at))
            .unwrap_or(&[])
    }

    /// The index of this peer's first slot.
    pub(crate) fn slots_from(&self, at: usize) -> usize {
        match at.checked_sub(1) {
            Some(before) => self.slots_to(before),
            None => 0,
        }
    }

    /// The index after this peer's last slot.
    pub(crate) fn slots_to(&self, at: usize) -> usize {
        self.ends.get(at).copied().unwrap_or(0)
    }
}

// What a feeder polls its sockets with, and the buffer for what comes.
#[derive(Drop)]
struct Polled {
    poll: Poll,
    events: Events,
    buffer: Vec<u8>,
}

impl Polled {
    fn new<C: Net>(alloc: Global, net: &C) -> io::Result<Self> {
        let poll = Poll::new(net)?;
        let events = Events::with_capacity(alloc, EVENTS_MAX)?;
        let buffer = vec![in alloc; 0u8; BUFFER_OCTETS]?;
        Ok(Polled {
            poll,
            events,
            buffer,
        })
    }
}

// A feeder's slots of all peers.
#[derive(Drop)]
struct Planned {
    slots: Vec<Slot>,
    // For each peer, how many slots there are up to its last.
    ends: Vec<usize>,
    // To how many of the peers it has connections.
    served: usize,
}

impl Planned {
    fn new(alloc: Global, targets: &Vec<PeerTarget>, which: u8) -> Result<Self, AllocError> {
        let mut slots = Vec::new(alloc);
        let mut ends = Vec::new(alloc);
        for at in 0..targets.len() {
            let target = &targets[at];
            for _ in 0..share_of(target.connections, which) {
                slots.push(Slot::new(at, target.first_wait, target.most_wait))?;
            }
            ends.push(slots.len())?;
        }
        Ok(Planned {
            slots,
            ends,
            served: served_by(targets, which),
        })
    }
}

fn states_of(alloc: Global, targets: Vec<PeerTarget>) -> Result<Vec<PeerState>, AllocError> {
    let mut peers = Vec::new(alloc);
    for target in targets {
        peers.push(PeerState::new(alloc, target))?;
    }
    Ok(peers)
}

// To how many of these peers the feeder has connections.
fn served_by(targets: &Vec<PeerTarget>, which: u8) -> usize {
    targets
        .iter()
        .filter(|target| share_of(target.connections, which) > 0)
        .count()
}

// How many of the connections 0, 1 .. are this feeder's: those whose number mod 2 is `which`.
fn share_of(connections: u64, which: u8) -> u64
    ensures { result ≡ (connections + 1 - which % 2) / 2 }
{
    if which % 2 == 0 {
        connections / 2 + connections % 2
    } else {
        connections / 2
    }
}
