// One peer of a world.
ghost use Rattle.std.specs.Prelude.{◌≡◌, IfErr, IfOk, OnOk};
ghost use Rattle.std.specs.Cmp.Lexicographic.{slice_cmp};
ghost use Rattle.std.specs.Ordering.{nat_cmp};
ghost use Rattle.std.specs.Str.{bytes_eq};
ghost use Rattle.world_core.specs.Past.{limits_of};

use crate::fault::{Fault, TapesFault};
use crate::stop::{StopDisk, Trigger};
use disk_model::Disk;
use feed_conf::PeerConf;
use funnel::{MsgId, PeerName, Token};
use ledger_core::Key;
use peer_queue::{Limits, Owed, Station, each_number_has_one_place};
use recovery::TapeFault;
use std::alloc::Global;
use std::cell::Cell;
use std::cmp::Ordering;
use std::rc::Rc;

/// A peer whose station is open.
#[derive(Drop)]
pub(crate) struct Peer<D: Disk> {
    // Its name and settings.
    pub(crate) conf: PeerConf,
    // What it is owed.
    pub(crate) station: Station<D>,
    // Whether it was flushed since a number was kept.
    pub(crate) parted: bool,
}

/// A peer that has stopped.
#[derive(Drop)]
pub(crate) struct StoppedPeer {
    // Its name and settings.
    pub(crate) conf: PeerConf,
    // What was left of the first and of the second disk of its tape.
    pub(crate) disks: (StopDisk, StopDisk),
}

impl<D: Disk> Peer<D> {
    ghost use Rattle.world_core.specs.Past.{PeerPast};
    ghost use Rattle.world_core.specs.Events.{import_key, imported_as, owed_as};
    ghost use Rattle.world_core.specs.Stands.{ClosedPeer, FlushedPeer, OwedNot, OwedTo, PeerStands};
    ghost use Rattle.world_core.specs.Stands.{RotatedPeer, ShedPeer, SpilledPeer, UnclosedPeer, UnflushedPeer};
    ghost use Rattle.world_core.specs.Stands.{UnrotatedPeer, UnshedPeer};

    pub(crate) fn has_name(&self, name: &PeerName) -> bool
        ensures { result ≡ bytes_eq self.now.conf.name name.now }
    {
        self.conf.name.bytes() == name.bytes()
    }

    // How its name compares with this one, in byte order.
    pub(crate) fn compare_name(&self, name: &PeerName) -> Ordering
        ensures { result ≡ slice_cmp nat_cmp self.now.conf.name name.now }
    {
        self.conf.name.bytes().cmp(name.bytes())
    }

    // Owes a line that names it, and returns what came of it.
    pub(crate) fn owe(&mut self, number: u64, token: &Token, id: &MsgId) -> Result<Owed, Fault>
        ensures ok { (past : PeerPast) → PeerStands past self.old → IfOk result (λ owed.
            OwedTo (owed_as number) (λ peer. number) token.now id.now past owed self.new) }
        ensures err { (past : PeerPast) → PeerStands past self.old → IfErr result (λ fault.
            OwedNot (owed_as number) (λ peer. number) token.now id.now past fault self.new) }
    {
        // proof: a number above the mark has no place yet.
        each_number_has_one_place(&self.station);
        match self.station.owe(number, token, id) {
            Ok(owed) => Ok(owed),
            Err(fault) => Err(Fault::from_station(fault)),
        }
    }

    // Owes a line of one of its backlog files, and returns what came of it.
    pub(crate) fn import(&mut self, number: u64, token: &Token, id: &MsgId) -> Result<Owed, Fault>
        ensures ok { (past : PeerPast) → PeerStands past self.old → IfOk result (λ owed.
            OwedTo (imported_as number) (import_key number) token.now id.now past owed self.new) }
        ensures err { (past : PeerPast) → PeerStands past self.old → IfErr result (λ fault.
            OwedNot (imported_as number) (import_key number) token.now id.now past fault self.new) }
    {
        // proof: a number above the mark has no place yet.
        each_number_has_one_place(&self.station);
        match self.station.import(number, token, id) {
            Ok(owed) => Ok(owed),
            Err(fault) => Err(Fault::from_station(fault)),
        }
    }

    // Closes the source that is open, and returns it.
    pub(crate) fn close(&mut self) -> Result<u32, Fault>
        ensures ok { (past : PeerPast) → PeerStands past self.old
            → IfOk result (λ source. ClosedPeer past source self.new) }
        ensures err { (past : PeerPast) → PeerStands past self.old
            → IfErr result (λ fault. UnclosedPeer past fault self.new) }
    {
        match self.station.close_import() {
            Ok(source) => Ok(source),
            Err(fault) => Err(Fault::from_station(fault)),
        }
    }

    // Flushes its station during an import; this is not the flush since a number was kept.
    pub(crate) fn spill(&mut self) -> Result<(), Fault>
        ensures ok { (past : PeerPast) → PeerStands past self.old
            → OnOk result (SpilledPeer past self.new) }
        ensures err { (past : PeerPast) → PeerStands past self.old
            → IfErr result (λ fault. UnflushedPeer past fault self.new) }
    {
        match self.station.flush() {
            Ok(_) => Ok(()),
            Err(fault) => Err(Fault::from_station(fault)),
        }
    }

    pub(crate) fn flush(&mut self) -> Result<(), Fault>
        ensures ok { (past : PeerPast) → PeerStands past self.old
            → OnOk result (FlushedPeer past self.new) }
        ensures err { (past : PeerPast) → PeerStands past self.old
            → IfErr result (λ fault. UnflushedPeer past fault self.new) }
    {
        self.spill()?;
        self.parted = true;
        Ok(())
    }

    // Rewrites its tape with what it is owed, and returns the generation.
    pub(crate) fn rotate(&mut self) -> Result<u64, Fault>
        ensures ok { (past : PeerPast) → PeerStands past self.old
            → IfOk result (λ generation. RotatedPeer past generation self.new) }
        ensures err { (past : PeerPast) → PeerStands past self.old
            → IfErr result (λ fault. UnrotatedPeer past fault self.new) }
    {
        match self.station.rotate() {
            Ok(generation) => Ok(generation),
            Err(fault) => Err(Fault::from_station(fault)),
        }
    }

    // Drops what exceeds its backlog limit, and returns the keys.
    pub(crate) fn shed(&mut self) -> Result<Vec<Key>, Fault>
        ensures ok { (past : PeerPast) → PeerStands past self.old
            → IfOk result (λ keys. ShedPeer past keys.items self.new) }
        ensures err { (past : PeerPast) → PeerStands past self.old
            → IfErr result (λ fault. UnshedPeer past fault self.new) }
    {
        each_number_has_one_place(&self.station);
        match self.station.shed() {
            Ok(shed) => Ok(shed.keys),
            Err(fault) => Err(Fault::from_station(fault)),
        }
    }
}

impl StoppedPeer {
    ghost use Rattle.world_core.specs.Past.{PeerPast};
    ghost use Rattle.world_core.specs.Stands.{OpenedAs, RefusedOpen, StoppedStands};

    // Opens its station on what a stop left of its disks. If that is refused, the peer is handed back.
    pub(crate) fn open(self, alloc: Global) -> Result<Peer<StopDisk>, (StoppedPeer, Fault)>
        ensures ok { (past : PeerPast) → StoppedStands past self
            → IfOk result (λ peer. OpenedAs past peer) }
        ensures err { (past : PeerPast) → StoppedStands past self
            → IfErr result (λ e. RefusedOpen past e.1 e.0) }
    {
        let StoppedPeer { conf, disks } = self;
        let (a, b) = disks;
        match Station::open(alloc, a, b, limits_of(&conf)) {
            Ok(station) => Ok(Peer {
                conf,
                station,
                parted: false,
            }),
            Err(refused) => {
                let fault = Fault::from_tape(refused.fault);
                let disks = (refused.a, refused.b);
                Err((StoppedPeer { conf, disks }, fault))
            }
        }
    }
}

impl Peer<StopDisk> {
    ghost use Rattle.world_core.specs.Given.{OpensGiven, RefusesPeer, both_disks};

    // Opens the station of a peer at this rank. The first disk of its tape holds the first octets, the second the
    // others.
    pub(crate) fn open_given(
        alloc: Global,
        given: (PeerConf, Vec<u8>, Vec<u8>),
        rank: usize,
        trigger: &Rc<Cell<Trigger>>,
    ) -> Result<Self, TapesFault>
        ensures ok { IfOk result (OpensGiven (both_disks given)) }
        ensures err { IfErr result (RefusesPeer (both_disks given)) }
    {
        let (conf, first, second) = given;
        let first = StopDisk::holding(alloc, &first, rank, trigger)?;
        let second = StopDisk::holding(alloc, &second, rank, trigger)?;
        match Station::open(alloc, first, second, limits_of(&conf)) {
            Ok(station) => Ok(Peer {
                conf,
                station,
                parted: false,
            }),
            Err(refused) => match refused.fault {
                TapeFault::NoMemory => Err(TapesFault::NoMemory),
                fault => Err(TapesFault::Tape {
                    peer: Some(conf.name),
                    fault,
                }),
            },
        }
    }
}

// The limits of the backlog of a peer with these settings.
fn limits_of(conf: &PeerConf) -> Limits
    ensures { result ≡ limits_of conf.now }
{
    Limits {
        backlog_limit: conf.backlog_limit,
        backlog_high: conf.backlog_high,
        drop_deferred: conf.drop_deferred,
    }
}
