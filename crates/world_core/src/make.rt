// How a world is made: its tapes are opened.
ghost use Rattle.std.specs.Prelude.{◌≡◌, [], IfErr, IfOk, map};
ghost use Rattle.std.specs.List.{AllZip};
ghost use Rattle.world_core.specs.Given.{OpensGiven, OpensGivenIntake, RefusesGivenIntake, StopsFor};
ghost use Rattle.world_core.specs.Given.{both_disks, first_alone, octets_of};
ghost use Rattle.world_core.specs.Making.{HasNoOctets};

use crate::fault::{Fault, TapesFault, WorldFault};
use crate::peer::Peer;
use crate::stations::Stations;
use crate::stop::{StopDisk, Trigger};
use crate::world::{Stage, World};
use feed_conf::PeerConf;
use recovery::{Tape, TapeFault};
use std::alloc::{AllocError, Global};
use std::cell::Cell;
use std::rc::Rc;

impl World {
    ghost use Rattle.std.specs.List.{IsDistinct};
    ghost use Rattle.std.specs.Str.{bytes_eq};
    ghost use Rattle.feed_conf.specs.declared.conf.PeerConf.{PeerConf};
    ghost use Rattle.world_core.specs.Given.{BeginsFrom, RefusesTapes, given_names};
    ghost use Rattle.world_core.specs.Given.{BeginsFromDisks, RefusesDisks, disks_names};
    ghost use Rattle.world_core.specs.Making.{Begins, IsMakeFault};
    ghost use Rattle.world_core.specs.Stands.{WasNotMade};

    /// Makes a world of these peers, in byte order of their names. Its tapes were opened on empty disks in memory: the
    /// world runs, nothing was noted, there is no connection, no stop is armed, and the moment is 0.
    ///
    /// # Errors
    /// Step 0 and no lines: `NoMemory`, or `Tape(Disk)` if memory was refused to a disk in memory.
    pub fn new(alloc: Global, peers: Vec<PeerConf>) -> Result<World, WorldFault>
        requires distinct { IsDistinct bytes_eq (map (λ (conf : PeerConf). conf.name) peers.items) }
        ensures begins { IfOk result (Begins peers.items) }
        ensures refuses { IfErr result WasNotMade }
    {
        match World::make(alloc, peers) {
            Ok(world) => Ok(world),
            Err(kind) => {
                let lines = Vec::new(alloc);
                Err(WorldFault {
                    step: 0,
                    kind,
                    lines,
                })
            }
        }
    }

    fn make(alloc: Global, peers: Vec<PeerConf>) -> Result<World, Fault>
        requires distinct { IsDistinct bytes_eq (map (λ (conf : PeerConf). conf.name) peers.items) }
        ensures begins { IfOk result (Begins peers.items) }
        ensures kinds { IfErr result IsMakeFault }
    {
        let given = with_no_octets(alloc, peers)?;
        match World::with_tapes(alloc, given) {
            Ok(world) => Ok(world),
            Err(TapesFault::Tape { fault, .. }) => Err(Fault::Tape(fault)),
            Err(TapesFault::NoMemory) => Err(Fault::NoMemory),
        }
    }

    /// Makes a world of these peers, in byte order of their names, that begins from their tapes: for each peer, the
    /// first disk in memory holds the octets given with its settings, and the second is empty. The world is as after a
    /// restart: it runs, every debt that a tape owes is ready, nothing was noted since, there is no connection, no stop
    /// is armed, and the moment is 0. The intake's tape was opened on empty disks: lines are numbered from 1 on, and a
    /// line whose number a peer's tape has noted is not owed to that peer again.
    ///
    /// # Errors
    /// The tapes are opened in byte order of the peers' names, and the first that is refused is reported: `Damaged` if
    /// the octets are no tape, `Disk` if memory was refused to a disk in memory. `NoMemory` if memory was refused
    /// elsewhere.
    pub fn with_tapes(alloc: Global, peers: Vec<(PeerConf, Vec<u8>)>) -> Result<World, TapesFault>
        requires distinct { IsDistinct bytes_eq (given_names peers.items) }
        ensures begins { IfOk result (BeginsFrom peers.items) }
        ensures refuses { IfErr result (RefusesTapes peers.items) }
    {
        let given = with_empty_disks(alloc, peers)?;
        let intake = (Vec::new(alloc), Vec::new(alloc));
        match World::with_disks(alloc, given, intake) {
            Err(TapesFault::Tape { peer: None, .. }) => Err(TapesFault::NoMemory),
            made => made,
        }
    }

    /// Makes a world of these peers, in byte order of their names, that begins from whole tapes: for each peer, the two
    /// disks in memory hold the octets given with its settings, first the first disk's, and those of the intake's tape
    /// hold the last ones. The world is as after a restart: it runs, every debt that a tape owes is ready, nothing was
    /// noted since, there is no connection, no stop is armed, and the moment is 0. The next line's number is that of
    /// the last acknowledged line, which the intake's tape has noted, plus 1; and a line whose number a peer's tape has
    /// noted is not owed to that peer again.
    ///
    /// # Errors
    /// The tapes are opened in byte order of the peers' names, and then the intake's. The first that is refused is
    /// reported: `Damaged` if the octets are no tape, `Disk` if memory was refused to a disk in memory. `NoMemory` if
    /// memory was refused elsewhere.
    pub fn with_disks(
        alloc: Global,
        mut peers: Vec<(PeerConf, Vec<u8>, Vec<u8>)>,
        intake: (Vec<u8>, Vec<u8>),
    ) -> Result<World, TapesFault>
        requires distinct { IsDistinct bytes_eq (disks_names peers.items) }
        ensures begins { IfOk result (BeginsFromDisks peers.items intake) }
        ensures refuses { IfErr result (RefusesDisks peers.items intake) }
    {
        peers.sort_by(|a, b| a.0.name.bytes().cmp(b.0.name.bytes()))?;
        let trigger = Rc::new(alloc, Cell::new(Trigger::Idle))?;
        let count = peers.len();
        let peers = open_each(alloc, peers, &trigger)?;
        let intake = open_intake(alloc, intake, count, &trigger)?;
        let last = intake.mark();
        let stations = Stations {
            alloc,
            peers,
            intake,
            last,
            begun: None,
        };
        Ok(World {
            alloc,
            stage: Stage::Running(stations, Vec::new(alloc)),
            trigger,
            armed: None,
            connected: 0,
            now: 0,
        })
    }
}

// These peers, each with no octets.
fn with_no_octets(
    alloc: Global,
    confs: Vec<PeerConf>,
) -> Result<Vec<(PeerConf, Vec<u8>)>, AllocError>
    ensures { IfOk result (λ given. AllZip HasNoOctets confs.items given.items) }
{
    let mut given = Vec::new(alloc);
    for conf in confs {
        given.push((conf, Vec::new(alloc)))?;
    }
    Ok(given)
}

// The same peers and octets, with a second disk that is empty.
fn with_empty_disks(
    alloc: Global,
    peers: Vec<(PeerConf, Vec<u8>)>,
) -> Result<Vec<(PeerConf, Vec<u8>, Vec<u8>)>, AllocError>
    ensures { IfOk result (λ given. map both_disks given.items ≡ map first_alone peers.items) }
{
    let mut given = Vec::new(alloc);
    for (conf, octets) in peers {
        given.push((conf, octets, Vec::new(alloc)))?;
    }
    Ok(given)
}

fn open_each(
    alloc: Global,
    given: Vec<(PeerConf, Vec<u8>, Vec<u8>)>,
    trigger: &Rc<Cell<Trigger>>,
) -> Result<Vec<Peer<StopDisk>>, TapesFault>
    ensures ok { IfOk result (λ peers. AllZip OpensGiven (map both_disks given.items) peers.items) }
    ensures err { IfErr result (StopsFor (map both_disks given.items)) }
{
    let mut peers = Vec::new(alloc);
    for peer in given {
        let opened = Peer::open_given(alloc, peer, peers.len(), trigger)?;
        peers.push(opened)?;
    }
    Ok(peers)
}

// Opens the intake's tape, whose disks hold these octets and come after those of so many peers.
fn open_intake(
    alloc: Global,
    given: (Vec<u8>, Vec<u8>),
    rank: usize,
    trigger: &Rc<Cell<Trigger>>,
) -> Result<Tape<StopDisk>, TapesFault>
    ensures ok { IfOk result (OpensGivenIntake (octets_of given)) }
    ensures err { IfErr result (RefusesGivenIntake (octets_of given)) }
{
    let (first, second) = given;
    let first = StopDisk::holding(alloc, &first, rank, trigger)?;
    let second = StopDisk::holding(alloc, &second, rank, trigger)?;
    match Tape::open(alloc, first, second) {
        Ok(tape) => Ok(tape),
        Err(refused) => match refused.fault {
            TapeFault::NoMemory => Err(TapesFault::NoMemory),
            fault => Err(TapesFault::Tape { peer: None, fault }),
        },
    }
}
