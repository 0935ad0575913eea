// How all tapes are opened again. If one is refused, all stops again.
ghost use Rattle.std.specs.Prelude.{OnOk, false, ◌≡◌, ◌∷◌, ◌+◌, ◌≤◌, ℕ, [], Some, IfErr, IfOk};
ghost use Rattle.std.specs.Prelude.{List, map, vec_capacity, vec_len};
ghost use Rattle.world_core.specs.Halting.{TapesStop};
ghost use Rattle.world_core.specs.Opening.{AllOpen, OpensNot};
ghost use Rattle.world_core.specs.Past.{Past};
ghost use Rattle.world_core.specs.Stepped.{opened_view};
ghost use Rattle.world_core.specs.Output.{view_of};

use crate::fault::{Fault, Halt};
use crate::halt::halt_each;
use crate::output::Output;
use crate::peer::{Peer, StoppedPeer};
use crate::stations::Stations;
use crate::stop::StopDisk;
use crate::world::{Stage, World};
use recovery::Tape;
use std::alloc::{AllocError, Global};
use std::mem;

// Room for all peers, open or stopped.
#[derive(Drop)]
pub(crate) struct Rooms {
    pub(crate) opened: Vec<Peer<StopDisk>>,
    pub(crate) stopped: Vec<StoppedPeer>,
}

// All that has stopped again, and why.
#[derive(Drop)]
pub(crate) struct Closed {
    pub(crate) peers: Vec<StoppedPeer>,
    pub(crate) intake: (StopDisk, StopDisk),
    pub(crate) halt: Halt,
}

impl World {
    ghost use Rattle.world_core.specs.Opening.{AllOpen};
    ghost use Rattle.world_core.specs.Past.{Life};
    ghost use Rattle.world_core.specs.Stands.{WorldStands};
    ghost use Rattle.world_core.specs.Turn.{Awaits, Took, WasNotTaken};
    ghost use Rattle.world_core.specs.declared.step.Step.TheVariants.{Restart};

    // Opens all tapes, the peers' in byte order of their names and then the intake's, and reports each peer's mark.
    pub(crate) fn restart(&mut self, out: &mut Vec<Output>) -> Result<(), Fault>
        requires { out.old.items ≡ [] }
        ensures ok { (life : Life) → WorldStands self.old life
            → OnOk result (Took Restart life out.new.items self.new) }
        ensures err { (life : Life) → WorldStands self.old life
            → IfErr result (λ fault. WasNotTaken Restart life fault self.new) }
    {
        let Stage::Stopped(peers, _) = &self.stage else {
            return Err(Fault::Running);
        };
        let rooms = rooms_for(self.alloc, peers.len())?;
        let room = Vec::with_capacity(self.alloc, peers.len())?;
        let none = self.no_stage()?;
        let Stage::Stopped(peers, intake) = mem::replace(&mut self.stage, none) else {
            return Err(Fault::Running);
        };
        match open_all(self.alloc, peers, intake, rooms) {
            Ok(stations) => self.run_on(stations, room, out),
            Err(closed) => {
                self.stage = Stage::Stopped(closed.peers, closed.intake);
                self.settle(closed.halt, out)
            }
        }
    }

    // These stations, which were opened, run from now on, and each peer's mark is reported. If there is no memory for
    // the report, all stops again.
    fn run_on(
        &mut self,
        stations: Stations<StopDisk>,
        room: Vec<StoppedPeer>,
        out: &mut Vec<Output>,
    ) -> Result<(), Fault>
        requires empty { room.items ≡ [] }
        requires room { vec_len stations.peers ≤ vec_capacity room }
        ensures ok { (life : Life) → Awaits self.old life → life.running ≡ false
            → AllOpen life.past stations → OnOk result (Took Restart life out.new.items self.new) }
        ensures err { (life : Life) → Awaits self.old life → life.running ≡ false
            → AllOpen life.past stations
            → IfErr result (λ fault. WasNotTaken Restart life fault self.new) }
    {
        let Ok(outputs) = mark_outputs(self.alloc, &stations.peers) else {
            let (peers, intake) = stations.halt(room);
            self.stage = Stage::Stopped(peers, intake);
            return Err(Fault::NoMemory);
        };
        self.stage = Stage::Running(stations, Vec::new(self.alloc));
        *out = outputs;
        Ok(())
    }
}

// Peers that are opened one after another.
#[derive(Drop)]
struct Opening {
    alloc: Global,
    // Those that were opened, until one is refused.
    opened: Vec<Peer<StopDisk>>,
    // Once one was refused: those before it, which have stopped again, it, and those after it.
    stopped: Vec<StoppedPeer>,
    refused: Option<Halt>,
}

impl Opening {
    ghost use Rattle.std.specs.List.{AllZip};
    ghost use Rattle.world_core.specs.Halts.{AtRest, left_peer};
    ghost use Rattle.world_core.specs.Opening.{HasRoomFor, Tries};
    ghost use Rattle.world_core.specs.Past.{PeerPast};
    ghost use Rattle.world_core.specs.Safe.{KeepsLines};
    ghost use Rattle.world_core.specs.Stands.{DisksStand, PeerStands, StoppedStands};
    ghost use Rattle.world_core.specs.declared.peer.StoppedPeer.{StoppedPeer};

    // Opens the next peer, unless one was refused.
    fn add(&mut self, peer: StoppedPeer)
        requires { HasRoomFor 1 self.old }
        ensures tries { (past : Past) → (rest : List StoppedPeer)
            → Tries past self.old (peer ∷ rest)
            → Tries past self.new rest }
        ensures room { (more : ℕ) → HasRoomFor (more + 1) self.old → HasRoomFor more self.new }
        ensures count { vec_len self.new.opened ≤ vec_len self.old.opened + 1 }
    {
        if self.refused.is_some() {
            self.stopped.push_reserved(peer);
            return;
        }
        match peer.open(self.alloc) {
            Ok(peer) => self.opened.push_reserved(peer),
            Err((peer, fault)) => {
                let rank = Some(self.opened.len());
                self.halt(Halt { rank, fault });
                self.stopped.push_reserved(peer);
            }
        }
    }

    // Stops those that were opened, since the next tape was refused.
    fn halt(&mut self, halt: Halt)
        requires empty { vec_len self.old.stopped ≡ 0 }
        requires room { vec_len self.old.opened ≤ vec_capacity self.old.stopped }
        ensures stops { (pasts : List PeerPast) → AllZip PeerStands pasts self.old.opened.items
            → AllZip StoppedStands (map (left_peer AtRest) pasts) self.new.stopped.items }
        ensures count { vec_len self.new.stopped ≡ vec_len self.old.opened }
        ensures room { vec_capacity self.new.stopped ≡ vec_capacity self.old.stopped }
        ensures refused { self.new.refused ≡ Some halt }
        ensures none { vec_len self.new.opened ≡ 0 }
    {
        let opened = mem::replace(&mut self.opened, Vec::new(self.alloc));
        let room = mem::replace(&mut self.stopped, Vec::new(self.alloc));
        self.stopped = halt_each(opened, room);
        self.refused = Some(halt);
    }

    // Opens the intake's tape, after those of all peers.
    fn end(self, intake: (StopDisk, StopDisk)) -> Result<Stations<StopDisk>, Closed>
        requires { HasRoomFor 0 self }
        ensures ok { (past : Past) → Tries past self []
            → DisksStand (KeepsLines past.intake.history past.peers) past.intake intake
            → IfOk result (AllOpen past) }
        ensures err { (past : Past) → Tries past self []
            → DisksStand (KeepsLines past.intake.history past.peers) past.intake intake
            → IfErr result (λ e. OpensNot past e.halt e.peers.items e.intake) }
        ensures count { IfOk result (λ stations. vec_len stations.peers ≡ vec_len self.opened) }
    {
        if let Some(halt) = self.refused {
            let peers = self.stopped;
            return Err(Closed {
                peers,
                intake,
                halt,
            });
        }
        let (a, b) = intake;
        match Tape::open(self.alloc, a, b) {
            Ok(intake) => {
                let last = intake.mark();
                Ok(Stations {
                    alloc: self.alloc,
                    peers: self.opened,
                    intake,
                    last,
                    begun: None,
                })
            }
            Err(refused) => {
                let fault = Fault::from_tape(refused.fault);
                Err(Closed {
                    peers: halt_each(self.opened, self.stopped),
                    intake: (refused.a, refused.b),
                    halt: Halt { rank: None, fault },
                })
            }
        }
    }
}

// Opens the tapes of these peers in order, and then the intake's. If one is refused, all stops again.
pub(crate) fn open_all(
    alloc: Global,
    peers: Vec<StoppedPeer>,
    intake: (StopDisk, StopDisk),
    rooms: Rooms,
) -> Result<Stations<StopDisk>, Closed>
    requires opened { (vec_len rooms.opened ≡ 0) × (vec_len peers ≤ vec_capacity rooms.opened) }
    requires stopped { (vec_len rooms.stopped ≡ 0) × (vec_len peers ≤ vec_capacity rooms.stopped) }
    ensures ok { (past : Past) → TapesStop past peers.items intake → IfOk result (AllOpen past) }
    ensures count { IfOk result (λ stations. vec_len stations.peers ≤ vec_len peers) }
    ensures err { (past : Past) → TapesStop past peers.items intake
        → IfErr result (λ e. OpensNot past e.halt e.peers.items e.intake) }
{
    let mut opening = Opening {
        alloc,
        opened: rooms.opened,
        stopped: rooms.stopped,
        refused: None,
    };
    for peer in peers {
        opening.add(peer);
    }
    opening.end(intake)
}

// Room for this many peers, open or stopped.
pub(crate) fn rooms_for(alloc: Global, count: usize) -> Result<Rooms, AllocError>
    ensures opened { IfOk result
        (λ rooms. (vec_len rooms.opened ≡ 0) × (count ≤ vec_capacity rooms.opened)) }
    ensures stopped { IfOk result
        (λ rooms. (vec_len rooms.stopped ≡ 0) × (count ≤ vec_capacity rooms.stopped)) }
{
    let opened = Vec::with_capacity(alloc, count)?;
    let stopped = Vec::with_capacity(alloc, count)?;
    Ok(Rooms { opened, stopped })
}

fn mark_outputs(alloc: Global, peers: &[Peer<StopDisk>]) -> Result<Vec<Output>, AllocError>
    ensures { IfOk result (λ outputs. map view_of outputs.items ≡ map opened_view peers.now) }
{
    let mut outputs = Vec::new(alloc);
    for peer in peers {
        outputs.push(mark_of(peer)?)?;
    }
    Ok(outputs)
}

fn mark_of(peer: &Peer<StopDisk>) -> Result<Output, AllocError>
    ensures { IfOk result (λ outputs. view_of outputs ≡ opened_view peer.now) }
{
    let name = peer.conf.name.clone()?;
    let mark = peer.station.mark();
    let owes = peer.station.list()?;
    Ok(Output::Mark { name, mark, owes })
}
