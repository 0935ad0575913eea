// Stops of a world, at rest or met in a step, and its restart.
ghost use Rattle.std.specs.Prelude.{◌≡◌, ◌↔◌, ◌<◌, ℕ, [], true, false, length, List, Option};
ghost use Rattle.std.specs.Prelude.{position, IfErr, IfOk, OnErr, OnOk};
ghost use Rattle.std.specs.Str.{bytes_eq};
ghost use Rattle.world_core.specs.Trigger.{IsMet, armed_at};

use crate::fault::{Fault, Halt};
use crate::halt::{left_disks, left_each, with_disks};
use crate::output::Output;
use crate::peer::StoppedPeer;
use crate::stop::{Stop, StopDisk, Trigger};
use crate::world::{Arming, Stage, World};
use disk_model::{Choice, MemDisk};
use funnel::PeerName;
use recovery::TapeFault;
use std::alloc::AllocError;
use std::mem;

impl World {
    ghost use Rattle.world_core.specs.Halts.{AtRest, ByChoice, GoesOn, IsTapeOf, RefusesStop, TakesStop, halted};
    ghost use Rattle.world_core.specs.Halts.{left};
    ghost use Rattle.world_core.specs.Past.{Life, Past, rank_of, with_past};
    ghost use Rattle.world_core.specs.Stands.{WorldStands};
    ghost use Rattle.world_core.specs.Turn.{Made, Refused, RefusesRest, TakesRest, Took, WasHalted};
    ghost use Rattle.world_core.specs.Turn.{WasNotTaken, WasStruck, WasStruckUnreported};
    ghost use Rattle.world_core.specs.declared.step.Step.{Step};

    // At call 0 all stops at rest; else a stop is armed.
    pub(crate) fn stop(
        &mut self,
        peer: &Option<PeerName>,
        call: u64,
        choice: Choice,
        out: &mut Vec<Output>,
    ) -> Result<(), Fault>
        requires { out.old.items ≡ [] }
        ensures ok { (life : Life) → WorldStands self.old life
            → OnOk result (Made (TakesStop peer.now call choice) life out.new.items self.new) }
        ensures err { (life : Life) → WorldStands self.old life
            → IfErr result (λ fault. Refused (RefusesStop peer.now call) life fault self.new) }
    {
        if call == 0 {
            return self.rest(out);
        }
        self.arm(peer, call, choice)
    }

    // All stops at rest: pending notes are gone, disks stay as they are, connections end, and no stop is armed.
    fn rest(&mut self, out: &mut Vec<Output>) -> Result<(), Fault>
        requires { out.old.items ≡ [] }
        ensures ok { (life : Life) → WorldStands self.old life
            → OnOk result (Made TakesRest life out.new.items self.new) }
        ensures err { (life : Life) → WorldStands self.old life
            → IfErr result (λ fault. Refused RefusesRest life fault self.new) }
    {
        if let Stage::Stopped(_, _) = &self.stage {
            return Err(Fault::Stopped);
        }
        out.reserve(1)?;
        self.halt()?;
        out.push_reserved(Output::Stopped);
        Ok(())
    }

    // What a refused step leaves: if the armed stop was met, and a disk failed at the tape that it names, all stops.
    pub(crate) fn settle(&mut self, halt: Halt, out: &mut Vec<Output>) -> Result<(), Fault>
        requires { out.old.items ≡ [] }
        ensures ok { (step : Step) (life : Life) → WasHalted step life halt self.old
            → OnOk result (Took step life out.new.items self.new) }
        ensures err { (step : Step) (life : Life) → WasHalted step life halt self.old
            → IfErr result (λ fault. WasNotTaken step life fault self.new) }
    {
        let (waits, met) = self.trigger.get().settle();
        self.trigger.set(waits);
        let Some(arming) = self.armed else {
            return Err(halt.fault);
        };
        if !is_met(met, arming, halt) {
            return Err(halt.fault);
        }
        self.strike(halt.fault, arming.choice, out)
    }

    // All stops, and each disk keeps what the choice leaves of it. If there is no memory for that, all stops as at
    // rest; if there is none for that either, the step is refused as it was.
    fn strike(&mut self, refused: Fault, choice: Choice, out: &mut Vec<Output>) -> Result<(), Fault>
        requires { out.old.items ≡ [] }
        ensures ok { (life now : Life) (under_way : Past) → GoesOn life under_way now
            → WorldStands self.old now
            → OnOk result (WasStruck life under_way choice out.new.items self.new) }
        ensures err { (life now : Life) (under_way : Past) → GoesOn life under_way now
            → WorldStands self.old now → IfErr result
            (λ fault. WasStruckUnreported life under_way now refused fault self.new) }
    {
        if let Err(_) = self.halt() {
            return Err(refused);
        }
        out.reserve(1)?;
        self.leave(choice)?;
        out.push_reserved(Output::Stopped);
        Ok(())
    }

    // All stations stop at rest, if they run, and no stop is armed. If memory is refused, nothing has changed.
    fn halt(&mut self) -> Result<(), AllocError>
        ensures ok { (life now : Life) (under_way : Past) → GoesOn life under_way now
            → WorldStands self.old now
            → OnOk result (WorldStands self.new (halted AtRest under_way life)) }
        ensures stays { (life : Life) → WorldStands self.old life
            → OnErr result (WorldStands self.new life) }
    {
        let Stage::Running(stations, _) = &self.stage else {
            self.trigger.set(Trigger::Idle);
            self.armed = None;
            return Ok(());
        };
        let room = Vec::with_capacity(self.alloc, stations.peers.len())?;
        let none = self.no_stage()?;
        let Stage::Running(stations, _) = mem::replace(&mut self.stage, none) else {
            return Ok(());
        };
        let (peers, intake) = stations.halt(room);
        self.stage = Stage::Stopped(peers, intake);
        self.trigger.set(Trigger::Idle);
        self.armed = None;
        Ok(())
    }

    // Each disk keeps what the choice leaves of it, once all has stopped. If memory is refused, nothing has changed.
    fn leave(&mut self, choice: Choice) -> Result<(), AllocError>
        ensures ok { (life : Life) → WorldStands self.old life → life.running ≡ false
            → OnOk result (WorldStands self.new
            (with_past life (left (ByChoice choice) life.past))) }
        ensures stays { (life : Life) → WorldStands self.old life
            → OnErr result (WorldStands self.new life) }
    {
        let Stage::Stopped(peers, intake) = &mut self.stage else {
            return Ok(());
        };
        let disks = left_each(self.alloc, peers, choice)?;
        let room = Vec::with_capacity(self.alloc, peers.len())?;
        *intake = left_disks(intake, choice)?;
        let stopped = mem::replace(peers, Vec::new(self.alloc));
        *peers = with_disks(stopped, disks, room);
        Ok(())
    }

    // An empty stage, in place of one that is moved out.
    pub(crate) fn no_stage(&self) -> Result<Stage, AllocError> {
        let first = StopDisk::new(MemDisk::new(self.alloc), 0, self.trigger.clone()?);
        let second = StopDisk::new(MemDisk::new(self.alloc), 0, self.trigger.clone()?);
        Ok(Stage::Stopped(Vec::new(self.alloc), (first, second)))
    }

    // Arms a stop, in place of any that is armed.
    fn arm(&mut self, peer: &Option<PeerName>, call: u64, choice: Choice) -> Result<(), Fault>
        requires { 0 < call }
        ensures ok { (life : Life) → WorldStands self.old life
            → OnOk result (Made (TakesStop peer.now call choice) life [] self.new) }
        ensures err { (life : Life) → WorldStands self.old life
            → IfErr result (λ fault. Refused (RefusesStop peer.now call) life fault self.new) }
    {
        let Some(name) = peer else {
            self.arm_at(None, call, choice);
            return Ok(());
        };
        let Some(rank) = self.rank_of(name) else {
            return Err(Fault::NoPeer);
        };
        self.arm_at(Some(rank), call, choice);
        Ok(())
    }

    fn arm_at(&mut self, rank: Option<usize>, call: u64, choice: Choice)
        requires { 0 < call }
        ensures { (life : Life) → (peer : Option (List ℕ)) → WorldStands self.old life
            → IsTapeOf life.past peer rank → Made (TakesStop peer call choice) life [] self.new }
    {
        let last = self.count();
        self.trigger.set(trigger_of(rank, last, call, choice));
        self.armed = Some(Arming { rank, call, choice });
    }

    fn count(&self) -> usize
        ensures { (life : Life) → WorldStands self.entry.now life
            → result ≡ length life.past.peers }
    {
        match &self.stage {
            Stage::Running(stations, _) => stations.peers.len(),
            Stage::Stopped(peers, _) => peers.len(),
        }
    }

    fn rank_of(&self, name: &PeerName) -> Option<usize>
        ensures { (life : Life) → WorldStands self.entry.now life
            → result ≡ rank_of life.past name.now }
    {
        match &self.stage {
            Stage::Running(stations, _) => stations.rank_of(name),
            Stage::Stopped(peers, _) => rank_among(peers, name),
        }
    }
}

// What waits once a stop is armed at the tape of the peer at this rank, or at the intake's, which has the last rank.
fn trigger_of(rank: Option<usize>, last: usize, call: u64, choice: Choice) -> Trigger
    ensures { result ≡ armed_at rank last call choice }
{
    Trigger::Armed(Stop {
        rank: rank.unwrap_or(last),
        calls: call,
        choice,
    })
}

// Whether the armed stop was met in a step that was refused like this.
fn is_met(met: Option<Choice>, armed: Arming, halt: Halt) -> bool
    ensures { result ≡ true ↔ IsMet met armed halt }
{
    met.is_some() && is_disk(halt.fault) && is_one_tape(armed.rank, halt.rank)
}

fn is_disk(fault: Fault) -> bool
    ensures { result ≡ true ↔ fault ≡ Fault.Tape TapeFault.Disk }
{
    matches!(fault, Fault::Tape(TapeFault::Disk))
}

fn is_one_tape(one: Option<usize>, other: Option<usize>) -> bool
    ensures { result ≡ true ↔ one ≡ other }
{
    match (one, other) {
        (Some(one), Some(other)) => one == other,
        (None, None) => true,
        _ => false,
    }
}

fn rank_among(peers: &[StoppedPeer], name: &PeerName) -> Option<usize>
    ensures { result ≡ position (λ peer. bytes_eq peer.conf.name name.now) peers.now }
{
    peers
        .iter()
        .position(|peer| peer.conf.name.bytes() == name.bytes())
}
