// Runs of steps.
ghost use Rattle.std.specs.Prelude.{◌≡◌, ◌≤◌, [], IfErr, IfOk, OnOk, length, map, vec_capacity};
ghost use Rattle.ledger_core.specs.Ledger.{totals_of};
ghost use Rattle.peer_queue.specs.Words.{ledger_of};
ghost use Rattle.world_core.specs.Stands.{counts_in};
ghost use Rattle.world_core.specs.declared.report.PeerTotals.{PeerTotals};
ghost use Rattle.world_core.specs.declared.peer.StoppedPeer.{StoppedPeer};

use crate::fault::{Fault, WorldFault};
use crate::output::Output;
use crate::peer::{Peer, StoppedPeer};
use crate::report::{PeerTotals, Report};
use crate::step::Step;
use crate::stop::StopDisk;
use crate::world::{Stage, World};
use ledger_core::Totals;
use std::alloc::{AllocError, Global};

// No counts.
const NONE: Totals = Totals {
    taken: 0,
    answered: 0,
    dropped: 0,
    owed: 0,
    owed_bytes: 0,
};

impl World {
    ghost use Rattle.world_core.specs.Past.{Life};
    ghost use Rattle.world_core.specs.Stands.{Ends, Reports, WorldStands, counts_of};
    ghost use Rattle.world_core.specs.Sound.{names_of};
    ghost use Rattle.world_core.specs.Output.{views_by};
    ghost use Rattle.world_core.specs.Turn.{Took, WasNotTaken, names_at};

    /// Takes these steps, one after another, up to the first that is refused, and returns what each reported, and each
    /// peer's counts.
    ///
    /// Steps that were taken stay taken if a later one is refused: the world then is what the refused step left.
    ///
    /// # Errors
    /// The number of the step that was refused, from 1 on, its fault, and what each step before it reported. If memory
    /// is refused for the report itself, the first step is the one refused, and none was taken.
    pub fn run(&mut self, steps: &[Step]) -> Result<Report, WorldFault>
        ensures reports { IfOk result
            (λ report. Reports steps.now self.old (views_by report.lines.items)
            (counts_in report.totals.items) self.new) }
        ensures ends { IfErr result (λ fault. Ends steps.now self.old fault self.new) }
    {
        let Ok((mut lines, totals)) = self.room_for(steps.len()) else {
            let lines = Vec::new(self.alloc);
            return Err(WorldFault {
                step: 1,
                kind: Fault::NoMemory,
                lines,
            });
        };
        for index in 0..steps.len() {
            let mut outputs = Vec::new(self.alloc);
            if let Err(kind) = self.take(&steps[index], &mut outputs) {
                return Err(WorldFault {
                    step: index + 1,
                    kind,
                    lines,
                });
            }
            lines.push_reserved(outputs);
        }
        let totals = self.counts(totals);
        Ok(Report { lines, totals })
    }

    // Room for what this many steps report, and for each peer's counts.
    fn room_for(&self, count: usize) -> Result<(Vec<Vec<Output>>, Vec<PeerTotals>), AllocError>
        ensures empty { IfOk result (λ room. room.0.items ≡ []) }
        ensures room { IfOk result (λ room. count ≤ vec_capacity room.0) }
        ensures names { IfOk result (λ room. map (λ (peer : PeerTotals). peer.name) room.1.items
            ≡ names_at self.entry.now.stage) }
    {
        let lines = Vec::with_capacity(self.alloc, count)?;
        let totals = match &self.stage {
            Stage::Running(stations, _) => names_of(self.alloc, &stations.peers)?,
            Stage::Stopped(peers, _) => stopped_names(self.alloc, peers)?,
        };
        Ok((lines, totals))
    }

    // Each peer's counts, for which there is room; empty while all is stopped.
    fn counts(&self, mut totals: Vec<PeerTotals>) -> Vec<PeerTotals>
        ensures { (life : Life) → WorldStands self.entry.now life
            → map (λ (peer : PeerTotals). peer.name) totals.items ≡ names_of life.past.peers
            → counts_in result.items ≡ counts_of life }
    {
        match &self.stage {
            Stage::Running(stations, _) => {
                count_each(&mut totals, &stations.peers);
                totals
            }
            Stage::Stopped(_, _) => Vec::new(self.alloc),
        }
    }

    // Takes one step: adds what it reports, or returns why it was refused.
    fn take(&mut self, step: &Step, out: &mut Vec<Output>) -> Result<(), Fault>
        requires { out.old.items ≡ [] }
        ensures ok { (life : Life) → WorldStands self.old life
            → OnOk result (Took step.now life out.new.items self.new) }
        ensures err { (life : Life) → WorldStands self.old life
            → IfErr result (λ fault. WasNotTaken step.now life fault self.new) }
    {
        match step {
            Step::Line(text) => self.line(text, out),
            Step::Flush => self.flush(out),
            Step::Begin => self.begin(out),
            Step::Part(name) => self.part(name, out),
            Step::Seal => self.seal(out),
            Step::Connect(name) => self.connect(name, out),
            Step::Hand(id) => self.hand(*id, out),
            Step::Bytes(id, octets) => self.bytes(*id, octets, out),
            Step::Article(id, found) => self.article(*id, found, out),
            Step::Break(id) => self.break_off(*id, out),
            Step::Tick(now) => self.tick(*now, out),
            Step::Shed(name) => self.shed(name, out),
            Step::Rotate(name) => self.rotate(name, out),
            Step::Import { peer, text } => self.import(peer, text, out),
            Step::Stop { peer, call, choice } => self.stop(peer, *call, *choice, out),
            Step::Restart => self.restart(out),
        }
    }
}

fn names_of(alloc: Global, peers: &[Peer<StopDisk>]) -> Result<Vec<PeerTotals>, AllocError>
    ensures { IfOk result (λ totals. map (λ (peer : PeerTotals). peer.name) totals.items
        ≡ map (λ peer. peer.conf.name) peers.now) }
{
    let mut totals = Vec::new(alloc);
    for peer in peers {
        let name = peer.conf.name.clone()?;
        totals.push(PeerTotals { name, totals: NONE })?;
    }
    Ok(totals)
}

fn stopped_names(alloc: Global, peers: &[StoppedPeer]) -> Result<Vec<PeerTotals>, AllocError>
    ensures { IfOk result (λ totals. map (λ (peer : PeerTotals). peer.name) totals.items
        ≡ map (λ (peer : StoppedPeer). peer.conf.name) peers.now) }
{
    let mut totals = Vec::new(alloc);
    for peer in peers {
        let name = peer.conf.name.clone()?;
        totals.push(PeerTotals { name, totals: NONE })?;
    }
    Ok(totals)
}

// Adds the counts of each of these peers to its name.
fn count_each(totals: &mut [PeerTotals], peers: &[Peer<StopDisk>])
    ensures { map (λ (peer : PeerTotals). peer.name) totals.old
        ≡ map (λ peer. peer.conf.name) peers.now
        → counts_in totals.new
        ≡ map (λ peer. (peer.conf.name, totals_of (ledger_of peer.station))) peers.now }
{
    for rank in 0..totals.len() {
        if let Some(peer) = peers.get(rank) {
            totals[rank].totals = peer.station.totals();
        }
    }
}
