// The steps on tapes: each is a list of events, and room for what it reports is made first.
ghost use Rattle.std.specs.Prelude.{◌≡◌, ◌≢◌, ◌⊎◌, ◌+◌, ◌<◌, ◌≤◌, ◌^◌, ℕ, []};
ghost use Rattle.std.specs.Prelude.{List, length, IfErr, IfOk, MatchOption, OnOk, vec_capacity, vec_len};
ghost use Rattle.std.specs.Global.{Vec};
ghost use Rattle.world_core.specs.declared.fault.Fault.TheVariants.{NoMemory};

use crate::fault::{Fault, Halt};
use crate::output::{Output, OwedAt};
use crate::stations::Stations;
use disk_model::Disk;
use funnel::{FunnelLine, LineFault, MsgId, PeerName, Token, read_line};
use ledger_core::Key;
use std::alloc::{AllocError, Global};
use std::collections::BTreeMap;

impl<D: Disk> Stations<D> {
    ghost use Rattle.world_core.specs.Past.{Past};
    ghost use Rattle.world_core.specs.Events.{Rotates, Sheds, each_rank, Parts};
    ghost use Rattle.world_core.specs.Steps.{IsSealable, begun_at, line_events, seal_events};
    ghost use Rattle.world_core.specs.Stands.{DidOne, FailedOne, Stands};
    ghost use Rattle.world_core.specs.Stepped.{AreFound, AreWithin, Did, Failed, FoundAt, OwedLine, PartedEach};
    ghost use Rattle.world_core.specs.Stepped.{FailedAt, HaltedAs, TookTapes, TookNot};
    ghost use Rattle.world_core.specs.declared.step.Step.TheVariants.{Flush, Line, Part, Rotate, Seal, Shed};

    /// Takes a funnel line, without its LF: it is owed at each peer that it names, in byte order of their names.
    ///
    /// # Errors
    /// Tried in this order: `CountFull`; `NoMemory`; the stations'.
    pub(crate) fn line(&mut self, text: &[u8]) -> Result<Vec<Output>, Fault>
        ensures ok { (past : Past) (line : Vec ℕ) → line.items ≡ text.now
            → Stands self.old past
            → IfOk result (λ outputs. TookTapes (Line line) past outputs.items self.new) }
        ensures err { (past : Past) (line : Vec ℕ) → line.items ≡ text.now
            → Stands self.old past
            → IfErr result (λ fault. TookNot (Line line) past fault self.new) }
    {
        let Some(number) = self.last.checked_add(1) else {
            return Err(Fault::CountFull);
        };
        let mut outputs = Vec::with_capacity(self.alloc, 1)?;
        match read_line(self.alloc, text) {
            Ok(line) => {
                let peers = self.owe(line)?;
                outputs.push_reserved(Output::Owed { number, peers });
            }
            Err(LineFault::NoMemory) => return Err(Fault::NoMemory),
            Err(fault) => outputs.push_reserved(Output::Bad { number, fault }),
        }
        self.last = number;
        Ok(outputs)
    }

    /// Flushes the station of this peer.
    ///
    /// # Errors
    /// `NoPeer` if no peer has this name; the station's.
    pub(crate) fn part(&mut self, name: &PeerName) -> Result<Vec<Output>, Fault>
        ensures ok { (past : Past) → Stands self.old past
            → IfOk result (λ outputs. TookTapes (Part name.now) past outputs.items self.new) }
        ensures err { (past : Past) → Stands self.old past
            → IfErr result (λ fault. TookNot (Part name.now) past fault self.new) }
    {
        let Some(rank) = self.rank_of(name) else {
            return Err(Fault::NoPeer);
        };
        self.part_at(rank)?;
        Ok(Vec::new(self.alloc))
    }

    /// Notes the kept number on the intake's tape, and flushes that tape.
    ///
    /// # Errors
    /// `NotFlushed` if no number is kept, or some peer was not flushed since; `NoMemory`; the tape's.
    pub(crate) fn seal(&mut self) -> Result<Vec<Output>, Fault>
        ensures ok { (past : Past) → Stands self.old past
            → IfOk result (λ outputs. TookTapes Seal past outputs.items self.new) }
        ensures err { (past : Past) → Stands self.old past
            → IfErr result (λ fault. TookNot Seal past fault self.new) }
    {
        let Some(number) = self.sealable() else {
            return Err(Fault::NotFlushed);
        };
        let mut outputs = Vec::with_capacity(self.alloc, 1)?;
        self.seal_number(number)?;
        let mark = self.intake.mark();
        outputs.push_reserved(Output::Taken { mark });
        Ok(outputs)
    }

    /// Keeps the last line's number, flushes each peer in byte order of their names, and seals the number.
    ///
    /// # Errors
    /// `NoMemory`; the stations' and the tape's.
    pub(crate) fn flush(&mut self) -> Result<Vec<Output>, Halt>
        ensures ok { (past : Past) → Stands self.old past
            → IfOk result (λ outputs. TookTapes Flush past outputs.items self.new) }
        ensures err { (past : Past) → Stands self.old past
            → IfErr result (λ halt. HaltedAs Flush past halt self.new) }
    {
        let mut outputs = Vec::with_capacity(self.alloc, 1)?;
        self.begin();
        self.part_each()?;
        if let Err(fault) = self.seal_number(self.last) {
            return Err(Halt { rank: None, fault });
        }
        let mark = self.intake.mark();
        outputs.push_reserved(Output::Taken { mark });
        Ok(outputs)
    }

    /// Drops what exceeds the backlog limit of this peer.
    ///
    /// # Errors
    /// `NoPeer` if no peer has this name; `NoMemory`; the station's.
    pub(crate) fn shed(&mut self, name: &PeerName) -> Result<Vec<Output>, Fault>
        ensures ok { (past : Past) → Stands self.old past
            → IfOk result (λ outputs. TookTapes (Shed name.now) past outputs.items self.new) }
        ensures err { (past : Past) → Stands self.old past
            → IfErr result (λ fault. TookNot (Shed name.now) past fault self.new) }
    {
        let Some(rank) = self.rank_of(name) else {
            return Err(Fault::NoPeer);
        };
        let mut outputs = Vec::with_capacity(self.alloc, 1)?;
        let name = name.clone()?;
        let keys = self.shed_at(rank)?;
        outputs.push_reserved(Output::Shed { name, keys });
        Ok(outputs)
    }

    /// Rewrites the tape of this peer with what the peer is owed.
    ///
    /// # Errors
    /// `NoPeer` if no peer has this name; `NoMemory`; the station's.
    pub(crate) fn rotate(&mut self, name: &PeerName) -> Result<Vec<Output>, Fault>
        ensures ok { (past : Past) → Stands self.old past
            → IfOk result (λ outputs. TookTapes (Rotate name.now) past outputs.items self.new) }
        ensures err { (past : Past) → Stands self.old past
            → IfErr result (λ fault. TookNot (Rotate name.now) past fault self.new) }
    {
        let Some(rank) = self.rank_of(name) else {
            return Err(Fault::NoPeer);
        };
        let mut outputs = Vec::with_capacity(self.alloc, 1)?;
        let name = name.clone()?;
        let generation = self.rotate_at(rank)?;
        outputs.push_reserved(Output::Rotated { name, generation });
        Ok(outputs)
    }

    fn shed_at(&mut self, rank: usize) -> Result<Vec<Key>, Fault>
        requires { rank < vec_len self.old.peers }
        ensures ok { (past : Past) → Stands self.old past
            → IfOk result (λ keys. DidOne past (Sheds rank keys.items) self.new) }
        ensures err { (past : Past) → Stands self.old past
            → IfErr result (λ fault. FailedOne past (Sheds rank []) fault self.new) }
    {
        let peer = &mut self.peers[rank];
        peer.shed()
    }

    fn rotate_at(&mut self, rank: usize) -> Result<u64, Fault>
        requires { rank < vec_len self.old.peers }
        ensures ok { (past : Past) → Stands self.old past
            → IfOk result (λ generation. DidOne past (Rotates rank generation) self.new) }
        ensures err { (past : Past) → Stands self.old past
            → IfErr result (λ fault. FailedOne past (Rotates rank 0) fault self.new) }
    {
        let peer = &mut self.peers[rank];
        peer.rotate()
    }

    // Flushes each peer, in byte order of their names.
    fn part_each(&mut self) -> Result<(), Halt>
        ensures ok { (past : Past) → Stands self.old past
            → OnOk result (PartedEach past (length past.peers) self.new) }
        ensures err { (past : Past) → Stands self.old past
            → IfErr result (λ halt.
            FailedAt past (each_rank Parts (length past.peers)) halt self.new) }
        ensures last { self.new.last ≡ self.old.last }
    {
        for rank in 0..self.peers.len() {
            if let Err(fault) = self.part_at(rank) {
                let rank = Some(rank);
                return Err(Halt { rank, fault });
            }
        }
        Ok(())
    }

    // Notes this number on the intake's tape, and flushes that tape.
    fn seal_number(&mut self, number: u64) -> Result<(), Fault>
        ensures ok { (past : Past) → Stands self.old past → IsSealable past number
            → OnOk result (Did past (seal_events number) self.new) }
        ensures err { (past : Past) → Stands self.old past → IsSealable past number
            → IfErr result (λ fault. Failed past (seal_events number) fault self.new) }
    {
        self.see(number)?;
        self.acknowledge()
    }

    // Owes a good line to each peer that it names, in byte order of their names, and returns what came of it.
    fn owe(&mut self, line: FunnelLine) -> Result<Vec<OwedAt>, Fault>
        requires numbered { self.old.last + 1 < 2 ^ 64 }
        ensures ok { (past : Past) → Stands self.old past → IfOk result (λ outputs.
            OwedLine past line.token line.id line.peers.items outputs.items self.new) }
        ensures err { (past : Past) → Stands self.old past → IfErr result (λ fault.
            ((fault ≡ NoMemory) × Stands self.new past)
            ⊎ Failed past (line_events line.token line.id line.peers.items past) fault self.new) }
        ensures last { self.new.last ≡ self.old.last }
    {
        let FunnelLine { token, id, peers } = line;
        let found = self.find_each(peers)?;
        let outputs = Vec::with_capacity(self.alloc, found.len())?;
        self.owe_each(found, &token, &id, outputs)
    }

    // Owes a line to the peers at these ranks, and returns what came of it.
    fn owe_each(
        &mut self,
        found: BTreeMap<usize, PeerName>,
        token: &Token,
        id: &MsgId,
        outputs: Vec<OwedAt>,
    ) -> Result<Vec<OwedAt>, Fault>
        requires numbered { self.old.last + 1 < 2 ^ 64 }
        requires within { AreWithin (vec_len self.old.peers) found.entries }
        requires none { outputs.items ≡ [] }
        requires room { length found.entries ≤ vec_capacity outputs }
        ensures ok { (past : Past) (named : List (List ℕ)) → Stands self.old past
            → AreFound past named found.entries
            → IfOk result (λ outputs. OwedLine past token.now id.now named outputs.items self.new) }
        ensures err { (past : Past) (named : List (List ℕ)) → Stands self.old past
            → AreFound past named found.entries
            → IfErr result (λ fault.
            Failed past (line_events token.now id.now named past) fault self.new) }
        ensures last { self.new.last ≡ self.old.last }
    {
        let mut outputs = outputs;
        for (rank, name) in found {
            let owed = self.owe_at(rank, token, id)?;
            outputs.push_reserved(OwedAt { name, owed });
        }
        Ok(outputs)
    }

    // The ranks of the peers of these names, in order; a name that no peer has is left out.
    fn find_each(&self, names: Vec<PeerName>) -> Result<BTreeMap<usize, PeerName>, AllocError>
        ensures found { (past : Past) → Stands self.now past
            → IfOk result (λ found. AreFound past names.items found.entries) }
        ensures within { IfOk result (λ found. AreWithin (vec_len self.now.peers) found.entries) }
    {
        let mut found = BTreeMap::new(self.alloc);
        for name in names {
            if let Some(rank) = self.find(&name) {
                found.insert(rank, name)?;
            }
        }
        Ok(found)
    }

    // The rank of the peer of this name, by binary search: the names rise.
    fn find(&self, name: &PeerName) -> Option<usize>
        ensures found { (past : Past) → Stands self.now past → FoundAt past name.now result }
        ensures within { MatchOption result (Unit {0}) (λ rank. rank < vec_len self.now.peers) }
    {
        self.peers
            .binary_search_by(|peer| peer.compare_name(name))
            .ok()
    }
}
