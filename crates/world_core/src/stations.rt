// The stations of all peers and the intake's tape, over any disks: the steps on tapes, which know nothing of stops.
ghost use Rattle.std.specs.Prelude.{◌≡◌, ◌+◌, ◌<◌, ◌^◌, ℕ, map, position};
ghost use Rattle.std.specs.Prelude.{IfErr, IfNone, IfOk, IfSome, OnErr, OnOk, vec_len};
ghost use Rattle.std.specs.List.{list_all};
ghost use Rattle.std.specs.Str.{bytes_eq};
ghost use Rattle.world_core.specs.Stands.{unparted};

use crate::fault::Fault;
use crate::peer::Peer;
use disk_model::Disk;
use funnel::{MsgId, PeerName, Token};
use ledger_core::Note;
use peer_queue::Owed;
use recovery::Tape;
use std::alloc::Global;

/// Peers, in byte order of their names, and the intake's tape.
#[derive(Drop)]
pub(crate) struct Stations<D: Disk> {
    pub(crate) alloc: Global,
    pub(crate) peers: Vec<Peer<D>>,
    pub(crate) intake: Tape<D>,
    // The number of the last line.
    pub(crate) last: u64,
    // The number that is kept to be sealed.
    pub(crate) begun: Option<u64>,
}

impl<D: Disk> Stations<D> {
    ghost use Rattle.world_core.specs.Past.{Past};
    ghost use Rattle.world_core.specs.Events.{Acknowledges, Owes, Parts, Sees};
    ghost use Rattle.world_core.specs.Steps.{IsSealable, begun_at};
    ghost use Rattle.world_core.specs.Stands.{DidOne, FailedOne, OwedOne, Stands};

    // Owes a line to the peer at this rank, which it names, and returns what came of it.
    pub(crate) fn owe_at(&mut self, rank: usize, token: &Token, id: &MsgId) -> Result<Owed, Fault>
        requires within { rank < vec_len self.old.peers }
        requires numbered { self.old.last + 1 < 2 ^ 64 }
        ensures ok { (past : Past) → Stands self.old past
            → IfOk result (λ owed. OwedOne past rank token.now id.now owed self.new) }
        ensures err { (past : Past) → Stands self.old past
            → IfErr result (λ fault. FailedOne past (Owes rank token.now id.now) fault self.new) }
        ensures last { self.new.last ≡ self.old.last }
        ensures count { vec_len self.new.peers ≡ vec_len self.old.peers }
    {
        let number = self.last + 1;
        let peer = &mut self.peers[rank];
        peer.owe(number, token, id)
    }

    pub(crate) fn part_at(&mut self, rank: usize) -> Result<(), Fault>
        requires { rank < vec_len self.old.peers }
        ensures ok { (past : Past) → Stands self.old past
            → OnOk result (DidOne past (Parts rank) self.new) }
        ensures err { (past : Past) → Stands self.old past
            → IfErr result (λ fault. FailedOne past (Parts rank) fault self.new) }
        ensures last { self.new.last ≡ self.old.last }
        ensures count { vec_len self.new.peers ≡ vec_len self.old.peers }
    {
        let peer = &mut self.peers[rank];
        peer.flush()
    }

    // Notes a number that may be sealed, if it is above the intake's mark.
    pub(crate) fn see(&mut self, number: u64) -> Result<(), Fault>
        ensures ok { (past : Past) → Stands self.old past → IsSealable past number
            → OnOk result (DidOne past (Sees number) self.new) }
        ensures err { (past : Past) → Stands self.old past
            → IfErr result (λ fault. FailedOne past (Sees number) fault self.new) }
    {
        if number <= self.intake.mark() {
            return Ok(());
        }
        if let Err((_, fault)) = self.intake.note(Note::Seen { number }) {
            return Err(Fault::from_tape(fault));
        }
        Ok(())
    }

    pub(crate) fn acknowledge(&mut self) -> Result<(), Fault>
        ensures ok { (past : Past) → Stands self.old past
            → OnOk result (DidOne past Acknowledges self.new) }
        ensures err { (past : Past) → Stands self.old past
            → IfErr result (λ fault. FailedOne past Acknowledges fault self.new) }
    {
        match self.intake.flush() {
            Ok(_) => Ok(()),
            Err(fault) => Err(Fault::from_tape(fault)),
        }
    }

    // The number that may be sealed: one is kept, and each peer was flushed since.
    pub(crate) fn sealable(&self) -> Option<u64>
        ensures some { IfSome result
            (λ number. (past : Past) → Stands self.now past → IsSealable past number) }
        ensures none { IfNone result
            ((past : Past) → Stands self.now past → (number : ℕ) → IsSealable past number → ⊥) }
    {
        if all_parted(&self.peers) {
            self.begun
        } else {
            None
        }
    }

    pub(crate) fn begin(&mut self)
        ensures { (past : Past) → Stands self.old past → Stands self.new (begun_at past) }
    {
        unpart_all(&mut self.peers);
        self.begun = Some(self.last);
    }

    // The rank of the first peer of this name.
    pub(crate) fn rank_of(&self, name: &PeerName) -> Option<usize>
        ensures { result ≡ position
            (λ peer. bytes_eq peer.conf.name name.now) self.now.peers.items }
    {
        self.peers.iter().position(|peer| peer.has_name(name))
    }
}

fn all_parted<D: Disk>(peers: &[Peer<D>]) -> bool
    ensures { result ≡ list_all (λ peer. peer.parted) peers.now }
{
    peers.iter().all(|peer| peer.parted)
}

fn unpart_all<D: Disk>(peers: &mut [Peer<D>])
    ensures { peers.new ≡ map unparted peers.old }
{
    for peer in peers.iter_mut() {
        peer.parted = false;
    }
}
