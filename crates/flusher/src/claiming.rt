// Debts, claimed by connections.
ghost use Rattle.std.specs.Prelude.{◌≡◌, ◌≢◌, ◌↔◌, ◌<◌, ◌⊎◌, length};
ghost use Rattle.std.specs.Prelude.{Err, IfErr, IfOk, IsErrOf, Ok, OnErr, Some};
ghost use Rattle.flusher.specs.Claims.{Claims, GivesBack, HandsOut, Unclaims};
ghost use Rattle.flusher.specs.Faults.{IsOfPeer, IsOfStation};
ghost use Rattle.flusher.specs.Moments.{AtSomeMoment, HoldsNoKey, IsStray};
ghost use Rattle.flusher.specs.Refuses.{RefusesClaimOf};
ghost use Rattle.flusher.specs.Reports.{KeepsReport};
ghost use Rattle.ledger_core.specs.Index.{debt_at};
ghost use Rattle.ledger_core.specs.State.{IsOwed};
ghost use Rattle.note_queue.specs.Ends.{IsSameEnd};
ghost use Rattle.note_queue.specs.Words.{front_of, tape_of};
ghost use Rattle.peer_queue.specs.Faults.{IsClaimFault};
ghost use Rattle.peer_queue.specs.declared.fault.StationFault.{StationFault};
ghost use Rattle.recovery.specs.Notes.{History};
ghost use Rattle.recovery.specs.Tape.{IsRead, StandsFor};
ghost use Rattle.recovery.specs.Words.{IsBroken, ledger_of};

use crate::front_desk::{Claimed, FrontDesk};
use crate::tape_desk::TapeDesk;
use crate::{Naming, Post, PostFault};
use conn_core::CxnId;
use disk_model::Disk;
use ledger_core::{Debt, Key};
use std::sync::Wait;

impl<D: Disk, N: Naming> Post<D, N> {
    /// Claims the least candidate of a peer: its key under the front's lock, and its texts there, too, as long as the
    /// front has them, or if they were read ahead. Otherwise they are read from the tape, under the tape's lock alone;
    /// that may mean waiting for a flush. A key whose texts can't be had is given back: it is ready.
    ///
    /// # Errors
    /// The station's, in this order: `Broken`; `NoMemory`; `Tape(Disk)` if a read failed. `Stranger`, which no run
    /// meets, if the tape is another peer's, or doesn't owe what the front does.
    pub fn claim<R: Wait>(
        &self,
        rt: &R,
        peer: usize,
        connection: CxnId,
        now: u64,
    ) -> Result<Option<Debt>, PostFault>
        requires { peer < length self.now.names }
        ensures claims { IfOk result
            (λ debt. AtSomeMoment N N.Naming peer (HandsOut connection.0 now debt)) }
        ensures given_back { IfErr result (λ e. HoldsNoKey N N.Naming peer connection.0 now
            ⊎ IsStray N N.Naming peer e) }
        ensures kinds { IfErr result (IsOfPeer peer IsClaimFault) }
    {
        let (claimed, _) = self.claimed(rt, peer, connection, now)?;
        match claimed {
            Claimed::Nothing => Ok(None),
            Claimed::Debt(debt) => Ok(Some(debt)),
            Claimed::ReadBefore(debt) => Ok(Some(debt)),
            Claimed::OnTape(key) => {
                let read = self.read(rt, peer, key);
                match self.handed(rt, peer, connection, key, read) {
                    Ok(debt) => Ok(Some(debt)),
                    Err(fault) => Err(fault),
                }
            }
        }
    }

    /// [`Post::claim`], but waits for no tape. If the tape is free, it reads ahead the debts that come next, so that
    /// claims go on while the tape is flushed.
    ///
    /// # Errors
    /// Those of `claim`; `Busy` if the tape is in use that alone has the texts, and the key is given back.
    pub fn try_claim<R: Wait>(
        &self,
        rt: &R,
        peer: usize,
        connection: CxnId,
        now: u64,
    ) -> Result<Option<Debt>, PostFault>
        requires { peer < length self.now.names }
        ensures claims { IfOk result
            (λ debt. AtSomeMoment N N.Naming peer (HandsOut connection.0 now debt)) }
        ensures given_back { IfErr result (λ e. HoldsNoKey N N.Naming peer connection.0 now
            ⊎ IsStray N N.Naming peer e) }
        ensures kinds { IfErr result
            (λ e. (e ≡ PostFault.Busy peer) ⊎ IsOfPeer peer IsClaimFault e) }
    {
        let (claimed, wants_more) = self.claimed(rt, peer, connection, now)?;
        match claimed {
            Claimed::Nothing => Ok(None),
            Claimed::Debt(debt) => Ok(Some(debt)),
            Claimed::ReadBefore(debt) => {
                if wants_more && let Some(mut tape) = self.peers[peer].tape.try_lock() {
                    self.read_ahead(rt, peer, &mut tape);
                }
                Ok(Some(debt))
            }
            Claimed::OnTape(key) => {
                let read = self.read_if_free(rt, peer, key);
                match self.handed(rt, peer, connection, key, read) {
                    Ok(debt) => Ok(Some(debt)),
                    Err(fault) => Err(fault),
                }
            }
        }
    }

    // Claims the least candidate at a peer's front, and tells whether more is to be read ahead there.
    fn claimed<R: Wait>(
        &self,
        rt: &R,
        peer: usize,
        connection: CxnId,
        now: u64,
    ) -> Result<(Claimed, bool), PostFault>
        requires { peer < length self.now.names }
        ensures claims { IfOk result (λ claimed. AtSomeMoment N N.Naming peer
            (λ old new. Claims connection.0 now old new claimed.0)) }
        ensures given_back { IfErr result
            (λ e. AtSomeMoment N N.Naming peer (GivesBack connection.0 now)
            ⊎ IsStray N N.Naming peer e) }
        ensures kinds { IfErr result (IsOfPeer peer IsClaimFault) }
    {
        let mut front = self.own_front(rt, peer)?;
        let claimed = claim_at(peer, &mut front, connection, now)?;
        Ok((claimed, front.wants_more()))
    }

    // The debt of this key, read from a peer's tape, which may mean waiting for a flush.
    fn read<R: Wait>(&self, rt: &R, peer: usize, key: Key) -> Result<Debt, PostFault>
        requires { peer < length self.now.names }
        ensures key { IfOk result (λ debt. debt.0 ≡ key) }
        ensures kinds { IfErr result (IsOfPeer peer IsClaimFault) }
    {
        read_at(peer, &mut self.peers[peer].tape.lock(rt), key)
    }

    // The debt of this key, read from a peer's tape if that is free; then what comes next is read ahead.
    fn read_if_free<R: Wait>(&self, rt: &R, peer: usize, key: Key) -> Result<Debt, PostFault>
        requires { peer < length self.now.names }
        ensures key { IfOk result (λ debt. debt.0 ≡ key) }
        ensures kinds { IfErr result
            (λ e. (e ≡ PostFault.Busy peer) ⊎ IsOfPeer peer IsClaimFault e) }
    {
        let Some(mut tape) = self.free_tape(peer) else {
            return Err(PostFault::Busy { peer });
        };
        let debt = read_at(peer, &mut tape, key)?;
        self.read_ahead(rt, peer, &mut tape);
        Ok(debt)
    }

    // Reads ahead from a peer's tape the debts that its front can hand out next. What can't be read stays there; what
    // was read is given to no other peer's front, where its keys are those of other debts.
    fn read_ahead<R: Wait>(&self, rt: &R, peer: usize, tape: &mut TapeDesk<D, N>)
        requires { peer < length self.now.names }
        ensures unchanged { tape.old.place ≢ peer → tape.new ≡ tape.old }
        ensures reads { IsRead (tape_of tape.old.side) (tape_of tape.new.side) }
        ensures keeps { IsSameEnd tape.old.side tape.new.side }
    {
        if tape.place != peer {
            return;
        }
        let Ok(keys) = self.front(rt, peer).keys_ahead() else {
            return;
        };
        if keys.is_empty() {
            return;
        }
        let Ok(read) = tape.debts(&keys) else {
            return;
        };
        let mut desk = self.front(rt, peer);
        if desk.seat.place == peer {
            let _ = desk.keep_ahead(read);
        }
    }

    // Hands out the debt of a claimed key, or gives the key back if its texts were not read.
    fn handed<R: Wait>(
        &self,
        rt: &R,
        peer: usize,
        connection: CxnId,
        key: Key,
        read: Result<Debt, PostFault>,
    ) -> Result<Debt, PostFault>
        requires { peer < length self.now.names }
        ensures ok { IfOk result (λ debt. read ≡ Ok debt) }
        ensures given_back { IfErr result (λ e. (read ≡ Err e)
            × AtSomeMoment N N.Naming peer (Unclaims connection.0 key)
            ⊎ IsStray N N.Naming peer e) }
    {
        match read {
            Ok(debt) => Ok(debt),
            Err(fault) => {
                let mut desk = self.own_front(rt, peer)?;
                desk.unclaim(connection, key);
                Err(fault)
            }
        }
    }
}

// Claims the least candidate at a peer's front.
fn claim_at<N: Naming>(
    peer: usize,
    desk: &mut FrontDesk<N>,
    connection: CxnId,
    now: u64,
) -> Result<Claimed, PostFault>
    requires own { desk.old.seat.place ≡ peer }
    ensures ok { IfOk result
        (Claims connection.0 now (front_of desk.old.seat.sender) (front_of desk.new.seat.sender)) }
    ensures given_back { OnErr result
        (GivesBack connection.0 now (front_of desk.old.seat.sender)
        (front_of desk.new.seat.sender)) }
    ensures refuses { RefusesClaimOf peer now (front_of desk.old.seat.sender)
        (front_of desk.new.seat.sender) result }
    ensures kinds { IfErr result (IsOfStation peer IsClaimFault) }
    ensures keeps_report { KeepsReport desk.old desk.new }
{
    match desk.claim(connection, now) {
        Ok(claimed) => Ok(claimed),
        Err(fault) => Err(PostFault::Station { peer, fault }),
    }
}

// The debt of this key, read from a peer's tape.
fn read_at<D: Disk, N: Naming>(
    peer: usize,
    desk: &mut TapeDesk<D, N>,
    key: Key,
) -> Result<Debt, PostFault>
    ensures key { IfOk result (λ debt. debt.0 ≡ key) }
    ensures debt { (h : History) → StandsFor (tape_of desk.old.side) h → IfOk result
        (λ debt. debt_at (ledger_of (tape_of desk.old.side)) key ≡ Some debt) }
    // The tape is another peer's, or it works and doesn't owe the key.
    ensures stranger { IsErrOf result (PostFault.Stranger peer) ↔ ((desk.old.place ≢ peer)
        ⊎ (IsBroken (tape_of desk.old.side) → ⊥)
        × (IsOwed (ledger_of (tape_of desk.old.side)) key → ⊥)) }
    ensures broken { IsErrOf result (PostFault.Station peer StationFault.Broken)
        ↔ ((desk.old.place ≡ peer) × IsBroken (tape_of desk.old.side)) }
    ensures reads { IsRead (tape_of desk.old.side) (tape_of desk.new.side) }
    ensures keeps { IsSameEnd desk.old.side desk.new.side }
    ensures kinds { IfErr result (IsOfPeer peer IsClaimFault) }
{
    if desk.place != peer {
        return Err(PostFault::Stranger { peer });
    }
    match desk.debt(key) {
        Ok(Some(debt)) => Ok(debt),
        Ok(None) => Err(PostFault::Stranger { peer }),
        Err(fault) => Err(PostFault::of_tape(peer, fault)),
    }
}
