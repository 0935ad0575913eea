// What a tape's lock keeps.
ghost use Rattle.std.specs.Prelude.{◌≡◌, ◌+◌};
ghost use Rattle.flusher.specs.Names.{IsTableAt};
ghost use Rattle.note_queue.specs.Words.{taking};

use crate::Naming;
use crossbeam_queue::RuledArrayQueue;
use disk_model::Disk;
use ledger_core::{Debt, Key, Note, Totals};
use note_queue::{PassLog, Relays, Side};
use recovery::{Flushed, TapeFault};
use std::marker::PhantomData;
use std::sync::Wait;

/// A tape, with the pass by which it takes what its peer's front has sent.
#[derive(Drop)]
pub struct TapeDesk<D: Disk, N: Naming> {
    // Its place among the peers.
    pub(crate) place: usize,
    pub(crate) side: Side<D>,
    pub(crate) of: PhantomData<N>,
    ghost tied: { IsTableAt N.names.tables place (taking side).table_id },
}

/// What a flush has put on a tape: the tape's answer, and what it counts. Only a successful flush makes one.
#[derive(Clone, Copy)]
pub(crate) struct Flush {
    flushed: Flushed,
    totals: Totals,
    ghost sum: { totals.taken ≡ totals.owed + totals.answered + totals.dropped },
}

impl Flush {
    /// What the tape answered.
    pub fn flushed(&self) -> Flushed
        ensures { result ≡ self.now.flushed }
    {
        self.flushed
    }

    /// What the tape counts.
    pub fn totals(&self) -> Totals
        ensures totals { result ≡ self.now.totals }
        ensures sum { result.taken ≡ result.owed + result.answered + result.dropped }
    {
        self.totals
    }
}

/// Debts that were read back from a tape, and that tape's place: at another peer the same keys are other debts. Only a
/// tape's desk makes one.
#[derive(Drop)]
pub(crate) struct ReadDebts {
    place: usize,
    debts: Vec<Debt>,
}

impl ReadDebts {
    /// The debts, in the order in which they were asked for.
    pub fn into_debts(self) -> Vec<Debt>
        ensures { result ≡ self.debts }
    {
        self.debts
    }
}

impl<D: Disk, N: Naming> TapeDesk<D, N> {
    ghost use Rattle.std.specs.Prelude.{◌≢◌, ◌↔◌, ℕ, None, Ok};
    ghost use Rattle.std.specs.Prelude.{IfErr, IfOk, IfSome, IsErrOf, IsOk, IsSome, OnOk, map};
    ghost use Rattle.std.specs.List.{Contains};
    ghost use Rattle.crossbeam_queue.specs.Passes.{view};
    ghost use Rattle.flusher.specs.Flushes.{Acknowledges, IsFlushOf, RefusesOrRewrites};
    ghost use Rattle.flusher.specs.Room.{HasNoRoomRewritten, TapeHasNoRoom};
    ghost use Rattle.ledger_core.specs.Index.{debt_at};
    ghost use Rattle.ledger_core.specs.State.{IsOwed};
    ghost use Rattle.note_queue.specs.Calls.{IsNotCalled, TakesMore, TellsFaults};
    ghost use Rattle.note_queue.specs.Ends.{IsSameEnd, KeepsFor, PutsMore};
    ghost use Rattle.note_queue.specs.Owns.{LeavesFirst};
    ghost use Rattle.note_queue.specs.Relay.{IsAt, WasSeen};
    ghost use Rattle.note_queue.specs.Words.{kept_of, since_of, tape_of};
    ghost use Rattle.recovery.specs.Flushes.{RefusesFlush};
    ghost use Rattle.recovery.specs.Notes.{History};
    ghost use Rattle.recovery.specs.Rotates.{RefusesRotation};
    ghost use Rattle.recovery.specs.Tape.{IsRead, StandsFor};
    ghost use Rattle.recovery.specs.Texts.{HasLengths, debts_at, lengths_of};
    ghost use Rattle.recovery.specs.Words.{IsBroken, IsDebtFault, IsDue, IsRotateFault, faults_of};
    ghost use Rattle.recovery.specs.Words.{generation_of, ledger_of, pending_of};

    /// Puts on the tape what was sent ([`Side::pull`]). It calls no disk.
    ///
    /// # Errors
    /// Why the tape refuses the note that is kept now: `Broken`; `Note`, which no run meets; `PendingFull`; `NoMemory`.
    pub fn pull<P: Relays, R: Wait>(
        &mut self,
        rt: &R,
        queue: &RuledArrayQueue<Note, PassLog, P>,
    ) -> Result<(), TapeFault>
        requires { IsAt queue.now (taking self.old.side) }
        ensures takes { TakesMore (taking self.old.side) (taking self.new.side) }
        ensures puts { PutsMore self.old.side self.new.side }
        ensures ok { OnOk result (kept_of self.new.side ≡ None) }
        // At one moment of the call the queue was empty, and the pass had taken what it has now.
        ensures empty { OnOk result (WasSeen P.holds 0 (view (taking self.new.side))) }
        ensures err { IfErr result (KeepsFor self.new.side) }
        ensures keeps { IsNotCalled (tape_of self.old.side) (tape_of self.new.side) }
    {
        let TapeDesk { side, .. } = self;
        side.pull(rt, queue)
    }

    /// Puts the notes that pend on the disks. If there is no room for them after what is there, much of which may be
    /// notes of debts that have long ended, the tape is rewritten, the notes that pend included.
    ///
    /// # Errors
    /// `Broken`; `TapeFull` if there is no room in a rewritten tape, or the generation is the greatest; `NoMemory`;
    /// `Disk`, which breaks the tape.
    pub fn flush(&mut self) -> Result<Flush, TapeFault>
        ensures ok { IfOk result (IsFlushOf self.new.side) }
        ensures acknowledges { (h : History) → StandsFor (tape_of self.old.side) h
            → Acknowledges h (tape_of self.old.side) (tape_of self.new.side) result }
        ensures moments { LeavesFirst (view (taking self.old.side)).got_on
            (since_of self.old.side) (view (taking self.old.side)).got
            (tape_of self.old.side) (tape_of self.new.side) }
        ensures refuses { RefusesOrRewrites (TapeHasNoRoom (tape_of self.old.side))
            (tape_of self.old.side) (tape_of self.new.side) result }
        ensures keeps { IsSameEnd self.old.side self.new.side }
    {
        match self.flush_once() {
            Err(TapeFault::TapeFull) => self.rotate_full(),
            flushed => flushed,
        }
    }

    // Flushes the tape, if there is room for what pends.
    fn flush_once(&mut self) -> Result<Flush, TapeFault>
        ensures ok { IfOk result (IsFlushOf self.new.side) }
        ensures acknowledges { (h : History) → StandsFor (tape_of self.old.side) h
            → Acknowledges h (tape_of self.old.side) (tape_of self.new.side) result }
        ensures moments { LeavesFirst (view (taking self.old.side)).got_on
            (since_of self.old.side) (view (taking self.old.side)).got
            (tape_of self.old.side) (tape_of self.new.side) }
        ensures empty { pending_of (tape_of self.old.side) ≡ 0
            → tape_of self.new.side ≡ tape_of self.old.side }
        ensures empty_ok { pending_of (tape_of self.old.side) ≡ 0
            → (IsBroken (tape_of self.old.side) → ⊥) → IsOk result }
        ensures refuses { RefusesFlush (tape_of self.old.side) (tape_of self.new.side) result }
        ensures keeps { IsSameEnd self.old.side self.new.side }
        ensures quiet { OnOk result
            (faults_of (tape_of self.new.side) ≡ faults_of (tape_of self.old.side)) }
    {
        let TapeDesk { side, .. } = self;
        let flushed = side.flush()?;
        Ok(Flush {
            flushed,
            totals: side.totals(),
        })
    }

    // Rewrites the tape, instead of a flush for which there is no room. The faults are those of a flush.
    fn rotate_full(&mut self) -> Result<Flush, TapeFault>
        ensures ok { IfOk result (IsFlushOf self.new.side) }
        ensures acknowledges { (h : History) → StandsFor (tape_of self.old.side) h
            → Acknowledges h (tape_of self.old.side) (tape_of self.new.side) result }
        ensures moments { LeavesFirst (view (taking self.old.side)).got_on
            (since_of self.old.side) (view (taking self.old.side)).got
            (tape_of self.old.side) (tape_of self.new.side) }
        ensures refuses { RefusesOrRewrites (HasNoRoomRewritten (tape_of self.old.side))
            (tape_of self.old.side) (tape_of self.new.side) result }
        ensures keeps { IsSameEnd self.old.side self.new.side }
    {
        match self.rotate() {
            Err(TapeFault::GenerationFull) => Err(TapeFault::TapeFull),
            rotated => rotated,
        }
    }

    /// Rewrites the tape, if that is due ([`TapeDesk::rotate`]). `None` if it is not, and nothing has changed.
    ///
    /// # Errors
    /// Those of `rotate`.
    pub fn rotate_if_due(&mut self) -> Result<Option<Flush>, TapeFault>
        ensures unchanged { (IsDue (tape_of self.old.side) → ⊥)
            → (result ≡ Ok None) × (self.new ≡ self.old) }
        ensures generation { IsDue (tape_of self.old.side) → IfOk result (λ rotated.
            IsSome rotated × (generation_of (tape_of self.new.side)
            ≡ generation_of (tape_of self.old.side) + 1)) }
        ensures ok { IfOk result (λ rotated. IfSome rotated (IsFlushOf self.new.side)
            × (faults_of (tape_of self.new.side) ≡ faults_of (tape_of self.old.side))) }
        ensures acknowledges { IsDue (tape_of self.old.side)
            → (h : History) → StandsFor (tape_of self.old.side) h
            → Acknowledges h (tape_of self.old.side) (tape_of self.new.side) result }
        ensures moments { IsDue (tape_of self.old.side)
            → LeavesFirst (view (taking self.old.side)).got_on (since_of self.old.side)
            (view (taking self.old.side)).got (tape_of self.old.side) (tape_of self.new.side) }
        ensures refuses { IsDue (tape_of self.old.side)
            → RefusesRotation (tape_of self.old.side) (tape_of self.new.side) result }
        ensures keeps { IsSameEnd self.old.side self.new.side }
        ensures kinds { IfErr result IsRotateFault }
    {
        if !self.side.rotate_due() {
            return Ok(None);
        }
        Ok(Some(self.rotate()?))
    }

    /// Rewrites the tape, the notes that pend included. A flush follows, which calls no disk, and returns what is on
    /// the tape.
    ///
    /// # Errors
    /// The tape's, in its order: `Broken`; `GenerationFull`; `TapeFull`; `NoMemory`; `Disk`, which breaks the tape.
    pub fn rotate(&mut self) -> Result<Flush, TapeFault>
        ensures ok { IfOk result (IsFlushOf self.new.side) }
        ensures acknowledges { (h : History) → StandsFor (tape_of self.old.side) h
            → Acknowledges h (tape_of self.old.side) (tape_of self.new.side) result }
        ensures moments { LeavesFirst (view (taking self.old.side)).got_on
            (since_of self.old.side) (view (taking self.old.side)).got
            (tape_of self.old.side) (tape_of self.new.side) }
        ensures generation { OnOk result (generation_of (tape_of self.new.side)
            ≡ generation_of (tape_of self.old.side) + 1) }
        ensures refuses { RefusesRotation (tape_of self.old.side) (tape_of self.new.side) result }
        ensures keeps { IsSameEnd self.old.side self.new.side }
        ensures quiet { OnOk result
            (faults_of (tape_of self.new.side) ≡ faults_of (tape_of self.old.side)) }
    {
        let TapeDesk { side, .. } = self;
        side.rotate()?;
        // Nothing pends now, and the tape works: it cannot refuse this.
        match self.flush_once() {
            Ok(flush) => Ok(flush),
            Err(_) => unreachable!(),
        }
    }

    /// The debt of this key, read back; None if the tape does not owe it ([`Side::debt`]).
    pub fn debt(&mut self, key: Key) -> Result<Option<Debt>, TapeFault>
        ensures debt { (h : History) → StandsFor (tape_of self.old.side) h
            → IfOk result (λ debt. debt ≡ debt_at (ledger_of (tape_of self.old.side)) key) }
        ensures owed { IfOk result
            (λ debt. (IsSome debt ↔ IsOwed (ledger_of (tape_of self.old.side)) key)
            × HasLengths (ledger_of (tape_of self.old.side)) key debt) }
        ensures broken { IsErrOf result TapeFault.Broken ↔ IsBroken (tape_of self.old.side) }
        ensures refuses { IfErr result (λ e. IsDebtFault e
            × (e ≢ TapeFault.Broken → IsOwed (ledger_of (tape_of self.old.side)) key)) }
        ensures faults { TellsFaults (tape_of self.old.side) (tape_of self.new.side) result }
        ensures reads { IsRead (tape_of self.old.side) (tape_of self.new.side) }
        ensures keeps { IsSameEnd self.old.side self.new.side }
    {
        let TapeDesk { side, .. } = self;
        side.debt(key)
    }

    /// The debts of these keys, in their order, read back; a key that the tape does not owe is passed over
    /// ([`Side::debts`]).
    pub fn debts(&mut self, keys: &[Key]) -> Result<ReadDebts, TapeFault>
        ensures place { IfOk result (λ read. read.place ≡ self.old.place) }
        ensures debts { (h : History) → StandsFor (tape_of self.old.side) h → IfOk result
            (λ read. read.debts.items ≡ debts_at (ledger_of (tape_of self.old.side)) keys.now) }
        ensures owed { IfOk result (λ read. map lengths_of read.debts.items
            ≡ map lengths_of (debts_at (ledger_of (tape_of self.old.side)) keys.now)) }
        ensures broken { IsErrOf result TapeFault.Broken ↔ IsBroken (tape_of self.old.side) }
        ensures refuses { IsErrOf result TapeFault.Disk
            → (key : ℕ) × Contains keys.now key × IsOwed (ledger_of (tape_of self.old.side)) key }
        ensures faults { TellsFaults (tape_of self.old.side) (tape_of self.new.side) result }
        ensures reads { IsRead (tape_of self.old.side) (tape_of self.new.side) }
        ensures keeps { IsSameEnd self.old.side self.new.side }
        ensures kinds { IfErr result IsDebtFault }
    {
        let place = self.place;
        let TapeDesk { side, .. } = self;
        let debts = side.debts(keys)?;
        Ok(ReadDebts { place, debts })
    }
}
