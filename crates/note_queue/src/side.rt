// The owner of a tape: it takes the notes of its queue, and puts them on the tape.
ghost use Rattle.std.specs.Prelude.{◌≡◌, ◌↔◌, ◌+◌, ◌++◌, ◌∷◌, [], ℕ, List};
ghost use Rattle.std.specs.Prelude.{None, Some, true};
ghost use Rattle.std.specs.Prelude.{IfErr, IfOk, IsErrOf, IsOk, IsTrue, OnErr, OnOk};
ghost use Rattle.crossbeam_queue.specs.Passes.{view};
ghost use Rattle.ledger_core.specs.State.{State, after};
ghost use Rattle.recovery.specs.Notes.{History};
ghost use Rattle.recovery.specs.Tape.{StandsFor};
ghost use Rattle.recovery.specs.Takes.{Takes};
ghost use Rattle.recovery.specs.Words.{IsBroken, IsDue, flushed_of, generation_of, ledger_of};
ghost use Rattle.recovery.specs.Words.{pending_of, place_of};
ghost use Rattle.note_queue.specs.Calls.{GoesOn, IsNotCalled, IsRefusedFor, TakesMore, TellsFaults};
ghost use Rattle.note_queue.specs.Owns.{IsKept, IsOwner, LeavesFirst, kept_list, put_on};
ghost use Rattle.note_queue.specs.Relay.{IsAt, WasSeen, may_pop};

use crate::rule::{Gets, NotePass, PassLog, Relays};
use crossbeam_queue::RuledArrayQueue;
use disk_model::Disk;
use ledger_core::{Debt, Key, Note, Totals};
use recovery::{Flushed, Tape, TapeFault};
use std::sync::Wait;

/// A tape, the pass of the queue that fills it, and a note that the tape refused. The ledger at the split, followed by
/// what the pass has taken, less the kept note, is the tape's.
#[derive(Drop)]
pub struct Side<D: Disk> {
    pub(crate) tape: Tape<D>,
    pub(crate) pass: NotePass,
    pub(crate) kept: Option<Note>,
    // What the tape counted as flushed at the split. What it counts beyond that are notes of the pass: so many of them
    // are acknowledged, whoever flushed them.
    pub(crate) since: u64,
    ghost role: { ((view pass).pops ≡ true) × (pass.me.1 ≡ []) },
    ghost last: { (view pass).got ≡ put_on (view pass).got kept ++ kept_list kept },
    ghost ledger: { ledger_of tape ≡ after (view pass).got_on (put_on (view pass).got kept) },
    ghost owner: { ∥ IsOwner tape (view pass).got_on since (put_on (view pass).got kept) ∥₁ },
}

impl<D: Disk> Side<D> {
    ghost use Rattle.std.specs.Prelude.{◌≢◌, IsSome, map};
    ghost use Rattle.std.specs.List.{Contains};
    ghost use Rattle.ledger_core.specs.Index.{debt_at};
    ghost use Rattle.ledger_core.specs.Ledger.{totals_of};
    ghost use Rattle.ledger_core.specs.State.{IsOwed};
    ghost use Rattle.recovery.specs.Flushes.{Flushes, HasFlushed, RefusesFlush};
    ghost use Rattle.recovery.specs.Rotates.{RefusesRotation, Rotates};
    ghost use Rattle.recovery.specs.Tape.{IsRead};
    ghost use Rattle.recovery.specs.Texts.{HasLengths, debts_at, lengths_of};
    ghost use Rattle.recovery.specs.Words.{IsDebtFault};
    ghost use Rattle.note_queue.specs.Ends.{IsOnDisks, IsSameEnd, KeepsFor, PutsMore};

    // The side of a tape on which nothing pends, with a pass that has taken nothing yet.
    pub(crate) fn new(tape: Tape<D>, pass: NotePass) -> Self
        requires pass { (view pass ≡ may_pop (ledger_of tape) []) × (pass.me.1 ≡ []) }
        requires works { IsBroken tape → ⊥ }
        requires none_pends { pending_of tape ≡ 0 }
        requires kept { ∥ IsKept tape ∥₁ }
        ensures parts { (result.tape ≡ tape) × (result.pass ≡ pass) × (result.kept ≡ None) }
        ensures since { result.since ≡ flushed_of tape }
    {
        let since = tape.flushed();
        Side {
            tape,
            pass,
            kept: None,
            since,
        }
    }

    /// Puts the kept note on the tape, and then what the queue holds, oldest first, until the queue is found empty, or
    /// the tape refuses a note, which is kept. It calls no disk.
    ///
    /// # Errors
    /// Why the tape refuses the note that is kept now: `Broken`; `Note`; `PendingFull` with 65,536 notes pending;
    /// `NoMemory`. The notes before it are on the tape.
    pub fn pull<P: Relays, R: Wait>(
        &mut self,
        rt: &R,
        queue: &RuledArrayQueue<Note, PassLog, P>,
    ) -> Result<(), TapeFault>
        requires queue { IsAt queue.now self.old.pass }
        ensures takes { TakesMore self.old.pass self.new.pass }
        ensures puts { PutsMore self.old self.new }
        ensures moments { LeavesFirst (view self.new.pass).got_on self.new.since
            (view self.new.pass).got self.old.tape self.new.tape }
        ensures ok { OnOk result (self.new.kept ≡ None) }
        // At one moment of the call the queue was empty, and the pass had taken what it has now.
        ensures empty { OnOk result (WasSeen P.holds 0 (view self.new.pass)) }
        ensures err { IfErr result (KeepsFor self.new) }
        ensures keeps { IsNotCalled self.old.tape self.new.tape }
    {
        self.put_kept()?;
        for _ in rt.forever() {
            if !self.take_one(rt, queue)? {
                return Ok(());
            }
        }
        unreachable!()
    }

    // Puts the kept note on the tape, if there is one.
    fn put_kept(&mut self) -> Result<(), TapeFault>
        ensures pass { self.new.pass ≡ self.old.pass }
        ensures puts { PutsMore self.old self.new }
        ensures ok { OnOk result (self.new.kept ≡ None) }
        ensures err { IfErr result (KeepsFor self.new) }
        ensures keeps { IsNotCalled self.old.tape self.new.tape }
    {
        match self.kept.take() {
            Some(note) => put(&mut self.tape, &mut self.kept, note),
            None => Ok(()),
        }
    }

    // Puts the oldest note of the queue on the tape; false if there was none.
    fn take_one<P: Relays, R: Wait>(
        &mut self,
        rt: &R,
        queue: &RuledArrayQueue<Note, PassLog, P>,
    ) -> Result<bool, TapeFault>
        requires queue { IsAt queue.now self.old.pass }
        requires none { self.old.kept ≡ None }
        ensures takes { TakesMore self.old.pass self.new.pass }
        ensures puts { PutsMore self.old self.new }
        ensures ok { OnOk result (self.new.kept ≡ None) }
        ensures empty { IfOk result
            (λ taken. (IsTrue taken → ⊥) → WasSeen P.holds 0 (view self.new.pass)) }
        ensures err { IfErr result (KeepsFor self.new) }
        ensures keeps { IsNotCalled self.old.tape self.new.tape }
    {
        match queue.pop_as::<Gets<P>, R>(rt, &mut self.pass) {
            Some(note) => {
                put(&mut self.tape, &mut self.kept, note)?;
                Ok(true)
            }
            None => Ok(false),
        }
    }

    /// Puts the notes that pend on the disks: from `Ok` on all that the tape took is acknowledged, and the answer
    /// counts it. A kept note stays kept. This is the tape's call of the same name, with its disk calls.
    ///
    /// # Errors
    /// The tape's, in its order: `Broken`; `TapeFull`; `NoMemory`; `Disk`, which breaks the tape.
    pub fn flush(&mut self) -> Result<Flushed, TapeFault>
        ensures moments { LeavesFirst (view self.old.pass).got_on self.old.since
            (view self.old.pass).got self.old.tape self.new.tape }
        ensures flushes { (h : History) → StandsFor self.old.tape h
            → Flushes TapeFault.Disk h self.old.tape self.new.tape result }
        ensures ok { IfOk result
            (HasFlushed (place_of self.old.tape) self.old.tape self.new.tape) }
        ensures on_disks { IfOk result (λ flushed. IsOnDisks self.new flushed.count) }
        ensures empty { pending_of self.old.tape ≡ 0 → (self.new.tape ≡ self.old.tape)
            × ((IsBroken self.old.tape → ⊥) → IsOk result) }
        ensures refuses { RefusesFlush self.old.tape self.new.tape result }
        ensures keeps { IsSameEnd self.old self.new }
        ensures goes_on { GoesOn self.old.tape self.new.tape result }
    {
        self.tape.flush()
    }

    /// Whether a rotation is due.
    pub fn rotate_due(&self) -> bool
        ensures { IsTrue result ↔ IsDue self.now.tape }
    {
        self.tape.rotate_due()
    }

    /// Rewrites the tape, the notes that pend included. From `Ok` on all that the tape took is acknowledged. Returns
    /// the new generation. This is the tape's call of the same name, with its disk calls.
    ///
    /// # Errors
    /// The tape's, in its order: `Broken`; `GenerationFull`; `TapeFull`; `NoMemory`; `Disk`, which breaks the tape.
    pub fn rotate(&mut self) -> Result<u64, TapeFault>
        ensures moments { LeavesFirst (view self.old.pass).got_on self.old.since
            (view self.old.pass).got self.old.tape self.new.tape }
        ensures rotates { (h : History) → StandsFor self.old.tape h
            → Rotates TapeFault.Disk h self.old.tape self.new.tape result }
        ensures generation { IfOk result (λ n. (n ≡ generation_of self.old.tape + 1)
            × (generation_of self.new.tape ≡ n)) }
        ensures none_pends { OnOk result (pending_of self.new.tape ≡ 0) }
        ensures on_disks { OnOk result (IsOnDisks self.new (flushed_of self.new.tape)) }
        ensures refuses { RefusesRotation self.old.tape self.new.tape result }
        ensures keeps { IsSameEnd self.old self.new }
        ensures goes_on { GoesOn self.old.tape self.new.tape result }
    {
        self.tape.rotate()
    }

    /// The debt of this key, read back; `None` if the tape does not owe it.
    ///
    /// # Errors
    /// The tape's, in its order: `Broken`; `NoMemory`; `Disk`. None of them breaks the tape.
    pub fn debt(&mut self, key: Key) -> Result<Option<Debt>, TapeFault>
        ensures debt { (h : History) → StandsFor self.old.tape h
            → IfOk result (λ debt. debt ≡ debt_at (ledger_of self.old.tape) key) }
        ensures owed { IfOk result
            (λ debt. (IsSome debt ↔ IsOwed (ledger_of self.old.tape) key)
            × HasLengths (ledger_of self.old.tape) key debt) }
        ensures broken { IsErrOf result TapeFault.Broken ↔ IsBroken self.old.tape }
        ensures refuses { IfErr result (λ e. IsDebtFault e
            × (e ≢ TapeFault.Broken → IsOwed (ledger_of self.old.tape) key)) }
        ensures faults { TellsFaults self.old.tape self.new.tape result }
        ensures reads { IsRead self.old.tape self.new.tape }
        ensures keeps { IsSameEnd self.old self.new }
        ensures moments { LeavesFirst (view self.old.pass).got_on self.old.since
            (view self.old.pass).got self.old.tape self.new.tape }
    {
        self.tape.debt(key)
    }

    /// The debts of these keys, in their order, read back; a key that the tape does not owe is passed over.
    ///
    /// # Errors
    /// The tape's ([`Tape::debts`]), in its order: `Broken`; `NoMemory`; `Disk`. None of them breaks the tape.
    pub fn debts(&mut self, keys: &[Key]) -> Result<Vec<Debt>, TapeFault>
        ensures debts { (h : History) → StandsFor self.old.tape h → IfOk result
            (λ debts. debts.items ≡ debts_at (ledger_of self.old.tape) keys.now) }
        ensures owed { IfOk result (λ debts. map lengths_of debts.items
            ≡ map lengths_of (debts_at (ledger_of self.old.tape) keys.now)) }
        ensures broken { IsErrOf result TapeFault.Broken ↔ IsBroken self.old.tape }
        ensures refuses { IfErr result (λ e. IsDebtFault e × (e ≡ TapeFault.Disk
            → (key : ℕ) × Contains keys.now key × IsOwed (ledger_of self.old.tape) key)) }
        ensures faults { TellsFaults self.old.tape self.new.tape result }
        ensures reads { IsRead self.old.tape self.new.tape }
        ensures keeps { IsSameEnd self.old self.new }
        ensures moments { LeavesFirst (view self.old.pass).got_on self.old.since
            (view self.old.pass).got self.old.tape self.new.tape }
    {
        self.tape.debts(keys)
    }

    /// What the tape counts, the notes that pend included. A broken tape answers too.
    pub fn totals(&self) -> Totals
        ensures counts { result ≡ totals_of (ledger_of self.now.tape) }
        ensures sum { result.taken ≡ result.owed + result.answered + result.dropped }
    {
        self.tape.totals()
    }
}

// Puts a note on the tape, or keeps it beside the tape.
fn put<D: Disk>(tape: &mut Tape<D>, kept: &mut Option<Note>, note: Note) -> Result<(), TapeFault>
    requires none { kept.old ≡ None }
    ensures last { (notes : List Note) → notes ++ note ∷ []
        ≡ put_on (notes ++ note ∷ []) kept.new ++ kept_list kept.new }
    ensures ledger { (base : State) (notes : List Note) → ledger_of tape.old ≡ after base notes
        → ledger_of tape.new ≡ after base (put_on (notes ++ note ∷ []) kept.new) }
    ensures owner { (base : State) (since : ℕ) (notes : List Note)
        → ∥ IsOwner tape.old base since notes ∥₁
        → ∥ IsOwner tape.new base since (put_on (notes ++ note ∷ []) kept.new) ∥₁ }
    ensures takes { (h : History) → StandsFor tape.old h → Takes (note ∷ []) h tape.new result }
    ensures ok { OnOk result (kept.new ≡ None) }
    ensures worked { OnOk result (IsBroken tape.old → ⊥) }
    ensures err { OnErr result (kept.new ≡ Some note) }
    ensures refused { IfErr result (IsRefusedFor tape.new note) }
    ensures keeps { IsNotCalled tape.old tape.new }
{
    match tape.note(note) {
        Ok(()) => Ok(()),
        Err((note, fault)) => {
            *kept = Some(note);
            Err(fault)
        }
    }
}
