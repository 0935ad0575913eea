// A station: all that one peer is owed, over its tape.
ghost use Rattle.std.specs.Prelude.{◌≡◌, ◌≢◌, ◌+◌, ◌≤◌, ◌<◌, ◌^◌, ℕ, None};
ghost use Rattle.std.specs.List.{All};
ghost use Rattle.std.specs.List.Sorted.{IsStrictlyIncreasing};
ghost use Rattle.ledger_core.specs.State.{keys};
ghost use Rattle.recovery.specs.Words.{ledger_of as tape_ledger, place_of as tape_place};
ghost use Rattle.std.specs.Prelude.{IfOk, OnOk};
ghost use Rattle.peer_queue.specs.DebtPlace.{all_ready, placed};

use crate::fault::station_fault;
use crate::place_index::{PlaceIndex, all_ready_of};
use crate::settled::{Settled, key_in};
use crate::wait::Readiness;
use crate::{Limits, Owed, Shed, StationFault};
use conn_core::{CxnId, Deferral, Outcome, Verdict};
use disk_model::Disk;
use funnel::{MsgId, Token};
use ledger_core::{Cause, Debt, Key, Note, Totals};
use recovery::{Flushed, RefusedTape, Tape, TapeFault};
use std::alloc::{AllocError, Global};

/// All that one peer is owed.
///
/// Each call is logarithmic in what is owed: `release` for each debt that it moves, and `shed` for each that there is
/// room for among the notes that pend, however much exceeds the limit. `flush` is linear in what pends; `open` and
/// `list` are linear.
#[derive(Drop)]
pub struct Station<D: Disk> {
    pub(crate) alloc: Global,
    pub(crate) tape: Tape<D>,
    // The place of each key that is owed.
    pub(crate) index: PlaceIndex,
    pub(crate) limits: Limits,
    ghost all_placed: { placed index ≡ keys (tape_ledger tape) },
    ghost unplaced: { tape_place tape ≡ None },
}

impl<D: Disk> Station<D> {
    ghost use Rattle.std.specs.Prelude.{◌⊎◌, ◌↔◌, true, nat_lt, find};
    ghost use Rattle.std.specs.Prelude.{MatchResult, IfErr, IfNone, IfSome, OnErr, IsErr, IsErrOf, IsOk, IsSome};
    ghost use Rattle.std.specs.Prelude.{IsTrue, List, Ok, Some, take};
    ghost use Rattle.std.specs.List.{Contains};
    ghost use Rattle.ledger_core.specs.Ledger.{totals_of};
    ghost use Rattle.ledger_core.specs.declared.ledger.LedgerFault.{LedgerFault};
    ghost use Rattle.ledger_core.specs.declared.note.Note.{Note};
    ghost use Rattle.ledger_core.specs.State.{IsNext, IsOwed, Overflows, marks_of};
    ghost use Rattle.recovery.specs.Flushes.{Flushes, HasFlushed};
    ghost use Rattle.recovery.specs.Image.{EachTape, Survives};
    ghost use Rattle.recovery.specs.Notes.{History, most_pending};
    ghost use Rattle.recovery.specs.Opens.{HasCause, Opens, OpensWhatSurvives};
    ghost use Rattle.recovery.specs.Rotates.{Rotates};
    ghost use Rattle.recovery.specs.Words.{IsDue, IsOpenFault, OneHasRisen, refused_log};
    ghost use Rattle.ledger_core.specs.Index.{debt_at};
    ghost use Rattle.recovery.specs.Texts.{HasLengths};
    ghost use Rattle.peer_queue.specs.Calls.{Defers, IsFresh, KeepsDebts, RefusesClaim, RefusesFlush};
    ghost use Rattle.peer_queue.specs.Calls.{RefusesClose, RefusesDebt, RefusesOwe, RefusesRotation, Sheds};
    ghost use Rattle.peer_queue.specs.DebtPlace.{AreRising, Held, IsHeldBy, IsLater, Later, Ready};
    ghost use Rattle.peer_queue.specs.DebtPlace.{gone, held_count, least_candidate, moved, place_until};
    ghost use Rattle.peer_queue.specs.DebtPlace.{released, unheld, with_place};
    ghost use Rattle.peer_queue.specs.Index.{place_for};
    ghost use Rattle.peer_queue.specs.Shed.{IsShedSet};
    ghost use Rattle.peer_queue.specs.Settled.{Finishes, IsEnded, Settles, key_in, settled_by};
    ghost use Rattle.peer_queue.specs.Faults.{IsClaimFault, IsEndFault, IsOweFault};
    ghost use Rattle.peer_queue.specs.Words.{IsBroken, IsEnd, IsRead, IsSame, IsSameTape, MeetsFull};
    ghost use Rattle.peer_queue.specs.Refusals.{Tells};
    ghost use Rattle.peer_queue.specs.Words.{Notes, Refuses, StandsFor, code_of, deferred_key, disks_of};
    ghost use Rattle.peer_queue.specs.Words.{generation_of, faults_of, AreHonest, Continues, ledger_of, limits_of};
    ghost use Rattle.peer_queue.specs.Words.{answered_key, open_key, pending_of, places_of};

    /// Opens the station of two disks, empty ones among them: all that its tape owes is ready.
    ///
    /// # Errors
    /// The tape's: `Damaged`, `Disk`, `NoMemory`; then `NoMemory` of the station. The disks are handed back: unchanged
    /// if they are `Damaged`, and with the tape's end repaired if the station was refused memory.
    pub fn open(alloc: Global, a: D, b: D, limits: Limits) -> Result<Station<D>, RefusedTape<D>>
        // Whatever a stop left of a history is opened.
        ensures recovers { (h : History) → D.honest a → D.honest b
            → EachTape (Survives h) (D.log a, D.log b)
            → OpensWhatSurvives (λ station. station.tape) h (D.log a, D.log b) result }
        // At `Ok` the disks held a tape; at `Err` a stop left images from before, or ones that read as the disks did.
        ensures opens { D.honest a → D.honest b
            → Opens (λ station. station.tape) (D.log a, D.log b) result }
        // Each fault has its cause; what is no tape is handed back as it was.
        ensures causes { D.honest a → D.honest b
            → IfErr result (HasCause (D.log a, D.log b) (D.faults_of a, D.faults_of b)) }
        ensures untouched { D.honest a → D.honest b → IfErr result (λ e. (segment at : ℕ)
            → e.fault ≡ TapeFault.Damaged segment at → refused_log e ≡ (D.log a, D.log b)) }
        ensures kinds { IfErr result (λ e. IsOpenFault e.fault) }
        ensures fresh { IfOk result (IsFresh limits) }
        ensures honest { MatchResult result
            (λ station. (D.honest a × D.honest b) ↔ AreHonest station)
            (λ e. (D.honest a × D.honest b) ↔ (D.honest e.a × D.honest e.b)) }
        ensures quiet { MatchResult result (λ station. faults_of station
            ≡ (D.faults_of a, D.faults_of b))
            (λ e. (D.faults_of a ≤ D.faults_of e.a) × (D.faults_of b ≤ D.faults_of e.b)) }
    {
        let tape = match Tape::open(alloc, a, b) {
            Ok(tape) => tape,
            Err(refused) => return Err(refused),
        };
        match index_of(alloc, &tape) {
            Ok(index) => Ok(Station {
                alloc,
                tape,
                index,
                limits,
            }),
            Err(_) => {
                let (a, b) = tape.into_disks();
                let fault = TapeFault::NoMemory;
                Err(RefusedTape { a, b, fault })
            }
        }
    }

    /// Owes the funnel's line of this number: it is ready from now on.
    ///
    /// # Errors
    /// Tried in this order: `Broken`; `NoMemory` of the station; `Tape(Note(CountFull))`; `Tape(PendingFull)`;
    /// `NoMemory`.
    pub fn owe(&mut self, number: u64, token: &Token, id: &MsgId) -> Result<Owed, StationFault>
        ensures already { (result ≡ Ok Owed.Already)
            ↔ ((IsBroken self.old → ⊥) × (number ≤ (ledger_of self.old).mark)) }
        ensures unchanged { result ≡ Ok Owed.Already → self.new ≡ self.old }
        ensures new { result ≡ Ok Owed.New
            → Notes self.old self.new (Note.Owe number token.now id.now) }
        ensures places { result ≡ Ok Owed.New
            → places_of self.new ≡ with_place (places_of self.old) number Ready }
        ensures refuses { RefusesOwe (ledger_of self.old).mark number
            (Note.Owe number token.now id.now) self.old self.new result }
    {
        if self.tape.is_broken() {
            return Err(StationFault::Broken);
        }
        if number <= self.tape.mark() {
            return Ok(Owed::Already);
        }
        self.owe_new(Key::new(0, number), token, id)
    }

    /// Owes the line of this number of the source that is open (a backlog file): it is ready from now on.
    ///
    /// # Errors
    /// Tried in this order: `Broken`; `NoMemory` of the station; `Tape(Note(CountFull))`; `Tape(PendingFull)`;
    /// `NoMemory`.
    pub fn import(&mut self, number: u64, token: &Token, id: &MsgId) -> Result<Owed, StationFault>
        ensures already { (result ≡ Ok Owed.Already)
            ↔ ((IsBroken self.old → ⊥) × (number ≤ (ledger_of self.old).import_mark)) }
        ensures unchanged { result ≡ Ok Owed.Already → self.new ≡ self.old }
        ensures new { result ≡ Ok Owed.New
            → Notes self.old self.new (Note.Owe (open_key self.old number) token.now id.now) }
        ensures places { result ≡ Ok Owed.New → places_of self.new
            ≡ with_place (places_of self.old) (open_key self.old number) Ready }
        ensures refuses { RefusesOwe (ledger_of self.old).import_mark number
            (Note.Owe (open_key self.old number) token.now id.now) self.old self.new result }
    {
        if self.tape.is_broken() {
            return Err(StationFault::Broken);
        }
        if number <= self.tape.import_mark() {
            return Ok(Owed::Already);
        }
        let source = self.tape.closed() + 1;
        self.owe_new(Key::new(source, number), token, id)
    }

    /// Closes the source that is open, and returns its number: the next one is open from now on.
    ///
    /// # Errors
    /// Nothing changes. Tried in this order: `Broken`; `Tape(Note(CountFull))` if it is the last source;
    /// `Tape(PendingFull)`; `NoMemory`.
    pub fn close_import(&mut self) -> Result<u32, StationFault>
        ensures closed { IfOk result (λ source. (source ≡ (ledger_of self.old).closed + 1)
            × Notes self.old self.new (Note.Closed source)) }
        ensures places { places_of self.new ≡ places_of self.old }
        ensures refuses { RefusesClose self.old self.new result }
    {
        let source = self.tape.closed() + 1;
        if let Err((_, fault)) = self.tape.note(Note::Closed { source }) {
            return Err(station_fault(fault));
        }
        Ok(source)
    }

    /// Claims the least key that is ready, or later until a moment at or before `now`: from now on this connection
    /// holds it. Its texts are read back from the tape, unless its note pends.
    ///
    /// # Errors
    /// Tried in this order: `Broken`; `NoMemory`; `Tape(Disk)`, if the read failed or returned another note than was
    /// put there, which an honest disk never does. The debt keeps its place, and the station works on.
    pub fn claim(&mut self, connection: CxnId, now: u64) -> Result<Option<Debt>, StationFault>
        ensures none { IfOk result
            (λ debt. IfNone debt ((least_candidate now (places_of self.old) ≡ None)
            × (places_of self.new ≡ places_of self.old))) }
        ensures some { IfOk result
            (λ debt. IfSome debt (λ d. (least_candidate now (places_of self.old) ≡ Some d.0)
            × (places_of self.new ≡ moved (places_of self.old) d.0 (Held connection.0)))) }
        // It is the debt that was noted.
        ensures debt { (h : History) → StandsFor self.old h
            → IfOk result (λ debt. IfSome debt (λ d. Contains (ledger_of self.old).debts d)) }
        ensures reads { IsRead self.old self.new }
        ensures quiet { OnOk result (faults_of self.new ≡ faults_of self.old) }
        ensures refuses { RefusesClaim now self.old self.new result }
        ensures cause { (h : History) → StandsFor self.old h
            → IsErrOf result (StationFault.Tape TapeFault.Disk)
            → OneHasRisen (faults_of self.old) (faults_of self.new) }
    {
        if self.tape.is_broken() {
            return Err(StationFault::Broken);
        }
        let Some(key) = self.index.candidate(now) else {
            return Ok(None);
        };
        let debt = self.owed_debt(key)?;
        self.index.hold(connection, key)?;
        Ok(Some(debt))
    }

    /// Settles a debt by the peer's final answer.
    ///
    /// # Errors
    /// The verdict is handed back. Tried in this order: `Broken`; `NotHeld`; `Tape(PendingFull)`; `NoMemory`.
    pub fn settle(
        &mut self,
        connection: CxnId,
        verdict: Verdict,
    ) -> Result<(), (Verdict, StationFault)>
        ensures ok { OnOk result
            (Notes self.old self.new (Note.Final (answered_key verdict) (code_of verdict))) }
        ensures places { OnOk result
            (IsHeldBy (places_of self.old) connection.0 (answered_key verdict)
            × (places_of self.new ≡ gone (places_of self.old) (answered_key verdict))) }
        ensures refuses { Refuses self.old connection.0 (answered_key verdict) result }
        ensures pending_full { Tells result (StationFault.Tape TapeFault.PendingFull)
            ↔ MeetsFull self.old connection.0 (answered_key verdict) }
        ensures kinds { IfErr result (λ e. IsEndFault e.1) }
        ensures returned { IfErr result (λ e. e.0 ≡ verdict) }
        ensures unchanged { OnErr result (IsSame self.old self.new) }
    {
        let settled = Settled::Answered(verdict.code());
        match self.settle_as(connection, verdict.debt().key(), settled) {
            Ok(()) => Ok(()),
            Err(fault) => Err((verdict, fault)),
        }
    }

    /// Makes a deferred debt wait until 60 seconds after `now`, or drops it if the limits say so.
    ///
    /// # Errors
    /// The deferral is handed back. Tried in this order: `Broken`; `NotHeld`; if it is dropped `Tape(PendingFull)`,
    /// `NoMemory`.
    pub fn defer(
        &mut self,
        connection: CxnId,
        deferral: Deferral,
        now: u64,
    ) -> Result<(), (Deferral, StationFault)>
        ensures ok { OnOk result (Defers connection.0 deferral now self.old self.new) }
        ensures refuses { Refuses self.old connection.0 (deferred_key deferral) result }
        ensures pending_full { Tells result (StationFault.Tape TapeFault.PendingFull)
            ↔ (((limits_of self.old).drop_deferred ≡ true)
            × MeetsFull self.old connection.0 (deferred_key deferral)) }
        ensures no_memory { Tells result StationFault.NoMemory
            → (limits_of self.old).drop_deferred ≡ true }
        ensures kinds { IfErr result (λ e. IsEndFault e.1) }
        ensures returned { IfErr result (λ e. e.0 ≡ deferral) }
        ensures unchanged { OnErr result (IsSame self.old self.new) }
    {
        let settled = Settled::deferred(self.limits, now);
        match self.settle_as(connection, deferral.debt().key(), settled) {
            Ok(()) => Ok(()),
            Err(fault) => Err((deferral, fault)),
        }
    }

    /// Drops a debt whose article cannot be sent.
    ///
    /// # Errors
    /// The debt is handed back. Tried in this order: `Broken`; `NotHeld`; `Tape(PendingFull)`; `NoMemory`.
    pub fn lose(
        &mut self,
        connection: CxnId,
        debt: Debt,
        cause: Cause,
    ) -> Result<(), (Debt, StationFault)>
        ensures ok { OnOk result (Notes self.old self.new (Note.Drop debt.0 cause)) }
        ensures places { OnOk result
            (IsHeldBy (places_of self.old) connection.0 debt.0
            × (places_of self.new ≡ gone (places_of self.old) debt.0)) }
        ensures refuses { Refuses self.old connection.0 debt.0 result }
        ensures pending_full { Tells result (StationFault.Tape TapeFault.PendingFull)
            ↔ MeetsFull self.old connection.0 debt.0 }
        ensures kinds { IfErr result (λ e. IsEndFault e.1) }
        ensures returned { IfErr result (λ e. e.0 ≡ debt) }
        ensures unchanged { OnErr result (IsSame self.old self.new) }
    {
        match self.settle_as(connection, debt.key(), Settled::Dropped(cause)) {
            Ok(()) => Ok(()),
            Err(fault) => Err((debt, fault)),
        }
    }

    /// Takes a debt back: it is ready. Takes no memory.
    ///
    /// # Errors
    /// The debt is handed back. Tried in this order: `Broken`; `NotHeld`.
    pub fn back(&mut self, connection: CxnId, debt: Debt) -> Result<(), (Debt, StationFault)>
        ensures ok { OnOk result
            (IsSameTape self.old self.new × IsHeldBy (places_of self.old) connection.0 debt.0
            × (places_of self.new ≡ moved (places_of self.old) debt.0 Ready)) }
        ensures refuses { Refuses self.old connection.0 debt.0 result }
        ensures kinds { IfErr result
            (λ e. (e.1 ≡ StationFault.Broken) ⊎ (e.1 ≡ StationFault.NotHeld)) }
        ensures returned { IfErr result (λ e. e.0 ≡ debt) }
        ensures unchanged { OnErr result (IsSame self.old self.new) }
    {
        match self.settle_as(connection, debt.key(), Settled::Ready) {
            Ok(()) => Ok(()),
            Err(fault) => Err((debt, fault)),
        }
    }

    /// Takes a debt back, and makes it wait until this moment; until 0 is no wait: it is ready. Takes no memory, and
    /// makes no note.
    ///
    /// # Errors
    /// The debt is handed back. Tried in this order: `Broken`; `NotHeld`.
    pub fn put_off(
        &mut self,
        connection: CxnId,
        debt: Debt,
        until: u64,
    ) -> Result<(), (Debt, StationFault)>
        ensures ok { OnOk result
            (IsSameTape self.old self.new × IsHeldBy (places_of self.old) connection.0 debt.0
            × (places_of self.new ≡ moved (places_of self.old) debt.0 (place_until until))) }
        ensures refuses { Refuses self.old connection.0 debt.0 result }
        ensures kinds { IfErr result
            (λ e. (e.1 ≡ StationFault.Broken) ⊎ (e.1 ≡ StationFault.NotHeld)) }
        ensures returned { IfErr result (λ e. e.0 ≡ debt) }
        ensures unchanged { OnErr result (IsSame self.old self.new) }
    {
        if self.tape.is_broken() {
            return Err((debt, StationFault::Broken));
        }
        if !self.index.is_held_by(connection, debt.key()) {
            return Err((debt, StationFault::NotHeld));
        }
        self.give_up(connection, debt.key(), Readiness::Until(until));
        Ok(())
    }

    /// Takes a connection's outcome of a debt that it held: a final answer settles it, a deferral makes it wait or
    /// drops it, a debt whose article can't be sent is dropped, and one that came back is ready.
    ///
    /// # Errors
    /// The outcome is handed back. Tried in this order: `Broken`; `NotHeld`; if the debt ends `Tape(PendingFull)`,
    /// `NoMemory`.
    pub fn finish(
        &mut self,
        connection: CxnId,
        outcome: Outcome,
        now: u64,
    ) -> Result<Settled, (Outcome, StationFault)>
        ensures settled { IfOk result (λ settled.
            settled ≡ settled_by (limits_of self.old) now outcome) }
        ensures ok { OnOk result (Finishes connection.0 now outcome self.old self.new) }
        ensures refuses { Refuses self.old connection.0 (key_in outcome) result }
        ensures pending_full { Tells result (StationFault.Tape TapeFault.PendingFull)
            ↔ (IsEnded (settled_by (limits_of self.old) now outcome)
            × MeetsFull self.old connection.0 (key_in outcome)) }
        ensures no_memory { Tells result StationFault.NoMemory
            → IsEnded (settled_by (limits_of self.old) now outcome) }
        ensures kinds { IfErr result (λ e. IsEndFault e.1) }
        ensures returned { IfErr result (λ e. e.0 ≡ outcome) }
        ensures unchanged { OnErr result (IsSame self.old self.new) }
    {
        let settled = Settled::by(&outcome, self.limits, now);
        match self.settle_as(connection, key_in(&outcome), settled) {
            Ok(()) => Ok(settled),
            Err(fault) => Err((outcome, fault)),
        }
    }

    /// Makes all debts ready that this connection held, and returns how many. Takes no memory. A broken station
    /// answers too.
    pub fn release(&mut self, connection: CxnId) -> u64
        ensures count { result ≡ held_count connection.0 (places_of self.old) }
        ensures places { places_of self.new ≡ released connection.0 (places_of self.old) }
        ensures tape { IsSameTape self.old self.new }
    {
        // No more are held than are owed, so the count fits.
        let _totals = self.tape.totals();
        self.index.release(connection)
    }

    /// Drops, oldest first, what exceeds the backlog's limit, as far as there is room among the notes that pend. On a
    /// refusal nothing is dropped. It gathers at most one key more than there is room for.
    ///
    /// # Errors
    /// Tried in this order: `Broken`; `NoMemory`.
    pub fn shed(&mut self) -> Result<Shed, StationFault>
        ensures ok { IfOk result (Sheds self.old self.new) }
        ensures disks { disks_of self.new ≡ disks_of self.old }
        ensures works { IsBroken self.old ↔ IsBroken self.new }
        ensures limits { limits_of self.new ≡ limits_of self.old }
        ensures broken { IsErrOf result StationFault.Broken ↔ IsBroken self.old }
        ensures kinds { IfErr result
            (λ e. (e ≡ StationFault.Broken) ⊎ (e ≡ StationFault.NoMemory)) }
        ensures unchanged { OnErr result (IsSame self.old self.new) }
    {
        if self.tape.is_broken() {
            return Err(StationFault::Broken);
        }
        let room = self.tape.room();
        let mut keys = self.shed_set(room)?;
        let more = keys.len() > room;
        keys.truncate(room);
        if let Err(fault) = self.tape.drop_all(&keys, Cause::Limit) {
            return Err(station_fault(fault));
        }
        self.index.remove_all(&keys);
        Ok(Shed { keys, more })
    }

    // Notes a debt that is newly owed, and makes it ready.
    fn owe_new(&mut self, key: Key, token: &Token, id: &MsgId) -> Result<Owed, StationFault>
        requires works { IsBroken self.old → ⊥ }
        requires next { IsNext (marks_of (ledger_of self.old)) key }
        ensures new { OnOk result (Notes self.old self.new (Note.Owe key token.now id.now)) }
        ensures is_new { IfOk result (λ owed. owed ≡ Owed.New) }
        ensures places { OnOk result
            (places_of self.new ≡ with_place (places_of self.old) key Ready) }
        ensures broken { IsErrOf result StationFault.Broken → ⊥ }
        ensures count_full { IsErrOf result
            (StationFault.Tape (TapeFault.Note LedgerFault.CountFull))
            → Overflows (ledger_of self.old) (Note.Owe key token.now id.now) }
        ensures pending_full { IsErrOf result (StationFault.Tape TapeFault.PendingFull)
            → (pending_of self.old ≡ most_pending)
            × (Overflows (ledger_of self.old) (Note.Owe key token.now id.now) → ⊥) }
        ensures never { Overflows (ledger_of self.old) (Note.Owe key token.now id.now)
            ⊎ (pending_of self.old ≡ most_pending) → IsErr result }
        ensures kinds { IfErr result IsOweFault }
        ensures unchanged { OnErr result (IsSame self.old self.new) }
    {
        self.index.add(key)?;
        if let Err(fault) = self.tape.owe(key, token, id) {
            self.index.remove(key);
            return Err(station_fault(fault));
        }
        Ok(Owed::New)
    }

    // A debt that is owed, read back.
    fn owed_debt(&mut self, key: Key) -> Result<Debt, StationFault>
        requires works { IsBroken self.old → ⊥ }
        requires owed { IsOwed (ledger_of self.old) key }
        ensures key { IfOk result (λ debt. debt.0 ≡ key) }
        ensures debt { (h : History) → StandsFor self.old h
            → IfOk result (λ debt. Contains (ledger_of self.old).debts debt) }
        ensures cause { (h : History) → StandsFor self.old h
            → IsErrOf result (StationFault.Tape TapeFault.Disk)
            → OneHasRisen (faults_of self.old) (faults_of self.new) }
        ensures kinds { IfErr result
            (λ e. (e ≡ StationFault.Tape TapeFault.Disk) ⊎ (e ≡ StationFault.NoMemory)) }
        ensures reads { IsRead self.old self.new }
        ensures quiet { OnOk result (faults_of self.new ≡ faults_of self.old) }
        ensures places { places_of self.new ≡ places_of self.old }
    {
        match self.tape.debt(key) {
            Ok(Some(debt)) => Ok(debt),
            Ok(None) => unreachable!(),
            Err(fault) => Err(station_fault(fault)),
        }
    }

    // Does to a debt that this connection holds what its outcome says.
    fn settle_as(
        &mut self,
        connection: CxnId,
        key: Key,
        settled: Settled,
    ) -> Result<(), StationFault>
        requires { settled ≢ Settled.Later 0 }
        ensures ok { OnOk result (Settles connection.0 key settled self.old self.new) }
        ensures broken { IsErrOf result StationFault.Broken ↔ IsBroken self.old }
        ensures not_held { IsErrOf result StationFault.NotHeld
            ↔ ((IsBroken self.old → ⊥) × (IsHeldBy (places_of self.old) connection.0 key → ⊥)) }
        ensures pending_full { IsErrOf result (StationFault.Tape TapeFault.PendingFull)
            ↔ (IsEnded settled × MeetsFull self.old connection.0 key) }
        ensures no_memory { IsErrOf result StationFault.NoMemory → IsEnded settled }
        ensures kinds { IfErr result IsEndFault }
        ensures unchanged { OnErr result (IsSame self.old self.new) }
    {
        if self.tape.is_broken() {
            return Err(StationFault::Broken);
        }
        if !self.index.is_held_by(connection, key) {
            return Err(StationFault::NotHeld);
        }
        match settled {
            Settled::Answered(code) => self.end(connection, key, Note::Final { key, code }),
            Settled::Dropped(cause) => self.end(connection, key, Note::Drop { key, cause }),
            Settled::Later(moment) => {
                self.give_up(connection, key, Readiness::Until(moment));
                Ok(())
            }
            Settled::Ready => {
                self.give_up(connection, key, Readiness::Ready);
                Ok(())
            }
        }
    }

    // Ends a debt that this connection holds, by the note of its end, at a station that works.
    fn end(&mut self, connection: CxnId, key: Key, note: Note) -> Result<(), StationFault>
        requires note { IsEnd note key }
        requires works { IsBroken self.old → ⊥ }
        requires held { IsHeldBy (places_of self.old) connection.0 key }
        ensures ok { OnOk result (Notes self.old self.new note) }
        ensures places { OnOk result
            (places_of self.new ≡ gone (places_of self.old) key) }
        ensures pending_full { IsErrOf result (StationFault.Tape TapeFault.PendingFull)
            ↔ pending_of self.old ≡ most_pending }
        ensures kinds { IfErr result (λ e. (e ≡ StationFault.Tape TapeFault.PendingFull)
            ⊎ (e ≡ StationFault.NoMemory)) }
        ensures unchanged { OnErr result (IsSame self.old self.new) }
    {
        // What was taken is a sum with what has ended, so no count passes the greatest number.
        let _totals = self.tape.totals();
        if let Err((_, fault)) = self.tape.note(note) {
            return Err(station_fault(fault));
        }
        self.index.end(connection, key);
        Ok(())
    }

    // Makes a debt that this connection holds wait for this.
    fn give_up(&mut self, connection: CxnId, key: Key, wait: Readiness)
        requires { IsHeldBy (places_of self.old) connection.0 key }
        ensures tape { IsSameTape self.old self.new }
        ensures places { places_of self.new
            ≡ moved (places_of self.old) key (place_for wait) }
    {
        self.index.give_up(connection, key, wait);
    }

    // The least key above this one that no connection holds.
    fn next_unheld(&self, key: Key) -> Option<Key>
        ensures { result ≡ find (λ other. nat_lt key other) (unheld (places_of self.now)) }
    {
        match key.next() {
            Some(next) => self.index.unheld_from(next),
            None => {
                // It has 64 bits, so the last key is above all that are owed.
                let _import_mark = self.tape.import_mark();
                let _closed = self.tape.closed();
                None
            }
        }
    }

    // The keys to shed, oldest first: at most one more than there is room for.
    fn shed_set(&self, room: usize) -> Result<Vec<Key>, AllocError>
        ensures set { IfOk result (λ found. (set : List ℕ)
            × IsShedSet (limits_of self.now) (ledger_of self.now) (places_of self.now) set
            × (found.items ≡ take (room + 1) set)) }
        ensures rising { OnOk result (AreRising (places_of self.now)) }
    {
        let limit = self.limits.backlog_limit;
        let mut owed = self.tape.totals().owed_bytes;
        let mut set = Vec::new(self.alloc);
        let mut next = self.index.unheld_from(Key::new(0, 0));
        if limit == 0 || owed <= self.limits.backlog_high {
            return Ok(set);
        }
        while let Some(key) = next
            && owed > limit
            && set.len() <= room
        {
            set.push(key)?;
            owed = owed.saturating_sub(self.tape.octets(key).unwrap_or(0));
            next = self.next_unheld(key);
        }
        Ok(set)
    }

    /// Puts the notes that pend on the disk: from `Ok` on all notes are acknowledged. Returns how many notes of this
    /// opening are acknowledged now, at most the greatest u64; the answer names no place. Linear in what pends.
    ///
    /// # Errors
    /// Tried in this order: `Broken`; `Tape(TapeFull)`; `NoMemory`; these change nothing. `Tape(Disk)`: the station is
    /// broken from now on.
    pub fn flush(&mut self) -> Result<Flushed, StationFault>
        ensures flushes { (h : History) → StandsFor self.old h
            → Flushes (StationFault.Tape TapeFault.Disk) h self.old.tape self.new.tape result }
        ensures ok { IfOk result (HasFlushed None self.old.tape self.new.tape) }
        ensures empty { pending_of self.old ≡ 0 → self.new ≡ self.old }
        ensures empty_ok { pending_of self.old ≡ 0 → (IsBroken self.old → ⊥) → IsOk result }
        ensures refuses { RefusesFlush self.old self.new result }
        ensures keeps { KeepsDebts self.old self.new }
        ensures continues { Continues self.old self.new }
        ensures quiet { OnOk result (faults_of self.new ≡ faults_of self.old) }
    {
        match self.tape.flush() {
            Ok(flushed) => Ok(flushed),
            Err(fault) => Err(station_fault(fault)),
        }
    }

    /// Whether a rotation is due: the segment of its tape that lives is longer than 65,536 octets, and than four times
    /// what a rotation would write. In constant time; a broken station answers too.
    pub fn rotate_due(&self) -> bool
        ensures { IsTrue result ↔ IsDue self.now.tape }
    {
        self.tape.rotate_due()
    }

    /// Writes what is owed into the segment of its tape that doesn't live, which lives from then on: from `Ok` on all
    /// notes are acknowledged, and none pends. Returns the new generation. Linear in what is owed.
    ///
    /// # Errors
    /// Tried in this order: `Broken`; `Tape(GenerationFull)`; `Tape(TapeFull)`; `NoMemory`; these change nothing.
    /// `Tape(Disk)`: the station is broken from now on.
    pub fn rotate(&mut self) -> Result<u64, StationFault>
        ensures rotates { (h : History) → StandsFor self.old h
            → Rotates (StationFault.Tape TapeFault.Disk) h self.old.tape self.new.tape result }
        ensures generation { IfOk result (λ n. (n ≡ generation_of self.old + 1)
            × (generation_of self.new ≡ n)) }
        ensures none_pends { OnOk result (pending_of self.new ≡ 0) }
        ensures refuses { RefusesRotation self.old self.new result }
        ensures keeps { KeepsDebts self.old self.new }
        ensures continues { Continues self.old self.new }
        ensures quiet { OnOk result (faults_of self.new ≡ faults_of self.old) }
    {
        match self.tape.rotate() {
            Ok(generation) => Ok(generation),
            Err(fault) => Err(station_fault(fault)),
        }
    }

    /// The debt of this key, if it is owed. Its texts are read back from the tape, unless its note pends.
    ///
    /// # Errors
    /// Tried in this order: `Broken`; `NoMemory`; `Tape(Disk)`, if the read failed or returned another note than was
    /// put there, which an honest disk never does. The station works on.
    pub fn debt(&mut self, key: Key) -> Result<Option<Debt>, StationFault>
        // It is the debt that was noted.
        ensures debt { (h : History) → StandsFor self.old h
            → IfOk result (λ debt. debt ≡ debt_at (ledger_of self.old) key) }
        // Whatever the disk gives, the key is owed, and the texts have the lengths that were noted.
        ensures owed { IfOk result (λ debt. (IsSome debt ↔ IsOwed (ledger_of self.old) key)
            × HasLengths (ledger_of self.old) key debt) }
        ensures refuses { RefusesDebt key self.old result }
        ensures cause { (h : History) → StandsFor self.old h
            → IsErrOf result (StationFault.Tape TapeFault.Disk)
            → OneHasRisen (faults_of self.old) (faults_of self.new) }
        ensures reads { IsRead self.old self.new }
        ensures quiet { OnOk result (faults_of self.new ≡ faults_of self.old) }
        ensures places { places_of self.new ≡ places_of self.old }
    {
        match self.tape.debt(key) {
            Ok(debt) => Ok(debt),
            Err(fault) => Err(station_fault(fault)),
        }
    }

    /// The keys that are owed, rising. A broken station answers too.
    ///
    /// # Errors
    /// `NoMemory` if memory was refused.
    pub fn list(&self) -> Result<Vec<Key>, AllocError>
        ensures items { IfOk result (λ v. v.items ≡ keys (ledger_of self.now)) }
        ensures rising { IfOk result (λ v. IsStrictlyIncreasing v.items) }
    {
        self.tape.keys()
    }

    /// What was taken, answered and dropped, and what is owed: taken = owed + answered + dropped. A broken station
    /// answers too.
    pub fn totals(&self) -> Totals
        ensures counts { result ≡ totals_of (ledger_of self.now) }
        ensures sum { result.taken ≡ result.owed + result.answered + result.dropped }
    {
        self.tape.totals()
    }

    /// The greatest number of the funnel that was noted, 0 at first. A broken station answers too.
    pub fn mark(&self) -> u64
        ensures { result ≡ (ledger_of self.now).mark }
    {
        self.tape.mark()
    }

    /// The source that was closed last, 0 at first: the next one is open. A broken station answers too.
    pub fn closed(&self) -> u32
        ensures closed { result ≡ (ledger_of self.now).closed }
        ensures fits { result + 1 < 2 ^ 32 }
    {
        self.tape.closed()
    }

    /// The greatest number that was noted of the source that is open, 0 at first. A broken station answers too.
    pub fn import_mark(&self) -> u64
        ensures { result ≡ (ledger_of self.now).import_mark }
    {
        self.tape.import_mark()
    }

    /// How many more notes may pend. A broken station answers too.
    pub fn room(&self) -> usize
        ensures { result + pending_of self.now ≡ most_pending }
    {
        self.tape.room()
    }

    /// The limits of its backlog. A broken station answers too.
    pub fn limits(&self) -> Limits
        ensures { result ≡ limits_of self.now }
    {
        self.limits
    }

    /// Whether no debt is ready and no connection holds one: each waits for a moment, which may be past. A broken
    /// station answers too.
    pub fn all_later(&self) -> bool
        ensures { IsTrue result ↔ All (λ entry. IsLater entry.1) (places_of self.now) }
    {
        self.index.all_later()
    }

    /// The disks beneath, the first and the second. Notes that pend are gone. A broken station answers too.
    pub fn into_disks(self) -> (D, D)
        ensures disks { result ≡ disks_of self }
        ensures faults { (D.faults_of result.0, D.faults_of result.1) ≡ faults_of self }
        ensures survives { (h : History) → StandsFor self h → D.honest result.0 × D.honest result.1
            × EachTape (Survives h) (D.log result.0, D.log result.1) }
    {
        let Station { tape, .. } = self;
        tape.into_disks()
    }
}

// A tape keeps neither who held a debt nor how long one was to wait, so every debt of it is ready.
fn index_of<D: Disk>(alloc: Global, tape: &Tape<D>) -> Result<PlaceIndex, AllocError>
    ensures places { IfOk result (λ index. index ≡ all_ready (keys (tape_ledger tape.now))) }
{
    let keys = tape.keys()?;
    all_ready_of(alloc, &keys)
}
