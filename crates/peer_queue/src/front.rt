// The front of a station: all that is owed, and where each debt is. Somebody else has the tape.
ghost use Rattle.std.specs.Prelude.{◌≡◌, ◌≢◌, ◌+◌, ◌-◌, ◌<◌, ◌^◌, ◌∷◌, [], ℕ};
ghost use Rattle.std.specs.List.{All};
ghost use Rattle.std.specs.List.Sorted.{IsStrictlyIncreasing};
ghost use Rattle.ledger_core.specs.Shape.{keys_sized};
ghost use Rattle.peer_queue.specs.Outbox.{box_shape};
ghost use Rattle.peer_queue.specs.DebtPlace.{placed};

use crate::fault::station_fault;
use crate::outbox::Outbox;
use crate::place_index::PlaceIndex;
use crate::settled::{Settled, key_in};
use crate::wait::Readiness;
use crate::{Limits, Owed, Shed, StationFault};
use conn_core::{CxnId, Deferral, Outcome, Verdict};
use funnel::{MsgId, Token};
use ledger_core::{Cause, Debt, Key, Note, Totals};
use recovery::{Flushed, TapeFault};
use std::alloc::{AllocError, Global};

/// All that one peer is owed, without its tape.
///
/// `Station::split` makes it, and the tape goes to another owner, who syncs it. The front makes notes as the station
/// did. Whoever has both takes the notes from the front in order (`next_unsent`, `sent_one`), puts them on the tape,
/// and reports to the front what each flush returned (`settled`), or that the tape broke (`broke`). Until a flush has
/// settled it, a note pends.
///
/// It has the texts only of notes that pend, and of the last 8,192 that were settled (`unsettled`). The others are on
/// the tape.
///
/// Each call is logarithmic in what is owed: `release` for each debt that it moves, `shed` for each that there is room
/// for among the notes that pend, and `settled` for each note that it lets go. `list` is linear.
#[derive(Drop)]
pub struct Front {
    pub(crate) alloc: Global,
    pub(crate) outbox: Outbox,
    // The place of each key that is owed.
    pub(crate) index: PlaceIndex,
    pub(crate) limits: Limits,
    ghost all_placed: { placed index ≡ keys_sized (box_shape outbox).sizes },
}

impl Front {
    ghost use Rattle.std.specs.Prelude.{◌⊎◌, ◌↔◌, ◌≤◌, true, List, Some, None, Ok};
    ghost use Rattle.std.specs.Prelude.{length, take, filter, find, nat_lt, min};
    ghost use Rattle.std.specs.Prelude.{IfErr, IfNone, IfOk, IfSome, IsErr, IsErrOf, IsSome, IsTrue, OnErr, OnOk};
    ghost use Rattle.ledger_core.specs.declared.ledger.LedgerFault.{LedgerFault};
    ghost use Rattle.ledger_core.specs.declared.note.Note.{Note};
    ghost use Rattle.ledger_core.specs.Shape.{FitsShape, IsSized, OverflowsShape, shape_marks, shape_totals};
    ghost use Rattle.ledger_core.specs.State.{IsNext};
    ghost use Rattle.recovery.specs.Notes.{most_pending};
    ghost use Rattle.recovery.specs.declared.fault.TapeFault.{TapeFault};
    ghost use Rattle.peer_queue.specs.Faults.{IsEndFault, IsOweFault};
    ghost use Rattle.peer_queue.specs.Front.{IsBroken, IsSame, KeepsNotes, MeetsFull, Notes, front_shape, limits_of};
    ghost use Rattle.peer_queue.specs.Front.{open_key, pending_of, place_of, places_of, sent_of, settled_of};
    ghost use Rattle.peer_queue.specs.Front.{unsent_of};
    ghost use Rattle.peer_queue.specs.FrontCalls.{Defers, Finishes, IsAnswered, IsTextOf, OnlyOutbox, Refuses};
    ghost use Rattle.peer_queue.specs.FrontCalls.{RefusesClaim, RefusesClose, RefusesOwe, Settles, Sheds};
    ghost use Rattle.peer_queue.specs.Index.{place_for};
    ghost use Rattle.peer_queue.specs.Outbox.{Breaks, Learns, Sends};
    ghost use Rattle.peer_queue.specs.DebtPlace.{AreRising, Held, IsHeldBy, IsLater, Ready, gone, held_count};
    ghost use Rattle.peer_queue.specs.DebtPlace.{least_candidate, moved, place_until, released, unheld, with_place};
    ghost use Rattle.peer_queue.specs.Refusals.{Tells};
    ghost use Rattle.peer_queue.specs.Settled.{IsEnded, key_in, settled_by};
    ghost use Rattle.peer_queue.specs.Shed.{IsShedByShape};
    ghost use Rattle.peer_queue.specs.Words.{IsEnd, answered_key, code_of, deferred_key};

    /// Owes the funnel's line of this number: it is ready from now on.
    ///
    /// # Errors
    /// Tried in this order: `Broken`; `NoMemory` of the front; `Tape(Note(CountFull))`; `Tape(PendingFull)`;
    /// `NoMemory`.
    pub fn owe(&mut self, number: u64, token: &Token, id: &MsgId) -> Result<Owed, StationFault>
        ensures already { (result ≡ Ok Owed.Already)
            ↔ ((IsBroken self.old → ⊥) × (number ≤ (front_shape self.old).mark)) }
        ensures unchanged { result ≡ Ok Owed.Already → self.new ≡ self.old }
        ensures new { result ≡ Ok Owed.New
            → Notes self.old self.new (Note.Owe number token.now id.now ∷ []) }
        ensures places { result ≡ Ok Owed.New
            → places_of self.new ≡ with_place (places_of self.old) number Ready }
        ensures refuses { RefusesOwe (front_shape self.old).mark number
            (Note.Owe number token.now id.now) self.old self.new result }
    {
        if self.outbox.broken {
            return Err(StationFault::Broken);
        }
        if number <= self.outbox.outline.mark() {
            return Ok(Owed::Already);
        }
        self.owe_new(Key::new(0, number), token, id)
    }

    /// Owes the line of this number of the source that is open (a backlog file): it is ready from now on.
    ///
    /// # Errors
    /// Tried in this order: `Broken`; `NoMemory` of the front; `Tape(Note(CountFull))`; `Tape(PendingFull)`;
    /// `NoMemory`.
    pub fn import(&mut self, number: u64, token: &Token, id: &MsgId) -> Result<Owed, StationFault>
        ensures already { (result ≡ Ok Owed.Already)
            ↔ ((IsBroken self.old → ⊥) × (number ≤ (front_shape self.old).import_mark)) }
        ensures unchanged { result ≡ Ok Owed.Already → self.new ≡ self.old }
        ensures new { result ≡ Ok Owed.New
            → Notes self.old self.new (Note.Owe (open_key self.old number) token.now id.now ∷ []) }
        ensures places { result ≡ Ok Owed.New → places_of self.new
            ≡ with_place (places_of self.old) (open_key self.old number) Ready }
        ensures refuses { RefusesOwe (front_shape self.old).import_mark number
            (Note.Owe (open_key self.old number) token.now id.now) self.old self.new result }
    {
        if self.outbox.broken {
            return Err(StationFault::Broken);
        }
        if number <= self.outbox.outline.import_mark() {
            return Ok(Owed::Already);
        }
        let source = self.outbox.outline.closed() + 1;
        self.owe_new(Key::new(source, number), token, id)
    }

    /// Closes the source that is open, and returns its number: the next one is open from now on.
    ///
    /// # Errors
    /// Nothing changes. Tried in this order: `Broken`; `Tape(Note(CountFull))` if it is the last source;
    /// `Tape(PendingFull)`; `NoMemory`.
    pub fn close_import(&mut self) -> Result<u32, StationFault>
        ensures closed { IfOk result (λ source. (source ≡ (front_shape self.old).closed + 1)
            × Notes self.old self.new (Note.Closed source ∷ [])) }
        ensures places { places_of self.new ≡ places_of self.old }
        ensures refuses { RefusesClose self.old self.new result }
    {
        let source = self.outbox.outline.closed() + 1;
        if let Err((_, fault)) = self.outbox.note(Note::Closed { source }) {
            return Err(station_fault(fault));
        }
        Ok(source)
    }

    /// Claims the least key that is ready, or later until a moment at or before `now`: from now on this connection
    /// holds it. `unsettled` returns its texts, unless the tape alone has them.
    ///
    /// # Errors
    /// Tried in this order: `Broken`; `NoMemory`. Nothing changes.
    pub fn claim_key(&mut self, connection: CxnId, now: u64) -> Result<Option<Key>, StationFault>
        ensures none { IfOk result
            (λ found. IfNone found ((least_candidate now (places_of self.old) ≡ None)
            × (places_of self.new ≡ places_of self.old))) }
        ensures some { IfOk result
            (λ found. IfSome found (λ key. (least_candidate now (places_of self.old) ≡ Some key)
            × IsSized (front_shape self.old) key
            × (places_of self.new ≡ moved (places_of self.old) key (Held connection.0)))) }
        ensures keeps { KeepsNotes self.old self.new }
        ensures refuses { RefusesClaim now self.old self.new result }
    {
        if self.outbox.broken {
            return Err(StationFault::Broken);
        }
        let Some(key) = self.index.candidate(now) else {
            return Ok(None);
        };
        self.index.hold(connection, key)?;
        Ok(Some(key))
    }

    /// Gives back a key that was claimed, and whose debt was not handed out: it is ready. Takes no memory.
    ///
    /// # Errors
    /// Nothing changes. Tried in this order: `Broken`; `NotHeld`.
    pub fn unclaim(&mut self, connection: CxnId, key: Key) -> Result<(), StationFault>
        ensures ok { OnOk result
            (KeepsNotes self.old self.new × IsHeldBy (places_of self.old) connection.0 key
            × (places_of self.new ≡ moved (places_of self.old) key Ready)) }
        ensures broken { IsErrOf result StationFault.Broken ↔ IsBroken self.old }
        ensures not_held { IsErrOf result StationFault.NotHeld
            ↔ ((IsBroken self.old → ⊥) × (IsHeldBy (places_of self.old) connection.0 key → ⊥)) }
        ensures kinds { IfErr result
            (λ e. (e ≡ StationFault.Broken) ⊎ (e ≡ StationFault.NotHeld)) }
        ensures unchanged { OnErr result (IsSame self.old self.new) }
    {
        self.settle_as(connection, key, Settled::Ready)
    }

    /// A copy of a debt whose note is not settled, or was settled lately; `None` if the key is not owed, or if the tape
    /// alone has its texts.
    ///
    /// # Errors
    /// `NoMemory` if memory was refused.
    pub fn unsettled(&self, key: Key) -> Result<Option<Debt>, AllocError>
        ensures found { IfOk result (IsTextOf self.now key) }
    {
        self.outbox.unsettled(key)
    }

    /// The keys above this one that are owed and that no connection holds, rising, at most `most` of them: what can be
    /// claimed next after it, now or later. Logarithmic in what is owed, once, and for each key at most.
    ///
    /// # Errors
    /// `NoMemory` if memory was refused.
    pub fn unheld_after(&self, key: Key, most: usize) -> Result<Vec<Key>, AllocError>
        ensures { IfOk result (λ keys. keys.items
            ≡ take most (filter (λ other. nat_lt key other) (unheld (places_of self.now)))) }
    {
        match key.next() {
            Some(next) => self.index.unheld_keys_from(next, most),
            None => {
                // It has 64 bits, so the last key is above all that are owed.
                let _import_mark = self.outbox.outline.import_mark();
                let _closed = self.outbox.outline.closed();
                Ok(Vec::new(self.alloc))
            }
        }
    }

    // The least key above this one that is owed and that no connection holds.
    fn next_unheld(&self, key: Key) -> Option<Key>
        ensures next { result ≡ find (λ other. nat_lt key other) (unheld (places_of self.now)) }
        ensures rising { IsSome result → AreRising (places_of self.now) }
    {
        match key.next() {
            Some(next) => self.index.unheld_from(next),
            None => {
                // It has 64 bits, so the last key is above all that are owed.
                let _import_mark = self.outbox.outline.import_mark();
                let _closed = self.outbox.outline.closed();
                None
            }
        }
    }

    /// Settles a debt by the peer's final answer.
    ///
    /// # Errors
    /// The verdict is handed back. Tried in this order: `Broken`; `NotHeld`; `Tape(PendingFull)`; `NoMemory`.
    pub fn settle(
        &mut self,
        connection: CxnId,
        verdict: Verdict,
    ) -> Result<(), (Verdict, StationFault)>
        ensures ok { OnOk result
            (Notes self.old self.new (Note.Final (answered_key verdict) (code_of verdict) ∷ [])) }
        ensures places { OnOk result
            (IsHeldBy (places_of self.old) connection.0 (answered_key verdict)
            × (places_of self.new ≡ gone (places_of self.old) (answered_key verdict))) }
        ensures refuses { Refuses self.old connection.0 (answered_key verdict) result }
        ensures pending_full { Tells result (StationFault.Tape TapeFault.PendingFull)
            ↔ MeetsFull self.old connection.0 (answered_key verdict) }
        ensures kinds { IfErr result (λ e. IsEndFault e.1) }
        ensures returned { IfErr result (λ e. e.0 ≡ verdict) }
        ensures unchanged { OnErr result (IsSame self.old self.new) }
    {
        let settled = Settled::Answered(verdict.code());
        match self.settle_as(connection, verdict.debt().key(), settled) {
            Ok(()) => Ok(()),
            Err(fault) => Err((verdict, fault)),
        }
    }

    /// Makes a deferred debt wait until 60 seconds after `now`, or drops it if the limits say so.
    ///
    /// # Errors
    /// The deferral is handed back. Tried in this order: `Broken`; `NotHeld`; if it is dropped `Tape(PendingFull)`,
    /// `NoMemory`.
    pub fn defer(
        &mut self,
        connection: CxnId,
        deferral: Deferral,
        now: u64,
    ) -> Result<(), (Deferral, StationFault)>
        ensures ok { OnOk result (Defers connection.0 deferral now self.old self.new) }
        ensures refuses { Refuses self.old connection.0 (deferred_key deferral) result }
        ensures pending_full { Tells result (StationFault.Tape TapeFault.PendingFull)
            ↔ (((limits_of self.old).drop_deferred ≡ true)
            × MeetsFull self.old connection.0 (deferred_key deferral)) }
        ensures no_memory { Tells result StationFault.NoMemory
            → (limits_of self.old).drop_deferred ≡ true }
        ensures kinds { IfErr result (λ e. IsEndFault e.1) }
        ensures returned { IfErr result (λ e. e.0 ≡ deferral) }
        ensures unchanged { OnErr result (IsSame self.old self.new) }
    {
        let settled = Settled::deferred(self.limits, now);
        match self.settle_as(connection, deferral.debt().key(), settled) {
            Ok(()) => Ok(()),
            Err(fault) => Err((deferral, fault)),
        }
    }

    /// Drops a debt that can't be sent.
    ///
    /// # Errors
    /// The debt is handed back. Tried in this order: `Broken`; `NotHeld`; `Tape(PendingFull)`; `NoMemory`.
    pub fn lose(
        &mut self,
        connection: CxnId,
        debt: Debt,
        cause: Cause,
    ) -> Result<(), (Debt, StationFault)>
        ensures ok { OnOk result (Notes self.old self.new (Note.Drop debt.0 cause ∷ [])) }
        ensures places { OnOk result
            (IsHeldBy (places_of self.old) connection.0 debt.0
            × (places_of self.new ≡ gone (places_of self.old) debt.0)) }
        ensures refuses { Refuses self.old connection.0 debt.0 result }
        ensures pending_full { Tells result (StationFault.Tape TapeFault.PendingFull)
            ↔ MeetsFull self.old connection.0 debt.0 }
        ensures kinds { IfErr result (λ e. IsEndFault e.1) }
        ensures returned { IfErr result (λ e. e.0 ≡ debt) }
        ensures unchanged { OnErr result (IsSame self.old self.new) }
    {
        match self.settle_as(connection, debt.key(), Settled::Dropped(cause)) {
            Ok(()) => Ok(()),
            Err(fault) => Err((debt, fault)),
        }
    }

    /// Takes a debt back: it is ready. Takes no memory.
    ///
    /// # Errors
    /// The debt is handed back. Tried in this order: `Broken`; `NotHeld`.
    pub fn back(&mut self, connection: CxnId, debt: Debt) -> Result<(), (Debt, StationFault)>
        ensures ok { OnOk result
            (KeepsNotes self.old self.new × IsHeldBy (places_of self.old) connection.0 debt.0
            × (places_of self.new ≡ moved (places_of self.old) debt.0 Ready)) }
        ensures refuses { Refuses self.old connection.0 debt.0 result }
        ensures kinds { IfErr result
            (λ e. (e.1 ≡ StationFault.Broken) ⊎ (e.1 ≡ StationFault.NotHeld)) }
        ensures returned { IfErr result (λ e. e.0 ≡ debt) }
        ensures unchanged { OnErr result (IsSame self.old self.new) }
    {
        match self.settle_as(connection, debt.key(), Settled::Ready) {
            Ok(()) => Ok(()),
            Err(fault) => Err((debt, fault)),
        }
    }

    /// Takes a debt back, and makes it wait until this moment; until 0 is no wait: it is ready. Takes no memory, and
    /// makes no note.
    ///
    /// # Errors
    /// The debt is handed back. Tried in this order: `Broken`; `NotHeld`.
    pub fn put_off(
        &mut self,
        connection: CxnId,
        debt: Debt,
        until: u64,
    ) -> Result<(), (Debt, StationFault)>
        ensures ok { OnOk result
            (KeepsNotes self.old self.new × IsHeldBy (places_of self.old) connection.0 debt.0
            × (places_of self.new ≡ moved (places_of self.old) debt.0 (place_until until))) }
        ensures refuses { Refuses self.old connection.0 debt.0 result }
        ensures kinds { IfErr result
            (λ e. (e.1 ≡ StationFault.Broken) ⊎ (e.1 ≡ StationFault.NotHeld)) }
        ensures returned { IfErr result (λ e. e.0 ≡ debt) }
        ensures unchanged { OnErr result (IsSame self.old self.new) }
    {
        if self.outbox.broken {
            return Err((debt, StationFault::Broken));
        }
        if !self.index.is_held_by(connection, debt.key()) {
            return Err((debt, StationFault::NotHeld));
        }
        self.give_up(connection, debt.key(), Readiness::Until(until));
        Ok(())
    }

    /// Takes a connection's outcome of a debt that it held: a final answer settles it, a deferral makes it wait or
    /// drops it, a debt whose article can't be sent is dropped, and one that came back is ready.
    ///
    /// # Errors
    /// The outcome is handed back. Tried in this order: `Broken`; `NotHeld`; if the debt ends `Tape(PendingFull)`,
    /// `NoMemory`.
    pub fn finish(
        &mut self,
        connection: CxnId,
        outcome: Outcome,
        now: u64,
    ) -> Result<Settled, (Outcome, StationFault)>
        ensures settled { IfOk result (λ settled.
            settled ≡ settled_by (limits_of self.old) now outcome) }
        ensures ok { OnOk result (Finishes connection.0 now outcome self.old self.new) }
        ensures refuses { Refuses self.old connection.0 (key_in outcome) result }
        ensures pending_full { Tells result (StationFault.Tape TapeFault.PendingFull)
            ↔ (IsEnded (settled_by (limits_of self.old) now outcome)
            × MeetsFull self.old connection.0 (key_in outcome)) }
        ensures no_memory { Tells result StationFault.NoMemory
            → IsEnded (settled_by (limits_of self.old) now outcome) }
        ensures kinds { IfErr result (λ e. IsEndFault e.1) }
        ensures returned { IfErr result (λ e. e.0 ≡ outcome) }
        ensures unchanged { OnErr result (IsSame self.old self.new) }
    {
        let settled = Settled::by(&outcome, self.limits, now);
        match self.settle_as(connection, key_in(&outcome), settled) {
            Ok(()) => Ok(settled),
            Err(fault) => Err((outcome, fault)),
        }
    }

    /// Makes all debts ready that this connection held, and returns how many. Takes no memory. A broken front
    /// answers too.
    pub fn release(&mut self, connection: CxnId) -> u64
        ensures count { result ≡ held_count connection.0 (places_of self.old) }
        ensures places { places_of self.new ≡ released connection.0 (places_of self.old) }
        ensures keeps { KeepsNotes self.old self.new }
    {
        // No more are held than are owed, so the count fits.
        let _totals = self.outbox.outline.totals();
        self.index.release(connection)
    }

    /// Drops, oldest first, what exceeds the backlog's limit, as far as there is room among the notes that pend. On a
    /// refusal nothing is dropped. It gathers at most one key more than there is room for.
    ///
    /// # Errors
    /// Tried in this order: `Broken`; `NoMemory`.
    pub fn shed(&mut self) -> Result<Shed, StationFault>
        ensures ok { IfOk result (Sheds self.old self.new) }
        ensures broken { IsErrOf result StationFault.Broken ↔ IsBroken self.old }
        ensures kinds { IfErr result
            (λ e. (e ≡ StationFault.Broken) ⊎ (e ≡ StationFault.NoMemory)) }
        ensures unchanged { OnErr result (IsSame self.old self.new) }
    {
        if self.outbox.broken {
            return Err(StationFault::Broken);
        }
        // What was taken is a sum with what was dropped, so no count passes the greatest number.
        let _totals = self.outbox.outline.totals();
        let room = self.outbox.room();
        let mut keys = self.shed_set(room)?;
        let more = keys.len() > room;
        keys.truncate(room);
        self.outbox.drop_all(&keys, Cause::Limit)?;
        self.index.remove_all(&keys);
        Ok(Shed { keys, more })
    }

    /// The first note that was not sent to the tape.
    pub fn next_unsent(&self) -> Option<&Note>
        ensures some { IfSome result (λ note. (rest : List Note)
            × (unsent_of self.now ≡ note.now ∷ rest)) }
        ensures none { IfNone result (unsent_of self.now ≡ []) }
    {
        self.outbox.next_unsent()
    }

    /// The first unsent note, which exists, counts as sent from now on.
    pub fn sent_one(&mut self)
        requires { unsent_of self.old ≢ [] }
        ensures sends { OnlyOutbox Sends self.old self.new }
    {
        self.outbox.sent_one();
    }

    /// Settles the notes that a flush has put on the disks, if its answer is of this front's tape and covers only notes
    /// that were sent; returns whether it is. The notes on the tape at the split count as sent. Takes no memory.
    pub fn settled(&mut self, flushed: &Flushed) -> bool
        ensures answer { IsTrue result ↔ IsAnswered flushed.now self.old }
        ensures learns { IsTrue result
            → OnlyOutbox (Learns (flushed.now.count - settled_of self.old)) self.old self.new }
        ensures unchanged { (IsTrue result → ⊥) → self.new ≡ self.old }
    {
        self.outbox.settled(flushed)
    }

    /// The tape broke, or can't be reached: the front takes no note any more, and is broken, as a station is.
    pub fn broke(&mut self)
        ensures breaks { OnlyOutbox Breaks self.old self.new }
    {
        self.outbox.broke();
    }

    /// How many notes its tape counts once all of them are on it, at most the greatest u64: a flush that returns this
    /// number has settled all that pend now. A broken front answers too.
    pub fn noted(&self) -> u64
        ensures { result ≡ min (settled_of self.now + pending_of self.now) (2 ^ 64 - 1) }
    {
        self.outbox.noted()
    }

    /// How many notes its tape counts once all that were sent are on it, at most the greatest u64. A broken front
    /// answers too.
    pub fn sent(&self) -> u64
        ensures { result ≡ min (settled_of self.now + sent_of self.now) (2 ^ 64 - 1) }
    {
        self.outbox.settled.saturating_add(self.outbox.sent as u64)
    }

    /// Its place among the fronts of other peers; its tape has the same. A broken front answers too.
    pub fn place(&self) -> usize
        ensures { result ≡ place_of self.now }
    {
        self.outbox.place
    }

    /// The keys that are owed, rising. A broken front answers too.
    ///
    /// # Errors
    /// `NoMemory` if memory was refused.
    pub fn list(&self) -> Result<Vec<Key>, AllocError>
        ensures items { IfOk result (λ v. v.items ≡ keys_sized (front_shape self.now).sizes) }
        ensures rising { IfOk result (λ v. IsStrictlyIncreasing v.items) }
    {
        self.outbox.outline.keys(self.alloc)
    }

    /// What was taken, answered and dropped, and what is owed: taken = owed + answered + dropped. A broken front
    /// answers too.
    pub fn totals(&self) -> Totals
        ensures counts { result ≡ shape_totals (front_shape self.now) }
        ensures sum { result.taken ≡ result.owed + result.answered + result.dropped }
    {
        self.outbox.outline.totals()
    }

    /// The greatest number of the funnel that was noted, 0 at first. A broken front answers too.
    pub fn mark(&self) -> u64
        ensures { result ≡ (front_shape self.now).mark }
    {
        self.outbox.outline.mark()
    }

    /// The source that was closed last, 0 at first: the next one is open. A broken front answers too.
    pub fn closed(&self) -> u32
        ensures closed { result ≡ (front_shape self.now).closed }
        ensures fits { result + 1 < 2 ^ 32 }
    {
        self.outbox.outline.closed()
    }

    /// The greatest number that was noted of the source that is open, 0 at first. A broken front answers too.
    pub fn import_mark(&self) -> u64
        ensures { result ≡ (front_shape self.now).import_mark }
    {
        self.outbox.outline.import_mark()
    }

    /// How many more notes may pend. A broken front answers too.
    pub fn room(&self) -> usize
        ensures { result + pending_of self.now ≡ most_pending }
    {
        self.outbox.room()
    }

    /// The limits of its backlog. A broken front answers too.
    pub fn limits(&self) -> Limits
        ensures { result ≡ limits_of self.now }
    {
        self.limits
    }

    /// Whether no debt is ready and no connection holds one: each waits for a moment, which may be past. A broken
    /// front answers too.
    pub fn all_later(&self) -> bool
        ensures { IsTrue result ↔ All (λ entry. IsLater entry.1) (places_of self.now) }
    {
        self.index.all_later()
    }

    // Notes a debt that is newly owed, and makes it ready.
    fn owe_new(&mut self, key: Key, token: &Token, id: &MsgId) -> Result<Owed, StationFault>
        requires works { IsBroken self.old → ⊥ }
        requires next { IsNext (shape_marks (front_shape self.old)) key }
        ensures new { OnOk result
            (Notes self.old self.new (Note.Owe key token.now id.now ∷ [])) }
        ensures is_new { IfOk result (λ owed. owed ≡ Owed.New) }
        ensures places { OnOk result
            (places_of self.new ≡ with_place (places_of self.old) key Ready) }
        ensures broken { IsErrOf result StationFault.Broken → ⊥ }
        ensures count_full { IsErrOf result
            (StationFault.Tape (TapeFault.Note LedgerFault.CountFull))
            → OverflowsShape (front_shape self.old) (Note.Owe key token.now id.now) }
        ensures pending_full { IsErrOf result (StationFault.Tape TapeFault.PendingFull)
            → (pending_of self.old ≡ most_pending)
            × (OverflowsShape (front_shape self.old) (Note.Owe key token.now id.now) → ⊥) }
        ensures never { OverflowsShape (front_shape self.old) (Note.Owe key token.now id.now)
            ⊎ (pending_of self.old ≡ most_pending) → IsErr result }
        ensures kinds { IfErr result IsOweFault }
        ensures unchanged { OnErr result (IsSame self.old self.new) }
    {
        self.index.add(key)?;
        if let Err(fault) = self.outbox.owe(key, token, id) {
            self.index.remove(key);
            return Err(station_fault(fault));
        }
        Ok(Owed::New)
    }

    // Does to a debt that this connection holds what its outcome says.
    fn settle_as(
        &mut self,
        connection: CxnId,
        key: Key,
        settled: Settled,
    ) -> Result<(), StationFault>
        requires { settled ≢ Settled.Later 0 }
        ensures ok { OnOk result (Settles connection.0 key settled self.old self.new) }
        ensures broken { IsErrOf result StationFault.Broken ↔ IsBroken self.old }
        ensures not_held { IsErrOf result StationFault.NotHeld
            ↔ ((IsBroken self.old → ⊥) × (IsHeldBy (places_of self.old) connection.0 key → ⊥)) }
        ensures pending_full { IsErrOf result (StationFault.Tape TapeFault.PendingFull)
            ↔ (IsEnded settled × MeetsFull self.old connection.0 key) }
        ensures no_memory { IsErrOf result StationFault.NoMemory → IsEnded settled }
        ensures kinds { IfErr result IsEndFault }
        ensures unchanged { OnErr result (IsSame self.old self.new) }
    {
        if self.outbox.broken {
            return Err(StationFault::Broken);
        }
        if !self.index.is_held_by(connection, key) {
            return Err(StationFault::NotHeld);
        }
        match settled {
            Settled::Answered(code) => self.end(connection, key, Note::Final { key, code }),
            Settled::Dropped(cause) => self.end(connection, key, Note::Drop { key, cause }),
            Settled::Later(moment) => {
                self.give_up(connection, key, Readiness::Until(moment));
                Ok(())
            }
            Settled::Ready => {
                self.give_up(connection, key, Readiness::Ready);
                Ok(())
            }
        }
    }

    // Ends a debt that this connection holds, by the note of its end, at a front that works.
    fn end(&mut self, connection: CxnId, key: Key, note: Note) -> Result<(), StationFault>
        requires note { IsEnd note key }
        requires works { IsBroken self.old → ⊥ }
        requires held { IsHeldBy (places_of self.old) connection.0 key }
        ensures ok { OnOk result (Notes self.old self.new (note ∷ [])) }
        ensures places { OnOk result
            (places_of self.new ≡ gone (places_of self.old) key) }
        ensures pending_full { IsErrOf result (StationFault.Tape TapeFault.PendingFull)
            ↔ pending_of self.old ≡ most_pending }
        ensures kinds { IfErr result (λ e. (e ≡ StationFault.Tape TapeFault.PendingFull)
            ⊎ (e ≡ StationFault.NoMemory)) }
        ensures unchanged { OnErr result (IsSame self.old self.new) }
    {
        // What was taken is a sum with what has ended, so no count passes the greatest number.
        let _totals = self.outbox.outline.totals();
        if self.outbox.room() == 0 {
            return Err(StationFault::Tape(TapeFault::PendingFull));
        }
        // What is held is owed, so the note is legal.
        match self.outbox.pend(note) {
            Ok(()) => {
                self.index.end(connection, key);
                Ok(())
            }
            Err(_) => Err(StationFault::NoMemory),
        }
    }

    // Makes a debt that this connection holds wait for this.
    fn give_up(&mut self, connection: CxnId, key: Key, wait: Readiness)
        requires { IsHeldBy (places_of self.old) connection.0 key }
        ensures keeps { KeepsNotes self.old self.new }
        ensures places { places_of self.new
            ≡ moved (places_of self.old) key (place_for wait) }
    {
        self.index.give_up(connection, key, wait);
    }

    // The keys to shed, oldest first: at most one more than there is room for.
    fn shed_set(&self, room: usize) -> Result<Vec<Key>, AllocError>
        ensures set { IfOk result (λ found. (set : List ℕ)
            × IsShedByShape (limits_of self.now) (front_shape self.now) (places_of self.now) set
            × (found.items ≡ take (room + 1) set)) }
        ensures rising { OnOk result (AreRising (places_of self.now)) }
    {
        let limit = self.limits.backlog_limit;
        let mut owed = self.outbox.outline.totals().owed_bytes;
        let mut set = Vec::new(self.alloc);
        let mut next = self.index.unheld_from(Key::new(0, 0));
        if limit == 0 || owed <= self.limits.backlog_high {
            return Ok(set);
        }
        while let Some(key) = next
            && owed > limit
            && set.len() <= room
        {
            set.push(key)?;
            owed = owed.saturating_sub(self.outbox.outline.octets(key).unwrap_or(0));
            next = self.next_unheld(key);
        }
        Ok(set)
    }
}
