// A peer's front, and the pass by which its notes are sent.
ghost use Rattle.std.specs.Prelude.{◌≡◌, ◌≢◌, ◌↔◌, ◌∷◌, [], true};
ghost use Rattle.std.specs.Prelude.{IfErr, IfNone, IfOk, IfSome, IsErrOf, IsTrue, OnErr, OnOk};
ghost use Rattle.crossbeam_queue.specs.Passes.{view, ruled_capacity};
ghost use Rattle.peer_queue.specs.Front.{unsent_of};
ghost use Rattle.note_queue.specs.Noted.{IsNoted, IsOnlySent};
ghost use Rattle.note_queue.specs.Relay.{IsAt, WasSeen};

use crate::rule::{NotePass, PassLog, Relays, Sends};
use conn_core::{CxnId, Outcome};
use crossbeam_queue::RuledArrayQueue;
use funnel::{MsgId, Token};
use ledger_core::{Debt, Key, Note};
use peer_queue::{Front, Owed, Settled, Shed, StationFault};
use recovery::Flushed;
use std::alloc::AllocError;
use std::sync::Wait;

/// A front, and the pass of the queue by which its notes go to the side that has its tape. The ledger at the split,
/// followed by what was sent and what was not, has the front's shape.
///
/// Its calls are the front's of the same name. A note that one of them makes stays unsent: whoever holds the lock calls
/// `send` before giving it back.
#[derive(Drop)]
pub struct Sender {
    pub(crate) front: Front,
    pub(crate) pass: NotePass,
    ghost role: { ((view pass).pushes ≡ true) × (pass.me.1 ≡ []) },
    ghost noted: { IsNoted (view pass) front },
}

impl Sender {
    ghost use Rattle.std.specs.Prelude.{◌⊎◌, ◌+◌, ◌-◌, ◌^◌, ◌≤◌, None, Ok, Some, min};
    ghost use Rattle.ledger_core.specs.Shape.{IsSized};
    ghost use Rattle.recovery.specs.declared.fault.TapeFault.{TapeFault};
    ghost use Rattle.peer_queue.specs.Faults.{IsEndFault};
    ghost use Rattle.peer_queue.specs.Front.{IsBroken, IsSame, KeepsNotes, MeetsFull, Notes, front_shape, limits_of};
    ghost use Rattle.peer_queue.specs.Front.{places_of, sent_of, settled_of};
    ghost use Rattle.peer_queue.specs.FrontCalls.{Finishes, IsAnswered, OnlyOutbox, Refuses, RefusesClaim, RefusesOwe};
    ghost use Rattle.peer_queue.specs.FrontCalls.{Sheds};
    ghost use Rattle.peer_queue.specs.Outbox.{Breaks, Learns};
    ghost use Rattle.peer_queue.specs.DebtPlace.{Held, IsHeldBy, Ready, held_count, least_candidate, moved};
    ghost use Rattle.peer_queue.specs.DebtPlace.{place_until, released, with_place};
    ghost use Rattle.peer_queue.specs.Refusals.{Tells};
    ghost use Rattle.peer_queue.specs.Settled.{IsEnded, key_in, settled_by};
    ghost use Rattle.note_queue.specs.Sending.{SendsMore};
    ghost use Rattle.note_queue.specs.Words.{front_of, sending};

    /// The front, to be looked at.
    pub fn front(&self) -> &Front
        ensures { result.now ≡ front_of self.now }
    {
        &self.front
    }

    /// Sends what is unsent, oldest first, until all is sent or the queue is full: what was not sent stays unsent.
    ///
    /// # Errors
    /// `NoMemory` if the copy of a note was refused memory: that note, and all after it, stay unsent.
    pub fn send<P: Relays, R: Wait>(
        &mut self,
        rt: &R,
        queue: &RuledArrayQueue<Note, PassLog, P>,
    ) -> Result<(), AllocError>
        requires queue { IsAt queue.now (sending self.old) }
        ensures sends { SendsMore self.old self.new }
        ensures keeps { IsOnlySent (front_of self.old) (front_of self.new) }
        // All is sent, or at one moment of the call the queue was full, and the pass had sent what it has now.
        ensures ok { OnOk result ((unsent_of (front_of self.new) ≡ [])
            ⊎ WasSeen P.holds (ruled_capacity queue.now) (view (sending self.new))) }
        ensures err { OnErr result (unsent_of (front_of self.new) ≢ []) }
    {
        for _ in rt.forever() {
            if !self.send_one(rt, queue)? {
                return Ok(());
            }
        }
        unreachable!()
    }

    // Sends the first unsent note; false if there is none, or if the queue is full.
    fn send_one<P: Relays, R: Wait>(
        &mut self,
        rt: &R,
        queue: &RuledArrayQueue<Note, PassLog, P>,
    ) -> Result<bool, AllocError>
        requires queue { IsAt queue.now (sending self.old) }
        ensures sends { SendsMore self.old self.new }
        ensures keeps { IsOnlySent (front_of self.old) (front_of self.new) }
        ensures ok { IfOk result (λ sent. (IsTrue sent → ⊥) → (unsent_of (front_of self.new) ≡ [])
            ⊎ WasSeen P.holds (ruled_capacity queue.now) (view (sending self.new))) }
        ensures err { OnErr result (unsent_of (front_of self.new) ≢ []) }
    {
        let Some(note) = self.front.next_unsent() else {
            return Ok(false);
        };
        // No texts are copied that the queue has no room for.
        if queue.is_full_as::<Sends<P>>(&mut self.pass) {
            return Ok(false);
        }
        let note = note.copy()?;
        let Ok(()) = queue.push_as::<Sends<P>, R>(rt, &mut self.pass, note) else {
            return Ok(false);
        };
        self.front.sent_one();
        Ok(true)
    }

    /// How many notes the tape counts once all that was sent is on it, at most the greatest u64.
    pub fn sent(&self) -> u64
        ensures { result
            ≡ min (settled_of (front_of self.now) + sent_of (front_of self.now)) (2 ^ 64 - 1) }
    {
        self.front.sent()
    }

    /// Owes the funnel's line of this number: it is ready from now on.
    ///
    /// # Errors
    /// The front's: `Broken`; `NoMemory` of the front; `Tape(Note(CountFull))`; `Tape(PendingFull)`; `NoMemory`.
    pub fn owe(&mut self, number: u64, token: &Token, id: &MsgId) -> Result<Owed, StationFault>
        ensures already { (result ≡ Ok Owed.Already) ↔ ((IsBroken (front_of self.old) → ⊥)
            × (number ≤ (front_shape (front_of self.old)).mark)) }
        ensures unchanged { result ≡ Ok Owed.Already → self.new ≡ self.old }
        ensures new { result ≡ Ok Owed.New → Notes (front_of self.old) (front_of self.new)
            (Note.Owe number token.now id.now ∷ []) }
        ensures places { result ≡ Ok Owed.New → places_of (front_of self.new)
            ≡ with_place (places_of (front_of self.old)) number Ready }
        ensures refuses { RefusesOwe (front_shape (front_of self.old)).mark number
            (Note.Owe number token.now id.now) (front_of self.old) (front_of self.new) result }
        ensures pass { sending self.new ≡ sending self.old }
    {
        self.front.owe(number, token, id)
    }

    /// Claims the least key that is ready, or later until a moment at or before `now`: from now on this connection
    /// holds it.
    ///
    /// # Errors
    /// The front's: `Broken`; `NoMemory`. Nothing changes.
    pub fn claim_key(&mut self, connection: CxnId, now: u64) -> Result<Option<Key>, StationFault>
        ensures none { IfOk result (λ found. IfNone found
            ((least_candidate now (places_of (front_of self.old)) ≡ None)
            × (places_of (front_of self.new) ≡ places_of (front_of self.old)))) }
        ensures some { IfOk result (λ found. IfSome found
            (λ key. (least_candidate now (places_of (front_of self.old)) ≡ Some key)
            × IsSized (front_shape (front_of self.old)) key
            × (places_of (front_of self.new)
            ≡ moved (places_of (front_of self.old)) key (Held connection.0)))) }
        ensures keeps { KeepsNotes (front_of self.old) (front_of self.new) }
        ensures refuses { RefusesClaim now (front_of self.old) (front_of self.new) result }
        ensures pass { sending self.new ≡ sending self.old }
    {
        self.front.claim_key(connection, now)
    }

    /// Gives back a key that was claimed, and whose debt was not handed out: it is ready. Takes no memory.
    ///
    /// # Errors
    /// The front's: `Broken`; `NotHeld`. Nothing changes.
    pub fn unclaim(&mut self, connection: CxnId, key: Key) -> Result<(), StationFault>
        ensures ok { OnOk result (KeepsNotes (front_of self.old) (front_of self.new)
            × IsHeldBy (places_of (front_of self.old)) connection.0 key
            × (places_of (front_of self.new)
            ≡ moved (places_of (front_of self.old)) key Ready)) }
        ensures broken { IsErrOf result StationFault.Broken ↔ IsBroken (front_of self.old) }
        ensures not_held { IsErrOf result StationFault.NotHeld
            ↔ ((IsBroken (front_of self.old) → ⊥)
            × (IsHeldBy (places_of (front_of self.old)) connection.0 key → ⊥)) }
        ensures kinds { IfErr result
            (λ e. (e ≡ StationFault.Broken) ⊎ (e ≡ StationFault.NotHeld)) }
        ensures unchanged { OnErr result (IsSame (front_of self.old) (front_of self.new)) }
        ensures pass { sending self.new ≡ sending self.old }
    {
        self.front.unclaim(connection, key)
    }

    /// Makes a debt wait until this moment, or makes it ready if that is 0. Takes no memory.
    ///
    /// # Errors
    /// The debt is handed back. The front's: `Broken`; `NotHeld`.
    pub fn put_off(
        &mut self,
        connection: CxnId,
        debt: Debt,
        until: u64,
    ) -> Result<(), (Debt, StationFault)>
        ensures ok { OnOk result (KeepsNotes (front_of self.old) (front_of self.new)
            × IsHeldBy (places_of (front_of self.old)) connection.0 debt.0
            × (places_of (front_of self.new)
            ≡ moved (places_of (front_of self.old)) debt.0 (place_until until))) }
        ensures refuses { Refuses (front_of self.old) connection.0 debt.0 result }
        ensures kinds { IfErr result
            (λ e. (e.1 ≡ StationFault.Broken) ⊎ (e.1 ≡ StationFault.NotHeld)) }
        ensures returned { IfErr result (λ e. e.0 ≡ debt) }
        ensures unchanged { OnErr result (IsSame (front_of self.old) (front_of self.new)) }
        ensures pass { sending self.new ≡ sending self.old }
    {
        self.front.put_off(connection, debt, until)
    }

    /// Takes a connection's outcome of a debt that it held: a final answer settles it, a deferral makes it wait or
    /// drops it, a debt whose article can't be sent is dropped, and one that came back is ready.
    ///
    /// # Errors
    /// The outcome is handed back. The front's: `Broken`; `NotHeld`; if the debt ends `Tape(PendingFull)`,
    /// `NoMemory`.
    pub fn finish(
        &mut self,
        connection: CxnId,
        outcome: Outcome,
        now: u64,
    ) -> Result<Settled, (Outcome, StationFault)>
        ensures settled { IfOk result (λ settled.
            settled ≡ settled_by (limits_of (front_of self.old)) now outcome) }
        ensures ok { OnOk result
            (Finishes connection.0 now outcome (front_of self.old) (front_of self.new)) }
        ensures refuses { Refuses (front_of self.old) connection.0 (key_in outcome) result }
        ensures pending_full { Tells result (StationFault.Tape TapeFault.PendingFull)
            ↔ (IsEnded (settled_by (limits_of (front_of self.old)) now outcome)
            × MeetsFull (front_of self.old) connection.0 (key_in outcome)) }
        ensures no_memory { Tells result StationFault.NoMemory
            → IsEnded (settled_by (limits_of (front_of self.old)) now outcome) }
        ensures err { IfErr result (λ e. (e.0 ≡ outcome) × IsEndFault e.1) }
        ensures unchanged { OnErr result (IsSame (front_of self.old) (front_of self.new)) }
        ensures pass { sending self.new ≡ sending self.old }
    {
        self.front.finish(connection, outcome, now)
    }

    /// Makes all debts ready that this connection held, and returns how many. Takes no memory. A broken front
    /// answers too.
    pub fn release(&mut self, connection: CxnId) -> u64
        ensures count { result ≡ held_count connection.0 (places_of (front_of self.old)) }
        ensures places { places_of (front_of self.new)
            ≡ released connection.0 (places_of (front_of self.old)) }
        ensures keeps { KeepsNotes (front_of self.old) (front_of self.new) }
        ensures pass { sending self.new ≡ sending self.old }
    {
        self.front.release(connection)
    }

    /// Drops, oldest first, what exceeds the backlog's limit, as far as there is room among the notes that pend. On a
    /// refusal nothing is dropped.
    ///
    /// # Errors
    /// The front's: `Broken`; `NoMemory`.
    pub fn shed(&mut self) -> Result<Shed, StationFault>
        ensures ok { IfOk result (Sheds (front_of self.old) (front_of self.new)) }
        ensures broken { IsErrOf result StationFault.Broken ↔ IsBroken (front_of self.old) }
        ensures kinds { IfErr result
            (λ e. (e ≡ StationFault.Broken) ⊎ (e ≡ StationFault.NoMemory)) }
        ensures unchanged { OnErr result (IsSame (front_of self.old) (front_of self.new)) }
        ensures pass { sending self.new ≡ sending self.old }
    {
        self.front.shed()
    }

    /// Settles the notes that a flush has put on the disks, if its answer is of this front's tape and covers only notes
    /// that were sent; returns whether it is.
    pub fn settled(&mut self, flushed: &Flushed) -> bool
        ensures answer { IsTrue result ↔ IsAnswered flushed.now (front_of self.old) }
        ensures learns { IsTrue result → OnlyOutbox
            (Learns (flushed.now.count - settled_of (front_of self.old)))
            (front_of self.old) (front_of self.new) }
        ensures unchanged { (IsTrue result → ⊥) → self.new ≡ self.old }
        ensures pass { sending self.new ≡ sending self.old }
    {
        self.front.settled(flushed)
    }

    /// The tape broke, or can't be reached: the front is broken from now on.
    pub fn broke(&mut self)
        ensures breaks { OnlyOutbox Breaks (front_of self.old) (front_of self.new) }
        ensures pass { sending self.new ≡ sending self.old }
    {
        self.front.broke();
    }
}
