// What a front has noted, and what of it is sent and settled.
ghost use Rattle.std.specs.Prelude.{◌≡◌, ◌≢◌, ◌↔◌, ◌+◌, ◌-◌, ◌<◌, ◌≤◌, ◌^◌};
ghost use Rattle.std.specs.Prelude.{◌∷◌, [], ℕ, List, length, drop, min};
ghost use Rattle.std.specs.Prelude.{IfErr, IfNone, IfOk, IfSome, IsErrOf, IsTrue, OnErr, OnOk, Some};
ghost use Rattle.std.specs.List.{All};
ghost use Rattle.std.specs.VecDeque.{deque_capacity};
ghost use Rattle.ledger_core.specs.Outline.{ordinals_in, shape_in};
ghost use Rattle.ledger_core.specs.Shape.{shape_marks};
ghost use Rattle.ledger_core.specs.declared.note.Note.{Note};
ghost use Rattle.ledger_core.specs.declared.note.Note.TheVariants.{Owe};
ghost use Rattle.peer_queue.specs.Numbers.{IsNumbered, OwesAt, OwesPast, most_lying};
ghost use Rattle.recovery.specs.Notes.{most_pending};

use funnel::{MsgId, Token};
use ledger_core::{Cause, Debt, Key, Note, Outline};
use recovery::{Flushed, PENDING_MAX_NOTES, TapeFault};
use std::alloc::{AllocError, Global};
use std::collections::VecDeque;

// How many settled notes are kept, so that their texts need not be read from the tape.
const LYING_MAX_NOTES: usize = 8192;

/// The ledger of a front, without texts, and the notes that it sends to its tape.
///
/// A note pends until it is settled: until a flush of the tape has put it on the disks. The last notes that were
/// settled are kept for a while, so that a claim finds the texts of a fresh debt here.
///
/// The notes are numbered as the tape counts them, from 1 on, and the outline keeps the number of the note that owed
/// a debt: its ordinal. An ordinal of 0 means that only the tape has the texts: the debt was owed at the split, or the
/// number of its note would be above the greatest u64.
#[derive(Drop)]
pub(crate) struct Outbox {
    pub(crate) outline: Outline,
    // First the settled notes that are still kept, then those that are not settled.
    pub(crate) notes: VecDeque<Note>,
    // How many of them are settled.
    pub(crate) lying: usize,
    // How many of the others were sent: the first ones.
    pub(crate) sent: usize,
    // How many notes are settled, as the tape counts them.
    pub(crate) settled: u64,
    // The place of the tape.
    pub(crate) place: usize,
    // Whether the tape broke.
    pub(crate) broken: bool,
    ghost within: { lying + sent ≤ length notes.items },
    // At most 65,536 notes pend, so memory stays bounded.
    ghost few: { length notes.items ≤ lying + most_pending },
    ghost least: { lying ≤ most_lying },
    ghost counted: { lying ≤ settled },
    ghost numbered: { All (IsNumbered (settled - lying) notes.items) (ordinals_in outline) },
    ghost owed: { All (OwesPast (shape_marks (shape_in outline))) notes.items },
}

impl Outbox {
    ghost use Rattle.ledger_core.specs.declared.ledger.LedgerFault.{LedgerFault};
    ghost use Rattle.ledger_core.specs.Note.{IsOwe};
    ghost use Rattle.ledger_core.specs.Shape.{FitsShape, IsSized};
    ghost use Rattle.peer_queue.specs.Outbox.{Breaks, IsAnswerTo, IsCutOff, IsSameOutbox, IsTextIn, Learns, Pends};
    ghost use Rattle.peer_queue.specs.Outbox.{Sends};
    ghost use Rattle.peer_queue.specs.Outbox.{box_shape, notes_in, unsent_in, unsettled_in};
    ghost use Rattle.peer_queue.specs.Shapes.{AllFit, RefusesByShape};
    ghost use Rattle.recovery.specs.Notes.{drops};
    ghost use Rattle.recovery.specs.Words.{IsNoteFault, Tells};

    /// The outbox of a tape whose ledger has this outline, at this place. The tape counts `settled` notes, and none of
    /// them pends.
    pub fn new(alloc: Global, outline: Outline, place: usize, settled: u64, broken: bool) -> Self
        ensures shape { box_shape result ≡ shape_in outline }
        ensures notes { notes_in result ≡ [] }
        ensures unsettled { (unsettled_in result ≡ []) × (unsent_in result ≡ []) }
        ensures sent { result.sent ≡ 0 }
        ensures settled { result.settled ≡ settled }
        ensures place { result.place ≡ place }
        ensures broken { result.broken ≡ broken }
    {
        Outbox {
            outline,
            notes: VecDeque::new(alloc),
            lying: 0,
            sent: 0,
            settled,
            place,
            broken,
        }
    }

    /// How many more notes may pend.
    pub fn room(&self) -> usize
        ensures { result + length (unsettled_in self.now) ≡ most_pending }
    {
        PENDING_MAX_NOTES - (self.notes.len() - self.lying)
    }

    /// Takes a note, which pends until it is settled.
    ///
    /// # Errors
    /// The note is handed back, and nothing changes. Tried in this order, which is the tape's: `Broken`; `Note`, why
    /// the ledger refuses it; `PendingFull` with 65,536 notes pending; `NoMemory`.
    pub fn note(&mut self, note: Note) -> Result<(), (Note, TapeFault)>
        ensures ok { OnOk result (Pends (note ∷ []) self.old self.new) }
        ensures returned { IfErr result (λ e. e.0 ≡ note) }
        ensures broken { Tells result TapeFault.Broken ↔ IsCutOff self.old }
        ensures refused { (fault : LedgerFault) → Tells result (TapeFault.Note fault)
            ↔ ((IsCutOff self.old → ⊥) × RefusesByShape (box_shape self.old) note fault) }
        ensures pending_full { Tells result TapeFault.PendingFull
            ↔ ((IsCutOff self.old → ⊥) × FitsShape (box_shape self.old) note
            × (length (unsettled_in self.old) ≡ most_pending)) }
        ensures no_memory { Tells result TapeFault.NoMemory
            → (IsCutOff self.old → ⊥) × FitsShape (box_shape self.old) note
            × (length (unsettled_in self.old) < most_pending) }
        ensures kinds { IfErr result (λ e. IsNoteFault e.1) }
        ensures unchanged { OnErr result (IsSameOutbox self.old self.new) }
    {
        if self.broken {
            return Err((note, TapeFault::Broken));
        }
        if let Err(fault) = self.outline.check(&note) {
            return Err((note, TapeFault::Note(fault)));
        }
        if self.room() == 0 {
            return Err((note, TapeFault::PendingFull));
        }
        match self.pend(note) {
            Ok(()) => Ok(()),
            Err(note) => Err((note, TapeFault::NoMemory)),
        }
    }

    /// Takes the note that owes a debt, as `note` does. Its texts are copied last: no other refusal costs a copy.
    ///
    /// # Errors
    /// Nothing changes. Those of `note`, in the same order.
    pub fn owe(&mut self, key: Key, token: &Token, id: &MsgId) -> Result<(), TapeFault>
        ensures ok { OnOk result
            (Pends (Note.Owe key token.now id.now ∷ []) self.old self.new) }
        ensures broken { IsErrOf result TapeFault.Broken ↔ IsCutOff self.old }
        ensures refused { (fault : LedgerFault) → IsErrOf result (TapeFault.Note fault)
            ↔ ((IsCutOff self.old → ⊥) × RefusesByShape (box_shape self.old)
            (Note.Owe key token.now id.now) fault) }
        ensures pending_full { IsErrOf result TapeFault.PendingFull
            ↔ ((IsCutOff self.old → ⊥)
            × FitsShape (box_shape self.old) (Note.Owe key token.now id.now)
            × (length (unsettled_in self.old) ≡ most_pending)) }
        ensures no_memory { IsErrOf result TapeFault.NoMemory
            → (IsCutOff self.old → ⊥)
            × FitsShape (box_shape self.old) (Note.Owe key token.now id.now)
            × (length (unsettled_in self.old) < most_pending) }
        ensures kinds { IfErr result IsNoteFault }
        ensures unchanged { OnErr result (IsSameOutbox self.old self.new) }
    {
        if self.broken {
            return Err(TapeFault::Broken);
        }
        if let Err(fault) = self.outline.check_owe(key, token, id) {
            return Err(TapeFault::Note(fault));
        }
        if self.room() == 0 {
            return Err(TapeFault::PendingFull);
        }
        let note = Note::Owe {
            key,
            token: token.clone()?,
            id: id.clone()?,
        };
        match self.pend(note) {
            Ok(()) => Ok(()),
            Err(_) => Err(TapeFault::NoMemory),
        }
    }

    /// Takes a note that is legal, if one more may pend, or hands it back if memory was refused.
    pub fn pend(&mut self, note: Note) -> Result<(), Note>
        requires legal { FitsShape (box_shape self.old) note }
        requires room { length (unsettled_in self.old) < most_pending }
        ensures ok { OnOk result (Pends (note ∷ []) self.old self.new) }
        ensures returned { IfErr result (λ back. back ≡ note) }
        ensures unchanged { OnErr result (IsSameOutbox self.old self.new) }
    {
        match self.make_room(1) {
            Ok(()) => self.push(note),
            Err(_) => Err(note),
        }
    }

    // Reserves memory for `count` more notes.
    fn make_room(&mut self, count: usize) -> Result<(), AllocError>
        ensures ok { OnOk result
            (length (notes_in self.new) + count ≤ deque_capacity self.new.notes) }
        ensures same { IsSameOutbox self.old self.new }
    {
        self.notes.reserve(count)
    }

    // Takes a note that is legal, if one more may pend, for which there is memory among the notes.
    fn push(&mut self, note: Note) -> Result<(), Note>
        requires legal { FitsShape (box_shape self.old) note }
        requires room { length (unsettled_in self.old) < most_pending }
        requires spare { length (notes_in self.old) < deque_capacity self.old.notes }
        ensures ok { OnOk result (Pends (note ∷ []) self.old self.new) }
        ensures returned { IfErr result (λ back. back ≡ note) }
        ensures no_memory { OnErr result (IsOwe note) }
        ensures unchanged { OnErr result (IsSameOutbox self.old self.new) }
        ensures capacity { deque_capacity self.new.notes ≡ deque_capacity self.old.notes }
    {
        let ordinal = self.next_ordinal();
        // It has 64 bits, so what is owed may also be owed when the source is closed.
        let _import_mark = self.outline.import_mark();
        match self.outline.apply(&note, ordinal) {
            Ok(()) => {
                self.notes.push_back_reserved(note);
                Ok(())
            }
            Err(_) => Err(note),
        }
    }

    // The ordinal of the next note: its number as the tape counts, or 0 if that is above the greatest u64.
    fn next_ordinal(&self) -> u64
        ensures { self.now.settled - self.now.lying + length self.now.notes.items + 1 < 2 ^ 64
            → result ≡ self.now.settled - self.now.lying + length self.now.notes.items + 1 }
    {
        let pending = (self.notes.len() - self.lying) as u64;
        match self.settled.checked_add(pending + 1) {
            Some(ordinal) => ordinal,
            None => 0,
        }
    }

    /// Takes the note that drops each of these debts, in this order: all of them or none.
    ///
    /// # Errors
    /// `NoMemory`, and nothing changes.
    pub fn drop_all(&mut self, keys: &[Key], cause: Cause) -> Result<(), AllocError>
        requires legal { AllFit (box_shape self.old) (drops cause keys.now) }
        requires room { length (unsettled_in self.old) + length keys.now ≤ most_pending }
        ensures ok { OnOk result (Pends (drops cause keys.now) self.old self.new) }
        ensures unchanged { OnErr result (IsSameOutbox self.old self.new) }
    {
        self.make_room(keys.len())?;
        for key in keys {
            // A drop takes no memory.
            let _ = self.push(Note::Drop { key: *key, cause });
        }
        Ok(())
    }

    /// How many notes the tape counts once all are on it, at most the greatest u64.
    pub fn noted(&self) -> u64
        ensures { result ≡ min (self.now.settled + length (unsettled_in self.now)) (2 ^ 64 - 1) }
    {
        let pending = (self.notes.len() - self.lying) as u64;
        self.settled.saturating_add(pending)
    }

    /// A copy of the texts of a debt that one of these notes owes.
    ///
    /// # Errors
    /// `NoMemory` if memory was refused.
    pub fn unsettled(&self, key: Key) -> Result<Option<Debt>, AllocError>
        ensures { IfOk result (IsTextIn self.now key) }
    {
        let Some(index) = self.index_of(key) else {
            return Ok(None);
        };
        match self.notes.get(index) {
            Some(note) => debt_of(note, key),
            None => Ok(None),
        }
    }

    // The index of the note here that owes the debt of this key.
    fn index_of(&self, key: Key) -> Option<usize>
        ensures owed { IfSome result (λ index. IsSized (box_shape self.now) key) }
        ensures some { IfSome result (λ index. (at : ℕ) → OwesAt (notes_in self.now) at key
            → self.now.settled + length (unsettled_in self.now) < 2 ^ 64 → at ≡ index) }
        ensures none { IfNone result ((at : ℕ) → OwesAt (notes_in self.now) at key
            → self.now.settled + length (unsettled_in self.now) < 2 ^ 64
            → IsSized (box_shape self.now) key → ⊥) }
    {
        let ordinal = self.outline.ordinal(key)?;
        let before = self.settled - self.lying as u64;
        if ordinal <= before {
            return None;
        }
        Some((ordinal - before - 1) as usize)
    }

    /// The first note that was not sent.
    pub fn next_unsent(&self) -> Option<&Note>
        ensures some { IfSome result (λ note. (rest : List Note)
            × (unsent_in self.now ≡ note.now ∷ rest)) }
        ensures none { IfNone result (unsent_in self.now ≡ []) }
    {
        self.notes.get(self.lying + self.sent)
    }

    /// The first unsent note counts as sent from now on.
    pub fn sent_one(&mut self)
        requires { unsent_in self.old ≢ [] }
        ensures { Sends self.old self.new }
    {
        self.sent += 1;
    }

    /// The tape broke: it takes no note from now on.
    pub fn broke(&mut self)
        ensures { Breaks self.old self.new }
    {
        self.broken = true;
    }

    /// Settles the notes that a flush has put on the disks, if its answer is of this outbox's tape and covers only
    /// notes that were sent; returns whether it is.
    pub fn settled(&mut self, flushed: &Flushed) -> bool
        ensures answer { IsTrue result ↔ IsAnswerTo flushed.now self.old }
        ensures settles { IsTrue result
            → Learns (flushed.now.count - self.old.settled) self.old self.new }
        ensures unchanged { (IsTrue result → ⊥) → self.new ≡ self.old }
    {
        if !self.is_own(flushed.place()) {
            return false;
        }
        let more = flushed.count().saturating_sub(self.settled);
        if more > self.sent as u64 {
            return false;
        }
        self.settle(more as usize);
        true
    }

    // Whether a tape at this place is this outbox's.
    fn is_own(&self, place: Option<usize>) -> bool
        ensures { IsTrue result ↔ place ≡ Some self.now.place }
    {
        match place {
            Some(place) => place == self.place,
            None => false,
        }
    }

    // `more` further notes are settled now; all of them were sent.
    fn settle(&mut self, more: usize)
        requires sent { more ≤ self.old.sent }
        requires fits { self.old.settled + more < 2 ^ 64 }
        ensures { Learns more self.old self.new }
    {
        self.sent -= more;
        self.settled += more as u64;
        let lying = self.lying + more;
        let beyond = lying.saturating_sub(LYING_MAX_NOTES);
        forget(&mut self.notes, beyond);
        self.lying = lying - beyond;
    }
}

// Lets go of the first `count`.
fn forget(notes: &mut VecDeque<Note>, count: usize)
    requires { count ≤ length notes.old.items }
    ensures { notes.new.items ≡ drop count notes.old.items }
{
    for _ in 0..count {
        notes.pop_front();
    }
}

// A copy of the texts that a note has, if it owes the debt of this key.
fn debt_of(note: &Note, key: Key) -> Result<Option<Debt>, AllocError>
    ensures some { IfOk result (λ found. IfSome found
        (λ debt. (debt.0 ≡ key) × (note.now ≡ Owe key debt.1.0 debt.1.1))) }
    ensures none { IfOk result (λ found. IfNone found
        ((token id : List ℕ) → note.now ≡ Owe key token id → ⊥)) }
{
    match note {
        Note::Owe {
            key: owed,
            token,
            id,
        } => {
            if *owed != key {
                return Ok(None);
            }
            Ok(Some(Debt::new(key, token.clone()?, id.clone()?)))
        }
        _ => Ok(None),
    }
}
