// Ledgers.
ghost use Rattle.std.specs.Prelude.{◌≡◌, ◌==◌, ◌+◌, ◌<◌, ◌≤◌, ◌^◌, ℕ, IfNone, IfOk};
ghost use Rattle.std.specs.Prelude.{IfSome, IsErrOf, IsOk, IsSome, IsTrue, MatchResult, OnErr, OnOk, ◌↔◌};
ghost use Rattle.std.specs.Prelude.{◌-◌, length, min};
ghost use Rattle.std.specs.List.{All, Contains};
ghost use Rattle.std.specs.List.Sorted.{IsStrictlyIncreasing};
ghost use Rattle.ledger_core.specs.Faults.{ledger_fault_name};
ghost use Rattle.ledger_core.specs.Spots.{debts_of, lacking};
ghost use Rattle.ledger_core.specs.State.{IsPast, import_count, imports_in, keys_in, line_octets, octets_of_debts};

use crate::batch::{first_in, several_in};
use crate::codec::{other_of, owed_of};
use crate::key::Key;
use crate::marks::Marks;
use crate::note::Note;
use crate::spot::{DebtEntry, Spot};
use funnel::{MsgId, Token};
use std::alloc::{AllocError, AllocFailed, Global};
use std::collections::BTreeMap;
use std::fmt::{self, Display, Formatter, Write};
use thiserror::Error;

// How many octets a record has on a tape before its payload: a gate, and the payload's length.
const RECORD_HEAD_OCTETS: u64 = 5;

/// Why a note is refused. The ledger is unchanged.
#[derive(Clone, Copy, Debug, PartialEq, Eq, Error)]
pub enum LedgerFault {
    /// An Owe of a line that may not be noted next: a funnel line at or below the mark, a line of a source that is not
    /// the open one, or a line of the open source at or below its mark. A Seen at or below the mark, or a Closed of a
    /// source that is not the open one.
    OldNumber,
    /// A Final or a Drop of a key that is not owed.
    NotOwed,
    /// A count, or the octets that are owed, would exceed the greatest u64; or the last source would be closed.
    CountFull,
    /// Memory was refused.
    NoMemory,
}

impl LedgerFault {
    /// The word for it in messages and scripts.
    pub fn name(self) -> &'static str
        ensures { result.now ≡ ledger_fault_name self }
    {
        match self {
            LedgerFault::OldNumber => "OldNumber",
            LedgerFault::NotOwed => "NotOwed",
            LedgerFault::CountFull => "CountFull",
            LedgerFault::NoMemory => "NoMemory",
        }
    }
}

impl Display for LedgerFault {
    fn fmt<W: Write>(&self, f: &mut Formatter<W>) -> fmt::Result {
        f.write_str(self.name())
    }
}

impl From<AllocError> for LedgerFault {
    ghost use Rattle.std.specs.Prelude.{◌≡◌};
    ghost use Rattle.ledger_core.specs.declared.ledger.LedgerFault.TheVariants.{NoMemory};

    ghost from_gives = { λ _ e. e ≡ NoMemory };

    fn from(_e: AllocError) -> LedgerFault {
        LedgerFault::NoMemory
    }
}

impl<T: Drop> From<AllocFailed<T>> for LedgerFault {
    ghost use Rattle.std.specs.Prelude.{◌≡◌};
    ghost use Rattle.ledger_core.specs.declared.ledger.LedgerFault.TheVariants.{NoMemory};

    ghost from_gives = { λ _ e. e ≡ NoMemory };

    fn from(_e: AllocFailed<T>) -> LedgerFault {
        LedgerFault::NoMemory
    }
}

/// Why payloads are not a list of legal notes.
#[derive(Clone, Copy, Debug, PartialEq, Eq, Error)]
pub enum ReplayFault {
    /// The payload at this index, from 0, is neither a note nor a batch, or a note of it is refused by the ledger that
    /// those before it leave.
    #[error("Refused {index}")]
    Refused { index: usize },
    /// Memory was refused.
    #[error("NoMemory")]
    NoMemory,
}

impl From<AllocError> for ReplayFault {
    ghost use Rattle.std.specs.Prelude.{◌≡◌};
    ghost use Rattle.ledger_core.specs.declared.ledger.ReplayFault.TheVariants.{NoMemory};

    ghost from_gives = { λ _ e. e ≡ NoMemory };

    fn from(_e: AllocError) -> ReplayFault {
        ReplayFault::NoMemory
    }
}

/// What a ledger counts: taken = owed + answered + dropped.
#[derive(Clone, Copy, Debug, PartialEq, Eq)]
pub struct Totals {
    /// How many debts were ever owed.
    pub taken: u64,
    /// How many debts were answered for good.
    pub answered: u64,
    /// How many debts were dropped.
    pub dropped: u64,
    /// How many debts are owed.
    pub owed: u64,
    /// The sum, over the debts that are owed, of the octets of token and message-id, plus 2.
    pub owed_bytes: u64,
}

/// What one peer is owed, and how many debts were taken, answered and dropped.
///
/// For each debt it keeps how long its texts are and where the note is that owes it, and no text: that is read from
/// there (`specs/Index.antt`, `Indexes`). Clauses see the texts too.
/// The cost of a call is logarithmic in what is owed, memory is linear in it.
#[derive(Drop)]
pub struct Ledger {
    pub(crate) debts: BTreeMap<Key, DebtEntry>,
    pub(crate) marks: Marks,
    pub(crate) taken: u64,
    pub(crate) answered: u64,
    pub(crate) dropped: u64,
    pub(crate) owed_bytes: u64,
    // How many of its debts are not of a funnel line.
    pub(crate) imported: u64,
    ghost counted: { taken ≡ answered + dropped + length debts.entries },
    ghost summed: { owed_bytes ≡ octets_of_debts (debts_of debts.entries) },
    ghost imports: { imported ≡ imports_in (debts_of debts.entries) },
    ghost past: { All (IsPast marks) (keys_in (debts_of debts.entries)) },
    ghost openable: { marks.closed + 1 < 2 ^ 32 },
}

impl Ledger {
    ghost use Rattle.ledger_core.specs.declared.note.FinalCode.{FinalCode};
    ghost use Rattle.ledger_core.specs.declared.note.Cause.{Cause};
    ghost use Rattle.ledger_core.specs.declared.note.Note.{Note};
    ghost use Rattle.ledger_core.specs.Batch.{IsBatch, longest_batch, payload_of};
    ghost use Rattle.ledger_core.specs.Note.{IsNote, IsOwe};
    ghost use Rattle.ledger_core.specs.Replay.{AreLegalIn, Leaves, LeavesFrom, SpellsNoLegal, StopsAt};
    ghost use Rattle.ledger_core.specs.Replay.{StopsFrom};
    ghost use Rattle.ledger_core.specs.Spelling.{spelling};
    ghost use Rattle.ledger_core.specs.State.{State, AllLegal, IsLegal, IsOld, IsOwed, LacksDebt, Overflows, Owing};
    ghost use Rattle.ledger_core.specs.State.{after, keys, marks_of, start, step};
    ghost use Rattle.ledger_core.specs.Index.{Indexes, IsSpotOf, debt_at};
    ghost use Rattle.ledger_core.specs.Ledger.{IsApplied, IsJudged, Puts, state_of, totals_of};
    ghost use Rattle.ledger_core.specs.Spots.{Follows, IsPlaced, StandsAt};
    ghost use Rattle.std.specs.Int.{to_be_bytes, w32};
    ghost use Rattle.std.specs.Prelude.{◌∷◌, ◌++◌, List, None, map, vec_items};

    /// The ledger of no notes.
    pub fn new(alloc: Global) -> Self
        ensures start { state_of result ≡ start }
        ensures indexes { (kept : ℕ) (payloads : List (List ℕ)) → Indexes kept payloads result }
    {
        Ledger {
            debts: BTreeMap::new(alloc),
            marks: Marks {
                mark: 0,
                closed: 0,
                import_mark: 0,
            },
            taken: 0,
            answered: 0,
            dropped: 0,
            owed_bytes: 0,
            imported: 0,
        }
    }

    /// The greatest number of a funnel line that was noted, 0 at first.
    pub fn mark(&self) -> u64
        ensures { result ≡ (state_of self.now).mark }
    {
        self.marks.mark
    }

    /// The source that was closed last, 0 at first.
    pub fn closed(&self) -> u32
        ensures closed { result ≡ (state_of self.now).closed }
        ensures fits { result + 1 < 2 ^ 32 }
    {
        self.marks.closed
    }

    /// The greatest number that was noted of the open source, the one after `closed`.
    pub fn import_mark(&self) -> u64
        ensures { result ≡ (state_of self.now).import_mark }
    {
        self.marks.import_mark
    }

    /// What was taken, answered and dropped, and what is owed.
    pub fn totals(&self) -> Totals
        ensures counts { result ≡ totals_of (state_of self.now) }
        ensures sum { result.taken ≡ result.owed + result.answered + result.dropped }
    {
        Totals {
            taken: self.taken,
            answered: self.answered,
            dropped: self.dropped,
            owed: self.debts.len() as u64,
            owed_bytes: self.owed_bytes,
        }
    }

    /// Whether the debt of this key is owed.
    pub fn owes(&self, key: Key) -> bool
        ensures { IsTrue result ↔ IsOwed (state_of self.now) key }
    {
        self.debts.contains_key(&key)
    }

    /// Where the note of the debt of this key is, if that is owed.
    pub fn spot(&self, key: Key) -> Option<Spot>
        ensures spot { IfSome result (IsSpotOf self.now key) }
        ensures owed { IsSome result ↔ IsOwed (state_of self.now) key }
        ensures none { IfNone result (debt_at (state_of self.now) key ≡ None) }
    {
        let entry = self.debts.get(&key)?;
        Some(entry.spot)
    }

    /// The keys that are owed, rising.
    ///
    /// # Errors
    /// `NoMemory` if memory was refused.
    pub fn keys(&self, alloc: Global) -> Result<Vec<Key>, AllocError>
        ensures items { IfOk result (λ v. v.items ≡ keys (state_of self.now)) }
        ensures rising { IfOk result (λ v. IsStrictlyIncreasing v.items) }
    {
        self.debts.keys().copied().collect(alloc)
    }

    /// Takes a note that is on no tape.
    ///
    /// # Errors
    /// Tried in this order; the ledger is unchanged after each.
    /// - `OldNumber` for an Owe of a line that may not be noted next, a Seen at or below the mark, or a Closed of a
    ///   source that is not the open one.
    /// - `NotOwed` for a Final or a Drop of a key that is not owed.
    /// - `CountFull` if a count, or the octets that are owed, would exceed the greatest u64, or the last source would
    ///   be closed.
    /// - `NoMemory` for an Owe if memory was refused. The others take none.
    pub fn apply(&mut self, note: &Note) -> Result<(), LedgerFault>
        ensures ok { OnOk result
            (IsLegal (state_of self.old) note.now
            × (state_of self.new ≡ step (state_of self.old) note.now)) }
        ensures old_number { IsErrOf result LedgerFault.OldNumber
            ↔ IsOld (state_of self.old) note.now }
        ensures not_owed { IsErrOf result LedgerFault.NotOwed
            ↔ LacksDebt (state_of self.old) note.now }
        ensures count_full { IsErrOf result LedgerFault.CountFull
            ↔ Overflows (state_of self.old) note.now }
        ensures no_memory { IsErrOf result LedgerFault.NoMemory
            → IsOwe note.now × IsLegal (state_of self.old) note.now }
        ensures unchanged { OnErr result (state_of self.new ≡ state_of self.old) }
    {
        self.apply_at(note, 0, 0, 0)
    }

    /// Takes a note whose record is at this offset, or is pending in this slot, and which comes in it after `within`
    /// octets of other notes. The ledger still says where each of its debts is.
    ///
    /// # Errors
    /// Those of `apply`.
    pub fn apply_at(
        &mut self,
        note: &Note,
        at: u64,
        slot: u32,
        within: u16,
    ) -> Result<(), LedgerFault>
        ensures ok { OnOk result
            (IsLegal (state_of self.old) note.now
            × (state_of self.new ≡ step (state_of self.old) note.now)) }
        ensures old_number { IsErrOf result LedgerFault.OldNumber
            ↔ IsOld (state_of self.old) note.now }
        ensures not_owed { IsErrOf result LedgerFault.NotOwed
            ↔ LacksDebt (state_of self.old) note.now }
        ensures count_full { IsErrOf result LedgerFault.CountFull
            ↔ Overflows (state_of self.old) note.now }
        ensures no_memory { IsErrOf result LedgerFault.NoMemory
            → IsOwe note.now × IsLegal (state_of self.old) note.now }
        ensures unchanged { OnErr result (state_of self.new ≡ state_of self.old) }
        ensures indexes { (kept : ℕ) (payloads : List (List ℕ)) → Indexes kept payloads self.old
            → IsPlaced kept payloads at slot within note.now → Indexes kept payloads self.new }
        ensures stays { (kept : ℕ) (payloads : List (List ℕ)) → Indexes kept payloads self.old
            → OnErr result (Indexes kept payloads self.new) }
    {
        match note {
            Note::Owe { key, token, id } => self.owe_at(*key, token, id, at, slot, within),
            Note::Final { key, .. } => self.answer(*key),
            Note::Drop { key, .. } => self.discard(*key),
            Note::Seen { number } => self.see(*number),
            Note::Closed { source } => self.close(*source),
        }
    }

    /// Whether `apply` would take a note, if memory were not refused. Takes no memory and changes nothing.
    ///
    /// # Errors
    /// As `apply` would refuse it: `OldNumber`, `NotOwed` or `CountFull`, never `NoMemory`.
    pub fn check(&self, note: &Note) -> Result<(), LedgerFault>
        ensures ok { IsOk result ↔ IsLegal (state_of self.now) note.now }
        ensures old_number { IsErrOf result LedgerFault.OldNumber
            ↔ IsOld (state_of self.now) note.now }
        ensures not_owed { IsErrOf result LedgerFault.NotOwed
            ↔ LacksDebt (state_of self.now) note.now }
        ensures count_full { IsErrOf result LedgerFault.CountFull
            ↔ Overflows (state_of self.now) note.now }
        ensures no_memory { IsErrOf result LedgerFault.NoMemory → ⊥ }
    {
        match note {
            Note::Owe { key, token, id } => self.check_owe(*key, token, id),
            Note::Final { key, .. } => self.check_owed(*key),
            Note::Drop { key, .. } => self.check_owed(*key),
            Note::Seen { number } => self.check_above(*number),
            Note::Closed { source } => self.check_open(*source),
        }
    }

    /// The ledger that these payloads leave: each is a note, or a batch of several, and their notes are legal in turn.
    ///
    /// # Errors
    /// - `Refused` with the index of the first payload that is neither a note nor a batch, or has a note that is not
    ///   legal after those before it.
    /// - `NoMemory` if memory was refused.
    pub fn replay(alloc: Global, payloads: &[Vec<u8>]) -> Result<Ledger, ReplayFault>
        // What is read is a list of legal notes, and the ledger is its fold.
        ensures fold { IfOk result
            (λ ledger. Leaves (map vec_items payloads.now) (state_of ledger)) }
        // Each list of legal notes is read, unless memory is refused.
        ensures all { (state : State) → Leaves (map vec_items payloads.now) state
            → MatchResult result (λ ledger. state_of ledger ≡ state)
            (λ fault. fault ≡ ReplayFault.NoMemory) }
        // The first payload that is no legal note.
        ensures refused { (index : ℕ) → IsErrOf result (ReplayFault.Refused index)
            → StopsAt (map vec_items payloads.now) index }
        // It says where each of its debts is among them.
        ensures indexes { IfOk result (Indexes (length payloads.now) (map vec_items payloads.now)) }
    {
        let mut ledger = Ledger::new(alloc);
        ledger.apply_payloads(0, 0, payloads)?;
        Ok(ledger)
    }

    // Takes the notes that these payloads spell. The first has this index, and its record this offset.
    pub(crate) fn apply_payloads(
        &mut self,
        first: usize,
        offset: u64,
        payloads: &[Vec<u8>],
    ) -> Result<(), ReplayFault>
        requires { first + length payloads.now < 2 ^ 64 }
        ensures fold { OnOk result
            (LeavesFrom (state_of self.old) (map vec_items payloads.now) (state_of self.new)) }
        ensures all { (state : State)
            → LeavesFrom (state_of self.old) (map vec_items payloads.now) state
            → MatchResult result (λ _. state_of self.new ≡ state)
            (λ fault. fault ≡ ReplayFault.NoMemory) }
        ensures refused { (told : ℕ) → IsErrOf result (ReplayFault.Refused told)
            → (index : ℕ) × (told ≡ first + index)
            × StopsFrom (state_of self.old) (map vec_items payloads.now) index }
        ensures indexes { (kept : ℕ) (prefix : List (List ℕ))
            → Follows kept prefix (map vec_items payloads.now) offset
            → Indexes kept (prefix ++ map vec_items payloads.now) self.old
            → OnOk result (Indexes kept (prefix ++ map vec_items payloads.now) self.new) }
    {
        let mut at = offset;
        for (index, payload) in payloads.iter().enumerate() {
            self.apply_payload(first + index, at, payload)?;
            at = offset_behind(at, payload);
        }
        Ok(())
    }

    // Takes the notes that the payload at this index spells, whose record is at this offset; some of a batch's notes if
    // it is refused. No text is copied.
    pub(crate) fn apply_payload(
        &mut self,
        index: usize,
        at: u64,
        payload: &[u8],
    ) -> Result<(), ReplayFault>
        ensures ok { OnOk result
            ((batch : List Note) × IsBatch batch × (payload.now ≡ payload_of batch)
            × AllLegal (state_of self.old) batch
            × (state_of self.new ≡ after (state_of self.old) batch)) }
        ensures refused { (told : ℕ) → IsErrOf result (ReplayFault.Refused told)
            → (told ≡ index) × SpellsNoLegal (state_of self.old) payload.now }
        ensures indexes { (kept : ℕ) (payloads : List (List ℕ)) → Indexes kept payloads self.old
            → StandsAt kept payloads at 0 payload.now
            → OnOk result (Indexes kept payloads self.new) }
    {
        match several_in(payload) {
            Some((count, body)) => self.apply_several(index, at, count, body),
            None => self.apply_octets(index, at, 0, payload),
        }
    }

    // Takes `count` notes, which are these octets of the batch at this index, whose record is at this offset.
    fn apply_several(
        &mut self,
        index: usize,
        at: u64,
        count: u32,
        body: &[u8],
    ) -> Result<(), ReplayFault>
        requires fits { length body.now + 5 ≤ longest_batch }
        ensures ok { OnOk result ((notes : List Note)
            × AreLegalIn (state_of self.old) count body.now notes
            × (state_of self.new ≡ after (state_of self.old) notes)) }
        ensures refused { (told : ℕ) → IsErrOf result (ReplayFault.Refused told) → (told ≡ index)
            × ((notes : List Note) → AreLegalIn (state_of self.old) count body.now notes → ⊥) }
        ensures indexes { (kept : ℕ) (payloads : List (List ℕ)) → Indexes kept payloads self.old
            → StandsAt kept payloads at 0 (11 ∷ (to_be_bytes w32 count ++ body.now))
            → OnOk result (Indexes kept payloads self.new) }
    {
        let mut rest = body;
        for _ in 0..count {
            let Some((note, behind)) = first_in(rest) else {
                return Err(ReplayFault::Refused { index });
            };
            let within = body.len() - rest.len();
            self.apply_octets(index, at, within as u16, note)?;
            rest = behind;
        }
        if rest.is_empty() {
            Ok(())
        } else {
            Err(ReplayFault::Refused { index })
        }
    }

    // Takes the note that these octets of the payload at this index spell, whose record is at this offset, after
    // `within` octets of other notes.
    fn apply_octets(
        &mut self,
        index: usize,
        at: u64,
        within: u16,
        octets: &[u8],
    ) -> Result<(), ReplayFault>
        ensures ok { OnOk result ((note : Note) × IsNote note × (octets.now ≡ spelling note)
            × IsLegal (state_of self.old) note
            × (state_of self.new ≡ step (state_of self.old) note)) }
        ensures refused { (told : ℕ) → IsErrOf result (ReplayFault.Refused told) → (told ≡ index)
            × ((note : Note) → IsNote note → spelling note ≡ octets.now
            → IsLegal (state_of self.old) note → ⊥) }
        ensures indexes { (kept : ℕ) (payloads : List (List ℕ)) → Indexes kept payloads self.old
            → ((note : Note) → spelling note ≡ octets.now → IsPlaced kept payloads at 0 within note)
            → OnOk result (Indexes kept payloads self.new) }
    {
        if let Some((source, number, token, id)) = owed_of(octets) {
            let key = Key::new(source, number);
            return self.owe_read(index, at, within, key, token, id);
        }
        match other_of(octets) {
            Some(note) => self.apply_note(index, at, within, &note),
            None => Err(ReplayFault::Refused { index }),
        }
    }

    fn owe_read(
        &mut self,
        index: usize,
        at: u64,
        within: u16,
        key: Key,
        token: &[u8],
        id: &[u8],
    ) -> Result<(), ReplayFault>
        requires token { length token.now ≤ 255 }
        requires id { length id.now ≤ 255 }
        ensures ok { OnOk result
            (IsLegal (state_of self.old) (Note.Owe key token.now id.now)
            × (state_of self.new
            ≡ step (state_of self.old) (Note.Owe key token.now id.now))) }
        ensures refused { (told : ℕ) → IsErrOf result (ReplayFault.Refused told)
            → (told ≡ index)
            × (IsLegal (state_of self.old) (Note.Owe key token.now id.now) → ⊥) }
        ensures indexes { (kept : ℕ) (payloads : List (List ℕ)) → Indexes kept payloads self.old
            → IsPlaced kept payloads at 0 within (Note.Owe key token.now id.now)
            → OnOk result (Indexes kept payloads self.new) }
    {
        match self.owe_texts(key, token, id, at, 0, within) {
            Ok(()) => Ok(()),
            Err(LedgerFault::NoMemory) => Err(ReplayFault::NoMemory),
            Err(_) => Err(ReplayFault::Refused { index }),
        }
    }

    // Takes a note of the payload at this index, whose record is at this offset, after `within` octets of other notes.
    fn apply_note(
        &mut self,
        index: usize,
        at: u64,
        within: u16,
        note: &Note,
    ) -> Result<(), ReplayFault>
        ensures ok { OnOk result (IsLegal (state_of self.old) note.now
            × (state_of self.new ≡ step (state_of self.old) note.now)) }
        ensures refused { (told : ℕ) → IsErrOf result (ReplayFault.Refused told)
            → (told ≡ index) × (IsLegal (state_of self.old) note.now → ⊥) }
        ensures indexes { (kept : ℕ) (payloads : List (List ℕ)) → Indexes kept payloads self.old
            → IsPlaced kept payloads at 0 within note.now
            → OnOk result (Indexes kept payloads self.new) }
    {
        match self.apply_at(note, at, 0, within) {
            Ok(()) => Ok(()),
            Err(LedgerFault::NoMemory) => Err(ReplayFault::NoMemory),
            Err(_) => Err(ReplayFault::Refused { index }),
        }
    }

    /// Whether `owe_at` would take a debt, if memory were not refused. Takes no memory and changes nothing.
    ///
    /// # Errors
    /// As `check` refuses the note that owes it: `OldNumber` or `CountFull`.
    pub fn check_owe(&self, key: Key, token: &Token, id: &MsgId) -> Result<(), LedgerFault>
        ensures { IsJudged result (state_of self.now) (Note.Owe key token.now id.now) }
    {
        if !self.marks.is_next(key) {
            return Err(LedgerFault::OldNumber);
        }
        if self.taken == u64::MAX {
            return Err(LedgerFault::CountFull);
        }
        match self
            .owed_bytes
            .checked_add(line_octets(token.bytes(), id.bytes()))
        {
            Some(_) => Ok(()),
            None => Err(LedgerFault::CountFull),
        }
    }

    // A debt that is owed was taken, and that count fits. So does the count of those that have ended, with this one.
    fn check_owed(&self, key: Key) -> Result<(), LedgerFault>
        ensures answered { (code : FinalCode)
            → IsJudged result (state_of self.now) (Note.Final key code) }
        ensures dropped { (cause : Cause)
            → IsJudged result (state_of self.now) (Note.Drop key cause) }
    {
        let _taken = self.taken;
        if self.owes(key) {
            Ok(())
        } else {
            Err(LedgerFault::NotOwed)
        }
    }

    fn check_above(&self, last: u64) -> Result<(), LedgerFault>
        ensures { IsJudged result (state_of self.now) (Note.Seen last) }
    {
        if self.marks.mark >= last {
            return Err(LedgerFault::OldNumber);
        }
        Ok(())
    }

    fn check_open(&self, source: u32) -> Result<(), LedgerFault>
        ensures { IsJudged result (state_of self.now) (Note.Closed source) }
    {
        if source != self.marks.closed + 1 {
            return Err(LedgerFault::OldNumber);
        }
        if source == u32::MAX {
            return Err(LedgerFault::CountFull);
        }
        Ok(())
    }

    /// Takes the note that owes a debt, as `apply_at` does at the same place; its texts are looked at, not kept.
    ///
    /// # Errors
    /// Those of `apply` for that note: `OldNumber`, `CountFull`, `NoMemory`.
    pub fn owe_at(
        &mut self,
        key: Key,
        token: &Token,
        id: &MsgId,
        at: u64,
        slot: u32,
        within: u16,
    ) -> Result<(), LedgerFault>
        ensures applied { IsApplied result (state_of self.old) (state_of self.new)
            (Note.Owe key token.now id.now) }
        ensures indexes { (kept : ℕ) (payloads : List (List ℕ)) → Indexes kept payloads self.old
            → IsPlaced kept payloads at slot within (Note.Owe key token.now id.now)
            → Indexes kept payloads self.new }
        ensures stays { (kept : ℕ) (payloads : List (List ℕ)) → Indexes kept payloads self.old
            → OnErr result (Indexes kept payloads self.new) }
    {
        self.owe_texts(key, token.bytes(), id.bytes(), at, slot, within)
    }

    fn owe_texts(
        &mut self,
        key: Key,
        token: &[u8],
        id: &[u8],
        at: u64,
        slot: u32,
        within: u16,
    ) -> Result<(), LedgerFault>
        requires token { length token.now ≤ 255 }
        requires id { length id.now ≤ 255 }
        ensures applied { IsApplied result (state_of self.old) (state_of self.new)
            (Note.Owe key token.now id.now) }
        ensures indexes { (kept : ℕ) (payloads : List (List ℕ)) → Indexes kept payloads self.old
            → IsPlaced kept payloads at slot within (Note.Owe key token.now id.now)
            → Indexes kept payloads self.new }
        ensures stays { (kept : ℕ) (payloads : List (List ℕ)) → Indexes kept payloads self.old
            → OnErr result (Indexes kept payloads self.new) }
    {
        if !self.marks.is_next(key) {
            return Err(LedgerFault::OldNumber);
        }
        let marks = self.marks.with(key);
        self.put(marks, key, token, id, at, slot, within)
    }

    // Puts in a debt that is not owed, at this place, and sets these marks.
    pub(crate) fn put(
        &mut self,
        marks: Marks,
        key: Key,
        token: &[u8],
        id: &[u8],
        at: u64,
        slot: u32,
        within: u16,
    ) -> Result<(), LedgerFault>
        requires token { length token.now ≤ 255 }
        requires id { length id.now ≤ 255 }
        requires absent { IsOwed (state_of self.old) key → ⊥ }
        requires past { IsPast marks key }
        requires others { (other : ℕ) → IsPast self.old.marks other → IsPast marks other }
        requires closed { marks.closed ≡ self.old.marks.closed }
        ensures puts { Puts result (state_of self.old) (state_of self.new) marks
            (key, (token.now, id.now)) }
        ensures indexes { (kept : ℕ) (payloads : List (List ℕ)) → Indexes kept payloads self.old
            → IsPlaced kept payloads at slot within (Note.Owe key token.now id.now)
            → Indexes kept payloads self.new }
        ensures stays { (kept : ℕ) (payloads : List (List ℕ)) → Indexes kept payloads self.old
            → OnErr result (Indexes kept payloads self.new) }
    {
        let Some(taken) = self.taken.checked_add(1) else {
            return Err(LedgerFault::CountFull);
        };
        let Some(owed_bytes) = self.owed_bytes.checked_add(line_octets(token, id)) else {
            return Err(LedgerFault::CountFull);
        };
        self.debts
            .insert(key, DebtEntry::of(at, slot, within, token, id))?;
        self.marks = marks;
        self.taken = taken;
        self.owed_bytes = owed_bytes;
        self.imported += import_count(key);
        Ok(())
    }

    fn answer(&mut self, key: Key) -> Result<(), LedgerFault>
        ensures applied { (code : FinalCode)
            → IsApplied result (state_of self.old) (state_of self.new) (Note.Final key code) }
        ensures indexes { (kept : ℕ) (payloads : List (List ℕ)) → Indexes kept payloads self.old
            → Indexes kept payloads self.new }
    {
        let Some(octets) = remove_debt(&mut self.debts, key) else {
            return Err(LedgerFault::NotOwed);
        };
        self.owed_bytes -= octets;
        self.imported -= import_count(key);
        self.answered += 1;
        Ok(())
    }

    fn discard(&mut self, key: Key) -> Result<(), LedgerFault>
        ensures applied { (cause : Cause)
            → IsApplied result (state_of self.old) (state_of self.new) (Note.Drop key cause) }
        ensures indexes { (kept : ℕ) (payloads : List (List ℕ)) → Indexes kept payloads self.old
            → Indexes kept payloads self.new }
    {
        let Some(octets) = remove_debt(&mut self.debts, key) else {
            return Err(LedgerFault::NotOwed);
        };
        self.owed_bytes -= octets;
        self.imported -= import_count(key);
        self.dropped += 1;
        Ok(())
    }

    fn see(&mut self, last: u64) -> Result<(), LedgerFault>
        ensures applied { IsApplied result (state_of self.old) (state_of self.new)
            (Note.Seen last) }
        ensures indexes { (kept : ℕ) (payloads : List (List ℕ)) → Indexes kept payloads self.old
            → Indexes kept payloads self.new }
    {
        if last <= self.marks.mark {
            return Err(LedgerFault::OldNumber);
        }
        self.marks.mark = last;
        Ok(())
    }

    fn close(&mut self, source: u32) -> Result<(), LedgerFault>
        ensures applied { IsApplied result (state_of self.old) (state_of self.new)
            (Note.Closed source) }
        ensures indexes { (kept : ℕ) (payloads : List (List ℕ)) → Indexes kept payloads self.old
            → Indexes kept payloads self.new }
    {
        if source != self.marks.closed + 1 {
            return Err(LedgerFault::OldNumber);
        }
        if source == u32::MAX {
            return Err(LedgerFault::CountFull);
        }
        // It has 64 bits, so all that was owed is below what comes next.
        let _import_mark = self.marks.import_mark;
        self.marks.closed = source;
        self.marks.import_mark = 0;
        Ok(())
    }
}

// The octets of a line that names only this article.
fn line_octets(token: &[u8], id: &[u8]) -> u64
    requires token { length token.now ≤ 255 }
    requires id { length id.now ≤ 255 }
    ensures { result ≡ line_octets token.now id.now }
{
    token.len() as u64 + id.len() as u64 + 2
}

// What a debt of this key adds to the count of those that are not of a funnel line.
fn import_count(key: Key) -> u64
    ensures { result ≡ import_count key }
{
    if key.source() == 0 { 0 } else { 1 }
}

/// Where the record after one with this payload begins, in octets from the segment's start, or the greatest u64; `at`
/// is where that one begins.
pub fn offset_behind(at: u64, payload: &[u8]) -> u64
    ensures { result ≡ min (at + (5 + length payload.now)) (2 ^ 64 - 1) }
{
    at.saturating_add(RECORD_HEAD_OCTETS)
        .saturating_add(payload.len() as u64)
}

fn remove_debt(debts: &mut BTreeMap<Key, DebtEntry>, key: Key) -> Option<u64>
    ensures none { IfNone result
        ((Contains (keys_in (debts_of debts.old.entries)) key → ⊥)
        × (debts.new.entries ≡ debts.old.entries)) }
    ensures owed { IfSome result
        (λ octets. Contains (keys_in (debts_of debts.old.entries)) key) }
    ensures left { IfSome result (λ octets. debts.new.entries ≡ lacking key debts.old.entries) }
    ensures octets { IfSome result
        (λ octets. octets_of_debts (debts_of debts.new.entries) + octets
        ≡ octets_of_debts (debts_of debts.old.entries)) }
    ensures imports { IfSome result
        (λ octets. imports_in (debts_of debts.new.entries) + import_count key
        ≡ imports_in (debts_of debts.old.entries)) }
    ensures count { IfSome result
        (λ octets. length debts.new.entries + 1 ≡ length debts.old.entries) }
{
    let entry = debts.remove(&key)?;
    Some(octets_of(&entry))
}

fn octets_of(entry: &DebtEntry) -> u64
    ensures { result ≡ line_octets entry.now.token.value entry.now.id.value }
{
    let Spot {
        token_len,
        id_len,
        ..
    } = entry.spot;
    u64::from(token_len) + u64::from(id_len) + 2
}
