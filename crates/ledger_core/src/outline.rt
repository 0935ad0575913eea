// A ledger without the texts of its debts, and without where their notes are.
ghost use Rattle.std.specs.Prelude.{◌≡◌, ◌+◌, ◌<◌, ◌^◌, ◌↔◌, ℕ, IfNone, IfOk, IfSome};
ghost use Rattle.std.specs.Prelude.{IsErrOf, IsOk, IsSome, IsTrue, OnErr, OnOk, length};
ghost use Rattle.std.specs.List.{All, Contains};
ghost use Rattle.std.specs.List.Sorted.{IsStrictlyIncreasing};
ghost use Rattle.std.specs.Map.{keys_of};
ghost use Rattle.ledger_core.specs.declared.marks.Marks.{Marks};
ghost use Rattle.ledger_core.specs.Parts.{sizes_of};
ghost use Rattle.ledger_core.specs.Shape.{keys_sized, octets_sized, without_key};
ghost use Rattle.ledger_core.specs.State.{IsPast, line_octets};

use crate::key::Key;
use crate::ledger::{Ledger, LedgerFault, Totals};
use crate::marks::Marks;
use crate::note::Note;
use crate::part::Part;
use crate::spot::{DebtEntry, Spot};
use funnel::{MsgId, Token};
use std::alloc::{AllocError, Global};
use std::collections::BTreeMap;

/// What a ledger has apart from texts: how far the sources have come, the counts, and for each debt that is owed its
/// key, the octets that it counts, and which note owed it.
///
/// It takes and refuses the same notes as a ledger of the same shape. Its caller numbers the notes: the number of a
/// note is its ordinal, and an outline keeps for each debt the ordinal of the note that owed it.
/// The cost of a call is logarithmic in what is owed. Memory is linear in it: 22 octets for each debt, 12 of them the
/// key, apart from what the map needs.
#[derive(Drop)]
pub struct Outline {
    debts: BTreeMap<Key, Part>,
    marks: Marks,
    taken: u64,
    answered: u64,
    dropped: u64,
    owed_bytes: u64,
    ghost counted: { taken ≡ answered + dropped + length debts.entries },
    ghost summed: { owed_bytes ≡ octets_sized (sizes_of debts.entries) },
    ghost past: { All (IsPast marks) (keys_of debts.entries) },
    ghost openable: { marks.closed + 1 < 2 ^ 32 },
}

impl Outline {
    ghost use Rattle.ledger_core.specs.declared.note.FinalCode.{FinalCode};
    ghost use Rattle.ledger_core.specs.declared.note.Cause.{Cause};
    ghost use Rattle.ledger_core.specs.declared.note.Note.{Note};
    ghost use Rattle.ledger_core.specs.Ledger.{state_of};
    ghost use Rattle.ledger_core.specs.Note.{IsOwe};
    ghost use Rattle.ledger_core.specs.Outline.{JudgesShape, StepsShape, ordinals_in, shape_in};
    ghost use Rattle.ledger_core.specs.Parts.{ordinal_at, ordinals_step};
    ghost use Rattle.ledger_core.specs.Shape.{FitsShape, IsOldForShape, IsSized, OverflowsShape, ShapeLacksDebt};
    ghost use Rattle.ledger_core.specs.Shape.{shape_of, shape_step, shape_totals, size_at};
    ghost use Rattle.ledger_core.specs.State.{keys};
    ghost use Rattle.std.specs.Prelude.{map};

    /// The outline of a ledger. Each of its debts has the ordinal 0.
    ///
    /// # Errors
    /// `NoMemory` if memory was refused.
    pub fn of(alloc: Global, ledger: &Ledger) -> Result<Outline, AllocError>
        ensures shape { IfOk result
            (λ outline. shape_in outline ≡ shape_of (state_of ledger.now)) }
        ensures ordinals { IfOk result (λ outline. ordinals_in outline
            ≡ map (λ (key : ℕ). (key, 0)) (keys (state_of ledger.now))) }
    {
        let mut debts = BTreeMap::new(alloc);
        for (key, entry) in ledger.debts.iter() {
            debts.insert(*key, Part::of(0, octets_kept(entry)))?;
        }
        Ok(Outline {
            debts,
            marks: ledger.marks,
            taken: ledger.taken,
            answered: ledger.answered,
            dropped: ledger.dropped,
            owed_bytes: ledger.owed_bytes,
        })
    }

    /// The greatest number of a funnel line that was noted, 0 at first.
    pub fn mark(&self) -> u64
        ensures { result ≡ (shape_in self.now).mark }
    {
        self.marks.mark
    }

    /// The source that was closed last, 0 at first.
    pub fn closed(&self) -> u32
        ensures closed { result ≡ (shape_in self.now).closed }
        ensures fits { result + 1 < 2 ^ 32 }
    {
        self.marks.closed
    }

    /// The greatest number that was noted of the open source, the one after `closed`.
    pub fn import_mark(&self) -> u64
        ensures { result ≡ (shape_in self.now).import_mark }
    {
        self.marks.import_mark
    }

    /// What was taken, answered and dropped, and what is owed.
    pub fn totals(&self) -> Totals
        ensures counts { result ≡ shape_totals (shape_in self.now) }
        ensures sum { result.taken ≡ result.owed + result.answered + result.dropped }
    {
        Totals {
            taken: self.taken,
            answered: self.answered,
            dropped: self.dropped,
            owed: self.debts.len() as u64,
            owed_bytes: self.owed_bytes,
        }
    }

    /// Whether the debt of this key is owed.
    pub fn owes(&self, key: Key) -> bool
        ensures { IsTrue result ↔ IsSized (shape_in self.now) key }
    {
        self.debts.contains_key(&key)
    }

    /// The ordinal of the note that owed the debt of this key, if that is owed; 0 if it was owed at the beginning.
    pub fn ordinal(&self, key: Key) -> Option<u64>
        ensures ordinal { result ≡ ordinal_at (ordinals_in self.now) key }
        ensures owed { IsSome result ↔ IsSized (shape_in self.now) key }
    {
        let part = self.debts.get(&key)?;
        Some(part.ordinal())
    }

    /// The octets that the debt of this key counts, if it is owed.
    pub fn octets(&self, key: Key) -> Option<u64>
        ensures { result ≡ size_at (shape_in self.now).sizes key }
    {
        let part = self.debts.get(&key)?;
        Some(u64::from(part.octets()))
    }

    /// The keys that are owed, rising.
    ///
    /// # Errors
    /// `NoMemory` if memory was refused.
    pub fn keys(&self, alloc: Global) -> Result<Vec<Key>, AllocError>
        ensures items { IfOk result (λ v. v.items ≡ keys_sized (shape_in self.now).sizes) }
        ensures rising { IfOk result (λ v. IsStrictlyIncreasing v.items) }
    {
        self.debts.keys().copied().collect(alloc)
    }

    /// Takes a note with this ordinal.
    ///
    /// # Errors
    /// Tried in this order; the outline is unchanged after each.
    /// - `OldNumber` for an Owe of a line that may not be noted next, a Seen at or below the mark, or a Closed of a
    ///   source that is not the open one.
    /// - `NotOwed` for a Final or a Drop of a key that is not owed.
    /// - `CountFull` if a count, or the octets that are owed, would exceed the greatest u64, or the last source would
    ///   be closed.
    /// - `NoMemory` for an Owe if memory was refused. The others take none.
    pub fn apply(&mut self, note: &Note, ordinal: u64) -> Result<(), LedgerFault>
        ensures ok { OnOk result (FitsShape (shape_in self.old) note.now
            × (shape_in self.new ≡ shape_step (shape_in self.old) note.now)) }
        ensures ordinals { OnOk result
            (ordinals_in self.new ≡ ordinals_step (ordinals_in self.old) note.now ordinal) }
        ensures old_number { IsErrOf result LedgerFault.OldNumber
            ↔ IsOldForShape (shape_in self.old) note.now }
        ensures not_owed { IsErrOf result LedgerFault.NotOwed
            ↔ ShapeLacksDebt (shape_in self.old) note.now }
        ensures count_full { IsErrOf result LedgerFault.CountFull
            ↔ OverflowsShape (shape_in self.old) note.now }
        ensures no_memory { IsErrOf result LedgerFault.NoMemory
            → IsOwe note.now × FitsShape (shape_in self.old) note.now }
        ensures unchanged { OnErr result ((shape_in self.new ≡ shape_in self.old)
            × (ordinals_in self.new ≡ ordinals_in self.old)) }
    {
        match note {
            Note::Owe { key, token, id } => self.owe(*key, token, id, ordinal),
            Note::Final { key, .. } => self.answer(*key),
            Note::Drop { key, .. } => self.discard(*key),
            Note::Seen { number } => self.see(*number),
            Note::Closed { source } => self.close(*source),
        }
    }

    /// Whether `apply` would take a note, if memory were not refused. Takes no memory and changes nothing.
    ///
    /// # Errors
    /// As `apply` would refuse it: `OldNumber`, `NotOwed` or `CountFull`, never `NoMemory`.
    pub fn check(&self, note: &Note) -> Result<(), LedgerFault>
        ensures ok { IsOk result ↔ FitsShape (shape_in self.now) note.now }
        ensures old_number { IsErrOf result LedgerFault.OldNumber
            ↔ IsOldForShape (shape_in self.now) note.now }
        ensures not_owed { IsErrOf result LedgerFault.NotOwed
            ↔ ShapeLacksDebt (shape_in self.now) note.now }
        ensures count_full { IsErrOf result LedgerFault.CountFull
            ↔ OverflowsShape (shape_in self.now) note.now }
        ensures no_memory { IsErrOf result LedgerFault.NoMemory → ⊥ }
    {
        match note {
            Note::Owe { key, token, id } => self.check_owe(*key, token, id),
            Note::Final { key, .. } => self.check_owed(*key),
            Note::Drop { key, .. } => self.check_owed(*key),
            Note::Seen { number } => self.check_above(*number),
            Note::Closed { source } => self.check_open(*source),
        }
    }

    /// Takes the note with this ordinal that owes a debt. Its texts are looked at, not kept.
    ///
    /// # Errors
    /// Those of `apply` for that note: `OldNumber`, `CountFull`, `NoMemory`.
    pub fn owe(
        &mut self,
        key: Key,
        token: &Token,
        id: &MsgId,
        ordinal: u64,
    ) -> Result<(), LedgerFault>
        ensures applied { StepsShape result (shape_in self.old) (shape_in self.new)
            (Note.Owe key token.now id.now) }
        ensures ordinals { OnOk result (ordinals_in self.new
            ≡ ordinals_step (ordinals_in self.old) (Note.Owe key token.now id.now) ordinal) }
        ensures unchanged { OnErr result (ordinals_in self.new ≡ ordinals_in self.old) }
    {
        match self.check_owe(key, token, id) {
            Ok(()) => self.put(key, token, id, ordinal),
            Err(fault) => Err(fault),
        }
    }

    /// Whether `owe` would take a debt, if memory were not refused. Takes no memory and changes nothing.
    ///
    /// # Errors
    /// As `check` refuses the note that owes it: `OldNumber` or `CountFull`.
    pub fn check_owe(&self, key: Key, token: &Token, id: &MsgId) -> Result<(), LedgerFault>
        ensures { JudgesShape result (shape_in self.now) (Note.Owe key token.now id.now) }
    {
        if !self.marks.is_next(key) {
            return Err(LedgerFault::OldNumber);
        }
        if self.taken == u64::MAX {
            return Err(LedgerFault::CountFull);
        }
        match self.owed_bytes.checked_add(u64::from(octets_of(token, id))) {
            Some(_) => Ok(()),
            None => Err(LedgerFault::CountFull),
        }
    }

    // A debt that is owed was taken, and that count fits. So does the count of those that have ended, with this one.
    fn check_owed(&self, key: Key) -> Result<(), LedgerFault>
        ensures answered { (code : FinalCode)
            → JudgesShape result (shape_in self.now) (Note.Final key code) }
        ensures dropped { (cause : Cause)
            → JudgesShape result (shape_in self.now) (Note.Drop key cause) }
    {
        let _taken = self.taken;
        if self.owes(key) {
            Ok(())
        } else {
            Err(LedgerFault::NotOwed)
        }
    }

    fn check_above(&self, last: u64) -> Result<(), LedgerFault>
        ensures { JudgesShape result (shape_in self.now) (Note.Seen last) }
    {
        if self.marks.mark >= last {
            return Err(LedgerFault::OldNumber);
        }
        Ok(())
    }

    fn check_open(&self, source: u32) -> Result<(), LedgerFault>
        ensures { JudgesShape result (shape_in self.now) (Note.Closed source) }
    {
        if source != self.marks.closed + 1 {
            return Err(LedgerFault::OldNumber);
        }
        if source == u32::MAX {
            return Err(LedgerFault::CountFull);
        }
        Ok(())
    }

    // Puts in a debt that may be noted next and that can be counted.
    fn put(&mut self, key: Key, token: &Token, id: &MsgId, ordinal: u64) -> Result<(), LedgerFault>
        requires { FitsShape (shape_in self.old) (Note.Owe key token.now id.now) }
        ensures applied { StepsShape result (shape_in self.old) (shape_in self.new)
            (Note.Owe key token.now id.now) }
        ensures ordinals { OnOk result (ordinals_in self.new
            ≡ ordinals_step (ordinals_in self.old) (Note.Owe key token.now id.now) ordinal) }
        ensures unchanged { OnErr result (ordinals_in self.new ≡ ordinals_in self.old) }
    {
        let octets = octets_of(token, id);
        let marks = self.marks.with(key);
        self.debts.insert(key, Part::of(ordinal, octets))?;
        self.marks = marks;
        self.taken += 1;
        self.owed_bytes += u64::from(octets);
        Ok(())
    }

    fn answer(&mut self, key: Key) -> Result<(), LedgerFault>
        ensures applied { (code : FinalCode)
            → StepsShape result (shape_in self.old) (shape_in self.new) (Note.Final key code) }
        ensures ordinals { OnOk result
            (ordinals_in self.new ≡ without_key key (ordinals_in self.old)) }
        ensures unchanged { OnErr result (ordinals_in self.new ≡ ordinals_in self.old) }
    {
        let Some(octets) = take_out(&mut self.debts, key) else {
            return Err(LedgerFault::NotOwed);
        };
        self.owed_bytes -= octets;
        self.answered += 1;
        Ok(())
    }

    fn discard(&mut self, key: Key) -> Result<(), LedgerFault>
        ensures applied { (cause : Cause)
            → StepsShape result (shape_in self.old) (shape_in self.new) (Note.Drop key cause) }
        ensures ordinals { OnOk result
            (ordinals_in self.new ≡ without_key key (ordinals_in self.old)) }
        ensures unchanged { OnErr result (ordinals_in self.new ≡ ordinals_in self.old) }
    {
        let Some(octets) = take_out(&mut self.debts, key) else {
            return Err(LedgerFault::NotOwed);
        };
        self.owed_bytes -= octets;
        self.dropped += 1;
        Ok(())
    }

    fn see(&mut self, last: u64) -> Result<(), LedgerFault>
        ensures applied { StepsShape result (shape_in self.old) (shape_in self.new)
            (Note.Seen last) }
        ensures ordinals { ordinals_in self.new ≡ ordinals_in self.old }
    {
        if last <= self.marks.mark {
            return Err(LedgerFault::OldNumber);
        }
        self.marks.mark = last;
        Ok(())
    }

    fn close(&mut self, source: u32) -> Result<(), LedgerFault>
        ensures applied { StepsShape result (shape_in self.old) (shape_in self.new)
            (Note.Closed source) }
        ensures ordinals { ordinals_in self.new ≡ ordinals_in self.old }
    {
        if source != self.marks.closed + 1 {
            return Err(LedgerFault::OldNumber);
        }
        if source == u32::MAX {
            return Err(LedgerFault::CountFull);
        }
        // It has 64 bits, so all that was owed is below what comes next.
        let _import_mark = self.marks.import_mark;
        self.marks.closed = source;
        self.marks.import_mark = 0;
        Ok(())
    }
}

// The octets of a line that names only this article.
fn octets_of(token: &Token, id: &MsgId) -> u16
    ensures { result ≡ line_octets token.now id.now }
{
    token.bytes().len() as u16 + id.bytes().len() as u16 + 2
}

fn octets_kept(entry: &DebtEntry) -> u16
    ensures { result ≡ line_octets entry.now.token.value entry.now.id.value }
{
    let Spot {
        token_len,
        id_len,
        ..
    } = entry.spot;
    u16::from(token_len) + u16::from(id_len) + 2
}

fn take_out(debts: &mut BTreeMap<Key, Part>, key: Key) -> Option<u64>
    ensures none { IfNone result
        ((Contains (keys_of debts.old.entries) key → ⊥)
        × (debts.new.entries ≡ debts.old.entries)) }
    ensures owed { IfSome result (λ octets. Contains (keys_of debts.old.entries) key) }
    ensures left { IfSome result
        (λ octets. debts.new.entries ≡ without_key key debts.old.entries) }
    ensures octets { IfSome result
        (λ octets. octets_sized (sizes_of debts.new.entries) + octets
        ≡ octets_sized (sizes_of debts.old.entries)) }
    ensures count { IfSome result
        (λ octets. length debts.new.entries + 1 ≡ length debts.old.entries) }
    ensures past { (marks : Marks) → All (IsPast marks) (keys_of debts.old.entries)
        → All (IsPast marks) (keys_of debts.new.entries) }
{
    let part = debts.remove(&key)?;
    Some(u64::from(part.octets()))
}
