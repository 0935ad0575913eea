// Reads back the notes of debts, whose texts are only on the tape.
ghost use Rattle.std.specs.Prelude.{◌≡◌, ◌≢◌, ◌+◌, ◌-◌, ◌^◌, ◌<◌, ◌≤◌, ◌↔◌};
ghost use Rattle.std.specs.Prelude.{ℕ, IfErr, IfOk, IsErrOf, length};
ghost use Rattle.ledger_core.specs.declared.spot.Spot.{Spot};
ghost use Rattle.ledger_core.specs.Base.{owe};
ghost use Rattle.ledger_core.specs.Note.{IsNote};
ghost use Rattle.ledger_core.specs.Spelling.{SpellsOwe, spelling};
ghost use Rattle.ledger_core.specs.State.{Owing};
ghost use Rattle.recovery.specs.Words.{IsReadFault};

use crate::TapeFault;
use crate::tape::{Tape, end_of};
use disk_model::Disk;
use ledger_core::{Debt, Key, Note, Spot, decode, encode_base, note_in, owed_len, spells_owe};
use std::alloc::{AllocError, Global};
use tape_journal::{Gathered, ReadFault};

// The pieces in which the live segment is read for some debts, in octets: about what a hundred notes take.
const DEBTS_PIECE_OCTETS: u64 = 16_384;

// The pieces in which it is read for all of them.
const ALL_PIECE_OCTETS: u64 = 131_072;

// The debt that a payload owes, if it has this key and texts of these lengths.
fn debt_of(alloc: Global, key: Key, spot: Spot, payload: &[u8]) -> Result<Debt, TapeFault>
    ensures debt { (debt : Owing) → IsNote (owe debt) → payload.now ≡ spelling (owe debt)
        → debt.0 ≡ key
        → length debt.1.0 ≡ spot.token_len → length debt.1.1 ≡ spot.id_len
        → (IfOk result (λ d. d ≡ debt)) × (IsErrOf result TapeFault.Disk → ⊥) }
    ensures ok { IfOk result (λ d. (d.0 ≡ key) × (length d.1.0 ≡ spot.token_len)
        × (length d.1.1 ≡ spot.id_len) × (payload.now ≡ spelling (owe d))) }
    ensures kinds { IfErr result IsReadFault }
{
    let Some(note) = decode(alloc, payload)? else {
        return Err(TapeFault::Disk);
    };
    match note {
        Note::Owe {
            key: read,
            token,
            id,
        } => debt_as(key, spot, Debt::new(read, token, id)),
        Note::Final { .. } => Err(TapeFault::Disk),
        Note::Drop { .. } => Err(TapeFault::Disk),
        Note::Seen { .. } => Err(TapeFault::Disk),
        Note::Closed { .. } => Err(TapeFault::Disk),
    }
}

fn debt_as(key: Key, spot: Spot, debt: Debt) -> Result<Debt, TapeFault>
    ensures ok { IfOk result
        (λ d. (d ≡ debt) × (debt.0 ≡ key) × (length debt.1.0 ≡ spot.token_len)
        × (length debt.1.1 ≡ spot.id_len)) }
    ensures disk { IsErrOf result TapeFault.Disk → debt.0 ≡ key
        → length debt.1.0 ≡ spot.token_len
        → length debt.1.1 ≡ spot.id_len → ⊥ }
    ensures kinds { IfErr result (λ e. e ≡ TapeFault.Disk) }
{
    if debt.key() != key {
        return Err(TapeFault::Disk);
    }
    if debt.token().bytes().len() != usize::from(spot.token_len) {
        return Err(TapeFault::Disk);
    }
    if debt.id().bytes().len() != usize::from(spot.id_len) {
        return Err(TapeFault::Disk);
    }
    Ok(debt)
}

impl<D: Disk> Tape<D> {
    ghost use Rattle.std.specs.Prelude.{[], ◌==◌, ◌∷◌, ◌++◌, take, drop, find, option_map};
    ghost use Rattle.std.specs.Prelude.{OnErr, OnOk, IfNone, IsSome, map};
    ghost use Rattle.ledger_core.specs.Base.{base_spelling};
    ghost use Rattle.ledger_core.specs.Index.{IsSpotOf, debt_at, spots_of};
    ghost use Rattle.tape_journal.specs.Journal.{Holds};
    ghost use Rattle.ledger_core.specs.Batch.{StandsIn};
    ghost use Rattle.tape_journal.specs.Segment.{records};
    ghost use Rattle.std.specs.Prelude.{List, slice_index_or};
    ghost use Rattle.recovery.specs.Pending.{payloads_in};
    ghost use Rattle.ledger_core.specs.Ledger.{state_of};
    ghost use Rattle.std.specs.List.{Contains};
    ghost use Rattle.std.specs.List.Sorted.{IsStrictlyIncreasing};
    ghost use Rattle.ledger_core.specs.State.{IsOwed, keys};
    ghost use Rattle.tape_journal.specs.Gathered.{octets_in};
    ghost use Rattle.recovery.specs.Notes.{History};
    ghost use Rattle.recovery.specs.Tape.{IsRead, StandsFor};
    ghost use Rattle.recovery.specs.Texts.{HasLengths, IsAt, debts_at, lengths_of};
    ghost use Rattle.recovery.specs.Words.{IsBroken, IsDebtFault, OneHasRisen, Writes, generation_of, ledger_of};
    ghost use Rattle.recovery.specs.Words.{live_segment, faults_of};

    /// The debt of this key, if it is owed. Its note is read back from the disk, unless it is pending. Logarithmic in
    /// what is owed, and at most two reads of the disk.
    ///
    /// # Errors
    /// Tried in this order: `Broken`; `NoMemory`; `Disk`, if the read failed, or gave another note than was written
    /// there, which an honest disk never does. None of them changes anything, or breaks the tape.
    pub fn debt(&mut self, key: Key) -> Result<Option<Debt>, TapeFault>
        // It is the debt that was noted.
        ensures debt { (h : History) → StandsFor self.old h
            → IfOk result (λ debt. debt ≡ debt_at (ledger_of self.old) key) }
        // Whatever the disk gives, the key is owed, and the texts have the lengths that were noted.
        ensures owed { IfOk result (λ debt. (IsSome debt ↔ IsOwed (ledger_of self.old) key)
            × HasLengths (ledger_of self.old) key debt) }
        ensures broken { IsErrOf result TapeFault.Broken ↔ IsBroken self.old }
        ensures refuses { IfErr result
            (λ e. e ≢ TapeFault.Broken → IsOwed (ledger_of self.old) key) }
        ensures cause { (h : History) → StandsFor self.old h
            → IsErrOf result TapeFault.Disk → OneHasRisen (faults_of self.old)
            (faults_of self.new) }
        ensures kinds { IfErr result IsDebtFault }
        ensures reads { IsRead self.old self.new }
        ensures quiet { OnOk result (faults_of self.new ≡ faults_of self.old) }
    {
        if self.segments.live.is_broken() {
            return Err(TapeFault::Broken);
        }
        let Some(spot) = self.ledger.spot(key) else {
            return Ok(None);
        };
        let note = match self.note_octets(key, spot) {
            Ok(note) => note,
            Err(fault) => return Err(fault),
        };
        match debt_of(self.alloc, key, spot, &note) {
            Ok(debt) => Ok(Some(debt)),
            Err(fault) => Err(fault),
        }
    }

    /// The debts of these keys, in their order, read back; a key that is not owed is passed over. The live segment is
    /// read in pieces, so that notes which follow each other there, as those of rising keys mostly do, cost few reads
    /// of the disk.
    ///
    /// # Errors
    /// Tried in this order: `Broken`; `NoMemory` if there is none for a piece; those of [`Tape::debt`], of the first
    /// key that meets one. None of them changes anything, or breaks the tape.
    pub fn debts(&mut self, keys: &[Key]) -> Result<Vec<Debt>, TapeFault>
        // They are the debts that were noted.
        ensures debts { (h : History) → StandsFor self.old h → IfOk result
            (λ debts. debts.items ≡ debts_at (ledger_of self.old) keys.now) }
        // Whatever the disk gives, their keys are those that are owed, and the texts have the lengths that were noted.
        ensures owed { IfOk result (λ debts. map lengths_of debts.items
            ≡ map lengths_of (debts_at (ledger_of self.old) keys.now)) }
        ensures broken { IsErrOf result TapeFault.Broken ↔ IsBroken self.old }
        ensures refuses { IsErrOf result TapeFault.Disk
            → (key : ℕ) × Contains keys.now key × IsOwed (ledger_of self.old) key }
        ensures cause { (h : History) → StandsFor self.old h
            → IsErrOf result TapeFault.Disk → OneHasRisen (faults_of self.old)
            (faults_of self.new) }
        ensures kinds { IfErr result IsDebtFault }
        ensures reads { IsRead self.old self.new }
        ensures quiet { OnOk result (faults_of self.new ≡ faults_of self.old) }
    {
        if self.segments.live.is_broken() {
            return Err(TapeFault::Broken);
        }
        self.read_ahead(DEBTS_PIECE_OCTETS)?;
        let debts = self.debts_each(keys);
        self.read_singly();
        debts
    }

    // The debts of these keys, one by one.
    fn debts_each(&mut self, keys: &[Key]) -> Result<Vec<Debt>, TapeFault>
        requires works { IsBroken self.old → ⊥ }
        ensures debts { (h : History) → StandsFor self.old h → IfOk result
            (λ debts. debts.items ≡ debts_at (ledger_of self.old) keys.now) }
        ensures owed { IfOk result (λ debts. map lengths_of debts.items
            ≡ map lengths_of (debts_at (ledger_of self.old) keys.now)) }
        ensures refuses { IsErrOf result TapeFault.Disk
            → (key : ℕ) × Contains keys.now key × IsOwed (ledger_of self.old) key }
        ensures cause { (h : History) → StandsFor self.old h
            → IsErrOf result TapeFault.Disk → OneHasRisen (faults_of self.old)
            (faults_of self.new) }
        ensures kinds { IfErr result IsReadFault }
        ensures reads { IsRead self.old self.new }
        ensures quiet { OnOk result (faults_of self.new ≡ faults_of self.old) }
    {
        let mut debts = Vec::new(self.alloc);
        for key in keys {
            if let Some(debt) = self.debt(*key)? {
                debts.push(debt)?;
            }
        }
        Ok(debts)
    }

    // The payload of the note that owes the debt of this key, at this spot.
    fn note_at(&mut self, key: Key, spot: Spot) -> Result<Vec<u8>, TapeFault>
        requires works { IsBroken self.old → ⊥ }
        requires spot { IsSpotOf self.old.ledger key spot }
        ensures note { (h : History) → StandsFor self.old h → IfOk result (λ v. (debt : Owing)
            → debt_at (ledger_of self.old) key ≡ Some debt → v.items ≡ spelling (owe debt)) }
        ensures spelled { IfOk result (λ v. SpellsOwe v.items key spot.token_len spot.id_len) }
        ensures cause { (h : History) → StandsFor self.old h
            → IsErrOf result TapeFault.Disk → OneHasRisen (faults_of self.old)
            (faults_of self.new) }
        ensures kinds { IfErr result IsReadFault }
        ensures reads { IsRead self.old self.new }
        ensures quiet { OnOk result (faults_of self.new ≡ faults_of self.old) }
    {
        let note = match self.note_octets(key, spot) {
            Ok(note) => note,
            Err(fault) => return Err(fault),
        };
        if spells_owe(&note, key, spot.token_len, spot.id_len) {
            Ok(note)
        } else {
            Err(TapeFault::Disk)
        }
    }

    // The octets of the note that owes the debt of this key, at this spot: on the disk, or pending.
    fn note_octets(&mut self, key: Key, spot: Spot) -> Result<Vec<u8>, TapeFault>
        requires works { IsBroken self.old → ⊥ }
        ensures note { (h : History) (debt : Owing) → StandsFor self.old h
            → IsAt self.old.ledger key spot debt
            → IfOk result (λ v. v.items ≡ spelling (owe debt)) }
        ensures cause { (h : History) (debt : Owing) → StandsFor self.old h
            → IsAt self.old.ledger key spot debt
            → IsErrOf result TapeFault.Disk → OneHasRisen (faults_of self.old)
            (faults_of self.new) }
        ensures kinds { IfErr result IsReadFault }
        ensures reads { IsRead self.old self.new }
        ensures quiet { OnOk result (faults_of self.new ≡ faults_of self.old) }
    {
        let len = owed_len(key, spot.token_len, spot.id_len);
        if spot.at >= end_of(&self.segments.live) {
            return self.pending_note(spot.slot, spot.within, len);
        }
        if spot.within > 0 {
            return self.part_of(spot.at, 5 + u32::from(spot.within), len as u32);
        }
        let part = match self.part_of(spot.at, 0, len as u32 + 5) {
            Ok(part) => part,
            Err(fault) => return Err(fault),
        };
        // A note that is alone in its payload, as each is after a rotation, is not copied.
        if part.len() == len {
            return Ok(part);
        }
        match note_in(&part, 0, len) {
            Some(note) => Ok(Vec::from_slice(self.alloc, note)?),
            None => Err(TapeFault::Disk),
        }
    }

    // At most `most` octets, from `from` on, of the payload of the record at this offset of the disk.
    fn part_of(&mut self, at: u64, from: u32, most: u32) -> Result<Vec<u8>, TapeFault>
        requires works { IsBroken self.old → ⊥ }
        ensures part { (prefix more : List (List ℕ)) (payload : List ℕ)
            → Holds (live_segment self.old) (prefix ++ payload ∷ more)
            → at ≡ length (records prefix)
            → IfOk result (λ v. v.items ≡ take most (drop from payload)) }
        ensures cause { (prefix more : List (List ℕ)) (payload : List ℕ)
            → Holds (live_segment self.old) (prefix ++ payload ∷ more)
            → at ≡ length (records prefix)
            → IsErrOf result TapeFault.Disk → OneHasRisen (faults_of self.old)
            (faults_of self.new) }
        ensures kinds { IfErr result IsReadFault }
        ensures reads { IsRead self.old self.new }
        ensures quiet { OnOk result (faults_of self.new ≡ faults_of self.old) }
    {
        match self.segments.live.part_at(at, from, most) {
            Ok(part) => Ok(part),
            Err(ReadFault::NoMemory) => Err(TapeFault::NoMemory),
            Err(ReadFault::Disk) => Err(TapeFault::Disk),
            // It cannot come: the journal works.
            Err(ReadFault::Broken) => Err(TapeFault::Disk),
        }
    }

    // The octets of a note in the pending payload in this slot.
    fn pending_note(&self, slot: u32, within: u16, len: usize) -> Result<Vec<u8>, TapeFault>
        ensures note { (octets : List ℕ) → slot < length (payloads_in self.now.pending) → StandsIn
            (slice_index_or (payloads_in self.now.pending) slot []) within octets
            → length octets ≡ len
            → IfOk result (λ v. v.items ≡ octets) × (IsErrOf result TapeFault.Disk → ⊥) }
        ensures kinds { IfErr result IsReadFault }
    {
        let Some(payload) = self.pending.payloads().get(slot as usize) else {
            return Err(TapeFault::Disk);
        };
        let Some(note) = note_in(payload, within, len) else {
            return Err(TapeFault::Disk);
        };
        Ok(Vec::from_slice(self.alloc, note)?)
    }

    pub(crate) fn spots(&self) -> Result<Vec<(Key, Spot)>, AllocError>
        ensures items { IfOk result (λ v. v.items ≡ spots_of self.now.ledger) }
        ensures rising { OnOk result (IsStrictlyIncreasing (keys (ledger_of self.now))) }
    {
        self.ledger.spots(self.alloc)
    }

    // Reads back the notes of all debts, which are at these spots, after the Base of the next generation. The live
    // segment is read in pieces.
    pub(crate) fn read_back(&mut self, spots: &[(Key, Spot)]) -> Result<Gathered, TapeFault>
        requires works { IsBroken self.old → ⊥ }
        requires room { generation_of self.old < 2 ^ 64 - 1 }
        requires spots { spots.now ≡ spots_of self.old.ledger }
        requires rising { IsStrictlyIncreasing (keys (ledger_of self.old)) }
        ensures written { (h : History) → StandsFor self.old h → IfOk result
            (Writes self.old) }
        ensures some { IfOk result (λ gathered. 0 < octets_in gathered) }
        ensures cause { (h : History) → StandsFor self.old h
            → IsErrOf result TapeFault.Disk → OneHasRisen (faults_of self.old)
            (faults_of self.new) }
        ensures kinds { IfErr result IsReadFault }
        ensures reads { IsRead self.old self.new }
        ensures quiet { OnOk result (faults_of self.new ≡ faults_of self.old) }
    {
        self.read_ahead(ALL_PIECE_OCTETS)?;
        let read = self.read_each(spots);
        self.read_singly();
        read
    }

    // Reads the live segment in pieces of so many octets from now on.
    fn read_ahead(&mut self, piece: u64) -> Result<(), AllocError>
        ensures reads { IsRead self.old self.new }
        ensures faults { faults_of self.new ≡ faults_of self.old }
    {
        self.segments.live.read_ahead(piece)
    }

    fn read_singly(&mut self)
        ensures reads { IsRead self.old self.new }
        ensures faults { faults_of self.new ≡ faults_of self.old }
    {
        self.segments.live.read_singly();
    }

    // Reads back the notes of all debts, which are at these spots, after the Base of the next generation, one by one.
    fn read_each(&mut self, spots: &[(Key, Spot)]) -> Result<Gathered, TapeFault>
        requires works { IsBroken self.old → ⊥ }
        requires room { generation_of self.old < 2 ^ 64 - 1 }
        requires spots { spots.now ≡ spots_of self.old.ledger }
        requires rising { IsStrictlyIncreasing (keys (ledger_of self.old)) }
        ensures written { (h : History) → StandsFor self.old h → IfOk result
            (Writes self.old) }
        ensures some { IfOk result (λ gathered. 0 < octets_in gathered) }
        ensures cause { (h : History) → StandsFor self.old h
            → IsErrOf result TapeFault.Disk → OneHasRisen (faults_of self.old)
            (faults_of self.new) }
        ensures kinds { IfErr result IsReadFault }
        ensures reads { IsRead self.old self.new }
        ensures quiet { OnOk result (faults_of self.new ≡ faults_of self.old) }
    {
        let mut gathered = Gathered::with_room(self.alloc, self.rotated_len() as usize)?;
        let base = self.ledger.base(self.segments.generation + 1);
        gathered.push(&encode_base(self.alloc, &base)?)?;
        for index in 0..spots.len() {
            let (key, spot) = spots[index];
            let payload = match self.note_at(key, spot) {
                Ok(payload) => payload,
                Err(fault) => return Err(fault),
            };
            gathered.push(&payload)?;
        }
        Ok(gathered)
    }
}
