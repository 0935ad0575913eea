// The pending notes, in the payloads that a flush writes.
ghost use Rattle.std.specs.Prelude.{◌≡◌, ◌+◌, ◌-◌, ◌^◌, ◌<◌, ◌≤◌, ◌↔◌};
ghost use Rattle.std.specs.Prelude.{◌++◌, ◌∷◌, [], ℕ, List, length};
ghost use Rattle.std.specs.Prelude.{IfOk, IsTrue, OnErr, OnOk, Some, drop, min, take, Vec, map, slice_get, vec_items};
ghost use Rattle.std.specs.List.{All};
ghost use Rattle.ledger_core.specs.declared.note.Note.{Note};
ghost use Rattle.ledger_core.specs.Batch.{IsBatch, batch_spelling, body_of, longest_batch, payload_of};
ghost use Rattle.ledger_core.specs.Note.{AreNotes, IsNote};
ghost use Rattle.ledger_core.specs.Spelling.{spelling};
ghost use Rattle.std.specs.declared.alloc.Global.{Global};

use ledger_core::{BATCH_MAX_OCTETS, Cause, Key, Note, encode, join, joined_len};
use std::alloc::{AllocError, Global};

// The number of octets that a payload of several notes has before them.
const HEAD_OCTETS: usize = 5;

/// The place of a note that comes after all pending ones.
#[derive(Clone, Copy)]
pub(crate) struct PendingPlace {
    // The offset of its record, or the greatest u64 if that is less.
    pub(crate) at: u64,
    // The index of its record among the pending records.
    pub(crate) slot: u32,
    // The number of octets of other notes that come before it in its record.
    pub(crate) within: u16,
    // Where the record after it begins, or the greatest u64 if that is less.
    pub(crate) next: u64,
}

fn record_behind(at: u64, len: usize) -> u64
    ensures { result ≡ min (at + (5 + len)) (2 ^ 64 - 1) }
{
    at.saturating_add(5).saturating_add(len as u64)
}

/// The pending notes: the payloads of the longest batches into which they fit. Only the last batch grows.
#[derive(Drop)]
pub(crate) struct Pending {
    pub(crate) payloads: Vec<Vec<u8>>,
    // How many notes there are.
    pub(crate) count: usize,
    ghost fewer: { length payloads.items ≤ count },
    ghost fit: { All (λ octets. length octets ≤ longest_batch) (map vec_items payloads.items) },
}

impl Pending {
    ghost use Rattle.ledger_core.specs.declared.ledger.Ledger.{Ledger};
    ghost use Rattle.ledger_core.specs.Index.{Indexes};
    ghost use Rattle.recovery.specs.Notes.{drops, most_pending};
    ghost use Rattle.recovery.specs.Pending.{EndsAt, Grows, HasRoom, Holds, Places, payloads_in};

    pub(crate) fn new(alloc: Global) -> Self
        ensures payloads { result.payloads.items ≡ [] }
        ensures count { result.count ≡ 0 }
    {
        Pending {
            payloads: Vec::new(alloc),
            count: 0,
        }
    }

    pub(crate) fn clear(&mut self)
        ensures payloads { self.new.payloads.items ≡ [] }
        ensures count { self.new.count ≡ 0 }
    {
        self.payloads.clear();
        self.count = 0;
    }

    pub(crate) fn payloads(&self) -> &[Vec<u8>]
        ensures { result.now ≡ self.now.payloads.items }
    {
        &self.payloads
    }

    // Whether a note of `len` octets joins the last payload.
    pub(crate) fn joins(&self, len: usize) -> bool
        requires { len ≤ 1024 }
        ensures none { self.now.payloads.items ≡ [] → IsTrue result → ⊥ }
        ensures fits { (last : Vec ℕ Global)
            → slice_get self.now.payloads.items (length self.now.payloads.items - 1) ≡ Some last
            → IsTrue result → 5 + length (body_of last.items) + len ≤ longest_batch }
        ensures joins { (prefix : List (Vec ℕ Global)) (last : Vec ℕ Global)
            → self.now.payloads.items ≡ prefix ++ last ∷ [] → (batch : List Note) (note : Note)
            → IsBatch batch → last.items ≡ payload_of batch → len ≡ length (spelling note)
            → IsTrue result ↔ length (batch_spelling (batch ++ note ∷ [])) ≤ longest_batch }
    {
        match self.payloads.last() {
            Some(last) => joined_len(last, len) <= BATCH_MAX_OCTETS,
            None => false,
        }
    }

    // How long the last payload is once a note of `len` octets has joined it.
    pub(crate) fn joined(&self, len: usize) -> usize
        requires { len ≤ 1024 }
        ensures { (prefix : List (Vec ℕ Global)) (last : Vec ℕ Global)
            → self.now.payloads.items ≡ prefix ++ last ∷ [] → (batch : List Note) (note : Note)
            → IsBatch batch → last.items ≡ payload_of batch → len ≡ length (spelling note)
            → result ≡ length (batch_spelling (batch ++ note ∷ [])) }
    {
        match self.payloads.last() {
            Some(last) => joined_len(last, len),
            None => 0,
        }
    }

    // Makes room for a note of `len` octets, and changes nothing else.
    pub(crate) fn make_room(&mut self, len: usize) -> Result<(), AllocError>
        requires { len ≤ 1024 }
        ensures room { OnOk result (HasRoom self.new len) }
        ensures payloads { payloads_in self.new ≡ payloads_in self.old }
        ensures count { self.new.count ≡ self.old.count }
    {
        self.payloads.reserve(1)?;
        match self.payloads.last_mut() {
            Some(last) => last.reserve(HEAD_OCTETS + len),
            None => Ok(()),
        }
    }

    pub(crate) fn push(&mut self, note: Vec<u8>)
        requires room { HasRoom self.old (length note.items) }
        requires short { length note.items ≤ 1024 }
        requires few { self.old.count + 1 < 2 ^ 64 }
        ensures holds { (notes : List Note) (last : Note) → Holds self.old notes → IsNote last
            → note.items ≡ spelling last → Holds self.new (notes ++ last ∷ []) }
        ensures grows { (notes : List Note) (last : Note) → Holds self.old notes → IsNote last
            → note.items ≡ spelling last
            → Grows (payloads_in self.old) (payloads_in self.new) last }
        ensures count { self.new.count ≡ self.old.count + 1 }
        ensures more { length self.old.payloads.items ≤ length self.new.payloads.items }
        ensures len { length self.new.payloads.items ≤ length self.old.payloads.items + 1 }
    {
        self.count += 1;
        if !self.joins(note.len()) {
            self.payloads.push_reserved(note);
            return;
        }
        if let Some(payload) = self.payloads.last_mut() {
            join(payload, &note);
        }
    }

    // The place of a note of `len` octets that comes after what is pending. The last pending record begins at `last`,
    // and a record after all of them would begin at `next`.
    pub(crate) fn place_for(&self, last: u64, next: u64, len: usize) -> PendingPlace
        requires short { len ≤ 1024 }
        requires few { self.now.count ≤ most_pending }
        ensures places { (kept new : List (List ℕ)) (ledger : Ledger) (notes : List Note)
            (note : Note) → Holds self.now notes → EndsAt kept (payloads_in self.now) last next
            → Indexes (length kept) (kept ++ payloads_in self.now) ledger
            → len ≡ length (spelling note) → Grows (payloads_in self.now) new note
            → Places kept new ledger note result }
        ensures ends { (kept new : List (List ℕ)) (notes : List Note) (note : Note)
            → Holds self.now notes → EndsAt kept (payloads_in self.now) last next
            → len ≡ length (spelling note) → Grows (payloads_in self.now) new note
            → EndsAt kept new result.at result.next }
    {
        let count = self.payloads.len();
        if !self.joins(len) {
            return PendingPlace {
                at: next,
                slot: count as u32,
                within: 0,
                next: record_behind(next, len),
            };
        }
        let joined = self.joined(len);
        PendingPlace {
            at: last,
            slot: count.saturating_sub(1) as u32,
            within: joined.saturating_sub(HEAD_OCTETS + len).min(65535) as u16,
            next: record_behind(last, joined),
        }
    }

    // Takes a note, or makes part of the room for it. The last pending record begins at `last`, and one after all of
    // them would begin at `next`. Returns what these are then.
    fn take(
        &mut self,
        alloc: Global,
        note: &Note,
        last: u64,
        next: u64,
    ) -> Result<(u64, u64), AllocError>
        requires few { self.old.count < most_pending }
        ensures holds { (notes : List Note) → Holds self.old notes
            → OnOk result (Holds self.new (notes ++ note.now ∷ [])) }
        ensures ends { (kept : List (List ℕ)) (notes : List Note) → Holds self.old notes
            → EndsAt kept (payloads_in self.old) last next
            → IfOk result (λ r. EndsAt kept (payloads_in self.new) r.0 r.1) }
        ensures indexes { (kept : ℕ) (prefix : List (List ℕ)) (ledger : Ledger) (notes : List Note)
            → Holds self.old notes → Indexes kept (prefix ++ payloads_in self.old) ledger
            → OnOk result (Indexes kept (prefix ++ payloads_in self.new) ledger) }
        ensures note { OnOk result (IsNote note.now) }
        ensures count { OnOk result (self.new.count ≡ self.old.count + 1) }
        ensures more { OnOk result
            (length self.old.payloads.items ≤ length self.new.payloads.items) }
        ensures len { OnOk result
            (length self.new.payloads.items ≤ length self.old.payloads.items + 1) }
    {
        let octets = encode(alloc, note)?;
        let len = octets.len();
        self.make_room(len)?;
        let place = self.place_for(last, next, len);
        self.push(octets);
        Ok((place.at, place.next))
    }

    // Takes the notes that drop these debts, or some of them, as `take` does.
    fn take_drops(
        &mut self,
        alloc: Global,
        keys: &[Key],
        cause: Cause,
        mut last: u64,
        mut next: u64,
    ) -> Result<(u64, u64), AllocError>
        requires few { self.old.count + length keys.now ≤ most_pending }
        ensures holds { (notes : List Note) → Holds self.old notes
            → OnOk result (Holds self.new (notes ++ drops cause keys.now)) }
        ensures ends { (kept : List (List ℕ)) (notes : List Note) → Holds self.old notes
            → EndsAt kept (payloads_in self.old) last next
            → IfOk result (λ r. EndsAt kept (payloads_in self.new) r.0 r.1) }
        ensures indexes { (kept : ℕ) (prefix : List (List ℕ)) (ledger : Ledger) (notes : List Note)
            → Holds self.old notes → Indexes kept (prefix ++ payloads_in self.old) ledger
            → OnOk result (Indexes kept (prefix ++ payloads_in self.new) ledger) }
        ensures notes { OnOk result (AreNotes (drops cause keys.now)) }
        ensures count { OnOk result (self.new.count ≡ self.old.count + length keys.now) }
        ensures more { OnOk result
            (length self.old.payloads.items ≤ length self.new.payloads.items) }
        ensures len { OnOk result (length self.new.payloads.items
            ≤ length self.old.payloads.items + length keys.now) }
    {
        for key in keys {
            let note = Note::Drop { key: *key, cause };
            let ends = self.take(alloc, &note, last, next)?;
            last = ends.0;
            next = ends.1;
        }
        Ok((last, next))
    }

    // A copy of only the last payload, which counts as many notes as all of them.
    fn tail(&self, alloc: Global) -> Result<Pending, AllocError>
        ensures payloads { IfOk result (λ tail. payloads_in tail
            ≡ drop (length (payloads_in self.now) - 1) (payloads_in self.now)) }
        ensures count { IfOk result (λ tail. tail.count ≡ self.now.count) }
    {
        let mut payloads = Vec::new(alloc);
        let count = self.count;
        let Some(last) = self.payloads.last() else {
            return Ok(Pending { payloads, count });
        };
        payloads.push(Vec::from_slice(alloc, last)?)?;
        Ok(Pending { payloads, count })
    }

    // Replaces the last payload by these, or changes no octet.
    fn end_with(&mut self, tail: Pending) -> Result<(), AllocError>
        requires fewer { length self.old.payloads.items + length tail.payloads.items
            ≤ tail.count + 1 }
        requires more { length self.old.payloads.items ≤ tail.count }
        ensures payloads { OnOk result (payloads_in self.new
            ≡ take (length (payloads_in self.old) - 1) (payloads_in self.old)
            ++ payloads_in tail) }
        ensures count { OnOk result (self.new.count ≡ tail.count) }
        ensures stays { OnErr result (payloads_in self.new ≡ payloads_in self.old) }
        ensures stays_count { OnErr result (self.new.count ≡ self.old.count) }
    {
        let Pending {
            mut payloads,
            count,
        } = tail;
        self.payloads.reserve(payloads.len())?;
        self.payloads
            .truncate(self.payloads.len().saturating_sub(1));
        let _ = self.payloads.append(&mut payloads);
        self.count = count;
        Ok(())
    }

    // Takes the notes that drop these debts, all of them, or changes no octet. The last pending record begins at
    // `last`, and one after all of them would begin at `next`. Returns what these are then.
    pub(crate) fn push_drops(
        &mut self,
        alloc: Global,
        keys: &[Key],
        cause: Cause,
        last: u64,
        next: u64,
    ) -> Result<(u64, u64), AllocError>
        requires few { self.old.count + length keys.now ≤ most_pending }
        ensures holds { (notes : List Note) → Holds self.old notes
            → OnOk result (Holds self.new (notes ++ drops cause keys.now)) }
        ensures ends { (kept : List (List ℕ)) (notes : List Note) → Holds self.old notes
            → EndsAt kept (payloads_in self.old) last next
            → IfOk result (λ r. EndsAt kept (payloads_in self.new) r.0 r.1) }
        ensures indexes { (kept : ℕ) (prefix : List (List ℕ)) (ledger : Ledger) (notes : List Note)
            → Holds self.old notes → Indexes kept (prefix ++ payloads_in self.old) ledger
            → OnOk result (Indexes kept (prefix ++ payloads_in self.new) ledger) }
        ensures notes { OnOk result (AreNotes (drops cause keys.now)) }
        ensures count { OnOk result (self.new.count ≡ self.old.count + length keys.now) }
        ensures stays { OnErr result (payloads_in self.new ≡ payloads_in self.old) }
        ensures stays_count { OnErr result (self.new.count ≡ self.old.count) }
    {
        let mut tail = self.tail(alloc)?;
        let ends = tail.take_drops(alloc, keys, cause, last, next)?;
        self.end_with(tail)?;
        Ok(ends)
    }
}
