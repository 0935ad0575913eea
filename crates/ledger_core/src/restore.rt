// The ledger of a tape that may begin with a Base.
ghost use Rattle.std.specs.Prelude.{◌≡◌, ◌+◌, ◌<◌, ◌≤◌, ◌^◌, ◌↔◌, ℕ};
ghost use Rattle.std.specs.Prelude.{IsErrOf, IsTrue, MatchResult, OnOk, length};
ghost use Rattle.ledger_core.specs.Base.{IsSound, base_spelling};

use crate::base::Base;
use crate::codec::owed_of;
use crate::key::Key;
use crate::ledger::LedgerFault;
use crate::marks::Marks;
use crate::restoring::Restoring;
use crate::{Ledger, ReplayFault};
use std::alloc::Global;
use std::collections::BTreeMap;

pub(crate) fn base_record_len(base: &Base) -> u64
    ensures { result ≡ 5 + length (base_spelling base.now) }
{
    if base.has_imports() { 66 } else { 54 }
}

/// What a tape's payloads leave.
#[derive(Drop)]
pub struct Restored {
    /// The generation of the Base that stands first; 0 if none does.
    pub generation: u64,
    pub ledger: Ledger,
}

// Whether a ledger may begin from a Base: it has a generation, and its counts add up.
pub(crate) fn is_sound(base: &Base) -> bool
    ensures { IsTrue result ↔ IsSound base.now }
{
    if base.generation == 0 || base.closed == u32::MAX || base.answered > base.taken {
        return false;
    }
    let left = base.taken - base.answered;
    base.dropped <= left && base.live == left - base.dropped
}

impl Ledger {
    ghost use Rattle.ledger_core.specs.State.{IsOwed, IsPast, State, keys, line_octets, owed_bytes};
    ghost use Rattle.std.specs.List.{All};
    ghost use Rattle.std.specs.Prelude.{[], ◌∷◌, IfOk, List, map, vec_items};
    ghost use Rattle.ledger_core.specs.declared.note.Note.{Note};
    ghost use Rattle.ledger_core.specs.Base.{RestoreStopsAt, Restores};
    ghost use Rattle.ledger_core.specs.Index.{Indexes};
    ghost use Rattle.ledger_core.specs.Ledger.{state_of};
    ghost use Rattle.ledger_core.specs.Spots.{IsPlaced, StandsAt};
    ghost use Rattle.ledger_core.specs.Owing.{Fits, SpellsNoFurther, TakesDebt, owing_more, owing_state};

    /// The ledger that a tape's payloads leave: each is a note, or a batch of several, and their notes are legal in
    /// turn; or a Base stands first, then its debts, each alone, and then such payloads.
    ///
    /// # Errors
    /// - `Refused` with the index of the first payload at which no reading goes on: 0 for a Base of generation 0, of
    ///   the last source, after which none can be open, or whose counts don't add up; the number of payloads if a debt
    ///   of the Base is missing.
    /// - `NoMemory` if memory was refused.
    pub fn restore(alloc: Global, payloads: &[Vec<u8>]) -> Result<Restored, ReplayFault>
        // What is read is such a tape.
        ensures ok { IfOk result
            (λ r. Restores (map vec_items payloads.now) r.generation (state_of r.ledger)) }
        // Each such tape is read, unless memory is refused.
        ensures all { (generation : ℕ) (state : State)
            → Restores (map vec_items payloads.now) generation state → MatchResult result
            (λ r. (r.generation ≡ generation) × (state_of r.ledger ≡ state))
            (λ fault. fault ≡ ReplayFault.NoMemory) }
        ensures refused { (index : ℕ) → IsErrOf result (ReplayFault.Refused index)
            → RestoreStopsAt (map vec_items payloads.now) index }
        // It says where each of its debts is among them.
        ensures indexes { IfOk result
            (λ r. Indexes (length payloads.now) (map vec_items payloads.now) r.ledger) }
    {
        let mut restoring = Restoring::new(alloc);
        for payload in payloads {
            restoring.take(payload)?;
        }
        match restoring.finish() {
            Ok(restored) => Ok(restored),
            Err(refused) => Err(ReplayFault::Refused {
                index: refused.index,
            }),
        }
    }

    // The ledger of what a Base has answered and dropped, before any of its debts is read.
    pub(crate) fn of_base(alloc: Global, base: &Base) -> Self
        requires few { base.now.answered + base.now.dropped < 2 ^ 64 }
        requires open { base.now.closed + 1 < 2 ^ 32 }
        ensures state { state_of result ≡ owing_state base.now [] }
        ensures indexes { (kept : ℕ) (payloads : List (List ℕ)) → Indexes kept payloads result }
    {
        Ledger {
            debts: BTreeMap::new(alloc),
            marks: Marks {
                mark: base.mark,
                closed: base.closed,
                import_mark: base.import_mark,
            },
            taken: base.answered + base.dropped,
            answered: base.answered,
            dropped: base.dropped,
            owed_bytes: 0,
            imported: 0,
        }
    }

    // Takes the debt of a Base that the payload at this index spells, whose record is at this offset. A batch is
    // refused: it is not a debt.
    pub(crate) fn take_debt(
        &mut self,
        index: usize,
        at: u64,
        payload: &[u8],
    ) -> Result<(), ReplayFault>
        requires few { self.old.taken + 1 < 2 ^ 64 }
        ensures ok { OnOk result
            (TakesDebt payload.now (state_of self.old) (state_of self.new)) }
        ensures refused { (told : ℕ) → IsErrOf result (ReplayFault.Refused told)
            → (told ≡ index) × SpellsNoFurther payload.now (state_of self.old) }
        ensures indexes { (kept : ℕ) (payloads : List (List ℕ)) → Indexes kept payloads self.old
            → StandsAt kept payloads at 0 payload.now
            → OnOk result (Indexes kept payloads self.new) }
    {
        let Some((source, number, token, id)) = owed_of(payload) else {
            return Err(ReplayFault::Refused { index });
        };
        self.take_owed(Key::new(source, number), token, id, index, at)
    }

    // Takes the debt that was read at this index, whose record is at this offset.
    fn take_owed(
        &mut self,
        key: Key,
        token: &[u8],
        id: &[u8],
        index: usize,
        at: u64,
    ) -> Result<(), ReplayFault>
        requires token { length token.now ≤ 255 }
        requires id { length id.now ≤ 255 }
        requires few { self.old.taken + 1 < 2 ^ 64 }
        ensures ok { OnOk result (Fits (state_of self.old) (key, (token.now, id.now))
            × (state_of self.new ≡ owing_more (state_of self.old) (key, (token.now, id.now)))) }
        ensures refused { (told : ℕ) → IsErrOf result (ReplayFault.Refused told) → (told ≡ index)
            × (Fits (state_of self.old) (key, (token.now, id.now)) → ⊥) }
        ensures indexes { (kept : ℕ) (payloads : List (List ℕ)) → Indexes kept payloads self.old
            → IsPlaced kept payloads at 0 0 (Note.Owe key token.now id.now)
            → Indexes kept payloads self.new }
    {
        if !self.is_above_all(key) {
            return Err(ReplayFault::Refused { index });
        }
        if !self.marks.is_past(key) {
            return Err(ReplayFault::Refused { index });
        }
        self.put_read(key, token, id, index, at)
    }

    fn is_above_all(&self, key: Key) -> bool
        ensures { IsTrue result ↔ All (λ other. other < key) (keys (state_of self.now)) }
    {
        match self.debts.last_key_value() {
            Some((last, _)) => last.is_below(key),
            None => true,
        }
    }

    // Puts in a debt that was read at this index, whose record is at this offset.
    fn put_read(
        &mut self,
        key: Key,
        token: &[u8],
        id: &[u8],
        index: usize,
        at: u64,
    ) -> Result<(), ReplayFault>
        requires token { length token.now ≤ 255 }
        requires id { length id.now ≤ 255 }
        requires few { self.old.taken + 1 < 2 ^ 64 }
        requires absent { IsOwed (state_of self.old) key → ⊥ }
        requires past { IsPast self.old.marks key }
        ensures ok { OnOk result
            ((owed_bytes (state_of self.old) + line_octets token.now id.now < 2 ^ 64)
            × (state_of self.new ≡ owing_more (state_of self.old) (key, (token.now, id.now)))) }
        ensures refused { (told : ℕ) → IsErrOf result (ReplayFault.Refused told) → (told ≡ index)
            × (owed_bytes (state_of self.old) + line_octets token.now id.now < 2 ^ 64 → ⊥) }
        ensures indexes { (kept : ℕ) (payloads : List (List ℕ)) → Indexes kept payloads self.old
            → IsPlaced kept payloads at 0 0 (Note.Owe key token.now id.now)
            → Indexes kept payloads self.new }
    {
        let marks = self.marks;
        match self.put(marks, key, token, id, at, 0, 0) {
            Ok(()) => Ok(()),
            Err(LedgerFault::NoMemory) => Err(ReplayFault::NoMemory),
            Err(_) => Err(ReplayFault::Refused { index }),
        }
    }
}
