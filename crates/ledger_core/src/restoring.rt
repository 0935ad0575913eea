// A ledger while the payloads of a tape are read, one after another.
ghost use Rattle.std.specs.Prelude.{[], ◌∷◌, ◌≡◌, ◌+◌, ◌-◌, ◌<◌, ◌≤◌};
ghost use Rattle.std.specs.Prelude.{◌^◌, ◌++◌, ℕ, ◌↔◌};
ghost use Rattle.std.specs.Prelude.{IfErr, IfOk, IsErrOf, IsTrue, List, MatchResult, OnOk, length, min};

use crate::base::decode_base;
use crate::ledger::offset_behind;
use crate::restore::{Restored, is_sound};
use crate::{Ledger, ReplayFault};
use std::alloc::{AllocError, Global};

/// The payload at which no reading of a tape goes on.
#[derive(Clone, Copy, Debug, PartialEq, Eq)]
pub struct RefusedPayload {
    /// The index, from 0, of the first such payload, or the number of payloads if a debt of the Base is missing; the
    /// greatest usize if that is less.
    pub index: usize,
    /// Where the record of that payload begins, or that of the missing debt would, in octets from the segment's start;
    /// the greatest u64 if that is less.
    pub at: u64,
}

// How far the reading of a tape has come.
#[derive(Clone, Copy, Debug, PartialEq, Eq)]
pub(crate) enum RestoreStage {
    Unread,
    // The tape has this generation, 0 if no Base stands first. Payloads are debts of the Base until `taken` debts were
    // taken in all, and notes from then on.
    Begun { generation: u64, taken: u64 },
    // A payload was refused. Those after it are skipped.
    Refused,
}

/// A ledger while the payloads of a tape are read, one after another.
///
/// It keeps no payload: each is judged as it comes. Once one is refused, it keeps only the place of that one.
#[derive(Drop)]
pub struct Restoring {
    alloc: Global,
    ledger: Ledger,
    stage: RestoreStage,
    // The index of the next payload, or of the refused one, and where its record begins.
    index: usize,
    at: u64,
}

impl Restoring {
    ghost use Rattle.ledger_core.specs.declared.restoring.RestoreStage.{RestoreStage};
    ghost use Rattle.ledger_core.specs.Base.{RestoreStopsAt, Restores};
    ghost use Rattle.ledger_core.specs.Batch.{longest_batch};
    ghost use Rattle.ledger_core.specs.Index.{Indexes};
    ghost use Rattle.ledger_core.specs.Ledger.{state_of};
    ghost use Rattle.ledger_core.specs.Restoring.{HasGoneOn, HasRead, HasTaken, IsOwing, StopsWith};
    ghost use Rattle.ledger_core.specs.Spots.{StandsAt};
    ghost use Rattle.ledger_core.specs.State.{State, start};

    /// No payload was read yet.
    pub fn new(alloc: Global) -> Self
        ensures { HasTaken result [] }
    {
        Restoring {
            alloc,
            ledger: Ledger::new(alloc),
            stage: RestoreStage::Unread,
            index: 0,
            at: 0,
        }
    }

    /// Judges the next payload.
    ///
    /// # Errors
    /// `AllocError` if memory was refused, and for nothing else. Drop this then: a batch may have been taken in part.
    pub fn take(&mut self, payload: &[u8]) -> Result<(), AllocError>
        ensures { (payloads : List (List ℕ)) → HasTaken self.old payloads
            → OnOk result (HasTaken self.new (payloads ++ payload.now ∷ [])) }
    {
        if self.is_refused() {
            return Ok(());
        }
        match self.read(payload) {
            Ok(()) => {
                self.step_over(payload);
                Ok(())
            }
            Err(ReplayFault::Refused { .. }) => {
                self.refuse();
                Ok(())
            }
            Err(ReplayFault::NoMemory) => Err(AllocError),
        }
    }

    /// The next payload is longer than any note or batch (65,536 octets), so it is refused unseen.
    pub fn pass(&mut self)
        ensures { (payloads : List (List ℕ)) (payload : List ℕ) → longest_batch < length payload
            → HasTaken self.old payloads → HasTaken self.new (payloads ++ payload ∷ []) }
    {
        if self.is_refused() {
            return;
        }
        self.refuse()
    }

    /// The generation and the ledger that the payloads leave, if they are a tape.
    ///
    /// # Errors
    /// The first payload at which no reading goes on, and where its record begins; or, if a debt of the Base is
    /// missing, the number of payloads, and where they end.
    pub fn finish(self) -> Result<Restored, RefusedPayload>
        // What is read is a tape.
        ensures ok { (payloads : List (List ℕ)) → HasTaken self payloads
            → IfOk result (λ r. Restores payloads r.generation (state_of r.ledger)) }
        // Each tape is read.
        ensures all { (payloads : List (List ℕ)) (generation : ℕ) (state : State)
            → HasTaken self payloads → Restores payloads generation state → MatchResult result
            (λ r. (r.generation ≡ generation) × (state_of r.ledger ≡ state)) (λ _. ⊥) }
        ensures refused { (payloads : List (List ℕ)) → HasTaken self payloads
            → IfErr result (StopsWith payloads) }
        // It says where each of its debts is among them.
        ensures indexes { (payloads : List (List ℕ)) → HasTaken self payloads
            → IfOk result (λ r. Indexes (length payloads) payloads r.ledger) }
    {
        let refused = RefusedPayload {
            index: self.index,
            at: self.at,
        };
        match self.stage {
            RestoreStage::Unread => Ok(Restored {
                generation: 0,
                ledger: self.ledger,
            }),
            RestoreStage::Begun { generation, taken } => {
                if self.ledger.taken < taken {
                    return Err(refused);
                }
                Ok(Restored {
                    generation,
                    ledger: self.ledger,
                })
            }
            RestoreStage::Refused => Err(refused),
        }
    }

    fn is_refused(&self) -> bool
        ensures { IsTrue result ↔ self.now.stage ≡ RestoreStage.Refused }
    {
        matches!(self.stage, RestoreStage::Refused)
    }

    // Reads the next payload. The place stays as it was.
    fn read(&mut self, payload: &[u8]) -> Result<(), ReplayFault>
        ensures reads { (payloads : List (List ℕ)) → HasGoneOn self.old payloads → OnOk result
            (HasRead self.new.stage (state_of self.new.ledger) (payloads ++ payload.now ∷ [])) }
        ensures indexes { (payloads : List (List ℕ)) → HasGoneOn self.old payloads → OnOk result
            ((kept : ℕ) → length payloads + 1 ≤ kept
            → Indexes kept (payloads ++ payload.now ∷ []) self.new.ledger) }
        ensures refused { (payloads : List (List ℕ)) → HasGoneOn self.old payloads
            → (told : ℕ) → IsErrOf result (ReplayFault.Refused told)
            → RestoreStopsAt (payloads ++ payload.now ∷ []) (length payloads) }
        ensures place { (self.new.index ≡ self.old.index) × (self.new.at ≡ self.old.at) }
    {
        match self.stage {
            RestoreStage::Unread => self.read_first(payload),
            RestoreStage::Begun { taken, .. } => self.read_next(taken, payload),
            RestoreStage::Refused => Err(ReplayFault::Refused { index: self.index }),
        }
    }

    // Reads the first payload of a tape: a Base, or notes.
    fn read_first(&mut self, payload: &[u8]) -> Result<(), ReplayFault>
        ensures reads { state_of self.old.ledger ≡ start → OnOk result
            (HasRead self.new.stage (state_of self.new.ledger) (payload.now ∷ [])) }
        ensures indexes { (kept : ℕ) (payloads : List (List ℕ))
            → Indexes kept payloads self.old.ledger
            → StandsAt kept payloads self.old.at 0 payload.now
            → OnOk result (Indexes kept payloads self.new.ledger) }
        ensures refused { state_of self.old.ledger ≡ start
            → (told : ℕ) → IsErrOf result (ReplayFault.Refused told)
            → RestoreStopsAt (payload.now ∷ []) 0 }
        ensures place { (self.new.index ≡ self.old.index) × (self.new.at ≡ self.old.at) }
    {
        let Some(base) = decode_base(payload) else {
            self.ledger.apply_payload(self.index, self.at, payload)?;
            self.stage = RestoreStage::Begun {
                generation: 0,
                taken: 0,
            };
            return Ok(());
        };
        if !is_sound(&base) {
            return Err(ReplayFault::Refused { index: self.index });
        }
        self.ledger = Ledger::of_base(self.alloc, &base);
        self.stage = RestoreStage::Begun {
            generation: base.generation,
            taken: base.taken,
        };
        Ok(())
    }

    // Reads a further payload: a debt of the Base if fewer than `taken` debts were taken, else notes.
    fn read_next(&mut self, taken: u64, payload: &[u8]) -> Result<(), ReplayFault>
        ensures reads { (generation : ℕ) (payloads : List (List ℕ))
            → HasRead (RestoreStage.Begun generation taken) (state_of self.old.ledger) payloads
            → OnOk result (HasRead (RestoreStage.Begun generation taken) (state_of self.new.ledger)
            (payloads ++ payload.now ∷ [])) }
        ensures indexes { (kept : ℕ) (payloads : List (List ℕ))
            → Indexes kept payloads self.old.ledger
            → StandsAt kept payloads self.old.at 0 payload.now
            → OnOk result (Indexes kept payloads self.new.ledger) }
        ensures refused { (generation : ℕ) (payloads : List (List ℕ))
            → HasRead (RestoreStage.Begun generation taken) (state_of self.old.ledger) payloads
            → (told : ℕ) → IsErrOf result (ReplayFault.Refused told)
            → RestoreStopsAt (payloads ++ payload.now ∷ []) (length payloads) }
        ensures place { (self.new.index ≡ self.old.index) × (self.new.at ≡ self.old.at)
            × (self.new.stage ≡ self.old.stage) }
    {
        if taken <= self.ledger.taken {
            self.ledger.apply_payload(self.index, self.at, payload)
        } else {
            self.ledger.take_debt(self.index, self.at, payload)
        }
    }

    fn step_over(&mut self, payload: &[u8])
        ensures ledger { self.new.ledger ≡ self.old.ledger }
        ensures stage { self.new.stage ≡ self.old.stage }
        ensures index { self.new.index ≡ min (self.old.index + 1) (2 ^ 64 - 1) }
        ensures at { self.new.at ≡ min (self.old.at + (5 + length payload.now)) (2 ^ 64 - 1) }
    {
        self.index = self.index.saturating_add(1);
        self.at = offset_behind(self.at, payload);
    }

    // Keeps the place of the refused payload, and no ledger.
    fn refuse(&mut self)
        ensures stage { self.new.stage ≡ RestoreStage.Refused }
        ensures place { (self.new.index ≡ self.old.index) × (self.new.at ≡ self.old.at) }
    {
        self.stage = RestoreStage::Refused;
        self.ledger = Ledger::new(self.alloc);
    }
}
