// Payloads that are to be written at once.
ghost use Rattle.std.specs.Prelude.{◌≡◌, ◌≢◌, ◌+◌, ◌<◌, ◌↔◌, ◌∷◌, ◌++◌, []};
ghost use Rattle.std.specs.Prelude.{ℕ, List, length, map, take, vec_items, IfErr, IfOk, IsErrOf, IsTrue, MatchResult};
ghost use Rattle.std.specs.Prelude.{OnErr, OnOk};
ghost use Rattle.tape_journal.specs.Gathered.{Gathers, octets_in};
ghost use Rattle.tape_journal.specs.Segment.{AllShort, IsShort, at_rest, gated, longest_segment, open_gate};
ghost use Rattle.tape_journal.specs.Segment.{records};

use crate::append::{are_short, records_len};
use crate::journal::SEGMENT_MAX_OCTETS;
use crate::read::{OPEN, PAYLOAD_MAX_OCTETS};
use crate::{GatherFault, JournalFault, RenewFault};
use std::alloc::{AllocError, Global};

/// Payloads that are to be written at once, kept as the octets of their records, one record after another.
#[derive(Drop)]
pub struct Gathered {
    octets: Vec<u8>,
}

impl Gathered {
    /// No payload, and room for records of that many octets. A record has five octets more than its payload.
    ///
    /// # Errors
    /// `NoMemory` if memory was refused.
    pub fn with_room(alloc: Global, octets: usize) -> Result<Self, AllocError>
        ensures ok { IfOk result (λ gathered. Gathers gathered []) }
        ensures len { IfOk result (λ gathered. octets_in gathered ≡ 0) }
    {
        Ok(Gathered {
            octets: Vec::with_capacity(alloc, octets.saturating_add(1))?,
        })
    }

    /// Adds a payload after the others. Takes more room if what there is doesn't suffice.
    ///
    /// # Errors
    /// Tried in this order; nothing changes. `PayloadTooLong`, over 16,777,216 octets; `NoMemory`.
    pub fn push(&mut self, payload: &[u8]) -> Result<(), GatherFault>
        ensures ok { (payloads : List (List ℕ)) → Gathers self.old payloads
            → OnOk result (Gathers self.new (payloads ++ payload.now ∷ [])) }
        ensures stays { (payloads : List (List ℕ)) → Gathers self.old payloads
            → OnErr result (Gathers self.new payloads) }
        ensures len { MatchResult result
            (λ _. octets_in self.new ≡ octets_in self.old + 5 + length payload.now)
            (λ _. octets_in self.new ≡ octets_in self.old) }
        ensures too_long { IsErrOf result GatherFault.PayloadTooLong
            ↔ (IsShort payload.now → ⊥) }
    {
        if payload.len() > PAYLOAD_MAX_OCTETS as usize {
            return Err(GatherFault::PayloadTooLong);
        }
        let len = self.octets.len();
        match add_record(&mut self.octets, payload) {
            Ok(()) => Ok(()),
            Err(_) => {
                self.octets.truncate(len);
                Err(GatherFault::NoMemory)
            }
        }
    }

    /// Whether it has no payload.
    pub fn is_empty(&self) -> bool
        ensures { IsTrue result ↔ octets_in self.now ≡ 0 }
    {
        self.octets.is_empty()
    }

    // These payloads, unless the segment of them is refused.
    pub(crate) fn of(alloc: Global, payloads: &[Vec<u8>]) -> Result<Self, JournalFault>
        ensures ok { IfOk result (λ gathered. Gathers gathered (map vec_items payloads.now)) }
        ensures too_long { IsErrOf result JournalFault.PayloadTooLong
            ↔ (AllShort (map vec_items payloads.now) → ⊥) }
        ensures full { IsErrOf result JournalFault.TapeFull
            ↔ (AllShort (map vec_items payloads.now)
            × (longest_segment < 1 + length (records (map vec_items payloads.now)))) }
        ensures kinds { IfErr result (λ e. (e ≢ JournalFault.Disk)
            × ((at : ℕ) → e ≢ JournalFault.Damaged at)) }
    {
        if !are_short(payloads) {
            return Err(JournalFault::PayloadTooLong);
        }
        let octets = records_len(payloads);
        if octets >= SEGMENT_MAX_OCTETS {
            return Err(JournalFault::TapeFull);
        }
        let mut gathered = Gathered::with_room(alloc, octets as usize)?;
        for payload in payloads {
            match gathered.push(payload) {
                Ok(()) => {}
                Err(_) => return Err(JournalFault::NoMemory),
            }
        }
        Ok(gathered)
    }

    // The segment at rest of its payloads and the offset of the end gate, unless it is refused.
    pub(crate) fn into_segment(self) -> Result<(Vec<u8>, u64), RenewFault>
        ensures full { IsErrOf result RenewFault.TapeFull
            ↔ (longest_segment < 1 + octets_in self) }
        ensures disk { IsErrOf result RenewFault.Disk → ⊥ }
        ensures ok { (payloads : List (List ℕ)) → Gathers self payloads
            → IfOk result (λ r. r.0.items ≡ at_rest payloads) }
        ensures end { IfOk result (λ r. (r.1 ≡ octets_in self) × (r.1 < longest_segment)
            × (0 < length r.0.items)) }
    {
        let Gathered { mut octets } = self;
        let end = octets.len() as u64;
        if end >= SEGMENT_MAX_OCTETS {
            return Err(RenewFault::TapeFull);
        }
        octets.push(0)?;
        Ok((octets, end))
    }
}

// Adds the record of a payload, or only a piece of it if memory is refused.
fn add_record(octets: &mut Vec<u8>, payload: &[u8]) -> Result<(), AllocError>
    requires { IsShort payload.now }
    ensures ok { OnOk result
        (octets.new.items ≡ octets.old.items ++ gated open_gate payload.now) }
    ensures prefix { take (length octets.old.items) octets.new.items ≡ octets.old.items }
{
    let size = payload.len() as u32;
    octets.push(OPEN)?;
    octets.extend_from_slice(&size.to_be_bytes())?;
    octets.extend_from_slice(payload)
}
