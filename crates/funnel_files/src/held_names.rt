// The segments of a directory, held so that it need not be listed for each.
ghost use Rattle.std.specs.Prelude.{◌≡◌, ◌↔◌, ◌<◌, ◌≤◌, ℕ, Contains};
ghost use Rattle.std.specs.Prelude.{IfErr, IfNone, IfSome, IsTrue, OnErr, OnOk};
ghost use Rattle.funnel_files.specs.Held.{IsBetweenRead, IsDurable};
ghost use Rattle.funnel_files.specs.declared.position.Misfit.{Misfit};

use crate::position::Misfit;
use segments::{AddFault, Segments, name_of};
use std::alloc::{AllocError, Global};

/// The segments as the directory was listed last, and those that were found since.
///
/// A segment that has a later one is complete, and no other file will have its name. So one sync of the directory
/// makes the names of all those durable that are held then, but for the last one's, whose file may be replaced.
#[derive(Drop)]
pub(crate) struct HeldNames {
    segments: Segments,
    // The names of those that begin below this line are durable.
    durable_below: u64,
}

impl HeldNames {
    /// None are held.
    pub fn new(alloc: Global) -> Self
        ensures durable { result.durable_below ≡ 0 }
    {
        HeldNames {
            segments: Segments::new(alloc),
            durable_below: 0,
        }
    }

    pub fn segments(&self) -> &Segments
        ensures { result.now ≡ self.now.segments }
    {
        &self.segments
    }

    /// Holds what was listed in place of what was held. The segments from `begun` to `reached` were read.
    ///
    /// # Errors
    /// `Overlap` if one begins between two that were read, and is none of them.
    pub fn renew(&mut self, listed: Segments, begun: u64, reached: u64) -> Result<(), Misfit>
        ensures ok { OnOk result (self.new ≡ record self.old { segments = listed }) }
        ensures fits { OnOk result ((segment next : ℕ)
            → IsBetweenRead self.old.segments listed begun reached segment next → ⊥) }
        ensures overlap { IfErr result (λ fault. (segment : ℕ) × (next : ℕ)
            × (fault ≡ Misfit.Overlap segment next)
            × IsBetweenRead self.old.segments listed begun reached segment next) }
        ensures unchanged { OnErr result (self.new ≡ self.old) }
    {
        match self.overlap(&listed, begun, reached) {
            Some(fault) => Err(fault),
            None => {
                self.segments = listed;
                Ok(())
            }
        }
    }

    // The first that was listed between two that were read, and is none of them.
    fn overlap(&self, listed: &Segments, begun: u64, reached: u64) -> Option<Misfit>
        ensures some { IfSome result (λ fault. (segment : ℕ) × (next : ℕ)
            × (fault ≡ Misfit.Overlap segment next)
            × IsBetweenRead self.now.segments listed.now begun reached segment next) }
        ensures none { IfNone result ((segment next : ℕ)
            → IsBetweenRead self.now.segments listed.now begun reached segment next → ⊥) }
    {
        let from = self.segments.after(begun.saturating_sub(1))?;
        let next = listed.first_unknown(&self.segments, from, reached)?;
        let place = self.segments.place_of(next - 1)?;
        Some(Misfit::Overlap {
            segment: place.first,
            next,
        })
    }

    /// Holds one more, which was found.
    ///
    /// # Errors
    /// Memory was refused.
    pub fn add(&mut self, first: u64) -> Result<(), AllocError>
        ensures durable { self.new.durable_below ≡ self.old.durable_below }
    {
        match self.segments.add(&name_of(first)) {
            Err(AddFault::NoMemory) => Err(AllocError),
            _ => Ok(()),
        }
    }

    /// Whether the name of this segment is durable.
    pub fn is_durable(&self, first: u64) -> bool
        ensures { IsTrue result ↔ (first < self.now.durable_below) }
    {
        first < self.durable_below
    }

    /// The directory was synced after all these names were seen.
    pub fn keep_durable(&mut self)
        ensures durable { (first : ℕ) → (first < self.new.durable_below)
            ↔ IsDurable self.old.segments self.old.durable_below first }
        ensures segments { self.new.segments ≡ self.old.segments }
    {
        if let Some(last) = self.segments.place_of(u64::MAX) {
            self.durable_below = self.durable_below.max(last.first);
        }
    }

    /// Those before this one were removed.
    pub fn remove_before(&mut self, first: u64)
        ensures kept { (other : ℕ) → Contains self.new.segments other
            ↔ (Contains self.old.segments other × (first ≤ other)) }
        ensures durable { self.new.durable_below ≡ self.old.durable_below }
    {
        self.segments.remove_before(first);
    }
}
