// Batches of lines whose flush was ordered.
ghost use Rattle.std.specs.Prelude.{◌≡◌, ◌<◌, ◌≤◌, ◌∷◌, ◌++◌, ◌⊎◌, []};
ghost use Rattle.std.specs.Prelude.{IfSome, IsNone, List, OnErr, OnOk, length, ℕ};
ghost use Rattle.intake.specs.Ordered.{lasts_of};

use std::alloc::{AllocError, Global};
use std::collections::VecDeque;

/// Batches of lines that are not acknowledged yet, oldest first. One leaves only if all lines up to its last one are
/// acknowledged.
#[derive(Drop)]
pub(crate) struct OrderedBatches {
    batches: VecDeque<OrderedBatch>,
}

// A batch whose flush was ordered.
#[derive(Clone, Copy)]
struct OrderedBatch {
    order: u64,
    // The number of its last line.
    last: u64,
}

impl OrderedBatches {
    /// None.
    pub fn new(alloc: Global) -> Self
        ensures { lasts_of result ≡ [] }
    {
        OrderedBatches {
            batches: VecDeque::new(alloc),
        }
    }

    /// How many there are.
    pub fn len(&self) -> usize
        ensures { result ≡ length (lasts_of self.now) }
    {
        self.batches.len()
    }

    /// The number of the order by which the oldest is flushed. `None` if there is no batch.
    pub fn oldest_order(&self) -> Option<u64>
        ensures { IsNone result → lasts_of self.now ≡ [] }
    {
        Some(self.batches.front()?.order)
    }

    /// Adds the newest batch, up to the line `last`, whose flush has this order.
    ///
    /// # Errors
    /// Memory was refused; the batches stay as they were.
    pub fn push(&mut self, order: u64, last: u64) -> Result<(), AllocError>
        ensures ok { OnOk result (lasts_of self.new ≡ lasts_of self.old ++ last ∷ []) }
        ensures unchanged { OnErr result (lasts_of self.new ≡ lasts_of self.old) }
    {
        self.batches.push_back(OrderedBatch { order, last })?;
        Ok(())
    }

    /// The flush of the oldest was ordered anew.
    pub fn order_again(&mut self, order: u64)
        ensures { lasts_of self.new ≡ lasts_of self.old }
    {
        if let Some(oldest) = self.batches.front_mut() {
            oldest.order = order;
        }
    }

    /// Takes out the oldest if its last line is at most this one, up to which all lines are acknowledged. Returns the
    /// number of that line.
    pub fn take_covered(&mut self, number: u64) -> Option<u64>
        ensures some { IfSome result (λ last.
            (last ≤ number) × (lasts_of self.old ≡ last ∷ lasts_of self.new)) }
        ensures none { IsNone result → (self.new ≡ self.old) × ((lasts_of self.old ≡ [])
            ⊎ ((last : ℕ) × (rest : List ℕ) × (lasts_of self.old ≡ last ∷ rest) × number < last)) }
    {
        let last = self.batches.front()?.last;
        if last > number {
            return None;
        }
        self.batches.pop_front();
        Some(last)
    }
}
