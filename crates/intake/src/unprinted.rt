// What is acknowledged and not printed yet.
ghost use Rattle.std.specs.Prelude.{◌≡◌, ◌≤◌};

use acknowledged_lines::Acknowledged;
use flusher::Receipt;

/// Lines that are acknowledged, which is not printed yet: all up to the line `last`, by a receipt that covers it.
#[derive(Drop)]
pub struct Unprinted {
    pub(crate) last: u64,
    pub(crate) receipt: Receipt,
    ghost covered: { last ≤ receipt.acknowledged.number },
}

impl Unprinted {
    /// That they are acknowledged.
    pub(crate) fn acknowledged(&self) -> Acknowledged
        ensures { result.number ≡ self.now.last }
    {
        self.receipt.acknowledged().up_to(self.last)
    }
}
