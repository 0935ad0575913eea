// The answer that puts a debt off.
ghost use Rattle.std.specs.Prelude.{◌≡◌};

use ledger_core::Debt;

/// A debt whose article the peer wants to be offered later. Only a connection makes one.
#[derive(Debug, Drop)]
pub struct Deferral {
    debt: Debt,
}

impl Deferral {
    pub(crate) fn new(debt: Debt) -> Self
        ensures { result.debt ≡ debt }
    {
        Deferral { debt }
    }

    pub fn debt(&self) -> &Debt
        ensures { result.now ≡ self.now.debt }
    {
        &self.debt
    }
}
