// The answer that ends a debt.
ghost use Rattle.std.specs.Prelude.{◌≡◌};

use ledger_core::{Debt, FinalCode};

/// A debt that the peer answered for good, and the answer. Only a connection makes one.
#[derive(Debug, Drop)]
pub struct Verdict {
    debt: Debt,
    code: FinalCode,
}

impl Verdict {
    pub(crate) fn new(debt: Debt, code: FinalCode) -> Self
        ensures debt { result.debt ≡ debt }
        ensures code { result.code ≡ code }
    {
        Verdict { debt, code }
    }

    pub fn debt(&self) -> &Debt
        ensures { result.now ≡ self.now.debt }
    {
        &self.debt
    }

    pub fn code(&self) -> FinalCode
        ensures { result ≡ self.now.code }
    {
        self.code
    }
}
