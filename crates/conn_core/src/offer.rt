// A debt that a connection did not take.
use ledger_core::Debt;
use thiserror::Error;

/// Why a debt was not taken. If several hold, the fault is `Closed` before `Busy` before `NoMemory`.
#[derive(Clone, Copy, Debug, PartialEq, Eq, Error)]
pub enum OfferFault {
    /// No mode is agreed yet, or as many debts are held as the mode allows.
    #[error("Busy")]
    Busy,
    /// The connection is closed, or was asked to quit.
    #[error("Closed")]
    Closed,
    /// Memory was refused.
    #[error("NoMemory")]
    NoMemory,
}

/// A debt that was not taken, handed back.
#[derive(Debug, Drop)]
pub struct Back {
    /// The very debt that was offered.
    pub debt: Debt,
    /// Why it was not taken.
    pub fault: OfferFault,
}
