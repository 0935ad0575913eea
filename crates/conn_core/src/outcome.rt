// What became of a debt.
use crate::deferral::Deferral;
use crate::verdict::Verdict;
use ledger_core::{Cause, Debt};

/// What became of a debt that a connection held. Each debt taken comes out once, as one of these.
#[derive(Debug, Drop)]
pub enum Outcome {
    /// The peer answered for good.
    Final(Verdict),
    /// The peer wants it to be offered later.
    Deferred(Deferral),
    /// The article is gone (`Cause::Missing`), or its text cannot be sent (`Cause::Unsendable`).
    Lost(Debt, Cause),
    /// The connection closed first.
    Back(Debt),
}
