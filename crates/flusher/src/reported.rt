// What is reported of a peer's station.
use ledger_core::Totals;

/// What is reported of a peer's station.
#[derive(Clone, Copy, Debug, PartialEq, Eq)]
pub struct Reported {
    /// What it counts; if a flush or a rotation of it has failed, what it counted when it was last flushed, rewritten
    /// or opened successfully.
    pub totals: Totals,
    /// Whether a flush or a rotation of it has failed, and none has succeeded since.
    pub has_failed: bool,
}
