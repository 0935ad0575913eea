// The limits of a peer's backlog.
use ledger_core::Key;

/// The limits of a peer's backlog (innfeed.conf(5): backlog-limit, backlog-limit-highwater, drop-deferred). Octets
/// count as in [`ledger_core::Totals::owed_bytes`].
#[derive(Clone, Copy, Debug, PartialEq, Eq)]
pub struct Limits {
    /// The octets that may stay owed once the backlog has been shed; 0 is no limit.
    pub backlog_limit: u64,
    /// The octets above which it is shed.
    pub backlog_high: u64,
    /// Whether a deferred debt is dropped.
    pub drop_deferred: bool,
}

/// What was shed.
#[derive(Debug, Drop)]
pub struct Shed {
    /// The keys that were dropped, rising.
    pub keys: Vec<Key>,
    /// Whether there is more to shed, for which the notes that pend left no room.
    pub more: bool,
}

/// Whether a line is newly owed, or was owed before.
#[derive(Clone, Copy, Debug, PartialEq, Eq)]
pub enum Owed {
    /// It is owed from now on.
    New,
    /// Its number is not above the mark of its source: it is owed, or was.
    Already,
}
