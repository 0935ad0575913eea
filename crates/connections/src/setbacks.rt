// The debts of a peer at which connections failed.
ghost use Rattle.std.specs.Prelude.{◌≡◌, ◌≤◌, ◌↔◌, IfSome, IsNone, IsSome, false, true};

use ledger_core::Key;
use std::alloc::Global;
use std::collections::BTreeMap;

// How long a debt is put off the first time.
const WAIT_MIN_SECONDS: u64 = 60;

const WAIT_MAX_SECONDS: u64 = 3_600;

const DEBTS_MAX: usize = 4_096;

/// How a connection failed at a debt.
#[derive(Clone, Copy, Debug, PartialEq, Eq)]
pub(crate) enum Failure {
    /// The debt is the likely cause: its command was the first without an answer when a reply came that answers
    /// nothing, or its article could not be read.
    AtDebt,
    /// It broke while the debt's command was the first without an answer, which may be by chance.
    Broke,
}

// The failures at one debt.
#[derive(Drop)]
struct Setback {
    // A connection broke at it.
    has_broken: bool,
    // How long it was put off last, in seconds: 0 if it was not.
    wait: u64,
}

/// The debts of a peer at which connections failed in this run, of which the 4,096 latest are remembered.
#[derive(Drop)]
pub struct Setbacks {
    debts: BTreeMap<Key, Setback>,
}

impl Setbacks {
    pub fn new(alloc: Global) -> Self {
        Setbacks {
            debts: BTreeMap::new(alloc),
        }
    }

    /// A connection failed at the debt of this key. Returns for how many seconds the debt is to be put off, twice as
    /// long each time, or None if it is not to be. If a debt cannot be remembered, each failure counts as its first.
    pub(crate) fn wait_after(&mut self, key: Key, failure: Failure) -> Option<u64>
        ensures at_debt { failure ≡ Failure.AtDebt → IsSome result }
        ensures within { IfSome result (λ wait. (60 ≤ wait) × (wait ≤ 3600)) }
    {
        match self.debts.get_mut(&key) {
            Some(setback) => setback.wait_after(failure),
            None => self.first_wait(key, failure),
        }
    }

    fn first_wait(&mut self, key: Key, failure: Failure) -> Option<u64>
        ensures at_debt { failure ≡ Failure.AtDebt → IsSome result }
        ensures broke { failure ≡ Failure.Broke → IsNone result }
        ensures within { IfSome result (λ wait. (60 ≤ wait) × (wait ≤ 3600)) }
    {
        let mut setback = Setback::new();
        let wait = setback.wait_after(failure);
        if self.debts.len() >= DEBTS_MAX {
            // The oldest: it may have ended without this feeder's knowledge.
            let _ = self.debts.pop_first();
        }
        let _ = self.debts.insert(key, setback);
        wait
    }

    /// The debt of this key has ended.
    pub fn forget(&mut self, key: Key) {
        let _ = self.debts.remove(&key);
    }
}

impl Setback {
    fn new() -> Self
        ensures { result.has_broken ≡ false }
    {
        Setback {
            has_broken: false,
            wait: 0,
        }
    }

    fn wait_after(&mut self, failure: Failure) -> Option<u64>
        ensures none { IsNone result
            ↔ ((failure ≡ Failure.Broke) × (self.old.has_broken ≡ false)) }
        ensures within { IfSome result (λ wait. (60 ≤ wait) × (wait ≤ 3600)) }
        ensures remembers { failure ≡ Failure.Broke → self.new.has_broken ≡ true }
    {
        let is_first_break = failure == Failure::Broke && !self.has_broken;
        if is_first_break {
            self.has_broken = true;
            return None;
        }
        self.wait = self
            .wait
            .saturating_mul(2)
            .clamp(WAIT_MIN_SECONDS, WAIT_MAX_SECONDS);
        Some(self.wait)
    }
}
