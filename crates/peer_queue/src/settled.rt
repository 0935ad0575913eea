// What becomes of a debt that a connection held.
ghost use Rattle.std.specs.Prelude.{◌≡◌, ℕ};
ghost use Rattle.peer_queue.specs.DebtPlace.{deferred_until};
ghost use Rattle.peer_queue.specs.Settled.{deferred_as, key_in, settled_by};

use crate::Limits;
use conn_core::Outcome;
use ledger_core::{Cause, FinalCode, Key};

/// What became of a debt by its connection's outcome.
#[derive(Clone, Copy, Debug, PartialEq, Eq)]
pub enum Settled {
    /// The peer answered for good, and it is owed no more.
    Answered(FinalCode),
    /// It was dropped, and is owed no more.
    Dropped(Cause),
    /// It was deferred, and waits until this moment.
    Later(u64),
    /// It came back, and is ready.
    Ready,
}

impl Settled {
    /// What becomes of a debt by its outcome, at this moment, at a station of these limits.
    pub fn by(outcome: &Outcome, limits: Limits, now: u64) -> Self
        ensures { result ≡ settled_by limits now outcome.now }
    {
        match outcome {
            Outcome::Final(verdict) => Settled::Answered(verdict.code()),
            Outcome::Deferred(_) => Settled::deferred(limits, now),
            Outcome::Lost(_, cause) => Settled::Dropped(*cause),
            Outcome::Back(_) => Settled::Ready,
        }
    }

    // What becomes of a deferred debt: it is dropped if the limits say so, and otherwise waits.
    pub(crate) fn deferred(limits: Limits, now: u64) -> Self
        ensures { result ≡ deferred_as limits.drop_deferred now }
    {
        if limits.drop_deferred {
            Settled::Dropped(Cause::Deferred)
        } else {
            Settled::Later(deferred_until(now))
        }
    }
}

/// The key of the debt that an outcome is about.
pub fn key_in(outcome: &Outcome) -> Key
    ensures { result ≡ key_in outcome.now }
{
    match outcome {
        Outcome::Final(verdict) => verdict.debt().key(),
        Outcome::Deferred(deferral) => deferral.debt().key(),
        Outcome::Lost(debt, _) => debt.key(),
        Outcome::Back(debt) => debt.key(),
    }
}

/// The moment until which a debt waits that is deferred at this one: 60 seconds later, or the last moment there is.
pub fn deferred_until(now: u64) -> u64
    ensures { result ≡ deferred_until now }
{
    now.saturating_add(60)
}
