// Articles that are not in the spool: whether they are dropped, or kept because the spool may be the wrong one.
ghost use Rattle.std.specs.Prelude.{◌≡◌, ◌+◌, ◌-◌, ◌^◌, ℕ, [], Some, None, OnErr, OnOk};
ghost use Rattle.std.specs.Prelude.{false, true, length, min, nat_le};
ghost use Rattle.std.specs.List.{list_all};
ghost use Rattle.connections.specs.Missing.{IsForReturned, has_token, is_hex_digit, is_kept, is_of_storage_api};
ghost use Rattle.connections.specs.Missing.{step_of, tokens_with};

use conn_core::Outcome;
use funnel::Token;
use ledger_core::Cause;
use std::alloc::{AllocError, Global};

// How long a missing article that is kept is put off before the last phase.
const KEPT_WAIT_SECONDS: u64 = 60;

// If so many different articles are missing and none was found, the spool is told.
const TOKENS_MAX: usize = 20;

/// What to do about an outcome.
#[derive(Clone, Copy)]
pub enum OutcomeStep {
    /// It goes to the station as it is.
    Finish,
    /// Its debt is put off until this moment, because the connection failed at it.
    PutOff(u64),
    /// Its debt is put off, because its article is missing and kept.
    Keep,
}

/// What to do about an outcome, if the connection failed at its debt, which is then to be put off until `postponed`.
/// A missing article that is kept is put off, and any other that is missing goes to the station as lost, which drops
/// it.
pub fn step_of(
    outcome: &Outcome,
    postponed: Option<u64>,
    has_found: bool,
    drops_missing: bool,
) -> OutcomeStep
    ensures step { result ≡ step_of outcome.now postponed has_found drops_missing }
    ensures returned { IsForReturned outcome.now result }
{
    match (outcome, postponed) {
        (Outcome::Lost(debt, Cause::Missing), _) => {
            if is_kept(debt.token(), has_found, drops_missing) {
                OutcomeStep::Keep
            } else {
                OutcomeStep::Finish
            }
        }
        (Outcome::Back(_), Some(until)) => OutcomeStep::PutOff(until),
        _ => OutcomeStep::Finish,
    }
}

/// Whether a missing article is kept: its token is one of INN's storage API, no article of the run was found yet, and
/// the run was not asked to drop all that are missing.
pub(crate) fn is_kept(token: &Token, has_found: bool, drops_missing: bool) -> bool
    ensures { result ≡ is_kept token.now has_found drops_missing }
{
    !has_found && !drops_missing && is_of_storage_api(token)
}

// Whether a token has the form of those of INN's storage API: `@`, 36 hexadecimal digits, `@`.
fn is_of_storage_api(token: &Token) -> bool
    ensures { result ≡ is_of_storage_api token.now }
{
    let octets = token.bytes();
    octets.len() == 38 && octets[0] == b'@' && octets[37] == b'@' && are_digits(&octets[1..37])
}

fn are_digits(octets: &[u8]) -> bool
    ensures { result ≡ list_all is_hex_digit octets.now }
{
    octets.iter().all(|octet| octet.is_ascii_hexdigit())
}

/// Up to when debts that wait are offered. In the last phase this is the moment at which the phase began, so that what
/// is deferred in the phase is not offered again in it; or a second more, once an article was found, so that what was
/// put off as missing until then is.
pub fn due_at(now: u64, last_phase_since: Option<u64>, has_found: bool) -> u64
    ensures before { last_phase_since ≡ None → result ≡ now }
    ensures none_found { (since : ℕ) → last_phase_since ≡ Some since → has_found ≡ false
        → result ≡ since }
    ensures found { (since : ℕ) → last_phase_since ≡ Some since → has_found ≡ true
        → result ≡ min (since + 1) (2 ^ 64 - 1) }
{
    match last_phase_since {
        Some(since) => since.saturating_add(u64::from(has_found)),
        None => now,
    }
}

/// Until when a missing article that is kept is put off: for a minute, and in the last phase until an article was found
/// ([`due_at`]).
pub fn kept_until(now: u64, last_phase_since: Option<u64>) -> u64
    ensures before { last_phase_since ≡ None → result ≡ min (now + 60) (2 ^ 64 - 1) }
    ensures in_last_phase { (since : ℕ) → last_phase_since ≡ Some since
        → result ≡ min (since + 1) (2 ^ 64 - 1) }
{
    match last_phase_since {
        Some(since) => since.saturating_add(1),
        None => now.saturating_add(KEPT_WAIT_SECONDS),
    }
}

/// The first 20 different articles that were missing while none had been found.
#[derive(Drop)]
pub(crate) struct MissingTokens {
    tokens: Vec<Token>,
}

impl MissingTokens {
    pub fn new(alloc: Global) -> Self
        ensures { result.tokens.items ≡ [] }
    {
        MissingTokens {
            tokens: Vec::new(alloc),
        }
    }

    /// Adds one, unless it is among them or there are 20.
    ///
    /// # Errors
    /// Memory was refused: nothing has changed.
    pub fn add(&mut self, token: &Token) -> Result<(), AllocError>
        ensures ok { OnOk result
            (self.new.tokens.items ≡ tokens_with token.now self.old.tokens.items) }
        ensures unchanged { OnErr result (self.new.tokens.items ≡ self.old.tokens.items) }
    {
        if self.is_full() || self.has(token) {
            return Ok(());
        }
        let token = token.clone()?;
        self.tokens.push(token)?;
        Ok(())
    }

    fn has(&self, token: &Token) -> bool
        ensures { result ≡ has_token token.now self.now.tokens.items }
    {
        self.tokens.iter().any(|one| one.bytes() == token.bytes())
    }

    /// How many they are.
    pub fn count(&self) -> usize
        ensures { result ≡ length self.now.tokens.items }
    {
        self.tokens.len()
    }

    /// Whether they are 20.
    pub fn is_full(&self) -> bool
        ensures { result ≡ nat_le 20 (length self.now.tokens.items) }
    {
        self.tokens.len() >= TOKENS_MAX
    }
}
