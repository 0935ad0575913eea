// What a connection counts: offers, what became of debts, the octets of articles, and that its peer agreed to a mode.
ghost use Rattle.std.specs.Prelude.{◌≡◌};
ghost use Rattle.connections.specs.Counted.{count_of, count_of_code, made_once, offered_once, sent_with};

use article_store::Found;
use conn_core::Outcome;
use ledger_core::{Cause, FinalCode};
use peer_counts::PeerCounts;

/// What became of one debt.
pub(crate) fn count_of(outcome: &Outcome) -> PeerCounts
    ensures { result ≡ count_of outcome.now }
{
    let mut one = PeerCounts::new();
    match outcome {
        Outcome::Final(verdict) => return count_of_code(verdict.code()),
        Outcome::Deferred(_) => one.deferred = 1,
        Outcome::Lost(_, Cause::Missing) => one.missing = 1,
        Outcome::Lost(_, Cause::Unsendable) => one.unsendable = 1,
        Outcome::Lost(_, Cause::Limit | Cause::Deferred) | Outcome::Back(_) => {}
    }
    one
}

// One answer that ends a debt.
fn count_of_code(code: FinalCode) -> PeerCounts
    ensures { result ≡ count_of_code code }
{
    let mut one = PeerCounts::new();
    match code {
        FinalCode::IhaveReceived | FinalCode::TakethisReceived => one.accepted = 1,
        FinalCode::IhaveNotWanted | FinalCode::CheckNotWanted => one.refused = 1,
        FinalCode::IhaveRejected | FinalCode::TakethisRejected => one.rejected = 1,
    }
    one
}

/// One debt was offered.
pub(crate) fn offered_once() -> PeerCounts
    ensures { result ≡ offered_once }
{
    let mut one = PeerCounts::new();
    one.offered = 1;
    one
}

/// The peer agreed to a mode on one connection.
pub(crate) fn made_once() -> PeerCounts
    ensures { result ≡ made_once }
{
    let mut one = PeerCounts::new();
    one.made = 1;
    one
}

/// The octets of what was found: those of an article, if it can be sent.
pub(crate) fn sent_with(found: &Found) -> PeerCounts
    ensures { result ≡ sent_with found.now }
{
    let mut one = PeerCounts::new();
    if let Found::Article(text) = found {
        one.sent_octets = text.len() as u64;
    }
    one
}
