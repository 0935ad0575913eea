// What the workers hold of the token ledgers.
//
// A token ledger is a book with a total, cut into a fixed number of parts. It is std's, and has nothing to do with
// the ledger of a tape. A `Share` is an unforgeable token that holds some of the parts and an amount; whoever adds to
// the total adds to a share's amount, and the amounts of all parts together are the total. `parts ≡ 1` says that a
// share is exactly one part: once as many such shares as the token ledger has parts have come back, nobody else can
// have counted, and their amounts are the whole total.
use crate::Naming;
use crate::naming::{AnsweredByFeeders, DroppedByFeeders, TakenByIntake};
use std::marker::Model;
use std::sync::ledger::Share;

/// What the intake has counted, each station's mark as the intake knows it, in the order of the peers, and the number
/// of the last line taken by every station it names.
#[derive(Drop)]
pub struct IntakeShare<N: Naming> {
    pub(crate) taken: Share<TakenByIntake<N>>,
    pub(crate) marks: Vec<u64>,
    pub(crate) last: u64,
}

impl<N: Naming> Model for IntakeShare<N> {
    ghost use Rattle.std.specs.Prelude.{◌≡◌, length};
    ghost use Rattle.flusher.specs.Shares.{IntakeCount};

    ghost Value = { IntakeCount };

    ghost view = { λ share. record { taken = share.taken.amount; marks = share.marks.items; last = share.last } };

    ghost invariant = { λ share. (share.taken.parts ≡ 1) × (length share.marks.items ≡ N.names.peers) };
}

/// What a feeder has counted.
#[derive(Drop)]
pub struct FeederShare<N: Naming> {
    pub(crate) answered: Share<AnsweredByFeeders<N>>,
    pub(crate) dropped: Share<DroppedByFeeders<N>>,
}

impl<N: Naming> Model for FeederShare<N> {
    ghost use Rattle.std.specs.Prelude.{◌≡◌};
    ghost use Rattle.flusher.specs.Shares.{FeederCount};

    ghost Value = { FeederCount };

    ghost view = { λ share. record { answered = share.answered.amount; dropped = share.dropped.amount } };

    ghost invariant = { λ share. (share.answered.parts ≡ 1) × (share.dropped.parts ≡ 1) };
}
