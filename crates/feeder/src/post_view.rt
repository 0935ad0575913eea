// A post as one feeder uses it in one turn.
ghost use Rattle.std.specs.Prelude.{◌≡◌, IfErr};
ghost use Rattle.connections.specs.Given.{IsReturned};

use crate::FeederFault;
use conn_core::{CxnId, Outcome};
use connections::GivenOutcome;
use disk_model::Disk;
use flusher::{FeederShare, Naming, Pace, Post, PostFault, Who};
use ledger_core::Debt;
use peer_queue::StationFault;
use recovery::TapeFault;
use std::sync::Wait;

/// A post that is lent to a feeder for one turn.
#[derive(Clone, Copy)]
pub(crate) struct LentPost<'a, D: Disk, N: Naming>(&'a Post<D, N>);

impl<'a, D: Disk, N: Naming> LentPost<'a, D, N> {
    pub fn new(post: &'a Post<D, N>) -> Self {
        LentPost(post)
    }
}

/// A post as one feeder uses it in one turn. A peer is named by its index at the post; a wrong index is refused.
#[derive(Clone, Copy)]
pub(crate) struct PostView<'a, D: Disk, N: Naming, P: Pace> {
    pub post: LentPost<'a, D, N>,
    pub pace: &'a P,
    pub who: Who,
    /// The time, in seconds since the run began.
    pub now: u64,
    /// Before the last stage, debts that wait up to this time are offered ([`connections::due_at`]).
    pub due: u64,
    /// Until when a missing article that is kept is put off.
    pub kept_until: u64,
    /// Whether debts are claimed: not if the run is to end.
    pub claims: bool,
    /// Whether `put_off` and `release` wait for a front that is in use; otherwise they are refused. `claim`, `finish`
    /// and `has_work` always wait for a front, `take_room` and `all_later` never do. No call waits for a tape.
    pub waits: bool,
}

impl<D: Disk, N: Naming, P: Pace> PostView<'_, D, N, P> {
    /// The least debt of the peer that is ready or waits up to `due` at most. This connection holds it from then on.
    ///
    /// # Errors
    /// The post's fault: `Busy` if only the tape has its texts, and the tape is in use. `NoPeer`.
    pub fn claim<R: Wait>(
        &self,
        rt: &R,
        peer: usize,
        connection: CxnId,
        due: u64,
    ) -> Result<Option<Debt>, FeederFault> {
        if peer >= self.post.0.peers() {
            return Err(FeederFault::NoPeer);
        }
        Ok(self.post.0.try_claim(rt, peer, connection, due)?)
    }

    /// Takes to the station what became of a debt that this connection held.
    ///
    /// # Errors
    /// The outcome comes back with the post's fault, or `NoPeer`.
    pub fn finish<R: Wait>(
        &self,
        rt: &R,
        peer: usize,
        connection: CxnId,
        given: GivenOutcome,
        share: &mut FeederShare<N>,
    ) -> Result<(), (GivenOutcome, FeederFault)>
        ensures { IfErr result (λ refused. refused.0 ≡ given) }
    {
        if peer >= self.post.0.peers() {
            return Err((given, FeederFault::NoPeer));
        }
        self.pace.turn(self.who, flusher::Place::BeforeSettle);
        let (outcome, ticket) = given.into_outcome();
        let ended = self
            .post
            .0
            .finish(rt, peer, connection, outcome, self.now, share);
        self.pace.turn(self.who, flusher::Place::AfterSettle);
        match ended {
            Ok(_) => Ok(()),
            Err((outcome, fault)) => Err((ticket.take_back(outcome), FeederFault::from(fault))),
        }
    }

    /// Puts off until this time a debt that this connection held, and gave as lost or back.
    ///
    /// # Errors
    /// The outcome comes back with the post's fault, `Busy` only if `waits` is false, or `NoPeer`.
    pub fn put_off<R: Wait>(
        &self,
        rt: &R,
        peer: usize,
        connection: CxnId,
        given: GivenOutcome,
        until: u64,
    ) -> Result<(), (GivenOutcome, FeederFault)>
        requires { IsReturned given }
        ensures { IfErr result (λ refused. refused.0 ≡ given) }
    {
        let (outcome, ticket) = given.into_outcome();
        match outcome {
            Outcome::Back(debt) => match self.put_off_debt(rt, peer, connection, debt, until) {
                Ok(()) => Ok(()),
                Err((debt, fault)) => Err((ticket.take_back(Outcome::Back(debt)), fault)),
            },
            Outcome::Lost(debt, cause) => {
                match self.put_off_debt(rt, peer, connection, debt, until) {
                    Ok(()) => Ok(()),
                    Err((debt, fault)) => {
                        let outcome = Outcome::Lost(debt, cause);
                        Err((ticket.take_back(outcome), fault))
                    }
                }
            }
            Outcome::Final(_) | Outcome::Deferred(_) => unreachable!(),
        }
    }

    // Puts off a debt.
    fn put_off_debt<R: Wait>(
        &self,
        rt: &R,
        peer: usize,
        connection: CxnId,
        debt: Debt,
        until: u64,
    ) -> Result<(), (Debt, FeederFault)>
        ensures { IfErr result (λ refused. refused.0 ≡ debt) }
    {
        if peer >= self.post.0.peers() {
            return Err((debt, FeederFault::NoPeer));
        }
        let ended = if self.waits {
            self.post.0.put_off(rt, peer, connection, debt, until)
        } else {
            self.post.0.try_put_off(peer, connection, debt, until)
        };
        match ended {
            Ok(()) => Ok(()),
            Err((debt, fault)) => Err((debt, FeederFault::from(fault))),
        }
    }

    /// Makes all debts ready that this connection held. False if the peer's front is in use and `waits` is false.
    pub fn release<R: Wait>(&self, rt: &R, peer: usize, connection: CxnId) -> bool {
        if peer >= self.post.0.peers() {
            return true;
        }
        if self.waits {
            let _ = self.post.0.release(rt, peer, connection);
            return true;
        }
        self.post.0.try_release(peer, connection).is_some()
    }

    /// Counts a connection of the peer that can hold `room` debts, if the peer is owed more debts than the connections
    /// counted so far can hold. None if its front is in use.
    pub fn take_room(&self, peer: usize, room: u64) -> Option<bool> {
        if peer >= self.post.0.peers() {
            return Some(false);
        }
        self.post.0.try_take_room(peer, room)
    }

    /// Counts `room` less.
    pub fn give_room(&self, peer: usize, room: u64) {
        if peer < self.post.0.peers() {
            self.post.0.give_room(peer, room);
        }
    }

    /// A connection of the peer failed, or agreed to a mode.
    pub fn set_failing(&self, peer: usize, is_failing: bool) {
        if peer < self.post.0.peers() {
            self.post.0.set_failing(peer, is_failing);
        }
    }

    /// Whether no debt of the peer is ready and no connection holds one. False if its front is in use.
    ///
    /// # Errors
    /// `NoPeer`.
    pub fn all_later(&self, peer: usize) -> Result<bool, FeederFault> {
        if peer >= self.post.0.peers() {
            return Err(FeederFault::NoPeer);
        }
        Ok(self.post.0.try_all_later(peer).unwrap_or(false))
    }

    /// Whether a debt of the peer is ready or a connection holds one. Waits for the peer's front.
    pub fn has_work<R: Wait>(&self, rt: &R, peer: usize) -> bool {
        peer < self.post.0.peers() && !self.post.0.all_later(rt, peer)
    }

    /// Whether the peer's front has become half full of pending notes since the last call, of either feeder.
    pub fn take_half_full(&self, peer: usize) -> bool {
        peer < self.post.0.peers() && self.post.0.take_half_full(peer)
    }

    /// One more of the peer's feeders gives the peer up. True for the last of them.
    pub fn give_up(&self, peer: usize, feeders: u64) -> bool {
        peer < self.post.0.peers() && self.post.0.give_up(peer).saturating_add(1) == feeders
    }
}

/// Whether a front was in use, or a tape that alone has a debt's texts, so that the next turn is to ask again.
pub(crate) fn is_busy(fault: FeederFault) -> bool {
    matches!(fault, FeederFault::Post(PostFault::Busy { .. }))
}

/// Whether a flush makes room for what was refused.
pub(crate) fn is_full(fault: FeederFault) -> bool {
    matches!(
        fault,
        FeederFault::Post(PostFault::Station {
            fault: StationFault::Tape(TapeFault::PendingFull),
            ..
        })
    )
}

/// Whether a peer's tape failed, which affects that peer alone.
pub(crate) fn is_of_tape(fault: FeederFault) -> bool {
    let FeederFault::Post(PostFault::Station { fault, .. }) = fault else {
        return false;
    };
    matches!(fault, StationFault::Broken | StationFault::Tape(_))
}
