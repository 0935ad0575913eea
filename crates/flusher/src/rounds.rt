// One peer's rounds: what its front has noted goes to its tape, and is settled once it is on the disks.
ghost use Rattle.std.specs.Prelude.{◌≡◌, ◌<◌, ◌≤◌, ◌⊎◌, IfErr, IfOk, IfSome, length};
ghost use Rattle.flusher.specs.Faults.{IsPartFault, IsRoundFault};
ghost use Rattle.flusher.specs.Moments.{DeskAtSomeMoment, IsStray};
ghost use Rattle.flusher.specs.Told.{IsTold};

use crate::front_desk::FrontDesk;
use crate::pace::{Pace, Place, Who};
use crate::sealing::Settlement;
use crate::tape_desk::Flush;
use crate::{Naming, Post, PostFault};
use disk_model::Disk;
use recovery::TapeFault;
use std::sync::Wait;

impl<D: Disk, N: Naming> Post<D, N> {
    // Settles the first `count` notes of a peer's front, as its tape counts them. A fault is reported to the front
    // before it is returned.
    pub(crate) fn settle_peer<P: Pace, R: Wait>(
        &self,
        rt: &R,
        pace: &P,
        peer: usize,
        count: u64,
    ) -> Result<Settlement, PostFault>
        requires { peer < length self.now.names }
        ensures settled { IfOk result
            (λ settlement. (settlement.place ≡ peer) × (count ≤ settlement.count)) }
        ensures told { IfErr result (λ e. DeskAtSomeMoment N N.Naming peer (IsTold e)
            ⊎ IsStray N N.Naming peer e) }
        ensures kinds { IfErr result (IsPartFault peer IsRoundFault) }
    {
        match self.go_round(rt, pace, peer, count) {
            Ok(settlement) => Ok(settlement),
            Err(fault) => Err(self.report_to_front(rt, peer, fault)),
        }
    }

    // Reports to a peer's front that a flush or a rotation failed, and returns the fault. The front is cut off if a
    // disk failed, now or before. `Stranger` if its lock held another peer's front, which no run meets.
    pub(crate) fn report_to_front<R: Wait>(
        &self,
        rt: &R,
        peer: usize,
        fault: PostFault,
    ) -> PostFault
        requires { peer < length self.now.names }
        ensures told { DeskAtSomeMoment N N.Naming peer (IsTold result)
            ⊎ IsStray N N.Naming peer result }
        ensures fault { (result ≡ fault) ⊎ (result ≡ PostFault.Stranger peer) }
    {
        match self.own_front(rt, peer) {
            Ok(mut desk) => {
                fail_at(&mut desk, fault);
                fault
            }
            Err(stray) => stray,
        }
    }

    // Goes in rounds until the first `count` notes are settled. One round is enough, unless more pended than the tape
    // may have pending beside what others note meanwhile.
    fn go_round<P: Pace, R: Wait>(
        &self,
        rt: &R,
        pace: &P,
        peer: usize,
        count: u64,
    ) -> Result<Settlement, PostFault>
        requires { peer < length self.now.names }
        ensures settled { IfOk result
            (λ settlement. (settlement.place ≡ peer) × (count ≤ settlement.count)) }
        ensures kinds { IfErr result (IsPartFault peer IsRoundFault) }
    {
        let mut is_first = true;
        for _ in rt.forever() {
            self.fill(rt, peer, count)?;
            let flush = self.put(rt, pace, peer, is_first)?;
            let settlement = self.settle(rt, peer, &flush)?;
            if settlement.count() >= count {
                return Ok(settlement);
            }
            is_first = false;
        }
        unreachable!()
    }

    // Brings to a peer's tape what its front has noted, until the first `count` notes were sent, or no more may pend at
    // the tape.
    fn fill<R: Wait>(&self, rt: &R, peer: usize, count: u64) -> Result<(), PostFault>
        requires { peer < length self.now.names }
        ensures kinds { IfErr result (IsPartFault peer IsRoundFault) }
    {
        for _ in rt.forever() {
            let all_sent = self.push(rt, peer, count)?;
            let is_full = self.pull(rt, peer)?;
            if all_sent || is_full {
                return Ok(());
            }
        }
        unreachable!()
    }

    // Sends what a peer's front has not sent, and returns whether its first `count` notes are sent.
    fn push<R: Wait>(&self, rt: &R, peer: usize, count: u64) -> Result<bool, PostFault>
        requires { peer < length self.now.names }
        ensures kinds { IfErr result
            (λ e. (e ≡ PostFault.Stranger peer) ⊎ (e ≡ PostFault.NoMemory)) }
    {
        let mut desk = self.peers[peer].front.lock(rt);
        self.send(rt, peer, &mut desk)?;
        Ok(desk.has_sent(count))
    }

    // Puts on a peer's tape what was sent, and returns whether no more may pend there.
    fn pull<R: Wait>(&self, rt: &R, peer: usize) -> Result<bool, PostFault>
        requires { peer < length self.now.names }
        ensures kinds { IfErr result (IsPartFault peer IsRoundFault) }
    {
        let at = &self.peers[peer];
        let mut desk = at.tape.lock(rt);
        if desk.place != peer {
            return Err(PostFault::Stranger { peer });
        }
        match desk.pull(rt, &at.queue) {
            Ok(()) => Ok(false),
            Err(TapeFault::PendingFull) => Ok(true),
            Err(fault) => Err(PostFault::of_tape(peer, fault)),
        }
    }

    // Puts on a peer's disks what pends at its tape, under the tape's lock alone.
    fn put<P: Pace, R: Wait>(
        &self,
        rt: &R,
        pace: &P,
        peer: usize,
        is_first: bool,
    ) -> Result<Flush, PostFault>
        requires { peer < length self.now.names }
        ensures kinds { IfErr result (IsPartFault peer IsRoundFault) }
    {
        let mut desk = self.peers[peer].tape.lock(rt);
        if is_first {
            pace.turn(Who::Flusher, Place::InFlush);
        }
        match desk.flush() {
            Ok(flush) => Ok(flush),
            Err(fault) => Err(PostFault::of_tape(peer, fault)),
        }
    }

    // Settles at a peer's front what a flush has put on the disks.
    pub(crate) fn settle<R: Wait>(
        &self,
        rt: &R,
        peer: usize,
        flush: &Flush,
    ) -> Result<Settlement, PostFault>
        requires { peer < length self.now.names }
        ensures settled { IfOk result (λ settlement. (settlement.place ≡ peer)
            × (settlement.count ≡ flush.now.flushed.count)) }
        ensures kinds { IfErr result (λ e. e ≡ PostFault.Stranger peer) }
    {
        let mut desk = self.peers[peer].front.lock(rt);
        if desk.seat.place != peer {
            return Err(PostFault::Stranger { peer });
        }
        match desk.learn(flush) {
            Some(settlement) => Ok(settlement),
            None => Err(PostFault::Stranger { peer }),
        }
    }
}

// Tells a front that a flush or a rotation of its tape failed.
fn fail_at<N: Naming>(desk: &mut FrontDesk<N>, fault: PostFault)
    ensures { IsTold fault desk.old desk.new }
{
    desk.fail(fault.has_broken());
}
