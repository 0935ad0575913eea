// Closing a post.
ghost use Rattle.std.specs.Prelude.{◌≡◌, ◌+◌, ◌≤◌, [], length};
ghost use Rattle.std.specs.Prelude.{IfErr, IfOk, OnOk};
ghost use Rattle.std.specs.Vec.{vec_capacity};
ghost use Rattle.flusher.specs.Closed.{HandsBack, IsClosed};
ghost use Rattle.flusher.specs.Faults.{IsPostEndFault};
ghost use Rattle.flusher.specs.Names.{IsTableAt};
ghost use Rattle.note_queue.specs.Folds.{Folds};
ghost use Rattle.peer_queue.specs.Front.{front_shape};

use crate::front_desk::{FrontDesk, FrontSeat};
use crate::naming::{
    AnsweredAtStations, AnsweredByFeeders, DroppedAtStations, DroppedByFeeders, TakenAtStations,
};
use crate::peer::Sums;
use crate::post::{Intake, PeerDesk};
use crate::share::{FeederShare, IntakeShare};
use crate::stray::Stray;
use crate::tally::Tally;
use crate::tape_desk::TapeDesk;
use crate::{Naming, Post, PostFault};
use disk_model::Disk;
use funnel::PeerName;
use ledger_core::Note;
use note_queue::{Joined, QUEUE_MAX_NOTES, join};
use recovery::Tape;
use std::alloc::{AllocError, Global};
use std::sync::Wait;
use std::sync::ledger::Share;

/// What was left of a peer when its post was closed, and what its station had counted when the post was made.
#[derive(Drop)]
pub struct ClosedPeer<D: Disk> {
    pub name: PeerName,
    /// Its front and its tape, a note that was kept beside the tape, and those that its queue held.
    pub ends: Joined<D>,
    /// What its station had counted when the post was made.
    pub opened: Sums,
}

/// What a post was made of, and what its workers counted.
#[derive(Drop)]
pub struct ClosedPost<D: Disk> {
    /// The peers, in the post's order.
    pub peers: Vec<ClosedPeer<D>>,
    pub intake: Tape<D>,
    /// What all workers counted.
    pub sums: Sums,
}

/// Why a post was not closed.
#[derive(Drop)]
pub enum CloseFault<D: Disk, N: Naming> {
    /// Memory was refused: everything is handed back.
    NoMemory(Unclosed<D, N>),
    /// A lock of this peer held what is another peer's. No run meets it. The peers before it are handed back, closed,
    /// with what this one's locks held; all else is let go.
    Stranger {
        /// The peers before it, in the post's order.
        closed: Vec<ClosedPeer<D>>,
        stray: Stray<D, N>,
    },
}

/// A post that was not closed, and the shares.
#[derive(Drop)]
pub struct Unclosed<D: Disk, N: Naming> {
    pub post: Post<D, N>,
    /// The intake's share.
    pub intake: IntakeShare<N>,
    /// The first feeder's share.
    pub first: FeederShare<N>,
    /// The second feeder's share.
    pub second: FeederShare<N>,
    /// The flusher's share.
    pub third: FeederShare<N>,
}

// The three token ledgers beside the stations, as they are put together again.
#[derive(Drop)]
struct Closing<N: Naming> {
    taken: Share<TakenAtStations<N>>,
    answered: Share<AnsweredAtStations<N>>,
    dropped: Share<DroppedAtStations<N>>,
}

impl<N: Naming> Closing<N> {
    // Puts together one more peer, the one at this place. Refused if one of its locks held what is another peer's.
    fn peer<D: Disk + Drop, R: Wait>(
        &mut self,
        rt: &R,
        place: usize,
        peer: PeerDesk<D, N>,
        room: Room,
    ) -> Result<ClosedPeer<D>, Stray<D, N>>
        requires tied { IsTableAt N.names.tables place peer.queue.table.shared.table_id }
        ensures name { IfOk result
            (λ closed. (closed.name ≡ peer.name) × (closed.opened ≡ peer.opened)) }
        ensures folds { IfOk result (λ closed. Folds closed.ends) }
        ensures parts { OnOk result ((self.new.taken.parts ≡ self.old.taken.parts + 1)
            × (self.new.answered.parts ≡ self.old.answered.parts + 1)
            × (self.new.dropped.parts ≡ self.old.dropped.parts + 1)) }
        ensures amounts { IfOk result (λ closed. (self.new.taken.amount
            ≡ self.old.taken.amount + (front_shape closed.ends.front).taken)
            × (self.new.answered.amount
            ≡ self.old.answered.amount + (front_shape closed.ends.front).answered)
            × (self.new.dropped.amount
            ≡ self.old.dropped.amount + (front_shape closed.ends.front).dropped)) }
        ensures stray { IfErr result (λ stray. stray.place ≡ place) }
    {
        let PeerDesk {
            name,
            opened,
            queue,
            front,
            tape,
            ..
        } = peer;
        let front = front.into_inner();
        let tape = tape.into_inner();
        if front.seat.place != place || tape.place != place {
            return Err(Stray { place, front, tape });
        }
        let FrontDesk {
            seat,
            taken,
            answered,
            dropped,
            ..
        } = front;
        let FrontSeat { sender, .. } = seat;
        let TapeDesk { side, .. } = tape;
        self.taken.merge(taken);
        self.answered.merge(answered);
        self.dropped.merge(dropped);
        let Room { notes, .. } = room;
        Ok(ClosedPeer {
            name,
            ends: join(rt, &queue, sender, side, notes),
            opened,
        })
    }
}

impl<D: Disk + Drop, N: Naming> Post<D, N> {
    /// Closes a post whose workers have ended. Returns each peer's front and tape, with the notes that were on their
    /// way between them; the intake tape; and what the workers counted, which is by how much the stations' counts have
    /// risen since the post was made. For each peer the tape's ledger, followed by the kept note, the queue's notes
    /// and those that were not sent, has the shape of the front's.
    ///
    /// # Errors
    /// `NoMemory`: all is handed back. `Stranger`, which no run meets: what a peer's locks held is not this peer's, and
    /// is handed back with the peers before it, which are closed.
    pub fn close<R: Wait>(
        self,
        rt: &R,
        intake: IntakeShare<N>,
        first: FeederShare<N>,
        second: FeederShare<N>,
        third: FeederShare<N>,
    ) -> Result<ClosedPost<D>, CloseFault<D, N>>
        ensures closes { IfOk result (IsClosed self intake first second third) }
        ensures returned { IfErr result (HandsBack self intake first second third) }
    {
        let Ok((mut closed, mut rooms)) = rooms(self.alloc, self.peers.len()) else {
            return Err(CloseFault::NoMemory(Unclosed {
                post: self,
                intake,
                first,
                second,
                third,
            }));
        };
        let Post {
            peers,
            intake: behind,
            taken,
            ended,
            ..
        } = self;
        let taken = taken.into_inner();
        let Tally { answered, dropped } = ended.into_inner();
        let (taken, mut takers, mut taken_at, rest_taken) = taken.parts();
        let (answered, mut answerers, mut answered_at, rest_answered) = answered.parts();
        let (dropped, mut droppers, mut dropped_at, rest_dropped) = dropped.parts();
        let mut all = Closing {
            taken: rest_taken,
            answered: rest_answered,
            dropped: rest_dropped,
        };
        let mut place = 0;
        for peer in peers {
            let Some(room) = rooms.pop() else {
                unreachable!()
            };
            let ended = match all.peer(rt, place, peer, room) {
                Ok(ended) => ended,
                Err(stray) => return Err(CloseFault::Stranger { closed, stray }),
            };
            closed.push_reserved(ended);
            place += 1;
        }
        taken_at.audit(&mut all.taken);
        answered_at.audit(&mut all.answered);
        dropped_at.audit(&mut all.dropped);
        let IntakeShare {
            taken: mut told,
            ..
        } = intake;
        takers.audit(&mut told);
        let (mut told_answered, mut told_dropped) = joined(first, second, third);
        answerers.audit(&mut told_answered);
        droppers.audit(&mut told_dropped);
        let Intake { tape } = behind.into_inner();
        Ok(ClosedPost {
            peers: closed,
            intake: tape,
            sums: Sums {
                taken,
                answered,
                dropped,
            },
        })
    }

    /// Closes the post at the end of a run, as `close` does. What is not closed is let go.
    ///
    /// # Errors
    /// `NoMemory`: memory was refused. `Stranger`, which no run meets: a lock of this peer held what is another peer's.
    pub fn end<R: Wait>(
        self,
        rt: &R,
        intake: IntakeShare<N>,
        first: FeederShare<N>,
        second: FeederShare<N>,
        third: FeederShare<N>,
    ) -> Result<ClosedPost<D>, PostFault>
        ensures closes { IfOk result (IsClosed self intake first second third) }
        ensures refuses { IfErr result (IsPostEndFault (length self.names)) }
    {
        match self.close(rt, intake, first, second, third) {
            Ok(closed) => Ok(closed),
            Err(CloseFault::NoMemory(_)) => Err(PostFault::NoMemory),
            Err(CloseFault::Stranger { stray, .. }) => Err(PostFault::Stranger {
                peer: stray.place(),
            }),
        }
    }
}

// Room for the notes that a queue may hold.
#[derive(Drop)]
struct Room {
    notes: Vec<Note>,
    ghost none: { notes.items ≡ [] },
    ghost room: { 1024 ≤ vec_capacity notes },
}

// Room for `count` peers, and for the notes of their queues.
fn rooms<D: Disk + Drop>(
    alloc: Global,
    count: usize,
) -> Result<(Vec<ClosedPeer<D>>, Vec<Room>), AllocError>
    ensures peers { IfOk result
        (λ made. (made.0.items ≡ []) × (count ≤ vec_capacity made.0)) }
    ensures rooms { IfOk result (λ made. length made.1.items ≡ count) }
{
    let mut closed = Vec::new(alloc);
    closed.reserve(count)?;
    let mut rooms = Vec::new(alloc);
    for _ in 0..count {
        let mut notes = Vec::new(alloc);
        notes.reserve(QUEUE_MAX_NOTES)?;
        rooms.push(Room { notes })?;
    }
    Ok((closed, rooms))
}

// The shares of three workers, merged.
fn joined<N: Naming>(
    first: FeederShare<N>,
    second: FeederShare<N>,
    third: FeederShare<N>,
) -> (Share<AnsweredByFeeders<N>>, Share<DroppedByFeeders<N>>)
    ensures answered { (result.0.parts ≡ 3)
        × (result.0.amount ≡ first.answered + second.answered + third.answered) }
    ensures dropped { (result.1.parts ≡ 3)
        × (result.1.amount ≡ first.dropped + second.dropped + third.dropped) }
{
    let FeederShare {
        mut answered,
        mut dropped,
    } = first;
    let FeederShare {
        answered: one,
        dropped: other,
    } = second;
    answered.merge(one);
    dropped.merge(other);
    let FeederShare {
        answered: one,
        dropped: other,
    } = third;
    answered.merge(one);
    dropped.merge(other);
    (answered, dropped)
}
