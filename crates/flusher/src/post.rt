// A post: the stations of all peers, each split into a front and a tape, and their locks.
ghost use Rattle.std.specs.Prelude.{◌≡◌, ℕ, ◌+◌, ◌-◌, ◌<◌, ◌≤◌, ◌^◌, [], List, map};
ghost use Rattle.std.specs.Prelude.{None, length, sum_by, IfOk, IfErr, OnOk, OnErr};
ghost use Rattle.std.specs.List.{All};
ghost use Rattle.crossbeam_queue.specs.Passes.{IsPassOf, ruled_capacity, view};
ghost use Rattle.flusher.specs.Kept.{IsKept};
ghost use Rattle.flusher.specs.Names.{IsTableAt};
ghost use Rattle.flusher.specs.Post.{IsFor, View, names_of, sums_at, sums_of, total};
ghost use Rattle.flusher.specs.Sealed.{IsFlushed};
ghost use Rattle.flusher.specs.Shares.{IsUnused};
ghost use Rattle.note_queue.specs.Relay.{begun, may_pop, may_push};
ghost use Rattle.note_queue.specs.Words.{front_of, kept_of, sending, since_of, taking, tape_of};
ghost use Rattle.peer_queue.specs.Front.{IsFrontOf, IsPlaced, settled_of};
ghost use Rattle.peer_queue.specs.Words.{ledger_of, tape_of as station_tape};
ghost use Rattle.recovery.specs.Words.{ledger_of as tape_ledger};

use crate::front_desk::{FrontDesk, FrontSeat};
use crate::naming::{
    AnsweredAtStations, AnsweredByFeeders, BlankPair, BlankQueue, DroppedAtStations,
    DroppedByFeeders, TakenAtStations, TakenByIntake,
};
use crate::peer::{PostPeer, Sums, counted_at};
use crate::read_ahead::ReadAhead;
use crate::sealing::{LastTaken, TakenLine};
use crate::share::{FeederShare, IntakeShare};
use crate::tally::{Books, Tally, UncutLedger};
use crate::tape_desk::TapeDesk;
use crate::{Blanks, Naming};
use disk_model::Disk;
use funnel::PeerName;
use note_queue::{NotePass, NoteQueue};
use peer_queue::Station;
use recovery::Tape;
use std::alloc::{AllocError, Global};
use std::marker::{Model, PhantomData};
use std::snapshot::Snapshot;
use std::sync::Mutex;
use std::sync::atomic::{AtomicBool, AtomicU64};
use std::sync::ledger::Share;

// A peer of a post: its name, what its station had counted when the post was made, and what that was split into: its
// front, its tape, and the queue by which notes pass from one to the other.
#[derive(Drop)]
pub(crate) struct PeerDesk<D: Disk, N: Naming> {
    pub(crate) name: PeerName,
    pub(crate) opened: Sums,
    pub(crate) queue: NoteQueue,
    pub(crate) front: Mutex<FrontDesk<N>>,
    pub(crate) tape: Mutex<TapeDesk<D, N>>,
    // Half of the notes that may pend at the front do, and no feeder knows of it yet.
    pub(crate) half_full: AtomicBool,
    // How many feeders have given it up.
    pub(crate) given_up: AtomicU64,
    // For how many debts its counted connections have room.
    pub(crate) room: AtomicU64,
    // A connection of it failed, and none has agreed to a mode since.
    pub(crate) is_failing: AtomicBool,
    ghost size: { ruled_capacity queue ≡ 1024 },
}

// The intake tape.
#[derive(Drop)]
pub(crate) struct Intake<D: Disk> {
    pub(crate) tape: Tape<D>,
}

/// The stations of all peers, each split into a front and a tape with locks of their own; the intake tape; and two
/// tallies, of what was taken and of what has ended. Each of these three has a lock, too.
///
/// A tape is synced under its own lock, and no other lock is held meanwhile. Only the flusher waits for a tape's lock,
/// and whoever claims a debt whose texts only the tape has. Locks are taken in this order: the intake's alone;
/// a tape's, and under it, for what is read ahead, its front's; a front's, and under it a tally's.
#[derive(Drop)]
pub struct Post<D: Disk, N: Naming> {
    pub(crate) alloc: Global,
    pub(crate) peers: Vec<PeerDesk<D, N>>,
    pub(crate) intake: Mutex<Intake<D>>,
    // The last line taken by every station it names, as in the intake's share.
    pub(crate) last: LastTaken,
    // The tally of what was taken. The intake alone counts there, and waits for no feeder to do so.
    pub(crate) taken: Mutex<Books<TakenByIntake<N>, TakenAtStations<N>>>,
    // The tally of what has ended.
    pub(crate) ended: Mutex<Tally<N>>,
}

impl<D: Disk, N: Naming> Model for Post<D, N> {
    ghost Value = { View };

    ghost view = { λ p. record {
      names = map (λ q. q.name) p.peers.items;
      opened = map
          (λ q. q.opened) p.peers.items;
    } };

    ghost invariant = { λ p. (length p.peers.items ≡ N.names.peers)
        × (total (map (λ q. q.opened) p.peers.items) ≡ N.names.opened)
        × (map (λ q. q.queue.table.shared.table_id) p.peers.items ≡ N.names.tables) };
}

// A peer whose station is split, before the two ends lie under their locks.
#[derive(Drop)]
struct SplitPeer<D: Disk, N: Naming> {
    name: PeerName,
    opened: Sums,
    queue: NoteQueue,
    front: FrontDesk<N>,
    tape: TapeDesk<D, N>,
    // The station as it was, for the clauses alone.
    station: Snapshot<Station<D>>,
    ghost size: { ruled_capacity queue ≡ 1024 },
}

impl<D: Disk, N: Naming> SplitPeer<D, N> {
    ghost use Rattle.flusher.specs.Split.{IsSplitOf};

    // Puts the ends under their locks, as the split has left them.
    fn locked(self) -> PeerDesk<D, N>
        requires split { (place : ℕ) × IsSplitOf place self.station.value self.front self.tape }
        ensures name { result.name ≡ self.name }
        ensures opened { result.opened ≡ self.opened }
        ensures queue { result.queue ≡ self.queue }
    {
        let SplitPeer {
            name,
            opened,
            queue,
            front,
            tape,
            ..
        } = self;
        PeerDesk {
            name,
            opened,
            queue,
            front: Mutex::new(front),
            tape: Mutex::new(tape),
            half_full: AtomicBool::new(false),
            given_up: AtomicU64::new(0),
            room: AtomicU64::new(0),
            is_failing: AtomicBool::new(false),
        }
    }
}

// The three token ledgers beside the stations, as they are cut.
#[derive(Drop)]
struct Openings<N: Naming> {
    taken: UncutLedger<TakenAtStations<N>>,
    answered: UncutLedger<AnsweredAtStations<N>>,
    dropped: UncutLedger<DroppedAtStations<N>>,
}

impl<N: Naming> Openings<N> {
    ghost use Rattle.flusher.specs.Split.{IsSplitOf};

    // Splits the station of one more peer, at this place, and puts its two ends under their locks.
    fn desk<D: Disk + Drop>(
        &mut self,
        alloc: Global,
        peer: PostPeer<D>,
        blank: BlankQueue,
        place: usize,
    ) -> Result<PeerDesk<D, N>, AllocError>
        requires parts { (0 < self.old.taken.rest.parts) × (0 < self.old.answered.rest.parts)
            × (0 < self.old.dropped.rest.parts) }
        requires nothing { (self.old.taken.rest.amount ≡ 0) × (self.old.answered.rest.amount ≡ 0)
            × (self.old.dropped.rest.amount ≡ 0) }
        requires flushed { IsFlushed peer.station }
        requires tied { IsTableAt N.names.tables place blank.queue.table.shared.table_id }
        ensures name { IfOk result (λ desk. desk.name ≡ peer.name) }
        ensures opened { IfOk result (λ desk. desk.opened ≡ sums_at peer) }
        ensures queue { IfOk result
            (λ desk. desk.queue.table.shared.table_id ≡ blank.queue.table.shared.table_id) }
        ensures parts { OnOk result
            ((self.new.taken.rest.parts + 1 ≡ self.old.taken.rest.parts)
            × (self.new.answered.rest.parts + 1 ≡ self.old.answered.rest.parts)
            × (self.new.dropped.rest.parts + 1 ≡ self.old.dropped.rest.parts)) }
        ensures nothing { OnOk result
            ((self.new.taken.rest.amount ≡ 0) × (self.new.answered.rest.amount ≡ 0)
            × (self.new.dropped.rest.amount ≡ 0)) }
        ensures totals { IfOk result (λ desk.
            (self.new.taken.book.total ≡ self.old.taken.book.total + desk.opened.taken)
            × (self.new.answered.book.total
            ≡ self.old.answered.book.total + desk.opened.answered)
            × (self.new.dropped.book.total
            ≡ self.old.dropped.book.total + desk.opened.dropped)) }
    {
        Ok(self.split(alloc, peer, blank, place)?.locked())
    }

    // Splits the station of one more peer, at this place.
    fn split<D: Disk + Drop>(
        &mut self,
        alloc: Global,
        peer: PostPeer<D>,
        blank: BlankQueue,
        place: usize,
    ) -> Result<SplitPeer<D, N>, AllocError>
        requires parts { (0 < self.old.taken.rest.parts) × (0 < self.old.answered.rest.parts)
            × (0 < self.old.dropped.rest.parts) }
        requires nothing { (self.old.taken.rest.amount ≡ 0) × (self.old.answered.rest.amount ≡ 0)
            × (self.old.dropped.rest.amount ≡ 0) }
        requires flushed { IsFlushed peer.station }
        requires tied { IsTableAt N.names.tables place blank.queue.table.shared.table_id }
        ensures name { IfOk result (λ made. made.name ≡ peer.name) }
        ensures opened { IfOk result (λ made. made.opened ≡ sums_at peer) }
        ensures queue { IfOk result
            (λ made. made.queue.table.shared.table_id ≡ blank.queue.table.shared.table_id) }
        ensures parts { OnOk result
            ((self.new.taken.rest.parts + 1 ≡ self.old.taken.rest.parts)
            × (self.new.answered.rest.parts + 1 ≡ self.old.answered.rest.parts)
            × (self.new.dropped.rest.parts + 1 ≡ self.old.dropped.rest.parts)) }
        ensures nothing { OnOk result
            ((self.new.taken.rest.amount ≡ 0) × (self.new.answered.rest.amount ≡ 0)
            × (self.new.dropped.rest.amount ≡ 0)) }
        ensures totals { IfOk result (λ made.
            (self.new.taken.book.total ≡ self.old.taken.book.total + made.opened.taken)
            × (self.new.answered.book.total
            ≡ self.old.answered.book.total + made.opened.answered)
            × (self.new.dropped.book.total
            ≡ self.old.dropped.book.total + made.opened.dropped)) }
        ensures split { IfOk result (λ made. (made.station.value ≡ peer.station)
            × IsSplitOf place peer.station made.front made.tape) }
    {
        let PostPeer { name, station, .. } = peer;
        let BlankQueue { queue, pass, .. } = blank;
        let was = Snapshot::of(&station);
        let opened = counted_at(&station);
        let acknowledged = station.totals();
        let (seat, tape) = ends_of(&queue, pass, station, place)?;
        let front = FrontDesk {
            seat,
            taken: self.taken.cut(opened.taken),
            answered: self.answered.cut(opened.answered),
            dropped: self.dropped.cut(opened.dropped),
            acknowledged,
            has_failed: false,
            ahead: ReadAhead::new(alloc),
        };
        Ok(SplitPeer {
            name,
            opened,
            queue,
            front,
            tape,
            station: was,
        })
    }
}

// Splits a station at this place: all that is owed is at its front, nothing is held, and its tape is as it was opened.
fn ends_of<D: Disk + Drop, N: Naming>(
    queue: &NoteQueue,
    pass: NotePass,
    station: Station<D>,
    place: usize,
) -> Result<(FrontSeat<N>, TapeDesk<D, N>), AllocError>
    requires pass { IsPassOf queue.now pass × (view pass ≡ begun) }
    requires flushed { IsFlushed station }
    requires kept { ∥ IsKept station ∥₁ }
    requires tied { IsTableAt N.names.tables place queue.now.table.shared.table_id }
    ensures front { IfOk result (λ ends. IsFrontOf place station (front_of ends.0.sender)) }
    ensures tape { IfOk result (λ ends. IsPlaced place (station_tape station) (tape_of ends.1.side)
        × (kept_of ends.1.side ≡ None)
        × (since_of ends.1.side ≡ settled_of (front_of ends.0.sender))) }
    ensures passes { IfOk result (λ ends.
        (view (sending ends.0.sender) ≡ may_push (ledger_of station) [])
        × (view (taking ends.1.side) ≡ may_pop (ledger_of station) [])) }
    ensures places { IfOk result (λ ends. (ends.0.place ≡ place) × (ends.1.place ≡ place)) }
{
    let Ok((sender, side)) = note_queue::split(queue, pass, station, place) else {
        return Err(AllocError);
    };
    let seat = FrontSeat {
        place,
        sender,
        of: PhantomData,
    };
    let tape = TapeDesk {
        place,
        side,
        of: PhantomData,
    };
    Ok((seat, tape))
}

impl<D: Disk + Drop, N: Naming> Post<D, N> {
    /// A post of these peers, in byte order of their names, and of the intake tape; the intake's share; and three
    /// shares for the two feeders and the flusher. Each station is split at its peer's place.
    ///
    /// # Errors
    /// `NoMemory` if memory was refused. Nothing is handed back: the tapes have to be opened again.
    pub fn new(
        alloc: Global,
        peers: Vec<PostPeer<D>>,
        intake: Tape<D>,
        blanks: Blanks,
    ) -> Result<
        (
            Post<D, N>,
            IntakeShare<N>,
            FeederShare<N>,
            FeederShare<N>,
            FeederShare<N>,
        ),
        AllocError,
    >
        requires names { N.names ≡ names_of blanks peers.items }
        requires blanks { IsFor (length peers.items) blanks }
        requires flushed { All (λ p. IsFlushed p.station) peers.items }
        ensures post { IfOk result
            (λ r. r.0 ≡ record {
              names = map
                  (λ p. p.name) peers.items;
              opened = map sums_at peers.items;
            }) }
        ensures marks { IfOk result
            (λ r. r.1.marks ≡ map (λ p. (ledger_of p.station).mark) peers.items) }
        ensures last { IfOk result (λ r. r.1.last ≡ (tape_ledger intake).mark) }
        ensures nothing { IfOk result
            (λ r. (r.1.taken ≡ 0) × IsUnused r.2 × IsUnused r.3 × IsUnused r.4) }
    {
        let last = TakenLine::acknowledged(&intake);
        let mut made = Vec::new(alloc);
        made.reserve(peers.len())?;
        let mut marks = Vec::new(alloc);
        marks.reserve(peers.len())?;
        let Blanks {
            taken,
            answered,
            dropped,
            queues,
        } = blanks;
        let BlankPair {
            workers: taken,
            stations: taken_at,
        } = taken;
        let BlankPair {
            workers: answered,
            stations: answered_at,
        } = answered;
        let BlankPair {
            workers: dropped,
            stations: dropped_at,
        } = dropped;
        let (taken, mine) = taken.open::<TakenByIntake<N>>();
        let (answered, first_answered) = answered.open::<AnsweredByFeeders<N>>();
        let (dropped, first_dropped) = dropped.open::<DroppedByFeeders<N>>();
        let mut openings = Openings {
            taken: UncutLedger::new(taken_at),
            answered: UncutLedger::new(answered_at),
            dropped: UncutLedger::new(dropped_at),
        };
        let mut queues = queues.into_iter();
        let mut place = 0;
        for peer in peers {
            let Some(blank) = queues.next() else {
                return Err(AllocError);
            };
            marks.push_reserved(peer.station.mark());
            made.push_reserved(openings.desk(alloc, peer, blank, place)?);
            place += 1;
        }
        let (first, second, third) = thirds(first_answered, first_dropped);
        let Openings {
            taken: taken_at,
            answered: answered_at,
            dropped: dropped_at,
        } = openings;
        let ended = Tally {
            answered: answered_at.close(answered),
            dropped: dropped_at.close(dropped),
        };
        let post = Post {
            alloc,
            peers: made,
            intake: Mutex::new(Intake { tape: intake }),
            last: LastTaken::new(last),
            taken: Mutex::new(taken_at.close(taken)),
            ended: Mutex::new(ended),
        };
        Ok((
            post,
            IntakeShare {
                taken: mine,
                marks,
                last: last.number(),
            },
            first,
            second,
            third,
        ))
    }
}

// Cuts the shares of three workers, which have counted nothing.
fn thirds<N: Naming>(
    answered: Share<AnsweredByFeeders<N>>,
    dropped: Share<DroppedByFeeders<N>>,
) -> (FeederShare<N>, FeederShare<N>, FeederShare<N>)
    requires answered { (answered.parts ≡ 3) × (answered.amount ≡ 0) }
    requires dropped { (dropped.parts ≡ 3) × (dropped.amount ≡ 0) }
    ensures { IsUnused result.0 × IsUnused result.1 × IsUnused result.2 }
{
    let mut answered = answered;
    let mut dropped = dropped;
    let second = FeederShare {
        answered: answered.split_off(1, 0),
        dropped: dropped.split_off(1, 0),
    };
    let third = FeederShare {
        answered: answered.split_off(1, 0),
        dropped: dropped.split_off(1, 0),
    };
    (FeederShare { answered, dropped }, second, third)
}
