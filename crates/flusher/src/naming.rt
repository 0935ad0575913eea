// The six token ledgers, two for each of taken, answered and dropped, and the queues of the peers.
ghost use Rattle.std.specs.Prelude.{◌≡◌, ◌+◌, ◌≤◌, ℕ, IfOk, length};
ghost use Rattle.std.specs.Vec.{vec_capacity};
ghost use Rattle.crossbeam_queue.specs.Passes.{IsPassOf, ruled_capacity, view};
ghost use Rattle.flusher.specs.Names.{Names};
ghost use Rattle.note_queue.specs.Relay.{begun};

use note_queue::{NotePass, NoteQueue};
use std::alloc::{AllocError, Global};
use std::marker::{Brand, PhantomData};
use std::sync::ledger::{Blank, Ledger};

/// Names the token ledgers and the queues of one `Post`.
pub trait Naming {
    ghost use Rattle.flusher.specs.Names.{Names};

    ghost names: { Names };
}

impl Naming for Brand {
    ghost use Rattle.flusher.specs.Names.{no_names};

    ghost names = { no_names };
}

/// A token ledger whose shares lie beside the stations.
pub trait AtStations: Ledger {
    /// What the stations had counted when it was opened.
    ghost opened: { ℕ };
}

/// How many debts the intake counts as taken: one share.
pub struct TakenByIntake<N: Naming>(PhantomData<N>);

impl<N: Naming> Ledger for TakenByIntake<N> {
    ghost name = { N.names.taken.workers };

    ghost parts = { 1 };
}

/// How many debts the stations have taken: a share beside each.
pub struct TakenAtStations<N: Naming>(PhantomData<N>);

impl<N: Naming> Ledger for TakenAtStations<N> {
    ghost name = { N.names.taken.stations };

    ghost parts = { N.names.peers };
}

impl<N: Naming> AtStations for TakenAtStations<N> {
    ghost opened = { N.names.opened.taken };
}

/// How many debts the feeders count as answered: three shares.
pub struct AnsweredByFeeders<N: Naming>(PhantomData<N>);

impl<N: Naming> Ledger for AnsweredByFeeders<N> {
    ghost name = { N.names.answered.workers };

    ghost parts = { 3 };
}

/// How many debts the stations have answered: a share beside each.
pub struct AnsweredAtStations<N: Naming>(PhantomData<N>);

impl<N: Naming> Ledger for AnsweredAtStations<N> {
    ghost name = { N.names.answered.stations };

    ghost parts = { N.names.peers };
}

impl<N: Naming> AtStations for AnsweredAtStations<N> {
    ghost opened = { N.names.opened.answered };
}

/// How many debts the feeders count as dropped: three shares.
pub struct DroppedByFeeders<N: Naming>(PhantomData<N>);

impl<N: Naming> Ledger for DroppedByFeeders<N> {
    ghost name = { N.names.dropped.workers };

    ghost parts = { 3 };
}

/// How many debts the stations have dropped: a share beside each.
pub struct DroppedAtStations<N: Naming>(PhantomData<N>);

impl<N: Naming> Ledger for DroppedAtStations<N> {
    ghost name = { N.names.dropped.stations };

    ghost parts = { N.names.peers };
}

impl<N: Naming> AtStations for DroppedAtStations<N> {
    ghost opened = { N.names.opened.dropped };
}

/// An unused token ledger of the workers, and one of the stations.
#[derive(Drop)]
pub struct BlankPair {
    pub workers: Blank,
    pub stations: Blank,
}

/// The queue of a peer to which nothing was sent yet, and its pass, which may push and pop.
#[derive(Drop)]
pub struct BlankQueue {
    pub queue: NoteQueue,
    pub pass: NotePass,
    ghost room: { ruled_capacity queue ≡ 1024 },
    ghost tied: { IsPassOf queue pass },
    ghost whole: { view pass ≡ begun },
}

/// The six token ledgers, unused, and a queue for each peer.
#[derive(Drop)]
pub struct Blanks {
    pub taken: BlankPair,
    pub answered: BlankPair,
    pub dropped: BlankPair,
    pub queues: Vec<BlankQueue>,
}

impl BlankPair {
    fn new(workers: u64, stations: u64) -> BlankPair
        ensures { (result.workers.parts ≡ workers) × (result.stations.parts ≡ stations) }
    {
        BlankPair {
            workers: Blank::new(workers),
            stations: Blank::new(stations),
        }
    }
}

impl Blanks {
    ghost use Rattle.flusher.specs.Post.{IsFor};

    /// Token ledgers and queues for that many peers.
    ///
    /// # Errors
    /// `NoMemory` if memory was refused.
    pub fn new(alloc: Global, peers: usize) -> Result<Blanks, AllocError>
        ensures { IfOk result (IsFor peers) }
    {
        let queues = queues(alloc, peers)?;
        let stations = peers as u64;
        Ok(Blanks {
            taken: BlankPair::new(1, stations),
            answered: BlankPair::new(3, stations),
            dropped: BlankPair::new(3, stations),
            queues,
        })
    }
}

// `count` new queues, with nothing in them.
fn queues(alloc: Global, count: usize) -> Result<Vec<BlankQueue>, AllocError>
    ensures { IfOk result (λ queues. length queues.items ≡ count) }
{
    let mut queues = Vec::new(alloc);
    for _ in 0..count {
        let (queue, pass) = note_queue::queue(alloc)?;
        queues.push(BlankQueue { queue, pass })?;
    }
    Ok(queues)
}
