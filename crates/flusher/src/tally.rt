// The books of the token ledgers (what those are is said in share.rt).
ghost use Rattle.std.specs.Prelude.{◌≡◌, ℕ, ◌+◌, ◌-◌, ◌^◌, ◌<◌, ◌≤◌, IsTrue, ◌↔◌};
ghost use Rattle.std.specs.Prelude.{◌⊎◌};
ghost use Rattle.flusher.specs.Counted.{Counts, answered_by, dropped_by};
ghost use Rattle.flusher.specs.Room.{IsCountFull};

use crate::Naming;
use crate::naming::{
    AnsweredAtStations, AnsweredByFeeders, AtStations, DroppedAtStations, DroppedByFeeders,
};
use crate::share::FeederShare;
use peer_queue::Settled;
use recovery::PENDING_MAX_NOTES;
use std::marker::Model;
use std::sync::ledger::{Blank, Book, Ledger, Share};

// The most that one call counts: a station sheds no more than may pend.
const COUNTED_MAX_NOTES: u64 = PENDING_MAX_NOTES as u64;

/// The books of one count: that of the workers, and that of the stations.
#[derive(Drop)]
pub struct Books<W: Ledger, S: AtStations> {
    count: u64,
    workers: Book<W>,
    stations: Book<S>,
    // What is left of the stations' token ledger: no part of it.
    rest: Share<S>,
}

impl<W: Ledger, S: AtStations> Model for Books<W, S> {
    ghost Value = { ℕ };

    ghost view = { λ b. b.count };

    ghost invariant = { λ b. (b.workers.total ≡ b.count) × (b.stations.total ≡ S.opened + b.workers.total)
        × (b.rest.parts ≡ 0) × (b.rest.amount ≡ 0) };
}

impl<W: Ledger, S: AtStations> Books<W, S> {
    /// Whether there is no room for what one call may count.
    pub fn is_full(&self) -> bool
        ensures { IsTrue result ↔ IsCountFull self.now }
    {
        self.count >= u64::MAX - COUNTED_MAX_NOTES
    }

    /// Adds `more` to the count, in a worker's share and in a station's.
    pub fn count(&mut self, worker: &mut Share<W>, station: &mut Share<S>, more: u64)
        requires parts { (0 < worker.old.parts) × (0 < station.old.parts) }
        requires room { self.old + more < 2 ^ 64 }
        ensures count { self.new ≡ self.old + more }
        ensures worker { (worker.new.amount ≡ worker.old.amount + more)
            × (worker.new.parts ≡ worker.old.parts) }
        ensures station { (station.new.amount ≡ station.old.amount + more)
            × (station.new.parts ≡ station.old.parts) }
    {
        let Books {
            count,
            workers,
            stations,
            rest: _,
        } = self;
        workers.add(worker, more);
        stations.add(station, more);
        *count += more;
    }

    /// Takes `less` back from the count, from a worker's share and from a station's.
    pub fn take_back(&mut self, worker: &mut Share<W>, station: &mut Share<S>, less: u64)
        requires amounts { (less ≤ worker.old.amount) × (less ≤ station.old.amount) }
        ensures count { self.new + less ≡ self.old }
        ensures worker { (worker.new.amount + less ≡ worker.old.amount)
            × (worker.new.parts ≡ worker.old.parts) }
        ensures station { (station.new.amount + less ≡ station.old.amount)
            × (station.new.parts ≡ station.old.parts) }
    {
        let Books {
            count,
            workers,
            stations,
            rest: _,
        } = self;
        workers.sub(worker, less);
        stations.sub(station, less);
        *count -= less;
    }
}

/// The books of what has ended.
#[derive(Drop)]
pub struct Tally<N: Naming> {
    pub answered: Books<AnsweredByFeeders<N>, AnsweredAtStations<N>>,
    pub dropped: Books<DroppedByFeeders<N>, DroppedAtStations<N>>,
}

impl<N: Naming> Tally<N> {
    /// Whether there is room for whatever becomes of a debt.
    pub fn has_room(&self) -> bool
        ensures { IsTrue result
            ↔ (IsCountFull self.now.answered ⊎ IsCountFull self.now.dropped → ⊥) }
    {
        !self.answered.is_full() && !self.dropped.is_full()
    }

    /// Counts what became of a debt, in a feeder's share and in its station's.
    pub fn count(
        &mut self,
        feeder: &mut FeederShare<N>,
        answered: &mut Share<AnsweredAtStations<N>>,
        dropped: &mut Share<DroppedAtStations<N>>,
        settled: Settled,
    )
        requires parts { (answered.old.parts ≡ 1) × (dropped.old.parts ≡ 1) }
        requires room { (self.old.answered + 1 < 2 ^ 64) × (self.old.dropped + 1 < 2 ^ 64) }
        ensures feeder { Counts settled feeder.old feeder.new }
        ensures answered { (answered.new.parts ≡ 1)
            × (answered.new.amount ≡ answered.old.amount + answered_by settled) }
        ensures dropped { (dropped.new.parts ≡ 1)
            × (dropped.new.amount ≡ dropped.old.amount + dropped_by settled) }
    {
        match settled {
            Settled::Answered(_) => self.answered.count(&mut feeder.answered, answered, 1),
            Settled::Dropped(_) => self.dropped.count(&mut feeder.dropped, dropped, 1),
            Settled::Later(_) | Settled::Ready => {}
        }
    }

    /// Takes back what `count` has counted.
    pub fn take_back(
        &mut self,
        feeder: &mut FeederShare<N>,
        answered: &mut Share<AnsweredAtStations<N>>,
        dropped: &mut Share<DroppedAtStations<N>>,
        settled: Settled,
    )
        requires parts { (answered.old.parts ≡ 1) × (dropped.old.parts ≡ 1) }
        requires feeder { (answered_by settled ≤ feeder.old.answered)
            × (dropped_by settled ≤ feeder.old.dropped) }
        requires station { (answered_by settled ≤ answered.old.amount)
            × (dropped_by settled ≤ dropped.old.amount) }
        ensures feeder { Counts settled feeder.new feeder.old }
        ensures answered { (answered.new.parts ≡ 1)
            × (answered.new.amount + answered_by settled ≡ answered.old.amount) }
        ensures dropped { (dropped.new.parts ≡ 1)
            × (dropped.new.amount + dropped_by settled ≡ dropped.old.amount) }
    {
        match settled {
            Settled::Answered(_) => self.answered.take_back(&mut feeder.answered, answered, 1),
            Settled::Dropped(_) => self.dropped.take_back(&mut feeder.dropped, dropped, 1),
            Settled::Later(_) | Settled::Ready => {}
        }
    }
}

/// A token ledger of the stations, while parts are cut off it.
#[derive(Drop)]
pub struct UncutLedger<S: AtStations> {
    book: Book<S>,
    rest: Share<S>,
}

impl<S: AtStations> UncutLedger<S> {
    /// All of it.
    pub fn new(blank: Blank) -> UncutLedger<S>
        requires { (blank.name ≡ S.name) × (blank.parts ≡ S.parts) }
        ensures { (result.book.total ≡ 0) × (result.rest.parts ≡ S.parts)
            × (result.rest.amount ≡ 0) }
    {
        let (book, rest) = blank.open::<S>();
        UncutLedger { book, rest }
    }

    /// One part of it, which has this amount.
    pub fn cut(&mut self, amount: u64) -> Share<S>
        requires { (0 < self.old.rest.parts) × (self.old.rest.amount ≡ 0) }
        ensures share { (result.parts ≡ 1) × (result.amount ≡ amount) }
        ensures rest { (self.new.rest.parts + 1 ≡ self.old.rest.parts)
            × (self.new.rest.amount ≡ 0) }
        ensures total { self.new.book.total ≡ self.old.book.total + amount }
    {
        let UncutLedger { book, rest } = self;
        let mut share = rest.split_off(1, 0);
        book.add(&mut share, amount);
        share
    }

    /// Makes the books, once every part is cut off.
    pub fn close<W: Ledger>(self, workers: Book<W>) -> Books<W, S>
        requires cut { (self.rest.parts ≡ 0) × (self.rest.amount ≡ 0) }
        requires total { self.book.total ≡ S.opened }
        requires workers { workers.total ≡ 0 }
        ensures { result ≡ 0 }
    {
        let UncutLedger { book, rest } = self;
        Books {
            count: 0,
            workers,
            stations: book,
            rest,
        }
    }
}

impl<W: Ledger, S: AtStations> Books<W, S> {
    /// Takes the books apart: what was counted, and the three tokens.
    pub fn parts(self) -> (u64, Book<W>, Book<S>, Share<S>)
        ensures count { (result.0 ≡ self) × (result.1.total ≡ self) }
        ensures stations { result.2.total ≡ S.opened + self }
        ensures rest { (result.3.parts ≡ 0) × (result.3.amount ≡ 0) }
    {
        let Books {
            count,
            workers,
            stations,
            rest,
        } = self;
        (count, workers, stations, rest)
    }
}
