// What a front's lock keeps.
ghost use Rattle.std.specs.Prelude.{◌≡◌, ◌+◌};
ghost use Rattle.flusher.specs.Names.{IsTableAt};
ghost use Rattle.note_queue.specs.Words.{front_of, sending};
ghost use Rattle.peer_queue.specs.Front.{front_shape};

use crate::fault::TakeFault;
use crate::naming::{
    AnsweredAtStations, DroppedAtStations, DroppedByFeeders, TakenAtStations, TakenByIntake,
};
use crate::read_ahead::ReadAhead;
use crate::sealing::Settlement;
use crate::share::FeederShare;
use crate::tally::{Books, Tally};
use crate::tape_desk::{Flush, ReadDebts};
use crate::{Naming, Reported};
use conn_core::{CxnId, Outcome};
use crossbeam_queue::RuledArrayQueue;
use funnel::FunnelLine;
use ledger_core::{Debt, Key, Note, Totals};
use note_queue::{PassLog, Relays, Sender};
use peer_queue::{Owed, Settled, Shed, StationFault};
use recovery::PENDING_MAX_NOTES;
use std::alloc::AllocError;
use std::marker::PhantomData;
use std::sync::ledger::Share;
use std::sync::{Mutex, MutexGuard, Wait};

/// A front with the pass by which it sends.
#[derive(Drop)]
pub struct FrontSeat<N: Naming> {
    // Its place among the peers.
    pub(crate) place: usize,
    pub(crate) sender: Sender,
    pub(crate) of: PhantomData<N>,
    ghost tied: { IsTableAt N.names.tables place (sending sender).table_id },
}

/// A front, and its shares of what the stations have counted.
#[derive(Drop)]
pub struct FrontDesk<N: Naming> {
    pub(crate) seat: FrontSeat<N>,
    pub(crate) taken: Share<TakenAtStations<N>>,
    pub(crate) answered: Share<AnsweredAtStations<N>>,
    pub(crate) dropped: Share<DroppedAtStations<N>>,
    // What its tape counted when it was last flushed, rewritten or opened successfully.
    pub(crate) acknowledged: Totals,
    // A flush or a rotation has failed since.
    pub(crate) has_failed: bool,
    // Debts that were read from its tape before they were claimed.
    pub(crate) ahead: ReadAhead,
    // Each share is exactly one part of its token ledger.
    ghost one_part: { (taken.parts ≡ 1) × (answered.parts ≡ 1) × (dropped.parts ≡ 1) },
    ghost counted: { (taken.amount ≡ (front_shape (front_of seat.sender)).taken)
        × (answered.amount ≡ (front_shape (front_of seat.sender)).answered)
        × (dropped.amount ≡ (front_shape (front_of seat.sender)).dropped) },
    ghost sum: { acknowledged.taken ≡ acknowledged.owed + acknowledged.answered + acknowledged.dropped },
}

/// What a claim found.
#[derive(Drop)]
pub(crate) enum Claimed {
    /// There is no candidate.
    Nothing,
    /// The debt, whose texts the front has.
    Debt(Debt),
    /// The debt, which was read from the tape before.
    ReadBefore(Debt),
    /// The tape alone has the texts of this key.
    OnTape(Key),
}

/// The copy of a note was refused memory: that note, and all after it, stay unsent. Only a front that sends makes one.
#[derive(Clone, Copy)]
pub(crate) struct NoCopy {
    of: AllocError,
}

impl<N: Naming> FrontDesk<N> {
    ghost use Rattle.std.specs.Prelude.{◌≢◌, ◌⊎◌, ◌-◌, ◌<◌, ◌≤◌, ◌^◌, ◌↔◌, []};
    ghost use Rattle.std.specs.Prelude.{true, false, min};
    ghost use Rattle.std.specs.Prelude.{IfErr, IfOk, IfSome, IsNone, IsSome, IsTrue, OnErr, OnOk};
    ghost use Rattle.std.specs.Prelude.{filter, nat_lt, take};
    ghost use Rattle.std.specs.List.{All};
    ghost use Rattle.std.specs.Sync.Mutex.{mutex_guard_value};
    ghost use Rattle.crossbeam_queue.specs.Passes.{ruled_capacity, view};
    ghost use Rattle.flusher.specs.Ahead.{gone_on, kept_with, wanted_behind};
    ghost use Rattle.flusher.specs.Claims.{Claims, GivesBack, Unclaims};
    ghost use Rattle.flusher.specs.Counted.{FinishesAndCounts, ShedsAndCounts};
    ghost use Rattle.flusher.specs.Faults.{IsPutOffFault};
    ghost use Rattle.flusher.specs.ReadAhead.{LetsGo, Uses, end_in, kept_in};
    ghost use Rattle.flusher.specs.Refuses.{RefusesClaim, RefusesOutcome, RefusesShed};
    ghost use Rattle.flusher.specs.Reports.{KeepsReport};
    ghost use Rattle.flusher.specs.Sealed.{HasSettled};
    ghost use Rattle.flusher.specs.Sent.{NotesNothing, SendsNothing};
    ghost use Rattle.flusher.specs.Takes.{RefusesAtDesk, TakesAndCounts};
    ghost use Rattle.ledger_core.specs.Shape.{shape_totals};
    ghost use Rattle.note_queue.specs.Noted.{IsOnlySent};
    ghost use Rattle.note_queue.specs.Relay.{IsAt, WasSeen};
    ghost use Rattle.note_queue.specs.Sending.{SendsMore};
    ghost use Rattle.peer_queue.specs.Faults.{IsClaimFault, IsEndFault};
    ghost use Rattle.peer_queue.specs.Front.{IsSame, KeepsNotes, pending_of, places_of, sent_of};
    ghost use Rattle.peer_queue.specs.Front.{settled_of, unsent_of};
    ghost use Rattle.peer_queue.specs.FrontCalls.{IsAnswered, OnlyOutbox, Refuses};
    ghost use Rattle.peer_queue.specs.Outbox.{Breaks, Learns};
    ghost use Rattle.peer_queue.specs.DebtPlace.{IsLater, held_count, moved, place_until, released, unheld};

    /// Takes a valid line, if its number is above the mark, and counts it.
    pub fn take(
        &mut self,
        books: &mut Books<TakenByIntake<N>, TakenAtStations<N>>,
        mine: &mut Share<TakenByIntake<N>>,
        mark: &mut u64,
        number: u64,
        line: &FunnelLine,
    ) -> Result<(), TakeFault>
        requires part { mine.old.parts ≡ 1 }
        requires room { books.old + 1 < 2 ^ 64 }
        ensures ok { OnOk result (TakesAndCounts mark.old number line.now.token line.now.id
            (front_of self.old.seat.sender) (front_of self.new.seat.sender) mark.new
            mine.old.amount mine.new.amount) }
        ensures unchanged { OnErr result ((mark.new ≡ mark.old)
            × (mine.new.amount ≡ mine.old.amount)
            × IsSame (front_of self.old.seat.sender) (front_of self.new.seat.sender)) }
        ensures refuses { RefusesAtDesk mark.old number line.now.token line.now.id
            (front_of self.old.seat.sender) (front_of self.new.seat.sender) result }
        ensures sends { SendsNothing self.old.seat self.new.seat }
        ensures part { mine.new.parts ≡ 1 }
        ensures keeps_report { KeepsReport self.old self.new }
        ensures keeps_ahead { self.new.ahead ≡ self.old.ahead }
    {
        let FrontDesk { seat, taken, .. } = self;
        if seat.sender.front().mark() != *mark {
            return Err(TakeFault::Stranger);
        }
        match seat.sender.owe(number, &line.token, &line.id) {
            Ok(Owed::New) => {
                books.count(mine, taken, 1);
                *mark = number;
                Ok(())
            }
            Ok(Owed::Already) => Ok(()),
            Err(fault) => Err(TakeFault::Station(fault)),
        }
    }

    /// Takes a connection's outcome of a debt, and counts what becomes of the debt. It is counted in this tally first,
    /// so that others can have the tally while the front does its work, and is taken back if the front refuses.
    pub fn finish<R: Wait>(
        &mut self,
        rt: &R,
        ended: &Mutex<Tally<N>>,
        tally: MutexGuard<'_, Tally<N>>,
        mine: &mut FeederShare<N>,
        connection: CxnId,
        outcome: Outcome,
        now: u64,
    ) -> Result<Settled, (Outcome, StationFault)>
        requires room { ((mutex_guard_value tally).answered + 1 < 2 ^ 64)
            × ((mutex_guard_value tally).dropped + 1 < 2 ^ 64) }
        ensures ok { IfOk result (λ settled. FinishesAndCounts connection.0 now outcome settled
            (front_of self.old.seat.sender) (front_of self.new.seat.sender) mine.old mine.new) }
        ensures returned { IfErr result (λ e. e.0 ≡ outcome) }
        ensures refuses { RefusesOutcome connection.0 now outcome (front_of self.old.seat.sender)
            (front_of self.new.seat.sender) result }
        ensures kinds { IfErr result (λ e. IsEndFault e.1) }
        ensures unchanged { OnErr result (mine.new ≡ mine.old) }
        ensures sends { SendsNothing self.old.seat self.new.seat }
        ensures keeps_report { KeepsReport self.old self.new }
        ensures keeps_ahead { self.new.ahead ≡ self.old.ahead }
    {
        let FrontDesk {
            seat,
            answered,
            dropped,
            ..
        } = self;
        let settled = Settled::by(&outcome, seat.sender.front().limits(), now);
        let mut tally = tally;
        tally.count(mine, answered, dropped, settled);
        drop(tally);
        match seat.sender.finish(connection, outcome, now) {
            Ok(settled) => Ok(settled),
            Err(refused) => {
                let mut tally = ended.lock(rt);
                tally.take_back(mine, answered, dropped, settled);
                Err(refused)
            }
        }
    }

    /// Claims the least candidate. Either it was read from the tape before, or the front has its texts, or the tape
    /// alone does. If the copy of the texts finds no memory, the key is given back: it is ready.
    pub fn claim(&mut self, connection: CxnId, now: u64) -> Result<Claimed, StationFault>
        ensures ok { IfOk result
            (Claims connection.0 now (front_of self.old.seat.sender)
            (front_of self.new.seat.sender)) }
        ensures given_back { OnErr result
            (GivesBack connection.0 now (front_of self.old.seat.sender)
            (front_of self.new.seat.sender)) }
        ensures keeps { NotesNothing self.old.seat self.new.seat }
        ensures refuses { RefusesClaim now (front_of self.old.seat.sender)
            (front_of self.new.seat.sender) result }
        ensures kinds { IfErr result IsClaimFault }
        ensures uses { IfOk result (Uses self.old.ahead self.new.ahead) }
        ensures lets_go { OnErr result (LetsGo self.old.ahead self.new.ahead) }
        ensures keeps_report { KeepsReport self.old self.new }
    {
        let FrontDesk { seat, ahead, .. } = self;
        let Some(key) = seat.sender.claim_key(connection, now)? else {
            return Ok(Claimed::Nothing);
        };
        if let Some(debt) = ahead.take(key) {
            return Ok(Claimed::ReadBefore(debt));
        }
        match seat.sender.front().unsettled(key) {
            Ok(Some(debt)) => Ok(Claimed::Debt(debt)),
            Ok(None) => {
                ahead.begin_behind(key);
                Ok(Claimed::OnTape(key))
            }
            Err(_) => {
                let _ = seat.sender.unclaim(connection, key);
                Err(StationFault::NoMemory)
            }
        }
    }

    /// Whether more is to be read ahead.
    pub fn wants_more(&self) -> bool
        ensures { IsTrue result ↔ 0 < wanted_behind (kept_in self.now.ahead) }
    {
        self.ahead.wanted() > 0
    }

    /// The keys of the debts that are read ahead next: those that can be claimed next behind what was read, 128 of them
    /// at most, as long as there is room for so many.
    ///
    /// # Errors
    /// `NoMemory` if memory was refused; nothing changes.
    pub fn keys_ahead(&mut self) -> Result<Vec<Key>, AllocError>
        ensures keys { IfOk result (λ keys. keys.items
            ≡ take (wanted_behind (kept_in self.old.ahead))
            (filter (λ key. nat_lt (end_in self.old.ahead) key)
            (unheld (places_of (front_of self.old.seat.sender))))) }
        ensures end { IfOk result
            (λ keys. end_in self.new.ahead ≡ gone_on (end_in self.old.ahead) keys.items) }
        ensures kept { kept_in self.new.ahead ≡ kept_in self.old.ahead }
        ensures refused { OnErr result (self.new.ahead ≡ self.old.ahead) }
        ensures seat { self.new.seat ≡ self.old.seat }
        ensures keeps_report { KeepsReport self.old self.new }
    {
        let FrontDesk { seat, ahead, .. } = self;
        let front = seat.sender.front();
        let keys = front.unheld_after(ahead.end(), ahead.wanted())?;
        ahead.go_on_behind(&keys);
        Ok(keys)
    }

    /// Keeps debts that were read ahead from its own peer's tape, as far as there is room for them.
    ///
    /// # Errors
    /// `NoMemory` if memory was refused; nothing changes.
    pub fn keep_ahead(&mut self, read: ReadDebts) -> Result<(), AllocError>
        requires place { read.place ≡ self.old.seat.place }
        ensures ok { OnOk result
            (kept_in self.new.ahead ≡ kept_with (kept_in self.old.ahead) read.debts.items) }
        ensures unchanged { OnErr result (kept_in self.new.ahead ≡ kept_in self.old.ahead) }
        ensures end { end_in self.new.ahead ≡ end_in self.old.ahead }
        ensures seat { self.new.seat ≡ self.old.seat }
        ensures keeps_report { KeepsReport self.old self.new }
    {
        let FrontDesk { ahead, .. } = self;
        ahead.keep(read.into_debts())
    }

    /// Gives back a key that this connection claimed, because its texts could not be had: it is ready. A broken front
    /// stays as it is.
    pub fn unclaim(&mut self, connection: CxnId, key: Key)
        ensures unclaims { Unclaims connection.0 key (front_of self.old.seat.sender)
            (front_of self.new.seat.sender) }
        ensures sends { SendsNothing self.old.seat self.new.seat }
        ensures keeps_report { KeepsReport self.old self.new }
        ensures keeps_ahead { self.new.ahead ≡ self.old.ahead }
    {
        let FrontDesk { seat, .. } = self;
        let _ = seat.sender.unclaim(connection, key);
    }

    /// Makes all debts ready that this connection held, and returns how many.
    pub fn release(&mut self, connection: CxnId) -> u64
        ensures count { result
            ≡ held_count connection.0 (places_of (front_of self.old.seat.sender)) }
        ensures places { places_of (front_of self.new.seat.sender)
            ≡ released connection.0 (places_of (front_of self.old.seat.sender)) }
        ensures keeps { KeepsNotes (front_of self.old.seat.sender) (front_of self.new.seat.sender) }
        ensures sends { SendsNothing self.old.seat self.new.seat }
        ensures keeps_report { KeepsReport self.old self.new }
        ensures keeps_ahead { self.new.ahead ≡ self.old.ahead }
    {
        let FrontDesk { seat, .. } = self;
        seat.sender.release(connection)
    }

    /// Takes a debt back, and makes it wait until this moment.
    pub fn put_off(
        &mut self,
        connection: CxnId,
        debt: Debt,
        until: u64,
    ) -> Result<(), (Debt, StationFault)>
        ensures ok { OnOk result
            (KeepsNotes (front_of self.old.seat.sender) (front_of self.new.seat.sender)
            × (places_of (front_of self.new.seat.sender)
            ≡ moved (places_of (front_of self.old.seat.sender)) debt.0 (place_until until))) }
        ensures returned { IfErr result (λ e. e.0 ≡ debt) }
        ensures refuses { Refuses (front_of self.old.seat.sender) connection.0 debt.0 result }
        ensures kinds { IfErr result (λ e. IsPutOffFault e.1) }
        ensures unchanged { OnErr result
            (IsSame (front_of self.old.seat.sender) (front_of self.new.seat.sender)) }
        ensures sends { SendsNothing self.old.seat self.new.seat }
        ensures keeps_report { KeepsReport self.old self.new }
        ensures keeps_ahead { self.new.ahead ≡ self.old.ahead }
    {
        let FrontDesk { seat, .. } = self;
        seat.sender.put_off(connection, debt, until)?;
        Ok(())
    }

    /// Drops what exceeds the limit, and counts it.
    pub fn shed(
        &mut self,
        books: &mut Books<DroppedByFeeders<N>, DroppedAtStations<N>>,
        mine: &mut Share<DroppedByFeeders<N>>,
    ) -> Result<Shed, StationFault>
        requires part { mine.old.parts ≡ 1 }
        requires room { books.old + 65536 < 2 ^ 64 }
        ensures ok { IfOk result (λ shed. ShedsAndCounts shed (front_of self.old.seat.sender)
            (front_of self.new.seat.sender) mine.old.amount mine.new.amount) }
        ensures refuses { RefusesShed (front_of self.old.seat.sender) result }
        ensures unchanged { OnErr result
            (IsSame (front_of self.old.seat.sender) (front_of self.new.seat.sender)
            × (mine.new.amount ≡ mine.old.amount)) }
        ensures part { mine.new.parts ≡ 1 }
        ensures sends { SendsNothing self.old.seat self.new.seat }
        ensures keeps_report { KeepsReport self.old self.new }
        ensures keeps_ahead { self.new.ahead ≡ self.old.ahead }
    {
        let FrontDesk { seat, dropped, .. } = self;
        let shed = seat.sender.shed()?;
        books.count(mine, dropped, shed.keys.len() as u64);
        Ok(shed)
    }

    /// Sends what is unsent, oldest first, until all is sent or the queue is full ([`Sender::send`]).
    ///
    /// # Errors
    /// `NoCopy` if the copy of a note was refused memory: that note, and all after it, stay unsent.
    pub fn send<P: Relays, R: Wait>(
        &mut self,
        rt: &R,
        queue: &RuledArrayQueue<Note, PassLog, P>,
    ) -> Result<(), NoCopy>
        requires { IsAt queue.now (sending self.old.seat.sender) }
        ensures sends { SendsMore self.old.seat.sender self.new.seat.sender }
        ensures keeps { IsOnlySent (front_of self.old.seat.sender) (front_of self.new.seat.sender) }
        // All is sent, or at one moment of the call the queue was full, and the pass had sent what it has now.
        ensures ok { OnOk result ((unsent_of (front_of self.new.seat.sender) ≡ [])
            ⊎ WasSeen P.holds (ruled_capacity queue.now) (view (sending self.new.seat.sender))) }
        ensures err { OnErr result (unsent_of (front_of self.new.seat.sender) ≢ []) }
        ensures keeps_report { KeepsReport self.old self.new }
        ensures keeps_ahead { self.new.ahead ≡ self.old.ahead }
    {
        let FrontDesk { seat, .. } = self;
        match seat.sender.send(rt, queue) {
            Ok(()) => Ok(()),
            Err(of) => Err(NoCopy { of }),
        }
    }

    /// Settles what a flush has put on the disks. `None`, and nothing has changed, if the flush is not of this front's
    /// tape.
    pub fn learn(&mut self, flush: &Flush) -> Option<Settlement>
        ensures answer { IsSome result
            ↔ IsAnswered flush.now.flushed (front_of self.old.seat.sender) }
        ensures settled { IfSome result (λ settlement. (settlement.place ≡ self.old.seat.place)
            × (settlement.count ≡ flush.now.flushed.count)) }
        ensures learns { IsSome result → OnlyOutbox
            (Learns (flush.now.flushed.count - settled_of (front_of self.old.seat.sender)))
            (front_of self.old.seat.sender) (front_of self.new.seat.sender) }
        ensures sends { SendsNothing self.old.seat self.new.seat }
        ensures reports { IsSome result → (self.new.has_failed ≡ false)
            × (self.new.acknowledged ≡ flush.now.totals) }
        ensures unchanged { IsNone result → self.new ≡ self.old }
        ensures keeps_ahead { self.new.ahead ≡ self.old.ahead }
    {
        let FrontDesk {
            seat,
            acknowledged,
            has_failed,
            ..
        } = self;
        if !seat.sender.settled(&flush.flushed()) {
            return None;
        }
        *acknowledged = flush.totals();
        *has_failed = false;
        Some(Settlement::of(self, flush.flushed().count()))
    }

    /// A flush or a rotation failed. If the tape broke by it, or before, the front is cut off.
    pub fn fail(&mut self, has_broken: bool)
        ensures failed { (self.new.has_failed ≡ true)
            × (self.new.acknowledged ≡ self.old.acknowledged) }
        ensures breaks { has_broken ≡ true → OnlyOutbox Breaks (front_of self.old.seat.sender)
            (front_of self.new.seat.sender) }
        ensures keeps { has_broken ≡ false
            → front_of self.new.seat.sender ≡ front_of self.old.seat.sender }
        ensures sends { SendsNothing self.old.seat self.new.seat }
        ensures keeps_ahead { self.new.ahead ≡ self.old.ahead }
    {
        let FrontDesk {
            seat,
            has_failed,
            ..
        } = self;
        *has_failed = true;
        if has_broken {
            seat.sender.broke();
        }
    }

    /// What to report of it.
    pub fn reported(&self) -> Reported
        ensures working { self.now.has_failed ≡ false → (result.has_failed ≡ false)
            × (result.totals ≡ shape_totals (front_shape (front_of self.now.seat.sender))) }
        ensures failed { self.now.has_failed ≡ true → (result.has_failed ≡ true)
            × (result.totals ≡ self.now.acknowledged) }
        ensures sum { result.totals.taken ≡ result.totals.owed + result.totals.answered
            + result.totals.dropped }
    {
        let has_failed = self.has_failed;
        let totals = if has_failed {
            self.acknowledged
        } else {
            self.totals()
        };
        Reported { totals, has_failed }
    }

    /// What it counts.
    pub fn totals(&self) -> Totals
        ensures counts { result ≡ shape_totals (front_shape (front_of self.now.seat.sender)) }
        ensures sum { result.taken ≡ result.owed + result.answered + result.dropped }
    {
        self.seat.sender.front().totals()
    }

    /// Whether no debt is ready, and no connection holds one.
    pub fn all_later(&self) -> bool
        ensures { IsTrue result ↔ All (λ entry. IsLater entry.1)
            (places_of (front_of self.now.seat.sender)) }
    {
        self.seat.sender.front().all_later()
    }

    /// How many of its notes pend.
    pub fn pending(&self) -> usize
        ensures { result ≡ pending_of (front_of self.now.seat.sender) }
    {
        PENDING_MAX_NOTES - self.seat.sender.front().room()
    }

    /// How many notes its tape counts once all of them are on it.
    pub fn noted(&self) -> u64
        ensures { result ≡ min (settled_of (front_of self.now.seat.sender)
            + pending_of (front_of self.now.seat.sender)) (2 ^ 64 - 1) }
    {
        self.seat.sender.front().noted()
    }

    /// Whether `count` notes or more were sent, as its tape counts them.
    pub fn has_sent(&self, count: u64) -> bool
        ensures { IsTrue result ↔ count ≤ min (settled_of (front_of self.now.seat.sender)
            + sent_of (front_of self.now.seat.sender)) (2 ^ 64 - 1) }
    {
        self.seat.sender.sent() >= count
    }
}
