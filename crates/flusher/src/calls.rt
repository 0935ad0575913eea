// What workers ask of a post.
ghost use Rattle.std.specs.Prelude.{◌≡◌, ◌≢◌, ◌↔◌, ◌⊎◌, ◌+◌, ◌-◌, ◌<◌, ◌^◌};
ghost use Rattle.std.specs.Prelude.{[], IfErr, IfOk, IfSome, IsErrAnd, IsErrOf, OnErr, OnOk, length};
ghost use Rattle.std.specs.Sync.Mutex.{mutex_guard_value};
ghost use Rattle.crossbeam_queue.specs.Passes.{view};
ghost use Rattle.flusher.specs.Claims.{Releases};
ghost use Rattle.flusher.specs.Counted.{IsCounted};
ghost use Rattle.flusher.specs.Faults.{IsOfStation, IsPutOffFault, IsShedFault};
ghost use Rattle.flusher.specs.Moments.{AtSomeMoment, HoldsStray, IsStray};
ghost use Rattle.flusher.specs.Refuses.{RefusesHeldOf, RefusesOutcomeOf, ThenSent};
ghost use Rattle.flusher.specs.Reports.{KeepsReport};
ghost use Rattle.flusher.specs.Room.{IsCountFull};
ghost use Rattle.flusher.specs.Sent.{IsSent};
ghost use Rattle.note_queue.specs.Noted.{IsOnlySent};
ghost use Rattle.note_queue.specs.Relay.{Relayed, WasSeen};
ghost use Rattle.note_queue.specs.Words.{front_of, sending};
ghost use Rattle.peer_queue.specs.Faults.{IsEndFault};
ghost use Rattle.peer_queue.specs.Front.{IsBroken, IsSame, KeepsNotes, places_of, unsent_of};
ghost use Rattle.peer_queue.specs.FrontCalls.{Finishes, Sheds};
ghost use Rattle.peer_queue.specs.DebtPlace.{moved, place_until};
ghost use Rattle.peer_queue.specs.declared.fault.StationFault.{StationFault};

use crate::front_desk::{FrontDesk, NoCopy};
use crate::noted::Noted;
use crate::share::FeederShare;
use crate::tally::Tally;
use crate::tape_desk::TapeDesk;
use crate::{Naming, Post, PostFault, Reported};
use conn_core::{CxnId, Outcome};
use disk_model::Disk;
use ledger_core::{Debt, Totals};
use peer_queue::{Settled, Shed, StationFault};
use recovery::PENDING_MAX_NOTES;
use std::hint::spin_loop;
use std::sync::atomic::Ordering;
use std::sync::{Mutex, MutexGuard, Wait};

// Half of the notes that may pend at a front.
const HALF_FULL_NOTES: usize = PENDING_MAX_NOTES / 2;

// How often a call looks whether a front or a tally is free, before it sleeps or is refused. Such a lock is held for
// microseconds, and a sleep costs more.
const LOOKS_MAX: u32 = 1_000;

// How often a call looks whether a tape is free, before it is refused. A disk may be synced under that lock.
const TAPE_LOOKS_MAX: u32 = 100;

impl<D: Disk, N: Naming> Post<D, N> {
    /// How many peers there are.
    pub fn peers(&self) -> usize
        ensures { result ≡ length self.now.names }
    {
        self.peers.len()
    }

    /// What a peer's station counts.
    pub fn totals<R: Wait>(&self, rt: &R, peer: usize) -> Totals
        requires { peer < length self.now.names }
        ensures sum { result.taken ≡ result.owed + result.answered + result.dropped }
    {
        self.peers[peer].front.lock(rt).totals()
    }

    /// What to report of a peer's station: what it counts; once a flush or a rotation of it has failed, what it counted
    /// when it was last flushed, rewritten or opened successfully.
    pub fn reported<R: Wait>(&self, rt: &R, peer: usize) -> Reported
        requires { peer < length self.now.names }
        ensures sum { result.totals.taken ≡ result.totals.owed + result.totals.answered
            + result.totals.dropped }
    {
        self.peers[peer].front.lock(rt).reported()
    }

    /// How many debts a peer is owed. Waits for nobody: `None` if the peer's front is in use.
    pub fn try_owed(&self, peer: usize) -> Option<u64>
        requires { peer < length self.now.names }
    {
        let desk = self.free_front(peer)?;
        Some(desk.totals().owed)
    }

    /// Whether no debt of a peer is ready, and no connection holds one.
    pub fn all_later<R: Wait>(&self, rt: &R, peer: usize) -> bool
        requires { peer < length self.now.names }
    {
        self.peers[peer].front.lock(rt).all_later()
    }

    /// [`Post::all_later`], but waits for nobody: `None` if the peer's front is in use.
    pub fn try_all_later(&self, peer: usize) -> Option<bool>
        requires { peer < length self.now.names }
    {
        let desk = self.free_front(peer)?;
        Some(desk.all_later())
    }

    /// Whether half of the notes that may pend at a peer's front have come to pend since the last call. Only one caller
    /// gets `true`, and orders a flush.
    pub fn take_half_full(&self, peer: usize) -> bool
        requires { peer < length self.now.names }
    {
        let half_full = &self.peers[peer].half_full;
        half_full.load(Ordering::SeqCst) && half_full.swap(false, Ordering::SeqCst)
    }

    /// A feeder gives a peer up. Returns how many had done so before.
    pub fn give_up(&self, peer: usize) -> u64
        requires { peer < length self.now.names }
    {
        self.peers[peer].given_up.fetch_add(1, Ordering::SeqCst)
    }

    // A peer's front, if it is free, or soon is.
    pub(crate) fn free_front(&self, peer: usize) -> Option<MutexGuard<'_, FrontDesk<N>>>
        requires { peer < length self.now.names }
    {
        free(&self.peers[peer].front, LOOKS_MAX)
    }

    // A peer's front. It soon is free, so this looks a while before it waits.
    pub(crate) fn front<R: Wait>(&self, rt: &R, peer: usize) -> MutexGuard<'_, FrontDesk<N>>
        requires { peer < length self.now.names }
    {
        match self.free_front(peer) {
            Some(desk) => desk,
            None => self.peers[peer].front.lock(rt),
        }
    }

    // This peer's own front. `Stranger` if its lock held another's, which no run meets.
    pub(crate) fn own_front<R: Wait>(
        &self,
        rt: &R,
        peer: usize,
    ) -> Result<MutexGuard<'_, FrontDesk<N>>, PostFault>
        requires { peer < length self.now.names }
        ensures own { IfOk result (λ desk. (mutex_guard_value desk).seat.place ≡ peer) }
        ensures stray { IfErr result (IsStray N N.Naming peer) }
    {
        own(peer, self.front(rt, peer))
    }

    // The tally of what has ended. It, too, soon is free.
    fn ended<R: Wait>(&self, rt: &R) -> MutexGuard<'_, Tally<N>> {
        match free(&self.ended, LOOKS_MAX) {
            Some(tally) => tally,
            None => self.ended.lock(rt),
        }
    }

    // A peer's tape, if it is free, or soon is.
    pub(crate) fn free_tape(&self, peer: usize) -> Option<MutexGuard<'_, TapeDesk<D, N>>>
        requires { peer < length self.now.names }
    {
        free(&self.peers[peer].tape, TAPE_LOOKS_MAX)
    }

    // Sends what a peer's front has not sent to its tape, in order, until the queue is full. The rest stays unsent; of
    // another peer's front nothing is sent.
    pub(crate) fn send<R: Wait>(
        &self,
        rt: &R,
        peer: usize,
        desk: &mut FrontDesk<N>,
    ) -> Result<(), PostFault>
        requires { peer < length self.now.names }
        ensures sends { IsOnlySent (front_of desk.old.seat.sender) (front_of desk.new.seat.sender) }
        // All is sent, or the queue was full: [`FrontDesk::send`], under the rule that a post's queues have.
        ensures ok { OnOk result ((unsent_of (front_of desk.new.seat.sender) ≡ [])
            ⊎ WasSeen Relayed 1024 (view (sending desk.new.seat.sender))) }
        ensures stranger { IsErrOf result (PostFault.Stranger peer) ↔ desk.old.seat.place ≢ peer }
        ensures no_memory { IsErrOf result PostFault.NoMemory
            → unsent_of (front_of desk.new.seat.sender) ≢ [] }
        ensures keeps_report { KeepsReport desk.old desk.new }
        ensures kinds { IfErr result
            (λ e. (e ≡ PostFault.Stranger peer) ⊎ (e ≡ PostFault.NoMemory)) }
    {
        if desk.seat.place != peer {
            return Err(PostFault::Stranger { peer });
        }
        match self.send_own(rt, peer, desk) {
            Ok(()) => Ok(()),
            Err(_) => Err(PostFault::NoMemory),
        }
    }

    // Sends what this peer's front has not sent to its tape, in order, until the queue is full.
    fn send_own<R: Wait>(&self, rt: &R, peer: usize, desk: &mut FrontDesk<N>) -> Result<(), NoCopy>
        requires peer { peer < length self.now.names }
        requires own { desk.old.seat.place ≡ peer }
        ensures sends { IsOnlySent (front_of desk.old.seat.sender) (front_of desk.new.seat.sender) }
        ensures ok { OnOk result (IsSent desk.new.seat.sender) }
        ensures err { OnErr result (unsent_of (front_of desk.new.seat.sender) ≢ []) }
        ensures keeps_report { KeepsReport desk.old desk.new }
    {
        desk.send(rt, &self.peers[peer].queue)
    }

    /// Makes all debts ready that this connection held, and returns how many. At another peer's front, which no run
    /// meets, it does nothing.
    pub fn release<R: Wait>(&self, rt: &R, peer: usize, connection: CxnId) -> u64
        requires { peer < length self.now.names }
        ensures releases { AtSomeMoment N N.Naming peer (Releases connection.0 result)
            ⊎ ((result ≡ 0) × HoldsStray N N.Naming peer) }
    {
        match self.own_front(rt, peer) {
            Ok(mut desk) => desk.release(connection),
            Err(_) => 0,
        }
    }

    /// [`Post::release`], but waits for nobody: `None` if the peer's front is in use, and nothing has changed.
    pub fn try_release(&self, peer: usize, connection: CxnId) -> Option<u64>
        requires { peer < length self.now.names }
        ensures releases { IfSome result
            (λ count. AtSomeMoment N N.Naming peer (Releases connection.0 count)
            ⊎ ((count ≡ 0) × HoldsStray N N.Naming peer)) }
    {
        match own(peer, self.free_front(peer)?) {
            Ok(mut desk) => Some(desk.release(connection)),
            Err(_) => Some(0),
        }
    }

    /// Takes a debt back to its peer's station, and makes it wait until this moment; until 0 is no wait: it is ready.
    /// No share counts it.
    ///
    /// # Errors
    /// The debt is handed back. The station's, in this order: `Broken`; `NotHeld`.
    pub fn put_off<R: Wait>(
        &self,
        rt: &R,
        peer: usize,
        connection: CxnId,
        debt: Debt,
        until: u64,
    ) -> Result<(), (Debt, PostFault)>
        requires { peer < length self.now.names }
        ensures returned { IfErr result (λ e. e.0 ≡ debt) }
        ensures kinds { IfErr result (λ e. IsOfStation peer IsPutOffFault e.1) }
    {
        put_off_at(
            peer,
            &mut self.peers[peer].front.lock(rt),
            connection,
            debt,
            until,
        )
    }

    /// [`Post::put_off`], but waits for nobody.
    ///
    /// # Errors
    /// Those of `put_off`; `Busy` if the peer's front is in use: nothing has changed.
    pub fn try_put_off(
        &self,
        peer: usize,
        connection: CxnId,
        debt: Debt,
        until: u64,
    ) -> Result<(), (Debt, PostFault)>
        requires { peer < length self.now.names }
        ensures returned { IfErr result (λ e. e.0 ≡ debt) }
        ensures kinds { IfErr result
            (λ e. (e.1 ≡ PostFault.Busy peer) ⊎ IsOfStation peer IsPutOffFault e.1) }
    {
        match self.free_front(peer) {
            Some(mut desk) => put_off_at(peer, &mut desk, connection, debt, until),
            None => Err((debt, PostFault::Busy { peer })),
        }
    }

    /// Drops what exceeds a peer's limit, and counts it.
    ///
    /// # Errors
    /// `CountFull` if the tally of dropped debts has no room for 65,537 more; then the station's.
    pub fn shed<R: Wait>(
        &self,
        rt: &R,
        peer: usize,
        mine: &mut FeederShare<N>,
    ) -> Result<Shed, PostFault>
        requires { peer < length self.now.names }
        ensures counted { IfOk result
            (λ shed. (mine.new.dropped ≡ mine.old.dropped + length shed.keys.items)
            × (mine.new.answered ≡ mine.old.answered)) }
        ensures kinds { IfErr result
            (λ e. (e ≡ PostFault.CountFull) ⊎ IsOfStation peer IsShedFault e) }
        ensures unchanged { OnErr result
            ((mine.new.answered ≡ mine.old.answered) × (mine.new.dropped ≡ mine.old.dropped)) }
    {
        let mut desk = self.peers[peer].front.lock(rt);
        let shed = shed_in(peer, &mut desk, &mut self.ended.lock(rt), mine);
        let _ = self.send(rt, peer, &mut desk);
        shed
    }

    /// Takes a connection's outcome of a debt to its peer's station, and counts what became of the debt.
    ///
    /// # Errors
    /// The outcome is handed back. `CountFull` if the tally of answered debts, or that of dropped debts, has no room
    /// for 65,537 more; then the station's.
    pub fn finish<R: Wait>(
        &self,
        rt: &R,
        peer: usize,
        connection: CxnId,
        outcome: Outcome,
        now: u64,
        mine: &mut FeederShare<N>,
    ) -> Result<Settled, (Outcome, PostFault)>
        requires { peer < length self.now.names }
        ensures counted { IfOk result
            (λ settled. IsCounted outcome now settled mine.old mine.new) }
        ensures returned { IfErr result (λ e. e.0 ≡ outcome) }
        ensures kinds { IfErr result
            (λ e. (e.1 ≡ PostFault.CountFull) ⊎ IsOfStation peer IsEndFault e.1) }
        ensures unchanged { OnErr result
            ((mine.new.answered ≡ mine.old.answered) × (mine.new.dropped ≡ mine.old.dropped)) }
        ensures finishes { OnOk result (AtSomeMoment N N.Naming peer
            (λ old. ThenSent (Finishes connection.0 now outcome old))) }
        ensures front { OnErr result
            (AtSomeMoment N N.Naming peer (λ old. ThenSent (IsSame old))
            ⊎ HoldsStray N N.Naming peer) }
    {
        let Ok(mut desk) = self.own_front(rt, peer) else {
            return Err((outcome, not_held(peer)));
        };
        self.finish_at(rt, peer, &mut desk, connection, outcome, now, mine)
    }

    // Takes a connection's outcome of a debt to its peer's front, counts what became of it, and sends what is unsent.
    fn finish_at<R: Wait>(
        &self,
        rt: &R,
        peer: usize,
        desk: &mut FrontDesk<N>,
        connection: CxnId,
        outcome: Outcome,
        now: u64,
        mine: &mut FeederShare<N>,
    ) -> Result<Settled, (Outcome, PostFault)>
        requires peer { peer < length self.now.names }
        requires own { desk.old.seat.place ≡ peer }
        ensures ok { OnOk result (ThenSent
            (Finishes connection.0 now outcome (front_of desk.old.seat.sender))
            (front_of desk.new.seat.sender)) }
        ensures front { OnErr result (ThenSent (IsSame (front_of desk.old.seat.sender))
            (front_of desk.new.seat.sender)) }
        ensures refuses { IsErrAnd result (λ e. e.1 ≡ PostFault.CountFull)
            ⊎ RefusesOutcomeOf peer connection.0 now outcome (front_of desk.old.seat.sender)
            result }
        ensures counted { IfOk result
            (λ settled. IsCounted outcome now settled mine.old mine.new) }
        ensures returned { IfErr result (λ e. e.0 ≡ outcome) }
        ensures kinds { IfErr result
            (λ e. (e.1 ≡ PostFault.CountFull) ⊎ IsOfStation peer IsEndFault e.1) }
        ensures unchanged { OnErr result
            ((mine.new.answered ≡ mine.old.answered) × (mine.new.dropped ≡ mine.old.dropped)) }
        ensures keeps_report { KeepsReport desk.old desk.new }
    {
        let before = desk.pending();
        let finished = self.finish_counted(rt, peer, desk, connection, outcome, now, mine);
        self.note_half_full(peer, before, desk.pending());
        let sent = self.send_own(rt, peer, desk);
        finished.once_sent(desk, sent)
    }

    // Takes a connection's outcome of a debt to its peer's front, and counts in the tally what became of it.
    fn finish_counted<R: Wait>(
        &self,
        rt: &R,
        peer: usize,
        desk: &mut FrontDesk<N>,
        connection: CxnId,
        outcome: Outcome,
        now: u64,
        mine: &mut FeederShare<N>,
    ) -> Noted<Result<Settled, (Outcome, PostFault)>>
        ensures ok { OnOk result (Finishes connection.0 now outcome
            (front_of desk.old.seat.sender) (front_of desk.new.seat.sender)) }
        ensures place { desk.new.seat.place ≡ desk.old.seat.place }
        ensures front { OnErr result
            (IsSame (front_of desk.old.seat.sender) (front_of desk.new.seat.sender)) }
        ensures refuses { IsErrAnd result (λ e. e.1 ≡ PostFault.CountFull)
            ⊎ RefusesOutcomeOf peer connection.0 now outcome (front_of desk.old.seat.sender)
            result }
        ensures counted { IfOk result
            (λ settled. IsCounted outcome now settled mine.old mine.new) }
        ensures returned { IfErr result (λ e. e.0 ≡ outcome) }
        ensures kinds { IfErr result
            (λ e. (e.1 ≡ PostFault.CountFull) ⊎ IsOfStation peer IsEndFault e.1) }
        ensures unchanged { OnErr result
            ((mine.new.answered ≡ mine.old.answered) × (mine.new.dropped ≡ mine.old.dropped)) }
        ensures keeps_report { KeepsReport desk.old desk.new }
    {
        let tally = self.ended(rt);
        let ended = &self.ended;
        finish_in(rt, peer, desk, ended, tally, connection, outcome, now, mine)
    }

    // Sets the peer's flag if a call has brought its front to half of the notes that may pend there.
    pub(crate) fn note_half_full(&self, peer: usize, before: usize, now: usize)
        requires { peer < length self.now.names }
    {
        if before < HALF_FULL_NOTES && now >= HALF_FULL_NOTES {
            self.peers[peer].half_full.store(true, Ordering::SeqCst);
        }
    }
}

// Takes a debt back to its peer's front, and makes it wait until this moment.
fn put_off_at<N: Naming>(
    peer: usize,
    desk: &mut FrontDesk<N>,
    connection: CxnId,
    debt: Debt,
    until: u64,
) -> Result<(), (Debt, PostFault)>
    ensures ok { OnOk result
        (KeepsNotes (front_of desk.old.seat.sender) (front_of desk.new.seat.sender)
        × (places_of (front_of desk.new.seat.sender)
        ≡ moved (places_of (front_of desk.old.seat.sender)) debt.0 (place_until until))) }
    ensures returned { IfErr result (λ e. e.0 ≡ debt) }
    ensures refuses { RefusesHeldOf peer (front_of desk.old.seat.sender) connection.0 debt.0
        result }
    ensures kinds { IfErr result (λ e. IsOfStation peer IsPutOffFault e.1) }
    ensures unchanged { OnErr result
        (IsSame (front_of desk.old.seat.sender) (front_of desk.new.seat.sender)) }
    ensures keeps_report { KeepsReport desk.old desk.new }
{
    match desk.put_off(connection, debt, until) {
        Ok(()) => Ok(()),
        Err((debt, fault)) => Err((debt, PostFault::Station { peer, fault })),
    }
}

// Drops what exceeds a peer's limit at its front, and counts it.
fn shed_in<N: Naming>(
    peer: usize,
    desk: &mut FrontDesk<N>,
    tally: &mut Tally<N>,
    mine: &mut FeederShare<N>,
) -> Result<Shed, PostFault>
    ensures ok { IfOk result
        (Sheds (front_of desk.old.seat.sender) (front_of desk.new.seat.sender)) }
    ensures counted { IfOk result
        (λ shed. (mine.new.dropped ≡ mine.old.dropped + length shed.keys.items)
        × (mine.new.answered ≡ mine.old.answered)) }
    ensures count_full { IsErrOf result PostFault.CountFull ↔ IsCountFull tally.old.dropped }
    ensures broken { IsErrOf result (PostFault.Station peer StationFault.Broken)
        ↔ ((IsCountFull tally.old.dropped → ⊥) × IsBroken (front_of desk.old.seat.sender)) }
    ensures kinds { IfErr result
        (λ e. (e ≡ PostFault.CountFull) ⊎ IsOfStation peer IsShedFault e) }
    ensures unchanged { OnErr result
        ((mine.new.answered ≡ mine.old.answered) × (mine.new.dropped ≡ mine.old.dropped)
        × IsSame (front_of desk.old.seat.sender) (front_of desk.new.seat.sender)) }
    ensures keeps_report { KeepsReport desk.old desk.new }
{
    if tally.dropped.is_full() {
        return Err(PostFault::CountFull);
    }
    match desk.shed(&mut tally.dropped, &mut mine.dropped) {
        Ok(shed) => Ok(shed),
        Err(fault) => Err(PostFault::Station { peer, fault }),
    }
}

// Takes a connection's outcome of a debt to its peer's front, and counts in this tally what becomes of it.
fn finish_in<N: Naming, R: Wait>(
    rt: &R,
    peer: usize,
    desk: &mut FrontDesk<N>,
    ended: &Mutex<Tally<N>>,
    tally: MutexGuard<'_, Tally<N>>,
    connection: CxnId,
    outcome: Outcome,
    now: u64,
    mine: &mut FeederShare<N>,
) -> Noted<Result<Settled, (Outcome, PostFault)>>
    ensures place { desk.new.seat.place ≡ desk.old.seat.place }
    ensures ok { OnOk result (Finishes connection.0 now outcome
        (front_of desk.old.seat.sender) (front_of desk.new.seat.sender)) }
    ensures front { OnErr result
        (IsSame (front_of desk.old.seat.sender) (front_of desk.new.seat.sender)) }
    ensures counted { IfOk result
        (λ settled. IsCounted outcome now settled mine.old mine.new) }
    ensures returned { IfErr result (λ e. e.0 ≡ outcome) }
    ensures count_full { IsErrAnd result (λ e. e.1 ≡ PostFault.CountFull)
        ↔ (IsCountFull (mutex_guard_value tally.entry).answered
        ⊎ IsCountFull (mutex_guard_value tally.entry).dropped) }
    ensures refuses { IsErrAnd result (λ e. e.1 ≡ PostFault.CountFull)
        ⊎ RefusesOutcomeOf peer connection.0 now outcome (front_of desk.old.seat.sender)
        result }
    ensures kinds { IfErr result
        (λ e. (e.1 ≡ PostFault.CountFull) ⊎ IsOfStation peer IsEndFault e.1) }
    ensures unchanged { OnErr result
        ((mine.new.answered ≡ mine.old.answered) × (mine.new.dropped ≡ mine.old.dropped)) }
    ensures keeps_report { KeepsReport desk.old desk.new }
{
    if !tally.has_room() {
        return Noted::new(Err((outcome, PostFault::CountFull)));
    }
    let finished = desk.finish(rt, ended, tally, mine, connection, outcome, now);
    match finished {
        Ok(settled) => Noted::new(Ok(settled)),
        Err((outcome, fault)) => Noted::new(Err((outcome, PostFault::Station { peer, fault }))),
    }
}

// The answer to an outcome whose peer's front was not found: nobody holds the debt there.
fn not_held(peer: usize) -> PostFault
    ensures { result ≡ PostFault.Station peer StationFault.NotHeld }
{
    PostFault::Station {
        peer,
        fault: StationFault::NotHeld,
    }
}

// What the lock of a peer's front held, if it is that peer's front.
fn own<'a, N: Naming>(
    peer: usize,
    desk: MutexGuard<'a, FrontDesk<N>>,
) -> Result<MutexGuard<'a, FrontDesk<N>>, PostFault>
    ensures own { IfOk result (λ desk. (mutex_guard_value desk).seat.place ≡ peer) }
    ensures stray { IfErr result (IsStray N N.Naming peer) }
{
    if desk.seat.place != peer {
        return Err(PostFault::Stranger { peer });
    }
    Ok(desk)
}

// What a lock keeps, if the lock is found free at one of so many looks.
fn free<T>(lock: &Mutex<T>, looks: u32) -> Option<MutexGuard<'_, T>> {
    for _ in 0..looks {
        if let Some(free) = lock.try_lock() {
            return Some(free);
        }
        spin_loop();
    }
    None
}
