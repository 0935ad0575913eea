// A feeder's turns, until its work is done.
ghost use Rattle.std.specs.Prelude.{◌≡◌, ◌-◌, nat_le};

use crate::feeder::{EVENTS_MAX, WAKER_TOKEN};
use crate::peer_state::name_of;
use crate::post_view::{LentPost, PostView, is_of_tape};
use crate::service::{ServiceEnv, service};
use crate::uptime::{Uptime, timeout};
use crate::wake_reason::WakeReason;
use crate::{Feeder, FeederFault};
use conn_core::Reason;
use connections::logging::{
    log_connected, log_deferred, log_given_up, log_over, log_refused, log_stopped, text_of,
};
use connections::{ArticleSource, PeerConnection, due_at, kept_until};
use disk_model::Disk;
use flusher::{Naming, Pace, Post, Signals, Who, Work};
use log::Log;
use std::net::Net;
use std::rt::Clock;
use std::sync::Wait;

// How often what was dropped is logged in a run that goes on until it is ended.
const DROPS_PERIOD_SECONDS: u64 = 3_600;

// How long what is held may wait for replies if the run is to end in good order.
const DRAINING_MAX_SECONDS: u64 = 10;

impl<D: Disk, S: ArticleSource + Drop, C: Net + Drop, N: Naming> Work<D, N> for Feeder<S, C, N> {
    /// Works on its share of the connections until
    ///
    /// - all threads are stopped; or
    /// - the run is to end in good order, and what is held has its replies, or 10 seconds have passed; or
    /// - it is the last phase, and no debt of its peers is ready or held, or could still be sent by this feeder.
    ///
    /// The fault of a peer's tape ends the work for that peer and begins the last phase; any other fault stops all
    /// threads. At the end the peers have a second to end the connections; what is still held then goes back.
    fn run<R: AllocGlobal + Wait + Clock + Log, P: Pace>(
        &mut self,
        rt: &R,
        post: &Post<D, N>,
        signals: &Signals,
        pace: &P,
    ) {
        if let Err(fault) = self.work(rt, post, signals, pace) {
            self.keep_fault(fault);
            signals.stop();
        }
        self.shut_down(rt, post, signals, pace);
    }
}

impl<S: ArticleSource + Drop, C: Net + Drop, N: Naming> Feeder<S, C, N> {
    fn keep_fault(&mut self, fault: FeederFault) {
        self.fault = self.fault.or(Some(fault));
    }

    fn work<D: Disk, R: Wait + Clock + Log, P: Pace>(
        &mut self,
        rt: &R,
        post: &Post<D, N>,
        signals: &Signals,
        pace: &P,
    ) -> Result<(), FeederFault> {
        for _ in rt.forever() {
            if signals.is_stopped() {
                return Ok(());
            }
            let last_phase = signals.is_last_phase();
            let now = Uptime::now(rt, self.start)?;
            self.read_signals(signals, now.seconds);
            let view = self.post_view(post, pace, now.seconds, false);
            self.catch_up(rt, now.seconds)?;
            self.service_all(rt, &view)?;
            if self.has_lost_tape {
                self.has_lost_tape = false;
                signals.lose_tape();
            }
            self.pass_second(rt, &view);
            self.connect_due(rt, &view, last_phase);
            if self.is_drained(now.seconds) {
                return Ok(());
            }
            if last_phase && self.ends_last_phase(rt, &view)? {
                return Ok(());
            }
            if self.awaits_flush() || self.is_half_full {
                self.is_half_full = false;
                signals.order();
            }
            let _ = self.wait(rt, self.wake_reason(last_phase).sleep(now.millis))?;
        }
        unreachable!()
    }

    // Keeps the times at which the last phase began and the run was asked to end. Once it sees that an article was
    // found, each connection is serviced: what was put off as missing may be offered again.
    fn read_signals(&mut self, signals: &Signals, now: u64) {
        if signals.is_last_phase() {
            self.last_phase_since = self.last_phase_since.or(Some(now));
        }
        if signals.is_draining() {
            self.draining_since = self.draining_since.or(Some(now));
        }
        if !self.has_found && self.tally.has_found() {
            self.has_found = true;
            self.mark_all_dirty();
        }
    }

    // Whether the run is to end, and no connection holds anything any more or the time for that is over.
    fn is_drained(&self, now: u64) -> bool {
        let Some(since) = self.draining_since else {
            return false;
        };
        now.saturating_sub(since) >= DRAINING_MAX_SECONDS
            || !self.connections.iter().any(|(_, one)| one.holds_debts())
    }

    /// The post as this feeder uses it now; `waits` is whether `put_off` and `release` wait for a front that is in use
    /// ([`PostView::waits`]).
    pub(crate) fn post_view<'a, D: Disk, P: Pace>(
        &self,
        post: &'a Post<D, N>,
        pace: &'a P,
        now: u64,
        waits: bool,
    ) -> PostView<'a, D, N, P> {
        PostView {
            post: LentPost::new(post),
            pace,
            who: Who::Feeder(self.which),
            now,
            due: due_at(now, self.last_phase_since, self.has_found),
            kept_until: kept_until(now, self.last_phase_since),
            claims: self.draining_since.is_none(),
            waits,
        }
    }

    // If a second has passed, polls until all that has come is known: it is not late, even if this thread stood still.
    // One poll reports EVENTS_MAX events at most, and none twice.
    fn catch_up<R: Log>(&mut self, rt: &R, now: u64) -> Result<(), FeederFault> {
        if self.ticked == Some(now) {
            return Ok(());
        }
        for _ in 0..=self.connections.len() / EVENTS_MAX {
            if self.wait(rt, 0)? < EVENTS_MAX {
                return Ok(());
            }
        }
        Ok(())
    }

    // If a second has passed, ticks each connection, has the slots checked, publishes what was counted, and logs which
    // peers are down and what was dropped if that is due.
    fn pass_second<D: Disk, R: Wait + Log, P: Pace>(
        &mut self,
        rt: &R,
        view: &PostView<'_, D, N, P>,
    ) {
        if self.ticked == Some(view.now) {
            return;
        }
        self.ticked = Some(view.now);
        self.checks_slots = true;
        for key in 0..self.connections.capacity() {
            self.tick_one(rt, view, key);
        }
        self.listed.add_all();
        self.look_half_full(view);
        self.tell_outages(rt, view.now);
        self.publish_counts(rt, view.now);
        if self.is_lasting && self.which == 0 && is_log_due(self.drops_logged, view.now) {
            self.drops_logged = view.now;
            self.log_drops(rt);
        }
    }

    // Logs what was dropped for each peer since this was logged last, and that no article was found, if some were
    // missing. One feeder does it for both.
    fn log_drops<R: Wait + Log>(&self, rt: &R) {
        for at in 0..self.peers.len() {
            let target = &self.peers[at].target;
            self.tally.log_peer(rt, target.peer, text_of(&target.name));
        }
        self.tally.log_none_found(rt);
    }

    // Ticks a connection, and logs what was deferred on it. One that has been idle for long is left, and no longer
    // counts as room.
    fn tick_one<D: Disk, R: Log, P: Pace>(
        &mut self,
        rt: &R,
        view: &PostView<'_, D, N, P>,
        key: usize,
    ) {
        let Some(connection) = self.connections.get_mut(key) else {
            return;
        };
        connection.tick(view.now);
        connection.rest(&mut self.rooms);
        if self.is_lasting {
            view.give_room(connection.peer(), connection.leave_idle(view.now));
        }
        let deferred = connection.take_deferred();
        if let Some(slot) = self.slots.get(connection.slot()) {
            log_deferred(rt, name_of(&self.peers, slot.target()), &deferred);
        }
    }

    /// Services each connection that needs it.
    pub(crate) fn service_all<D: Disk, R: Wait + Log, P: Pace>(
        &mut self,
        rt: &R,
        view: &PostView<'_, D, N, P>,
    ) -> Result<(), FeederFault> {
        if !self.listed.begin_turn() {
            return self.service_turn(rt, view);
        }
        for key in 0..self.connections.capacity() {
            self.service_one(rt, view, key)?;
        }
        Ok(())
    }

    // Services the connections of the turn that need it.
    fn service_turn<D: Disk, R: Wait + Log, P: Pace>(
        &mut self,
        rt: &R,
        view: &PostView<'_, D, N, P>,
    ) -> Result<(), FeederFault> {
        for at in 0..usize::MAX {
            let Some(key) = self.listed.in_turn(at) else {
                return Ok(());
            };
            self.service_one(rt, view, key)?;
        }
        Ok(())
    }

    // Services a connection, if it needs it, and drops it if it is over. One that still needs service is of the next
    // turn, too.
    fn service_one<D: Disk, R: Wait + Log, P: Pace>(
        &mut self,
        rt: &R,
        view: &PostView<'_, D, N, P>,
        key: usize,
    ) -> Result<(), FeederFault> {
        let Some((connection, mut env)) = self.connection_and_env(key) else {
            return Ok(());
        };
        if !connection.needs_service() {
            return Ok(());
        }
        let (slot, peer) = (connection.slot(), connection.peer());
        match service(connection, rt, view, &mut env) {
            Ok(()) => {}
            Err(fault) if is_of_tape(fault) => {
                self.lose_peer(rt, view, slot, fault);
                return Ok(());
            }
            Err(fault) => return Err(fault),
        }
        self.count_room(key);
        self.on_agreed(rt, view, key);
        if self.connections.get(key).is_some_and(|one| one.is_over()) {
            self.remove(rt, view, key);
        }
        if self
            .connections
            .get(key)
            .is_some_and(|one| one.needs_service())
        {
            self.listed.add(key);
        }
        self.is_half_full |= view.take_half_full(peer);
        Ok(())
    }

    // Counts the room of a connection's output after its service.
    fn count_room(&mut self, key: usize) {
        if let Some(connection) = self.connections.get_mut(key) {
            connection.count_room(&mut self.rooms);
        }
    }

    /// A connection, and what servicing it uses.
    pub(crate) fn connection_and_env(
        &mut self,
        key: usize,
    ) -> Option<(&mut PeerConnection, ServiceEnv<'_, S, N>)> {
        let slot = self.connections.get(key)?.slot();
        let at = self.slots.get(slot)?.target();
        let (drops_missing, gives_up) = (self.drops_missing, !self.is_lasting);
        let connection = self.connections.get_mut(key)?;
        let env = ServiceEnv {
            peer: self.peers.get_mut(at)?,
            spool: &mut self.spool,
            tally: &self.tally,
            suspects: &self.suspects,
            drops_missing,
            buffer: &mut self.buffer,
            share: &mut self.share,
            unread: &mut self.unread,
            gives_up,
        };
        Some((connection, env))
    }

    // Notes at a connection's slot that its peer has agreed to a mode, if it just has.
    fn on_agreed<D: Disk, R: Wait + Log, P: Pace>(
        &mut self,
        rt: &R,
        view: &PostView<'_, D, N, P>,
        key: usize,
    ) {
        let Some(connection) = self.connections.get_mut(key) else {
            return;
        };
        if !connection.take_agreed() {
            return;
        }
        let less = connection.shrink();
        view.give_room(connection.peer(), less);
        view.set_failing(connection.peer(), false);
        self.checks_slots |= less > 0;
        if let Some(slot) = self.slots.get_mut(connection.slot()) {
            slot.agreed();
            let name = name_of(&self.peers, slot.target());
            log_connected(rt, name, connection.address(), connection.mode());
            self.note_agreed(rt, key);
        }
    }

    // The tape of a slot's peer failed: drops the peer's connections. The peer gets no more debts in this run.
    fn lose_peer<D: Disk, R: Wait + Log, P: Pace>(
        &mut self,
        rt: &R,
        view: &PostView<'_, D, N, P>,
        slot: usize,
        fault: FeederFault,
    ) {
        let Some(slot) = self.slots.get(slot) else {
            return;
        };
        let at = slot.target();
        self.keep_fault(fault);
        self.has_lost_tape = true;
        log_stopped(rt, name_of(&self.peers, at), "its tape failed");
        if let Some(peer) = self.peers.get_mut(at) {
            peer.is_closed = true;
            peer.figures.has_failed = true;
        }
        for key in 0..self.connections.capacity() {
            let is_of_peer = match self.connections.get(key) {
                Some(connection) => self.is_to_peer(connection, at),
                None => false,
            };
            if is_of_peer {
                self.drop_lost(rt, view, key);
            }
        }
    }

    // Drops a connection whose peer's tape failed. What it holds is left to the next run.
    fn drop_lost<D: Disk, R: Wait + Log, P: Pace>(
        &mut self,
        rt: &R,
        view: &PostView<'_, D, N, P>,
        key: usize,
    ) {
        let Some(mut connection) = self.connections.try_remove(key) else {
            return;
        };
        connection.give_up();
        self.on_over(rt, view, connection);
    }

    /// Drops a connection, or leaves that to the next turn if its peer's front is in use. What it may still hold is
    /// ready again. Its slot waits, unless the connection ended in good order or is retried.
    pub(crate) fn remove<D: Disk, R: Wait + Log, P: Pace>(
        &mut self,
        rt: &R,
        view: &PostView<'_, D, N, P>,
        key: usize,
    ) {
        let Some(connection) = self.connections.get_mut(key) else {
            return;
        };
        if !view.release(rt, connection.peer(), connection.id()) {
            connection.mark_blocked();
            return;
        }
        if let Some(connection) = self.connections.try_remove(key) {
            self.on_over(rt, view, connection);
        }
    }

    // A connection is dropped: passes on to its slot how it ended, and logs that.
    fn on_over<D: Disk, R: Wait + Log, P: Pace>(
        &mut self,
        rt: &R,
        view: &PostView<'_, D, N, P>,
        connection: PeerConnection,
    ) {
        let mut connection = connection;
        connection.uncount_room(&mut self.rooms);
        view.give_room(connection.peer(), connection.room());
        let last_phase = self.last_phase_since.is_some();
        if !connection.is_made() {
            self.unmade(view, connection.slot(), last_phase);
        } else if let Some(slot) = self.slots.get_mut(connection.slot()) {
            let is_retried = connection.is_retried()
                && self
                    .peers
                    .get_mut(slot.target())
                    .is_some_and(|peer| peer.take_retry());
            let is_let_go = self.is_lasting && connection.is_let_go(view.now);
            if is_retried || is_let_go || connection.closed() == Some(Reason::Quit) {
                slot.left();
            } else {
                slot.lost(view.now);
                if last_phase {
                    view.set_failing(connection.peer(), true);
                }
            }
        }
        self.checks_slots = true;
        if let Some(slot) = self.slots.get(connection.slot()) {
            let name = name_of(&self.peers, slot.target());
            log_deferred(rt, name, &connection.take_deferred());
            log_over(rt, name, &connection);
        }
        self.note_over(rt, view.now, &connection);
        self.add_counts(&mut connection);
        self.publish_end(rt, &connection);
    }

    // Whether no debt of its peers is ready or held, or could still be sent by this feeder. A connection that is to be
    // serviced may claim one that has waited.
    fn is_done<D: Disk, P: Pace>(&self, view: &PostView<'_, D, N, P>) -> Result<bool, FeederFault> {
        if self
            .connections
            .iter()
            .any(|(_, one)| one.holds_debts() || one.needs_service())
        {
            return Ok(false);
        }
        for at in 0..self.peers.len() {
            let peer = &self.peers[at];
            if peer.is_closed || self.is_given_up(at) {
                continue;
            }
            if self.awaits_suspects(at) || !view.all_later(peer.target.peer)? {
                return Ok(false);
            }
        }
        Ok(true)
    }

    // Whether in the last stage a suspect of this peer may still be offered by this feeder: it has a connection, or may
    // be given one.
    fn awaits_suspects(&self, at: usize) -> bool {
        let Some(peer) = self.peers.get(at) else {
            return false;
        };
        let awaits_look_up = peer.asked.is_some()
            && peer.target.addresses.is_empty()
            && !peer.is_unknown;
        peer.is_last_stage
            && self.suspects.has_pending(peer.target.peer)
            && (self.checks_slots || awaits_look_up || self.has_connection(at))
    }

    fn has_connection(&self, at: usize) -> bool {
        self.connections
            .iter()
            .any(|(_, one)| self.is_to_peer(one, at))
    }

    // Whether this connection is one to this peer.
    fn is_to_peer(&self, connection: &PeerConnection, at: usize) -> bool {
        match self.slots.get(connection.slot()) {
            Some(slot) => slot.target() == at,
            None => false,
        }
    }

    // Begins the last stage for each peer for which it is due. If nothing is left to do, logs which peers are given up,
    // and returns true.
    fn ends_last_phase<D: Disk, R: Wait + Log, P: Pace>(
        &mut self,
        rt: &R,
        view: &PostView<'_, D, N, P>,
    ) -> Result<bool, FeederFault> {
        self.begin_last_stages(view)?;
        if !self.is_done(view)? {
            return Ok(false);
        }
        self.log_given_up(rt, view);
        Ok(true)
    }

    fn begin_last_stages<D: Disk, P: Pace>(
        &mut self,
        view: &PostView<'_, D, N, P>,
    ) -> Result<(), FeederFault> {
        for at in 0..self.peers.len() {
            if self.is_last_stage_due(view, at)? {
                self.begin_last_stage(at);
            }
        }
        Ok(())
    }

    // Whether a suspect of an earlier run of this peer was not offered yet, nothing of the peer is ready or held, no
    // connection to it is to be serviced, and it is not given up.
    fn is_last_stage_due<D: Disk, P: Pace>(
        &self,
        view: &PostView<'_, D, N, P>,
        at: usize,
    ) -> Result<bool, FeederFault> {
        let Some(peer) = self.peers.get(at) else {
            return Ok(false);
        };
        let is_out = peer.is_last_stage || peer.is_closed || self.is_given_up(at);
        if is_out || !self.suspects.has_pending(peer.target.peer) || self.is_at_work(at) {
            return Ok(false);
        }
        view.all_later(peer.target.peer)
    }

    // Whether a connection to this peer holds a debt or is to be serviced.
    fn is_at_work(&self, at: usize) -> bool {
        self.connections.iter().any(|(_, one)| {
            self.is_to_peer(one, at) && (one.holds_debts() || one.needs_service())
        })
    }

    fn begin_last_stage(&mut self, at: usize) {
        if let Some(peer) = self.peers.get_mut(at) {
            peer.is_last_stage = true;
        }
        self.checks_slots = true;
        self.mark_all_dirty();
    }

    // Whether in the last phase all its slots of this peer are given up.
    fn is_given_up(&self, at: usize) -> bool {
        self.slots_of(at).iter().all(|slot| slot.is_given_up(true))
    }

    // Logs each peer that it gives up, if it is the last feeder of the peer to do so and the peer has debts that could
    // be sent.
    fn log_given_up<D: Disk, R: Wait + Log, P: Pace>(&self, rt: &R, view: &PostView<'_, D, N, P>) {
        for at in 0..self.peers.len() {
            let target = &self.peers[at].target;
            if self.is_given_up(at)
                && !self.slots_of(at).is_empty()
                && view.give_up(target.peer, target.feeders())
                && view.has_work(rt, target.peer)
            {
                log_given_up(rt, name_of(&self.peers, at));
            }
        }
    }

    // Looks whether a front of its peers has become half full of pending notes.
    fn look_half_full<D: Disk, P: Pace>(&mut self, view: &PostView<'_, D, N, P>) {
        for at in 0..self.peers.len() {
            self.is_half_full |= view.take_half_full(self.peers[at].target.peer);
        }
    }

    fn wake_reason(&self, last_phase: bool) -> WakeReason {
        if self.any_needs(Need::Turn) {
            WakeReason::Now
        } else if self.checks_slots || self.any_needs(Need::Front) {
            WakeReason::Busy
        } else if self.awaits_flush() {
            WakeReason::Flush
        } else if last_phase || self.draining_since.is_some() {
            WakeReason::LastPhase
        } else {
            WakeReason::None
        }
    }

    /// Whether an outcome of a connection waits for a flush.
    pub(crate) fn awaits_flush(&self) -> bool {
        self.any_needs(Need::Flush)
    }

    // Whether a connection that is to be serviced needs this.
    fn any_needs(&self, need: Need) -> bool {
        if self.listed.has_all() {
            return self.connections.iter().any(|(_, one)| has_need(one, need));
        }
        for at in 0..usize::MAX {
            let Some(key) = self.listed.in_next(at) else {
                return false;
            };
            if let Some(one) = self.connections.get(key)
                && has_need(one, need)
            {
                return true;
            }
        }
        false
    }

    /// Polls for `at_most` milliseconds at most, and returns how many events came. Each marks its connection; after a
    /// wake all connections need service, and the slots are to be checked.
    ///
    /// # Errors
    /// `System`; the reason is logged.
    pub(crate) fn wait<R: Log>(&mut self, rt: &R, at_most: u64) -> Result<usize, FeederFault> {
        if let Err(error) = self.poll.poll(&mut self.events, timeout(at_most)) {
            log_refused(rt, "poll sockets", &error);
            return Err(FeederFault::System);
        }
        let mut is_woken = false;
        let mut count = 0usize;
        for event in &self.events {
            count = count.saturating_add(1);
            if event.token() == WAKER_TOKEN {
                is_woken = true;
            } else if let Some(connection) = self.connections.get_mut(event.token().0) {
                connection.on_event(event);
                self.listed.add(event.token().0);
            }
        }
        if is_woken {
            self.checks_slots = true;
            self.mark_all_dirty();
        }
        Ok(count)
    }

    fn mark_all_dirty(&mut self) {
        self.listed.add_all();
        for key in 0..self.connections.capacity() {
            if let Some(connection) = self.connections.get_mut(key) {
                connection.mark_dirty();
            }
        }
    }
}

// What a connection may need before it can go on.
#[derive(Clone, Copy)]
enum Need {
    // The next turn, at once.
    Turn,
    // The front or the tape of its peer, which was in use.
    Front,
    // A flush, which makes room for an outcome.
    Flush,
}

fn has_need(connection: &PeerConnection, need: Need) -> bool {
    match need {
        Need::Turn => connection.is_dirty(),
        Need::Front => connection.is_blocked(),
        Need::Flush => connection.awaits_flush(),
    }
}

// Whether what was dropped is to be logged now, if it was logged last at this earlier second.
fn is_log_due(logged: u64, now: u64) -> bool
    ensures { result ≡ nat_le 3600 (now - logged) }
{
    now.saturating_sub(logged) >= DROPS_PERIOD_SECONDS
}
