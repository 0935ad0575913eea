// One connection: its protocol state, its socket, and what it holds.
ghost use Rattle.std.specs.Prelude.{◌≡◌, ◌++◌, IsSome, None, Some};
ghost use Rattle.conn_core.specs.State.{untold_at};
ghost use Rattle.connections.specs.Articles.{HandsInNothing};
ghost use Rattle.connections.specs.Counted.{counts_after};
ghost use Rattle.connections.specs.Given.{outcomes_in};
ghost use Rattle.peer_counts.specs.Counts.{no_counts};

mod exchange;
mod handing;

use crate::answer_counts::{count_of, made_once, offered_once};
use crate::blame::{Blame, ConnectionEnd};
use crate::close_reason::{CloseReason, ObservedEnd, SessionStage};
use crate::conn_calls::{break_conn, offer_to, quit_conn};
use crate::deferrals::Deferrals;
use crate::given_outcome::GivenOutcome;
use crate::large_rooms::LargeRooms;
use crate::last_stage::failed_until;
use crate::line_head::LineHead;
use crate::login_stage::LoginStage;
use crate::setbacks::{Failure, Setbacks};
use article_store::Unsendable;
use conn_core::{Conn, CxnId, Mode, Outcome, Ready, Reason};
use event_loop::SocketLink;
use funnel::MsgId;
use ledger_core::{Debt, Key};
use login::{Login, LoginStep};
use mio::event::Event;
use peer_counts::PeerCounts;
use std::alloc::Global;
use std::io::{self, ErrorKind};
use std::mem;
use std::net::SocketAddr;

// How long a connection may hold nothing before it is left.
const IDLE_MAX_SECONDS: u64 = 60;

// How long the peer has to end a connection that was left.
const GOODBYE_MAX_SECONDS: u64 = 10;

// If a connection has held nothing for so long, its slot need not wait after the peer closed it.
const RESTED_MIN_SECONDS: u64 = 10;

// How long a host has to accept a connection.
const CONNECTING_MAX_SECONDS: u64 = 10;

/// Whose connection it is.
#[derive(Clone, Copy)]
pub struct ConnectionOwner {
    /// The index of its peer at the post.
    pub peer: usize,
    /// The index of its slot among the feeder's slots.
    pub slot: usize,
    /// How many debts it counts as room for, among the peer's connections.
    pub room: u64,
}

// The debt at which a connection failed, and until when it is to be put off.
#[derive(Clone, Copy)]
struct Judged {
    key: Key,
    until: Option<u64>,
}

/// A connection of a feeder.
#[derive(Drop)]
pub struct PeerConnection {
    alloc: Global,
    conn: Conn,
    link: SocketLink,
    // Its login. Its machine waits until that is accepted.
    login: LoginStage,
    address: SocketAddr,
    owner: ConnectionOwner,
    // The second in which it was begun.
    begun: u64,
    failure: Option<io::Error>,
    // The socket has not been reported ready yet.
    is_connecting: bool,
    // The peer has sent a whole line that did not close it.
    has_greeted: bool,
    // The beginning of the line that is not whole.
    line_head: LineHead,
    agreed: Option<Mode>,
    // The feeder has asked for its end.
    is_left: bool,
    ended: ObservedEnd,
    // The key of the debt whose article could not be read.
    unread: Option<Key>,
    // Why articles cannot be sent that were handed in, until their debts are settled.
    unsendable: Vec<(Key, Unsendable)>,
    // The debt at which it failed, once that came back.
    judged: Option<Judged>,
    // Something happened on it, or may have: it needs service.
    is_dirty: bool,
    // Its peer's front was in use, or the tape that alone has a debt's texts.
    is_blocked: bool,
    // How many debts it holds.
    held: u64,
    // An outcome that the station could not take yet. It goes before all others.
    kept: Option<GivenOutcome>,
    // What its peer deferred since `take_deferred`.
    deferred: Deferrals,
    // What it has counted since `take_counts`.
    counts: PeerCounts,
    // Since which second it has held nothing, once its peer has agreed to a mode.
    idle_since: Option<u64>,
    // With how many octets its output's room is counted among the large ones.
    large_room: usize,
}

impl PeerConnection {
    /// A connection to this address, begun in this second. If there is a login, it begins with that.
    pub fn new(
        alloc: Global,
        conn: Conn,
        link: SocketLink,
        login: Option<Login>,
        address: SocketAddr,
        owner: ConnectionOwner,
        begun: u64,
    ) -> Self {
        PeerConnection {
            alloc,
            conn,
            link,
            login: LoginStage::new(login),
            address,
            owner,
            begun,
            failure: None,
            is_connecting: true,
            has_greeted: false,
            line_head: LineHead::new(alloc),
            agreed: None,
            is_left: false,
            ended: ObservedEnd::Unseen,
            unread: None,
            unsendable: Vec::new(alloc),
            judged: None,
            is_dirty: false,
            is_blocked: false,
            held: 0,
            kept: None,
            deferred: Deferrals::new(),
            counts: PeerCounts::new(),
            idle_since: None,
            large_room: 0,
        }
    }

    pub fn id(&self) -> CxnId {
        self.conn.id()
    }

    /// The index of its peer at the post.
    pub fn peer(&self) -> usize {
        self.owner.peer
    }

    /// The index of its slot among the feeder's slots.
    pub fn slot(&self) -> usize {
        self.owner.slot
    }

    /// How many debts it counts as room for, among the peer's connections.
    pub fn room(&self) -> u64 {
        self.owner.room
    }

    pub fn address(&self) -> SocketAddr {
        self.address
    }

    /// Why it could not be made, if so.
    pub(crate) fn failure(&self) -> Option<&io::Error> {
        self.failure.as_ref()
    }

    /// What its peer has deferred since the last call.
    pub fn take_deferred(&mut self) -> Deferrals {
        mem::replace(&mut self.deferred, Deferrals::new())
    }

    /// What it has counted since the last call.
    pub fn take_counts(&mut self) -> PeerCounts
        ensures taken { result ≡ self.old.counts }
        ensures none { self.new ≡ record self.old { counts = no_counts } }
    {
        mem::replace(&mut self.counts, PeerCounts::new())
    }

    /// How many debts it holds.
    pub fn held(&self) -> u64
        ensures { result ≡ self.now.held }
    {
        self.held
    }

    /// Whether its peer's host accepted it.
    pub fn is_made(&self) -> bool {
        !self.is_connecting && self.failure.is_none()
    }

    pub fn closed(&self) -> Option<Reason> {
        self.conn.closed()
    }

    /// Whether it is to be serviced now: something happened on it, its peer's front or tape was in use, or an outcome
    /// of it was not taken.
    pub fn needs_service(&self) -> bool {
        self.is_dirty || self.is_blocked || self.kept.is_some()
    }

    /// Whether something happened on it, so that it can go on at once.
    pub fn is_dirty(&self) -> bool {
        self.is_dirty
    }

    /// Whether its peer's front or tape was in use, at its last service or when it was to be dropped.
    pub fn is_blocked(&self) -> bool {
        self.is_blocked
    }

    /// Whether its station could not take an outcome of it.
    pub fn has_kept_outcome(&self) -> bool {
        self.kept.is_some()
    }

    /// Whether an outcome of it waits for a flush, which makes room at the front.
    pub fn awaits_flush(&self) -> bool {
        self.kept.is_some() && !self.is_blocked
    }

    pub fn holds_debts(&self) -> bool {
        self.kept.is_some() || self.held > 0
    }

    /// Whether it can be dropped: it closed, and all its outcomes were taken.
    pub fn is_over(&self) -> bool {
        self.kept.is_none() && self.conn.closed().is_some()
    }

    /// Something happened on it.
    pub fn mark_dirty(&mut self) {
        self.is_dirty = true;
    }

    /// Its peer's front or tape is in use.
    pub fn mark_blocked(&mut self) {
        self.is_blocked = true;
    }

    /// It is serviced now.
    pub fn clear_marks(&mut self) {
        self.is_dirty = false;
        self.is_blocked = false;
    }

    /// Its socket was reported ready. The first report that it can be written ends connecting, with success or not.
    pub fn on_event(&mut self, event: &Event)
        ensures { HandsInNothing self.old.conn self.new.conn }
    {
        self.is_dirty = true;
        self.link.on_event(event);
        if self.is_connecting && (event.is_writable() || event.is_error()) {
            match self.link.take_error() {
                Ok(None) => self.is_connecting = false,
                Ok(Some(error)) | Err(error) => self.fail(error),
            }
        }
    }

    fn fail(&mut self, error: io::Error)
        ensures { HandsInNothing self.old.conn self.new.conn }
    {
        self.is_connecting = false;
        self.failure = Some(error);
        break_conn(&mut self.conn);
    }

    /// A second has passed. If the host has not accepted it within 10 seconds, it is given up.
    pub fn tick(&mut self, now: u64)
        ensures { HandsInNothing self.old.conn self.new.conn }
    {
        self.is_dirty = true;
        self.tick_connecting(now);
        self.tick_session(now);
        self.idle_since = if self.agreed.is_none() || self.holds_debts() {
            None
        } else {
            self.idle_since.or(Some(now))
        };
    }

    #[tactic(auto, using(crate::proofs::Calls::same_nothing))]
    fn tick_connecting(&mut self, now: u64)
        ensures { HandsInNothing self.old.conn self.new.conn }
    {
        if self.is_connecting && now.saturating_sub(self.begun) >= CONNECTING_MAX_SECONDS {
            self.fail(io::Error::from(ErrorKind::TimedOut));
        }
    }

    // For how many seconds it has held nothing, since its peer agreed to a mode.
    fn idle(&self, now: u64) -> u64 {
        match self.idle_since {
            Some(since) => now.saturating_sub(since),
            None => 0,
        }
    }

    /// If it has held nothing for a minute, asks the peer to end it; if that takes too long, breaks it. Returns the
    /// room that it no longer counts as.
    pub fn leave_idle(&mut self, now: u64) -> u64
        ensures { HandsInNothing self.old.conn self.new.conn }
    {
        let idle = self.idle(now);
        if idle >= IDLE_MAX_SECONDS && !self.is_left {
            self.leave();
            return mem::take(&mut self.owner.room);
        }
        if idle >= IDLE_MAX_SECONDS + GOODBYE_MAX_SECONDS {
            self.give_up();
        }
        0
    }

    /// Whether its end is no failure of its peer: it had held nothing for some seconds, and was left or closed by the
    /// peer.
    pub fn is_let_go(&self, now: u64) -> bool {
        let is_by_peer = matches!(self.ended, ObservedEnd::ByPeer | ObservedEnd::Fault(_))
            || matches!(self.conn.closed(), Some(Reason::Ended(_)));
        self.idle(now) >= RESTED_MIN_SECONDS && (self.is_left || is_by_peer)
    }

    /// Whether its peer has agreed to a mode since the last call.
    pub fn take_agreed(&mut self) -> bool {
        if self.agreed.is_some() {
            return false;
        }
        self.agreed = self.conn.mode();
        if self.agreed.is_none() {
            return false;
        }
        self.counts.add(&made_once());
        true
    }

    /// The mode that its peer has agreed to, as `take_agreed` found it.
    pub fn mode(&self) -> Option<Mode> {
        self.agreed
    }

    /// If it goes by IHAVE, which takes one debt at a time, it counts as room for one debt from now on. Returns how
    /// much less that is.
    pub fn shrink(&mut self) -> u64 {
        if self.agreed != Some(Mode::Ihave) {
            return 0;
        }
        let less = self.owner.room.saturating_sub(1);
        self.owner.room -= less;
        less
    }

    /// Whether a debt can be offered on it.
    pub fn is_ready(&self) -> bool {
        matches!(self.conn.ready(), Ready::Yes)
    }

    /// Asks the peer to end it in good order. If the peer has not agreed to a mode, breaks it.
    pub fn leave(&mut self)
        ensures { HandsInNothing self.old.conn self.new.conn }
    {
        self.is_dirty = true;
        self.is_left = self.conn.closed().is_none();
        if self.agreed.is_some() {
            quit_conn(&mut self.conn);
        } else {
            break_conn(&mut self.conn);
        }
    }

    /// Whether the feeder ended it itself before its peer had agreed to a mode.
    pub fn is_left_early(&self) -> bool {
        self.is_left && self.agreed.is_none()
    }

    /// Breaks it.
    pub fn give_up(&mut self)
        ensures { HandsInNothing self.old.conn self.new.conn }
    {
        self.is_left = true;
        self.end(ObservedEnd::ByUs);
        break_conn(&mut self.conn);
    }

    // Keeps what is seen of its end first.
    fn end(&mut self, ended: ObservedEnd)
        ensures { self.new.conn ≡ self.old.conn }
    {
        if matches!(self.ended, ObservedEnd::Unseen) {
            self.ended = ended;
        }
    }

    /// Counts the room of its output. If large rooms are too much then, and nothing is to be sent, gives its own back.
    pub fn count_room(&mut self, rooms: &mut LargeRooms)
        ensures { self.new.conn ≡ self.old.conn }
    {
        self.large_room = rooms.count(self.large_room, self.conn.output_room());
        if rooms.are_too_much() && self.conn.output().is_empty() {
            self.give_room_back(rooms);
        }
    }

    /// If it holds no debt, gives a large room of its output back.
    pub fn rest(&mut self, rooms: &mut LargeRooms)
        ensures { self.new.conn ≡ self.old.conn }
    {
        if !self.holds_debts() {
            self.give_room_back(rooms);
        }
    }

    // If the room of its output is large, gives that back.
    fn give_room_back(&mut self, rooms: &mut LargeRooms)
        ensures { self.new.conn ≡ self.old.conn }
    {
        if self.large_room > 0 {
            self.conn.give_room_back();
            self.large_room = rooms.count(self.large_room, self.conn.output_room());
        }
    }

    /// Its room is no longer counted: it is dropped.
    pub fn uncount_room(&mut self, rooms: &mut LargeRooms)
        ensures { self.new.conn ≡ self.old.conn }
    {
        self.large_room = rooms.count(self.large_room, 0);
    }

    /// Whether all output was sent, and more can be put out at once.
    pub fn can_go_on(&self) -> bool {
        self.conn.output().is_empty() && self.conn.wanted().is_some()
    }

    /// The next outcome; its debt is no longer held. After a lost debt the connection is to be serviced again, since no
    /// reply will come that shows that there is room for another debt.
    pub fn next_outcome(&mut self) -> Option<GivenOutcome>
        ensures kept { IsSome self.old.kept → result ≡ self.old.kept }
        ensures given { self.old.kept ≡ None → untold_at self.old.conn
            ≡ outcomes_in result ++ untold_at self.new.conn }
        ensures nothing { HandsInNothing self.old.conn self.new.conn }
        ensures counted { self.new.counts ≡ counts_after self.old.kept result self.old.counts }
    {
        if let Some(kept) = self.kept.take() {
            return Some(kept);
        }
        let given = GivenOutcome::next(&mut self.conn)?;
        self.counts.add(&count_of(given.get()));
        match given.get() {
            Outcome::Deferred(deferral) => self.deferred.add(deferral.debt()),
            Outcome::Lost(_, _) => self.is_dirty = true,
            Outcome::Final(_) | Outcome::Back(_) => {}
        }
        self.held = self.held.saturating_sub(1);
        Some(given)
    }

    /// Keeps an outcome that the station did not take.
    pub fn keep(&mut self, given: GivenOutcome)
        ensures { self.new.kept ≡ Some given }
    {
        self.kept = Some(given);
    }

    /// Offers a debt to the peer. A debt that is refused is kept, to go back.
    pub fn offer(&mut self, debt: Debt)
        ensures { HandsInNothing self.old.conn self.new.conn }
    {
        match offer_to(&mut self.conn, debt) {
            Ok(()) => {
                self.held = self.held.saturating_add(1);
                self.counts.add(&offered_once());
                self.idle_since = None;
            }
            Err(back) => self.kept = Some(GivenOutcome::back(back.debt)),
        }
    }

    /// Whether it closed and failed at this debt, which came back.
    pub fn is_failed_at(&self, debt: &Debt) -> bool {
        if let Some(judged) = self.judged {
            return judged.key == debt.key();
        }
        match self.conn_end().blame() {
            Blame::Nobody => false,
            Blame::Debt { key, .. } => key == debt.key(),
            Blame::Named => self
                .named()
                .is_some_and(|id| id.bytes() == debt.id().bytes()),
        }
    }

    /// It failed at the debt of this key, which came back, after these setbacks of its peer. Returns until when the
    /// debt is to be put off, if it is.
    pub fn judge(
        &mut self,
        key: Key,
        setbacks: &mut Setbacks,
        now: u64,
        is_last_stage: bool,
    ) -> Option<u64> {
        if let Some(judged) = self.judged {
            return judged.until;
        }
        let wait = match self.conn_end().blame() {
            Blame::Nobody => None,
            Blame::Debt { failure, .. } => setbacks.wait_after(key, failure),
            Blame::Named => setbacks.wait_after(key, Failure::AtDebt),
        };
        let until = failed_until(now, wait, is_last_stage);
        self.judged = Some(Judged { key, until });
        until
    }

    // The message-id in the reply that closed it.
    fn named(&self) -> Option<&MsgId> {
        self.conn.refused()?.id.as_ref()
    }

    // What is known of its end.
    fn conn_end(&self) -> ConnectionEnd {
        ConnectionEnd {
            reason: self.conn.closed(),
            is_by_us: self.is_left || self.ended.is_of_system(),
            is_without_spool: self.is_without_spool(),
            has_agreed: self.agreed.is_some(),
            names_id: self.named().is_some(),
            unread: self.unread,
            unanswered: self.conn.first_unanswered(),
        }
    }

    /// Whether its slot is tried again at once, as long as its peer has retries left.
    pub fn is_retried(&self) -> bool {
        self.conn_end().is_retried()
    }

    /// Whether it was broken because the spool has none of its articles.
    pub fn is_without_spool(&self) -> bool {
        matches!(self.ended, ObservedEnd::NoneFound)
    }

    /// Why the article of this debt cannot be sent, if that is known. It is told once.
    pub fn take_fault(&mut self, key: Key) -> Option<Unsendable> {
        let at = self.unsendable.iter().position(|one| one.0 == key)?;
        Some(self.unsendable.swap_remove(at).1)
    }

    pub(crate) fn close_reason(&self) -> CloseReason<'_> {
        CloseReason {
            reason: self.conn.closed(),
            refused: self.conn.refused(),
            ended: &self.ended,
        }
    }

    /// Whether its peer has an account.
    pub(crate) fn has_account(&self) -> bool {
        self.login.is_wanted()
    }

    pub(crate) fn stage(&self) -> SessionStage {
        match self.login.step() {
            Some(LoginStep::Greeting) => return SessionStage::Greeting,
            Some(LoginStep::User) => return SessionStage::User,
            Some(LoginStep::Password) => return SessionStage::Password,
            None => {}
        }
        match self.agreed {
            Some(Mode::Streaming) => SessionStage::Streaming,
            Some(Mode::Ihave) => SessionStage::Ihave,
            None if self.has_greeted => SessionStage::Mode,
            None => SessionStage::Greeting,
        }
    }
}
