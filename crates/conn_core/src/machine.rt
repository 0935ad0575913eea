// The state of a connection, and one step of it for each event.
ghost use Rattle.std.specs.Prelude.{◌≡◌, ◌≤◌, ◌<◌, ◌&&◌, ◌++◌, [], ◌∷◌};
ghost use Rattle.std.specs.Prelude.{if◌then◌else◌, Option, None, not, length, option_map, slice_get, is_none};
ghost use Rattle.std.specs.Prelude.{is_some, find, IfOk, IfErr, OnOk, OnErr};
ghost use Rattle.std.specs.Option.{option_copied};
ghost use Rattle.conn_core.specs.Commands.{Held, Want, check_of, held_for, is_of, want_of};
ghost use Rattle.conn_core.specs.History.{is_mode, is_streaming, room};
ghost use Rattle.conn_core.specs.Machine.{TakesOne, asked, asked_to_quit, fresh, is_awaiting, newly, on_fault};
ghost use Rattle.conn_core.specs.Machine.{number_awaited, quit_if_due};
ghost use Rattle.conn_core.specs.Machine.{offered, ready_at, sent_off, close, ticked};
ghost use Rattle.conn_core.specs.Kept.{with_newly};
ghost use Rattle.conn_core.specs.Mode.{mode_at, mode_in};
ghost use Rattle.conn_core.specs.State.{output_of};
ghost use Rattle.conn_core.specs.declared.reason.Reason.TheVariants.{Broken};

use crate::check_switch::CheckSwitch;
use crate::codes::Verb;
use crate::held::HeldDebts;
use crate::kept::{AwaitedAsk, WantedArticle};
use crate::lines::{QUIT_OCTETS, VERB_MAX_OCTETS, empty, give_room_back, id_len, put_line, skip};
use crate::lookup::is_wanted;
use crate::mode::Mode;
use crate::options::Options;
use crate::outcome::Outcome;
use crate::phase::Phase;
use crate::quiet::QuietClock;
use crate::ready::Ready;
use crate::reason::Reason;
use bytes::{Bytes, BytesMut};
use ledger_core::{Debt, Key};
use reply_reader::ReplyFault;
use std::alloc::{AllocError, Global};
use std::collections::VecDeque;
use std::marker::Model;

mod answers;
mod articles;

#[derive(Drop)]
pub(crate) struct Machine {
    options: Options,
    phase: Phase,
    held: HeldDebts,
    // In the order in which they were put out.
    window: VecDeque<AwaitedAsk>,
    // The blocks of the IHAVEs that have no answer yet.
    blocks: VecDeque<Bytes>,
    // In the order in which they came to be wanted.
    wanted: VecDeque<WantedArticle>,
    // What is still to be sent. It keeps room for a QUIT until that is out.
    output: BytesMut,
    // It has room for an outcome of each debt held.
    found: VecDeque<Outcome>,
    closed: Option<Reason>,
    // The key of the debt whose command was the first without an answer when it closed.
    unanswered: Option<Key>,
    quitting: bool,
    switch: CheckSwitch,
    // Whether a reply answered a command about a debt.
    has_answered: bool,
    clock: QuietClock,
}

impl Model for Machine {
    ghost use Rattle.std.specs.Prelude.{◌≡◌, ◌+◌, ◌≤◌, length};
    ghost use Rattle.std.specs.VecDeque.{deque_capacity, deque_len};
    ghost use Rattle.conn_core.specs.Room.{quit_room};
    ghost use Rattle.conn_core.specs.State.{State};

    ghost Value = { State };

    ghost view = { λ m. record {
      options = m.options;
      phase = m.phase;
      held = m.held.debts;
      window = m.window.items;
      blocks = m.blocks.items;
      wanted = m.wanted.items;
      output = m.output.items;
      found = m.found.items;
      closed = m.closed;
      unanswered = m.unanswered;
      quitting = m.quitting;
      accepted = m.held.accepted;
      recent = m.switch.recent;
      off = m.switch.off;
      has_answered = m.has_answered;
      stirred = m.clock.stirred;
      quiet = m.clock.quiet;
    } };

    ghost invariant = { λ m. (quit_room m.phase ≤ m.output.spare)
        × (deque_len m.found + length m.held.debts ≤ deque_capacity m.found)
        × (m.switch.filter ≡ m.options.check_filter) };
}

// Whether the mode is streaming (RFC 4644, section 2.3).
fn is_streaming(phase: Phase) -> bool
    ensures { result ≡ is_streaming phase }
{
    match phase {
        Phase::Streaming => true,
        _ => false,
    }
}

// Whether a mode is agreed and QUIT is not out.
fn is_mode(phase: Phase) -> bool
    ensures { result ≡ is_mode phase }
{
    match phase {
        Phase::Streaming | Phase::OneByOne => true,
        _ => false,
    }
}

// The number of debts that may be held (innfeed.conf(5), max-queue-size).
fn room(options: &Options, phase: Phase) -> u64
    ensures { result ≡ room options.now phase }
{
    match phase {
        Phase::Streaming => options.max_queue,
        Phase::OneByOne => 1,
        _ => 0,
    }
}

// The mode of a stage (RFC 4644, section 2.3).
fn mode_in(phase: Phase) -> Option<Mode>
    ensures { result ≡ mode_in phase }
{
    match phase {
        Phase::Streaming => Some(Mode::Streaming),
        Phase::OneByOne => Some(Mode::Ihave),
        _ => None,
    }
}

impl Machine {
    pub(crate) fn new(alloc: Global, options: Options) -> Result<Self, AllocError>
        ensures { IfOk result (λ m. m ≡ fresh options) }
    {
        Ok(Machine {
            options,
            phase: Phase::Greeting,
            held: HeldDebts::new(alloc),
            window: VecDeque::new(alloc),
            blocks: VecDeque::new(alloc),
            wanted: VecDeque::new(alloc),
            output: BytesMut::with_capacity(alloc, QUIT_OCTETS)?,
            found: VecDeque::new(alloc),
            closed: None,
            unanswered: None,
            quitting: false,
            switch: CheckSwitch::new(alloc, options.check_filter)?,
            has_answered: false,
            clock: QuietClock::new(),
        })
    }

    pub(crate) fn ready(&self) -> Ready
        ensures { result ≡ ready_at self.now }
    {
        if self.closed.is_some() || self.quitting {
            return Ready::Shut;
        }
        if (self.held.len() as u64) < room(&self.options, self.phase) {
            Ready::Yes
        } else {
            Ready::Busy
        }
    }

    // `None` once closed.
    pub(crate) fn mode(&self) -> Option<Mode>
        ensures { result ≡ mode_at self.now }
    {
        if self.closed.is_some() {
            return None;
        }
        mode_in(self.phase)
    }

    // Takes a debt if it is ready. An `Err` hands the debt back and changes nothing.
    pub(crate) fn offer(&mut self, debt: Debt) -> Result<(), Debt>
        ensures ok { OnOk result (self.new ≡ offered self.old debt) }
        ensures unchanged { OnErr result (self.new ≡ self.old) }
        ensures returned { IfErr result (λ back. back ≡ debt) }
    {
        if is_streaming(self.phase) && self.switch.checks() {
            self.offer_asking(debt)
        } else {
            self.offer_wanting(debt)
        }
    }

    // Takes a debt and puts its CHECK out (RFC 4644, section 2.4).
    fn offer_asking(&mut self, debt: Debt) -> Result<(), Debt>
        ensures ok { OnOk result
            (self.new ≡ asked (with_newly self.old debt) (check_of (newly self.old debt))) }
        ensures unchanged { OnErr result (self.new ≡ self.old) }
        ensures returned { IfErr result (λ back. back ≡ debt) }
    {
        let line = id_len(debt.id()) + VERB_MAX_OCTETS;
        if self.held.reserve().is_err()
            || self.found.reserve(self.held.len() + 1).is_err()
            || self.window.reserve(1).is_err()
            || self.output.reserve(line + QUIT_OCTETS).is_err()
        {
            return Err(debt);
        }
        put_line(&mut self.output, b"CHECK ", debt.id().bytes());
        let ask = AwaitedAsk::new(Verb::Check, self.held.next_ticket());
        self.window.push_back_reserved(ask);
        self.held.put(debt);
        Ok(())
    }

    fn offer_wanting(&mut self, debt: Debt) -> Result<(), Debt>
        ensures ok { OnOk result
            (self.new ≡ record (with_newly self.old debt)
            { wanted = self.old.wanted ++ want_of (newly self.old debt) ∷ [] }) }
        ensures unchanged { OnErr result (self.new ≡ self.old) }
        ensures returned { IfErr result (λ back. back ≡ debt) }
    {
        if self.held.reserve().is_err()
            || self.found.reserve(self.held.len() + 1).is_err()
            || self.wanted.reserve(1).is_err()
        {
            return Err(debt);
        }
        let want = WantedArticle::new(self.held.next_ticket(), debt.key());
        self.wanted.push_back_reserved(want);
        self.held.put(debt);
        Ok(())
    }

    // The key of the first want; `None` once closed.
    pub(crate) fn need(&self) -> Option<Key>
        ensures { result
            ≡ (if is_some self.now.closed then None else option_map (λ (want : Want). want.key)
            (slice_get self.now.wanted 0)) }
    {
        if self.closed.is_some() {
            return None;
        }
        match self.wanted.front() {
            Some(want) => Some(want.key()),
            None => None,
        }
    }

    // The debt of the first want; `None` once closed.
    pub(crate) fn wanted(&self) -> Option<&Debt>
        ensures { option_copied result
            ≡ (if is_some self.now.closed then None else option_map (λ (x : Held). x.debt)
            (held_for self.now.held (slice_get self.now.wanted 0))) }
    {
        if self.closed.is_some() {
            return None;
        }
        match self.wanted.front() {
            Some(want) => self.held.debt_at(want.ticket()),
            None => None,
        }
    }

    pub(crate) fn needs(&self, key: Key) -> bool
        ensures { result ≡ (is_none self.now.closed
            && is_some (find (is_of key) self.now.wanted)) }
    {
        self.closed.is_none() && is_wanted(&self.wanted, key)
    }

    // Puts QUIT out if it is due (RFC 3977, section 5.4).
    fn quit_if_due(&mut self)
        ensures { self.new ≡ quit_if_due self.old }
    {
        if self.quitting && is_mode(self.phase) && self.held.is_empty() && self.closed.is_none() {
            self.phase = Phase::Leaving;
            self.output.extend_reserved(b"QUIT\r\n");
        }
    }

    // All that is held comes out from now on.
    fn close(&mut self, reason: Reason)
        ensures { self.new ≡ close reason self.old }
    {
        self.unanswered = self.first_awaited();
        self.closed = Some(reason);
        empty(&mut self.output);
    }

    fn first_awaited(&self) -> Option<Key>
        ensures { result ≡ number_awaited self.now.held (slice_get self.now.window 0) }
    {
        match self.window.front() {
            Some(ask) => self.held.key_at(ask.ticket()),
            None => None,
        }
    }

    pub(crate) fn unanswered(&self) -> Option<Key>
        ensures { result ≡ self.now.unanswered }
    {
        self.unanswered
    }

    pub(crate) fn on_fault(&mut self, fault: ReplyFault)
        ensures { self.new ≡ on_fault self.old fault }
    {
        self.close(Reason::Reader(fault));
    }

    // Whether an answer is awaited: the greeting, or the answer to MODE STREAM or to a command.
    fn is_awaiting(&self) -> bool
        ensures { result ≡ is_awaiting self.now }
    {
        !is_mode(self.phase) || !self.window.is_empty()
    }

    // Once closed, nothing changes.
    pub(crate) fn tick(&mut self, now: u64)
        ensures { self.new ≡ (if is_some self.old.closed then self.old else ticked self.old now) }
    {
        if self.closed.is_some() {
            return;
        }
        let awaiting = self.is_awaiting();
        let silent = self.clock.tick(awaiting, now);
        if awaiting && self.options.response_timeout <= silent {
            self.close(Reason::Timeout);
        }
        self.quit_if_due();
    }

    // Once closed, nothing changes.
    pub(crate) fn broken(&mut self)
        ensures { self.new ≡ (if is_some self.old.closed then self.old else close Broken self.old) }
    {
        if self.closed.is_none() {
            self.close(Reason::Broken);
        }
    }

    // Once closed, nothing changes.
    pub(crate) fn quit(&mut self)
        ensures { self.new
            ≡ (if is_some self.old.closed then self.old else asked_to_quit self.old) }
    {
        if self.closed.is_some() {
            return;
        }
        self.quitting = true;
        self.quit_if_due();
    }

    pub(crate) fn checks(&self) -> bool
        ensures { result ≡ not self.now.off }
    {
        self.switch.checks()
    }

    pub(crate) fn has_answered(&self) -> bool
        ensures { result ≡ self.now.has_answered }
    {
        self.has_answered
    }

    // The octets to be sent; none once closed.
    pub(crate) fn output(&self) -> &[u8]
        ensures { result.now ≡ output_of self.now }
    {
        if self.closed.is_some() {
            return &[];
        }
        self.output.as_slice()
    }

    // The first `count` octets count as sent. Once closed, nothing changes.
    pub(crate) fn sent(&mut self, count: usize)
        requires { count ≤ length (output_of self.old) }
        ensures { self.new
            ≡ (if is_some self.old.closed then self.old else sent_off self.old count) }
    {
        if self.closed.is_some() {
            return;
        }
        self.clock.stirred = count > 0 || self.clock.stirred;
        skip(&mut self.output, count);
    }

    // How many octets the output has room for, those that wait included.
    pub(crate) fn output_room(&self) -> usize
        ensures { length self.now.output ≤ result }
    {
        self.output.capacity()
    }

    // The octets that wait stay.
    pub(crate) fn give_room_back(&mut self)
        ensures { self.new ≡ self.old }
    {
        give_room_back(&mut self.output);
    }

    pub(crate) fn outcome(&mut self) -> Option<Outcome>
        ensures { TakesOne self.old result self.new }
    {
        if let Some(outcome) = self.found.pop_front() {
            return Some(outcome);
        }
        if self.closed.is_none() {
            return None;
        }
        match self.held.take_first() {
            Some(x) => Some(Outcome::Back(x.into_debt())),
            None => None,
        }
    }

    pub(crate) fn closed(&self) -> Option<Reason>
        ensures { result ≡ self.now.closed }
    {
        self.closed
    }
}
