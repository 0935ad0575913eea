// Replies that come in.
ghost use Rattle.std.specs.Prelude.{◌≡◌, ◌≢◌, ◌+◌, ◌≤◌, ◌++◌, drop, find, length, OnOk};
ghost use Rattle.std.specs.Prelude.{OnErr};
ghost use Rattle.reply_reader.specs.Next.{given_of};
ghost use Rattle.conn_core.specs.Checks.{counts};
ghost use Rattle.conn_core.specs.Commands.{is_at};
ghost use Rattle.conn_core.specs.Kept.{answered_with, parted_by, settled_by};
ghost use Rattle.conn_core.specs.Machine.{counted_by, dispatch_reply, first_block, let_go, on_greeting};
ghost use Rattle.conn_core.specs.Machine.{on_mode_answer, on_reply};

use super::Machine;
use crate::codes::{Meaning, Verb, counted, ends_all, is_welcome, meaning_of, stray};
use crate::deferral::Deferral;
use crate::kept::{AwaitedAsk, WantedArticle};
use crate::lines::{MODE_STREAM_OCTETS, QUIT_OCTETS};
use crate::lookup::take_answered;
use crate::mode::Mode;
use crate::outcome::Outcome;
use crate::phase::Phase;
use crate::reason::Reason;
use crate::verdict::Verdict;
use bytes::{Bytes, BytesMut};
use ledger_core::FinalCode;
use reply_reader::Reply;
use std::alloc::AllocError;
use std::collections::VecDeque;

impl Machine {
    // Takes a reply while it is open. An `Err` changes nothing.
    pub(crate) fn on_reply(&mut self, reply: &Reply) -> Result<(), AllocError>
        ensures ok { OnOk result (self.new ≡ on_reply self.old (given_of reply.now)) }
        ensures unchanged { OnErr result (self.new ≡ self.old) }
    {
        self.dispatch_reply(reply)?;
        self.clock.stirred = true;
        self.quit_if_due();
        Ok(())
    }

    // Takes a reply by what is awaited. An `Err` changes nothing.
    fn dispatch_reply(&mut self, reply: &Reply) -> Result<(), AllocError>
        ensures ok { OnOk result
            (self.new ≡ dispatch_reply self.old (given_of reply.now) self.old.phase) }
        ensures unchanged { OnErr result (self.new ≡ self.old) }
    {
        match self.phase {
            Phase::Greeting => self.on_greeting(reply.code),
            Phase::Asking => {
                self.on_mode_answer(reply.code);
                Ok(())
            }
            Phase::Streaming => self.answered(reply, Mode::Streaming),
            Phase::OneByOne => self.answered(reply, Mode::Ihave),
            Phase::Leaving => {
                self.close(Reason::Quit);
                Ok(())
            }
        }
    }

    // The greeting (RFC 3977, section 5.1). An `Err` changes nothing.
    fn on_greeting(&mut self, code: u16) -> Result<(), AllocError>
        requires { self.old.phase ≡ Phase.Greeting }
        ensures ok { OnOk result (self.new ≡ on_greeting self.old code) }
        ensures unchanged { OnErr result (self.new ≡ self.old) }
    {
        if !is_welcome(code) {
            self.close(Reason::Greeting(code));
            return Ok(());
        }
        if self.options.streaming {
            self.output.reserve(MODE_STREAM_OCTETS + QUIT_OCTETS)?;
            self.output.extend_reserved(b"MODE STREAM\r\n");
            self.phase = Phase::Asking;
        } else {
            self.phase = Phase::OneByOne;
        }
        Ok(())
    }

    // The answer to MODE STREAM (RFC 4644, section 2.3).
    fn on_mode_answer(&mut self, code: u16)
        requires { self.old.phase ≡ Phase.Asking }
        ensures { self.new ≡ on_mode_answer self.old code }
    {
        if code == 203 {
            self.phase = Phase::Streaming;
        } else if ends_all(code) {
            self.close(Reason::Ended(code));
        } else {
            self.phase = Phase::OneByOne;
        }
    }

    // A reply once a mode is agreed. An `Err` changes nothing.
    fn answered(&mut self, reply: &Reply, mode: Mode) -> Result<(), AllocError>
        ensures ok { OnOk result
            (self.new ≡ answered_with self.old mode (given_of reply.now)) }
        ensures unchanged { OnErr result (self.new ≡ self.old) }
    {
        match reply.code {
            238 => self.wants(reply, mode),
            335 => self.sends_block(reply, mode),
            _ => {
                self.settles(reply, mode);
                Ok(())
            }
        }
    }

    // 238: the article of a CHECK is wanted (RFC 4644, section 2.4). An `Err` changes nothing.
    fn wants(&mut self, reply: &Reply, mode: Mode) -> Result<(), AllocError>
        requires { reply.now.code ≡ 238 }
        ensures ok { OnOk result
            (self.new ≡ answered_with self.old mode (given_of reply.now)) }
        ensures unchanged { OnErr result (self.new ≡ self.old) }
    {
        self.wanted.reserve(1)?;
        let Some(ask) = take_answered(&mut self.window, &self.held, reply, mode) else {
            self.close(stray(reply.code));
            return Ok(());
        };
        self.has_answered = true;
        match self.held.get(ask.ticket()) {
            Some(x) => {
                let want = WantedArticle::new(x.ticket(), x.debt().key());
                self.wanted.push_back_reserved(want);
                Ok(())
            }
            None => Ok(()),
        }
    }

    // 335: the block of an IHAVE goes out (RFC 3977, section 6.3.2). An `Err` changes nothing.
    fn sends_block(&mut self, reply: &Reply, mode: Mode) -> Result<(), AllocError>
        requires { reply.now.code ≡ 335 }
        ensures ok { OnOk result
            (self.new ≡ answered_with self.old mode (given_of reply.now)) }
        ensures unchanged { OnErr result (self.new ≡ self.old) }
    {
        self.window.reserve(1)?;
        room_for_block(&mut self.output, &self.blocks)?;
        let Some(ask) = take_answered(&mut self.window, &self.held, reply, mode) else {
            self.close(stray(reply.code));
            return Ok(());
        };
        self.has_answered = true;
        put_block(&mut self.output, &mut self.blocks);
        let block = AwaitedAsk::new(Verb::Block, ask.ticket());
        self.window.push_back_reserved(block);
        Ok(())
    }

    fn settles(&mut self, reply: &Reply, mode: Mode)
        requires not_wanted { reply.now.code ≢ 238 }
        requires no_block { reply.now.code ≢ 335 }
        ensures { self.new ≡ answered_with self.old mode (given_of reply.now) }
    {
        let Some(ask) = take_answered(&mut self.window, &self.held, reply, mode) else {
            self.close(stray(reply.code));
            return;
        };
        self.has_answered = true;
        self.let_go(ask.verb());
        self.count(reply.code);
        self.tell(meaning_of(ask.verb(), reply.code), ask.ticket());
    }

    fn let_go(&mut self, verb: Verb)
        ensures { self.new ≡ record self.old { blocks = let_go verb self.old.blocks } }
    {
        match verb {
            Verb::Ihave => {
                let _ = self.blocks.pop_front();
            }
            _ => {}
        }
    }

    // An answer of this code moves the check switch, if it counts.
    fn count(&mut self, code: u16)
        ensures { self.new ≡ counted_by self.old (counts code) }
    {
        match counted(code) {
            Some(accepts) => self.switch.count(&self.options, accepts),
            None => {}
        }
    }

    fn tell(&mut self, meaning: Option<Meaning>, ticket: u64)
        ensures { self.new
            ≡ settled_by self.old meaning ticket (find (is_at ticket) self.old.held) }
    {
        match meaning {
            Some(Meaning::Later) => self.put_off(ticket),
            Some(Meaning::Final(code)) => self.end(ticket, code),
            _ => {}
        }
    }

    fn put_off(&mut self, ticket: u64)
        ensures { self.new ≡ parted_by self.old ticket Meaning.Later
            (find (is_at ticket) self.old.held) }
    {
        match self.held.take(ticket) {
            Some(x) => {
                let deferral = Deferral::new(x.into_debt());
                self.found.push_back_reserved(Outcome::Deferred(deferral));
            }
            None => {}
        }
    }

    fn end(&mut self, ticket: u64, code: FinalCode)
        ensures { self.new ≡ parted_by self.old ticket (Meaning.Final code)
            (find (is_at ticket) self.old.held) }
    {
        match self.held.take(ticket) {
            Some(x) => {
                let verdict = Verdict::new(x.into_debt(), code);
                self.found.push_back_reserved(Outcome::Final(verdict));
            }
            None => {}
        }
    }
}

// Makes room for the first of these blocks, and for a QUIT after it.
fn room_for_block(output: &mut BytesMut, blocks: &VecDeque<Bytes>) -> Result<(), AllocError>
    ensures items { output.new.items ≡ output.old.items }
    ensures spare { output.old.spare ≤ output.new.spare }
    ensures room { OnOk result (length (first_block blocks.now.items) + 6 ≤ output.new.spare) }
{
    match blocks.front() {
        Some(block) => output.reserve(block.len() + QUIT_OCTETS),
        None => output.reserve(QUIT_OCTETS),
    }
}

// Moves the first of these blocks to the output, which has room for it.
fn put_block(output: &mut BytesMut, blocks: &mut VecDeque<Bytes>)
    requires { length (first_block blocks.old.items) ≤ output.old.spare }
    ensures items { output.new.items ≡ output.old.items ++ first_block blocks.old.items }
    ensures spare { output.new.spare + length (first_block blocks.old.items) ≡ output.old.spare }
    ensures rest { blocks.new.items ≡ drop 1 blocks.old.items }
{
    match blocks.pop_front() {
        Some(block) => output.extend_reserved(block.as_slice()),
        None => {}
    }
}
