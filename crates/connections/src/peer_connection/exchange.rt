// What a connection sends and receives: its login's octets while there is one, and then its machine's.
ghost use Rattle.std.specs.Prelude.{◌≡◌};
ghost use Rattle.connections.specs.Articles.{HandsInNothing};

use super::PeerConnection;
use crate::close_reason::{ObservedEnd, begins_with_code};
use crate::conn_calls::{break_conn, give_octets, receive_once, send_once, tick_conn};
use conn_core::Reason;
use event_loop::Moved;
use login::LoginEnd;
use std::alloc::{AllocError, Global};

// How many calls of a socket are made in a row before other connections have their turn.
const CALLS_MAX: u64 = 64;

impl PeerConnection {
    pub fn receive(&mut self, buffer: &mut [u8])
        ensures { HandsInNothing self.old.conn self.new.conn }
    {
        for _ in 0..CALLS_MAX {
            if self.conn.closed().is_some() {
                return;
            }
            match self.receive_once(buffer) {
                Moved::Done(_) => {}
                Moved::Later => return,
                Moved::Closed => return self.end(ObservedEnd::ByPeer),
                Moved::Fault => return self.fail_link(),
            }
        }
        self.is_dirty = true;
    }

    fn receive_once(&mut self, buffer: &mut [u8]) -> Moved
        ensures { HandsInNothing self.old.conn self.new.conn }
    {
        if self.login.is_on() {
            self.receive_login(buffer)
        } else {
            self.receive_replies(buffer)
        }
    }

    fn receive_replies(&mut self, buffer: &mut [u8]) -> Moved
        ensures { HandsInNothing self.old.conn self.new.conn }
    {
        let made = receive_once(&mut self.conn, &mut self.link, buffer);
        if let Moved::Done(count) = made {
            self.on_received(buffer.get(..count).unwrap_or(&[]));
        }
        made
    }

    fn receive_login(&mut self, buffer: &mut [u8]) -> Moved
        ensures { HandsInNothing self.old.conn self.new.conn }
    {
        let made = self.login.receive(&mut self.link, buffer);
        match made {
            Moved::Done(_) => self.settle_login(),
            Moved::Later => {}
            Moved::Closed | Moved::Fault => break_conn(&mut self.conn),
        }
        made
    }

    // The login has gone on. If it was accepted, the machine goes on; if it failed, the connection closes.
    fn settle_login(&mut self)
        ensures { HandsInNothing self.old.conn self.new.conn }
    {
        match self.login.end() {
            None | Some(LoginEnd::Open) => {}
            Some(LoginEnd::Accepted) => self.accept_login(),
            Some(LoginEnd::Refused(_)) => self.refuse_login(),
        }
    }

    fn accept_login(&mut self)
        ensures { HandsInNothing self.old.conn self.new.conn }
    {
        if let Some(login) = self.login.pass_on(&mut self.conn) {
            self.on_received(login.handed_on());
        }
    }

    fn refuse_login(&mut self)
        ensures { HandsInNothing self.old.conn self.new.conn }
    {
        self.tell_refusal();
        break_conn(&mut self.conn);
    }

    // A greeting that is no good is left to the machine, which closes for it in its own words.
    fn tell_refusal(&mut self)
        ensures { HandsInNothing self.old.conn self.new.conn }
    {
        if let Some(greeting) = self.login.take_refused_greeting(self.alloc) {
            give_octets(&mut self.conn, &greeting);
            self.on_received(&greeting);
        } else if let Some(failure) = self.login.failure(self.alloc) {
            self.end(ObservedEnd::Login(failure));
        }
    }

    // A second has passed for the login, once it is connected, or for the machine.
    pub(super) fn tick_session(&mut self, now: u64)
        ensures { HandsInNothing self.old.conn self.new.conn }
    {
        if !self.login.is_on() {
            tick_conn(&mut self.conn, now);
        } else if !self.is_connecting {
            self.login.tick(now);
            self.settle_login();
        }
    }

    // These octets were taken in.
    fn on_received(&mut self, octets: &[u8])
        ensures { self.new.conn ≡ self.old.conn }
    {
        match self.conn.closed() {
            None => {
                self.has_greeted = self.has_greeted || octets.contains(&b'\n');
                self.line_head.add(octets);
            }
            Some(Reason::Reader(_)) => self.on_invalid(octets),
            Some(Reason::Unmatched | Reason::Ended(_)) => self.has_greeted = true,
            Some(_) => {}
        }
    }

    // It closed because some of these octets, or of the line that they end, are no reply. Nothing more is known if
    // memory is refused.
    fn on_invalid(&mut self, octets: &[u8])
        ensures { self.new.conn ≡ self.old.conn }
    {
        if let Ok(text) = joined(self.alloc, self.line_head.octets(), octets) {
            self.has_greeted = self.has_greeted || begins_with_reply(&text);
            self.end(ObservedEnd::invalid_reply(self.alloc, &text));
        }
    }

    fn fail_link(&mut self)
        ensures { self.new.conn ≡ self.old.conn }
    {
        match self.link.take_fault() {
            Some(error) => self.end(ObservedEnd::Fault(error)),
            None => self.end(ObservedEnd::ByPeer),
        }
    }

    /// Sends the output, and returns how many octets were sent.
    pub fn send(&mut self) -> u64
        ensures { HandsInNothing self.old.conn self.new.conn }
    {
        let mut sent = 0u64;
        for _ in 0..CALLS_MAX {
            match self.send_once() {
                Moved::Done(count) => sent = sent.saturating_add(count as u64),
                Moved::Later => return sent,
                Moved::Closed | Moved::Fault => {
                    self.fail_link();
                    return sent;
                }
            }
        }
        self.is_dirty = true;
        sent
    }

    fn send_once(&mut self) -> Moved
        ensures { HandsInNothing self.old.conn self.new.conn }
    {
        if self.login.is_on() {
            self.send_login()
        } else {
            send_once(&mut self.conn, &mut self.link)
        }
    }

    fn send_login(&mut self) -> Moved
        ensures { HandsInNothing self.old.conn self.new.conn }
    {
        if self.conn.closed().is_some() {
            return Moved::Later;
        }
        let made = self.login.send(&mut self.link);
        if matches!(made, Moved::Closed | Moved::Fault) {
            break_conn(&mut self.conn);
        }
        made
    }
}

// The one after the other.
fn joined(alloc: Global, first: &[u8], second: &[u8]) -> Result<Vec<u8>, AllocError> {
    let mut text = Vec::from_slice(alloc, first)?;
    text.extend_from_slice(second)?;
    Ok(text)
}

// Whether the first line of this text is whole and may be a reply.
fn begins_with_reply(text: &[u8]) -> bool {
    match text.split(|octet| *octet == b'\n').next() {
        Some(line) => line.len() < text.len() && begins_with_code(line),
        None => false,
    }
}
