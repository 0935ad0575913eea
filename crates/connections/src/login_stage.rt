// The login with which a connection to a peer that has an account begins.
ghost use Rattle.std.specs.Prelude.{◌≡◌, ◌++◌, ℕ, List, Some, None, IfSome, IsNone, drop, is_some};
ghost use Rattle.std.specs.Prelude.{length, take};
ghost use Rattle.std.specs.Option.{option_map};
ghost use Rattle.event_loop.specs.Chain.{Gets, Sends};
ghost use Rattle.event_loop.specs.Link.{moved};
ghost use Rattle.login.specs.Exchange.{Held, KeepsCommands, StandsFor, after_tick, put_out};
ghost use Rattle.login.specs.declared.step.LoginEnd.TheVariants.{Accepted};
ghost use Rattle.connections.specs.Articles.{HandsInNothing};
ghost use Rattle.connections.specs.Logins.{IsGiven, after_sending};

use crate::conn_calls::give_octets;
use crate::login_failure::LoginFailure;
use conn_core::Conn;
use event_loop::{Link, Moved};
use login::{Login, LoginEnd, LoginStep, Refusal};
use std::alloc::{AllocError, Global};

/// The login of a connection, until it is accepted. While there is one, the link's octets are its own: the connection's
/// machine neither gets nor sends any.
#[derive(Drop)]
pub(crate) struct LoginStage {
    login: Option<Login>,
    // There was one, which may be over.
    is_wanted: bool,
}

impl LoginStage {
    pub fn new(login: Option<Login>) -> Self
        ensures { result.login ≡ login }
    {
        let is_wanted = login.is_some();
        LoginStage { login, is_wanted }
    }

    /// Whether the peer has an account.
    pub fn is_wanted(&self) -> bool {
        self.is_wanted
    }

    /// Whether there is a login, under way or failed.
    pub fn is_on(&self) -> bool
        ensures { result ≡ is_some self.now.login }
    {
        self.login.is_some()
    }

    /// What the login waits for, or waited for when it failed.
    pub fn step(&self) -> Option<LoginStep>
        ensures { result ≡ option_map (λ login. login.step) self.now.login }
    {
        match &self.login {
            Some(login) => Some(login.step()),
            None => None,
        }
    }

    /// Whether the login is under way, and how it ended.
    pub fn end(&self) -> Option<LoginEnd>
        ensures { result ≡ option_map (λ login. login.end) self.now.login }
    {
        match &self.login {
            Some(login) => Some(login.end()),
            None => None,
        }
    }

    /// Sends once what the login puts out.
    pub fn send<L: Link>(&mut self, link: &mut L) -> Moved {
        match &mut self.login {
            Some(login) => send_once(login, link),
            None => Moved::Later,
        }
    }

    /// Has the login take in what the link gives, once, by way of `buffer`.
    pub fn receive<L: Link>(&mut self, link: &mut L, buffer: &mut [u8]) -> Moved {
        match &mut self.login {
            Some(login) => receive_once(login, link, buffer),
            None => Moved::Later,
        }
    }

    /// A second has passed.
    pub fn tick(&mut self, now: u64)
        ensures { self.new.login ≡ option_map (λ login. after_tick login now) self.old.login }
    {
        if let Some(login) = &mut self.login {
            login.tick(now);
        }
    }

    /// If the login was accepted, gives the connection's machine the greeting and all that came after the login, as
    /// octets that came. There is no login from then on: the one that is over is returned.
    pub fn pass_on(&mut self, conn: &mut Conn) -> Option<Login>
        ensures accepted { IfSome result
            (λ login. (self.old.login ≡ Some login) × (login.end ≡ Accepted)) }
        ensures given { IfSome result (λ login. IsGiven login.handed conn.old conn.new) }
        ensures over { IfSome result (λ login. self.new.login ≡ None) }
        ensures none { IsNone result → (self.new.login ≡ self.old.login) × (conn.new ≡ conn.old) }
        ensures nothing { HandsInNothing conn.old conn.new }
    {
        if self.end() != Some(LoginEnd::Accepted) {
            return None;
        }
        let login = self.login.take()?;
        give_octets(conn, login.handed_on());
        Some(login)
    }

    /// If the login was refused because of its greeting, ends it, and returns that line with its LF, for the
    /// connection's machine, which refuses it too. If it has the password in it, its code alone is in the line.
    pub fn take_refused_greeting(&mut self, alloc: Global) -> Option<Vec<u8>> {
        let login = self.login.as_ref()?;
        let line = match (login.step(), login.end()) {
            (LoginStep::Greeting, LoginEnd::Refused(Refusal::Answer(code))) => {
                line_of(alloc, login.last_line(), code)
            }
            (LoginStep::Greeting, LoginEnd::Refused(Refusal::NoCode)) => {
                ended(alloc, login.last_line())
            }
            _ => return None,
        };
        self.login = None;
        line.ok()
    }

    /// Why the login failed, if it did. If memory is refused for the peer's words, they are left out.
    pub fn failure(&self, alloc: Global) -> Option<LoginFailure> {
        let login = self.login.as_ref()?;
        match login.end() {
            LoginEnd::Refused(refusal) => Some(LoginFailure::new(
                alloc,
                login.step(),
                refusal,
                login.last_line(),
            )),
            LoginEnd::Open | LoginEnd::Accepted => None,
        }
    }
}

// Sends once what the login puts out. It returns `Later`, without a call, if that is nothing.
fn send_once<L: Link>(login: &mut Login, link: &mut L) -> Moved
    ensures sends { Sends L.took L.takes (drop login.old.sent (put_out login.old))
        link.old result link.new }
    ensures gave { L.gave link.new ≡ L.gave link.old }
    ensures counts { login.new ≡ after_sending login.old result }
{
    if login.output().is_empty() {
        return Moved::Later;
    }
    let made = link.send(login.output());
    if let Moved::Done(count) = made {
        login.sent(count);
    }
    made
}

// Takes in what the link gives, once.
fn receive_once<L: Link>(login: &mut Login, link: &mut L, buffer: &mut [u8]) -> Moved
    ensures stands { (came : List ℕ) → StandsFor login.old came
        → StandsFor login.new (came ++ take (moved result) buffer.new) }
    ensures commands { KeepsCommands login.old login.new }
    ensures gets { Gets L.gave L.gives (length buffer.old) link.old result
        (take (moved result) buffer.new) link.new }
    ensures took { L.took link.new ≡ L.took link.old }
{
    let made = link.recv(buffer);
    if let Moved::Done(count) = made {
        login.receive(&buffer[..count]);
    }
    made
}

// A line with its end; with the code alone if the line is not to be shown.
fn line_of(alloc: Global, line: &[u8], code: u16) -> Result<Vec<u8>, AllocError> {
    if line.is_empty() {
        return Ok(format!(in alloc; "{:03}\n", code)?.into_bytes());
    }
    ended(alloc, line)
}

// A line with its end.
fn ended(alloc: Global, line: &[u8]) -> Result<Vec<u8>, AllocError> {
    let mut octets = Vec::from_slice(alloc, line)?;
    octets.push(b'\n')?;
    Ok(octets)
}
