// A login under way.
ghost use Rattle.std.specs.Prelude.{◌≡◌, ◌≢◌, ◌⊎◌, ◌||◌, ◌++◌, ◌+◌, ◌-◌, ◌≤◌};
ghost use Rattle.std.specs.Prelude.{[], ◌∷◌, ℕ, List};
ghost use Rattle.std.specs.Prelude.{IfOk, IfSome, IfNone, OnOk};
ghost use Rattle.std.specs.Prelude.{drop, length, nat_lt, false, None};
ghost use Rattle.reply_reader.specs.Reply.{BeginsWithCode, IsNoReply};
ghost use Rattle.funnel.specs.Line.{without_cr};
ghost use Rattle.login.specs.Account.{password_line, user_line};
ghost use Rattle.login.specs.Exchange.{KeepsCommands, StandsFor, after_tick, is_open, password_in, put_out};
ghost use Rattle.login.specs.Steps.{meaning_of};
ghost use Rattle.login.specs.declared.step.Meaning.TheVariants.{GoesOn};
ghost use Rattle.memchr.specs.Find.{OccursAt};
ghost use Rattle.login.specs.declared.step.LoginEnd.TheVariants.{Open, Refused};
ghost use Rattle.login.specs.declared.step.LoginStep.TheVariants.{Greeting};
ghost use Rattle.login.specs.declared.step.Refusal.TheVariants.{NoMemory};

use crate::account::Account;
use crate::step::{LoginEnd, LoginStep, Meaning, Refusal};
use funnel::without_cr;
use memchr::memmem;
use reply_reader::REPLY_MAX_OCTETS;
use std::alloc::{AllocError, Global};
use std::marker::Model;
use std::mem;

const USER: &[u8] = b"AUTHINFO USER ";

const PASS: &[u8] = b"AUTHINFO PASS ";

/// A login under way: the octets that come go in, and the commands to send come out. It waits for the greeting, sends
/// USER, and after a 381 PASS (RFC 4643, section 2.3). It has no `Debug`, since it has the password.
#[derive(Drop)]
pub struct Login {
    alloc: Global,
    // The line with USER and its end, and then the one with PASS.
    commands: Vec<u8>,
    // How long the first of them is.
    user_len: usize,
    // How many of these octets have been sent.
    sent: usize,
    step: LoginStep,
    end: LoginEnd,
    line: Vec<u8>,
    handed: Vec<u8>,
    quiet: Option<u64>,
    moved: bool,
    timeout: u64,
}

impl Model for Login {
    ghost use Rattle.std.specs.Prelude.{drop, length, take};
    ghost use Rattle.login.specs.Exchange.{Held, IsSound};

    ghost Value = { Held };

    ghost view = { λ login. record {
      user = take login.user_len login.commands.items;
      password = drop login.user_len login.commands.items;
      sent = login.sent;
      step = login.step;
      end = login.end;
      line = login.line.items;
      handed = login.handed.items;
      quiet = login.quiet;
      moved = login.moved;
      timeout = login.timeout;
    } };

    ghost invariant = { λ login. IsSound login.user_len login.sent login.step
        (length login.commands.items) login.line.items };
}

impl Login {
    /// A login to a peer that has this long to answer, in seconds.
    ///
    /// # Errors
    /// Memory was refused.
    pub fn new(alloc: Global, account: &Account, timeout: u64) -> Result<Self, AllocError>
        ensures begins { IfOk result (λ login. login ≡ record {
          user = user_line account.now.user.items;
          password = password_line account.now.password.items;
          sent = 0;
          step = Greeting;
          end = Open;
          line = [];
          handed = [];
          quiet = None;
          moved = false;
          timeout = timeout;
        }) }
        ensures stands { IfOk result (λ login. StandsFor login []) }
    {
        let mut commands = Vec::new(alloc);
        add_command(&mut commands, USER, &account.user)?;
        let user_len = commands.len();
        add_command(&mut commands, PASS, &account.password)?;
        Ok(Login {
            alloc,
            commands,
            user_len,
            sent: 0,
            step: LoginStep::Greeting,
            end: LoginEnd::Open,
            line: Vec::new(alloc),
            handed: Vec::new(alloc),
            quiet: None,
            moved: false,
            timeout,
        })
    }

    /// What it waits for, or waited for when it ended.
    pub fn step(&self) -> LoginStep
        ensures { result ≡ self.now.step }
    {
        self.step
    }

    /// Whether it is under way, and how it ended.
    pub fn end(&self) -> LoginEnd
        ensures { result ≡ self.now.end }
    {
        self.end
    }

    /// What is to be sent and has not been.
    pub fn output(&self) -> &[u8]
        ensures { result.now ≡ drop self.now.sent (put_out self.now) }
    {
        match self.step {
            LoginStep::Greeting => b"",
            LoginStep::User => &self.commands[self.sent..self.user_len],
            LoginStep::Password => &self.commands[self.sent..],
        }
    }

    /// So many octets of the output were sent.
    pub fn sent(&mut self, count: usize)
        requires { count ≤ length (put_out self.old) - self.old.sent }
        ensures { self.new ≡ record self.old {
          sent = self.old.sent + count;
          moved = self.old.moved || nat_lt 0 count;
        } }
    {
        self.sent += count;
        self.moved = self.moved || count > 0;
    }

    /// These octets came. After a refusal they are dropped.
    pub fn receive(&mut self, octets: &[u8])
        ensures stands { (came : List ℕ) → StandsFor self.old came
            → StandsFor self.new (came ++ octets.now) }
        ensures commands { KeepsCommands self.old self.new }
    {
        match self.take_in(octets) {
            Ok(()) => {}
            Err(_) => self.end = LoginEnd::Refused(Refusal::NoMemory),
        }
    }

    fn take_in(&mut self, octets: &[u8]) -> Result<(), AllocError>
        ensures stands { OnOk result ((came : List ℕ) → StandsFor self.old came
            → StandsFor self.new (came ++ octets.now)) }
        ensures commands { KeepsCommands self.old self.new }
    {
        for (index, octet) in octets.iter().enumerate() {
            if !self.is_open() {
                return self.pass_on(&octets[index..]);
            }
            self.push(*octet)?;
        }
        Ok(())
    }

    // Keeps what came after the end, if the login was accepted.
    fn pass_on(&mut self, octets: &[u8]) -> Result<(), AllocError>
        requires { self.old.end ≢ Open }
        ensures stands { OnOk result ((came : List ℕ) → StandsFor self.old came
            → StandsFor self.new (came ++ octets.now)) }
        ensures commands { KeepsCommands self.old self.new }
    {
        match self.end {
            LoginEnd::Accepted => self.handed.extend_from_slice(octets),
            _ => Ok(()),
        }
    }

    // One octet came.
    fn push(&mut self, octet: u8) -> Result<(), AllocError>
        requires { self.old.end ≡ Open }
        ensures stands { OnOk result ((came : List ℕ) → StandsFor self.old came
            → StandsFor self.new (came ++ octet ∷ [])) }
        ensures commands { KeepsCommands self.old self.new }
    {
        if octet == b'\n' {
            return self.judge();
        }
        if self.line.len() + 1 >= REPLY_MAX_OCTETS {
            self.end = LoginEnd::Refused(Refusal::TooLong);
            return Ok(());
        }
        self.line.push(octet)?;
        Ok(())
    }

    // The line is whole.
    fn judge(&mut self) -> Result<(), AllocError>
        requires { self.old.end ≡ Open }
        ensures stands { OnOk result ((came : List ℕ) → StandsFor self.old came
            → StandsFor self.new (came ++ 10 ∷ [])) }
        ensures commands { KeepsCommands self.old self.new }
    {
        self.moved = true;
        let Some(code) = code_of(&self.line) else {
            self.end = LoginEnd::Refused(Refusal::NoCode);
            return Ok(());
        };
        match self.step.meaning(code) {
            Meaning::GoesOn => return self.go_on(code),
            Meaning::Succeeds => self.end = LoginEnd::Accepted,
            Meaning::Fails => self.end = LoginEnd::Refused(Refusal::Answer(code)),
        }
        Ok(())
    }

    // The line is the answer that was to come, with this code.
    fn go_on(&mut self, code: u16) -> Result<(), AllocError>
        requires under_way { self.old.end ≡ Open }
        requires code { (rest : List ℕ) × BeginsWithCode (without_cr self.old.line) code rest }
        requires meaning { meaning_of self.old.step code ≡ GoesOn }
        ensures stands { OnOk result ((came : List ℕ) → StandsFor self.old came
            → StandsFor self.new (came ++ 10 ∷ [])) }
        ensures commands { KeepsCommands self.old self.new }
    {
        match self.step {
            LoginStep::Greeting => {
                let mut greeting = mem::replace(&mut self.line, Vec::new(self.alloc));
                greeting.push(b'\n')?;
                self.handed = greeting;
                self.step = LoginStep::User;
            }
            LoginStep::User | LoginStep::Password => {
                self.line.clear();
                self.step = LoginStep::Password;
            }
        }
        Ok(())
    }

    fn is_open(&self) -> bool
        ensures { result ≡ is_open self.now.end }
    {
        matches!(self.end, LoginEnd::Open)
    }

    /// A second has passed, and it is this moment. If nothing moved for too long, it fails.
    pub fn tick(&mut self, now: u64)
        ensures { self.new ≡ after_tick self.old now }
    {
        if !self.is_open() {
            return;
        }
        let since = if self.moved {
            now
        } else {
            self.quiet.unwrap_or(now)
        };
        self.quiet = Some(since);
        self.moved = false;
        if now.saturating_sub(since) >= self.timeout {
            self.end = LoginEnd::Refused(Refusal::Timeout);
        }
    }

    /// The last line that came, for a log; empty if it has the password in it.
    pub fn last_line(&self) -> &[u8]
        ensures shown { (result.now ≡ self.now.line) ⊎ (result.now ≡ []) }
        ensures hidden { (place : ℕ) → OccursAt self.now.line (password_in self.now) place
            → result.now ≡ [] }
    {
        without_secret(&self.line, self.password())
    }

    fn password(&self) -> &[u8]
        ensures { result.now ≡ password_in self.now }
    {
        let begin = self.user_len + PASS.len();
        &self.commands[begin..self.commands.len() - 2]
    }

    /// The greeting as it came, with its end, and all that came after the login. Once the login was accepted, this is
    /// what the connection's own machine is to have.
    pub fn handed_on(&self) -> &[u8]
        ensures { result.now ≡ self.now.handed }
    {
        &self.handed
    }
}

// Adds a command with its argument and the end of the line.
fn add_command(out: &mut Vec<u8>, command: &[u8], argument: &[u8]) -> Result<(), AllocError>
    ensures { OnOk result
        (out.new.items ≡ out.old.items ++ (command.now ++ argument.now ++ 13 ∷ 10 ∷ [])) }
{
    out.extend_from_slice(command)?;
    out.extend_from_slice(argument)?;
    out.extend_from_slice(b"\r\n")?;
    Ok(())
}

// The code with which a line, without its LF, begins (RFC 3977, section 3.2).
fn code_of(line: &[u8]) -> Option<u16>
    ensures some { IfSome result
        (λ code. (rest : List ℕ) × BeginsWithCode (without_cr line.now) code rest) }
    ensures none { IfNone result (IsNoReply line.now) }
{
    match without_cr(line) {
        [
            first @ b'0'..=b'9',
            second @ b'0'..=b'9',
            third @ b'0'..=b'9',
            ..
        ] => {
            let hundreds = u16::from(*first - b'0');
            let tens = u16::from(*second - b'0');
            let ones = u16::from(*third - b'0');
            Some(100 * hundreds + 10 * tens + ones)
        }
        _ => None,
    }
}

// The line, or nothing if the secret is in it.
fn without_secret<'a>(line: &'a [u8], secret: &[u8]) -> &'a [u8]
    ensures shown { (result.now ≡ line.now) ⊎ (result.now ≡ []) }
    ensures hidden { (place : ℕ) → OccursAt line.now secret.now place → result.now ≡ [] }
{
    match memmem::find(line, secret) {
        None => line,
        Some(_) => b"",
    }
}
