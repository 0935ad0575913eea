// The look-ups that run and wait: the state inside a resolver's lock.
ghost use Rattle.std.specs.Prelude.{◌≡◌, ◌↔◌, ◌<◌, ◌≤◌, ◌==◌, ℕ, [], length};
ghost use Rattle.std.specs.Prelude.{Contains, IfOk, IfSome, IsTrue, MatchOption, None, Some, position, slice_get};
ghost use Rattle.resolver.specs.declared.look_up_queue.Start.TheVariants.{Now, Queued, Nothing};
ghost use Rattle.resolver.specs.LookUpQueue.{Answers, AreHosts, IsFree, IsRunning, IsRunningIn, joined, latest_with};
ghost use Rattle.resolver.specs.LatestAnswer.{IsNews};

use crate::host::Answer;
use crate::latest_answer::LatestAnswer;
use std::alloc::{AllocError, Global};
use std::marker::Model;

// The most look-ups that run at once.
pub(crate) const LOOK_UPS_MAX: usize = 8;

/// What to do about a host that was asked for.
#[derive(Clone, Copy, Debug, PartialEq, Eq)]
pub(crate) enum Start {
    /// It is to be looked up now.
    Now,
    /// It has to wait until another look-up has ended.
    Queued,
    /// There is no such host, or it is being looked up or waits for it.
    Nothing,
}

/// Which hosts are being looked up, which wait for it, and the latest answer for each.
#[derive(Drop)]
pub(crate) struct LookUpQueue {
    // The hosts that are being looked up, at most 8, and after them those that wait for it, first come first.
    asked: Vec<usize>,
    latest: Vec<LatestAnswer>,
}

impl Model for LookUpQueue {
    ghost use Rattle.std.specs.Prelude.{◌≤◌, length, vec_capacity};
    ghost use Rattle.resolver.specs.LookUpQueue.{State, AreHosts};

    ghost Value = { State };

    ghost view = { λ queue. record { asked = queue.asked.items; latest = queue.latest.items } };

    // There is room for all hosts, so that none is lost for want of memory.
    ghost invariant = { λ queue. AreHosts (length queue.latest.items) queue.asked.items
        × (length queue.latest.items ≤ vec_capacity queue.asked) };
}

impl LookUpQueue {
    /// A queue in which nothing runs or waits, with these latest answers.
    ///
    /// # Errors
    /// Memory was refused.
    pub fn new(alloc: Global, latest: Vec<LatestAnswer>) -> Result<LookUpQueue, AllocError>
        ensures ok { IfOk result (λ queue. queue ≡ record { asked = []; latest = latest.items }) }
    {
        Ok(LookUpQueue {
            asked: Vec::with_capacity(alloc, latest.len())?,
            latest,
        })
    }

    /// Whether the host is being looked up or waits for it.
    pub fn is_looking(&self, host: usize) -> bool
        ensures { IsTrue result ↔ Contains self.now.asked host }
    {
        self.asked.contains(&host)
    }

    /// Asks for a host. Allocates no memory.
    pub fn ask(&mut self, host: usize) -> Start
        ensures now { (result ≡ Now)
            ↔ (IsFree self.old host × (length self.old.asked < 8)) }
        ensures queued { (result ≡ Queued)
            ↔ (IsFree self.old host × (8 ≤ length self.old.asked)) }
        ensures new { IsFree self.old host → self.new ≡ joined self.old host }
        ensures unchanged { result ≡ Nothing → self.new ≡ self.old }
        ensures hosts { AreHosts (length self.new.latest) self.new.asked }
    {
        if host >= self.latest.len() || self.asked.contains(&host) {
            return Start::Nothing;
        }
        let before = self.asked.len();
        let _ = self.asked.push(host);
        if before < LOOK_UPS_MAX {
            Start::Now
        } else {
            Start::Queued
        }
    }

    /// Records that the look-up of a host has ended in this answer. Returns the host to look up in its place: the
    /// first that waits, if one does. Nothing happens if the host was not being looked up.
    pub fn answered(&mut self, host: usize, answer: Answer) -> Option<usize>
        ensures ok { (at : ℕ) → IsRunning self.old host at
            → Answers self.old self.new host at answer result }
        ensures none { ((at : ℕ) → IsRunning self.old host at → ⊥) → result ≡ None }
        ensures unchanged { ((at : ℕ) → IsRunning self.old host at → ⊥) → self.new ≡ self.old }
        ensures hosts { AreHosts (length self.new.latest) self.new.asked }
    {
        match running_place(&self.asked, host) {
            Some(at) => {
                let _ = self.asked.remove(at);
                put_answer(&mut self.latest, host, answer);
                last_running(&self.asked)
            }
            None => None,
        }
    }

    /// The latest answer for a host and how many answers there were, unless the caller has seen that many or there is
    /// no such host.
    ///
    /// # Errors
    /// Memory was refused.
    pub fn news(
        &self,
        alloc: Global,
        host: usize,
        seen: u64,
    ) -> Result<Option<(u64, Answer)>, AllocError>
        ensures ok { IfOk result (λ news. MatchOption (slice_get self.now.latest host) (news ≡ None)
            (λ latest. IsNews latest seen news)) }
    {
        match self.latest.get(host) {
            Some(latest) => latest.news(alloc, seen),
            None => Ok(None),
        }
    }
}

// The index of a host in `asked`, if it is being looked up.
fn running_place(asked: &[usize], host: usize) -> Option<usize>
    ensures some { (at : ℕ) → IsRunningIn asked.now host at → result ≡ Some at }
    ensures runs { IfSome result (IsRunningIn asked.now host) }
{
    match place_of(asked, host) {
        Some(at) if at < LOOK_UPS_MAX => Some(at),
        _ => None,
    }
}

fn place_of(hosts: &[usize], host: usize) -> Option<usize>
    ensures { result ≡ position (λ asked. asked == host) hosts.now }
{
    hosts.iter().position(|asked| *asked == host)
}

// The last of the hosts that are being looked up, if no more may be.
fn last_running(asked: &[usize]) -> Option<usize>
    ensures { result ≡ slice_get asked.now 7 }
{
    asked.get(LOOK_UPS_MAX - 1).copied()
}

// Nothing happens if no host has this index.
fn put_answer(latest: &mut Vec<LatestAnswer>, host: usize, answer: Answer)
    ensures latest { latest.new.items ≡ latest_with latest.old.items host answer }
    ensures count { length latest.new.items ≡ length latest.old.items }
{
    if host < latest.len() {
        latest[host].put(answer);
    }
}
