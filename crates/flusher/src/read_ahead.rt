// Debts that are read from a tape before they are claimed.
ghost use Rattle.std.specs.Prelude.{◌≡◌, ◌≤◌, [], None, OnErr, OnOk, length};
ghost use Rattle.std.specs.List.Sorted.{IsStrictlyIncreasing};
ghost use Rattle.ledger_core.specs.State.{keys_in};
ghost use Rattle.flusher.specs.Ahead.{begun, gone_on, has_room_for, kept_with, most_ahead, wanted_behind};

use ledger_core::{Debt, Key};
use std::alloc::{AllocError, Global};
use std::collections::VecDeque;

// So many are kept at most.
const KEPT_MAX_DEBTS: usize = 1024;

// So many are read in a row.
const STEP_DEBTS: usize = 128;

/// Debts of a peer that were read from its tape before they were claimed, by rising keys, so that they can be claimed
/// while the tape is in use.
#[derive(Drop)]
pub struct ReadAhead {
    debts: VecDeque<Debt>,
    // The key behind which the reading goes on.
    end: Key,
    // So memory stays bounded.
    ghost few: { length debts.items ≤ most_ahead },
    ghost rising: { IsStrictlyIncreasing (keys_in debts.items) },
}

impl ReadAhead {
    ghost use Rattle.flusher.specs.ReadAhead.{TakesOut, end_in, kept_in};

    /// Nothing was read.
    pub fn new(alloc: Global) -> Self
        ensures kept { kept_in result ≡ [] }
        ensures end { end_in result ≡ 0 }
    {
        ReadAhead {
            debts: VecDeque::new(alloc),
            end: Key::new(0, 0),
        }
    }

    /// Takes out the debt of this key, if it was read. Debts of lesser keys are let go: what is claimed is the least
    /// candidate.
    pub fn take(&mut self, key: Key) -> Option<Debt>
        ensures takes { TakesOut key self.old self.new result }
        ensures end { end_in self.new ≡ end_in self.old }
    {
        while let Some(first) = self.debts.front()
            && first.key().is_below(key)
        {
            self.debts.pop_front();
        }
        match self.debts.front() {
            Some(first) if first.key() == key => self.debts.pop_front(),
            _ => None,
        }
    }

    /// The debt of this key had to be read by itself: if no other is kept, the reading goes on behind it.
    pub fn begin_behind(&mut self, key: Key)
        ensures kept { kept_in self.new ≡ kept_in self.old }
        ensures end { end_in self.new ≡ begun key (kept_in self.old) (end_in self.old) }
    {
        if self.debts.is_empty() {
            self.end = key;
        }
    }

    /// The key behind which the reading goes on.
    pub fn end(&self) -> Key
        ensures { result ≡ end_in self.now }
    {
        self.end
    }

    /// How many debts are read next: 128, as long as there is room for so many.
    pub fn wanted(&self) -> usize
        ensures { result ≡ wanted_behind (kept_in self.now) }
    {
        if self.debts.len() + STEP_DEBTS <= KEPT_MAX_DEBTS {
            STEP_DEBTS
        } else {
            0
        }
    }

    /// The debts of these keys are read next: then the reading goes on behind the last of them.
    pub fn go_on_behind(&mut self, keys: &[Key])
        ensures kept { kept_in self.new ≡ kept_in self.old }
        ensures end { end_in self.new ≡ gone_on (end_in self.old) keys.now }
    {
        if let Some(last) = keys.last() {
            self.end = *last;
        }
    }

    /// Keeps of these debts, in turn, each for which there is room and whose key is above those that are kept.
    ///
    /// # Errors
    /// `NoMemory` if memory was refused; nothing changes.
    pub fn keep(&mut self, debts: Vec<Debt>) -> Result<(), AllocError>
        ensures ok { OnOk result (kept_in self.new ≡ kept_with (kept_in self.old) debts.items) }
        ensures unchanged { OnErr result (kept_in self.new ≡ kept_in self.old) }
        ensures end { end_in self.new ≡ end_in self.old }
    {
        self.debts.reserve(debts.len())?;
        for debt in debts {
            if self.has_room_for(debt.key()) {
                self.debts.push_back_reserved(debt);
            }
        }
        Ok(())
    }

    // Whether a debt of this key can be kept behind the others.
    fn has_room_for(&self, key: Key) -> bool
        ensures { result ≡ has_room_for (kept_in self.now) key }
    {
        if self.debts.len() >= KEPT_MAX_DEBTS {
            return false;
        }
        match self.debts.back() {
            Some(last) => last.key().is_below(key),
            None => true,
        }
    }
}
