// Where each debt is.
ghost use Rattle.std.specs.Prelude.{◌≡◌, ◌↔◌, [], ℕ, None, IfNone, IfOk, IfSome, IsTrue};
ghost use Rattle.std.specs.Prelude.{OnErr, OnOk, ◌<◌, ◌^◌, nat_le, filter, find, length, take};
ghost use Rattle.std.specs.List.{All};
ghost use Rattle.std.specs.List.Sorted.{IsStrictlyIncreasing};
ghost use Rattle.peer_queue.specs.DebtPlace.{AreRising, AreUnheld, Held, IsHeldBy, IsLater, IsUnheld, Ready};
ghost use Rattle.peer_queue.specs.DebtPlace.{all_gone, all_ready, gone, held_count, least_candidate, moved, place_at};
ghost use Rattle.peer_queue.specs.DebtPlace.{released, unheld, with_place};
ghost use Rattle.peer_queue.specs.Index.{place_for};

use crate::wait::Readiness;
use conn_core::CxnId;
use deferral::{Later, after_put, after_remove, after_set};
use ledger_core::Key;
use std::alloc::{AllocError, Global};
use std::collections::BTreeSet;
use std::marker::Model;

/// The place of each key, found by the key, by its moment, and by who holds it.
///
/// Contracts see it as the list of the keys with their places, by rising keys.
#[derive(Drop)]
pub(crate) struct PlaceIndex {
    // Each key, with the moment at which it is due: that of its wait, or none if a connection holds it.
    agenda: Later,
    // What is held: pairs of a connection and a key.
    held: BTreeSet<(u64, Key)>,
}

impl Model for PlaceIndex {
    ghost use Rattle.std.specs.Prelude.{ℕ};
    ghost use Rattle.std.specs.Ordering.{nat_cmp};
    ghost use Rattle.std.specs.BTreeSet.{keys};
    ghost use Rattle.peer_queue.specs.DebtPlace.{Places};
    ghost use Rattle.peer_queue.specs.Index.{IsKept, holds, holder_in, places_by};

    ghost Value = { Places };

    ghost view = { λ index. places_by (holder_in (keys index.held)) index.agenda };

    ghost invariant = { λ index. IsKept index.agenda (holder_in (keys index.held))
        (holds index.held) };
}

impl PlaceIndex {
    /// No key has a place.
    pub fn new(alloc: Global) -> Self
        ensures { result ≡ [] }
    {
        PlaceIndex {
            agenda: Later::new(alloc),
            held: BTreeSet::new(alloc),
        }
    }

    /// A key that has no place is ready.
    ///
    /// # Errors
    /// `NoMemory` if memory was refused; nothing changes.
    pub fn add(&mut self, key: Key) -> Result<(), AllocError>
        requires { place_at self.old key ≡ None }
        ensures ok { OnOk result (self.new ≡ with_place self.old key Ready) }
        ensures unchanged { OnErr result (self.new ≡ self.old) }
    {
        // For the prover: the keys still rise.
        after_put();
        self.agenda.put(key, Readiness::Ready.due_at())
    }

    /// The least key that is ready, or later until a moment at or before now.
    pub fn candidate(&self, now: u64) -> Option<Key>
        ensures least { result ≡ least_candidate now self.now }
        ensures unheld { IfSome result (λ key. IsUnheld self.now key) }
    {
        let _ = &self.agenda;
        self.agenda.due_least(now)
    }

    /// Whether this connection holds this key.
    pub fn is_held_by(&self, connection: CxnId, key: Key) -> bool
        ensures { IsTrue result ↔ IsHeldBy self.now connection.0 key }
    {
        self.held.contains(&(connection.0, key))
    }

    /// A connection holds this key from now on; none held it before.
    ///
    /// # Errors
    /// `NoMemory` if memory was refused; nothing changes.
    pub fn hold(&mut self, connection: CxnId, key: Key) -> Result<(), AllocError>
        requires { IsUnheld self.old key }
        ensures ok { OnOk result (self.new ≡ moved self.old key (Held connection.0)) }
        ensures unchanged { OnErr result (self.new ≡ self.old) }
    {
        // For the prover: the same keys wait, and they rise.
        after_set();
        self.held.insert((connection.0, key))?;
        self.agenda.set(key, None);
        Ok(())
    }

    /// Makes a key that this connection holds wait for this. Takes no memory.
    pub fn give_up(&mut self, connection: CxnId, key: Key, wait: Readiness)
        requires { IsHeldBy self.old connection.0 key }
        ensures { self.new ≡ moved self.old key (place_for wait) }
    {
        self.held.remove(&(connection.0, key));
        // For the prover: the same keys wait, and they rise.
        after_set();
        self.agenda.set(key, Some(wait.due_at()));
    }

    /// Takes out a key that no connection holds.
    pub fn remove(&mut self, key: Key)
        requires { IsUnheld self.old key }
        ensures { self.new ≡ gone self.old key }
    {
        // For the prover: the others wait as before, and they rise.
        after_remove();
        self.agenda.remove(key);
    }

    /// Takes out a key that this connection holds.
    pub fn end(&mut self, connection: CxnId, key: Key)
        requires { IsHeldBy self.old connection.0 key }
        ensures { self.new ≡ gone self.old key }
    {
        self.held.remove(&(connection.0, key));
        // For the prover: the others wait as before, and they rise.
        after_remove();
        self.agenda.remove(key);
    }

    // A key that this connection holds, if it holds any.
    fn first_held_by(&self, connection: CxnId) -> Option<Key>
        ensures some { IfSome result (λ key. IsHeldBy self.now connection.0 key) }
        ensures none { IfNone result ((key : ℕ) → IsHeldBy self.now connection.0 key → ⊥) }
        ensures rising { AreRising self.now }
    {
        let (holder, key) = self.held.range((connection.0, Key::new(0, 0))..).next()?;
        if *holder == connection.0 {
            Some(*key)
        } else {
            None
        }
    }

    /// Makes all keys ready that this connection holds, and returns how many. Takes no memory. Logarithmic for each of
    /// them.
    pub fn release(&mut self, connection: CxnId) -> u64
        requires { length self.old < 2 ^ 64 }
        ensures count { result ≡ held_count connection.0 self.old }
        ensures places { self.new ≡ released connection.0 self.old }
    {
        let mut count = 0;
        while let Some(key) = self.first_held_by(connection) {
            self.give_up(connection, key, Readiness::Ready);
            count += 1;
        }
        count
    }

    /// The least key at or above the first that no connection holds.
    pub fn unheld_from(&self, first: Key) -> Option<Key>
        ensures first { result ≡ find (λ key. nat_le first key) (unheld self.now) }
        ensures rising { AreRising self.now }
    {
        self.agenda.due_from(first, u64::MAX)
    }

    /// The least keys at or above the first that no connection holds, rising, at most so many.
    ///
    /// # Errors
    /// `NoMemory` if memory was refused.
    pub fn unheld_keys_from(&self, first: Key, most: usize) -> Result<Vec<Key>, AllocError>
        ensures { IfOk result (λ keys. keys.items
            ≡ take most (filter (λ key. nat_le first key) (unheld self.now))) }
    {
        self.agenda.due_keys_from(first, u64::MAX, most)
    }

    /// Whether every key waits for a moment.
    pub fn all_later(&self) -> bool
        ensures { IsTrue result ↔ All (λ entry. IsLater entry.1) self.now }
    {
        match self.held.first() {
            Some(_) => false,
            None => self.agenda.due_least(Readiness::Ready.due_at()).is_none(),
        }
    }

    /// Takes out keys that no connection holds.
    pub fn remove_all(&mut self, keys: &[Key])
        requires { AreUnheld self.old keys.now }
        ensures { self.new ≡ all_gone self.old keys.now }
    {
        for key in keys {
            self.remove(*key);
        }
    }
}

// The index in which all of these keys are ready.
pub(crate) fn all_ready_of(alloc: Global, keys: &[Key]) -> Result<PlaceIndex, AllocError>
    requires { IsStrictlyIncreasing keys.now }
    ensures { IfOk result (λ index. index ≡ all_ready keys.now) }
{
    let mut index = PlaceIndex::new(alloc);
    for key in keys {
        index.add(*key)?;
    }
    Ok(index)
}
