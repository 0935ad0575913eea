// Keys that wait for a moment.
ghost use Rattle.std.specs.Prelude.{◌≡◌, ℕ, ◌≤◌, ◌↔◌, [], None, Some, IsSome, IsTrue, IfNone};
ghost use Rattle.std.specs.Prelude.{IfOk, IfSome, OnErr, OnOk, take};
ghost use Rattle.deferral.specs.Due.{IsDue, IsLeastDue, IsLeastDueFrom, IsRising, added, changed, due_numbers};
ghost use Rattle.deferral.specs.Due.{due_of, removed};

use crate::tree::{Tree, TreeEntry};
use ledger_core::Key;
use std::alloc::{AllocError, Global};
use std::marker::Model;

/// Keys of debts that wait, each for its own moment, in seconds of the caller's clock, or for none. A key with no
/// moment is never due and keeps its room, so that it takes no memory to give it a moment again.
///
/// Contracts see the list of its keys, each with its moment or none, by strictly rising keys. A call takes at most a
/// constant times as many steps as a key has bits, whatever keys wait, unless it says otherwise, and memory is linear
/// in how many wait.
#[derive(Drop)]
pub struct Later {
    alloc: Global,
    tree: Option<Tree>,
}

impl Model for Later {
    ghost use Rattle.std.specs.Prelude.{ℕ, List, Option};

    ghost Value = { List (ℕ × Option ℕ) };

    ghost use Rattle.deferral.specs.Due.{IsRising};
    ghost use Rattle.deferral.specs.Tree.{waiting_of};

    ghost view = { λ later. waiting_of later.tree };

    ghost invariant = { λ later. IsRising (waiting_of later.tree) };
}

impl Later {
    /// One in which no key waits.
    pub fn new(alloc: Global) -> Self
        ensures { result ≡ [] }
    {
        Later { alloc, tree: None }
    }

    /// Whether this key waits, for a moment or for none.
    pub fn contains(&self, key: Key) -> bool
        ensures found { IsTrue result ↔ IsSome (due_of self.now key) }
        ensures rising { IsRising self.now }
    {
        match &self.tree {
            None => false,
            Some(tree) => tree.contains(key),
        }
    }

    /// Puts in a key that does not wait yet. It waits for this moment, which may be past.
    ///
    /// # Errors
    /// `NoMemory` if memory was refused; nothing changes.
    pub fn put(&mut self, key: Key, due: u64) -> Result<(), AllocError>
        requires { due_of self.old key ≡ None }
        ensures ok { OnOk result (self.new ≡ added self.old key (Some due)) }
        ensures unchanged { OnErr result (self.new ≡ self.old) }
    {
        let entry = TreeEntry {
            key,
            due: Some(due),
        };
        match &mut self.tree {
            None => {
                self.tree = Some(Tree::Leaf(entry));
                Ok(())
            }
            Some(tree) => tree.put(self.alloc, entry),
        }
    }

    /// The least of the keys whose moment is at or before this one. Moments may be asked in any order.
    pub fn due_least(&self, now: u64) -> Option<Key>
        ensures some { IfSome result (λ key. IsLeastDue self.now now key) }
        ensures none { IfNone result ((key : ℕ) → IsDue self.now now key → ⊥) }
        ensures rising { IsRising self.now }
    {
        match &self.tree {
            None => None,
            Some(tree) => tree.due_from(Key::new(0, 0), now),
        }
    }

    /// The least of the keys at or above the first whose moment is at or before this one.
    pub fn due_from(&self, first: Key, now: u64) -> Option<Key>
        ensures some { IfSome result (λ key. IsLeastDueFrom self.now first now key) }
        ensures none { IfNone result
            ((key : ℕ) → first ≤ key → IsDue self.now now key → ⊥) }
        ensures rising { IsRising self.now }
    {
        match &self.tree {
            None => None,
            Some(tree) => tree.due_from(first, now),
        }
    }

    /// The least keys at or above the first whose moment is at or before this one, at most so many, by rising keys. It
    /// takes at most a constant times as many steps as a key has bits for each key that it returns, and once more.
    ///
    /// # Errors
    /// `NoMemory` if memory was refused.
    pub fn due_keys_from(&self, first: Key, now: u64, most: usize) -> Result<Vec<Key>, AllocError>
        ensures { IfOk result (λ keys. keys.items ≡ take most (due_numbers first now self.now)) }
    {
        let mut keys = Vec::new(self.alloc);
        if let Some(tree) = &self.tree {
            tree.push_due(first, now, most, &mut keys)?;
        }
        Ok(keys)
    }

    /// Gives a waiting key this moment instead, or none; returns whether the key waits. Takes no memory.
    pub fn set(&mut self, key: Key, due: Option<u64>) -> bool
        ensures was { IsTrue result ↔ IsSome (due_of self.old key) }
        ensures new { self.new ≡ changed self.old key due }
    {
        match &mut self.tree {
            None => false,
            Some(tree) => tree.set(key, due),
        }
    }

    /// Takes out a key; returns whether it waited.
    pub fn remove(&mut self, key: Key) -> bool
        ensures was { IsTrue result ↔ IsSome (due_of self.old key) }
        ensures new { self.new ≡ removed self.old key }
    {
        match &mut self.tree {
            None => false,
            Some(tree) => {
                if tree.is_only(key) {
                    self.tree = None;
                    true
                } else {
                    tree.remove(key)
                }
            }
        }
    }
}
