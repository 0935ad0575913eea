// A binary tree over the bits of the keys, the source's before the number's, no deeper than a key has bits, in which a
// key is found by its value and by its moment. The keys are in the leaves. Each fork is at the highest bit in which its
// keys differ.
ghost use Rattle.std.specs.Prelude.{◌≡◌, ℕ, [], ◌∷◌, ◌≤◌, ◌<◌, ◌↔◌, ◌++◌, ◌⊎◌};
ghost use Rattle.std.specs.Prelude.{true, false, IsSome, IsTrue, IfNone, IfSome, OnErr, OnOk, Option, length, take};
ghost use Rattle.deferral.specs.Due.{AllNumbers, IsDue, IsLeastDueFrom, Waiting, added, changed, due_numbers, due_of};
ghost use Rattle.deferral.specs.Due.{is_by, removed};
ghost use Rattle.deferral.specs.Tree.{earlier};

use ledger_core::Key;
use std::alloc::{AllocError, Global};
use std::marker::Model;
use std::mem;

/// A key with the moment for which it waits, or none: then it is never due.
#[derive(Clone, Copy)]
pub struct TreeEntry {
    pub key: Key,
    pub due: Option<u64>,
}

/// The first and the last key of a tree, and the earliest of its moments, none if no key has one.
#[derive(Clone, Copy)]
pub struct Bounds {
    pub first: Key,
    pub last: Key,
    pub least: Option<u64>,
}

/// One key, or a fork.
#[cycle(tree)]
#[derive(Drop)]
pub enum Tree {
    Leaf(TreeEntry),
    Fork(Box<Fork>),
}

/// Two trees, one of the keys below the split and one of the others.
#[cycle(tree)]
#[derive(Drop)]
pub struct Fork {
    split: Key,
    bounds: Bounds,
    left: Tree,
    right: Tree,
}

impl Model for Fork {
    ghost use Rattle.std.specs.Prelude.{ℕ, List, Option};

    ghost Value = { List (ℕ × Option ℕ) × List (ℕ × Option ℕ) };

    ghost use Rattle.deferral.specs.Tree.{IsFork, sides};

    ghost view = { sides };

    ghost invariant = { IsFork };

    ghost use Rattle.std.specs.Prelude.{◌+◌, length};

    ghost size = { λ halves. length halves.0 + length halves.1 };

    ghost use Rattle.deferral.specs.TreeLaws.{sides_fall};

    ghost size_decreases = { sides_fall };
}

/// The earlier of two moments; a missing one is later than any.
fn earlier_of(one: Option<u64>, other: Option<u64>) -> Option<u64>
    ensures { result ≡ earlier one other }
{
    match (one, other) {
        (None, due) => due,
        (due, None) => due,
        (Some(one), Some(other)) => Some(one.min(other)),
    }
}

/// Whether there is a moment, and it is at or before now.
fn is_by(due: Option<u64>, now: u64) -> bool
    ensures { result ≡ is_by due now }
{
    match due {
        None => false,
        Some(due) => due <= now,
    }
}

impl Bounds {
    ghost use Rattle.deferral.specs.Tree.{IsBoundsOf};

    fn joined(self, other: Self) -> Self
        ensures { (left right : Waiting) → IsBoundsOf self left → IsBoundsOf other right
            → IsBoundsOf result (left ++ right) }
    {
        Bounds {
            first: self.first.lesser(other.first),
            last: self.last.greater(other.last),
            least: earlier_of(self.least, other.least),
        }
    }
}

impl TreeEntry {
    ghost use Rattle.deferral.specs.Tree.{IsBoundsOf};

    fn bounds(self) -> Bounds
        ensures { IsBoundsOf result ((self.key, self.due) ∷ []) }
    {
        Bounds {
            first: self.key,
            last: self.key,
            least: self.due,
        }
    }
}

/// Whether a split has the key on one side, and all keys from the first to the last on the other.
fn is_apart(key: Key, split: Key, first: Key, last: Key) -> bool
    ensures { IsTrue result ↔ ((key < split) × (split ≤ first)) ⊎ ((last < split) × (split ≤ key)) }
{
    if key.is_below(split) {
        !first.is_below(split)
    } else {
        last.is_below(split)
    }
}

/// The higher key without the bits below the highest in which the two differ: what is at or above it has that bit.
fn split_between(low: Key, high: Key) -> Key
    requires { low < high }
    ensures above { low < result }
    ensures within { result ≤ high }
{
    if low.source() == high.source() {
        Key::new(high.source(), split_of(low.number(), high.number()))
    } else {
        let split = split_of(u64::from(low.source()), u64::from(high.source()));
        Key::new(split as u32, 0)
    }
}

fn split_of(low: u64, high: u64) -> u64
    requires { low < high }
    ensures above { low < result }
    ensures within { result ≤ high }
{
    let bit = (low ^ high).ilog2();
    high >> bit << bit
}

impl Fork {
    ghost use Rattle.deferral.specs.Tree.{both, is_only, waiting_in};

    fn of(split: Key, left: Tree, right: Tree) -> Self
        requires left { AllNumbers (λ key. key < split) (waiting_in left) }
        requires right { AllNumbers (λ key. split ≤ key) (waiting_in right) }
        ensures { result ≡ (waiting_in left, waiting_in right) }
    {
        let bounds = left.bounds().joined(right.bounds());
        Fork {
            split,
            bounds,
            left,
            right,
        }
    }

    #[cycle(contains)]
    fn contains(&self, key: Key) -> bool
        ensures { IsTrue result ↔ IsSome (due_of (both self.now) key) }
    {
        if key.is_below(self.split) {
            self.left.contains(key)
        } else {
            self.right.contains(key)
        }
    }

    #[cycle(due_from)]
    fn due_from(&self, first: Key, now: u64) -> Option<Key>
        ensures some { IfSome result (λ key. IsLeastDueFrom (both self.now) first now key) }
        ensures none { IfNone result
            ((key : ℕ) → first ≤ key → IsDue (both self.now) now key → ⊥) }
    {
        if let Some(key) = self.left.due_from(first, now) {
            Some(key)
        } else {
            self.right.due_from(first, now)
        }
    }

    #[cycle(push_due)]
    fn push_due(
        &self,
        first: Key,
        now: u64,
        most: usize,
        keys: &mut Vec<Key>,
    ) -> Result<(), AllocError>
        requires { length keys.old.items ≤ most }
        ensures ok { OnOk result (keys.new.items
            ≡ take most (keys.old.items ++ due_numbers first now (both self.now))) }
    {
        self.left.push_due(first, now, most, keys)?;
        self.right.push_due(first, now, most, keys)
    }

    /// Puts in a key that it does not have, on its side of the split.
    #[cycle(put)]
    fn put(&mut self, alloc: Global, entry: TreeEntry) -> Result<(), AllocError>
        requires { due_of (both self.old) entry.key ≡ None }
        ensures ok { OnOk result (both self.new ≡ added (both self.old) entry.key entry.due) }
        ensures unchanged { OnErr result (both self.new ≡ both self.old) }
    {
        if entry.key.is_below(self.split) {
            self.left.put(alloc, entry)?;
        } else {
            self.right.put(alloc, entry)?;
        }
        let bounds = self.left.bounds().joined(self.right.bounds());
        self.bounds = bounds;
        Ok(())
    }

    /// Takes out a key that is alone on neither side; returns whether it had the key.
    #[cycle(remove)]
    fn remove(&mut self, key: Key) -> bool
        requires left { is_only key self.old.0 ≡ false }
        requires right { is_only key self.old.1 ≡ false }
        ensures was { IsTrue result ↔ IsSome (due_of (both self.old) key) }
        ensures new { both self.new ≡ removed (both self.old) key }
    {
        let was = if key.is_below(self.split) {
            self.left.remove(key)
        } else {
            self.right.remove(key)
        };
        let rest = self.left.bounds().joined(self.right.bounds());
        self.bounds = rest;
        was
    }

    /// Gives a key another moment, or none, on its side of the split; returns whether it has the key.
    #[cycle(set)]
    fn set(&mut self, key: Key, due: Option<u64>) -> bool
        ensures was { IsTrue result ↔ IsSome (due_of (both self.old) key) }
        ensures new { both self.new ≡ changed (both self.old) key due }
    {
        let was = if key.is_below(self.split) {
            self.left.set(key, due)
        } else {
            self.right.set(key, due)
        };
        let told = self.left.bounds().joined(self.right.bounds());
        self.bounds = told;
        was
    }

    /// What is left of a fork without this key, which is alone on one side.
    fn other_side(self, key: Key) -> Tree
        requires { (is_only key self.0 ≡ true) ⊎ (is_only key self.1 ≡ true) }
        ensures had { IsSome (due_of (both self) key) }
        ensures rest { waiting_in result ≡ removed (both self) key }
    {
        let Fork {
            split,
            left,
            right,
            ..
        } = self;
        if key.is_below(split) { right } else { left }
    }
}

impl Tree {
    ghost use Rattle.deferral.specs.Tree.{IsBeside, IsBoundsOf, IsForked, IsHalf, both, is_only, waiting_in};

    pub fn bounds(&self) -> Bounds
        ensures { IsBoundsOf result (waiting_in self.now) }
    {
        match self {
            Tree::Leaf(entry) => entry.bounds(),
            Tree::Fork(fork) => fork.bounds,
        }
    }

    /// Whether it has this key and no other.
    pub fn is_only(&self, key: Key) -> bool
        ensures { result ≡ is_only key (waiting_in self.now) }
    {
        match self {
            Tree::Leaf(entry) => entry.key == key,
            Tree::Fork(fork) => {
                // It has a key on each side.
                let _ = &fork.left;
                false
            }
        }
    }

    #[cycle(contains)]
    pub fn contains(&self, key: Key) -> bool
        ensures { IsTrue result ↔ IsSome (due_of (waiting_in self.now) key) }
    {
        match self {
            Tree::Leaf(entry) => entry.key == key,
            Tree::Fork(fork) => fork.contains(key),
        }
    }

    /// The least key at or above the first whose moment is at or before now.
    #[cycle(due_from)]
    pub fn due_from(&self, first: Key, now: u64) -> Option<Key>
        ensures some { IfSome result
            (λ key. IsLeastDueFrom (waiting_in self.now) first now key) }
        ensures none { IfNone result
            ((key : ℕ) → first ≤ key → IsDue (waiting_in self.now) now key → ⊥) }
    {
        // A tree whose bounds rule it out is left at once. Any other has such a key, unless the first is within its
        // bounds, and at most one tree at each depth is like that.
        let Bounds { last, least, .. } = self.bounds();
        if last.is_below(first) || !is_by(least, now) {
            return None;
        }
        match self {
            Tree::Leaf(entry) => Some(entry.key),
            Tree::Fork(fork) => fork.due_from(first, now),
        }
    }

    /// Appends the keys at or above the first whose moment is at or before now, by rising keys, until there are `most`.
    #[cycle(push_due)]
    pub fn push_due(
        &self,
        first: Key,
        now: u64,
        most: usize,
        keys: &mut Vec<Key>,
    ) -> Result<(), AllocError>
        requires { length keys.old.items ≤ most }
        ensures ok { OnOk result (keys.new.items
            ≡ take most (keys.old.items ++ due_numbers first now (waiting_in self.now))) }
    {
        // As for the least key, but until there are enough.
        let Bounds { last, least, .. } = self.bounds();
        if keys.len() >= most || last.is_below(first) || !is_by(least, now) {
            return Ok(());
        }
        match self {
            Tree::Leaf(entry) => keys.push(entry.key)?,
            Tree::Fork(fork) => fork.push_due(first, now, most, keys)?,
        }
        Ok(())
    }

    /// The split of a fork over the tree and this key beside it; `None` if the key belongs below the tree's own fork.
    fn split_beside(&self, key: Key) -> Option<Key>
        requires { due_of (waiting_in self.now) key ≡ None }
        ensures some { IfSome result (λ split. IsBeside split key (waiting_in self.now)) }
        ensures none { IfNone result (IsForked self.now) }
    {
        let Bounds { first, last, .. } = self.bounds();
        let split = split_between(first.lesser(key), last.greater(key));
        if is_apart(key, split, first, last) {
            Some(split)
        } else {
            None
        }
    }

    /// Replaces the tree by a fork over it and a leaf beside it.
    fn grow(&mut self, alloc: Global, entry: TreeEntry, split: Key) -> Result<(), AllocError>
        requires { IsBeside split entry.key (waiting_in self.old) }
        ensures ok { OnOk result
            (waiting_in self.new ≡ added (waiting_in self.old) entry.key entry.due) }
        ensures unchanged { OnErr result (waiting_in self.new ≡ waiting_in self.old) }
    {
        let TreeEntry { key, due } = entry;
        let leaf = Tree::Leaf(TreeEntry { key, due });
        let old = mem::replace(self, Tree::Leaf(TreeEntry { key, due }));
        let before = key.is_below(split);
        let fork = if before {
            Fork::of(split, leaf, old)
        } else {
            Fork::of(split, old, leaf)
        };
        match Box::new(alloc, fork) {
            Ok(fork) => {
                *self = Tree::Fork(fork);
                Ok(())
            }
            Err(failed) => {
                let Fork { left, right, .. } = failed.value;
                *self = if before { right } else { left };
                Err(AllocError)
            }
        }
    }

    /// Puts in a key that it does not have.
    #[cycle(put)]
    pub fn put(&mut self, alloc: Global, entry: TreeEntry) -> Result<(), AllocError>
        requires { due_of (waiting_in self.old) entry.key ≡ None }
        ensures ok { OnOk result
            (waiting_in self.new ≡ added (waiting_in self.old) entry.key entry.due) }
        ensures unchanged { OnErr result (waiting_in self.new ≡ waiting_in self.old) }
    {
        if let Some(split) = self.split_beside(entry.key) {
            return self.grow(alloc, entry, split);
        }
        match self {
            Tree::Leaf(_) => unreachable!(),
            Tree::Fork(fork) => fork.put(alloc, entry),
        }
    }

    /// Replaces a fork in which this key is alone on one side by the other side.
    fn shrink(&mut self, key: Key)
        requires { IsHalf key self.old }
        ensures had { IsSome (due_of (waiting_in self.old) key) }
        ensures new { waiting_in self.new ≡ removed (waiting_in self.old) key }
    {
        let placeholder = Tree::Leaf(TreeEntry { key, due: None });
        match mem::replace(self, placeholder) {
            Tree::Leaf(_) => unreachable!(),
            Tree::Fork(fork) => *self = Box::into_inner(fork).other_side(key),
        }
    }

    /// Takes out a key unless it is the only one; returns whether the tree had it.
    #[cycle(remove)]
    pub fn remove(&mut self, key: Key) -> bool
        requires { is_only key (waiting_in self.old) ≡ false }
        ensures was { IsTrue result ↔ IsSome (due_of (waiting_in self.old) key) }
        ensures new { waiting_in self.new ≡ removed (waiting_in self.old) key }
    {
        match self {
            Tree::Leaf(_) => false,
            Tree::Fork(fork) => {
                if fork.left.is_only(key) || fork.right.is_only(key) {
                    self.shrink(key);
                    true
                } else {
                    fork.remove(key)
                }
            }
        }
    }

    /// Gives a key another moment, or none; returns whether the tree has it.
    #[cycle(set)]
    pub fn set(&mut self, key: Key, due: Option<u64>) -> bool
        ensures was { IsTrue result ↔ IsSome (due_of (waiting_in self.old) key) }
        ensures new { waiting_in self.new ≡ changed (waiting_in self.old) key due }
    {
        match self {
            Tree::Leaf(entry) => {
                let has = entry.key == key;
                if has {
                    entry.due = due;
                }
                has
            }
            Tree::Fork(fork) => fork.set(key, due),
        }
    }
}
