// The segments of a directory, by the numbers of their first lines.
ghost use Rattle.std.specs.Prelude.{◌≡◌, ◌≢◌, ◌↔◌, ◌<◌, ◌≤◌, ◌+◌, ℕ, []};
ghost use Rattle.std.specs.Prelude.{Contains, Err, IfNone, IfSome, IsTrue, Ok, length};
ghost use Rattle.std.specs.Prelude.{OnErr, OnOk, false, slice_index, true};
ghost use Rattle.std.specs.List.Sorted.{IsStrictlyIncreasing};
ghost use Rattle.segments.specs.Names.{HasFault, IsFirstOf, IsNumber};
ghost use Rattle.segments.specs.Firsts.{AreFirsts, IsBefore, IsNext, IsPlaceOf, IsUnknown, JoinsOne};
ghost use Rattle.segments.specs.declared.name.NameFault.{NameFault};

use crate::name::{NameFault, read_name};
use crate::place::SegmentPlace;
use std::alloc::{AllocError, Global};
use std::marker::Model;
use thiserror::Error;

/// Why a name was refused.
#[derive(Debug, Drop, PartialEq, Eq, Error)]
pub enum AddFault {
    /// The name is 20 digits, but not a segment's.
    #[error("{0}")]
    Name(NameFault),
    /// Memory was refused.
    #[error("NoMemory")]
    NoMemory,
}

/// The segments of a directory.
///
/// Contracts see the rising list of the numbers of their first lines. A query takes a logarithm of steps of how many
/// there are.
#[derive(Drop)]
pub struct Segments {
    firsts: Vec<u64>,
}

impl Model for Segments {
    ghost use Rattle.std.specs.Prelude.{ℕ, List};

    ghost Value = { List ℕ };

    ghost view = { λ segments. segments.firsts.items };

    ghost use Rattle.segments.specs.Firsts.{AreFirsts};

    ghost invariant = { λ segments. AreFirsts segments.firsts.items };
}

impl Segments {
    /// No segments.
    pub fn new(alloc: Global) -> Self
        ensures { result ≡ [] }
    {
        Segments {
            firsts: Vec::new(alloc),
        }
    }

    // Those of these numbers, which rise.
    pub(crate) fn of_rising(firsts: Vec<u64>) -> Self
        requires { AreFirsts firsts.items }
        ensures { result ≡ firsts.items }
    {
        Segments { firsts }
    }

    /// Takes in a name of the directory; `false` if it is not a segment's. A name that comes twice counts once. This
    /// moves those that begin above it: a [`Listing`](crate::Listing) takes many names.
    ///
    /// # Errors
    /// `Name` if the name is 20 digits but not a segment's; `NoMemory` if it is a segment's and memory was refused.
    /// Nothing changes.
    pub fn add(&mut self, name: &[u8]) -> Result<bool, AddFault>
        ensures ok { result ≡ Ok true
            → (first : ℕ) × IsFirstOf name.now first × JoinsOne self.old first self.new }
        ensures none { (result ≡ Ok false) ↔ (IsNumber name.now → ⊥) }
        ensures name { (fault : NameFault)
            → (result ≡ Err (AddFault.Name fault)) ↔ HasFault name.now fault }
        ensures no_memory { result ≡ Err AddFault.NoMemory
            → (first : ℕ) × IsFirstOf name.now first }
        ensures unchanged { result ≢ Ok true → self.new ≡ self.old }
    {
        match read_name(name) {
            Err(fault) => Err(AddFault::Name(fault)),
            Ok(None) => Ok(false),
            Ok(Some(first)) => match self.put(first) {
                Ok(()) => Ok(true),
                Err(AllocError) => Err(AddFault::NoMemory),
            },
        }
    }

    fn put(&mut self, first: u64) -> Result<(), AllocError>
        requires { 1 ≤ first }
        ensures ok { OnOk result (JoinsOne self.old first self.new) }
        ensures unchanged { OnErr result (self.new ≡ self.old) }
    {
        match self.firsts.binary_search(&first) {
            Ok(_) => Ok(()),
            Err(at) => {
                self.firsts.insert(at, first)?;
                Ok(())
            }
        }
    }

    pub fn len(&self) -> usize
        ensures { result ≡ length self.now }
    {
        self.firsts.len()
    }

    pub fn is_empty(&self) -> bool
        ensures { IsTrue result ↔ (self.now ≡ []) }
    {
        self.firsts.is_empty()
    }

    /// Where the line after this mark is: in the last segment that begins at or below it, or after that one's last
    /// line, if the line is not yet written. `None` if all begin after the line.
    pub fn place_of(&self, mark: u64) -> Option<SegmentPlace>
        ensures some { IfSome result (IsPlaceOf self.now mark) }
        ensures none { IfNone result
            ((first : ℕ) → Contains self.now first → mark + 1 < first) }
        ensures firsts { AreFirsts self.now }
    {
        let count = self.count_up_to(mark.saturating_add(1));
        if count == 0 {
            return None;
        }
        let first = self.firsts[count - 1];
        Some(SegmentPlace {
            first,
            skipped: mark - (first - 1),
        })
    }

    /// The next segment after the one that begins with this line: the first that begins above it.
    pub fn after(&self, first: u64) -> Option<u64>
        ensures some { IfSome result (IsNext self.now first) }
        ensures none { IfNone result
            ((other : ℕ) → Contains self.now other → other ≤ first) }
        ensures firsts { AreFirsts self.now }
    {
        self.firsts.get(self.count_up_to(first)).copied()
    }

    /// Those that begin below this line, in rising order.
    pub fn before(&self, first: u64) -> &[u64]
        ensures which { (other : ℕ) → Contains result.now other ↔ IsBefore self.now first other }
        ensures firsts { AreFirsts result.now }
    {
        &self.firsts[..self.count_up_to(first.saturating_sub(1))]
    }

    /// Takes out those that begin below this line.
    pub fn remove_before(&mut self, first: u64)
        ensures { (other : ℕ) → Contains self.new other
            ↔ (Contains self.old other × (first ≤ other)) }
    {
        self.firsts.retain(|other| *other >= first);
    }

    /// The first one that begins after the line `above` and before the line `below`, and is not one of `known`.
    pub fn first_unknown(&self, known: &Segments, above: u64, below: u64) -> Option<u64>
        ensures some { IfSome result (IsUnknown self.now known.now above below) }
        ensures none { IfNone result
            ((first : ℕ) → IsUnknown self.now known.now above below first → ⊥) }
    {
        first_unknown_of(self.before(below), &known.firsts, above)
    }

    // How many begin at or below this number: they come first.
    fn count_up_to(&self, number: u64) -> usize
        ensures within { result ≤ length self.now }
        ensures up_to { (k : ℕ) → k < result → slice_index self.now k ≤ number }
        ensures above { (k : ℕ) → result ≤ k → k < length self.now
            → number < slice_index self.now k }
        ensures firsts { AreFirsts self.now }
    {
        self.firsts.partition_point(|first| *first <= number)
    }
}

// The first of these that is above this number, and is not one of `known`.
fn first_unknown_of(firsts: &[u64], known: &[u64], above: u64) -> Option<u64>
    requires { IsStrictlyIncreasing known.now }
    ensures some { IfSome result (λ first. Contains firsts.now first × (above < first)
        × (Contains known.now first → ⊥)) }
    ensures none { IfNone result ((first : ℕ) → Contains firsts.now first → above < first
        → Contains known.now first) }
{
    for first in firsts {
        if *first > above && !has(known, *first) {
            return Some(*first);
        }
    }
    None
}

fn has(firsts: &[u64], first: u64) -> bool
    requires { IsStrictlyIncreasing firsts.now }
    ensures { IsTrue result ↔ Contains firsts.now first }
{
    firsts.binary_search(&first).is_ok()
}
