// The names of a directory, as they are read from it.
ghost use Rattle.std.specs.Prelude.{◌≡◌, ◌≢◌, ◌↔◌, ◌≤◌, ◌++◌, ◌∷◌, ℕ, []};
ghost use Rattle.std.specs.Prelude.{Contains, Err, Ok, OnErr, OnOk, false, true};
ghost use Rattle.segments.specs.Names.{HasFault, IsFirstOf, IsNumber};
ghost use Rattle.segments.specs.declared.name.NameFault.{NameFault};

use crate::name::{NameFault, read_name};
use crate::segments::{AddFault, Segments};
use std::alloc::{AllocError, Global};
use std::marker::Model;

/// The segments of a directory that is being read, in the order in which its names come.
///
/// Contracts see the list of the numbers of their first lines.
#[derive(Drop)]
pub struct Listing {
    firsts: Vec<u64>,
}

impl Model for Listing {
    ghost use Rattle.std.specs.Prelude.{ℕ, List};

    ghost Value = { List ℕ };

    ghost view = { λ listing. listing.firsts.items };

    ghost use Rattle.segments.specs.Firsts.{AreLines};

    ghost invariant = { λ listing. AreLines listing.firsts.items };
}

impl Listing {
    /// No names yet.
    pub fn new(alloc: Global) -> Self
        ensures { result ≡ [] }
    {
        Listing {
            firsts: Vec::new(alloc),
        }
    }

    /// Takes in a name of the directory; `false` if it is not a segment's.
    ///
    /// # Errors
    /// `Name` if the name is 20 digits but not a segment's; `NoMemory` if it is a segment's and memory was refused.
    /// Nothing changes.
    pub fn add(&mut self, name: &[u8]) -> Result<bool, AddFault>
        ensures ok { result ≡ Ok true
            → (first : ℕ) × IsFirstOf name.now first × (self.new ≡ self.old ++ first ∷ []) }
        ensures none { (result ≡ Ok false) ↔ (IsNumber name.now → ⊥) }
        ensures name { (fault : NameFault)
            → (result ≡ Err (AddFault.Name fault)) ↔ HasFault name.now fault }
        ensures no_memory { result ≡ Err AddFault.NoMemory
            → (first : ℕ) × IsFirstOf name.now first }
        ensures unchanged { result ≢ Ok true → self.new ≡ self.old }
    {
        match read_name(name) {
            Err(fault) => Err(AddFault::Name(fault)),
            Ok(None) => Ok(false),
            Ok(Some(first)) => match self.put(first) {
                Ok(()) => Ok(true),
                Err(AllocError) => Err(AddFault::NoMemory),
            },
        }
    }

    fn put(&mut self, first: u64) -> Result<(), AllocError>
        requires { 1 ≤ first }
        ensures ok { OnOk result (self.new ≡ self.old ++ first ∷ []) }
        ensures unchanged { OnErr result (self.new ≡ self.old) }
    {
        self.firsts.push(first)?;
        Ok(())
    }

    /// The segments that were read. One whose name came twice counts once.
    pub fn into_segments(self) -> Segments
        ensures { (first : ℕ) → Contains result first ↔ Contains self first }
    {
        let mut firsts = self.firsts;
        firsts.sort_unstable();
        firsts.dedup();
        Segments::of_rising(firsts)
    }
}
