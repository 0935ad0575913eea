// Keys: which debt.
ghost use Rattle.std.specs.Prelude.{◌≡◌, ◌↔◌, ◌+◌, ◌++◌, ◌<◌, ◌≤◌, ◌^◌, IfNone};
ghost use Rattle.std.specs.Prelude.{IfSome, IsTrue, OnOk, Some};
ghost use Rattle.std.specs.Prelude.{decimal, min, max};
ghost use Rattle.std.specs.Ordering.{nat_cmp};
ghost use Rattle.std.specs.Prelude.{nat_eq};
ghost use Rattle.ledger_core.specs.Keys.{IsKey, key_of, key_text, number_of, source_of};
ghost use Rattle.std.specs.Cmp.Rules.{comparing};
ghost use Rattle.std.proofs.Common.{rules};

use std::alloc::AllocError;
use std::cmp::Ordering;
use std::marker::Model;

const TWO_TO_32: u64 = 4_294_967_296;

/// Which debt: the source of its line, and the number of the line in that source, from 1 up.
///
/// Source 0 is the funnel, each other one a backlog file that was taken in. Keys are ordered by source, then number.
/// Contracts see a key as one number, in which the source counts 2 ^ 64 (`specs/Keys.antt`): the key of a funnel line
/// is the line's number.
#[derive(Clone, Copy, Debug, Drop)]
pub struct Key {
    source: u32,
    high: u32,
    low: u32,
}

impl Model for Key {
    ghost use Rattle.std.specs.Prelude.{ℕ, ◌<◌, ◌^◌, ◌+◌, ◌*◌, ◌/◌, ◌%◌};
    ghost use Rattle.ledger_core.specs.Keys.{key_of, number_of, source_of};

    ghost Value = { ℕ };

    ghost use Rattle.ledger_core.specs.Halves.{whole};

    ghost view = { λ key. key_of key.source (key.high * 2 ^ 32 + key.low) };

    ghost invariant = { λ key. (key.source < 2 ^ 32) × (key.high < 2 ^ 32) × (key.low < 2 ^ 32) };

    ghost inverse = { λ key. record {
      source = source_of key;
      high = number_of key / 2 ^ 32;
      low = number_of key % 2 ^ 32;
    } };

    ghost inverse_ok = { whole };
}

impl Key {
    /// The key of a line.
    pub fn new(source: u32, number: u64) -> Self
        ensures key { result ≡ key_of source number }
        ensures source { source_of result ≡ source }
        ensures number { number_of result ≡ number }
    {
        Key {
            source,
            high: (number / TWO_TO_32) as u32,
            low: (number % TWO_TO_32) as u32,
        }
    }

    // A key is in range because the types of its fields are.
    pub(crate) fn fits(self)
        ensures { IsKey self }
    {
        let _source = self.source;
    }

    /// The source: 0 is the funnel.
    pub fn source(self) -> u32
        ensures { result ≡ source_of self }
    {
        self.source
    }

    /// The number of its line in that source.
    pub fn number(self) -> u64
        ensures { result ≡ number_of self }
    {
        u64::from(self.high) * TWO_TO_32 + u64::from(self.low)
    }

    /// Whether it comes before another.
    pub fn is_below(self, other: Key) -> bool
        ensures { IsTrue result ↔ self < other }
    {
        self < other
    }

    /// The one of two that comes first.
    pub fn lesser(self, other: Key) -> Key
        ensures { result ≡ min self other }
    {
        if self.is_below(other) { self } else { other }
    }

    /// The one of two that comes last.
    pub fn greater(self, other: Key) -> Key
        ensures { result ≡ max self other }
    {
        if self.is_below(other) { other } else { self }
    }

    /// The key after it, of whatever source; `None` after the last.
    pub fn next(self) -> Option<Key>
        ensures some { IfSome result (λ key. key ≡ self + 1) }
        ensures none { IfNone result (self + 1 ≡ 2 ^ 96) }
    {
        match (self.source(), self.number()) {
            (u32::MAX, u64::MAX) => None,
            (source, u64::MAX) => Some(Key::new(source + 1, 0)),
            (source, number) => Some(Key::new(source, number + 1)),
        }
    }

    /// Appends its text: a funnel line's is its number, any other is its source, a slash and its number.
    ///
    /// # Errors
    /// `NoMemory` if memory was refused; a part of it may have been appended.
    pub fn add_text(self, out: &mut Vec<u8>) -> Result<(), AllocError>
        ensures { OnOk result (out.new.items ≡ out.old.items ++ key_text self) }
    {
        if self.source() > 0 {
            add_decimal(out, u64::from(self.source()))?;
            out.push(b'/')?;
        }
        add_decimal(out, self.number())
    }
}

fn add_decimal(out: &mut Vec<u8>, number: u64) -> Result<(), AllocError>
    ensures { OnOk result (out.new.items ≡ out.old.items ++ decimal number) }
{
    out.extend_from_slice(itoa::Buffer::new().format(number).as_bytes())
}

impl PartialEq for Key {
    ghost eq = { nat_eq };

    ghost laws = { Prim.search (comparing, rules) };

    fn eq(&self, other: &Key) -> bool {
        self.source == other.source && self.high == other.high && self.low == other.low
    }
}

impl Eq for Key {
    ghost laws = { Prim.search rules };
}

impl PartialOrd for Key {
    ghost partial_cmp = { λ x y. Some (nat_cmp x y) };

    ghost laws = { Prim.search (comparing, rules) };

    fn partial_cmp(&self, other: &Key) -> Option<Ordering> {
        Some(self.cmp(other))
    }
}

impl Ord for Key {
    ghost cmp = { nat_cmp };

    ghost total = { Prim.search rules };

    ghost matches_partial_cmp = { Prim.search rules };

    ghost matches_eq = { Prim.search rules };

    fn cmp(&self, other: &Key) -> Ordering {
        self.source
            .cmp(&other.source)
            .then(self.high.cmp(&other.high))
            .then(self.low.cmp(&other.low))
    }
}
