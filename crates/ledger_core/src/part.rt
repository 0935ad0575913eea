// What an outline keeps of a debt.
ghost use Rattle.std.specs.Prelude.{◌≡◌};

use std::marker::Model;

/// Which note owed a debt, and the octets that the debt counts, in 10 octets.
#[derive(Drop)]
pub(crate) struct Part {
    // A number of 64 bits, most significant octet first. As octets it needs no alignment.
    ordinal: [u8; 8],
    octets: u16,
}

impl Model for Part {
    ghost use Rattle.std.specs.Prelude.{ℕ};
    ghost use Rattle.std.specs.Int.{from_be_bytes, w64};

    ghost Value = { ℕ × ℕ };

    ghost view = { λ part. (from_be_bytes w64 part.ordinal, part.octets) };
}

impl Part {
    pub(crate) fn of(ordinal: u64, octets: u16) -> Self
        ensures { result ≡ (ordinal, octets) }
    {
        Part {
            ordinal: ordinal.to_be_bytes(),
            octets,
        }
    }

    pub(crate) fn ordinal(&self) -> u64
        ensures { result ≡ self.now.0 }
    {
        u64::from_be_bytes(self.ordinal)
    }

    pub(crate) fn octets(&self) -> u16
        ensures { result ≡ self.now.1 }
    {
        self.octets
    }
}
