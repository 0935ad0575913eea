// Why a configuration could not be read.
ghost use Rattle.std.specs.Prelude.{◌≡◌};
ghost use Rattle.feed_conf.specs.Faults.{conf_fault_name};
ghost use Rattle.feed_conf.specs.declared.fault.ConfFaultKind.TheVariants.{NoMemory};

use std::alloc::{AllocError, AllocFailed};
use std::fmt::{self, Display, Formatter, Write};
use thiserror::Error;

/// What is wrong with a configuration, in the order in which the kinds are numbered.
#[derive(Clone, Copy, Debug, PartialEq, Eq, Error)]
pub enum ConfFaultKind {
    /// A key of the profile has no value, or a word that is not a key stands where a key is expected.
    NoValue,
    /// A value is not a number, or not a fraction if its key allows one.
    BadNumber,
    /// A value is none of the words for true and false.
    BadBoolean,
    /// A quote or a brace has no counterpart, or a block is opened inside a peer.
    Unbalanced,
    /// The name of a peer is missing or malformed.
    BadPeerName,
    /// A peer of that name was declared before.
    SamePeer,
    /// A peer's `no-check-low` is above its `no-check-high`.
    LowAboveHigh,
    /// A number is below the least value of its key, or a text is too long or too short.
    Range,
    /// `sync-spool` is true, and `innd-cycbuffs` is not given.
    NoCycbuffs,
    /// Memory was refused.
    NoMemory,
}

impl ConfFaultKind {
    /// The word for this kind in messages.
    pub fn name(self) -> &'static str
        ensures { result.now ≡ conf_fault_name self }
    {
        match self {
            ConfFaultKind::NoValue => "NoValue",
            ConfFaultKind::BadNumber => "BadNumber",
            ConfFaultKind::BadBoolean => "BadBoolean",
            ConfFaultKind::Unbalanced => "Unbalanced",
            ConfFaultKind::BadPeerName => "BadPeerName",
            ConfFaultKind::SamePeer => "SamePeer",
            ConfFaultKind::LowAboveHigh => "LowAboveHigh",
            ConfFaultKind::Range => "Range",
            ConfFaultKind::NoCycbuffs => "NoCycbuffs",
            ConfFaultKind::NoMemory => "NoMemory",
        }
    }
}

impl Display for ConfFaultKind {
    fn fmt<W: Write>(&self, f: &mut Formatter<W>) -> fmt::Result {
        f.write_str(self.name())
    }
}

/// The first fault of a configuration, in reading order.
#[derive(Clone, Copy, Debug, PartialEq, Eq, Error)]
#[error("line {line}: {kind}")]
pub struct ConfFault {
    /// The line, from 1 up; 0 if the fault belongs to no line.
    pub line: u64,
    pub kind: ConfFaultKind,
}

impl From<AllocError> for ConfFaultKind {
    ghost from_gives = { λ _ kind. kind ≡ NoMemory };

    fn from(_: AllocError) -> ConfFaultKind {
        ConfFaultKind::NoMemory
    }
}

impl<T: Drop> From<AllocFailed<T>> for ConfFaultKind {
    ghost from_gives = { λ _ kind. kind ≡ NoMemory };

    fn from(_: AllocFailed<T>) -> ConfFaultKind {
        ConfFaultKind::NoMemory
    }
}

impl From<AllocError> for ConfFault {
    ghost from_gives = { λ _ fault. fault.kind ≡ NoMemory };

    // After the last line is read, a fault belongs to no line.
    fn from(_: AllocError) -> ConfFault {
        ConfFault {
            line: 0,
            kind: ConfFaultKind::NoMemory,
        }
    }
}
