// Why a text is not a script.
ghost use Rattle.std.specs.Prelude.{◌≡◌};
ghost use Rattle.drill_script.specs.Faults.{reason_words};
ghost use Rattle.drill_script.specs.declared.fault.ScriptFault.TheVariants.{NoMemory};

use std::alloc::{AllocError, AllocFailed};
use thiserror::Error;

/// Why a line breaks the rules of a script.
#[derive(Clone, Copy, Debug, PartialEq, Eq, Error)]
#[error("{}", self.words())]
pub enum BrokenRule {
    /// It is neither a peer, a tape, a step nor a comment.
    NoStep,
    /// It begins like the line of a peer, but its settings are not those of one peer of that name.
    NoPeer,
    /// It declares a peer after a step.
    PeerBehindStep,
    /// It declares a peer whose name is declared already.
    DeclaredTwice,
    /// It begins like the line of a tape, but no name of a disk and pairs of hexadecimal digits follow.
    NoTape,
    /// It gives a tape after a step.
    TapeBehindStep,
    /// It gives the tape of a peer that no line before it declares.
    NoPeerOfTape,
    /// It gives a disk that is given already.
    TapeTwice,
    /// It is the last, and does not end with LF.
    Unended,
}

impl BrokenRule {
    /// Its text in messages.
    pub fn words(self) -> &'static str
        ensures { result.now ≡ reason_words self }
    {
        match self {
            BrokenRule::NoStep => "unknown or malformed step",
            BrokenRule::NoPeer => "malformed settings of a peer",
            BrokenRule::PeerBehindStep => "a peer line after the first step",
            BrokenRule::DeclaredTwice => "peer declared twice",
            BrokenRule::NoTape => "malformed tape line",
            BrokenRule::TapeBehindStep => "a tape line after the first step",
            BrokenRule::NoPeerOfTape => "no earlier line declares the peer of this tape",
            BrokenRule::TapeTwice => "tape given twice",
            BrokenRule::Unended => "no newline at end of file",
        }
    }
}

/// Why there is no script.
#[derive(Clone, Copy, Debug, PartialEq, Eq, Error)]
pub enum ScriptFault {
    /// The line at this line number, from 1, is the first that breaks the rules.
    #[error("line {line}: {reason}")]
    Broken { line: usize, reason: BrokenRule },
    /// Memory was refused.
    #[error("NoMemory")]
    NoMemory,
}

impl From<AllocError> for ScriptFault {
    ghost from_gives = { λ _ fault. fault ≡ NoMemory };

    fn from(_: AllocError) -> Self {
        ScriptFault::NoMemory
    }
}

impl<T: Drop> From<AllocFailed<T>> for ScriptFault {
    ghost from_gives = { λ _ fault. fault ≡ NoMemory };

    fn from(_: AllocFailed<T>) -> Self {
        ScriptFault::NoMemory
    }
}
