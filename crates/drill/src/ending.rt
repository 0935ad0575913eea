// How a drill ends, and which of its lines or tapes was refused.
ghost use Rattle.std.specs.Prelude.{◌≡◌};
ghost use Rattle.drill.specs.Words.{step_words, tape_words, why_words};

use drill_script::BrokenRule;
use funnel::PeerName;
use recovery::TapeFault;
use world_core::Fault;

/// How a drill ends.
#[derive(Drop)]
pub enum Ending {
    /// All its steps were taken.
    Done,
    /// The script breaks its rules, or a step of it was refused.
    Refused(Refusal),
    /// A tape was refused before the first step.
    NoTape(TapeRefusal),
    /// Memory was refused.
    NoMemory,
}

/// Which tape was refused, and why.
#[derive(Drop)]
pub struct TapeRefusal {
    /// The peer whose tape was refused; if there are several, the first in byte order of the names. `None` if it was
    /// the intake's, which comes after those of all peers.
    pub peer: Option<PeerName>,
    /// Why it was refused: `Damaged` if what the script gives is not a tape, or `Disk` if a disk in memory was
    /// refused memory.
    pub fault: TapeFault,
}

/// Which line of a script was refused, and why.
#[derive(Clone, Copy, Debug, PartialEq, Eq)]
pub struct Refusal {
    /// The number of the line among all lines of the script, from 1.
    pub line: usize,
    /// Why it was refused.
    pub why: Why,
}

/// Why a line of a script was refused.
#[derive(Clone, Copy, Debug, PartialEq, Eq)]
pub enum Why {
    /// It is the first that breaks the rules of a script.
    Script(BrokenRule),
    /// The step that it says was refused.
    Step(Fault),
}

impl Why {
    /// The reason in words.
    pub fn words(self) -> &'static str
        ensures { result.now ≡ why_words self }
    {
        match self {
            Why::Script(reason) => reason.words(),
            Why::Step(fault) => step_words(fault),
        }
    }
}

fn step_words(fault: Fault) -> &'static str
    ensures { result.now ≡ step_words fault }
{
    match fault {
        Fault::NoPeer => "no peer of this name is declared",
        Fault::NoConnection => "no connection has this number, or a stop ended it",
        Fault::Stopped => "everything has stopped: only `restart` and `stop` are allowed",
        Fault::Running => "nothing has stopped",
        Fault::NotNeeded => "the connection wants no article",
        Fault::Tape(fault) => tape_words(fault),
        Fault::CountFull => "the number would exceed the largest possible",
        Fault::NoMemory => "out of memory",
        Fault::NotFlushed => "no number is kept, or a peer has not been flushed since",
    }
}

fn tape_words(fault: TapeFault) -> &'static str
    ensures { result.now ≡ tape_words fault }
{
    match fault {
        TapeFault::Damaged { .. } => "a tape is damaged",
        TapeFault::Disk => "a disk failed",
        TapeFault::Broken => "a tape broke earlier",
        TapeFault::TapeFull => "a tape would become too long",
        TapeFault::GenerationFull => "a tape has the largest possible generation",
        TapeFault::PendingFull => "too many notes are pending: flush before this step",
        TapeFault::NoMemory => "out of memory",
        TapeFault::Note(_) => "the ledger refused the note",
    }
}
