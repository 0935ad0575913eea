// Why a funnel cannot be read.
use crate::position::Misfit;
use std::alloc::AllocError;
use std::fmt::{self, Display, Formatter, Write};
use std::io::{self, ErrorKind};
use thiserror::Error;

/// A file that has fewer lines than are acknowledged. The text is for a log, after the file's path and a space.
#[derive(Clone, Copy, Debug, PartialEq, Eq)]
pub struct FewLines {
    /// How many it has.
    pub lines: u64,
    /// All lines up to this number are acknowledged.
    pub mark: u64,
}

impl Display for FewLines {
    fn fmt<W: Write>(&self, f: &mut Formatter<W>) -> fmt::Result {
        let noun = if self.lines == 1 { "line" } else { "lines" };
        let verb = if self.mark == 1 { "was" } else { "were" };
        write!(
            f,
            "has {} {}, {} {} acknowledged: another funnel, or a cut one?",
            self.lines, noun, self.mark, verb
        )
    }
}

/// Why a funnel cannot be read further, or one of its segments cannot be removed. The text is for a log, after the
/// funnel's path and a colon, but for `FewLines`. `segment` is the number of a segment's first line, which names the
/// segment.
#[derive(Debug, Drop, Error)]
pub enum FunnelFault {
    /// The funnel is not a directory, so segments cannot be removed from it.
    #[error("it is not a directory, so no segments can be removed from it")]
    NotADirectory,
    /// The funnel is a file with fewer lines than are acknowledged.
    #[error("{0}")]
    FewLines(FewLines),
    /// The funnel is a file that is followed, and has become shorter than what was read of it.
    #[error("it has become shorter")]
    Shortened,
    /// The directory has no segment.
    #[error("there is no segment")]
    NoSegment,
    /// A name of 20 digits is not the number of a line: it is 0, or 2 ^ 64 or more.
    #[error("segment {name}: no line has this number")]
    NoNumber { name: String },
    /// A segment is not a regular file.
    #[error("segment {segment:020} is not a regular file")]
    NoFile { segment: u64 },
    /// The last segment ends before the mark.
    #[error("segment {segment:020} ends at line {last}, but lines up to {mark} are acknowledged")]
    Short { segment: u64, last: u64, mark: u64 },
    /// A segment that is followed has become shorter than what was read of it.
    #[error("segment {segment:020} has become shorter")]
    Shrunk { segment: u64 },
    /// A segment does not fit the next one.
    #[error("{0}")]
    Misfit(Misfit),
    /// A segment cannot be read, for the system's reason.
    #[error("segment {segment:020}: {reason}")]
    Segment { segment: u64, reason: io::Error },
    /// A segment cannot be removed, for the system's reason.
    #[error("cannot remove {path}: {reason}")]
    Unremoved { path: String, reason: io::Error },
    /// The system's error, or that memory was refused.
    #[error("{0}")]
    Failed(io::Error),
}

impl FunnelFault {
    /// Whether memory was refused.
    pub fn is_no_memory(&self) -> bool {
        match self {
            FunnelFault::Segment { reason, .. }
            | FunnelFault::Unremoved { reason, .. }
            | FunnelFault::Failed(reason) => reason.kind() == ErrorKind::OutOfMemory,
            _ => false,
        }
    }
}

impl From<io::Error> for FunnelFault {
    fn from(reason: io::Error) -> Self {
        FunnelFault::Failed(reason)
    }
}

impl From<AllocError> for FunnelFault {
    fn from(refused: AllocError) -> Self {
        FunnelFault::Failed(refused.into())
    }
}

impl From<Misfit> for FunnelFault {
    fn from(misfit: Misfit) -> Self {
        FunnelFault::Misfit(misfit)
    }
}
