// Why a run ends before the batch does.
use std::alloc::{AllocError, Global};
use std::io::{self, ErrorKind};
use thiserror::Error;

/// Why a run ends before the batch does.
#[derive(Debug, Drop, Error)]
pub enum FilingFault {
    /// The arguments of the command line are wrong.
    #[error("usage: file-articles DIRECTORY LINES")]
    Usage,
    /// After this many articles there is neither the end of the batch nor the line before an article.
    #[error("file-articles: standard input has no line `#! rnews LENGTH` after {0} articles")]
    Line(u64),
    /// The batch ends within an article.
    #[error("file-articles: standard input ends within an article")]
    Cut,
    /// A file or standard input cannot be read.
    #[error("file-articles: cannot read {path}: {reason}")]
    Unread { path: String, reason: io::Error },
    /// A file or standard output cannot be written.
    #[error("file-articles: cannot write {path}: {reason}")]
    Unwritten { path: String, reason: io::Error },
    /// A standard stream is closed.
    #[error("file-articles: standard input, output and error have to be open")]
    Closed,
    /// Memory was refused.
    #[error("file-articles: out of memory")]
    NoMemory,
}

impl From<AllocError> for FilingFault {
    fn from(_refused: AllocError) -> Self {
        FilingFault::NoMemory
    }
}

impl FilingFault {
    /// The fault if the file at this path could not be read: `NoMemory` if memory was refused.
    pub fn unread(alloc: Global, path: &str, reason: io::Error) -> Self {
        match (reason.kind(), String::from_str(alloc, path)) {
            (ErrorKind::OutOfMemory, _) | (_, Err(_)) => FilingFault::NoMemory,
            (_, Ok(path)) => FilingFault::Unread { path, reason },
        }
    }

    /// The fault if the file at this path could not be written: `NoMemory` if memory was refused.
    pub fn unwritten(alloc: Global, path: &str, reason: io::Error) -> Self {
        match (reason.kind(), String::from_str(alloc, path)) {
            (ErrorKind::OutOfMemory, _) | (_, Err(_)) => FilingFault::NoMemory,
            (_, Ok(path)) => FilingFault::Unwritten { path, reason },
        }
    }

    pub fn status(&self) -> u8 {
        match self {
            FilingFault::Line(_) | FilingFault::Cut => 1,
            FilingFault::Usage => 2,
            FilingFault::Unread { .. } | FilingFault::Unwritten { .. } | FilingFault::Closed => 4,
            FilingFault::NoMemory => 5,
        }
    }
}
