// Why a file or a tape could not be read.

use log::{Log, info};
use recovery::TapeFault;
use std::alloc::Global;
use std::fmt::{self, Display, Formatter, Write};
use std::io;

/// What was not done with a file.
#[derive(Clone, Copy)]
pub(crate) enum Undone {
    Open,
    Read,
}

/// A file that could not be read.
#[derive(Drop)]
pub(crate) struct UnreadFile {
    pub path: String,
    pub undone: Undone,
    pub reason: io::Error,
}

impl UnreadFile {
    /// The file at this path, which could not be read for this reason.
    pub fn new(alloc: Global, path: &str, undone: Undone, reason: io::Error) -> Self {
        match String::from_str(alloc, path) {
            Ok(path) => UnreadFile {
                path,
                undone,
                reason,
            },
            Err(refused) => UnreadFile {
                path: String::new(alloc),
                undone,
                reason: io::Error::from(refused),
            },
        }
    }

    // Logs the reason, if it is a file of a tape.
    fn log_tape<R: Log>(&self, rt: &R) {
        let what = match self.undone {
            Undone::Open => "cannot open",
            Undone::Read => "tape file",
        };
        log_reason(rt, what, &self.path, &self.reason);
    }

    /// Logs the reason, if it is another file.
    pub fn log<R: Log>(&self, rt: &R) {
        log_reason(rt, "cannot read", &self.path, &self.reason);
    }
}

/// Logs the system's reason: what was not done with the file or the directory at this path.
pub(crate) fn log_reason<R: Log>(rt: &R, what: &str, path: &str, reason: &io::Error) {
    info!(rt; "{} {}: {}", what, path, reason);
}

/// Why a tape could not be read.
#[derive(Drop)]
pub(crate) enum UnreadTape {
    /// A file of it could not be read.
    File(UnreadFile),
    /// What its files have is not a tape, or memory was refused.
    Fault(TapeFault),
}

impl From<UnreadFile> for UnreadTape {
    fn from(unread: UnreadFile) -> Self {
        UnreadTape::File(unread)
    }
}

impl UnreadTape {
    /// Logs the system's reason, if it is the system's.
    pub fn log<R: Log>(&self, rt: &R) {
        if let UnreadTape::File(file) = self {
            file.log_tape(rt);
        }
    }
}

/// The reason, in words.
impl Display for UnreadTape {
    fn fmt<W: Write>(&self, f: &mut Formatter<W>) -> fmt::Result {
        match self {
            UnreadTape::File(file) => file.reason.fmt(f),
            UnreadTape::Fault(TapeFault::Damaged { .. }) => f.write_str("it is damaged"),
            UnreadTape::Fault(TapeFault::NoMemory) => f.write_str("out of memory"),
            UnreadTape::Fault(fault) => f.write_str(fault.name()),
        }
    }
}
