// Why a list ended early.
ghost use Rattle.std.specs.Prelude.{◌≡◌};
ghost use Rattle.owed_list.specs.declared.fault.ListFault.TheVariants.{NoMemory};

use crate::unread::UnreadTape;
use feed_ends::{FeedEnd, FileError, TapeError};
use recovery::TapeFault;
use std::alloc::{AllocError, AllocFailed, Global};
use std::io::{self, ErrorKind};

/// Why a list ended early.
#[derive(Drop)]
pub(crate) enum ListFault {
    /// Memory was refused.
    NoMemory,
    /// Something is wrong with a tape.
    Tape(TapeError),
    /// Another file could not be read, or standard output could not be written.
    File(FileError),
}

impl From<AllocError> for ListFault {
    ghost from_gives = { λ _ fault. fault ≡ NoMemory };

    fn from(_: AllocError) -> Self {
        ListFault::NoMemory
    }
}

impl<T: Drop> From<AllocFailed<T>> for ListFault {
    ghost from_gives = { λ _ fault. fault ≡ NoMemory };

    fn from(_: AllocFailed<T>) -> Self {
        ListFault::NoMemory
    }
}

impl ListFault {
    /// The fault of the tape of this name.
    pub fn tape(alloc: Global, name: &[u8], fault: TapeFault) -> Self {
        if fault == TapeFault::NoMemory {
            return ListFault::NoMemory;
        }
        match Vec::from_slice(alloc, name) {
            Ok(name) => ListFault::Tape(TapeError::Failed { name, fault }),
            Err(_) => ListFault::NoMemory,
        }
    }

    /// The tape of this name could not be read.
    pub fn unread_tape(alloc: Global, name: &[u8], unread: &UnreadTape) -> Self {
        match unread {
            UnreadTape::File(file) => ListFault::directory(alloc, name, &file.reason),
            UnreadTape::Fault(fault) => ListFault::tape(alloc, name, *fault),
        }
    }

    /// The directory of the tape of this name, or a file of it, could not be read.
    pub fn directory(alloc: Global, name: &[u8], error: &io::Error) -> Self {
        match error.kind() {
            ErrorKind::OutOfMemory => ListFault::NoMemory,
            _ => ListFault::tape(alloc, name, TapeFault::Disk),
        }
    }

    /// The file or the directory at this path, which is no tape's, could not be read.
    pub fn unread(alloc: Global, path: &[u8], error: &io::Error) -> Self {
        match (error.kind(), Vec::from_slice(alloc, path)) {
            (ErrorKind::OutOfMemory, _) | (_, Err(_)) => ListFault::NoMemory,
            (_, Ok(path)) => ListFault::File(FileError::Unread(path)),
        }
    }

    /// Standard output could not be written.
    pub fn output(alloc: Global, error: &io::Error) -> Self {
        match (error.kind(), error.to_string(alloc)) {
            (ErrorKind::OutOfMemory, _) | (_, Err(_)) => ListFault::NoMemory,
            (_, Ok(reason)) => ListFault::File(FileError::Output(reason)),
        }
    }

    /// Adds the fault to how the list ended.
    pub fn add_to(self, end: &mut FeedEnd) {
        let added = match self {
            ListFault::NoMemory => false,
            ListFault::Tape(error) => end.tapes.push(error).is_ok(),
            ListFault::File(error) => end.files.push(error).is_ok(),
        };
        if !added {
            end.lacks_resources = true;
        }
    }
}
