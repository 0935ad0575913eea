// Why a request is refused, and what the system refused.
ghost use Rattle.std.specs.Prelude.{◌≡◌};
ghost use Rattle.requests.specs.declared.faults.RequestFault.TheVariants.{NoMemory};

use std::alloc::{AllocError, AllocFailed, Global};
use std::io::{self, ErrorKind};
use thiserror::Error;

/// Why a text is no request: the first fault in this order.
#[derive(Clone, Copy, Debug, PartialEq, Eq, Error)]
pub enum RequestFault {
    /// It is longer than 1,024 octets.
    #[error("the request is longer than 1,024 octets")]
    TooLong,
    /// It does not end in LF.
    #[error("the request does not end in LF")]
    NoLineEnd,
    /// Its word is none that can be asked.
    #[error("no such word can be asked: innfeed-tapes(8) lists them")]
    UnknownWord,
    /// A field is missing, or is none of this word, or comes twice or in another order.
    #[error("a field is missing, or not one of this word: innfeed-tapes(8) lists those of each word")]
    BadField,
    /// `peer` is not the name of a peer.
    #[error("this is no name of a peer: it has to be one that the configuration has")]
    BadPeer,
    /// `id` is not a message-id.
    #[error("this is no message-id: it has to be written as <LEFT@RIGHT>")]
    BadId,
    /// `key` is not a number below 2 ^ 64 in decimal, without a leading zero.
    #[error("the key is no number below 2 ^ 64, or has a sign or a leading zero")]
    BadNumber,
    /// Memory was refused.
    #[error("no memory: ask again")]
    NoMemory,
}

impl From<AllocError> for RequestFault {
    ghost from_gives = { λ _ fault. fault ≡ NoMemory };

    fn from(_: AllocError) -> Self {
        RequestFault::NoMemory
    }
}

/// What the system refused.
#[derive(Debug, Drop, Error)]
pub enum FileFault {
    /// The file or directory at this path may not be touched by this user.
    #[error("{path}: permission denied: run this as the user that owns the backlog directory")]
    Denied { path: String },
    /// The file or directory at this path could not be looked at, made, read or removed.
    #[error("{path}: {reason}")]
    Failed { path: String, reason: io::Error },
    /// Memory was refused.
    #[error("no memory")]
    NoMemory,
}

impl FileFault {
    /// Of the file or directory at this path.
    pub(crate) fn of(alloc: Global, path: &str, reason: io::Error) -> Self {
        if reason.kind() == ErrorKind::OutOfMemory {
            return FileFault::NoMemory;
        }
        let Ok(path) = String::from_str(alloc, path) else {
            return FileFault::NoMemory;
        };
        if reason.kind() == ErrorKind::PermissionDenied {
            FileFault::Denied { path }
        } else {
            FileFault::Failed { path, reason }
        }
    }
}

impl From<AllocError> for FileFault {
    fn from(_: AllocError) -> Self {
        FileFault::NoMemory
    }
}

impl<T: Drop> From<AllocFailed<T>> for FileFault {
    fn from(_: AllocFailed<T>) -> Self {
        FileFault::NoMemory
    }
}
