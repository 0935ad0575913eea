// What is wrong with a row.
use std::alloc::{AllocError, AllocFailed};
use std::io;
use thiserror::Error;

/// What is wrong with a row.
#[derive(Debug, Drop, Error)]
pub enum RowFault {
    /// It is not `CALL "ARGUMENT" .. = "ANSWER"`.
    #[error("it is no row: CALL \"ARGUMENT\" .. = \"ANSWER\"")]
    NoRow,
    /// It has a `\` before neither `n`, `r`, `t` nor `x` and two hexadecimal digits.
    #[error("it has a backslash before neither n, r, t nor xHH")]
    Escape,
    /// No call has this name and so many arguments.
    #[error("no call has this name and so many arguments")]
    NoCall,
    /// An argument is not what the call takes: a number, a name, or a configuration without a fault.
    #[error("argument {0} is not {1}")]
    Argument(usize, &'static str),
    /// The answer is not the one that the row has.
    #[error("{0}")]
    Differs(String),
    /// A file that the row names cannot be read, or memory was refused.
    #[error("{0}")]
    Io(io::Error),
}

impl From<io::Error> for RowFault {
    fn from(error: io::Error) -> Self {
        RowFault::Io(error)
    }
}

impl From<AllocError> for RowFault {
    fn from(error: AllocError) -> Self {
        RowFault::Io(io::Error::from(error))
    }
}

impl<T: Drop> From<AllocFailed<T>> for RowFault {
    fn from(_: AllocFailed<T>) -> Self {
        RowFault::Io(io::Error::from(AllocError))
    }
}
