// Why a text has no block, and why octets are not one.
use thiserror::Error;

/// Why a text was not made into a block.
#[derive(Clone, Copy, Debug, PartialEq, Eq, Error)]
pub enum BlockRefusal {
    /// The text is empty or longer than 16,777,216 octets, or has a NUL or a CR without an LF after it.
    #[error("Unsendable")]
    Unsendable,
    /// Memory was refused for the block of a text that can be sent.
    #[error("NoMemory")]
    NoMemory,
}

/// Why octets were not read as a block: the first fault in reading order.
#[derive(Clone, Copy, Debug, PartialEq, Eq, Error)]
pub enum BlockFault {
    /// The octets end before the line with a dot alone, or within a line or its end.
    #[error("Unfinished")]
    Unfinished,
    /// A CR is followed by another octet than LF.
    #[error("BareCr")]
    BareCr,
    /// An LF follows another octet than CR.
    #[error("BareLf")]
    BareLf,
    /// A NUL stands in a line.
    #[error("Nul")]
    Nul,
    /// Memory was refused for the lines of a block that is whole.
    #[error("NoMemory")]
    NoMemory,
}
