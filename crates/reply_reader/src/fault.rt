// Why no reply is read.
ghost use Rattle.reply_reader.specs.declared.fault.ReplyFault.TheVariants.{NoMemory};
ghost use Rattle.reply_reader.specs.Faults.{reply_fault_name};
ghost use Rattle.std.specs.Prelude.{◌≡◌};

use std::alloc::AllocError;
use std::fmt::{self, Display, Formatter, Write};
use thiserror::Error;

/// Why no reply is read.
#[derive(Clone, Copy, Debug, PartialEq, Eq, Error)]
pub enum ReplyFault {
    /// The first unread line is longer than 2,048 octets with its end, or 2,048 octets without an LF are unread.
    TooLong,
    /// The first unread line does not begin with three digits (RFC 3977, section 3.2).
    NoCode,
    /// Memory was refused for a reply. Its line stays unread.
    NoMemory,
    /// An earlier call returned `TooLong` or `NoCode`.
    Failed,
}

impl ReplyFault {
    /// The word for this fault in messages and scripts.
    pub fn name(self) -> &'static str
        ensures { result.now ≡ reply_fault_name self }
    {
        match self {
            ReplyFault::TooLong => "TooLong",
            ReplyFault::NoCode => "NoCode",
            ReplyFault::NoMemory => "NoMemory",
            ReplyFault::Failed => "Failed",
        }
    }
}

impl Display for ReplyFault {
    fn fmt<W: Write>(&self, f: &mut Formatter<W>) -> fmt::Result {
        f.write_str(self.name())
    }
}

impl From<AllocError> for ReplyFault {
    ghost from_gives = { λ _ fault. fault ≡ NoMemory };

    fn from(_refused: AllocError) -> ReplyFault {
        ReplyFault::NoMemory
    }
}
