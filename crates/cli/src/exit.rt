// How the program ends.
ghost use Rattle.std.specs.Prelude.{◌≡◌};

use drill::Ending;
use feed_ends::FeedEnd;

/// How the program ends, as administrators' scripts see it.
#[derive(Clone, Copy, Debug, PartialEq, Eq)]
pub enum Exit {
    /// All is done: status 0.
    Done,
    /// The configuration has a fault, the script is malformed, or a step of it was refused: status 1.
    Refused,
    /// The arguments are wrong: status 2.
    Usage,
    /// A tape cannot be opened, broke, is damaged or full: status 3.
    Tape,
    /// A file or standard input could not be read, or a file or an output could not be written: status 4.
    Unreadable,
    /// Memory, a thread or a system resource for sockets was refused: status 5.
    NoMemory,
}

impl Exit {
    ghost use Rattle.cli.specs.Exit.{status_of};
    ghost use Rattle.cli.specs.Feed.{exit_of_end};

    /// The status of a feed that ended like this: errors of tapes go first, then refused resources, then errors of
    /// other files.
    pub fn of_feed(end: &FeedEnd) -> Self
        ensures { result ≡ exit_of_end end.now }
    {
        if !end.tapes.is_empty() {
            Exit::Tape
        } else if end.lacks_resources {
            Exit::NoMemory
        } else if !end.files.is_empty() {
            Exit::Unreadable
        } else {
            Exit::Done
        }
    }

    pub fn status(self) -> u8
        ensures { result ≡ status_of self }
    {
        match self {
            Exit::Done => 0,
            Exit::Refused => 1,
            Exit::Usage => 2,
            Exit::Tape => 3,
            Exit::Unreadable => 4,
            Exit::NoMemory => 5,
        }
    }
}

impl From<Ending> for Exit {
    ghost use Rattle.cli.specs.Exit.{exit_of};

    ghost from_gives = { λ ending exit. exit ≡ exit_of ending };

    fn from(ending: Ending) -> Self {
        match ending {
            Ending::Done => Exit::Done,
            Ending::Refused(_) => Exit::Refused,
            Ending::NoTape(_) => Exit::Tape,
            Ending::NoMemory => Exit::NoMemory,
        }
    }
}
