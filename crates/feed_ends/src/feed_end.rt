// How a feed ended.
use recovery::TapeFault;
use std::alloc::Global;

/// What is wrong with the tapes.
#[derive(Drop)]
pub enum TapeError {
    /// Another process works on the backlog directory at this path.
    Taken(String),
    /// The backlog directory at this path is another user's, and the process runs as root.
    Foreign(String),
    /// The tape of this name, a peer's or `~intake`, could not be opened, or failed during the run.
    Failed { name: Vec<u8>, fault: TapeFault },
}

/// What is wrong with other files.
#[derive(Drop)]
pub enum FileError {
    /// The file at this path cannot be read.
    Unread(Vec<u8>),
    /// The file at this path cannot be written.
    Unwritten(Vec<u8>),
    /// The file at this path cannot be removed.
    Unremoved(Vec<u8>),
    /// Standard output cannot be written, for this reason.
    Output(String),
}

/// A peer that is still owed debts.
#[derive(Drop)]
pub struct Owing {
    pub name: Vec<u8>,
    /// How many debts it is owed, at least 1.
    pub owed: u64,
}

/// How a feed ended.
#[derive(Drop)]
pub struct FeedEnd {
    /// What went wrong with tapes, in the order of the tapes' names.
    pub tapes: Vec<TapeError>,
    /// What went wrong with other files.
    pub files: Vec<FileError>,
    /// Whether memory, a thread or a system resource for sockets was refused. Nothing is printed for it.
    pub lacks_resources: bool,
    /// The peers that are still owed debts, by name.
    pub owing: Vec<Owing>,
}

impl FeedEnd {
    ghost use Rattle.std.specs.Prelude.{◌≡◌, [], false};

    /// A feed that ended well, with nothing owed.
    pub fn well(alloc: Global) -> Self
        ensures { (result.tapes.items ≡ []) × (result.files.items ≡ [])
            × (result.lacks_resources ≡ false) × (result.owing.items ≡ []) }
    {
        FeedEnd {
            tapes: Vec::new(alloc),
            files: Vec::new(alloc),
            lacks_resources: false,
            owing: Vec::new(alloc),
        }
    }
}
