// What may be asked of a run.
use funnel::{MsgId, PeerName};

/// A request to a run.
#[derive(Debug, Drop)]
pub enum Request {
    /// The figures of this peer, or of all: as a table, or as JSON.
    Status { peer: Option<PeerName>, json: bool },
    /// Connect now, without the wait after a failure: to this peer, or to all.
    Retry { peer: Option<PeerName> },
    /// Log much from now on.
    LogVerbose,
    /// Log what matters from now on.
    LogQuiet,
    /// Log into a file that is opened anew under the same name.
    LogReopen,
    /// Send this peer nothing more, and keep what it is owed.
    Hold { peer: PeerName },
    /// Send this peer what it is owed again.
    Release { peer: PeerName },
    /// Owe this peer nothing of what it is owed, up to the debt with this key; without a key, of what it is owed when
    /// the request is taken.
    Purge { peer: PeerName, key: Option<u64> },
    /// Owe the article of this message-id to this peer no more, or to none.
    DropArticle { peer: Option<PeerName>, id: MsgId },
    /// Take in the backlog file of this peer, or of all.
    TakeIn { peer: Option<PeerName> },
    /// Read the configuration again.
    Reload,
}
