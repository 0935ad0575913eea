// What steps report.
use conn_core::Reason;
use funnel::{LineFault, PeerName};
use ledger_core::Key;
use peer_queue::{Owed, Settled};

/// What became of a line at a peer that it names.
#[derive(Debug, Drop)]
pub struct OwedAt {
    pub name: PeerName,
    /// Whether it is new there.
    pub owed: Owed,
}

/// What became of the least candidate that was to be handed to a connection.
#[derive(Clone, Copy, Debug, PartialEq, Eq)]
pub enum Handed {
    /// The connection has the debt of this key.
    Debt(Key),
    /// There is no candidate.
    Nothing,
    /// The connection has no room.
    Busy,
    /// The connection is closed.
    Closed,
}

/// One thing that a step reports.
#[derive(Debug, Drop)]
pub enum Output {
    /// A good line has this number; what came of it at the peers that it names, in byte order of their names.
    Owed {
        number: u64,
        peers: Vec<OwedAt>,
    },
    /// A malformed line has this number.
    Bad {
        number: u64,
        fault: LineFault,
    },
    /// The lines up to this number are acknowledged.
    Taken {
        mark: u64,
    },
    /// A connection of this number was made to this peer.
    Connected {
        connection: u64,
        name: PeerName,
    },
    /// What became of the candidate that was to be handed over.
    Handed {
        connection: u64,
        handed: Handed,
    },
    /// What became of the debt of this key, which the connection had.
    Settled {
        connection: u64,
        key: Key,
        settled: Settled,
    },
    /// A line that went out, without its CR LF.
    SentLine {
        connection: u64,
        line: Vec<u8>,
    },
    /// The article of this key is wanted.
    Need {
        connection: u64,
        key: Key,
    },
    /// The connection closed.
    Closed {
        connection: u64,
        reason: Reason,
    },
    /// The debts of these keys, of a peer's backlog, were dropped.
    Shed {
        name: PeerName,
        keys: Vec<Key>,
    },
    /// The tape of a peer was rewritten with what the peer is owed, as this generation.
    Rotated {
        name: PeerName,
        generation: u64,
    },
    /// A backlog file of a peer was imported as this source, and this many of its lines are new.
    Imported {
        name: PeerName,
        source: u32,
        new: u64,
    },
    /// All has stopped.
    Stopped,
    /// A peer's tape was opened: its mark, and the keys of what it owes, in rising order.
    Mark {
        name: PeerName,
        mark: u64,
        owes: Vec<Key>,
    },
}
