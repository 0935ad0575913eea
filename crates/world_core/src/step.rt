// The steps of a world.
use article_store::Found;
use disk_model::Choice;
use funnel::PeerName;

/// One step of a world. While all is stopped, each is refused but `Restart` and a `Stop` that arms a stop.
#[derive(Debug, Drop)]
pub enum Step {
    /// A funnel line, without its LF.
    Line(Vec<u8>),
    /// `Begin`, then `Part` for each peer in byte order of their names, then `Seal`.
    Flush,
    /// The last line's number is kept, to be sealed.
    Begin,
    /// The station of this peer is flushed.
    Part(PeerName),
    /// The kept number is noted on the intake's tape, and that is flushed.
    Seal,
    /// A connection to this peer is made. Connections are numbered from 1, and the numbers go on after a stop.
    Connect(PeerName),
    /// The least candidate of the peer of this connection is claimed and offered.
    Hand(u64),
    /// These octets come in on this connection.
    Bytes(u64, Vec<u8>),
    /// This was found of the article that this connection wants.
    Article(u64, Found),
    /// This connection breaks.
    Break(u64),
    /// The moment of all connections is this, in seconds.
    Tick(u64),
    /// What exceeds the backlog limit of this peer is dropped.
    Shed(PeerName),
    /// The tape of this peer is rewritten with what the peer is owed.
    Rotate(PeerName),
    /// A backlog file of this peer is imported: its good lines are owed as one source, numbered after what was imported
    /// of that source before; then the source is closed, and the peer is flushed.
    Import {
        peer: PeerName,
        /// The text of the file: lines that end in LF.
        text: Vec<u8>,
    },
    /// All stops. At call 0 all stops at rest, and the tape and the choice are ignored; at any other call a stop is
    /// armed, which comes at that counted call of that tape's disks.
    Stop {
        /// The peer at whose tape it comes; `None` is the intake's.
        peer: Option<PeerName>,
        /// Which counted call it stops, from 1 on; 0 means now.
        call: u64,
        /// What it leaves of each disk.
        choice: Choice,
    },
    /// All tapes are opened, the peers' in byte order of their names and then the intake's.
    Restart,
}
