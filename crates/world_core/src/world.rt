// Worlds.
use crate::connection::Connection;
use crate::peer::StoppedPeer;
use crate::stations::Stations;
use crate::stop::{StopDisk, Trigger};
use disk_model::Choice;
use std::alloc::Global;
use std::cell::Cell;
use std::rc::Rc;

/// A stop that is armed.
#[derive(Clone, Copy, Debug, PartialEq, Eq)]
pub(crate) struct Arming {
    // The rank of the peer at whose tape it comes, or `None` for the intake's.
    pub(crate) rank: Option<usize>,
    // How many counted calls there are up to and including the one that it stops.
    pub(crate) call: u64,
    // What it leaves of each disk.
    pub(crate) choice: Choice,
}

/// All tapes are open, or all have stopped.
#[derive(Drop)]
pub(crate) enum Stage {
    // The stations, and the connections by rising numbers.
    Running(Stations<StopDisk>, Vec<Connection>),
    // The peers, and the disks of the intake's tape.
    Stopped(Vec<StoppedPeer>, (StopDisk, StopDisk)),
}

/// All peers of a feed, the intake's tape and the connections.
#[derive(Drop)]
pub struct World {
    pub(crate) alloc: Global,
    pub(crate) stage: Stage,
    // The stop that is armed, as the disks see it: all share it, so that there is at most one, and it stops them all.
    pub(crate) trigger: Rc<Cell<Trigger>>,
    pub(crate) armed: Option<Arming>,
    // The number of the last connection that was made.
    pub(crate) connected: u64,
    // The moment, in seconds.
    pub(crate) now: u64,
}
