// Opening the tapes of all peers and of the intake.
ghost use Rattle.std.specs.Prelude.{◌≡◌, ◌++◌, ◌∷◌, [], IfOk, OnOk, false};
ghost use Rattle.intake.specs.Tapes.{AddsPeer, AreParted, AreStations, IsStationOf};
ghost use Rattle.recovery.specs.Words.{ledger_of, pending_of};

use crate::disks::{Disks, OpenedFiles, open_disks};
use crate::run_error::{INTAKE, RunError};
use acknowledged_lines::Acknowledged;
use disk_model::{FileDisk, TapeDirectory, TapeFile};
use feed_conf::PeerConf;
use flusher::PostPeer;
use log::{Log, warn};
use peer_queue::Limits;
use recovery::Tape;
use std::alloc::{AllocError, Global};
use std::fs::File;
use std::rt::{Clock, Files};
use std::str;
use std::vec::IntoIter;

/// A peer whose tape could not be opened.
#[derive(Drop)]
pub struct LeftOut {
    pub conf: PeerConf,
    /// Why.
    pub error: RunError,
}

/// The tapes of all peers, by name, and of the intake; and the directory, which is locked as long as this lives.
#[derive(Drop)]
pub struct Tapes {
    pub directory: TapeDirectory,
    /// The settings of the peers whose tapes are open.
    pub confs: Vec<PeerConf>,
    pub peers: Vec<PostPeer<FileDisk<TapeFile>>>,
    /// The other peers.
    pub left_out: Vec<LeftOut>,
    pub intake: Tape<FileDisk<TapeFile>>,
    /// The lines that are acknowledged, as the intake's tape was opened.
    pub acknowledged: Acknowledged,
}

// What was opened so far.
#[derive(Drop)]
struct OpenedPeers {
    confs: Vec<PeerConf>,
    peers: Vec<PostPeer<FileDisk<TapeFile>>>,
    left_out: Vec<LeftOut>,
}

/// Opens the tapes in the backlog directory at this path, of these peers, in their order, and then of the intake.
/// `leaves_out` is whether a peer whose tape cannot be opened is left out.
///
/// # Errors
/// Why the first tape that could not be opened was refused, unless its peer is left out. If the system refused a call
/// on a file that is open, that is logged. Memory was refused.
pub fn open_tapes<R: Clock + Log, F: AllocGlobal + Files<File = File>>(
    rt: &R,
    files: &F,
    path: &[u8],
    peers: Vec<PeerConf>,
    leaves_out: bool,
) -> Result<Tapes, RunError>
    ensures stations { IfOk result (λ tapes. AreStations tapes.confs.items tapes.peers.items) }
    ensures parted { IfOk result (λ tapes.
        AreParted peers.items tapes.confs.items tapes.left_out.items) }
    ensures all { leaves_out ≡ false → IfOk result (λ tapes. tapes.left_out.items ≡ []) }
    ensures acknowledged { IfOk result
        (λ tapes. tapes.acknowledged.number ≡ (ledger_of tapes.intake).mark) }
{
    let alloc = files.alloc();
    let Disks {
        directory,
        files: disks,
        ..
    } = open_disks(rt, files, path, &peers, leaves_out)?;
    let mut disks = disks.into_iter();
    let OpenedPeers {
        confs,
        peers,
        left_out,
    } = match open_peers(alloc, peers, &mut disks, leaves_out) {
        Ok(opened) => opened,
        Err(error) => return Err(refused(rt, &directory, path, error)),
    };
    let intake = match open_tape(alloc, INTAKE, next_files(&mut disks)) {
        Ok(intake) => intake,
        Err(error) => return Err(refused(rt, &directory, path, error)),
    };
    let acknowledged = Acknowledged::of(&intake);
    Ok(Tapes {
        directory,
        confs,
        peers,
        left_out,
        intake,
        acknowledged,
    })
}

// A tape in the directory at this path was refused with this error. Logs the system's reason, if it has one.
fn refused<R: Log>(rt: &R, directory: &TapeDirectory, path: &[u8], error: RunError) -> RunError {
    log_tape_fault(rt, directory, str::from_utf8(path).unwrap_or(""));
    error
}

/// Logs why the system refused a call on a file that is open in this directory, the first one only. `path` is the
/// directory's.
pub fn log_tape_fault<R: Log>(rt: &R, directory: &TapeDirectory, path: &str) {
    if let Some(fault) = directory.first_fault() {
        warn!(rt; "{}/{}: {}", path, fault.name, fault.reason);
    }
}

fn open_peers(
    alloc: Global,
    peers: Vec<PeerConf>,
    disks: &mut IntoIter<OpenedFiles>,
    leaves_out: bool,
) -> Result<OpenedPeers, RunError>
    ensures stations { IfOk result (λ opened. AreStations opened.confs.items opened.peers.items) }
    ensures parted { IfOk result (λ opened.
        AreParted peers.items opened.confs.items opened.left_out.items) }
    ensures all { leaves_out ≡ false → IfOk result (λ opened. opened.left_out.items ≡ []) }
{
    let mut opened = OpenedPeers {
        confs: Vec::new(alloc),
        peers: Vec::new(alloc),
        left_out: Vec::new(alloc),
    };
    for conf in peers {
        let both = next_files(disks);
        opened.add(alloc, conf, both, leaves_out)?;
    }
    Ok(opened)
}

impl OpenedPeers {
    // Opens the tape of a peer in these files, or leaves the peer out.
    fn add(
        &mut self,
        alloc: Global,
        conf: PeerConf,
        files: OpenedFiles,
        leaves_out: bool,
    ) -> Result<(), RunError>
        ensures stations { OnOk result (AreStations self.old.confs.items self.old.peers.items
            → AreStations self.new.confs.items self.new.peers.items) }
        ensures added { OnOk result (AddsPeer leaves_out conf self.old self.new) }
    {
        match open_peer(alloc, &conf, files) {
            Ok(peer) => Ok(self.add_open(conf, peer)?),
            Err(error) if leaves_out && !matches!(error, RunError::OutOfResources) => {
                Ok(self.left_out.push(LeftOut { conf, error })?)
            }
            Err(error) => Err(error),
        }
    }

    fn add_open(
        &mut self,
        conf: PeerConf,
        peer: PostPeer<FileDisk<TapeFile>>,
    ) -> Result<(), AllocError>
        requires { IsStationOf conf peer }
        ensures stations { OnOk result (AreStations self.old.confs.items self.old.peers.items
            → AreStations self.new.confs.items self.new.peers.items) }
        ensures confs { OnOk result
            (self.new.confs.items ≡ self.old.confs.items ++ conf ∷ []) }
        ensures left_out { self.new.left_out ≡ self.old.left_out }
    {
        self.peers.push(peer)?;
        self.confs.push(conf)?;
        Ok(())
    }
}

// The files of the next tape.
fn next_files(disks: &mut IntoIter<OpenedFiles>) -> OpenedFiles {
    match disks.next() {
        Some(files) => files,
        None => Err(RunError::OutOfResources),
    }
}

fn open_peer(
    alloc: Global,
    conf: &PeerConf,
    files: OpenedFiles,
) -> Result<PostPeer<FileDisk<TapeFile>>, RunError>
    ensures { IfOk result (IsStationOf conf.now) }
{
    let (a, b) = files?;
    let limits = Limits {
        backlog_limit: conf.backlog_limit,
        backlog_high: conf.backlog_high,
        drop_deferred: conf.drop_deferred,
    };
    match PostPeer::open(alloc, conf.name.clone()?, a, b, limits) {
        Ok(peer) => Ok(peer),
        Err(refused) => Err(RunError::tape(alloc, conf.name.bytes(), refused.fault)),
    }
}

fn open_tape(
    alloc: Global,
    name: &[u8],
    files: OpenedFiles,
) -> Result<Tape<FileDisk<TapeFile>>, RunError>
    ensures { IfOk result (λ tape. pending_of tape ≡ 0) }
{
    let (a, b) = files?;
    match Tape::open(alloc, a, b) {
        Ok(tape) => Ok(tape),
        Err(refused) => Err(RunError::tape(alloc, name, refused.fault)),
    }
}
