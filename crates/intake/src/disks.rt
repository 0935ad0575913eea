// The files of the tapes.
use crate::run_error::{INTAKE, RunError};
use disk_model::{DirectoryFault, FileDisk, TapeDirectory, TapeFile};
use feed_conf::PeerConf;
use feed_ends::TapeError;
use recovery::TapeFault;
use std::alloc::{AllocError, Global};
use std::fs::File;
use std::io::{self, ErrorKind};
use std::rt::{Clock, Files};
use std::str;
use std::time::Duration;

/// The files of a tape, the first and the second; or why one of them could not be opened.
pub(crate) type OpenedFiles = Result<(FileDisk<TapeFile>, FileDisk<TapeFile>), RunError>;

/// The backlog directory, which is locked, and the files of its tapes.
#[derive(Drop)]
pub(crate) struct Disks {
    pub directory: TapeDirectory,
    pub path: String,
    /// Those of the peers by name, and the intake's last. Without `goes_on` none is tried after one that could not be
    /// opened.
    pub files: Vec<OpenedFiles>,
}

// How often a lock that another process holds is tried again: `--owed` holds a shared one for a moment.
const LOCK_TRIES_MAX: u32 = 20;

const LOCK_PAUSE_MS: u64 = 100;

/// Locks the backlog directory at this path and opens the files of the tapes of these peers and of the intake. Missing
/// files are made, and the names made durable. Waits for the lock for 2 seconds at most. `goes_on` is whether the next
/// tape is tried after one whose files could not be opened.
///
/// # Errors
/// The directory's. What is wrong with the directory itself is reported as a fault of the first tape.
pub(crate) fn open_disks<R: Clock, F: AllocGlobal + Files<File = File>>(
    rt: &R,
    files: &F,
    path: &[u8],
    peers: &[PeerConf],
    goes_on: bool,
) -> Result<Disks, RunError> {
    let alloc = files.alloc();
    let first = first_name(peers);
    let Ok(path) = str::from_utf8(path) else {
        let invalid = io::Error::from(ErrorKind::InvalidInput);
        return Err(RunError::unopened(alloc, first, path, invalid));
    };
    let mut disks = Disks {
        directory: lock(rt, files, path, first)?,
        path: String::from_str(alloc, path)?,
        files: Vec::new(alloc),
    };
    open_all(files, &mut disks, peers, goes_on)?;
    match disks.directory.sync() {
        Ok(()) => Ok(disks),
        Err(error) => Err(RunError::unopened(alloc, first, path.as_bytes(), error)),
    }
}

// Opens the files of the tapes of these peers, and then of the intake.
fn open_all<F: AllocGlobal + Files<File = File>>(
    files: &F,
    disks: &mut Disks,
    peers: &[PeerConf],
    goes_on: bool,
) -> Result<(), AllocError> {
    let mut is_well = true;
    for peer in peers {
        if is_well || goes_on {
            is_well &= open_next(files, disks, peer.name.bytes())?;
        }
    }
    if is_well || goes_on {
        open_next(files, disks, INTAKE)?;
    }
    Ok(())
}

// The name of the first tape.
fn first_name(peers: &[PeerConf]) -> &[u8] {
    match peers.first() {
        Some(peer) => peer.name.bytes(),
        None => INTAKE,
    }
}

fn lock<R: Clock, F: AllocGlobal + Files<File = File>>(
    rt: &R,
    files: &F,
    path: &str,
    first: &[u8],
) -> Result<TapeDirectory, RunError> {
    let alloc = files.alloc();
    match lock_soon(rt, files, path) {
        Ok(directory) => Ok(directory),
        Err(DirectoryFault::Taken) => {
            Err(RunError::Tape(TapeError::Taken(String::from_str(alloc, path)?)))
        }
        Err(DirectoryFault::Failed(error)) => {
            Err(RunError::unopened(alloc, first, path.as_bytes(), error))
        }
    }
}

// Locks the directory at this path, and tries again if another process has it.
fn lock_soon<R: Clock, F: AllocGlobal + Files<File = File>>(
    rt: &R,
    files: &F,
    path: &str,
) -> Result<TapeDirectory, DirectoryFault> {
    for _try in 0..LOCK_TRIES_MAX {
        match TapeDirectory::lock(files, path) {
            Err(DirectoryFault::Taken) => rt.sleep(Duration::from_millis(LOCK_PAUSE_MS)),
            locked => return locked,
        }
    }
    TapeDirectory::lock(files, path)
}

// Opens the files of one more tape. Returns whether they could be opened.
fn open_next<F: AllocGlobal + Files<File = File>>(
    files: &F,
    disks: &mut Disks,
    name: &[u8],
) -> Result<bool, AllocError> {
    let opened = open_both(files, disks, name);
    let is_well = opened.is_ok();
    disks.files.push(opened)?;
    Ok(is_well)
}

fn open_both<F: AllocGlobal + Files<File = File>>(
    files: &F,
    disks: &Disks,
    name: &[u8],
) -> OpenedFiles {
    let first = open_file(files, disks, name, "~a")?;
    let second = open_file(files, disks, name, "~b")?;
    Ok((first, second))
}

fn open_file<F: AllocGlobal + Files<File = File>>(
    files: &F,
    disks: &Disks,
    name: &[u8],
    ending: &str,
) -> Result<FileDisk<TapeFile>, RunError> {
    open_beside(files, &disks.directory, &disks.path, name, ending)
}

/// Opens the file of this peer, or of the intake, with this ending, in the directory at this path. It is made if it is
/// missing.
///
/// # Errors
/// Memory was refused; the system's.
pub(crate) fn open_beside<F: AllocGlobal + Files<File = File>>(
    files: &F,
    directory: &TapeDirectory,
    path: &str,
    name: &[u8],
    ending: &str,
) -> Result<FileDisk<TapeFile>, RunError> {
    let alloc = files.alloc();
    let file = file_name(alloc, name, ending)?;
    match directory.open(files, file.as_str()) {
        Ok(disk) => Ok(disk),
        Err(error) => {
            let path = format!(in alloc; "{}/{}", path, file)?;
            Err(RunError::unopened(alloc, name, path.as_bytes(), error))
        }
    }
}

// `NAME~a`, `NAME~b` or `NAME~kept`.
fn file_name(alloc: Global, name: &[u8], ending: &str) -> Result<String, RunError> {
    let Ok(text) = str::from_utf8(name) else {
        return Err(RunError::tape(alloc, name, TapeFault::Disk));
    };
    Ok(format!(in alloc; "{}{}", text, ending)?)
}
