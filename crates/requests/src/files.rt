// Files that are made whole or not at all, and taken by whoever removes them.
ghost use Rattle.std.specs.Prelude.{◌≡◌};
ghost use Rattle.requests.specs.Names.{passed_for};

use crate::faults::FileFault;
use crate::names::new_path;
use std::fs::{self, File, Metadata, OpenOptions};
use std::io::{self, ErrorKind, Read, Write};
use std::os::unix::fs::{MetadataExt, OpenOptionsExt};
use std::rt::{Clock, Files};
use thiserror::Error;

// Only the owner may read and write it.
const MODE: u32 = 0o600;

// The bits of a mode by which others than the owner may write.
const OTHERS_WRITE: u32 = 0o022;

/// Why a file with the name of a request is not taken.
#[derive(Clone, Copy, Debug, PartialEq, Eq, Error)]
pub enum PassedReason {
    /// It is no regular file.
    #[error("it is no regular file: remove it")]
    NoFile,
    /// Its owner is not that of the directory.
    #[error("its owner is not that of the directory: remove it, and ask as that user")]
    OtherOwner,
    /// Others than its owner may write to it.
    #[error("others than its owner may write to it: remove it")]
    OthersWrite,
    /// It is more than [`crate::ASK_SECONDS`] old, so whoever asked no longer waits.
    #[error("it is more than 10 seconds old, so nobody waits for an answer: remove it, and ask again")]
    TooOld,
}

/// Which files are fetched.
#[derive(Clone, Copy)]
pub(crate) struct Allowed {
    /// The owner that one has to have: that of the directory.
    pub owner: u32,
    /// How old one may be, in seconds.
    pub seconds: u64,
    /// How many octets of it are read.
    pub octets: u64,
}

/// What was got of a file.
#[derive(Drop)]
pub(crate) enum Fetched {
    /// Its octets, or the first of them; it is removed.
    Octets(Vec<u8>),
    /// It is not there, or somebody else has removed it.
    Gone,
    /// It stays, for this reason.
    Passed(PassedReason),
}

/// Makes a file at this path with these octets, in place of one that is there: under the name with `.new` behind it,
/// and then renamed, so that nobody reads a part of it. After an error nothing is left under that other name.
///
/// # Errors
/// [`FileFault`].
pub(crate) fn put_file<R: AllocGlobal + Files<File = File>>(
    rt: &R,
    path: &str,
    octets: &[u8],
) -> Result<(), FileFault> {
    let beside = new_path(rt.alloc(), path)?;
    remove_if_there(rt, beside.as_str())?;
    let made = match make_file(rt, beside.as_str(), octets) {
        Ok(()) => fs::rename(rt, beside.as_str(), path),
        failed => failed,
    };
    match made {
        Ok(()) => Ok(()),
        Err(reason) => {
            let _ = fs::remove_file(rt, beside.as_str());
            Err(FileFault::of(rt.alloc(), beside.as_str(), reason))
        }
    }
}

// Makes a file that is not there.
fn make_file<R: Files<File = File>>(rt: &R, path: &str, octets: &[u8]) -> io::Result<()> {
    let mut options = OpenOptions::new();
    options.write(true).create_new(true).mode(MODE);
    let mut file = options.open(rt, path)?;
    file.write_all(octets)
}

/// Removes a file, if it is there, and says whether it was.
///
/// # Errors
/// [`FileFault`].
pub(crate) fn remove_if_there<R: AllocGlobal + Files>(
    rt: &R,
    path: &str,
) -> Result<bool, FileFault> {
    match fs::remove_file(rt, path) {
        Ok(()) => Ok(true),
        Err(reason) if reason.kind() == ErrorKind::NotFound => Ok(false),
        Err(reason) => Err(FileFault::of(rt.alloc(), path, reason)),
    }
}

/// Reads the first octets of the file at this path, and removes it, if that is allowed.
///
/// # Errors
/// [`FileFault`].
pub(crate) fn fetch<R: Clock + AllocGlobal + Files<File = File>>(
    rt: &R,
    path: &str,
    allowed: &Allowed,
) -> Result<Fetched, FileFault> {
    match fetch_file(rt, path, allowed) {
        Ok(fetched) => Ok(fetched),
        Err(reason) if reason.kind() == ErrorKind::NotFound => Ok(Fetched::Gone),
        Err(reason) => Err(FileFault::of(rt.alloc(), path, reason)),
    }
}

fn fetch_file<R: Clock + AllocGlobal + Files<File = File>>(
    rt: &R,
    path: &str,
    allowed: &Allowed,
) -> io::Result<Fetched> {
    // Not opened before that is known: to open a FIFO might never return.
    if let Some(reason) = why_passed(rt, allowed, &fs::symlink_metadata(rt, path)?) {
        return Ok(Fetched::Passed(reason));
    }
    let file = File::open(rt, path)?;
    // Another file may have come there meanwhile.
    if let Some(reason) = why_passed(rt, allowed, &file.metadata()?) {
        return Ok(Fetched::Passed(reason));
    }
    let mut octets = Vec::new(rt.alloc());
    file.take(allowed.octets).read_to_end(&mut octets)?;
    fs::remove_file(rt, path)?;
    Ok(Fetched::Octets(octets))
}

fn why_passed<R: Clock>(rt: &R, allowed: &Allowed, there: &Metadata) -> Option<PassedReason> {
    passed_for(
        allowed,
        there.is_file(),
        there.uid(),
        there.mode(),
        age(rt, there),
    )
}

// For how many seconds it has been as it is; 0 if the clock cannot be read, or has gone back.
fn age<R: Clock>(rt: &R, there: &Metadata) -> u64 {
    match there.modified() {
        Ok(modified) => match modified.elapsed(rt) {
            Ok(passed) => passed.as_secs(),
            Err(_) => 0,
        },
        Err(_) => 0,
    }
}

// Why a file is passed over.
fn passed_for(
    allowed: &Allowed,
    is_file: bool,
    uid: u32,
    mode: u32,
    age: u64,
) -> Option<PassedReason>
    ensures { result ≡ passed_for allowed.now.owner allowed.now.seconds is_file uid mode age }
{
    if !is_file {
        Some(PassedReason::NoFile)
    } else if uid != allowed.owner {
        Some(PassedReason::OtherOwner)
    } else if mode & OTHERS_WRITE != 0 {
        Some(PassedReason::OthersWrite)
    } else if age > allowed.seconds {
        Some(PassedReason::TooOld)
    } else {
        None
    }
}
