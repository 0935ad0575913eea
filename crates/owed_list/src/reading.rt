// Reads the files of a tape while a run may work on them.
//
// A run adds records to the live segment, and writes the other one only in a rotation, its first record last
// (docs/FORMATS.md). So if the first records of both are unchanged after both files were read, no rotation has ended
// meanwhile, and what was read of the live segment is a prefix of it.
use crate::first_record::first_record;
use crate::unread::{Undone, UnreadFile};
use std::alloc::Global;
use std::fs::{self, File};
use std::io::{self, ErrorKind, Read};
use std::rt::Files;

// How often a tape is read if a run disturbs the reading.
const READINGS_MAX: u32 = 10;

/// The paths of the two files of a tape.
#[derive(Drop)]
pub(crate) struct TapePaths {
    pub a: String,
    pub b: String,
}

/// The octets of the two files of a tape.
pub(crate) type TapeOctets = (Vec<u8>, Vec<u8>);

/// The octets of the files at these paths; a missing file has none. They are read again if a run has meanwhile
/// rotated the tape or made a file shorter.
///
/// # Errors
/// Which file could not be read, and the system's error; `InvalidInput` if one is not a regular file; `TimedOut` if 10
/// readings were disturbed.
pub(crate) fn read_files<F: Files<File = File>>(
    alloc: Global,
    files: &F,
    paths: &TapePaths,
) -> Result<TapeOctets, UnreadFile> {
    for _reading in 0..READINGS_MAX {
        if let Some(both) = read_once(alloc, files, paths)? {
            return Ok(both);
        }
    }
    let disturbed = io::Error::new(ErrorKind::TimedOut, "it changed during each reading");
    Err(UnreadFile::new(alloc, &paths.a, Undone::Read, disturbed))
}

// Reads both files. `None` if that was disturbed.
fn read_once<F: Files<File = File>>(
    alloc: Global,
    files: &F,
    paths: &TapePaths,
) -> Result<Option<TapeOctets>, UnreadFile> {
    let a = read_file(alloc, files, &paths.a)?;
    let b = read_file(alloc, files, &paths.b)?;
    if begin_as_read(alloc, files, paths, &a, &b)? {
        Ok(Some((a, b)))
    } else {
        Ok(None)
    }
}

// Whether both files, of which these octets were read, still begin as they were read.
fn begin_as_read<F: Files<File = File>>(
    alloc: Global,
    files: &F,
    paths: &TapePaths,
    a: &[u8],
    b: &[u8],
) -> Result<bool, UnreadFile> {
    Ok(begins_as_read(alloc, files, &paths.a, a)? && begins_as_read(alloc, files, &paths.b, b)?)
}

// The octets of a file; none if it is missing.
fn read_file<F: Files<File = File>>(
    alloc: Global,
    files: &F,
    path: &str,
) -> Result<Vec<u8>, UnreadFile> {
    let mut octets = Vec::new(alloc);
    let Some(mut file) = open_file(alloc, files, path)? else {
        return Ok(octets);
    };
    match file.read_to_end(&mut octets) {
        Ok(_) => Ok(octets),
        Err(error) => Err(UnreadFile::new(alloc, path, Undone::Read, error)),
    }
}

// Whether a file of which these octets were read still begins with the same first record, and is not shorter.
fn begins_as_read<F: Files<File = File>>(
    alloc: Global,
    files: &F,
    path: &str,
    octets: &[u8],
) -> Result<bool, UnreadFile> {
    let first = first_record(octets);
    let Some(mut file) = open_file(alloc, files, path)? else {
        return Ok(octets.is_empty());
    };
    match read_prefix(alloc, &mut file, first.len().max(1)) {
        Ok((prefix, len)) => Ok(prefix.as_slice() == first && len >= octets.len() as u64),
        Err(error) => Err(UnreadFile::new(alloc, path, Undone::Read, error)),
    }
}

// The first octets of a file, at most `count`, and its length after they were read.
fn read_prefix(alloc: Global, file: &mut File, count: usize) -> io::Result<(Vec<u8>, u64)> {
    let mut prefix = Vec::new(alloc);
    file.take(count as u64).read_to_end(&mut prefix)?;
    Ok((prefix, file.metadata()?.len()))
}

/// Opens a file for reading; `None` if it is missing. It is checked first, because opening a FIFO might never return.
///
/// # Errors
/// That it could not be opened, and why: the system's error; `InvalidInput` if it is not a regular file.
pub(crate) fn open_file<F: Files<File = File>>(
    alloc: Global,
    files: &F,
    path: &str,
) -> Result<Option<File>, UnreadFile> {
    match try_open(files, path) {
        Ok(file) => Ok(Some(file)),
        Err(error) if error.kind() == ErrorKind::NotFound => Ok(None),
        Err(error) => Err(UnreadFile::new(alloc, path, Undone::Open, error)),
    }
}

fn try_open<F: Files<File = File>>(files: &F, path: &str) -> io::Result<File> {
    if !fs::metadata(files, path)?.is_file() {
        return Err(io::Error::new(ErrorKind::InvalidInput, "it is not a regular file"));
    }
    File::open(files, path)
}
