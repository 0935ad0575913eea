// The lines that name unknown peers, which earlier runs have kept.
ghost use Rattle.std.specs.Prelude.{◌≡◌, ◌==◌, count_by};

use log::{Log, warn};
use std::alloc::Global;
use std::fs::{self, File};
use std::io::{self, ErrorKind, Read};
use std::rt::Files;

/// The file of lines that name unknown peers, in the backlog directory.
pub(crate) const UNKNOWN: &str = "~unknown";

const PIECE_OCTETS: usize = 65_536;

/// Logs how many lines name unknown peers that earlier runs have kept in the backlog directory at this path, if there
/// are any. The whole file is read, which has `unknown-limit` octets at most.
pub fn log_unknown_lines<R: Log, F: AllocGlobal + Files<File = File>>(
    rt: &R,
    files: &F,
    directory: &str,
) {
    match lines_in(files, files.alloc(), directory) {
        Ok(lines) => log_count(rt, directory, lines),
        Err(error) if error.kind() == ErrorKind::OutOfMemory => {}
        Err(error) => warn!(rt; "{}/{}: {}: its lines are not counted", directory, UNKNOWN, error),
    }
}

// Logs that so many lines name unknown peers, if there are any.
fn log_count<R: Log>(rt: &R, directory: &str, lines: u64) {
    let what = match lines {
        0 => return,
        1 => "line names a peer that was not configured: queue it by a backlog file, or remove it",
        _ =>
            "lines name peers that were not configured: queue them by backlog files, or remove them",
    };
    warn!(rt; "{}/{}: {} {}", directory, UNKNOWN, lines, what);
}

// How many lines it has in the directory at this path: none if it is not there.
fn lines_in<F: Files<File = File>>(files: &F, alloc: Global, directory: &str) -> io::Result<u64> {
    let path = format!(in alloc; "{}/{}", directory, UNKNOWN)?;
    if !is_there(files, path.as_str())? {
        return Ok(0);
    }
    let mut file = File::open(files, path.as_str())?;
    let mut piece = vec![in alloc; 0u8; PIECE_OCTETS]?;
    count_lines(&mut file, &mut piece)
}

// Whether there is a regular file at this path.
fn is_there<F: Files<File = File>>(files: &F, path: &str) -> io::Result<bool> {
    match fs::metadata(files, path) {
        Ok(there) if there.is_file() => Ok(true),
        Ok(_) => Err(ErrorKind::InvalidInput.into()),
        Err(error) if error.kind() == ErrorKind::NotFound => Ok(false),
        Err(error) => Err(error),
    }
}

// How many lines a file has, which is read into this piece.
fn count_lines(file: &mut File, piece: &mut [u8]) -> io::Result<u64> {
    let mut lines = 0u64;
    for _ in 0..u64::MAX {
        match file.read(piece) {
            Ok(0) => return Ok(lines),
            Ok(count) => lines = lines.saturating_add(line_ends(&piece[..count]) as u64),
            Err(error) if error.kind() == ErrorKind::Interrupted => {}
            Err(error) => return Err(error),
        }
    }
    Ok(lines)
}

// How many lines end in this piece.
fn line_ends(piece: &[u8]) -> usize
    ensures { result ≡ count_by (λ octet. octet == 10) piece.now }
{
    piece.iter().filter(|octet| **octet == b'\n').count()
}
