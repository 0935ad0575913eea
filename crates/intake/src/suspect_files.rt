// The files of suspects: what is known of articles at which connections failed, from one run to the next.
use log::{Log, warn};
use std::alloc::AllocError;
use std::fs::{self, File};
use std::io::{self, ErrorKind};
use std::rt::Files;
use std::str;

// A longer file is none that a run has written.
const FILE_MAX_OCTETS: u64 = 4_194_304;

/// What the file of suspects of the peer of this name has, in the backlog directory at this path; nothing if there is
/// no such file. It is a hint: if it cannot be read, that is logged and the run goes on.
///
/// # Errors
/// Memory was refused.
pub fn read_suspects<R: Log, F: AllocGlobal + Files<File = File>>(
    rt: &R,
    files: &F,
    directory: &str,
    name: &[u8],
) -> Result<Vec<u8>, AllocError> {
    let path = path_of(files, directory, name)?;
    match read(files, path.as_str()) {
        Ok(text) => Ok(text),
        Err(error) => {
            log_unread(rt, path.as_str(), &error);
            Ok(Vec::new(files.alloc()))
        }
    }
}

// Logs that the file at this path cannot be read, unless it is not there.
fn log_unread<R: Log>(rt: &R, path: &str, error: &io::Error) {
    if error.kind() != ErrorKind::NotFound {
        warn!(
            rt; "cannot read {}: {}; articles at which connections failed are offered as any other", path, error
        );
    }
}

// The octets of a plain file that is no longer than a run writes it.
fn read<F: AllocGlobal + Files<File = File>>(files: &F, path: &str) -> io::Result<Vec<u8>> {
    let there = fs::symlink_metadata(files, path)?;
    if !there.is_file() || there.len() > FILE_MAX_OCTETS {
        return Err(io::Error::from(ErrorKind::InvalidData));
    }
    fs::read(files, path)
}

/// Logs that lines of the file of suspects of the peer of this name are malformed, and were passed over.
pub fn log_malformed_suspects<R: Log>(rt: &R, directory: &str, name: &[u8], lines: u64) {
    let name = str::from_utf8(name).unwrap_or("");
    let what = match lines {
        0 => return,
        1 => "line is",
        _ => "lines are",
    };
    warn!(rt; "{}/{}~suspects: {} malformed {} passed over", directory, name, lines, what);
}

/// Keeps this text as the file of suspects of the peer of this name, in the backlog directory at this path, in place of
/// the one that is there; if the text is empty, none is left. It is not synced. If the file cannot be written, that is
/// logged.
///
/// # Errors
/// Memory was refused.
pub fn keep_suspects<R: Log, F: AllocGlobal + Files<File = File>>(
    rt: &R,
    files: &F,
    directory: &str,
    name: &[u8],
    text: &[u8],
) -> Result<(), AllocError> {
    let path = path_of(files, directory, name)?;
    let (kept, verb) = if text.is_empty() {
        (remove(files, path.as_str()), "remove")
    } else {
        (replace(files, path.as_str(), text), "write")
    };
    if let Err(error) = kept {
        warn!(
            rt; "cannot {} {}: {}; the next run may offer first the articles at which connections failed", verb,
            path.as_str(), error
        );
    }
    Ok(())
}

fn remove<F: Files<File = File>>(files: &F, path: &str) -> io::Result<()> {
    match fs::remove_file(files, path) {
        Err(error) if error.kind() != ErrorKind::NotFound => Err(error),
        _ => Ok(()),
    }
}

// Writes a file beside the one at this path, and renames it to that.
fn replace<F: AllocGlobal + Files<File = File>>(
    files: &F,
    path: &str,
    text: &[u8],
) -> io::Result<()> {
    let beside = format!(in files.alloc(); "{}.new", path)?;
    fs::write(files, beside.as_str(), text)?;
    fs::rename(files, beside.as_str(), path)
}

// The path of the file of suspects. A peer's name is text.
fn path_of<F: AllocGlobal>(files: &F, directory: &str, name: &[u8]) -> Result<String, AllocError> {
    let name = str::from_utf8(name).unwrap_or("");
    format!(in files.alloc(); "{}/{}~suspects", directory, name)
}
