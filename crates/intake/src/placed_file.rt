// A file that others read while it is written anew: it is replaced at one stroke.
use std::fs::{self, File, OpenOptions};
use std::io::{self, ErrorKind, Write};
use std::rt::Files;
use std::str;

/// Writes this text into a file beside the one at this path, which is renamed to it once it is whole and synced. If
/// there is something at the path that is no regular file, as a device or a FIFO, that is written to.
///
/// # Errors
/// The system's; `InvalidInput` if the path is no UTF-8.
pub(crate) fn place<F: AllocGlobal + Files<File = File>>(
    files: &F,
    path: &[u8],
    text: &[u8],
) -> io::Result<()> {
    let Ok(path) = str::from_utf8(path) else {
        return Err(io::Error::from(ErrorKind::InvalidInput));
    };
    match fs::metadata(files, path) {
        Ok(there) if !there.is_file() => write_into(files, path, text),
        _ => replace(files, path, text),
    }
}

fn write_into<F: Files<File = File>>(files: &F, path: &str, text: &[u8]) -> io::Result<()> {
    let mut there = OpenOptions::new().write(true).open(files, path)?;
    there.write_all(text)
}

// Writes a file beside the one at this path, and renames it to that.
fn replace<F: AllocGlobal + Files<File = File>>(
    files: &F,
    path: &str,
    text: &[u8],
) -> io::Result<()> {
    let beside = format!(in files.alloc(); "{}.new", path)?;
    write_anew(files, beside.as_str(), text)?;
    fs::rename(files, beside.as_str(), path)
}

// Writes a file at this path, in place of one that is there, and syncs it.
fn write_anew<F: Files<File = File>>(files: &F, path: &str, text: &[u8]) -> io::Result<()> {
    let mut file = File::create(files, path)?;
    file.write_all(text)?;
    file.sync_all()
}
