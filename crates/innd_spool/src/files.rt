// Files, whole.
ghost use Rattle.std.specs.Prelude.{◌≡◌, ◌==◌, ◌++◌, ◌↔◌, IsOk, IsTrue, IfOk, OnOk, string_bytes};
ghost use Rattle.std.specs.IoError.{error_kind};
ghost use Rattle.std.specs.List.{list_any, slice_split};
ghost use Rattle.innd_spool.specs.Files.{IsRead, is_absence, is_entry};

use crate::faults::is_directory;
use crate::reads::read_octets;
use crate::texts::Form;
use std::alloc::AllocError;
use std::fs::{self, File, Metadata};
use std::io::{self, ErrorKind, Read};
use std::os::unix::fs::FileTypeExt;
use std::rt::Files;
use std::time::SystemTime;

/// What lies at a path.
#[derive(Clone, Copy)]
pub(crate) enum AtPath {
    /// Nothing: the system reports that the path does not exist, or leads through a file that is not a directory.
    Nothing,
    Directory,
    /// A regular file, of which so many octets were read: they are at the front of the room.
    File(usize),
}

/// By what a file tells that it has been changed.
#[derive(Clone, Copy, PartialEq, Eq)]
pub(crate) struct FileState {
    octets: u64,
    modified: Option<SystemTime>,
}

/// Reads the file at a path, which has an article in this form, into the front of the room, as [`read_octets`] does. It
/// is looked at first.
///
/// # Errors
/// The system's error; [`ErrorKind::InvalidInput`] if what lies there is neither a file nor a directory, since to open
/// a FIFO might never end.
pub(crate) fn read_path<F: Files>(
    files: &F,
    path: &str,
    form: Form,
    room: &mut Vec<u8>,
) -> io::Result<AtPath>
    ensures within { IfOk result (IsRead room.new.items) }
{
    match fs::metadata(files, path) {
        Ok(there) if there.is_file() => {}
        Ok(there) if there.is_dir() => return Ok(AtPath::Directory),
        Ok(_) => return Err(no_file()),
        Err(error) => return absent(error),
    }
    read_own(files, path, form, room)
}

/// The same without that look: for paths where only innd makes anything, which are regular files and directories.
///
/// # Errors
/// The system's error.
pub(crate) fn read_own<F: Files>(
    files: &F,
    path: &str,
    form: Form,
    room: &mut Vec<u8>,
) -> io::Result<AtPath>
    ensures within { IfOk result (IsRead room.new.items) }
{
    let mut file = match File::open(files, path) {
        Ok(file) => file,
        Err(error) => return absent(error),
    };
    match read_octets(&mut file, form, room) {
        Ok(count) => Ok(AtPath::File(count)),
        Err(error) if error.kind() == ErrorKind::IsADirectory => Ok(AtPath::Directory),
        Err(error) => Err(error),
    }
}

/// Whether a directory lies at a path.
///
/// # Errors
/// The system's error, unless it says that nothing lies there.
pub(crate) fn is_directory_at<F: Files>(files: &F, path: &str) -> io::Result<bool> {
    match fs::metadata(files, path) {
        Ok(there) => Ok(there.is_dir()),
        Err(error) => {
            absent(error)?;
            Ok(false)
        }
    }
}

// What lies at a path that could not be looked at.
fn absent(error: io::Error) -> io::Result<AtPath>
    ensures absence { IsOk result ↔ IsTrue (is_absence (error_kind error)) }
    ensures nothing { IfOk result (λ at. at ≡ AtPath.Nothing) }
{
    match error.kind() {
        ErrorKind::NotFound => Ok(AtPath::Nothing),
        ErrorKind::NotADirectory => Ok(AtPath::Nothing),
        _ => Err(error),
    }
}

/// The state of the file at a path.
///
/// # Errors
/// The system's error; [`ErrorKind::InvalidInput`] if it is no regular file.
pub(crate) fn state_of<F: Files>(files: &F, path: &str) -> io::Result<FileState> {
    let there: Metadata = fs::metadata(files, path)?;
    if !there.is_file() {
        return Err(no_file());
    }
    Ok(FileState {
        octets: there.len(),
        modified: there.modified().ok(),
    })
}

/// Reads a file whole, in place of what was in the buffer.
///
/// # Errors
/// The system's error.
pub(crate) fn read_whole<F: Files>(files: &F, path: &str, text: &mut Vec<u8>) -> io::Result<()> {
    text.clear();
    let mut file = File::open(files, path)?;
    file.read_to_end(text)?;
    Ok(())
}

/// Opens a buffer: a file or a device.
///
/// # Errors
/// The system's error; [`ErrorKind::InvalidInput`] if it is a FIFO, since to open one might never end;
/// [`ErrorKind::IsADirectory`] if it is a directory, which could be opened, and even synced.
pub(crate) fn open_buffer<F: Files>(files: &F, path: &str) -> io::Result<F::File> {
    let kind = fs::metadata(files, path)?.file_type();
    if kind.is_fifo() {
        return Err(no_file());
    }
    if kind.is_dir() {
        return Err(is_directory());
    }
    File::open(files, path)
}

fn no_file() -> io::Error {
    io::Error::new(ErrorKind::InvalidInput, "not a regular file")
}

/// Makes `path` the path of this name below the directory, which ends with a slash.
///
/// # Errors
/// `AllocError` if memory was refused.
pub(crate) fn set_path(path: &mut String, directory: &str, name: &str) -> Result<(), AllocError>
    ensures { OnOk result (string_bytes path.new ≡ directory.now ++ name.now) }
{
    path.clear();
    path.push_str(directory)?;
    path.push_str(name)?;
    Ok(())
}

/// Whether the directory of innd's articles at this path has an entry: the mount point of a file system that is not
/// mounted has none. [`InndSpool::is_there`](crate::InndSpool) looks in this way.
///
/// # Errors
/// The system's error, as if nothing or no directory is there.
pub fn has_articles<F: Files>(files: &F, directory: &str) -> io::Result<bool> {
    has_names(&mut files.open_dir(directory)?)
}

// Whether there is a name but `.` and `..` among these, each of which a NUL ends. A read gives whole names.
fn has_names<R: Read>(names: &mut R) -> io::Result<bool> {
    let mut buffer = [0u8; 1024];
    for _ in 0..u64::MAX {
        match names.read(&mut buffer)? {
            0 => return Ok(false),
            count if has_name(&buffer[..count]) => return Ok(true),
            _ => {}
        }
    }
    Ok(false)
}

fn has_name(names: &[u8]) -> bool
    ensures { result ≡ list_any is_entry (slice_split (λ octet. octet == 0) names.now) }
{
    names.split(|octet| *octet == 0).any(|name| is_entry(name))
}

// Whether this is the name of an entry, and neither empty nor `.` or `..`.
fn is_entry(name: &[u8]) -> bool
    ensures { result ≡ is_entry name.now }
{
    name.len() > 2 || name.iter().any(|octet| *octet != b'.')
}
