// An article in a file of its own, below a directory that may be a file system of its own.
ghost use Rattle.std.specs.Prelude.{◌≡◌, ◌↔◌, Ok, true, IfOk, IsOk, IsTrue, OnOk, List, ℕ};
ghost use Rattle.innd_spool.specs.Files.{IsGoneFrom, IsParentOf, IsRead};

use crate::faults::{named, not_mounted};
use crate::files::{AtPath, is_directory_at, read_own};
use crate::texts::Form;
use std::alloc::Global;
use std::io;
use std::rt::Files;

/// Paths at which others make and remove files: each look sees what lies there at that moment.
pub(crate) trait Paths {
    /// What it is that a look saw nothing at a path. Of paths of the system it says nothing.
    ghost is_absent: { Self → List ℕ → Type 0 } = { λ _ _. Unit {0} };

    /// What it is that a look saw a directory at a path.
    ghost is_directory: { Self → List ℕ → Type 0 } = { λ _ _. Unit {0} };

    /// Reads the file at a path, as [`read_own`] does.
    ///
    /// # Errors
    /// Those of `read_own`.
    fn read(&self, path: &str, room: &mut Vec<u8>) -> io::Result<AtPath>
        ensures within { IfOk result (IsRead room.new.items) }
        ensures absent { result ≡ Ok AtPath.Nothing → is_absent self.now path.now };

    /// Whether a directory lies at a path.
    ///
    /// # Errors
    /// The system's error.
    fn has_directory(&self, path: &str) -> io::Result<bool>
        ensures { result ≡ Ok true → is_directory self.now path.now };
}

impl<F: Files> Paths for F {
    fn read(&self, path: &str, room: &mut Vec<u8>) -> io::Result<AtPath> {
        read_own(self, path, Form::ByFirstLine, room)
    }

    fn has_directory(&self, path: &str) -> io::Result<bool> {
        is_directory_at(self, path)
    }
}

/// Reads the file of an article at `path`; `name` is the end of that path which messages have. `Nothing` only if the
/// article's own directory is there, since innd removes files and never a directory: without it the file system is not
/// mounted. The directory is looked at after the file, and then the file once more, as it may be mounted between.
///
/// # Errors
/// The system's error, or that the directory is missing, with what is missing before it.
pub(crate) fn read_article<P: Paths>(
    alloc: Global,
    paths: &P,
    path: &str,
    name: &str,
    room: &mut Vec<u8>,
) -> io::Result<AtPath>
    ensures within { IfOk result (IsRead room.new.items) }
    ensures gone { result ≡ Ok AtPath.Nothing
        → IsGoneFrom (P.is_absent paths.now) (P.is_directory paths.now) path.now }
{
    match read_named(alloc, paths, path, name, room)? {
        AtPath::Nothing => {}
        at => return Ok(at),
    }
    find_directory(alloc, paths, parent_of(path), parent_of(name))?;
    read_named(alloc, paths, path, name, room)
}

fn read_named<P: Paths>(
    alloc: Global,
    paths: &P,
    path: &str,
    name: &str,
    room: &mut Vec<u8>,
) -> io::Result<AtPath>
    ensures within { IfOk result (IsRead room.new.items) }
    ensures absent { result ≡ Ok AtPath.Nothing → P.is_absent paths.now path.now }
{
    match paths.read(path, room) {
        Ok(at) => Ok(at),
        Err(error) => Err(named(alloc, name, error)),
    }
}

fn find_directory<P: Paths>(alloc: Global, paths: &P, path: &str, name: &str) -> io::Result<()>
    ensures { OnOk result (P.is_directory paths.now path.now) }
{
    match paths.has_directory(path) {
        Ok(is_there) => if_there(alloc, is_there, name),
        Err(error) => Err(named(alloc, name, error)),
    }
}

// What it means for an article that is missing whether its directory is there.
fn if_there(alloc: Global, is_there: bool, name: &str) -> io::Result<()>
    ensures { IsOk result ↔ IsTrue is_there }
{
    if is_there {
        Ok(())
    } else {
        Err(not_mounted(alloc, name))
    }
}

// The path of the directory in which a file lies.
fn parent_of(path: &str) -> &str
    ensures { IsParentOf path.now result.now }
{
    match path.rfind('/') {
        Some(end) => &path[..end],
        None => "",
    }
}
