// The buffers of CNFS, as cycbuff.conf names them.
ghost use Rattle.std.specs.Prelude.{◌≡◌, IfOk, IsSome, OnOk};
ghost use Rattle.innd_spool.specs.Buffers.{IsWithin};

use crate::buffer_article::{Stored, read_stored};
use crate::faults::{in_buffer, named, no_buffer, no_configuration};
use crate::files::{FileState, open_buffer, read_whole, state_of};
use funnel::first_line;
use innd_storage::{BufferName, CnfsToken, CycbuffLine, read_cycbuff_line};
use std::alloc::{AllocError, Global};
use std::collections::BTreeMap;
use std::fs::{File, OpenFile};
use std::rt::Files;
use std::{io, str};

// The name of the configuration, for messages.
const CONFIGURATION: &str = "cycbuff.conf";

/// The buffers, and those of their files that are open.
#[derive(Drop)]
pub(crate) struct Buffers {
    alloc: Global,
    // The configuration's path, if there is one.
    path: Option<String>,
    // The paths of the buffers' files or devices.
    paths: BTreeMap<Vec<u8>, String>,
    // Of the configuration that was read; `None` if none was.
    seen: Option<FileState>,
    open: BTreeMap<Vec<u8>, File>,
}

impl Buffers {
    /// The buffers that the configuration at this path names. It is not read yet.
    ///
    /// # Errors
    /// `AllocError` if memory was refused.
    pub fn new(alloc: Global, path: Option<&str>) -> Result<Self, AllocError> {
        let path = match path {
            Some(path) => Some(String::from_str(alloc, path)?),
            None => None,
        };
        Ok(Buffers {
            alloc,
            path,
            paths: BTreeMap::new(alloc),
            seen: None,
            open: BTreeMap::new(alloc),
        })
    }

    /// Reads the article of a token from its buffer, which is open, as [`read_stored`] does.
    ///
    /// # Errors
    /// Those of `read_stored`, with the buffer's name.
    pub fn read_stored(&mut self, token: &CnfsToken, room: &mut Vec<u8>) -> io::Result<Stored>
        ensures within { IfOk result (IsWithin room.new.items) }
        ensures path { self.new.path ≡ self.old.path }
    {
        let name = &token.buffer;
        let Some(file) = self.open.get_mut(name.bytes()) else {
            return Err(no_buffer(self.alloc, name));
        };
        match read_stored(file, token, room) {
            Ok(stored) => Ok(stored),
            Err(error) => Err(in_buffer(self.alloc, name, error)),
        }
    }

    pub fn is_open(&self, name: &BufferName) -> bool {
        self.open.contains_key(name.bytes())
    }

    pub fn close(&mut self, name: &BufferName)
        ensures { self.new.path ≡ self.old.path }
    {
        self.open.remove(name.bytes());
    }

    /// Opens a buffer, at the path that the configuration gives it now.
    ///
    /// # Errors
    /// The system's error; that there is no configuration, or that it has no such buffer.
    pub fn open<F: Files<File = File>>(&mut self, files: &F, name: &BufferName) -> io::Result<()>
        ensures known { OnOk result (IsSome self.old.path) }
        ensures path { self.new.path ≡ self.old.path }
    {
        self.read(files)?;
        let file = self.open_file(files, name)?;
        let key = Vec::from_slice(self.alloc, name.bytes())?;
        self.open.insert(key, file).map_err(AllocError::from)?;
        Ok(())
    }

    /// Syncs a buffer, at the path that the configuration gives it now. It does not stay open.
    ///
    /// # Errors
    /// Those of [`Buffers::open`].
    pub fn sync<F: Files<File = File>>(&mut self, files: &F, name: &BufferName) -> io::Result<()>
        ensures known { OnOk result (IsSome self.old.path) }
        ensures path { self.new.path ≡ self.old.path }
    {
        self.read(files)?;
        let file = self.open_file(files, name)?;
        match file.sync_data() {
            Ok(()) => Ok(()),
            Err(error) => Err(in_buffer(self.alloc, name, error)),
        }
    }

    fn open_file<F: Files<File = File>>(&self, files: &F, name: &BufferName) -> io::Result<File> {
        let Some(path) = self.paths.get(name.bytes()) else {
            return Err(no_buffer(self.alloc, name));
        };
        match open_buffer(files, path.as_str()) {
            Ok(file) => Ok(file),
            Err(error) => Err(in_buffer(self.alloc, name, error)),
        }
    }

    // Reads the configuration, unless it is the one that was read before.
    fn read<F: Files>(&mut self, files: &F) -> io::Result<()>
        ensures known { OnOk result (IsSome self.old.path) }
        ensures path { self.new.path ≡ self.old.path }
    {
        let Some(path) = &self.path else {
            return Err(no_configuration());
        };
        match read_changed(files, self.alloc, path.as_str(), self.seen) {
            Ok(Some((paths, state))) => {
                self.paths = paths;
                self.seen = Some(state);
                Ok(())
            }
            Ok(None) => Ok(()),
            Err(error) => Err(named(self.alloc, CONFIGURATION, error)),
        }
    }
}

// The paths that the configuration has, and its state; `None` if that is still the state which was seen.
fn read_changed<F: Files>(
    files: &F,
    alloc: Global,
    path: &str,
    seen: Option<FileState>,
) -> io::Result<Option<(BTreeMap<Vec<u8>, String>, FileState)>> {
    let state = state_of(files, path)?;
    if seen == Some(state) {
        return Ok(None);
    }
    let mut text = Vec::new(alloc);
    read_whole(files, path, &mut text)?;
    Ok(Some((paths_in(alloc, text.as_slice())?, state)))
}

// The paths that the lines of a configuration give to buffers. A line that ends with a backslash goes on in the next.
fn paths_in(alloc: Global, text: &[u8]) -> Result<BTreeMap<Vec<u8>, String>, AllocError> {
    let mut paths = BTreeMap::new(alloc);
    let mut whole = Vec::new(alloc);
    let mut left = text;
    while let Some((line, behind)) = first_line(left) {
        add_part(alloc, &mut paths, &mut whole, line)?;
        left = behind;
    }
    Ok(paths)
}

// Takes in one line, behind those that it continues.
fn add_part(
    alloc: Global,
    paths: &mut BTreeMap<Vec<u8>, String>,
    whole: &mut Vec<u8>,
    line: &[u8],
) -> Result<(), AllocError> {
    match line {
        [begun @ .., b'\\'] => whole.extend_from_slice(begun),
        _ => {
            whole.extend_from_slice(line)?;
            add_line(alloc, paths, whole.as_slice())?;
            whole.clear();
            Ok(())
        }
    }
}

// A line that is refused, or names no buffer, is passed over.
fn add_line(
    alloc: Global,
    paths: &mut BTreeMap<Vec<u8>, String>,
    line: &[u8],
) -> Result<(), AllocError> {
    match read_cycbuff_line(line) {
        Ok(Some(found)) => add(alloc, paths, &found),
        _ => Ok(()),
    }
}

// A path that is not UTF-8 is passed over.
fn add(
    alloc: Global,
    paths: &mut BTreeMap<Vec<u8>, String>,
    line: &CycbuffLine<'_>,
) -> Result<(), AllocError> {
    if let Ok(path) = str::from_utf8(line.path) {
        let name = Vec::from_slice(alloc, line.name.bytes())?;
        paths.insert(name, String::from_str(alloc, path)?)?;
    }
    Ok(())
}
