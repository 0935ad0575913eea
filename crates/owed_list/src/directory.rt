// The backlog directory: the names in it, and the tapes.
use crate::reading::{TapeOctets, TapePaths, read_files};
use crate::snapshot::Snapshot;
use crate::strangers::{FIRST_FILE, SECOND_FILE, strangers_of};
use crate::unread::UnreadTape;
use disk_model::FileDisk;
use feed_conf::PeerConf;
use recovery::{Tape, TapeFault};
use std::alloc::{AllocError, Global};
use std::collections::BTreeSet;
use std::fs::{self, DirEntry, File};
use std::io::{self, ErrorKind};
use std::rt::Files;
use std::str;

/// A tape as it was read.
pub(crate) type ReadTape = Tape<FileDisk<Snapshot>>;

/// The backlog directory at a path, of which nothing is written.
#[derive(Drop)]
pub(crate) struct Directory<'a, F> {
    pub alloc: Global,
    pub files: &'a F,
    pub path: &'a str,
}

impl<F: AllocGlobal + Files<File = File>> Directory<'_, F> {
    /// The names, in byte order, of peers that the settings do not have, and for which something is here.
    ///
    /// # Errors
    /// The directory cannot be read; memory was refused.
    pub fn strangers(&self, peers: &[PeerConf]) -> io::Result<BTreeSet<Vec<u8>>> {
        let names = strangers_of(self.alloc, &self.names()?, peers)?;
        Ok(names)
    }

    // The names of the files in it.
    fn names(&self) -> io::Result<Vec<Vec<u8>>> {
        let mut names = Vec::new(self.alloc);
        for entry in fs::read_dir(&self.files, self.path)? {
            add_name(self.alloc, &mut names, entry)?;
        }
        Ok(names)
    }

    /// The path of the file whose name is this one with this ending.
    ///
    /// # Errors
    /// Memory was refused.
    pub fn path_of(&self, name: &[u8], ending: &str) -> Result<String, AllocError> {
        // A name is text.
        let name = str::from_utf8(name).unwrap_or("");
        format!(in self.alloc; "{}/{}{}", self.path, name, ending)
    }

    /// Opens the tape of this name from what was read of its files.
    ///
    /// # Errors
    /// Why it could not be read.
    pub fn open_tape(&self, name: &[u8]) -> Result<ReadTape, UnreadTape> {
        let (a, b) = self.read_tape(name)?;
        match Tape::open(self.alloc, disk_of(a), disk_of(b)) {
            Ok(tape) => Ok(tape),
            Err(refused) => Err(UnreadTape::Fault(refused.fault)),
        }
    }

    // The octets of its files.
    fn read_tape(&self, name: &[u8]) -> Result<TapeOctets, UnreadTape> {
        match self.paths_of(name) {
            Ok(paths) => Ok(read_files(self.alloc, self.files, &paths)?),
            Err(_) => Err(UnreadTape::Fault(TapeFault::NoMemory)),
        }
    }

    fn paths_of(&self, name: &[u8]) -> Result<TapePaths, AllocError> {
        Ok(TapePaths {
            a: self.path_of(name, FIRST_FILE)?,
            b: self.path_of(name, SECOND_FILE)?,
        })
    }
}

// A disk with the octets of a tape's file.
fn disk_of(octets: Vec<u8>) -> FileDisk<Snapshot> {
    FileDisk::new(Snapshot::new(octets))
}

// Adds the name of this file. A name that is not text is nobody's.
fn add_name<F: Files>(
    alloc: Global,
    names: &mut Vec<Vec<u8>>,
    entry: io::Result<DirEntry<&F>>,
) -> io::Result<()> {
    match entry {
        Ok(entry) => {
            names.push(Vec::from_slice(alloc, entry.file_name().as_bytes())?)?;
            Ok(())
        }
        Err(error) if error.kind() == ErrorKind::InvalidFilename => Ok(()),
        Err(error) => Err(error),
    }
}
