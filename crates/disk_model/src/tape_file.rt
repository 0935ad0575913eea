// The files of tapes, which keep why the system refused a call.
ghost use Rattle.std.specs.Prelude.{[], ◌≤◌, length, IfOk};

use crate::raw_file::{RawFault, RawFile};
use crate::spare_room::{SpareRoom, is_full};
use std::alloc::{AllocError, Global};
use std::fs::File;
use std::io::{self, ErrorKind};
use std::os::unix::fs::FileExt;
use std::sync::{Arc, OnceLock};

/// Why the system refused a call of a tape's file.
#[derive(Debug, Drop)]
pub struct FileFault {
    /// The file's name in its directory.
    pub name: String,
    /// What the system reported.
    pub reason: String,
}

/// The first fault of the files of a directory, which share it.
#[derive(Drop)]
pub(crate) struct FirstFault {
    place: Arc<OnceLock<FileFault>>,
}

impl FirstFault {
    /// No fault yet.
    ///
    /// # Errors
    /// `AllocError` if memory was refused.
    pub fn new(alloc: Global) -> Result<Self, AllocError> {
        Ok(FirstFault {
            place: Arc::new(alloc, OnceLock::new())?,
        })
    }

    /// The same, for one more file.
    ///
    /// # Errors
    /// `AllocError` if memory was refused, or there are too many files.
    pub fn share(&self) -> Result<Self, AllocError> {
        Ok(FirstFault {
            place: Arc::try_clone(&self.place)?,
        })
    }

    /// The fault, if there was one.
    pub fn get(&self) -> Option<&FileFault> {
        self.place.get()
    }

    // Keeps a fault of the file of this name, if it is the first and there is memory for it.
    fn keep(&self, name: &String, error: &io::Error) {
        let alloc = *name.allocator();
        if let (Ok(name), Ok(reason)) = (String::from_str(alloc, name), error.to_string(alloc)) {
            let _ = self.place.try_set(FileFault { name, reason });
        }
    }
}

/// A file of a tape, as the system has it: each method is one system call, except that a write which finds the file
/// system full gives up the spare room of its directory, and is tried once more. The first fault of all files of its
/// directory is kept, for a log.
#[derive(Drop)]
pub struct TapeFile {
    file: File,
    name: String,
    first_fault: FirstFault,
    room: SpareRoom,
}

impl TapeFile {
    /// An open file of this name, by itself.
    ///
    /// # Errors
    /// `AllocError` if memory was refused.
    pub fn new(alloc: Global, file: File, name: &str) -> Result<Self, AllocError> {
        let (first_fault, room) = (FirstFault::new(alloc)?, SpareRoom::new(alloc)?);
        TapeFile::among(alloc, file, name, first_fault, room)
    }

    // An open file of this name, one of those that share the first fault and the room.
    pub(crate) fn among(
        alloc: Global,
        file: File,
        name: &str,
        first_fault: FirstFault,
        room: SpareRoom,
    ) -> Result<Self, AllocError> {
        Ok(TapeFile {
            file,
            name: String::from_str(alloc, name)?,
            first_fault,
            room,
        })
    }

    // Writes some of these octets at this offset. If the file system is full, gives up the room, and tries once more.
    fn write_some(&self, octets: &[u8], at: u64) -> io::Result<usize>
        ensures { IfOk result (λ count. count ≤ length octets.now) }
    {
        match self.file.write_at(octets, at) {
            Err(error) if is_full(&error) => {
                self.room.give_up();
                self.file.write_at(octets, at)
            }
            written => written,
        }
    }

    // Why a call was refused. Anything but an interruption is kept, if it is the first fault.
    fn refused(&self, error: io::Error) -> RawFault {
        if error.kind() != ErrorKind::Interrupted {
            self.first_fault.keep(&self.name, &error);
        }
        RawFault::from(error)
    }
}

/// That a file of the system is honest is a premise, which cannot be proved: read these bodies by eye.
impl RawFile for TapeFile {
    ghost honest = { λ _. ⊥ };

    ghost log = { λ _. [] };

    ghost content_is_image = { λ _ no. absurd no };

    // If the system does not report the length, it is the greatest: a read then fails at the file's end. A file that
    // was reported as empty would be cut.
    fn len(&self) -> u64 {
        self.file
            .metadata()
            .map_or(u64::MAX, |metadata| metadata.len())
    }

    fn pread(&mut self, at: u64, into: &mut [u8], done: usize) -> Result<usize, RawFault> {
        match self.file.read_at(&mut into[done..], at + done as u64) {
            Ok(count) => Ok(count),
            Err(error) => Err(self.refused(error)),
        }
    }

    fn pwrite(&mut self, at: u64, from: &[u8], done: usize) -> Result<usize, RawFault> {
        match self.write_some(&from[done..], at + done as u64) {
            Ok(count) => Ok(count),
            Err(error) => Err(self.refused(error)),
        }
    }

    fn truncate(&mut self, len: u64) -> Result<(), RawFault> {
        self.file.set_len(len).map_err(|error| self.refused(error))
    }

    fn sync(&mut self) -> Result<(), RawFault> {
        self.file.sync_data().map_err(|error| self.refused(error))
    }
}
