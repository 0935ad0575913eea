// The directory that has tapes as files.
use crate::file::FileDisk;
use crate::spare_room::SpareRoom;
use crate::tape_file::{FileFault, FirstFault, TapeFile};
use std::alloc::{AllocError, Global};
use std::fs::{self, File, OpenOptions, TryLockError};
use std::io::{self, ErrorKind};
use std::os::fd::AsRawFd;
use std::rt::Files;
use thiserror::Error;

// The highest descriptor of a standard stream.
const LAST_STREAM: i32 = 2;

// The file of the spare room, whose name no tape can have.
const ROOM: &str = "~room";

/// Why a directory cannot be had.
#[derive(Debug, Drop, Error)]
pub enum DirectoryFault {
    /// Another process, or another open in this one, has it locked.
    #[error("another process works on it")]
    Taken,
    /// It could not be opened or locked.
    #[error("{0}")]
    Failed(io::Error),
}

/// A directory of tapes, locked for as long as this lives, so that no other process that locks it works on its files
/// (flock(2)).
#[derive(Drop)]
pub struct TapeDirectory {
    alloc: Global,
    path: String,
    file: File,
    first_fault: FirstFault,
    room: SpareRoom,
}

impl TapeDirectory {
    /// Opens the directory at this path and locks it, without waiting. Does not make a directory.
    ///
    /// # Errors
    /// `Taken` if it is already locked, else `Failed`: why it could not be opened or locked.
    pub fn lock<R: AllocGlobal + Files<File = File>>(
        rt: &R,
        path: &str,
    ) -> Result<Self, DirectoryFault> {
        let file = File::open(rt, path).map_err(DirectoryFault::Failed)?;
        match file.try_lock() {
            Ok(()) => {}
            Err(TryLockError::WouldBlock) => return Err(DirectoryFault::Taken),
            Err(TryLockError::Error(error)) => return Err(DirectoryFault::Failed(error)),
        }
        let alloc = rt.alloc();
        let path = String::from_str(alloc, path).map_err(|refused| DirectoryFault::Failed(
            refused.into(),
        ))?;
        let first_fault = FirstFault::new(alloc).map_err(|refused| DirectoryFault::Failed(
            refused.into(),
        ))?;
        let room = SpareRoom::new(alloc).map_err(|refused| DirectoryFault::Failed(refused.into()))?;
        Ok(TapeDirectory {
            alloc,
            path,
            file,
            first_fault,
            room,
        })
    }

    /// Opens the file of this name in it as a disk, and makes it if it is missing.
    ///
    /// What the system caches of it is made durable first and then dropped, so that reads return what the device has: a
    /// sync that failed in an earlier process may have left the two different (fsync(2), NOTES).
    ///
    /// # Errors
    /// The system's; `InvalidInput` if it is not a regular file; `EBADF` if its descriptor would be that of a standard
    /// stream, which was closed: what is printed would be written into the tape.
    pub fn open<R: Files<File = File>>(
        &self,
        rt: &R,
        name: &str,
    ) -> io::Result<FileDisk<TapeFile>> {
        let file = self.open_file(rt, name)?;
        file.sync_all()?;
        let advised = libc::posix_fadvise(file.as_raw_fd(), 0, 0, libc::POSIX_FADV_DONTNEED);
        if advised != 0 {
            return Err(io::Error::from_raw_os_error(advised));
        }
        let (first_fault, room) = (self.first_fault.share()?, self.room.share()?);
        let file = TapeFile::among(self.alloc, file, name, first_fault, room)?;
        Ok(FileDisk::new(file))
    }

    // Opens the regular file of this name in it, and makes it if it is missing.
    fn open_file<R: Files<File = File>>(&self, rt: &R, name: &str) -> io::Result<File> {
        let path = self.path_of(name)?;
        let file = OpenOptions::new()
            .read(true)
            .write(true)
            .create(true)
            .open(rt, path.as_str())?;
        if file.as_raw_fd() <= LAST_STREAM {
            return Err(io::Error::from_raw_os_error(libc::EBADF));
        }
        if !file.metadata()?.is_file() {
            return Err(ErrorKind::InvalidInput.into());
        }
        Ok(file)
    }

    fn path_of(&self, name: &str) -> Result<String, AllocError> {
        format!(in self.alloc; "{}/{}", self.path, name)
    }

    /// Keeps room back for its files: makes `~room` in it, of 4 MiB of octets that are written and synced. From then on
    /// a write of a file that was opened in it which finds the file system full, or what its owner may use of it, cuts
    /// `~room` to nothing, and is tried once more.
    ///
    /// # Errors
    /// The system's: nothing is kept back then. `InvalidInput` and `EBADF` as for [`TapeDirectory::open`].
    pub fn keep_room<R: Files<File = File>>(&self, rt: &R) -> io::Result<()> {
        let file = self.open_file(rt, ROOM)?;
        file.set_len(0)?;
        self.room.keep_in(self.alloc, file)
    }

    /// The room that is kept back for its files.
    ///
    /// # Errors
    /// `AllocError` if memory was refused, or too many share it.
    pub fn room(&self) -> Result<SpareRoom, AllocError> {
        self.room.share()
    }

    /// Removes `~room`, if it is there.
    ///
    /// # Errors
    /// The system's.
    pub fn remove_room<R: Files<File = File>>(&self, rt: &R) -> io::Result<()> {
        match fs::remove_file(rt, self.path_of(ROOM)?.as_str()) {
            Err(error) if error.kind() == ErrorKind::NotFound => Ok(()),
            removed => removed,
        }
    }

    /// The first fault of the files that were opened in it, if any met one since: for a log.
    pub fn first_fault(&self) -> Option<&FileFault> {
        self.first_fault.get()
    }

    /// Makes the names of all files opened so far durable. It has to succeed before any of them is written.
    ///
    /// # Errors
    /// The system's.
    pub fn sync(&self) -> io::Result<()> {
        self.file.sync_all()
    }
}
