// The backlog files of a directory.
use crate::fault::BacklogFault;
use crate::import::{close, take_in};
use crate::import_report::ImportReport;
use crate::same_file::FileId;
use crate::taken_in::TakenIn;
use disk_model::{Disk, TapeDirectory};
use flusher::PostPeer;
use funnel::PeerName;
use funnel_files::LineFile;
use std::alloc::AllocError;
use std::fs::{self, File, Metadata};
use std::io::{self, ErrorKind};
use std::rt::Files;
use std::str;

/// The backlog files of a directory, each with the bare name of its peer.
#[derive(Drop)]
pub struct BacklogFiles<'a, F> {
    files: &'a F,
    // The directory, which is locked, and its path.
    tapes: &'a TapeDirectory,
    directory: &'a str,
    // Files that serve another purpose.
    others: Vec<FileId>,
}

/// A backlog file that was taken in.
#[derive(Debug, Drop)]
pub struct Imported {
    pub path: String,
    /// What became of its lines.
    pub report: ImportReport,
    /// Whether it was left in place because there is another or a longer file by now: the next import takes that one
    /// in.
    pub is_left: bool,
}

impl<'a, F: AllocGlobal + Files<File = File>> BacklogFiles<'a, F> {
    /// The backlog files of the directory at this path, which is locked.
    pub fn new(files: &'a F, tapes: &'a TapeDirectory, directory: &'a str) -> Self {
        BacklogFiles {
            files,
            tapes,
            directory,
            others: Vec::new(files.alloc()),
        }
    }

    /// Marks the file at this path, if there is one, as one that serves another purpose and is never taken in.
    ///
    /// # Errors
    /// Memory was refused.
    pub fn spare(&mut self, path: &str) -> Result<(), AllocError> {
        if let Ok(there) = fs::metadata(self.files, path) {
            self.others.push(FileId::of(&there))?;
        }
        Ok(())
    }

    /// Takes in the file with the name of this peer, and removes it once all its lines are acknowledged; `None` if
    /// there is none. An import that was cut off is ended: by the same file, or without it, so that a file that is
    /// put there later is not taken for the rest of it.
    ///
    /// # Errors
    /// `Unread` if it is not a regular file, or serves another purpose: then it was not touched; or if it cannot be
    /// opened, or read to its end. `Station`: what the station refused. `Unremoved`: all was taken in, and would be
    /// taken in again.
    pub fn take_in<D: Disk>(
        &self,
        peer: &mut PostPeer<D>,
    ) -> Result<Option<Imported>, BacklogFault> {
        let path = self.path_of(&peer.name)?;
        match fs::symlink_metadata(self.files, path.as_str()) {
            Ok(found) => match self.take_found(peer, path, &found) {
                Ok(imported) => Ok(Some(imported)),
                Err(fault) => Err(fault),
            },
            Err(reason) if reason.kind() == ErrorKind::NotFound => {
                close_open(peer)?;
                Ok(None)
            }
            Err(reason) => Err(BacklogFault::Unread { path, reason }),
        }
    }

    /// Takes in the file of lines that were kept for this peer while its tape could not be opened, `NAME~kept`: renames
    /// it to the name of the peer, makes that durable, and takes that file in. `None` if there is none, or if there is
    /// a file with the name of the peer: the next start takes it in after that.
    ///
    /// # Errors
    /// As for [`BacklogFiles::take_in`]; `Unread` also if it cannot be renamed.
    pub fn take_kept<D: Disk>(
        &self,
        peer: &mut PostPeer<D>,
    ) -> Result<Option<Imported>, BacklogFault> {
        let path = self.path_of(&peer.name)?;
        let mut kept = String::from_str(self.files.alloc(), path.as_str())?;
        kept.push_str("~kept")?;
        match self.rename_kept(&kept, &path) {
            Ok(true) => self.take_in(peer),
            Ok(false) => Ok(None),
            Err(reason) => Err(BacklogFault::Unread { path: kept, reason }),
        }
    }

    // Renames the file of kept lines, if it is there and no file is at the other path. Returns whether it did.
    fn rename_kept(&self, kept: &str, path: &str) -> io::Result<bool> {
        let found = match fs::symlink_metadata(self.files, kept) {
            Ok(found) => found,
            Err(error) if error.kind() == ErrorKind::NotFound => return Ok(false),
            Err(error) => return Err(error),
        };
        match fs::symlink_metadata(self.files, path) {
            Err(error) if error.kind() == ErrorKind::NotFound => {}
            Err(error) => return Err(error),
            Ok(_) => return Ok(false),
        }
        self.check(&found)?;
        fs::rename(self.files, kept, path)?;
        self.tapes.sync()?;
        Ok(true)
    }

    fn take_found<D: Disk>(
        &self,
        peer: &mut PostPeer<D>,
        path: String,
        found: &Metadata,
    ) -> Result<Imported, BacklogFault> {
        let alloc = self.files.alloc();
        let file = match self.open(&path, found) {
            Ok(file) => file,
            Err(reason) => return Err(BacklogFault::Unread { path, reason }),
        };
        let lines = LineFile::new(alloc, file)?;
        let taken = match take_in(alloc, peer, lines) {
            Ok(taken) => taken,
            Err(fault) => return Err(BacklogFault::of_import(path, fault)),
        };
        match self.remove(&path, &taken) {
            Ok(is_gone) => Ok(Imported {
                path,
                report: taken.report(),
                is_left: !is_gone,
            }),
            Err(reason) => Err(BacklogFault::Unremoved { path, reason }),
        }
    }

    // Opens the file that was found at this path, if it is to be taken in. It is checked first, because opening a
    // FIFO might never return. Its content is made durable: otherwise, after a power cut in the middle of the import,
    // other lines might come under numbers that are noted.
    fn open(&self, path: &str, found: &Metadata) -> io::Result<File> {
        self.check(found)?;
        let file = File::open(self.files, path)?;
        if FileId::of(&file.metadata()?) != FileId::of(found) {
            return Err(no_backlog("it was replaced"));
        }
        file.sync_all()?;
        Ok(file)
    }

    // Refuses what must not be taken in.
    fn check(&self, found: &Metadata) -> io::Result<()> {
        if !found.is_file() {
            return Err(no_backlog("it is not a regular file"));
        }
        if self.others.contains(&FileId::of(found)) {
            return Err(no_backlog("it is the funnel, the configuration or the status file"));
        }
        Ok(())
    }

    // Removes the file that was taken in, and makes that durable, unless there is another file at this path by now, or
    // a longer one. Returns whether there is no file any more.
    fn remove(&self, path: &str, taken: &TakenIn<File>) -> io::Result<bool> {
        let (file, read) = taken.reader();
        let was = FileId::of(&file.metadata()?);
        match fs::symlink_metadata(self.files, path) {
            Ok(there) if FileId::of(&there) != was || there.len() != read => return Ok(false),
            Ok(_) => fs::remove_file(self.files, path)?,
            Err(error) if error.kind() == ErrorKind::NotFound => {}
            Err(error) => return Err(error),
        }
        self.tapes.sync()?;
        Ok(true)
    }

    fn path_of(&self, name: &PeerName) -> Result<String, AllocError> {
        // The name of a peer is text.
        let name = str::from_utf8(name.bytes()).unwrap_or("");
        let mut path = String::from_str(self.files.alloc(), self.directory)?;
        path.push('/')?;
        path.push_str(name)?;
        Ok(path)
    }
}

// The error of a file that must not be taken in.
fn no_backlog(why: &'static str) -> io::Error {
    io::Error::new(ErrorKind::InvalidInput, why)
}

// Closes the source that is open, if lines of it were taken in.
fn close_open<D: Disk>(peer: &mut PostPeer<D>) -> Result<(), BacklogFault> {
    if peer.station.import_mark() > 0 {
        close(peer)?;
    }
    Ok(())
}
