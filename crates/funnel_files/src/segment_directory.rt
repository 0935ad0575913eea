// The directory of a funnel's segments.
ghost use Rattle.std.specs.Prelude.{ℕ, Contains};
ghost use Rattle.segments.specs.Firsts.{IsDone};

use crate::fault::FunnelFault;
use acknowledged_lines::Acknowledged;
use segments::{AddFault, Listing, Segments, name_of};
use std::alloc::{AllocError, Global};
use std::fs::{self, File};
use std::io::{self, ErrorKind};
use std::os::unix::fs::MetadataExt;
use std::rt::Files;
use std::str;

/// The directory of segments at a path. Names in it that are not 20 digits mean nothing.
#[derive(Drop)]
pub(crate) struct SegmentDirectory<'a, F> {
    // Files can be removed by it: nothing else in a funnel has one, and here `remove` alone does so.
    files: &'a F,
    path: String,
}

impl<'a, F: AllocGlobal + Files<File = File>> SegmentDirectory<'a, F> {
    /// The directory at this path.
    ///
    /// # Errors
    /// Memory was refused.
    pub fn new(files: &'a F, path: &str) -> Result<Self, AllocError> {
        Ok(SegmentDirectory {
            files,
            path: String::from_str(files.alloc(), path)?,
        })
    }

    pub fn alloc(&self) -> Global {
        self.files.alloc()
    }

    /// The segments in it.
    ///
    /// # Errors
    /// The system's error; `NoNumber`.
    pub fn list(&self) -> Result<Segments, FunnelFault> {
        let mut listing = Listing::new(self.files.alloc());
        for entry in fs::read_dir(&self.files, self.path.as_str())? {
            match entry {
                Ok(entry) => self.add(&mut listing, entry.file_name())?,
                // A name that is not valid UTF-8.
                Err(error) if error.kind() == ErrorKind::InvalidFilename => {}
                Err(error) => return Err(FunnelFault::Failed(error)),
            }
        }
        Ok(listing.into_segments())
    }

    // Adds the segment with this name, if it is the name of a segment.
    fn add(&self, listing: &mut Listing, name: &str) -> Result<(), FunnelFault> {
        match listing.add(name.as_bytes()) {
            Ok(_) => Ok(()),
            Err(AddFault::Name(_)) => Err(FunnelFault::NoNumber {
                name: String::from_str(self.files.alloc(), name)?,
            }),
            Err(AddFault::NoMemory) => Err(AllocError.into()),
        }
    }

    /// Opens a segment. It is checked first, because opening a FIFO might never return.
    ///
    /// # Errors
    /// `NoFile`; the system's error.
    pub fn open(&self, segment: u64) -> Result<File, FunnelFault> {
        let path = self.path_of(segment)?;
        let opened = match fs::metadata(self.files, path.as_str()) {
            Ok(there) if there.is_file() => File::open(self.files, path.as_str()),
            Ok(_) => return Err(FunnelFault::NoFile { segment }),
            Err(error) => Err(error),
        };
        opened.map_err(|reason| FunnelFault::Segment { segment, reason })
    }

    /// Whether something has the name of a segment. What cannot be looked at is there: to open it gives the reason.
    ///
    /// # Errors
    /// Memory was refused.
    pub fn has_name(&self, segment: u64) -> Result<bool, AllocError> {
        let there = fs::metadata(self.files, self.path_of(segment)?.as_str());
        Ok(match there {
            Ok(_) => true,
            Err(error) => error.kind() != ErrorKind::NotFound,
        })
    }

    /// Whether this file still has a segment's name.
    ///
    /// # Errors
    /// The system's error.
    pub fn has(&self, segment: u64, file: &File) -> io::Result<bool> {
        let there = fs::metadata(self.files, self.path_of(segment)?.as_str())?;
        let open = file.metadata()?;
        Ok(there.dev() == open.dev() && there.ino() == open.ino())
    }

    /// Makes the names in it durable.
    ///
    /// # Errors
    /// The system's error.
    pub fn sync(&self) -> Result<(), FunnelFault> {
        File::open(self.files, self.path.as_str())?.sync_all()?;
        Ok(())
    }

    /// Removes segments, of these, which are all that were found. The `requires` keeps one from being removed before
    /// all its lines are acknowledged.
    ///
    /// # Errors
    /// `Unremoved`, after which the others stay; memory was refused.
    pub fn remove(
        &self,
        segments: &Segments,
        done: &[u64],
        acknowledged: Acknowledged,
    ) -> Result<(), FunnelFault>
        requires { (first : ℕ) → Contains done.now first
            → IsDone segments.now acknowledged.number first }
    {
        for segment in done {
            self.remove_one(segments, *segment, acknowledged)?;
        }
        Ok(())
    }

    // Removes a segment, if it is there.
    fn remove_one(
        &self,
        segments: &Segments,
        segment: u64,
        acknowledged: Acknowledged,
    ) -> Result<(), FunnelFault>
        requires { IsDone segments.now acknowledged.number segment }
    {
        let _ = segments;
        let _ = acknowledged;
        let path = self.path_of(segment)?;
        match fs::remove_file(self.files, path.as_str()) {
            Err(reason) if reason.kind() != ErrorKind::NotFound => Err(FunnelFault::Unremoved {
                path,
                reason,
            }),
            _ => Ok(()),
        }
    }

    fn path_of(&self, segment: u64) -> Result<String, AllocError> {
        let name = name_of(segment);
        let name = str::from_utf8(&name).unwrap_or("");
        let mut path = String::from_str(self.files.alloc(), self.path.as_str())?;
        path.push('/')?;
        path.push_str(name)?;
        Ok(path)
    }
}
