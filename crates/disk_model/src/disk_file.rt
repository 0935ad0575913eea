// A disk as a file.
use crate::Disk;
use crate::raw_file::{RawFault, RawFile};
use std::cmp;

/// A disk as a file. It is honest over an honest disk, so the rules of [`RawFile`] can be kept.
///
/// Each call does all that it was asked to or fails, except that a read ends at the end of the disk. So no write is
/// ever under way, and to continue one fails.
#[derive(Drop)]
pub struct DiskFile<D: Disk>(pub D);

/// Honest over an honest disk. Its log is the disk's.
impl<D: Disk> RawFile for DiskFile<D> {
    ghost honest = { λ file. D.honest file.0 };

    ghost log = { λ file. D.log file.0 };

    ghost content_is_image = { λ file is. D.content_is_image file.0 is };

    fn len(&self) -> u64 {
        self.0.len()
    }

    fn pread(&mut self, at: u64, into: &mut [u8], done: usize) -> Result<usize, RawFault> {
        let from = at + done as u64;
        let len = self.0.len();
        if len < from {
            return Ok(0);
        }
        let count = cmp::min(into.len() - done, (len - from) as usize);
        match self.0.read_at(from, &mut into[done..done + count]) {
            Ok(()) => Ok(count),
            Err(_) => Err(RawFault::Failed),
        }
    }

    fn pwrite(&mut self, at: u64, from: &[u8], done: usize) -> Result<usize, RawFault> {
        if 0 < done || self.0.len() < at {
            return Err(RawFault::Failed);
        }
        match self.0.write_at(at, from) {
            Ok(()) => Ok(from.len()),
            Err(_) => Err(RawFault::Failed),
        }
    }

    fn truncate(&mut self, len: u64) -> Result<(), RawFault> {
        if self.0.len() < len {
            return Err(RawFault::Failed);
        }
        match self.0.cut(len) {
            Ok(()) => Ok(()),
            Err(_) => Err(RawFault::Failed),
        }
    }

    fn sync(&mut self) -> Result<(), RawFault> {
        match self.0.sync() {
            Ok(()) => Ok(()),
            Err(_) => Err(RawFault::Failed),
        }
    }
}
