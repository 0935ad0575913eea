// A tape's file as it was read.
ghost use Rattle.std.specs.Prelude.{[]};

use disk_model::{RawFault, RawFile};

/// The octets of a tape's file, in memory. What is written goes into memory, and not into the file.
#[derive(Drop)]
pub(crate) struct Snapshot {
    octets: Vec<u8>,
}

impl Snapshot {
    pub fn new(octets: Vec<u8>) -> Self {
        Snapshot { octets }
    }
}

/// It keeps no log of its events, so nothing is claimed of it except that each call returns.
impl RawFile for Snapshot {
    ghost honest = { λ _. ⊥ };

    ghost log = { λ _. [] };

    ghost content_is_image = { λ _ no. absurd no };

    fn len(&self) -> u64 {
        self.octets.len() as u64
    }

    fn pread(&mut self, at: u64, into: &mut [u8], done: usize) -> Result<usize, RawFault> {
        let from = at + done as u64;
        if from >= self.octets.len() as u64 {
            return Ok(0);
        }
        let left = &self.octets[from as usize..];
        let count = left.len().min(into.len() - done);
        into[done..done + count].copy_from_slice(&left[..count]);
        Ok(count)
    }

    fn pwrite(&mut self, at: u64, from: &[u8], done: usize) -> Result<usize, RawFault> {
        let start = at + done as u64;
        if start > self.octets.len() as u64 {
            return Err(RawFault::Failed);
        }
        let start = start as usize;
        let from = &from[done..];
        let (within, after) = from.split_at(from.len().min(self.octets.len() - start));
        if self.octets.extend_from_slice(after).is_err() {
            return Err(RawFault::Failed);
        }
        self.octets[start..start + within.len()].copy_from_slice(within);
        Ok(from.len())
    }

    fn truncate(&mut self, len: u64) -> Result<(), RawFault> {
        if len > self.octets.len() as u64 {
            return Err(RawFault::Failed);
        }
        self.octets.truncate(len as usize);
        Ok(())
    }

    fn sync(&mut self) -> Result<(), RawFault> {
        Ok(())
    }
}
