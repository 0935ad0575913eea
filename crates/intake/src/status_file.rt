// The status file.
ghost use Rattle.std.specs.Prelude.{◌≡◌, false};

use crate::placed_file::place;
use crate::run_error::{RunError, log_reason};
use disk_model::Disk;
use flusher::{Naming, Post};
use funnel::PeerName;
use log::Log;
use status::{PeerStatus, report};
use std::alloc::{AllocError, Global};
use std::fs::File;
use std::io;
use std::rt::{Clock, Files};
use std::sync::Wait;
use std::time::Instant;

const PERIOD_SECONDS: u64 = 600;

/// The status file, which has what each peer was given and is owed.
#[derive(Drop)]
pub struct StatusFile<'a, F> {
    files: &'a F,
    path: Vec<u8>,
    written: Instant,
    // Whether it was logged why it cannot be written.
    is_told: bool,
}

impl<'a, F: AllocGlobal + Files<File = File>> StatusFile<'a, F> {
    /// The file at this path, which counts as written now.
    pub fn new(files: &'a F, path: Vec<u8>, now: Instant) -> Self
        ensures { (result.path ≡ path) × (result.written ≡ now) × (result.is_told ≡ false) }
    {
        StatusFile {
            files,
            path,
            written: now,
            is_told: false,
        }
    }

    /// For how many seconds it need not be written; 0 if it is due.
    pub(crate) fn wait<R: Clock>(&self, rt: &R) -> u64 {
        match self.written.elapsed(rt) {
            Ok(passed) => PERIOD_SECONDS.saturating_sub(passed.as_secs()),
            Err(_) => PERIOD_SECONDS,
        }
    }

    /// Writes the figures of the peers of these names, into a file beside it, which is renamed to it once it is whole.
    /// If there is something at its path that is no regular file, as a device or a FIFO, that is written to. A peer
    /// whose tape has failed has the figures of its last flush that succeeded.
    ///
    /// # Errors
    /// Memory was refused; it cannot be written, for a reason that is logged the first time.
    pub(crate) fn write<D: Disk, N: Naming, R: Wait + Clock + Log>(
        &mut self,
        rt: &R,
        post: &Post<D, N>,
        names: &[PeerName],
    ) -> Result<(), RunError> {
        let alloc = self.files.alloc();
        if let Ok(now) = Instant::now(rt) {
            self.written = now;
        }
        let text = text_of(alloc, rt, post, names)?;
        match place(self.files, &self.path, &text) {
            Ok(()) => Ok(()),
            Err(error) => {
                self.tell(rt, &error);
                Err(RunError::unwritten(alloc, &self.path, &error))
            }
        }
    }

    // Logs why it cannot be written, the first time.
    fn tell<R: Log>(&mut self, rt: &R, error: &io::Error) {
        if !self.is_told {
            self.is_told = true;
            log_reason(rt, &self.path, error);
        }
    }
}

fn text_of<D: Disk, N: Naming, R: Wait>(
    alloc: Global,
    rt: &R,
    post: &Post<D, N>,
    names: &[PeerName],
) -> Result<Vec<u8>, AllocError> {
    let mut peers = Vec::new(alloc);
    for (peer, name) in names.iter().enumerate() {
        if peer < post.peers() {
            peers.push(PeerStatus {
                name,
                totals: post.reported(rt, peer).totals,
            })?;
        }
    }
    let mut text = Vec::new(alloc);
    match report(&peers, &mut text) {
        Ok(()) => Ok(text),
        Err(_) => Err(AllocError),
    }
}
