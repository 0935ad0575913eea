// Articles in buffers of CNFS, made durable before their lines are acknowledged, if the settings ask for that.
ghost use Rattle.std.specs.Prelude.{◌≡◌, IfOk, IsErr, IsSome};

use feed_ends::{FeedEnd, FileError};
use flusher::{ArticleSync, SyncedLine, TakenLine, Unsynced};
use innd_spool::BufferSync;
use intake::{NamedBuffers, RunError, log_reason};
use log::Log;
use std::io::{self, ErrorKind};
use std::sync::Wait;

/// The buffers that are to be synced, by the list of them at this path; `None` if none is.
#[derive(Drop)]
pub struct SyncedBuffers {
    pub buffers: Option<BufferSync<HostRuntime>>,
    pub path: Vec<u8>,
}

/// Syncs the buffers that lines name.
#[derive(Drop)]
pub struct SpoolSync<'a> {
    synced: SyncedBuffers,
    named: &'a NamedBuffers,
    // Why a buffer could not be synced, and whether that was logged.
    fault: Option<io::Error>,
    is_told: bool,
}

impl<'a> SpoolSync<'a> {
    /// Syncs the ones of these buffers that are named there.
    pub fn new(synced: SyncedBuffers, named: &'a NamedBuffers) -> Self {
        SpoolSync {
            synced,
            named,
            fault: None,
            is_told: false,
        }
    }

    /// Where lines have to name their buffers, if any is to be synced.
    pub fn named(&self) -> Option<&'a NamedBuffers> {
        match &self.synced.buffers {
            Some(_) => Some(self.named),
            None => None,
        }
    }

    /// Adds to `end` that a buffer could not be synced, if that was so.
    pub fn report<R: Log>(self, rt: &R, end: &mut FeedEnd) {
        let mut articles = self;
        articles.tell(rt);
        let SpoolSync { synced, fault, .. } = articles;
        match fault {
            None => {}
            Some(error) if error.kind() == ErrorKind::OutOfMemory => {
                RunError::OutOfResources.add_to(end);
            }
            Some(_) => RunError::File(FileError::Unread(synced.path)).add_to(end),
        }
    }
}

impl ArticleSync for SpoolSync<'_> {
    fn sync<R: Wait>(&mut self, rt: &R, last: TakenLine) -> Result<SyncedLine, Unsynced>
        ensures number { IfOk result (λ synced. synced.number ≡ last.number) }
        ensures fails { IsErr result → IsSome self.new.fault }
        ensures stays { IsSome self.old.fault → IsErr result }
    {
        if self.fault.is_some() {
            return Err(Unsynced);
        }
        let Some(buffers) = &mut self.synced.buffers else {
            return Ok(SyncedLine::of(last));
        };
        for name in self.named.take(rt) {
            if let Err(error) = buffers.sync(&name) {
                self.fault = Some(error);
                return Err(Unsynced);
            }
        }
        Ok(SyncedLine::of(last))
    }

    fn tell<R: Log>(&mut self, rt: &R) {
        if let Some(error) = &self.fault
            && !self.is_told
        {
            log_reason(rt, &self.synced.path, error);
            self.is_told = true;
        }
    }
}
