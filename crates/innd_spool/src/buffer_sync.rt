// Buffers of CNFS are synced.
use crate::buffers::Buffers;
use innd_storage::BufferName;
use std::alloc::{AllocError, Global};
use std::fs::File;
use std::io;
use std::rt::Files;

/// Syncs buffers of CNFS, in which innd writes without a sync. No buffer stays open between two calls.
#[derive(Drop)]
pub struct BufferSync<F: Files<File = File> + Drop> {
    files: F,
    buffers: Buffers,
}

impl<F: Files<File = File> + Drop> BufferSync<F> {
    /// For the buffers that innd's `cycbuff.conf` at this path names. Only `sync` looks at files.
    ///
    /// # Errors
    /// `NoMemory` if memory was refused.
    pub fn new(files: F, alloc: Global, cycbuffs: &str) -> Result<Self, AllocError> {
        Ok(BufferSync {
            files,
            buffers: Buffers::new(alloc, Some(cycbuffs))?,
        })
    }

    /// Has the system write to the disk what the buffer's file or device has by now, by fdatasync(2): at the path that
    /// `cycbuff.conf` gives the buffer now. That is read again only if it has changed.
    ///
    /// # Errors
    /// The system's error, after `cycbuff.conf` or the buffer's name; that the configuration has no such buffer; that
    /// memory was refused.
    pub fn sync(&mut self, name: &BufferName) -> io::Result<()> {
        self.buffers.sync(&self.files, name)
    }
}
