// The system's files.

use cli::ReadFile;
use std::alloc::Global;
use std::rt::Files;
use std::{fs, io};

/// The system's files. Relative paths start at the working directory.
#[derive(Drop)]
pub struct SystemFiles<'a, R> {
    /// What reads them.
    pub rt: &'a R,
}

impl<R: AllocGlobal + Files> ReadFile for SystemFiles<'_, R> {
    fn read_file(&self, _alloc: Global, path: &str) -> io::Result<Vec<u8>> {
        fs::read(self.rt, path)
    }
}
