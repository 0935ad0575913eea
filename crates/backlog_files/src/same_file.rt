// The identity of a file.
use std::fs::Metadata;
use std::os::unix::fs::MetadataExt;

/// A file, by its device and its number there: no two files that exist at the same time share both.
#[derive(Clone, Copy, PartialEq, Eq)]
pub(crate) struct FileId {
    device: u64,
    number: u64,
}

impl FileId {
    /// Takes the device and the inode number. A file keeps both when it is renamed.
    pub fn of(metadata: &Metadata) -> Self {
        FileId {
            device: metadata.dev(),
            number: metadata.ino(),
        }
    }
}
