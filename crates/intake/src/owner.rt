// Whose the backlog directory is.
use crate::run_error::RunError;
use feed_ends::TapeError;
use std::fs::{self, File};
use std::os::unix::fs::MetadataExt;
use std::rt::Files;

// The number of the user root.
const ROOT: u32 = 0;

/// Refuses to work as root on a backlog directory, the one at this path, that is another user's: what root writes there
/// the owner could not open afterwards.
///
/// # Errors
/// [`TapeError::Foreign`] if the process runs as root and the directory is another user's. Memory was refused.
pub fn refuse_root<F: AllocGlobal + Files<File = File>>(
    files: &F,
    directory: &str,
) -> Result<(), RunError> {
    if libc::geteuid() != ROOT {
        return Ok(());
    }
    match fs::metadata(files, directory) {
        Ok(found) if found.uid() != ROOT => {
            let directory = String::from_str(files.alloc(), directory)?;
            Err(RunError::Tape(TapeError::Foreign(directory)))
        }
        _ => Ok(()),
    }
}
