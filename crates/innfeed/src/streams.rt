// The standard streams, none of which may be closed.
use std::fs::{File, OpenOptions};
use std::io;
use std::os::fd::AsRawFd;
use std::rt::Files;

// The greatest descriptor of a standard stream.
const LAST_DESCRIPTOR: i32 = 2;

/// The files in place of the standard streams that were closed when the program began. They are open as long as this
/// lives.
#[derive(Drop)]
pub struct StandIns {
    _files: Vec<File>,
}

/// Opens `/dev/null`, for reading and writing, in place of each standard stream that is closed. The system gives the
/// least free descriptor to whatever is opened next: without this a tape would get a stream's descriptor, and what is
/// printed would be written into the tape.
///
/// # Errors
/// The system's, if `/dev/null` cannot be opened; memory was refused.
pub fn stand_in<F: AllocGlobal + Files<File = File>>(files: &F) -> io::Result<StandIns> {
    let mut held = Vec::new(files.alloc());
    for _ in 0..=LAST_DESCRIPTOR {
        let null = OpenOptions::new()
            .read(true)
            .write(true)
            .open(files, "/dev/null")?;
        if null.as_raw_fd() > LAST_DESCRIPTOR {
            break;
        }
        held.push(null)?;
    }
    Ok(StandIns { _files: held })
}
