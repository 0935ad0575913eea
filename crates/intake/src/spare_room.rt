// Room that a run keeps back, and what it does if there is none.
use disk_model::{SpareRoom, TapeDirectory};
use log::{Log, warn};
use std::alloc::AllocError;
use std::fs::File;
use std::io::{self, ErrorKind};
use std::rt::{Clock, Files};
use std::time::Instant;

// How often it is tried to make the room again.
const PERIOD_SECONDS: u64 = 60;

/// The room that a run keeps back in its backlog directory. As long as there is none, no line is to be taken.
#[derive(Drop)]
pub struct KeptRoom<'a, F> {
    files: &'a F,
    tapes: &'a TapeDirectory,
    directory: &'a str,
    room: SpareRoom,
    // Whether it was made once, and since when there is none.
    is_made: bool,
    lacking: Option<Instant>,
}

impl<'a, F: AllocGlobal + Files<File = File>> KeptRoom<'a, F> {
    /// The room in the directory at this path. If it cannot be made, that is logged, and it is tried again later.
    ///
    /// # Errors
    /// Memory was refused.
    pub fn new<R: Log>(
        rt: &R,
        files: &'a F,
        tapes: &'a TapeDirectory,
        directory: &'a str,
        now: Instant,
    ) -> Result<Self, AllocError> {
        let mut room = KeptRoom {
            files,
            tapes,
            directory,
            room: tapes.room()?,
            is_made: false,
            lacking: None,
        };
        room.make(rt, now);
        Ok(room)
    }

    /// Whether there is room. If there is none it is tried once a minute to make it again.
    pub(crate) fn is_there<R: Clock + Log>(&mut self, rt: &R) -> bool {
        if self.is_made && !self.room.is_given_up() {
            return true;
        }
        let Ok(now) = Instant::now(rt) else {
            return false;
        };
        match &self.lacking {
            None => self.lose(rt, now),
            Some(since) => {
                if let Ok(passed) = since.elapsed(rt)
                    && passed.as_secs() >= PERIOD_SECONDS
                {
                    self.make(rt, now);
                }
            }
        }
        self.lacking.is_none()
    }

    // Makes it.
    fn make<R: Log>(&mut self, rt: &R, now: Instant) {
        match self.tapes.keep_room(self.files) {
            Ok(()) => {
                if self.lacking.is_some() {
                    log_again(rt, self.directory);
                }
                self.is_made = true;
                self.lacking = None;
            }
            Err(error) => {
                if self.lacking.is_none() {
                    log_lack(rt, self.directory, &error);
                }
                self.lacking = Some(now);
            }
        }
    }

    // A tape has needed it.
    fn lose<R: Log>(&mut self, rt: &R, now: Instant) {
        warn!(
            rt; "{}: the file system is full: no line is taken until there are 4 MiB of room again", self.directory
        );
        self.lacking = Some(now);
    }
}

// Logs that the room cannot be made in the directory at this path, and what is to be done.
fn log_lack<R: Log>(rt: &R, directory: &str, error: &io::Error) {
    let wanted = if error.kind() == ErrorKind::FileTooLarge {
        "a file may have 4 MiB: raise its limit (LimitFSIZE, ulimit -f)"
    } else {
        "there are 4 MiB of room"
    };
    warn!(rt; "{}/~room: {}: no line is taken until {}", directory, error, wanted);
}

// Logs that the room could be made again in the directory at this path.
fn log_again<R: Log>(rt: &R, directory: &str) {
    warn!(rt; "{}/~room: there is room again, so lines are taken again", directory);
}

/// Removes the room that a run has kept back in the directory at this path. A failure is logged and no more: the next
/// run makes the room anew.
pub fn remove_room<R: Log, F: Files<File = File>>(
    rt: &R,
    files: &F,
    tapes: &TapeDirectory,
    directory: &str,
) {
    if let Err(error) = tapes.remove_room(files) {
        warn!(rt; "cannot remove {}/~room: {}", directory, error);
    }
}
