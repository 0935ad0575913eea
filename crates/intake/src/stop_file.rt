// The file that asks a run that follows its funnel to end.
ghost use Rattle.std.specs.Prelude.{◌≡◌, IfOk, is_some};
ghost use Rattle.intake.specs.Sources.{is_followed};

use crate::run_error::RunError;
use feed_ends::Source;
use log::Log;
use std::fs::{self, File};
use std::io::ErrorKind;
use std::rt::{Clock, Files};
use std::time::Instant;

// Its name in the backlog directory, which neither a peer nor a tape can have.
const NAME: &str = "/~stop";

/// The file `~stop` in the backlog directory. Whoever makes it asks the run to end in good order.
#[derive(Drop)]
pub struct StopFile<'a, F> {
    files: &'a F,
    path: String,
    looked: Option<Instant>,
    has_come: bool,
}

impl<'a, F: AllocGlobal + Files<File = File>> StopFile<'a, F> {
    /// The one that may ask a feed from this source to end, in the backlog directory at this path: `None` if the source
    /// is no funnel that is followed. If it is there already, it was not meant for this run, and is removed.
    ///
    /// # Errors
    /// Memory was refused; it cannot be removed.
    pub fn for_source<R: Log>(
        rt: &R,
        files: &'a F,
        source: Source<'_>,
        directory: &str,
    ) -> Result<Option<Self>, RunError>
        ensures { IfOk result (λ stop. is_some stop ≡ is_followed source.entry) }
    {
        match source {
            Source::Funnel {
                is_followed: true,
                ..
            } => {
                let stop = StopFile::new(rt, files, directory)?;
                Ok(Some(stop))
            }
            Source::Backlogs | Source::Funnel { .. } => Ok(None),
        }
    }

    // The one in the directory at this path. If it is there already, it is removed.
    fn new<R: Log>(rt: &R, files: &'a F, directory: &str) -> Result<Self, RunError> {
        let path = format!(in files.alloc(); "{}{}", directory, NAME)?;
        let file = StopFile {
            files,
            path,
            looked: None,
            has_come: false,
        };
        file.remove(rt)?;
        Ok(file)
    }

    /// Whether it has come. It is looked for once a second.
    pub(crate) fn has_come<R: Clock>(&mut self, rt: &R) -> bool {
        let is_due = match self.looked {
            Some(looked) => match looked.elapsed(rt) {
                Ok(passed) => passed.as_secs() >= 1,
                Err(_) => false,
            },
            None => true,
        };
        if is_due {
            self.looked = Instant::now(rt).ok();
            self.has_come |= fs::exists(self.files, self.path.as_str()).unwrap_or(false);
        }
        self.has_come
    }

    /// Whether it had come when it was looked for last.
    pub fn was_seen(&self) -> bool
        ensures { result ≡ self.now.has_come }
    {
        self.has_come
    }

    /// Removes it, if it is there.
    ///
    /// # Errors
    /// Memory was refused; it cannot be removed.
    pub(crate) fn remove<R: Log>(&self, rt: &R) -> Result<(), RunError> {
        match fs::remove_file(self.files, self.path.as_str()) {
            Ok(()) => Ok(()),
            Err(error) if error.kind() == ErrorKind::NotFound => Ok(()),
            Err(error) => {
                let path = self.path.as_bytes();
                Err(RunError::unremoved(rt, self.files.alloc(), path, &error))
            }
        }
    }
}
