// A funnel that is one file, a pipe or the like: its lines as they come.
ghost use Rattle.std.specs.Prelude.{◌≡◌, ◌-◌, ℕ};
ghost use Rattle.std.specs.declared.io.Error.{Error};
ghost use Rattle.funnel_files.specs.declared.fault.FunnelFault.TheVariants.{FewLines as Few, Failed};
ghost use Rattle.funnel_files.specs.declared.line_file.SkipFault.TheVariants.{Short, Failed as SkipFailed};

use crate::fault::{FewLines, FunnelFault};
use crate::line_file::{LineFile, SkipFault};
use crate::lines::Next;
use crate::watch::Watch;
use std::fs::File;
use std::io;
use std::net::Net;
use std::rt::{Clock, Files};
use std::time::{Duration, Instant};

// How long a funnel is waited for in all before it is silent.
const SILENCE_MAX_MS: u64 = 100;

/// The lines of a file, a pipe or the like.
#[derive(Drop)]
pub(crate) struct PlainFunnel {
    lines: LineFile<File>,
    // `None` if reading never has to wait.
    watch: Option<Watch>,
    // How long it has been waited for since it was silent.
    waited: Duration,
    is_followed: bool,
}

impl PlainFunnel {
    /// Opens the file at this path, after its first `lines` lines. If it is followed, more may be added at its end.
    /// The first piece of a plain file is read, so that a path that cannot be read is known at once; a file that may
    /// be silent is read here only if lines have to be skipped.
    ///
    /// # Errors
    /// `FewLines` if there are fewer lines; the system's error.
    pub fn open<F: AllocGlobal + Files<File = File>, C: Net>(
        files: &F,
        net: &C,
        path: &str,
        lines: u64,
        is_followed: bool,
    ) -> Result<Self, FunnelFault> {
        let alloc = files.alloc();
        let file = File::open(files, path)?;
        let watch = Watch::new(alloc, net, &file)?;
        let mut funnel = PlainFunnel {
            lines: LineFile::new(alloc, file)?,
            watch,
            waited: Duration::ZERO,
            is_followed,
        };
        if funnel.watch.is_none() || lines > 0 {
            if let Err(fault) = funnel.lines.skip(lines) {
                return Err(fault_of(fault, lines));
            }
        }
        Ok(funnel)
    }

    /// What comes next; the clock is read only if it has to be waited for.
    ///
    /// # Errors
    /// `Shortened` if a file that is followed has become shorter than what was read of it; the system's error.
    pub fn next<R: Clock>(&mut self, rt: &R) -> Result<Next, FunnelFault> {
        for _ in 0..u64::MAX {
            if let Some(line) = self.lines.next_read() {
                return Ok(Next::Line(line));
            }
            if !self.wait(rt)? {
                return Ok(Next::Silence);
            }
            if !self.lines.read_piece()? {
                return self.end();
            }
        }
        Ok(Next::End)
    }

    // Waits until it can be read. False if it cannot, and has been waited for a tenth of a second since the last time.
    fn wait<R: Clock>(&mut self, rt: &R) -> io::Result<bool> {
        let Some(watch) = &mut self.watch else {
            return Ok(true);
        };
        let left = Duration::from_millis(SILENCE_MAX_MS).saturating_sub(self.waited);
        let began = Instant::now(rt)?;
        let is_there = watch.wait(left)?;
        self.waited = if is_there {
            self.waited.saturating_add(began.elapsed(rt)?)
        } else {
            Duration::ZERO
        };
        Ok(is_there)
    }

    // What its end means: more can be added only to a plain file.
    fn end(&self) -> Result<Next, FunnelFault> {
        if !self.is_followed || self.watch.is_some() {
            return Ok(Next::End);
        }
        let (file, read) = self.lines.reader();
        if file.metadata()?.len() < read {
            return Err(FunnelFault::Shortened);
        }
        Ok(Next::Pause)
    }
}

// Why the lines up to this mark could not be passed over.
fn fault_of(fault: SkipFault, mark: u64) -> FunnelFault
    ensures few { (missing : ℕ) → fault ≡ Short missing
        → result ≡ Few (record { lines = mark - missing; mark = mark }) }
    ensures failed { (reason : Error) → fault ≡ SkipFailed reason → result ≡ Failed reason }
{
    match fault {
        SkipFault::Short { missing } => FunnelFault::FewLines(FewLines {
            lines: mark.saturating_sub(missing),
            mark,
        }),
        SkipFault::Failed(reason) => FunnelFault::Failed(reason),
    }
}
