// The last lines of a run, as a writer.
ghost use Rattle.std.specs.Prelude.{◌≡◌, ◌<◌, ◌≤◌, ◌+◌, ◌==◌};
ghost use Rattle.std.specs.Prelude.{IfSome, MatchOption, length, position, take};

use crate::leveled_write::LeveledWrite;
use crate::run_log::RunLog;
use log::Level;
use std::io::{self, Write};
use std::rt::Clock;
use std::sync::Wait;

const LF: u8 = b'\n';

/// Standard error for what is written once a run has ended. It goes behind the lines of the run's log, or directly to
/// `direct` if there was no run. To know that it is written, call [`LastLines::end`].
///
/// Each line begins with the log's [`LineHead`](crate::LineHead). A line is written by one call, whole.
#[derive(Drop)]
pub struct LastLines<'a, R, E> {
    rt: &'a R,
    direct: E,
    log: &'a RunLog,
    // How many of the next lines report faults.
    faults: usize,
}

impl<'a, R: AllocGlobal + Wait + Clock, E: Write> LastLines<'a, R, E> {
    /// `rt` waits for room in the log, and reads the clock.
    pub fn new(rt: &'a R, direct: E, log: &'a RunLog) -> Self {
        LastLines {
            rt,
            direct,
            log,
            faults: usize::MAX,
        }
    }

    /// Waits until the log is written, at most for what is left of the second that the last lines have.
    pub fn end(&self) {
        if let Some(writer) = self.log.writer() {
            writer.end(self.rt);
        }
    }

    // The level of the next line.
    fn level(&self) -> Level {
        if self.faults == 0 {
            Level::Info
        } else {
            Level::Error
        }
    }

    // Writes a line behind those of the log, or directly if it has not begun.
    fn write_line(&mut self, line: &[u8]) -> io::Result<()> {
        let level = self.level();
        match self.log.writer() {
            Some(writer) => writer.write_last(self.rt, level, line),
            None => {
                // (without memory for a head, the line is better than nothing)
                match self
                    .log
                    .head()
                    .line_of(self.rt.alloc(), self.rt, level, line)
                {
                    Ok(line) => self.direct.write_all(&line)?,
                    Err(_) => self.direct.write_all(line)?,
                }
            }
        }
        self.faults = self.faults.saturating_sub(1);
        Ok(())
    }
}

impl<R: AllocGlobal + Wait + Clock, E: Write> Write for LastLines<'_, R, E> {
    fn write(&mut self, octets: &[u8]) -> io::Result<usize> {
        let line = first_line(octets);
        if !line.is_empty() {
            self.write_line(line)?;
        }
        Ok(line.len())
    }

    fn flush(&mut self) -> io::Result<()> {
        self.direct.flush()
    }
}

impl<R: AllocGlobal + Wait + Clock, E: Write> LeveledWrite for LastLines<'_, R, E> {
    fn expect_faults(&mut self, count: usize) {
        self.faults = count;
    }
}

// The octets up to the first LF, with it, or all of them.
fn first_line(octets: &[u8]) -> &[u8]
    ensures line { MatchOption (position (λ octet. octet == 10) octets.now)
        (result.now ≡ octets.now) (λ at. result.now ≡ take (at + 1) octets.now) }
    ensures within { length result.now ≤ length octets.now }
{
    match place_of_lf(octets) {
        Some(at) => &octets[..at + 1],
        None => octets,
    }
}

fn place_of_lf(octets: &[u8]) -> Option<usize>
    ensures place { result ≡ position (λ octet. octet == 10) octets.now }
    ensures within { IfSome result (λ at. at < length octets.now) }
{
    octets.iter().position(|octet| *octet == LF)
}
