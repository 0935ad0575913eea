// What the thread writes to: each line whole, and in the place of those that are missing how many they are.
use crate::line_head::LineHead;
use crate::log_queue::Portion;
use log::Level;
use std::alloc::{AllocError, Global};
use std::io::{ErrorKind, Write};
use std::rt::Clock;
use std::sync::Wait;
use std::time::Duration;

// How long to wait after the output had no room and would not wait itself, as a pipe that others have made so.
const RETRY_WAIT_MS: u64 = 100;

// The output, and how many lines that went before could not be written to it.
#[derive(Drop)]
pub(crate) struct Output<W> {
    alloc: Global,
    // What the lines that it tells itself begin with.
    head: LineHead,
    writer: W,
    missing: u64,
    // Whether the line that was last written ends before its end.
    is_torn: bool,
}

impl<W: Write> Output<W> {
    pub fn new(alloc: Global, head: LineHead, writer: W) -> Self {
        Output {
            alloc,
            head,
            writer,
            missing: 0,
            is_torn: false,
        }
    }

    // Writes a portion. A line that cannot be written is counted as missing; the next portion tells so.
    pub fn write<R: Wait + Clock>(&mut self, rt: &R, portion: Portion) {
        let Portion { missing, line } = portion;
        self.missing = self.missing.saturating_add(missing);
        let has_told = self.has_told_missing(rt);
        if let Some(line) = line {
            if !has_told || !self.has_written(rt, &line) {
                self.missing = self.missing.saturating_add(1);
            }
        }
    }

    // Tells how many lines are missing here, if any is. Returns whether none is left to be told.
    fn has_told_missing<R: Wait + Clock>(&mut self, rt: &R) -> bool {
        if self.missing == 0 {
            return true;
        }
        let Ok(text) = self.missing_text(rt) else {
            return false;
        };
        if self.has_written(rt, &text) {
            self.missing = 0;
            self.is_torn = false;
            return true;
        }
        false
    }

    // Writes all of these octets, and returns whether that was possible.
    fn has_written<R: Wait + Clock>(&mut self, rt: &R, octets: &[u8]) -> bool {
        let mut rest = octets;
        for _ in rt.forever() {
            if rest.is_empty() {
                return true;
            }
            match self.writer.write(rest) {
                Ok(count) if 0 < count && count <= rest.len() => rest = &rest[count..],
                Err(error) if error.kind() == ErrorKind::Interrupted => {}
                Err(error) if error.kind() == ErrorKind::WouldBlock => rt.sleep(
                    Duration::from_millis(RETRY_WAIT_MS),
                ),
                _ => {
                    self.is_torn |= rest.len() < octets.len();
                    return false;
                }
            }
        }
        unreachable!()
    }

    // The line in the place of those that are missing. A torn line before it is ended first.
    fn missing_text<C: Clock>(&self, clock: &C) -> Result<Vec<u8>, AllocError> {
        let what = if self.missing == 1 {
            "line of the log is missing"
        } else {
            "lines of the log are missing"
        };
        let line = format!(in self.alloc;
            "{} {what} here: standard error was full or failed, or memory was refused\n",
            self.missing
        )?;
        let mut text = Vec::new(self.alloc);
        if self.is_torn {
            text.push(b'\n')?;
        }
        text.extend_from_slice(
            &self
                .head
                .line_of(self.alloc, clock, Level::Warn, line.as_bytes())?,
        )?;
        Ok(text)
    }
}
