// What a line on standard error begins with: its level for the journal, and the time and the process.
ghost use Rattle.std.specs.Prelude.{◌≡◌, ◌⊎◌, ◌++◌, ℕ, IfOk, List, OnOk, codes, decimal};
ghost use Rattle.log_writer.specs.LineHead.{IsHead, IsStampIf, IsTimeText, mark_if, mark_text};

use jiff::Timestamp;
use jiff::tz::Offset;
use log::Level;
use std::alloc::{AllocError, Global};
use std::fmt::Display;
use std::io::{self, Write};
use std::rt::Clock;

// The greatest instant of the calendar, in seconds since 1970: 9999-12-30T22:00:00Z.
const MAX_SECONDS: u64 = 253_402_207_200;

/// What each line on standard error begins with.
#[derive(Clone, Copy, Debug, PartialEq, Eq)]
pub struct LineHead {
    /// Whether its level stands there first, `<3>` for an error, `<4>` for a warning, `<6>` for information, as
    /// sd-daemon(3) has it for the journal.
    pub has_level: bool,
    /// The number of the process, if the time and `innfeed[NUMBER]: ` stand there.
    pub process: Option<u32>,
}

impl LineHead {
    /// Nothing.
    pub const NONE: LineHead = LineHead {
        has_level: false,
        process: None,
    };

    /// Whether lines begin with nothing.
    pub fn is_none(&self) -> bool {
        !self.has_level && self.process.is_none()
    }

    /// What a line of this level begins with. The time is that of `clock` in UTC, or `-` if it can't be read.
    ///
    /// # Errors
    /// Memory was refused.
    pub fn text<C: Clock>(
        &self,
        alloc: Global,
        clock: &C,
        level: Level,
    ) -> Result<Vec<u8>, AllocError>
        ensures { IfOk result (λ head. IsHead self.now level head.items) }
    {
        let mut head = Vec::new(alloc);
        add_mark(&mut head, self.has_level, level)?;
        add_stamp(alloc, &mut head, clock, self.process)?;
        Ok(head)
    }

    /// Writes a line of this level to `out`, with its LF.
    ///
    /// # Errors
    /// The line was not written whole; `OutOfMemory`.
    pub fn write_line<C: Clock, W: Write, D: Display>(
        &self,
        alloc: Global,
        clock: &C,
        out: &mut W,
        level: Level,
        line: &D,
    ) -> io::Result<()> {
        out.write_all(&self.line(alloc, clock, level, line)?)
    }

    // A line of this level, with its LF.
    pub(crate) fn line<C: Clock, D: Display>(
        &self,
        alloc: Global,
        clock: &C,
        level: Level,
        line: &D,
    ) -> Result<Vec<u8>, AllocError> {
        let text = format!(in alloc; "{line}\n")?;
        if self.is_none() {
            return Ok(text.into_bytes());
        }
        self.line_of(alloc, clock, level, text.as_bytes())
    }

    // A line of this level that has these octets.
    pub(crate) fn line_of<C: Clock>(
        &self,
        alloc: Global,
        clock: &C,
        level: Level,
        octets: &[u8],
    ) -> Result<Vec<u8>, AllocError>
        ensures { IfOk result (λ line. (head : List ℕ) × IsHead self.now level head
            × (line.items ≡ head ++ octets.now)) }
    {
        let mut line = self.text(alloc, clock, level)?;
        line.extend_from_slice(octets)?;
        Ok(line)
    }
}

// The level of a line for the journal (sd-daemon(3)).
fn mark_of(level: Level) -> &'static [u8]
    ensures { result.now ≡ mark_text level }
{
    match level {
        Level::Error => b"<3>",
        Level::Warn => b"<4>",
        Level::Info => b"<6>",
        Level::Debug | Level::Trace => b"<7>",
    }
}

// The level, if lines have one.
fn add_mark(head: &mut Vec<u8>, has_level: bool, level: Level) -> Result<(), AllocError>
    ensures { OnOk result (head.new.items ≡ head.old.items ++ mark_if has_level level) }
{
    if has_level {
        head.extend_from_slice(mark_of(level))?;
    }
    Ok(())
}

// `TIME innfeed[NUMBER]: `, if lines have it.
fn add_stamp<C: Clock>(
    alloc: Global,
    head: &mut Vec<u8>,
    clock: &C,
    process: Option<u32>,
) -> Result<(), AllocError>
    ensures { OnOk result ((stamp : List ℕ) × IsStampIf process stamp
        × (head.new.items ≡ head.old.items ++ stamp)) }
{
    match process {
        Some(process) => {
            let time = time_text(alloc, clock)?;
            add_process(head, &time, process)
        }
        None => Ok(()),
    }
}

fn add_process(head: &mut Vec<u8>, time: &[u8], process: u32) -> Result<(), AllocError>
    ensures { OnOk result (head.new.items
        ≡ head.old.items ++ (time.now ++ (codes " innfeed[" ++ (decimal process ++ codes "]: ")))) }
{
    head.extend_from_slice(time)?;
    head.extend_from_slice(b" innfeed[")?;
    head.extend_from_slice(itoa::Buffer::new().format(process).as_bytes())?;
    head.extend_from_slice(b"]: ")
}

// The time of the clock, or `-` if it can't be read.
fn time_text<C: Clock>(alloc: Global, clock: &C) -> Result<Vec<u8>, AllocError>
    ensures { IfOk result (λ time. (time.items ≡ codes "-")
        ⊎ ((seconds : ℕ) × IsTimeText seconds time.items)) }
{
    match clock.since_1970() {
        Ok(time) => date_text(alloc, time.as_secs()),
        Err(_) => Vec::from_slice(alloc, b"-"),
    }
}

// The date and the time so many seconds after 1970 began, in UTC.
fn date_text(alloc: Global, seconds: u64) -> Result<Vec<u8>, AllocError>
    ensures { IfOk result (λ text. IsTimeText seconds text.items) }
{
    if MAX_SECONDS < seconds {
        return Vec::from_slice(alloc, b"-");
    }
    match Timestamp::from_second(seconds as i64) {
        Ok(moment) => {
            let shown = Offset::UTC.to_datetime(moment);
            Ok(format!(in alloc; "{shown}Z")?.into_bytes())
        }
        Err(_) => Vec::from_slice(alloc, b"-"),
    }
}
