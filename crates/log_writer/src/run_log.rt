// The log of a run, which begins when the run does.
use crate::line_head::LineHead;
use crate::log_writer::LogWriter;
use std::alloc::Global;
use std::cell::OnceCell;
use std::io::Write;
use std::rt::Clock;
use std::sync::Wait;
use std::thread::Threads;

/// The log of a run: what its lines begin with, and its writer, once the run has begun.
#[derive(Drop)]
pub struct RunLog {
    head: LineHead,
    writer: OnceCell<LogWriter>,
}

impl RunLog {
    /// A log that has not begun, whose lines begin with `head`.
    pub fn new(head: LineHead) -> RunLog {
        RunLog {
            head,
            writer: OnceCell::new(),
        }
    }

    /// Begins the log, which is written to `out` by a thread of its own. Nothing happens if it has begun, or if no
    /// thread can be started.
    pub fn begin<
        R: Threads + Wait + Send + 'static,
        C: Clock + Send + Drop + 'static,
        W: Write + Send + Drop + 'static,
    >(&self, rt: &R, alloc: Global, clock: C, out: W) {
        if self.writer.get().is_none() {
            if let Ok(writer) = LogWriter::start(rt, alloc, clock, self.head, out) {
                let _ = self.writer.set(writer);
            }
        }
    }

    /// What its lines begin with.
    pub fn head(&self) -> LineHead {
        self.head
    }

    /// The writer, if the log has begun.
    pub fn writer(&self) -> Option<&LogWriter> {
        match self.writer.get() {
            Some(writer) => Some(writer),
            None => None,
        }
    }
}
