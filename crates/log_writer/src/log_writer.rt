// The thread that writes a log, and what the other threads share with it.
use crate::line_head::LineHead;
use crate::log_queue::{LogQueue, Portion};
use crate::output::Output;
use log::Level;
use std::alloc::{AllocError, Global};
use std::fmt::Display;
use std::io::{self, ErrorKind, Write};
use std::marker::PhantomData;
use std::rt::Clock;
use std::sync::{Arc, Condvar, Mutex, MutexGuard, Wait};
use std::thread;
use std::thread::Threads;
use std::time::Duration;

// How long lines that do not fit wait for room, in all, until everything is written; and how long the last lines of a
// run may take.
const PATIENCE_MS: u64 = 1_000;

/// Writes the lines of a log by a thread of its own. Threads share it by reference or by copies of it
/// ([`LogWriter::try_clone`]); the lines of one thread keep their order.
///
/// No call joins the thread: an output that takes nothing does not hold up the end of the program.
#[derive(Drop)]
pub struct LogWriter {
    shared: Arc<Shared>,
}

// What the callers and the thread share.
#[derive(Drop)]
struct Shared {
    alloc: Global,
    // What each line begins with.
    head: LineHead,
    state: Mutex<State>,
    // A line was put or taken, all are written, or the end has begun.
    changed: Condvar,
}

#[derive(Drop)]
struct State {
    queue: LogQueue,
    // Whether the thread is writing what it took last.
    is_writing: bool,
    // Until when lines that do not fit wait for room, since one did not fit and not everything was written since.
    waits_until: Option<Duration>,
    // Whether the last lines of the run are being written.
    is_ending: bool,
    // Whether the thread ends once it has written everything.
    is_closed: bool,
}

// The capability of `R` to wait and the clock `C`, for a thread of its own.
#[derive(Drop)]
struct WriterRuntime<R, C> {
    clock: C,
    capability: PhantomData<R>,
}

impl<R: Wait, C> Wait for WriterRuntime<R, C> {}

impl<R, C: Clock> Clock for WriterRuntime<R, C> {
    fn monotonic(&self) -> io::Result<Duration> {
        self.clock.monotonic()
    }

    fn since_1970(&self) -> io::Result<Duration> {
        self.clock.since_1970()
    }

    fn sleep(&self, duration: Duration) {
        self.clock.sleep(duration)
    }
}

impl LogWriter {
    /// Starts the thread, which writes to `out`. Each line begins with `head`. The thread reads `clock` only if `out`
    /// has no room and does not wait, and for the time in the heads of its own lines.
    ///
    /// # Errors
    /// `OutOfMemory`, or the system's if no thread can be started.
    pub fn start<
        R: Threads + Wait + Send + 'static,
        C: Clock + Send + Drop + 'static,
        W: Write + Send + Drop + 'static,
    >(rt: &R, alloc: Global, clock: C, head: LineHead, out: W) -> Result<LogWriter, AllocError> {
        let state = State {
            queue: LogQueue::new(alloc)?,
            is_writing: false,
            waits_until: None,
            is_ending: false,
            is_closed: false,
        };
        let shared = Arc::new(
            alloc,
            Shared {
                alloc,
                head,
                state: Mutex::new(state),
                changed: Condvar::new(),
            },
        )?;
        let writer = LogWriter { shared };
        let theirs = writer.try_clone()?;
        let runtime = WriterRuntime::<R, C> {
            clock,
            capability: PhantomData,
        };
        let mut output = Output::new(alloc, head, out);
        match thread::spawn(rt, move || theirs.run(&runtime, &mut output)) {
            Ok(_) => Ok(writer),
            Err(_) => Err(AllocError),
        }
    }

    /// A copy, for another thread.
    ///
    /// # Errors
    /// There are too many copies.
    pub fn try_clone(&self) -> Result<LogWriter, AllocError> {
        Ok(LogWriter {
            shared: Arc::try_clone(&self.shared)?,
        })
    }

    /// Has a line of this level written, behind those that wait. If 1,024 wait, it waits for room, but no longer than a
    /// second after the first that did not fit since everything was last written: then it is counted as missing.
    pub fn write_line<R: Wait + Clock, D: Display>(&self, rt: &R, level: Level, line: &D) {
        let Shared { alloc, head, .. } = &*self.shared;
        self.shared.put(rt, head.line(*alloc, rt, level, line).ok());
    }

    /// Has a line of this level with its LF written, one of the last of the run. The first call, or [`LogWriter::end`],
    /// begins the end: from then on all lines have a second in all.
    pub fn write_last<R: Wait + Clock>(&self, rt: &R, level: Level, line: &[u8]) {
        self.shared.begin_end(rt);
        let Shared { alloc, head, .. } = &*self.shared;
        self.shared
            .put(rt, head.line_of(*alloc, rt, level, line).ok());
    }

    /// Waits until everything is written, at most for what is left of the last second. The thread then ends by itself;
    /// a line that is put later may never be written.
    pub fn end<R: Wait + Clock>(&self, rt: &R) {
        self.shared.begin_end(rt);
        self.shared.close(rt);
    }

    // Writes what is put, until it is closed.
    fn run<R: Wait + Clock, W: Write>(&self, rt: &R, out: &mut Output<W>) {
        for _ in rt.forever() {
            match self.shared.next(rt) {
                Some(portion) => out.write(rt, portion),
                None => return,
            }
        }
        unreachable!()
    }
}

impl Shared {
    // Puts a line, or counts one to which memory was refused, once there is room or nobody waits for it any more.
    fn put<R: Wait + Clock>(&self, rt: &R, line: Option<Vec<u8>>) {
        let mut state = self.with_room(rt);
        match line {
            Some(line) => state.queue.put(line),
            None => state.queue.lose(),
        }
        drop(state);
        self.changed.notify_all();
    }

    // The state once there is room for a line, or lines do not wait for it any more.
    fn with_room<'a, R: Wait + Clock>(&'a self, rt: &R) -> MutexGuard<'a, State> {
        let mut state = self.state.lock(rt);
        if !state.queue.is_full() {
            return state;
        }
        let left = state.time_left(rt);
        let (state, _) = self
            .changed
            .wait_timeout_while(rt, state, left, |state| state.queue.is_full());
        state
    }

    // What the thread writes next, which it waits for. What it took before is written. `None` once it is closed and
    // nothing is left.
    fn next<R: Wait>(&self, rt: &R) -> Option<Portion> {
        let mut state = self.state.lock(rt);
        state.is_writing = false;
        if state.queue.is_empty() {
            state.is_all_written();
            self.changed.notify_all();
        }
        let mut state = self.changed.wait_while(
            rt,
            state,
            |state| state.queue.is_empty() && !state.is_closed,
        );
        let portion = state.queue.take();
        state.is_writing = portion.is_some();
        drop(state);
        self.changed.notify_all();
        portion
    }

    fn begin_end<R: Wait + Clock>(&self, rt: &R) {
        let mut state = self.state.lock(rt);
        if !state.is_ending {
            state.is_ending = true;
            state.waits_until = None;
            let _ = state.time_left(rt);
        }
    }

    fn close<R: Wait + Clock>(&self, rt: &R) {
        let mut state = self.state.lock(rt);
        state.is_closed = true;
        let left = state.time_left(rt);
        self.changed.notify_all();
        let _ = self.changed.wait_timeout_while(rt, state, left, |state| {
            state.is_writing || !state.queue.is_empty()
        });
    }
}

impl State {
    // How long lines still wait for room: from the first call on for a second, and not at all if the clock can't be
    // read.
    fn time_left<R: Clock>(&mut self, rt: &R) -> Duration {
        let Ok(now) = rt.monotonic() else {
            return Duration::ZERO;
        };
        let until = *self
            .waits_until
            .get_or_insert(now.saturating_add(Duration::from_millis(PATIENCE_MS)));
        until.saturating_sub(now)
    }

    // All is written: the next line that does not fit waits anew, unless these are the last lines.
    fn is_all_written(&mut self) {
        if !self.is_ending {
            self.waits_until = None;
        }
    }
}
