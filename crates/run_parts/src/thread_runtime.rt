// The runtime of a run's threads.
use log::kv::Source;
use log::span::Spans;
use log::{Level, LevelFilter, Log, Metadata, Record};
use log_writer::{LineHead, LogWriter};
use std::alloc::Global;
use std::fmt::Display;
use std::io;
use std::marker::PhantomData;
use std::rt::Clock;
use std::sync::Wait;
use std::thread::Threads;
use std::time::Duration;

/// What a run uses of the system besides files, sockets and threads: a clock, and a log.
pub trait System {
    /// The time since some fixed point, which never goes back.
    ///
    /// # Errors
    /// The system's.
    fn time(&self) -> io::Result<Duration>;

    /// Writes a line of the log, whose record has this level, if possible. `rt` waits for whatever the log has to wait
    /// for.
    fn write_log<R: Wait + Clock, D: Display>(&self, rt: &R, level: Level, line: &D);
}

/// The system's clock, and standard error. A line waits for whoever reads standard error, and begins with nothing.
impl System for HostRuntime {
    fn time(&self) -> io::Result<Duration> {
        self.monotonic()
    }

    fn write_log<R: Wait + Clock, D: Display>(&self, _rt: &R, _level: Level, line: &D) {
        let _ = self.eprintln(line);
    }
}

/// The system's clock, and a log that a thread of its own writes to standard error. Without such a thread, because none
/// was or could be started, it is standard error itself, where lines begin with `head`.
#[derive(Drop)]
pub struct LoggedSystem {
    pub host: HostRuntime,
    pub head: LineHead,
    pub log: Option<LogWriter>,
}

impl System for LoggedSystem {
    fn time(&self) -> io::Result<Duration> {
        self.host.time()
    }

    fn write_log<R: Wait + Clock, D: Display>(&self, rt: &R, level: Level, line: &D) {
        match &self.log {
            Some(log) => log.write_line(rt, level, line),
            None => {
                let mut out = self.host.stderr();
                let _ = self
                    .head
                    .write_line(self.host.alloc(), &self.host, &mut out, level, line);
            }
        }
    }
}

/// The runtime of a run's threads: it has the capability of `R` to start threads and to wait, the system's memory, and
/// the clock and the log of `Y`. Each record of the log becomes a line.
#[derive(Drop)]
pub struct ThreadRuntime<R, Y> {
    host: HostRuntime,
    system: Y,
    level: LevelFilter,
    capability: PhantomData<R>,
}

impl<R, Y> ThreadRuntime<R, Y> {
    /// Logs everything if `verbose`, and otherwise only warnings.
    pub fn new(host: HostRuntime, system: Y, verbose: bool) -> Self {
        let level = if verbose {
            LevelFilter::Info
        } else {
            LevelFilter::Warn
        };
        ThreadRuntime {
            host,
            system,
            level,
            capability: PhantomData,
        }
    }
}

impl<R: Wait, Y> Wait for ThreadRuntime<R, Y> {}

impl<R: Threads, Y> Threads for ThreadRuntime<R, Y> {}

impl<R, Y> Alloc for ThreadRuntime<R, Y> {
    type A = Global;

    fn alloc(&self) -> Global {
        self.host.alloc()
    }
}

impl<R, Y: System> Clock for ThreadRuntime<R, Y> {
    fn monotonic(&self) -> io::Result<Duration> {
        self.system.time()
    }

    fn since_1970(&self) -> io::Result<Duration> {
        self.host.since_1970()
    }

    fn sleep(&self, duration: Duration) {
        self.host.sleep(duration)
    }
}

impl<R: Wait, Y: System> Log for ThreadRuntime<R, Y> {
    fn enabled(&self, metadata: &Metadata<'_>) -> bool {
        self.level.allows(metadata.level())
    }

    fn log<D: Display, K: Source, S: Spans>(&self, record: &Record<'_, D, K, S>) {
        if self.level.allows(record.level()) {
            self.system.write_log(self, record.level(), record.args());
        }
    }

    fn flush(&self) {}

    fn target(&self) -> &str {
        ""
    }
}
