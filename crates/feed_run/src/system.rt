// Feeding peers for `cli`, with the system's files, sockets and threads.
use crate::run::feed;
use feed_conf::Conf;
use feed_ends::{FeedEnd, Feeds, Listing, Source};
use log::Log;
use log_writer::{LogWriter, RunLog};
use owed_list::list_owed;
use resolver::{LookUp, SystemLookUp};
use run_parts::{HostSpools, LoggedSystem, Request, RunEnv, ThreadRuntime, by_name};
use std::alloc::Global;
use std::fs::File;
use std::io::Write;
use std::marker::PhantomData;
use std::rt::{Clock, Files};
use std::sync::Wait;
use std::thread::Threads;

/// Feeds the peers of these settings, which were read from the file at `path`, as [`Feeds`] says. `rt` is the
/// runtime of the threads; articles and sockets are those of `host`; `version` is the program's, for the log.
pub fn feed_with<
    M: AllocGlobal + Threads + Wait + Clock + Log + Send + Sync + 'static,
    F: AllocGlobal + Files<File = File>,
    L: LookUp + Copy + Send + Sync + Drop + 'static,
    W: Write,
>(
    rt: &M,
    files: &F,
    host: HostRuntime,
    look_up: L,
    conf: Conf,
    path: &str,
    source: Source<'_>,
    drops_missing: bool,
    version: &str,
    out: &mut W,
) -> FeedEnd {
    let env = RunEnv {
        rt,
        files,
        spools: HostSpools { host },
        net: host,
        look_up,
        version,
    };
    let mut end = FeedEnd::well(files.alloc());
    let request = Request {
        path,
        source,
        drops_missing,
    };
    if let Err(error) = feed(&env, conf, request, out, &mut end) {
        error.log_unopened(rt);
        error.add_to(&mut end);
    }
    end
}

/// Feeds with the system's files, sockets, threads, clock and standard error; the capability of `R` starts the threads.
#[derive(Drop)]
pub struct SystemFeeds<'a, R, F> {
    files: &'a F,
    host: HostRuntime,
    log: &'a RunLog,
    version: &'a str,
    capability: PhantomData<R>,
}

impl<'a, R, F> SystemFeeds<'a, R, F> {
    /// `files` opens files in this thread, `host` articles and sockets in the others; `_threads` may start threads. A
    /// feed begins `log`, and writes to it, `version` too; a list of what is owed writes to standard error itself,
    /// where its lines begin as those of `log` do.
    pub fn new(
        _threads: &R,
        files: &'a F,
        host: HostRuntime,
        log: &'a RunLog,
        version: &'a str,
    ) -> Self {
        SystemFeeds {
            files,
            host,
            log,
            version,
            capability: PhantomData,
        }
    }
}

// The system of a feed. Its log has begun, if `starter` could start a thread.
fn logged_system<M: Threads + Wait + Send + 'static>(
    starter: &M,
    host: HostRuntime,
    log: &RunLog,
) -> LoggedSystem {
    log.begin(starter, host.alloc(), host, host.stderr());
    LoggedSystem {
        host,
        head: log.head(),
        log: log.writer().and_then(copied),
    }
}

// A copy of the writer, for the threads of a run.
fn copied(log: &LogWriter) -> Option<LogWriter> {
    log.try_clone().ok()
}

impl<R: Threads + Wait + Send + Sync + 'static, F: AllocGlobal + Files<File = File>> Feeds
    for SystemFeeds<'_, R, F> {
    fn feed<W: Write>(
        &mut self,
        _alloc: Global,
        conf: Conf,
        path: &str,
        source: Source<'_>,
        drops_missing: bool,
        verbose: bool,
        out: &mut W,
    ) -> FeedEnd {
        let starter = ThreadRuntime::<R, HostRuntime>::new(self.host, self.host, false);
        let system = logged_system(&starter, self.host, self.log);
        let rt = ThreadRuntime::<R, LoggedSystem>::new(self.host, system, verbose);
        let look_up = SystemLookUp(self.host);
        feed_with(
            &rt,
            self.files,
            self.host,
            look_up,
            conf,
            path,
            source,
            drops_missing,
            self.version,
            out,
        )
    }

    fn list_owed<W: Write>(
        &mut self,
        alloc: Global,
        conf: Conf,
        listing: &Listing<'_>,
        verbose: bool,
        out: &mut W,
    ) -> FeedEnd {
        let system = LoggedSystem {
            host: self.host,
            head: self.log.head(),
            log: None,
        };
        let rt = ThreadRuntime::<R, LoggedSystem>::new(self.host, system, verbose);
        match Vec::from_slice(alloc, conf.backlog_directory()) {
            Ok(directory) => list_owed(&rt, self.files, &directory, &by_name(conf), listing, out),
            Err(_) => {
                let mut end = FeedEnd::well(alloc);
                end.lacks_resources = true;
                end
            }
        }
    }
}
