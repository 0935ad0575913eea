// A whole run: its threads, and what goes before and after them.
ghost use Rattle.std.specs.Prelude.{◌≡◌, length};
ghost use Rattle.std.specs.List.{All};
ghost use Rattle.flusher.specs.Post.{IsFor, names_of};
ghost use Rattle.flusher.specs.Sealed.{IsFlushed};

use crate::ending::ended_workers;
use crate::feeders::{Feeders, feeders_of};
use connections::{ArticleSource, SpoolTally, Suspects};
use disk_model::{FileDisk, TapeFile};
use feed_conf::Conf;
use feed_ends::FeedEnd;
use flusher::{Blanks, Flusher, Free, IntakeShare, Naming, Post, PostPeer, Signals, run_threads};
use funnel::PeerName;
use intake::{
    Countdown, CountedWorker, IntakeWorker, LiveFiles, NamedBuffers, Nowhere, Progress, RunError,
    StatusFile, is_followed,
};
use log::Log;
use recovery::Tape;
use resolver::LookUp;
use run_parts::{
    Backlogs, OpenRun, OpenTapes, Prepared, Ready, Request, RunEnv, SpoolSync, Spools, Taking,
    close_run, keep_all, left_by, open_run, prepare_run,
};
use std::fs::File;
use std::io::Write;
use std::marker::Brand;
use std::net::{Net, TcpListener, TcpStream};
use std::rt::{Clock, Files};
use std::sync::Wait;
use std::thread::Threads;

/// Feeds the peers of these settings, as the request says. Adds to `end` what went wrong at work, and what is still
/// owed.
///
/// # Errors
/// The first thing that went wrong before the work.
pub(crate) fn feed<
    R: AllocGlobal + Threads + Wait + Clock + Log + Send + Sync + 'static,
    F: AllocGlobal + Files<File = File>,
    S: ArticleSource + Send + Drop,
    H: Spools<Store = S>,
    C: Net<Listener = TcpListener, Stream = TcpStream> + Copy + Drop + Send,
    L: LookUp + Copy + Send + Sync + Drop + 'static,
    W: Write,
>(
    env: &RunEnv<'_, R, F, H, C, L>,
    conf: Conf,
    request: Request<'_>,
    out: &mut W,
    end: &mut FeedEnd,
) -> Result<(), RunError> {
    // `run` holds the directory's lock until the end.
    let (run, opened) = open_run(env, conf, request)?;
    let fed = feed_open(env, &run, request, opened, out, end);
    run.end(env, is_followed(request.source), end);
    fed
}

// Feeds the peers whose tapes are open.
fn feed_open<
    R: AllocGlobal + Threads + Wait + Clock + Log + Send + Sync + 'static,
    F: AllocGlobal + Files<File = File>,
    S: ArticleSource + Send + Drop,
    H: Spools<Store = S>,
    C: Net<Listener = TcpListener, Stream = TcpStream> + Copy + Drop + Send,
    L: LookUp + Copy + Send + Sync + Drop + 'static,
    W: Write,
>(
    env: &RunEnv<'_, R, F, H, C, L>,
    run: &OpenRun,
    request: Request<'_>,
    opened: OpenTapes,
    out: &mut W,
    end: &mut FeedEnd,
) -> Result<(), RunError> {
    let Ready {
        prepared,
        stations,
        intake,
        blanks,
    } = prepare_run(env, run, request, opened)?;
    let backlogs = run.backlogs();
    work::<Brand, R, F, S, H, C, L, W>(env, backlogs, prepared, stations, intake, blanks, out, end)
}

// Makes the post of these stations, and runs its threads.
//
// The `requires` are those of `Post::new`. They tie the blanks, of which the token ledgers and the queues are made, to
// these peers:
//
// - `names`: the token ledgers and queues `N` are named after these blanks and these peers. `feed_open` picks such an
//   `N` (`proofs/run/feed_open`).
// - `blanks`: there is a queue for each peer, and each token ledger has one part for each of its holders. Whoever
//   counts in it holds one of its parts. Only the intake counts what is taken (`workers.parts ≡ 1`); two feeders and
//   the flusher count what is answered and what is dropped (3). On the other side each station counts, one for each
//   peer. So nobody else can count, and the workers' totals are those of the stations.
// - `flushed`: nothing pends at a station, and it works, so that it can be split.
fn work<
    N: Naming + Send + Sync,
    R: AllocGlobal + Threads + Wait + Clock + Log + Send + Sync + 'static,
    F: AllocGlobal + Files<File = File>,
    S: ArticleSource + Send + Drop,
    H,
    C: Net<Listener = TcpListener, Stream = TcpStream> + Copy + Drop + Send,
    L: LookUp + Copy + Send + Sync + Drop + 'static,
    W: Write,
>(
    env: &RunEnv<'_, R, F, H, C, L>,
    backlogs: Backlogs<'_>,
    prepared: Prepared<'_, S, F>,
    stations: Vec<PostPeer<FileDisk<TapeFile>>>,
    intake: Tape<FileDisk<TapeFile>>,
    blanks: Blanks,
    out: &mut W,
    end: &mut FeedEnd,
) -> Result<(), RunError>
    requires names { N.names ≡ names_of blanks stations.items }
    requires blanks { IsFor (length stations.items) blanks }
    requires flushed { All (λ p. IsFlushed p.station) stations.items }
{
    let (post, share, one, other, third) = Post::<FileDisk<TapeFile>, N>::new(
        env.files.alloc(),
        stations,
        intake,
        blanks,
    )?;
    let Prepared {
        names,
        feeding,
        tally,
        suspects,
        taking,
        live,
        synced,
    } = prepared;
    let feeders = feeders_of(env, feeding, (one, other))?;
    let named = NamedBuffers::new(env.files.alloc());
    let flusher = Flusher::with_articles(third, SpoolSync::new(synced, &named));
    run_workers(
        env, backlogs, post, &names, feeders, flusher, taking, live, share, &tally, &suspects, out,
        end,
    );
    Ok(())
}

// Runs the threads of this post until all have ended, and adds to `end` what went wrong and what is still owed. The
// intake has this share.
//
// The intake is made and the run closed here, and not in `run_parts`: a struct that another function makes may not hold
// references of several lifetimes of the signature.
fn run_workers<
    N: Naming + Send + Sync,
    R: AllocGlobal + Threads + Wait + Clock + Log + Send + Sync + 'static,
    F: AllocGlobal + Files<File = File>,
    S: ArticleSource + Send + Drop,
    H,
    C: Net<Listener = TcpListener, Stream = TcpStream> + Copy + Drop + Send,
    L,
    W: Write,
>(
    env: &RunEnv<'_, R, F, H, C, L>,
    backlogs: Backlogs<'_>,
    post: Post<FileDisk<TapeFile>, N>,
    names: &[PeerName],
    feeders: Feeders<S, C, N>,
    flusher: Flusher<N, SpoolSync<'_>>,
    taking: Taking<'_, F>,
    live: Option<LiveFiles<'_, F>>,
    share: IntakeShare<N>,
    tally: &SpoolTally,
    suspects: &Suspects,
    out: &mut W,
    end: &mut FeedEnd,
) {
    // The resolver lives as long as the feeders run.
    let Feeders {
        resolver: _resolver,
        first,
        second,
    } = feeders;
    let countdown = Countdown::new(2);
    let buffers = flusher.articles.named();
    let alloc = env.files.alloc();
    let Taking {
        funnel,
        keeper,
        room,
        status,
        stop,
        start,
        acknowledged,
    } = taking;
    let mut intake = IntakeWorker {
        alloc,
        share,
        funnel,
        out,
        wakers: (first.waker, second.waker),
        names,
        status: StatusFile::new(env.files, status, start),
        live,
        progress: Progress::new(alloc, start, stop.is_some()),
        nowhere: Nowhere::new(alloc),
        keeper,
        files: env.files,
        tapes: backlogs.tapes,
        directory: backlogs.path,
        room,
        buffers,
        acknowledged,
        unprinted: None,
        printed: None,
        nowhere_logged: start,
        countdown: &countdown,
        stop,
        has_no_status: false,
        end: FeedEnd::well(alloc),
    };
    let feeders = (
        counted(first.feeder, &countdown),
        counted(second.feeder, &countdown),
    );
    let signals = Signals::new();
    let ended = run_threads(
        env.rt,
        &post,
        &signals,
        feeders,
        flusher,
        &mut intake,
        &Free,
    );
    keep_all(env.rt, env.files, backlogs.path, suspects);
    let (left, share, intake_end) = left_by(intake);
    let ended = ended_workers(names, ended, share, intake_end, end);
    tally.log(env.rt, names);
    close_run(env, post, names, ended, left, end);
}

// A worker that counts down there once it has ended.
fn counted<W>(worker: W, countdown: &Countdown) -> CountedWorker<'_, W> {
    CountedWorker { worker, countdown }
}
