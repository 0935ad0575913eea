// What the workers of a run leave, and its report.
use crate::env::RunEnv;
use crate::spool_sync::SpoolSync;
use crate::start_and_end::log_end;
use acknowledged_lines::Acknowledged;
use connections::UnreadPaths;
use disk_model::Disk;
use feed_ends::{FeedEnd, FileError};
use flusher::{IntakeShare, Naming, Post};
use funnel::PeerName;
use intake::{
    IntakeWorker, LiveFiles, RunError, StatusFile, StopFile, WorkerShares, close, remove_stop,
};
use log::Log;
use std::fs::File;
use std::rt::{Clock, Files};
use std::sync::Wait;

/// What is left of the intake at its end, besides its share and what went wrong.
#[derive(Drop)]
pub struct LeftIntake<'a, F> {
    /// The status file, and whether it was reported that it cannot be written.
    pub status: (StatusFile<'a, F>, bool),
    /// The files that show each peer while the run goes on.
    pub live: Option<LiveFiles<'a, F>>,
    pub stop: Option<StopFile<'a, F>>,
    pub acknowledged: Acknowledged,
}

/// What is left of the other workers: all shares, and what makes the articles durable.
#[derive(Drop)]
pub struct LeftWorkers<'a, N: Naming> {
    pub shares: WorkerShares<N>,
    pub articles: SpoolSync<'a>,
}

/// What the intake leaves, its share, and what went wrong.
pub fn left_by<'a, F, W, N: Naming>(
    intake: IntakeWorker<'a, F, W, N>,
) -> (LeftIntake<'a, F>, IntakeShare<N>, FeedEnd) {
    let IntakeWorker {
        share,
        status,
        live,
        acknowledged,
        stop,
        has_no_status,
        end,
        ..
    } = intake;
    let left = LeftIntake {
        status: (status, has_no_status),
        live,
        stop,
        acknowledged,
    };
    (left, share, end)
}

/// Ends a run whose workers have ended: what is still pending is flushed, and it is reported what went wrong and what
/// is still owed.
pub fn close_run<
    D: Disk + Drop,
    N: Naming,
    R: Wait + Clock + Log,
    F: AllocGlobal + Files<File = File>,
    H,
    C,
    L,
>(
    env: &RunEnv<'_, R, F, H, C, L>,
    post: Post<D, N>,
    names: &[PeerName],
    ended: Option<LeftWorkers<'_, N>>,
    left: LeftIntake<'_, F>,
    end: &mut FeedEnd,
) {
    let LeftIntake {
        status,
        live,
        stop,
        acknowledged,
    } = left;
    let (shares, mut articles) = match ended {
        Some(LeftWorkers { shares, articles }) => (Some(shares), Some(articles)),
        None => (None, None),
    };
    close(
        env.rt,
        post,
        shares,
        names,
        status,
        live,
        articles.as_mut(),
        end,
    );
    if let Some(articles) = articles {
        articles.report(env.rt, end);
    }
    let is_asked = stop.as_ref().is_some_and(|stop| stop.was_seen());
    if is_asked && end.tapes.is_empty() && !end.lacks_resources {
        log_end(env.rt, env.version, acknowledged.number());
    }
    remove_stop(env.rt, stop, end);
}

/// Adds the files that the feeders could not read, each once.
pub fn add_unread(first: UnreadPaths, second: UnreadPaths, end: &mut FeedEnd) {
    let first = first.into_paths();
    for path in second.into_paths() {
        if !first.contains(&path) {
            RunError::File(FileError::Unread(path)).add_to(end);
        }
    }
    for path in first {
        RunError::File(FileError::Unread(path)).add_to(end);
    }
}
