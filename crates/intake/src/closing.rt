// The end of a run: what still pends is flushed, the status file is written, what is owed is added up, and the post is
// closed.
use crate::live_files::LiveFiles;
use crate::run_error::RunError;
use crate::status_file::StatusFile;
use crate::stop_file::StopFile;
use disk_model::Disk;
use feed_ends::{FeedEnd, Owing, TapeError};
use flusher::{ArticleSync, FeederShare, Free, IntakeShare, Naming, Post, PostFault, Receipt};
use funnel::PeerName;
use log::{Log, warn};
use std::alloc::AllocError;
use std::fs::File;
use std::rt::{Clock, Files};
use std::str;
use std::sync::Wait;

/// What the workers of a run have counted, once all have ended.
#[derive(Drop)]
pub struct WorkerShares<N: Naming> {
    pub intake: IntakeShare<N>,
    /// The first feeder's share.
    pub first: FeederShare<N>,
    /// The second feeder's share.
    pub second: FeederShare<N>,
    pub flusher: FeederShare<N>,
}

/// Flushes what is still pending, writes the status file and the live files, adds what is still owed, and closes the
/// post with the shares of all workers. `is_reported` is whether it was reported before that the status file cannot be
/// written. After a fault of a tape only the other tapes are flushed, nothing is acknowledged, and the post is not
/// closed; what the tape's peer is owed is not known, and not reported. Further tapes that failed are logged. Without
/// `articles` nothing is acknowledged, either, and without `shares` the post is not closed.
pub fn close<
    D: Disk + Drop,
    N: Naming,
    A: ArticleSync,
    R: Wait + Clock + Log,
    F: AllocGlobal + Files<File = File>,
>(
    rt: &R,
    post: Post<D, N>,
    shares: Option<WorkerShares<N>>,
    names: &[PeerName],
    (status, is_reported): (StatusFile<'_, F>, bool),
    live: Option<LiveFiles<'_, F>>,
    articles: Option<&mut A>,
    end: &mut FeedEnd,
) {
    let (mut status, mut live) = (status, live);
    match flush(rt, &post, articles, end.tapes.is_empty()) {
        Ok(Some(receipt)) => set_acknowledged(&mut live, &receipt),
        Ok(None) => {}
        Err(fault) => RunError::post(*end.tapes.allocator(), names, fault).add_to(end),
    }
    if let Err(error) = status.write(rt, &post, names)
        && !is_reported
    {
        error.add_to(end);
    }
    if let Some(live) = &mut live {
        live.write(rt, &post, names, end);
    }
    add_owed(rt, &post, names, end);
    if let Some(shares) = shares
        && end.tapes.is_empty()
    {
        end_post(rt, post, shares, names, end);
    }
}

// The live files are to have what this receipt acknowledges.
fn set_acknowledged<F: AllocGlobal + Files<File = File>>(
    live: &mut Option<LiveFiles<'_, F>>,
    receipt: &Receipt,
) {
    if let Some(live) = live {
        live.set_acknowledged(receipt.number());
    }
}

// Adds what each peer is still owed. Logs each further tape that failed.
fn add_owed<D: Disk, N: Naming, R: Wait + Log>(
    rt: &R,
    post: &Post<D, N>,
    names: &[PeerName],
    end: &mut FeedEnd,
) {
    for (peer, name) in names.iter().enumerate() {
        if peer < post.peers() {
            let reported = post.reported(rt, peer);
            if reported.has_failed {
                log_further(rt, name, end);
            } else if add_owing(name, reported.totals.owed, end).is_err() {
                end.lacks_resources = true;
            }
        }
    }
}

// Closes the post, whose peers have these names. Adds to `end` if it cannot be closed.
fn end_post<D: Disk + Drop, N: Naming, R: Wait>(
    rt: &R,
    post: Post<D, N>,
    shares: WorkerShares<N>,
    names: &[PeerName],
    end: &mut FeedEnd,
) {
    let WorkerShares {
        intake,
        first,
        second,
        flusher,
    } = shares;
    if let Err(fault) = post.end(rt, intake, first, second, flusher) {
        RunError::post(*end.tapes.allocator(), names, fault).add_to(end);
    }
}

// Flushes all tapes if none has failed, and acknowledges lines once their articles are durable; otherwise, and without
// `articles`, flushes those that work.
fn flush<D: Disk, N: Naming, A: ArticleSync, R: Wait>(
    rt: &R,
    post: &Post<D, N>,
    articles: Option<&mut A>,
    are_well: bool,
) -> Result<Option<Receipt>, PostFault> {
    match articles {
        Some(articles) if are_well => post.flush_all(rt, &Free, articles),
        _ => {
            post.flush_working(rt, &Free)?;
            Ok(None)
        }
    }
}

// Logs that this peer's tape failed, unless that is reported as what ended the run.
fn log_further<R: Log>(rt: &R, name: &PeerName, end: &FeedEnd) {
    let is_reported = end.tapes.iter().any(|error| match error {
        TapeError::Failed { name: failed, .. } => failed.as_slice() == name.bytes(),
        TapeError::Taken(_) | TapeError::Foreign(_) => false,
    });
    if !is_reported {
        warn!(rt; "{}: its tape has failed, too", str::from_utf8(name.bytes()).unwrap_or(""));
    }
}

fn add_owing(name: &PeerName, owed: u64, end: &mut FeedEnd) -> Result<(), AllocError> {
    if owed > 0 {
        let name = Vec::from_slice(*end.owing.allocator(), name.bytes())?;
        end.owing.push(Owing { name, owed })?;
    }
    Ok(())
}

/// Removes the file that may have asked the run to end. Adds to `end` if it cannot be removed.
pub fn remove_stop<R: Log, F: AllocGlobal + Files<File = File>>(
    rt: &R,
    stop: Option<StopFile<'_, F>>,
    end: &mut FeedEnd,
) {
    if let Some(stop) = stop
        && let Err(error) = stop.remove(rt)
    {
        error.add_to(end);
    }
}
