// The files in which an administrator sees each peer while a run goes on.
ghost use Rattle.std.specs.Prelude.{◌≡◌};

use crate::placed_file::place;
use crate::run_error::{RunError, log_reason};
use disk_model::Disk;
use feed_ends::FeedEnd;
use flusher::{Naming, Post};
use funnel::PeerName;
use log::Log;
use peer_counts::{CountTable, LivePeer, PeerFigures, PeerPhase};
use status::{LiveReport, LiveStatus, write_json, write_metrics};
use std::alloc::{AllocError, Global};
use std::fs::File;
use std::rt::{Clock, Files};
use std::sync::{Arc, Wait};
use std::time::{Instant, SystemTime, UNIX_EPOCH};

/// The files that have what each peer was given and has answered: a JSON object, and the same for Prometheus. Each is
/// written if it has a path.
#[derive(Drop)]
pub struct LiveFiles<'a, F> {
    files: &'a F,
    json: Option<LiveFile>,
    metrics: Option<LiveFile>,
    // How often they are written, in seconds.
    period: u64,
    // What the feeders publish.
    counts: Arc<CountTable>,
    // The time 0 of the feeders.
    start: Instant,
    // When they were written last.
    written: Instant,
    // Up to which number lines were acknowledged then.
    acknowledged: u64,
    // When the run began, in seconds since 1970, once they were written: what a reader takes for a start stays.
    started: Option<u64>,
    // Since which second of the run each peer's tape is seen to have failed, if it has.
    failed: Vec<Option<u64>>,
}

// One of the files, and whether it was told that it cannot be written.
#[derive(Drop)]
struct LiveFile {
    path: Vec<u8>,
    is_told: bool,
}

impl<'a, F: AllocGlobal + Files<File = File>> LiveFiles<'a, F> {
    /// The files at these paths, for each that there is, to be written every `period` seconds from `start` on, which is
    /// the time 0 of the feeders that publish in `counts`.
    pub fn new(
        files: &'a F,
        json: Option<Vec<u8>>,
        metrics: Option<Vec<u8>>,
        period: u64,
        counts: Arc<CountTable>,
        start: Instant,
    ) -> Self
        ensures period { result.period ≡ period }
        ensures start { (result.start ≡ start) × (result.written ≡ start) }
    {
        LiveFiles {
            files,
            json: file_at(json),
            metrics: file_at(metrics),
            period,
            counts,
            start,
            written: start,
            acknowledged: 0,
            started: None,
            failed: Vec::new(files.alloc()),
        }
    }

    /// For how many seconds they need not be written; 0 if they are due.
    pub(crate) fn wait<R: Clock>(&self, rt: &R) -> u64 {
        match self.written.elapsed(rt) {
            Ok(passed) => self.period.saturating_sub(passed.as_secs()),
            Err(_) => self.period,
        }
    }

    /// Lines are acknowledged up to this number.
    pub(crate) fn set_acknowledged(&mut self, number: u64)
        ensures { self.new.acknowledged ≡ number }
    {
        self.acknowledged = number;
    }

    /// Writes both, with the figures of the peers of these names, each into a file beside it, which is renamed to it
    /// once it is whole. If one cannot be written, that is added to `end` and the reason is logged, the first time for
    /// each. If memory is refused, that is added to `end`.
    pub(crate) fn write<D: Disk, N: Naming, R: Wait + Clock + Log>(
        &mut self,
        rt: &R,
        post: &Post<D, N>,
        names: &[PeerName],
        end: &mut FeedEnd,
    ) {
        if let Ok(now) = Instant::now(rt) {
            self.written = now;
        }
        if self.try_write(rt, post, names, end).is_err() {
            RunError::OutOfResources.add_to(end);
        }
    }

    fn try_write<D: Disk, N: Naming, R: Wait + Clock + Log>(
        &mut self,
        rt: &R,
        post: &Post<D, N>,
        names: &[PeerName],
        end: &mut FeedEnd,
    ) -> Result<(), AllocError> {
        let (files, alloc) = (self.files, self.files.alloc());
        let live = self.read(alloc, rt, names.len())?;
        let uptime = self.uptime(rt);
        let peers = self.statuses(alloc, rt, post, names, &live, uptime)?;
        let report = self.report(rt, &peers, uptime);
        if let Some(json) = &mut self.json {
            json.write(rt, files, &json_of(alloc, &report)?, end);
        }
        if let Some(metrics) = &mut self.metrics {
            metrics.write(rt, files, &metrics_of(alloc, &report)?, end);
        }
        Ok(())
    }

    // What the feeders have published of each peer, by its index.
    fn read<R: Wait>(
        &self,
        alloc: Global,
        rt: &R,
        peers: usize,
    ) -> Result<Vec<LivePeer>, AllocError> {
        let mut live = Vec::new(alloc);
        for peer in 0..peers {
            if let Some(one) = self.counts.read(rt, peer)? {
                live.push(one)?;
            }
        }
        Ok(live)
    }

    // For how many seconds the run has gone on; 0 if the clock can't be read.
    fn uptime<R: Clock>(&self, rt: &R) -> u64 {
        match self.start.elapsed(rt) {
            Ok(passed) => passed.as_secs(),
            Err(_) => 0,
        }
    }

    // The figures of each peer, in this second of the run.
    fn statuses<'b, D: Disk, N: Naming, R: Wait>(
        &mut self,
        alloc: Global,
        rt: &R,
        post: &Post<D, N>,
        names: &'b [PeerName],
        live: &'b Vec<LivePeer>,
        uptime: u64,
    ) -> Result<Vec<LiveStatus<'b>>, AllocError> {
        let mut peers = Vec::new(alloc);
        for (peer, name) in names.iter().enumerate() {
            if peer < post.peers()
                && let Some(one) = live.get(peer)
            {
                let reported = post.reported(rt, peer);
                let failed = self.failed_since(peer, reported.has_failed, uptime)?;
                peers.push(LiveStatus {
                    name,
                    totals: reported.totals,
                    figures: with_tape(one.figures, failed),
                    reason: &one.reason,
                })?;
            }
        }
        Ok(peers)
    }

    // Since which second of the run the tape of this peer is seen to have failed, if it has by now.
    fn failed_since(
        &mut self,
        peer: usize,
        has_failed: bool,
        uptime: u64,
    ) -> Result<Option<u64>, AllocError> {
        if self.failed.len() <= peer {
            self.failed.resize(peer.saturating_add(1), None)?;
        }
        let Some(failed) = self.failed.get_mut(peer) else {
            return Ok(None);
        };
        *failed = match (has_failed, *failed) {
            (true, None) => Some(uptime),
            (true, since) => since,
            (false, _) => None,
        };
        Ok(*failed)
    }

    // What is reported, in this second of the run.
    fn report<'b, R: Clock>(
        &mut self,
        rt: &R,
        peers: &'b [LiveStatus<'b>],
        uptime: u64,
    ) -> LiveReport<'b> {
        let written = unix_seconds(rt);
        let started = match self.started {
            Some(started) => started,
            None => written.saturating_sub(uptime),
        };
        self.started = Some(started);
        LiveReport {
            written,
            started,
            uptime,
            acknowledged: self.acknowledged,
            peers,
        }
    }
}

impl LiveFile {
    // Writes this text into it. If that fails, it is added to `end` and the reason is logged, the first time.
    fn write<F: AllocGlobal + Files<File = File>, R: Log>(
        &mut self,
        rt: &R,
        files: &F,
        text: &[u8],
        end: &mut FeedEnd,
    ) {
        if let Err(error) = place(files, &self.path, text)
            && !self.is_told
        {
            self.is_told = true;
            log_reason(rt, &self.path, &error);
            RunError::unwritten(files.alloc(), &self.path, &error).add_to(end);
        }
    }
}

fn file_at(path: Option<Vec<u8>>) -> Option<LiveFile> {
    match path {
        Some(path) => Some(LiveFile {
            path,
            is_told: false,
        }),
        None => None,
    }
}

// The figures of a peer whose tape has failed since this second of the run, if it has. A feeder sees that only once it
// wants the tape.
fn with_tape(figures: PeerFigures, failed: Option<u64>) -> PeerFigures {
    match failed {
        Some(since) if figures.phase != PeerPhase::Failed => PeerFigures {
            phase: PeerPhase::Failed,
            since,
            ..figures
        },
        _ => figures,
    }
}

// The seconds since 1970; 0 if the clock can't be read.
fn unix_seconds<R: Clock>(rt: &R) -> u64 {
    match SystemTime::now(rt) {
        Ok(now) => match now.duration_since(UNIX_EPOCH) {
            Ok(passed) => passed.as_secs(),
            Err(_) => 0,
        },
        Err(_) => 0,
    }
}

fn json_of(alloc: Global, report: &LiveReport<'_>) -> Result<Vec<u8>, AllocError> {
    let mut text = Vec::new(alloc);
    match write_json(report, &mut text) {
        Ok(()) => Ok(text),
        Err(_) => Err(AllocError),
    }
}

fn metrics_of(alloc: Global, report: &LiveReport<'_>) -> Result<Vec<u8>, AllocError> {
    let mut text = Vec::new(alloc);
    match write_metrics(report, &mut text) {
        Ok(()) => Ok(text),
        Err(_) => Err(AllocError),
    }
}
