// The intake: the worker that takes the funnel's lines, batch by batch.
ghost use Rattle.std.specs.Prelude.{◌≡◌, ◌≤◌, IfOk, length, true};
ghost use Rattle.intake.specs.Ordered.{lasts_of};

use crate::batch_wait::BatchWait;
use crate::countdown::Countdown;
use crate::keeping::LineKeeper;
use crate::live_files::LiveFiles;
use crate::look_pace::LookPace;
use crate::named_buffers::NamedBuffers;
use crate::nowhere::Nowhere;
use crate::ordered::OrderedBatches;
use crate::progress::Progress;
use crate::run_error::{RunError, is_lost_tape};
use crate::spare_room::KeptRoom;
use crate::status_file::StatusFile;
use crate::stop_file::StopFile;
use crate::unknown_lines::UNKNOWN;
use crate::unprinted::Unprinted;
use acknowledged_lines::Acknowledged;
use disk_model::{Disk, FileDisk, TapeDirectory, TapeFile};
use feed_ends::{FeedEnd, FileError};
use flusher::{IntakeShare, Naming, Pace, Post, PostFault, Receipt, Signals, Work};
use funnel::PeerName;
use funnel_files::{Funnel, Next};
use kept_lines::{KeepFault, KeptLines, ReadLine, ReadLines, Reading, UnknownKept};
use log::{Log, warn};
use mio::Waker;
use peer_queue::StationFault;
use recovery::TapeFault;
use std::alloc::{AllocError, Global};
use std::fs::File;
use std::io::{self, Write};
use std::rt::{Clock, Files};
use std::sync::{Arc, Wait};
use std::thread;
use std::time::{Duration, Instant};

const BATCH_MAX_LINES: u64 = 256;

// How many batches may be not acknowledged yet while the next one is taken.
const AHEAD_MAX_BATCHES: usize = 64;

// How often lines that go nowhere are logged.
const NOWHERE_PERIOD_SECONDS: u64 = 60;

// Lines that were read one after another, and are not taken yet.
#[derive(Drop)]
struct ReadBatch {
    lines: ReadLines,
    // No line comes after this batch.
    is_last: bool,
}

// Lines that were taken one after another.
#[derive(Clone, Copy)]
struct Batch {
    count: u64,
    // The number of the last line.
    last: u64,
    // No line comes after this batch.
    is_last: bool,
}

/// Takes the funnel's lines, batch by batch, while earlier batches are flushed, and prints `taken N` once a batch is
/// acknowledged, or in a run that follows its funnel once a second at most; then waits for the feeders. Meanwhile it
/// writes the status file and logs lines that go nowhere.
#[derive(Drop)]
pub struct IntakeWorker<'a, F, W, N: Naming> {
    pub alloc: Global,
    pub share: IntakeShare<N>,
    pub funnel: Option<Funnel<'a, F>>,
    pub out: &'a mut W,
    pub wakers: (Arc<Waker>, Arc<Waker>),
    pub names: &'a [PeerName],
    pub status: StatusFile<'a, F>,
    /// The files that show each peer while the run goes on, if there are any.
    pub live: Option<LiveFiles<'a, F>>,
    pub progress: Progress,
    pub nowhere: Nowhere,
    /// What keeps what no tape takes of a line, before the line is taken.
    pub keeper: LineKeeper,
    pub files: &'a F,
    /// The backlog directory, and its path.
    pub tapes: &'a TapeDirectory,
    pub directory: &'a str,
    /// Room that is kept back, if the run follows its funnel.
    pub room: Option<KeptRoom<'a, F>>,
    /// Where the buffers are named that are synced before lines are acknowledged, if they are.
    pub buffers: Option<&'a NamedBuffers>,
    /// The lines that are acknowledged: by the intake's tape as it was opened, or by a receipt.
    pub acknowledged: Acknowledged,
    /// What of that is not printed yet.
    pub unprinted: Option<Unprinted>,
    /// When it was printed last, in a run that follows its funnel.
    pub printed: Option<Instant>,
    /// When the lines that go nowhere were logged last.
    pub nowhere_logged: Instant,
    pub countdown: &'a Countdown,
    /// The file that asks the run to end, if it follows its funnel.
    pub stop: Option<StopFile<'a, F>>,
    /// Whether it was reported that the status file cannot be written, so that it is not reported again.
    pub has_no_status: bool,
    /// What went wrong.
    pub end: FeedEnd,
}

impl<F: AllocGlobal + Files<File = File>, W: Write, N: Naming> IntakeWorker<'_, F, W, N> {
    // Takes the lines of the funnel up to its end.
    fn take_funnel<D: Disk, R: Wait + Clock + Log>(
        &mut self,
        rt: &R,
        post: &Post<D, N>,
        signals: &Signals,
        funnel: &mut Funnel<'_, F>,
    ) -> Result<(), RunError> {
        let mut ordered = OrderedBatches::new(self.alloc);
        let mut pace = LookPace::new();
        for _ in rt.forever() {
            let pause = pace.pause_ms(rt, ordered.len() > 0 || self.unprinted.is_some());
            let batch = self.take_batch(rt, post, signals, funnel, pause)?;
            if batch.count > 0 {
                pace.lines_came(rt);
            }
            if !self.finish_batch(rt, signals, funnel, &batch, &mut ordered)? {
                return Ok(());
            }
            self.look_after(rt, post, funnel.path());
            if self.is_to_end(rt) {
                self.acknowledge(rt, signals, &mut ordered, 0)?;
                return self.tidy(rt, funnel);
            }
        }
        unreachable!()
    }

    // Orders a flush of this batch, waits until it may go on, and tidies the funnel. False if no line comes after it.
    fn finish_batch<R: Wait + Clock + Log>(
        &mut self,
        rt: &R,
        signals: &Signals,
        funnel: &mut Funnel<'_, F>,
        batch: &Batch,
        ordered: &mut OrderedBatches,
    ) -> Result<bool, RunError> {
        self.order(signals, batch, ordered)?;
        let most = if batch.is_last { 0 } else { AHEAD_MAX_BATCHES };
        if !self.acknowledge(rt, signals, ordered, most)? {
            return Ok(false);
        }
        self.print_due(rt)?;
        if let Err(error) = self.tidy(rt, funnel) {
            self.acknowledge(rt, signals, ordered, 0)?;
            return Err(error);
        }
        Ok(!batch.is_last)
    }

    // Takes a batch of lines. It is not full if the funnel is silent, at its end or cannot be read on, or if no line
    // may be taken any more. If it has none, since more may be added, this takes `pause` milliseconds.
    fn take_batch<D: Disk, R: Wait + Clock + Log>(
        &mut self,
        rt: &R,
        post: &Post<D, N>,
        signals: &Signals,
        funnel: &mut Funnel<'_, F>,
        pause: u64,
    ) -> Result<Batch, RunError> {
        let ReadBatch { lines, is_last } = self.read_batch(rt, signals, funnel, pause)?;
        match self.keep(rt, signals, lines)? {
            Some(kept) => self.take_lines(rt, post, signals, &kept, is_last),
            None => Ok(Batch {
                count: 0,
                last: 0,
                is_last: true,
            }),
        }
    }

    // Takes these lines. `is_last` is whether no line comes after them.
    fn take_lines<D: Disk, R: Wait>(
        &mut self,
        rt: &R,
        post: &Post<D, N>,
        signals: &Signals,
        kept: &KeptLines,
        is_last: bool,
    ) -> Result<Batch, RunError> {
        let mut batch = Batch {
            count: 0,
            last: 0,
            is_last,
        };
        for line in kept.lines() {
            self.name_buffer(rt, line)?;
            let Some(number) = self.take_line(rt, post, signals, line)? else {
                return Ok(Batch {
                    is_last: true,
                    ..batch
                });
            };
            self.count_line(number, line)?;
            batch.count = batch.count.saturating_add(1);
            batch.last = number;
        }
        Ok(batch)
    }

    // Reads a batch of lines: none as long as no room is kept back. If the funnel is followed, the first one waits only
    // so long for the others.
    fn read_batch<R: Wait + Clock + Log>(
        &mut self,
        rt: &R,
        signals: &Signals,
        funnel: &mut Funnel<'_, F>,
        pause: u64,
    ) -> Result<ReadBatch, AllocError> {
        let mut lines = ReadLines::new(self.alloc);
        let has_room = match &mut self.room {
            Some(room) => room.is_there(rt),
            None => true,
        };
        if !has_room && !signals.is_stopped() && !signals.has_lost_tape() {
            thread::sleep(rt, Duration::from_millis(pause));
            return Ok(ReadBatch {
                lines,
                is_last: false,
            });
        }
        let mut wait = BatchWait::new();
        for _ in 0..BATCH_MAX_LINES {
            match self.next_line(rt, signals, funnel) {
                Next::Line(line) => {
                    lines.add(line, self.names)?;
                    if self.stop.is_some() && wait.is_over(rt) {
                        break;
                    }
                }
                Next::Silence => break,
                Next::Pause => {
                    if lines.len() == 0 {
                        thread::sleep(rt, Duration::from_millis(pause));
                    }
                    break;
                }
                Next::End => {
                    return Ok(ReadBatch {
                        lines,
                        is_last: true,
                    });
                }
            }
        }
        Ok(ReadBatch {
            lines,
            is_last: false,
        })
    }

    // Keeps what no tape takes of these lines. None if that failed for a peer that is left out: then no line is taken
    // any more, as if a tape had failed.
    fn keep<R: Log>(
        &mut self,
        rt: &R,
        signals: &Signals,
        lines: ReadLines,
    ) -> Result<Option<KeptLines>, RunError> {
        if self.keeper.wants_unknown(&lines)? {
            self.open_unknown(rt);
        }
        match self.keeper.keep(lines) {
            Ok(kept) => {
                self.report_unknown(rt, kept.unknown());
                Ok(Some(kept))
            }
            Err(KeepFault::NoMemory) => Err(RunError::OutOfResources),
            Err(KeepFault::Disk) => {
                self.lose_kept(signals);
                Ok(None)
            }
        }
    }

    // What no tape takes could not be kept for a peer that is left out.
    fn lose_kept(&mut self, signals: &Signals) {
        let error = match self.keeper.lost() {
            Some(name) => RunError::tape(self.alloc, name.bytes(), TapeFault::Disk),
            None => RunError::OutOfResources,
        };
        error.add_to(&mut self.end);
        signals.lose_tape();
    }

    // Opens the file of lines that name unknown peers, and makes its name durable.
    fn open_unknown<R: Log>(&mut self, rt: &R) {
        match self.try_open_unknown() {
            Ok(disk) => {
                if self.keeper.open_unknown(disk).is_err() {
                    self.lose_unknown();
                }
            }
            Err(error) => {
                self.keeper.close_unknown();
                log_unopened(rt, self.directory, &error);
                self.lose_unknown();
            }
        }
    }

    fn try_open_unknown(&self) -> io::Result<FileDisk<TapeFile>> {
        let disk = self.tapes.open(self.files, UNKNOWN)?;
        self.tapes.sync()?;
        Ok(disk)
    }

    // Reports if not all lines that name unknown peers were kept, the first time.
    fn report_unknown<R: Log>(&mut self, rt: &R, kept: UnknownKept) {
        match kept {
            UnknownKept::All | UnknownKept::Closed => {}
            UnknownKept::Full => log_full(rt, self.directory),
            UnknownKept::Failed => {
                log_unwritten(rt, self.directory);
                self.lose_unknown();
            }
        }
    }

    // The file of lines that name unknown peers cannot be written.
    fn lose_unknown(&mut self) {
        let path = format!(in self.alloc; "{}/{}", self.directory, UNKNOWN);
        match path {
            Ok(path) => {
                RunError::File(FileError::Unwritten(path.into_bytes())).add_to(&mut self.end);
            }
            Err(_) => self.end.lacks_resources = true,
        }
    }

    // What comes next in the funnel: its end also if it cannot be read on, which is reported, or if no line may be
    // taken any more.
    fn next_line<R: Clock + Log>(
        &mut self,
        rt: &R,
        signals: &Signals,
        funnel: &mut Funnel<'_, F>,
    ) -> Next {
        if signals.is_stopped() || signals.has_lost_tape() {
            return Next::End;
        }
        match funnel.next(rt) {
            Ok(next) => next,
            Err(fault) => {
                RunError::funnel(rt, self.alloc, funnel.path(), fault).add_to(&mut self.end);
                Next::End
            }
        }
    }

    // Names the buffer in which the line's article lies, if it is to be synced. That comes before the line is taken:
    // whoever has seen its number finds the buffer named.
    fn name_buffer<R: Wait>(&self, rt: &R, line: &ReadLine) -> Result<(), AllocError> {
        match (self.buffers, line.reading()) {
            (Some(buffers), Reading::Good { token, .. }) => buffers.add(rt, token),
            _ => Ok(()),
        }
    }

    // Takes a line and returns its number. If too many notes are pending, takes it after a flush. None if all threads
    // are stopped or a tape failed; a failure that is found here is signalled to the other threads.
    fn take_line<D: Disk, R: Wait>(
        &mut self,
        rt: &R,
        post: &Post<D, N>,
        signals: &Signals,
        line: &ReadLine,
    ) -> Result<Option<u64>, RunError> {
        for _ in rt.forever() {
            match post.take_line(rt, line.text(), &mut self.share) {
                Ok(number) => return Ok(Some(number)),
                Err(
                    PostFault::Station {
                        fault: StationFault::Tape(TapeFault::PendingFull),
                        ..
                    },
                ) => {
                    let order = signals.order();
                    if signals.receipt(rt, order).is_none() {
                        return Ok(None);
                    }
                }
                Err(fault) => {
                    self.lose_tape(signals, fault)?;
                    return Ok(None);
                }
            }
        }
        unreachable!()
    }

    // A line could not be taken. If a tape failed, this is signalled to the other threads.
    fn lose_tape(&mut self, signals: &Signals, fault: PostFault) -> Result<(), RunError> {
        let is_lost = is_lost_tape(&fault);
        let error = RunError::post(self.alloc, self.names, fault);
        if !is_lost {
            return Err(error);
        }
        error.add_to(&mut self.end);
        signals.lose_tape();
        Ok(())
    }

    // Counts a line that was taken and goes nowhere.
    fn count_line(&mut self, number: u64, line: &ReadLine) -> Result<(), AllocError> {
        match line.reading() {
            Reading::Good { .. } => {
                let unknown = self.keeper.unknown_names(line)?;
                self.nowhere.add_unknown(&unknown)
            }
            Reading::Malformed(fault) => {
                self.nowhere.add_malformed(number, *fault);
                Ok(())
            }
        }
    }

    // Whether the run follows its funnel and is asked to end.
    fn is_to_end<R: Clock>(&mut self, rt: &R) -> bool {
        match &mut self.stop {
            Some(stop) => stop.has_come(rt),
            None => false,
        }
    }

    // Wakes the feeders for what was taken, and orders a flush of it, unless the batch is empty.
    fn order(
        &self,
        signals: &Signals,
        batch: &Batch,
        ordered: &mut OrderedBatches,
    ) -> Result<(), AllocError> {
        if batch.count == 0 {
            return Ok(());
        }
        self.wake();
        ordered.push(signals.order(), batch.last)
    }

    // Prints `taken N` for each batch that is acknowledged, oldest first, if it is due, and waits until at most `most`
    // are not. False if all threads are stopped or a tape fails before that.
    fn acknowledge<R: Wait + Clock>(
        &mut self,
        rt: &R,
        signals: &Signals,
        ordered: &mut OrderedBatches,
        most: usize,
    ) -> Result<bool, RunError>
        ensures within { IfOk result
            (λ goes_on. goes_on ≡ true → length (lasts_of ordered.new) ≤ most) }
    {
        for _ in rt.forever() {
            let waits = ordered.len() > most;
            let Some(order) = ordered.oldest_order() else {
                return Ok(true);
            };
            let receipt = if waits {
                signals.receipt(rt, order)
            } else {
                signals.latest_receipt(rt)
            };
            let Some(receipt) = receipt else {
                return Ok(!waits);
            };
            match ordered.take_covered(receipt.number()) {
                Some(last) => self.report(rt, Unprinted { last, receipt })?,
                // This flush began before the batch's last line was taken.
                None if waits => ordered.order_again(signals.order()),
                None => return Ok(true),
            }
        }
        unreachable!()
    }

    // Lines are acknowledged: prints that, if it is due.
    fn report<R: Clock>(&mut self, rt: &R, unprinted: Unprinted) -> Result<(), RunError> {
        self.acknowledged = unprinted.acknowledged();
        self.unprinted = Some(unprinted);
        self.print_due(rt)
    }

    // Prints what is acknowledged and not printed yet, unless the run follows its funnel and has printed something less
    // than a second ago.
    fn print_due<R: Clock>(&mut self, rt: &R) -> Result<(), RunError> {
        if self.unprinted.is_none() || self.is_paced(rt) {
            return Ok(());
        }
        self.print_rest(rt)
    }

    // Whether the run follows its funnel and has printed something less than a second ago.
    fn is_paced<R: Clock>(&self, rt: &R) -> bool {
        match self.printed {
            Some(printed) if self.stop.is_some() => match printed.elapsed(rt) {
                Ok(passed) => passed.as_secs() < 1,
                Err(_) => false,
            },
            _ => false,
        }
    }

    // Prints what is acknowledged and not printed yet.
    fn print_rest<R: Clock>(&mut self, rt: &R) -> Result<(), RunError> {
        let Some(Unprinted { last, receipt }) = self.unprinted.take() else {
            return Ok(());
        };
        self.printed = Instant::now(rt).ok();
        match self.print_taken(last, &receipt) {
            Ok(()) => Ok(()),
            Err(error) => Err(RunError::output(self.alloc, &error)),
        }
    }

    // Prints `taken N`, and flushes the output: the receipt acknowledges all lines up to this one. The `requires` keeps
    // this from being printed without one.
    fn print_taken(&mut self, last: u64, receipt: &Receipt) -> io::Result<()>
        requires { last ≤ receipt.now.acknowledged.number }
    {
        let _ = receipt;
        self.out.write_all(b"taken ")?;
        self.out
            .write_all(itoa::Buffer::new().format(last).as_bytes())?;
        self.out.write_all(b"\n")?;
        self.out.flush()
    }

    // Removes the segments whose lines are all acknowledged, if the funnel is tidied.
    fn tidy<R: Log>(&self, rt: &R, funnel: &mut Funnel<'_, F>) -> Result<(), RunError> {
        match funnel.tidy(self.acknowledged) {
            Ok(()) => Ok(()),
            Err(fault) => Err(RunError::funnel(rt, self.alloc, funnel.path(), fault)),
        }
    }

    fn wake(&self) {
        // If that fails, they check for themselves within a second.
        let _ = self.wakers.0.wake();
        let _ = self.wakers.1.wake();
    }

    // Does what is due: writes the status file and the live files, logs the progress and the lines that go nowhere.
    // `path` is the funnel's.
    fn look_after<D: Disk, R: Wait + Clock + Log>(
        &mut self,
        rt: &R,
        post: &Post<D, N>,
        path: &[u8],
    ) {
        self.progress.log(rt, post, self.names);
        if self.status.wait(rt) == 0 {
            self.write_status(rt, post);
        }
        self.write_live(rt, post, false);
        if let Ok(passed) = self.nowhere_logged.elapsed(rt)
            && passed.as_secs() >= NOWHERE_PERIOD_SECONDS
        {
            self.nowhere.log_new(rt, path);
            if let Ok(now) = Instant::now(rt) {
                self.nowhere_logged = now;
            }
        }
    }

    // Writes the status file.
    fn write_status<D: Disk, R: Wait + Clock + Log>(&mut self, rt: &R, post: &Post<D, N>) {
        if let Err(error) = self.status.write(rt, post, self.names) {
            self.keep_status_error(error);
        }
    }

    // Writes the live files, if there are any and they are due, or `is_due` says so.
    fn write_live<D: Disk, R: Wait + Clock + Log>(
        &mut self,
        rt: &R,
        post: &Post<D, N>,
        is_due: bool,
    ) {
        if let Some(live) = &mut self.live
            && (is_due || live.wait(rt) == 0)
        {
            live.set_acknowledged(self.acknowledged.number());
            live.write(rt, post, self.names, &mut self.end);
        }
    }

    // The status file could not be written. A run reports this once.
    fn keep_status_error(&mut self, error: RunError) {
        if !self.has_no_status {
            self.has_no_status = true;
            error.add_to(&mut self.end);
        }
    }

    // Taking the funnel's lines ended with this error, which is reported at the end. If memory or another resource was
    // refused, all threads are stopped.
    fn add_error(&mut self, signals: &Signals, error: RunError) {
        if !matches!(error, RunError::File(_)) {
            signals.stop();
        }
        error.add_to(&mut self.end);
    }

    // Takes all lines of the funnel, if there is one, and signals the feeders that no more will come. If memory or
    // another resource is refused, all threads are stopped.
    fn take_all<D: Disk, R: Wait + Clock + Log>(
        &mut self,
        rt: &R,
        post: &Post<D, N>,
        signals: &Signals,
        funnel: &mut Option<Funnel<'_, F>>,
    ) {
        if let Some(funnel) = funnel {
            if let Err(error) = self.take_funnel(rt, post, signals, funnel) {
                self.add_error(signals, error);
            }
            if let Err(error) = self.print_rest(rt) {
                self.add_error(signals, error);
            }
        }
        if self.is_to_end(rt) {
            signals.begin_draining();
        } else {
            signals.begin_last_phase();
        }
        self.wake();
    }
}

impl<D: Disk, F: AllocGlobal + Files<File = File>, W: Write, N: Naming> Work<D, N>
    for IntakeWorker<'_, F, W, N> {
    fn run<R: AllocGlobal + Wait + Clock + Log, P: Pace>(
        &mut self,
        rt: &R,
        post: &Post<D, N>,
        signals: &Signals,
        _pace: &P,
    ) {
        self.end.lacks_resources |= self.progress.begin(rt, post).is_err();
        if self.stop.is_some() {
            self.write_status(rt, post);
        }
        self.write_live(rt, post, true);
        let mut funnel = self.funnel.take();
        self.take_all(rt, post, signals, &mut funnel);
        let path: &[u8] = match &funnel {
            Some(funnel) => funnel.path(),
            None => b"",
        };
        for _ in rt.forever() {
            // Each second it checks what is due.
            if self.countdown.wait(rt, 1) {
                self.nowhere.log(rt, path);
                return;
            }
            self.look_after(rt, post, path);
            if !signals.is_draining() && self.is_to_end(rt) {
                signals.begin_draining();
                self.wake();
            }
        }
    }
}

// Logs that the file of lines that name unknown peers cannot be opened in the directory at this path.
fn log_unopened<R: Log>(rt: &R, directory: &str, error: &io::Error) {
    warn!(
        rt; "cannot open {}/{}: {}: lines that name unknown peers are only counted", directory, UNKNOWN, error
    );
}

// Logs that the file of lines that name unknown peers is full.
fn log_full<R: Log>(rt: &R, directory: &str) {
    warn!(
        rt; "{}/{}: unknown-limit is reached: further lines that name unknown peers are only counted", directory,
        UNKNOWN
    );
}

// Logs that the file of lines that name unknown peers cannot be written.
fn log_unwritten<R: Log>(rt: &R, directory: &str) {
    warn!(
        rt; "cannot write {}/{}: lines that name unknown peers are only counted", directory, UNKNOWN
    );
}
