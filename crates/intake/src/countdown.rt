// Workers that are counted until all have ended.
use disk_model::Disk;
use flusher::{Naming, Pace, Post, Signals, Work};
use log::Log;
use std::rt::Clock;
use std::sync::Wait;
use std::sync::atomic::{AtomicU64, Ordering};
use std::time::Duration;

/// How many workers have not ended.
#[derive(Drop)]
pub struct Countdown {
    count: AtomicU64,
}

impl Countdown {
    /// So many workers, none of which has ended.
    pub fn new(count: u64) -> Self {
        Countdown {
            count: AtomicU64::new(count),
        }
    }

    // One more worker has ended.
    fn count_down(&self) {
        self.count.fetch_sub(1, Ordering::SeqCst);
        self.count.wake_all();
    }

    /// Waits until all workers have ended, `seconds` at most. Returns whether they have; false may come earlier.
    pub(crate) fn wait<R: Wait>(&self, rt: &R, seconds: u64) -> bool {
        let running = self.count.load(Ordering::SeqCst);
        if running == 0 {
            return true;
        }
        self.count.park_timeout(
            rt,
            (running & 0xffff_ffff) as u32,
            Duration::from_secs(seconds),
        );
        self.count.load(Ordering::SeqCst) == 0
    }
}

/// A worker that counts down when it has ended.
#[derive(Drop)]
pub struct CountedWorker<'a, W> {
    pub worker: W,
    pub countdown: &'a Countdown,
}

impl<D: Disk, N: Naming, W: Work<D, N>> Work<D, N> for CountedWorker<'_, W> {
    fn run<R: AllocGlobal + Wait + Clock + Log, P: Pace>(
        &mut self,
        rt: &R,
        post: &Post<D, N>,
        signals: &Signals,
        pace: &P,
    ) {
        self.worker.run(rt, post, signals, pace);
        self.countdown.count_down();
    }
}
