// How the threads of a run signal to one another.
use crate::Receipt;
use std::sync::atomic::{AtomicBool, AtomicU64, Ordering};
use std::sync::{Mutex, Wait};
use std::time::Duration;

// The longest time without a flush, in seconds.
const FLUSH_PERIOD_SECONDS: u64 = 1;

/// The signals between the threads of a run: orders of a flush, what came of them, and that the end is near.
///
/// One value serves one run, and all of its threads share it.
#[derive(Drop)]
pub struct Signals {
    // Changes with each signal: whoever waits for one sleeps as long as this stays as it was.
    changes: AtomicU64,
    // How many orders have come.
    orders: AtomicU64,
    latest: Mutex<Latest>,
    last_phase: AtomicBool,
    draining: AtomicBool,
    lost_tape: AtomicBool,
    // The flusher is to end.
    over: AtomicBool,
    stopped: AtomicBool,
}

// The latest successful flush.
#[derive(Drop)]
struct Latest {
    // How many orders had come before it began.
    orders: u64,
    receipt: Option<Receipt>,
}

impl Signals {
    /// Nothing is ordered.
    pub fn new() -> Signals {
        Signals {
            changes: AtomicU64::new(0),
            orders: AtomicU64::new(0),
            latest: Mutex::new(Latest {
                orders: 0,
                receipt: None,
            }),
            last_phase: AtomicBool::new(false),
            draining: AtomicBool::new(false),
            lost_tape: AtomicBool::new(false),
            over: AtomicBool::new(false),
            stopped: AtomicBool::new(false),
        }
    }

    /// Orders a flush, and returns the order's number. One flush serves all orders that came before it began.
    pub fn order(&self) -> u64 {
        let before = self.orders.fetch_add(1, Ordering::SeqCst);
        self.wake_all();
        before.wrapping_add(1)
    }

    /// Waits for the receipt of a flush that began after the order of this number. `None` if everyone was stopped
    /// first, or a tape was lost; the worker that met the fault has it.
    pub fn receipt<R: Wait>(&self, rt: &R, order: u64) -> Option<Receipt> {
        for _ in rt.forever() {
            let seen = self.changes.load(Ordering::SeqCst);
            let latest = self.receipt_since(rt, order);
            if latest.is_some() || self.is_stopped() || self.has_lost_tape() {
                return latest;
            }
            self.changes.park(rt, low(seen));
        }
        unreachable!()
    }

    /// The receipt of the latest successful flush, if there was one. It waits for no flush.
    pub fn latest_receipt<R: Wait>(&self, rt: &R) -> Option<Receipt> {
        self.receipt_since(rt, 0)
    }

    /// The funnel is at its end: what is ready or held is to be worked off.
    pub fn begin_last_phase(&self) {
        self.last_phase.store(true, Ordering::SeqCst);
        self.wake_all();
    }

    /// Whether the last phase has begun.
    pub fn is_last_phase(&self) -> bool {
        self.last_phase.load(Ordering::SeqCst)
    }

    /// The run is to end in good order: nothing more is claimed, and what is held gets its answers.
    pub fn begin_draining(&self) {
        self.draining.store(true, Ordering::SeqCst);
        self.wake_all();
    }

    /// Whether the run is to end in good order.
    pub fn is_draining(&self) -> bool {
        self.draining.load(Ordering::SeqCst)
    }

    /// A tape failed: no further line is to be taken, and no receipt comes any more. The last phase begins, in which
    /// the other peers' debts are worked off.
    pub fn lose_tape(&self) {
        self.lost_tape.store(true, Ordering::SeqCst);
        self.begin_last_phase();
    }

    /// Whether a tape has failed.
    pub fn has_lost_tape(&self) -> bool {
        self.lost_tape.load(Ordering::SeqCst)
    }

    /// Everyone is to end at once: a worker met a fault, or a thread could not be started.
    pub fn stop(&self) {
        self.stopped.store(true, Ordering::SeqCst);
        self.wake_all();
    }

    /// Whether everyone is to end at once.
    pub fn is_stopped(&self) -> bool {
        self.stopped.load(Ordering::SeqCst)
    }

    // The receipt of a flush that began after the first `orders` orders.
    fn receipt_since<R: Wait>(&self, rt: &R, orders: u64) -> Option<Receipt> {
        let latest = self.latest.lock(rt);
        if latest.orders >= orders {
            latest.receipt
        } else {
            None
        }
    }

    // Waits, for a second at most, for an order beyond those that a flush has served, and returns how many orders have
    // come. `None` if the flusher is to end.
    pub(crate) fn next_flush<R: Wait>(&self, rt: &R, answered: u64) -> Option<u64> {
        let seen = self.changes.load(Ordering::SeqCst);
        if self.orders.load(Ordering::SeqCst) == answered && !self.is_over() {
            self.changes
                .park_timeout(rt, low(seen), Duration::from_secs(FLUSH_PERIOD_SECONDS));
        }
        if self.is_over() {
            None
        } else {
            Some(self.orders.load(Ordering::SeqCst))
        }
    }

    // Signals the receipt of a flush that began after the first `orders` orders.
    pub(crate) fn answer<R: Wait>(&self, rt: &R, orders: u64, receipt: Receipt) {
        *self.latest.lock(rt) = Latest {
            orders,
            receipt: Some(receipt),
        };
        self.wake_all();
    }

    // The flusher is to end: no other worker is left.
    pub(crate) fn end_flusher(&self) {
        self.over.store(true, Ordering::SeqCst);
        self.wake_all();
    }

    // Whether the flusher is to end.
    fn is_over(&self) -> bool {
        self.over.load(Ordering::SeqCst) || self.is_stopped()
    }

    // Wakes everyone who waits. What is signalled was written before, so nobody sleeps through it.
    fn wake_all(&self) {
        self.changes.fetch_add(1, Ordering::SeqCst);
        self.changes.wake_all();
    }
}

// The low 32 bits, on which a sleep goes.
fn low(changes: u64) -> u32 {
    (changes & 0xffff_ffff) as u32
}
