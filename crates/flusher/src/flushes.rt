// The flusher: the worker that puts the notes that pend on the disks.
ghost use Rattle.std.specs.Prelude.{◌≡◌, Err, IfErr, IsSome, None, OnOk, Some};
ghost use Rattle.flusher.specs.Faults.{IsOfTape};

use crate::article_sync::{ArticleSync, NoSync};
use crate::pace::Pace;
use crate::share::FeederShare;
use crate::signals::Signals;
use crate::threads::Work;
use crate::{Naming, Post, PostFault};
use disk_model::Disk;
use log::{Log, info};
use std::rt::Clock;
use std::sync::Wait;
use std::time::Instant;

// A flush is logged as slow if it takes that many seconds or more.
const SLOW_MIN_SECONDS: u64 = 1;

/// Flushes all stations and the intake tape, for each order and once a second without one, until it is told to end.
/// Before the flush of an order it drops what exceeds the peers' limits; after each flush it rewrites the tapes for
/// which that is due.
///
/// What acknowledged lines name is durable before they are acknowledged, if `articles` sees to that.
///
/// Once a tape has failed, as this or another worker found, or an article may not be durable, it flushes the stations
/// that work, as often as before and once more at its end, so that the answers of their peers are kept. It drops and
/// rewrites nothing any more, and no receipt comes. Every other fault ends it, and stops all workers.
#[derive(Drop)]
pub struct Flusher<N: Naming, A = NoSync> {
    /// What it has dropped.
    pub share: FeederShare<N>,
    /// What makes the articles durable.
    pub articles: A,
    /// The first fault that it met.
    pub fault: Option<PostFault>,
}

impl<N: Naming> Flusher<N> {
    /// One that counts by this share, and leaves the articles to whoever keeps them.
    pub fn new(share: FeederShare<N>) -> Flusher<N> {
        Flusher::with_articles(share, NoSync)
    }
}

impl<N: Naming, A> Flusher<N, A> {
    /// One that counts by this share. `articles` makes durable what lines name.
    pub fn with_articles(share: FeederShare<N>, articles: A) -> Flusher<N, A> {
        Flusher {
            share,
            articles,
            fault: None,
        }
    }

    // Keeps a fault, if it is the first.
    fn keep(&mut self, fault: PostFault)
        ensures first { self.old.fault ≡ None → self.new.fault ≡ Some fault }
        ensures later { IsSome self.old.fault → self.new.fault ≡ self.old.fault }
        ensures share { self.new.share ≡ self.old.share }
    {
        if self.fault.is_none() {
            self.fault = Some(fault);
        }
    }
}

impl<N: Naming, A: ArticleSync> Flusher<N, A> {
    // Drops what exceeds each peer's limit.
    fn shed_all<D: Disk, R: Wait>(&mut self, rt: &R, post: &Post<D, N>) -> Result<(), PostFault> {
        for peer in 0..post.peers() {
            post.shed(rt, peer, &mut self.share)?;
        }
        Ok(())
    }

    // Flushes everything, and signals the receipt for the first `orders` orders. If the flush was ordered, what exceeds
    // the limits is dropped first. If an article may not be durable, no receipt comes, as if a tape were lost.
    fn flush<D: Disk, R: Wait + Clock + Log, P: Pace>(
        &mut self,
        rt: &R,
        post: &Post<D, N>,
        signals: &Signals,
        pace: &P,
        orders: u64,
        is_ordered: bool,
    ) -> Result<(), PostFault> {
        if is_ordered {
            self.shed_all(rt, post)?;
        }
        let begun = Instant::now(rt);
        let Some(receipt) = post.flush_all(rt, pace, &mut self.articles)? else {
            self.articles.tell(rt);
            signals.lose_tape();
            return Ok(());
        };
        if let Ok(begun) = begun {
            log_slow(rt, begun);
        }
        signals.answer(rt, orders, receipt);
        post.rotate_all(rt)
    }

    // Serves the orders until it is told to end.
    fn flush_on<D: Disk, R: Wait + Clock + Log, P: Pace>(
        &mut self,
        rt: &R,
        post: &Post<D, N>,
        signals: &Signals,
        pace: &P,
    ) -> Result<(), PostFault> {
        let mut answered = 0;
        for _ in rt.forever() {
            let next = signals.next_flush(rt, answered);
            let flushed = match next {
                Some(orders) if !signals.has_lost_tape() => {
                    self.flush(rt, post, signals, pace, orders, orders != answered)
                }
                _ => post.flush_working(rt, pace),
            };
            self.meet(signals, flushed)?;
            let Some(orders) = next else {
                return Ok(());
            };
            answered = orders;
        }
        unreachable!()
    }

    // Goes on after a tape's fault, of which the first is kept.
    fn meet(&mut self, signals: &Signals, flushed: Result<(), PostFault>) -> Result<(), PostFault>
        ensures goes_on { OnOk result (IfErr flushed IsOfTape) }
        ensures ends { IfErr result (λ fault. flushed ≡ Err fault × (IsOfTape fault → ⊥)) }
    {
        if let Err(fault) = flushed {
            if !fault.is_of_tape() {
                return Err(fault);
            }
            self.keep(fault);
            signals.lose_tape();
        }
        Ok(())
    }
}

impl<D: Disk, N: Naming, A: ArticleSync> Work<D, N> for Flusher<N, A> {
    fn run<R: AllocGlobal + Wait + Clock + Log, P: Pace>(
        &mut self,
        rt: &R,
        post: &Post<D, N>,
        signals: &Signals,
        pace: &P,
    ) {
        if let Err(fault) = self.flush_on(rt, post, signals, pace) {
            self.keep(fault);
            signals.stop();
        }
    }
}

// Logs a flush that began at this moment, if it took long.
fn log_slow<R: Clock + Log>(rt: &R, begun: Instant) {
    if let Ok(passed) = begun.elapsed(rt)
        && passed.as_secs() >= SLOW_MIN_SECONDS
    {
        info!(rt; "a flush took {} seconds: the disk is slow", passed.as_secs());
    }
}
