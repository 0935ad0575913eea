// Workers in threads of their own.
use crate::signals::Signals;
use crate::{Naming, Pace, Post};
use disk_model::Disk;
use log::Log;
use std::rt::Clock;
use std::sync::Wait;
use std::thread;
use std::thread::Threads;

/// A worker on a post.
pub trait Work<D: Disk, N: Naming> {
    /// Works until it is done, or everyone is to end.
    fn run<R: AllocGlobal + Wait + Clock + Log, P: Pace>(
        &mut self,
        rt: &R,
        post: &Post<D, N>,
        signals: &Signals,
        pace: &P,
    );
}

/// The thread of a worker could not be started. No worker runs any more.
#[derive(Clone, Copy, Debug, PartialEq, Eq)]
pub struct NoThread;

/// Runs two feeders and the flusher, each in a thread of its own, and the intake in this one, until all have ended, and
/// returns the three. The flusher is told to end once the feeders have ended.
///
/// # Errors
/// `NoThread` if a thread could not be started: all were stopped and have ended, and the three workers are lost.
pub fn run_threads<
    D: Disk + Send,
    N: Naming + Send + Sync,
    W: Work<D, N> + Drop + Send,
    F: Work<D, N> + Drop + Send,
    I: Work<D, N>,
    P: Pace + Sync,
    R: AllocGlobal + Threads + Wait + Clock + Log + Sync,
>(
    rt: &R,
    post: &Post<D, N>,
    signals: &Signals,
    feeders: (W, W),
    flusher: F,
    intake: &mut I,
    pace: &P,
) -> Result<(W, W, F), NoThread> {
    let (first, second) = feeders;
    thread::scope(
        thread::scope_env(),
        rt,
        |scope| -> Result<(W, W, F), NoThread> {
            let Ok(last) = scope.spawn(move || worked(rt, post, signals, flusher, pace)) else {
                return Err(NoThread);
            };
            let ended = run_with_intake(rt, post, signals, first, second, intake, pace);
            signals.end_flusher();
            let flusher = last.join(rt);
            match ended {
                Ok((first, second)) => Ok((first, second, flusher)),
                Err(fault) => Err(fault),
            }
        },
    )
}

/// Runs two workers, each in a thread of its own, until both have ended, and returns them. It starts no flusher and no
/// intake: a receipt comes only if one of the two flushes.
///
/// # Errors
/// `NoThread` if a thread could not be started: all were stopped and have ended, and both workers are lost.
pub fn run_feeders<
    D: Disk + Send,
    N: Naming + Send + Sync,
    W: Work<D, N> + Drop + Send,
    P: Pace + Sync,
    R: AllocGlobal + Threads + Wait + Clock + Log + Sync,
>(
    rt: &R,
    post: &Post<D, N>,
    signals: &Signals,
    feeders: (W, W),
    pace: &P,
) -> Result<(W, W), NoThread> {
    let (first, second) = feeders;
    run_with_intake(rt, post, signals, first, second, &mut NoIntake, pace)
}

// Stands in for the intake if there is none.
#[derive(Drop)]
struct NoIntake;

impl<D: Disk, N: Naming> Work<D, N> for NoIntake {
    fn run<R: AllocGlobal + Wait + Clock + Log, P: Pace>(
        &mut self,
        _rt: &R,
        _post: &Post<D, N>,
        _signals: &Signals,
        _pace: &P,
    ) {}
}

// Runs two feeders in threads of their own and the intake in this one. Each thread has a scope of its own.
fn run_with_intake<
    D: Disk + Send,
    N: Naming + Send + Sync,
    W: Work<D, N> + Drop + Send,
    I: Work<D, N>,
    P: Pace + Sync,
    R: AllocGlobal + Threads + Wait + Clock + Log + Sync,
>(
    rt: &R,
    post: &Post<D, N>,
    signals: &Signals,
    first: W,
    second: W,
    intake: &mut I,
    pace: &P,
) -> Result<(W, W), NoThread> {
    thread::scope(
        thread::scope_env(),
        rt,
        |scope| -> Result<(W, W), NoThread> {
            let Ok(one) = scope.spawn(move || worked(rt, post, signals, first, pace)) else {
                signals.stop();
                return Err(NoThread);
            };
            let ended = run_one_with_intake(rt, post, signals, second, intake, pace);
            let first = one.join(rt);
            match ended {
                Ok(second) => Ok((first, second)),
                Err(fault) => Err(fault),
            }
        },
    )
}

// Runs a feeder in a thread of its own and the intake in this one.
fn run_one_with_intake<
    D: Disk + Send,
    N: Naming + Send + Sync,
    W: Work<D, N> + Drop + Send,
    I: Work<D, N>,
    P: Pace + Sync,
    R: AllocGlobal + Threads + Wait + Clock + Log + Sync,
>(
    rt: &R,
    post: &Post<D, N>,
    signals: &Signals,
    feeder: W,
    intake: &mut I,
    pace: &P,
) -> Result<W, NoThread> {
    thread::scope(thread::scope_env(), rt, |scope| -> Result<W, NoThread> {
        let Ok(one) = scope.spawn(move || worked(rt, post, signals, feeder, pace)) else {
            signals.stop();
            return Err(NoThread);
        };
        intake.run(rt, post, signals, pace);
        Ok(one.join(rt))
    })
}

// Works until it is done.
fn worked<D: Disk, N: Naming, W: Work<D, N>, P: Pace, R: AllocGlobal + Wait + Clock + Log>(
    rt: &R,
    post: &Post<D, N>,
    signals: &Signals,
    worker: W,
    pace: &P,
) -> W {
    let mut worker = worker;
    worker.run(rt, post, signals, pace);
    worker
}
