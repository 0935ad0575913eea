// What the threads of a run leave, and what went wrong at work.
use connections::{ArticleSource, UnreadPaths};
use feed_ends::FeedEnd;
use feeder::{Feeder, FeederFault};
use flusher::{FeederShare, Flusher, IntakeShare, Naming, NoThread, PostFault};
use funnel::PeerName;
use intake::{CountedWorker, RunError, WorkerShares, add_all};
use run_parts::{LeftWorkers, SpoolSync, add_unread};
use std::alloc::Global;
use std::net::Net;

// What is left of a feeder.
#[derive(Drop)]
struct LeftFeeder<N: Naming> {
    share: FeederShare<N>,
    fault: Option<FeederFault>,
    unread: UnreadPaths,
}

fn left_by_feeder<S: ArticleSource + Drop, C: Net + Drop, N: Naming>(
    counted: CountedWorker<'_, Feeder<S, C, N>>,
) -> LeftFeeder<N> {
    let CountedWorker { worker, .. } = counted;
    let Feeder {
        share,
        fault,
        unread,
        ..
    } = worker;
    LeftFeeder {
        share,
        fault,
        unread,
    }
}

/// What the workers leave, the intake this share; `None` if a thread could not be started. Adds to `end` what went
/// wrong at work: the flusher's fault first, since the others meet the same fault after it, then `intake_end`.
pub(crate) fn ended_workers<'a, S: ArticleSource + Drop, C: Net + Drop, N: Naming>(
    names: &[PeerName],
    ended: Result<
        (
            CountedWorker<'_, Feeder<S, C, N>>,
            CountedWorker<'_, Feeder<S, C, N>>,
            Flusher<N, SpoolSync<'a>>,
        ),
        NoThread,
    >,
    share: IntakeShare<N>,
    intake_end: FeedEnd,
    end: &mut FeedEnd,
) -> Option<LeftWorkers<'a, N>> {
    let Ok((first, second, flusher)) = ended else {
        RunError::OutOfResources.add_to(end);
        return None;
    };
    let (first, second) = (left_by_feeder(first), left_by_feeder(second));
    let faults = (flusher.fault, first.fault, second.fault);
    add_faults(*end.tapes.allocator(), names, faults, intake_end, end);
    add_unread(first.unread, second.unread, end);
    Some(LeftWorkers {
        shares: WorkerShares {
            intake: share,
            first: first.share,
            second: second.share,
            flusher: flusher.share,
        },
        articles: flusher.articles,
    })
}

// Adds what went wrong at work: the flusher's fault first, since the others meet the same fault after it.
fn add_faults(
    alloc: Global,
    names: &[PeerName],
    faults: (Option<PostFault>, Option<FeederFault>, Option<FeederFault>),
    intake: FeedEnd,
    end: &mut FeedEnd,
) {
    if let Some(fault) = faults.0 {
        RunError::post(alloc, names, fault).add_to(end);
    }
    add_all(intake, end);
    if let Some(fault) = faults.1 {
        feeder_error(alloc, names, fault).add_to(end);
    }
    if let Some(fault) = faults.2 {
        feeder_error(alloc, names, fault).add_to(end);
    }
}

// The fault with which a feeder ended.
fn feeder_error(alloc: Global, names: &[PeerName], fault: FeederFault) -> RunError {
    match fault {
        FeederFault::Post(fault) => RunError::post(alloc, names, fault),
        FeederFault::NoPeer | FeederFault::System => RunError::OutOfResources,
    }
}
