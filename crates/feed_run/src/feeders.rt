// The two feeders of a run.
use connections::{ArticleSource, FeederParts};
use feeder::Feeder;
use flusher::{FeederShare, Naming};
use intake::RunError;
use log::Log;
use mio::Waker;
use resolver::{LookUp, Resolver};
use run_parts::{Feeding, RunEnv};
use std::alloc::Global;
use std::io;
use std::net::Net;
use std::rt::Clock;
use std::sync::{Arc, Wait};
use std::thread::Threads;

/// A feeder, and what wakes it.
#[derive(Drop)]
pub(crate) struct WakenFeeder<S: ArticleSource + Drop, C: Net + Drop, N: Naming> {
    pub feeder: Feeder<S, C, N>,
    pub waker: Arc<Waker>,
}

/// The two feeders, and the resolver that they share.
#[derive(Drop)]
pub(crate) struct Feeders<S: ArticleSource + Drop, C: Net + Drop, N: Naming> {
    pub resolver: Resolver,
    pub first: WakenFeeder<S, C, N>,
    pub second: WakenFeeder<S, C, N>,
}

/// The feeders of these parts, with these shares, and the threads that look up hosts for them.
///
/// # Errors
/// Memory was refused; a thread or a poll was refused, which is logged.
pub(crate) fn feeders_of<
    N: Naming,
    R: Wait + Clock + Threads + Log + Send + Sync + 'static,
    F: AllocGlobal,
    S: ArticleSource + Drop,
    H,
    C: Net + Copy + Drop,
    L: LookUp + Copy + Send + Sync + Drop + 'static,
>(
    env: &RunEnv<'_, R, F, H, C, L>,
    feeding: Feeding<S>,
    shares: (FeederShare<N>, FeederShare<N>),
) -> Result<Feeders<S, C, N>, RunError> {
    let Feeding {
        hosts,
        first,
        second,
    } = feeding;
    let alloc = env.files.alloc();
    let resolver = Resolver::start(env.rt, alloc, hosts, env.look_up)?;
    let first = feeder_of(env.rt, alloc, env.net, &resolver, first, shares.0)?;
    let second = feeder_of(env.rt, alloc, env.net, &resolver, second, shares.1)?;
    Ok(Feeders {
        resolver,
        first,
        second,
    })
}

// The feeder of these parts, and its waker, by which the resolver too wakes it for each answer.
fn feeder_of<R: Wait + Log, S: ArticleSource + Drop, C: Net + Drop, N: Naming>(
    rt: &R,
    alloc: Global,
    net: C,
    resolver: &Resolver,
    parts: FeederParts<S>,
    share: FeederShare<N>,
) -> Result<WakenFeeder<S, C, N>, RunError> {
    let hosts = resolver.try_clone()?;
    let feeder = Feeder::new(alloc, net, hosts, parts, share).map_err(|error| lacking(rt, &error))?;
    let waker = feeder.waker().map_err(|error| lacking(rt, &error))?;
    let waker = Arc::new(alloc, waker)?;
    resolver.wake_by(rt, Arc::try_clone(&waker)?)?;
    Ok(WakenFeeder { feeder, waker })
}

// The system refused a poll or a waker, for this reason.
fn lacking<R: Log>(rt: &R, error: &io::Error) -> RunError {
    RunError::refused(rt, "poll sockets", error)
}
