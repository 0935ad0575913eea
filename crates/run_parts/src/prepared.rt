// What is made before the threads of a run start.
ghost use Rattle.std.specs.Prelude.{IfOk, length};
ghost use Rattle.std.specs.List.{All};
ghost use Rattle.flusher.specs.Post.{IsFor};
ghost use Rattle.flusher.specs.Sealed.{IsFlushed};

use crate::env::RunEnv;
use crate::feeding::{Feeding, Shared, feeding_of};
use crate::opening::{OpenRun, OpenTapes, Request};
use crate::places::{Places, copy_of, text_of};
use crate::spool::{SpoolPlaces, Spools};
use crate::spool_sync::SyncedBuffers;
use crate::suspects::suspects_of;
use crate::taking::{Taking, take_in};
use connections::{SpoolTally, Suspects};
use disk_model::{FileDisk, TapeFile};
use feed_conf::PeerConf;
use flusher::{Blanks, PostPeer};
use funnel::PeerName;
use intake::{LiveFiles, RunError, flush_stations, log_unknown_lines};
use log::Log;
use owed_list::log_strangers;
use recovery::Tape;
use std::alloc::{AllocError, Global};
use std::fs::File;
use std::net::Net;
use std::rt::{Clock, Files};
use std::sync::Arc;

/// What is made before the threads start, besides the tapes.
#[derive(Drop)]
pub struct Prepared<'a, S, F> {
    /// The names of the peers, in the order of their stations.
    pub names: Vec<PeerName>,
    pub feeding: Feeding<S>,
    /// What the feeders have of these two is used after them, too.
    pub tally: Arc<SpoolTally>,
    pub suspects: Arc<Suspects>,
    pub taking: Taking<'a, F>,
    /// The files that show each peer while the run goes on, if they are wanted.
    pub live: Option<LiveFiles<'a, F>>,
    pub synced: SyncedBuffers,
}

/// A run that is ready to start.
#[derive(Drop)]
pub struct Ready<'a, S, F> {
    pub prepared: Prepared<'a, S, F>,
    /// The stations of the peers, each of which can be split.
    pub stations: Vec<PostPeer<FileDisk<TapeFile>>>,
    /// The intake's tape.
    pub intake: Tape<FileDisk<TapeFile>>,
    /// What the token ledgers and the queues of these stations are made of.
    pub blanks: Blanks,
}

/// Makes what an open run needs: takes in backlog files, opens the funnel and the spool, and logs what earlier runs
/// have left in the directory.
///
/// # Errors
/// The first thing that went wrong.
pub fn prepare_run<
    'a,
    R: AllocGlobal + Clock + Log,
    F: AllocGlobal + Files<File = File>,
    S: Drop,
    H: Spools<Store = S>,
    C: Net,
    L,
>(
    env: &RunEnv<'a, R, F, H, C, L>,
    run: &'a OpenRun,
    request: Request<'_>,
    opened: OpenTapes,
) -> Result<Ready<'a, S, F>, RunError>
    ensures flushed { IfOk result (λ ready. All (λ p. IsFlushed p.station) ready.stations.items) }
    ensures blanks { IfOk result (λ ready. IsFor (length ready.stations.items) ready.blanks) }
{
    let OpenTapes {
        confs,
        peers,
        intake,
        acknowledged,
    } = opened;
    let mut peers = peers;
    let backlogs = run.backlogs();
    let taking = take_in(
        env,
        backlogs,
        &run.places,
        request,
        &confs,
        &mut peers,
        acknowledged,
        &run.left_out,
    )?;
    let prepared = prepare(env, run, &confs, taking, request.drops_missing)?;
    let stations = flush_stations(env.rt, env.files.alloc(), peers)?;
    let blanks = Blanks::new(env.files.alloc(), stations.len())?;
    Ok(Ready {
        prepared,
        stations,
        intake,
        blanks,
    })
}

// What is made besides the intake. What earlier runs have left is logged.
fn prepare<
    'a,
    R: AllocGlobal + Clock + Log,
    F: AllocGlobal + Files<File = File>,
    S: Drop,
    H: Spools<Store = S>,
    C,
    L,
>(
    env: &RunEnv<'a, R, F, H, C, L>,
    run: &'a OpenRun,
    confs: &[PeerConf],
    taking: Taking<'a, F>,
    drops_missing: bool,
) -> Result<Prepared<'a, S, F>, RunError> {
    let alloc = env.files.alloc();
    let (backlogs, places) = (run.backlogs(), &run.places);
    let shared = Shared::new(
        alloc,
        text_of(places.spool.path()),
        suspects_of(env.rt, env.files, backlogs.path, confs)?,
        places.json.is_some() || places.metrics.is_some(),
        taking.start,
        taking.stop.is_some(),
        // (of an article that its own spool does not have, innd has said that it is gone)
        drops_missing || places.spool.is_of_innd(),
    )?;
    let feeding = feeding_of(env, places, &run.accounts, confs, &shared)?;
    let names = names_of(alloc, confs)?;
    let synced = synced_of(env, &places.spool)?;
    let others = taking.keeper.left_out();
    log_strangers(env.rt, env.files, &places.directory, confs, others);
    log_unknown_lines(env.rt, env.files, backlogs.path);
    let live = live_files(env.files, places, &shared)?;
    let Shared {
        tally,
        suspects,
        ..
    } = shared;
    Ok(Prepared {
        names,
        feeding,
        tally,
        suspects,
        taking,
        live,
        synced,
    })
}

// The files that show each peer while a run goes on, if anybody counts for them.
fn live_files<'a, F: AllocGlobal + Files<File = File>>(
    files: &'a F,
    places: &Places,
    shared: &Shared,
) -> Result<Option<LiveFiles<'a, F>>, AllocError> {
    let Some(counts) = &shared.counts else {
        return Ok(None);
    };
    let alloc = files.alloc();
    Ok(Some(LiveFiles::new(
        files,
        copy_of(alloc, places.json.as_deref())?,
        copy_of(alloc, places.metrics.as_deref())?,
        places.status_period,
        Arc::try_clone(counts)?,
        shared.start,
    )))
}

fn names_of(alloc: Global, peers: &[PeerConf]) -> Result<Vec<PeerName>, AllocError> {
    let mut names = Vec::new(alloc);
    for peer in peers {
        names.push(peer.name.clone()?)?;
    }
    Ok(names)
}

// The buffers that are synced before lines are acknowledged.
fn synced_of<R, F: AllocGlobal, S: Drop, H: Spools<Store = S>, C, L>(
    env: &RunEnv<'_, R, F, H, C, L>,
    places: &SpoolPlaces,
) -> Result<SyncedBuffers, AllocError> {
    let alloc = env.files.alloc();
    match places.synced() {
        Some(path) => Ok(SyncedBuffers {
            buffers: Some(env.spools.sync(alloc, text_of(path))?),
            path: Vec::from_slice(alloc, path)?,
        }),
        None => Ok(SyncedBuffers {
            buffers: None,
            path: Vec::new(alloc),
        }),
    }
}
