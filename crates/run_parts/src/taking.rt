// What the intake is made of.
use crate::env::RunEnv;
use crate::opening::{Backlogs, Request};
use crate::places::{Places, text_if_any, text_of};
use crate::start_and_end::log_start;
use acknowledged_lines::Acknowledged;
use disk_model::{FileDisk, TapeFile};
use feed_conf::PeerConf;
use flusher::PostPeer;
use funnel_files::Funnel;
use intake::{
    KeptRoom, LeftOut, LineKeeper, OtherFiles, RunError, StopFile, keeper_for, open_funnel,
    take_backlogs,
};
use log::Log;
use std::fs::File;
use std::net::Net;
use std::rt::{Clock, Files};
use std::time::Instant;

/// What the intake is made of, besides its share.
#[derive(Drop)]
pub struct Taking<'a, F> {
    /// Where the lines come from, if there is a funnel.
    pub funnel: Option<Funnel<'a, F>>,
    /// What keeps the lines that go nowhere.
    pub keeper: LineKeeper,
    /// The room that is kept back if the run follows its funnel.
    pub room: Option<KeptRoom<'a, F>>,
    /// The path of the status file.
    pub status: Vec<u8>,
    /// The file that asks the run to end, if it follows its funnel.
    pub stop: Option<StopFile<'a, F>>,
    /// When the run began.
    pub start: Instant,
    /// The lines that are acknowledged, as the intake's tape was opened.
    pub acknowledged: Acknowledged,
}

// Takes in the peers' backlog files, and then opens the funnel: what the intake is made of.
pub(crate) fn take_in<'a, R: Clock + Log, F: AllocGlobal + Files<File = File>, H, C: Net, L>(
    env: &RunEnv<'a, R, F, H, C, L>,
    backlogs: Backlogs<'a>,
    places: &Places,
    request: Request<'_>,
    confs: &[PeerConf],
    peers: &mut [PostPeer<FileDisk<TapeFile>>],
    acknowledged: Acknowledged,
    left_out: &[LeftOut],
) -> Result<Taking<'a, F>, RunError> {
    let (rt, files, source) = (env.rt, env.files, request.source);
    let limit = places.unknown_limit;
    let keeper = keeper_for(rt, files, backlogs.tapes, backlogs.path, left_out, limit)?;
    // A run that is asked to end while backlog files are imported ends after that.
    let stop = StopFile::for_source(rt, files, source, backlogs.path)?;
    let others = OtherFiles {
        conf: request.path,
        of_run: &[
            text_of(&places.status),
            text_if_any(&places.json),
            text_if_any(&places.metrics),
            text_if_any(&places.accounts),
        ],
        source,
    };
    take_backlogs(rt, files, backlogs.tapes, backlogs.path, others, peers)?;
    let funnel = open_funnel(rt, files, &env.net, source, acknowledged.number())?;
    if stop.is_some()
        && let Some(funnel) = &funnel
    {
        log_start(
            rt,
            env.version,
            confs.len(),
            funnel.path(),
            acknowledged.number(),
        );
        places.spool.log_missing(rt, files);
    }
    let start = match Instant::now(rt) {
        Ok(start) => start,
        Err(error) => return Err(RunError::refused(rt, "read the clock", &error)),
    };
    let room = room_for(env, backlogs, stop.is_some(), start)?;
    Ok(Taking {
        funnel,
        keeper,
        room,
        status: Vec::from_slice(files.alloc(), &places.status)?,
        stop,
        start,
        acknowledged,
    })
}

// The room that is kept back if the run follows its funnel.
fn room_for<'a, R: Log, F: AllocGlobal + Files<File = File>, H, C, L>(
    env: &RunEnv<'a, R, F, H, C, L>,
    backlogs: Backlogs<'a>,
    is_lasting: bool,
    start: Instant,
) -> Result<Option<KeptRoom<'a, F>>, RunError> {
    if !is_lasting {
        return Ok(None);
    }
    Ok(Some(KeptRoom::new(env.rt, env.files, backlogs.tapes, backlogs.path, start)?))
}
