// Importing the peers' backlog files before the work.
ghost use Rattle.std.specs.Prelude.{◌≡◌, IfOk, map};
ghost use Rattle.std.specs.List.{All};
ghost use Rattle.flusher.specs.Sealed.{IsFlushed};

use crate::run_error::RunError;
use backlog_files::{BacklogFault, BacklogFiles, Imported};
use disk_model::{FileDisk, TapeDirectory, TapeFile};
use feed_ends::Source;
use flusher::PostPeer;
use log::{Log, info, warn};
use std::alloc::{AllocError, Global};
use std::fs::File;
use std::rt::Files;

/// The paths of files that serve another purpose, wherever they are, and are never imported.
#[derive(Clone, Copy)]
pub struct OtherFiles<'a> {
    pub conf: &'a str,
    /// The files that a run writes into, and the one of accounts, as the settings name them.
    pub of_run: &'a [&'a str],
    /// Has the funnel's path, if there is a funnel.
    pub source: Source<'a>,
}

/// Imports the backlog files of these peers, in their order, from the directory at this path, which is locked, and logs
/// what became of each: of each peer the file with its name first, and then the lines that were kept for it.
///
/// # Errors
/// The first file that cannot be imported or removed; the first failure of a tape.
pub fn take_backlogs<R: Log, F: AllocGlobal + Files<File = File>>(
    rt: &R,
    files: &F,
    tapes: &TapeDirectory,
    directory: &str,
    others: OtherFiles<'_>,
    peers: &mut [PostPeer<FileDisk<TapeFile>>],
) -> Result<(), RunError> {
    let backlogs = backlog_files(files, tapes, directory, others)?;
    for peer in peers {
        let given = backlogs.take_in(peer);
        let is_left = matches!(&given, Ok(Some(imported)) if imported.is_left);
        report(rt, files.alloc(), peer, given)?;
        if !is_left {
            let kept = backlogs.take_kept(peer);
            report(rt, files.alloc(), peer, kept)?;
        }
    }
    Ok(())
}

// Logs what became of a file of this peer, if there was one.
fn report<R: Log>(
    rt: &R,
    alloc: Global,
    peer: &PostPeer<FileDisk<TapeFile>>,
    taken: Result<Option<Imported>, BacklogFault>,
) -> Result<(), RunError> {
    match taken {
        Ok(Some(imported)) => log_import(rt, &imported),
        Ok(None) => {}
        Err(fault) => return Err(RunError::backlog(rt, alloc, peer.name.bytes(), fault)),
    }
    Ok(())
}

/// These peers, in their order, with what pends at their stations put on the disks, so that each can be split. An
/// import ends with a flush, so nothing pends, and no disk is called.
///
/// # Errors
/// The first tape that fails.
pub fn flush_stations<R: Log>(
    rt: &R,
    alloc: Global,
    peers: Vec<PostPeer<FileDisk<TapeFile>>>,
) -> Result<Vec<PostPeer<FileDisk<TapeFile>>>, RunError>
    ensures flushed { IfOk result (λ flushed. All (λ p. IsFlushed p.station) flushed.items) }
    ensures names { IfOk result
        (λ flushed. map (λ p. p.name) flushed.items ≡ map (λ p. p.name) peers.items) }
{
    let mut flushed = Vec::new(alloc);
    for peer in peers {
        let mut peer = peer;
        if let Err(fault) = peer.flush_or_rotate() {
            let name = peer.name.bytes();
            return Err(RunError::backlog(rt, alloc, name, BacklogFault::Station(fault)));
        }
        flushed.push(peer)?;
    }
    Ok(flushed)
}

// The backlog files of this directory, without the other files.
fn backlog_files<'a, F: AllocGlobal + Files<File = File>>(
    files: &'a F,
    tapes: &'a TapeDirectory,
    directory: &'a str,
    others: OtherFiles<'_>,
) -> Result<BacklogFiles<'a, F>, AllocError> {
    let mut backlogs = BacklogFiles::new(files, tapes, directory);
    backlogs.spare(others.conf)?;
    for path in others.of_run {
        backlogs.spare(path)?;
    }
    if let Source::Funnel { path, .. } = others.source {
        backlogs.spare(path)?;
    }
    Ok(backlogs)
}

// Logs what became of a file: a warning if something of it was left out, or if it was left in place.
fn log_import<R: Log>(rt: &R, imported: &Imported) {
    let Imported {
        path,
        report,
        is_left,
    } = imported;
    if report.malformed.is_some() || report.has_rest {
        warn!(rt; "{}: {}", path, report);
    } else {
        info!(rt; "{}: {}", path, report);
    }
    if *is_left {
        warn!(rt; "{}: changed or replaced since it was read, so the next start takes it in", path);
    }
}
