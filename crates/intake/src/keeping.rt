// Keeping what no tape of the run takes.
use crate::disks::open_beside;
use crate::run_error::RunError;
use crate::tapes::LeftOut;
use disk_model::{FileDisk, TapeDirectory, TapeFile};
use feed_ends::TapeError;
use kept_lines::Keeper;
use log::{Log, warn};
use recovery::TapeFault;
use std::fs::File;
use std::rt::Files;
use std::str;

/// What keeps the lines of a run that no tape takes, in files of the backlog directory.
pub type LineKeeper = Keeper<FileDisk<TapeFile>>;

/// What keeps the lines of these peers, each in `NAME~kept` of the directory at this path, and those that name unknown
/// peers, up to `limit` octets. Logs a line for each of these peers.
///
/// # Errors
/// Memory was refused; a file cannot be opened or written.
pub fn keeper_for<R: Log, F: AllocGlobal + Files<File = File>>(
    rt: &R,
    files: &F,
    tapes: &TapeDirectory,
    directory: &str,
    left_out: &[LeftOut],
    limit: u64,
) -> Result<LineKeeper, RunError> {
    let mut keeper = Keeper::new(files.alloc(), limit);
    if limit == 0 {
        keeper.close_unknown();
    }
    for peer in left_out {
        leave_out(rt, files, tapes, directory, peer, &mut keeper)?;
    }
    Ok(keeper)
}

fn leave_out<R: Log, F: AllocGlobal + Files<File = File>>(
    rt: &R,
    files: &F,
    tapes: &TapeDirectory,
    directory: &str,
    peer: &LeftOut,
    keeper: &mut LineKeeper,
) -> Result<(), RunError> {
    let name = peer.conf.name.bytes();
    let text = str::from_utf8(name).unwrap_or("");
    let disk = open_beside(files, tapes, directory, name, "~kept")?;
    let is_durable = tapes.sync().is_ok();
    if !is_durable || keeper.leave_out(peer.conf.name.clone()?, disk).is_err() {
        return Err(RunError::tape(files.alloc(), name, TapeFault::Disk));
    }
    log_left_out(rt, directory, text, &peer.error);
    Ok(())
}

// Logs that the peer of this name is left out, for this reason.
fn log_left_out<R: Log>(rt: &R, directory: &str, text: &str, error: &RunError) {
    match error {
        RunError::Unopened { path, reason, .. } => {
            let path = str::from_utf8(path).unwrap_or("");
            warn!(
                rt; "{}: left out, its lines are kept in {}/{}~kept: cannot open {}: {}", text, directory, text, path,
                reason
            );
        }
        RunError::Tape(error) => {
            warn!(
                rt; "{}: left out, its lines are kept in {}/{}~kept: its tape cannot be read: {}", text, directory,
                text, fault_of(error)
            );
        }
        RunError::OutOfResources | RunError::File(_) => {}
    }
}

// The kind of a tape's fault.
fn fault_of(error: &TapeError) -> &'static str {
    match error {
        TapeError::Failed { fault, .. } => fault.name(),
        TapeError::Taken(_) | TapeError::Foreign(_) => "",
    }
}
