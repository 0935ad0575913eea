// The beginning of a run: the backlog directory is locked, and its tapes are opened; and the end, when it is let go.
use crate::env::RunEnv;
use crate::places::{Places, text_of};
use crate::start_and_end::log_no_login;
use crate::targets::by_name;
use acknowledged_lines::Acknowledged;
use disk_model::{FileDisk, TapeDirectory, TapeFile};
use feed_conf::{Conf, PeerConf};
use feed_ends::{FeedEnd, FileError, Source};
use flusher::PostPeer;
use intake::{
    Accounts, LeftOut, RunError, Tapes, is_followed, log_reason, log_tape_fault, open_tapes,
    read_accounts, refuse_root, remove_room,
};
use log::Log;
use recovery::Tape;
use std::fs::File;
use std::rt::{Clock, Files};

/// What is asked of a run, besides its settings.
#[derive(Clone, Copy)]
pub struct Request<'a> {
    /// The file from which the settings were read.
    pub path: &'a str,
    pub source: Source<'a>,
    /// Whether each article that is missing is dropped.
    pub drops_missing: bool,
}

/// The tapes of a run that are open.
#[derive(Drop)]
pub struct OpenTapes {
    pub(crate) confs: Vec<PeerConf>,
    pub(crate) peers: Vec<PostPeer<FileDisk<TapeFile>>>,
    pub(crate) intake: Tape<FileDisk<TapeFile>>,
    // The lines that are acknowledged, as the intake's tape was opened.
    pub(crate) acknowledged: Acknowledged,
}

/// A run whose backlog directory is locked, until this is dropped.
#[derive(Drop)]
pub struct OpenRun {
    tapes: TapeDirectory,
    pub(crate) places: Places,
    // With which peers are logged in to.
    pub(crate) accounts: Accounts,
    // The peers whose tapes are not open.
    pub(crate) left_out: Vec<LeftOut>,
}

/// The backlog directory, which is locked, and its path.
#[derive(Clone, Copy)]
pub struct Backlogs<'a> {
    pub tapes: &'a TapeDirectory,
    pub path: &'a str,
}

/// Reads the accounts of these settings, locks their backlog directory, and opens its tapes.
///
/// # Errors
/// The first thing that went wrong. If the accounts cannot be read, no tape was touched.
pub fn open_run<R: Clock + Log, F: AllocGlobal + Files<File = File>, H, C, L>(
    env: &RunEnv<'_, R, F, H, C, L>,
    conf: Conf,
    request: Request<'_>,
) -> Result<(OpenRun, OpenTapes), RunError> {
    let places = Places::of(env.files.alloc(), &conf)?;
    refuse_root(env.files, text_of(&places.directory))?;
    let accounts = accounts_in(env.rt, env.files, &places)?;
    let is_lasting = is_followed(request.source);
    if is_lasting {
        log_no_login(env.rt, request.path, &conf);
    }
    let Tapes {
        directory,
        confs,
        peers,
        left_out,
        intake,
        acknowledged,
    } = open_tapes(
        env.rt,
        env.files,
        &places.directory,
        by_name(conf),
        is_lasting,
    )?;
    let run = OpenRun {
        tapes: directory,
        places,
        accounts,
        left_out,
    };
    let opened = OpenTapes {
        confs,
        peers,
        intake,
        acknowledged,
    };
    Ok((run, opened))
}

// The accounts in the file that the settings name; none if they name none.
fn accounts_in<R: Log, F: AllocGlobal + Files<File = File>>(
    rt: &R,
    files: &F,
    places: &Places,
) -> Result<Accounts, RunError> {
    match &places.accounts {
        Some(path) => read_accounts(rt, files, path),
        None => Ok(Accounts::none(files.alloc())),
    }
}

impl OpenRun {
    /// The directory, and its path.
    pub fn backlogs(&self) -> Backlogs<'_> {
        Backlogs {
            tapes: &self.tapes,
            path: text_of(&self.places.directory),
        }
    }

    /// Ends the run, and lets go of the directory: what is wrong with its tapes or with the spool is logged, the room
    /// that was kept is removed, and the peers that were left out are added to how the run ended.
    pub fn end<R: Log, F: AllocGlobal + Files<File = File>, H, C, L>(
        self,
        env: &RunEnv<'_, R, F, H, C, L>,
        is_lasting: bool,
        end: &mut FeedEnd,
    ) {
        let directory = text_of(&self.places.directory);
        log_tape_fault(env.rt, &self.tapes, directory);
        self.log_spool_fault(env.rt, env.files, end);
        if is_lasting {
            remove_room(env.rt, env.files, &self.tapes, directory);
        }
        for peer in self.left_out {
            peer.error.add_to(end);
        }
    }

    // Logs why the directory of the articles cannot be read, if that is how the run ended, and the directory is not
    // there.
    fn log_spool_fault<R: Log, F: Files<File = File>>(&self, rt: &R, files: &F, end: &FeedEnd) {
        let spool = &self.places.spool;
        let is_unread = end.files.iter().any(|error| match error {
            FileError::Unread(path) => path.as_slice() == spool.path(),
            _ => false,
        });
        if !is_unread {
            return;
        }
        if let Err(error) = spool.look(files) {
            log_reason(rt, spool.path(), &error);
        }
    }
}
