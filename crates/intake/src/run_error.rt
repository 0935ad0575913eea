// What goes wrong in a run.
ghost use Rattle.std.specs.Prelude.{◌≡◌};
ghost use Rattle.intake.specs.Errors.{Adds, AddsAll, AddsFiles, AddsTape, AddsTapes};
ghost use Rattle.intake.specs.Errors.{IsErrorOf, IsTapeError, IsUnread, failed_tape, tape_fault_of};
ghost use Rattle.intake.specs.declared.run_error.RunError.TheVariants.{OutOfResources};

use backlog_files::BacklogFault;
use feed_ends::{FeedEnd, FileError, TapeError};
use flusher::PostFault;
use funnel::PeerName;
use funnel_files::FunnelFault;
use ledger_core::LedgerFault;
use log::{Log, warn};
use peer_queue::StationFault;
use recovery::TapeFault;
use std::alloc::{AllocError, AllocFailed, Global};
use std::io::{self, ErrorKind};
use std::str;

/// The name of the intake tape.
pub(crate) const INTAKE: &[u8] = b"~intake";

/// What goes wrong in a run.
#[derive(Drop)]
pub enum RunError {
    /// Memory, a thread or another resource of the system was refused.
    OutOfResources,
    /// Something is wrong with a tape.
    Tape(TapeError),
    /// A file of the tape of this name could not be opened at this path, for the system's reason.
    Unopened {
        name: Vec<u8>,
        path: Vec<u8>,
        reason: io::Error,
    },
    /// Something is wrong with another file.
    File(FileError),
}

impl From<AllocError> for RunError {
    ghost from_gives = { λ _ error. error ≡ OutOfResources };

    fn from(_: AllocError) -> Self {
        RunError::OutOfResources
    }
}

impl<T: Drop> From<AllocFailed<T>> for RunError {
    ghost from_gives = { λ _ error. error ≡ OutOfResources };

    fn from(_: AllocFailed<T>) -> Self {
        RunError::OutOfResources
    }
}

impl RunError {
    /// The fault of the tape of this name.
    pub(crate) fn tape(alloc: Global, name: &[u8], fault: TapeFault) -> Self
        ensures { IsTapeError name.now fault result }
    {
        if fault == TapeFault::NoMemory {
            return RunError::OutOfResources;
        }
        match Vec::from_slice(alloc, name) {
            Ok(name) => RunError::Tape(TapeError::Failed { name, fault }),
            Err(_) => RunError::OutOfResources,
        }
    }

    /// The file at this path, of this tape, could not be opened.
    pub(crate) fn unopened(alloc: Global, name: &[u8], path: &[u8], reason: io::Error) -> Self {
        let Some(path) = path_of(alloc, path, &reason) else {
            return RunError::OutOfResources;
        };
        match Vec::from_slice(alloc, name) {
            Ok(name) => RunError::Unopened { name, path, reason },
            Err(_) => RunError::OutOfResources,
        }
    }

    /// The file at this path could not be read. Logs the reason.
    pub fn unread<R: Log>(rt: &R, alloc: Global, path: &[u8], error: &io::Error) -> Self
        ensures { IsUnread path.now error.now result }
    {
        log_reason(rt, path, error);
        match error.kind() {
            ErrorKind::OutOfMemory => RunError::OutOfResources,
            _ => match Vec::from_slice(alloc, path) {
                Ok(path) => RunError::File(FileError::Unread(path)),
                Err(_) => RunError::OutOfResources,
            },
        }
    }

    /// The funnel at this path could not be read on, or a segment of it could not be removed. Logs the reason.
    pub(crate) fn funnel<R: Log>(rt: &R, alloc: Global, path: &[u8], fault: FunnelFault) -> Self {
        let fault = match fault {
            FunnelFault::Unremoved { path, reason } => {
                return RunError::unremoved(rt, alloc, path.as_bytes(), &reason);
            }
            fault => fault,
        };
        log_funnel_fault(rt, path, &fault);
        match (fault.is_no_memory(), Vec::from_slice(alloc, path)) {
            (true, _) | (_, Err(_)) => RunError::OutOfResources,
            (false, Ok(path)) => RunError::File(FileError::Unread(path)),
        }
    }

    /// The file at this path could not be written.
    pub(crate) fn unwritten(alloc: Global, path: &[u8], error: &io::Error) -> Self {
        match path_of(alloc, path, error) {
            Some(path) => RunError::File(FileError::Unwritten(path)),
            None => RunError::OutOfResources,
        }
    }

    /// The file at this path could not be removed. Logs the reason.
    pub(crate) fn unremoved<R: Log>(rt: &R, alloc: Global, path: &[u8], error: &io::Error) -> Self {
        log_reason(rt, path, error);
        match path_of(alloc, path, error) {
            Some(path) => RunError::File(FileError::Unremoved(path)),
            None => RunError::OutOfResources,
        }
    }

    /// The backlog file of the peer of this name could not be imported or removed. Logs the system's reason.
    pub(crate) fn backlog<R: Log>(rt: &R, alloc: Global, name: &[u8], fault: BacklogFault) -> Self {
        match fault {
            BacklogFault::Unread { path, reason } => {
                RunError::unread(rt, alloc, path.as_bytes(), &reason)
            }
            BacklogFault::Unremoved { path, reason } => {
                RunError::unremoved(rt, alloc, path.as_bytes(), &reason)
            }
            BacklogFault::Station(fault) => RunError::tape(alloc, name, tape_fault(fault)),
            BacklogFault::NoMemory => RunError::OutOfResources,
        }
    }

    /// The system refused what a run can't do without. Logs the reason, unless that is want of memory.
    pub fn refused<R: Log>(rt: &R, what: &str, reason: &io::Error) -> Self
        ensures { result ≡ OutOfResources }
    {
        if reason.kind() != ErrorKind::OutOfMemory {
            warn!(rt; "cannot {}: {}", what, reason);
        }
        RunError::OutOfResources
    }

    /// Standard output could not be written.
    pub(crate) fn output(alloc: Global, error: &io::Error) -> Self {
        match (error.kind(), error.to_string(alloc)) {
            (ErrorKind::OutOfMemory, _) | (_, Err(_)) => RunError::OutOfResources,
            (_, Ok(reason)) => RunError::File(FileError::Output(reason)),
        }
    }

    /// The fault of a call of the post, whose peers have these names, in their order.
    pub fn post(alloc: Global, names: &[PeerName], fault: PostFault) -> Self
        ensures { IsErrorOf (failed_tape names.now fault) result }
    {
        match fault {
            PostFault::Station { peer, fault } => match names.get(peer) {
                Some(name) => RunError::tape(alloc, name.bytes(), tape_fault(fault)),
                None => RunError::OutOfResources,
            },
            PostFault::Intake(fault) => RunError::tape(alloc, INTAKE, fault),
            PostFault::CountFull => {
                RunError::tape(alloc, INTAKE, TapeFault::Note(LedgerFault::CountFull))
            }
            PostFault::Stranger { peer } => match names.get(peer) {
                Some(name) => RunError::tape(alloc, name.bytes(), TapeFault::Broken),
                None => RunError::OutOfResources,
            },
            PostFault::Busy { .. } | PostFault::NoMemory => RunError::OutOfResources,
        }
    }

    /// Logs why a tape's file could not be opened, if that is the error.
    pub fn log_unopened<R: Log>(&self, rt: &R) {
        if let RunError::Unopened { path, reason, .. } = self {
            log_reason(rt, path, reason);
        }
    }

    /// Adds it to how a run ended. Only the first error of tapes is reported: later ones follow from it.
    pub fn add_to(self, end: &mut FeedEnd)
        ensures { Adds self end.old end.new }
    {
        match self {
            RunError::OutOfResources => end.lacks_resources = true,
            RunError::Tape(error) => add_tape(error, end),
            RunError::Unopened { name, .. } => {
                let fault = TapeFault::Disk;
                add_tape(TapeError::Failed { name, fault }, end);
            }
            RunError::File(error) => {
                let added = end.files.push(error);
                end.lacks_resources |= added.is_err();
            }
        }
    }
}

fn add_tape(error: TapeError, end: &mut FeedEnd)
    ensures { AddsTape error end.old end.new }
{
    if end.tapes.is_empty() {
        let added = end.tapes.push(error);
        end.lacks_resources |= added.is_err();
    }
}

/// Logs why the system refused a call on the file at this path, unless that is want of memory. What is wrong with the
/// file is reported at the end of the run.
pub fn log_reason<R: Log>(rt: &R, path: &[u8], reason: &io::Error) {
    if reason.kind() != ErrorKind::OutOfMemory {
        warn!(rt; "{}: {}", text_of(path), reason);
    }
}

// Logs why the funnel at this path cannot be read, unless that is want of memory.
fn log_funnel_fault<R: Log>(rt: &R, path: &[u8], fault: &FunnelFault) {
    match fault {
        FunnelFault::FewLines(few) => warn!(rt; "{} {}", text_of(path), few),
        fault if fault.is_no_memory() => {}
        fault => warn!(rt; "{}: {}", text_of(path), fault),
    }
}

// The path of the file to which this happened; None if memory was refused.
fn path_of(alloc: Global, path: &[u8], error: &io::Error) -> Option<Vec<u8>> {
    match error.kind() {
        ErrorKind::OutOfMemory => None,
        _ => Vec::from_slice(alloc, path).ok(),
    }
}

// A path, as text.
fn text_of(path: &[u8]) -> &str {
    str::from_utf8(path).unwrap_or("")
}

/// Adds all errors of one part of a run to how the run ended.
pub fn add_all(part: FeedEnd, end: &mut FeedEnd)
    ensures { AddsAll part end.old end.new }
{
    let FeedEnd {
        tapes,
        files,
        lacks_resources,
        ..
    } = part;
    add_tapes(tapes, end);
    add_files(files, end);
    if lacks_resources {
        end.lacks_resources = true;
    }
}

fn add_tapes(errors: Vec<TapeError>, end: &mut FeedEnd)
    ensures { AddsTapes errors.items end.old end.new }
{
    for error in errors {
        RunError::Tape(error).add_to(end);
    }
}

fn add_files(errors: Vec<FileError>, end: &mut FeedEnd)
    ensures { AddsFiles errors.items end.old end.new }
{
    for error in errors {
        RunError::File(error).add_to(end);
    }
}

/// Whether this fault is a tape's. Then no line is taken any more, and the other peers' debts are worked off. Any other
/// fault stops the run.
pub(crate) fn is_lost_tape(fault: &PostFault) -> bool {
    match fault {
        PostFault::Station { fault, .. } => match fault {
            StationFault::Broken => true,
            StationFault::Tape(fault) => !matches!(fault, TapeFault::NoMemory),
            StationFault::NotHeld | StationFault::NoMemory => false,
        },
        PostFault::Intake(fault) => !matches!(fault, TapeFault::NoMemory),
        _ => false,
    }
}

// The fault of a station's tape that is reported for a station's fault.
fn tape_fault(fault: StationFault) -> TapeFault
    ensures { result ≡ tape_fault_of fault }
{
    match fault {
        StationFault::Tape(fault) => fault,
        StationFault::Broken | StationFault::NotHeld => TapeFault::Broken,
        StationFault::NoMemory => TapeFault::NoMemory,
    }
}
