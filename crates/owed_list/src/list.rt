// The list of what is owed.
use crate::directory::Directory;
use crate::each_article::ArticleLines;
use crate::fault::ListFault;
use crate::lister::{INTAKE, Lister};
use crate::totals::SummaryLines;
use crate::unread::log_reason;
use crate::waiting::log_strangers;
use crate::walk::list_names;
use feed_conf::PeerConf;
use feed_ends::{FeedEnd, Listing};
use log::{Log, info, warn};
use std::fs::{File, TryLockError};
use std::io::{self, ErrorKind, Write};
use std::rt::Files;
use std::str;

/// Writes a line for each debt of these peers, in their order and by rising key, as the tapes in the backlog
/// directory at this path have them. Nothing is written there, and what is missing is not created. Only one peer's
/// tape at a time is in memory, with its ledger.
///
/// With `Scope::All` there is a line for all that waits: first for each line of `~unknown`; then for each of these
/// peers, and after them for each name of a tape or of a file `NAME~kept` that no peer has, by byte order, first for
/// each line of `NAME~kept` and then for each debt. An article that a run moves from one of these files to the next
/// meanwhile is in the list, since the former is read first.
///
/// If the listing has names, only what waits for these is written, and no other tape of a peer is read.
///
/// A summary has one line for each name in place of those of its articles: for each of these peers, and with
/// `Scope::All` for each other name of which the list would have a line or that the listing has, by byte order. It says
/// how many articles wait, their octets as the status report counts them, and the number of the oldest debt of the
/// tape.
///
/// If a run works on the directory, a warning is logged: the list is as of a moment ago. What waits for names that no
/// peer has is logged, too ([`log_strangers`]), unless the listing has names. The number of the last line that is
/// acknowledged is logged at the end. It is read first, so that each debt of a line up to that number is in the list or
/// has ended.
///
/// It ends at the first error: that of the directory, which is reported for the first tape; that of another file; that
/// of a tape; that of the output; that of the intake tape.
pub fn list_owed<R: AllocGlobal + Log, F: AllocGlobal + Files<File = File>, W: Write>(
    rt: &R,
    files: &F,
    directory: &[u8],
    peers: &[PeerConf],
    listing: &Listing<'_>,
    out: &mut W,
) -> FeedEnd {
    let mut end = FeedEnd::well(rt.alloc());
    if let Err(fault) = try_list(rt, files, directory, peers, listing, out) {
        fault.add_to(&mut end);
    }
    end
}

fn try_list<R: AllocGlobal + Log, F: AllocGlobal + Files<File = File>, W: Write>(
    rt: &R,
    files: &F,
    path: &[u8],
    peers: &[PeerConf],
    listing: &Listing<'_>,
    out: &mut W,
) -> Result<(), ListFault> {
    let alloc = rt.alloc();
    let text = match look_at(rt, files, path) {
        Ok(text) => text,
        Err(error) => return Err(ListFault::directory(alloc, first_name(peers), &error)),
    };
    if listing.names.is_empty() {
        log_strangers(rt, files, path, peers, &[]);
    }
    let lister = Lister {
        rt,
        directory: Directory {
            alloc,
            files,
            path: text,
        },
        peers,
        listing,
    };
    list_after_mark(&lister, out)
}

// Writes the list. Logs then up to which line all were acknowledged before.
fn list_after_mark<R: Log, F: AllocGlobal + Files<File = File>, W: Write>(
    lister: &Lister<'_, R, F>,
    out: &mut W,
) -> Result<(), ListFault> {
    let acknowledged = mark_of(lister);
    list(lister, out)?;
    log_mark(lister.rt, acknowledged?);
    Ok(())
}

// Logs the number of the last line that is acknowledged.
fn log_mark<R: Log>(rt: &R, line: u64) {
    info!(rt; "acknowledged up to line {}", line);
}

// The number of the last line that is acknowledged.
fn mark_of<R: Log, F: AllocGlobal + Files<File = File>>(
    lister: &Lister<'_, R, F>,
) -> Result<u64, ListFault> {
    match lister.open_tape(INTAKE) {
        Ok(tape) => Ok(tape.mark()),
        Err(fault) => Err(fault),
    }
}

// Writes the list.
fn list<R: Log, F: AllocGlobal + Files<File = File>, W: Write>(
    lister: &Lister<'_, R, F>,
    out: &mut W,
) -> Result<(), ListFault> {
    let alloc = lister.directory.alloc;
    if lister.listing.is_summary {
        list_names(lister, &mut SummaryLines::new(alloc, out))?;
    } else {
        list_names(lister, &mut ArticleLines::new(alloc, out))?;
    }
    match out.flush() {
        Ok(()) => Ok(()),
        Err(error) => Err(ListFault::output(alloc, &error)),
    }
}

fn first_name(peers: &[PeerConf]) -> &[u8] {
    match peers.first() {
        Some(peer) => peer.name.bytes(),
        None => INTAKE,
    }
}

// The directory's path as text. Logs if a run works there.
fn look_at<'a, R: Log, F: Files<File = File>>(
    rt: &R,
    files: &F,
    directory: &'a [u8],
) -> io::Result<&'a str> {
    let Ok(path) = str::from_utf8(directory) else {
        return Err(ErrorKind::InvalidInput.into());
    };
    match is_locked(files, path) {
        Ok(is_locked) => {
            log_locked(rt, path, is_locked);
            Ok(path)
        }
        Err(error) => {
            log_reason(rt, "cannot open", path, &error);
            Err(error)
        }
    }
}

// Logs that a run holds the lock of the directory at this path, if one does.
fn log_locked<R: Log>(rt: &R, path: &str, is_locked: bool) {
    if is_locked {
        warn!(rt; "innfeed works on {}: the list is as of a moment ago", path);
    }
}

// Whether a run holds the lock of the directory at this path. The shared lock that is tried ends with this call.
fn is_locked<F: Files<File = File>>(files: &F, path: &str) -> io::Result<bool> {
    match File::open(files, path)?.try_lock_shared() {
        Ok(()) => Ok(false),
        Err(TryLockError::WouldBlock) => Ok(true),
        Err(TryLockError::Error(error)) => Err(error),
    }
}
