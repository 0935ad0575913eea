// What is logged of the files of strangers.
use crate::directory::Directory;
use crate::kept::{CountedAlone, KeptFault, take_articles};
use crate::lines::{Owed, waiting_line};
use crate::strangers::{FIRST_FILE, KEPT_FILE};
use crate::unread::UnreadTape;
use feed_conf::PeerConf;
use funnel::PeerName;
use log::{Log, warn};
use std::collections::BTreeSet;
use std::fmt::Display;
use std::fs::File;
use std::rt::Files;
use std::str;

/// Logs, as a warning, each tape in the backlog directory at this path that is of no peer of the settings, by byte
/// order of the names: how many articles wait there, unless none does, or why it cannot be read; and each file
/// `NAME~kept` of no peer likewise. The peers of the settings are these, and those of these other names. Nothing is
/// written there. It takes as long as these tapes take to be read.
pub fn log_strangers<R: AllocGlobal + Log, F: AllocGlobal + Files<File = File>>(
    rt: &R,
    files: &F,
    directory: &[u8],
    peers: &[PeerConf],
    others: &[PeerName],
) {
    let Ok(path) = str::from_utf8(directory) else {
        return;
    };
    let directory = Directory {
        alloc: rt.alloc(),
        files,
        path,
    };
    match directory.strangers(peers) {
        Ok(names) => log_names(rt, &directory, &names, others),
        Err(error) =>
            warn!(rt; "cannot read {}, so tapes without a peer are not reported: {}", path, error),
    }
}

// Logs what waits for each of these names, unless it is one of the others.
fn log_names<R: Log, F: AllocGlobal + Files<File = File>>(
    rt: &R,
    directory: &Directory<'_, F>,
    names: &BTreeSet<Vec<u8>>,
    others: &[PeerName],
) {
    for name in names {
        if !is_among(others, name) {
            log_tape(rt, directory, name);
            log_kept(rt, directory, name);
        }
    }
}

fn is_among(names: &[PeerName], name: &[u8]) -> bool {
    names.iter().any(|one| one.bytes() == name)
}

fn log_tape<R: Log, F: AllocGlobal + Files<File = File>>(
    rt: &R,
    directory: &Directory<'_, F>,
    name: &[u8],
) {
    match count_debts(directory, name) {
        Ok(count) => log_waiting(rt, directory, name, FIRST_FILE, count),
        Err(unread) => log_unread(rt, name, FIRST_FILE, &unread),
    }
}

// How many debts the tape of this name has.
fn count_debts<F: AllocGlobal + Files<File = File>>(
    directory: &Directory<'_, F>,
    name: &[u8],
) -> Result<u64, UnreadTape> {
    let tape = directory.open_tape(name)?;
    Ok(tape.totals().owed)
}

fn log_kept<R: Log, F: AllocGlobal + Files<File = File>>(
    rt: &R,
    directory: &Directory<'_, F>,
    name: &[u8],
) {
    let Ok(path) = directory.path_of(name, KEPT_FILE) else {
        return;
    };
    let (alloc, files) = (directory.alloc, directory.files);
    match take_articles(
        alloc,
        files,
        &path,
        Owed::Kept(name),
        &[],
        &mut CountedAlone,
    ) {
        Ok(counts) => log_waiting(rt, directory, name, KEPT_FILE, counts.listed),
        Err(KeptFault::Unread(unread)) => log_unread(rt, name, KEPT_FILE, &unread.reason),
        Err(_) => {}
    }
}

// Logs how many articles wait in the file of this ending, if some do.
fn log_waiting<R: Log, F>(
    rt: &R,
    directory: &Directory<'_, F>,
    name: &[u8],
    ending: &str,
    count: u64,
) {
    if count == 0 {
        return;
    }
    if let Ok(line) = waiting_line(directory.alloc, name, ending.as_bytes(), count) {
        warn!(rt; "{}", str::from_utf8(&line).unwrap_or(""));
    }
}

fn log_unread<R: Log, D: Display>(rt: &R, name: &[u8], ending: &str, reason: &D) {
    // A name is text.
    let name = str::from_utf8(name).unwrap_or("");
    warn!(rt; "{}{}: no such peer; cannot be read: {}", name, ending, reason);
}
