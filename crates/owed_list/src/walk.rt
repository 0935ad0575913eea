// The names that a list has, one after another.
use crate::directory::ReadTape;
use crate::fault::ListFault;
use crate::kept::TakesArticles;
use crate::lister::Lister;
use crate::strangers::add_name;
use feed_ends::Scope;
use funnel::{Form, PeerNameForm};
use log::Log;
use std::alloc::AllocError;
use std::collections::BTreeSet;
use std::fs::File;
use std::rt::Files;

/// What a list has of each name: of the articles that wait beside its tape, and of its tape.
pub(crate) trait ListsNames: TakesArticles {
    /// Adds the names for which articles were taken, and which were not listed since.
    ///
    /// # Errors
    /// Memory was refused.
    fn add_left(&self, names: &mut BTreeSet<Vec<u8>>) -> Result<(), AllocError>;

    /// Writes what is owed to this name by this tape.
    ///
    /// # Errors
    /// Something is wrong with the tape; the list cannot be written; memory was refused.
    fn list_tape(&mut self, name: &[u8], tape: &mut ReadTape) -> Result<(), ListFault>;
}

/// Lists what waits for the names that the list has: for the peers, and with `Scope::All` then for each other name.
///
/// # Errors
/// The first one.
pub(crate) fn list_names<R: Log, F: AllocGlobal + Files<File = File>, L: ListsNames>(
    lister: &Lister<'_, R, F>,
    list: &mut L,
) -> Result<(), ListFault> {
    match lister.listing.scope {
        Scope::Peers => list_peers(lister, list),
        Scope::All => list_all(lister, list),
    }
}

// Lists what waits for each peer, and then for each other name.
fn list_all<R: Log, F: AllocGlobal + Files<File = File>, L: ListsNames>(
    lister: &Lister<'_, R, F>,
    list: &mut L,
) -> Result<(), ListFault> {
    let mut others = lister.strangers()?;
    lister.take_unknown(list)?;
    list_peers(lister, list)?;
    add_further(lister, list, &mut others)?;
    list_others(lister, list, &others)
}

// Lists what waits for each peer.
fn list_peers<R: Log, F: AllocGlobal + Files<File = File>, L: ListsNames>(
    lister: &Lister<'_, R, F>,
    list: &mut L,
) -> Result<(), ListFault> {
    for peer in lister.peers {
        list_name(lister, peer.name.bytes(), list)?;
    }
    Ok(())
}

// Lists what waits for each of these names.
fn list_others<R: Log, F: AllocGlobal + Files<File = File>, L: ListsNames>(
    lister: &Lister<'_, R, F>,
    list: &mut L,
    names: &BTreeSet<Vec<u8>>,
) -> Result<(), ListFault> {
    for name in names {
        list_name(lister, name, list)?;
    }
    Ok(())
}

// Adds the further names of a summary: those in `~unknown` that are no peers', and those that it is restricted to.
fn add_further<R: Log, F: AllocGlobal + Files<File = File>, L: ListsNames>(
    lister: &Lister<'_, R, F>,
    list: &L,
    others: &mut BTreeSet<Vec<u8>>,
) -> Result<(), AllocError> {
    if !lister.listing.is_summary {
        return Ok(());
    }
    list.add_left(others)?;
    add_given(lister, others)
}

// Adds the names that the list is restricted to and that no peer has.
fn add_given<R: Log, F: AllocGlobal + Files<File = File>>(
    lister: &Lister<'_, R, F>,
    others: &mut BTreeSet<Vec<u8>>,
) -> Result<(), AllocError> {
    for name in &lister.listing.names {
        let name = name.as_bytes();
        if PeerNameForm::holds(name) && !lister.is_peer(name) {
            add_name(lister.directory.alloc, others, name)?;
        }
    }
    Ok(())
}

// Lists what waits for this name, if the list has it.
fn list_name<R: Log, F: AllocGlobal + Files<File = File>, L: ListsNames>(
    lister: &Lister<'_, R, F>,
    name: &[u8],
    list: &mut L,
) -> Result<(), ListFault> {
    if !lister.has(name) {
        return Ok(());
    }
    lister.take_kept(name, list)?;
    list_tape(lister, name, list)
}

// Lists what is owed to this name by its tape.
fn list_tape<R: Log, F: AllocGlobal + Files<File = File>, L: ListsNames>(
    lister: &Lister<'_, R, F>,
    name: &[u8],
    list: &mut L,
) -> Result<(), ListFault> {
    match lister.open_tape(name) {
        Ok(mut tape) => list.list_tape(name, &mut tape),
        Err(fault) => Err(fault),
    }
}
