// What a list reads: the tapes and the files of the names that it has.
use crate::directory::{Directory, ReadTape};
use crate::fault::ListFault;
use crate::kept::{KeptFault, LineCounts, TakesArticles, take_articles};
use crate::lines::Owed;
use crate::strangers::KEPT_FILE;
use crate::unread::log_reason;
use crate::wanted::is_wanted;
use feed_conf::PeerConf;
use feed_ends::{Listing, Scope};
use log::{Log, warn};
use std::collections::BTreeSet;
use std::fs::File;
use std::io;
use std::rt::Files;

/// The name of the intake's tape.
pub(crate) const INTAKE: &[u8] = b"~intake";

const UNKNOWN: &str = "~unknown";

/// What a list is made of: the log, the backlog directory, the peers of the settings, and what the list is to have.
#[derive(Drop)]
pub(crate) struct Lister<'a, R, F> {
    pub rt: &'a R,
    pub directory: Directory<'a, F>,
    pub peers: &'a [PeerConf],
    pub listing: &'a Listing<'a>,
}

impl<R: Log, F: AllocGlobal + Files<File = File>> Lister<'_, R, F> {
    /// Whether the list has what waits for this name.
    pub fn has(&self, name: &[u8]) -> bool {
        is_wanted(&self.listing.names, name)
    }

    /// Whether this name is a peer's.
    pub fn is_peer(&self, name: &[u8]) -> bool {
        self.peers.iter().any(|peer| peer.name.bytes() == name)
    }

    /// The names of files in the directory that no peer has. Logs the system's reason if it cannot be read.
    ///
    /// # Errors
    /// The directory cannot be read; memory was refused.
    pub fn strangers(&self) -> Result<BTreeSet<Vec<u8>>, ListFault> {
        match self.directory.strangers(self.peers) {
            Ok(names) => Ok(names),
            Err(error) => Err(self.unread_directory(&error)),
        }
    }

    // The directory cannot be read, for this reason, which is logged.
    fn unread_directory(&self, error: &io::Error) -> ListFault {
        let path = self.directory.path;
        log_reason(self.rt, "cannot read", path, error);
        ListFault::unread(self.directory.alloc, path.as_bytes(), error)
    }

    /// Hands on the articles of `~unknown` that the list has.
    ///
    /// # Errors
    /// The file cannot be read; the list cannot be written; memory was refused.
    pub fn take_unknown<T: TakesArticles>(&self, taker: &mut T) -> Result<(), ListFault> {
        let path = self.directory.path_of(b"", UNKNOWN)?;
        self.take_file(&path, Owed::Unknown, taker)
    }

    /// Hands on the articles of this name's file `NAME~kept`, if the list has all that waits.
    ///
    /// # Errors
    /// The file cannot be read; the list cannot be written; memory was refused.
    pub fn take_kept<T: TakesArticles>(&self, name: &[u8], taker: &mut T) -> Result<(), ListFault> {
        if self.listing.scope == Scope::Peers {
            return Ok(());
        }
        let path = self.directory.path_of(name, KEPT_FILE)?;
        self.take_file(&path, Owed::Kept(name), taker)
    }

    // Hands on the articles of the file at this path, if it is there. Logs how many lines are left out.
    fn take_file<T: TakesArticles>(
        &self,
        path: &str,
        owed: Owed<'_>,
        taker: &mut T,
    ) -> Result<(), ListFault> {
        let alloc = self.directory.alloc;
        let names = &self.listing.names;
        match take_articles(alloc, self.directory.files, path, owed, names, taker) {
            Ok(counts) => {
                log_malformed(self.rt, path, counts);
                Ok(())
            }
            Err(KeptFault::NoMemory) => Err(ListFault::NoMemory),
            Err(KeptFault::Output(error)) => Err(ListFault::output(alloc, &error)),
            Err(KeptFault::Unread(unread)) => {
                unread.log(self.rt);
                Err(ListFault::unread(alloc, path.as_bytes(), &unread.reason))
            }
        }
    }

    /// Opens the tape of this name from what was read of its files. Logs the system's reason if that fails.
    ///
    /// # Errors
    /// What is wrong with the tape; memory was refused.
    pub fn open_tape(&self, name: &[u8]) -> Result<ReadTape, ListFault> {
        match self.directory.open_tape(name) {
            Ok(tape) => Ok(tape),
            Err(unread) => {
                unread.log(self.rt);
                Err(ListFault::unread_tape(self.directory.alloc, name, &unread))
            }
        }
    }
}

fn log_malformed<R: Log>(rt: &R, path: &str, counts: LineCounts) {
    let lines = match counts.malformed {
        0 => return,
        1 => "line is",
        _ => "lines are",
    };
    warn!(rt; "{}: {} malformed {} not listed", path, counts.malformed, lines);
}
