// The spool of a run: the directory of copies, or innd's own spool with the copies beside it.
ghost use Rattle.std.specs.Prelude.{IfOk};
ghost use Rattle.article_store.specs.Finds.{IsFound};

use crate::places::{copy_of, text_of};
use article_store::{Articles, Folder, Found, SpoolDirectory, StoreFault, Unsendable};
use feed_conf::Conf;
use funnel::{MsgId, Token};
use innd_spool::{BufferSync, InndSpool, has_articles};
use log::{Log, warn};
use std::alloc::{AllocError, Global};
use std::fs::{self, File};
use std::io::{self, ErrorKind};
use std::rt::Files;
use std::str;

/// Where the articles of a run are.
#[derive(Drop)]
pub(crate) struct SpoolPlaces {
    // The directory of copies.
    copies: Vec<u8>,
    // innd's spool, and its cycbuff.conf.
    innd: Option<Vec<u8>>,
    cycbuffs: Option<Vec<u8>>,
    // Whether the buffers of that list are synced before lines are acknowledged.
    is_synced: bool,
    // The directory that has to be there, of the copies or in innd's spool, and whether it has to have an entry: the
    // mount point of a file system that is not mounted has none.
    wanted: Vec<u8>,
    wants_entry: bool,
}

impl SpoolPlaces {
    /// Those of these settings.
    ///
    /// # Errors
    /// Memory was refused.
    pub fn of(alloc: Global, conf: &Conf) -> Result<Self, AllocError> {
        let copies = conf.news_spool();
        let wanted = match conf.innd_spool() {
            // (a site that has all articles in buffers has none in `articles`)
            Some(spool) if conf.innd_cycbuffs().is_some() => Vec::from_slice(alloc, spool)?,
            Some(spool) => {
                let mut path = Vec::from_slice(alloc, spool)?;
                path.extend_from_slice(b"/articles/")?;
                path
            }
            None => Vec::from_slice(alloc, copies)?,
        };
        Ok(SpoolPlaces {
            copies: Vec::from_slice(alloc, copies)?,
            innd: copy_of(alloc, conf.innd_spool())?,
            cycbuffs: copy_of(alloc, conf.innd_cycbuffs())?,
            is_synced: conf.sync_spool(),
            wanted,
            wants_entry: conf.innd_spool().is_some() && conf.innd_cycbuffs().is_none(),
        })
    }

    /// The path of the spool, for messages.
    pub fn path(&self) -> &[u8] {
        match &self.innd {
            Some(spool) => spool,
            None => &self.copies,
        }
    }

    /// Whether an article that is missing was removed by innd, whose spool this is.
    pub fn is_of_innd(&self) -> bool {
        self.innd.is_some()
    }

    /// The list of the buffers that are synced before lines are acknowledged, if they are: without innd's spool no
    /// article is read from them.
    pub fn synced(&self) -> Option<&[u8]> {
        match (&self.innd, &self.cycbuffs) {
            (Some(_), Some(cycbuffs)) if self.is_synced => Some(cycbuffs),
            _ => None,
        }
    }

    /// Looks whether the directory of the articles is there.
    ///
    /// # Errors
    /// Why it is not: the system's error; `NotADirectory` if something else is there; that it is empty, if innd's is.
    pub fn look<F: Files<File = File>>(&self, files: &F) -> io::Result<()> {
        let path = text_of(&self.wanted);
        if !fs::metadata(files, path)?.is_dir() {
            return Err(ErrorKind::NotADirectory.into());
        }
        if self.wants_entry && !has_articles(files, path)? {
            return Err(io::Error::other("it is empty"));
        }
        Ok(())
    }

    /// Logs that the directory of the articles is not there, if so, and what that means. It is looked for again with
    /// each article that is wanted.
    pub fn log_missing<R: Log, F: Files<File = File>>(&self, rt: &R, files: &F) {
        if let Err(error) = self.look(files) {
            let key = if self.is_of_innd() {
                "innd-spool"
            } else {
                "news-spool"
            };
            warn!(
                rt;
                "{} {}: {}; articles wait until it is there, and none is dropped: make or mount it",
                key, text_of(&self.wanted), error
            );
        }
    }

    /// The paths as texts; the first of them that is none, if there is one.
    ///
    /// # Errors
    /// That path.
    pub fn paths(&self) -> Result<SpoolPaths<'_>, &[u8]> {
        Ok(SpoolPaths {
            copies: as_text(&self.copies)?,
            innd: as_text_if_any(&self.innd)?,
            cycbuffs: as_text_if_any(&self.cycbuffs)?,
        })
    }
}

fn as_text(path: &[u8]) -> Result<&str, &[u8]> {
    str::from_utf8(path).map_err(|_| path)
}

fn as_text_if_any(path: &Option<Vec<u8>>) -> Result<Option<&str>, &[u8]> {
    match path {
        Some(path) => Ok(Some(as_text(path)?)),
        None => Ok(None),
    }
}

/// Where the articles of a run are, as texts.
#[derive(Clone, Copy)]
pub struct SpoolPaths<'a> {
    /// The directory of copies.
    pub copies: &'a str,
    /// innd's spool, if its articles are read there.
    pub innd: Option<&'a str>,
    /// The path of its cycbuff.conf.
    pub cycbuffs: Option<&'a str>,
}

/// Opens the store of articles, once for each feeder.
pub trait Spools {
    /// A store of articles.
    type Store;

    /// The articles at these paths.
    ///
    /// # Errors
    /// Memory was refused.
    fn open(&self, alloc: Global, paths: SpoolPaths<'_>) -> Result<Self::Store, AllocError>;

    /// What syncs the buffers of the list at this path.
    ///
    /// # Errors
    /// Memory was refused.
    fn sync(&self, alloc: Global, cycbuffs: &str) -> Result<BufferSync<HostRuntime>, AllocError>;
}

/// Opens stores of the system's files.
#[derive(Drop)]
pub struct HostSpools {
    pub host: HostRuntime,
}

impl Spools for HostSpools {
    type Store = HostSpool;

    fn open(&self, alloc: Global, paths: SpoolPaths<'_>) -> Result<HostSpool, AllocError> {
        match paths.innd {
            None => Ok(HostSpool::Copies(Folder::new(self.host, alloc, paths.copies)?)),
            Some(spool) => Ok(HostSpool::Innd(InndSpool::new(
                self.host,
                alloc,
                spool,
                paths.cycbuffs,
                paths.copies,
            )?)),
        }
    }

    fn sync(&self, alloc: Global, cycbuffs: &str) -> Result<BufferSync<HostRuntime>, AllocError> {
        BufferSync::new(self.host, alloc, cycbuffs)
    }
}

/// The system's files in which articles are.
#[derive(Drop)]
pub enum HostSpool {
    /// A directory of copies alone.
    Copies(Folder<HostRuntime>),
    /// innd's own spool, and the copies.
    Innd(InndSpool<HostRuntime>),
}

impl Articles for HostSpool {
    fn fetch(&mut self, token: &Token) -> Result<Found, StoreFault>
        ensures sendable { IfOk result IsFound }
    {
        match self {
            HostSpool::Copies(folder) => folder.fetch(token),
            HostSpool::Innd(spool) => spool.fetch(token),
        }
    }
}

impl SpoolDirectory for HostSpool {
    fn fetch_for(&mut self, token: &Token, id: &MsgId) -> Result<Found, StoreFault>
        ensures sendable { IfOk result IsFound }
    {
        match self {
            HostSpool::Copies(folder) => folder.fetch_for(token, id),
            HostSpool::Innd(spool) => spool.fetch_for(token, id),
        }
    }

    fn is_there(&self) -> bool {
        match self {
            HostSpool::Copies(folder) => folder.is_there(),
            HostSpool::Innd(spool) => spool.is_there(),
        }
    }

    fn take_reason(&mut self) -> Option<io::Error> {
        match self {
            HostSpool::Copies(folder) => folder.take_reason(),
            HostSpool::Innd(spool) => spool.take_reason(),
        }
    }

    fn take_cause(&mut self) -> Option<Unsendable> {
        match self {
            HostSpool::Copies(folder) => folder.take_cause(),
            HostSpool::Innd(spool) => spool.take_cause(),
        }
    }
}
