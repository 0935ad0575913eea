// What the settings say besides the peers.
use crate::spool::SpoolPlaces;
use feed_conf::Conf;
use std::alloc::{AllocError, Global};
use std::str;

// What the settings say besides the peers.
#[derive(Drop)]
pub(crate) struct Places {
    pub directory: Vec<u8>,
    pub spool: SpoolPlaces,
    pub status: Vec<u8>,
    // The files that show each peer while a run goes on, if they are wanted, and every how many seconds.
    pub json: Option<Vec<u8>>,
    pub metrics: Option<Vec<u8>>,
    pub status_period: u64,
    // The file of accounts.
    pub accounts: Option<Vec<u8>>,
    // The most octets that are kept of lines that name unknown peers.
    pub unknown_limit: u64,
}

impl Places {
    /// Those of these settings.
    ///
    /// # Errors
    /// Memory was refused.
    pub fn of(alloc: Global, conf: &Conf) -> Result<Places, AllocError> {
        Ok(Places {
            directory: Vec::from_slice(alloc, conf.backlog_directory())?,
            spool: SpoolPlaces::of(alloc, conf)?,
            status: Vec::from_slice(alloc, conf.status_file())?,
            json: copy_of(alloc, conf.status_json())?,
            metrics: copy_of(alloc, conf.metrics_file())?,
            status_period: conf.status_period(),
            accounts: copy_of(alloc, conf.authinfo_file())?,
            unknown_limit: conf.unknown_limit(),
        })
    }
}

/// A copy of a path, if there is one.
///
/// # Errors
/// Memory was refused.
pub(crate) fn copy_of(alloc: Global, path: Option<&[u8]>) -> Result<Option<Vec<u8>>, AllocError> {
    match path {
        Some(path) => Ok(Some(Vec::from_slice(alloc, path)?)),
        None => Ok(None),
    }
}

/// A path that may be there, as text; empty if it is not.
pub(crate) fn text_if_any(path: &Option<Vec<u8>>) -> &str {
    match path {
        Some(path) => text_of(path),
        None => "",
    }
}

/// A path, as text.
pub(crate) fn text_of(path: &[u8]) -> &str {
    str::from_utf8(path).unwrap_or("")
}
