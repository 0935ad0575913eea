// What the feeders are made of.
use crate::env::RunEnv;
use crate::places::{Places, text_of};
use crate::spool::{SpoolPaths, Spools};
use crate::targets::{hosts_of, targets_of};
use connections::{FeederParts, Outages, PeerTarget, Spool, SpoolTally, Suspects};
use feed_conf::PeerConf;
use intake::{Accounts, RunError, most_connections};
use log::Log;
use peer_counts::CountTable;
use resolver::Host;
use std::alloc::{AllocError, Global};
use std::io::{self, ErrorKind};
use std::rt::Clock;
use std::sync::Arc;
use std::time::Instant;

/// What the feeders are made of.
#[derive(Drop)]
pub struct Feeding<S> {
    /// The hosts of the peers, which are looked up for both.
    pub hosts: Vec<Host>,
    pub first: FeederParts<S>,
    pub second: FeederParts<S>,
}

// What both feeders share, and how they are to work.
#[derive(Drop)]
pub(crate) struct Shared {
    pub tally: Arc<SpoolTally>,
    pub suspects: Arc<Suspects>,
    pub outages: Arc<Outages>,
    pub counts: Option<Arc<CountTable>>,
    pub start: Instant,
    pub is_lasting: bool,
    pub drops_missing: bool,
}

impl Shared {
    /// What is shared in a run with these suspects, in which nothing was missing yet, no peer is down, and nothing was
    /// counted. `path` is the spool's; `is_watched` is whether anybody reads the counts.
    ///
    /// # Errors
    /// Memory was refused.
    pub fn new(
        alloc: Global,
        path: &str,
        suspects: Suspects,
        is_watched: bool,
        start: Instant,
        is_lasting: bool,
        drops_missing: bool,
    ) -> Result<Self, AllocError> {
        let peers = suspects.peers();
        let counts = if is_watched {
            Some(Arc::new(alloc, CountTable::new(alloc, peers)?)?)
        } else {
            None
        };
        Ok(Shared {
            tally: Arc::new(alloc, SpoolTally::new(alloc, path, peers)?)?,
            suspects: Arc::new(alloc, suspects)?,
            outages: Arc::new(alloc, Outages::new(alloc, peers)?)?,
            counts,
            start,
            is_lasting,
            drops_missing,
        })
    }

    // The parts of a feeder with this spool and these targets.
    fn parts<S: Drop>(
        &self,
        which: u8,
        spool: Spool<S>,
        targets: Vec<PeerTarget>,
    ) -> Result<FeederParts<S>, AllocError> {
        Ok(FeederParts {
            which,
            targets,
            spool,
            tally: Arc::try_clone(&self.tally)?,
            suspects: Arc::try_clone(&self.suspects)?,
            outages: Arc::try_clone(&self.outages)?,
            counts: match &self.counts {
                Some(counts) => Some(Arc::try_clone(counts)?),
                None => None,
            },
            start: self.start,
            is_lasting: self.is_lasting,
            drops_missing: self.drops_missing,
        })
    }
}

// What the feeders of these peers are made of: opens the spool for each, and makes its targets. No host is looked up.
pub(crate) fn feeding_of<R: Clock + Log, F: AllocGlobal, S: Drop, H: Spools<Store = S>, C, L>(
    env: &RunEnv<'_, R, F, H, C, L>,
    places: &Places,
    accounts: &Accounts,
    peers: &[PeerConf],
    shared: &Shared,
) -> Result<Feeding<S>, RunError> {
    let alloc = env.files.alloc();
    let paths = match places.spool.paths() {
        Ok(paths) => paths,
        Err(path) => {
            let invalid = io::Error::from(ErrorKind::InvalidInput);
            return Err(RunError::unread(env.rt, alloc, path, &invalid));
        }
    };
    let path = text_of(places.spool.path());
    let most = most_connections(env.rt, peers);
    Ok(Feeding {
        hosts: hosts_of(alloc, peers)?,
        first: parts_of(
            env,
            paths,
            path,
            targets_of(alloc, peers, most, accounts)?,
            shared,
            0,
        )?,
        second: parts_of(
            env,
            paths,
            path,
            targets_of(alloc, peers, most, accounts)?,
            shared,
            1,
        )?,
    })
}

// The parts of a feeder with these targets, and with the spool at these paths; messages name it by `path`.
fn parts_of<R, F: AllocGlobal, S: Drop, H: Spools<Store = S>, C, L>(
    env: &RunEnv<'_, R, F, H, C, L>,
    paths: SpoolPaths<'_>,
    path: &str,
    targets: Vec<PeerTarget>,
    shared: &Shared,
    which: u8,
) -> Result<FeederParts<S>, AllocError> {
    let alloc = env.files.alloc();
    let spool = Spool {
        store: env.spools.open(alloc, paths)?,
        path: String::from_str(alloc, path)?,
    };
    shared.parts(which, spool, targets)
}
