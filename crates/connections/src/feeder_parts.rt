// What a feeder is made of.
use crate::outages::Outages;
use crate::spool::Spool;
use crate::spool_tally::SpoolTally;
use crate::suspects::Suspects;
use crate::target::PeerTarget;
use peer_counts::CountTable;
use std::sync::Arc;
use std::time::Instant;

/// What a feeder is made of, besides the system's sockets, a resolver and its share of what is counted.
#[derive(Drop)]
pub struct FeederParts<S> {
    /// The first feeder (0) or the second (1): it has connection k of each peer if k mod 2 is this number.
    pub which: u8,
    pub targets: Vec<PeerTarget>,
    pub spool: Spool<S>,
    /// What it shares with the other feeder about the spool.
    pub tally: Arc<SpoolTally>,
    /// What it shares with the other feeder about suspects.
    pub suspects: Arc<Suspects>,
    /// What it shares with the other feeder about peers that are down.
    pub outages: Arc<Outages>,
    /// Where both feeders publish what they have counted, each second and at the end, if anybody reads that.
    pub counts: Option<Arc<CountTable>>,
    /// The time 0 of all threads.
    pub start: Instant,
    /// Whether the run goes on until it is asked to end. Then connections that have held nothing for a minute are left,
    /// it is no failure if a peer closes one that has held nothing for some seconds, and no peer is given up if the
    /// spool is missing.
    pub is_lasting: bool,
    /// Whether each article that is missing is dropped. If not, one whose token is one of INN's storage API is put off
    /// until an article of the run was found.
    pub drops_missing: bool,
}
