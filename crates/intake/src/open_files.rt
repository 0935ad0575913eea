// How many files a run may have open, and how many connections of a peer fit into that.
ghost use Rattle.std.specs.Prelude.{◌≡◌, ◌+◌, ◌≤◌, ◌<◌, ◌⊎◌, ◌↔◌, IsTrue, length, min};
ghost use Rattle.intake.specs.OpenFiles.{connections_at};

use feed_conf::PeerConf;
use log::{Log, warn};

// The most connections that a peer may have (`max-connections`).
const CONNECTIONS_MAX: u64 = 64;

// What a run opens besides tapes and connections: an article, and the spool's check of it, in each feeder (4), the
// polls and wakers of both (4), the funnel and its poll (2), the status file, the lock, the standard streams (3), eight
// look-ups (16), and some to spare.
const OTHER_FILES: u64 = 47;

/// How many connections each peer may have, by the process's limit of open files. A warning is logged if that is fewer
/// than the settings ask for.
pub fn most_connections<R: Log>(rt: &R, peers: &[PeerConf]) -> u64
    ensures { (1 ≤ result) × (result ≤ 64) }
{
    let Some(allowed) = allowed() else {
        return CONNECTIONS_MAX;
    };
    let tapes = (peers.len() as u64).saturating_add(1).saturating_mul(2);
    let others = tapes.saturating_add(OTHER_FILES);
    let room = allowed.saturating_sub(others);
    let wanted = peers.iter().fold(others, |sum, peer| sum.saturating_add(peer.max_connections));
    if wanted <= allowed {
        return CONNECTIONS_MAX;
    }
    warn!(rt; "open files: {} wanted, {} allowed", wanted, allowed);
    fair_share(peers, room)
}

// The process's limit of open files. None if it cannot be read.
fn allowed() -> Option<u64> {
    let mut limit = libc::types::rlimit {
        rlim_cur: 0,
        rlim_max: 0,
    };
    if libc::getrlimit(libc::RLIMIT_NOFILE, &mut limit) != 0 {
        return None;
    }
    Some(limit.rlim_cur)
}

/// How many connections each peer may have so that those of all peers fit into this room: the greatest such number,
/// and at least 1.
#[tactic(auto, using(crate::proofs::OneEach::one_each))]
pub(crate) fn fair_share(peers: &[PeerConf], room: u64) -> u64
    ensures some { (1 ≤ result) × (result ≤ 64) }
    ensures fits { length peers.now ≤ room → connections_at result peers.now ≤ room }
    ensures most { (result ≡ 64) ⊎ (room < connections_at (result + 1) peers.now) }
{
    for share in 1..CONNECTIONS_MAX {
        if !has_room(peers, share + 1, room) {
            return share;
        }
    }
    CONNECTIONS_MAX
}

// Whether the peers' connections, at most `share` each, fit into this room.
fn has_room(peers: &[PeerConf], share: u64, room: u64) -> bool
    ensures { IsTrue result ↔ (connections_at share peers.now ≤ room) }
{
    let mut left = room;
    for peer in peers {
        let count = peer.max_connections.min(share);
        if count > left {
            return false;
        }
        left -= count;
    }
    true
}
