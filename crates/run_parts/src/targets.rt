// Where each peer is and how it is fed.
ghost use Rattle.std.specs.Prelude.{◌≡◌, IfOk, min};
ghost use Rattle.run_parts.specs.Targets.{AreHosts, AreTargetsFrom, IsHostOf, IsTargetOf};

use conn_core::Options;
use connections::PeerTarget;
use feed_conf::{Conf, PeerConf};
use intake::{Accounts, account_of};
use resolver::Host;
use std::alloc::{AllocError, Global};
use std::str;

/// The peers of these settings, in byte order of their names.
pub fn by_name(conf: Conf) -> Vec<PeerConf> {
    let mut peers = conf.into_peers();
    peers.sort_unstable_by(|a, b| a.name.bytes().cmp(b.name.bytes()));
    peers
}

/// The hosts of these peers, in their order.
///
/// # Errors
/// Memory was refused.
pub(crate) fn hosts_of(alloc: Global, peers: &[PeerConf]) -> Result<Vec<Host>, AllocError>
    ensures { IfOk result (λ hosts. AreHosts peers.now hosts.items) }
{
    let mut hosts = Vec::new(alloc);
    for peer in peers {
        hosts.push(host_of(alloc, peer)?)?;
    }
    Ok(hosts)
}

// A peer's host. A host name that is not text becomes empty, and is not found.
fn host_of(alloc: Global, peer: &PeerConf) -> Result<Host, AllocError>
    ensures { IfOk result (IsHostOf peer.now) }
{
    let name = match str::from_utf8(&peer.ip_name) {
        Ok(name) => name,
        Err(_) => "",
    };
    Ok(Host {
        name: String::from_str(alloc, name)?,
        port: port_of(peer),
    })
}

fn port_of(peer: &PeerConf) -> u16
    ensures { result ≡ min peer.now.port 65535 }
{
    peer.port.min(65_535) as u16
}

/// The targets of these peers, in their order, if a peer may have `most` connections, with their accounts.
///
/// # Errors
/// Memory was refused.
pub(crate) fn targets_of(
    alloc: Global,
    peers: &[PeerConf],
    most: u64,
    accounts: &Accounts,
) -> Result<Vec<PeerTarget>, AllocError>
    ensures { IfOk result (λ targets. AreTargetsFrom most accounts.now 0 peers.now targets.items) }
{
    let mut targets = Vec::new(alloc);
    for (index, peer) in peers.iter().enumerate() {
        targets.push(target_of(alloc, index, peer, most, accounts)?)?;
    }
    Ok(targets)
}

// The target of the peer with these settings, whose station has this index. No address is known yet.
fn target_of(
    alloc: Global,
    index: usize,
    peer: &PeerConf,
    most: u64,
    accounts: &Accounts,
) -> Result<PeerTarget, AllocError>
    ensures { IfOk result (IsTargetOf most accounts.now index peer.now) }
{
    Ok(PeerTarget {
        peer: index,
        name: peer.name.clone()?,
        addresses: Vec::new(alloc),
        account: account_of(alloc, accounts, peer)?,
        options: Options {
            streaming: peer.streaming,
            max_queue: peer.max_queue,
            check_high: peer.check_high,
            check_low: peer.check_low,
            check_filter: peer.check_filter,
            response_timeout: peer.response_timeout,
        },
        connections: peer.max_connections.min(most),
        first_wait: peer.first_wait,
        most_wait: peer.most_wait,
    })
}
