// Configurations, their faults and their values: the crate feed_conf.
use crate::fault::RowFault;
use crate::octets::{put, put_printed};
use feed_conf::{Conf, PeerConf, read_conf};
use funnel::PeerName;
use std::alloc::{AllocError, Global};

// The settings of an argument that has no fault.
fn conf_in(alloc: Global, text: &[u8]) -> Result<Conf, RowFault> {
    match read_conf(alloc, text) {
        Ok(conf) => Ok(conf),
        Err(_) => Err(RowFault::Argument(1, "a configuration without a fault")),
    }
}

/// The numbers of the peer of this name: its port, whether it streams (1), the most connections, the most articles of
/// a connection; the share at which CHECK is left out, the share below which it is sent again, over how many answers;
/// how long to wait for an answer, the first wait and the longest; whether deferred articles are dropped (1); the
/// limit and the high water of its backlog. Nothing if no such peer is declared.
pub fn put_numbers(answer: &mut Vec<u8>, text: &[u8], name: &[u8]) -> Result<(), RowFault> {
    let alloc = *answer.allocator();
    let conf = conf_in(alloc, text)?;
    let no_name = RowFault::Argument(2, "the name of a peer");
    let name = PeerName::read(alloc, name)?.ok_or(no_name)?;
    if let Some(peer) = conf.peer(&name) {
        put_numbers_of(answer, peer)?;
    }
    Ok(())
}

fn put_numbers_of(answer: &mut Vec<u8>, peer: &PeerConf) -> Result<(), AllocError> {
    let numbers = [
        peer.port,
        u64::from(peer.streaming),
        peer.max_connections,
        peer.max_queue,
        peer.check_high,
        peer.check_low,
        peer.check_filter,
        peer.response_timeout,
        peer.first_wait,
        peer.most_wait,
        u64::from(peer.drop_deferred),
        peer.backlog_limit,
        peer.backlog_high,
    ];
    for number in numbers {
        put_printed(answer, &number)?;
    }
    Ok(())
}

/// The texts of a configuration, the name and host of each of its peers, and each use that was ignored or limited,
/// with its line and its key.
pub fn put_settings(answer: &mut Vec<u8>, text: &[u8]) -> Result<(), RowFault> {
    let conf = conf_in(*answer.allocator(), text)?;
    put_texts(answer, &conf)?;
    put_uses(answer, &conf)?;
    Ok(())
}

fn put_texts(answer: &mut Vec<u8>, conf: &Conf) -> Result<(), AllocError> {
    put(answer, conf.news_spool())?;
    put(answer, conf.backlog_directory())?;
    put(answer, conf.status_file())?;
    for peer in conf.peers() {
        put(answer, peer.name.bytes())?;
        put(answer, &peer.ip_name)?;
    }
    Ok(())
}

/// The paths of innd that a configuration gives, each after what it is, and `sync` if its CNFS buffers are synced.
pub fn put_innd(answer: &mut Vec<u8>, text: &[u8]) -> Result<(), RowFault> {
    let conf = conf_in(*answer.allocator(), text)?;
    put_path(answer, b"spool", conf.innd_spool())?;
    put_path(answer, b"cycbuffs", conf.innd_cycbuffs())?;
    if conf.sync_spool() {
        put(answer, b"sync")?;
    }
    Ok(())
}

/// The file of accounts that a configuration gives; nothing if it gives none.
pub fn put_login(answer: &mut Vec<u8>, text: &[u8]) -> Result<(), RowFault> {
    let conf = conf_in(*answer.allocator(), text)?;
    if let Some(path) = conf.authinfo_file() {
        put(answer, path)?;
    }
    Ok(())
}

/// The files of the peers' state that a configuration gives, each after what it is, and every how many seconds they are
/// written.
pub fn put_state(answer: &mut Vec<u8>, text: &[u8]) -> Result<(), RowFault> {
    let conf = conf_in(*answer.allocator(), text)?;
    put_path(answer, b"json", conf.status_json())?;
    put_path(answer, b"metrics", conf.metrics_file())?;
    put_printed(answer, &conf.status_period())?;
    Ok(())
}

fn put_path(answer: &mut Vec<u8>, what: &[u8], path: Option<&[u8]>) -> Result<(), AllocError> {
    if let Some(path) = path {
        put(answer, what)?;
        put(answer, path)?;
    }
    Ok(())
}

fn put_uses(answer: &mut Vec<u8>, conf: &Conf) -> Result<(), AllocError> {
    for report in conf.ignored() {
        put(
            answer,
            if report.limited {
                b"limited"
            } else {
                b"ignored"
            },
        )?;
        put_printed(answer, &report.line)?;
        put(answer, &report.key)?;
    }
    Ok(())
}

/// The names of the peers that a configuration hands over.
pub fn put_names(answer: &mut Vec<u8>, text: &[u8]) -> Result<(), RowFault> {
    for peer in &conf_in(*answer.allocator(), text)?.into_peers() {
        put(answer, peer.name.bytes())?;
    }
    Ok(())
}

/// The fault of a configuration; nothing if it has none.
pub fn put_fault(answer: &mut Vec<u8>, text: &[u8]) -> Result<(), AllocError> {
    match read_conf(*answer.allocator(), text) {
        Ok(_) => Ok(()),
        Err(fault) => put_printed(answer, &fault),
    }
}
