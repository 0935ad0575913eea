// What a feeder logs of its connections.
use crate::deferrals::Deferrals;
use crate::descriptors::{LackedBy, lack_of};
use crate::drop_count::{DropCount, DroppedArticle, PeerDrops};
use crate::peer_connection::PeerConnection;
use article_store::Unsendable;
use conn_core::{Mode, Reason};
use funnel::{MsgId, PeerName, Token};
use log::{Log, info, warn};
use std::fmt::{self, Display, Formatter, Write};
use std::io::{self, ErrorKind};
use std::net::SocketAddr;
use std::str;

/// A peer's name, which is ASCII.
pub fn text_of(name: &PeerName) -> &str {
    str::from_utf8(name.bytes()).unwrap_or("")
}

/// A peer's host could not be looked up.
pub fn log_unknown<R: Log>(rt: &R, name: &str, reason: &str) {
    info!(rt; "{}: cannot look up its host: {}", name, reason);
}

/// A peer agreed to be fed over a connection, in this mode.
pub fn log_connected<R: Log>(rt: &R, name: &str, address: SocketAddr, mode: Option<Mode>) {
    match mode {
        Some(Mode::Streaming) => info!(rt; "{}: connected to {}, streaming", name, address),
        Some(Mode::Ihave) => info!(rt; "{}: connected to {}, by IHAVE", name, address),
        None => info!(rt; "{}: connected to {}", name, address),
    }
}

/// The system refused what a feeder can't do without, which ends the run. Nothing is logged for want of memory.
pub fn log_refused<R: Log>(rt: &R, what: &str, error: &io::Error) {
    if error.kind() != ErrorKind::OutOfMemory {
        warn!(rt; "cannot {}: {}", what, error);
    }
}

/// A connection could not be begun.
pub fn log_unmade<R: Log>(rt: &R, name: &str, error: &io::Error) {
    info!(rt; "{}: cannot connect: {}", name, error);
}

/// A connection has closed, or could not be made. Nothing is logged of one that the feeder ended before its peer had
/// agreed to a mode.
pub fn log_over<R: Log>(rt: &R, name: &str, connection: &PeerConnection) {
    if connection.is_left_early() || connection.closed().is_none() {
        return;
    }
    info!(rt; "{}: {}", name, HowOver(connection));
}

/// How a connection ended, in words.
#[derive(Clone, Copy)]
pub struct HowOver<'a>(pub &'a PeerConnection);

impl Display for HowOver<'_> {
    fn fmt<W: Write>(&self, f: &mut Formatter<W>) -> fmt::Result {
        let connection = self.0;
        let address = connection.address();
        if let Some(error) = connection.failure() {
            return write!(f, "cannot connect to {}: {}", address, error);
        }
        match connection.closed() {
            Some(Reason::Quit) => write!(f, "closed {} in good order", address),
            Some(reason) => write!(
                f,
                "closed {} {}: {}{}",
                address,
                connection.stage(),
                connection.close_reason(),
                advice(reason, connection.has_account())
            ),
            None => Ok(()),
        }
    }
}

/// A peer is down, for this reason. The slot that failed is tried again after so many seconds; with 0 it is tried now.
/// This is a warning, as is the end of it: an administrator wants to know which peers get nothing.
pub fn log_down<R: Log>(rt: &R, name: &str, reason: &str, wait: u64) {
    if wait == 0 {
        warn!(rt; "{} is down: {}; next try now", name, reason);
    } else {
        warn!(rt; "{} is down: {}; next try in {} s", name, reason, wait);
    }
}

/// It was logged that a peer is down, and it has agreed to a mode.
pub fn log_up<R: Log>(rt: &R, name: &str) {
    warn!(rt; "{} is up again", name);
}

/// This connection to a peer failed at this article, which is offered again later. This is a warning: an administrator
/// should look at an article that stops its peer again and again.
pub fn log_postponed<R: Log>(
    rt: &R,
    name: &str,
    token: &Token,
    id: &MsgId,
    connection: &PeerConnection,
) {
    let (token, id, reason) = (token_text(token), id_text(id), connection.close_reason());
    warn!(rt; "{}: connection failed at {} {} ({}); put off", name, token, id, reason);
}

/// Connections to a peer failed at this article in an earlier run: it is offered after all others.
pub fn log_suspect<R: Log>(rt: &R, name: &str, token: &Token, id: &MsgId) {
    let (token, id) = (token_text(token), id_text(id));
    info!(rt; "{}: connections failed at {} {} in an earlier run; put off", name, token, id);
}

/// A peer gets no more debts in this run.
pub fn log_stopped<R: Log>(rt: &R, name: &str, why: &str) {
    info!(rt; "{}: gets no more articles in this run: {}", name, why);
}

// What is to be done about the code that ended a session (RFC 3977, section 3.2.1) with a peer that has an account or
// none.
fn advice(reason: Reason, has_account: bool) -> &'static str {
    match reason {
        Reason::Greeting(400) | Reason::Ended(400) => ", it takes no articles for now",
        Reason::Greeting(480) | Reason::Ended(480) if has_account =>
            ", the account in authinfo-file may not feed it: ask its administrator",
        Reason::Greeting(480) | Reason::Ended(480) =>
            ", authentication is required: give authinfo-file a line for its host, \
            or ask the peer to allow this host by address",
        Reason::Greeting(502) | Reason::Ended(502) =>
            ", this host may not feed it: ask its administrator",
        _ => "",
    }
}

/// In the last phase each slot of a peer is given up.
pub fn log_given_up<R: Log>(rt: &R, name: &str) {
    info!(rt; "{}: given up for this run: its connections failed", name);
}

/// A peer deferred these articles: a line with their number and the first of them. Nothing is logged if there is none.
pub fn log_deferred<R: Log>(rt: &R, name: &str, deferred: &Deferrals) {
    match (&deferred.first, deferred.count) {
        (_, 0) => {}
        (None, count) => info!(rt; "{}: deferred {} articles", name, count),
        (Some((token, id)), 1) => {
            info!(rt; "{}: deferred 1 article: {} {}", name, token_text(token), id_text(id))
        }
        (Some((token, id)), count) => {
            let (token, id) = (token_text(token), id_text(id));
            info!(rt; "{}: deferred {} articles, the first {} {}", name, count, token, id)
        }
    }
}

/// This article is missing, and put off at this peer.
pub fn log_kept<R: Log>(rt: &R, name: &str, token: &Token, id: &MsgId) {
    let (token, id) = (token_text(token), id_text(id));
    info!(rt; "{}: {} {}: not found in the spool; put off", name, token, id);
}

/// An article that was missing was dropped for this peer.
pub fn log_missing<R: Log>(rt: &R, name: &str, article: &DroppedArticle) {
    let (token, id) = (token_text(&article.token), id_text(&article.id));
    info!(rt; "{}: {} {}: not found in the spool; dropped", name, token, id);
}

/// An article that cannot be sent was dropped for this peer.
pub fn log_unsendable<R: Log>(rt: &R, name: &str, article: &DroppedArticle) {
    let (token, id) = (token_text(&article.token), id_text(&article.id));
    match article.fault {
        Some(fault) => {
            info!(rt; "{}: {} {}: cannot be sent ({}); dropped", name, token, id, words_of(fault))
        }
        None => info!(rt; "{}: {} {}: cannot be sent; dropped", name, token, id),
    }
}

/// How many articles of a peer were dropped because they were not in the spool, and how many because they cannot be
/// sent: a line for each number that is not 0.
pub(crate) fn log_drops<R: Log>(rt: &R, name: &str, drops: &PeerDrops) {
    let (missing, unsendable) = (&drops.missing, &drops.unsendable);
    match missing.count {
        0 => {}
        1 => warn!(rt; "{}: 1 article was not in the spool{}", name, First(missing)),
        count => warn!(rt; "{}: {} articles were not in the spool{}", name, count, First(missing)),
    }
    match unsendable.count {
        0 => {}
        1 => warn!(rt; "{}: 1 article cannot be sent{}", name, First(unsendable)),
        count => warn!(rt; "{}: {} articles cannot be sent{}", name, count, First(unsendable)),
    }
}

// The first of these articles, after what is said of their number. Nothing if memory was refused for its words.
#[derive(Clone, Copy)]
struct First<'a>(&'a DropCount);

impl Display for First<'_> {
    fn fmt<W: Write>(&self, f: &mut Formatter<W>) -> fmt::Result {
        let Some(first) = &self.0.first else {
            return Ok(());
        };
        f.write_str(if self.0.count == 1 {
            ": "
        } else {
            ", the first "
        })?;
        write!(f, "{} {}", token_text(&first.token), id_text(&first.id))?;
        match first.fault {
            Some(fault) => write!(f, " ({})", words_of(fault)),
            None => Ok(()),
        }
    }
}

// Why an article cannot be sent.
fn words_of(fault: Unsendable) -> &'static str {
    match fault {
        Unsendable::Empty => "empty",
        Unsendable::BareCr => "bare CR",
        Unsendable::Nul => "NUL octet",
        Unsendable::TooLong => "above 16777216 octets",
    }
}

/// So many articles, at most 20, were missing from the spool at this path, none was found, and they are put off.
pub(crate) fn log_none_found<R: Log>(rt: &R, path: &str, count: usize) {
    match count {
        1 => warn!(
            rt; "{} does not have the article asked for, which is put off{}", path, CURE
        ),
        _ => warn!(
            rt; "{} has none of the {} articles asked for, which are put off{}", path, count, CURE
        ),
    }
}

// What to do about a spool in which no article was found.
const CURE: &str =
    ": news-spool has to be the directory of the copies, innd's own spool is innd-spool; \
    --expired drops what is missing";

/// The article under a token can't be read from its file in the spool at this path. If there was no file descriptor
/// left for it, that is said instead. It is a warning the first time that it makes the run fail.
pub(crate) fn log_unread<R: Log>(
    rt: &R,
    spool: &str,
    token: &Token,
    reason: Option<&io::Error>,
    is_first: bool,
) {
    let unread = Unread {
        spool,
        token,
        reason,
    };
    if is_first {
        warn!(rt; "{}", unread);
    } else {
        info!(rt; "{}", unread);
    }
}

// That an article can't be read, and why.
#[derive(Clone, Copy)]
struct Unread<'a> {
    spool: &'a str,
    token: &'a Token,
    reason: Option<&'a io::Error>,
}

impl Display for Unread<'_> {
    fn fmt<W: Write>(&self, f: &mut Formatter<W>) -> fmt::Result {
        let (spool, token) = (self.spool, token_text(self.token));
        let Some(error) = self.reason else {
            return write!(f, "cannot read {}/{}", spool, token);
        };
        match lack_of(error) {
            Some(lacked) => write!(f, "{}", LackedBy { lacked, error }),
            None => write!(f, "cannot read {}/{}: {}", spool, token, error),
        }
    }
}

// A token, which is ASCII.
fn token_text(token: &Token) -> &str {
    str::from_utf8(token.bytes()).unwrap_or("")
}

// A message-id, which is ASCII.
fn id_text(id: &MsgId) -> &str {
    str::from_utf8(id.bytes()).unwrap_or("")
}
