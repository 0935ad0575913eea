// What a run that follows its funnel logs at its start and at its end.
use crate::places::text_of;
use feed_conf::{Conf, Ignored};
use log::{Log, warn};

/// A run begins: its version, how many peers it feeds, and the line from which on it reads the funnel at this path, if
/// all lines up to `mark` are acknowledged. This is a warning, as is the end of it, so that it is logged without `-v`.
pub(crate) fn log_start<R: Log>(rt: &R, version: &str, peers: usize, funnel: &[u8], mark: u64) {
    let noun = if peers == 1 { "peer" } else { "peers" };
    let next = mark.saturating_add(1);
    warn!(rt; "innfeed {} starts: {} {}, {} from line {} on", version, peers, noun, text_of(funnel), next);
}

/// Logs that the settings `username` and `password` are ignored, if these settings, which were read from the file at
/// `path`, have one of them.
pub(crate) fn log_no_login<R: Log>(rt: &R, path: &str, conf: &Conf) {
    if !conf.ignored().iter().any(is_of_login) {
        return;
    }
    if conf.authinfo_file().is_some() {
        warn!(rt; "{}: username and password are ignored: the accounts are in authinfo-file", path);
    } else {
        warn!(rt; "{}: username and password are ignored: innfeed does not log in to its peers", path);
    }
}

fn is_of_login(setting: &Ignored) -> bool {
    matches!(setting.key.as_slice(), b"username" | b"password")
}

/// A run ends as it was asked to, with all lines up to `mark` acknowledged.
pub(crate) fn log_end<R: Log>(rt: &R, version: &str, mark: u64) {
    warn!(rt; "innfeed {} ends as asked: acknowledged up to line {}", version, mark);
}
