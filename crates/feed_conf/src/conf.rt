// A configuration, as the crates above see it.
ghost use Rattle.std.specs.Prelude.{◌≡◌, map};
ghost use Rattle.std.specs.Option.{option_map};
ghost use Rattle.feed_conf.specs.PeerView.{FindsNames, settings_view};
ghost use Rattle.feed_conf.specs.Settings.{path_in};

use crate::reader::text_of;
use funnel::PeerName;
use std::collections::BTreeMap;

/// A use of a key that was ignored or limited.
#[derive(Debug, Drop)]
pub struct Ignored {
    /// The line, from 1 up.
    pub line: u64,
    /// The key, as written.
    pub key: Vec<u8>,
    /// The value, as written; empty if there is none.
    pub value: Vec<u8>,
    /// Whether the value was limited; if not, the use was ignored.
    pub limited: bool,
}

/// The values of a peer. Times are in seconds.
#[derive(Debug, Drop)]
pub struct PeerConf {
    pub name: PeerName,
    /// The host to connect to.
    pub ip_name: Vec<u8>,
    pub port: u64,
    /// Whether streaming is tried.
    pub streaming: bool,
    /// The most connections at a time.
    pub max_connections: u64,
    /// The most articles that a connection holds at a time.
    pub max_queue: u64,
    /// The share of wanted articles at and above which CHECK is left out, in hundredths of a per cent.
    pub check_high: u64,
    /// The share below which CHECK is sent again, in hundredths of a per cent.
    pub check_low: u64,
    /// The number of answers over which the share is taken.
    pub check_filter: u64,
    /// How long to wait for an answer.
    pub response_timeout: u64,
    /// The first wait before a lost connection is tried again.
    pub first_wait: u64,
    /// The longest such wait.
    pub most_wait: u64,
    /// Whether deferred articles are dropped.
    pub drop_deferred: bool,
    /// The backlog's limit, in octets; 0 for none.
    pub backlog_limit: u64,
    /// The backlog's high water, in octets.
    pub backlog_high: u64,
}

/// A configuration that was read: its peers, its files, and what was ignored or limited.
#[derive(Debug, Drop)]
pub struct Conf {
    pub(crate) news_spool: Vec<u8>,
    pub(crate) backlog_directory: Vec<u8>,
    pub(crate) status_file: Vec<u8>,
    pub(crate) unknown_limit: u64,
    // Empty if it is not given, as is the next one.
    pub(crate) innd_spool: Vec<u8>,
    pub(crate) innd_cycbuffs: Vec<u8>,
    pub(crate) sync_spool: bool,
    // Empty if it is not given, as are the next two.
    pub(crate) authinfo_file: Vec<u8>,
    pub(crate) status_json: Vec<u8>,
    pub(crate) metrics_file: Vec<u8>,
    pub(crate) status_period: u64,
    pub(crate) peers: Vec<PeerConf>,
    pub(crate) ignored: Vec<Ignored>,
    pub(crate) names: BTreeMap<String, usize>,
    ghost named: { FindsNames names (map settings_view peers.items) },
}

// The path that a text is, unless it is empty.
fn path_in(text: &[u8]) -> Option<&[u8]>
    ensures { option_map (λ path. path.now) result ≡ path_in text.now }
{
    match text {
        [] => None,
        [_, ..] => Some(text),
    }
}

impl Conf {
    ghost use Rattle.std.specs.Prelude.{◌≡◌, map};
    ghost use Rattle.std.specs.List.{find};
    ghost use Rattle.std.specs.Option.{option_copied, option_map};
    ghost use Rattle.std.specs.Str.{bytes_eq};
    ghost use Rattle.feed_conf.specs.ReaderView.{report_view};
    ghost use Rattle.feed_conf.specs.PeerView.{settings_view};
    ghost use Rattle.feed_conf.specs.ConfView.{conf_view, find_settings};

    /// The values of the peer with this name, if one is declared.
    pub fn peer(&self, name: &PeerName) -> Option<&PeerConf>
        ensures { option_map settings_view (option_copied result)
            ≡ find_settings name.now (conf_view self.now).peers }
    {
        match self.names.get(text_of(name)) {
            None => None,
            Some(index) => self.peers.get(*index),
        }
    }

    /// The values of all peers, in the order of their declarations.
    pub fn peers(&self) -> &[PeerConf]
        ensures { map settings_view result.now ≡ (conf_view self.now).peers }
    {
        &self.peers
    }

    /// The values of all peers, in the order of their declarations, without a copy.
    pub fn into_peers(self) -> Vec<PeerConf>
        ensures { map settings_view result.items ≡ (conf_view self).peers }
    {
        let Conf { peers, .. } = self;
        peers
    }

    /// The uses of keys that were ignored or limited, in reading order.
    pub fn ignored(&self) -> &[Ignored]
        ensures { map report_view result.now ≡ (conf_view self.now).reports }
    {
        &self.ignored
    }

    /// The folder of the articles.
    pub fn news_spool(&self) -> &[u8]
        ensures { result.now ≡ (conf_view self.now).news_spool }
    {
        &self.news_spool
    }

    /// The folder of the backlog tapes.
    pub fn backlog_directory(&self) -> &[u8]
        ensures { result.now ≡ (conf_view self.now).backlog_directory }
    {
        &self.backlog_directory
    }

    /// The file of the status report.
    pub fn status_file(&self) -> &[u8]
        ensures { result.now ≡ (conf_view self.now).status_file }
    {
        &self.status_file
    }

    /// The most octets that are kept of lines that name unknown peers.
    pub fn unknown_limit(&self) -> u64
        ensures { result ≡ (conf_view self.now).unknown_limit }
    {
        self.unknown_limit
    }

    /// innd's spool (`pathspool` of inn.conf(5)), if it is given and not empty.
    pub fn innd_spool(&self) -> Option<&[u8]>
        ensures { option_map (λ path. path.now) result ≡ (conf_view self.now).innd_spool }
    {
        path_in(&self.innd_spool)
    }

    /// innd's list of CNFS buffers (cycbuff.conf(5)), if it is given and not empty.
    pub fn innd_cycbuffs(&self) -> Option<&[u8]>
        ensures { option_map (λ path. path.now) result ≡ (conf_view self.now).innd_cycbuffs }
    {
        path_in(&self.innd_cycbuffs)
    }

    /// Whether innd's CNFS buffers are synced before lines are acknowledged; then `innd_cycbuffs` is given.
    pub fn sync_spool(&self) -> bool
        ensures { result ≡ (conf_view self.now).sync_spool }
    {
        self.sync_spool
    }

    /// The file of the accounts by which peers are logged in to (AUTHINFO, RFC 4643), if it is given and not empty.
    pub fn authinfo_file(&self) -> Option<&[u8]>
        ensures { option_map (λ path. path.now) result ≡ (conf_view self.now).authinfo_file }
    {
        path_in(&self.authinfo_file)
    }

    /// The file into which the state of all peers is written as one JSON object, if it is given and not empty.
    pub fn status_json(&self) -> Option<&[u8]>
        ensures { option_map (λ path. path.now) result ≡ (conf_view self.now).status_json }
    {
        path_in(&self.status_json)
    }

    /// The file into which the same is written in Prometheus' text format, if it is given and not empty.
    pub fn metrics_file(&self) -> Option<&[u8]>
        ensures { option_map (λ path. path.now) result ≡ (conf_view self.now).metrics_file }
    {
        path_in(&self.metrics_file)
    }

    /// Every how many seconds those two files are written.
    pub fn status_period(&self) -> u64
        ensures { result ≡ (conf_view self.now).status_period }
    {
        self.status_period
    }
}
