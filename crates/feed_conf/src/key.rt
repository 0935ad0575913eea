// The keys of the profile.
ghost use Rattle.std.specs.Prelude.{◌≡◌, ◌==◌, false, true};
ghost use Rattle.feed_conf.specs.Keys.{key_of, row_of};
ghost use Rattle.feed_conf.specs.KeyView.{row_view};
ghost use Rattle.feed_conf.specs.ValueView.{HasSmallBounds, value_view};
ghost use Rattle.feed_conf.specs.Values.{NumberOf, SwitchOf, TextOf};
ghost use Rattle.feed_conf.specs.declared.key.Kind.TheVariants.{AnyText, Switch};

use crate::item::is_text;
use crate::value::Value;

/// How the value of a key is written.
#[derive(Clone, Copy)]
pub(crate) enum Kind {
    /// Any text.
    AnyText,
    /// A text of 1 to 255 octets.
    ShortText,
    /// A boolean.
    Switch,
    /// A number of connections, at most 64; 0 stands for 64.
    Connections,
    /// A number between these bounds.
    Number(u64, u64),
    /// A number between these bounds; decimals are allowed and dropped.
    Whole(u64, u64),
    /// A fraction between these bounds, which are in hundredths.
    Fraction(u64, u64),
}

/// A key of the profile (innfeed.conf(5)).
#[derive(Clone, Copy)]
pub(crate) enum SettingKey {
    /// The host to connect to.
    IpName,
    PortNumber,
    /// Whether streaming is tried.
    Streaming,
    /// The most connections at a time.
    MaxConnections,
    /// The most articles that a connection holds at a time.
    MaxQueueSize,
    /// The share of wanted articles, in per cent, at and above which CHECK is left out.
    NoCheckHigh,
    /// The share below which CHECK is sent again, in per cent.
    NoCheckLow,
    /// The number of answers over which the share is taken.
    NoCheckFilter,
    /// How long to wait for an answer, in seconds.
    ResponseTimeout,
    /// The first wait before a lost connection is tried again, in seconds.
    InitialReconnectTime,
    /// The longest such wait, in seconds.
    MaxReconnectTime,
    /// Whether deferred articles are dropped.
    DropDeferred,
    /// The backlog's limit, in octets; 0 for none.
    BacklogLimit,
    /// The backlog's high water, in octets.
    BacklogLimitHighwater,
    /// The high water as a multiple of the limit.
    BacklogFactor,
    /// The folder of the articles.
    NewsSpool,
    /// The folder of the backlog tapes.
    BacklogDirectory,
    /// The file of the status report.
    StatusFile,
    /// The most octets that are kept of lines that name unknown peers.
    UnknownLimit,
    /// innd's spool, INN's `pathspool`.
    InndSpool,
    /// innd's list of CNFS buffers, INN's cycbuff.conf.
    InndCycbuffs,
    /// Whether innd's CNFS buffers are synced before lines are acknowledged.
    SyncSpool,
    /// The file of the accounts by which the feeder logs in to peers.
    AuthinfoFile,
    /// The file into which the state of all peers is written as JSON.
    StatusJson,
    /// The file into which it is written in Prometheus' text format.
    MetricsFile,
    /// Every how many seconds these two are written.
    StatusPeriod,
}

const KEYS: [SettingKey; 26] = [
    SettingKey::IpName,
    SettingKey::PortNumber,
    SettingKey::Streaming,
    SettingKey::MaxConnections,
    SettingKey::MaxQueueSize,
    SettingKey::NoCheckHigh,
    SettingKey::NoCheckLow,
    SettingKey::NoCheckFilter,
    SettingKey::ResponseTimeout,
    SettingKey::InitialReconnectTime,
    SettingKey::MaxReconnectTime,
    SettingKey::DropDeferred,
    SettingKey::BacklogLimit,
    SettingKey::BacklogLimitHighwater,
    SettingKey::BacklogFactor,
    SettingKey::NewsSpool,
    SettingKey::BacklogDirectory,
    SettingKey::StatusFile,
    SettingKey::UnknownLimit,
    SettingKey::InndSpool,
    SettingKey::InndCycbuffs,
    SettingKey::SyncSpool,
    SettingKey::AuthinfoFile,
    SettingKey::StatusJson,
    SettingKey::MetricsFile,
    SettingKey::StatusPeriod,
];

#[derive(Clone, Copy)]
struct Row {
    index: usize,
    name: &'static [u8],
    kind: Kind,
    // Whether it is allowed only outside all blocks.
    of_file: bool,
    // The value if no use of the key counts; `None` if that is the name of the peer.
    default: Option<Value<'static>>,
}

const SECONDS: Kind = Kind::Number(1, 86_400);

const OCTETS: Kind = Kind::Number(0, 4_294_967_296);

fn switch(index: usize, name: &'static [u8], default: bool) -> Row
    ensures { row_view result
        ≡ record {
          index = index;
          name = name.now;
          kind = Switch;
          of_file = false;
          default = λ _. SwitchOf default;
        } }
{
    Row {
        index,
        name,
        kind: Kind::Switch,
        of_file: false,
        default: Some(Value::Switch(default)),
    }
}

fn number(index: usize, name: &'static [u8], kind: Kind, default: u64) -> Row
    ensures { row_view result
        ≡ record {
          index = index;
          name = name.now;
          kind = kind;
          of_file = false;
          default = λ _. NumberOf default;
        } }
{
    Row {
        index,
        name,
        kind,
        of_file: false,
        default: Some(Value::Number(default)),
    }
}

fn file_text(index: usize, name: &'static [u8], default: &'static [u8]) -> Row
    ensures { row_view result
        ≡ record {
          index = index;
          name = name.now;
          kind = AnyText;
          of_file = true;
          default = λ _. TextOf default.now;
        } }
{
    Row {
        index,
        name,
        kind: Kind::AnyText,
        of_file: true,
        default: Some(Value::Text(default)),
    }
}

fn file_number(index: usize, name: &'static [u8], kind: Kind, default: u64) -> Row
    ensures { row_view result
        ≡ record {
          index = index;
          name = name.now;
          kind = kind;
          of_file = true;
          default = λ _. NumberOf default;
        } }
{
    Row {
        index,
        name,
        kind,
        of_file: true,
        default: Some(Value::Number(default)),
    }
}

fn file_switch(index: usize, name: &'static [u8], default: bool) -> Row
    ensures { row_view result
        ≡ record {
          index = index;
          name = name.now;
          kind = Switch;
          of_file = true;
          default = λ _. SwitchOf default;
        } }
{
    Row {
        index,
        name,
        kind: Kind::Switch,
        of_file: true,
        default: Some(Value::Switch(default)),
    }
}

impl SettingKey {
    fn row(self) -> Row
        ensures { row_view result ≡ row_of self }
    {
        match self {
            SettingKey::IpName => Row {
                index: 0,
                name: b"ip-name",
                kind: Kind::ShortText,
                of_file: false,
                default: None,
            },
            SettingKey::PortNumber => number(1, b"port-number", Kind::Number(1, 65_535), 119),
            SettingKey::Streaming => switch(2, b"streaming", true),
            SettingKey::MaxConnections => number(3, b"max-connections", Kind::Connections, 2),
            SettingKey::MaxQueueSize => number(4, b"max-queue-size", Kind::Number(1, 1_000), 20),
            SettingKey::NoCheckHigh => number(
                5,
                b"no-check-high",
                Kind::Fraction(0, 10_000),
                9_500,
            ),
            SettingKey::NoCheckLow => number(6, b"no-check-low", Kind::Fraction(0, 10_000), 9_000),
            SettingKey::NoCheckFilter => number(7, b"no-check-filter", Kind::Whole(1, 1_000), 50),
            SettingKey::ResponseTimeout => number(8, b"response-timeout", SECONDS, 300),
            SettingKey::InitialReconnectTime => number(9, b"initial-reconnect-time", SECONDS, 30),
            SettingKey::MaxReconnectTime => number(10, b"max-reconnect-time", SECONDS, 3_600),
            SettingKey::DropDeferred => switch(11, b"drop-deferred", false),
            SettingKey::BacklogLimit => number(12, b"backlog-limit", OCTETS, 0),
            SettingKey::BacklogLimitHighwater => number(13, b"backlog-limit-highwater", OCTETS, 0),
            SettingKey::BacklogFactor => number(
                14,
                b"backlog-factor",
                Kind::Fraction(100, 10_000),
                110,
            ),
            SettingKey::NewsSpool => file_text(15, b"news-spool", b"articles"),
            SettingKey::BacklogDirectory => file_text(16, b"backlog-directory", b"innfeed"),
            SettingKey::StatusFile => file_text(17, b"status-file", b"innfeed.status"),
            SettingKey::UnknownLimit => file_number(18, b"unknown-limit", OCTETS, 67_108_864),
            SettingKey::InndSpool => file_text(19, b"innd-spool", b""),
            SettingKey::InndCycbuffs => file_text(20, b"innd-cycbuffs", b""),
            SettingKey::SyncSpool => file_switch(21, b"sync-spool", false),
            SettingKey::AuthinfoFile => file_text(22, b"authinfo-file", b""),
            SettingKey::StatusJson => file_text(23, b"status-json", b""),
            SettingKey::MetricsFile => file_text(24, b"metrics-file", b""),
            SettingKey::StatusPeriod => file_number(25, b"status-period", SECONDS, 60),
        }
    }

    pub(crate) fn index(self) -> usize
        ensures { result ≡ (row_of self).index }
    {
        self.row().index
    }

    pub(crate) fn name(self) -> &'static [u8]
        ensures { result.now ≡ (row_of self).name }
    {
        self.row().name
    }

    pub(crate) fn kind(self) -> Kind
        ensures value { result ≡ (row_of self).kind }
        ensures small { HasSmallBounds result }
    {
        self.row().kind
    }

    /// Whether it is allowed only outside all blocks.
    pub(crate) fn is_of_file(self) -> bool
        ensures { result ≡ (row_of self).of_file }
    {
        self.row().of_file
    }

    /// The value at this peer if no use of the key counts.
    pub(crate) fn default_value<'t>(self, peer: &'t [u8]) -> Value<'t>
        ensures { value_view result ≡ (row_of self).default peer.now }
    {
        match self.row().default {
            Some(value) => value,
            None => Value::Text(peer),
        }
    }
}

pub(crate) fn find_key(name: &[u8]) -> Option<SettingKey>
    ensures { result ≡ key_of name.now }
{
    KEYS.iter().copied().find(|key| is_text(key.name(), name))
}
