// The number and the options with which a connection is made.

/// The number of a connection, chosen by the caller.
#[derive(Clone, Copy, Debug, PartialEq, Eq)]
pub struct CxnId(pub u64);

/// The options of a connection (innfeed.conf(5)).
#[derive(Clone, Copy, Debug)]
pub struct Options {
    /// Whether it asks for streaming (`streaming`). If not, each article is offered by IHAVE.
    pub streaming: bool,
    /// How many debts it holds in streaming mode (`max-queue-size`), at least 1: with 0 it takes none in that mode.
    pub max_queue: u64,
    /// The share of taken articles at and above which CHECK is left out (`no-check-high`), in hundredths of a per
    /// cent.
    pub check_high: u64,
    /// The share below which CHECK is sent again (`no-check-low`), in hundredths of a per cent.
    pub check_low: u64,
    /// The number of answers over which the share is taken (`no-check-filter`).
    pub check_filter: u64,
    /// The number of seconds without an answer after which it closes (`response-timeout`), at least 1: with 0 it
    /// closes at the first tick at which an answer is awaited.
    pub response_timeout: u64,
}
