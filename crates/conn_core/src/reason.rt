// Why a connection closed.
use reply_reader::ReplyFault;
use thiserror::Error;

/// Why a connection closed; if there were several reasons, the first.
#[derive(Clone, Copy, Debug, PartialEq, Eq, Error)]
pub enum Reason {
    /// The greeting had this code, which is neither 200 nor 201 (RFC 3977, section 5.1).
    #[error("unexpected greeting {0}")]
    Greeting(u16),
    /// What came in is not a reply line.
    #[error("not an NNTP reply")]
    Reader(ReplyFault),
    /// A reply answers no command.
    #[error("unexpected reply")]
    Unmatched,
    /// The server ended the connection by this code: 400, 480 or 502 (RFC 3977, section 3.2.1).
    #[error("session ended with {0}")]
    Ended(u16),
    /// An answer did not come in time.
    #[error("no answer in time")]
    Timeout,
    /// The caller reported that the link broke, or memory was refused for what came in.
    #[error("connection broken")]
    Broken,
    /// A reply came after QUIT.
    #[error("closed after QUIT")]
    Quit,
}
