// Why a connection closed, in words.
use crate::descriptors::{LackedBy, lack_of};
use crate::line_head::SHOWN_MAX_OCTETS;
use crate::login_failure::LoginFailure;
use conn_core::Reason;
use reply_reader::Reply;
use std::alloc::Global;
use std::fmt::{self, Display, Formatter, Write};
use std::io;

/// What a feeder saw of a connection's end, besides the reason for which it closed.
#[derive(Drop)]
pub(crate) enum ObservedEnd {
    Unseen,
    /// The peer closed it.
    ByPeer,
    /// A send or a receipt failed.
    Fault(io::Error),
    /// The peer sent this, which is no reply.
    InvalidReply(Vec<u8>),
    /// The login failed.
    Login(LoginFailure),
    /// An article could not be read, for this reason.
    Unread(Option<io::Error>),
    /// The directory of the articles is not there.
    NoSpool,
    /// The directory of the articles has none of those that were asked for.
    NoneFound,
    /// The feeder gave it up.
    ByUs,
}

impl ObservedEnd {
    /// Some of these octets, the first of which begins a line, are no reply. The first line that does not begin with
    /// three digits is kept, or else the first octets.
    pub fn invalid_reply(alloc: Global, octets: &[u8]) -> Self {
        let line = octets
            .split(|octet| *octet == b'\n')
            .find(|line| !line.is_empty() && !begins_with_code(line))
            .unwrap_or(octets);
        match Vec::from_slice(alloc, shortened(line)) {
            Ok(line) => ObservedEnd::InvalidReply(line),
            Err(_) => ObservedEnd::Unseen,
        }
    }

    /// Whether no debt is the cause, since descriptors ran out or the spool is missing.
    pub fn is_of_system(&self) -> bool {
        match self {
            ObservedEnd::NoSpool => true,
            ObservedEnd::Unread(Some(error)) => lack_of(error).is_some(),
            _ => false,
        }
    }
}

/// Whether a line begins with three digits.
pub(crate) fn begins_with_code(line: &[u8]) -> bool {
    match line.get(..3) {
        Some(code) => code.iter().all(|octet| octet.is_ascii_digit()),
        None => false,
    }
}

// The first octets.
pub(crate) fn shortened(octets: &[u8]) -> &[u8] {
    octets.get(..SHOWN_MAX_OCTETS).unwrap_or(octets)
}

/// How far a session had come.
#[derive(Clone, Copy, Debug, PartialEq, Eq)]
pub(crate) enum SessionStage {
    /// Before the greeting.
    Greeting,
    /// Before the reply to AUTHINFO USER.
    User,
    /// Before the reply to AUTHINFO PASS.
    Password,
    /// Before the reply to MODE STREAM.
    Mode,
    Streaming,
    Ihave,
}

impl Display for SessionStage {
    fn fmt<W: Write>(&self, f: &mut Formatter<W>) -> fmt::Result {
        f.write_str(match self {
            SessionStage::Greeting => "at the greeting",
            SessionStage::User => "at AUTHINFO USER",
            SessionStage::Password => "at AUTHINFO PASS",
            SessionStage::Mode => "at MODE STREAM",
            SessionStage::Streaming => "while streaming",
            SessionStage::Ihave => "while feeding by IHAVE",
        })
    }
}

/// Why a connection closed, in words.
#[derive(Clone, Copy)]
pub(crate) struct CloseReason<'a> {
    pub reason: Option<Reason>,
    /// The reply that closed it.
    pub refused: Option<&'a Reply>,
    pub ended: &'a ObservedEnd,
}

impl Display for CloseReason<'_> {
    fn fmt<W: Write>(&self, f: &mut Formatter<W>) -> fmt::Result {
        match (self.ended, self.reason) {
            (ObservedEnd::Unread(Some(error)), _) => match lack_of(error) {
                Some(lacked) => write!(f, "{}", LackedBy { lacked, error }),
                None => write!(f, "the article cannot be read: {error}"),
            },
            (ObservedEnd::Unread(None), _) => f.write_str("the article cannot be read"),
            (ObservedEnd::NoSpool, _) => f.write_str("the directory of articles is missing"),
            (ObservedEnd::NoneFound, _) => f.write_str("news-spool has none of its articles"),
            (ObservedEnd::ByUs, _) => f.write_str("given up here"),
            (ObservedEnd::Login(failure), _) => write!(f, "{failure}"),
            (ObservedEnd::Fault(error), Some(Reason::Broken)) => write!(f, "{error}"),
            (ObservedEnd::ByPeer, Some(Reason::Broken)) => f.write_str("the peer closed it"),
            (ObservedEnd::InvalidReply(line), Some(reason)) => {
                write!(f, "{reason}: {}", Shown(line.as_slice()))
            }
            (_, Some(reason)) => {
                write!(f, "{reason}")?;
                match (self.refused, reason) {
                    (Some(reply), Reason::Unmatched) => {
                        write!(f, ": {} {}", reply.code, Shown(reply.text.as_slice()))
                    }
                    // The reason's words have the code.
                    (Some(reply), _) => write!(f, ": {}", Shown(reply.text.as_slice())),
                    (None, _) => Ok(()),
                }
            }
            (_, None) => f.write_str("still open"),
        }
    }
}

// The first octets of what a peer sent, with a dot for each that is not printable ASCII.
#[derive(Clone, Copy)]
pub(crate) struct Shown<'a>(pub &'a [u8]);

impl Display for Shown<'_> {
    fn fmt<W: Write>(&self, f: &mut Formatter<W>) -> fmt::Result {
        for octet in shortened(self.0.trim_ascii_end()) {
            let shown = if octet.is_ascii_graphic() || *octet == b' ' {
                char::from(*octet)
            } else {
                '.'
            };
            f.write_char(shown)?;
        }
        Ok(())
    }
}
