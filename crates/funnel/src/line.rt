// Funnel lines.
ghost use Rattle.std.specs.Prelude.{◌≡◌, ◌↔◌, ℕ, List, IfOk, IsErrOf, IsTrue, Contains, MatchResult};
ghost use Rattle.funnel.specs.Faults.{line_fault_name};
ghost use Rattle.funnel.specs.Line.{IsFunnelLine, HasFault, without_cr};
ghost use Rattle.funnel.specs.LineLaws.{HasParts, HasPeers, IsFaultOf};
ghost use Rattle.funnel.specs.Names.{is_msg_id, is_token};

use crate::names::{Form, MsgId, MsgIdForm, PeerName, Token, TokenForm};
use crate::words::next_word;
use std::alloc::{AllocError, Global};
use std::fmt::{self, Display, Formatter, Write};
use thiserror::Error;

/// Why a funnel line is not good: its first fault, `TooLong` before the others.
#[derive(Clone, Copy, Debug, PartialEq, Eq, Error)]
pub enum LineFault {
    /// It has no word.
    NoToken,
    /// Its first word is not a token.
    BadToken,
    /// Its second word is missing or is not a message-id.
    BadId,
    /// It has more than 8,192 octets before its LF, a CR included.
    TooLong,
    /// Memory was refused.
    NoMemory,
}

impl LineFault {
    /// The word for it in messages and scripts.
    pub fn name(self) -> &'static str
        ensures { result.now ≡ line_fault_name self }
    {
        match self {
            Self::NoToken => "NoToken",
            Self::BadToken => "BadToken",
            Self::BadId => "BadId",
            Self::TooLong => "TooLong",
            Self::NoMemory => "NoMemory",
        }
    }
}

impl Display for LineFault {
    fn fmt<W: Write>(&self, f: &mut Formatter<W>) -> fmt::Result {
        f.write_str(self.name())
    }
}

impl From<AllocError> for LineFault {
    ghost use Rattle.std.specs.Prelude.{◌≡◌};
    ghost use Rattle.funnel.specs.declared.line.LineFault.TheVariants.{NoMemory};

    ghost from_gives = { λ _ fault. fault ≡ NoMemory };

    fn from(_refused: AllocError) -> LineFault {
        LineFault::NoMemory
    }
}

/// A good funnel line: an article, and the peers that are to get it (innfeed(8)).
#[derive(Debug, Drop)]
pub struct FunnelLine {
    /// Where the article is stored.
    pub token: Token,
    pub id: MsgId,
    /// The names of peers as written: in order, and repeated if they are repeated there.
    pub peers: Vec<PeerName>,
}

impl FunnelLine {
    /// Whether the line names this peer. A line owes its article once to each configured peer that it names.
    pub fn names(&self, peer: &PeerName) -> bool
        ensures { IsTrue result ↔ Contains self.now.peers.items peer.now }
    {
        self.peers.iter().any(|named| named.bytes() == peer.bytes())
    }
}

/// Reads a funnel line, the octets before its LF. One CR at its end is dropped.
///
/// # Errors
/// The first fault of the line, `TooLong` before all others; `NoMemory` only for a good line.
pub fn read_line(alloc: Global, line: &[u8]) -> Result<FunnelLine, LineFault>
    ensures good { IfOk result (λ l. IsFunnelLine line.now l.token l.id l.peers.items) }
    ensures too_long { IsErrOf result LineFault.TooLong ↔ HasFault line.now LineFault.TooLong }
    ensures no_token { IsErrOf result LineFault.NoToken ↔ HasFault line.now LineFault.NoToken }
    ensures bad_token { IsErrOf result LineFault.BadToken ↔ HasFault line.now LineFault.BadToken }
    ensures bad_id { IsErrOf result LineFault.BadId ↔ HasFault line.now LineFault.BadId }
    ensures no_memory { IsErrOf result LineFault.NoMemory
        → (token id : List ℕ) × (peers : List (List ℕ)) × IsFunnelLine line.now token id peers }
{
    let parts = Parts::cut(line)?;
    let line = parts.keep(alloc)?;
    Ok(line)
}

/// A line has one reading: one token, one message-id, one list of peers.
pub fn reads_once()
    ensures { (line token id token' id' : List ℕ) (peers peers' : List (List ℕ))
        → IsFunnelLine line token id peers → IsFunnelLine line token' id' peers'
        → (token ≡ token') × (id ≡ id') × (peers ≡ peers') }
{}

/// The length of the longest good line, in octets before its LF.
pub const LINE_MAX_OCTETS: usize = 8192;

// A good line, cut into its parts.
#[derive(Clone, Copy)]
pub(crate) struct Parts<'a> {
    token: &'a [u8],
    id: &'a [u8],
    others: &'a [u8],
}

impl<'a> Parts<'a> {
    // Cuts a line, or returns its first fault. Allocates nothing.
    pub(crate) fn cut(line: &'a [u8]) -> Result<Self, LineFault>
        ensures { MatchResult result (λ p. HasParts line.now p.token.now p.id.now p.others.now)
            (λ fault. IsFaultOf line.now fault) }
    {
        if line.len() > LINE_MAX_OCTETS {
            return Err(LineFault::TooLong);
        }
        let Some((token, behind)) = next_word(without_cr(line)) else {
            return Err(LineFault::NoToken);
        };
        if !TokenForm::holds(token) {
            return Err(LineFault::BadToken);
        }
        let Some((id, others)) = next_word(behind) else {
            return Err(LineFault::BadId);
        };
        if !MsgIdForm::holds(id) {
            return Err(LineFault::BadId);
        }
        Ok(Parts { token, id, others })
    }

    pub(crate) fn article(&self, alloc: Global) -> Result<(Token, MsgId), AllocError>
        requires token { IsTrue (is_token self.now.token.now) }
        requires id { IsTrue (is_msg_id self.now.id.now) }
        ensures token { IfOk result (λ a. a.0 ≡ self.now.token.now) }
        ensures id { IfOk result (λ a. a.1 ≡ self.now.id.now) }
    {
        let token = Token::from_octets(alloc, self.token)?;
        let id = MsgId::from_octets(alloc, self.id)?;
        Ok((token, id))
    }

    // Copies the parts. The other words are kept only if they are names of peers.
    fn keep(&self, alloc: Global) -> Result<FunnelLine, AllocError>
        requires token { IsTrue (is_token self.now.token.now) }
        requires id { IsTrue (is_msg_id self.now.id.now) }
        ensures token { IfOk result (λ l. l.token ≡ self.now.token.now) }
        ensures id { IfOk result (λ l. l.id ≡ self.now.id.now) }
        ensures peers { IfOk result (λ l. HasPeers self.now.others.now l.peers.items) }
    {
        let (token, id) = self.article(alloc)?;
        let peers = read_peers(alloc, self.others)?;
        Ok(FunnelLine { token, id, peers })
    }
}

/// A line without the one CR that may end it. If two CRs end it, the first stays.
///
/// The line is what comes before its LF, so one CR there belongs to the line's end (RFC 3977, section 3.1).
pub fn without_cr(line: &[u8]) -> &[u8]
    ensures { result.now ≡ without_cr line.now }
{
    match line {
        [text @ .., b'\r'] => text,
        _ => line,
    }
}

fn read_peers(alloc: Global, text: &[u8]) -> Result<Vec<PeerName>, AllocError>
    ensures { IfOk result (λ peers. HasPeers text.now peers.items) }
{
    let mut peers = Vec::new(alloc);
    let mut left = text;
    while let Some((word, behind)) = next_word(left) {
        if let Some(peer) = PeerName::read(alloc, word)? {
            peers.push(peer)?;
        }
        left = behind;
    }
    Ok(peers)
}
