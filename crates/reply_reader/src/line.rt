// One reply line.
ghost use Rattle.std.specs.Prelude.{◌≡◌, ◌↔◌, ◌⊎◌, ℕ, List, Option, IfOk, IfErr, IfSome, IfNone};
ghost use Rattle.std.specs.Prelude.{IsErrOf};
ghost use Rattle.reply_reader.specs.Reply.{BeginsWithCode, HasId, IsNoReply, IsReplyLine, IsText};

use crate::fault::ReplyFault;
use funnel::{MsgId, next_word, without_cr};
use std::alloc::{AllocError, Global};

/// A reply of a news server (RFC 3977, section 3.2).
#[derive(Debug, Drop)]
pub struct Reply {
    /// The first three digits of the line as a number, 0 to 999.
    pub code: u16,
    /// The first word after the digits, if it is a message-id.
    pub id: Option<MsgId>,
    /// What follows the digits, without one space at its beginning.
    pub text: Vec<u8>,
}

// `line` is without its LF.
pub(crate) fn read_reply(alloc: Global, line: &[u8]) -> Result<Reply, ReplyFault>
    ensures reply { IfOk result
        (λ reply. IsReplyLine line.now reply.code reply.id reply.text.items) }
    ensures no_code { IsErrOf result ReplyFault.NoCode ↔ IsNoReply line.now }
    ensures no_memory { IfErr result
        (λ fault. (fault ≡ ReplyFault.NoCode)
        ⊎ ((fault ≡ ReplyFault.NoMemory)
        × ((code : ℕ) × (id : Option (List ℕ)) × (text : List ℕ)
        × IsReplyLine line.now code id text))) }
{
    let Some(coded) = read_code(without_cr(line)) else {
        return Err(ReplyFault::NoCode);
    };
    let id = read_id(alloc, coded.rest)?;
    let text = Vec::from_slice(alloc, text_of(coded.rest))?;
    Ok(Reply {
        code: coded.code,
        id,
        text,
    })
}

// What follows the code, without one space at its beginning.
fn text_of(rest: &[u8]) -> &[u8]
    ensures { IsText rest.now result.now }
{
    match rest {
        [b' ', text @ ..] => text,
        _ => rest,
    }
}

// A code, and what follows it.
#[derive(Drop)]
struct Coded<'a> {
    code: u16,
    rest: &'a [u8],
}

// `None` if the octets do not begin with three digits.
fn read_code(octets: &[u8]) -> Option<Coded<'_>>
    ensures some { IfSome result (λ coded. BeginsWithCode octets.now coded.code coded.rest.now) }
    ensures none { IfNone result
        ((code : ℕ) (rest : List ℕ) → BeginsWithCode octets.now code rest → ⊥) }
{
    match octets {
        [
            first @ b'0'..=b'9',
            second @ b'0'..=b'9',
            third @ b'0'..=b'9',
            rest @ ..,
        ] => {
            let hundreds = u16::from(*first - b'0');
            let tens = u16::from(*second - b'0');
            let ones = u16::from(*third - b'0');
            Some(Coded {
                code: 100 * hundreds + 10 * tens + ones,
                rest,
            })
        }
        _ => None,
    }
}

// The first word, if it is a message-id.
fn read_id(alloc: Global, rest: &[u8]) -> Result<Option<MsgId>, AllocError>
    ensures { IfOk result (λ id. HasId rest.now id) }
{
    match next_word(rest) {
        Some((word, _)) => MsgId::read(alloc, word),
        None => Ok(None),
    }
}
