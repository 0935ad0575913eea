// A request is read from its text.
ghost use Rattle.std.specs.Prelude.{◌≡◌, ◌≢◌, ◌↔◌, Err, IfOk, None, Ok, OnErr, true};
ghost use Rattle.std.specs.Option.{option_map};
ghost use Rattle.funnel.specs.Names.{is_msg_id, is_peer_name};
ghost use Rattle.requests.specs.Fields.{fault_of, good, texts_of};
ghost use Rattle.requests.specs.Requests.{IsReadAs, built, key_in, line_of, request_in};

use crate::faults::RequestFault;
use crate::fields::{Fields, end_of};
use crate::number::read_number;
use crate::request::Request;
use crate::words::Word;
use funnel::{MsgId, PeerName};
use std::alloc::Global;

/// The most octets of a request.
pub const REQUEST_MAX_OCTETS: usize = 1024;

/// Reads a request, which is all of this text (docs/FORMATS.md).
///
/// # Errors
/// The first fault in the order of [`RequestFault`]; `NoMemory` if the text is a request and memory was refused.
pub fn read_request(alloc: Global, text: &[u8]) -> Result<Request, RequestFault>
    ensures ok { IfOk result (λ request. request_in text.now ≡ Ok request) }
    ensures refused { (fault : RequestFault) → fault ≢ RequestFault.NoMemory
        → (result ≡ Err fault) ↔ (request_in text.now ≡ Err fault) }
{
    read_text(alloc, text)
}

fn read_text(alloc: Global, text: &[u8]) -> Result<Request, RequestFault>
    ensures { IsReadAs result (request_in text.now) }
{
    if text.len() > REQUEST_MAX_OCTETS {
        return Err(RequestFault::TooLong);
    }
    let Some(line) = line_of(text) else {
        return Err(RequestFault::NoLineEnd);
    };
    let (name, rest) = line.split_at(end_of(line));
    let Some(word) = Word::read(name) else {
        return Err(RequestFault::UnknownWord);
    };
    let fields = Fields::cut(rest);
    match fields.fault(word) {
        Some(fault) => Err(fault),
        None => build(alloc, word, &fields),
    }
}

// What comes before the LF that ends the text.
fn line_of(text: &[u8]) -> Option<&[u8]>
    ensures { option_map (λ line. line.now) result ≡ line_of text.now }
{
    match text {
        [line @ .., b'\n'] => Some(line),
        _ => None,
    }
}

// The request of this word with these fields.
fn build(alloc: Global, word: Word, fields: &Fields<'_>) -> Result<Request, RequestFault>
    requires { fault_of word (texts_of fields.now) ≡ None }
    ensures ok { IfOk result (λ request. request ≡ built word (texts_of fields.now)) }
    ensures err { OnErr result (result ≡ Err RequestFault.NoMemory) }
{
    let peer = read_peer(alloc, fields.peer)?;
    let id = read_id(alloc, fields.id)?;
    let key = read_key(fields.key);
    Ok(match word {
        Word::Status => Request::Status { peer, json: false },
        Word::StatusJson => Request::Status { peer, json: true },
        Word::Retry => Request::Retry { peer },
        Word::LogVerbose => Request::LogVerbose,
        Word::LogQuiet => Request::LogQuiet,
        Word::LogReopen => Request::LogReopen,
        Word::Hold => Request::Hold {
            peer: peer.ok_or(RequestFault::BadField)?,
        },
        Word::Release => Request::Release {
            peer: peer.ok_or(RequestFault::BadField)?,
        },
        Word::Purge => Request::Purge {
            peer: peer.ok_or(RequestFault::BadField)?,
            key,
        },
        Word::DropArticle => Request::DropArticle {
            peer,
            id: id.ok_or(RequestFault::BadField)?,
        },
        Word::TakeIn => Request::TakeIn { peer },
        Word::Reload => Request::Reload,
    })
}

fn read_peer(alloc: Global, value: Option<&[u8]>) -> Result<Option<PeerName>, RequestFault>
    requires { good is_peer_name (option_map (λ text. text.now) value) ≡ true }
    ensures ok { IfOk result (λ peer. peer ≡ option_map (λ text. text.now) value.entry) }
    ensures err { OnErr result (result ≡ Err RequestFault.NoMemory) }
{
    match value {
        Some(text) => Ok(PeerName::read(alloc, text)?),
        None => Ok(None),
    }
}

fn read_id(alloc: Global, value: Option<&[u8]>) -> Result<Option<MsgId>, RequestFault>
    requires { good is_msg_id (option_map (λ text. text.now) value) ≡ true }
    ensures ok { IfOk result (λ id. id ≡ option_map (λ text. text.now) value.entry) }
    ensures err { OnErr result (result ≡ Err RequestFault.NoMemory) }
{
    match value {
        Some(text) => Ok(MsgId::read(alloc, text)?),
        None => Ok(None),
    }
}

fn read_key(value: Option<&[u8]>) -> Option<u64>
    ensures { result ≡ key_in (option_map (λ text. text.now) value.entry) }
{
    match value {
        Some(text) => read_number(text),
        None => None,
    }
}
