// A request is written as its text.
ghost use Rattle.std.specs.Prelude.{◌≡◌, ◌++◌, [], OnErr, OnOk};
ghost use Rattle.requests.specs.Fields.{field, fields_text, key_key, peer_key};
ghost use Rattle.requests.specs.Requests.{key_text, request_text, texts_for, word_of};

use crate::fields::{ID, KEY, PEER};
use crate::request::Request;
use crate::words::Word;
use funnel::PeerName;
use itoa::Buffer;
use std::alloc::AllocError;

/// Writes the text of a request behind what is there (docs/FORMATS.md).
///
/// # Errors
/// Memory was refused: nothing is written.
pub fn write_request(request: &Request, out: &mut Vec<u8>) -> Result<(), AllocError>
    ensures ok { OnOk result (out.new.items ≡ out.old.items ++ request_text request.now) }
    ensures unchanged { OnErr result (out.new.items ≡ out.old.items) }
{
    let mut text = Vec::from_slice(*out.allocator(), word_of(request).text())?;
    put_fields(&mut text, request)?;
    text.push(b'\n')?;
    out.extend_from_slice(&text)
}

fn word_of(request: &Request) -> Word
    ensures { result ≡ word_of request.now }
{
    match request {
        Request::Status { json: false, .. } => Word::Status,
        Request::Status { json: true, .. } => Word::StatusJson,
        Request::Retry { .. } => Word::Retry,
        Request::LogVerbose => Word::LogVerbose,
        Request::LogQuiet => Word::LogQuiet,
        Request::LogReopen => Word::LogReopen,
        Request::Hold { .. } => Word::Hold,
        Request::Release { .. } => Word::Release,
        Request::Purge { .. } => Word::Purge,
        Request::DropArticle { .. } => Word::DropArticle,
        Request::TakeIn { .. } => Word::TakeIn,
        Request::Reload => Word::Reload,
    }
}

fn put_fields(out: &mut Vec<u8>, request: &Request) -> Result<(), AllocError>
    ensures { OnOk result (out.new.items ≡ out.old.items ++ fields_text (texts_for request.now)) }
{
    match request {
        Request::Status { peer, .. } => put_peer(out, peer),
        Request::Retry { peer } => put_peer(out, peer),
        Request::Hold { peer } => put_field(out, PEER, peer.bytes()),
        Request::Release { peer } => put_field(out, PEER, peer.bytes()),
        Request::Purge { peer, key } => {
            put_field(out, PEER, peer.bytes())?;
            put_key(out, *key)
        }
        Request::DropArticle { peer, id } => {
            put_peer(out, peer)?;
            put_field(out, ID, id.bytes())
        }
        Request::TakeIn { peer } => put_peer(out, peer),
        Request::LogVerbose | Request::LogQuiet | Request::LogReopen | Request::Reload => Ok(()),
    }
}

fn put_peer(out: &mut Vec<u8>, peer: &Option<PeerName>) -> Result<(), AllocError>
    ensures { OnOk result (out.new.items ≡ out.old.items ++ field peer_key peer.now []) }
{
    match peer {
        Some(peer) => put_field(out, PEER, peer.bytes()),
        None => Ok(()),
    }
}

fn put_key(out: &mut Vec<u8>, key: Option<u64>) -> Result<(), AllocError>
    ensures { OnOk result (out.new.items ≡ out.old.items ++ field key_key (key_text key) []) }
{
    match key {
        Some(key) => put_field(out, KEY, Buffer::new().format(key).as_bytes()),
        None => Ok(()),
    }
}

fn put_field(out: &mut Vec<u8>, key: &[u8], value: &[u8]) -> Result<(), AllocError>
    ensures { OnOk result (out.new.items ≡ out.old.items ++ (key.now ++ value.now)) }
{
    out.extend_from_slice(key)?;
    out.extend_from_slice(value)
}
