// Stores of articles, and articles that are read from files: the crate article_store.
ghost use Rattle.std.specs.Prelude.{IfOk, IfSome};
ghost use Rattle.dot_codec.specs.Lines.{IsSendable};

use crate::fault::RowFault;
use crate::octets::{number_in, put, put_printed};
use article_store::{Articles, Found, MemArticles, StoreFault, read_article};
use bytes::Bytes;
use funnel::Token;
use std::alloc::{AllocError, Global};
use std::io::{self, ErrorKind, Read};

fn token_of(alloc: Global, octets: &[u8]) -> Result<Token, RowFault> {
    Token::read(alloc, octets)?.ok_or(RowFault::Argument(1, "a token"))
}

/// Puts a text under a token.
pub fn insert(
    alloc: Global,
    store: &mut MemArticles,
    token: &[u8],
    text: &[u8],
) -> Result<(), RowFault> {
    let token = token_of(alloc, token)?;
    store.insert(&token, Bytes::copy_from_slice(alloc, text)?)?;
    Ok(())
}

/// Removes the text under a token, and adds whether there was one.
pub fn put_removed(
    answer: &mut Vec<u8>,
    store: &mut MemArticles,
    token: &[u8],
) -> Result<(), RowFault> {
    let token = token_of(*answer.allocator(), token)?;
    put_printed(answer, &store.remove(&token))?;
    Ok(())
}

/// Adds what a store has under a token.
pub fn put_fetched(
    answer: &mut Vec<u8>,
    store: &mut MemArticles,
    token: &[u8],
) -> Result<(), RowFault> {
    let token = token_of(*answer.allocator(), token)?;
    match store.fetch(&token) {
        Ok(found) => put_found(answer, &found)?,
        Err(fault) => put_store_fault(answer, fault)?,
    }
    Ok(())
}

/// Adds the text that a store hands out for a token.
pub fn put_handed_out<A: Articles>(
    answer: &mut Vec<u8>,
    store: &mut A,
    token: &[u8],
) -> Result<(), RowFault> {
    let token = token_of(*answer.allocator(), token)?;
    match handed_out(store, &token) {
        Ok(Some(text)) => put(answer, text.as_slice())?,
        Ok(None) => put(answer, b"none")?,
        Err(fault) => put_store_fault(answer, fault)?,
    }
    Ok(())
}

// The text under a token if it is handed out, by what any store promises.
fn handed_out<A: Articles>(store: &mut A, token: &Token) -> Result<Option<Bytes>, StoreFault>
    ensures sendable { IfOk result (λ found. IfSome found IsSendable) }
    ensures said { IfOk result
        (λ found. IfSome found (λ text. A.says store.old token.now (Some text))) }
{
    match store.fetch(token)? {
        Found::Article(text) => Ok(Some(text)),
        Found::Gone | Found::Unsendable => Ok(None),
    }
}

/// A store on a disk that cannot be read, which says nothing.
#[derive(Drop)]
pub struct BrokenDisk;

impl Articles for BrokenDisk {
    fn fetch(&mut self, _token: &Token) -> Result<Found, StoreFault> {
        Err(StoreFault::Disk)
    }
}

fn put_store_fault(answer: &mut Vec<u8>, fault: StoreFault) -> Result<(), AllocError> {
    match fault {
        StoreFault::Disk => put(answer, b"Disk"),
        StoreFault::NoMemory => Err(AllocError),
    }
}

// Adds what was found: of a long text its length.
fn put_found(answer: &mut Vec<u8>, found: &Found) -> Result<(), AllocError> {
    match found {
        Found::Article(text) if text.len() < 100 => put(answer, text.as_slice()),
        Found::Article(text) => put_printed(answer, &text.len()),
        Found::Gone => put(answer, b"gone"),
        Found::Unsendable => put(answer, b"unsendable"),
    }
}

// A reader of a text. It gives pieces of at most this many octets, reports every other read as interrupted, and may
// fail at the end of the text.
#[derive(Drop)]
struct Pieces<'a> {
    text: &'a [u8],
    piece: usize,
    interrupted: bool,
    end: Option<ErrorKind>,
}

impl Read for Pieces<'_> {
    fn read(&mut self, buf: &mut [u8]) -> io::Result<usize> {
        self.interrupted = !self.interrupted;
        if self.interrupted {
            return Err(io::Error::from(ErrorKind::Interrupted));
        }
        if let Some(kind) = self.end
            && self.text.is_empty()
        {
            return Err(io::Error::from(kind));
        }
        let count = self.text.len().min(self.piece).min(buf.len());
        let (piece, rest) = self.text.split_at(count);
        buf[..count].copy_from_slice(piece);
        self.text = rest;
        Ok(count)
    }
}

// The kinds of errors with which a read of a file may end, by the names that rows have for them.
const KINDS: [(&[u8], ErrorKind); 6] = [
    (b"NotFound", ErrorKind::NotFound),
    (b"NotADirectory", ErrorKind::NotADirectory),
    (b"IsADirectory", ErrorKind::IsADirectory),
    (b"OutOfMemory", ErrorKind::OutOfMemory),
    (b"PermissionDenied", ErrorKind::PermissionDenied),
    (b"Other", ErrorKind::Other),
];

// The kind of error that an argument names; none if it is empty.
fn kind_in(name: &[u8]) -> Result<Option<ErrorKind>, RowFault> {
    if name.is_empty() {
        return Ok(None);
    }
    match KINDS.iter().find(|(known, _)| *known == name) {
        Some((_, kind)) => Ok(Some(*kind)),
        None => Err(RowFault::Argument(3, "a kind of error")),
    }
}

fn name_of(kind: ErrorKind) -> &'static [u8] {
    match KINDS.iter().find(|(_, known)| *known == kind) {
        Some((name, _)) => name,
        None => b"another",
    }
}

/// Reads a text as an article, from a reader of pieces that are so long, and that ends with an error of this kind if
/// one is named. Adds what was read, and how many octets the reader has left.
pub fn put_read(
    answer: &mut Vec<u8>,
    buffer: &mut Vec<u8>,
    arguments: &[Vec<u8>],
    text: &[u8],
    end: &[u8],
) -> Result<(), RowFault> {
    let mut reader = Pieces {
        text,
        piece: number_in(arguments, 2)? as usize,
        interrupted: false,
        end: kind_in(end)?,
    };
    match read_article(*answer.allocator(), &mut reader, buffer) {
        Ok(found) => put_found(answer, &found)?,
        Err(error) => put(answer, name_of(error.kind()))?,
    }
    put_printed(answer, &reader.text.len())?;
    Ok(())
}
