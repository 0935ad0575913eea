// Names, lines, words, and the lines of a stream: the crate funnel.
use crate::octets::{put, put_printed};
use funnel::{
    FunnelLine, LineCutter, LineFault, MsgId, PeerName, Token, next_word, read_backlog_line,
    read_line, without_cr,
};
use std::alloc::AllocError;

/// What a line says: its token, its message-id and its peers, or its fault.
pub fn put_line(answer: &mut Vec<u8>, line: &[u8]) -> Result<(), AllocError> {
    match read_line(*answer.allocator(), line) {
        Ok(line) => put_parts(answer, &line),
        Err(LineFault::NoMemory) => Err(AllocError),
        Err(fault) => put_printed(answer, &fault),
    }
}

fn put_parts(answer: &mut Vec<u8>, line: &FunnelLine) -> Result<(), AllocError> {
    put(answer, line.token.bytes())?;
    put(answer, line.id.bytes())?;
    for peer in &line.peers {
        put(answer, peer.bytes())?;
    }
    Ok(())
}

/// The same of a line of a backlog file, which names no peers.
pub fn put_backlog_line(answer: &mut Vec<u8>, line: &[u8]) -> Result<(), AllocError> {
    match read_backlog_line(*answer.allocator(), line) {
        Ok((token, id)) => {
            put(answer, token.bytes())?;
            put(answer, id.bytes())
        }
        Err(LineFault::NoMemory) => Err(AllocError),
        Err(fault) => put_printed(answer, &fault),
    }
}

/// Whether a line names a peer; nothing if either cannot be read.
pub fn put_named(answer: &mut Vec<u8>, line: &[u8], peer: &[u8]) -> Result<(), AllocError> {
    let alloc = *answer.allocator();
    if let Some(peer) = PeerName::read(alloc, peer)?
        && let Ok(line) = read_line(alloc, line)
    {
        put_printed(answer, &line.names(&peer))?;
    }
    Ok(())
}

/// A copy of the message-id that the octets are; nothing if they are none.
pub fn put_id(answer: &mut Vec<u8>, octets: &[u8]) -> Result<(), AllocError> {
    match MsgId::read(*answer.allocator(), octets)? {
        Some(id) => put(answer, id.clone()?.bytes()),
        None => Ok(()),
    }
}

/// The same of a token.
pub fn put_token(answer: &mut Vec<u8>, octets: &[u8]) -> Result<(), AllocError> {
    match Token::read(*answer.allocator(), octets)? {
        Some(token) => put(answer, token.clone()?.bytes()),
        None => Ok(()),
    }
}

/// The same of the name of a peer.
pub fn put_peer_name(answer: &mut Vec<u8>, octets: &[u8]) -> Result<(), AllocError> {
    match PeerName::read(*answer.allocator(), octets)? {
        Some(name) => put(answer, name.clone()?.bytes()),
        None => Ok(()),
    }
}

/// The words of a text, each with everything after it.
pub fn put_words(answer: &mut Vec<u8>, text: &[u8]) -> Result<(), AllocError> {
    let mut left = text;
    for _ in 0..text.len() {
        if let Some((word, rest)) = next_word(left) {
            put(answer, word)?;
            put(answer, rest)?;
            left = rest;
        }
    }
    Ok(())
}

/// A line without the CR at its end, if it has one.
pub fn put_without_cr(answer: &mut Vec<u8>, line: &[u8]) -> Result<(), AllocError> {
    put(answer, without_cr(line))
}

/// The lines of a text that is fed whole; and whether they are others if it is cut in two at some place, or if what
/// comes after that place is fed octet by octet.
pub fn put_cut(answer: &mut Vec<u8>, text: &[u8]) -> Result<(), AllocError> {
    put_lines_in(answer, text, text.len(), 1)?;
    for first in 0..=text.len() {
        for length in [1, usize::MAX] {
            let mut other = Vec::new(*answer.allocator());
            put_lines_in(&mut other, text, first, length)?;
            if other != *answer {
                put_printed(answer, &first)?;
                return put(answer, b"cuts other lines");
            }
        }
    }
    Ok(())
}

// The lines of a text that is fed in a first piece of `first` octets and then in pieces of `length` octets.
fn put_lines_in(
    answer: &mut Vec<u8>,
    text: &[u8],
    first: usize,
    length: usize,
) -> Result<(), AllocError> {
    let mut cutter = LineCutter::new(*answer.allocator());
    let (beginning, rest) = text.split_at(first.min(text.len()));
    cutter.feed(beginning)?;
    for piece in rest.chunks(length.max(1)) {
        cutter.feed(piece)?;
    }
    put_lines_of(answer, &mut cutter)
}

/// The lines that a cutter has once this piece is fed too. No row has more than nine.
pub fn put_fed(
    answer: &mut Vec<u8>,
    cutter: &mut LineCutter,
    piece: &[u8],
) -> Result<(), AllocError> {
    cutter.feed(piece)?;
    put_lines_of(answer, cutter)
}

fn put_lines_of(answer: &mut Vec<u8>, cutter: &mut LineCutter) -> Result<(), AllocError> {
    for _ in 0..9 {
        if let Some(line) = cutter.next() {
            put(answer, &line)?;
        }
    }
    Ok(())
}
