// Reply lines from pieces of any size: the crate reply_reader.
use crate::octets::{put, put_printed};
use reply_reader::{Reply, ReplyFault, ReplyReader};
use std::alloc::AllocError;

/// The replies in octets that are fed whole, and the fault after them; after a fault also the answer for one more
/// line. And whether it is another one if the octets are cut in two at some place, or fed octet by octet.
pub fn put_replies(answer: &mut Vec<u8>, octets: &[u8]) -> Result<(), AllocError> {
    put_replies_in(answer, octets, octets.len(), 1)?;
    for first in 0..=octets.len() {
        let length = if first == 0 { 1 } else { usize::MAX };
        let mut other = Vec::new(*answer.allocator());
        put_replies_in(&mut other, octets, first, length)?;
        if other != *answer {
            put_printed(answer, &first)?;
            return put(answer, b"cuts other replies");
        }
    }
    Ok(())
}

// The same for octets that are fed in a first piece of `first` octets and then in pieces of `length` octets.
fn put_replies_in(
    answer: &mut Vec<u8>,
    octets: &[u8],
    first: usize,
    length: usize,
) -> Result<(), AllocError> {
    let mut reader = ReplyReader::new(*answer.allocator());
    let (beginning, rest) = octets.split_at(first.min(octets.len()));
    reader.feed(beginning)?;
    let mut works = put_ready(answer, &mut reader)?;
    for piece in rest.chunks(length.max(1)) {
        reader.feed(piece)?;
        works = works && put_ready(answer, &mut reader)?;
    }
    if !works {
        reader.feed(b"200\n")?;
        put_ready(answer, &mut reader)?;
    }
    Ok(())
}

// Adds the replies that a reader has, and the fault after them. Returns whether there was none. No row has more than
// nine replies.
fn put_ready(answer: &mut Vec<u8>, reader: &mut ReplyReader) -> Result<bool, AllocError> {
    for _ in 0..9 {
        match reader.next() {
            Ok(Some(reply)) => put_reply(answer, &reply)?,
            Ok(None) => return Ok(true),
            Err(ReplyFault::NoMemory) => return Err(AllocError),
            Err(fault) => {
                put_printed(answer, &fault)?;
                return Ok(false);
            }
        }
    }
    Ok(true)
}

// Adds a reply: its code, its message-id or nothing, and its text.
fn put_reply(answer: &mut Vec<u8>, reply: &Reply) -> Result<(), AllocError> {
    put_printed(answer, &reply.code)?;
    match &reply.id {
        Some(id) => put(answer, id.bytes())?,
        None => put(answer, b"")?,
    }
    put(answer, &reply.text)
}
