// Texts as blocks, and blocks as texts: the crate dot_codec.
use crate::octets::{put, put_printed};
use bytes::BytesMut;
use dot_codec::{BlockFault, BlockRefusal, from_block, is_sendable, to_block};
use std::alloc::AllocError;

/// Whether a text can be sent, and its block or the refusal.
pub fn put_block(answer: &mut Vec<u8>, text: &[u8]) -> Result<(), AllocError> {
    if is_sendable(text) {
        put(answer, b"sendable")?;
    }
    match to_block(*answer.allocator(), text) {
        Ok(block) => put(answer, block.as_slice()),
        Err(BlockRefusal::NoMemory) => Err(AllocError),
        Err(refusal) => put_printed(answer, &refusal),
    }
}

/// What is in an output that had these octets, once it was to take a text's block; the refusal before it, if there is
/// one.
pub fn put_output(answer: &mut Vec<u8>, octets: &[u8], text: &[u8]) -> Result<(), AllocError> {
    let mut output = BytesMut::copy_from_slice(*answer.allocator(), octets)?;
    match dot_codec::put_block(&mut output, text, 6) {
        Ok(()) => {}
        Err(BlockRefusal::NoMemory) => return Err(AllocError),
        Err(refusal) => put_printed(answer, &refusal)?,
    }
    put(answer, output.as_slice())
}

/// Whether a text can be sent, of one whose block is too long for a row.
pub fn put_sendable(answer: &mut Vec<u8>, text: &[u8]) -> Result<(), AllocError> {
    put_printed(answer, &is_sendable(text))
}

/// The lines of a block and its length, or its fault.
pub fn put_text(answer: &mut Vec<u8>, octets: &[u8]) -> Result<(), AllocError> {
    match from_block(*answer.allocator(), octets) {
        Ok((lines, used)) => {
            put(answer, &lines)?;
            put_printed(answer, &used)
        }
        Err(BlockFault::NoMemory) => Err(AllocError),
        Err(fault) => put_printed(answer, &fault),
    }
}
