// Why an article could not be looked at.
ghost use Rattle.std.specs.Prelude.{◌≡◌};
ghost use Rattle.innd_spool.specs.Files.{fault_of};

use article_store::StoreFault;
use innd_storage::{BufferName, HeaderFault, TokenFault};
use std::alloc::{AllocError, Global};
use std::io::{self, ErrorKind};
use std::str;

/// What a fetch returns after this error.
pub(crate) fn fault_of(kind: ErrorKind) -> StoreFault
    ensures { result ≡ fault_of kind }
{
    match kind {
        ErrorKind::OutOfMemory => StoreFault::NoMemory,
        _ => StoreFault::Disk,
    }
}

/// The error with a name before it: of the file in which it came.
pub(crate) fn named(alloc: Global, name: &str, error: io::Error) -> io::Error {
    let kind = error.kind();
    match format!(in alloc; "{name}: {error}") {
        Ok(words) => io::Error::new(kind, words.as_str()),
        Err(_) => error,
    }
}

/// The error with the name of a buffer before it.
pub(crate) fn in_buffer(alloc: Global, name: &BufferName, error: io::Error) -> io::Error {
    let kind = error.kind();
    let buffer = text_of(name);
    match format!(in alloc; "buffer {buffer}: {error}") {
        Ok(words) => io::Error::new(kind, words.as_str()),
        Err(_) => error,
    }
}

/// A directory is there in place of an article or a buffer.
pub(crate) fn is_directory() -> io::Error {
    io::Error::from(ErrorKind::IsADirectory)
}

/// The buffer's file ends before the octets that were wanted.
pub(crate) fn cut_off() -> io::Error {
    io::Error::new(ErrorKind::UnexpectedEof, "failed to fill whole buffer")
}

/// The directory in which innd stored an article is missing.
pub(crate) fn not_mounted(alloc: Global, directory: &str) -> io::Error {
    said(format!(in alloc; "{directory}: no such directory; is innd's spool mounted?"))
}

/// The path of a newsgroup is not UTF-8.
pub(crate) fn not_text() -> io::Error {
    io::Error::other("tradspool.map has a path that is not UTF-8")
}

/// No line of the map has the newsgroup.
pub(crate) fn no_group(alloc: Global, number: u32) -> io::Error {
    said(format!(in alloc; "tradspool.map has no group number {number}"))
}

/// No line of the configuration has the buffer.
pub(crate) fn no_buffer(alloc: Global, name: &BufferName) -> io::Error {
    let buffer = text_of(name);
    said(format!(in alloc; "cycbuff.conf has no buffer {buffer}"))
}

/// Nobody has said where the buffers are.
pub(crate) fn no_configuration() -> io::Error {
    io::Error::other("no cycbuff.conf says where the buffers of CNFS are")
}

/// The header is that of another buffer.
pub(crate) fn other_buffer() -> io::Error {
    io::Error::other("its header has the name of another buffer")
}

/// The header is refused.
pub(crate) fn bad_header(fault: HeaderFault) -> io::Error {
    io::Error::other(match fault {
        HeaderFault::NotCycbuff => "it is no buffer of CNFS, version 4",
        HeaderFault::BadName => "its header has no name",
        HeaderFault::BadNumber => "its header has a bad number",
    })
}

/// The place of an article of this token cannot be read, and there is no copy of it.
pub(crate) fn no_place(fault: TokenFault) -> io::Error {
    io::Error::other(match fault {
        TokenFault::Timecaf => "no copy, and files of timecaf are not read",
        TokenFault::UnknownMethod => "no copy, and the token is of an unknown storage method",
        TokenFault::BadFields => "no copy, and the token is not as its storage method writes it",
    })
}

fn said(words: Result<String, AllocError>) -> io::Error {
    match words {
        Ok(words) => io::Error::other(words.as_str()),
        Err(error) => io::Error::from(error),
    }
}

// The name of a buffer, which is mostly ASCII.
fn text_of(name: &BufferName) -> &str {
    str::from_utf8(name.bytes()).unwrap_or("?")
}
