// A store of articles that are files below a directory.
ghost use Rattle.std.specs.Prelude.{◌≡◌, ◌≢◌, ◌∷◌, [], ◌++◌, string_bytes};
ghost use Rattle.std.specs.Prelude.{IfOk, IfSome, Ok, Some};
ghost use Rattle.article_store.specs.Causes.{cause_of};
ghost use Rattle.article_store.specs.Finds.{IsFound};
ghost use Rattle.article_store.specs.Paths.{root_of};
ghost use Rattle.article_store.specs.Reads.{ConsumesAtMost, IsReadAs, answer_to};

use crate::copy::copy_of;
use crate::front::read_front;
use crate::store::{Articles, Found, SpoolDirectory, StoreFault};
use crate::unsendable::{Unsendable, unsendable_cause};
use bytes::Bytes;
use funnel::{MsgId, Token};
use std::alloc::{AllocError, Global};
use std::fs::{self, File};
use std::io::{self, ErrorKind, Read};
use std::rt::Files;
use std::str;

/// Articles that are files below a directory: the text of a token is in the file whose path is the directory's, `/`
/// and the token. Each fetch looks at, opens, reads and closes one file, and copies its text once. The path and the
/// text are built in two buffers that are reused: one of the longest path, one of at most 16,777,217 octets. So is the
/// room of the last article of 65,536 to 4,194,304 octets, once nobody else has that any more.
#[derive(Drop)]
pub struct Folder<F: Files + Drop> {
    files: F,
    alloc: Global,
    root: String,
    path: String,
    buffer: Vec<u8>,
    // The last article whose room is to be reused.
    last: Option<Bytes>,
    // The error of the last fetch that failed.
    reason: Option<io::Error>,
    // The cause of the last fetch that found a text that can't be sent.
    cause: Option<Unsendable>,
}

impl<F: Files + Drop> Folder<F> {
    /// A store over the files below the directory at this path. Only `fetch` looks at the directory.
    ///
    /// # Errors
    /// `NoMemory` if memory was refused.
    pub fn new(files: F, alloc: Global, directory: &str) -> Result<Self, AllocError>
        ensures { IfOk result (λ folder. root_of folder ≡ directory.now ++ 47 ∷ []) }
    {
        let mut root = String::from_str(alloc, directory)?;
        root.push_str("/")?;
        Ok(Folder {
            files,
            alloc,
            root,
            path: String::new(alloc),
            buffer: Vec::new(alloc),
            last: None,
            reason: None,
            cause: None,
        })
    }

    /// The path of a token's file, for a log.
    ///
    /// # Errors
    /// [`StoreFault::NoMemory`] if memory was refused.
    pub fn path_of(&mut self, token: &Token) -> Result<&str, StoreFault>
        ensures { IfOk result (λ path. path.now ≡ root_of self.old ++ token.now) }
    {
        build_path(&mut self.path, &self.root, token)
    }
}

impl<F: Files + Drop> Articles for Folder<F> {
    /// The article in the token's file, as [`read_article`] returns it. `Gone` if there is no such file: the system
    /// reports that the path does not exist, is a directory, or leads through a file that is not a directory.
    ///
    /// # Errors
    /// [`StoreFault::NoMemory`] if memory was refused; [`StoreFault::Disk`] if the file could not be looked at,
    /// opened or read for any other reason, or is neither a regular file nor a directory: opening a FIFO might never
    /// end.
    fn fetch(&mut self, token: &Token) -> Result<Found, StoreFault>
        ensures sendable { IfOk result IsFound }
    {
        let path = build_path(&mut self.path, &self.root, token)?;
        let read = match fs::metadata(&self.files, path) {
            Ok(there) if there.is_file() => match File::open(&self.files, path) {
                Ok(mut file) => read_judged(
                    self.alloc,
                    &mut file,
                    &mut self.buffer,
                    &mut self.last,
                    &mut self.cause,
                ),
                Err(error) => Err(error),
            },
            Ok(there) if there.is_dir() => return Ok(Found::Gone),
            Ok(_) => Err(io::Error::from(ErrorKind::InvalidInput)),
            Err(error) => Err(error),
        };
        match read {
            Ok(found) => Ok(found),
            Err(error) => {
                let answer = missing(error.kind());
                self.reason = Some(error);
                answer
            }
        }
    }
}

impl<F: Files + Drop> SpoolDirectory for Folder<F> {
    /// The article in the token's file, whatever message-id it has: a token names one article for good.
    fn fetch_for(&mut self, token: &Token, _id: &MsgId) -> Result<Found, StoreFault>
        ensures sendable { IfOk result IsFound }
    {
        self.fetch(token)
    }

    fn is_there(&self) -> bool {
        fs::metadata(&self.files, self.root.as_str()).is_ok_and(|there| there.is_dir())
    }

    fn take_reason(&mut self) -> Option<io::Error> {
        self.reason.take()
    }

    fn take_cause(&mut self) -> Option<Unsendable> {
        self.cause.take()
    }
}

/// Reads an article from a reader: the whole text up to the reader's end, whatever its length is said to be, so that
/// a part of a text is never an article. If there are more than 16,777,216 octets, the first 16,777,217 are read, and
/// the result is `Unsendable`. An interrupted read is tried again. The text is read into the buffer, which grows to
/// that length at most, and is copied from there once. The result is never `Gone`.
///
/// # Errors
/// The reader's error if a read failed; [`ErrorKind::OutOfMemory`] if memory was refused.
pub fn read_article<R: Read>(
    alloc: Global,
    reader: &mut R,
    buffer: &mut Vec<u8>,
) -> io::Result<Found>
    ensures sendable { IfOk result IsFound }
    ensures there { result ≢ Ok Found.Gone }
    ensures whole { IfSome (R.remaining reader.old) (λ text. IfOk result (IsReadAs text)) }
    ensures limit { ConsumesAtMost 16777217 (R.remaining reader.old) (R.remaining reader.new) }
{
    read_judged(alloc, reader, buffer, &mut None, &mut None)
}

// The same, in the room of the last article if nobody else has that any more; and has the cause if it is `Unsendable`.
fn read_judged<R: Read>(
    alloc: Global,
    reader: &mut R,
    buffer: &mut Vec<u8>,
    last: &mut Option<Bytes>,
    cause: &mut Option<Unsendable>,
) -> io::Result<Found>
    ensures sendable { IfOk result IsFound }
    ensures there { result ≢ Ok Found.Gone }
    ensures whole { IfSome (R.remaining reader.old) (λ text. IfOk result (IsReadAs text)) }
    ensures limit { ConsumesAtMost 16777217 (R.remaining reader.old) (R.remaining reader.new) }
{
    let count = read_front(reader, buffer)?;
    Ok(judge(alloc, &buffer[..count], last, cause)?)
}

// A token is ASCII, so its octets are text.
fn build_path<'p>(path: &'p mut String, root: &String, token: &Token) -> Result<&'p str, StoreFault>
    ensures { IfOk result (λ built. built.now ≡ string_bytes root.now ++ token.now) }
{
    let Ok(name) = str::from_utf8(token.bytes()) else {
        return Err(StoreFault::Disk);
    };
    path.clear();
    path.push_str(root.as_str())?;
    path.push_str(name)?;
    Ok(path.as_str())
}

// The text as an article if it can be sent; else `Unsendable`, with the cause.
fn judge(
    alloc: Global,
    text: &[u8],
    last: &mut Option<Bytes>,
    cause: &mut Option<Unsendable>,
) -> Result<Found, AllocError>
    ensures sendable { IfOk result IsFound }
    ensures said { IfOk result (IsReadAs text.now) }
    ensures cause { result ≡ Ok Found.Unsendable → cause.new ≡ Some (cause_of text.now) }
{
    let found = unsendable_cause(text);
    if found.is_none() {
        return Ok(Found::Article(copy_of(alloc, text, last)?));
    }
    *cause = found;
    Ok(Found::Unsendable)
}

// The result if a file could not be looked at, opened or read.
fn missing(kind: ErrorKind) -> Result<Found, StoreFault>
    ensures { result ≡ answer_to kind }
{
    match kind {
        ErrorKind::NotFound => Ok(Found::Gone),
        ErrorKind::NotADirectory => Ok(Found::Gone),
        ErrorKind::IsADirectory => Ok(Found::Gone),
        ErrorKind::OutOfMemory => Err(StoreFault::NoMemory),
        _ => Err(StoreFault::Disk),
    }
}
