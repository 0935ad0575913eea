// Articles that wait in files of lines beside the tapes.
use crate::lines::{Article, Owed, article_of};
use crate::reading::open_file;
use crate::unread::{Undone, UnreadFile};
use crate::wanted::may_list;
use funnel::LineCutter;
use std::alloc::{AllocError, AllocFailed, Global};
use std::fs::File;
use std::io::{self, ErrorKind, Read};
use std::rt::Files;

// How many octets are read at a time.
const PIECE_OCTETS: usize = 65_536;

/// How many lines a file has.
#[derive(Clone, Copy)]
pub(crate) struct LineCounts {
    /// Good ones.
    pub listed: u64,
    /// Malformed ones.
    pub malformed: u64,
}

/// Why the lines of a file are not in the list.
#[derive(Drop)]
pub(crate) enum KeptFault {
    /// Memory was refused.
    NoMemory,
    /// The file could not be read.
    Unread(UnreadFile),
    /// The list could not be written.
    Output(io::Error),
}

impl From<AllocError> for KeptFault {
    fn from(_: AllocError) -> Self {
        KeptFault::NoMemory
    }
}

impl From<UnreadFile> for KeptFault {
    fn from(unread: UnreadFile) -> Self {
        KeptFault::Unread(unread)
    }
}

impl<T: Drop> From<AllocFailed<T>> for KeptFault {
    fn from(_: AllocFailed<T>) -> Self {
        KeptFault::NoMemory
    }
}

/// What becomes of the articles that wait in files of lines.
pub(crate) trait TakesArticles {
    /// Takes an article that waits in this file.
    ///
    /// # Errors
    /// Memory was refused.
    fn take(&mut self, owed: Owed<'_>, article: &Article<'_>) -> Result<(), KeptFault>;

    /// Writes what the articles that were taken have left to be written.
    ///
    /// # Errors
    /// The list could not be written.
    fn put(&mut self) -> Result<(), KeptFault>;
}

/// Articles that are counted, and nothing else.
#[derive(Drop)]
pub(crate) struct CountedAlone;

impl TakesArticles for CountedAlone {
    fn take(&mut self, _owed: Owed<'_>, _article: &Article<'_>) -> Result<(), KeptFault> {
        Ok(())
    }

    fn put(&mut self) -> Result<(), KeptFault> {
        Ok(())
    }
}

/// Hands on the article of each good line of the file at this path, in their order. There is none if the file is
/// missing, and a last piece without LF is no line. If there are names, lines of `~unknown` that begin with another
/// word are passed over.
///
/// # Errors
/// The file cannot be read; the list cannot be written; memory was refused.
pub(crate) fn take_articles<F: Files<File = File>, T: TakesArticles>(
    alloc: Global,
    files: &F,
    path: &str,
    owed: Owed<'_>,
    names: &[&str],
    taker: &mut T,
) -> Result<LineCounts, KeptFault> {
    let mut counts = LineCounts {
        listed: 0,
        malformed: 0,
    };
    let Some(file) = open_file(alloc, files, path)? else {
        return Ok(counts);
    };
    let mut pieces = FilePieces::of(alloc, file)?;
    for _ in 0..u64::MAX {
        if !pieces.read_next(alloc, path)? {
            break;
        }
        take_cut(alloc, &mut pieces.cutter, owed, names, &mut counts, taker)?;
    }
    Ok(counts)
}

// A file of lines that is read piece by piece.
#[derive(Drop)]
struct FilePieces {
    file: File,
    piece: Vec<u8>,
    cutter: LineCutter,
}

impl FilePieces {
    fn of(alloc: Global, file: File) -> Result<Self, AllocError> {
        let piece = vec![in alloc; 0u8; PIECE_OCTETS]?;
        let cutter = LineCutter::new(alloc);
        Ok(FilePieces {
            file,
            piece,
            cutter,
        })
    }

    // Reads the next piece of the file, which is at this path, and cuts it. False at the file's end.
    fn read_next(&mut self, alloc: Global, path: &str) -> Result<bool, KeptFault> {
        match self.file.read(&mut self.piece) {
            Ok(0) => Ok(false),
            Ok(count) => {
                self.cutter.feed(&self.piece[..count])?;
                Ok(true)
            }
            Err(error) if error.kind() == ErrorKind::Interrupted => Ok(true),
            Err(error) => Err(UnreadFile::new(alloc, path, Undone::Read, error).into()),
        }
    }
}

// Hands on the articles of the lines that are cut, and counts these.
fn take_cut<T: TakesArticles>(
    alloc: Global,
    cutter: &mut LineCutter,
    owed: Owed<'_>,
    names: &[&str],
    counts: &mut LineCounts,
    taker: &mut T,
) -> Result<(), KeptFault> {
    for _ in 0..u64::MAX {
        let Some(line) = cutter.next() else {
            break;
        };
        if may_list(names, owed, &line) {
            take_line(alloc, &line, owed, counts, taker)?;
        }
    }
    taker.put()
}

// Hands on the article of this line, if it has one, and counts the line.
fn take_line<T: TakesArticles>(
    alloc: Global,
    line: &[u8],
    owed: Owed<'_>,
    counts: &mut LineCounts,
    taker: &mut T,
) -> Result<(), KeptFault> {
    match article_of(alloc, owed, line) {
        Ok(Some(article)) => {
            counts.listed = counts.listed.saturating_add(1);
            taker.take(owed, &article)
        }
        Ok(None) => {
            counts.malformed = counts.malformed.saturating_add(1);
            Ok(())
        }
        Err(AllocError) => Err(KeptFault::NoMemory),
    }
}
