// The articles of the batch, one after another.
use crate::directory::Directory;
use crate::fault::FilingFault;
use header_fields::message_id;
use rnews::{Waiting, article_length};
use std::alloc::Global;
use std::io::{BufRead, BufReader, ErrorKind, Read, Write};
use std::rt::Files;

// How many octets are read at once.
const BUFFER_OCTETS: usize = 65_536;

// The length of the longest line before an article, in octets with its LF.
const LINE_MAX_OCTETS: u64 = 64;

// Where articles are filed, and under which tokens.
#[derive(Drop)]
struct Filer<'a> {
    waiting: Waiting,
    directory: Directory<'a>,
}

/// Files each article of standard input for which a token waits, and prints the token.
///
/// # Errors
/// `Line` and `Cut` if standard input is not a batch, `Unread` if it cannot be read, `Unwritten` if a file or
/// standard output cannot be written, `NoMemory`. The articles before the error are filed.
pub fn file_all<R: AllocGlobal + Input + Print + Files<File: Write>>(
    rt: &R,
    directory: &str,
    waiting: Waiting,
) -> Result<(), FilingFault> {
    let alloc = rt.alloc();
    let Ok(mut reader) = BufReader::with_capacity(alloc, BUFFER_OCTETS, rt.reader()) else {
        return Err(FilingFault::NoMemory);
    };
    let mut filer = Filer {
        waiting,
        directory: Directory::new(alloc, directory),
    };
    filer.file_each(rt, &mut reader)
}

impl Filer<'_> {
    fn file_each<R: AllocGlobal + Print + Files<File: Write>, B: BufRead>(
        &mut self,
        rt: &R,
        reader: &mut B,
    ) -> Result<(), FilingFault> {
        let mut article = Vec::new(rt.alloc());
        for count in 0..u64::MAX {
            let Some(length) = next_length(rt.alloc(), reader, count)? else {
                break;
            };
            read_article(rt.alloc(), reader, length, &mut article)?;
            self.file(rt, &article)?;
        }
        Ok(())
    }

    // Files an article, if one token waits for it.
    fn file<R: AllocGlobal + Print + Files<File: Write>>(
        &mut self,
        rt: &R,
        article: &[u8],
    ) -> Result<(), FilingFault> {
        let Some(id) = message_id(rt.alloc(), article)? else {
            return Ok(());
        };
        let Some(token) = self.waiting.take(&id) else {
            return Ok(());
        };
        self.directory.file(rt, &token, article)
    }
}

// The length of the next article, after `count` articles; `None` at the end of the batch.
fn next_length<B: BufRead>(
    alloc: Global,
    reader: &mut B,
    count: u64,
) -> Result<Option<u64>, FilingFault> {
    let mut line = Vec::new(alloc);
    if let Err(reason) = reader.take(LINE_MAX_OCTETS).read_until(b'\n', &mut line) {
        return Err(FilingFault::unread(alloc, "standard input", reason));
    }
    if line.is_empty() {
        return Ok(None);
    }
    let Some(line) = line.strip_suffix(b"\n") else {
        return Err(FilingFault::Line(count));
    };
    match article_length(line) {
        Some(length) => Ok(Some(length)),
        None => Err(FilingFault::Line(count)),
    }
}

// Reads an article of this length.
fn read_article<B: BufRead>(
    alloc: Global,
    reader: &mut B,
    length: u64,
    article: &mut Vec<u8>,
) -> Result<(), FilingFault> {
    article.clear();
    match reader.take(length).read_to_end(article) {
        Ok(count) if count as u64 == length => Ok(()),
        Ok(_) => Err(FilingFault::Cut),
        Err(reason) => Err(FilingFault::unread(alloc, "standard input", reason)),
    }
}
