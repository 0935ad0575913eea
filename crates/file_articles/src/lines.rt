// The funnel lines, which say which tokens wait for an article.
use crate::fault::FilingFault;
use funnel::{LineFault, Token, read_line};
use rnews::Waiting;
use std::alloc::{AllocError, Global};
use std::collections::BTreeSet;
use std::fs::File;
use std::io::Read;
use std::os::fd::AsRawFd;
use std::rt::Files;

// The greatest descriptor of a standard stream.
const LAST_DESCRIPTOR: i32 = 2;

/// The tokens that wait, from the lines of this file. A line that is not a funnel line is skipped, and so is one
/// whose token cannot name a file, or is in a line before.
///
/// # Errors
/// `Unread`; `NoMemory`; `Closed` if a standard stream is closed: then the file has got its descriptor.
pub fn read_lines<R: AllocGlobal + Files<File = File>>(
    rt: &R,
    path: &str,
) -> Result<Waiting, FilingFault> {
    let alloc = rt.alloc();
    let mut file = match File::open(rt, path) {
        Ok(file) => file,
        Err(reason) => return Err(FilingFault::unread(alloc, path, reason)),
    };
    if file.as_raw_fd() <= LAST_DESCRIPTOR {
        return Err(FilingFault::Closed);
    }
    let mut text = Vec::new(alloc);
    match file.read_to_end(&mut text) {
        Ok(_) => waiting_of(alloc, &text),
        Err(reason) => Err(FilingFault::unread(alloc, path, reason)),
    }
}

fn waiting_of(alloc: Global, text: &[u8]) -> Result<Waiting, FilingFault> {
    let mut waiting = Waiting::new(alloc);
    let mut known = BTreeSet::new(alloc);
    for line in text.split(|octet| *octet == b'\n') {
        add_line(alloc, &mut known, &mut waiting, line)?;
    }
    Ok(waiting)
}

fn add_line(
    alloc: Global,
    known: &mut BTreeSet<Vec<u8>>,
    waiting: &mut Waiting,
    line: &[u8],
) -> Result<(), FilingFault> {
    match read_line(alloc, line) {
        Ok(line) if is_file_name(&line.token) => {
            if is_new(alloc, known, &line.token)? {
                waiting.add(line.token, &line.id)?;
            }
            Ok(())
        }
        Err(LineFault::NoMemory) => Err(FilingFault::NoMemory),
        _ => Ok(()),
    }
}

// Whether the token is new; it is known from now on.
fn is_new(alloc: Global, known: &mut BTreeSet<Vec<u8>>, token: &Token) -> Result<bool, AllocError> {
    let name = Vec::from_slice(alloc, token.bytes())?;
    let is_new = known.insert(name)?;
    Ok(is_new)
}

// Whether the token names a file in a directory, and not the directory itself or a file elsewhere.
fn is_file_name(token: &Token) -> bool {
    let name = token.bytes();
    !matches!(name, b"." | b"..") && !name.contains(&b'/')
}
