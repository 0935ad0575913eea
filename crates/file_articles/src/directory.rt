// The directory in which articles are filed.
use crate::fault::FilingFault;
use funnel::Token;
use std::alloc::{AllocError, Global};
use std::fs::{self, OpenOptions};
use std::io::Write;
use std::rt::Files;
use std::str;

/// The directory in which articles are filed.
#[derive(Clone, Copy)]
pub struct Directory<'a> {
    alloc: Global,
    path: &'a str,
}

impl<'a> Directory<'a> {
    /// The directory at this path.
    pub fn new(alloc: Global, path: &'a str) -> Self {
        Directory { alloc, path }
    }

    /// Writes the article to a new file, named by the token, and prints the token. If that fails, the file is
    /// removed.
    ///
    /// # Errors
    /// `Unwritten` if there is already a file of that name, which stays as it is, if the file cannot be written, and
    /// for standard output; `NoMemory`.
    pub fn file<R: Files<File: Write> + Print>(
        &self,
        rt: &R,
        token: &Token,
        article: &[u8],
    ) -> Result<(), FilingFault> {
        let path = path_of(self.alloc, self.path, token)?;
        let line = line_of(self.alloc, token)?;
        let made = OpenOptions::new()
            .write(true)
            .create_new(true)
            .open(rt, path.as_str());
        let mut file = match made {
            Ok(file) => file,
            Err(reason) => return Err(FilingFault::unwritten(self.alloc, path.as_str(), reason)),
        };
        let fault = match file.write_all(article) {
            Ok(()) => match rt.write_all(&line) {
                Ok(()) => return Ok(()),
                Err(reason) => FilingFault::unwritten(self.alloc, "standard output", reason),
            },
            Err(reason) => FilingFault::unwritten(self.alloc, path.as_str(), reason),
        };
        let _ = fs::remove_file(rt, path.as_str());
        Err(fault)
    }
}

fn line_of(alloc: Global, token: &Token) -> Result<Vec<u8>, AllocError> {
    let mut line = Vec::from_slice(alloc, token.bytes())?;
    line.push(b'\n')?;
    Ok(line)
}

// DIRECTORY/TOKEN.
fn path_of(alloc: Global, directory: &str, token: &Token) -> Result<String, FilingFault> {
    let mut path = String::from_str(alloc, directory)?;
    path.push_str("/")?;
    // A token is ASCII.
    path.push_str(str::from_utf8(token.bytes()).unwrap_or(""))?;
    Ok(path)
}
