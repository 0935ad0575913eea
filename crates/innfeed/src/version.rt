// The program's version.
use cli::VERSION;
use std::io::{self, ErrorKind};
use std::rt::{Env, Files};
use std::{env, fs};

// The version of the format of tapes (docs/FORMATS.md).
const TAPES: &str = "2";

// The fewest and the most hexadecimal digits of a commit.
const LEAST_DIGITS: usize = 7;

const MOST_DIGITS: usize = 40;

/// The version, after the program's name: `VERSION, tapes N`, and `, commit HASH` if a file `innfeed.commit` beside the
/// program has it on its first line.
///
/// # Errors
/// Memory was refused.
pub fn version_text<R: AllocGlobal + Env + Files>(rt: &R) -> io::Result<String> {
    let text = match commit_file(rt) {
        Ok(text) => text,
        Err(error) if error.kind() == ErrorKind::OutOfMemory => return Err(error),
        Err(_) => String::new(rt.alloc()),
    };
    match commit_in(text.as_str()) {
        Some(commit) => Ok(format!(in rt.alloc(); "{VERSION}, tapes {TAPES}, commit {commit}")?),
        None => Ok(format!(in rt.alloc(); "{VERSION}, tapes {TAPES}")?),
    }
}

// The text of the file beside the program.
fn commit_file<R: AllocGlobal + Env + Files>(rt: &R) -> io::Result<String> {
    let program = env::current_exe(rt)?;
    let path = program
        .as_path()
        .with_file_name(rt.alloc(), "innfeed.commit")?;
    fs::read_to_string(rt, path.as_path())
}

// The commit on the first line of this text, if that is one.
fn commit_in(text: &str) -> Option<&str> {
    let commit = text.lines().next()?;
    if LEAST_DIGITS <= commit.len()
        && commit.len() <= MOST_DIGITS
        && commit
            .as_bytes()
            .iter()
            .all(|octet| octet.is_ascii_hexdigit())
    {
        Some(commit)
    } else {
        None
    }
}
