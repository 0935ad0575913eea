//! `file-articles`: takes a batch of articles from standard input, and files each under its token (README.md).
//!
//! It may touch its arguments, the file with the lines, the directory that it files in, standard input and both
//! outputs. `rnews` decides which article is which; each function here is proved to be safe and to return. Nothing
//! stands above this crate.
#![tactic(auto)]

mod batch;
mod directory;
mod fault;
mod lines;

use batch::file_all;
use fault::FilingFault;
use lines::read_lines;
use std::env;
use std::fs::File;
use std::io::{ErrorKind, Write};
use std::process::ExitCode;
use std::rt::{Env, Files};

fn main(rt: HostRuntime) -> ExitCode {
    let Err(fault) = run(&rt) else {
        return ExitCode::SUCCESS;
    };
    let status = fault.status();
    match format!(in rt.alloc(); "{fault}\n") {
        Ok(line) => drop(rt.stderr().write_all(line.as_bytes())),
        Err(_) => drop(rt.stderr().write_all(b"file-articles: out of memory\n")),
    }
    ExitCode::from(status)
}

fn run<R: AllocGlobal + Input + Print + Env + Files<File = File>>(
    rt: &R,
) -> Result<(), FilingFault> {
    let mut words = match env::args(rt) {
        Ok(words) => words,
        Err(error) if error.kind() == ErrorKind::OutOfMemory => return Err(FilingFault::NoMemory),
        Err(_) => return Err(FilingFault::Usage),
    };
    let _program = words.next();
    let (Some(directory), Some(lines), None) = (words.next(), words.next(), words.next()) else {
        return Err(FilingFault::Usage);
    };
    let waiting = read_lines(rt, lines.as_str())?;
    file_all(rt, directory.as_str(), waiting)
}
