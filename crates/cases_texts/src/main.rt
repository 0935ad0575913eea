//! Runs rows: calls of the crates that read and write texts, with the answer of each (README.md), and reports which
//! answers differ.
//!
//! It may touch the files of the folder that it runs in, memory and its output; it stands on the public calls of these
//! crates. The file `files` lists the files of rows. The status is 0 if no row differs, otherwise 1. Nothing stands
//! above this crate.
#![tactic(auto)]

mod articles;
mod blocks;
mod calls;
mod fault;
mod lines;
mod octets;
mod replies;
mod reports;
mod row;
mod segment_names;
mod settings;

use calls::{Kept, answer};
use fault::RowFault;
use row::{Row, split_call};
use std::alloc::Global;
use std::process::ExitCode;
use std::rt::Files;
use std::{fs, io};

const INDEX: &str = "files";

fn main(rt: HostRuntime) -> io::Result<ExitCode> {
    let index = fs::read_to_string(&rt, INDEX)?;
    let unlisted = count_unlisted(&rt, &index)?;
    let mut tally = Tally { rows: 0, differ: 0 };
    for file in index.lines() {
        check_file(&rt, file, &mut tally)?;
    }
    let Tally { rows, differ } = tally;
    println!(rt; "{rows} rows: {differ} differ")?;
    Ok(if rows > 0 && differ == 0 && unlisted == 0 {
        ExitCode::SUCCESS
    } else {
        ExitCode::FAILURE
    })
}

/// How many rows there are, and how many of them differ.
#[derive(Clone, Copy)]
struct Tally {
    rows: u64,
    differ: u64,
}

// Runs the rows of a file in their order, and prints how many there are, or each that differs.
fn check_file<R: AllocGlobal + Files + Print>(
    rt: &R,
    file: &str,
    tally: &mut Tally,
) -> io::Result<()> {
    let text = fs::read_to_string(rt, file)?;
    let mut kept = Kept::new(rt.alloc());
    let mut rows = 0u64;
    for (before, line) in text.lines().enumerate() {
        if line.is_empty() || line.starts_with('#') {
            continue;
        }
        rows = rows.saturating_add(1);
        if let Err(fault) = check_row(rt, &mut kept, line) {
            let number = before.saturating_add(1);
            println!(rt; "{file} line {number} DIFFERS: {fault}")?;
            tally.differ = tally.differ.saturating_add(1);
        }
    }
    tally.rows = tally.rows.saturating_add(rows);
    println!(rt; "{file}: {rows} rows")
}

fn check_row<R: AllocGlobal + Files>(rt: &R, kept: &mut Kept, line: &str) -> Result<(), RowFault> {
    let Some((call, rest)) = split_call(line) else {
        return Err(RowFault::NoRow);
    };
    let row = Row::read(rt, rest)?;
    let mut got = Vec::new(rt.alloc());
    answer(&mut got, kept, call, &row.arguments)?;
    if got == row.answer {
        Ok(())
    } else {
        Err(differs(rt.alloc(), &row.answer, &got))
    }
}

fn differs(alloc: Global, wanted: &[u8], got: &[u8]) -> RowFault {
    let (wanted, got) = (wanted.escape_ascii(), got.escape_ascii());
    match format!(in alloc; "wanted \"{wanted}\", got \"{got}\"") {
        Ok(what) => RowFault::Differs(what),
        Err(refused) => RowFault::from(refused),
    }
}

// How many files of rows in the folder the index does not list. Prints a line for each.
fn count_unlisted<R: AllocGlobal + Files + Print + Clone + Drop>(
    rt: &R,
    index: &str,
) -> io::Result<u64> {
    let mut unlisted = 0u64;
    for entry in fs::read_dir(rt, ".")? {
        let entry = entry?;
        let file = entry.file_name();
        if file.ends_with(".rows") && !index.lines().any(|listed| listed == file) {
            println!(rt; "{file} is not in `{INDEX}`")?;
            unlisted = unlisted.saturating_add(1);
        }
    }
    Ok(unlisted)
}
