// The lines that report how a feed ended (docs/MANUAL.md).
ghost use Rattle.std.specs.Prelude.{◌≡◌, ◌++◌, ◌∷◌, [], IfOk, OnOk, flat_map};
ghost use Rattle.cli.specs.FeedLines.{end_text, failed_text, file_text, owing_text};
ghost use Rattle.cli.specs.FeedLines.{tape_text};

use feed_ends::{FeedEnd, FileError, Owing, TapeError};
use recovery::TapeFault;
use std::alloc::{AllocError, Global};

/// The lines that report how a feed ended: what is wrong with tapes and with other files, and how much each peer is
/// owed.
///
/// # Errors
/// Memory was refused.
pub fn end_lines(alloc: Global, end: &FeedEnd) -> Result<Vec<u8>, AllocError>
    ensures { IfOk result (λ lines. lines.items ≡ end_text end.now) }
{
    let mut lines = Vec::new(alloc);
    add_tapes(&mut lines, &end.tapes)?;
    add_files(&mut lines, &end.files)?;
    add_owing(&mut lines, &end.owing)?;
    Ok(lines)
}

fn add_tapes(lines: &mut Vec<u8>, tapes: &[TapeError]) -> Result<(), AllocError>
    ensures { OnOk result (lines.new.items ≡ lines.old.items ++ flat_map tape_text tapes.now) }
{
    for error in tapes {
        add_tape(lines, error)?;
    }
    Ok(())
}

// `another innfeed works on DIRECTORY`, `run this as the owner of DIRECTORY`, or `tape NAME: KIND`.
fn add_tape(lines: &mut Vec<u8>, error: &TapeError) -> Result<(), AllocError>
    ensures { OnOk result (lines.new.items ≡ lines.old.items ++ tape_text error.now) }
{
    match error {
        TapeError::Taken(directory) => {
            lines.extend_from_slice(b"another innfeed works on ")?;
            lines.extend_from_slice(directory.as_bytes())?;
        }
        TapeError::Foreign(directory) => {
            lines.extend_from_slice(b"run this as the owner of ")?;
            lines.extend_from_slice(directory.as_bytes())?;
        }
        TapeError::Failed { name, fault } => return add_tape_line(lines, name, *fault),
    }
    lines.push(b'\n')?;
    Ok(())
}

/// Adds `tape NAME: KIND`.
///
/// # Errors
/// Memory was refused.
pub fn add_tape_line(lines: &mut Vec<u8>, name: &[u8], fault: TapeFault) -> Result<(), AllocError>
    ensures { OnOk result (lines.new.items ≡ lines.old.items ++ failed_text name.now fault) }
{
    lines.extend_from_slice(b"tape ")?;
    lines.extend_from_slice(name)?;
    lines.extend_from_slice(b": ")?;
    lines.extend_from_slice(fault.name().as_bytes())?;
    lines.push(b'\n')?;
    Ok(())
}

fn add_files(lines: &mut Vec<u8>, files: &[FileError]) -> Result<(), AllocError>
    ensures { OnOk result (lines.new.items ≡ lines.old.items ++ flat_map file_text files.now) }
{
    for error in files {
        add_file(lines, error)?;
    }
    Ok(())
}

// `cannot read PATH`, `cannot write PATH`, `cannot remove PATH`, or why standard output was not written.
fn add_file(lines: &mut Vec<u8>, error: &FileError) -> Result<(), AllocError>
    ensures { OnOk result (lines.new.items ≡ lines.old.items ++ file_text error.now) }
{
    match error {
        FileError::Unread(path) => add_line(lines, b"cannot read ", path),
        FileError::Unwritten(path) => add_line(lines, b"cannot write ", path),
        FileError::Unremoved(path) => add_line(lines, b"cannot remove ", path),
        FileError::Output(reason) => {
            add_line(
                lines,
                b"innfeed: cannot write standard output: ",
                reason.as_bytes(),
            )
        }
    }
}

/// Adds a line of these two texts.
///
/// # Errors
/// Memory was refused.
pub fn add_line(lines: &mut Vec<u8>, what: &[u8], which: &[u8]) -> Result<(), AllocError>
    ensures { OnOk result
        (lines.new.items ≡ lines.old.items ++ (what.now ++ which.now ++ 10 ∷ [])) }
{
    lines.extend_from_slice(what)?;
    lines.extend_from_slice(which)?;
    lines.push(b'\n')?;
    Ok(())
}

fn add_owing(lines: &mut Vec<u8>, owing: &[Owing]) -> Result<(), AllocError>
    ensures { OnOk result (lines.new.items ≡ lines.old.items ++ flat_map owing_text owing.now) }
{
    for peer in owing {
        add_owed(lines, peer)?;
    }
    Ok(())
}

// `NAME owes N`.
fn add_owed(lines: &mut Vec<u8>, peer: &Owing) -> Result<(), AllocError>
    ensures { OnOk result (lines.new.items ≡ lines.old.items ++ owing_text peer.now) }
{
    lines.extend_from_slice(&peer.name)?;
    lines.extend_from_slice(b" owes ")?;
    lines.extend_from_slice(itoa::Buffer::new().format(peer.owed).as_bytes())?;
    lines.push(b'\n')?;
    Ok(())
}
