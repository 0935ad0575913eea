// What is written of lines.
ghost use Rattle.std.specs.Prelude.{◌≡◌, ◌++◌, IfOk, OnOk};
ghost use Rattle.kept_lines.specs.Texts.{kept_line, kept_of, kept_text, unknown_line, unknown_lines, unknown_of};

use crate::names::is_among;
use crate::read_line::{ReadLine, Reading};
use funnel::{MsgId, PeerName, Token};
use std::alloc::{AllocError, Global};

/// The lines of the file of the peer of this name: `TOKEN ID` for each line that names it.
///
/// # Errors
/// Memory was refused.
pub(crate) fn kept_text(
    alloc: Global,
    name: &PeerName,
    lines: &[ReadLine],
) -> Result<Vec<u8>, AllocError>
    ensures { IfOk result (λ text. text.items ≡ kept_text name.now lines.now) }
{
    let mut text = Vec::new(alloc);
    for line in lines {
        add_kept(&mut text, name, line)?;
    }
    Ok(text)
}

fn add_kept(text: &mut Vec<u8>, name: &PeerName, line: &ReadLine) -> Result<(), AllocError>
    ensures { OnOk result (text.new.items ≡ text.old.items ++ kept_of name.now line.now) }
{
    if let Reading::Good { token, id, others } = line.reading()
        && is_among(others, name)
    {
        add_article(text, token, id)?;
    }
    Ok(())
}

/// Adds what `~unknown` gets of a line: `NAME TOKEN ID` for each name on it that is neither a peer's of the run nor one
/// of those that are left out.
///
/// # Errors
/// Memory was refused.
pub(crate) fn add_unknown(
    text: &mut Vec<u8>,
    left_out: &[PeerName],
    line: &ReadLine,
) -> Result<(), AllocError>
    ensures { OnOk result (text.new.items ≡ text.old.items ++ unknown_of left_out.now line.now) }
{
    if let Reading::Good { token, id, others } = line.reading() {
        add_names(text, left_out, others, token, id)?;
    }
    Ok(())
}

fn add_names(
    text: &mut Vec<u8>,
    left_out: &[PeerName],
    names: &[PeerName],
    token: &Token,
    id: &MsgId,
) -> Result<(), AllocError>
    ensures { OnOk result (text.new.items
        ≡ text.old.items ++ unknown_lines left_out.now token.now id.now names.now) }
{
    for name in names {
        add_named(text, left_out, name, token, id)?;
    }
    Ok(())
}

fn add_named(
    text: &mut Vec<u8>,
    left_out: &[PeerName],
    name: &PeerName,
    token: &Token,
    id: &MsgId,
) -> Result<(), AllocError>
    ensures { OnOk result (text.new.items
        ≡ text.old.items ++ unknown_line left_out.now token.now id.now name.now) }
{
    if is_among(left_out, name) {
        return Ok(());
    }
    text.extend_from_slice(name.bytes())?;
    text.push(b' ')?;
    add_article(text, token, id)
}

// `TOKEN ID`, and LF.
fn add_article(text: &mut Vec<u8>, token: &Token, id: &MsgId) -> Result<(), AllocError>
    ensures { OnOk result (text.new.items ≡ text.old.items ++ kept_line token.now id.now) }
{
    text.extend_from_slice(token.bytes())?;
    text.push(b' ')?;
    text.extend_from_slice(id.bytes())?;
    text.push(b'\n')?;
    Ok(())
}
