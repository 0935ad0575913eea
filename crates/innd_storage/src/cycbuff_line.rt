// Lines of `cycbuff.conf`, which says where the buffers of CNFS are.
ghost use Rattle.std.specs.Prelude.{◌≡◌, ◌≤◌, length, drop};
ghost use Rattle.innd_storage.specs.CycbuffLines.{after_colon, before_colon, buffer_line_of, colon_at, cycbuff_line_of};
ghost use Rattle.innd_storage.specs.CycbuffLines.{is_other_line, is_path, kib_of, parts_given, parts_of_line};

use crate::buffer_name::BufferName;
use crate::numbers::read_number;
use crate::places::place_of;
use thiserror::Error;

/// A line of `cycbuff.conf` that names a buffer.
#[derive(Clone, Copy)]
pub struct CycbuffLine<'a> {
    pub name: BufferName,
    /// The path of its file or device, which is absolute.
    pub path: &'a [u8],
    /// How long it is, in units of 1,024 octets; not 0, and below 2 ^ 54.
    pub kib: u64,
}

/// Why a line of `cycbuff.conf` is refused.
#[derive(Clone, Copy, Debug, PartialEq, Eq, Error)]
pub enum CycbuffLineFault {
    /// It is a line of no kind that cycbuff.conf(5) has.
    #[error("UnknownLine")]
    UnknownLine,
    /// The buffer's name does not have 1 to 7 octets, or has a NUL.
    #[error("BadName")]
    BadName,
    /// The path does not have 1 to 63 octets, or does not begin with `/`.
    #[error("BadPath")]
    BadPath,
    /// The length is not written in decimal digits, or is 0, or is 2 ^ 54 or more.
    #[error("BadLength")]
    BadLength,
}

/// Reads a line of `cycbuff.conf`, given without its LF and with the lines that continue it; `None` if it is good and
/// names no buffer: if it is empty or a comment, or begins with `cycbuffupdate:`, `refreshinterval:` or
/// `metacycbuff:`, whatever follows. A buffer's line is `cycbuff:NAME:PATH:KIB` (cycbuff.conf(5)).
///
/// # Errors
/// The first fault in the order of [`CycbuffLineFault`].
pub fn read_cycbuff_line(line: &[u8]) -> Result<Option<CycbuffLine<'_>>, CycbuffLineFault>
    ensures { parts_given result ≡ cycbuff_line_of line.now }
{
    if line.starts_with(b"cycbuff:") {
        return match buffer_line(&line[8..]) {
            Ok(found) => Ok(Some(found)),
            Err(fault) => Err(fault),
        };
    }
    if is_other_line(line) {
        Ok(None)
    } else {
        Err(CycbuffLineFault::UnknownLine)
    }
}

fn is_other_line(line: &[u8]) -> bool
    ensures { result ≡ is_other_line line.now }
{
    line.is_empty()
        || line.starts_with(b"#")
        || line.starts_with(b"cycbuffupdate:")
        || line.starts_with(b"refreshinterval:")
        || line.starts_with(b"metacycbuff:")
}

// The line of a buffer, from its name on.
fn buffer_line(text: &[u8]) -> Result<CycbuffLine<'_>, CycbuffLineFault>
    ensures { parts_of_line result ≡ buffer_line_of text.now }
{
    let Some(name) = BufferName::named(before_colon(text)) else {
        return Err(CycbuffLineFault::BadName);
    };
    let others = after_colon(text);
    let path = before_colon(others);
    if !is_path(path) {
        return Err(CycbuffLineFault::BadPath);
    }
    let Some(kib) = kib_of(after_colon(others)) else {
        return Err(CycbuffLineFault::BadLength);
    };
    Ok(CycbuffLine { name, path, kib })
}

fn is_path(path: &[u8]) -> bool
    ensures { result ≡ is_path path.now }
{
    path.len() <= 63 && path.starts_with(b"/")
}

fn kib_of(digits: &[u8]) -> Option<u64>
    ensures { result ≡ kib_of digits.now }
{
    let kib = read_number(digits, 10)?;
    if kib == 0 || kib >= 1 << 54 {
        return None;
    }
    Some(kib)
}

// What comes before the first colon, or all.
fn before_colon(text: &[u8]) -> &[u8]
    ensures { result.now ≡ before_colon text.now }
{
    &text[..colon_at(text)]
}

// What comes after the first colon, or nothing.
fn after_colon(text: &[u8]) -> &[u8]
    ensures { result.now ≡ after_colon text.now }
{
    let at = colon_at(text);
    if at < text.len() {
        &text[at + 1..]
    } else {
        b""
    }
}

fn colon_at(text: &[u8]) -> usize
    ensures value { result ≡ colon_at text.now }
    ensures within { result ≤ length text.now }
{
    place_of(b':', text)
}
