// The octets of an article's file, read into room that is kept.
ghost use Rattle.std.specs.Prelude.{ℕ, ◌≡◌, ◌≤◌, ◌<◌, ◌+◌, length, take, drop};
ghost use Rattle.std.specs.Prelude.{IfOk, IfSome, IsSome, OnOk, OnErr};
ghost use Rattle.std.specs.Io.KnownBytes.{Consumes, IsAtEnd, Keeps};
ghost use Rattle.article_store.specs.Reads.{ConsumesAtMost};
ghost use Rattle.innd_spool.specs.Reads.{IsReadOut, is_ended, is_read_out};
ghost use Rattle.innd_spool.specs.Texts.{text_in};

use crate::texts::{Form, is_in_wire_format};
use std::alloc::AllocError;
use std::io::{self, ErrorKind, Read};

// One octet more than the longest text that can be sent: a file of this length is not read further.
const READ_MAX_OCTETS: usize = 16_777_217;

// The room made for the first file, in octets; most articles fit.
const FIRST_ROOM_OCTETS: usize = 65_536;

/// Reads the octets of an article's file into the front of the room, and returns how many came: to the reader's end,
/// but at most 16,777,217. The room only grows, and what is behind them stays as it is.
///
/// Octets in wire format that end as a block does are taken as the whole file if the last read left room: no further
/// read looks for the end. innd writes such a file once, with the end of the block, and a read of a file gives all that
/// is there, up to its room. A line within the block can't be that end, since a line that begins with a dot has a
/// second one before it; and if a read ends there although more follows, the octets were no block in any case.
///
/// # Errors
/// The reader's error, but an interrupted read is tried again; [`ErrorKind::OutOfMemory`] if memory was refused.
pub(crate) fn read_octets<R: Read>(
    reader: &mut R,
    form: Form,
    room: &mut Vec<u8>,
) -> io::Result<usize>
    ensures within { IfOk result (λ count. count ≤ length room.new.items) }
    ensures short { IfOk result (λ count. count ≤ 16777217) }
    ensures gave { IfOk result (λ count.
        Consumes (R.remaining reader.old) (R.remaining reader.new) (take count room.new.items)) }
    ensures end { IfOk result (IsReadOut form room.new.items (R.remaining reader.new)) }
    ensures whole { IfOk result (λ count. IfSome (R.remaining reader.old)
        (λ octets. IsSome (text_in form octets)
        → take count room.new.items ≡ take 16777217 octets)) }
    ensures limit { ConsumesAtMost 16777217 (R.remaining reader.old) (R.remaining reader.new) }
{
    let count = read_prefix(reader, form, room)?;
    Ok(count)
}

// The same, with what the reader has left.
fn read_prefix<R: Read>(reader: &mut R, form: Form, room: &mut Vec<u8>) -> io::Result<usize>
    ensures within { IfOk result (λ count. count ≤ length room.new.items) }
    ensures short { IfOk result (λ count. count ≤ 16777217) }
    ensures gave { IfOk result (λ count.
        Consumes (R.remaining reader.old) (R.remaining reader.new) (take count room.new.items)) }
    ensures end { IfOk result (IsReadOut form room.new.items (R.remaining reader.new)) }
    ensures limit { ConsumesAtMost 16777217 (R.remaining reader.old) (R.remaining reader.new) }
{
    let mut filled = 0;
    for _ in 0..u64::MAX {
        if is_read_out(form, room.as_slice(), filled) {
            return Ok(filled);
        }
        match read_more(reader, room, filled) {
            Ok(0) => return Ok(filled),
            Ok(count) => filled += count,
            Err(error) if error.kind() == ErrorKind::Interrupted => {}
            Err(error) => return Err(error),
        }
    }
    Err(io::Error::from(ErrorKind::TimedOut))
}

// Whether no read follows those that filled so much of the room.
fn is_read_out(form: Form, room: &[u8], filled: usize) -> bool
    requires { filled ≤ length room.now }
    ensures { result ≡ is_read_out form room.now filled }
{
    filled >= READ_MAX_OCTETS || filled < room.len() && is_ended(form, &room[..filled])
}

// Whether octets are in wire format, and end as a block does: with a dot alone on its line (RFC 3977, section 3.1.1).
fn is_ended(form: Form, octets: &[u8]) -> bool
    ensures { result ≡ is_ended form octets.now }
{
    octets.ends_with(b"\r\n.\r\n") && is_in_wire_format(octets, form)
}

// One read after the octets that are filled. It returns how many came: 0 only at the reader's end.
fn read_more<R: Read>(reader: &mut R, room: &mut Vec<u8>, filled: usize) -> io::Result<usize>
    requires within { filled ≤ length room.old.items }
    requires short { filled < 16777217 }
    ensures prefix { take filled room.new.items ≡ take filled room.old.items }
    ensures fits { IfOk result (λ count. filled + count ≤ length room.new.items) }
    ensures most { IfOk result (λ count. filled + count ≤ 16777217) }
    ensures gave { IfOk result (λ count. Consumes (R.remaining reader.old) (R.remaining reader.new)
        (take count (drop filled room.new.items))) }
    ensures end { IfOk result (λ count. count ≡ 0 → IsAtEnd (R.remaining reader.new)) }
    ensures unchanged { OnErr result (Keeps (R.remaining reader.old) (R.remaining reader.new)) }
{
    if filled >= room.len() {
        make_room(room)?;
    }
    let end = room.len().min(READ_MAX_OCTETS);
    read_at(reader, room.as_mut_slice(), filled, end)
}

// One read into a part of the room.
fn read_at<R: Read>(reader: &mut R, room: &mut [u8], start: usize, end: usize) -> io::Result<usize>
    requires some { start < end }
    requires within { end ≤ length room.old }
    ensures prefix { take start room.new ≡ take start room.old }
    ensures fits { IfOk result (λ count. start + count ≤ end) }
    ensures gave { IfOk result (λ count. Consumes (R.remaining reader.old) (R.remaining reader.new)
        (take count (drop start room.new))) }
    ensures end { IfOk result (λ count. count ≡ 0 → IsAtEnd (R.remaining reader.new)) }
    ensures unchanged { OnErr result (Keeps (R.remaining reader.old) (R.remaining reader.new)) }
{
    reader.read(&mut room[start..end])
}

// Doubles the room, up to `READ_MAX_OCTETS` octets.
fn make_room(room: &mut Vec<u8>) -> Result<(), AllocError>
    requires { length room.old.items < 16777217 }
    ensures longer { OnOk result (length room.old.items < length room.new.items) }
    ensures prefix { (count : ℕ) → count ≤ length room.old.items
        → take count room.new.items ≡ take count room.old.items }
{
    let octets = room
        .len()
        .saturating_mul(2)
        .clamp(FIRST_ROOM_OCTETS, READ_MAX_OCTETS);
    room.resize(octets, 0)
}
