// The front of a file, read into room that is kept.
ghost use Rattle.std.specs.Prelude.{ℕ, ◌≡◌, ◌≤◌, ◌<◌, ◌+◌, length, take, drop};
ghost use Rattle.std.specs.Prelude.{IfOk, IfSome, OnOk, OnErr};
ghost use Rattle.std.specs.Io.KnownBytes.{Consumes, IsAtEnd, Keeps};
ghost use Rattle.article_store.specs.Reads.{ConsumesAtMost};

use std::alloc::AllocError;
use std::io::{self, ErrorKind, Read};

// One octet more than the longest text that can be sent: a text of this length is not read further.
const READ_MAX_OCTETS: usize = 16_777_217;

// The room made for the first file, in octets; most articles fit.
const FIRST_ROOM_OCTETS: usize = 65_536;

/// Reads to the reader's end, but at most 16,777,217 octets, into the front of the room, and returns how many came. The
/// room only grows, and what is behind them stays as it is: it is set to zeros once, when it is made.
///
/// # Errors
/// The reader's error, but an interrupted read is tried again; [`ErrorKind::OutOfMemory`] if memory was refused.
pub fn read_front<R: Read>(reader: &mut R, room: &mut Vec<u8>) -> io::Result<usize>
    ensures within { IfOk result (λ count. count ≤ length room.new.items) }
    ensures whole { IfOk result (λ count. IfSome (R.remaining reader.old)
        (λ octets. take count room.new.items ≡ take 16777217 octets)) }
    ensures limit { ConsumesAtMost 16777217 (R.remaining reader.old) (R.remaining reader.new) }
{
    let count = read_prefix(reader, room)?;
    Ok(count)
}

// The same, with what the reader has left.
fn read_prefix<R: Read>(reader: &mut R, room: &mut Vec<u8>) -> io::Result<usize>
    ensures within { IfOk result (λ count. count ≤ length room.new.items) }
    ensures short { IfOk result (λ count. count ≤ 16777217) }
    ensures gave { IfOk result (λ count.
        Consumes (R.remaining reader.old) (R.remaining reader.new) (take count room.new.items)) }
    ensures end { IfOk result (λ count. count < 16777217 → IsAtEnd (R.remaining reader.new)) }
    ensures limit { ConsumesAtMost 16777217 (R.remaining reader.old) (R.remaining reader.new) }
{
    let mut filled = 0;
    for _ in 0..u64::MAX {
        if filled >= READ_MAX_OCTETS {
            return Ok(filled);
        }
        match read_more(reader, room, filled) {
            Ok(0) => return Ok(filled),
            Ok(count) => filled += count,
            Err(error) if error.kind() == ErrorKind::Interrupted => {}
            Err(error) => return Err(error),
        }
    }
    Err(io::Error::from(ErrorKind::TimedOut))
}

// One read after the octets that are filled. It returns how many came: 0 only at the reader's end.
fn read_more<R: Read>(reader: &mut R, room: &mut Vec<u8>, filled: usize) -> io::Result<usize>
    requires within { filled ≤ length room.old.items }
    requires short { filled < 16777217 }
    ensures prefix { take filled room.new.items ≡ take filled room.old.items }
    ensures fits { IfOk result (λ count. filled + count ≤ length room.new.items) }
    ensures most { IfOk result (λ count. filled + count ≤ 16777217) }
    ensures gave { IfOk result (λ count. Consumes (R.remaining reader.old) (R.remaining reader.new)
        (take count (drop filled room.new.items))) }
    ensures end { IfOk result (λ count. count ≡ 0 → IsAtEnd (R.remaining reader.new)) }
    ensures unchanged { OnErr result (Keeps (R.remaining reader.old) (R.remaining reader.new)) }
{
    if filled >= room.len() {
        make_room(room)?;
    }
    let end = room.len().min(READ_MAX_OCTETS);
    read_at(reader, room.as_mut_slice(), filled, end)
}

// One read into a part of the room.
fn read_at<R: Read>(reader: &mut R, room: &mut [u8], start: usize, end: usize) -> io::Result<usize>
    requires some { start < end }
    requires within { end ≤ length room.old }
    ensures prefix { take start room.new ≡ take start room.old }
    ensures fits { IfOk result (λ count. start + count ≤ end) }
    ensures gave { IfOk result (λ count. Consumes (R.remaining reader.old) (R.remaining reader.new)
        (take count (drop start room.new))) }
    ensures end { IfOk result (λ count. count ≡ 0 → IsAtEnd (R.remaining reader.new)) }
    ensures unchanged { OnErr result (Keeps (R.remaining reader.old) (R.remaining reader.new)) }
{
    reader.read(&mut room[start..end])
}

// Doubles the room, up to `READ_MAX_OCTETS` octets.
fn make_room(room: &mut Vec<u8>) -> Result<(), AllocError>
    requires { length room.old.items < 16777217 }
    ensures longer { OnOk result (length room.old.items < length room.new.items) }
    ensures prefix { (count : ℕ) → count ≤ length room.old.items
        → take count room.new.items ≡ take count room.old.items }
{
    let octets = room
        .len()
        .saturating_mul(2)
        .clamp(FIRST_ROOM_OCTETS, READ_MAX_OCTETS);
    room.resize(octets, 0)
}
