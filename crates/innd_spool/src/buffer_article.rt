// An article in a buffer of CNFS, which innd may overwrite while it is read.
ghost use Rattle.std.specs.Prelude.{◌≡◌, ◌+◌, ◌<◌, ◌≤◌, ℕ, length, slice_range, take, option_map};
ghost use Rattle.std.specs.Prelude.{IfOk, IfSome, IsFalse, IsTrue, OnOk};
ghost use Rattle.innd_storage.specs.ArticleHeads.{head_of};
ghost use Rattle.innd_storage.specs.Cycbuffs.{offset_in};
ghost use Rattle.innd_spool.specs.Buffers.{IsChanged, IsStoredBy, IsTextOf, IsUnchanged, PlacesToken};
ghost use Rattle.innd_spool.specs.Buffers.{Shows, ShowsBit, ShowsPlaceOf};
ghost use Rattle.innd_spool.specs.Buffers.{offset_of_place, size_by};

use crate::faults::{bad_header, cut_off, other_buffer};
use crate::looks::Looks;
use crate::texts::TEXT_MAX_OCTETS;
use innd_storage::{
    ARTICLE_HEAD_OCTETS, CnfsToken, CycbuffHeader, HEADER_OCTETS, bits_offset, is_set,
    read_article_head, read_header,
};
use std::alloc::AllocError;
use std::io;

// So many octets are read at an article's head, its own among them: most texts come with it.
const FRONT_OCTETS: usize = 4_096;

/// What was seen of an article.
#[derive(Clone, Copy)]
pub(crate) enum Stored {
    /// It is not there, or has been overwritten.
    Gone,
    /// It has more than 16,777,216 octets, and was not read.
    TooLong,
    /// So many octets, which are now at the front of the room.
    Octets(usize),
}

// Where an article is.
#[derive(Clone, Copy)]
struct Place {
    header: CycbuffHeader,
    offset: u64,
}

/// Reads the article of a token into `room`: the buffer's header, the block's bit, the article's head and its text, and
/// then the head and the bit once more. So what is read is one article, whole; it may still be another one. A text of
/// at most 4,072 octets comes with its head, by one look.
///
/// # Errors
/// The system's error, or what is wrong with the buffer's header.
pub(crate) fn read_stored<L: Looks>(
    buffer: &mut L,
    token: &CnfsToken,
    room: &mut Vec<u8>,
) -> io::Result<Stored>
    ensures { IfOk result
        (IsStoredBy (L.contents buffer.old) (L.moment buffer.old) L.tick token.now room.new.items) }
{
    let Some(place) = find_place(buffer, token)? else {
        return Ok(Stored::Gone);
    };
    if !find_bit(buffer, token.block)? {
        return Ok(Stored::Gone);
    }
    let mut front = [0u8; FRONT_OCTETS];
    let (head, count) = find_front(buffer, place.offset, &mut front)?;
    let Some(size) = size_in(&place, &head) else {
        return Ok(Stored::Gone);
    };
    if size > TEXT_MAX_OCTETS {
        return Ok(Stored::TooLong);
    }
    let came = &front[ARTICLE_HEAD_OCTETS..count];
    find_text(buffer, place.offset, came, size, room)?;
    if is_unchanged(buffer, place.offset, &head, token.block)? {
        Ok(Stored::Octets(size))
    } else {
        Ok(Stored::Gone)
    }
}

fn find_place<L: Looks>(buffer: &mut L, token: &CnfsToken) -> io::Result<Option<Place>>
    ensures shows { IfOk result
        (ShowsPlaceOf (L.contents buffer.old) (L.moment buffer.old) token.now) }
    ensures fits { IfOk result
        (λ found. IfSome found (λ place. place.offset + 24 ≤ place.header.length)) }
    ensures contents { L.contents buffer.new ≡ L.contents buffer.old }
    ensures moment { OnOk result (L.moment buffer.new ≡ L.moment buffer.old + L.tick) }
{
    let mut octets = [0u8; HEADER_OCTETS];
    buffer.look(0, &mut octets)?;
    place_by(&octets, token)
}

// Where the article is, by the buffer's header; `None` if it has been overwritten.
fn place_by(octets: &[u8; HEADER_OCTETS], token: &CnfsToken) -> io::Result<Option<Place>>
    ensures place { IfOk result (PlacesToken octets.now token.now) }
    ensures fits { IfOk result
        (λ found. IfSome found (λ place. place.offset + 24 ≤ place.header.length)) }
{
    match read_header(octets) {
        Ok(header) if header.name == token.buffer => Ok(place_in(header, token)),
        Ok(_) => Err(other_buffer()),
        Err(fault) => Err(bad_header(fault)),
    }
}

fn place_in(header: CycbuffHeader, token: &CnfsToken) -> Option<Place>
    ensures offset { option_map offset_of_place result ≡ offset_in header token.now }
    ensures header { IfSome result (λ place. place.header ≡ header) }
    ensures fits { IfSome result (λ place. place.offset + 24 ≤ place.header.length) }
{
    match header.offset_of(token) {
        Some(offset) => Some(Place { header, offset }),
        None => None,
    }
}

fn find_bit<L: Looks>(buffer: &mut L, block: u32) -> io::Result<bool>
    ensures shows { IfOk result (ShowsBit (L.contents buffer.old) (L.moment buffer.old) block) }
    ensures contents { L.contents buffer.new ≡ L.contents buffer.old }
    ensures moment { OnOk result (L.moment buffer.new ≡ L.moment buffer.old + L.tick) }
{
    let mut octets = [0u8; 8];
    buffer.look(bits_offset(block), &mut octets)?;
    Ok(is_set(octets, block))
}

// Looks at an article's head and the octets behind it. It returns the head, and how many octets came in all.
fn find_front<L: Looks>(
    buffer: &mut L,
    offset: u64,
    front: &mut [u8],
) -> io::Result<([u8; ARTICLE_HEAD_OCTETS], usize)>
    ensures fits { IfOk result (λ found. (24 ≤ found.1) × (found.1 ≤ length front.new)) }
    ensures head { IfOk result
        (λ found. Shows (L.contents buffer.old) (L.moment buffer.old) offset found.0) }
    ensures text { IfOk result (λ found. (size : ℕ) → Shows (L.contents buffer.old)
        (L.moment buffer.old) (offset + 24) (take size (slice_range front.new 24 found.1))) }
    ensures contents { L.contents buffer.new ≡ L.contents buffer.old }
    ensures moment { OnOk result (L.moment buffer.new ≡ L.moment buffer.old + L.tick) }
{
    let count = buffer.look_ahead(offset, front)?;
    if count < ARTICLE_HEAD_OCTETS {
        return Err(cut_off());
    }
    let mut head = [0u8; ARTICLE_HEAD_OCTETS];
    head.copy_from_slice(&front[..ARTICLE_HEAD_OCTETS]);
    Ok((head, count))
}

fn find_head<L: Looks>(buffer: &mut L, offset: u64) -> io::Result<[u8; ARTICLE_HEAD_OCTETS]>
    ensures shows { IfOk result
        (λ octets. Shows (L.contents buffer.old) (L.moment buffer.old) offset octets) }
    ensures contents { L.contents buffer.new ≡ L.contents buffer.old }
    ensures moment { OnOk result (L.moment buffer.new ≡ L.moment buffer.old + L.tick) }
{
    let mut octets = [0u8; ARTICLE_HEAD_OCTETS];
    buffer.look(offset, &mut octets)?;
    Ok(octets)
}

// Whether this head is there again, and the block's bit.
fn is_unchanged<L: Looks>(
    buffer: &mut L,
    offset: u64,
    head: &[u8; ARTICLE_HEAD_OCTETS],
    block: u32,
) -> io::Result<bool>
    ensures unchanged { IfOk result (λ same. IsTrue same
        → IsUnchanged (L.contents buffer.old) (L.moment buffer.old) L.tick offset head.now block) }
    ensures changed { IfOk result (λ same. IsFalse same
        → IsChanged (L.contents buffer.old) (L.moment buffer.old) L.tick offset head.now block) }
{
    if find_head(buffer, offset)? != *head {
        return Ok(false);
    }
    find_bit(buffer, block)
}

// How many octets the text has, if there is an article that fits into the buffer.
fn size_in(place: &Place, head: &[u8; ARTICLE_HEAD_OCTETS]) -> Option<usize>
    ensures { result ≡ size_by place.now.header place.now.offset (head_of head.now) }
{
    let size = read_article_head(head)?.size;
    if place.header.has_room(place.offset, size) {
        Some(size as usize)
    } else {
        None
    }
}

// Brings a text to the front of the room: from what came with the head, if all of it did, else by a look of its own.
fn find_text<L: Looks>(
    buffer: &mut L,
    offset: u64,
    came: &[u8],
    size: usize,
    room: &mut Vec<u8>,
) -> io::Result<()>
    requires { offset + 24 < 18446744073709551616 }
    ensures within { OnOk result (size ≤ length room.new.items) }
    ensures text { OnOk result (IsTextOf (L.contents buffer.old) (L.moment buffer.old) L.tick
        (L.moment buffer.new) offset came.now (take size room.new.items)) }
    ensures contents { L.contents buffer.new ≡ L.contents buffer.old }
{
    make_room(room, size)?;
    let room = room.as_mut_slice();
    if size > came.len() {
        return look_into(buffer, offset + ARTICLE_HEAD_OCTETS as u64, size, room);
    }
    keep_text(&came[..size], room);
    Ok(())
}

fn look_into<L: Looks>(buffer: &mut L, offset: u64, size: usize, room: &mut [u8]) -> io::Result<()>
    requires { size ≤ length room.old }
    ensures shows { OnOk result
        (Shows (L.contents buffer.old) (L.moment buffer.old) offset (take size room.new)) }
    ensures contents { L.contents buffer.new ≡ L.contents buffer.old }
    ensures moment { OnOk result (L.moment buffer.new ≡ L.moment buffer.old + L.tick) }
{
    buffer.look(offset, &mut room[..size])
}

// Copies a text to the front of the room.
fn keep_text(text: &[u8], room: &mut [u8])
    requires { length text.now ≤ length room.old }
    ensures text { take (length text.now) room.new ≡ text.now }
    ensures length { length room.new ≡ length room.old }
{
    room[..text.len()].copy_from_slice(text);
}

fn make_room(room: &mut Vec<u8>, size: usize) -> Result<(), AllocError>
    ensures { OnOk result (size ≤ length room.new.items) }
{
    if room.len() < size {
        room.resize(size, 0)?;
    }
    Ok(())
}
