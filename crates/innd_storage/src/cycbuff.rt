// A buffer of CNFS: its header, and where an article is in it.
ghost use Rattle.std.specs.Prelude.{◌≡◌, ◌≤◌, ◌<◌, ◌^◌, ◌+◌, length, slice_range};
ghost use Rattle.innd_storage.specs.Cycbuffs.{has_room, header_of, is_kept, name_of, next_cycle, number_in};
ghost use Rattle.innd_storage.specs.Cycbuffs.{offset_in};

use crate::buffer_name::{BufferName, are_nul, eight_at};
use crate::numbers::read_number;
use crate::token::CnfsToken;
use thiserror::Error;

/// How many octets of a buffer's beginning its header takes.
pub const HEADER_OCTETS: usize = 208;

/// How many octets stand before the text of an article.
pub const ARTICLE_HEAD_OCTETS: usize = 24;

/// The header of a buffer, as far as a reader of articles needs it.
#[derive(Clone, Copy)]
pub struct CycbuffHeader {
    pub name: BufferName,
    /// How long the buffer is, in octets.
    pub length: u64,
    /// Where the next article goes, in octets from the buffer's beginning.
    pub free: u64,
    /// How many times the buffer has been filled, as tokens count.
    pub cycle: u64,
    /// How many octets a block has; not 0.
    pub block_size: u64,
}

/// Why a buffer's header is refused.
#[derive(Clone, Copy, Debug, PartialEq, Eq, Error)]
pub enum HeaderFault {
    /// It does not begin as one of CNFS, version 4.
    #[error("NotCycbuff")]
    NotCycbuff,
    /// Its name does not have 1 to 7 octets, or is not padded with NUL.
    #[error("BadName")]
    BadName,
    /// A number is not written in 16 hexadecimal digits, or a block has no octets.
    #[error("BadNumber")]
    BadNumber,
}

/// Reads the header with which a buffer begins.
///
/// # Errors
/// The first fault in the order of [`HeaderFault`].
pub fn read_header(octets: &[u8; HEADER_OCTETS]) -> Result<CycbuffHeader, HeaderFault>
    ensures { result ≡ header_of octets.now }
{
    if !octets.starts_with(b"CBuf4\0\0\0") {
        return Err(HeaderFault::NotCycbuff);
    }
    let Some(name) = name_of(octets) else {
        return Err(HeaderFault::BadName);
    };
    let Some(length) = number_in(octets, 88) else {
        return Err(HeaderFault::BadNumber);
    };
    let Some(free) = number_in(octets, 104) else {
        return Err(HeaderFault::BadNumber);
    };
    let Some(cycle) = number_in(octets, 136) else {
        return Err(HeaderFault::BadNumber);
    };
    match number_in(octets, 192) {
        Some(block_size) if block_size != 0 => Ok(CycbuffHeader {
            name,
            length,
            free,
            cycle,
            block_size,
        }),
        _ => Err(HeaderFault::BadNumber),
    }
}

fn name_of(octets: &[u8]) -> Option<BufferName>
    requires { length octets.now ≡ 208 }
    ensures { result ≡ name_of octets.now }
{
    if !are_nul(&octets[16..24]) {
        return None;
    }
    BufferName::in_field(eight_at(octets, 8))
}

// The number of 16 digits.
fn number_in(octets: &[u8], at: usize) -> Option<u64>
    requires { at + 16 ≤ length octets.now }
    ensures { result ≡ number_in octets.now at }
{
    read_number(&octets[at..at + 16], 16)
}

impl CycbuffHeader {
    /// Where the article of this token is in the buffer, in octets from its beginning; `None` if its place is behind
    /// the buffer's end or has been written over since. The buffer is the one that the token names.
    pub fn offset_of(&self, token: &CnfsToken) -> Option<u64>
        ensures { result ≡ offset_in self.now token.now }
    {
        let last = self.length.checked_sub(24)?;
        let offset = u64::from(token.block).checked_mul(self.block_size)?;
        if offset <= last && self.is_kept(u64::from(token.cycle), offset) {
            Some(offset)
        } else {
            None
        }
    }

    // Whether an article that was written in this cycle at this offset has not been written over.
    fn is_kept(&self, cycle: u64, offset: u64) -> bool
        requires { cycle < 2 ^ 32 }
        ensures { result ≡ is_kept self.now cycle offset }
    {
        self.cycle == cycle || (self.cycle == next_cycle(cycle) && offset >= self.free)
    }

    /// Whether an article of this size can begin at this offset: whether its end is within the buffer.
    pub fn has_room(&self, offset: u64, size: u32) -> bool
        ensures { result ≡ has_room self.now offset size }
    {
        let count = 24 + u64::from(size);
        count <= self.length && offset <= self.length - count
    }
}

// The cycle after this one: 0 and 1 do not come again.
fn next_cycle(cycle: u64) -> u64
    requires { cycle < 2 ^ 32 }
    ensures { result ≡ next_cycle cycle }
{
    if cycle == 4_294_967_295 { 2 } else { cycle + 1 }
}
