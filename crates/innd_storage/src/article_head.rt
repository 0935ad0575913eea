// What says whether and how an article is in a block of a buffer of CNFS: the block's bit, and the article's head.
ghost use Rattle.std.specs.Prelude.{◌≡◌, ◌+◌, ◌*◌, ◌/◌};
ghost use Rattle.innd_storage.specs.ArticleHeads.{head_of, is_set};

use crate::cycbuff::ARTICLE_HEAD_OCTETS;
use crate::numbers::number_at;

/// What stands before the text of an article in a buffer.
#[derive(Clone, Copy)]
pub struct ArticleHead {
    /// How many octets the text has; not 0.
    pub size: u32,
    /// When it arrived, in seconds since 1970.
    pub arrival: u32,
    /// The storage class.
    pub class: u8,
}

/// Reads what stands before the text of an article; `None` if no article begins there: if the size is 0, or the size or
/// the arrival have more than 32 bits. The last seven octets may be anything.
pub fn read_article_head(octets: &[u8; ARTICLE_HEAD_OCTETS]) -> Option<ArticleHead>
    ensures { result ≡ head_of octets.now }
{
    let size = number_at(octets, 0);
    if size == 0 || number_at(octets, 4) != 0 || number_at(octets, 12) != 0 {
        return None;
    }
    Some(ArticleHead {
        size,
        arrival: number_at(octets, 8),
        class: octets[16],
    })
}

/// Where the eight octets begin that have a block's bit, in octets from the buffer's beginning.
pub fn bits_offset(block: u32) -> u64
    ensures { result ≡ 512 + 8 * (block / 64) }
{
    512 + 8 * u64::from(block / 64)
}

/// Whether an article begins in this block, by the eight octets at [`bits_offset`]: whether its bit is set. They are a
/// number with its lowest octet first, and its highest bit is that of the first of 64 blocks.
pub fn is_set(octets: [u8; 8], block: u32) -> bool
    ensures { result ≡ is_set octets block }
{
    (u64::from_le_bytes(octets) >> (63 - block % 64)) & 1 == 1
}
