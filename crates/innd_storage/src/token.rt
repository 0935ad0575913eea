// Tokens of innd's storage API: 18 octets in hexadecimal digits between two `@`.
ghost use Rattle.std.specs.Prelude.{◌≡◌, ◌<◌, ◌≤◌, IsTrue};
ghost use Rattle.std.specs.Char.{digit_value, is_ascii_hexdigit};
ghost use Rattle.std.specs.List.{list_all};
ghost use Rattle.innd_storage.specs.Tokens.{article_number, cnfs_of, is_storage_text, octet_at, storage_token_of};
ghost use Rattle.innd_storage.specs.Tokens.{timehash_of, tradspool_of, u16_at, u32_at};

use crate::buffer_name::BufferName;
use funnel::Token;
use thiserror::Error;

/// What a token of the storage API means: the article's place in the spool.
#[derive(Clone, Copy)]
pub enum StorageToken {
    Tradspool(TradspoolToken),
    Timehash(TimehashToken),
    Cnfs(CnfsToken),
}

/// An article of the method tradspool: a file of its own in a directory of a newsgroup.
#[derive(Clone, Copy)]
pub struct TradspoolToken {
    /// The storage class.
    pub class: u8,
    /// The number of the newsgroup in `tradspool.map`.
    pub group: u32,
    /// The number of the article in the newsgroup, not 0.
    pub number: u32,
}

/// An article of the method timehash: a file of its own, named for the second of its arrival.
#[derive(Clone, Copy)]
pub struct TimehashToken {
    /// The storage class.
    pub class: u8,
    /// When it arrived, in seconds since 1970.
    pub arrival: u32,
    /// Which of the articles of that second it is.
    pub sequence: u16,
}

/// An article of the method CNFS: a part of a buffer whose oldest articles are overwritten.
#[derive(Clone, Copy)]
pub struct CnfsToken {
    /// The storage class.
    pub class: u8,
    /// The buffer's name.
    pub buffer: BufferName,
    /// Where the article begins, in blocks of the buffer.
    pub block: u32,
    /// How many times the buffer had been filled.
    pub cycle: u32,
}

/// Why a token of the storage API names no article that can be read here.
#[derive(Clone, Copy, Debug, PartialEq, Eq, Error)]
pub enum TokenFault {
    /// Its method is timecaf, whose files are not read here.
    #[error("Timecaf")]
    Timecaf,
    /// Its method is none of those that keep articles.
    #[error("UnknownMethod")]
    UnknownMethod,
    /// Its octets are not as its method writes them.
    #[error("BadFields")]
    BadFields,
}

/// The place of the article that a token means; `None` if it is not a token of the storage API, which is `@`, 36
/// hexadecimal digits of either case, and `@`.
///
/// # Errors
/// The fault of a token of the storage API. `BadFields`: octets that its method leaves 0 are not 0, or the number of an
/// article of tradspool is 0, or a buffer's name is not 1 to 7 octets, or is not padded with NUL.
pub fn read_token(token: &Token) -> Result<Option<StorageToken>, TokenFault>
    ensures { result ≡ storage_token_of token.now }
{
    let text = token.bytes();
    if !is_storage_text(text) {
        return Ok(None);
    }
    let article = match octet_at(text, 0) {
        2 => timehash(text).map(StorageToken::Timehash),
        3 => cnfs(text).map(StorageToken::Cnfs),
        4 => return Err(TokenFault::Timecaf),
        5 => tradspool(text).map(StorageToken::Tradspool),
        _ => return Err(TokenFault::UnknownMethod),
    };
    match article {
        Some(token) => Ok(Some(token)),
        None => Err(TokenFault::BadFields),
    }
}

fn is_storage_text(text: &[u8]) -> bool
    ensures { result ≡ is_storage_text text.now }
{
    text.len() == 38 && text[0] == b'@' && text[37] == b'@' && are_hexadecimal(&text[1..37])
}

fn are_hexadecimal(octets: &[u8]) -> bool
    ensures { result ≡ list_all is_ascii_hexdigit octets.now }
{
    octets.iter().all(|octet| octet.is_ascii_hexdigit())
}

fn tradspool(text: &[u8]) -> Option<TradspoolToken>
    requires { IsTrue (is_storage_text text.now) }
    ensures { result ≡ tradspool_of text.now }
{
    let number = article_number(u32_at(text, 6), u32_at(text, 10), u32_at(text, 14))?;
    Some(TradspoolToken {
        class: octet_at(text, 1),
        group: u32_at(text, 2),
        number,
    })
}

// The number of an article, which a host of 64 bits writes four octets after one of 32 bits; all others are 0.
fn article_number(narrow: u32, wide: u32, rest: u32) -> Option<u32>
    ensures { result ≡ article_number narrow wide rest }
{
    if rest != 0 {
        None
    } else if narrow == 0 && wide != 0 {
        Some(wide)
    } else if narrow != 0 && wide == 0 {
        Some(narrow)
    } else {
        None
    }
}

fn timehash(text: &[u8]) -> Option<TimehashToken>
    requires { IsTrue (is_storage_text text.now) }
    ensures { result ≡ timehash_of text.now }
{
    if u32_at(text, 8) != 0 || u32_at(text, 12) != 0 || u16_at(text, 16) != 0 {
        return None;
    }
    Some(TimehashToken {
        class: octet_at(text, 1),
        arrival: u32_at(text, 2),
        sequence: u16_at(text, 6),
    })
}

fn cnfs(text: &[u8]) -> Option<CnfsToken>
    requires { IsTrue (is_storage_text text.now) }
    ensures { result ≡ cnfs_of text.now }
{
    let buffer = BufferName::in_field([
        octet_at(text, 2),
        octet_at(text, 3),
        octet_at(text, 4),
        octet_at(text, 5),
        octet_at(text, 6),
        octet_at(text, 7),
        octet_at(text, 8),
        octet_at(text, 9),
    ])?;
    Some(CnfsToken {
        class: octet_at(text, 1),
        buffer,
        block: u32_at(text, 10),
        cycle: u32_at(text, 14),
    })
}

// The number that four octets of the token have, the highest first.
#[tactic(auto, unfolding(crate::specs::Tokens::u32_at))]
fn u32_at(text: &[u8], index: usize) -> u32
    requires text { IsTrue (is_storage_text text.now) }
    requires index { index ≤ 14 }
    ensures { result ≡ u32_at text.now index }
{
    u32::from_be_bytes([
        octet_at(text, index),
        octet_at(text, index + 1),
        octet_at(text, index + 2),
        octet_at(text, index + 3),
    ])
}

#[tactic(auto, unfolding(crate::specs::Tokens::u16_at))]
fn u16_at(text: &[u8], index: usize) -> u16
    requires text { IsTrue (is_storage_text text.now) }
    requires index { index ≤ 16 }
    ensures { result ≡ u16_at text.now index }
{
    u16::from_be_bytes([octet_at(text, index), octet_at(text, index + 1)])
}

// One octet of the token: two digits.
#[tactic(auto, unfolding(crate::specs::Tokens::octet_at))]
fn octet_at(text: &[u8], index: usize) -> u8
    requires text { IsTrue (is_storage_text text.now) }
    requires index { index < 18 }
    ensures { result ≡ octet_at text.now index }
{
    16 * digit(text[2 * index + 1]) + digit(text[2 * index + 2])
}

fn digit(octet: u8) -> u8
    requires { IsTrue (is_ascii_hexdigit octet) }
    ensures value { result ≡ digit_value octet }
    ensures short { result < 16 }
{
    match octet {
        b'0'..=b'9' => octet - b'0',
        b'A'..=b'F' => octet - b'A' + 10,
        _ => octet - b'a' + 10,
    }
}
