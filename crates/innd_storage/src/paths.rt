// The files of articles, below the directory `articles` of the spool.
ghost use Rattle.std.specs.Prelude.{◌≡◌, ◌<◌, IfOk, string_bytes};
ghost use Rattle.std.specs.Char.{digit_char};
ghost use Rattle.innd_storage.specs.Paths.{timehash_path, tradspool_path, two_digits};

use crate::token::TimehashToken;
use std::alloc::{AllocError, Global};

/// The path of an article of timehash: `time-CC/bb/cc/SSSS-aadd`, with the class CC, the octets aa bb cc dd of the time
/// of arrival and the sequence number SSSS.
pub fn timehash_path(token: &TimehashToken) -> [u8; 23]
    ensures { result ≡ timehash_path token.now }
{
    let arrival = token.arrival.to_be_bytes();
    let sequence = token.sequence.to_be_bytes();
    let class = two_digits(token.class);
    let first = two_digits(arrival[0]);
    let second = two_digits(arrival[1]);
    let third = two_digits(arrival[2]);
    let last = two_digits(arrival[3]);
    let high = two_digits(sequence[0]);
    let low = two_digits(sequence[1]);
    [
        b't', b'i', b'm', b'e', b'-', class[0], class[1], b'/', second[0], second[1], b'/',
        third[0], third[1], b'/', high[0], high[1], low[0], low[1], b'-', first[0], first[1],
        last[0], last[1],
    ]
}

/// The path of an article of tradspool: the directory of its newsgroup, which `tradspool.map` names, and its number.
///
/// # Errors
/// `NoMemory` if memory was refused.
pub fn tradspool_path(alloc: Global, group: &str, number: u32) -> Result<String, AllocError>
    ensures { IfOk result (λ path. string_bytes path ≡ tradspool_path group.now number) }
{
    format!(in alloc; "{group}/{number}")
}

fn two_digits(octet: u8) -> [u8; 2]
    ensures { result ≡ two_digits octet }
{
    [digit_char(octet / 16), digit_char(octet % 16)]
}

fn digit_char(digit: u8) -> u8
    requires { digit < 16 }
    ensures { result ≡ digit_char digit }
{
    if digit < 10 {
        b'0' + digit
    } else {
        b'a' + (digit - 10)
    }
}
