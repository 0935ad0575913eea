// Octets as texts, and answers as octets.
use crate::fault::RowFault;
use std::alloc::AllocError;
use std::fmt::Display;

/// Adds the octets that a text stands for: those of its characters, but of `\n`, `\r`, `\t` and `\xHH` (two
/// hexadecimal digits) the octet that they name.
///
/// # Errors
/// A `\` that begins none of these.
pub fn add_octets(octets: &mut Vec<u8>, text: &str) -> Result<(), RowFault> {
    let mut parts = text.split('\\');
    if let Some(beginning) = parts.next() {
        octets.extend_from_slice(beginning.as_bytes())?;
    }
    for part in parts {
        let (octet, rest) = read_escape(part).ok_or(RowFault::Escape)?;
        octets.push(octet)?;
        octets.extend_from_slice(rest.as_bytes())?;
    }
    Ok(())
}

// The octet that the beginning of a text names, if it comes after a `\`, and the rest of the text.
fn read_escape(text: &str) -> Option<(u8, &str)> {
    let (name, rest) = text.split_at_checked(1)?;
    match name {
        "n" => Some((b'\n', rest)),
        "r" => Some((b'\r', rest)),
        "t" => Some((b'\t', rest)),
        "x" => {
            let (digits, rest) = rest.split_at_checked(2)?;
            Some((u8::from_str_radix(digits, 16).ok()?, rest))
        }
        _ => None,
    }
}

/// Adds one more part to an answer, and a bar after it.
pub fn put(answer: &mut Vec<u8>, part: &[u8]) -> Result<(), AllocError> {
    answer.extend_from_slice(part)?;
    answer.push(b'|')?;
    Ok(())
}

/// The same for a number or a fault, as it is printed.
pub fn put_printed(answer: &mut Vec<u8>, part: &impl Display) -> Result<(), AllocError> {
    let printed = part.to_string(*answer.allocator())?;
    put(answer, printed.as_bytes())
}

/// The number that the argument of this place, from 1, has in digits.
///
/// # Errors
/// It is not a number below 2^64.
pub fn number_in(arguments: &[Vec<u8>], place: usize) -> Result<u64, RowFault> {
    read_number(arguments, place).ok_or(RowFault::Argument(place, "a number"))
}

fn read_number(arguments: &[Vec<u8>], place: usize) -> Option<u64> {
    let argument = arguments.get(place.checked_sub(1)?)?;
    std::str::from_utf8(argument).ok()?.parse().ok()
}
