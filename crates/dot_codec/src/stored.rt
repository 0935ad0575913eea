// The text of an article that is stored in wire format.
ghost use Rattle.std.specs.Prelude.{◌≡◌, ◌++◌, ◌∷◌, [], List, ℕ, IfOk, IfNone, IfSome, OnOk};
ghost use Rattle.std.specs.Option.{option_map};
ghost use Rattle.dot_codec.specs.Stored.{is_dot, parts_between_crlf, stored_text, text_at_end};
ghost use Rattle.dot_codec.specs.Stored.{unstuffed};

use crate::scan::Line;
use memchr::memmem::Finder;
use std::alloc::{AllocError, Global};

/// The text of an article that innd stores in wire format, as a block (RFC 3977, section 3.1.1): each line with its CR
/// LF and without the dot that it begins with.
///
/// `None` if the octets do not end with the first line that is a dot alone, and its CR LF. A line may have any other
/// octets, NUL, CR and LF among them: [`is_sendable`](crate::is_sendable) says whether the text can be sent.
///
/// # Errors
/// `AllocError` if memory was refused.
pub fn stored_text(alloc: Global, octets: &[u8]) -> Result<Option<Vec<u8>>, AllocError>
    ensures { IfOk result
        (λ text. option_map (λ t. t.items) text ≡ stored_text octets.now) }
{
    let crlf = Finder::new(b"\r\n");
    let mut text = Vec::with_capacity(alloc, octets.len())?;
    let mut rest = octets;
    while let Some(line) = first_part(&crlf, rest) {
        if is_dot(line.octets) {
            return Ok(text_at_end(text, line.rest));
        }
        put_unstuffed(&mut text, line.octets)?;
        rest = line.rest;
    }
    Ok(None)
}

// The text of the lines before a dot alone, if nothing follows that.
fn text_at_end(text: Vec<u8>, rest: &[u8]) -> Option<Vec<u8>>
    ensures { option_map (λ t. t.items) result
        ≡ option_map (λ end. text.items ++ end) (text_at_end (parts_between_crlf rest.now)) }
{
    if rest.is_empty() { Some(text) } else { None }
}

// The octets before the first CR LF, and those after it.
#[inline]
fn first_part<'t>(crlf: &Finder<'_>, octets: &'t [u8]) -> Option<Line<'t>>
    requires { crlf.now ≡ 13 ∷ 10 ∷ [] }
    ensures part { IfSome result
        (λ line. parts_between_crlf octets.now
        ≡ line.octets.now ∷ parts_between_crlf line.rest.now) }
    ensures cut { IfSome result (λ line. octets.now ≡ line.octets.now ++ 13 ∷ 10 ∷ line.rest.now) }
    ensures last { IfNone result (parts_between_crlf octets.now ≡ octets.now ∷ []) }
{
    let at = crlf.find(octets)?;
    Some(Line {
        octets: &octets[..at],
        rest: &octets[at + 2..],
    })
}

#[inline]
fn is_dot(line: &[u8]) -> bool
    ensures { result ≡ is_dot line.now }
{
    matches!(line, [b'.'])
}

#[inline]
fn put_unstuffed(text: &mut Vec<u8>, line: &[u8]) -> Result<(), AllocError>
    ensures { OnOk result (text.new.items
        ≡ text.old.items ++ (unstuffed line.now ++ 13 ∷ 10 ∷ [])) }
{
    text.extend_from_slice(without_dot(line))?;
    text.push(b'\r')?;
    text.push(b'\n')?;
    Ok(())
}

#[inline]
fn without_dot(line: &[u8]) -> &[u8]
    ensures { result.now ≡ unstuffed line.now }
{
    match line {
        [b'.', rest @ ..] => rest,
        _ => line,
    }
}
