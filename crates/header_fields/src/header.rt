// The header of an article.
ghost use Rattle.std.specs.Prelude.{◌≡◌, ◌++◌, IfOk, List, count_by, map};
ghost use Rattle.header_fields.specs.Header.{begins_field, first_body, folds, header_lines, is_empty_line, is_folded};
ghost use Rattle.header_fields.specs.Header.{message_id_of};

use funnel::MsgId;
use std::alloc::{AllocError, Global};

// The name of the field, with the colon that ends it.
const NAME: &[u8] = b"message-id:";

/// The message-id in the header of this article; `None` if the header has no field Message-ID, or has several, or if
/// the field's body is not a message-id (RFC 5536, section 3.1.3).
///
/// The header ends at the first empty line. Its lines end with LF or with CR and LF. The case of the field's name
/// does not matter, and its body may be folded (RFC 5322, section 2.2.3); white space around the message-id is
/// ignored.
///
/// # Errors
/// `NoMemory` if memory was refused.
pub fn message_id(alloc: Global, article: &[u8]) -> Result<Option<MsgId>, AllocError>
    ensures { IfOk result (λ found. found ≡ message_id_of article.now) }
{
    let lines = header_lines(alloc, article)?;
    if count_fields(&lines) != 1 {
        return Ok(None);
    }
    let body = first_body(alloc, &lines)?;
    MsgId::read(alloc, body.as_slice().trim_ascii())
}

// The lines before the first empty one, each without its LF.
fn header_lines(alloc: Global, article: &[u8]) -> Result<Vec<&[u8]>, AllocError>
    ensures { IfOk result (λ lines.
        map (λ line. line.now) lines.items ≡ header_lines article.now) }
{
    article
        .split(|octet| *octet == b'\n')
        .take_while(|line| !is_empty_line(line))
        .collect(alloc)
}

// Whether a line, without its LF, is empty or has only a CR.
fn is_empty_line(line: &[u8]) -> bool
    ensures { result ≡ is_empty_line line.now }
{
    line.is_empty() || (line.len() == 1 && line[0] == b'\r')
}

fn count_fields(lines: &[&[u8]]) -> usize
    ensures { result ≡ count_by begins_field (map (λ line. line.now) lines.now) }
{
    lines.iter().filter(|line| begins_field(line)).count()
}

// Whether a field called Message-ID begins on this line.
fn begins_field(line: &[u8]) -> bool
    ensures { result ≡ begins_field line.now }
{
    line.len() >= NAME.len() && line[..NAME.len()].eq_ignore_ascii_case(NAME)
}

// The body of the first of these fields, unfolded; empty if there is none.
fn first_body(alloc: Global, lines: &[&[u8]]) -> Result<Vec<u8>, AllocError>
    ensures { IfOk result (λ body.
        body.items ≡ first_body (map (λ line. line.now) lines.now)) }
{
    for index in 0..lines.len() {
        let line = lines[index];
        if begins_field(line) {
            let text = line.split_at(NAME.len()).1;
            return unfolded(alloc, text, lines.split_at(index + 1).1);
        }
    }
    Ok(Vec::new(alloc))
}

// A text with those of the lines after it that are folded onto it.
fn unfolded(alloc: Global, text: &[u8], others: &[&[u8]]) -> Result<Vec<u8>, AllocError>
    ensures { IfOk result (λ body.
        body.items ≡ text.now ++ folds (map (λ line. line.now) others.now)) }
{
    let mut body = Vec::from_slice(alloc, text)?;
    for line in others {
        if !is_folded(line) {
            return Ok(body);
        }
        body.extend_from_slice(line)?;
    }
    Ok(body)
}

// Whether the line continues the field before it.
fn is_folded(line: &[u8]) -> bool
    ensures { result ≡ is_folded line.now }
{
    !line.is_empty() && (line[0] == b' ' || line[0] == b'\t')
}
