// A line of a script, and its words.
ghost use Rattle.std.specs.Prelude.{◌≡◌, ◌==◌, ◌≤◌, ◌<◌, ◌+◌, IfOk, IfSome, length, map};
ghost use Rattle.std.specs.List.{position, slice_split};
ghost use Rattle.script_fault_text.specs.FaultText.{first_word, line_at, place_of_space, space_from, word_after};

use funnel::without_cr;
use std::alloc::{AllocError, Global};

/// The line of this number, counted from 1, without its LF and the CR before that.
///
/// # Errors
/// Memory was refused.
pub fn line_at(alloc: Global, script: &[u8], number: usize) -> Result<&[u8], AllocError>
    ensures { IfOk result (λ line. line.now ≡ line_at script.now number) }
{
    let lines = lines_of(alloc, script)?;
    match lines.get(number.saturating_sub(1)) {
        Some(line) => Ok(without_cr(line)),
        None => Ok(&[]),
    }
}

// The lines of a script, each without its LF, and what follows the last LF.
fn lines_of(alloc: Global, script: &[u8]) -> Result<Vec<&[u8]>, AllocError>
    ensures { IfOk result (λ lines.
        map (λ line. line.now) lines.items ≡ slice_split (λ octet. octet == 10) script.now) }
{
    script.split(|octet| *octet == b'\n').collect(alloc)
}

/// Where the first space stands at or after this place; `None` if there is none.
pub fn space_from(line: &[u8], place: usize) -> Option<usize>
    requires { place ≤ length line.now }
    ensures place { result ≡ space_from line.now place }
    ensures within { IfSome result (λ space. space < length line.now) }
{
    match place_of_space(&line[place..]) {
        Some(count) => Some(place + count),
        None => None,
    }
}

fn place_of_space(text: &[u8]) -> Option<usize>
    ensures place { result ≡ place_of_space text.now }
    ensures within { IfSome result (λ place. place < length text.now) }
{
    text.iter().position(|octet| *octet == b' ')
}

/// The first word of a text, up to its first space.
pub fn first_word(text: &[u8]) -> &[u8]
    ensures { result.now ≡ first_word text.now }
{
    match place_of_space(text) {
        Some(end) => &text[..end],
        None => text,
    }
}

/// The word between the space at this place and the next space, or the line's end.
pub fn word_after(line: &[u8], space: usize) -> &[u8]
    requires { space < length line.now }
    ensures { result.now ≡ word_after line.now space }
{
    first_word(&line[space + 1..])
}
