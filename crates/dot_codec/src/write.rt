// The lines of a text, written as a block.
ghost use Rattle.std.specs.Prelude.{◌≡◌, ◌<◌, ◌≤◌, ◌↔◌, ◌++◌, ◌∷◌, [], ℕ, List};
ghost use Rattle.std.specs.Prelude.{Ok, true, false};
ghost use Rattle.std.specs.Prelude.{length, drop, IfOk, IsOk, IsErrOf, OnOk, OnErr, IsTrue, IfSome, IfNone};
ghost use Rattle.dot_codec.specs.Lines.{HasLines, IsSendable, longest_text};
ghost use Rattle.dot_codec.specs.Block.{begins_with_dot, stuffed, written};
ghost use Rattle.dot_codec.specs.Put.{AreWritten, Extends};
ghost use Rattle.dot_codec.specs.Scan.{begins_with_crlf};

use crate::fault::BlockRefusal;
use crate::scan::{ends_line, first_run};
use bytes::{Bytes, BytesMut};
use memchr::memchr2_iter;
use std::alloc::{AllocError, Global};

/// The length of the longest text that can be sent, in octets (profile).
pub const TEXT_MAX_OCTETS: usize = 16_777_216;

/// The block of a text, in its written form: each line with CR LF and, if it begins with a dot, one more dot before
/// it; a dot alone at the end (RFC 3977, section 3.1.1).
///
/// A line of the text ends with LF or CR LF, and the last one may end with the text.
///
/// # Errors
/// [`BlockRefusal::Unsendable`] exactly if the text cannot be sent (see [`is_sendable`]).
/// [`BlockRefusal::NoMemory`] if it can and memory was refused.
pub fn to_block(alloc: Global, text: &[u8]) -> Result<Bytes, BlockRefusal>
    ensures block { IfOk result
        (λ b. (lines : List (List ℕ)) × HasLines text.now lines × (b ≡ written lines)) }
    ensures unsendable { IsErrOf result BlockRefusal.Unsendable ↔ (IsSendable text.now → ⊥) }
    ensures sendable { IsErrOf result BlockRefusal.NoMemory → IsSendable text.now }
    ensures sent { IsOk result → IsSendable text.now }
{
    let mut block = BytesMut::new(alloc);
    put_block(&mut block, text, 0)?;
    match block.freeze() {
        Ok(block) => Ok(block),
        Err(_) => Err(BlockRefusal::NoMemory),
    }
}

/// Puts the block of a text, as [`to_block`] makes it, behind the octets of an output, and keeps room there for `spare`
/// octets more. The lines go straight into the output, which is the only copy that is made of them.
///
/// # Errors
/// As those of [`to_block`]; the output's octets stay, and it has no less room for more.
pub fn put_block(output: &mut BytesMut, text: &[u8], spare: usize) -> Result<(), BlockRefusal>
    ensures block { OnOk result
        ((lines : List (List ℕ)) × HasLines text.now lines
        × (output.new.items ≡ output.old.items ++ written lines)) }
    ensures room { OnOk result (spare ≤ output.new.spare) }
    ensures unsendable { IsErrOf result BlockRefusal.Unsendable ↔ (IsSendable text.now → ⊥) }
    ensures sendable { IsErrOf result BlockRefusal.NoMemory → IsSendable text.now }
    ensures sent { IsOk result → IsSendable text.now }
    ensures unchanged { OnErr result (output.new.items ≡ output.old.items) }
    ensures spare { OnErr result (output.old.spare ≤ output.new.spare) }
{
    if text.is_empty() || text.len() > TEXT_MAX_OCTETS {
        return Err(BlockRefusal::Unsendable);
    }
    let len = output.len();
    match put_lines_and_end(output, text, spare) {
        Ok(true) => Ok(()),
        Ok(false) => {
            output.truncate(len);
            Err(BlockRefusal::Unsendable)
        }
        Err(_) => {
            output.truncate(len);
            Err(without_memory(text))
        }
    }
}

// Why a text was not put out, if memory was refused.
fn without_memory(text: &[u8]) -> BlockRefusal
    ensures unsendable { result ≡ BlockRefusal.Unsendable ↔ (IsSendable text.now → ⊥) }
    ensures sendable { result ≡ BlockRefusal.NoMemory → IsSendable text.now }
{
    if is_sendable(text) {
        BlockRefusal::NoMemory
    } else {
        BlockRefusal::Unsendable
    }
}

/// Whether a text can be sent: it is not empty, has at most 16,777,216 octets and no NUL, and each CR is directly
/// before an LF.
pub fn is_sendable(text: &[u8]) -> bool
    ensures { IsTrue result ↔ IsSendable text.now }
{
    !text.is_empty() && text.len() <= TEXT_MAX_OCTETS && has_lines(text)
}

// Each NUL or CR must be a CR directly before an LF. Few texts have any, so this is one wide search of the text.
fn has_lines(text: &[u8]) -> bool
    ensures { IsTrue result ↔ ((lines : List (List ℕ)) × HasLines text.now lines) }
{
    memchr2_iter(b'\0', b'\r', text).all(|at| has_crlf_at(text, at))
}

fn has_crlf_at(text: &[u8], at: usize) -> bool
    ensures { result ≡ begins_with_crlf (drop at text.now) }
{
    matches!(text.get(at..), Some([b'\r', b'\n', ..]))
}

// Puts out the block of a text that has lines. `false` if it has none: then, and after an error, some may be out.
fn put_lines_and_end(output: &mut BytesMut, text: &[u8], spare: usize) -> Result<bool, AllocError>
    requires { length text.now ≤ longest_text }
    ensures block { result ≡ Ok true → (lines : List (List ℕ)) × HasLines text.now lines
        × (output.new.items ≡ output.old.items ++ written lines) }
    ensures room { result ≡ Ok true → spare ≤ output.new.spare }
    ensures none { result ≡ Ok false → (lines : List (List ℕ)) → HasLines text.now lines → ⊥ }
    ensures extends { Extends output.old output.new }
{
    output.reserve(likely_len(text))?;
    if !put_lines(output, text)? {
        return Ok(false);
    }
    output.extend_from_slice(b".\r\n")?;
    output.reserve(spare)?;
    Ok(true)
}

// Room for most blocks: the end, and one more octet for each line. Few texts have more than one line in 16 octets.
fn likely_len(text: &[u8]) -> usize
    requires { length text.now ≤ longest_text }
{
    text.len() + text.len() / 16 + 16
}

// Puts out each line of a text; `false` if one has a NUL, or a CR without an LF after it.
fn put_lines(output: &mut BytesMut, text: &[u8]) -> Result<bool, AllocError>
    ensures lines { result ≡ Ok true → (form : List ℕ) × AreWritten text.now [] form
        × (output.new.items ≡ output.old.items ++ form) }
    ensures none { result ≡ Ok false → (lines : List (List ℕ)) → HasLines text.now lines → ⊥ }
    ensures extends { Extends output.old output.new }
{
    let mut rest = text;
    while !rest.is_empty() {
        match put_next(output, rest)? {
            Some(next) => rest = next,
            None => return Ok(false),
        }
    }
    Ok(true)
}

// Puts out the first line of a text, and returns the rest after it; `None` if it has a NUL, or a CR without an LF after
// it.
#[inline(always)]
fn put_next<'t>(output: &mut BytesMut, text: &'t [u8]) -> Result<Option<&'t [u8]>, AllocError>
    requires { 0 < length text.now }
    ensures lines { IfOk result (λ next. IfSome next (λ rest. (form : List ℕ)
        × AreWritten text.now rest.now form
        × (output.new.items ≡ output.old.items ++ form))) }
    ensures shorter { IfOk result
        (λ next. IfSome next (λ rest. length rest.now < length text.now)) }
    ensures none { IfOk result (λ next. IfNone next
        ((lines : List (List ℕ)) → HasLines text.now lines → ⊥)) }
    ensures extends { Extends output.old output.new }
{
    let run = first_run(text);
    if !ends_line(run.stop) {
        return Ok(None);
    }
    put_line(output, run.octets)?;
    Ok(Some(run.rest))
}

#[inline(always)]
fn put_line(output: &mut BytesMut, line: &[u8]) -> Result<(), AllocError>
    ensures line { OnOk result (output.new.items
        ≡ output.old.items ++ (stuffed line.now ++ 13 ∷ 10 ∷ [])) }
    ensures extends { Extends output.old output.new }
{
    output.reserve(line.len() + 3)?;
    if begins_with_dot(line) {
        output.extend_reserved(b".");
    }
    output.extend_reserved(line);
    output.extend_reserved(b"\r\n");
    Ok(())
}

#[inline]
fn begins_with_dot(line: &[u8]) -> bool
    ensures { result ≡ begins_with_dot line.now }
{
    matches!(line, [b'.', ..])
}
