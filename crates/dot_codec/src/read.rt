// The lines of a block, which are counted first and then copied into one allocation.
ghost use Rattle.std.specs.Prelude.{◌≡◌, ◌+◌, ◌<◌, ◌≤◌, ◌↔◌, ◌++◌, ◌∷◌, [], ℕ};
ghost use Rattle.std.specs.Prelude.{List, length, take, IfOk, IfErr, IfSome, IfNone, IsErrOf, MatchOption, MatchResult};
ghost use Rattle.dot_codec.specs.Lines.{IsLine, text_of};
ghost use Rattle.dot_codec.specs.Block.{IsLineForm, IsReadForm, end_of_block};
ghost use Rattle.dot_codec.specs.Fault.{HasBlockFault, IsFaultyLine};

use crate::fault::BlockFault;
use crate::scan::{Line, RunEnd, first_run};
use std::alloc::{AllocError, Global};

/// Reads the block that the octets begin with: its lines, each with LF, and its length in octets. Other octets may
/// follow it (RFC 3977, section 3.1.1).
///
/// A line is read without the dot that it begins with, whether or not another dot follows.
///
/// # Errors
/// If the octets do not begin with a block, the first fault in reading order: [`BlockFault::Unfinished`],
/// [`BlockFault::BareCr`], [`BlockFault::BareLf`] or [`BlockFault::Nul`].
/// [`BlockFault::NoMemory`] if they do and memory was refused.
pub fn from_block(alloc: Global, octets: &[u8]) -> Result<(Vec<u8>, usize), BlockFault>
    ensures read { IfOk result
        (λ r. (r.1 ≤ length octets.now)
        × ((lines : List (List ℕ)) × IsReadForm lines (take r.1 octets.now)
        × (r.0.items ≡ text_of lines))) }
    ensures all { (lines : List (List ℕ)) (form rest : List ℕ) → IsReadForm lines form
        → octets.now ≡ form ++ rest
        → MatchResult result (λ r. (r.0.items ≡ text_of lines) × (r.1 ≡ length form))
        (λ e. e ≡ BlockFault.NoMemory) }
    ensures unfinished { IsErrOf result BlockFault.Unfinished
        ↔ HasBlockFault octets.now BlockFault.Unfinished }
    ensures bare_cr { IsErrOf result BlockFault.BareCr
        ↔ HasBlockFault octets.now BlockFault.BareCr }
    ensures bare_lf { IsErrOf result BlockFault.BareLf
        ↔ HasBlockFault octets.now BlockFault.BareLf }
    ensures nul { IsErrOf result BlockFault.Nul ↔ HasBlockFault octets.now BlockFault.Nul }
    ensures no_memory { IsErrOf result BlockFault.NoMemory
        → (lines : List (List ℕ)) × (form rest : List ℕ) × IsReadForm lines form
        × (octets.now ≡ form ++ rest) }
{
    match block_size(octets) {
        Ok(size) => match lines_of(alloc, octets, size.text) {
            Ok(text) => Ok((text, size.used)),
            Err(_) => Err(BlockFault::NoMemory),
        },
        Err(fault) => Err(fault),
    }
}

/// The length of a block, and that of its lines, each with LF, in octets.
#[derive(Clone, Copy, Debug)]
struct BlockSize {
    used: usize,
    text: usize,
}

fn block_size(octets: &[u8]) -> Result<BlockSize, BlockFault>
    ensures read { IfOk result
        (λ size. (lines : List (List ℕ)) × (form rest : List ℕ) × IsReadForm lines form
        × (octets.now ≡ form ++ rest) × (size.used ≡ length form)
        × (size.text ≡ length (text_of lines))) }
    ensures fault { IfErr result (λ fault. HasBlockFault octets.now fault) }
{
    let mut text = 0;
    let mut rest = octets;
    while let Some(line) = next_line(rest)? {
        text += line.octets.len() + 1;
        rest = line.rest;
    }
    let used = octets.len() - rest.len() + b".\r\n".len();
    Ok(BlockSize { used, text })
}

// Copies the lines of a block, each with LF, into one allocation of `len` octets.
fn lines_of(alloc: Global, octets: &[u8], len: usize) -> Result<Vec<u8>, AllocError>
    ensures { IfOk result (λ text. (lines : List (List ℕ)) (form rest : List ℕ)
        → IsReadForm lines form → octets.now ≡ form ++ rest → text.items ≡ text_of lines) }
{
    let mut text = Vec::with_capacity(alloc, len)?;
    let mut rest = octets;
    while let Some(line) = next_line(rest).unwrap_or(None) {
        text.extend_from_slice(line.octets)?;
        text.push(b'\n')?;
        rest = line.rest;
    }
    Ok(text)
}

// The line that the octets begin with, or their fault; `None` at the end of the block.
fn next_line(octets: &[u8]) -> Result<Option<Line<'_>>, BlockFault>
    ensures line { IfOk result
        (λ next. IfSome next (λ line. (form : List ℕ)
        × (octets.now ≡ form ++ 13 ∷ 10 ∷ line.rest.now) × IsLine line.octets.now
        × IsLineForm line.octets.now form)) }
    ensures end { IfOk result
        (λ next. IfNone next ((rest : List ℕ) × (octets.now ≡ end_of_block ++ rest))) }
    ensures fault { IfErr result (λ fault. IsFaultyLine fault octets.now) }
{
    let run = first_run(octets);
    match run.stop {
        RunEnd::CrLf => match line_of(run.octets) {
            Some(octets) => Ok(Some(Line {
                octets,
                rest: run.rest,
            })),
            None => Ok(None),
        },
        RunEnd::Nul => Err(BlockFault::Nul),
        RunEnd::Lf => Err(BlockFault::BareLf),
        RunEnd::Cr if !run.rest.is_empty() => Err(BlockFault::BareCr),
        RunEnd::Cr => Err(BlockFault::Unfinished),
        RunEnd::End => Err(BlockFault::Unfinished),
    }
}

// `None` for a dot alone.
fn line_of(form: &[u8]) -> Option<&[u8]>
    ensures { MatchOption result (form.now ≡ 46 ∷ []) (λ line. IsLineForm line.now form.now) }
{
    match form {
        [b'.'] => None,
        [b'.', line @ ..] => Some(line),
        _ => Some(form),
    }
}
