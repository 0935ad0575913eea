// The lines of anything that can be read.
ghost use Rattle.std.specs.Prelude.{◌≡◌, ◌↔◌, ◌+◌, ◌<◌, ◌≤◌, [], ◌∷◌, ◌++◌};
ghost use Rattle.std.specs.Prelude.{IfErr, IfOk, OnErr, OnOk};
ghost use Rattle.std.specs.Prelude.{ℕ, IfNone, IfSome, IsErrOf, IsTrue, List, length, nat_lt, take};
ghost use Rattle.std.specs.Io.KnownBytes.{Consumes, IsAtEnd, Keeps};
ghost use Rattle.funnel_files.specs.Funnel.{IsBehind, IsPassing, PassesLines, ends_in};
ghost use Rattle.funnel_files.specs.Rest.{leaves_rest};
ghost use Rattle.funnel.specs.Stream.{Splits, StandsFor, clipped};

use funnel::{LineCutter, first_line};
use std::alloc::{AllocError, Global};
use std::io::{self, ErrorKind, Read};
use thiserror::Error;

// How many octets are read at a time.
const PIECE_OCTETS: usize = 65_536;

/// Why lines were not skipped.
#[derive(Debug, Drop, Error)]
pub(crate) enum SkipFault {
    /// There are fewer: this many are missing.
    #[error("{missing} lines are missing")]
    Short { missing: u64 },
    /// The system's error, or that memory was refused.
    #[error("{0}")]
    Failed(io::Error),
}

impl From<io::Error> for SkipFault {
    ghost use Rattle.std.specs.Prelude.{◌≢◌, ℕ};
    ghost use Rattle.funnel_files.specs.declared.line_file.SkipFault.TheVariants.{Short};

    ghost from_gives = { λ _ fault. (missing : ℕ) → fault ≢ Short missing };

    fn from(reason: io::Error) -> Self {
        SkipFault::Failed(reason)
    }
}

impl From<AllocError> for SkipFault {
    ghost use Rattle.std.specs.Prelude.{◌≢◌, ℕ};
    ghost use Rattle.funnel_files.specs.declared.line_file.SkipFault.TheVariants.{Short};

    ghost from_gives = { λ _ fault. (missing : ℕ) → fault ≢ Short missing };

    fn from(refused: AllocError) -> Self {
        SkipFault::Failed(refused.into())
    }
}

/// The lines of a file, which is read in pieces of 65,536 octets. It holds no more than the lines of one piece.
#[derive(Drop)]
pub struct LineFile<R: Read + Drop> {
    reader: R,
    cutter: LineCutter,
    piece: Vec<u8>,
    // How many octets were read, at most 2 ^ 64 - 1.
    read: u64,
    // Whether what was read does not end in an LF.
    has_rest: bool,
    ghost room: { 0 < length piece.items },
}

impl<R: Read + Drop> LineFile<R> {
    ghost use Rattle.funnel_files.specs.Lines.{HasGiven, left_of, reader_of};

    /// The lines of this reader.
    ///
    /// # Errors
    /// Memory was refused.
    pub fn new(alloc: Global, reader: R) -> Result<Self, AllocError>
        ensures reader { IfOk result (λ file. reader_of file ≡ reader) }
        ensures nothing { IfOk result (λ file. HasGiven file [] []) }
    {
        Ok(LineFile {
            reader,
            cutter: LineCutter::new(alloc),
            piece: vec![in alloc; 0u8; PIECE_OCTETS]?,
            read: 0,
            has_rest: false,
        })
    }

    /// The next line of what was read so far, without its LF; of a longer line, its first 8,193 octets.
    pub fn next_read(&mut self) -> Option<Vec<u8>>
        ensures line { IfSome result (λ octets. (read : List ℕ) (given : List (List ℕ))
            → HasGiven self.old read given
            → (line : List ℕ) × (octets.items ≡ clipped line)
            × HasGiven self.new read (given ++ line ∷ [])) }
        ensures none { IfNone result ((read : List ℕ) (given : List (List ℕ))
            → HasGiven self.old read given
            → HasGiven self.new read given × ((rest : List ℕ) × Splits read given rest)) }
        ensures reader { reader_of self.new ≡ reader_of self.old }
    {
        self.cutter.next()
    }

    /// What it reads from, and how many octets were read, at most 2 ^ 64 - 1.
    pub fn reader(&self) -> (&R, u64) {
        (&self.reader, self.read)
    }

    /// Whether what was read ends in a rest without LF, which is not a line.
    pub fn has_rest(&self) -> bool
        ensures { (read : List ℕ) (given : List (List ℕ)) (rest : List ℕ)
            → HasGiven self.now read given → Splits read given rest
            → result ≡ nat_lt 0 (length rest) }
    {
        self.has_rest
    }

    /// Reads a piece, and returns whether there was one: at the end there is none. A rest without LF is not a line.
    ///
    /// # Errors
    /// The system's error; or memory was refused: then nothing more may be read.
    pub fn read_piece(&mut self) -> io::Result<bool>
        ensures read { IfOk result (λ some. (piece : List ℕ)
            × Consumes (left_of self.old) (left_of self.new) piece
            × (IsTrue some ↔ 0 < length piece)
            × ((read : List ℕ) (given : List (List ℕ)) → HasGiven self.old read given
            → HasGiven self.new (read ++ piece) given)) }
        ensures end { IfOk result (λ some. (IsTrue some → ⊥)
            → IsAtEnd (left_of self.new)) }
    {
        let count = self.read()?;
        self.cutter.feed(&self.piece[..count])?;
        Ok(count > 0)
    }

    /// Skips the first `lines` lines, without a copy, and takes in what follows them in the piece that has the last
    /// of them. Nothing may have been read before.
    ///
    /// # Errors
    /// `Short` if there are fewer lines; the system's error.
    #[tactic(auto, using(crate::proofs::Passes::passes_none, crate::proofs::Passes::passes_more))]
    pub(crate) fn skip(&mut self, lines: u64) -> Result<(), SkipFault>
        requires { StandsFor self.old.cutter [] [] }
        ensures passed { OnOk result (PassesLines lines (R.remaining self.old.reader)
            (R.remaining self.new.reader) self.new.cutter) }
        ensures short { (missing : ℕ) → IsErrOf result (SkipFault.Short missing)
            → IsPassing lines missing (R.remaining self.old.reader) (R.remaining self.new.reader) }
    {
        let mut left = lines;
        for _ in 0..u64::MAX {
            let count = self.read()?;
            match behind(&self.piece[..count], left) {
                Ok(rest) => return Ok(self.cutter.feed(rest)?),
                Err(missing) if count > 0 => left = missing,
                Err(missing) => return Err(SkipFault::Short { missing }),
            }
        }
        Err(SkipFault::Failed(io::Error::from(ErrorKind::TimedOut)))
    }

    // Reads a piece, and returns its length: 0 at the end.
    fn read(&mut self) -> io::Result<usize>
        ensures within { IfOk result (λ count. count ≤ length self.new.piece.items) }
        ensures gave { IfOk result (λ count. Consumes (R.remaining self.old.reader)
            (R.remaining self.new.reader) (take count self.new.piece.items)) }
        ensures end { IfOk result (λ count. count ≡ 0 → IsAtEnd (R.remaining self.new.reader)) }
        ensures rest { IfOk result (λ count. self.new.has_rest
            ≡ leaves_rest self.old.has_rest (take count self.new.piece.items)) }
        ensures kept { self.new.cutter ≡ self.old.cutter }
        ensures unchanged { OnErr result
            (Keeps (R.remaining self.old.reader) (R.remaining self.new.reader)) }
    {
        for _ in 0..u64::MAX {
            match self.reader.read(&mut self.piece) {
                Ok(count) => {
                    self.read = self.read.saturating_add(count as u64);
                    self.has_rest = leaves_rest(self.has_rest, &self.piece[..count]);
                    return Ok(count);
                }
                Err(error) if error.kind() == ErrorKind::Interrupted => {}
                Err(error) => return Err(error),
            }
        }
        Err(io::Error::from(ErrorKind::TimedOut))
    }
}

// Whether a rest without LF is left after a piece, if one was left before it.
fn leaves_rest(before: bool, piece: &[u8]) -> bool
    ensures { result ≡ leaves_rest before piece.now }
{
    match piece {
        [.., last] => *last != b'\n',
        [] => before,
    }
}

// What follows the first `lines` lines of a piece; `Err` with how many are missing if it has fewer.
#[tactic(auto, using(crate::proofs::Passes::behind_none, crate::proofs::Passes::behind_more))]
fn behind(piece: &[u8], lines: u64) -> Result<&[u8], u64>
    ensures found { IfOk result (λ rest. IsBehind lines piece.now rest.now) }
    ensures missing { IfErr result
        (λ missing. (0 < missing) × (ends_in piece.now + missing ≡ lines)) }
{
    let mut rest = piece;
    for passed in 0..lines {
        match first_line(rest) {
            Some((_, next)) => rest = next,
            None => return Err(lines - passed),
        }
    }
    Ok(rest)
}
