// Lines from pieces of any size.
ghost use Rattle.std.specs.Prelude.{◌≡◌, ◌<◌, ℕ, List, [], ◌∷◌, ◌++◌, length, IfOk, IfSome};
ghost use Rattle.std.specs.Prelude.{IfNone, MatchOption, OnOk, OnErr};
ghost use Rattle.funnel.specs.Stream.{BeginsWithLine, IsUnended, Splits, StandsFor, clipped};

use crate::NoMemory;
use crate::line::LINE_MAX_OCTETS;
use memchr::memchr;
use std::alloc::Global;
use std::collections::VecDeque;
use std::marker::Model;
use std::mem;

// How many octets of a line are kept: one more than a good line may have before its LF.
const KEPT_MAX_OCTETS: usize = LINE_MAX_OCTETS + 1;

/// A cutter of a stream of octets into lines, fed in pieces of any size.
///
/// If a line has more than 8,192 octets before its LF, a CR included, only its first 8,193 are kept, so that
/// [`crate::read_line`] still reports [`crate::LineFault::TooLong`]. The same holds for the octets after the last LF.
/// Each octet is searched once for an LF and copied once.
#[derive(Debug, Drop)]
pub struct LineCutter {
    /// The whole lines, oldest first.
    lines: VecDeque<Vec<u8>>,
    /// What follows the last LF.
    rest: Vec<u8>,
}

impl Model for LineCutter {
    ghost use Rattle.std.specs.Prelude.{map};
    ghost use Rattle.std.specs.Vec.{vec_items};
    ghost use Rattle.funnel.specs.Stream.{Held};

    ghost Value = { Held };

    ghost view = { λ cutter. record { lines = map vec_items cutter.lines.items; rest = cutter.rest.items } };
}

impl LineCutter {
    /// A cutter that was fed nothing. It takes its memory from `alloc`.
    pub fn new(alloc: Global) -> Self
        ensures { StandsFor result [] [] }
    {
        LineCutter {
            lines: VecDeque::new(alloc),
            rest: Vec::new(alloc),
        }
    }

    /// Takes in more octets, and makes the lines that they complete.
    ///
    /// # Errors
    /// `NoMemory` if memory was refused: the cutter is unchanged, and none of the octets is taken in.
    pub fn feed(&mut self, piece: &[u8]) -> Result<(), NoMemory>
        ensures fed { OnOk result
            ((fed : List ℕ) (given : List (List ℕ)) → StandsFor self.old fed given
            → StandsFor self.new (fed ++ piece.now) given) }
        ensures unchanged { OnErr result (self.new ≡ self.old) }
    {
        match first_line(piece) {
            Some((end, behind)) => self.feed_lines(end, behind),
            None => extend_clipped(&mut self.rest, piece),
        }
    }

    /// Returns the next whole line without its LF, or the first 8,193 octets of a longer one; `None` if no whole line
    /// is left. Takes no memory.
    pub fn next(&mut self) -> Option<Vec<u8>>
        ensures line { IfSome result
            (λ octets. (fed : List ℕ) (given : List (List ℕ)) → StandsFor self.old fed given
            → (line : List ℕ) × (octets.items ≡ clipped line)
            × StandsFor self.new fed (given ++ line ∷ [])) }
        ensures none { IfNone result
            ((fed : List ℕ) (given : List (List ℕ)) → StandsFor self.old fed given
            → (rest : List ℕ) × Splits fed given rest) }
        ensures unchanged { IfNone result (self.new ≡ self.old) }
    {
        self.lines.pop_front()
    }

    // Takes in the end of the held line, its LF, and the octets after it. All that can be refused comes first.
    fn feed_lines(&mut self, end: &[u8], behind: &[u8]) -> Result<(), NoMemory>
        requires { IsUnended end.now }
        ensures fed { OnOk result
            ((fed : List ℕ) (given : List (List ℕ)) → StandsFor self.old fed given
            → StandsFor self.new (fed ++ (end.now ++ 10 ∷ behind.now)) given) }
        ensures unchanged { OnErr result (self.new ≡ self.old) }
    {
        let alloc = *self.rest.allocator();
        let LineCutter { mut lines, rest } = LineCutter::of(alloc, behind)?;
        self.lines.reserve(lines.len() + 1)?;
        extend_clipped(&mut self.rest, end)?;
        self.lines.push_back(mem::replace(&mut self.rest, rest))?;
        self.lines.append(&mut lines)
    }

    fn of(alloc: Global, octets: &[u8]) -> Result<Self, NoMemory>
        ensures { IfOk result (λ cutter. StandsFor cutter octets.now []) }
    {
        let mut lines = VecDeque::new(alloc);
        let mut left = octets;
        while let Some((line, behind)) = first_line(left) {
            lines.push_back(clip(alloc, line)?)?;
            left = behind;
        }
        let rest = clip(alloc, left)?;
        Ok(LineCutter { lines, rest })
    }
}

/// Octets have one list of lines and one rest. So the same octets give the same lines, whatever pieces they are fed in.
pub fn splits_once()
    ensures { (fed : List ℕ) (a b : List (List ℕ)) (r s : List ℕ) → Splits fed a r → Splits fed b s
        → (a ≡ b) × (r ≡ s) }
{}

/// The first line without its LF, and what follows the LF; `None` if there is no LF.
pub fn first_line(octets: &[u8]) -> Option<(&[u8], &[u8])>
    ensures line { MatchOption result (IsUnended octets.now)
        (λ p. BeginsWithLine octets.now p.0.now p.1.now) }
    ensures shorter { IfSome result (λ p. length p.1.now < length octets.now) }
{
    match memchr(b'\n', octets) {
        Some(end) => Some((&octets[..end], &octets[end + 1..])),
        None => None,
    }
}

fn clip(alloc: Global, line: &[u8]) -> Result<Vec<u8>, NoMemory>
    ensures { IfOk result (λ kept. kept.items ≡ clipped line.now) }
{
    Vec::from_slice(alloc, &line[..KEPT_MAX_OCTETS.min(line.len())])
}

// Appends to what is kept of a line, up to `KEPT_MAX_OCTETS` octets.
fn extend_clipped(kept: &mut Vec<u8>, octets: &[u8]) -> Result<(), NoMemory>
    ensures fed { OnOk result
        ((line : List ℕ) → kept.old.items ≡ clipped line
        → kept.new.items ≡ clipped (line ++ octets.now)) }
    ensures unchanged { OnErr result (kept.new.items ≡ kept.old.items) }
{
    let room = KEPT_MAX_OCTETS.saturating_sub(kept.len());
    kept.extend_from_slice(&octets[..room.min(octets.len())])
}
