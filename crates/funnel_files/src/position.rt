// The position in the segments at which a funnel is read, and whether they fit together.
ghost use Rattle.std.specs.Prelude.{◌≡◌, ◌↔◌, ◌⊎◌, ◌<◌, ◌≤◌, ◌+◌, ◌^◌, ℕ};
ghost use Rattle.std.specs.Prelude.{IfNone, IfOk, IfSome, IsErrOf, None, OnErr, OnOk, Some, false, true};

use thiserror::Error;

/// Why segments do not fit together. Each is named by the number of its first line.
#[derive(Clone, Copy, Debug, PartialEq, Eq, Error)]
pub enum Misfit {
    /// `segment` has the line with which `next` begins.
    #[error("segment {segment:020} has lines of segment {next:020}")]
    Overlap { segment: u64, next: u64 },
    /// The last line of `segment`, which is not the last one, has no LF.
    #[error("segment {segment:020}: its last line has no LF")]
    NoEnd { segment: u64 },
    /// No segment has the lines between `after` and the first one of `next`.
    #[error("lines are missing between line {after} and segment {next:020}")]
    Gap { after: u64, next: u64 },
    /// The last line of `segment` has the greatest number of all, and more come.
    #[error("segment {segment:020} has more lines than there are numbers")]
    Full { segment: u64 },
}

/// The position at which a funnel is read: the segment, and the last line that was taken.
#[derive(Clone, Copy, Debug, PartialEq, Eq)]
pub(crate) struct Position {
    segment: u64,
    last: u64,
    // The number of the next segment's first line, if there is a next one: then this one is complete.
    following: Option<u64>,
}

impl Position {
    /// A position in this segment, after the line `last`; `following` is the next segment, if there is one.
    pub fn new(segment: u64, last: u64, following: Option<u64>) -> Self
        ensures { result ≡ record { segment = segment; last = last; following = following } }
    {
        Position {
            segment,
            last,
            following,
        }
    }

    pub fn segment(&self) -> u64
        ensures { result ≡ self.now.segment }
    {
        self.segment
    }

    /// The segment that comes next once this one is complete: it is named by the number after the last line. `None`
    /// if this one has no line, or its last line has the greatest number.
    pub fn awaited(&self) -> Option<u64>
        ensures some { IfSome result (λ next. (next ≡ self.now.last + 1)
            × (self.now.segment ≤ self.now.last)) }
        ensures none { IfNone result ((self.now.last < self.now.segment)
            ⊎ (self.now.last + 1 ≡ 2 ^ 64)) }
    {
        if self.last < self.segment {
            return None;
        }
        self.last.checked_add(1)
    }

    /// The segment is complete, because there is a next one, which begins with this line.
    pub fn complete(&mut self, next: u64)
        ensures { self.new ≡ record self.old { following = Some next } }
    {
        self.following = Some(next);
    }

    /// Takes the segment's next line.
    ///
    /// # Errors
    /// `Overlap` if the next segment has this line or an earlier one; `Full` if there is no number left for it. If
    /// there is a number, the line counts as taken even then, so that the fault is found at the segment's end too.
    pub fn take_line(&mut self) -> Result<(), Misfit>
        ensures overlap { (next : ℕ) → IsErrOf result (Misfit.Overlap self.old.segment next)
            ↔ ((self.old.following ≡ Some next) × (next ≤ self.old.last + 1)) }
        ensures full { IsErrOf result (Misfit.Full self.old.segment)
            ↔ ((self.old.following ≡ None) × (self.old.last + 1 ≡ 2 ^ 64)) }
        ensures taken { self.old.last + 1 < 2 ^ 64
            → self.new ≡ record self.old { last = self.old.last + 1 } }
        ensures unchanged { self.old.last + 1 ≡ 2 ^ 64 → self.new ≡ self.old }
    {
        let segment = self.segment;
        let before = self.last;
        self.last = before.saturating_add(1);
        match self.following {
            Some(next) if next <= self.last => Err(Misfit::Overlap { segment, next }),
            None if before == u64::MAX => Err(Misfit::Full { segment }),
            _ => Ok(()),
        }
    }

    /// The segment to go on with at the end of this one, whose last line may have no LF; `None` if no next one is
    /// known.
    ///
    /// # Errors
    /// If there is a next one: `Overlap` if this one has its first line; `NoEnd` if its last line has no LF; `Gap` if
    /// lines are missing between the two.
    pub fn next_segment(&self, has_rest: bool) -> Result<Option<u64>, Misfit>
        ensures ok { IfOk result (λ next. (next ≡ self.now.following)
            × IfSome next (λ next. (next ≡ self.now.last + 1) × (has_rest ≡ false))) }
        ensures overlap { (next : ℕ) → IsErrOf result (Misfit.Overlap self.now.segment next)
            ↔ ((self.now.following ≡ Some next) × (next ≤ self.now.last)) }
        ensures no_end { IsErrOf result (Misfit.NoEnd self.now.segment)
            ↔ ((next : ℕ) × (self.now.following ≡ Some next) × (self.now.last < next)
            × (has_rest ≡ true)) }
        ensures gap { (next : ℕ) → IsErrOf result (Misfit.Gap self.now.last next)
            ↔ ((self.now.following ≡ Some next) × (self.now.last + 1 < next)
            × (has_rest ≡ false)) }
    {
        let Position { segment, last, .. } = *self;
        match self.following {
            Some(next) if next <= last => Err(Misfit::Overlap { segment, next }),
            Some(_) if has_rest => Err(Misfit::NoEnd { segment }),
            Some(next) if last < next - 1 => Err(Misfit::Gap { after: last, next }),
            following => Ok(following),
        }
    }
}
