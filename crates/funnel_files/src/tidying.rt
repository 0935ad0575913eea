// When segments may have become removable.
ghost use Rattle.std.specs.Prelude.{◌≡◌, ◌↔◌, ◌≤◌, ◌+◌, IfNone, IfSome, IsTrue, Some};
ghost use Rattle.funnel_files.specs.Due.{IsDue};

/// When segments may have become removable: once all lines before a segment's first are acknowledged.
#[derive(Clone, Copy, Debug, PartialEq, Eq)]
pub(crate) struct Tidying {
    // The number of that segment's first line; `None` if there is no such segment yet.
    due: Option<u64>,
}

impl Tidying {
    /// Segments may be removable at once.
    pub fn new() -> Self
        ensures { result.due ≡ Some 1 }
    {
        Tidying { due: Some(1) }
    }

    /// Whether segments may have become removable now that all lines up to this mark are acknowledged.
    pub fn is_due(&self, mark: u64) -> bool
        ensures { IsTrue result ↔ IsDue self.now.due mark }
    {
        match self.due {
            Some(first) => first.saturating_sub(1) <= mark,
            None => false,
        }
    }

    /// The removable segments were removed. `after` is the segment that follows the last one that stays, if any.
    pub fn remove(&mut self, after: Option<u64>)
        ensures { self.new.due ≡ after }
    {
        self.due = after;
    }

    /// There is a segment that begins with this line.
    pub fn come(&mut self, first: u64)
        ensures first { IfNone self.old.due (self.new.due ≡ Some first) }
        ensures later { IfSome self.old.due (λ due. self.new.due ≡ Some due) }
    {
        self.due = self.due.or(Some(first));
    }
}
