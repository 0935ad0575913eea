// What a flush returns.
ghost use Rattle.std.specs.Prelude.{◌≡◌};

/// What a flush has put on a tape: how many notes of this opening are on it. Only `Tape::flush` makes one.
#[derive(Clone, Copy, Debug, PartialEq, Eq)]
pub struct Flushed {
    place: Option<usize>,
    count: u64,
}

impl Flushed {
    pub(crate) fn of(place: Option<usize>, count: u64) -> Self
        ensures place { result.place ≡ place }
        ensures count { result.count ≡ count }
    {
        Flushed { place, count }
    }

    /// The place of the tape, `None` unless `Tape::placed` gave it one.
    pub fn place(&self) -> Option<usize>
        ensures { result ≡ self.now.place }
    {
        self.place
    }

    /// How many notes of this opening are on the tape, or the greatest u64 if that is less.
    pub fn count(&self) -> u64
        ensures { result ≡ self.now.count }
    {
        self.count
    }
}
