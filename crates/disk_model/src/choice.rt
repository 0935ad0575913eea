// Which image of a disk in memory a stop leaves.
ghost use Rattle.std.specs.Prelude.{◌≡◌};

/// Which operations since the last sync happened, and what fills the range of a write that did not.
///
/// Each write and each cut since the last successful sync, or since the beginning, is an operation. Operations are
/// numbered from 0, oldest first.
#[derive(Clone, Copy, Debug, PartialEq, Eq)]
pub struct Choice {
    /// Bit k, counted from the lowest, is set if operation k happened. Bit 63 stands for all operations from 63 on.
    pub happened: u64,
    /// The octet that fills the range of a write that did not happen. If it is 0, such a write leaves all as it was.
    pub fill: u8,
}

impl Choice {
    ghost use Rattle.disk_model.specs.Choice.{happens};

    pub(crate) fn happens(self, number: usize) -> bool
        ensures { result ≡ happens self number }
    {
        self.happened >> number.min(63) & 1 == 1
    }
}
