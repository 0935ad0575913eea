// A writer of lines, each of which reports a fault or is information.
ghost use Rattle.std.specs.Prelude.{◌≡◌};

use std::io::Write;

/// A writer of lines, each of which reports a fault or is information. Until it is told otherwise, all report faults.
pub trait LeveledWrite: Write {
    /// The next `count` lines report faults, and those after them are information.
    fn expect_faults(&mut self, count: usize)
        ensures { Self.contents self.new ≡ Self.contents self.old };
}

/// Octets in memory, in which nothing distinguishes the lines.
impl LeveledWrite for Vec<u8> {
    fn expect_faults(&mut self, _count: usize) {}
}
