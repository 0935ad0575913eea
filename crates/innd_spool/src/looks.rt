// Looks at a file in which innd writes meanwhile.
ghost use Rattle.std.specs.Prelude.{◌≡◌, ◌+◌, ◌≤◌, ℕ, List, Option, None, IfOk, OnOk};
ghost use Rattle.std.specs.Prelude.{length, slice_range, take};
ghost use Rattle.innd_spool.specs.Buffers.{Shows};

use std::io::{self, ErrorKind};
use std::os::unix::fs::FileExt;

/// A file whose octets may change between two looks.
pub(crate) trait Looks {
    /// What the file has at each moment, if that is known.
    ghost contents: { Self → Option (ℕ → List ℕ) } = { λ _. None };

    /// The moment of the next look.
    ghost moment: { Self → ℕ } = { λ _. 0 };

    /// How long a look takes: 0 if moments are not told apart.
    ghost tick: { ℕ } = { 0 };

    /// Fills `octets` with what is there now, from this octet on.
    ///
    /// # Errors
    /// The system's error, or that there are fewer octets.
    fn look(&mut self, offset: u64, octets: &mut [u8]) -> io::Result<()>
        ensures shows { OnOk result
            (Shows (contents self.old) (moment self.old) offset octets.new) }
        ensures contents { contents self.new ≡ contents self.old }
        ensures moment { OnOk result (moment self.new ≡ moment self.old + tick) };

    /// Puts what is there now, from this octet on, into the front of `octets`, and returns how many octets came: fewer
    /// than fit only if the file ends before.
    ///
    /// # Errors
    /// The system's error.
    fn look_ahead(&mut self, offset: u64, octets: &mut [u8]) -> io::Result<usize>
        ensures within { IfOk result (λ count. count ≤ length octets.new) }
        ensures front { IfOk result (λ count. (size : ℕ) → size ≤ count
            → Shows (contents self.old) (moment self.old) offset (take size octets.new)) }
        ensures parts { IfOk result (λ count. (start size : ℕ) → Shows (contents self.old)
            (moment self.old) (offset + start) (take size (slice_range octets.new start count))) }
        ensures contents { contents self.new ≡ contents self.old }
        ensures moment { OnOk result (moment self.new ≡ moment self.old + tick) };
}

impl<F: FileExt> Looks for F {
    fn look(&mut self, offset: u64, octets: &mut [u8]) -> io::Result<()> {
        self.read_exact_at(octets, offset)
    }

    fn look_ahead(&mut self, offset: u64, octets: &mut [u8]) -> io::Result<usize> {
        for _ in 0..u64::MAX {
            match self.read_at(octets, offset) {
                Err(error) if error.kind() == ErrorKind::Interrupted => {}
                looked => return looked,
            }
        }
        Err(io::Error::from(ErrorKind::TimedOut))
    }
}
