// A file as the system has it: each method is one system call.
ghost use Rattle.std.specs.Prelude.{◌≡◌, ◌+◌, ◌<◌, ◌≤◌, ◌↔◌, ◌^◌, List, ℕ, Result};
ghost use Rattle.std.specs.Prelude.{length, IfOk, OnErr, []};
ghost use Rattle.disk_model.specs.Disk.{Event, content, Image};
ghost use Rattle.disk_model.specs.RawFile.{IsRead, UnderWay, WritesOn, Truncates, Flushes};
ghost use Rattle.disk_model.specs.declared.raw_file.RawFault.{RawFault};

use std::io::{self, ErrorKind};

/// Why a system call did not do what it was asked to.
#[derive(Clone, Copy, Debug, PartialEq, Eq)]
pub enum RawFault {
    /// A signal came first, and nothing was done.
    Interrupted,
    /// It failed, in part or as a whole.
    Failed,
}

impl From<io::Error> for RawFault {
    ghost use Rattle.std.specs.IoError.{error_kind};
    ghost use Rattle.std.specs.declared.io.ErrorKind.TheVariants.{Interrupted as WasInterrupted};
    ghost use Rattle.disk_model.specs.declared.raw_file.RawFault.TheVariants.{Interrupted};

    ghost from_gives = { λ error fault. (fault ≡ Interrupted)
        ↔ (error_kind error ≡ WasInterrupted) };

    fn from(error: io::Error) -> Self {
        match error.kind() {
            ErrorKind::Interrupted => RawFault::Interrupted,
            _ => RawFault::Failed,
        }
    }
}

/// A file, through system calls that may be short or interrupted.
///
/// The rules bind an honest file, one that keeps the disk model (`docs/DISK.md`). For any other, only this is promised:
/// a count of octets is at most what was asked for.
pub trait RawFile {
    /// Whether it keeps the disk model. No call changes it.
    ghost honest: { Self → Type 0 };

    /// What has happened to it, newest first, as for a disk.
    ghost log: { Self → List Event };

    /// What a call of `pread` did to it and to the slice, and returned, if more is known of it than the rules here say.
    ghost reads: { Self → ℕ → List ℕ → ℕ → Result ℕ RawFault → List ℕ → Self
        → Type 0 } = { λ _ _ _ _ _ _ _. Unit {0} };

    /// What a call of `pwrite` did to it, and returned, in the same way.
    ghost writes: { Self → ℕ → List ℕ → ℕ → Result ℕ RawFault → Self
        → Type 0 } = { λ _ _ _ _ _ _. Unit {0} };

    /// What a call of `truncate` did to it, and returned, in the same way.
    ghost truncates: { Self → ℕ → Result (Unit {0}) RawFault → Self → Type 0 } = { λ _ _ _ _. Unit {0} };

    /// What a call of `sync` did to it, and returned, in the same way.
    ghost syncs: { Self → Result (Unit {0}) RawFault → Self → Type 0 } = { λ _ _ _. Unit {0} };

    /// Its length in octets.
    fn len(&self) -> u64
        ensures { honest self.now → result ≡ length (content (log self.now)) };

    /// Continues a read from this offset, after `done` octets: reads some of those that follow, perhaps not all, and
    /// none at the file's end (pread(2)).
    fn pread(&mut self, at: u64, into: &mut [u8], done: usize) -> Result<usize, RawFault>
        requires done { done ≤ length into.old }
        requires end { at + length into.old < 2 ^ 64 }
        ensures honest { honest self.old ↔ honest self.new }
        ensures within { IfOk result (λ n. done + n ≤ length into.new) }
        ensures read { honest self.old → IsRead (content (log self.old)) at done into.old
            → IfOk result (λ n. IsRead (content (log self.old)) at (done + n) into.new) }
        ensures reads { reads self.old at into.old done result into.new self.new }
        ensures err { honest self.old → IsRead (content (log self.old)) at done into.old
            → OnErr result (IsRead (content (log self.old)) at done into.new) }
        ensures log { honest self.old → log self.new ≡ log self.old };

    /// Continues a write of these octets at this offset, after `done` of them: writes some of those that follow,
    /// perhaps not all (pwrite(2)).
    fn pwrite(&mut self, at: u64, from: &[u8], done: usize) -> Result<usize, RawFault>
        requires done { done ≤ length from.now }
        requires end { at + length from.now < 2 ^ 64 }
        ensures honest { honest self.old ↔ honest self.new }
        ensures within { IfOk result (λ n. done + n ≤ length from.now) }
        ensures writes { writes self.old at from.now done result self.new }
        ensures log { honest self.old → (before : List Event)
            → UnderWay at from.now done before (log self.old)
            → WritesOn at from.now done before (log self.old) result (log self.new) };

    /// Cuts it to this length, in octets (ftruncate(2)).
    fn truncate(&mut self, len: u64) -> Result<(), RawFault>
        ensures honest { honest self.old ↔ honest self.new }
        ensures truncates { truncates self.old len result self.new }
        ensures log { honest self.old → Truncates len (log self.old) result (log self.new) };

    /// Makes its octets and its length durable (fdatasync(2)).
    fn sync(&mut self) -> Result<(), RawFault>
        ensures honest { honest self.old ↔ honest self.new }
        ensures syncs { syncs self.old result self.new }
        ensures log { honest self.old → Flushes (log self.old) result (log self.new) };

    /// The content is one of the images.
    ghost content_is_image: { (file : Self) → honest file → Image (log file) (content (log file)) };
}
