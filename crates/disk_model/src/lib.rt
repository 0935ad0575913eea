//! Disks, as a journal sees them: what a read gives, and what a stop (a crash) at any moment may leave.
//!
//! Most of it may touch nothing but memory; `tape_file` and `directory` may touch files: each method of a `RawFile` is
//! one system call.
//! The crates above use the contract of [`Disk`] alone: content, images, moments, honesty, faults.
//! The whole model is `specs/Disk.antt`; proofs above it use `specs/MomentLaws.antt`.
#![tactic(auto)]

ghost use Rattle.std.specs.Prelude.{◌≡◌, ◌+◌, ◌≤◌, ◌↔◌, ℕ, List, length, OnOk, slice_range};
ghost use Rattle.disk_model.specs.Disk.{Event, content, Image, Writes, Cuts, Syncs, CountsFaults};

use thiserror::Error;

mod choice;
mod directory;
mod disk_event;
mod disk_file;
mod file;
mod flaky;
mod fuse;
mod memory;
mod octets;
mod raw_file;
mod spare_room;
mod tape_file;

pub use choice::Choice;
pub use directory::{DirectoryFault, TapeDirectory};
pub use disk_file::DiskFile;
pub use file::FileDisk;
pub use flaky::FlakyDisk;
pub use fuse::FuseDisk;
pub use memory::MemDisk;
pub use raw_file::{RawFault, RawFile};
pub use spare_room::SpareRoom;
/// Memory was refused.
pub use std::alloc::AllocError as NoMemory;
pub use tape_file::{FileFault, TapeFile};

/// A disk refused a call. [`Disk`] says what a write or a cut that failed may have left.
#[derive(Clone, Copy, Debug, PartialEq, Eq, Error)]
#[error("the disk failed")]
pub struct DiskFault;

/// A disk of octets. A stop may come between any two calls and within each.
///
/// The rules on its log bind an honest disk. For any other, only this is promised: it answers; it reports a length; a
/// read that succeeds fills its slice; and its count of faults rises with each fault.
pub trait Disk {
    /// Whether it keeps the disk model. No call changes it.
    ghost honest: { Self → Type 0 };

    /// What has happened to it, newest first: content, images and moments are functions of this list.
    ghost log: { Self → List Event };

    /// The length that it reports, in octets.
    ghost size: { Self → ℕ };

    /// How many faults it has reported.
    ghost faults_of: { Self → ℕ };

    /// The length in octets.
    fn len(&self) -> u64
        ensures size { result ≡ size self.now }
        ensures content { honest self.now → result ≡ length (content (log self.now)) };

    /// Fills the slice with the octets from this offset on. Changes nothing.
    fn read_at(&mut self, at: u64, into: &mut [u8]) -> Result<(), DiskFault>
        requires { at + length into.old ≤ size self.old }
        ensures honest { honest self.old ↔ honest self.new }
        ensures read { honest self.old
            → OnOk result (into.new ≡ slice_range (content (log self.old)) at
            (at + length into.old)) }
        ensures log { honest self.old → log self.new ≡ log self.old }
        ensures cause { CountsFaults (faults_of self.old) (faults_of self.new) result }
        ensures quiet { OnOk result (faults_of self.new ≡ faults_of self.old) };

    /// Writes these octets at this offset, which is at most the end. If it fails, it may have happened in part.
    fn write_at(&mut self, at: u64, from: &[u8]) -> Result<(), DiskFault>
        requires { at ≤ size self.old }
        ensures honest { honest self.old ↔ honest self.new }
        ensures log { honest self.old → Writes at from.now (log self.old) result (log self.new) }
        ensures cause { CountsFaults (faults_of self.old) (faults_of self.new) result }
        ensures quiet { OnOk result (faults_of self.new ≡ faults_of self.old) };

    /// Cuts it to this length, in octets. If it fails, it may have happened or not.
    fn cut(&mut self, len: u64) -> Result<(), DiskFault>
        requires { len ≤ size self.old }
        ensures honest { honest self.old ↔ honest self.new }
        ensures log { honest self.old → Cuts len (log self.old) result (log self.new) }
        ensures cause { CountsFaults (faults_of self.old) (faults_of self.new) result }
        ensures quiet { OnOk result (faults_of self.new ≡ faults_of self.old) };

    /// Makes the content the only image. If it fails, nothing changes.
    fn sync(&mut self) -> Result<(), DiskFault>
        ensures honest { honest self.old ↔ honest self.new }
        ensures log { honest self.old → Syncs (log self.old) result (log self.new) }
        ensures cause { CountsFaults (faults_of self.old) (faults_of self.new) result }
        ensures quiet { OnOk result (faults_of self.new ≡ faults_of self.old) };

    /// How many faults it has reported. At the greatest `u64` the count stays, and further faults do not raise it.
    fn faults(&self) -> u64
        ensures { result ≡ faults_of self.now };

    /// The content is one of the images.
    ghost content_is_image: { (disk : Self) → honest disk → Image (log disk) (content (log disk)) };
}
