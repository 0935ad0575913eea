// A file as a disk.
ghost use Rattle.std.specs.Prelude.{◌≡◌, ◌+◌, ◌-◌, ◌<◌, ◌≤◌, ◌↔◌, ◌^◌, ℕ, List};
ghost use Rattle.std.specs.Prelude.{length, min, take, OnOk, OnErr, slice_range};
ghost use Rattle.disk_model.specs.Asks.{ReadsIn, WritesOut, Tries, most_tries};
ghost use Rattle.disk_model.specs.Disk.{content, Writes, Cuts, Syncs, CountsFaults, HasRisen};

use crate::raw_file::{RawFault, RawFile};
use crate::{Disk, DiskFault};

// How many calls of one transfer may be interrupted.
const INTERRUPTIONS_MAX: u64 = 1_000;

/// A file as a disk. It is honest over an honest file.
///
/// Once a sync has failed, every later one fails: the system may have forgotten what it could not write, and a later
/// sync would not report it (fsync(2), NOTES). What the file has then is known only to whoever opens it again.
#[derive(Drop)]
pub struct FileDisk<F: RawFile> {
    file: F,
    len: u64,
    faults: u64,
    lost: bool,
    // The length is asked for once, and again after a call that failed in part.
    pub ghost len_is: { F.honest file → len ≡ length (content (F.log file)) },
}

impl<F: RawFile> FileDisk<F> {
    ghost use Rattle.disk_model.specs.File.{file_of, faults_of, has_lost};
    ghost use Rattle.std.specs.Prelude.{false};

    /// This file as a disk.
    pub fn new(file: F) -> Self
        ensures file { file_of result ≡ file }
        ensures faults { faults_of result ≡ 0 }
        ensures lost { has_lost result ≡ false }
    {
        let len = file.len();
        FileDisk {
            file,
            len,
            faults: 0,
            lost: false,
        }
    }

    pub fn into_inner(self) -> F
        ensures { result ≡ file_of self }
    {
        let FileDisk { file, .. } = self;
        file
    }

    fn fault(&mut self) -> DiskFault
        ensures counts { HasRisen self.old.faults self.new.faults }
        ensures later { self.old.faults ≤ self.new.faults }
        ensures file { self.new.file ≡ self.old.file }
        ensures lost { self.new.lost ≡ self.old.lost }
        ensures len { self.new.len ≡ self.old.len }
    {
        self.faults = self.faults.saturating_add(1);
        DiskFault
    }
}

#[tactic(auto, using(crate::specs::Asks::Begins))]
fn read_whole<F: RawFile>(file: &mut F, at: u64, into: &mut [u8]) -> Result<(), DiskFault>
    requires { at + length into.old < 2 ^ 64 }
    ensures honest { F.honest file.old ↔ F.honest file.new }
    ensures read { F.honest file.old
        → OnOk result (into.new ≡ slice_range (content (F.log file.old)) at
        (at + length into.old)) }
    ensures log { F.honest file.old → F.log file.new ≡ F.log file.old }
    ensures asks { ReadsIn
        (λ (old : F × List ℕ) done told new. F.reads old.0 at old.1 done told new.1 new.0)
        (length into.old) (file.old, into.old) result (file.new, into.new) }
{
    let turns = (into.len() as u64).saturating_add(INTERRUPTIONS_MAX);
    let mut done = 0;
    for _call in 0..turns {
        if done == into.len() {
            return Ok(());
        }
        match file.pread(at, into, done) {
            // The file ends here.
            Ok(0) => return Err(DiskFault),
            Ok(count) => done += count,
            Err(RawFault::Failed) => return Err(DiskFault),
            Err(RawFault::Interrupted) => {}
        }
    }
    Err(DiskFault)
}

#[tactic(auto, using(crate::specs::Asks::Begins))]
fn write_whole<F: RawFile>(file: &mut F, at: u64, from: &[u8]) -> Result<(), DiskFault>
    requires { at + length from.now < 2 ^ 64 }
    ensures honest { F.honest file.old ↔ F.honest file.new }
    ensures log { F.honest file.old → Writes at from.now (F.log file.old) result (F.log file.new) }
    ensures asks { WritesOut (λ old done told new. F.writes old at from.now done told new)
        (length from.now) file.old result file.new }
{
    let turns = (from.len() as u64).saturating_add(INTERRUPTIONS_MAX);
    let mut done = 0;
    for _call in 0..turns {
        match file.pwrite(at, from, done) {
            Ok(count) if done + count == from.len() => return Ok(()),
            // The file takes no more.
            Ok(0) => return Err(DiskFault),
            Ok(count) => done += count,
            Err(RawFault::Failed) => return Err(DiskFault),
            Err(RawFault::Interrupted) => {}
        }
    }
    Err(DiskFault)
}

// Cuts the file, and tries again if that was interrupted.
fn cut_once<F: RawFile>(file: &mut F, len: u64) -> Result<(), DiskFault>
    ensures honest { F.honest file.old ↔ F.honest file.new }
    ensures log { F.honest file.old → Cuts len (F.log file.old) result (F.log file.new) }
    ensures asks { Tries (λ old told new. F.truncates old len told new) most_tries
        file.old result file.new }
{
    for _try in 0..INTERRUPTIONS_MAX {
        match file.truncate(len) {
            Ok(()) => return Ok(()),
            Err(RawFault::Failed) => return Err(DiskFault),
            Err(RawFault::Interrupted) => {}
        }
    }
    Err(DiskFault)
}

// Syncs the file, and tries again if that was interrupted.
fn sync_once<F: RawFile>(file: &mut F) -> Result<(), DiskFault>
    ensures honest { F.honest file.old ↔ F.honest file.new }
    ensures log { F.honest file.old → Syncs (F.log file.old) result (F.log file.new) }
    ensures asks { Tries F.syncs most_tries file.old result file.new }
{
    for _try in 0..INTERRUPTIONS_MAX {
        match file.sync() {
            Ok(()) => return Ok(()),
            Err(RawFault::Failed) => return Err(DiskFault),
            Err(RawFault::Interrupted) => {}
        }
    }
    Err(DiskFault)
}

/// Honest over an honest file. Its log is the file's.
impl<F: RawFile> Disk for FileDisk<F> {
    ghost use Rattle.disk_model.specs.File.{file_of, length_kept, faults_of, has_lost, LosesOnce};
    ghost use Rattle.std.specs.Prelude.{false};

    ghost honest = { λ d. F.honest d.file };

    ghost log = { λ d. F.log d.file };

    ghost size = { λ d. d.len };

    ghost faults_of = { λ d. d.faults };

    ghost content_is_image = { λ d is. F.content_is_image d.file is };

    fn len(&self) -> u64 {
        self.len
    }

    fn read_at(&mut self, at: u64, into: &mut [u8]) -> Result<(), DiskFault>
        requires { at + length into.old ≤ length_kept self.old }
        ensures honest { F.honest (file_of self.old) ↔ F.honest (file_of self.new) }
        ensures read { F.honest (file_of self.old) → OnOk result
            (into.new ≡ slice_range (content (F.log (file_of self.old))) at
            (at + length into.old)) }
        ensures log { F.honest (file_of self.old)
            → F.log (file_of self.new) ≡ F.log (file_of self.old) }
        ensures asks { ReadsIn
            (λ (old : F × List ℕ) done told new. F.reads old.0 at old.1 done told new.1 new.0)
            (length into.old) (file_of self.old, into.old) result (file_of self.new, into.new) }
        ensures cause { CountsFaults (faults_of self.old) (faults_of self.new) result }
        ensures quiet { OnOk result (faults_of self.new ≡ faults_of self.old) }
        ensures lost { has_lost self.new ≡ has_lost self.old }
    {
        // proof: it is a u64.
        let _len = self.len;
        match read_whole(&mut self.file, at, into) {
            Ok(()) => Ok(()),
            Err(DiskFault) => Err(self.fault()),
        }
    }

    fn write_at(&mut self, at: u64, from: &[u8]) -> Result<(), DiskFault>
        requires { at ≤ length_kept self.old }
        ensures honest { F.honest (file_of self.old) ↔ F.honest (file_of self.new) }
        ensures log { F.honest (file_of self.old)
            → Writes at from.now (F.log (file_of self.old)) result (F.log (file_of self.new)) }
        ensures asks { at + length from.now < 2 ^ 64
            → WritesOut (λ old done told new. F.writes old at from.now done told new)
            (length from.now) (file_of self.old) result (file_of self.new) }
        ensures cause { CountsFaults (faults_of self.old) (faults_of self.new) result }
        ensures quiet { OnOk result (faults_of self.new ≡ faults_of self.old) }
        ensures lost { has_lost self.new ≡ has_lost self.old }
    {
        let Some(end) = at.checked_add(from.len() as u64) else {
            return Err(self.fault());
        };
        match write_whole(&mut self.file, at, from) {
            Ok(()) => {
                self.len = self.len.max(end);
                Ok(())
            }
            Err(DiskFault) => {
                self.len = self.file.len(); // Some of it may be there.
                Err(self.fault())
            }
        }
    }

    fn cut(&mut self, len: u64) -> Result<(), DiskFault>
        requires { len ≤ length_kept self.old }
        ensures honest { F.honest (file_of self.old) ↔ F.honest (file_of self.new) }
        ensures log { F.honest (file_of self.old)
            → Cuts len (F.log (file_of self.old)) result (F.log (file_of self.new)) }
        ensures asks { Tries (λ old told new. F.truncates old len told new) most_tries
            (file_of self.old) result (file_of self.new) }
        ensures cause { CountsFaults (faults_of self.old) (faults_of self.new) result }
        ensures quiet { OnOk result (faults_of self.new ≡ faults_of self.old) }
        ensures lost { has_lost self.new ≡ has_lost self.old }
    {
        match cut_once(&mut self.file, len) {
            Ok(()) => {
                self.len = len;
                Ok(())
            }
            Err(DiskFault) => {
                self.len = self.file.len(); // It may have happened.
                Err(self.fault())
            }
        }
    }

    fn sync(&mut self) -> Result<(), DiskFault>
        ensures honest { F.honest (file_of self.old) ↔ F.honest (file_of self.new) }
        ensures log { F.honest (file_of self.old)
            → Syncs (F.log (file_of self.old)) result (F.log (file_of self.new)) }
        ensures asks { has_lost self.old ≡ false
            → Tries F.syncs most_tries (file_of self.old) result (file_of self.new) }
        ensures cause { CountsFaults (faults_of self.old) (faults_of self.new) result }
        ensures quiet { OnOk result (faults_of self.new ≡ faults_of self.old) }
        ensures lost { LosesOnce self.old self.new result }
    {
        if self.lost {
            return Err(self.fault());
        }
        match sync_once(&mut self.file) {
            Ok(()) => Ok(()),
            Err(DiskFault) => {
                self.lost = true;
                Err(self.fault())
            }
        }
    }

    fn faults(&self) -> u64 {
        self.faults
    }
}
