// A disk that fails at a single call.
ghost use Rattle.std.specs.Prelude.{◌≡◌, ◌+◌, ◌-◌, ◌≤◌, ◌↔◌, ◌^◌, length, min, true};
ghost use Rattle.std.specs.Prelude.{false, OnOk, OnErr, slice_range};
ghost use Rattle.disk_model.specs.Disk.{content, Writes, Cuts, Syncs, CountsFaults};

use crate::{Disk, DiskFault};

/// Passes calls of `read_at`, `write_at`, `cut` and `sync` on to a disk, except for one, which fails.
///
/// That call does not reach the inner disk, and is counted as a fault. `len` and `faults` do not count as calls.
#[derive(Drop)]
pub struct FlakyDisk<D: Disk> {
    disk: D,
    // How many calls are passed on before the one that fails; `None` once that has come.
    left: Option<u64>,
    faults: u64,
}

impl<D: Disk> FlakyDisk<D> {
    ghost use Rattle.disk_model.specs.Flaky.{calls_before, inner, own_faults, is_due, left_after};

    /// A disk that passes this many calls on, fails the next one, and passes on all later ones.
    pub fn new(disk: D, calls: u64) -> Self
        ensures inner { inner result ≡ disk }
        ensures calls { calls_before result ≡ Some calls }
        ensures faults { own_faults result ≡ 0 }
    {
        FlakyDisk {
            disk,
            left: Some(calls),
            faults: 0,
        }
    }

    pub fn into_inner(self) -> D
        ensures { result ≡ inner self }
    {
        let FlakyDisk { disk, .. } = self;
        disk
    }

    // Counts a call, and fails it if it is the one.
    fn count(&mut self) -> Result<(), DiskFault>
        ensures inner { inner self.new ≡ inner self.old }
        ensures left { calls_before self.new ≡ left_after (calls_before self.old) }
        ensures ok { OnOk result ((is_due (calls_before self.old) ≡ false)
            × (own_faults self.new ≡ own_faults self.old)) }
        ensures err { OnErr result ((is_due (calls_before self.old) ≡ true)
            × (own_faults self.new ≡ min (own_faults self.old + 1) (2 ^ 64 - 1))) }
    {
        match self.left {
            None => Ok(()),
            Some(0) => {
                self.left = None;
                self.faults = self.faults.saturating_add(1);
                Err(DiskFault)
            }
            Some(left) => {
                self.left = Some(left - 1);
                Ok(())
            }
        }
    }
}

/// Honest over an honest disk. Its log is the inner disk's.
impl<D: Disk> Disk for FlakyDisk<D> {
    ghost use Rattle.disk_model.specs.Flaky.{inner, all_faults, FailsOnce};

    ghost honest = { λ f. D.honest f.disk };

    ghost log = { λ f. D.log f.disk };

    ghost size = { λ f. D.size f.disk };

    ghost faults_of = { λ f. min (f.faults + D.faults_of f.disk) (2 ^ 64 - 1) };

    ghost content_is_image = { λ f is. D.content_is_image f.disk is };

    fn len(&self) -> u64 {
        self.disk.len()
    }

    fn read_at(&mut self, at: u64, into: &mut [u8]) -> Result<(), DiskFault>
        requires { at + length into.old ≤ D.size (inner self.old) }
        ensures honest { D.honest (inner self.old) ↔ D.honest (inner self.new) }
        ensures read { D.honest (inner self.old)
            → OnOk result (into.new ≡ slice_range (content (D.log (inner self.old))) at
            (at + length into.old)) }
        ensures log { D.honest (inner self.old) → D.log (inner self.new) ≡ D.log (inner self.old) }
        ensures cause { CountsFaults (all_faults D.faults_of self.old)
            (all_faults D.faults_of self.new) result }
        ensures quiet { OnOk result (all_faults D.faults_of self.new
            ≡ all_faults D.faults_of self.old) }
        ensures once { FailsOnce D.faults_of self.old self.new result }
    {
        self.count()?;
        self.disk.read_at(at, into)
    }

    fn write_at(&mut self, at: u64, from: &[u8]) -> Result<(), DiskFault>
        requires { at ≤ D.size (inner self.old) }
        ensures honest { D.honest (inner self.old) ↔ D.honest (inner self.new) }
        ensures log { D.honest (inner self.old)
            → Writes at from.now (D.log (inner self.old)) result (D.log (inner self.new)) }
        ensures cause { CountsFaults (all_faults D.faults_of self.old)
            (all_faults D.faults_of self.new) result }
        ensures quiet { OnOk result (all_faults D.faults_of self.new
            ≡ all_faults D.faults_of self.old) }
        ensures once { FailsOnce D.faults_of self.old self.new result }
    {
        self.count()?;
        self.disk.write_at(at, from)
    }

    fn cut(&mut self, len: u64) -> Result<(), DiskFault>
        requires { len ≤ D.size (inner self.old) }
        ensures honest { D.honest (inner self.old) ↔ D.honest (inner self.new) }
        ensures log { D.honest (inner self.old)
            → Cuts len (D.log (inner self.old)) result (D.log (inner self.new)) }
        ensures cause { CountsFaults (all_faults D.faults_of self.old)
            (all_faults D.faults_of self.new) result }
        ensures quiet { OnOk result (all_faults D.faults_of self.new
            ≡ all_faults D.faults_of self.old) }
        ensures once { FailsOnce D.faults_of self.old self.new result }
    {
        self.count()?;
        self.disk.cut(len)
    }

    fn sync(&mut self) -> Result<(), DiskFault>
        ensures honest { D.honest (inner self.old) ↔ D.honest (inner self.new) }
        ensures log { D.honest (inner self.old)
            → Syncs (D.log (inner self.old)) result (D.log (inner self.new)) }
        ensures cause { CountsFaults (all_faults D.faults_of self.old)
            (all_faults D.faults_of self.new) result }
        ensures quiet { OnOk result (all_faults D.faults_of self.new
            ≡ all_faults D.faults_of self.old) }
        ensures once { FailsOnce D.faults_of self.old self.new result }
    {
        self.count()?;
        self.disk.sync()
    }

    fn faults(&self) -> u64 {
        self.faults.saturating_add(self.disk.faults())
    }
}
