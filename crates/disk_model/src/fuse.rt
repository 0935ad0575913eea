// A disk that fails from some call on.
ghost use Rattle.std.specs.Prelude.{◌≡◌, ◌+◌, ◌<◌, ◌≤◌, ◌↔◌, ◌^◌, ◌-◌, length, min};
ghost use Rattle.std.specs.Prelude.{OnOk, OnErr, slice_range};
ghost use Rattle.disk_model.specs.Disk.{content, Writes, Cuts, Syncs, CountsFaults};

use crate::{Disk, DiskFault};

/// Passes a number of calls of `read_at`, `write_at`, `cut` and `sync` on to a disk, and fails all later ones.
///
/// A call that it fails does not reach the inner disk, and is counted as a fault. `len` and `faults` do not count as
/// calls.
#[derive(Drop)]
pub struct FuseDisk<D: Disk> {
    disk: D,
    left: u64,
    faults: u64,
    // It reports no fault of its own while it has calls left.
    pub ghost spent: { 0 < faults → left ≡ 0 },
}

impl<D: Disk> FuseDisk<D> {
    ghost use Rattle.disk_model.specs.Fuse.{calls_left, inner, own_faults};

    /// A fuse that passes on this many calls.
    pub fn new(disk: D, calls: u64) -> Self
        ensures inner { inner result ≡ disk }
        ensures calls { calls_left result ≡ calls }
        ensures faults { own_faults result ≡ 0 }
    {
        FuseDisk {
            disk,
            left: calls,
            faults: 0,
        }
    }

    pub fn into_inner(self) -> D
        ensures { result ≡ inner self }
    {
        let FuseDisk { disk, .. } = self;
        disk
    }

    // Uses one of the calls that are left; a fault if none is left.
    fn spend(&mut self) -> Result<(), DiskFault>
        ensures inner { inner self.new ≡ inner self.old }
        ensures ok { OnOk result
            ((calls_left self.new + 1 ≡ calls_left self.old)
            × (own_faults self.new ≡ own_faults self.old)) }
        ensures err { OnErr result
            ((calls_left self.old ≡ 0) × (calls_left self.new ≡ 0)
            × (own_faults self.new ≡ min (own_faults self.old + 1) (2 ^ 64 - 1))) }
    {
        if self.left == 0 {
            self.faults = self.faults.saturating_add(1);
            return Err(DiskFault);
        }
        self.left -= 1;
        Ok(())
    }
}

/// Honest over an honest disk. Its log is the inner disk's.
impl<D: Disk> Disk for FuseDisk<D> {
    ghost use Rattle.disk_model.specs.Fuse.{inner, all_faults, Burns};

    ghost honest = { λ f. D.honest f.disk };

    ghost log = { λ f. D.log f.disk };

    ghost size = { λ f. D.size f.disk };

    ghost faults_of = { λ f. min (f.faults + D.faults_of f.disk) (2 ^ 64 - 1) };

    ghost content_is_image = { λ f is. D.content_is_image f.disk is };

    fn len(&self) -> u64 {
        self.disk.len()
    }

    fn read_at(&mut self, at: u64, into: &mut [u8]) -> Result<(), DiskFault>
        requires { at + length into.old ≤ D.size (inner self.old) }
        ensures honest { D.honest (inner self.old) ↔ D.honest (inner self.new) }
        ensures read { D.honest (inner self.old)
            → OnOk result (into.new ≡ slice_range (content (D.log (inner self.old))) at
            (at + length into.old)) }
        ensures log { D.honest (inner self.old) → D.log (inner self.new) ≡ D.log (inner self.old) }
        ensures cause { CountsFaults (all_faults self.old) (all_faults self.new) result }
        ensures quiet { OnOk result (all_faults self.new ≡ all_faults self.old) }
        ensures fuse { Burns self.old self.new result }
    {
        self.spend()?;
        self.disk.read_at(at, into)
    }

    fn write_at(&mut self, at: u64, from: &[u8]) -> Result<(), DiskFault>
        requires { at ≤ D.size (inner self.old) }
        ensures honest { D.honest (inner self.old) ↔ D.honest (inner self.new) }
        ensures log { D.honest (inner self.old)
            → Writes at from.now (D.log (inner self.old)) result (D.log (inner self.new)) }
        ensures cause { CountsFaults (all_faults self.old) (all_faults self.new) result }
        ensures quiet { OnOk result (all_faults self.new ≡ all_faults self.old) }
        ensures fuse { Burns self.old self.new result }
    {
        self.spend()?;
        self.disk.write_at(at, from)
    }

    fn cut(&mut self, len: u64) -> Result<(), DiskFault>
        requires { len ≤ D.size (inner self.old) }
        ensures honest { D.honest (inner self.old) ↔ D.honest (inner self.new) }
        ensures log { D.honest (inner self.old)
            → Cuts len (D.log (inner self.old)) result (D.log (inner self.new)) }
        ensures cause { CountsFaults (all_faults self.old) (all_faults self.new) result }
        ensures quiet { OnOk result (all_faults self.new ≡ all_faults self.old) }
        ensures fuse { Burns self.old self.new result }
    {
        self.spend()?;
        self.disk.cut(len)
    }

    fn sync(&mut self) -> Result<(), DiskFault>
        ensures honest { D.honest (inner self.old) ↔ D.honest (inner self.new) }
        ensures log { D.honest (inner self.old)
            → Syncs (D.log (inner self.old)) result (D.log (inner self.new)) }
        ensures cause { CountsFaults (all_faults self.old) (all_faults self.new) result }
        ensures quiet { OnOk result (all_faults self.new ≡ all_faults self.old) }
        ensures fuse { Burns self.old self.new result }
    {
        self.spend()?;
        self.disk.sync()
    }

    fn faults(&self) -> u64 {
        self.faults.saturating_add(self.disk.faults())
    }
}
