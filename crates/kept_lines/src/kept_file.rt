// A file of lines to which lines are added.
ghost use Rattle.std.specs.Prelude.{◌≡◌, ◌↔◌, ◌++◌, [], length, IfOk, IsErr, OnOk};
ghost use Rattle.std.specs.Prelude.{true, false};
ghost use Rattle.disk_model.specs.Disk.{CountsFaults, IsOnly, Leaves, content};
ghost use Rattle.kept_lines.specs.Kept.{BeginsWith, ends_open, ended};

use disk_model::{Disk, DiskFault};

const LF: u8 = b'\n';

/// A file of lines, each of which ends with LF. Lines are added at its end, and are durable then.
#[derive(Drop)]
pub struct KeptFile<D: Disk> {
    disk: D,
    // A call of the disk failed, so nothing is added any more.
    is_lost: bool,
    ghost only: { is_lost ≡ false → D.honest disk → IsOnly (D.log disk) (content (D.log disk)) },
}

impl<D: Disk + Drop> KeptFile<D> {
    /// The file on this disk. If its last line has no LF, since a stop cut it short, it gets one, so that it stays a
    /// line of its own.
    ///
    /// # Errors
    /// The disk's.
    pub fn open(disk: D) -> Result<Self, DiskFault>
        ensures works { IfOk result (λ file. file.is_lost ≡ false) }
        ensures honest { IfOk result (λ file. D.honest disk → D.honest file.disk) }
        ensures ok { IfOk result (λ file. D.honest disk
            → content (D.log file.disk) ≡ ended (content (D.log disk))) }
    {
        let mut disk = disk;
        if ends_open(&mut disk)? {
            let end = disk.len();
            disk.write_at(end, &[LF])?;
        }
        disk.sync()?;
        Ok(KeptFile {
            disk,
            is_lost: false,
        })
    }

    /// Its length in octets.
    pub fn len(&self) -> u64
        ensures { D.honest self.now.disk → result ≡ length (content (D.log self.now.disk)) }
    {
        self.disk.len()
    }

    /// Whether a call of the disk has failed, so that nothing is added any more.
    pub fn is_lost(&self) -> bool
        ensures { result ≡ self.now.is_lost }
    {
        self.is_lost
    }

    /// Adds these lines at its end, and makes them durable. No lines need no call of the disk.
    ///
    /// # Errors
    /// The disk's; then nothing is added any more.
    pub fn add(&mut self, lines: &[u8]) -> Result<(), DiskFault>
        ensures honest { D.honest self.old.disk ↔ D.honest self.new.disk }
        ensures ok { D.honest self.old.disk → self.old.is_lost ≡ false
            → OnOk result
            (IsOnly (D.log self.new.disk) (content (D.log self.old.disk) ++ lines.now)) }
        ensures moments { D.honest self.old.disk → self.old.is_lost ≡ false
            → Leaves (BeginsWith (content (D.log self.old.disk))) (D.log self.old.disk)
            (D.log self.new.disk) }
        ensures lost { self.old.is_lost ≡ true → (lines.now ≡ [] → ⊥)
            → IsErr result × (self.new ≡ self.old) }
        ensures works { OnOk result (self.new.is_lost ≡ self.old.is_lost) }
    {
        if lines.is_empty() {
            return Ok(());
        }
        if self.is_lost {
            return Err(DiskFault);
        }
        self.is_lost = true;
        add_synced(&mut self.disk, lines)?;
        self.is_lost = false;
        Ok(())
    }
}

// Whether a disk has octets and the last one is no LF.
fn ends_open<D: Disk>(disk: &mut D) -> Result<bool, DiskFault>
    ensures honest { D.honest disk.old ↔ D.honest disk.new }
    ensures log { D.honest disk.old → D.log disk.new ≡ D.log disk.old }
    ensures ok { D.honest disk.old
        → IfOk result (λ found. found ≡ ends_open (content (D.log disk.old))) }
{
    let len = disk.len();
    if len == 0 {
        return Ok(false);
    }
    let mut last = [LF];
    disk.read_at(len - 1, &mut last)?;
    Ok(last[0] != LF)
}

// Writes these octets at the end of a disk, and syncs them.
fn add_synced<D: Disk>(disk: &mut D, octets: &[u8]) -> Result<(), DiskFault>
    ensures honest { D.honest disk.old ↔ D.honest disk.new }
    ensures ok { D.honest disk.old → IsOnly (D.log disk.old) (content (D.log disk.old))
        → OnOk result (IsOnly (D.log disk.new) (content (D.log disk.old) ++ octets.now)) }
    ensures moments { D.honest disk.old → IsOnly (D.log disk.old) (content (D.log disk.old))
        → Leaves (BeginsWith (content (D.log disk.old))) (D.log disk.old) (D.log disk.new) }
    ensures cause { CountsFaults (D.faults_of disk.old) (D.faults_of disk.new) result }
{
    let end = disk.len();
    disk.write_at(end, octets)?;
    disk.sync()
}
