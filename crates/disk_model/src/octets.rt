// Writes to octets in place. Each costs the length of what is written, never that of what it is written to.
ghost use Rattle.std.specs.Prelude.{◌≡◌, length, OnOk, OnErr};
ghost use Rattle.disk_model.specs.Disk.{overwritten};
ghost use Rattle.disk_model.specs.Choice.{padded_write};

use crate::NoMemory;

// Writes these octets at this offset, or at the end if that comes first. Growing comes first, so a refused growth
// changes nothing.
pub(crate) fn overwrite(octets: &mut Vec<u8>, at: usize, from: &[u8]) -> Result<(), NoMemory>
    ensures ok { OnOk result (octets.new.items ≡ overwritten octets.old.items at from.now) }
    ensures unchanged { OnErr result (octets.new.items ≡ octets.old.items) }
{
    let at = at.min(octets.len());
    let (within, behind) = from.split_at(from.len().min(octets.len() - at));
    octets.extend_from_slice(behind)?;
    octets[at..at + within.len()].copy_from_slice(within);
    Ok(())
}

pub(crate) fn write_behind_zeros(
    octets: &mut Vec<u8>,
    at: usize,
    from: &[u8],
) -> Result<(), NoMemory>
    ensures { OnOk result (octets.new.items ≡ padded_write octets.old.items at from.now) }
{
    if octets.len() < at {
        octets.resize(at, 0)?;
    }
    overwrite(octets, at, from)
}
