// Reading a segment, from its beginning to its end.
ghost use Rattle.std.specs.Prelude.{◌≡◌, ◌+◌, ◌-◌, ◌^◌, ◌<◌, ◌≤◌, ◌↔◌, ℕ, List};
ghost use Rattle.std.specs.Prelude.{length, min, take, drop, IfOk, IfErr, OnOk, IsErrOf, MatchOption, IfSome};
ghost use Rattle.std.specs.Prelude.{map, vec_items};
ghost use Rattle.std.specs.Int.{to_be_bytes, from_be_bytes, w32};
ghost use Rattle.disk_model.specs.Disk.{HasRisen, content};
ghost use Rattle.tape_journal.specs.Head.{IsHead, FitsHead};
ghost use Rattle.tape_journal.specs.Segment.{Ends, IsRecord, IsCutShort, IsDamagedAt, HasPayloads};
ghost use Rattle.tape_journal.specs.Part.{IsPart};
ghost use Rattle.tape_journal.specs.Window.{Shows, room_of};

use crate::window::{Window, fill};
use crate::{OpenFault, PeekFault};
use disk_model::Disk;
use std::alloc::Global;

pub(crate) const OPEN: u8 = 0xa5;

/// The longest payload, in octets.
pub const PAYLOAD_MAX_OCTETS: u32 = 16777216;

// The number of octets that a record has before its payload: the gate and the payload's length.
pub(crate) const RECORD_HEAD_OCTETS: u64 = 5;

// What stands at an offset at which a record or the end of a segment is to stand.
#[derive(Clone, Copy)]
pub(crate) enum Head {
    End,
    CutShort,
    // A record. Its payload has that many octets.
    Record(u32),
}

// `count` octets from an offset on.
fn octets_at<D: Disk>(
    alloc: Global,
    window: &mut Window,
    disk: &mut D,
    at: u64,
    count: usize,
) -> Result<Vec<u8>, OpenFault>
    requires { D.honest disk.old → Shows window.old (content (D.log disk.old)) }
    ensures shows { D.honest disk.old → Shows window.new (content (D.log disk.old)) }
    ensures honest { D.honest disk.old ↔ D.honest disk.new }
    ensures log { D.honest disk.old → D.log disk.new ≡ D.log disk.old }
    ensures octets { D.honest disk.old
        → IfOk result (λ v. v.items ≡ take count (drop at (content (D.log disk.old)))) }
    ensures length { IfOk result (λ v. length v.items ≡ count) }
    ensures later { D.faults_of disk.old ≤ D.faults_of disk.new }
    ensures damaged { (e : ℕ) → IsErrOf result (OpenFault.Damaged e) → ⊥ }
    ensures cause { D.honest disk.old → at + count ≤ length (content (D.log disk.old))
        → IsErrOf result OpenFault.Disk → HasRisen (D.faults_of disk.old) (D.faults_of disk.new) }
    ensures quiet { OnOk result (D.faults_of disk.new ≡ D.faults_of disk.old) }
{
    if window.has_room(count) {
        let from = window.hold(disk, at, count)?;
        let octets = Vec::from_slice(alloc, window.lend(from, count))?;
        return Ok(octets);
    }
    let mut octets = vec![in alloc; 0u8; count]?;
    fill(disk, at, &mut octets)?;
    Ok(octets)
}

// The number that four octets spell, the greatest first.
fn number_of(octets: &[u8]) -> u32
    requires { length octets.now ≡ 4 }
    ensures value { result ≡ from_be_bytes w32 octets.now }
    ensures octets { to_be_bytes w32 result ≡ octets.now }
{
    u32::from_be_bytes([octets[0], octets[1], octets[2], octets[3]])
}

// What stands at the beginning of a segment that has `left` octets. These are its first five, or all of them.
fn head_of(octets: &[u8], left: u64) -> Head
    requires some { 0 < left }
    requires first { length octets.now ≡ min left 5 }
    ensures is { (rest : List ℕ) → length rest ≡ left → octets.now ≡ take 5 rest
        → IsHead result rest }
    ensures fits { FitsHead result left }
{
    if octets[0] != OPEN || left == 1 {
        return Head::End;
    }
    if left < RECORD_HEAD_OCTETS {
        return Head::CutShort;
    }
    let size = number_of(&octets[1..]);
    if size > PAYLOAD_MAX_OCTETS || u64::from(size) > left - RECORD_HEAD_OCTETS {
        return Head::CutShort;
    }
    Head::Record(size)
}

// What stands at an offset before the disk's end.
pub(crate) fn head_at<D: Disk>(
    window: &mut Window,
    disk: &mut D,
    at: u64,
    len: u64,
) -> Result<Head, OpenFault>
    requires inside { at < len }
    requires shows { D.honest disk.old → Shows window.old (content (D.log disk.old)) }
    ensures shows { D.honest disk.old → Shows window.new (content (D.log disk.old)) }
    ensures honest { D.honest disk.old ↔ D.honest disk.new }
    ensures log { D.honest disk.old → D.log disk.new ≡ D.log disk.old }
    ensures is { D.honest disk.old → len ≡ length (content (D.log disk.old))
        → IfOk result (λ head. IsHead head (drop at (content (D.log disk.old)))) }
    ensures fits { IfOk result (λ head. FitsHead head (len - at)) }
    ensures kinds { IfErr result (λ e. e ≡ OpenFault.Disk) }
    ensures room { room_of window.new ≡ room_of window.old }
    ensures later { D.faults_of disk.old ≤ D.faults_of disk.new }
    ensures cause { D.honest disk.old → len ≡ length (content (D.log disk.old))
        → IsErrOf result OpenFault.Disk → HasRisen (D.faults_of disk.old) (D.faults_of disk.new) }
    ensures quiet { OnOk result (D.faults_of disk.new ≡ D.faults_of disk.old) }
{
    let left = len - at;
    let count = left.min(RECORD_HEAD_OCTETS) as usize;
    if window.has_room(count) {
        let from = window.hold(disk, at, count)?;
        return Ok(head_of(window.lend(from, count), left));
    }
    let mut octets = [0u8; 5];
    let first = &mut octets[..count];
    fill(disk, at, first)?;
    Ok(head_of(first, left))
}

// The same, if `wanted` octets from there on are read next: a window with room for them takes them up at once. So a
// part of a record that lies past the window does not move the window past the record's head. The head of a record that
// the window has no room for is read through another window, and kept there, while this one goes on in the record.
fn head_before<D: Disk>(
    window: &mut Window,
    heads: &mut Window,
    disk: &mut D,
    at: u64,
    len: u64,
    wanted: u64,
) -> Result<Head, OpenFault>
    requires inside { at < len }
    requires shows { D.honest disk.old → Shows window.old (content (D.log disk.old)) }
    requires shows_head { D.honest disk.old → Shows heads.old (content (D.log disk.old)) }
    ensures shows { D.honest disk.old → Shows window.new (content (D.log disk.old)) }
    ensures shows_head { D.honest disk.old → Shows heads.new (content (D.log disk.old)) }
    ensures honest { D.honest disk.old ↔ D.honest disk.new }
    ensures log { D.honest disk.old → D.log disk.new ≡ D.log disk.old }
    ensures is { D.honest disk.old → len ≡ length (content (D.log disk.old))
        → IfOk result (λ head. IsHead head (drop at (content (D.log disk.old)))) }
    ensures fits { IfOk result (λ head. FitsHead head (len - at)) }
    ensures kinds { IfErr result (λ e. e ≡ OpenFault.Disk) }
    ensures room { room_of window.new ≡ room_of window.old }
    ensures later { D.faults_of disk.old ≤ D.faults_of disk.new }
    ensures cause { D.honest disk.old → len ≡ length (content (D.log disk.old))
        → IsErrOf result OpenFault.Disk → HasRisen (D.faults_of disk.old) (D.faults_of disk.new) }
    ensures quiet { OnOk result (D.faults_of disk.new ≡ D.faults_of disk.old) }
{
    let left = len - at;
    window.reach(disk, at, wanted.min(left))?;
    if window.has(at, left.min(RECORD_HEAD_OCTETS) as usize) {
        head_at(window, disk, at, len)
    } else {
        head_at(heads, disk, at, len)
    }
}

// The record at an offset before the disk's end, or None if the segment ends there.
pub(crate) fn record_at<D: Disk>(
    alloc: Global,
    window: &mut Window,
    disk: &mut D,
    at: u64,
    len: u64,
) -> Result<Option<Vec<u8>>, OpenFault>
    requires inside { at < len }
    requires shows { D.honest disk.old → Shows window.old (content (D.log disk.old)) }
    ensures shows { D.honest disk.old → Shows window.new (content (D.log disk.old)) }
    ensures honest { D.honest disk.old ↔ D.honest disk.new }
    ensures log { D.honest disk.old → D.log disk.new ≡ D.log disk.old }
    ensures within { IfOk result (λ o. IfSome o (λ p. at + 5 + length p.items ≤ len)) }
    ensures reads { D.honest disk.old → len ≡ length (content (D.log disk.old))
        → IfOk result (λ o. MatchOption o (Ends (drop at (content (D.log disk.old))))
        (λ p. IsRecord p.items (drop at (content (D.log disk.old))))) }
    ensures damaged { D.honest disk.old → len ≡ length (content (D.log disk.old)) → (e : ℕ)
        → IsErrOf result (OpenFault.Damaged e)
        → (e ≡ at) × IsCutShort (drop at (content (D.log disk.old))) }
    ensures later { D.faults_of disk.old ≤ D.faults_of disk.new }
    ensures cause { D.honest disk.old → len ≡ length (content (D.log disk.old))
        → IsErrOf result OpenFault.Disk → HasRisen (D.faults_of disk.old) (D.faults_of disk.new) }
    ensures quiet { OnOk result (D.faults_of disk.new ≡ D.faults_of disk.old) }
{
    match head_at(window, disk, at, len)? {
        Head::End => Ok(None),
        Head::CutShort => Err(OpenFault::Damaged { at }),
        Head::Record(size) => {
            let payload = octets_at(alloc, window, disk, at + RECORD_HEAD_OCTETS, size as usize)?;
            Ok(Some(payload))
        }
    }
}

// The octets from `from` on, `most` of them at most, of the payload of the record at an offset before the disk's
// end, or None if the segment ends there.
pub(crate) fn part_of<D: Disk>(
    alloc: Global,
    window: &mut Window,
    heads: &mut Window,
    disk: &mut D,
    at: u64,
    len: u64,
    from: u32,
    most: u32,
) -> Result<Option<Vec<u8>>, OpenFault>
    requires inside { at < len }
    requires shows { D.honest disk.old → Shows window.old (content (D.log disk.old)) }
    requires shows_head { D.honest disk.old → Shows heads.old (content (D.log disk.old)) }
    ensures shows { D.honest disk.old → Shows window.new (content (D.log disk.old)) }
    ensures shows_head { D.honest disk.old → Shows heads.new (content (D.log disk.old)) }
    ensures honest { D.honest disk.old ↔ D.honest disk.new }
    ensures log { D.honest disk.old → D.log disk.new ≡ D.log disk.old }
    ensures reads { D.honest disk.old → len ≡ length (content (D.log disk.old))
        → IfOk result (λ o. MatchOption o (Ends (drop at (content (D.log disk.old))))
        (λ part. IsPart part.items from most (drop at (content (D.log disk.old))))) }
    ensures damaged { D.honest disk.old → len ≡ length (content (D.log disk.old)) → (e : ℕ)
        → IsErrOf result (OpenFault.Damaged e)
        → (e ≡ at) × IsCutShort (drop at (content (D.log disk.old))) }
    ensures later { D.faults_of disk.old ≤ D.faults_of disk.new }
    ensures cause { D.honest disk.old → len ≡ length (content (D.log disk.old))
        → IsErrOf result OpenFault.Disk → HasRisen (D.faults_of disk.old) (D.faults_of disk.new) }
    ensures quiet { OnOk result (D.faults_of disk.new ≡ D.faults_of disk.old) }
{
    let wanted = RECORD_HEAD_OCTETS + u64::from(from) + u64::from(most);
    let size = match head_before(window, heads, disk, at, len, wanted)? {
        Head::Record(size) => size,
        Head::End => return Ok(None),
        Head::CutShort => return Err(OpenFault::Damaged { at }),
    };
    let start = from.min(size);
    let count = most.min(size - start);
    let behind = at + RECORD_HEAD_OCTETS + u64::from(start);
    let part = octets_at(alloc, window, disk, behind, count as usize)?;
    Ok(Some(part))
}

// The payloads, in their order, and where the segment ends.
pub(crate) fn payloads_of<D: Disk>(
    alloc: Global,
    disk: &mut D,
) -> Result<(Vec<Vec<u8>>, u64), OpenFault>
    ensures honest { D.honest disk.old ↔ D.honest disk.new }
    ensures log { D.honest disk.old → D.log disk.new ≡ D.log disk.old }
    ensures reads { D.honest disk.old
        → IfOk result (λ r. HasPayloads (content (D.log disk.old)) (map vec_items r.0.items) r.1) }
    ensures end { IfOk result (λ r. r.1 < 2 ^ 64 - 1) }
    ensures damaged { D.honest disk.old → (e : ℕ) → IsErrOf result (OpenFault.Damaged e)
        → IsDamagedAt (content (D.log disk.old)) e }
    ensures later { D.faults_of disk.old ≤ D.faults_of disk.new }
    ensures cause { D.honest disk.old → IsErrOf result OpenFault.Disk
        → HasRisen (D.faults_of disk.old) (D.faults_of disk.new) }
    ensures quiet { OnOk result (D.faults_of disk.new ≡ D.faults_of disk.old) }
{
    let len = disk.len();
    let mut payloads = Vec::new(alloc);
    if len == 0 {
        return Ok((payloads, 0));
    }
    let mut window = Window::onto(alloc, len)?;
    let mut end = 0;
    while end < len {
        match record_at(alloc, &mut window, disk, end, len)? {
            None => return Ok((payloads, end)),
            Some(payload) => {
                end += RECORD_HEAD_OCTETS + payload.len() as u64;
                payloads.push(payload)?;
            }
        }
    }
    Err(OpenFault::Damaged { at: end })
}

/// The payload of the first record, without a look at what follows it; `None` if the segment has no
/// record.
///
/// # Errors
/// `Damaged` at 0 if an open record is cut short there; `Disk`; `NoMemory`. The disk is as it was.
pub fn peek_first<D: Disk>(alloc: Global, disk: &mut D) -> Result<Option<Vec<u8>>, PeekFault>
    ensures ok { D.honest disk.old → IfOk result (λ o. MatchOption o
        (Ends (content (D.log disk.old))) (λ p. IsRecord p.items (content (D.log disk.old)))) }
    ensures log { D.honest disk.old → D.log disk.new ≡ D.log disk.old }
    ensures damaged { D.honest disk.old → (at : ℕ) → IsErrOf result (OpenFault.Damaged at)
        → (at ≡ 0) × IsCutShort (content (D.log disk.old)) }
    ensures cause { D.honest disk.old → IsErrOf result OpenFault.Disk
        → HasRisen (D.faults_of disk.old) (D.faults_of disk.new) }
    ensures honest { D.honest disk.old ↔ D.honest disk.new }
    ensures later { D.faults_of disk.old ≤ D.faults_of disk.new }
    ensures quiet { OnOk result (D.faults_of disk.new ≡ D.faults_of disk.old) }
{
    let len = disk.len();
    if len == 0 {
        return Ok(None);
    }
    record_at(alloc, &mut Window::unbuffered(alloc), disk, 0, len)
}

/// The beginning of the payload of the first record, `most` octets of it at most, without a look at the rest of it or
/// at what follows; `None` if the segment has no record. So it takes little memory however long the payload is.
///
/// # Errors
/// `Damaged` at 0 if an open record is cut short there; `Disk`; `NoMemory`. The disk is as it was.
pub fn peek_first_part<D: Disk>(
    alloc: Global,
    disk: &mut D,
    most: u32,
) -> Result<Option<Vec<u8>>, PeekFault>
    ensures ok { D.honest disk.old → IfOk result (λ o. MatchOption o
        (Ends (content (D.log disk.old)))
        (λ part. IsPart part.items 0 most (content (D.log disk.old)))) }
    ensures log { D.honest disk.old → D.log disk.new ≡ D.log disk.old }
    ensures damaged { D.honest disk.old → (at : ℕ) → IsErrOf result (OpenFault.Damaged at)
        → (at ≡ 0) × IsCutShort (content (D.log disk.old)) }
    ensures cause { D.honest disk.old → IsErrOf result OpenFault.Disk
        → HasRisen (D.faults_of disk.old) (D.faults_of disk.new) }
    ensures honest { D.honest disk.old ↔ D.honest disk.new }
    ensures later { D.faults_of disk.old ≤ D.faults_of disk.new }
    ensures quiet { OnOk result (D.faults_of disk.new ≡ D.faults_of disk.old) }
{
    let len = disk.len();
    if len == 0 {
        return Ok(None);
    }
    let mut window = Window::unbuffered(alloc);
    let mut heads = Window::unbuffered(alloc);
    part_of(alloc, &mut window, &mut heads, disk, 0, len, 0, most)
}
