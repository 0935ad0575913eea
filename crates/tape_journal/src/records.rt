// Reading a segment record by record.
ghost use Rattle.std.specs.Prelude.{◌≡◌, ◌-◌, ◌^◌, ◌<◌, ◌≤◌, length, min, take, drop};
ghost use Rattle.disk_model.specs.Disk.{content};
ghost use Rattle.tape_journal.specs.Given.{longest_given};
ghost use Rattle.tape_journal.specs.Window.{held_by, room_of, shown_by, start_of};

use crate::read::{Head, RECORD_HEAD_OCTETS, head_at};
use crate::window::Window;
use crate::{JournalFault, OpenFault, Refused, Unrepaired};
use disk_model::Disk;
use std::alloc::Global;

/// The longest payload that [`SegmentReader::next`] gives, in octets.
pub const GIVEN_MAX_OCTETS: u32 = 65536;

/// A payload, as it is read.
#[derive(Clone, Copy)]
pub enum ReadPayload<'a> {
    /// Its octets.
    Octets(&'a [u8]),
    /// It is longer than [`GIVEN_MAX_OCTETS`], and was passed over.
    TooLong,
}

// What the next record is.
pub(crate) enum ReaderStep {
    // The segment ends there.
    End,
    // Its payload has `count` octets, which stand in the window from this place on.
    Held { from: usize, count: usize },
    // Its payload is too long to be given.
    TooLong,
}

/// A segment that is read record by record, in their order. Nothing is written, and no payload is kept.
#[derive(Drop)]
pub struct SegmentReader<D: Disk> {
    alloc: Global,
    disk: D,
    window: Window,
    // Where the next record stands.
    at: u64,
    // How long the disk is, in octets.
    len: u64,
    ghost fits: { at < 2 ^ 64 - 1 },
    ghost inside: { 0 < len → at < len },
    ghost whole: { D.honest disk → len ≡ length (content (D.log disk)) },
    ghost shows: { D.honest disk → shown_by window
        ≡ take (held_by window) (drop (start_of window) (content (D.log disk))) },
    // The window has room for each payload that is given.
    ghost room: { min len longest_given ≤ room_of window },
}

impl<D: Disk> SegmentReader<D> {
    ghost use Rattle.std.specs.Prelude.{◌+◌, ◌↔◌, [], ℕ, List, IfOk, IsErrOf, MatchResult};
    ghost use Rattle.std.specs.Borrow.{sem};
    ghost use Rattle.tape_journal.specs.Records.{offset_of, reader_disk, HasComeTo, HasEnded};
    ghost use Rattle.tape_journal.specs.Records.{IsAtRecord, IsStep, MovesOn, KeepsDisk};
    ghost use Rattle.tape_journal.specs.Records.{EndsWith, ReadsNext};
    ghost use Rattle.tape_journal.specs.Segment.{IsDamagedAt};
    ghost use Rattle.tape_journal.specs.Unrepaired.{read_disk, Finds};

    /// Begins to read the segment of a disk. Takes room for a piece of it, of at most 131,072 octets.
    ///
    /// # Errors
    /// Only `NoMemory`. The disk is handed back as it was.
    pub fn begin(alloc: Global, disk: D) -> Result<Self, Refused<D>>
        ensures ok { D.honest disk → IfOk result (λ reader. HasComeTo reader []) }
        ensures disk { MatchResult result (λ reader. reader_disk reader ≡ disk)
            (λ e. (e.fault ≡ JournalFault.NoMemory) × (e.disk ≡ disk)) }
    {
        let len = disk.len();
        match Window::onto(alloc, len) {
            Ok(window) => Ok(SegmentReader {
                alloc,
                disk,
                window,
                at: 0,
                len,
            }),
            Err(_) => Err(Refused {
                disk,
                fault: JournalFault::NoMemory,
            }),
        }
    }

    /// Reads the next record; `None` if the segment ends there. A payload of more than [`GIVEN_MAX_OCTETS`] octets is
    /// passed over.
    ///
    /// # Errors
    /// The reader stays where it was. `Damaged` at the offset at which the content has no reading: if a record is cut
    /// short there, or if the disk ends there, right after a record, whose payload isn't given then. `Disk`: a read
    /// failed.
    pub fn next(&mut self) -> Result<Option<ReadPayload<'_>>, OpenFault>
        ensures* next { sem 𝓛
            (EndsWith D.row D.Disk self.entry (λ new. ReadsNext self.old new result)) }
        ensures damaged { (payloads : List (List ℕ)) → HasComeTo self.old payloads → (at : ℕ)
            → IsErrOf result (OpenFault.Damaged at)
            → IsDamagedAt (content (D.log (reader_disk self.old))) at }
        ensures no_memory { IsErrOf result OpenFault.NoMemory → ⊥ }
    {
        match self.step()? {
            ReaderStep::End => Ok(None),
            ReaderStep::Held { from, count } => {
                let octets = self.window.lend(from, count);
                Ok(Some(ReadPayload::Octets(octets)))
            }
            ReaderStep::TooLong => Ok(Some(ReadPayload::TooLong)),
        }
    }

    // Moves past the next record, if there is one.
    fn step(&mut self) -> Result<ReaderStep, OpenFault>
        ensures step { (payloads : List (List ℕ)) → HasComeTo self.old payloads
            → MatchResult result (IsStep self.new payloads) (λ _. HasComeTo self.new payloads) }
        ensures moves { IfOk result (MovesOn self.old self.new) }
        ensures damaged { (payloads : List (List ℕ)) → HasComeTo self.old payloads → (at : ℕ)
            → IsErrOf result (OpenFault.Damaged at)
            → IsDamagedAt (content (D.log self.old.disk)) at }
        ensures no_memory { IsErrOf result OpenFault.NoMemory → ⊥ }
        ensures keeps { KeepsDisk self.old self.new result }
    {
        if self.len == 0 {
            return Ok(ReaderStep::End);
        }
        match head_at(&mut self.window, &mut self.disk, self.at, self.len)? {
            Head::End => Ok(ReaderStep::End),
            Head::CutShort => Err(OpenFault::Damaged { at: self.at }),
            Head::Record(size) => self.pass(size),
        }
    }

    // Moves past a record whose payload has `size` octets.
    fn pass(&mut self, size: u32) -> Result<ReaderStep, OpenFault>
        requires { self.old.at + 5 + size ≤ self.old.len }
        ensures step { (payloads : List (List ℕ)) → HasComeTo self.old payloads
            → IsAtRecord self.old size
            → MatchResult result (IsStep self.new payloads) (λ _. HasComeTo self.new payloads) }
        ensures moves { IfOk result (MovesOn self.old self.new) }
        ensures damaged { (payloads : List (List ℕ)) → HasComeTo self.old payloads
            → IsAtRecord self.old size → (at : ℕ) → IsErrOf result (OpenFault.Damaged at)
            → IsDamagedAt (content (D.log self.old.disk)) at }
        ensures no_memory { IsErrOf result OpenFault.NoMemory → ⊥ }
        ensures keeps { KeepsDisk self.old self.new result }
    {
        let end = self.at + RECORD_HEAD_OCTETS + u64::from(size);
        if end == self.len {
            return Err(OpenFault::Damaged { at: end });
        }
        if size > GIVEN_MAX_OCTETS {
            self.at = end;
            return Ok(ReaderStep::TooLong);
        }
        let count = size as usize;
        let from = self
            .window
            .hold(&mut self.disk, self.at + RECORD_HEAD_OCTETS, count)?;
        self.at = end;
        Ok(ReaderStep::Held { from, count })
    }

    /// Where the next record is to stand: the length of the records that were read, in octets.
    pub fn offset(&self) -> u64
        ensures { result ≡ offset_of self.now }
    {
        let Self { at, .. } = *self;
        at
    }

    /// The segment, to be repaired, after `next` has given `None`.
    pub fn finish(self) -> Unrepaired<D>
        ensures finds { (payloads : List (List ℕ)) → HasEnded self payloads
            → Finds result payloads }
        ensures disk { read_disk result ≡ reader_disk self }
    {
        let SegmentReader {
            alloc,
            disk,
            at,
            ..
        } = self;
        Unrepaired {
            alloc,
            disk,
            end: at,
        }
    }

    /// The disk that is read.
    pub fn into_disk(self) -> D
        ensures { result ≡ reader_disk self }
    {
        let SegmentReader { disk, .. } = self;
        disk
    }
}
