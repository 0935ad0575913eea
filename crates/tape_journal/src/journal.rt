// A journal of payloads.
ghost use Rattle.std.specs.Prelude.{◌≡◌, ◌+◌, ◌-◌, ◌^◌, ◌<◌, ◌≤◌, ℕ, List, take, drop};
ghost use Rattle.disk_model.specs.Disk.{content};
ghost use Rattle.tape_journal.specs.Segment.{IsDamagedAt, Reads};
ghost use Rattle.tape_journal.specs.Window.{held_by, shown_by, start_of};
ghost use Rattle.tape_journal.specs.declared.fault.JournalFault.TheVariants.{Damaged};

use crate::append::{add_records, are_short, records_len, staging_of};
use crate::fault::refusal_of_reading;
use crate::read::{RECORD_HEAD_OCTETS, part_of, payloads_of, record_at};
use crate::window::Window;
use crate::{AppendFault, JournalFault, OpenFault, ReadFault, Unrepaired};
use disk_model::Disk;
use std::alloc::{AllocError, Global};

/// The longest segment, in octets, with its end gate.
pub const SEGMENT_MAX_OCTETS: u64 = 4294967296;

/// A disk on which there is no journal, handed back as the call left it: it was not opened, or not renewed.
#[derive(Drop)]
pub struct Refused<D: Disk> {
    /// What is on it is as the call left it.
    pub disk: D,
    /// Why the call was refused.
    pub fault: JournalFault,
    ghost damaged: { D.honest disk → (at : ℕ) → fault ≡ Damaged at → (payloads : List (List ℕ))
        → Reads (content (D.log disk)) payloads → ⊥ },
}

/// A journal of payloads on a disk of its own: a segment of records with open gates, and a closed gate after them.
#[derive(Drop)]
pub struct Journal<D: Disk> {
    pub(crate) alloc: Global,
    pub(crate) disk: D,
    pub(crate) end: u64,
    pub(crate) broken: bool,
    // What was read of the disk last, while it reads ahead: a piece, and the head of a record that lay outside of it.
    pub(crate) window: Window,
    pub(crate) heads: Window,
    ghost fits: { end < 2 ^ 64 - 1 },
    ghost shows: { D.honest disk → shown_by window
        ≡ take (held_by window) (drop (start_of window) (content (D.log disk))) },
    ghost shows_head: { D.honest disk → shown_by heads
        ≡ take (held_by heads) (drop (start_of heads) (content (D.log disk))) },
}

ghost use Rattle.tape_journal.specs.Words.{read_fault};

// The fault of a reading at an offset at which a record is to stand.
fn read_fault_of(fault: OpenFault) -> ReadFault
    ensures { result ≡ read_fault fault }
{
    match fault {
        OpenFault::Damaged { .. } | OpenFault::Disk => ReadFault::Disk,
        OpenFault::NoMemory => ReadFault::NoMemory,
    }
}

impl<D: Disk> Journal<D> {
    ghost use Rattle.std.specs.Prelude.{◌≢◌, ◌↔◌, [], ◌∷◌, ◌++◌, length, min, MatchResult, IfOk};
    ghost use Rattle.std.specs.Prelude.{IfErr, OnOk, OnErr, IsOk, IsErrOf, IsTrue, map, vec_items};
    ghost use Rattle.disk_model.specs.Disk.{HasRisen};
    ghost use Rattle.tape_journal.specs.Segment.{AllShort, IsRecord, records, longest_segment};
    ghost use Rattle.tape_journal.specs.Append.{Appends, Continues, RefusesAppend};
    ghost use Rattle.tape_journal.specs.Part.{IsPart};
    ghost use Rattle.tape_journal.specs.Read.{Keeps};
    ghost use Rattle.tape_journal.specs.Journal.{disk_of, end_of, IsBroken, Holds, IsOpened, IsRefused};
    ghost use Rattle.tape_journal.specs.Open.{HasCause, IsReturned};
    ghost use Rattle.tape_journal.specs.Renew.{Works};
    ghost use Rattle.tape_journal.specs.Unrepaired.{read_disk, Finds};

    /// Reads the payloads of a disk, in their order, and writes nothing.
    ///
    /// # Errors
    /// The first that the reading meets: `Damaged` at the offset at which the content has no reading, `Disk`,
    /// `NoMemory`. The disk is handed back as it was.
    pub fn read(alloc: Global, mut disk: D) -> Result<(Unrepaired<D>, Vec<Vec<u8>>), Refused<D>>
        ensures ok { D.honest disk → IfOk result (λ r. Finds r.0 (map vec_items r.1.items)) }

        // A refusal writes nothing either.
        ensures unchanged { D.honest disk → MatchResult result
            (λ r. D.log (read_disk r.0) ≡ D.log disk) (λ e. D.log e.disk ≡ D.log disk) }

        // Each fault has its cause.
        ensures damaged { D.honest disk → IfErr result (λ e. (at : ℕ)
            → e.fault ≡ JournalFault.Damaged at → IsDamagedAt (content (D.log disk)) at) }
        ensures cause { D.honest disk → IfErr result (λ e. e.fault ≡ JournalFault.Disk
            → HasRisen (D.faults_of disk) (D.faults_of e.disk)) }
        ensures kinds { IfErr result (λ e. (e.fault ≢ JournalFault.TapeFull)
            × (e.fault ≢ JournalFault.PayloadTooLong)) }

        ensures honest { MatchResult result (λ r. D.honest disk ↔ D.honest (read_disk r.0))
            (λ e. D.honest disk ↔ D.honest e.disk) }
        ensures later { MatchResult result (λ r. D.faults_of disk ≤ D.faults_of (read_disk r.0))
            (λ e. D.faults_of disk ≤ D.faults_of e.disk) }
        ensures quiet { IfOk result (λ r. D.faults_of (read_disk r.0) ≡ D.faults_of disk) }
    {
        match payloads_of(alloc, &mut disk) {
            Ok((payloads, end)) => Ok((Unrepaired { alloc, disk, end }, payloads)),
            Err(fault) => Err(Refused {
                disk,
                fault: refusal_of_reading(fault),
            }),
        }
    }

    /// Reads the payloads of a disk, in their order, and repairs its end: what follows the end gate is cut off.
    ///
    /// # Errors
    /// The first that the reading meets: `Damaged` at the offset at which the content has no reading, `Disk`,
    /// `NoMemory`; then `Disk` of the repair. The disk is handed back.
    #[tactic(auto, using(crate::proofs::Ending::as_it_was))]
    pub fn open(alloc: Global, disk: D) -> Result<(Journal<D>, Vec<Vec<u8>>), Refused<D>>
        ensures ok { D.honest disk
            → IfOk result (λ r. IsOpened (D.log disk) r.0 (map vec_items r.1.items)) }
        ensures err { D.honest disk → IfErr result (λ e. IsRefused (D.log disk) e) }

        // It doesn't give up by itself: each fault has its cause.
        ensures causes { D.honest disk → IfErr result (HasCause disk) }
        ensures works { IfOk result (λ r. Works disk r.0) }
        ensures returned { IfErr result (IsReturned disk) }
    {
        let (unrepaired, payloads) = Journal::read(alloc, disk)?;
        let journal = unrepaired.repair()?;
        Ok((journal, payloads))
    }

    // The length of the records to add, unless they are refused at once.
    fn room_for(&self, payloads: &[Vec<u8>]) -> Result<u64, AppendFault>
        ensures broken { IsErrOf result AppendFault.Broken ↔ IsBroken self.now }
        ensures too_long { IsErrOf result AppendFault.PayloadTooLong
            ↔ ((IsBroken self.now → ⊥) × (AllShort (map vec_items payloads.now) → ⊥)) }
        ensures full { IsErrOf result AppendFault.TapeFull
            ↔ ((IsBroken self.now → ⊥) × AllShort (map vec_items payloads.now) × (payloads.now ≢ [])
            × (longest_segment
            < end_of self.now + 1 + length (records (map vec_items payloads.now)))) }
        ensures empty_ok { payloads.now ≡ [] → (IsBroken self.now → ⊥) → IsOk result }
        ensures kinds { IfErr result (λ e. (e ≢ AppendFault.Disk) × (e ≢ AppendFault.NoMemory)) }
        ensures ok { IfOk result
            (λ added. (IsBroken self.now → ⊥) × AllShort (map vec_items payloads.now)
            × (added ≡ length (records (map vec_items payloads.now)))
            × (payloads.now ≢ [] → end_of self.now + 1 + added ≤ longest_segment)) }
    {
        if self.broken {
            return Err(AppendFault::Broken);
        }
        if payloads.is_empty() {
            return Ok(0);
        }
        if !are_short(payloads) {
            return Err(AppendFault::PayloadTooLong);
        }
        let added = records_len(payloads);
        if self.end.saturating_add(1).saturating_add(added) > SEGMENT_MAX_OCTETS {
            return Err(AppendFault::TapeFull);
        }
        Ok(added)
    }

    /// Adds payloads after the others. At `Ok` they are acknowledged: no stop takes them away. An empty list makes no
    /// disk call.
    ///
    /// # Errors
    /// Tried in this order: `Broken` after a `Disk`; `PayloadTooLong`, over 16,777,216 octets; `TapeFull`, the length
    /// with the end gate would pass 4,294,967,296; `NoMemory`; these change nothing. `Disk`: a call failed, the journal
    /// is broken from then on, and its disk is to be opened again.
    pub fn append_all(&mut self, payloads: &[Vec<u8>]) -> Result<(), AppendFault>
        ensures appends { (all : List (List ℕ)) → Holds self.old all
            → Appends all payloads.now self.old self.new result }
        ensures empty { payloads.now ≡ [] → self.new ≡ self.old }
        ensures empty_ok { payloads.now ≡ [] → (IsBroken self.old → ⊥) → IsOk result }
        ensures refuses { RefusesAppend payloads.now self.old self.new result }
        ensures works { OnOk result (IsBroken self.new → ⊥) }
        ensures end { MatchResult result
            (λ _. end_of self.new ≡ end_of self.old + length (records (map vec_items payloads.now)))
            (λ _. end_of self.new ≡ end_of self.old) }
        ensures continues { Continues self.old self.new }
        ensures quiet { OnOk result (D.faults_of (disk_of self.new)
            ≡ D.faults_of (disk_of self.old)) }
    {
        let added = self.room_for(payloads)?;
        if payloads.is_empty() {
            return Ok(());
        }
        let staged = staging_of(self.alloc, payloads, added)?;
        self.window.forget();
        self.heads.forget();
        match add_records(&mut self.disk, self.end, &staged, payloads) {
            Ok(()) => {
                self.end += added;
                Ok(())
            }
            Err(_) => {
                self.broken = true;
                Err(AppendFault::Disk)
            }
        }
    }

    /// Reads back the payload whose record's gate stands at this offset.
    ///
    /// # Errors
    /// `Broken` after a `Disk` of `append_all`; `NoMemory`; `Disk` if a read failed, or if no open record stands
    /// there, which an honest disk never gives at the offset of a payload's gate. None of them breaks the journal.
    pub fn payload_at(&mut self, offset: u64) -> Result<Vec<u8>, ReadFault>
        ensures payload { (prefix more : List (List ℕ)) (payload : List ℕ)
            → Holds self.old (prefix ++ payload ∷ more) → offset ≡ length (records prefix)
            → IfOk result (λ v. v.items ≡ payload) }
        ensures cause { (prefix more : List (List ℕ)) (payload : List ℕ)
            → Holds self.old (prefix ++ payload ∷ more) → offset ≡ length (records prefix)
            → IsErrOf result ReadFault.Disk
            → HasRisen (D.faults_of (disk_of self.old)) (D.faults_of (disk_of self.new)) }

        // At any offset an honest disk gives the payload of a whole open record, or none.
        ensures record { D.honest (disk_of self.old)
            → IfOk result (λ v. IsRecord v.items
            (drop offset (content (D.log (disk_of self.old))))) }

        ensures broken { IsErrOf result ReadFault.Broken ↔ IsBroken self.old }
        ensures unchanged { IsErrOf result ReadFault.Broken → self.new ≡ self.old }
        ensures keeps { Keeps self.old self.new }
        ensures continues { Continues self.old self.new }
        ensures quiet { OnOk result (D.faults_of (disk_of self.new)
            ≡ D.faults_of (disk_of self.old)) }
    {
        if self.broken {
            return Err(ReadFault::Broken);
        }
        let len = self.disk.len();
        if offset >= len {
            return Err(ReadFault::Disk);
        }
        let found = record_at(self.alloc, &mut self.window, &mut self.disk, offset, len);
        match found {
            Ok(Some(payload)) => Ok(payload),
            Ok(None) => Err(ReadFault::Disk),
            Err(fault) => Err(read_fault_of(fault)),
        }
    }

    /// The octets of a payload from `from` on, `most` of them at most, of the record whose gate stands at this offset:
    /// fewer, or none, if the payload ends sooner. The rest of the payload is not read.
    ///
    /// # Errors
    /// Those of `payload_at`, in the same order, for the same causes.
    pub fn part_at(&mut self, offset: u64, from: u32, most: u32) -> Result<Vec<u8>, ReadFault>
        ensures part { (prefix more : List (List ℕ)) (payload : List ℕ)
            → Holds self.old (prefix ++ payload ∷ more) → offset ≡ length (records prefix)
            → IfOk result (λ v. v.items ≡ take most (drop from payload)) }
        ensures cause { (prefix more : List (List ℕ)) (payload : List ℕ)
            → Holds self.old (prefix ++ payload ∷ more) → offset ≡ length (records prefix)
            → IsErrOf result ReadFault.Disk
            → HasRisen (D.faults_of (disk_of self.old)) (D.faults_of (disk_of self.new)) }

        // At any offset an honest disk gives a part of a whole open record's payload, or none.
        ensures record { D.honest (disk_of self.old)
            → IfOk result (λ v. IsPart v.items from most
            (drop offset (content (D.log (disk_of self.old))))) }

        ensures broken { IsErrOf result ReadFault.Broken ↔ IsBroken self.old }
        ensures unchanged { IsErrOf result ReadFault.Broken → self.new ≡ self.old }
        ensures keeps { Keeps self.old self.new }
        ensures continues { Continues self.old self.new }
        ensures quiet { OnOk result (D.faults_of (disk_of self.new)
            ≡ D.faults_of (disk_of self.old)) }
    {
        if self.broken {
            return Err(ReadFault::Broken);
        }
        let len = self.disk.len();
        if len <= offset {
            return Err(ReadFault::Disk);
        }
        let window = &mut self.window;
        let heads = &mut self.heads;
        let found = part_of(
            self.alloc,
            window,
            heads,
            &mut self.disk,
            offset,
            len,
            from,
            most,
        );
        match found {
            Ok(Some(part)) => Ok(part),
            Ok(None) => Err(ReadFault::Disk),
            Err(fault) => Err(read_fault_of(fault)),
        }
    }

    /// Reads ahead from now on: `payload_at` and `part_at` take up the disk in pieces of so many octets, but of 131,072
    /// at most, and read no more if the last of them has what is asked. What they answer stays the same. Takes room for
    /// a piece.
    ///
    /// # Errors
    /// `NoMemory` if memory was refused; nothing changes.
    pub fn read_ahead(&mut self, piece: u64) -> Result<(), AllocError>
        ensures stays { (all : List (List ℕ)) → Holds self.old all → Holds self.new all }
        ensures disk { disk_of self.new ≡ disk_of self.old }
        ensures end { end_of self.new ≡ end_of self.old }
        ensures works { IsBroken self.old ↔ IsBroken self.new }
    {
        let len = self.disk.len();
        let window = Window::onto(self.alloc, len.min(piece))?;
        self.heads = Window::onto(self.alloc, len.min(RECORD_HEAD_OCTETS))?;
        self.window = window;
        Ok(())
    }

    /// Stops reading ahead, and frees the room that it took for that.
    pub fn read_singly(&mut self)
        ensures stays { (all : List (List ℕ)) → Holds self.old all → Holds self.new all }
        ensures disk { disk_of self.new ≡ disk_of self.old }
        ensures end { end_of self.new ≡ end_of self.old }
        ensures works { IsBroken self.old ↔ IsBroken self.new }
    {
        self.window = Window::unbuffered(self.alloc);
        self.heads = Window::unbuffered(self.alloc);
    }

    /// Breaks it, as a call that fails on its disk does. It makes no disk call.
    pub fn break_off(&mut self)
        ensures breaks { IsBroken self.new }
        ensures disk { disk_of self.new ≡ disk_of self.old }
        ensures end { end_of self.new ≡ end_of self.old }
    {
        let Self { broken, .. } = self;
        *broken = true;
    }

    /// Whether a `Disk` of `append_all` broke it before, so that its disk is to be opened again.
    pub fn is_broken(&self) -> bool
        ensures { IsTrue result ↔ IsBroken self.now }
    {
        let Self { broken, .. } = *self;
        broken
    }

    /// The length in octets, with the end gate.
    pub fn bytes(&self) -> u64
        ensures { result ≡ end_of self.now + 1 }
    {
        self.end + 1
    }

    /// The disk beneath.
    pub fn into_disk(self) -> D
        ensures { result ≡ disk_of self }
    {
        let Journal { disk, .. } = self;
        disk
    }
}
