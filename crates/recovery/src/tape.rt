// Tapes.
ghost use Rattle.std.specs.Prelude.{◌≡◌, ◌≢◌, ◌+◌, ◌-◌, ◌*◌, ◌^◌, ◌≤◌, ◌<◌};
ghost use Rattle.std.specs.Prelude.{◌↔◌, ℕ, List, length, IsTrue};
ghost use Rattle.recovery.specs.Notes.{most_pending};
ghost use Rattle.std.specs.Prelude.{IfOk, OnOk};
ghost use Rattle.std.specs.List.{All, Contains};
ghost use Rattle.ledger_core.specs.Index.{Indexes};
ghost use Rattle.ledger_core.specs.Ledger.{state_of};
ghost use Rattle.tape_journal.specs.Journal.{end_of as journal_end};
ghost use Rattle.ledger_core.specs.State.{AllLegal, after};
ghost use Rattle.recovery.specs.Notes.{drops};
ghost use Rattle.recovery.specs.declared.fault.TapeFault.TheVariants.{Broken};

use crate::fault::append_fault;
use crate::pending::Pending;
use crate::read::read_ledger;
use crate::tape_segments::{TapeSegments, is_second_live};
use crate::{Flushed, TapeFault};
use disk_model::Disk;
use funnel::{MsgId, Token};
use ledger_core::{Cause, Key, Ledger, LedgerFault, Note, Outline, Totals, encode, encode_owe};
use std::alloc::{AllocError, Global};
use tape_journal::{Journal, SEGMENT_MAX_OCTETS, SegmentReader};

/// How many notes may be pending.
pub const PENDING_MAX_NOTES: usize = 65536;

// A rotation is due only for a segment longer than this, in octets.
const LONG_SEGMENT_OCTETS: u64 = 65536;

/// Two disks on which no tape was opened, returned as the call left them.
#[derive(Drop)]
pub struct RefusedTape<D: Disk> {
    /// The first disk.
    pub a: D,
    /// The second disk.
    pub b: D,
    /// Why they were refused: `Damaged`, `Disk` or `NoMemory`.
    pub fault: TapeFault,
    ghost is_refusal: { fault ≢ Broken },
}

impl<D: Disk> RefusedTape<D> {
    ghost use Rattle.recovery.specs.Pairs.{placed};

    // The disks in their order: the live one is the second, or else the first.
    fn of(second: bool, live: D, other: D, fault: TapeFault) -> Self
        requires { fault ≢ Broken }
        ensures disks { (result.a, result.b) ≡ placed second live other }
        ensures fault { result.fault ≡ fault }
    {
        if second {
            RefusedTape {
                a: other,
                b: live,
                fault,
            }
        } else {
            RefusedTape {
                a: live,
                b: other,
                fault,
            }
        }
    }
}

/// What one peer is owed: its notes on two disks, those that are pending, and the ledger that all of them leave.
///
/// Each disk has a segment, and the one of greater generation is live: notes are added to it, until `rotate` writes the
/// ledger into the other, which is live from then on.
///
/// Memory has no text of a debt whose note is on the disk: `debt` and `rotate` read it back.
#[derive(Drop)]
pub struct Tape<D: Disk> {
    pub(crate) alloc: Global,
    pub(crate) segments: TapeSegments<D>,
    pub(crate) ledger: Ledger,
    pub(crate) pending: Pending,
    // The offset at which the last pending record will be, or the greatest u64 if that is less. It means nothing while
    // nothing is pending.
    pub(crate) last: u64,
    // The offset at which the record after all pending ones will be, or the greatest u64 if that is less.
    pub(crate) next: u64,
    // The number of notes that were put on the disks since the tape was opened.
    pub(crate) flushed: u64,
    // Its place among the tapes of other peers, which the answer of a flush names.
    pub(crate) place: Option<usize>,
    ghost few: { pending.count ≤ most_pending },
}

impl<D: Disk> Tape<D> {
    ghost use Rattle.std.specs.Prelude.{[], ◌∷◌, ◌==◌, find, min, drop};
    ghost use Rattle.std.specs.Prelude.{MatchResult, IfErr, OnErr, IsOk, IsErrOf, IsSome, Some, option_map};
    ghost use Rattle.std.specs.List.Sorted.{IsStrictlyIncreasing};
    ghost use Rattle.ledger_core.specs.Ledger.{totals_of};
    ghost use Rattle.ledger_core.specs.Outline.{shape_in};
    ghost use Rattle.ledger_core.specs.Shape.{shape_of};
    ghost use Rattle.ledger_core.specs.declared.ledger.LedgerFault.{LedgerFault};
    ghost use Rattle.ledger_core.specs.declared.note.Note.{Note};
    ghost use Rattle.ledger_core.specs.State.{IsLegal, IsOwed, Owing, keys, line_octets, step};
    ghost use Rattle.recovery.specs.Notes.{AreOwed, History, noted, noted_all, flushed};
    ghost use Rattle.recovery.specs.Flushes.{Flushes, HasFlushed, RefusesFlush};
    ghost use Rattle.recovery.specs.Image.{EachTape, Lives, Survives};
    ghost use Rattle.recovery.specs.Opens.{HasCause, IsFresh, Opens, OpensWhatSurvives};
    ghost use Rattle.recovery.specs.Rotates.{Rotates, RefusesRotation};
    ghost use Rattle.recovery.specs.Takes.{RefusesDrops, RefusesNoting, RefusesOwing, Takes};
    ghost use Rattle.recovery.specs.Pairs.{placed};
    ghost use Rattle.recovery.specs.Words.{AreHonest, Continues, disks_of};
    ghost use Rattle.recovery.specs.Words.{flushed_of, generation_of, ledger_of, place_of};
    ghost use Rattle.recovery.specs.Words.{pending_of, refused_log, rotated_length, faults_of};
    ghost use Rattle.recovery.specs.Words.{IsBroken, IsDue, IsSame, RefusesNote};
    ghost use Rattle.recovery.specs.Words.{IsOpenFault, IsNoteFault};
    ghost use Rattle.recovery.specs.Tape.{StandsFor, contents_of};

    /// Opens the tape on two disks, which may be empty: the segment of greater generation is live, on a tie the first.
    /// Its ledger is what that segment leaves; all notes are acknowledged, none is pending, and the tape has no place
    /// yet.
    /// The disks are read and judged first, which changes nothing; then the other disk is synced, and the end of the
    /// live segment is repaired. Linear in the live segment. Each payload is judged as it is read, and none is kept:
    /// apart from the ledger it takes room for a piece of the segment, of at most 131,072 octets, and before that for
    /// the first 62 octets of the first payload of each disk, which say what generation it gives.
    ///
    /// # Errors
    /// The disks are handed back. Tried in this order:
    /// - what reading the first record of the first disk meets, and then of the second: `Damaged` at 0 if it gives no
    ///   generation, `Disk`, or `NoMemory`;
    /// - the same for reading the live segment;
    /// - `Damaged` at its first payload at which no reading goes on, or at its end if a debt of its Base is missing, or
    ///   `NoMemory` of the judging. The segment is read on to its end before one of these two comes;
    /// - `Disk` of the sync and the repair, which leave a tape of the same ledger. All faults before this one leave the
    ///   disks as they were, octet for octet.
    pub fn open(alloc: Global, mut a: D, mut b: D) -> Result<Tape<D>, RefusedTape<D>>
        ensures opens { D.honest a → D.honest b → Opens (λ tape. tape) (D.log a, D.log b) result }

        // Whatever a stop left of a history can be opened.
        ensures recovers { (h : History) → D.honest a → D.honest b
            → EachTape (Survives h) (D.log a, D.log b)
            → OpensWhatSurvives (λ tape. tape) h (D.log a, D.log b) result }

        // Each fault has its cause; refused disks are as they were, except after a `Disk` of the repair.
        ensures causes { D.honest a → D.honest b
            → IfErr result (HasCause (D.log a, D.log b) (D.faults_of a, D.faults_of b)) }
        ensures untouched { D.honest a → D.honest b → IfErr result
            (λ e. e.fault ≢ TapeFault.Disk → refused_log e ≡ (D.log a, D.log b)) }
        ensures kinds { IfErr result (λ e. IsOpenFault e.fault) }

        ensures fresh { IfOk result IsFresh }
        ensures honest { MatchResult result (λ tape. (D.honest a × D.honest b) ↔ AreHonest tape)
            (λ e. (D.honest a × D.honest b) ↔ (D.honest e.a × D.honest e.b)) }
        ensures quiet { MatchResult result (λ tape. faults_of tape ≡ (D.faults_of a, D.faults_of b))
            (λ e. (D.faults_of a ≤ D.faults_of e.a) × (D.faults_of b ≤ D.faults_of e.b)) }
    {
        match is_second_live(alloc, &mut a, &mut b) {
            Ok(false) => Tape::open_live(alloc, false, a, b),
            Ok(true) => Tape::open_live(alloc, true, b, a),
            Err(fault) => Err(RefusedTape { a, b, fault }),
        }
    }

    // Opens the tape of a disk with the live segment, the second or else the first, and of the other disk.
    fn open_live(
        alloc: Global,
        second: bool,
        live: D,
        mut other: D,
    ) -> Result<Tape<D>, RefusedTape<D>>
        requires lives { D.honest live → D.honest other
            → Lives (contents_of (placed second (D.log live) (D.log other))) second }
        ensures opens { D.honest live → D.honest other
            → Opens (λ tape. tape) (placed second (D.log live) (D.log other)) result }
        ensures recovers { (h : History) → D.honest live → D.honest other
            → EachTape (Survives h) (placed second (D.log live) (D.log other))
            → OpensWhatSurvives (λ tape. tape) h (placed second (D.log live) (D.log other))
            result }
        ensures causes { D.honest live → D.honest other
            → IfErr result (HasCause (placed second (D.log live) (D.log other))
            (placed second (D.faults_of live) (D.faults_of other))) }
        ensures untouched { D.honest live → D.honest other → IfErr result
            (λ e. e.fault ≢ TapeFault.Disk
            → refused_log e ≡ (placed second (D.log live) (D.log other))) }
        ensures kinds { IfErr result (λ e. IsOpenFault e.fault) }
        ensures fresh { IfOk result IsFresh }
        ensures honest { MatchResult result
            (λ tape. (D.honest live × D.honest other) ↔ AreHonest tape)
            (λ e. (D.honest live × D.honest other) ↔ (D.honest e.a × D.honest e.b)) }
        ensures quiet { MatchResult result
            (λ tape. faults_of tape ≡ (placed second (D.faults_of live) (D.faults_of other)))
            (λ e. ((placed second (D.faults_of live) (D.faults_of other)).0 ≤ D.faults_of e.a)
            × ((placed second (D.faults_of live) (D.faults_of other)).1 ≤ D.faults_of e.b)) }
    {
        let segment = if second { 1 } else { 0 };
        let mut reader = match SegmentReader::begin(alloc, live) {
            Ok(reader) => reader,
            Err(refused) => {
                let fault = TapeFault::NoMemory;
                return Err(RefusedTape::of(second, refused.disk, other, fault));
            }
        };
        let restored = match read_ledger(alloc, segment, &mut reader) {
            Ok(restored) => restored,
            Err(fault) => return Err(RefusedTape::of(second, reader.into_disk(), other, fault)),
        };
        match other.sync() {
            Ok(()) => {}
            Err(_) => {
                let fault = TapeFault::Disk;
                return Err(RefusedTape::of(second, reader.into_disk(), other, fault));
            }
        }
        match reader.finish().repair() {
            Ok(live) => Ok(Tape {
                alloc,
                last: 0,
                next: end_of(&live),
                segments: TapeSegments {
                    live,
                    other,
                    second,
                    generation: restored.generation,
                },
                ledger: restored.ledger,
                pending: Pending::new(alloc),
                flushed: 0,
                place: None,
            }),
            Err(refused) => Err(RefusedTape::of(second, refused.disk, other, TapeFault::Disk)),
        }
    }

    /// Takes a note, which is pending until the next flush. Logarithmic in what is owed.
    ///
    /// # Errors
    /// The note is handed back, and nothing changes. Tried in this order: `Broken`; `Note`, why the ledger refuses it;
    /// `PendingFull` if 65,536 notes are pending; `NoMemory`.
    pub fn note(&mut self, note: Note) -> Result<(), (Note, TapeFault)>
        ensures takes { (h : History) → StandsFor self.old h
            → Takes (note ∷ []) h self.new result }
        ensures ledger { OnOk result
            (IsLegal (ledger_of self.old) note
            × (ledger_of self.new ≡ step (ledger_of self.old) note)) }
        ensures pends { OnOk result (pending_of self.new ≡ pending_of self.old + 1) }
        ensures returned { IfErr result (λ e. e.0 ≡ note) }
        ensures refuses { RefusesNoting note self.old self.new result }
        ensures disks { disks_of self.new ≡ disks_of self.old }
        ensures works { IsBroken self.old ↔ IsBroken self.new }
        ensures place { place_of self.new ≡ place_of self.old }
    {
        match self.try_note(&note) {
            Ok(()) => Ok(()),
            Err(fault) => Err((note, fault)),
        }
    }

    /// Takes the note that owes a debt, as `note` does: its texts are copied once, into the note's spelling.
    /// Logarithmic in what is owed.
    ///
    /// # Errors
    /// Nothing changes. Those of `note`, in the same order: `Broken`; `Note(OldNumber)`; `Note(CountFull)`;
    /// `PendingFull`; `NoMemory`.
    pub fn owe(&mut self, key: Key, token: &Token, id: &MsgId) -> Result<(), TapeFault>
        ensures takes { (h : History) → StandsFor self.old h
            → Takes (Note.Owe key token.now id.now ∷ []) h self.new result }
        ensures ledger { OnOk result
            (IsLegal (ledger_of self.old) (Note.Owe key token.now id.now)
            × (ledger_of self.new
            ≡ step (ledger_of self.old) (Note.Owe key token.now id.now))) }
        ensures pends { OnOk result (pending_of self.new ≡ pending_of self.old + 1) }
        ensures refuses { RefusesOwing (Note.Owe key token.now id.now)
            self.old self.new result }
        ensures disks { disks_of self.new ≡ disks_of self.old }
        ensures works { IsBroken self.old ↔ IsBroken self.new }
        ensures place { place_of self.new ≡ place_of self.old }
    {
        if self.segments.live.is_broken() {
            return Err(TapeFault::Broken);
        }
        if let Err(fault) = self.ledger.check_owe(key, token, id) {
            return Err(TapeFault::Note(fault));
        }
        if self.room() == 0 {
            return Err(TapeFault::PendingFull);
        }
        self.pend_owe(key, token, id)
    }

    fn try_note(&mut self, note: &Note) -> Result<(), TapeFault>
        ensures ok { (h : History) → StandsFor self.old h
            → OnOk result (StandsFor self.new (noted h note.now)) }
        ensures ledger { OnOk result
            (IsLegal (ledger_of self.old) note.now
            × (ledger_of self.new ≡ step (ledger_of self.old) note.now)) }
        ensures pends { OnOk result (pending_of self.new ≡ pending_of self.old + 1) }
        ensures stays { (h : History) → StandsFor self.old h → OnErr result (StandsFor self.new h) }
        ensures unchanged { OnErr result (IsSame self.old self.new) }

        ensures broken { IsErrOf result TapeFault.Broken ↔ IsBroken self.old }
        ensures note { (fault : LedgerFault) → IsErrOf result (TapeFault.Note fault)
            ↔ ((IsBroken self.old → ⊥) × RefusesNote (ledger_of self.old) note.now fault) }
        ensures pending_full { IsErrOf result TapeFault.PendingFull
            ↔ ((IsBroken self.old → ⊥) × IsLegal (ledger_of self.old) note.now
            × (pending_of self.old ≡ most_pending)) }
        ensures no_memory { IsErrOf result TapeFault.NoMemory
            → (IsBroken self.old → ⊥) × IsLegal (ledger_of self.old) note.now
            × (pending_of self.old < most_pending) }
        ensures kinds { IfErr result IsNoteFault }

        ensures disks { disks_of self.new ≡ disks_of self.old }
        ensures works { IsBroken self.old ↔ IsBroken self.new }
        ensures place { place_of self.new ≡ place_of self.old }
    {
        if self.segments.live.is_broken() {
            return Err(TapeFault::Broken);
        }
        if let Err(fault) = self.ledger.check(note) {
            return Err(TapeFault::Note(fault));
        }
        if self.pending.count >= PENDING_MAX_NOTES {
            return Err(TapeFault::PendingFull);
        }
        self.pend(note)
    }

    // Takes a legal note, when one more may be pending, or changes nothing.
    fn pend(&mut self, note: &Note) -> Result<(), TapeFault>
        requires legal { IsLegal (ledger_of self.old) note.now }
        requires room { pending_of self.old < most_pending }
        ensures ok { (h : History) → StandsFor self.old h
            → OnOk result (StandsFor self.new (noted h note.now)) }
        ensures ledger { OnOk result (ledger_of self.new ≡ step (ledger_of self.old) note.now) }
        ensures pends { OnOk result (pending_of self.new ≡ pending_of self.old + 1) }
        ensures stays { (h : History) → StandsFor self.old h → OnErr result (StandsFor self.new h) }
        ensures unchanged { OnErr result (IsSame self.old self.new) }
        ensures kinds { IfErr result (λ fault. fault ≡ TapeFault.NoMemory) }
        ensures segments { self.new.segments ≡ self.old.segments }
        ensures place { place_of self.new ≡ place_of self.old }
    {
        let spelling = encode(self.alloc, note)?;
        let len = spelling.len();
        self.pending.make_room(len)?;
        let place = self.pending.place_for(self.last, self.next, len);
        match self
            .ledger
            .apply_at(note, place.at, place.slot, place.within)
        {
            Ok(()) => {
                self.pending.push(spelling);
                self.last = place.at;
                self.next = place.next;
                Ok(())
            }
            Err(_) => Err(TapeFault::NoMemory),
        }
    }

    // Takes the legal note that owes a debt, when one more may be pending, or changes nothing.
    fn pend_owe(&mut self, key: Key, token: &Token, id: &MsgId) -> Result<(), TapeFault>
        requires legal { IsLegal (ledger_of self.old) (Note.Owe key token.now id.now) }
        requires room { pending_of self.old < most_pending }
        ensures ok { (h : History) → StandsFor self.old h
            → OnOk result (StandsFor self.new (noted h (Note.Owe key token.now id.now))) }
        ensures ledger { OnOk result (ledger_of self.new
            ≡ step (ledger_of self.old) (Note.Owe key token.now id.now)) }
        ensures pends { OnOk result (pending_of self.new ≡ pending_of self.old + 1) }
        ensures stays { (h : History) → StandsFor self.old h → OnErr result (StandsFor self.new h) }
        ensures unchanged { OnErr result (IsSame self.old self.new) }
        ensures kinds { IfErr result (λ fault. fault ≡ TapeFault.NoMemory) }
        ensures segments { self.new.segments ≡ self.old.segments }
        ensures place { place_of self.new ≡ place_of self.old }
    {
        let octets = encode_owe(self.alloc, key, token, id)?;
        let len = octets.len();
        self.pending.make_room(len)?;
        let place = self.pending.place_for(self.last, self.next, len);
        match self
            .ledger
            .owe_at(key, token, id, place.at, place.slot, place.within)
        {
            Ok(()) => {
                self.pending.push(octets);
                self.last = place.at;
                self.next = place.next;
                Ok(())
            }
            Err(_) => Err(TapeFault::NoMemory),
        }
    }

    /// Takes the notes that drop these debts, in this order, all of them or none; they are pending until the next
    /// flush. If the keys rise, each costs the logarithm of what is owed.
    ///
    /// # Errors
    /// Nothing changes. Tried in this order: `Broken`; `Note(NotOwed)` if one of them is not owed, or is named twice;
    /// `PendingFull` if more than 65,536 notes would be pending; `NoMemory`.
    pub fn drop_all(&mut self, keys: &[Key], cause: Cause) -> Result<(), TapeFault>
        ensures takes { (h : History) → StandsFor self.old h
            → Takes (drops cause keys.now) h self.new result }
        ensures legal { OnOk result (AllLegal (ledger_of self.old) (drops cause keys.now)) }
        ensures ledger { OnOk result
            (ledger_of self.new ≡ after (ledger_of self.old) (drops cause keys.now)) }
        ensures pends { OnOk result
            (pending_of self.new ≡ pending_of self.old + length keys.now) }
        ensures refuses { RefusesDrops keys.now self.old self.new result }
        ensures disks { disks_of self.new ≡ disks_of self.old }
        ensures works { IsBroken self.old ↔ IsBroken self.new }
        ensures place { place_of self.new ≡ place_of self.old }
    {
        if self.segments.live.is_broken() {
            return Err(TapeFault::Broken);
        }
        if !self.owes_all(keys) {
            return Err(TapeFault::Note(LedgerFault::NotOwed));
        }
        if keys.len() > self.room() {
            return Err(TapeFault::PendingFull);
        }
        self.pend_drops(keys, cause)
    }

    // Whether each of these is owed, and none is named twice.
    fn owes_all(&self, keys: &[Key]) -> bool
        ensures { IsTrue result ↔ AreOwed (ledger_of self.now) [] keys.now }
    {
        let mut greatest = Key::new(0, 0);
        for index in 0..keys.len() {
            let key = keys[index];
            if is_among(&keys[..index], key, greatest) || !self.ledger.owes(key) {
                return false;
            }
            greatest = greatest.greater(key);
        }
        true
    }

    // Takes the drops of debts that are owed, when that many may be pending, or changes nothing.
    fn pend_drops(&mut self, keys: &[Key], cause: Cause) -> Result<(), TapeFault>
        requires owed { AreOwed (ledger_of self.old) [] keys.now }
        requires room { pending_of self.old + length keys.now ≤ most_pending }
        ensures ok { (h : History) → StandsFor self.old h
            → OnOk result (StandsFor self.new (noted_all h (drops cause keys.now))) }
        ensures legal { OnOk result (AllLegal (ledger_of self.old) (drops cause keys.now)) }
        ensures ledger { OnOk result
            (ledger_of self.new ≡ after (ledger_of self.old) (drops cause keys.now)) }
        ensures pends { OnOk result
            (pending_of self.new ≡ pending_of self.old + length keys.now) }
        ensures stays { (h : History) → StandsFor self.old h → OnErr result (StandsFor self.new h) }
        ensures unchanged { OnErr result (IsSame self.old self.new) }
        ensures kinds { IfErr result (λ fault. fault ≡ TapeFault.NoMemory) }
        ensures segments { self.new.segments ≡ self.old.segments }
        ensures place { place_of self.new ≡ place_of self.old }
    {
        let ends = self
            .pending
            .push_drops(self.alloc, keys, cause, self.last, self.next)?;
        self.last = ends.0;
        self.next = ends.1;
        // All that was taken is a sum with what was dropped, so no count passes the greatest number.
        let _taken = taken_of(&self.ledger);
        apply_drops(&mut self.ledger, keys, cause);
        Ok(())
    }

    /// Puts the pending notes on the disk: from `Ok` on all notes are acknowledged. Returns the tape's place, and how
    /// many notes of this opening are acknowledged now, or the greatest u64 if that is less. If nothing is pending, it
    /// makes no disk call. Linear in what is pending.
    ///
    /// # Errors
    /// Tried in this order: `Broken`; `TapeFull`; `NoMemory`; these change nothing. `Disk`: the tape is broken from now
    /// on.
    pub fn flush(&mut self) -> Result<Flushed, TapeFault>
        ensures flushes { (h : History) → StandsFor self.old h
            → Flushes TapeFault.Disk h self.old self.new result }
        ensures ok { IfOk result (HasFlushed (place_of self.old) self.old self.new) }
        ensures empty { pending_of self.old ≡ 0 → self.new ≡ self.old }
        ensures empty_ok { pending_of self.old ≡ 0 → (IsBroken self.old → ⊥) → IsOk result }
        ensures refuses { RefusesFlush self.old self.new result }
        ensures ledger { ledger_of self.new ≡ ledger_of self.old }
        ensures continues { Continues self.old self.new }
        ensures quiet { OnOk result (faults_of self.new ≡ faults_of self.old) }
    {
        if self.segments.live.is_broken() {
            return Err(TapeFault::Broken);
        }
        if self.nothing_pends() {
            return Ok(Flushed::of(self.place, self.flushed));
        }
        self.flush_pending()
    }

    fn nothing_pends(&self) -> bool
        ensures { IsTrue result ↔ pending_of self.now ≡ 0 }
    {
        self.pending.count == 0
    }

    // Puts the pending notes on the disk, when there are some and the tape is not broken.
    fn flush_pending(&mut self) -> Result<Flushed, TapeFault>
        requires works { IsBroken self.old → ⊥ }
        requires pends { pending_of self.old ≢ 0 }
        ensures flushes { (h : History) → StandsFor self.old h
            → Flushes TapeFault.Disk h self.old self.new result }
        ensures ok { IfOk result (HasFlushed (place_of self.old) self.old self.new) }
        ensures refuses { RefusesFlush self.old self.new result }
        ensures ledger { ledger_of self.new ≡ ledger_of self.old }
        ensures continues { Continues self.old self.new }
        ensures quiet { OnOk result (faults_of self.new ≡ faults_of self.old) }
    {
        match self.segments.live.append_all(self.pending.payloads()) {
            Ok(()) => {
                self.flushed = self.flushed.saturating_add(self.pending.count as u64);
                self.pending.clear();
                Ok(Flushed::of(self.place, self.flushed))
            }
            Err(fault) => Err(append_fault(fault)),
        }
    }

    /// Whether a rotation is due: the live segment is longer than 65,536 octets, and than four times what a rotation
    /// would write. In constant time.
    pub fn rotate_due(&self) -> bool
        ensures { IsTrue result ↔ IsDue self.now }
    {
        let bytes = self.segments.live.bytes();
        bytes > LONG_SEGMENT_OCTETS && bytes > self.rotated_len().saturating_mul(4)
    }

    // How long the segment is that a rotation writes, in octets, or more than any disk.
    pub(crate) fn rotated_len(&self) -> u64
        ensures { result ≡ min (rotated_length self.now) (2 ^ 64 - 1) }
    {
        self.ledger.written_len().saturating_add(1)
    }

    /// Writes the ledger, with the pending notes in it, into the other segment, which is live from then on: from `Ok`
    /// on all notes are acknowledged, and none is pending. Its first gate opens last, so until then the old segment,
    /// which is not written, stays live. Returns the new generation. Linear in what is owed.
    ///
    /// # Errors
    /// Tried in this order: `Broken`; `GenerationFull`; `TapeFull`; `NoMemory`; these change nothing. `Disk`, also if a
    /// note that was read back is not that of its debt: the tape is broken from now on.
    pub fn rotate(&mut self) -> Result<u64, TapeFault>
        ensures rotates { (h : History) → StandsFor self.old h
            → Rotates TapeFault.Disk h self.old self.new result }
        ensures generation { IfOk result (λ n. (n ≡ generation_of self.old + 1)
            × (generation_of self.new ≡ n)) }
        ensures none_pends { OnOk result (pending_of self.new ≡ 0) }
        ensures refuses { RefusesRotation self.old self.new result }
        ensures ledger { ledger_of self.new ≡ ledger_of self.old }
        ensures continues { Continues self.old self.new }
        ensures quiet { OnOk result (faults_of self.new ≡ faults_of self.old) }
    {
        if self.segments.live.is_broken() {
            return Err(TapeFault::Broken);
        }
        if self.segments.generation == u64::MAX {
            return Err(TapeFault::GenerationFull);
        }
        if self.rotated_len() > SEGMENT_MAX_OCTETS {
            return Err(TapeFault::TapeFull);
        }
        self.rewrite()
    }

    /// Gives the tape a place among the tapes of other peers. What each flush returns names it from now on, so that a
    /// caller knows which tape was flushed. Nothing else changes.
    pub fn placed(&mut self, place: usize)
        ensures place { place_of self.new ≡ Some place }
        ensures stands { (h : History) → StandsFor self.old h ↔ StandsFor self.new h }
        ensures same { IsSame self.old self.new }
        ensures disks { disks_of self.new ≡ disks_of self.old }
        ensures works { IsBroken self.old ↔ IsBroken self.new }
    {
        self.place = Some(place);
    }

    /// Its place among the tapes of other peers, `None` until it is given one.
    pub fn place(&self) -> Option<usize>
        ensures { result ≡ place_of self.now }
    {
        self.place
    }

    /// How many notes of this opening are acknowledged, or the greatest u64 if that is less: what a flush returns that
    /// has nothing to write. A broken tape answers too.
    pub fn flushed(&self) -> u64
        ensures flushed { result ≡ flushed_of self.now }
        ensures count { (h : History) → StandsFor self.now h
            → result ≡ min (h.kept - h.opened) (2 ^ 64 - 1) }
    {
        self.flushed
    }

    /// What the debt of this key counts in owed bytes, if it is owed: the octets of token and message-id, plus 2. Takes
    /// no memory, and a broken tape answers too. Logarithmic in what is owed.
    pub fn octets(&self, key: Key) -> Option<u64>
        ensures octets { result ≡ option_map (λ (owing : Owing). line_octets owing.1.0 owing.1.1)
            (find (λ (owing : Owing). owing.0 == key) (ledger_of self.now).debts) }
        ensures owed { IsSome result ↔ IsOwed (ledger_of self.now) key }
    {
        let spot = self.ledger.spot(key)?;
        Some(u64::from(spot.token_len) + u64::from(spot.id_len) + 2)
    }

    /// Whether the debt of this key is owed. Logarithmic in what is owed.
    pub fn owes(&self, key: Key) -> bool
        ensures { IsTrue result ↔ IsOwed (ledger_of self.now) key }
    {
        self.ledger.owes(key)
    }

    /// Whether a flush or a rotation failed on a disk, so that the tape has to be opened again.
    pub fn is_broken(&self) -> bool
        ensures { IsTrue result ↔ IsBroken self.now }
    {
        self.segments.live.is_broken()
    }

    /// The keys that are owed, rising.
    ///
    /// # Errors
    /// `NoMemory` if memory was refused.
    pub fn keys(&self) -> Result<Vec<Key>, AllocError>
        ensures items { IfOk result (λ v. v.items ≡ keys (ledger_of self.now)) }
        ensures rising { IfOk result (λ v. IsStrictlyIncreasing v.items) }
    {
        self.ledger.keys(self.alloc)
    }

    /// What its ledger has apart from texts, with ordinal 0 for each debt. A broken tape answers too. Linear in what is
    /// owed.
    ///
    /// # Errors
    /// `NoMemory` if memory was refused.
    pub fn outline(&self) -> Result<Outline, AllocError>
        ensures { IfOk result (λ outline. shape_in outline ≡ shape_of (ledger_of self.now)) }
    {
        Outline::of(self.alloc, &self.ledger)
    }

    /// The greatest number of a funnel line that was noted, 0 at first.
    pub fn mark(&self) -> u64
        ensures { result ≡ (ledger_of self.now).mark }
    {
        self.ledger.mark()
    }

    /// The source that was closed last, 0 at first: the next one is open.
    pub fn closed(&self) -> u32
        ensures closed { result ≡ (ledger_of self.now).closed }
        ensures fits { result + 1 < 2 ^ 32 }
    {
        self.ledger.closed()
    }

    /// The greatest number that was noted of the open source, 0 at first.
    pub fn import_mark(&self) -> u64
        ensures { result ≡ (ledger_of self.now).import_mark }
    {
        self.ledger.import_mark()
    }

    /// What was taken, answered and dropped, and what is owed: taken = owed + answered + dropped.
    pub fn totals(&self) -> Totals
        ensures counts { result ≡ totals_of (ledger_of self.now) }
        ensures sum { result.taken ≡ result.owed + result.answered + result.dropped }
    {
        self.ledger.totals()
    }

    /// How many more notes may be pending.
    pub fn room(&self) -> usize
        ensures { result + pending_of self.now ≡ most_pending }
    {
        PENDING_MAX_NOTES - self.pending.count
    }

    /// The disks, the first and the second. Pending notes are gone; a stop leaves of the disks what it could leave of
    /// the tape.
    pub fn into_disks(self) -> (D, D)
        ensures disks { result ≡ disks_of self }
        ensures faults { (D.faults_of result.0, D.faults_of result.1) ≡ faults_of self }
        ensures survives { (h : History) → StandsFor self h → D.honest result.0 × D.honest result.1
            × EachTape (Survives h) (D.log result.0, D.log result.1) }
    {
        let Tape { segments, .. } = self;
        let TapeSegments {
            live,
            other,
            second,
            ..
        } = segments;
        if second {
            (other, live.into_disk())
        } else {
            (live.into_disk(), other)
        }
    }
}

// Whether the key is one of these, none of which is above the greatest: a key above it is not looked for.
fn is_among(keys: &[Key], key: Key, greatest: Key) -> bool
    requires { All (λ k. k ≤ greatest) keys.now }
    ensures { IsTrue result ↔ Contains keys.now key }
{
    !greatest.is_below(key) && keys.contains(&key)
}

// Drops these debts, each of which is owed in its turn. A drop takes no memory.
fn apply_drops(ledger: &mut Ledger, keys: &[Key], cause: Cause)
    requires { AllLegal (state_of ledger.old) (drops cause keys.now) }
    ensures ledger { state_of ledger.new ≡ after (state_of ledger.old) (drops cause keys.now) }
    ensures indexes { (kept : ℕ) (payloads : List (List ℕ)) → Indexes kept payloads ledger.old
        → Indexes kept payloads ledger.new }
{
    for key in keys {
        let drop = Note::Drop { key: *key, cause };
        let _ = ledger.apply_at(&drop, 0, 0, 0);
    }
}

pub(crate) fn end_of<D: Disk>(journal: &Journal<D>) -> u64
    ensures { result ≡ journal_end journal.now }
{
    journal.bytes() - 1
}

fn taken_of(ledger: &Ledger) -> u64
    ensures { result ≡ (state_of ledger.now).answered + (state_of ledger.now).dropped
        + length (state_of ledger.now).debts }
{
    let totals = ledger.totals();
    totals.taken
}
