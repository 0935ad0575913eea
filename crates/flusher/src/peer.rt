// The peers of a post, before and after.
ghost use Rattle.std.specs.Prelude.{◌≡◌, ◌↔◌, ◌+◌, ◌≤◌, ℕ, IfOk};
ghost use Rattle.std.specs.Prelude.{IfErr, IsOk};
ghost use Rattle.std.specs.Prelude.{MatchResult, Ok, OnOk};
ghost use Rattle.flusher.specs.Flushes.{AcknowledgesOr, RefusesOrRotates};
ghost use Rattle.flusher.specs.Kept.{HasAllOnDisks, IsKept};
ghost use Rattle.flusher.specs.Sealed.{IsFlushed};
ghost use Rattle.ledger_core.specs.declared.note.Note.{Note};
ghost use Rattle.peer_queue.specs.Calls.{IsFresh, KeepsDebts, RefusesClose, RefusesOwe};
ghost use Rattle.peer_queue.specs.DebtPlace.{Ready, with_place};
ghost use Rattle.peer_queue.specs.Words.{AreHonest, IsBroken, Notes, ledger_of, open_key, places_of};
ghost use Rattle.peer_queue.specs.Words.{Continues, StandsFor, faults_of, pending_of, tape_of};
ghost use Rattle.recovery.specs.Image.{EachTape, Survives};
ghost use Rattle.recovery.specs.Notes.{History};
ghost use Rattle.recovery.specs.Opens.{HasCause, Opens, OpensWhatSurvives};
ghost use Rattle.recovery.specs.Words.{IsOpenFault, refused_log};
ghost use Rattle.recovery.specs.declared.fault.TapeFault.TheVariants.{Damaged};

use crate::room::flush_or_rotate;
use disk_model::Disk;
use funnel::{MsgId, PeerName, Token};
use peer_queue::{Limits, Owed, Station, StationFault};
use recovery::{RefusedTape, TapeFault};
use std::alloc::Global;

/// How many debts were taken, answered and dropped.
#[derive(Clone, Copy, Debug, PartialEq, Eq)]
pub struct Sums {
    /// By a line.
    pub taken: u64,
    /// Answered by the peer for good.
    pub answered: u64,
    /// Ended by us.
    pub dropped: u64,
}

/// A peer's name, and its station. Only `open` makes one: a station that was opened elsewhere cannot go into a post.
#[derive(Drop)]
pub struct PostPeer<D: Disk> {
    pub name: PeerName,
    /// All that it is owed.
    pub station: Station<D>,
    ghost kept: { ∥ IsKept station ∥₁ },
    ghost on_disks: { HasAllOnDisks station },
}

impl<D: Disk> PostPeer<D> {
    /// A peer whose station is opened from these disks.
    ///
    /// # Errors
    /// The station's; the disks are handed back.
    pub fn open(
        alloc: Global,
        name: PeerName,
        a: D,
        b: D,
        limits: Limits,
    ) -> Result<PostPeer<D>, RefusedTape<D>>
        // Whatever a stop left of a history is opened.
        ensures recovers { (h : History) → D.honest a → D.honest b
            → EachTape (Survives h) (D.log a, D.log b)
            → OpensWhatSurvives (λ peer. tape_of peer.station) h (D.log a, D.log b) result }
        ensures opens { D.honest a → D.honest b
            → Opens (λ peer. tape_of peer.station) (D.log a, D.log b) result }
        ensures causes { D.honest a → D.honest b
            → IfErr result (HasCause (D.log a, D.log b) (D.faults_of a, D.faults_of b)) }
        ensures untouched { D.honest a → D.honest b → IfErr result (λ e. (segment at : ℕ)
            → e.fault ≡ Damaged segment at → refused_log e ≡ (D.log a, D.log b)) }
        ensures kinds { IfErr result (λ e. IsOpenFault e.fault) }
        ensures fresh { IfOk result
            (λ peer. (peer.name ≡ name) × IsFresh limits peer.station) }
        ensures honest { MatchResult result
            (λ peer. (D.honest a × D.honest b) ↔ AreHonest peer.station)
            (λ e. (D.honest a × D.honest b) ↔ (D.honest e.a × D.honest e.b)) }
        ensures quiet { MatchResult result
            (λ peer. faults_of peer.station ≡ (D.faults_of a, D.faults_of b))
            (λ e. (D.faults_of a ≤ D.faults_of e.a) × (D.faults_of b ≤ D.faults_of e.b)) }
    {
        let station = match Station::open(alloc, a, b, limits) {
            Ok(station) => station,
            Err(refused) => return Err(refused),
        };
        Ok(PostPeer { name, station })
    }

    /// Owes it the line of this number of the source that is open (a backlog file), which is ready from now on.
    ///
    /// # Errors
    /// Those of [`Station::import`], in their order. Nothing changes then.
    pub fn import(&mut self, number: u64, token: &Token, id: &MsgId) -> Result<Owed, StationFault>
        ensures already { (result ≡ Ok Owed.Already) ↔ ((IsBroken self.old.station → ⊥)
            × (number ≤ (ledger_of self.old.station).import_mark)) }
        ensures unchanged { result ≡ Ok Owed.Already → self.new.station ≡ self.old.station }
        ensures new { result ≡ Ok Owed.New → Notes self.old.station self.new.station
            (Note.Owe (open_key self.old.station number) token.now id.now) }
        ensures places { result ≡ Ok Owed.New → places_of self.new.station
            ≡ with_place (places_of self.old.station) (open_key self.old.station number) Ready }
        ensures refuses { RefusesOwe (ledger_of self.old.station).import_mark number
            (Note.Owe (open_key self.old.station number) token.now id.now) self.old.station
            self.new.station result }
        ensures name { self.new.name ≡ self.old.name }
    {
        self.station.import(number, token, id)
    }

    /// Closes the source that is open, and returns its number: the next one is open from now on.
    ///
    /// # Errors
    /// Those of [`Station::close_import`], in their order. Nothing changes then.
    pub fn close_import(&mut self) -> Result<u32, StationFault>
        ensures closed { IfOk result (λ source.
            (source ≡ (ledger_of self.old.station).closed + 1)
            × Notes self.old.station self.new.station (Note.Closed source)) }
        ensures places { places_of self.new.station ≡ places_of self.old.station }
        ensures refuses { RefusesClose self.old.station self.new.station result }
        ensures name { self.new.name ≡ self.old.name }
    {
        self.station.close_import()
    }

    /// Puts the notes that pend on the disks. If there is no room for them after what is there, its tape is rewritten,
    /// the notes that pend included.
    ///
    /// # Errors
    /// `Broken`; `NoMemory`; `Tape(TapeFull)` if what it owes is too long even for a rewritten tape, or if its tape has
    /// the greatest generation; `Tape(Disk)`: the station is broken from now on.
    pub fn flush_or_rotate(&mut self) -> Result<(), StationFault>
        ensures flushes { (h : History) → StandsFor self.old.station h
            → AcknowledgesOr (StationFault.Tape TapeFault.Disk) h (tape_of self.old.station)
            (tape_of self.new.station) result }
        ensures flushed { OnOk result (IsFlushed self.new.station) }
        ensures empty { pending_of self.old.station ≡ 0
            → (self.new.station ≡ self.old.station)
            × ((IsBroken self.old.station → ⊥) → IsOk result) }
        ensures refuses { RefusesOrRotates self.old.station self.new.station result }
        ensures keeps { KeepsDebts self.old.station self.new.station }
        ensures continues { Continues self.old.station self.new.station }
        ensures quiet { OnOk result
            (faults_of self.new.station ≡ faults_of self.old.station) }
        ensures name { self.new.name ≡ self.old.name }
    {
        flush_or_rotate(&mut self.station)
    }
}

// What a station counts.
pub(crate) fn counted_at<D: Disk>(station: &Station<D>) -> Sums
    ensures { (result.taken ≡ (ledger_of station.now).taken)
        × (result.answered ≡ (ledger_of station.now).answered)
        × (result.dropped ≡ (ledger_of station.now).dropped) }
{
    let totals = station.totals();
    Sums {
        taken: totals.taken,
        answered: totals.answered,
        dropped: totals.dropped,
    }
}
