// A flush that makes room for itself.
ghost use Rattle.std.specs.Prelude.{◌≡◌, ◌≢◌, ◌↔◌, ◌⊎◌, ◌-◌, ◌^◌};
ghost use Rattle.std.specs.Prelude.{IfErr, IsErrOf, IsOk, IsTrue, OnOk};
ghost use Rattle.flusher.specs.Flushes.{AcknowledgesOr, IsLeftAlone};
ghost use Rattle.flusher.specs.Kept.{IsKept};
ghost use Rattle.flusher.specs.Room.{HasNoRoom};
ghost use Rattle.flusher.specs.Sealed.{IsFlushed};
ghost use Rattle.peer_queue.specs.Calls.{KeepsDebts};
ghost use Rattle.peer_queue.specs.Faults.{IsFlushFault};
ghost use Rattle.peer_queue.specs.Words.{Continues, IsBroken, IsRead, IsSame, StandsFor, faults_of};
ghost use Rattle.peer_queue.specs.Words.{generation_of, pending_of, tape_of};
ghost use Rattle.recovery.specs.Notes.{History};
ghost use Rattle.recovery.specs.Words.{IsFull, RotatesTooLong};

use disk_model::Disk;
use peer_queue::{Station, StationFault};
use recovery::TapeFault;

/// Puts the notes of a station that pend on the disks. If there is no room for them after what is there, much of which
/// may be notes of debts that have long ended, its tape is rewritten, the notes that pend included.
#[tactic(auto, using(crate::proofs::Rotated::left_alone))]
pub(crate) fn flush_or_rotate<D: Disk>(station: &mut Station<D>) -> Result<(), StationFault>
    ensures flushes { (h : History) → StandsFor station.old h
        → AcknowledgesOr (StationFault.Tape TapeFault.Disk) h (tape_of station.old)
        (tape_of station.new) result }
    ensures flushed { OnOk result (IsFlushed station.new) }
    ensures empty { pending_of station.old ≡ 0 → (station.new ≡ station.old)
        × ((IsBroken station.old → ⊥) → IsOk result) }
    ensures broken { IsErrOf result StationFault.Broken ↔ IsBroken station.old }
    ensures full { IsErrOf result (StationFault.Tape TapeFault.TapeFull)
        → HasNoRoom station.old }
    ensures unchanged { IfErr result
        (λ e. e ≢ StationFault.Tape TapeFault.Disk → IsLeftAlone station.old station.new) }
    ensures breaks { IsErrOf result (StationFault.Tape TapeFault.Disk) → IsBroken station.new }
    ensures kinds { IfErr result IsFlushFault }
    ensures keeps { KeepsDebts station.old station.new }
    ensures continues { Continues station.old station.new }
    ensures quiet { OnOk result (faults_of station.new ≡ faults_of station.old) }
    ensures kept { ∥ IsKept station.old ∥₁ → ∥ IsKept station.new ∥₁ }
{
    let flushed = flush_once(station);
    if is_full(&flushed) {
        return rotate_full(station);
    }
    flushed
}

// Whether the tape had no room for what pends.
fn is_full(flushed: &Result<(), StationFault>) -> bool
    ensures { IsTrue result ↔ IsErrOf flushed.now (StationFault.Tape TapeFault.TapeFull) }
{
    matches!(flushed, Err(StationFault::Tape(TapeFault::TapeFull)))
}

// Flushes a station, if there is room for what pends.
fn flush_once<D: Disk>(station: &mut Station<D>) -> Result<(), StationFault>
    ensures flushes { (h : History) → StandsFor station.old h
        → AcknowledgesOr (StationFault.Tape TapeFault.Disk) h (tape_of station.old)
        (tape_of station.new) result }
    ensures flushed { OnOk result (IsFlushed station.new) }
    ensures empty { pending_of station.old ≡ 0 → (station.new ≡ station.old)
        × ((IsBroken station.old → ⊥) → IsOk result) }
    ensures broken { IsErrOf result StationFault.Broken ↔ IsBroken station.old }
    ensures full { IsErrOf result (StationFault.Tape TapeFault.TapeFull)
        → (IsBroken station.old → ⊥) × IsFull (tape_of station.old) }
    ensures unchanged { IfErr result
        (λ e. e ≢ StationFault.Tape TapeFault.Disk → IsSame station.old station.new) }
    ensures breaks { IsErrOf result (StationFault.Tape TapeFault.Disk) → IsBroken station.new }
    ensures kinds { IfErr result IsFlushFault }
    ensures keeps { KeepsDebts station.old station.new }
    ensures continues { Continues station.old station.new }
    ensures quiet { OnOk result (faults_of station.new ≡ faults_of station.old) }
    ensures kept { ∥ IsKept station.old ∥₁ → ∥ IsKept station.new ∥₁ }
{
    match station.flush() {
        Ok(_) => Ok(()),
        Err(fault) => Err(fault),
    }
}

// Rewrites its tape, instead of a flush for which there is no room. The faults are those of a flush.
fn rotate_full<D: Disk>(station: &mut Station<D>) -> Result<(), StationFault>
    ensures flushes { (h : History) → StandsFor station.old h
        → AcknowledgesOr (StationFault.Tape TapeFault.Disk) h (tape_of station.old)
        (tape_of station.new) result }
    ensures flushed { OnOk result (IsFlushed station.new) }
    ensures keeps { KeepsDebts station.old station.new }
    ensures continues { Continues station.old station.new }
    ensures quiet { OnOk result (faults_of station.new ≡ faults_of station.old) }
    ensures kept { ∥ IsKept station.old ∥₁ → ∥ IsKept station.new ∥₁ }
    ensures broken { IsErrOf result StationFault.Broken ↔ IsBroken station.old }
    ensures unchanged { IfErr result
        (λ e. e ≢ StationFault.Tape TapeFault.Disk → IsRead station.old station.new) }
    ensures breaks { IsErrOf result (StationFault.Tape TapeFault.Disk) → IsBroken station.new }
    ensures full { IsErrOf result (StationFault.Tape TapeFault.TapeFull)
        → (generation_of station.old ≡ 2 ^ 64 - 1) ⊎ RotatesTooLong (tape_of station.old) }
    ensures kinds { IfErr result IsFlushFault }
{
    match station.rotate() {
        Ok(_) => Ok(()),
        Err(StationFault::Tape(TapeFault::GenerationFull)) => {
            Err(StationFault::Tape(TapeFault::TapeFull))
        }
        Err(fault) => Err(fault),
    }
}
