//! Laws of stations. Each is the contract of a function that does what the law is about.
ghost use Rattle.std.specs.Prelude.{◌≡◌, ◌≢◌, ◌↔◌, ◌≤◌, ◌+◌, ◌-◌, ◌^◌, ℕ, length};
ghost use Rattle.std.specs.Prelude.{IfErr, IfOk};
ghost use Rattle.ledger_core.specs.Shape.{keys_sized};
ghost use Rattle.ledger_core.specs.State.{keys};
ghost use Rattle.recovery.specs.Image.{EachTape, Survives};
ghost use Rattle.recovery.specs.Notes.{History, recovered};
ghost use Rattle.recovery.specs.Words.{OneHasRisen};
ghost use Rattle.peer_queue.specs.DebtPlace.{AreRising, all_ready, placed};
ghost use Rattle.peer_queue.specs.Front.{front_shape, places_of as front_places};
ghost use Rattle.peer_queue.specs.Refusals.{Tells};
ghost use Rattle.peer_queue.specs.Words.{IsBroken, StandsFor, ledger_of, faults_of, limits_of, pending_of};
ghost use Rattle.peer_queue.specs.Words.{places_of};

use crate::fault::station_fault;
use crate::{Front, Station, StationFault};
use disk_model::Disk;
use ledger_core::Key;
use recovery::{RefusedTape, TapeFault};
use std::alloc::Global;

/// Each key that is owed has one place, and no other key has any.
pub fn each_number_has_one_place<D: Disk>(station: &Station<D>)
    ensures placed { placed (places_of station.now) ≡ keys (ledger_of station.now) }
    ensures rising { AreRising (places_of station.now) }
{
    let _ = station.index.unheld_from(Key::new(0, 0));
}

/// The same of a front: each key that is owed has one place, and no other key has any.
pub fn each_number_has_one_place_at(front: &Front)
    ensures placed { placed (front_places front.now) ≡ keys_sized (front_shape front.now).sizes }
    ensures rising { AreRising (front_places front.now) }
{
    let _ = front.index.unheld_from(Key::new(0, 0));
}

/// A station whose flush answered Ok owes the same once its disks are opened again, and all of it is ready.
///
/// # Errors
/// Those of `flush`, then those of `open`. The disks are handed back: a stop leaves of them a tape of the ledger after
/// the first of the notes, with every note that was acknowledged before.
pub fn reopened<D: Disk>(
    alloc: Global,
    mut station: Station<D>,
) -> Result<Station<D>, ((D, D), StationFault)>
    ensures stands { (h : History) → StandsFor station h
        → IfOk result (λ opened. StandsFor opened (recovered h (length h.notes))) }
    ensures ledger { (h : History) → StandsFor station h
        → IfOk result (λ opened. ledger_of opened ≡ ledger_of station) }
    ensures ready { (h : History) → StandsFor station h
        → IfOk result (λ opened. places_of opened ≡ all_ready (keys (ledger_of station))) }
    ensures fresh { IfOk result (λ opened. (IsBroken opened → ⊥) × (pending_of opened ≡ 0)
        × (limits_of opened ≡ limits_of station)) }
    ensures broken { Tells result StationFault.Broken ↔ IsBroken station }
    ensures survives { (h : History) → StandsFor station h → IfErr result (λ e. D.honest e.0.0
        × D.honest e.0.1 × EachTape (Survives h) (D.log e.0.0, D.log e.0.1)) }
    ensures undamaged { (h : History) → StandsFor station h
        → IfErr result (λ e. (segment at : ℕ)
        → e.1 ≢ StationFault.Tape (TapeFault.Damaged segment at)) }
    ensures cause { (h : History) → StandsFor station h → IfErr result (λ e.
        e.1 ≡ StationFault.Tape TapeFault.Disk
        → OneHasRisen (faults_of station) (D.faults_of e.0.0, D.faults_of e.0.1)) }
{
    let limits = station.limits;
    if let Err(fault) = station.flush() {
        return Err((station.into_disks(), fault));
    }
    let (a, b) = station.into_disks();
    match Station::open(alloc, a, b, limits) {
        Ok(opened) => Ok(opened),
        Err(RefusedTape { a, b, fault }) => Err(((a, b), station_fault(fault))),
    }
}
