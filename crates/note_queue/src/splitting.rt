// A station becomes the two ends of a queue: its front sends, and its tape has a side.
ghost use Rattle.std.specs.Prelude.{◌≡◌, [], IfErr, IfOk, None};
ghost use Rattle.crossbeam_queue.specs.Passes.{view, IsPassOf};
ghost use Rattle.peer_queue.specs.Front.{IsFrontOf, IsPlaced, settled_of};
ghost use Rattle.peer_queue.specs.Words.{IsBroken, ledger_of, pending_of, tape_of};
ghost use Rattle.note_queue.specs.Owns.{IsKept};
ghost use Rattle.note_queue.specs.Relay.{IsAt, begun, may_pop, may_push};
ghost use Rattle.note_queue.specs.Words.{since_of};

use crate::rule::{NotePass, NoteQueue, split_pass};
use crate::sender::Sender;
use crate::side::Side;
use disk_model::Disk;
use peer_queue::Station;
use std::alloc::AllocError;

/// Splits a station, of which no note pends, into its front with the pass that sends, and its tape with the pass that
/// receives, at this place among those of other peers. Both passes are made of this one, the only pass of the queue,
/// to which nothing was sent yet. Linear in what is owed.
///
/// # Errors
/// `NoMemory`: the station is handed back as it was.
pub fn split<D: Disk>(
    queue: &NoteQueue,
    pass: NotePass,
    station: Station<D>,
    place: usize,
) -> Result<(Sender, Side<D>), (Station<D>, AllocError)>
    requires pass { IsPassOf queue.now pass × (view pass ≡ begun) }
    requires flushed { (IsBroken station → ⊥) × (pending_of station ≡ 0) }
    requires kept { ∥ IsKept (tape_of station) ∥₁ }
    ensures queue { IfOk result (λ ends. IsAt queue.now ends.0.pass × IsAt queue.now ends.1.pass) }
    ensures passes { IfOk result (λ ends. (view ends.0.pass ≡ may_push (ledger_of station) [])
        × (view ends.1.pass ≡ may_pop (ledger_of station) [])) }
    ensures front { IfOk result (λ ends. IsFrontOf place station ends.0.front) }
    ensures tape { IfOk result (λ ends. IsPlaced place (tape_of station) ends.1.tape
        × (ends.1.kept ≡ None)) }
    // The side counts from where the front does.
    ensures since { IfOk result (λ ends. since_of ends.1 ≡ settled_of ends.0.front) }
    ensures returned { IfErr result (λ e. e.0 ≡ station) }
{
    let mut sends = pass;
    let (front, tape) = station.split(place)?;
    let gets = split_pass(queue, &mut sends, &tape);
    let side = Side::new(tape, gets);
    Ok((Sender { front, pass: sends }, side))
}
