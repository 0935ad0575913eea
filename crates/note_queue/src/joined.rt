// What is left of a peer once its two ends are joined.
ghost use Rattle.std.specs.Prelude.{◌≡◌, ◌≤◌, ◌++◌, []};
ghost use Rattle.std.specs.Vec.{vec_capacity};
ghost use Rattle.crossbeam_queue.specs.Passes.{view, ruled_capacity};
ghost use Rattle.ledger_core.specs.State.{after};
ghost use Rattle.peer_queue.specs.Front.{unsent_of};
ghost use Rattle.recovery.specs.Words.{ledger_of};
ghost use Rattle.note_queue.specs.Folds.{Folds, left_at};
ghost use Rattle.note_queue.specs.Relay.{IsAt};
ghost use Rattle.note_queue.specs.Words.{front_of, kept_of, sending, taking, tape_of};

use crate::rejoin::Left;
use crate::rule::NoteQueue;
use crate::sender::Sender;
use crate::side::Side;
use disk_model::Disk;
use ledger_core::Note;
use peer_queue::Front;
use recovery::Tape;
use std::sync::Wait;

/// A peer's front and tape, and the notes on their way between them.
#[derive(Drop)]
pub struct Joined<D: Disk> {
    /// It still has the notes that were not sent.
    pub front: Front,
    /// Its ledger lacks the notes that are kept or queued here, and those that were not sent.
    pub tape: Tape<D>,
    /// The note that the tape refused, if it refused one.
    pub kept: Option<Note>,
    /// What the queue held, oldest first.
    pub queued: Vec<Note>,
}

/// Joins the two ends of a queue, once nobody else uses it. What the queue holds is taken out, into a Vec that has room
/// for it. The tape's ledger, followed by the kept note, the queue's notes and those that were not sent, is the ledger
/// at the split followed by all notes of the sender, and has the front's shape.
pub fn join<D: Disk, R: Wait>(
    rt: &R,
    queue: &NoteQueue,
    sender: Sender,
    side: Side<D>,
    room: Vec<Note>,
) -> Joined<D>
    requires sends { IsAt queue.now (sending sender) }
    requires gets { IsAt queue.now (taking side) }
    requires empty { room.items ≡ [] }
    requires room { ruled_capacity queue.now ≤ vec_capacity room }
    // What was sent is what was received, followed by what the queue held, in order and once.
    ensures order { ((view (sending sender)).sent_on ≡ (view (taking side)).got_on)
        × ((view (sending sender)).sent ≡ (view (taking side)).got ++ result.queued.items) }
    ensures ledger { after (ledger_of result.tape) (left_at result)
        ≡ after (view (sending sender)).sent_on
        ((view (sending sender)).sent ++ unsent_of result.front) }
    ensures folds { Folds result }
    ensures ends { (result.front ≡ front_of sender) × (result.tape ≡ tape_of side)
        × (result.kept ≡ kept_of side) }
{
    let Sender { front, pass, .. } = sender;
    let Left { tape, kept, queued } = side.join(rt, queue, pass, room);
    Joined {
        front,
        tape,
        kept,
        queued,
    }
}
