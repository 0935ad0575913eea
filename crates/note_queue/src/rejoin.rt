// What is left of a side once its pass and the sender's are one again.
ghost use Rattle.std.specs.Prelude.{◌≡◌, ◌≤◌, ◌++◌, [], true};
ghost use Rattle.std.specs.Vec.{vec_capacity};
ghost use Rattle.crossbeam_queue.specs.Passes.{view, IsPassOf, ruled_capacity};
ghost use Rattle.ledger_core.specs.State.{after};
ghost use Rattle.recovery.specs.Words.{ledger_of};
ghost use Rattle.note_queue.specs.Left.{left_of};
ghost use Rattle.note_queue.specs.Relay.{IsAt};

use crate::drain::drained;
use crate::rule::{NotePass, NoteQueue, SeesBoth, Whole};
use crate::side::Side;
use disk_model::Disk;
use ledger_core::Note;
use recovery::Tape;
use std::sync::Wait;

/// A tape, and the notes that were sent and are not on it.
#[derive(Drop)]
pub struct Left<D: Disk> {
    /// The tape.
    pub tape: Tape<D>,
    /// The note that it refused.
    pub kept: Option<Note>,
    /// What the queue held, oldest first.
    pub queued: Vec<Note>,
}

impl<D: Disk> Side<D> {
    /// Joins the pass that sends to this side's, once nobody else uses the queue. What the queue holds is taken out,
    /// into a Vec that has room for it: it is what was sent and not received, in order and once. The tape's ledger,
    /// followed by the kept note and the queue's, is that of the split followed by all that was sent.
    pub fn join<R: Wait>(
        self,
        rt: &R,
        queue: &NoteQueue,
        sends: NotePass,
        room: Vec<Note>,
    ) -> Left<D>
        requires sends { IsPassOf queue.now sends × ((view sends).pushes ≡ true) }
        requires gets { IsAt queue.now self.pass }
        requires empty { room.items ≡ [] }
        requires room { ruled_capacity queue.now ≤ vec_capacity room }
        ensures order { ((view sends).sent_on ≡ (view self.pass).got_on)
            × ((view sends).sent ≡ (view self.pass).got ++ result.queued.items) }
        ensures folds { after (ledger_of result.tape) (left_of result)
            ≡ after (view sends).sent_on (view sends).sent }
        ensures side { (result.tape ≡ self.tape) × (result.kept ≡ self.kept) }
    {
        let (mut pass, tape, kept) = self.rejoined(queue, sends);
        let queued = drained(rt, queue, &mut pass, room);
        Left { tape, kept, queued }
    }

    // One pass that may push and pop, made of both, and this side's tape and kept note.
    fn rejoined(self, queue: &NoteQueue, sends: NotePass) -> (NotePass, Tape<D>, Option<Note>)
        requires sends { IsPassOf queue.now sends × ((view sends).pushes ≡ true) }
        requires gets { IsAt queue.now self.pass }
        ensures queue { IsPassOf queue.now result.0 }
        ensures roles { ((view result.0).pushes ≡ true) × ((view result.0).pops ≡ true) }
        ensures logs { ((view result.0).sent ≡ (view sends).sent)
            × ((view result.0).got ≡ (view self.pass).got)
            × ((view sends).sent_on ≡ (view self.pass).got_on) }
        ensures side { (result.1 ≡ self.tape) × (result.2 ≡ self.kept) }
    {
        let mut pass = sends;
        let Side {
            tape,
            pass: gets,
            kept,
            ..
        } = self;
        queue.absorb::<Whole>(&mut pass, gets);
        queue.learn_as::<SeesBoth>(&mut pass);
        (pass, tape, kept)
    }
}
