// What the queue still holds, once the passes are one.
ghost use Rattle.std.specs.Prelude.{◌≡◌, ◌++◌, ◌≤◌, [], List, true, length};
ghost use Rattle.std.specs.Vec.{vec_capacity};
ghost use Rattle.crossbeam_queue.specs.Passes.{view, IsSamePass, IsPassOf, ruled_capacity};

use crate::rule::{NotePass, NoteQueue, SeesBoth};
use ledger_core::Note;
use std::sync::Wait;

// Takes out the notes that the queue holds, into a Vec with room for all that it may hold. What was sent is what was
// received before, followed by these.
pub(crate) fn drained<R: Wait>(
    rt: &R,
    queue: &NoteQueue,
    pass: &mut NotePass,
    queued: Vec<Note>,
) -> Vec<Note>
    requires queue { IsPassOf queue.now pass.old }
    requires roles { ((view pass.old).pushes ≡ true) × ((view pass.old).pops ≡ true) }
    requires none { queued.items ≡ [] }
    requires room { ruled_capacity queue.now ≤ vec_capacity queued }
    ensures queue { IsSamePass pass.old pass.new }
    ensures all { (view pass.old).sent ≡ (view pass.old).got ++ result.items }
{
    let mut notes = queued;
    let count = queue.len_as::<SeesBoth, R>(rt, pass);
    for _ in 0..count {
        match queue.pop_as::<SeesBoth, R>(rt, pass) {
            Some(note) => notes.push_reserved(note),
            None => return notes,
        }
    }
    queue.learn_as::<SeesBoth>(pass);
    notes
}
