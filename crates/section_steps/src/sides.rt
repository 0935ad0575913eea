//! What is done under a tape's lock.
ghost use Rattle.std.specs.Prelude.{ℕ, List, [], ◌∷◌, Result, map};
ghost use Rattle.ledger_core.specs.declared.note.Note.{Note};
ghost use Rattle.note_queue.specs.declared.side.Side.{Side};
ghost use Rattle.recovery.specs.declared.fault.TapeFault.{TapeFault};
ghost use Rattle.recovery.specs.declared.flushed.Flushed.{Flushed};
ghost use Rattle.sections.specs.Sections.Call.{Reads};
ghost use Rattle.sections.specs.Sections.Section.{Calls, Pulls};
ghost use Rattle.section_steps.specs.At.{EndsThere, FlushesThere, PutsThere, SideDoesThere, Spot};
ghost use Rattle.section_steps.specs.SideClauses.{IsPopped, SaysFlush, SaysPull, SaysRead};
ghost use Rattle.section_steps.specs.SideClauses.{SaysRotate};

use disk_model::Disk;

/// Each note that is put on a tape is one section `Pulls`, in the order of the queue. A note that the tape refuses is
/// kept, and goes before what the queue holds: of these two the station's queue is made up.
pub fn each_note_put_is_pulled<D: Disk>()
    ensures { (at : Spot) (old new : Side D D.Disk) (items left : List Note)
        → EndsThere at old items → (says : SaysPull old new) → IsPopped old items new left
        → SideDoesThere at (map (λ (note : Note). Pulls at.rank) says.puts.more) new left }
{}

/// A flush, and a rotation, is one section `Calls`: `Puts` at Ok, `Breaks` if a disk failed, and `Reads` at any other
/// refusal. So many notes as the flush counts are on the disks then; and the tape is broken if the fault says so.
pub fn a_flush_is_a_call<D: Disk>()
    ensures flush { (at : Spot) (old new : Side D D.Disk) (items : List Note)
        (result : Result Flushed TapeFault) → EndsThere at old items → SaysFlush old new result
        → FlushesThere at new items result }
    ensures rotate { (at : Spot) (old new : Side D D.Disk) (items : List Note)
        (result : Result ℕ TapeFault) → EndsThere at old items → SaysRotate old new result
        → PutsThere at new items result }
{}

/// Debts that are read back are one section `Calls Reads`, also if that is refused.
pub fn a_read_is_a_call<D: Disk>()
    ensures { (at : Spot) (old new : Side D D.Disk) (items : List Note)
        → EndsThere at old items → SaysRead old new
        → SideDoesThere at (Calls at.rank Reads ∷ []) new items }
{}
