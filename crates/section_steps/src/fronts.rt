//! What is done under a front's lock.
ghost use Rattle.std.specs.Prelude.{◌≡◌, ◌<◌, ℕ, Bool, List, [], Result, map, true};
ghost use Rattle.conn_core.specs.declared.outcome.Outcome.{Outcome};
ghost use Rattle.flusher.specs.Shares.{FeederCount};
ghost use Rattle.flusher.specs.declared.fault.PostFault.{PostFault};
ghost use Rattle.ledger_core.specs.State.{Owing};
ghost use Rattle.ledger_core.specs.declared.note.Note.{Note};
ghost use Rattle.ledger_core.specs.declared.note.Note.TheVariants.{Owe};
ghost use Rattle.note_queue.specs.declared.sender.Sender.{Sender};
ghost use Rattle.peer_queue.specs.Settled.{key_in};
ghost use Rattle.peer_queue.specs.declared.fault.StationFault.{StationFault};
ghost use Rattle.peer_queue.specs.declared.limits.Shed.{Shed};
ghost use Rattle.peer_queue.specs.declared.settled.Settled.{Settled};
ghost use Rattle.recovery.specs.declared.flushed.Flushed.{Flushed};
ghost use Rattle.sections.specs.Sections.Section.{Notes, Sends};
ghost use Rattle.section_steps.specs.At.{DoesThere, LearnsThere, Spot, StandsThere, cut_if};
ghost use Rattle.section_steps.specs.Ends.{AreOnTape};
ghost use Rattle.section_steps.specs.FrontClauses.{SaysFail, SaysFinish, SaysKeep, SaysLearn};
ghost use Rattle.section_steps.specs.FrontClauses.{SaysMove, SaysSend, SaysShed, SaysTake};
ghost use Rattle.section_steps.specs.FrontWords.{ended_notes, shed_notes, taken_notes};

use disk_model::Disk;

/// A line above the front's mark is one section `Notes`, of a number above the one that is shown; any other, or one
/// that is refused, is none.
pub fn a_line_taken_is_noted<D: Disk>()
    ensures { (at : Spot) (old new : Sender) (peer books mark number : ℕ) (token id : List ℕ)
        (result : Result (Unit {0}) PostFault) → StandsThere at old
        → SaysTake peer books mark number token id old new result → at.last < number
        → DoesThere D.Disk at
        (map (Notes at.rank) (taken_notes mark number (Owe number token id) result)) [] new }
{}

/// An outcome that ends its debt is one section `Notes`; any other, or one that is refused, is none.
pub fn an_end_is_noted<D: Disk>()
    ensures { (at : Spot) (old new : Sender) (connection now : ℕ) (outcome : Outcome)
        (before after : FeederCount) (result : Result Settled (Outcome × StationFault))
        → StandsThere at old → SaysFinish connection now outcome old new before after result
        → DoesThere D.Disk at (map (Notes at.rank) (ended_notes (key_in outcome) result)) [] new }
{}

/// Each debt that is shed is one section `Notes`.
pub fn each_shed_debt_is_noted<D: Disk>()
    ensures { (at : Spot) (old new : Sender) (before after : ℕ) (result : Result Shed StationFault)
        → StandsThere at old → SaysShed old new before after result
        → DoesThere D.Disk at (map (Notes at.rank) (shed_notes result)) [] new }
{}

/// Claims, releases and waits are no section.
pub fn places_are_not_noted<D: Disk>()
    ensures keeps { (at : Spot) (old new : Sender) → StandsThere at old → SaysKeep old new
        → DoesThere D.Disk at [] [] new }
    ensures puts_off { (at : Spot) (old new : Sender)
        (result : Result (Unit {0}) (Owing × StationFault))
        → StandsThere at old → SaysMove old new result → DoesThere D.Disk at [] [] new }
    ensures gives_back { (at : Spot) (old new : Sender) (result : Result (Unit {0}) StationFault)
        → StandsThere at old → SaysMove old new result → DoesThere D.Disk at [] [] new }
{}

/// Each note that is sent is one section `Sends`, in their order. The queue holds them after what it held.
pub fn each_push_is_sent<D: Disk>()
    ensures { (at : Spot) (old new : Sender) → StandsThere at old → (says : SaysSend old new)
        → DoesThere D.Disk at (map (λ (note : Note). Sends at.rank) says.sends.more)
        says.sends.more new }
{}

/// What a flush has put on the disks is learnt in one section `Learns`, and so many notes are settled then. A flush of
/// another tape, or of more than was sent, is none.
pub fn a_flush_is_learnt<D: Disk>()
    ensures { (at : Spot) (old new : Sender) (flushed : Flushed) (result : Bool)
        → StandsThere at old → AreOnTape flushed.count at.was → SaysLearn flushed old new result
        → LearnsThere D.Disk at flushed.count result new }
{}

/// A front is cut off in one section `Cuts_off`, if its tape broke.
pub fn a_broken_tape_cuts_off<D: Disk>()
    ensures { (at : Spot) (old new : Sender) (has_broken : Bool) → StandsThere at old
        → (has_broken ≡ true → at.was.tape.broken ≡ true) → SaysFail has_broken old new
        → DoesThere D.Disk at (cut_if at has_broken) [] new }
{}
