//! How a receipt is made, and what is done under the lock of the intake's tape.
ghost use Rattle.std.specs.Prelude.{◌≡◌, ◌+◌, ℕ, List, [], ◌∷◌, ◌++◌, length, Result, Some, true};
ghost use Rattle.std.specs.Prelude.{slice_get};
ghost use Rattle.flusher.specs.Sealed.{HasSettled, IsDoneBelow};
ghost use Rattle.flusher.specs.declared.sealing.Receipt.{Receipt};
ghost use Rattle.ledger_core.specs.declared.note.Note.{Note};
ghost use Rattle.note_queue.specs.Words.{front_of};
ghost use Rattle.note_queue.specs.declared.sender.Sender.{Sender};
ghost use Rattle.recovery.specs.Words.{IsDue};
ghost use Rattle.recovery.specs.declared.fault.TapeFault.{TapeFault};
ghost use Rattle.recovery.specs.declared.tape.Tape.{Tape};
ghost use Rattle.sections.specs.Post.{PostPast, SealingPast, StationPast};
ghost use Rattle.sections.specs.Post.{with_progress, with_sealing};
ghost use Rattle.sections.specs.Post.Progress.{Counted, Due as DueIs};
ghost use Rattle.sections.specs.Sections.{Does, begun_at};
ghost use Rattle.sections.specs.Sections.Section.{Begins, Calls_intake, Counts, Dues};
ghost use Rattle.section_steps.specs.Ends.{AreSettled, HasFewNotes, SenderStands};
ghost use Rattle.section_steps.specs.Receipts.{DoesAtPost, SaysAdd, SaysBegin, SaysDue, SaysRewrite};
ghost use Rattle.section_steps.specs.Receipts.{SaysSeal, SealingSeen, SealingStands, SealsOrNot};
ghost use Rattle.section_steps.specs.TapeSteps.{TapeStands, call_of};

use disk_model::Disk;

/// A sealing begins in one section `Begins`, with the number that is shown.
pub fn a_sealing_begins()
    ensures { (post : PostPast) (last : ℕ) (new : SealingSeen) → post.intake_runs ≡ true
        → last ≡ post.last → SaysBegin last (length post.stations) new
        → Does post Begins (record post {
          sealings = post.sealings
              ++ begun_at post.last (length post.stations) ∷ [];
        })
        × SealingStands post.stations new (begun_at post.last (length post.stations)) }
{}

/// It looks at a front in one section `Dues`: what is due is all that was noted there, as the front counts its notes,
/// if fewer than 2^64 were. A place that was added before is due again then.
pub fn what_is_due_is_all_noted()
    ensures { (post : PostPast) (id rank : ℕ) (past : SealingPast) (station : StationPast)
        (before : List Note) (sender : Sender) (due : ℕ) (old new : SealingSeen)
        → slice_get post.sealings id ≡ Some past → slice_get post.stations rank ≡ Some station
        → SenderStands before sender station → HasFewNotes station
        → SealingStands post.stations old past → SaysDue rank sender due old new
        → Does post (Dues id rank) (with_sealing post id
        (with_progress past rank (DueIs (station.tape.history.opened + due))))
        × SealingStands post.stations new
        (with_progress past rank (DueIs (station.tape.history.opened + due))) }
{}

/// What a front says that it has settled is settled at its station.
pub fn what_a_front_settled_is_settled()
    ensures { (before : List Note) (sender : Sender) (station : StationPast) (count : ℕ)
        → SenderStands before sender station → HasSettled count (front_of sender)
        → AreSettled count station }
{}

/// A place is added in one section `Counts`. It can be added only if this sealing has looked there, and was not added
/// since; and what it found has to be settled.
pub fn a_place_is_counted()
    ensures { (post : PostPast) (id rank : ℕ) (past : SealingPast) (station : StationPast)
        (count : ℕ) (old new : SealingSeen) → slice_get post.sealings id ≡ Some past
        → slice_get post.stations rank ≡ Some station → AreSettled count station
        → SealingStands post.stations old past → SaysAdd rank count old new
        → Does post (Counts id rank) (with_sealing post id (with_progress past rank Counted))
        × SealingStands post.stations new (with_progress past rank Counted) }
{}

/// Its number is noted on the intake's tape in one section `Seals`, once each place is done; a number that is not above
/// the mark needs no note. Then comes one section `Calls_intake`, as at a station. If that is refused, the number may
/// not be noted, and then there is no section.
pub fn a_number_is_sealed<D: Disk>()
    ensures { (post : PostPast) (id : ℕ) (past : SealingPast) (sealing : SealingSeen)
        (old new : Tape D D.Disk) (result : Result Receipt TapeFault)
        → slice_get post.sealings id ≡ Some past → post.intake_runs ≡ true
        → SealingStands post.stations sealing past
        → IsDoneBelow (length post.stations) sealing.places → TapeStands post.intake old
        → SaysSeal sealing.number old new result → SealsOrNot post id new result }
{}

/// A rotation of the intake's tape is one section `Calls_intake`, as at a station; none, if it is not due.
pub fn the_intake_is_rewritten<D: Disk>()
    ensures due { (post : PostPast) (old new : Tape D D.Disk) (result : Result (Unit {0}) TapeFault)
        → post.intake_runs ≡ true → TapeStands post.intake old → IsDue old
        → SaysRewrite old new result
        → DoesAtPost post (Calls_intake (call_of result)) (λ later. TapeStands later.intake new) }
    ensures not_due { (post : PostPast) (old new : Tape D D.Disk)
        (result : Result (Unit {0}) TapeFault) → TapeStands post.intake old
        → (IsDue old → ⊥) → SaysRewrite old new result → TapeStands post.intake new }
{}
