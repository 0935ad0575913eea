//! How the two ends of a peer's queue begin, and how they end.
ghost use Rattle.std.specs.Prelude.{◌≡◌, ℕ, List, ◌++◌};
ghost use Rattle.crossbeam_queue.specs.Passes.{view};
ghost use Rattle.flusher.specs.Sealed.{IsFlushed};
ghost use Rattle.flusher.specs.Split.{IsSplitOf};
ghost use Rattle.flusher.specs.declared.front_desk.FrontDesk.{FrontDesk};
ghost use Rattle.flusher.specs.declared.tape_desk.TapeDesk.{TapeDesk};
ghost use Rattle.ledger_core.specs.declared.note.Note.{Note};
ghost use Rattle.note_queue.specs.Words.{sending, taking};
ghost use Rattle.note_queue.specs.declared.joined.Joined.{Joined};
ghost use Rattle.note_queue.specs.declared.sender.Sender.{Sender};
ghost use Rattle.note_queue.specs.declared.side.Side.{Side};
ghost use Rattle.peer_queue.specs.Words.{StandsFor};
ghost use Rattle.peer_queue.specs.declared.station.Station.{Station};
ghost use Rattle.recovery.specs.Notes.{History};
ghost use Rattle.sections.specs.Post.{StationPast};
ghost use Rattle.section_steps.specs.Ends.{EndStands, SenderStands};
ghost use Rattle.section_steps.specs.Split.{AreFew, BeginsAt, IsLeftOf, SaysJoin};

use disk_model::Disk;
use flusher::Naming;

/// A station that was just split, of which nothing pends, is one as a run of sections begins with.
pub fn a_split_begins<D: Disk, N: Naming>()
    ensures { (place : ℕ) (station : Station D D.Disk) (front : FrontDesk N N.Naming)
        (tape : TapeDesk D N D.Disk N.Naming) (h : History) → StandsFor station h
        → IsFlushed station → AreFew h → IsSplitOf place station front tape
        → BeginsAt h front.seat.sender tape.side }
{}

/// Whenever both ends stand for a station, what was sent is what was received, followed by what the queue holds.
pub fn what_was_sent_is_there<D: Disk>()
    ensures { (before : List Note) (sender : Sender) (side : Side D D.Disk) (items : List Note)
        (station : StationPast) → SenderStands before sender station
        → EndStands before side items station
        → (view (sending sender)).sent ≡ (view (taking side)).got ++ items }
{}

/// Once they are joined, the tape and the notes that are left stand for the station.
pub fn joined_ends_stand<D: Disk>()
    ensures { (before : List Note) (sender : Sender) (side : Side D D.Disk) (items : List Note)
        (station : StationPast) (joined : Joined D D.Disk) → SenderStands before sender station
        → EndStands before side items station → SaysJoin sender side joined
        → IsLeftOf station joined }
{}
