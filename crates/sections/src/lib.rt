//! What holds of a run of the feeder's threads, in whatever order their steps come: whatever a stop leaves of each
//! peer's tape, at each moment, is the tape of a prefix of its notes with every acknowledged one in it; and what an
//! acknowledged line made at its peers is acknowledged there, and stays owed until it has ended.
//!
//! Runs nothing: each function has an empty body, and its contract is a law on the definitions of `specs/`. A run is a
//! list of *sections* (`specs/Sections.antt`): what is done under one lock, or by one atomic step of a queue or of the
//! number that is shown. The crates above cite these laws, and the definitions of `specs/Tapes.antt`.
#![tactic(auto)]

ghost use Rattle.std.specs.Prelude.{List};
ghost use Rattle.sections.specs.Funnel.{FunnelIsOwed, FunnelIsOwedWithin, OverFunnels, ReceiptsAreOwed};
ghost use Rattle.sections.specs.Laws.{AllAreRecovered, AllMomentsAreRecovered, AllStayAcknowledged};
ghost use Rattle.sections.specs.Laws.{IsBegun, LinesAreAcknowledged, LinesAreKept, OverRuns};
ghost use Rattle.sections.specs.Laws.{SealedLinesAreAcknowledged};
ghost use Rattle.sections.specs.Post.{PostPast};
ghost use Rattle.sections.specs.Sound.{IsSafe, IsSound};

/// A post that was just made is sound, and whatever a stop leaves then is safe (`begins`). Any sections keep it so, in
/// any order, stops and restarts among them (`keeps`).
pub fn each_run_stays_sound()
    ensures begins { (post : PostPast) → IsBegun post → IsSound post × IsSafe post }
    ensures keeps { OverRuns (λ begun later. IsSound later × IsSafe later) }
{}

/// Over any sections, in any order, the acknowledged notes of each station stay acknowledged.
pub fn all_stay_acknowledged()
    ensures { OverRuns AllStayAcknowledged }
{}

/// After any sections, in any order: whatever a stop may leave of a station's tape is the tape of a prefix of its
/// notes, with every acknowledged one in it; and each debt that was acknowledged before them, or that the station's
/// history began from, is owed there, unless the notes have a final answer to it or a drop of it.
pub fn all_are_recovered()
    ensures { OverRuns AllAreRecovered }
{}

/// After any sections, in any order, let one more be under way. At each moment of each of its calls on a disk, whatever
/// a stop may leave of a station's tape is the tape of a prefix of its notes, with every acknowledged one in it; and
/// each debt that was acknowledged before the sections, or that the station's history began from, is owed there, unless
/// the notes have a final answer to it or a drop of it. Whatever a stop may leave of the intake's tape is such a tape,
/// too, and each note that a line up to its mark made is acknowledged at its station.
pub fn all_moments_are_recovered()
    ensures { AllMomentsAreRecovered }
{}

/// As soon as a stop may leave the intake's tape with a mark at or above a line's number, each note that the line made
/// at a front is acknowledged at the station's tape.
pub fn acknowledged_lines_stand()
    ensures { (post : PostPast) → IsSafe post → LinesAreAcknowledged post }
{}

/// Once a receipt has counted every station, each note that a line up to its number made at a front is acknowledged at
/// the station's tape, whatever other receipts are being made.
pub fn sealed_lines_stand()
    ensures { (post : PostPast) → IsSound post → SealedLinesAreAcknowledged post }
{}

/// A debt that an acknowledged line made at a front is owed over any sections from then on, unless the notes have a
/// final answer to it or a drop of it: whatever a stop may leave of the station's tape is a tape that says so.
pub fn acknowledged_lines_are_kept()
    ensures { OverRuns LinesAreKept }
{}

/// From a funnel's line on: let sections run over the lines of a funnel, in any order, from an empty spool on, with any
/// stops and restarts among them. Whatever a stop leaves of all tapes at one moment, each line up to the mark of the
/// intake's tape is owed at each peer that it names, unless what is left there has the peer's final answer to it or a
/// drop of it (`stopped`); the same at each moment within the next section (`moments`). So is each line up to a
/// receipt's number, once the receipt has counted every station (`receipts`).
pub fn funnel_is_owed()
    ensures stopped { OverFunnels FunnelIsOwed }
    ensures receipts { OverFunnels ReceiptsAreOwed }
    ensures moments { OverFunnels FunnelIsOwedWithin }
{}
