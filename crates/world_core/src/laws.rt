//! Laws of worlds, each the contract of a function that does nothing.
ghost use Rattle.std.specs.Prelude.{◌+◌, List, [], ◌++◌, take};
ghost use Rattle.world_core.specs.CrashLaws.{AnyKillComesAbout, AnyPowerFailureComesAbout};
ghost use Rattle.world_core.specs.DropLaws.{AllAreAccountedFor};
ghost use Rattle.world_core.specs.Events.{AllDo, Event};
ghost use Rattle.world_core.specs.ExchangeLaws.{HandingIsEvents, OutcomesAreEvents, PutBackIsSame};
ghost use Rattle.world_core.specs.FunnelLaws.{DebtsAreAcknowledged, DebtsAreOfLines, EmptyAtFirst};
ghost use Rattle.world_core.specs.FunnelLaws.{FunnelIsOwed, FunnelIsOwedWithin, OverFunnels};
ghost use Rattle.world_core.specs.FunnelLaws.{TakenIsAcknowledged, TakenIsQueued};
ghost use Rattle.world_core.specs.Keeping.{PeerStays, PeersStay};
ghost use Rattle.world_core.specs.Laws.{AllAreRecovered, AllFinalsAreRight, AllStayAcknowledged};
ghost use Rattle.world_core.specs.Laws.{Comes, LinesAreAcknowledged, OverRuns, StillOwes};
ghost use Rattle.world_core.specs.LineLaws.{LinesAreKept, LinesAreKeptWithin, LinesAreReadAgain};
ghost use Rattle.world_core.specs.Moments.{AllMomentsAreRecovered, CallsNoOther};
ghost use Rattle.world_core.specs.Past.{Life, Past, PeerPast};
ghost use Rattle.world_core.specs.Safe.{IsSafe};
ghost use Rattle.world_core.specs.Stands.{Ran, WasRefused, WorldStands};
ghost use Rattle.world_core.specs.Output.{View, views_by};

use crate::fault::WorldFault;
use crate::step::Step;
use crate::world::World;
use conn_laws::{each_debt_comes_out_once, verdicts_are_right};

/// As soon as a stop may leave the intake's tape with a mark at or above a line's number, each note that the line made
/// is acknowledged at its peer.
pub fn acknowledged_lines_stand()
    ensures { (past : Past) → IsSafe past → LinesAreAcknowledged past }
{}

/// Whatever events happen to the tapes, one after another, the acknowledged notes of each peer stay acknowledged.
pub fn acknowledged_notes_stay()
    ensures { (begun later : Past) (events : List Event) → AllDo begun events later
        → PeersStay begun later }
{}

/// If what was acknowledged of a peer's notes stays so, then each debt that was acknowledged, or that the peer's
/// history began from, is owed after any prefix of its notes that has every acknowledged one in it, unless the peer's
/// notes have a final answer to it or a drop of it. The same holds at each moment within a call: whatever a stop leaves
/// then is the tape of such a prefix.
pub fn acknowledged_debts_stay_owed()
    ensures { (was now : PeerPast) → PeerStays was now → StillOwes was now }
{}

/// The world after a run has come about by the run's steps, whatever came before; if one was refused, by those up to
/// and including it. So the laws over any steps hold of that world. By `Comes` it is sound, so that the next run can
/// begin from it.
pub fn each_run_comes_about()
    ensures begins { (life : Life) (world : World) → WorldStands world life
        → Comes life [] [] life }
    ensures reports { (begun life : Life) (before steps : List Step)
        (outputs lines : List (List View)) (new : World)
        → Comes begun before outputs life → (ran : Ran steps life lines new)
        → Comes begun (before ++ steps) (outputs ++ lines) ran.later }
    ensures ends { (begun life : Life) (before steps : List Step)
        (outputs : List (List View)) (fault : WorldFault) (new : World)
        → Comes begun before outputs life → (was : WasRefused steps life fault new)
        → Comes begun (before ++ take (was.index + 1) steps)
        (outputs ++ views_by fault.lines.items) was.later }
{}

/// Steps go on from any crash. At each moment, between steps or within one, the process may end: all that has happened
/// to a disk is left, and nothing is synced by that, so that a power failure later may still leave any image (`kill`).
/// Or the power fails: of each disk any of its images is left, whatever is left of the others (`power`). By `Comes` the
/// laws over any steps hold of what comes then; that it is safe and sound is proved.
pub fn each_crash_comes_about()
    ensures kill { AnyKillComesAbout }
    ensures power { AnyPowerFailureComesAbout }
{}

/// Over any steps, taken or refused, stops, crashes and restarts among them, the acknowledged notes of each peer stay
/// acknowledged.
pub fn all_stay_acknowledged()
    ensures { OverRuns AllStayAcknowledged }
{}

/// After any steps, taken or refused, stops, crashes and restarts among them: whatever a stop may leave of a peer's
/// tape is the tape of a prefix of its notes, with every acknowledged one in it; and each debt that was acknowledged
/// before the steps, or that the peer's history began from, is owed there, unless the peer's notes have a final answer
/// to it or a drop of it.
pub fn all_are_recovered()
    ensures { OverRuns AllAreRecovered }
{}

/// After any steps, taken or refused, stops, crashes and restarts among them, let a step be under way. At each moment
/// of each of its calls on a disk, whether the call answers Ok, fails, or is met by a stop, whatever a stop may leave
/// of a peer's tape is the tape of a prefix of its notes, with every acknowledged one in it; and each debt that was
/// acknowledged before the steps, or that the peer's history began from, is owed there, unless the peer's notes have a
/// final answer to it or a drop of it. The same holds of whatever a stop may leave of the intake's tape, and each note
/// that a line up to its mark made is acknowledged at its peer.
pub fn all_moments_are_recovered()
    ensures { AllMomentsAreRecovered }
{}

/// Those are all calls on disks: what has happened to the disks of a tape, a peer's or the intake's, by the end of a
/// step, taken or refused, had happened before the step, or by the end of one of its events that calls the disks of
/// that very tape; or a stop came, and left what its choice leaves of that.
pub fn steps_call_no_other_disk()
    ensures { CallsNoOther }
{}

/// A debt that an acknowledged line made at a peer is owed over any steps from then on, unless the peer's notes have a
/// final answer to it or a drop of it: whatever a stop may leave of the peer's tape, after the steps (`after`) or at
/// each moment within the step that follows them (`within`), is a tape that says so.
pub fn acknowledged_lines_are_kept()
    ensures after { OverRuns LinesAreKept }
    ensures within { LinesAreKeptWithin }
{}

/// A line that is read is reported as `new` at exactly those peers that it names whose mark is below its number, and it
/// changes nothing at any other. The same holds of a line that is read again after a stop, under the number that it
/// had.
pub fn line_read_again()
    ensures { LinesAreReadAgain }
{}

/// A step on a connection is stated of the connection and its peer alone. In the world, what it makes of the peer is
/// events of the tapes, one after another, and all tapes are safe after each: first a debt may be claimed, and given
/// back (`handing`), and then each outcome goes to the peer (`outcomes`), whether the step is taken or refused. If it
/// leaves both as they were, then the whole world is as it was (`unchanged`).
pub fn connections_act_by_events()
    ensures handing { HandingIsEvents }
    ensures outcomes { OutcomesAreEvents }
    ensures unchanged { PutBackIsSame }
{}

/// Over any steps, taken or refused, each final answer that is noted at a peer, and was not before them, has its
/// verdict: in a world between the steps, a connection to that peer has come to the verdict, of this number and code.
/// The verdict is right by that connection's transcript: one of the replies that came is the final answer to a command
/// about that very debt. And the connection took the debt over, by number, token and id, in one of the steps, a `hand`,
/// when that peer owed it, or before the steps.
pub fn all_finals_are_right()
    ensures { AllFinalsAreRight }
{
    each_debt_comes_out_once();
    verdicts_are_right()
}

/// No debt leaves a ledger unnoted. Over any steps, taken or refused, stops, crashes and restarts among them: each debt
/// that a peer owed, by its number, is owed still; or the notes since have the peer's final answer to it, which has its
/// verdict, or a drop of it, which has its cause: a connection to the peer has come to an outcome on that very debt for
/// which it is dropped, or the backlog was shed. Or its own note pended, and is gone, as after a stop.
pub fn each_debt_is_accounted_for()
    ensures { AllAreAccountedFor }
{
    each_debt_comes_out_once();
    verdicts_are_right()
}

/// From a funnel's line on, over whole runs: let any steps go by the lines of a funnel, from an empty spool on (such is
/// a world that `World::new` made: `begins`), with any stops, crashes and restarts among them. The debt of an
/// acknowledged line is acknowledged at each peer that the line names (`acknowledged`), and no peer has a debt of a
/// line that does not name it, or under another number (`of_lines`). Whatever a stop leaves of all tapes at one moment,
/// each line up to the mark of the intake's tape is owed at each peer that it names, unless what is left there has the
/// peer's final answer to it or a drop of it (`stopped`); the same at each moment within the next step (`within`).
pub fn funnel_is_owed()
    ensures begins { EmptyAtFirst }
    ensures acknowledged { OverFunnels DebtsAreAcknowledged }
    ensures of_lines { OverFunnels DebtsAreOfLines }
    ensures stopped { OverFunnels FunnelIsOwed }
    ensures within { OverFunnels FunnelIsOwedWithin }
{}

/// A step that reports `taken N` leaves a world in which any stop leaves the intake's tape a mark at or above N, so
/// that the lines up to N are acknowledged (`step`). And after it, over any steps that go by the lines of a funnel,
/// with any stops, crashes and restarts among them, each line up to N is queued at every peer that it names: its debt
/// is among the peer's acknowledged notes, and whatever a stop leaves of the peer's tape owes it, or has the peer's
/// final answer to it or a drop of it (`run`).
pub fn reported_taken()
    ensures step { TakenIsAcknowledged }
    ensures run { TakenIsQueued }
{}
