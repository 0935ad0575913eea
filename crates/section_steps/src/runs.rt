//! Whole runs: all locks and queues of a post, and any calls in any order.
ghost use Rattle.sections.specs.Laws.{IsBegun};
ghost use Rattle.sections.specs.Post.{PostPast};
ghost use Rattle.section_steps.specs.Machine.{Comes, ComesByRuns, Machine, MachineStands};
ghost use Rattle.section_steps.specs.Runs.{IsKeptMachine};

use disk_model::Disk;
use sections::{
    acknowledged_lines_stand, all_are_recovered, each_run_stays_sound, sealed_lines_stand,
};

/// Whatever calls are made under the locks, in whatever order, by whichever thread: what they make of all that the
/// locks and queues keep is what a run of sections makes of a post.
pub fn each_run_is_of_sections<D: Disk>()
    ensures { (begun later : Machine D D.Disk) (post : PostPast) → MachineStands begun post
        → Comes begun later → ComesByRuns post later }
{}

/// So the laws of `sections` hold of it, from a post on that was just made: whatever a stop leaves of a peer's tape is
/// the tape of a prefix of its notes, with every acknowledged one in it, and each debt that was acknowledged is owed
/// there, or has ended; and what an acknowledged line, or one up to a receipt's number, made is acknowledged.
pub fn whatever_a_stop_leaves<D: Disk>()
    ensures { (begun later : Machine D D.Disk) (post : PostPast) → IsBegun post
        → MachineStands begun post → Comes begun later → IsKeptMachine post later }
{
    each_run_stays_sound();
    all_are_recovered();
    acknowledged_lines_stand();
    sealed_lines_stand();
}
