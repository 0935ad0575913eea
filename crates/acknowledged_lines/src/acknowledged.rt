// The number up to which all lines are acknowledged.
ghost use Rattle.std.specs.Prelude.{◌≡◌, ◌≤◌};
ghost use Rattle.recovery.specs.Words.{ledger_of, pending_of};

use disk_model::Disk;
use recovery::Tape;

/// All lines of a funnel up to this number are acknowledged: the intake's tape, with nothing pending, has noted it. So
/// whatever a stop leaves of that tape has it, too.
#[derive(Clone, Copy, Debug, PartialEq, Eq)]
pub struct Acknowledged {
    number: u64,
}

impl Acknowledged {
    /// What the intake's tape says, as it was opened, or after a flush.
    pub fn of<D: Disk>(intake: &Tape<D>) -> Acknowledged
        requires { pending_of intake.now ≡ 0 }
        ensures { result.number ≡ (ledger_of intake.now).mark }
    {
        Acknowledged {
            number: intake.mark(),
        }
    }

    /// The lines up to this one are acknowledged if those up to a later one are.
    pub fn up_to(self, line: u64) -> Acknowledged
        requires { line ≤ self.number }
        ensures { result.number ≡ line }
    {
        Acknowledged { number: line }
    }

    pub fn number(self) -> u64
        ensures { result ≡ self.number }
    {
        self.number
    }
}
