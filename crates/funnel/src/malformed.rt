// Malformed lines, counted.
ghost use Rattle.std.specs.Prelude.{◌≡◌};
ghost use Rattle.funnel.specs.Malformed.{first_of};

use crate::line::LineFault;

/// Malformed lines, at least one.
#[derive(Clone, Copy, Debug, PartialEq, Eq)]
pub struct Malformed {
    /// How many there are, at most the greatest u64.
    pub lines: u64,
    /// The line number of the first of them.
    pub number: u64,
    /// What is wrong with the first of them.
    pub fault: LineFault,
}

impl Malformed {
    /// The same with one more line, which has this number and comes after them.
    pub fn add(before: Option<Self>, number: u64, fault: LineFault) -> Self
        ensures { result ≡ first_of before number fault }
    {
        match before {
            None => Malformed {
                lines: 1,
                number,
                fault,
            },
            Some(before) => Malformed {
                lines: before.lines.saturating_add(1),
                ..before
            },
        }
    }
}
