// The report of an import: what became of the lines of a backlog file.
ghost use Rattle.std.specs.Prelude.{◌≡◌, Some};
ghost use Rattle.backlog_files.specs.Imports.{no_line};
ghost use Rattle.funnel.specs.Malformed.{first_of, one_more};

use funnel::{LineFault, Malformed};
use peer_queue::Owed;
use std::fmt::{self, Display, Formatter, Write};

/// What became of the lines of a backlog file.
#[derive(Clone, Copy, Debug, PartialEq, Eq)]
pub struct ImportReport {
    /// How many lines are owed from now on, at most 2 ^ 64 - 1.
    pub taken: u64,
    /// How many good lines were skipped, at most 2 ^ 64 - 1: an earlier import, which was cut off, has taken in all
    /// lines up to them.
    pub passed: u64,
    /// The malformed lines, if there are any.
    pub malformed: Option<Malformed>,
    /// Whether a rest without LF, which is not a line, follows the last line.
    pub has_rest: bool,
}

impl ImportReport {
    pub(crate) fn none() -> Self
        ensures { result ≡ no_line }
    {
        ImportReport {
            taken: 0,
            passed: 0,
            malformed: None,
            has_rest: false,
        }
    }

    pub(crate) fn with_good(self, owed: Owed) -> Self
        ensures new { owed ≡ Owed.New → result ≡ record self { taken = one_more self.taken } }
        ensures already { owed ≡ Owed.Already
            → result ≡ record self { passed = one_more self.passed } }
    {
        match owed {
            Owed::New => ImportReport {
                taken: self.taken.saturating_add(1),
                ..self
            },
            Owed::Already => ImportReport {
                passed: self.passed.saturating_add(1),
                ..self
            },
        }
    }

    pub(crate) fn with_malformed(self, number: u64, fault: LineFault) -> Self
        ensures { result ≡ record self {
          malformed = Some (first_of self.malformed number fault);
        } }
    {
        ImportReport {
            malformed: Some(Malformed::add(self.malformed, number, fault)),
            ..self
        }
    }
}

impl Display for ImportReport {
    fn fmt<W: Write>(&self, f: &mut Formatter<W>) -> fmt::Result {
        let ImportReport { taken, passed, .. } = *self;
        write!(f, "{taken} lines taken, {passed} passed over")?;
        if let Some(malformed) = self.malformed {
            let Malformed { lines, number, .. } = malformed;
            let fault = malformed.fault.name();
            write!(f, ", {lines} malformed, first at line {number}: {fault}")?;
        }
        if self.has_rest {
            f.write_str(", a rest without LF left out")?;
        }
        Ok(())
    }
}
