// How far the sources of debts have come.
ghost use Rattle.std.specs.Prelude.{◌≡◌, ◌↔◌, ◌+◌, ◌<◌, ◌^◌, nat_lt, if◌then◌else◌};
ghost use Rattle.std.specs.Prelude.{IsTrue};
ghost use Rattle.ledger_core.specs.Keys.{IsKey, number_of};
ghost use Rattle.ledger_core.specs.State.{IsNext, IsPast};

use crate::key::Key;

/// How far the sources have come. The open source is the one after `closed`.
#[derive(Clone, Copy, Debug, PartialEq, Eq)]
pub(crate) struct Marks {
    // The greatest number of a funnel line that was noted.
    pub(crate) mark: u64,
    // The source that was closed last, 0 at first.
    pub(crate) closed: u32,
    // The greatest number that was noted of the open source.
    pub(crate) import_mark: u64,
}

impl Marks {
    pub(crate) fn is_next(self, key: Key) -> bool
        requires { self.closed + 1 < 2 ^ 32 }
        ensures { IsTrue result ↔ IsNext self key }
    {
        if key.source() == 0 {
            self.mark < key.number()
        } else {
            key.source() == self.closed + 1 && self.import_mark < key.number()
        }
    }

    // Whether a debt of this key may be owed.
    pub(crate) fn is_past(self, key: Key) -> bool
        requires { self.closed + 1 < 2 ^ 32 }
        ensures { IsTrue result ↔ IsPast self key }
    {
        if key.number() == 0 {
            return false;
        }
        if key.source() == 0 {
            return key.number() <= self.mark;
        }
        key <= Key::new(self.closed + 1, self.import_mark)
    }

    // The marks with a debt of this key noted.
    pub(crate) fn with(self, key: Key) -> Self
        ensures mark { result.mark ≡ (if nat_lt key (2 ^ 64) then key else self.mark) }
        ensures closed { result.closed ≡ self.closed }
        ensures import_mark { result.import_mark
            ≡ (if nat_lt key (2 ^ 64) then self.import_mark else number_of key) }
    {
        if key.source() == 0 {
            Marks {
                mark: key.number(),
                ..self
            }
        } else {
            Marks {
                import_mark: key.number(),
                ..self
            }
        }
    }
}
