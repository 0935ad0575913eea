// Whether a connection takes a debt.

/// Whether a debt can be offered.
#[derive(Clone, Copy, Debug, PartialEq, Eq)]
pub enum Ready {
    /// It is taken, unless memory is refused.
    Yes,
    /// Not now: no mode is agreed yet, or as many are held as the mode allows.
    Busy,
    /// Never again: the connection is closed, or was asked to quit.
    Shut,
}
