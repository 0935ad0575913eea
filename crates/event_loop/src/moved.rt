// What one call of a link did.

/// What came of sending or receiving once, without waiting.
#[derive(Clone, Copy, Debug, PartialEq, Eq)]
pub enum Moved {
    /// The number of octets that went through; 0 if the call was interrupted.
    Done(usize),
    /// None went through, and none will until the link is reported ready.
    Later,
    /// The other side closed it.
    Closed,
    /// It failed.
    Fault,
}
