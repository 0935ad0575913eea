// What has to be durable besides the tapes before lines are acknowledged.
ghost use Rattle.std.specs.Prelude.{◌≡◌, IfOk};

use crate::sealing::{SyncedLine, TakenLine};
use log::Log;
use std::sync::Wait;

/// Makes the articles durable that lines name, if another program keeps them.
pub trait ArticleSync {
    /// Makes the articles durable that are named by the lines which were taken up to `last`. Each flush that may
    /// acknowledge lines calls it, once it has read up to which line.
    ///
    /// # Errors
    /// `Unsynced` if an article may not be durable, and from then on: no further line is acknowledged. The value itself
    /// has the reason.
    fn sync<R: Wait>(&mut self, rt: &R, last: TakenLine) -> Result<SyncedLine, Unsynced>
        ensures { IfOk result (λ synced. synced.number ≡ last.number) };

    /// Logs why an article may not be durable, if that is so and was not logged yet.
    fn tell<R: Log>(&mut self, rt: &R);
}

/// An article may not be durable.
#[derive(Clone, Copy, Debug, PartialEq, Eq)]
pub struct Unsynced;

/// Leaves the articles to whoever keeps them.
#[derive(Clone, Copy, Drop)]
pub struct NoSync;

impl ArticleSync for NoSync {
    fn sync<R: Wait>(&mut self, _rt: &R, last: TakenLine) -> Result<SyncedLine, Unsynced> {
        Ok(SyncedLine::of(last))
    }

    fn tell<R: Log>(&mut self, _rt: &R) {}
}
