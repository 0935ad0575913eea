// Articles that were dropped because they were not in the spool or cannot be sent, counted.
ghost use Rattle.std.specs.Prelude.{◌∷◌, [], Option, List};
ghost use Rattle.ledger_core.specs.declared.note.Cause.{Cause};
ghost use Rattle.connections.specs.Dropped.{CountsAs, Holds};
ghost use Rattle.connections.specs.declared.drop_count.DroppedArticle.{DroppedArticle};

use article_store::Unsendable;
use funnel::{MsgId, Token};
use ledger_core::Cause;
use std::mem;

/// An article that was dropped, for a log.
#[derive(Drop)]
pub struct DroppedArticle {
    pub token: Token,
    pub id: MsgId,
    /// Why it cannot be sent, if it is there and that is known.
    pub fault: Option<Unsendable>,
}

/// How many articles were dropped, and the first of them for whose words there was memory.
///
/// Contracts see the list of what was dropped, newest first.
#[derive(Drop)]
pub(crate) struct DropCount {
    /// At most the greatest u64.
    pub count: u64,
    pub first: Option<DroppedArticle>,
}

impl DropCount {
    pub fn new() -> Self
        ensures { CountsAs [] result }
    {
        DropCount {
            count: 0,
            first: None,
        }
    }

    /// One more was dropped: `None` if memory was refused for its words.
    pub fn add(&mut self, article: Option<DroppedArticle>)
        ensures { (h : List (Option DroppedArticle)) → CountsAs h self.old
            → CountsAs (article ∷ h) self.new }
    {
        self.count = self.count.saturating_add(1);
        if self.first.is_none() {
            self.first = article;
        }
    }
}

/// The articles that were dropped for one peer since they were told last.
///
/// Contracts see the list of what was dropped and why, newest first.
#[derive(Drop)]
pub(crate) struct PeerDrops {
    pub missing: DropCount,
    pub unsendable: DropCount,
}

impl PeerDrops {
    pub fn new() -> Self
        ensures { Holds [] result }
    {
        PeerDrops {
            missing: DropCount::new(),
            unsendable: DropCount::new(),
        }
    }

    /// One more was dropped, for this cause. Those that were dropped for another cause than that they are missing or
    /// unsendable are not counted.
    pub fn add(&mut self, cause: Cause, article: Option<DroppedArticle>)
        ensures { (h : List (Cause × Option DroppedArticle)) → Holds h self.old
            → Holds ((cause, article) ∷ h) self.new }
    {
        match cause {
            Cause::Missing => self.missing.add(article),
            Cause::Unsendable => self.unsendable.add(article),
            Cause::Limit | Cause::Deferred => {}
        }
    }

    /// What was counted. From then on nothing is.
    pub fn take(&mut self) -> PeerDrops
        ensures taken { (h : List (Cause × Option DroppedArticle)) → Holds h self.old
            → Holds h result }
        ensures none { Holds [] self.new }
    {
        mem::replace(self, PeerDrops::new())
    }
}
