// The spool of a feeder: an article that several peers want is read once, if they want it at about the same time.
ghost use Rattle.std.specs.Prelude.{IfOk, IfSome};
ghost use Rattle.article_store.specs.declared.store.Found.TheVariants.{Article};
ghost use Rattle.connections.specs.Articles.{IsFoundFor};
ghost use Rattle.connections.specs.Sources.{AreGiven};

use crate::Spool;
use crate::article_source::ArticleSource;
use crate::kept_texts::KeptTexts;
use article_store::{Found, StoreFault};
use bytes::Bytes;
use ledger_core::Debt;
use std::alloc::{AllocError, Global};

/// The spool of a feeder, and the texts of the articles that it has read there a short while ago.
#[derive(Drop)]
pub struct FeederSpool<A: ArticleSource> {
    pub(crate) store: A,
    pub(crate) path: String,
    // `None` if there is one peer alone: then nobody else would ask for them.
    kept: Option<KeptTexts>,
    ghost given: { ∥ AreGiven A.gives kept ∥₁ },
}

impl<A: ArticleSource> FeederSpool<A> {
    /// That of a feeder with so many peers. Texts are kept if there is more than one.
    ///
    /// # Errors
    /// Memory was refused.
    pub fn new(alloc: Global, spool: Spool<A>, peers: usize) -> Result<Self, AllocError>
    where
        A: Drop,
    {
        let kept = if peers > 1 {
            Some(KeptTexts::new(alloc)?)
        } else {
            None
        };
        let Spool { store, path } = spool;
        Ok(FeederSpool { store, path, kept })
    }

    /// The path of the store's directory, for messages.
    pub fn path(&self) -> &str {
        &self.path
    }

    /// What is found for a debt in this second: the text that was kept for its token and its message-id, or else what
    /// the store gives for them, which is kept for other peers if it is an article. If memory is refused for that, it
    /// is not kept.
    ///
    /// # Errors
    /// Those of the store.
    pub fn article_of(&mut self, debt: &Debt, now: u64) -> Result<Found, StoreFault>
        ensures { IfOk result (IsFoundFor A.gives debt.now) }
    {
        if let Some(text) = self.kept_text(debt, now) {
            return Ok(Found::Article(text));
        }
        let found = self.store.article_of(debt)?;
        self.keep(debt, &found, now);
        Ok(found)
    }

    // The text that was kept for this debt. If memory is refused for sharing it, it counts as not kept.
    fn kept_text(&self, debt: &Debt, now: u64) -> Option<Bytes>
        ensures { IfSome result (λ text. IsFoundFor A.gives debt.now (Article text)) }
    {
        let text = self.kept.as_ref()?.text_for(debt.token(), debt.id(), now)?;
        text.clone().ok()
    }

    // Keeps what was found for this debt, if it is an article.
    fn keep(&mut self, debt: &Debt, found: &Found, now: u64)
        requires { IsFoundFor A.gives debt.now found.now }
    {
        if let Found::Article(text) = found
            && let Some(kept) = &mut self.kept
        {
            let _ = kept.keep(debt.token(), debt.id(), text, now);
        }
    }
}
