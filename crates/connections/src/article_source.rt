// Where the articles of debts come from, and that each goes out for its own debt.
ghost use Rattle.std.specs.Prelude.{ℕ, List, IfOk};
ghost use Rattle.article_store.specs.Finds.{IsFound};
ghost use Rattle.article_store.specs.declared.store.Found.{Found};
ghost use Rattle.conn_core.specs.History.{Event};
ghost use Rattle.conn_core.specs.Stands.{StandsFor};
ghost use Rattle.conn_core.specs.State.{Holding};
ghost use Rattle.conn_core.specs.declared.options.Options.{Options};
ghost use Rattle.connections.specs.Articles.{AllAreFound, AllSendTextsOf, IsFoundFor};

use article_store::{Found, SpoolDirectory, StoreFault};
use conn_laws::articles::articles_are_of_their_debts;
use ledger_core::Debt;

/// Where the articles of debts come from.
pub trait ArticleSource: SpoolDirectory {
    /// What the source says of what it gives for a token and a message-id. The default says nothing: that holds of
    /// everything.
    ghost gives: { Self → (token id : List ℕ) → Found → Type 0 } = { λ _ _ _ _. Unit {0} };

    /// What is found for a debt: under its token, with its message-id.
    ///
    /// # Errors
    /// Those of [`SpoolDirectory::fetch_for`].
    fn article_of(&mut self, debt: &Debt) -> Result<Found, StoreFault>
        ensures given { IfOk result (gives self.old debt.now.1.0 debt.now.1.1) };
}

impl<S: SpoolDirectory> ArticleSource for S {
    ghost gives = { λ _ _ _. IsFound };

    fn article_of(&mut self, debt: &Debt) -> Result<Found, StoreFault> {
        self.fetch_for(debt.token(), debt.id())
    }
}

/// If each article that was handed in on a connection is what a source gave for the token and the message-id of its
/// debt, then each block that goes out for a debt is the written form of the lines of a text that the source gave for
/// them, and the command names that message-id. A feeder hands in nothing else, whatever the source is.
pub fn texts_are_of_their_debts<A: ArticleSource>()
    ensures { (options : Options) (conn : Holding) (unread : List ℕ) (h : List Event)
        → StandsFor options conn unread h → AllAreFound (IsFoundFor A.gives) options h
        → AllSendTextsOf (IsFoundFor A.gives) h }
{
    articles_are_of_their_debts()
}
