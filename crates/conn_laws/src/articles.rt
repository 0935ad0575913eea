// For which debt an article is handed in, and whose article goes out.
ghost use Rattle.std.specs.Prelude.{◌≡◌, ℕ, List, Some};
ghost use Rattle.ledger_core.specs.State.{Owing};
ghost use Rattle.conn_core.specs.History.{Event, first_wanted};
ghost use Rattle.conn_core.specs.Stands.{StandsFor};
ghost use Rattle.conn_core.specs.State.{Holding};
ghost use Rattle.conn_core.specs.declared.options.Options.{Options};
ghost use Rattle.conn_laws.specs.Articles.{AllHaveArticlesOfDebts, PutsOut, debt_served};

/// What goes out for a debt as an article, with a TAKETHIS or after a 335 to its IHAVE, is the block that was handed in
/// for that very debt. An article of the key of the debt whose article has been wanted longest is handed in for that
/// debt; if it can be sent, then its command goes out, with the block or offering it, and nothing else does. That no
/// block goes out twice for a debt is in [`nothing_is_put_out_twice`](crate::nothing_is_put_out_twice).
pub fn articles_are_of_their_debts()
    ensures handed { (options : Options) (conn : Holding) (unread : List ℕ) (h : List Event)
        → StandsFor options conn unread h → AllHaveArticlesOfDebts options h }
    ensures served { (options : Options) (conn : Holding) (unread : List ℕ) (h : List Event)
        (debt : Owing) → StandsFor options conn unread h
        → first_wanted options h ≡ Some debt → debt_served options h debt.0 ≡ Some debt }
    ensures puts { (options : Options) (conn : Holding) (unread : List ℕ) (h : List Event)
        (debt : Owing) (block : List ℕ) → StandsFor options conn unread h
        → first_wanted options h ≡ Some debt → PutsOut options h debt block }
{}
