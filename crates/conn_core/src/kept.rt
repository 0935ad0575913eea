// What is kept about debts: those held, the commands without an answer, the articles wanted.
ghost use Rattle.std.specs.Prelude.{◌≡◌};

use crate::codes::Verb;
use ledger_core::{Debt, Key};
use std::marker::Model;

// A debt held, with its ticket among those accepted.
#[derive(Debug, Drop)]
pub(crate) struct HeldDebt {
    ticket: u64,
    debt: Debt,
}

impl Model for HeldDebt {
    ghost use Rattle.conn_core.specs.Commands.{Held};

    ghost Value = { Held };

    ghost view = { λ x. record { ticket = x.ticket; debt = x.debt } };
}

impl HeldDebt {
    pub(crate) fn new(ticket: u64, debt: Debt) -> Self
        ensures { result ≡ record { ticket = ticket; debt = debt } }
    {
        HeldDebt { ticket, debt }
    }

    pub(crate) fn ticket(&self) -> u64
        ensures { result ≡ self.now.ticket }
    {
        self.ticket
    }

    pub(crate) fn debt(&self) -> &Debt
        ensures { result.now ≡ self.now.debt }
    {
        &self.debt
    }

    pub(crate) fn into_debt(self) -> Debt
        ensures { result ≡ self.debt }
    {
        let HeldDebt { ticket: _, debt } = self;
        debt
    }
}

// A command whose answer is awaited, with the ticket of its debt.
#[derive(Debug, Drop)]
pub(crate) struct AwaitedAsk {
    verb: Verb,
    ticket: u64,
}

impl Model for AwaitedAsk {
    ghost use Rattle.conn_core.specs.State.{Awaited};

    ghost Value = { Awaited };

    ghost view = { λ ask. record { verb = ask.verb; ticket = ask.ticket } };
}

impl AwaitedAsk {
    pub(crate) fn new(verb: Verb, ticket: u64) -> Self
        ensures { result ≡ record { verb = verb; ticket = ticket } }
    {
        AwaitedAsk { verb, ticket }
    }

    pub(crate) fn verb(&self) -> Verb
        ensures { result ≡ self.now.verb }
    {
        self.verb
    }

    pub(crate) fn ticket(&self) -> u64
        ensures { result ≡ self.now.ticket }
    {
        self.ticket
    }
}

// A wanted article, with the ticket of its debt.
#[derive(Debug, Drop)]
pub(crate) struct WantedArticle {
    ticket: u64,
    key: Key,
}

impl Model for WantedArticle {
    ghost use Rattle.conn_core.specs.Commands.{Want};

    ghost Value = { Want };

    ghost view = { λ want. record { ticket = want.ticket; key = want.key } };
}

impl WantedArticle {
    pub(crate) fn new(ticket: u64, key: Key) -> Self
        ensures { result ≡ record { ticket = ticket; key = key } }
    {
        WantedArticle { ticket, key }
    }

    pub(crate) fn ticket(&self) -> u64
        ensures { result ≡ self.now.ticket }
    {
        self.ticket
    }

    pub(crate) fn key(&self) -> Key
        ensures { result ≡ self.now.key }
    {
        self.key
    }
}
