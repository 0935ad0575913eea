// What became of debts, on its way from a connection to a station.
ghost use Rattle.std.specs.Prelude.{◌≡◌, ◌++◌};
ghost use Rattle.conn_core.specs.State.{untold_at};
ghost use Rattle.connections.specs.Articles.{HandsInNothing};
ghost use Rattle.connections.specs.Given.{outcomes_in};

use conn_core::{Conn, Outcome};
use ledger_core::Debt;
use std::marker::Model;
use std::snapshot::Snapshot;

/// What became of a debt, as the connection that held it gave it. There is no other way to one, but for a debt that
/// goes back because no connection has taken it. So no debt ends that its peer has not answered, and none is dropped
/// that the connection has not given as lost.
///
/// Contracts see the outcome.
#[derive(Drop)]
pub struct GivenOutcome {
    outcome: Outcome,
}

impl Model for GivenOutcome {
    ghost use Rattle.conn_core.specs.declared.outcome.Outcome.{Outcome};

    ghost Value = { Outcome };

    ghost view = { λ given. given.outcome };
}

/// By this an outcome that was taken out of a [`GivenOutcome`] becomes one again, and no other does.
///
/// Contracts see that outcome.
#[derive(Drop)]
pub struct ReturnTicket {
    // For the clauses alone.
    outcome: Snapshot<Outcome>,
}

impl Model for ReturnTicket {
    ghost use Rattle.conn_core.specs.declared.outcome.Outcome.{Outcome};

    ghost Value = { Outcome };

    ghost view = { λ ticket. ticket.outcome.value };
}

impl GivenOutcome {
    /// The next one of a connection.
    pub(crate) fn next(conn: &mut Conn) -> Option<Self>
        ensures given { untold_at conn.old ≡ outcomes_in result ++ untold_at conn.new }
        ensures nothing { HandsInNothing conn.old conn.new }
    {
        match conn.outcome() {
            Some(outcome) => Some(GivenOutcome { outcome }),
            None => None,
        }
    }

    /// That of a debt which no connection has taken.
    pub fn back(debt: Debt) -> Self
        ensures { result ≡ Outcome.Back debt }
    {
        GivenOutcome {
            outcome: Outcome::Back(debt),
        }
    }

    pub fn get(&self) -> &Outcome
        ensures { result.now ≡ self.now }
    {
        &self.outcome
    }

    /// The outcome itself, to be taken to a station. If the station refuses it, the ticket takes it back.
    pub fn into_outcome(self) -> (Outcome, ReturnTicket)
        ensures outcome { result.0 ≡ self }
        ensures ticket { result.1 ≡ self }
    {
        let GivenOutcome { outcome } = self;
        let ticket = ReturnTicket {
            outcome: Snapshot::of(&outcome),
        };
        (outcome, ticket)
    }
}

impl ReturnTicket {
    /// Takes back the outcome for which it was made.
    pub fn take_back(self, outcome: Outcome) -> GivenOutcome
        requires { outcome ≡ self }
        ensures { result ≡ outcome }
    {
        GivenOutcome { outcome }
    }
}
