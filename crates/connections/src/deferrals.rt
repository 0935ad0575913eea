// The articles that a peer deferred, counted.

use crate::debt_texts::texts_of;
use funnel::{MsgId, Token};
use ledger_core::Debt;

/// How many articles a peer deferred on one connection, and the first of them for whose words there was memory.
#[derive(Drop)]
pub struct Deferrals {
    /// At most the greatest u64.
    pub count: u64,
    pub first: Option<(Token, MsgId)>,
}

impl Deferrals {
    pub(crate) fn new() -> Self {
        Deferrals {
            count: 0,
            first: None,
        }
    }

    /// One more was deferred.
    pub(crate) fn add(&mut self, debt: &Debt) {
        self.count = self.count.saturating_add(1);
        if self.first.is_none() {
            self.first = texts_of(debt).ok();
        }
    }
}
