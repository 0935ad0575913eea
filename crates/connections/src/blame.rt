// The debt at which a connection failed, and whether its slot is tried again at once.
ghost use Rattle.std.specs.Prelude.{◌≡◌};
ghost use Rattle.connections.specs.Blame.{at_first, blame_of, is_retried};

use crate::setbacks::Failure;
use conn_core::Reason;
use ledger_core::Key;

/// Which debt is the likely cause of a connection's end.
#[derive(Clone, Copy, Debug)]
pub(crate) enum Blame {
    /// None is.
    Nobody,
    /// The debt of this key.
    Debt { key: Key, failure: Failure },
    /// The debt whose message-id is named in the reply that answers nothing. If no debt that came back has that id, no
    /// debt is.
    Named,
}

/// What is known of a connection's end.
#[derive(Clone, Copy, Debug)]
pub(crate) struct ConnectionEnd {
    /// Why it closed; `None` while it is open.
    pub reason: Option<Reason>,
    /// The feeder ended it, descriptors ran out, or the spool's directory is missing.
    pub is_by_us: bool,
    /// The spool counts as one that is not there.
    pub is_without_spool: bool,
    /// Its peer had agreed to a mode.
    pub has_agreed: bool,
    /// The reply that closed it names a message-id.
    pub names_id: bool,
    /// The debt whose article could not be read.
    pub unread: Option<Key>,
    /// The debt whose command was the first without an answer.
    pub unanswered: Option<Key>,
}

impl ConnectionEnd {
    /// Which debt is the likely cause: that whose article could not be read; after a reply that answers nothing, the
    /// one that the reply names, and if it names none the first without an answer; after a break the first without an
    /// answer.
    pub fn blame(&self) -> Blame
        ensures { result ≡ blame_of self.now }
    {
        if self.is_by_us {
            return Blame::Nobody;
        }
        if let Some(key) = self.unread {
            return Blame::Debt {
                key,
                failure: Failure::AtDebt,
            };
        }
        match self.reason {
            Some(Reason::Unmatched) if self.names_id => Blame::Named,
            Some(Reason::Unmatched) => at_first(self.unanswered, Failure::AtDebt),
            Some(Reason::Broken | Reason::Reader(_) | Reason::Timeout) => {
                at_first(self.unanswered, Failure::Broke)
            }
            Some(Reason::Greeting(_) | Reason::Ended(_) | Reason::Quit) | None => Blame::Nobody,
        }
    }

    /// Whether its slot is tried again at once, as long as its peer has retries left: its peer had agreed to a mode,
    /// and then a debt was the cause or a reply came that answers nothing.
    pub fn is_retried(&self) -> bool
        ensures { result ≡ is_retried self.now }
    {
        if !self.has_agreed || self.is_by_us || self.is_without_spool {
            return false;
        }
        match self.blame() {
            Blame::Nobody => self.reason == Some(Reason::Unmatched),
            Blame::Debt { .. } | Blame::Named => true,
        }
    }
}

// The first debt without an answer, if there is one, is the cause.
fn at_first(unanswered: Option<Key>, failure: Failure) -> Blame
    ensures { result ≡ at_first unanswered failure }
{
    match unanswered {
        Some(key) => Blame::Debt { key, failure },
        None => Blame::Nobody,
    }
}
