// What became of debts, counted.
ghost use Rattle.std.specs.Prelude.{◌≡◌};
ghost use Rattle.peer_counts.specs.Counts.{no_counts, sum_of};

/// What became of the debts that were offered to a peer. No count goes beyond the greatest u64.
#[derive(Clone, Copy)]
pub struct PeerCounts {
    /// Debts offered on a connection; one that is offered again counts again.
    pub offered: u64,
    /// Articles that the peer took (235, 239).
    pub accepted: u64,
    /// Articles that it did not want (435, 438).
    pub refused: u64,
    /// Articles that it rejected (437, 439).
    pub rejected: u64,
    /// Answers that an article is to be offered later (431, 436).
    pub deferred: u64,
    /// Debts whose article was not in the spool. One that is kept and offered again counts again.
    pub missing: u64,
    /// Debts whose article is there and cannot be sent.
    pub unsendable: u64,
    /// The octets of the articles that were handed in, as the spool has them: without what the protocol adds.
    pub sent_octets: u64,
    /// Connections on which the peer agreed to a mode.
    pub made: u64,
}

impl PeerCounts {
    /// Nothing was counted.
    pub fn new() -> Self
        ensures { result ≡ no_counts }
    {
        PeerCounts {
            offered: 0,
            accepted: 0,
            refused: 0,
            rejected: 0,
            deferred: 0,
            missing: 0,
            unsendable: 0,
            sent_octets: 0,
            made: 0,
        }
    }

    /// Adds what was counted elsewhere.
    pub fn add(&mut self, more: &PeerCounts)
        ensures { self.new ≡ sum_of self.old more.now }
    {
        *self = self.plus(more);
    }

    /// These counts and those.
    pub fn plus(&self, more: &PeerCounts) -> PeerCounts
        ensures { result ≡ sum_of self.now more.now }
    {
        PeerCounts {
            offered: self.offered.saturating_add(more.offered),
            accepted: self.accepted.saturating_add(more.accepted),
            refused: self.refused.saturating_add(more.refused),
            rejected: self.rejected.saturating_add(more.rejected),
            deferred: self.deferred.saturating_add(more.deferred),
            missing: self.missing.saturating_add(more.missing),
            unsendable: self.unsendable.saturating_add(more.unsendable),
            sent_octets: self.sent_octets.saturating_add(more.sent_octets),
            made: self.made.saturating_add(more.made),
        }
    }
}
