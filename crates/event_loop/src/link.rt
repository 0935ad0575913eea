// The trait of links: two directions of octets, each of which moves some at a time.
ghost use Rattle.std.specs.Prelude.{◌≡◌, ◌≤◌, ℕ, List, Option, None, length, take};
ghost use Rattle.event_loop.specs.Link.{moved, Tells};
ghost use Rattle.event_loop.specs.declared.moved.Moved.{Moved};

use crate::moved::Moved;

/// Two directions of octets, each of which moves some at a time. A call never waits.
pub trait Link {
    /// The octets that it took, oldest first, if it reports them.
    ghost took: { Self → Option (List ℕ) } = { λ _. None };

    /// The octets that it gave, oldest first, if it reports them.
    ghost gave: { Self → Option (List ℕ) } = { λ _. None };

    /// What a call of `recv` with room for that many octets made of the link, and returned. A link that knows no more
    /// than the clauses below says nothing, as the default does.
    ghost gives: { Self → ℕ → Moved → Self → Type 0 } = { λ _ _ _ _. Unit {0} };

    /// What a call of `send` with these octets made of the link, and returned, in the same way.
    ghost takes: { Self → List ℕ → Moved → Self → Type 0 } = { λ _ _ _ _. Unit {0} };

    /// It takes nothing for now.
    ghost full: { Self → Type 0 };

    /// It gives nothing for now.
    ghost dry: { Self → Type 0 };

    /// Gives the first octets that it has, into a prefix of `into`.
    fn recv(&mut self, into: &mut [u8]) -> Moved
        ensures within { moved result ≤ length into.new }
        ensures gave { Tells (gave self.old) (take (moved result) into.new) (gave self.new) }
        ensures took { took self.new ≡ took self.old }
        ensures gives { gives self.old (length into.old) result self.new }
        ensures dry { result ≡ Moved.Later → dry self.new }
        ensures full { full self.old → full self.new };

    /// Takes octets, a prefix of `from`.
    fn send(&mut self, from: &[u8]) -> Moved
        ensures within { moved result ≤ length from.now }
        ensures took { Tells (took self.old) (take (moved result) from.now) (took self.new) }
        ensures gave { gave self.new ≡ gave self.old }
        ensures takes { takes self.old from.now result self.new }
        ensures full { result ≡ Moved.Later → full self.new };
}
