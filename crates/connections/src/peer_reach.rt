// Whether a peer is down.
ghost use Rattle.std.specs.Prelude.{◌≡◌, ◌+◌, ◌-◌, ◌^◌, ◌&&◌, ◌||◌, ◌<◌};
ghost use Rattle.std.specs.Prelude.{true, false, not, min, is_some, unwrap_or};

// For how long tries have to fail before that is told: meanwhile another connection may agree to a mode.
const SETTLING_SECONDS: u64 = 2;

/// Whether a peer is down, over the connections of all feeders to it. It is if none of them has agreed to a mode and a
/// try has failed since one had, or since the run began.
#[derive(Clone, Copy, Debug, PartialEq, Eq)]
pub(crate) enum PeerReach {
    /// So many of its connections have agreed to a mode; none only if no try has failed since.
    Up { connections: u64 },
    /// Tries fail since this second.
    Down { since: u64, is_told: bool },
}

impl PeerReach {
    ghost use Rattle.connections.specs.Reach.{connections_of, down_since, is_telling_due, was_told};
    ghost use Rattle.connections.specs.declared.peer_reach.PeerReach.TheVariants.{Up, Down};

    /// No connection was tried yet.
    pub fn new() -> Self
        ensures { result ≡ Up 0 }
    {
        PeerReach::Up { connections: 0 }
    }

    /// A connection has agreed to a mode. Returns whether it was told that the peer is down.
    pub fn agreed(&mut self) -> bool
        ensures told { result ≡ was_told self.old }
        ensures up { self.new ≡ Up (min (connections_of self.old + 1) (2 ^ 64 - 1)) }
    {
        let (connections, was_told) = match *self {
            PeerReach::Up { connections } => (connections, false),
            PeerReach::Down { is_told, .. } => (0, is_told),
        };
        *self = PeerReach::Up {
            connections: connections.saturating_add(1),
        };
        was_told
    }

    /// A connection that had agreed to a mode is over.
    pub fn ended(&mut self)
        ensures connections { connections_of self.new ≡ connections_of self.old - 1 }
        ensures same { (down_since self.new ≡ down_since self.old)
            × (was_told self.new ≡ was_told self.old) }
    {
        if let PeerReach::Up { connections } = *self {
            *self = PeerReach::Up {
                connections: connections.saturating_sub(1),
            };
        }
    }

    /// A try has failed in this second.
    pub fn failed(&mut self, now: u64)
        ensures up { 0 < connections_of self.old → self.new ≡ self.old }
        ensures down { connections_of self.old ≡ 0
            → self.new ≡ Down (unwrap_or (down_since self.old) now) (was_told self.old) }
    {
        if *self == (PeerReach::Up { connections: 0 }) {
            *self = PeerReach::Down {
                since: now,
                is_told: false,
            };
        }
    }

    /// Whether it is down, and that was not told.
    pub fn is_untold(&self) -> bool
        ensures { result ≡ (is_some (down_since self.now) && not (was_told self.now)) }
    {
        match *self {
            PeerReach::Up { .. } => false,
            PeerReach::Down { is_told, .. } => !is_told,
        }
    }

    /// Whether it is to be told now that the peer is down: it has been for 2 seconds, and that was not told. From then
    /// on it counts as told.
    pub fn tell(&mut self, now: u64) -> bool
        ensures due { result ≡ is_telling_due self.old now }
        ensures told { was_told self.new ≡ (was_told self.old || result) }
        ensures same { (down_since self.new ≡ down_since self.old)
            × (connections_of self.new ≡ connections_of self.old) }
    {
        if let PeerReach::Down {
            since,
            is_told: false,
        } = *self
            && now.saturating_sub(since) >= SETTLING_SECONDS
        {
            *self = PeerReach::Down {
                since,
                is_told: true,
            };
            return true;
        }
        false
    }
}
