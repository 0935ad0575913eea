// The slots of connections, and when each is tried again.
ghost use Rattle.std.specs.Prelude.{◌≡◌, ◌-◌, ◌^◌, ◌&&◌, List, [], ◌∷◌, min};
ghost use Rattle.deferral.specs.Failed.{first_wait_of, most_wait_of};

use deferral::Backoff;

/// The slot of one connection of a peer. It has a connection, or may be given one, or waits because it lost its last
/// one.
///
/// Contracts see the list of its events, newest first: each call adds one.
#[derive(Clone, Copy, Debug)]
pub struct Slot {
    target: usize,
    tries: u64,
    // How many addresses of its peer in a row could not be connected to, since the slot was lost or left, or its peer
    // agreed to a mode.
    missed: u64,
    standing: Standing,
    backoff: Backoff,
}

// What a slot has.
#[derive(Clone, Copy, Debug, PartialEq, Eq)]
enum Standing {
    // No connection, and the last one was not lost: none was tried yet, or it was left, or the next address is to be
    // tried.
    Vacant,
    // A connection, which may still be being made.
    Taken,
    // No connection, because the last one was lost: no try before this time.
    Waiting { until: u64 },
}

impl Slot {
    ghost use Rattle.connections.specs.Slots.{Event, Tried, Agreed, Lost, Left};
    ghost use Rattle.connections.specs.Slots.{IsSameSlot, StandsFor, is_due, is_waiting, stands_at, tries, unmade};
    ghost use Rattle.connections.specs.Slots.{wait_left};

    /// A slot that was never tried, with the index of its peer's target, its first wait and its longest wait, in
    /// seconds.
    pub fn new(target: usize, first_wait: u64, most_wait: u64) -> Self
        ensures stands { StandsFor result [] }
        ensures target { result.target ≡ target }
        ensures first { first_wait_of result.backoff ≡ first_wait }
        ensures most { most_wait_of result.backoff ≡ most_wait }
    {
        Slot {
            target,
            tries: 0,
            missed: 0,
            standing: Standing::Vacant,
            backoff: Backoff::new(first_wait, most_wait),
        }
    }

    /// The index of its peer among the targets.
    pub fn target(&self) -> usize
        ensures { result ≡ self.now.target }
    {
        self.target
    }

    /// How many tries there were, at most the greatest u64.
    pub fn tries(&self) -> u64
        ensures { (h : List Event) → StandsFor self.now h
            → result ≡ min (tries h) (2 ^ 64 - 1) }
    {
        self.tries
    }

    /// Whether it lost its last connection and has none now.
    pub fn is_waiting(&self) -> bool
        ensures { (h : List Event) → StandsFor self.now h
            → result ≡ is_waiting (stands_at self.now h) }
    {
        match self.standing {
            Standing::Vacant => false,
            Standing::Taken => false,
            Standing::Waiting { .. } => true,
        }
    }

    /// For how many seconds it still waits: 0 if it does not wait, or its wait is over.
    pub fn wait_left(&self, now: u64) -> u64
        ensures { (h : List Event) → StandsFor self.now h
            → result ≡ wait_left (stands_at self.now h) now }
    {
        match self.standing {
            Standing::Vacant => 0,
            Standing::Taken => 0,
            Standing::Waiting { until } => until.saturating_sub(now),
        }
    }

    /// Whether it is to be given a connection now. In the last phase a slot that lost its connection is not tried
    /// again.
    pub fn is_due(&self, now: u64, last_phase: bool) -> bool
        ensures { (h : List Event) → StandsFor self.now h
            → result ≡ is_due (stands_at self.now h) now last_phase }
    {
        match self.standing {
            Standing::Vacant => true,
            Standing::Taken => false,
            Standing::Waiting { until } => !last_phase && until <= now,
        }
    }

    /// Whether it gets no connection any more: in the last phase, if its last one was lost.
    pub fn is_given_up(&self, last_phase: bool) -> bool
        ensures { (h : List Event) → StandsFor self.now h
            → result ≡ (last_phase && is_waiting (stands_at self.now h)) }
    {
        last_phase && self.is_waiting()
    }

    /// A connection is begun.
    pub fn tried(&mut self)
        ensures stands { (h : List Event) → StandsFor self.old h → StandsFor self.new (Tried ∷ h) }
        ensures keeps_slot { IsSameSlot self.old self.new }
    {
        self.tries = self.tries.saturating_add(1);
        self.standing = Standing::Taken;
    }

    /// The peer agreed to a mode over its connection: the next loss counts as the first.
    pub fn agreed(&mut self)
        ensures stands { (h : List Event) → StandsFor self.old h
            → StandsFor self.new (Agreed ∷ h) }
        ensures keeps_slot { IsSameSlot self.old self.new }
    {
        self.missed = 0;
        self.backoff.opened();
    }

    /// It could not be connected to one of its peer's addresses. The next address is tried at once. Once a try of each
    /// address has failed, one after another, the slot is lost.
    pub fn unmade(&mut self, now: u64, addresses: usize)
        ensures stands { (h : List Event) → StandsFor self.old h
            → StandsFor self.new (unmade now addresses h) }
        ensures keeps_slot { IsSameSlot self.old self.new }
    {
        if self.missed < (addresses as u64).saturating_sub(1) {
            self.missed += 1;
            self.standing = Standing::Vacant;
        } else {
            self.lost(now);
        }
    }

    /// Its connection closed, but not in good order, or could be made to no address: it waits from now on.
    pub fn lost(&mut self, now: u64)
        ensures stands { (h : List Event) → StandsFor self.old h
            → StandsFor self.new (Lost now ∷ h) }
        ensures keeps_slot { IsSameSlot self.old self.new }
    {
        self.missed = 0;
        self.backoff.failed();
        let until = now.saturating_add(self.backoff.wait());
        self.standing = Standing::Waiting { until };
    }

    /// Its connection was ended in good order.
    pub fn left(&mut self)
        ensures stands { (h : List Event) → StandsFor self.old h → StandsFor self.new (Left ∷ h) }
        ensures keeps_slot { IsSameSlot self.old self.new }
    {
        self.missed = 0;
        self.standing = Standing::Vacant;
    }
}
