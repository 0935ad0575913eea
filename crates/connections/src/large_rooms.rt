// How much room the outputs of a feeder's connections keep.
ghost use Rattle.std.specs.Prelude.{◌≡◌, ◌+◌, ◌-◌, ◌^◌, ◌<◌, ◌↔◌, IsTrue, nat_lt};
ghost use Rattle.std.specs.Prelude.{if◌then◌else◌};

use std::marker::Model;

// An output always keeps so much room, in octets: more is a large room.
const SMALL_ROOM_MAX_OCTETS: usize = 262_144;

// Large rooms stay while those of a feeder's outputs are at most so much in all, in octets.
const LARGE_ROOMS_MAX_OCTETS: usize = 33_554_432;

/// The large rooms of the outputs of a feeder's connections. A room of more than 262,144 octets is large.
///
/// Contracts see how many octets they are in all.
#[derive(Drop)]
pub struct LargeRooms {
    octets: usize,
}

impl Model for LargeRooms {
    ghost use Rattle.std.specs.Prelude.{ℕ};

    ghost Value = { ℕ };

    ghost view = { λ rooms. rooms.octets };
}

impl LargeRooms {
    /// None, before there are connections.
    pub fn new() -> Self
        ensures { result ≡ 0 }
    {
        LargeRooms { octets: 0 }
    }

    /// An output that was counted with `before` octets has room for `room` now. Returns with how many octets it is
    /// counted from now on: none if its room is not large.
    pub(crate) fn count(&mut self, before: usize, room: usize) -> usize
        ensures value { result ≡ (if nat_lt 262144 room then room else 0) }
        ensures sum { self.old - before + result < 2 ^ 64
            → self.new ≡ self.old - before + result }
    {
        let counted = if room > SMALL_ROOM_MAX_OCTETS {
            room
        } else {
            0
        };
        self.octets = self.octets.saturating_sub(before).saturating_add(counted);
        counted
    }

    /// Whether they are more than 33,554,432 octets in all: then an output whose octets are all sent keeps none.
    pub(crate) fn are_too_much(&self) -> bool
        ensures { IsTrue result ↔ 33554432 < self.now }
    {
        self.octets > LARGE_ROOMS_MAX_OCTETS
    }
}
