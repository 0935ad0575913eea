// A link in memory, which moves octets in pieces and ends at set points.
ghost use Rattle.std.specs.Prelude.{◌≡◌, ◌≤◌, ◌++◌, Some, IfSome, OnOk, OnErr, length, take, []};
ghost use Rattle.event_loop.specs.Link.{Tells, moved};
ghost use Rattle.event_loop.specs.Memory.{Gives, Takes, cut, met};

use crate::link::Link;
use crate::moved::Moved;
use std::alloc::{AllocError, Global};
use std::cmp;
use std::marker::Model;

/// How one direction ends.
#[derive(Clone, Copy, Debug, PartialEq, Eq)]
pub enum End {
    /// It never ends.
    Never,
    /// It is closed after that many octets.
    Closes(usize),
    /// It fails after that many octets.
    Fails(usize),
}

impl End {
    // The end, in place of a move, if `count` octets have gone.
    fn met(self, count: usize) -> Option<Moved>
        ensures value { result ≡ met self count }
        ensures ends { result ≡ Some Moved.Later → ⊥ }
        ensures moves { IfSome result (λ ending. moved ending ≡ 0) }
    {
        match self {
            End::Closes(at) if at <= count => Some(Moved::Closed),
            End::Fails(at) if at <= count => Some(Moved::Fault),
            _ => None,
        }
    }

    // How many of `wanted` octets still go before the end, after `count` have gone.
    fn cut(self, count: usize, wanted: usize) -> usize
        ensures value { result ≡ cut self count wanted }
        ensures within { result ≤ wanted }
    {
        match self {
            End::Never => wanted,
            End::Closes(at) | End::Fails(at) => cmp::min(wanted, at.saturating_sub(count)),
        }
    }
}

/// A link in memory: it gives the octets of its source, keeps those that it takes, and moves few at a time.
#[derive(Drop)]
pub struct MemLink {
    source: Vec<u8>,
    given: usize,
    sink: Vec<u8>,
    piece: usize,
    gives: End,
    takes: End,
}

impl Model for MemLink {
    ghost use Rattle.std.specs.Prelude.{◌≤◌, drop, length, take};
    ghost use Rattle.event_loop.specs.Memory.{Memory};

    ghost Value = { Memory };

    ghost view = { λ link. record {
      gave = take link.given link.source.items;
      waiting = drop link.given link.source.items;
      taken = link.sink.items;
      piece = link.piece;
      gives = link.gives;
      takes = link.takes;
    } };

    ghost invariant = { λ link. link.given ≤ length link.source.items };
}

impl MemLink {
    /// A link that gives these octets, moves at most `piece` at a time, and ends in this way in each direction.
    pub fn new(alloc: Global, source: Vec<u8>, piece: usize, gives: End, takes: End) -> Self
        ensures { result ≡ record {
          gave = [];
          waiting = source.items;
          taken = [];
          piece = piece;
          gives = gives;
          takes = takes;
        } }
    {
        MemLink {
            source,
            given: 0,
            sink: Vec::new(alloc),
            piece,
            gives,
            takes,
        }
    }

    /// Adds octets to those that it gives, after the others.
    ///
    /// # Errors
    /// `AllocError` if memory was refused: nothing changes.
    pub fn extend(&mut self, octets: &[u8]) -> Result<(), AllocError>
        ensures ok { OnOk result
            (self.new ≡ record self.old { waiting = self.old.waiting ++ octets.now }) }
        ensures unchanged { OnErr result (self.new ≡ self.old) }
    {
        self.source.extend_from_slice(octets)
    }

    /// The octets that it took, oldest first.
    pub fn taken(&self) -> &[u8]
        ensures { result.now ≡ self.now.taken }
    {
        &self.sink
    }
}

impl Link for MemLink {
    ghost took = { λ link. Some link.taken };

    ghost gave = { λ link. Some link.gave };

    ghost gives = { Gives };

    ghost takes = { Takes };

    ghost full = { λ link. ⊥ };

    ghost dry = { λ link. link.waiting ≡ [] };

    fn recv(&mut self, into: &mut [u8]) -> Moved
        ensures within { moved result ≤ length into.new }
        ensures gave { Tells (Some self.old.gave) (take (moved result) into.new)
            (Some self.new.gave) }
        ensures took { Some self.new.taken ≡ Some self.old.taken }
        ensures gives { Gives self.old (length into.old) result self.new }
        ensures dry { result ≡ Moved.Later → self.new.waiting ≡ [] }
    {
        if let Some(ending) = self.gives.met(self.given) {
            return ending;
        }
        if self.source.len() <= self.given {
            return Moved::Later;
        }
        let room = cmp::min(self.piece, into.len());
        let ready = cmp::min(room, self.source.len() - self.given);
        let count = self.gives.cut(self.given, ready);
        into[..count].copy_from_slice(&self.source[self.given..self.given + count]);
        self.given += count;
        Moved::Done(count)
    }

    fn send(&mut self, from: &[u8]) -> Moved
        ensures within { moved result ≤ length from.now }
        ensures took { Tells (Some self.old.taken) (take (moved result) from.now)
            (Some self.new.taken) }
        ensures gave { Some self.new.gave ≡ Some self.old.gave }
        ensures takes { Takes self.old from.now result self.new }
        ensures full { result ≡ Moved.Later → ⊥ }
    {
        if let Some(ending) = self.takes.met(self.sink.len()) {
            return ending;
        }
        let count = self
            .takes
            .cut(self.sink.len(), cmp::min(self.piece, from.len()));
        match self.sink.extend_from_slice(&from[..count]) {
            Ok(()) => Moved::Done(count),
            Err(_) => Moved::Fault,
        }
    }
}
