// Which connections are to be serviced, so that a turn costs what happened and not how many connections there are.
ghost use Rattle.std.specs.Prelude.{◌≡◌, ◌⊎◌, ◌++◌, ◌∷◌, [], false, slice_get, true};

use std::alloc::Global;
use std::mem;

/// The keys of the connections that are to be serviced at the next turn, and of those of this turn. A key may be there
/// more than once, and its connection may be gone.
#[derive(Drop)]
pub(crate) struct ServiceList {
    next: Vec<usize>,
    // All connections are to be serviced at the next turn. It is so, too, once memory was refused for a key.
    has_all: bool,
    turn: Vec<usize>,
}

impl ServiceList {
    /// No connection is to be serviced.
    pub fn new(alloc: Global) -> Self
        ensures { (result.next.items ≡ []) × (result.has_all ≡ false) }
    {
        ServiceList {
            next: Vec::new(alloc),
            has_all: false,
            turn: Vec::new(alloc),
        }
    }

    /// The connection with this key is to be serviced at the next turn.
    pub fn add(&mut self, key: usize)
        ensures added { (self.new.has_all ≡ true)
            ⊎ (self.new.next.items ≡ self.old.next.items ++ key ∷ []) }
        ensures all { self.old.has_all ≡ true → self.new.has_all ≡ true }
        ensures turn { self.new.turn ≡ self.old.turn }
    {
        if self.next.push(key).is_err() {
            self.has_all = true;
        }
    }

    /// All connections are to be serviced at the next turn.
    pub fn add_all(&mut self)
        ensures { self.new ≡ record self.old { has_all = true } }
    {
        self.has_all = true;
    }

    /// Begins a turn, with the connections that were to be serviced. Returns whether these are all that there are.
    pub fn begin_turn(&mut self) -> bool
        ensures all { result ≡ self.old.has_all }
        ensures turn { self.new.turn.items ≡ self.old.next.items }
        ensures none { (self.new.next.items ≡ []) × (self.new.has_all ≡ false) }
    {
        mem::swap(&mut self.turn, &mut self.next);
        self.next.clear();
        mem::replace(&mut self.has_all, false)
    }

    /// The key with this index among those of the turn.
    pub fn in_turn(&self, at: usize) -> Option<usize>
        ensures { result ≡ slice_get self.now.turn.items at }
    {
        self.turn.get(at).copied()
    }

    /// Whether all connections are to be serviced at the next turn.
    pub fn has_all(&self) -> bool
        ensures { result ≡ self.now.has_all }
    {
        self.has_all
    }

    /// The key with this index among those of the next turn, unless it has all.
    pub fn in_next(&self, at: usize) -> Option<usize>
        ensures { result ≡ slice_get self.now.next.items at }
    {
        self.next.get(at).copied()
    }
}
