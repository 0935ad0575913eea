// The octets that were fed and are not read yet.
ghost use Rattle.std.specs.Prelude.{◌≡◌, ◌≤◌, ◌++◌, [], ℕ, List, length, take, drop, OnOk, OnErr};
ghost use Rattle.std.specs.Prelude.{MatchOption};
ghost use Rattle.funnel.specs.Stream.{IsUnended};
ghost use Rattle.reply_reader.specs.Search.{EndsAt, IsSearched};

use memchr::memchr;
use std::alloc::{AllocError, Global};
use std::marker::Model;

/// The octets that were fed and are not read yet. Each is searched for an LF only once.
#[derive(Debug, Drop)]
pub(crate) struct Unread {
    octets: Vec<u8>,
    /// The offset of the first unread octet.
    first: usize,
    /// There is no LF from `first` up to this offset.
    searched: usize,
}

impl Model for Unread {
    ghost Value = { List ℕ };

    ghost view = { λ unread. drop unread.first unread.octets.items };

    ghost invariant = { λ unread. IsSearched unread.octets.items unread.first unread.searched };
}

impl Unread {
    pub(crate) fn new(alloc: Global) -> Self
        ensures { result ≡ [] }
    {
        Unread {
            octets: Vec::new(alloc),
            first: 0,
            searched: 0,
        }
    }

    pub(crate) fn alloc(&self) -> Global {
        *self.octets.allocator()
    }

    pub(crate) fn len(&self) -> usize
        ensures { result ≡ length self.now }
    {
        self.octets.len() - self.first
    }

    // Takes in more octets, and reuses the room of those that are read.
    pub(crate) fn feed(&mut self, piece: &[u8]) -> Result<(), AllocError>
        ensures fed { OnOk result (self.new ≡ self.old ++ piece.now) }
        ensures unchanged { OnErr result (self.new ≡ self.old) }
    {
        self.compact();
        self.octets.extend_from_slice(piece)
    }

    fn compact(&mut self)
        ensures { self.new ≡ self.old }
    {
        if self.first == 0 {
            return;
        }
        let len = self.len();
        self.octets.copy_within(self.first.., 0);
        self.octets.truncate(len);
        self.searched -= self.first;
        self.first = 0;
    }

    // The offset of the first LF, counted from the first unread octet.
    pub(crate) fn first_end(&mut self) -> Option<usize>
        ensures unchanged { self.new ≡ self.old }
        ensures offset { MatchOption result (IsUnended self.old)
            (λ offset. EndsAt self.old offset) }
    {
        match memchr(b'\n', &self.octets[self.searched..]) {
            Some(offset) => {
                self.searched += offset;
                Some(self.searched - self.first)
            }
            None => {
                self.searched = self.octets.len();
                None
            }
        }
    }

    pub(crate) fn prefix(&self, len: usize) -> &[u8]
        requires { len ≤ length self.now }
        ensures { result.now ≡ take len self.now }
    {
        &self.octets[self.first..self.first + len]
    }

    pub(crate) fn skip(&mut self, len: usize)
        requires { len ≤ length self.old }
        ensures { self.new ≡ drop len self.old }
    {
        self.first += len;
        self.searched = self.searched.max(self.first);
    }
}
