// The suspects of one peer: articles at which connections to it failed.
ghost use Rattle.std.specs.Prelude.{◌≡◌, ◌≤◌, ◌&&◌, [], length, map, IfOk, OnOk, Some};
ghost use Rattle.connections.specs.Suspects.{first_place, has_key, is_at, is_of, met, place, place_for, place_of};
ghost use Rattle.connections.specs.Suspects.{then_latest, with_latest, without, without_article, without_place};

use funnel::{MsgId, Token, read_backlog_line};
use ledger_core::{Debt, Key};
use std::alloc::{AllocError, Global};

const SUSPECTS_MAX: usize = 4_096;

/// An article at which connections to a peer failed, in this run or an earlier one, and that has not ended since.
#[derive(Drop)]
pub(crate) struct Suspect {
    pub token: Token,
    pub id: MsgId,
    pub state: SuspectState,
}

/// What became of a suspect in this run.
#[derive(Clone, Copy)]
pub(crate) enum SuspectState {
    /// It is of an earlier run, and was not offered in this one. In the last stage the one with the least place comes
    /// first.
    Pending { place: u64 },
    /// It was offered in this run, or does not wait for the last stage. Its debt has this key.
    Met { key: Key },
}

impl SuspectState {
    // The place of one that is pending.
    fn place(&self) -> Option<u64>
        ensures { result ≡ place_of self.now }
    {
        match *self {
            SuspectState::Pending { place } => Some(place),
            SuspectState::Met { .. } => None,
        }
    }
}

impl Suspect {
    /// The article of a debt of this run.
    ///
    /// # Errors
    /// Memory was refused.
    pub fn of_debt(debt: &Debt) -> Result<Suspect, AllocError>
        ensures { IfOk result (λ suspect. (suspect.token ≡ debt.now.1.0)
            × (suspect.id ≡ debt.now.1.1) × (suspect.state ≡ SuspectState.Met debt.now.0)) }
    {
        Ok(Suspect {
            token: debt.token().clone()?,
            id: debt.id().clone()?,
            state: SuspectState::Met { key: debt.key() },
        })
    }

    // Whether it is this article.
    fn is_of(&self, token: &Token, id: &MsgId) -> bool
        ensures { result ≡ is_of token.now id.now self.now }
    {
        self.token.bytes() == token.bytes() && self.id.bytes() == id.bytes()
    }

    // Its place, if it is this article and pending.
    fn place_for(&self, token: &Token, id: &MsgId) -> Option<u64>
        ensures { result ≡ place_for token.now id.now self.now }
    {
        if self.is_of(token, id) {
            self.state.place()
        } else {
            None
        }
    }

    // Whether it is pending, and its place is this.
    fn is_at(&self, place: u64) -> bool
        ensures { result ≡ is_at place self.now.state }
    {
        match self.state {
            SuspectState::Pending { place: own } => own == place,
            SuspectState::Met { .. } => false,
        }
    }

    // Whether its debt of this run has this key.
    fn has_key(&self, key: Key) -> bool
        ensures { result ≡ has_key key self.now.state }
    {
        match self.state {
            SuspectState::Pending { .. } => false,
            SuspectState::Met { key: own } => own == key,
        }
    }

    // If it is this article, and was not offered in this run, its debt has this key from now on.
    fn meet(&mut self, key: Key, token: &Token, id: &MsgId)
        ensures { self.new ≡ met key token.now id.now self.old }
    {
        if self.place_for(token, id).is_some() {
            self.state = SuspectState::Met { key };
        }
    }
}

/// The suspects of one peer, the latest last; 4,096 at most.
#[derive(Drop)]
pub(crate) struct SuspectList {
    suspects: Vec<Suspect>,
}

impl SuspectList {
    pub fn new(alloc: Global) -> Self
        ensures { result.suspects.items ≡ [] }
    {
        SuspectList {
            suspects: Vec::new(alloc),
        }
    }

    pub fn is_empty(&self) -> bool {
        self.suspects.is_empty()
    }

    /// The place of the first that is of an earlier run and was not offered in this one.
    pub fn first_place(&self) -> Option<u64>
        ensures { result ≡ first_place self.now.suspects.items }
    {
        for suspect in &self.suspects {
            let place = suspect.state.place();
            if place.is_some() {
                return place;
            }
        }
        None
    }

    /// The place of this article, if it is one of an earlier run and was not offered in this one.
    pub fn place(&self, token: &Token, id: &MsgId) -> Option<u64>
        ensures { result ≡ place token.now id.now self.now.suspects.items }
    {
        for suspect in &self.suspects {
            let place = suspect.place_for(token, id);
            if place.is_some() {
                return place;
            }
        }
        None
    }

    /// This article is offered in this run, or no longer waits for the last stage: its debt has this key.
    pub fn meet(&mut self, key: Key, token: &Token, id: &MsgId)
        ensures { self.new.suspects.items
            ≡ map (met key token.now id.now) self.old.suspects.items }
    {
        for suspect in self.suspects.iter_mut() {
            suspect.meet(key, token, id);
        }
    }

    /// The debt of this key has ended: its article is no longer a suspect. All others are.
    pub fn forget(&mut self, key: Key)
        ensures { self.new.suspects.items ≡ without key self.old.suspects.items }
    {
        self.suspects.retain(|suspect| !suspect.has_key(key));
    }

    /// No debt that waits is the pending suspect with this place: its debt has ended. All others stay.
    pub fn end_pending(&mut self, place: u64)
        ensures { self.new.suspects.items ≡ without_place place self.old.suspects.items }
    {
        self.suspects.retain(|suspect| !suspect.is_at(place));
    }

    /// A connection failed at this article. It is the latest suspect, whether or not it was one before.
    ///
    /// # Errors
    /// Memory was refused: it is none.
    pub fn add(&mut self, suspect: Suspect) -> Result<(), AllocError>
        ensures ok { OnOk result
            (self.new.suspects.items ≡ with_latest self.old.suspects.items suspect) }
    {
        self.remove(&suspect.token, &suspect.id);
        self.push(suspect)
    }

    // Takes out this article.
    fn remove(&mut self, token: &Token, id: &MsgId)
        ensures { self.new.suspects.items
            ≡ without_article token.now id.now self.old.suspects.items }
    {
        self.suspects.retain(|suspect| !suspect.is_of(token, id));
    }

    // Adds one as the latest. If there are 4,096, the oldest goes.
    fn push(&mut self, suspect: Suspect) -> Result<(), AllocError>
        ensures ok { OnOk result
            (self.new.suspects.items ≡ then_latest self.old.suspects.items suspect) }
        ensures few { length self.old.suspects.items ≤ 4096
            → length self.new.suspects.items ≤ 4096 }
    {
        if self.suspects.len() >= SUSPECTS_MAX {
            let _ = self.suspects.remove(0);
        }
        self.suspects.push(suspect)?;
        Ok(())
    }

    /// Adds the suspects of an earlier run, which are the lines of this text, each with the place of its line; the last
    /// 4,096 of them are kept. Returns how many lines are malformed, which are passed over.
    ///
    /// # Errors
    /// Memory was refused.
    pub fn read(&mut self, alloc: Global, text: &[u8]) -> Result<u64, AllocError> {
        let mut malformed = 0u64;
        let mut place = 0u64;
        for line in text.split(|octet| *octet == b'\n') {
            if line.is_empty() {
                continue;
            }
            match read_backlog_line(alloc, line) {
                Ok((token, id)) => {
                    self.push(Suspect {
                        token,
                        id,
                        state: SuspectState::Pending { place },
                    })?;
                    place = place.saturating_add(1);
                }
                Err(_) => malformed = malformed.saturating_add(1),
            }
        }
        Ok(malformed)
    }

    /// Each as a line of a text: the token, a space, the message-id.
    ///
    /// # Errors
    /// Memory was refused.
    pub fn text(&self, alloc: Global) -> Result<Vec<u8>, AllocError> {
        let mut text = Vec::new(alloc);
        for suspect in &self.suspects {
            text.extend_from_slice(suspect.token.bytes())?;
            text.push(b' ')?;
            text.extend_from_slice(suspect.id.bytes())?;
            text.push(b'\n')?;
        }
        Ok(text)
    }
}
