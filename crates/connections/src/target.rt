// Where a peer is and how it is fed.
ghost use Rattle.std.specs.Prelude.{◌≡◌, ◌↔◌, ◌%◌, IfOk, IsNone, length, min, slice_get};
ghost use Rattle.std.specs.Prelude.{if◌then◌else◌};
ghost use Rattle.std.specs.Option.{option_map};
ghost use Rattle.connections.specs.Logins.{begun};

use conn_core::Options;
use funnel::PeerName;
use login::{Account, Login};
use std::alloc::{AllocError, Global};
use std::net::SocketAddr;

/// Where a peer is and how it is fed.
#[derive(Drop)]
pub struct PeerTarget {
    /// The index of its station at the post, and of its host among those that are looked up.
    pub peer: usize,
    pub name: PeerName,
    /// The known addresses of its host, none at first. They are tried in turn, one a try.
    pub addresses: Vec<SocketAddr>,
    /// The user and the password with which a connection begins, if the peer wants them.
    pub account: Option<Account>,
    pub options: Options,
    /// How many connections it is to have (`max-connections`).
    pub connections: u64,
    /// How long a slot waits after its first failure, in seconds (`initial-reconnect-time`).
    pub first_wait: u64,
    /// How long it waits at most, in seconds (`max-reconnect-time`).
    pub most_wait: u64,
}

impl PeerTarget {
    /// How many debts one connection to it can hold, as far as is known before it agrees to a mode.
    pub fn room(&self) -> u64
        ensures { result
            ≡ if self.now.options.streaming then self.now.options.max_queue else 1 }
    {
        if self.options.streaming {
            self.options.max_queue
        } else {
            1
        }
    }

    /// How many feeders have connections to it.
    pub fn feeders(&self) -> u64
        ensures { result ≡ min self.now.connections 2 }
    {
        self.connections.min(2)
    }

    /// A login, with which a connection begins, if the peer has an account.
    ///
    /// # Errors
    /// Memory was refused.
    pub fn login(&self, alloc: Global) -> Result<Option<Login>, AllocError>
        ensures { IfOk result (λ login. login ≡ option_map
            (λ account. begun account self.now.options.response_timeout) self.now.account) }
    {
        match &self.account {
            Some(account) => {
                let login = Login::new(alloc, account, self.options.response_timeout)?;
                Ok(Some(login))
            }
            None => Ok(None),
        }
    }

    /// The address for a try, by the number of tries before it: they go through the addresses in turn. None if the peer
    /// has no address.
    pub fn address(&self, tries: u64) -> Option<SocketAddr>
        ensures none { IsNone result ↔ length self.now.addresses.items ≡ 0 }
        ensures in_turn { result
            ≡ slice_get self.now.addresses.items (tries % length self.now.addresses.items) }
    {
        let count = self.addresses.len() as u64;
        if count == 0 {
            return None;
        }
        self.addresses.get((tries % count) as usize).copied()
    }
}
