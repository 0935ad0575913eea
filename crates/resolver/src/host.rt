// What is looked up, and what is found.
ghost use Rattle.std.specs.Prelude.{IfOk};

use std::alloc::{AllocError, Global};
use std::net::{IpAddr, SocketAddr};

/// A host, and the port for its addresses.
#[derive(Debug, Drop, PartialEq, Eq)]
pub struct Host {
    /// A name, or a literal IPv4 or IPv6 address.
    pub name: String,
    /// The port of each address that is found.
    pub port: u16,
}

/// What came of a look-up.
#[derive(Debug, Drop, PartialEq, Eq)]
pub enum Answer {
    /// The host's addresses, at least one, in the order in which they were found.
    Found(Vec<SocketAddr>),
    /// Why no address is known, for a log.
    Unknown(String),
}

impl Host {
    /// `None` if the name is not a literal address.
    pub(crate) fn literal(&self) -> Option<SocketAddr> {
        match self.name.as_str().parse::<IpAddr>() {
            Ok(address) => Some(SocketAddr::new(address, self.port)),
            Err(_) => None,
        }
    }
}

impl Answer {
    ghost use Rattle.resolver.specs.LatestAnswer.{SaysSame};

    /// A copy of the answer.
    ///
    /// # Errors
    /// Memory was refused.
    pub(crate) fn copied(&self, alloc: Global) -> Result<Answer, AllocError>
        ensures ok { IfOk result (λ answer. SaysSame answer self.now) }
    {
        match self {
            Answer::Found(addresses) => Ok(Answer::Found(Vec::from_slice(alloc, addresses)?)),
            Answer::Unknown(reason) => Ok(Answer::Unknown(String::from_str(alloc, reason)?)),
        }
    }

    /// No address is known for this reason; the reason is left out if memory is refused.
    pub(crate) fn unknown(alloc: Global, reason: &str) -> Answer {
        Answer::Unknown(String::from_str(alloc, reason).unwrap_or(String::new(alloc)))
    }
}
