// One look-up of a name.
use std::alloc::Global;
use std::io;
use std::net::{Net, SocketAddr, ToSocketAddrs};

/// What looks a name up.
pub trait LookUp {
    /// The addresses of the host with this name, each with this port. It may take as long as it likes: a resolver
    /// calls it in a thread of its own, and up to 8 calls run at once.
    ///
    /// # Errors
    /// Why the name has no address, or could not be looked up.
    fn look_up(&self, alloc: Global, name: &str, port: u16) -> io::Result<Vec<SocketAddr>>;
}

/// Looks names up through the system, with this capability to use sockets.
#[derive(Clone, Copy, Debug)]
pub struct SystemLookUp<C>(pub C);

impl<C: Net> LookUp for SystemLookUp<C> {
    fn look_up(&self, alloc: Global, name: &str, port: u16) -> io::Result<Vec<SocketAddr>> {
        let mut addresses = Vec::new(alloc);
        for address in (name, port).to_socket_addrs(&self.0)? {
            addresses.push(address)?;
        }
        Ok(addresses)
    }
}
