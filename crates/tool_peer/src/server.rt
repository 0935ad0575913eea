// The connections, in one thread.
use crate::exchange::PeerExchange;
use crate::history::History;
use anyhow::Result;
use mio::event::Event;
use mio::net::{TcpListener, TcpStream};
use mio::{Events, Interest, Poll, Token};
use slab::Slab;
use std::io::{ErrorKind, Read, Write};
use std::net::{Ipv4Addr, Net, SocketAddr};
use std::rt::Files;

// The listener's token; a connection's is its key.
const LISTENER: Token = Token(usize::MAX);

#[derive(Drop)]
struct PeerLink {
    stream: TcpStream,
    exchange: PeerExchange,
    // How many octets of the output are sent.
    sent: usize,
}

#[derive(Drop)]
struct Server {
    poll: Poll,
    listener: TcpListener,
    links: Slab<PeerLink>,
    history: History,
    buffer: Vec<u8>,
}

/// Listens on this port of 127.0.0.1, prints the port, and serves every client.
pub fn serve<R: AllocGlobal + Net + Print>(rt: &R, port: u16, history: History) -> Result<()> {
    let alloc = rt.alloc();
    let mut listener = TcpListener::bind(rt, SocketAddr::from((Ipv4Addr::LOCALHOST, port)))?;
    let poll = Poll::new(rt)?;
    poll.registry()
        .register(&mut listener, LISTENER, Interest::READABLE)?;
    println!(rt; "listening on 127.0.0.1:{}", listener.local_addr()?.port())?;
    let mut server = Server {
        poll,
        listener,
        links: Slab::new(alloc),
        history,
        buffer: vec![in alloc; 0u8; 65_536]?,
    };
    let mut events = Events::with_capacity(alloc, 64)?;
    for _ in 0..u64::MAX {
        server.poll.poll(&mut events, None)?;
        for event in &events {
            server.turn(event)?;
        }
    }
    Ok(())
}

impl Server {
    fn turn(&mut self, event: &Event) -> Result<()> {
        if event.token() == LISTENER {
            return self.accept_all();
        }
        let key = event.token().0;
        let Some(link) = self.links.get_mut(key) else {
            return Ok(());
        };
        if !link.drive(&mut self.buffer, &mut self.history)? {
            let _ = self.links.try_remove(key);
        }
        Ok(())
    }

    fn accept_all(&mut self) -> Result<()> {
        for _ in 0..u64::MAX {
            match self.listener.accept() {
                Ok((stream, _)) => self.add(stream)?,
                Err(error) if error.kind() == ErrorKind::WouldBlock => break,
                Err(error) if error.kind() == ErrorKind::Interrupted => {}
                Err(error) if error.kind() == ErrorKind::ConnectionAborted => {}
                Err(error) => return Err(error.into()),
            }
        }
        Ok(())
    }

    fn add(&mut self, stream: TcpStream) -> Result<()> {
        stream.set_nodelay(true)?;
        let exchange = PeerExchange::new(self.history.alloc())?;
        self.links.reserve(1)?;
        let key = self.links.insert_reserved(PeerLink {
            stream,
            exchange,
            sent: 0,
        });
        if let Some(link) = self.links.get_mut(key) {
            self.poll.registry().register(
                &mut link.stream,
                Token(key),
                Interest::READABLE | Interest::WRITABLE,
            )?;
        }
        Ok(())
    }
}

impl PeerLink {
    // Reads, answers and sends as far as possible; false if the connection is over.
    fn drive(&mut self, buffer: &mut [u8], history: &mut History) -> Result<bool> {
        let open = self.receive(buffer, history)?;
        Ok(self.send() && open && !(self.exchange.ended && self.exchange.output.is_empty()))
    }

    // False if the other end has closed, or the connection has failed.
    fn receive(&mut self, buffer: &mut [u8], history: &mut History) -> Result<bool> {
        for _ in 0..u64::MAX {
            if self.exchange.ended {
                break;
            }
            match self.stream.read(buffer) {
                Ok(0) => return Ok(false),
                Ok(count) => {
                    let octets = buffer.get(..count).unwrap_or(b"");
                    self.exchange.take_in(octets, history)?;
                    self.send();
                }
                Err(error) if error.kind() == ErrorKind::WouldBlock => break,
                Err(error) if error.kind() == ErrorKind::Interrupted => {}
                Err(_) => return Ok(false),
            }
        }
        Ok(true)
    }

    // False if the connection has failed.
    fn send(&mut self) -> bool {
        for _ in 0..u64::MAX {
            if self.sent >= self.exchange.output.len() {
                self.exchange.output.clear();
                self.sent = 0;
                break;
            }
            match self.stream.write(&self.exchange.output[self.sent..]) {
                Ok(count) => self.sent = self.sent.saturating_add(count),
                Err(error) if error.kind() == ErrorKind::WouldBlock => break,
                Err(error) if error.kind() == ErrorKind::Interrupted => {}
                Err(_) => return false,
            }
        }
        true
    }
}
