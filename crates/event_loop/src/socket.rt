// A link over a nonblocking socket, whose readiness is reported once at each change.
ghost use Rattle.std.specs.Prelude.{◌≡◌, ◌||◌, IfOk, false};
ghost use Rattle.std.specs.IoError.{error_kind};
ghost use Rattle.std.specs.declared.io.ErrorKind.TheVariants.{WouldBlock};
ghost use Rattle.event_loop.specs.Link.{moved};
ghost use Rattle.mio.specs.Event as spec;

use crate::link::Link;
use crate::moved::Moved;
use mio::event::Event;
use mio::net::TcpStream;
use mio::{Interest, Registry, Token};
use std::io::{self, ErrorKind, Read, Write};

/// A link over a TCP stream of `mio`. [`SocketLink::on_event`] sets what the stream is ready for, which holds until a
/// call finds that it is not: only then does a call return `Later`.
#[derive(Drop)]
pub struct SocketLink {
    stream: TcpStream,
    readable: bool,
    writable: bool,
    // The peer sends nothing after what can still be read.
    closing: bool,
    fault: Option<io::Error>,
}

impl SocketLink {
    /// A link over this stream, not known to be ready for anything. What it takes goes out at once (TCP_NODELAY).
    ///
    /// # Errors
    /// The system's error if that option cannot be set.
    pub fn new(stream: TcpStream) -> io::Result<Self>
        ensures reads { IfOk result (λ link. link.readable ≡ false) }
        ensures writes { IfOk result (λ link. link.writable ≡ false) }
        ensures closes { IfOk result (λ link. link.closing ≡ false) }
    {
        stream.set_nodelay(true)?;
        Ok(SocketLink {
            stream,
            readable: false,
            writable: false,
            closing: false,
            fault: None,
        })
    }

    /// Has the system report under this token what the stream is ready for now, and each change. Once is enough:
    /// dropping the link ends it.
    ///
    /// # Errors
    /// The system's error if the stream cannot be registered.
    pub fn register(&mut self, registry: &Registry, token: Token) -> io::Result<()>
        ensures unchanged { self.new ≡ self.old }
    {
        registry.register(
            &mut self.stream,
            token,
            Interest::READABLE | Interest::WRITABLE,
        )
    }

    /// Why the stream failed, if it did: to be called at the first report that it is writable, which ends connecting.
    ///
    /// # Errors
    /// The system's error if it cannot be asked.
    pub fn take_error(&self) -> io::Result<Option<io::Error>> {
        self.stream.take_error()
    }

    /// Why the last send or receipt failed, for a log; each error is returned once.
    pub fn take_fault(&mut self) -> Option<io::Error>
        ensures { result ≡ self.old.fault }
    {
        self.fault.take()
    }

    /// Notes what the stream was reported ready for. If it failed, each direction is tried once more and reports the
    /// failure.
    pub fn on_event(&mut self, event: &Event)
        ensures reads { self.new.readable ≡ (self.old.readable || spec.is_readable event.now
            || spec.is_read_closed event.now || spec.is_error event.now) }
        ensures writes { self.new.writable ≡ (self.old.writable || spec.is_writable event.now
            || spec.is_write_closed event.now || spec.is_error event.now) }
        ensures closes { self.new.closing ≡ (self.old.closing || spec.is_read_closed event.now) }
    {
        self.readable = self.readable
            || event.is_readable()
            || event.is_read_closed()
            || event.is_error();
        self.writable = self.writable
            || event.is_writable()
            || event.is_write_closed()
            || event.is_error();
        self.closing = self.closing || event.is_read_closed();
    }
}

impl Link for SocketLink {
    ghost full = { λ link. link.writable ≡ false };

    ghost dry = { λ link. link.readable ≡ false };

    fn recv(&mut self, into: &mut [u8]) -> Moved {
        if !self.readable {
            return Moved::Later;
        }
        match self.stream.read(into) {
            Ok(0) if !into.is_empty() => Moved::Closed,
            Ok(count) => {
                // Octets and the end of the stream can come in one report: then a short read is not the last.
                self.readable = self.closing || count == into.len();
                Moved::Done(count)
            }
            Err(error) => {
                self.readable = error.kind() != ErrorKind::WouldBlock;
                self.refused(error)
            }
        }
    }

    fn send(&mut self, from: &[u8]) -> Moved {
        if !self.writable {
            return Moved::Later;
        }
        match self.stream.write(from) {
            Ok(count) => Moved::Done(count),
            Err(error) => {
                self.writable = error.kind() != ErrorKind::WouldBlock;
                self.refused(error)
            }
        }
    }
}

impl SocketLink {
    // The result of a call that failed with this error. The error is kept if the link is at its end.
    fn refused(&mut self, error: io::Error) -> Moved
        ensures none { moved result ≡ 0 }
        ensures later { result ≡ Moved.Later → error_kind error ≡ WouldBlock }
        ensures readiness { (self.new.readable ≡ self.old.readable)
            × (self.new.writable ≡ self.old.writable) }
    {
        match error.kind() {
            ErrorKind::WouldBlock => Moved::Later,
            ErrorKind::Interrupted => Moved::Done(0),
            _ => {
                self.fault = Some(error);
                Moved::Fault
            }
        }
    }
}
