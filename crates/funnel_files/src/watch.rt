// Waits for a file that may be silent.
use mio::unix::SourceFd;
use mio::{Events, Interest, Poll, Token};
use std::alloc::Global;
use std::fs::File;
use std::io::{self, ErrorKind};
use std::net::Net;
use std::os::fd::{AsRawFd, RawFd};
use std::time::Duration;

const TOKEN: Token = Token(0);

/// Waits until something can be read from a pipe, a terminal or the like. The descriptor is not made nonblocking,
/// because other processes may share it.
#[derive(Drop)]
pub(crate) struct Watch {
    poll: Poll,
    events: Events,
    descriptor: RawFd,
}

impl Watch {
    /// A watch of this file, for as long as that is open. `None` if there is nothing to wait for: a plain file and a
    /// directory can be read at once.
    ///
    /// # Errors
    /// The system's error.
    pub fn new<C: Net>(alloc: Global, net: &C, file: &File) -> io::Result<Option<Self>> {
        let watch = Watch {
            poll: Poll::new(net)?,
            events: Events::with_capacity(alloc, 1)?,
            descriptor: file.as_raw_fd(),
        };
        let mut source = SourceFd(&watch.descriptor);
        let registered = watch
            .poll
            .registry()
            .register(&mut source, TOKEN, Interest::READABLE);
        match registered {
            Ok(()) => Ok(Some(watch)),
            Err(error) if error.kind() == ErrorKind::PermissionDenied => Ok(None),
            Err(error) => Err(error),
        }
    }

    /// Waits until something can be read or the end has come, so long at most. Returns whether it has.
    ///
    /// # Errors
    /// The system's error.
    pub fn wait(&mut self, at_most: Duration) -> io::Result<bool> {
        // Only after this call is what was there before the last wait reported again.
        let mut source = SourceFd(&self.descriptor);
        self.poll
            .registry()
            .reregister(&mut source, TOKEN, Interest::READABLE)?;
        self.poll.poll(&mut self.events, Some(at_most))?;
        Ok(!self.events.is_empty())
    }
}
