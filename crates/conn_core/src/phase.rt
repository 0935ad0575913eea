// What a connection waits for, and its mode.

// The stages of a connection (RFC 3977, section 5; RFC 4644, section 2.3).
#[derive(Clone, Copy, Debug, PartialEq, Eq)]
pub(crate) enum Phase {
    // The greeting is awaited.
    Greeting,
    // The answer to MODE STREAM is awaited.
    Asking,
    // Streaming mode: CHECK and TAKETHIS.
    Streaming,
    // One article at a time: IHAVE.
    OneByOne,
    // QUIT is out.
    Leaving,
}
