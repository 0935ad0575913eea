// How a connection sends articles.

/// How a connection sends articles, as its peer has agreed to.
#[derive(Clone, Copy, Debug, PartialEq, Eq)]
pub enum Mode {
    /// By CHECK and TAKETHIS, many at a time (RFC 4644, section 2).
    Streaming,
    /// By IHAVE, one at a time (RFC 3977, section 6.3.2).
    Ihave,
}
