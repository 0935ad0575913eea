// Why an article was not taken.
use thiserror::Error;

/// Why an article was not taken.
#[derive(Clone, Copy, Debug, PartialEq, Eq, Error)]
pub enum ArticleFault {
    /// No article is wanted under this key.
    #[error("NotNeeded")]
    NotNeeded,
    /// Memory was refused.
    #[error("NoMemory")]
    NoMemory,
}
