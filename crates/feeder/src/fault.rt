// Why a feeder ended before its work was done.
use flusher::PostFault;
use thiserror::Error;

/// Why a feeder ended before its work was done.
#[derive(Clone, Copy, Debug, PartialEq, Eq, Error)]
pub enum FeederFault {
    /// The post refused what the feeder can't do without.
    #[error("{0}")]
    Post(PostFault),
    /// A target names a peer that the post does not have.
    #[error("NoPeer")]
    NoPeer,
    /// The clock could not be read, or the sockets not be polled.
    #[error("System")]
    System,
}

impl From<PostFault> for FeederFault {
    ghost use Rattle.std.specs.Prelude.{◌≡◌};
    ghost use Rattle.feeder.specs.declared.fault.FeederFault.TheVariants.{Post};

    ghost from_gives = { λ fault made. made ≡ Post fault };

    fn from(fault: PostFault) -> Self {
        Self::Post(fault)
    }
}
