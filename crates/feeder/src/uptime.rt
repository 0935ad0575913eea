// The time since a run began.
use crate::FeederFault;
use connections::logging::log_refused;
use log::Log;
use std::time::{Clock, Duration, Instant};

/// The time since the run's start.
#[derive(Clone, Copy, Debug, PartialEq, Eq)]
pub(crate) struct Uptime {
    /// Whole seconds.
    pub seconds: u64,
    /// And milliseconds, below 1,000.
    pub millis: u32,
}

impl Uptime {
    /// Reads the clock. If that fails, the reason is logged.
    ///
    /// # Errors
    /// `System` if the clock can't be read.
    pub fn now<R: Clock + Log>(rt: &R, start: Instant) -> Result<Uptime, FeederFault> {
        match start.elapsed(rt) {
            Ok(since) => Ok(Uptime {
                seconds: since.as_secs(),
                millis: since.subsec_millis(),
            }),
            Err(error) => {
                log_refused(rt, "read the clock", &error);
                Err(FeederFault::System)
            }
        }
    }

    /// The milliseconds since an earlier one.
    pub fn since(self, earlier: Uptime) -> u64 {
        self.total_millis().saturating_sub(earlier.total_millis())
    }

    fn total_millis(self) -> u64 {
        self.seconds
            .saturating_mul(1_000)
            .saturating_add(u64::from(self.millis))
    }
}

/// Always `Some`: without a timeout a poll would wait for an event, however long that takes.
pub(crate) fn timeout(millis: u64) -> Option<Duration> {
    Some(Duration::from_millis(millis))
}
