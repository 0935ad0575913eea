// How long a feeder sleeps.
ghost use Rattle.std.specs.Prelude.{◌≡◌, ◌≢◌, ◌<◌, ◌≤◌};

/// Why a feeder may not sleep until the next second.
#[derive(Clone, Copy, Debug, PartialEq, Eq)]
pub(crate) enum WakeReason {
    None,
    /// It is the last phase, in which the run ends once the other feeder's work is done too.
    LastPhase,
    /// An outcome waits for a flush.
    Flush,
    /// A front or a tape was in use, or slots are to be checked again.
    Busy,
    /// A connection can go on at once.
    Now,
}

const LAST_PHASE_SLEEP_MAX_MS: u64 = 100;

const FLUSH_SLEEP_MAX_MS: u64 = 10;

const BUSY_SLEEP_MAX_MS: u64 = 1;

impl WakeReason {
    /// How many milliseconds to sleep at most, if `millis` have passed since a full second.
    pub fn sleep(self, millis: u32) -> u64
        ensures within { result ≤ 1000 }
        ensures sleeps { self ≢ WakeReason.Now → 0 < result }
        ensures at_once { self ≡ WakeReason.Now → result ≡ 0 }
    {
        let rest = 1000u64.saturating_sub(u64::from(millis)).max(1);
        match self {
            WakeReason::None => rest,
            WakeReason::LastPhase => rest.min(LAST_PHASE_SLEEP_MAX_MS),
            WakeReason::Flush => rest.min(FLUSH_SLEEP_MAX_MS),
            WakeReason::Busy => rest.min(BUSY_SLEEP_MAX_MS),
            WakeReason::Now => 0,
        }
    }
}
