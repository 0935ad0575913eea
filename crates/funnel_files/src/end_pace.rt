// How often the end of the last segment is looked past.
ghost use Rattle.std.specs.Prelude.{◌≡◌};
ghost use Rattle.funnel_files.specs.EndPace.{is_time};

use std::rt::Clock;
use std::time::Instant;

const LOOK_PERIOD_MS: u128 = 200;

/// When it is looked for what follows the open segment: at once at an end that was just reached, and then each 200
/// milliseconds, so that the segment itself can be looked at more often.
#[derive(Clone, Copy, Debug)]
pub(crate) struct EndPace {
    // When it was looked last. `None` if more of the segment was read since.
    looked: Option<Instant>,
}

impl EndPace {
    pub fn new() -> Self {
        EndPace { looked: None }
    }

    /// More of the segment was read.
    pub fn read_on(&mut self) {
        self.looked = None;
    }

    /// Whether it is to be looked now, at the end. If the clock cannot be read, it is.
    pub fn is_due<R: Clock>(&mut self, rt: &R) -> bool {
        let now = Instant::now(rt).ok();
        let passed = match (self.looked, now) {
            (Some(looked), Some(now)) => Some(now.saturating_duration_since(looked).as_millis()),
            _ => None,
        };
        let is_due = is_time(passed);
        if is_due {
            self.looked = now;
        }
        is_due
    }
}

// Whether it is time to look, by how many milliseconds have passed since the last look, if that is known.
fn is_time(passed: Option<u128>) -> bool
    ensures { result ≡ is_time passed }
{
    match passed {
        Some(passed) => passed >= LOOK_PERIOD_MS,
        None => true,
    }
}
