// How soon the intake looks for more lines at the end of a funnel that is followed.
ghost use Rattle.std.specs.Prelude.{◌≡◌};
ghost use Rattle.intake.specs.Pauses.{pause_ms};

use std::rt::Clock;
use std::time::Instant;

// The pause if lines came within the last second.
const BUSY_PAUSE_MS: u64 = 5;

// The pause while batches are not acknowledged, or that is not printed yet, so that it soon is.
const AWAITED_PAUSE_MS: u64 = 20;

const PAUSE_MS: u64 = 50;

/// How soon more lines are looked for, by when some came last.
#[derive(Clone, Copy, Debug)]
pub(crate) struct LookPace {
    // `None` before the first.
    came: Option<Instant>,
}

impl LookPace {
    pub fn new() -> Self {
        LookPace { came: None }
    }

    /// Lines came now.
    pub fn lines_came<R: Clock>(&mut self, rt: &R) {
        self.came = Instant::now(rt).ok();
    }

    /// The pause in milliseconds. `is_awaited` is whether batches are not acknowledged yet, or that is not printed yet.
    pub fn pause_ms<R: Clock>(&self, rt: &R, is_awaited: bool) -> u64 {
        let is_busy = match self.came {
            Some(came) => came.elapsed(rt).is_ok_and(|passed| passed.as_secs() < 1),
            None => false,
        };
        pause_ms(is_busy, is_awaited)
    }
}

fn pause_ms(is_busy: bool, is_awaited: bool) -> u64
    ensures { result ≡ pause_ms is_busy is_awaited }
{
    match (is_busy, is_awaited) {
        (true, _) => BUSY_PAUSE_MS,
        (false, true) => AWAITED_PAUSE_MS,
        (false, false) => PAUSE_MS,
    }
}
