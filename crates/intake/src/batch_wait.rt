// How long a batch of lines waits for more, in a funnel that is followed.
ghost use Rattle.std.specs.Prelude.{◌≡◌};
ghost use Rattle.intake.specs.Pauses.{ends_batch};

use std::rt::Clock;
use std::time::Instant;

const WAIT_MAX_MS: u128 = 5;

/// How long the first line of a batch has waited for the others. Each piece that is read of a segment is synced first,
/// and lines that come meanwhile would fill the batch up: on a slow disk that takes many syncs.
#[derive(Clone, Copy, Debug)]
pub(crate) struct BatchWait {
    // `None` before the first line, or if the clock could not be read then.
    since: Option<Instant>,
}

impl BatchWait {
    pub fn new() -> Self {
        BatchWait { since: None }
    }

    /// A line came. Whether the batch ends with it: if the first one came 5 milliseconds ago, or before.
    pub fn is_over<R: Clock>(&mut self, rt: &R) -> bool {
        let Some(since) = self.since else {
            self.since = Instant::now(rt).ok();
            return false;
        };
        match since.elapsed(rt) {
            Ok(passed) => ends_batch(passed.as_millis()),
            Err(_) => false,
        }
    }
}

// Whether a batch ends, by how many milliseconds ago its first line came.
fn ends_batch(passed: u128) -> bool
    ensures { result ≡ ends_batch passed }
{
    passed >= WAIT_MAX_MS
}
