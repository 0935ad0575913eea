// How often a directory of segments is listed.
use std::rt::Clock;
use std::time::{Duration, Instant};

// How long names are held at most before the directory is listed again.
const HELD_MAX_SECONDS: u64 = 60;

// For how many names it is listed a second later at the end of the last segment.
const NAMES_A_SECOND: usize = 1_000;

/// When a directory is to be listed again. The time begins with the first question.
#[derive(Clone, Copy, Debug)]
pub(crate) struct ListingPace {
    listed: Option<Instant>,
}

impl ListingPace {
    pub fn new() -> Self {
        ListingPace { listed: None }
    }

    /// Whether a minute has passed since the directory was listed; at the end of the last of so many segments, whether
    /// a second has, or as many as it has thousands. If the clock cannot be read, it is to be listed.
    pub fn is_due<R: Clock>(&mut self, rt: &R, is_at_end: bool, count: usize) -> bool {
        let Ok(now) = Instant::now(rt) else {
            return true;
        };
        let Some(listed) = self.listed else {
            self.listed = Some(now);
            return false;
        };
        let seconds = if is_at_end {
            seconds_for(count)
        } else {
            HELD_MAX_SECONDS
        };
        let is_due = now.saturating_duration_since(listed) >= Duration::from_secs(seconds);
        if is_due {
            self.listed = Some(now);
        }
        is_due
    }
}

// How many seconds pass between two listings at the end of the last of so many segments.
fn seconds_for(count: usize) -> u64 {
    ((count / NAMES_A_SECOND) as u64).clamp(1, HELD_MAX_SECONDS)
}
