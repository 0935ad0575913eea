// The check switch: whether a CHECK goes before a TAKETHIS (innfeed.conf(5), no-check-high, no-check-low,
// no-check-filter).
ghost use Rattle.std.specs.Prelude.{◌≡◌, ◌+◌, ◌*◌, ◌^◌, ◌≤◌, ◌<◌, ◌&&◌, ◌||◌, []};
ghost use Rattle.std.specs.Prelude.{◌∷◌, not, false, take, IfOk, nat_le, option_to_list};
ghost use Rattle.conn_core.specs.Checks.{accepted_among};
ghost use Rattle.conn_core.specs.Machine.{are_off_with};

use crate::options::Options;
use circular_buffer::HeapCircularBuffer;
use std::alloc::{AllocError, Global};
use std::marker::Model;

// The counted answers, and what they make of the switch: how many of the last of them accepted their articles.
#[derive(Drop)]
pub(crate) struct CheckSwitch {
    // Whether the article was accepted, newest first: at most `no-check-filter` answers.
    recent: HeapCircularBuffer<bool>,
    // How many of these are true, so that an answer costs the same however many there are.
    accepted: u64,
    off: bool,
}

impl Model for CheckSwitch {
    ghost use Rattle.std.specs.Prelude.{◌≡◌, ◌≤◌, length};
    ghost use Rattle.conn_core.specs.Checks.{accepted_among};
    ghost use Rattle.conn_core.specs.CheckSwitch.{Switch};

    ghost Value = { Switch };

    ghost view = { λ s. record { filter = s.recent.capacity; recent = s.recent.items; off = s.off } };

    ghost invariant = { λ s. (s.accepted ≡ accepted_among s.recent.items)
        × (length s.recent.items ≤ s.recent.capacity) };
}

impl CheckSwitch {
    // A switch with checks on.
    pub(crate) fn new(alloc: Global, filter: u64) -> Result<Self, AllocError>
        ensures { IfOk result (λ s. s ≡ record { filter = filter; recent = []; off = false }) }
    {
        Ok(CheckSwitch {
            recent: HeapCircularBuffer::with_capacity(alloc, filter as usize)?,
            accepted: 0,
            off: false,
        })
    }

    pub(crate) fn checks(&self) -> bool
        ensures { result ≡ not self.now.off }
    {
        !self.off
    }

    // Counts an answer: `accepts` if the peer accepts the article.
    pub(crate) fn count(&mut self, options: &Options, accepts: bool)
        requires { self.old.filter ≡ options.now.check_filter }
        ensures filter { self.new.filter ≡ self.old.filter }
        ensures recent { self.new.recent
            ≡ take options.now.check_filter (accepts ∷ self.old.recent) }
        ensures off { self.new.off
            ≡ are_off_with options.now self.old.off
            (take options.now.check_filter (accepts ∷ self.old.recent)) }
    {
        let gone = self.recent.push_front(accepts);
        let answers = self.recent.len() as u64;
        self.accepted = accepted_after(self.accepted, accepts, gone);
        let filter = options.check_filter;
        let high = is_at_least(self.accepted, options.check_high, filter);
        let kept = is_at_least(self.accepted, options.check_low, filter);
        self.off = is_off(answers >= filter, high, kept, self.off);
    }
}

// Checks are off once there are `filter` answers and the share is at the upper mark, or is not below the lower one
// and they were off before.
fn is_off(full: bool, high: bool, kept: bool, off: bool) -> bool
    ensures { result ≡ (full && (high || (kept && off))) }
{
    full && (high || (kept && off))
}

// The count with one more answer and without the one that it pushes out. `few` keeps the sum from overflowing.
fn accepted_after(accepted: u64, accepts: bool, gone: Option<bool>) -> u64
    requires few { accepted < 2 ^ 63 }
    requires among { accepted_among (option_to_list gone)
        ≤ accepted_among (accepts ∷ []) + accepted }
    ensures { result + accepted_among (option_to_list gone)
        ≡ accepted_among (accepts ∷ []) + accepted }
{
    let more = if accepts { accepted + 1 } else { accepted };
    match gone {
        Some(true) => more - 1,
        _ => more,
    }
}

// Whether the share `accepted / filter` is at least this mark, in hundredths of a per cent. No product of u128
// overflows.
fn is_at_least(accepted: u64, mark: u64, filter: u64) -> bool
    ensures { result ≡ nat_le (mark * filter) (accepted * 10000) }
{
    u128::from(mark) * u128::from(filter) <= u128::from(accepted) * 10000
}
