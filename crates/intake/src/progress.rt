// The progress of a run, for its log.
ghost use Rattle.std.specs.Prelude.{◌≡◌, [], if◌then◌else◌};

use disk_model::Disk;
use flusher::{Naming, Post};
use funnel::PeerName;
use ledger_core::Totals;
use log::{Level, Log, info, log_enabled};
use std::alloc::{AllocError, Global};
use std::rt::Clock;
use std::str;
use std::sync::Wait;
use std::time::Instant;

const PERIOD_SECONDS: u64 = 10;

// The same for a run that follows its funnel.
const FOLLOWED_PERIOD_SECONDS: u64 = 600;

/// When the progress was logged last, and how many debts each peer had answered then.
#[derive(Drop)]
pub struct Progress {
    // After how many seconds it is logged again.
    period: u64,
    logged: Instant,
    answered: Vec<u64>,
}

impl Progress {
    /// It counts as logged now. It is logged each 10 seconds, or, if the run follows its funnel, each 10 minutes.
    pub fn new(alloc: Global, now: Instant, is_followed: bool) -> Self
        ensures period { result.period ≡ (if is_followed then 600 else 10) }
        ensures none { (result.logged ≡ now) × (result.answered.items ≡ []) }
    {
        Progress {
            period: if is_followed {
                FOLLOWED_PERIOD_SECONDS
            } else {
                PERIOD_SECONDS
            },
            logged: now,
            answered: Vec::new(alloc),
        }
    }

    /// Keeps how many debts each peer has answered before the work.
    ///
    /// # Errors
    /// Memory was refused.
    pub(crate) fn begin<D: Disk, N: Naming, R: Wait>(
        &mut self,
        rt: &R,
        post: &Post<D, N>,
    ) -> Result<(), AllocError> {
        for peer in 0..post.peers() {
            self.answered.push(post.totals(rt, peer).answered)?;
        }
        Ok(())
    }

    /// If it is due, logs for each peer that is owed something or has answered since: how many debts it was given, has
    /// answered and is owed, and how many it answers a second.
    pub(crate) fn log<D: Disk, N: Naming, R: Wait + Clock + Log>(
        &mut self,
        rt: &R,
        post: &Post<D, N>,
        names: &[PeerName],
    ) {
        let Ok(passed) = self.logged.elapsed(rt) else {
            return;
        };
        if passed.as_secs() < self.period {
            return;
        }
        if let Ok(now) = Instant::now(rt) {
            self.logged = now;
        }
        if log_enabled!(rt; Level::Info) {
            self.log_peers(rt, post, names, passed.as_secs());
        }
    }

    fn log_peers<D: Disk, N: Naming, R: Wait + Log>(
        &mut self,
        rt: &R,
        post: &Post<D, N>,
        names: &[PeerName],
        seconds: u64,
    ) {
        for (peer, (name, before)) in names.iter().zip(&mut self.answered).enumerate() {
            if peer >= post.peers() {
                return;
            }
            let totals = post.totals(rt, peer);
            let answered = totals.answered.saturating_sub(*before);
            *before = totals.answered;
            if answered > 0 || totals.owed > 0 {
                log_peer(rt, name, &totals, answered / seconds.max(1));
            }
        }
    }
}

// Logs the progress of the peer of this name, which answers so many debts a second.
fn log_peer<R: Log>(rt: &R, name: &PeerName, totals: &Totals, rate: u64) {
    let name = str::from_utf8(name.bytes()).unwrap_or("");
    info!(
        rt; "{}: taken {}, answered {}, owed {}, {} a second",
        name, totals.taken, totals.answered, totals.owed, rate
    );
}
