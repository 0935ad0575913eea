// The end of a feeder's work.
use crate::post_view::PostView;
use crate::service::settle;
use crate::uptime::Uptime;
use crate::{Feeder, FeederFault};
use connections::ArticleSource;
use disk_model::Disk;
use flusher::{Naming, Pace, Post, Signals};
use log::Log;
use std::net::Net;
use std::rt::Clock;
use std::sync::Wait;

// How long the peers have to answer QUIT.
const GOODBYE_MAX_MS: u64 = 1_000;

const GOODBYE_SLEEP_MAX_MS: u64 = 50;

impl<S: ArticleSource + Drop, C: Net + Drop, N: Naming> Feeder<S, C, N> {
    /// Ends all connections in good order, as far as their peers answer within a second. What is still held goes back.
    /// If articles were missing and none was found, the last feeder has the spool among what could not be read.
    pub(crate) fn shut_down<D: Disk, R: Wait + Clock + Log, P: Pace>(
        &mut self,
        rt: &R,
        post: &Post<D, N>,
        signals: &Signals,
        pace: &P,
    ) {
        let view = self.post_view(post, pace, self.ticked.unwrap_or(0), true);
        self.leave_all();
        let _ = self.await_goodbyes(rt, &view, signals);
        self.break_all(rt, &view);
        self.publish_counts(rt, view.now);
        if self.tally.end() && self.tally.missing(rt) > 0 {
            let _ = self.unread.add(self.alloc, self.spool.path(), None);
        }
    }

    // Asks each peer to end its connections.
    fn leave_all(&mut self) {
        self.listed.add_all();
        for key in 0..self.connections.capacity() {
            if let Some(connection) = self.connections.get_mut(key) {
                connection.leave();
            }
        }
    }

    // Services the connections until none is left, for a second at most.
    fn await_goodbyes<D: Disk, R: Wait + Clock + Log, P: Pace>(
        &mut self,
        rt: &R,
        view: &PostView<'_, D, N, P>,
        signals: &Signals,
    ) -> Result<(), FeederFault> {
        let begun = Uptime::now(rt, self.start)?;
        for _ in rt.forever() {
            self.service_all(rt, view)?;
            let passed = Uptime::now(rt, self.start)?.since(begun);
            if self.connections.is_empty() || passed >= GOODBYE_MAX_MS {
                return Ok(());
            }
            if self.awaits_flush() {
                signals.order();
            }
            let _ = self.wait(rt, GOODBYE_SLEEP_MAX_MS)?;
        }
        unreachable!()
    }

    // Breaks each connection that remains, takes back what it held, and drops it.
    fn break_all<D: Disk, R: Wait + Log, P: Pace>(&mut self, rt: &R, view: &PostView<'_, D, N, P>) {
        for key in 0..self.connections.capacity() {
            self.break_one(rt, view, key);
            self.remove(rt, view, key);
        }
    }

    // Breaks a connection, if there is one, and takes back what it held.
    fn break_one<D: Disk, R: Wait + Log, P: Pace>(
        &mut self,
        rt: &R,
        view: &PostView<'_, D, N, P>,
        key: usize,
    ) {
        if let Some((connection, mut env)) = self.connection_and_env(key) {
            connection.give_up();
            let _ = settle(connection, rt, view, &mut env);
        }
    }
}
