// Articles that are handed in.
ghost use Rattle.std.specs.Prelude.{◌≡◌, ◌≢◌, ◌<◌, ◌≤◌, ◌/◌};
ghost use Rattle.connections.specs.Articles.{AllStayFound, HandsInNothing, IsFoundFor, MayHandIn};
ghost use Rattle.connections.specs.Counted.{sent_with};
ghost use Rattle.peer_counts.specs.Counts.{sum_of};

use super::PeerConnection;
use crate::answer_counts::sent_with;
use crate::article_source::ArticleSource;
use crate::close_reason::ObservedEnd;
use crate::conn_calls::break_conn;
use crate::descriptors::unread_article;
use crate::feeder_spool::FeederSpool;
use crate::logging::log_unread;
use crate::spool_tally::SpoolRule;
use crate::unread_paths::UnreadPaths;
use article_store::{Found, SpoolDirectory, StoreFault};
use conn_core::Conn;
use conn_laws::articles::articles_are_of_their_debts;
use funnel::Token;
use ledger_core::Key;
use log::Log;
use peer_counts::PeerCounts;

// If so much output waits, it is sent before another article is read.
const OUTPUT_ENOUGH_OCTETS: usize = 65_536;

impl PeerConnection {
    /// Hands in the articles that are wanted, until there is enough output, half a window of articles at most: so the
    /// peer works on one half while the other is read. It closes if one can't be read. Returns false if the spool is
    /// missing, or counts as missing: then none is handed in. What is handed in for each debt is what the source gives
    /// for its token and its message-id, or gave a while ago; `now` is the second that it is.
    pub fn hand_in<R: Log, A: ArticleSource>(
        &mut self,
        rt: &R,
        spool: &mut FeederSpool<A>,
        rule: SpoolRule<'_>,
        unread: &mut UnreadPaths,
        now: u64,
    ) -> bool
        ensures { AllStayFound (IsFoundFor A.gives) self.old.conn self.new.conn }
    {
        for _ in 0..half_of(self.owner.room) {
            if self.conn.output().len() >= OUTPUT_ENOUGH_OCTETS {
                return true;
            }
            match self.hand(rt, spool, rule, unread, now) {
                HandInResult::None => return true,
                HandInResult::One => {}
                HandInResult::OutOfReach => return false,
            }
        }
        true
    }

    // Hands in the article that was wanted first. If memory is refused, the connection breaks and nothing is logged.
    fn hand<R: Log, A: ArticleSource>(
        &mut self,
        rt: &R,
        spool: &mut FeederSpool<A>,
        rule: SpoolRule<'_>,
        unread: &mut UnreadPaths,
        now: u64,
    ) -> HandInResult
        ensures { AllStayFound (IsFoundFor A.gives) self.old.conn self.new.conn }
    {
        articles_are_of_their_debts();
        let Some(debt) = self.conn.wanted() else {
            return HandInResult::None;
        };
        let key = debt.key();
        match spool.article_of(debt, now) {
            Ok(found) => {
                if let Some(ended) = spool_end(&found, &spool.store, rule, debt.token()) {
                    let _ = unread.add(self.alloc, &spool.path, None);
                    return self.break_for_spool(key, ended);
                }
                self.note_found(key, &found, &mut spool.store, rule);
                give(&mut self.conn, &mut self.counts, key, found)
            }
            Err(StoreFault::Disk) => {
                let reason = spool.store.take_reason();
                let article = unread_article(debt.token(), reason.as_ref());
                let is_new = unread.add(self.alloc, &spool.path, article);
                log_unread(rt, &spool.path, debt.token(), reason.as_ref(), is_new);
                self.unread = Some(key);
                self.break_off(ObservedEnd::Unread(reason));
                HandInResult::None
            }
            Err(StoreFault::NoMemory) => {
                break_conn(&mut self.conn);
                HandInResult::None
            }
        }
    }

    // Breaks it, because the spool is missing, or counts as missing since it has no article of this debt.
    fn break_for_spool(&mut self, key: Key, ended: ObservedEnd) -> HandInResult
        ensures { HandsInNothing self.old.conn self.new.conn }
    {
        let unread = match ended {
            ObservedEnd::NoneFound => Some(key),
            _ => self.unread,
        };
        self.unread = unread;
        self.break_off(ended);
        HandInResult::OutOfReach
    }

    // Breaks it, because of this.
    fn break_off(&mut self, ended: ObservedEnd)
        ensures { HandsInNothing self.old.conn self.new.conn }
    {
        self.end(ended);
        break_conn(&mut self.conn);
    }

    // Notes what is to be known of the article of this debt: that one was found, or why it cannot be sent. If memory is
    // refused for that, the reason is not known.
    fn note_found<S: SpoolDirectory>(
        &mut self,
        key: Key,
        found: &Found,
        store: &mut S,
        rule: SpoolRule<'_>,
    )
        ensures { self.new.conn ≡ self.old.conn }
    {
        match found {
            Found::Article(_) => rule.tally.set_found(),
            Found::Gone => {}
            Found::Unsendable => {
                if let Some(fault) = store.take_cause() {
                    let _ = self.unsendable.push((key, fault));
                }
            }
        }
    }
}

// Why the spool is missing or counts as missing, if an article that is gone shows that.
fn spool_end<S: SpoolDirectory>(
    found: &Found,
    store: &S,
    rule: SpoolRule<'_>,
    token: &Token,
) -> Option<ObservedEnd> {
    match found {
        Found::Gone if !store.is_there() => Some(ObservedEnd::NoSpool),
        Found::Gone if rule.is_out_of_reach(token) => Some(ObservedEnd::NoneFound),
        _ => None,
    }
}

// Hands in what was found, for the first want of that key, and counts it. If memory is refused, the connection breaks.
fn give(conn: &mut Conn, counts: &mut PeerCounts, key: Key, found: Found) -> HandInResult
    ensures handed { MayHandIn key found conn.old conn.new }
    ensures counted { result ≡ HandInResult.One → counts.new ≡ sum_of counts.old (sent_with found) }
    ensures unchanged { result ≢ HandInResult.One → counts.new ≡ counts.old }
{
    let sent = sent_with(&found);
    if conn.article(key, found).is_ok() {
        counts.add(&sent);
        return HandInResult::One;
    }
    break_conn(conn);
    HandInResult::None
}

// How many articles are half a window of this many debts.
fn half_of(room: u64) -> u64
    ensures half { 2 ≤ room → result ≡ room / 2 }
    ensures one { room < 2 → result ≡ 1 }
{
    (room / 2).max(1)
}

// What became of the article that was to be handed in.
enum HandInResult {
    // No article is wanted, or the connection has closed.
    None,
    One,
    // The spool is missing.
    OutOfReach,
}
