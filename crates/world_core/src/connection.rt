// The connections of a world: what each step on one does at its peer's station, and what it reports.
ghost use Rattle.std.specs.Prelude.{◌≡◌, ◌<◌, ◌++◌, ◌∷◌, [], ℕ, List, None, Option, true};
ghost use Rattle.std.specs.Prelude.{is_none, length, map, option_to_list, IfErr, IfOk, IfSome, MatchOption};
ghost use Rattle.std.specs.Prelude.{OnOk};
ghost use Rattle.conn_core.specs.History.{Event, reason};
ghost use Rattle.conn_core.specs.Stands.{StandsFor};
ghost use Rattle.conn_core.specs.declared.reason.Reason.{Reason};
ghost use Rattle.world_core.specs.Past.{ConnPast, PeerPast, options_of};
ghost use Rattle.world_core.specs.Pairs.{Reports, left_at};
ghost use Rattle.world_core.specs.Stands.{WaitsWith};
ghost use Rattle.world_core.specs.Output.{SentLine, closed_view, lines_in, need_view};

use crate::fault::Fault;
use crate::output::{Handed, Output};
use crate::peer::Peer;
use article_store::Found;
use conn_core::{ArticleFault, Conn, CxnId, OfferFault, Options, Outcome, Reason};
use disk_model::Disk;
use feed_conf::PeerConf;
use funnel::{first_line, without_cr};
use ledger_core::Key;
use peer_queue::{each_number_has_one_place, key_in};
use std::alloc::{AllocError, Global};

/// A connection of a world.
#[derive(Drop)]
pub(crate) struct Connection {
    // The rank of its peer among the peers.
    pub(crate) rank: usize,
    pub(crate) conn: Conn,
    // An outcome that its peer's station refused: it is the next to be settled.
    pub(crate) waiting: Option<Outcome>,
}

impl Connection {
    ghost use Rattle.feed_conf.specs.declared.conf.PeerConf.{PeerConf};
    ghost use Rattle.world_core.specs.Pairs.{PairStands, SettledAll, SettledNext, SettledNot};
    ghost use Rattle.world_core.specs.Pairs.{Followed, FollowedNot};
    ghost use Rattle.world_core.specs.Exchange.{FailsToBreak, FailsToHand, FailsToRead, FailsToSupply};
    ghost use Rattle.world_core.specs.Exchange.{FailsToTick, TakesArticle, TakesBreak, TakesBytes};
    ghost use Rattle.world_core.specs.Exchange.{TakesHand, TakesMoment};
    ghost use Rattle.world_core.specs.Pairs.{HandedNot, HandedOver, PairMade, PairRefused, TakesNext};
    ghost use Rattle.world_core.specs.Stands.{HoldsTranscript};

    /// Makes a connection of this number to the peer at this rank, which has these settings.
    ///
    /// # Errors
    /// Memory was refused.
    pub(crate) fn new(
        alloc: Global,
        number: u64,
        rank: usize,
        conf: &PeerConf,
    ) -> Result<Connection, AllocError>
        ensures stands { IfOk result
            (λ connection. StandsFor (options_of conf.now) connection.conn [] []) }
        ensures number { IfOk result (λ connection. connection.conn.id.0 ≡ number) }
        ensures rank { IfOk result (λ connection. connection.rank ≡ rank) }
        ensures waits { IfOk result (λ connection. connection.waiting ≡ None) }
    {
        let conn = Conn::new(alloc, CxnId(number), options_of(conf))?;
        Ok(Connection {
            rank,
            conn,
            waiting: None,
        })
    }

    // The outcome that waits, or the connection's next.
    fn next_outcome(&mut self) -> Option<Outcome>
        ensures takes { (conf : PeerConf) (past : ConnPast)
            → HoldsTranscript conf past self.old → WaitsWith conf past self.old.waiting
            → TakesNext (options_of conf) past result self.new }
        ensures waits { self.new.waiting ≡ None }
        ensures left { left_at self.old ≡ option_to_list result ++ left_at self.new }
        ensures rank { self.new.rank ≡ self.old.rank }
        ensures id { self.new.conn.id ≡ self.old.conn.id }
    {
        match self.waiting.take() {
            Some(outcome) => Some(outcome),
            None => self.conn.outcome(),
        }
    }

    // Takes the next outcome to the station of its peer, and reports what became of its debt; `false` if there is none.
    // An outcome that the station refuses waits.
    fn settle_next<D: Disk>(
        &mut self,
        peer: &mut Peer<D>,
        now: u64,
        outputs: &mut Vec<Output>,
    ) -> Result<bool, Fault>
        ensures ok { (id : ℕ) (conn : ConnPast) (past : PeerPast)
            → PairStands id conn past self.old peer.old
            → IfOk result (λ more.
            SettledNext more id now conn past outputs.old.items
            self.new peer.new outputs.new.items) }
        ensures err { (id : ℕ) (conn : ConnPast) (past : PeerPast)
            → PairStands id conn past self.old peer.old
            → IfErr result (λ fault. SettledNot id now conn past fault self.new peer.new) }
        ensures fewer { IfOk result (λ more.
            more ≡ true → length (left_at self.new) < length (left_at self.old)) }
    {
        outputs.reserve(1)?;
        let Some(outcome) = self.next_outcome() else {
            return Ok(false);
        };
        let id = self.conn.id();
        let key = key_in(&outcome);
        match peer.station.finish(id, outcome, now) {
            Ok(settled) => {
                outputs.push_reserved(Output::Settled {
                    connection: id.0,
                    key,
                    settled,
                });
                Ok(true)
            }
            Err((outcome, fault)) => {
                self.waiting = Some(outcome);
                Err(Fault::from_station(fault))
            }
        }
    }

    // Takes each outcome to the station of its peer, oldest first, and reports what became of its debt.
    fn settle_all<D: Disk>(
        &mut self,
        peer: &mut Peer<D>,
        now: u64,
        outputs: &mut Vec<Output>,
    ) -> Result<(), Fault>
        ensures ok { (id : ℕ) (conn : ConnPast) (past : PeerPast)
            → PairStands id conn past self.old peer.old
            → OnOk result
            (SettledAll id now conn past outputs.old.items self.new peer.new outputs.new.items) }
        ensures err { (id : ℕ) (conn : ConnPast) (past : PeerPast)
            → PairStands id conn past self.old peer.old
            → IfErr result (λ fault. FollowedNot id now conn past fault self.new peer.new) }
    {
        while self.settle_next(peer, now, outputs)? {}
        Ok(())
    }

    // Hands over the least candidate, and reports what became of it.
    pub(crate) fn hand<D: Disk>(
        &mut self,
        peer: &mut Peer<D>,
        now: u64,
        outputs: &mut Vec<Output>,
    ) -> Result<(), Fault>
        ensures ok { (id : ℕ) (conn : ConnPast) (past : PeerPast)
            → PairStands id conn past self.old peer.old → OnOk result
            (PairMade (TakesHand id now conn past) id
            outputs.old.items self.new peer.new outputs.new.items) }
        ensures err { (id : ℕ) (conn : ConnPast) (past : PeerPast)
            → PairStands id conn past self.old peer.old
            → IfErr result (λ fault.
            PairRefused (FailsToHand id now conn past fault) id self.new peer.new) }
    {
        outputs.reserve(1)?;
        let was_open = self.conn.closed().is_none();
        let handed = self.offer_next(peer, now)?;
        outputs.push_reserved(Output::Handed {
            connection: self.conn.id().0,
            handed,
        });
        self.report(peer, was_open, now, outputs)
    }

    // Claims the least candidate and offers it. If the connection doesn't take it, it is given back.
    fn offer_next<D: Disk>(&mut self, peer: &mut Peer<D>, now: u64) -> Result<Handed, Fault>
        ensures ok { (id : ℕ) (conn : ConnPast) (past : PeerPast)
            → PairStands id conn past self.old peer.old
            → IfOk result (λ handed. HandedOver id now conn past handed self.new peer.new) }
        ensures err { (id : ℕ) (conn : ConnPast) (past : PeerPast)
            → PairStands id conn past self.old peer.old
            → IfErr result (λ fault. HandedNot id now conn past fault self.new peer.new) }
    {
        let id = self.conn.id();
        // proof: no connection holds a candidate.
        each_number_has_one_place(&peer.station);
        let claimed = match peer.station.claim(id, now) {
            Ok(claimed) => claimed,
            Err(fault) => return Err(Fault::from_station(fault)),
        };
        let Some(debt) = claimed else {
            return Ok(Handed::Nothing);
        };
        let key = debt.key();
        let Err(refused) = self.conn.offer(debt) else {
            return Ok(Handed::Debt(key));
        };
        if let Err((_, fault)) = peer.station.back(id, refused.debt) {
            return Err(Fault::from_station(fault));
        }
        match refused.fault {
            OfferFault::Busy => Ok(Handed::Busy),
            OfferFault::Closed => Ok(Handed::Closed),
            OfferFault::NoMemory => Err(Fault::NoMemory),
        }
    }

    // Takes in octets that came from the peer's server.
    pub(crate) fn receive<D: Disk>(
        &mut self,
        peer: &mut Peer<D>,
        octets: &[u8],
        now: u64,
        outputs: &mut Vec<Output>,
    ) -> Result<(), Fault>
        ensures ok { (id : ℕ) (conn : ConnPast) (past : PeerPast)
            → PairStands id conn past self.old peer.old → OnOk result
            (PairMade (TakesBytes octets.now id now conn past) id
            outputs.old.items self.new peer.new outputs.new.items) }
        ensures err { (id : ℕ) (conn : ConnPast) (past : PeerPast)
            → PairStands id conn past self.old peer.old → IfErr result
            (λ fault.
            PairRefused (FailsToRead octets.now id now conn past fault) id self.new peer.new) }
    {
        let was_open = self.conn.closed().is_none();
        self.conn.input(octets)?;
        self.report(peer, was_open, now, outputs)
    }

    // Hands in what was found of the article that is wanted.
    pub(crate) fn supply<D: Disk>(
        &mut self,
        peer: &mut Peer<D>,
        found: &Found,
        now: u64,
        outputs: &mut Vec<Output>,
    ) -> Result<(), Fault>
        ensures ok { (id : ℕ) (conn : ConnPast) (past : PeerPast)
            → PairStands id conn past self.old peer.old → OnOk result
            (PairMade (TakesArticle found.now id now conn past) id
            outputs.old.items self.new peer.new outputs.new.items) }
        ensures err { (id : ℕ) (conn : ConnPast) (past : PeerPast)
            → PairStands id conn past self.old peer.old → IfErr result
            (λ fault.
            PairRefused (FailsToSupply found.now id now conn past fault) id self.new peer.new) }
    {
        let was_open = self.conn.closed().is_none();
        let Some(key) = self.conn.need() else {
            return Err(Fault::NotNeeded);
        };
        let found = copy_of(found)?;
        match self.conn.article(key, found) {
            Ok(()) => self.report(peer, was_open, now, outputs),
            Err((_, ArticleFault::NotNeeded)) => Err(Fault::NotNeeded),
            Err((_, ArticleFault::NoMemory)) => Err(Fault::NoMemory),
        }
    }

    // Sets the moment. The connection closes if an answer is late.
    pub(crate) fn tick<D: Disk>(
        &mut self,
        peer: &mut Peer<D>,
        now: u64,
        outputs: &mut Vec<Output>,
    ) -> Result<(), Fault>
        ensures ok { (id : ℕ) (conn : ConnPast) (past : PeerPast)
            → PairStands id conn past self.old peer.old → OnOk result
            (PairMade (TakesMoment id now conn past) id
            outputs.old.items self.new peer.new outputs.new.items) }
        ensures err { (id : ℕ) (conn : ConnPast) (past : PeerPast)
            → PairStands id conn past self.old peer.old → IfErr result
            (λ fault.
            PairRefused (FailsToTick id now conn past fault) id self.new peer.new) }
    {
        let was_open = self.conn.closed().is_none();
        self.conn.tick(now);
        self.report(peer, was_open, now, outputs)
    }

    // What follows each step: the outcomes go to the station; the output is reported, and counts as sent; the wanted
    // article is reported; and if the step closed the connection, so is the reason.
    fn report<D: Disk>(
        &mut self,
        peer: &mut Peer<D>,
        was_open: bool,
        now: u64,
        outputs: &mut Vec<Output>,
    ) -> Result<(), Fault>
        ensures ok { (id : ℕ) (conn : ConnPast) (past : PeerPast) (was : List Event)
            → PairStands id conn past self.old peer.old
            → was_open ≡ is_none (reason (options_of past.conf) was) → OnOk result
            (Followed id now was conn past outputs.old.items self.new peer.new outputs.new.items) }
        ensures err { (id : ℕ) (conn : ConnPast) (past : PeerPast)
            → PairStands id conn past self.old peer.old
            → IfErr result (λ fault. FollowedNot id now conn past fault self.new peer.new) }
    {
        self.settle_all(peer, now, outputs)?;
        let connection = self.conn.id().0;
        add_sent(outputs, connection, self.conn.output())?;
        add_need(outputs, connection, self.conn.need())?;
        add_closed(outputs, connection, was_open, self.conn.closed())?;
        let count = self.conn.output().len();
        self.conn.sent(count);
        Ok(())
    }

    pub(crate) fn break_off<D: Disk>(
        &mut self,
        peer: &mut Peer<D>,
        now: u64,
        outputs: &mut Vec<Output>,
    ) -> Result<(), Fault>
        ensures ok { (id : ℕ) (conn : ConnPast) (past : PeerPast)
            → PairStands id conn past self.old peer.old → OnOk result
            (PairMade (TakesBreak id now conn past) id
            outputs.old.items self.new peer.new outputs.new.items) }
        ensures err { (id : ℕ) (conn : ConnPast) (past : PeerPast)
            → PairStands id conn past self.old peer.old → IfErr result
            (λ fault.
            PairRefused (FailsToBreak id now conn past fault) id self.new peer.new) }
    {
        let was_open = self.conn.closed().is_none();
        self.conn.broken();
        self.report(peer, was_open, now, outputs)
    }
}

// How a connection to a peer of these settings behaves.
fn options_of(conf: &PeerConf) -> Options
    ensures { result ≡ options_of conf.now }
{
    Options {
        streaming: conf.streaming,
        max_queue: conf.max_queue,
        check_high: conf.check_high,
        check_low: conf.check_low,
        check_filter: conf.check_filter,
        response_timeout: conf.response_timeout,
    }
}

// A copy, since a step's text is lent, and the connection takes its own.
fn copy_of(found: &Found) -> Result<Found, AllocError>
    ensures { IfOk result (λ copy. copy ≡ found.now) }
{
    match found {
        Found::Article(text) => Ok(Found::Article(text.clone()?)),
        Found::Gone => Ok(Found::Gone),
        Found::Unsendable => Ok(Found::Unsendable),
    }
}

// Reports each line of the output.
fn add_sent(outputs: &mut Vec<Output>, connection: u64, output: &[u8]) -> Result<(), AllocError>
    ensures { OnOk result (Reports outputs.old.items
        (map (SentLine connection) (lines_in output.now)) outputs.new.items) }
{
    let alloc = *outputs.allocator();
    let mut rest = output;
    while let Some((line, behind)) = first_line(rest) {
        let line = Vec::from_slice(alloc, without_cr(line))?;
        outputs.push(Output::SentLine { connection, line })?;
        rest = behind;
    }
    Ok(())
}

fn add_need(outputs: &mut Vec<Output>, connection: u64, need: Option<Key>) -> Result<(), AllocError>
    ensures { OnOk result (Reports outputs.old.items
        (need_view connection need) outputs.new.items) }
{
    if let Some(key) = need {
        outputs.push(Output::Need { connection, key })?;
    }
    Ok(())
}

// Reports why a connection closed, if it was open before the step.
fn add_closed(
    outputs: &mut Vec<Output>,
    connection: u64,
    was_open: bool,
    closed: Option<Reason>,
) -> Result<(), AllocError>
    ensures { (was : Option Reason) → was_open ≡ is_none was → OnOk result
        (Reports outputs.old.items (closed_view connection was closed) outputs.new.items) }
{
    if was_open && let Some(reason) = closed {
        outputs.push(Output::Closed { connection, reason })?;
    }
    Ok(())
}
