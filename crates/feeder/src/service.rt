// Servicing one connection: what came is taken in, what became of debts goes to the station, and more is sent.
ghost use Rattle.std.specs.Prelude.{◌≡◌, IfErr};
ghost use Rattle.connections.specs.Given.{IsReturned};

use crate::FeederFault;
use crate::peer_state::PeerState;
use crate::post_view::{PostView, is_busy, is_full};
use conn_core::Outcome;
use connections::logging::{
    log_kept, log_missing, log_postponed, log_suspect, log_unsendable, text_of,
};
use connections::{
    ArticleSource, ClaimStep, DroppedArticle, FeederSpool, GivenOutcome, OutcomeStep,
    PeerConnection, SpoolRule, SpoolTally, Suspects, UnreadPaths, claim_step, stage_moment,
    step_of, texts_of,
};
use disk_model::Disk;
use flusher::{FeederShare, Naming, Pace};
use funnel::{MsgId, Token};
use ledger_core::{Cause, Debt, Key};
use log::Log;
use peer_queue::key_in;
use std::sync::Wait;

// How often one service fills and sends the output, before other connections have their turn.
const ROUNDS_MAX: u64 = 64;

// How many octets one service sends, before other connections have their turn.
const SENT_MAX_OCTETS: u64 = 1_048_576;

/// What servicing a connection uses.
#[derive(Drop)]
pub(crate) struct ServiceEnv<'a, S: ArticleSource, N: Naming> {
    /// The peer of the connection.
    pub peer: &'a mut PeerState,
    pub spool: &'a mut FeederSpool<S>,
    pub tally: &'a SpoolTally,
    pub suspects: &'a Suspects,
    /// Whether all articles that are missing are dropped ([`SpoolRule`]).
    pub drops_missing: bool,
    pub buffer: &'a mut [u8],
    pub share: &'a mut FeederShare<N>,
    pub unread: &'a mut UnreadPaths,
    /// Whether the peer gets no more debts in this run if the spool is missing; otherwise its slot waits.
    pub gives_up: bool,
}

impl<'a, S: ArticleSource, N: Naming> ServiceEnv<'a, S, N> {
    // What becomes of articles that are missing.
    fn rule(&self) -> SpoolRule<'a> {
        SpoolRule {
            tally: self.tally,
            drops_missing: self.drops_missing,
            is_lasting: !self.gives_up,
        }
    }
}

/// Does all that can be done on a connection without waiting. What came goes first: it frees the window, so that one
/// service turns a window of replies into new articles.
///
/// # Errors
/// The post's fault, if no flush helps.
pub(crate) fn service<D: Disk, N: Naming, S: ArticleSource, R: Wait + Log, P: Pace>(
    connection: &mut PeerConnection,
    rt: &R,
    view: &PostView<'_, D, N, P>,
    env: &mut ServiceEnv<'_, S, N>,
) -> Result<(), FeederFault> {
    connection.clear_marks();
    connection.receive(env.buffer);
    settle(connection, rt, view, env)?;
    if connection.has_kept_outcome() {
        let _ = connection.send();
        return Ok(());
    }
    fill_and_send(connection, rt, view, env)?;
    settle(connection, rt, view, env)
}

/// Takes the outcomes of a connection's debts to its peer's front, oldest first, until the front needs a flush first,
/// or is in use when a debt is to be put off.
///
/// # Errors
/// The post's fault, if no flush helps; the connection keeps the outcome.
pub(crate) fn settle<D: Disk, N: Naming, S: ArticleSource, R: Wait + Log, P: Pace>(
    connection: &mut PeerConnection,
    rt: &R,
    view: &PostView<'_, D, N, P>,
    env: &mut ServiceEnv<'_, S, N>,
) -> Result<(), FeederFault> {
    for _ in 0..u64::MAX {
        let Some(given) = connection.next_outcome() else {
            return Ok(());
        };
        if let Err((given, fault)) = settle_one(connection, rt, view, env, given) {
            connection.keep(given);
            return retry_later(connection, fault);
        }
    }
    Ok(())
}

// Takes an outcome to the station. The debt at which the connection failed is put off, and so is one whose article is
// missing and kept.
fn settle_one<D: Disk, N: Naming, S: ArticleSource, R: Wait + Log, P: Pace>(
    connection: &mut PeerConnection,
    rt: &R,
    view: &PostView<'_, D, N, P>,
    env: &mut ServiceEnv<'_, S, N>,
    given: GivenOutcome,
) -> Result<(), (GivenOutcome, FeederFault)>
    ensures { IfErr result (λ refused. refused.0 ≡ given) }
{
    let postponed = judge(connection, rt, view.now, env, given.get());
    match step_of(
        given.get(),
        postponed,
        env.tally.has_found(),
        env.drops_missing,
    ) {
        OutcomeStep::PutOff(until) => put_off(connection, rt, view, env.peer, given, until),
        OutcomeStep::Keep => keep(connection, rt, view, env, given),
        OutcomeStep::Finish => finish(connection, rt, view, env, given),
    }
}

// Takes an outcome to the station as it is. What ends a debt ends what is remembered of it.
fn finish<D: Disk, N: Naming, S: ArticleSource, R: Wait + Log, P: Pace>(
    connection: &mut PeerConnection,
    rt: &R,
    view: &PostView<'_, D, N, P>,
    env: &mut ServiceEnv<'_, S, N>,
    given: GivenOutcome,
) -> Result<(), (GivenOutcome, FeederFault)>
    ensures { IfErr result (λ refused. refused.0 ≡ given) }
{
    let key = key_in(given.get());
    let is_end = matches!(given.get(), Outcome::Final(_) | Outcome::Lost(_, _));
    match cause_in(given.get()) {
        Some(cause) => lose(connection, rt, view, env, given, cause)?,
        None => view.finish(rt, connection.peer(), connection.id(), given, env.share)?,
    }
    if is_end {
        forget(connection, rt, env, key);
    }
    Ok(())
}

// Why the debt of this outcome is lost, if it is.
fn cause_in(outcome: &Outcome) -> Option<Cause> {
    match outcome {
        Outcome::Lost(_, cause) => Some(*cause),
        _ => None,
    }
}

// A copy of the words of a debt that was lost, or goes back, for a log; `None` if memory was refused.
fn words_in(outcome: &Outcome) -> Option<(Token, MsgId)> {
    match outcome {
        Outcome::Lost(debt, _) | Outcome::Back(debt) => texts_of(debt).ok(),
        _ => None,
    }
}

// The debt of this key has ended: nothing is remembered of it.
fn forget<S: ArticleSource, N: Naming, R: Wait>(
    connection: &PeerConnection,
    rt: &R,
    env: &mut ServiceEnv<'_, S, N>,
    key: Key,
) {
    env.peer.setbacks.forget(key);
    env.suspects.forget(rt, connection.peer(), key);
}

// Until when the debt of this outcome is to be put off, because the connection failed at it; `None` if it is not. In
// both cases such a debt is a suspect from then on, unless only the spool is at fault.
fn judge<S: ArticleSource, N: Naming, R: Wait>(
    connection: &mut PeerConnection,
    rt: &R,
    now: u64,
    env: &mut ServiceEnv<'_, S, N>,
    outcome: &Outcome,
) -> Option<u64> {
    let Outcome::Back(debt) = outcome else {
        return None;
    };
    if !connection.is_failed_at(debt) {
        return None;
    }
    if !connection.is_without_spool() {
        env.suspects.add(rt, connection.peer(), debt);
    }
    let is_last_stage = env.peer.is_last_stage;
    connection.judge(debt.key(), &mut env.peer.setbacks, now, is_last_stage)
}

// Drops a debt whose article is missing or cannot be sent, logs that, and counts it.
fn lose<D: Disk, N: Naming, S: ArticleSource, R: Wait + Log, P: Pace>(
    connection: &mut PeerConnection,
    rt: &R,
    view: &PostView<'_, D, N, P>,
    env: &mut ServiceEnv<'_, S, N>,
    given: GivenOutcome,
    cause: Cause,
) -> Result<(), (GivenOutcome, FeederFault)>
    ensures { IfErr result (λ refused. refused.0 ≡ given) }
{
    let key = key_in(given.get());
    let words = words_in(given.get());
    view.finish(rt, connection.peer(), connection.id(), given, env.share)?;
    let fault = connection.take_fault(key);
    let article = match words {
        Some((token, id)) => Some(DroppedArticle { token, id, fault }),
        None => None,
    };
    if let Some(article) = &article {
        let name = text_of(&env.peer.target.name);
        match cause {
            Cause::Missing => log_missing(rt, name, article),
            _ => log_unsendable(rt, name, article),
        }
    }
    env.tally.add_drop(rt, connection.peer(), cause, article);
    Ok(())
}

// Puts off a debt whose article is missing and kept.
fn keep<D: Disk, N: Naming, S: ArticleSource, R: Wait + Log, P: Pace>(
    connection: &PeerConnection,
    rt: &R,
    view: &PostView<'_, D, N, P>,
    env: &ServiceEnv<'_, S, N>,
    given: GivenOutcome,
) -> Result<(), (GivenOutcome, FeederFault)>
    requires { IsReturned given }
    ensures { IfErr result (λ refused. refused.0 ≡ given) }
{
    let words = words_in(given.get());
    let (peer, id) = (connection.peer(), connection.id());
    view.put_off(rt, peer, id, given, view.kept_until)?;
    if let Some((token, id)) = words {
        log_kept(rt, text_of(&env.peer.target.name), &token, &id);
        env.tally.add_missing(rt, &token);
    }
    Ok(())
}

// Puts off the debt at which the connection failed, and logs that.
fn put_off<D: Disk, N: Naming, R: Wait + Log, P: Pace>(
    connection: &PeerConnection,
    rt: &R,
    view: &PostView<'_, D, N, P>,
    peer: &PeerState,
    given: GivenOutcome,
    until: u64,
) -> Result<(), (GivenOutcome, FeederFault)>
    requires { IsReturned given }
    ensures { IfErr result (λ refused. refused.0 ≡ given) }
{
    let words = words_in(given.get());
    view.put_off(rt, connection.peer(), connection.id(), given, until)?;
    if let Some((token, id)) = words {
        log_put_off(connection, rt, peer, &token, &id);
    }
    Ok(())
}

// The article with this token and message-id was put off after the connection closed.
fn log_put_off<R: Log>(
    connection: &PeerConnection,
    rt: &R,
    peer: &PeerState,
    token: &Token,
    id: &MsgId,
) {
    let name = text_of(&peer.target.name);
    if connection.is_without_spool() {
        log_kept(rt, name, token, id);
    } else {
        log_postponed(rt, name, token, id, connection);
    }
}

// Leaves what a station refused for later, if a flush or the next turn helps; otherwise hands on the fault.
fn retry_later(connection: &mut PeerConnection, fault: FeederFault) -> Result<(), FeederFault> {
    if is_busy(fault) {
        connection.mark_blocked();
        return Ok(());
    }
    if is_full(fault) { Ok(()) } else { Err(fault) }
}

// Offers debts, hands in articles and sends, in rounds: once there is enough output it is sent before another article
// is read.
fn fill_and_send<D: Disk, N: Naming, S: ArticleSource, R: Wait + Log, P: Pace>(
    connection: &mut PeerConnection,
    rt: &R,
    view: &PostView<'_, D, N, P>,
    env: &mut ServiceEnv<'_, S, N>,
) -> Result<(), FeederFault> {
    let rule = env.rule();
    let mut sent = 0u64;
    for _ in 0..ROUNDS_MAX {
        if !env.peer.is_closed {
            offer(connection, rt, view, env)?;
        }
        if !connection.hand_in(rt, env.spool, rule, env.unread, view.now) {
            env.peer.is_closed = env.gives_up;
        }
        sent = sent.saturating_add(connection.send());
        if !connection.can_go_on() {
            return Ok(());
        }
        if sent >= SENT_MAX_OCTETS {
            break;
        }
    }
    connection.mark_dirty();
    Ok(())
}

// Claims debts and offers them, while the connection takes them and none was refused.
fn offer<D: Disk, N: Naming, S: ArticleSource, R: Wait + Log, P: Pace>(
    connection: &mut PeerConnection,
    rt: &R,
    view: &PostView<'_, D, N, P>,
    env: &ServiceEnv<'_, S, N>,
) -> Result<(), FeederFault> {
    if env.peer.is_last_stage {
        return offer_suspects(connection, rt, view, env);
    }
    for _ in 0..u64::MAX {
        if !is_ready(connection, view) {
            return Ok(());
        }
        match view.claim(rt, connection.peer(), connection.id(), view.due) {
            Ok(Some(debt)) => offer_or_put_off(connection, rt, view, env, debt)?,
            Ok(None) => return Ok(()),
            Err(fault) => return retry_later(connection, fault),
        }
    }
    Ok(())
}

// Whether a debt can be claimed for this connection.
fn is_ready<D: Disk, N: Naming, P: Pace>(
    connection: &PeerConnection,
    view: &PostView<'_, D, N, P>,
) -> bool {
    view.claims && !connection.has_kept_outcome() && connection.is_ready()
}

// In the last stage: claims and offers the pending suspect with the least place, and nothing else while the connection
// holds it, so that it is known at which one a connection fails.
fn offer_suspects<D: Disk, N: Naming, S: ArticleSource, R: Wait + Log, P: Pace>(
    connection: &mut PeerConnection,
    rt: &R,
    view: &PostView<'_, D, N, P>,
    env: &ServiceEnv<'_, S, N>,
) -> Result<(), FeederFault> {
    let peer = connection.peer();
    for _ in 0..u64::MAX {
        if !is_ready(connection, view) || connection.holds_debts() {
            return Ok(());
        }
        let Some(place) = env.suspects.first_place(rt, peer) else {
            return Ok(());
        };
        match view.claim(rt, peer, connection.id(), stage_moment(place)) {
            Ok(Some(debt)) => offer_or_put_off(connection, rt, view, env, debt)?,
            // If a debt is held, it may be the one with this place, which the other feeder has just claimed.
            Ok(None) if !view.all_later(peer)? => return Ok(()),
            Ok(None) => env.suspects.end_pending(rt, peer, place),
            Err(fault) => return retry_later(connection, fault),
        }
    }
    Ok(())
}

// Offers a debt that was claimed, or puts it off.
fn offer_or_put_off<D: Disk, N: Naming, S: ArticleSource, R: Wait + Log, P: Pace>(
    connection: &mut PeerConnection,
    rt: &R,
    view: &PostView<'_, D, N, P>,
    env: &ServiceEnv<'_, S, N>,
    debt: Debt,
) -> Result<(), FeederFault> {
    let (suspects, peer) = (env.suspects, connection.peer());
    let place = suspects.place(rt, peer, &debt);
    let is_lasting = !env.gives_up;
    match claim_step(view.now, place, is_lasting, env.peer.is_last_stage) {
        ClaimStep::Offer => {
            if place.is_some() {
                suspects.meet(rt, peer, &debt);
            }
            connection.offer(debt);
            Ok(())
        }
        ClaimStep::PutOff { until } => {
            if place.is_some() {
                log_suspect(rt, text_of(&env.peer.target.name), debt.token(), debt.id());
            }
            if place.is_some() && is_lasting {
                suspects.meet(rt, peer, &debt);
            }
            put_off_claimed(connection, rt, view, debt, until)
        }
    }
}

// Puts off a debt that was claimed. If that is refused, the debt is ready again.
fn put_off_claimed<D: Disk, N: Naming, R: Wait, P: Pace>(
    connection: &mut PeerConnection,
    rt: &R,
    view: &PostView<'_, D, N, P>,
    debt: Debt,
    until: u64,
) -> Result<(), FeederFault> {
    let given = GivenOutcome::back(debt);
    match view.put_off(rt, connection.peer(), connection.id(), given, until) {
        Ok(()) => Ok(()),
        Err((given, fault)) => {
            connection.keep(given);
            retry_later(connection, fault)
        }
    }
}
