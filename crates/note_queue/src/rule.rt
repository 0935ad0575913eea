// The rule of the queue by which notes pass from a front to the side that owns its tape.
ghost use Rattle.std.specs.Prelude.{◌≡◌, true, IfOk};
ghost use Rattle.crossbeam_queue.specs.Passes.{view, IsPassOf, IsSamePass, ruled_capacity};
ghost use Rattle.recovery.specs.Words.{ledger_of};
ghost use Rattle.note_queue.specs.Relay.{begun, may_pop, may_push};

use crossbeam_queue::protocol::{Join, Lesson, Outcome, Protocol, Split};
use crossbeam_queue::{Pass, RuledArrayQueue};
use disk_model::Disk;
use ledger_core::{Ledger, Note};
use recovery::Tape;
use std::alloc::{AllocError, Global};
use std::collections::LinkedList;
use std::marker::{Brand, Model, PhantomData};

/// The ledger at a split, as clauses see it. No value of it is made.
pub struct SplitLedger {
    ledger: Ledger,
}

impl Model for SplitLedger {
    ghost use Rattle.ledger_core.specs.State.{State};
    ghost use Rattle.ledger_core.specs.Ledger.{state_of};

    ghost Value = { State };

    ghost view = { λ split. state_of split.ledger };
}

/// What a pass may do, and what it has done: the notes that it pushed and the ledger onto which they are to go, and the
/// same for those that it popped. No value of it is made.
pub struct PassLog {
    pub pushes: bool,
    pub pops: bool,
    pub sent_on: SplitLedger,
    pub got_on: SplitLedger,
    pub sent: LinkedList<Note>,
    pub got: LinkedList<Note>,
}

/// The ledger at one split. The call that splits picks it.
pub trait AtSplit {
    ghost use Rattle.ledger_core.specs.State.{State};

    ghost ledger: { State };
}

impl AtSplit for Brand {
    ghost use Rattle.ledger_core.specs.State.{start};

    ghost ledger = { start };
}

/// A rule under which a pass that may push puts its note after all others, and one that may pop takes the oldest.
pub trait Relays: Protocol<Note, PassLog> {
    ghost use Rattle.note_queue.specs.Relay.{AllowsPops, AllowsPushes};

    ghost allows_pushes: { AllowsPushes Self.holds };

    ghost allows_pops: { AllowsPops Self.holds };
}

/// What was sent is what was received, followed by what the queue holds.
pub struct InOrder;

impl Protocol<Note, PassLog> for InOrder {
    ghost use Rattle.note_queue.specs.Relay.{Relayed, begun};

    ghost holds = { Relayed };

    ghost first = { begun };
}

impl Relays for InOrder {
    ghost use Rattle.note_queue.specs.RelayLaws.{pops-relayed, pushes-relayed};

    ghost allows_pushes = { pushes-relayed };

    ghost allows_pops = { pops-relayed };
}

/// One pass becomes two: the front's and the side's, both over the ledger at the split.
pub struct Cut<B: AtSplit>(PhantomData<B>);

impl<B: AtSplit> Split<PassLog> for Cut<B> {
    ghost use Rattle.note_queue.specs.Relay.{may_pop, may_push};

    ghost left = { λ log. may_push B.ledger log.sent };

    ghost right = { λ log. may_pop B.ledger log.got };
}

/// The two passes become one again.
pub struct Whole;

impl Join<PassLog> for Whole {
    ghost use Rattle.std.specs.Prelude.{true};
    ghost use Rattle.note_queue.specs.Relay.{idle, pass_log};

    ghost both = { λ one other. pass_log true true one.sent_on other.got_on one.sent other.got };

    ghost spent = { idle };
}

/// After a push a note was sent; after a refused one, what the rule says of a queue that was full.
pub struct Sends<P: Protocol<Note, PassLog>>(PhantomData<P>);

impl<P: Protocol<Note, PassLog>> Outcome<Note, PassLog> for Sends<P> {
    ghost use Rattle.note_queue.specs.Relay.{with_sent};

    ghost then = { λ log note later. later ≡ with_sent log note };
}

impl<P: Protocol<Note, PassLog>> Lesson<Note, PassLog> for Sends<P> {
    ghost use Rattle.note_queue.specs.Relay.{HoldsWith};

    ghost fact = { λ log items. HoldsWith P.holds log items };
}

/// After a pop a note was received; after an empty one, what the rule says of a queue that holds none.
pub struct Gets<P: Protocol<Note, PassLog>>(PhantomData<P>);

impl<P: Protocol<Note, PassLog>> Outcome<Note, PassLog> for Gets<P> {
    ghost use Rattle.note_queue.specs.Relay.{with_got};

    ghost then = { λ log note later. later ≡ with_got log note };
}

impl<P: Protocol<Note, PassLog>> Lesson<Note, PassLog> for Gets<P> {
    ghost use Rattle.note_queue.specs.Relay.{HoldsWith};

    ghost fact = { λ log items. HoldsWith P.holds log items };
}

/// What a pass that may push and pop knows: the two ledgers are one, and what was sent is what was received, followed
/// by what the queue holds.
pub struct SeesBoth;

impl Outcome<Note, PassLog> for SeesBoth {
    ghost use Rattle.note_queue.specs.Relay.{with_got};

    ghost then = { λ log note later. later ≡ with_got log note };
}

impl Lesson<Note, PassLog> for SeesBoth {
    ghost use Rattle.std.specs.Prelude.{◌++◌};

    ghost fact = { λ log items. (log.sent_on ≡ log.got_on) × (log.sent ≡ log.got ++ items) };
}

/// The queue of one peer.
pub type NoteQueue = RuledArrayQueue<Note, PassLog, InOrder>;

/// A pass of it.
pub type NotePass = Pass<Note, PassLog>;

/// How many notes a queue holds at most.
pub const QUEUE_MAX_NOTES: usize = 1024;

/// A queue to which nothing was sent yet, and its pass, which may push and pop.
///
/// # Errors
/// `NoMemory` if memory was refused.
pub fn queue(alloc: Global) -> Result<(NoteQueue, NotePass), AllocError>
    ensures room { IfOk result (λ r. ruled_capacity r.0 ≡ 1024) }
    ensures pass { IfOk result (λ r. IsPassOf r.0 r.1 × (view r.1 ≡ begun)) }
{
    NoteQueue::ruled(alloc, QUEUE_MAX_NOTES)
}

/// The pass becomes that of this tape's front; the one returned is that of its side.
pub fn split_pass<D: Disk>(queue: &NoteQueue, pass: &mut NotePass, tape: &Tape<D>) -> NotePass
    requires queue { IsPassOf queue.now pass.old }
    requires roles { ((view pass.old).pushes ≡ true) × ((view pass.old).pops ≡ true) }
    ensures queue { IsSamePass pass.old pass.new × IsPassOf queue.now result }
    ensures front { view pass.new ≡ may_push (ledger_of tape.now) (view pass.old).sent }
    ensures side { view result ≡ may_pop (ledger_of tape.now) (view pass.old).got }
{
    split_pass_at::<Brand, D>(queue, pass, tape)
}

// The same, over a ledger that the caller names: the tape's.
fn split_pass_at<B: AtSplit, D: Disk>(
    queue: &NoteQueue,
    pass: &mut NotePass,
    tape: &Tape<D>,
) -> NotePass
    requires queue { IsPassOf queue.now pass.old }
    requires roles { ((view pass.old).pushes ≡ true) × ((view pass.old).pops ≡ true) }
    requires ledger { B.ledger ≡ ledger_of tape.now }
    ensures queue { IsSamePass pass.old pass.new × IsPassOf queue.now result }
    ensures front { view pass.new ≡ may_push B.ledger (view pass.old).sent }
    ensures side { view result ≡ may_pop B.ledger (view pass.old).got }
{
    let _ = tape;
    queue.another::<Cut<B>>(pass)
}
