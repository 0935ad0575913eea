//! That the laws of `section_steps` begin from what calls say: each function here makes one call, of a sender or of
//! a side, and its contract is the record from which a law begins.
//!
//! Nothing stands on it, and nothing runs it.
#![tactic(auto)]

ghost use Rattle.std.specs.Prelude.{true};
ghost use Rattle.note_queue.specs.Relay.{IsAt};
ghost use Rattle.note_queue.specs.Words.{sending, taking};
ghost use Rattle.section_steps.specs.FrontClauses.{SaysFail, SaysKeep, SaysLearn, SaysMove, SaysSend};
ghost use Rattle.section_steps.specs.SideClauses.{SaysFlush, SaysPull, SaysRead, SaysRotate};

use conn_core::CxnId;
use crossbeam_queue::RuledArrayQueue;
use disk_model::Disk;
use ledger_core::{Debt, Key, Note};
use note_queue::{PassLog, Relays, Sender, Side};
use peer_queue::StationFault;
use recovery::{Flushed, TapeFault};
use std::alloc::AllocError;
use std::sync::Wait;

/// [`Sender::claim_key`].
pub fn claim(sender: &mut Sender, connection: CxnId, now: u64) -> Result<Option<Key>, StationFault>
    ensures { SaysKeep sender.old sender.new }
{
    sender.claim_key(connection, now)
}

/// [`Sender::release`].
pub fn release(sender: &mut Sender, connection: CxnId) -> u64
    ensures { SaysKeep sender.old sender.new }
{
    sender.release(connection)
}

/// [`Sender::unclaim`].
pub fn unclaim(sender: &mut Sender, connection: CxnId, key: Key) -> Result<(), StationFault>
    ensures { SaysMove sender.old sender.new result }
{
    sender.unclaim(connection, key)
}

/// [`Sender::put_off`].
pub fn put_off(
    sender: &mut Sender,
    connection: CxnId,
    debt: Debt,
    until: u64,
) -> Result<(), (Debt, StationFault)>
    ensures { SaysMove sender.old sender.new result }
{
    sender.put_off(connection, debt, until)
}

/// [`Sender::settled`].
pub fn learn(sender: &mut Sender, flushed: &Flushed) -> bool
    ensures { SaysLearn flushed.now sender.old sender.new result }
{
    sender.settled(flushed)
}

/// [`Sender::broke`].
pub fn cut_off(sender: &mut Sender)
    ensures { SaysFail true sender.old sender.new }
{
    sender.broke();
}

/// [`Sender::send`].
pub fn send<P: Relays, R: Wait>(
    rt: &R,
    sender: &mut Sender,
    queue: &RuledArrayQueue<Note, PassLog, P>,
) -> Result<(), AllocError>
    requires { IsAt queue.now (sending sender.old) }
    ensures { SaysSend sender.old sender.new }
{
    sender.send(rt, queue)
}

/// [`Side::pull`].
pub fn pull<D: Disk, P: Relays, R: Wait>(
    rt: &R,
    side: &mut Side<D>,
    queue: &RuledArrayQueue<Note, PassLog, P>,
) -> Result<(), TapeFault>
    requires { IsAt queue.now (taking side.old) }
    ensures { SaysPull side.old side.new }
{
    side.pull(rt, queue)
}

/// [`Side::flush`].
pub fn flush<D: Disk>(side: &mut Side<D>) -> Result<Flushed, TapeFault>
    ensures { SaysFlush side.old side.new result }
{
    side.flush()
}

/// [`Side::rotate`].
pub fn rotate<D: Disk>(side: &mut Side<D>) -> Result<u64, TapeFault>
    ensures { SaysRotate side.old side.new result }
{
    side.rotate()
}

/// [`Side::debt`].
pub fn read<D: Disk>(side: &mut Side<D>, key: Key) -> Result<Option<Debt>, TapeFault>
    ensures { SaysRead side.old side.new }
{
    side.debt(key)
}

/// [`Side::debts`].
pub fn read_all<D: Disk>(side: &mut Side<D>, keys: &[Key]) -> Result<Vec<Debt>, TapeFault>
    ensures { SaysRead side.old side.new }
{
    side.debts(keys)
}
