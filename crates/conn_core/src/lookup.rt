// The first command or want that passes a test, looked up or removed in one walk that ends there.
ghost use Rattle.std.specs.Prelude.{◌≡◌, ◌+◌, Bool, find, position, is_some, IfNone, MatchOption};
ghost use Rattle.std.specs.Option.{option_copied};
ghost use Rattle.std.specs.Set.{remove_key};
ghost use Rattle.std.specs.VecDeque.{deque_capacity, deque_len};
ghost use Rattle.reply_reader.specs.Next.{given_of};
ghost use Rattle.conn_core.specs.Commands.{held_for, is_at, is_of};
ghost use Rattle.conn_core.specs.Kept.{can_answer};
ghost use Rattle.conn_core.specs.Machine.{names_debt};

use crate::codes::meaning_of;
use crate::held::HeldDebts;
use crate::kept::{AwaitedAsk, HeldDebt, WantedArticle};
use crate::mode::Mode;
use funnel::MsgId;
use ledger_core::Key;
use reply_reader::Reply;
use std::collections::VecDeque;

// Whether a reply names the message-id of the debt at that ticket (RFC 4644, sections 2.4 and 2.5).
fn names_debt(named: &Option<MsgId>, held: &HeldDebts, ticket: u64) -> bool
    ensures { result ≡ names_debt named.now (find (is_at ticket) held.now.debts) }
{
    match (named, held.get(ticket)) {
        (Some(named), Some(x)) => named.bytes() == x.debt().id().bytes(),
        _ => false,
    }
}

// Whether a reply can be the answer to this command: in streaming mode it must also name the id of its debt (RFC
// 4644, sections 2.4 and 2.5).
fn can_answer(reply: &Reply, ask: &AwaitedAsk, held: &HeldDebts, mode: Mode) -> bool
    ensures { result ≡ can_answer mode held.now.debts (given_of reply.now) ask.now }
{
    let belongs = meaning_of(ask.verb(), reply.code).is_some();
    match mode {
        Mode::Streaming => belongs && names_debt(&reply.id, held, ask.ticket()),
        Mode::Ihave => belongs,
    }
}

fn first_answered(
    window: &VecDeque<AwaitedAsk>,
    held: &HeldDebts,
    reply: &Reply,
    mode: Mode,
) -> Option<usize>
    ensures { result ≡ position (can_answer mode held.now.debts (given_of reply.now))
        window.now.items }
{
    window
        .iter()
        .position(|ask| can_answer(reply, ask, held, mode))
}

fn first_of(wanted: &VecDeque<WantedArticle>, key: Key) -> Option<usize>
    ensures { result ≡ position (is_of key) wanted.now.items }
{
    wanted.iter().position(|want| want.key() == key)
}

pub(crate) fn is_wanted(wanted: &VecDeque<WantedArticle>, key: Key) -> bool
    ensures { result ≡ is_some (find (is_of key) wanted.now.items) }
{
    match first_of(wanted, key) {
        Some(_) => true,
        None => false,
    }
}

pub(crate) fn take_answered(
    window: &mut VecDeque<AwaitedAsk>,
    held: &HeldDebts,
    reply: &Reply,
    mode: Mode,
) -> Option<AwaitedAsk>
    ensures found { result
        ≡ find (can_answer mode held.now.debts (given_of reply.now)) window.old.items }
    ensures rest { window.new.items
        ≡ remove_key (can_answer mode held.now.debts (given_of reply.now)) window.old.items }
    ensures unchanged { IfNone result (window.new ≡ window.old) }
    ensures len { MatchOption result (deque_len window.new ≡ deque_len window.old)
        (λ _. deque_len window.new + 1 ≡ deque_len window.old) }
    ensures capacity { deque_capacity window.new ≡ deque_capacity window.old }
{
    match first_answered(window, held, reply, mode) {
        Some(i) => window.remove(i),
        None => None,
    }
}

fn wanted_of(wanted: &VecDeque<WantedArticle>, key: Key) -> Option<&WantedArticle>
    ensures { option_copied result ≡ find (is_of key) wanted.now.items }
{
    match first_of(wanted, key) {
        Some(i) => wanted.get(i),
        None => None,
    }
}

pub(crate) fn debt_wanting<'a>(
    held: &'a HeldDebts,
    wanted: &VecDeque<WantedArticle>,
    key: Key,
) -> Option<&'a HeldDebt>
    ensures { option_copied result
        ≡ held_for held.now.debts (find (is_of key) wanted.now.items) }
{
    match wanted_of(wanted, key) {
        Some(want) => held.get(want.ticket()),
        None => None,
    }
}

pub(crate) fn take_wanted(wanted: &mut VecDeque<WantedArticle>, key: Key) -> Option<WantedArticle>
    ensures found { result ≡ find (is_of key) wanted.old.items }
    ensures rest { wanted.new.items ≡ remove_key (is_of key) wanted.old.items }
    ensures unchanged { IfNone result (wanted.new ≡ wanted.old) }
    ensures capacity { deque_capacity wanted.new ≡ deque_capacity wanted.old }
{
    match first_of(wanted, key) {
        Some(i) => wanted.remove(i),
        None => None,
    }
}
