// The debts held, in the order offered. Each is found by its ticket, its index among those accepted: tickets rise, so
// a binary search finds one.
ghost use Rattle.std.specs.Prelude.{◌≡◌, ◌+◌, ◌<◌, ◌++◌, [], ◌∷◌, find, length, position};
ghost use Rattle.std.specs.Prelude.{IfNone, MatchOption, option_map, option_to_list, OnOk};
ghost use Rattle.std.specs.Option.{option_copied};
ghost use Rattle.std.specs.Set.{remove_key};
ghost use Rattle.conn_core.specs.Commands.{Held, is_at};
ghost use Rattle.conn_core.specs.Used.{is_empty};

use crate::kept::HeldDebt;
use ledger_core::{Debt, Key};
use std::alloc::{AllocError, Global};
use std::collections::VecDeque;
use std::marker::Model;

#[derive(Drop)]
pub(crate) struct HeldDebts {
    debts: VecDeque<HeldDebt>,
    // The number of debts accepted so far, which is the next ticket.
    accepted: u64,
}

impl Model for HeldDebts {
    ghost use Rattle.std.specs.Prelude.{◌<◌};
    ghost use Rattle.std.specs.List.{All, AllPairs};
    ghost use Rattle.std.specs.VecDeque.{deque_capacity};
    ghost use Rattle.conn_core.specs.Commands.{Held};
    ghost use Rattle.conn_core.specs.Debts.{Debts};

    ghost Value = { Debts };

    ghost view = { λ h. record {
      debts = h.debts.items;
      accepted = h.accepted;
      capacity = deque_capacity h.debts;
    } };

    ghost invariant = { λ h. AllPairs (λ (x y : Held). x.ticket < y.ticket) h.debts.items
        × All (λ (x : Held). x.ticket < h.accepted) h.debts.items };
}

impl HeldDebts {
    pub(crate) fn new(alloc: Global) -> Self
        ensures debts { result.debts ≡ [] }
        ensures accepted { result.accepted ≡ 0 }
    {
        HeldDebts {
            debts: VecDeque::new(alloc),
            accepted: 0,
        }
    }

    pub(crate) fn len(&self) -> usize
        ensures { result ≡ length self.now.debts }
    {
        self.debts.len()
    }

    pub(crate) fn is_empty(&self) -> bool
        ensures { result ≡ is_empty self.now.debts }
    {
        self.debts.is_empty()
    }

    pub(crate) fn next_ticket(&self) -> u64
        ensures { result ≡ self.now.accepted }
    {
        self.accepted
    }

    // Makes room for one more debt. An `Err` changes nothing: memory was refused, or there is no ticket left.
    pub(crate) fn reserve(&mut self) -> Result<(), AllocError>
        ensures room { OnOk result (length self.new.debts < self.new.capacity) }
        ensures ticket { OnOk result (self.new.accepted < u64.MAX) }
        ensures debts { self.new.debts ≡ self.old.debts }
        ensures accepted { self.new.accepted ≡ self.old.accepted }
    {
        if self.accepted == u64::MAX {
            return Err(AllocError);
        }
        self.debts.reserve(1)
    }

    // Takes a debt; there must be room for it.
    pub(crate) fn put(&mut self, debt: Debt)
        requires room { length self.old.debts < self.old.capacity }
        requires ticket { self.old.accepted < u64.MAX }
        ensures debts { self.new.debts
            ≡ self.old.debts ++ record { ticket = self.old.accepted; debt = debt } ∷ [] }
        ensures accepted { self.new.accepted ≡ self.old.accepted + 1 }
    {
        let x = HeldDebt::new(self.accepted, debt);
        self.debts.push_back_reserved(x);
        self.accepted += 1;
    }

    fn index_of(&self, ticket: u64) -> Option<usize>
        ensures { result ≡ position (is_at ticket) self.now.debts }
    {
        self.debts
            .binary_search_by_key(&ticket, |x| x.ticket())
            .ok()
    }

    pub(crate) fn get(&self, ticket: u64) -> Option<&HeldDebt>
        ensures { option_copied result ≡ find (is_at ticket) self.now.debts }
    {
        match self.index_of(ticket) {
            Some(i) => self.debts.get(i),
            None => None,
        }
    }

    pub(crate) fn debt_at(&self, ticket: u64) -> Option<&Debt>
        ensures { option_copied result
            ≡ option_map (λ (x : Held). x.debt) (find (is_at ticket) self.now.debts) }
    {
        match self.get(ticket) {
            Some(x) => Some(x.debt()),
            None => None,
        }
    }

    pub(crate) fn key_at(&self, ticket: u64) -> Option<Key>
        ensures { result
            ≡ option_map (λ (x : Held). x.debt.0) (find (is_at ticket) self.now.debts) }
    {
        match self.get(ticket) {
            Some(x) => Some(x.debt().key()),
            None => None,
        }
    }

    pub(crate) fn take(&mut self, ticket: u64) -> Option<HeldDebt>
        ensures found { result ≡ find (is_at ticket) self.old.debts }
        ensures rest { self.new.debts ≡ remove_key (is_at ticket) self.old.debts }
        ensures len { MatchOption result (length self.new.debts ≡ length self.old.debts)
            (λ _. length self.new.debts + 1 ≡ length self.old.debts) }
        ensures accepted { self.new.accepted ≡ self.old.accepted }
        ensures unchanged { IfNone result (self.new ≡ self.old) }
    {
        match self.index_of(ticket) {
            Some(i) => self.debts.remove(i),
            None => None,
        }
    }

    pub(crate) fn take_first(&mut self) -> Option<HeldDebt>
        ensures items { self.old.debts ≡ option_to_list result ++ self.new.debts }
        ensures accepted { self.new.accepted ≡ self.old.accepted }
        ensures none_left { IfNone result (self.new.debts ≡ []) }
    {
        self.debts.pop_front()
    }
}
