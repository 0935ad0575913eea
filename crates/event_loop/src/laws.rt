//! Laws of whole chains of sends and receipts, over any link that reports its octets. Each function does nothing: its
//! contract is the law.
ghost use Rattle.std.specs.Prelude.{◌≡◌, List, Some, ℕ};
ghost use Rattle.event_loop.specs.Chain.{Moves, Step};
ghost use Rattle.event_loop.specs.Laws.{GaveReplies, TookInOrder};
ghost use Rattle.conn_core.specs.History.{Event};
ghost use Rattle.conn_core.specs.Stands.{StandsFor};
ghost use Rattle.conn_core.specs.State.{Holding};
ghost use Rattle.conn_core.specs.declared.options.Options.{Options};

use crate::link::Link;

/// What a link took is exactly the connection's output that counts as sent: in order, with nothing left out and
/// nothing repeated.
pub fn took_in_order<L: Link>()
    ensures { (options : Options) (conn : Holding) (room : ℕ) (unread : List ℕ)
        (h : List Event) (link : L) (left : List ℕ) (later : List Event) (new : L)
        (before : List ℕ) (steps : List Step)
        → StandsFor options conn unread h
        → Moves L.took L.gave L.takes L.gives options room unread h link steps left later new
        → L.took link ≡ Some before → TookInOrder h later before (L.took new) }
{}

/// The octets held back before, followed by what a link gave, are the lines of the replies that came, followed by a
/// rest: while the connection is open, the octets held back now.
pub fn gave_replies<L: Link>()
    ensures { (options : Options) (room : ℕ) (unread : List ℕ) (h : List Event)
        (link : L) (left : List ℕ) (later : List Event) (new : L)
        (before : List ℕ) (steps : List Step)
        → Moves L.took L.gave L.takes L.gives options room unread h link steps left later new
        → L.gave link ≡ Some before
        → GaveReplies options unread h before left later (L.gave new) }
{}
