// Turns: a send of what a connection puts out, and a receipt of what its link gives.
ghost use Rattle.std.specs.Prelude.{◌≡◌, ◌≤◌, ◌⊎◌, ◌&&◌, ℕ, List, length, take, [], true};
ghost use Rattle.event_loop.specs.Link.{moved, is_wait, Tells};
ghost use Rattle.event_loop.specs.Chain.{Moves, Sends, Step, TakesIn, IsAnswered, after_send, are_turns, left_by};
ghost use Rattle.conn_core.specs.History.{Event, output};
ghost use Rattle.conn_core.specs.Stands.{StandsFor};
ghost use Rattle.conn_core.specs.declared.options.Options.{Options};

use crate::link::Link;
use crate::moved::Moved;
use conn_core::Conn;

/// How `drive` ended.
#[derive(Clone, Copy, Debug, PartialEq, Eq)]
pub enum Driven {
    /// Neither direction can move now.
    Idle,
    /// All turns were made, and at least one direction could move in the last.
    Turns,
    /// The connection is closed.
    Shut,
}

/// Sends what is put out, once. It returns `Later`, without a call, if there is nothing to send. If the link is
/// closed or fails, the connection is broken.
pub fn put_out<L: Link>(conn: &mut Conn, link: &mut L) -> Moved
    ensures stands { (options : Options) (unread : List ℕ) (h : List Event)
        → StandsFor options conn.old unread h
        → StandsFor options conn.new (left_by result unread) (after_send options h result)
        × Sends L.took L.takes (output options h) link.old result link.new }
    ensures gave { L.gave link.new ≡ L.gave link.old }
    ensures full { (options : Options) (unread : List ℕ) (h : List Event)
        → StandsFor options conn.old unread h
        → result ≡ Moved.Later → (output options h ≡ []) ⊎ L.full link.new }
    ensures same_id { conn.new.id ≡ conn.old.id }
{
    if conn.output().is_empty() {
        return Moved::Later;
    }
    let made = link.send(conn.output());
    match made {
        Moved::Done(count) => conn.sent(count),
        Moved::Later => {}
        Moved::Closed | Moved::Fault => conn.broken(),
    }
    made
}

/// Takes in what the link gives, once, by way of `buffer`. If the link is closed or fails, the connection is broken;
/// if memory is refused, it is closed as by `broken`, and the result is still `Done`.
pub fn take_in<L: Link>(conn: &mut Conn, link: &mut L, buffer: &mut [u8]) -> Moved
    ensures stands { (options : Options) (unread : List ℕ) (h : List Event)
        → StandsFor options conn.old unread h
        → (left : List ℕ) × (later : List Event) × StandsFor options conn.new left later
        × TakesIn options result (take (moved result) buffer.new) unread h left later }
    ensures within { moved result ≤ length buffer.new }
    ensures gave { Tells (L.gave link.old) (take (moved result) buffer.new) (L.gave link.new) }
    ensures took { L.took link.new ≡ L.took link.old }
    ensures gives { L.gives link.old (length buffer.old) result link.new }
    ensures dry { result ≡ Moved.Later → L.dry link.new }
    ensures full { L.full link.old → L.full link.new }
    ensures same_id { conn.new.id ≡ conn.old.id }
{
    let made = link.recv(buffer);
    match made {
        Moved::Done(count) => {
            let _ = conn.input(&buffer[..count]);
        }
        Moved::Later => {}
        Moved::Closed | Moved::Fault => conn.broken(),
    }
    made
}

/// Makes at most `turns` turns, each a send and a receipt, until neither can move or the connection is closed.
pub fn drive<L: Link>(conn: &mut Conn, link: &mut L, buffer: &mut [u8], turns: u64) -> Driven
    ensures stands { (options : Options) (unread : List ℕ) (h : List Event)
        → StandsFor options conn.old unread h
        → (left : List ℕ) × (later : List Event) × (steps : List Step)
        × StandsFor options conn.new left later
        × Moves L.took L.gave L.takes L.gives options (length buffer.old)
        unread h link.old steps left later link.new
        × (are_turns steps ≡ true)
        × IsAnswered options result turns (L.full link.new) (L.dry link.new) steps later }
    ensures same_id { conn.new.id ≡ conn.old.id }
{
    if conn.closed().is_some() {
        return Driven::Shut;
    }
    for _turn in 0..turns {
        let out = put_out(conn, link);
        let into = take_in(conn, link, buffer);
        if conn.closed().is_some() {
            return Driven::Shut;
        }
        if neither_can_move(out, into) {
            return Driven::Idle;
        }
    }
    Driven::Turns
}

fn neither_can_move(out: Moved, into: Moved) -> bool
    ensures { result ≡ (is_wait out && is_wait into) }
{
    matches!(out, Moved::Later) && matches!(into, Moved::Later)
}
