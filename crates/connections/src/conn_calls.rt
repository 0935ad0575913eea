// What is called of a connection's machine, other than `article`: none of these calls hands in an article.
ghost use Rattle.connections.specs.Articles.{HandsInNothing};
ghost use Rattle.connections.specs.Logins.{IsGiven};

use conn_core::{Back, Conn};
use event_loop::{Moved, SocketLink, put_out, take_in};
use ledger_core::Debt;

pub(crate) fn break_conn(conn: &mut Conn)
    ensures { HandsInNothing conn.old conn.new }
{
    conn.broken();
}

pub(crate) fn quit_conn(conn: &mut Conn)
    ensures { HandsInNothing conn.old conn.new }
{
    conn.quit();
}

pub(crate) fn tick_conn(conn: &mut Conn, now: u64)
    ensures { HandsInNothing conn.old conn.new }
{
    conn.tick(now);
}

pub(crate) fn offer_to(conn: &mut Conn, debt: Debt) -> Result<(), Back>
    ensures { HandsInNothing conn.old conn.new }
{
    conn.offer(debt)
}

pub(crate) fn send_once(conn: &mut Conn, link: &mut SocketLink) -> Moved
    ensures { HandsInNothing conn.old conn.new }
{
    put_out(conn, link)
}

pub(crate) fn receive_once(conn: &mut Conn, link: &mut SocketLink, buffer: &mut [u8]) -> Moved
    ensures { HandsInNothing conn.old conn.new }
{
    take_in(conn, link, buffer)
}

/// Gives it octets that came by another way than its link.
pub(crate) fn give_octets(conn: &mut Conn, octets: &[u8])
    ensures given { IsGiven octets.now conn.old conn.new }
    ensures nothing { HandsInNothing conn.old conn.new }
{
    let _ = conn.input(octets);
}
