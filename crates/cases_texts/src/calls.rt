// The calls that rows name.
use crate::articles::{BrokenDisk, insert, put_fetched, put_handed_out, put_read, put_removed};
use crate::blocks::{put_block, put_output, put_sendable, put_text};
use crate::fault::RowFault;
use crate::lines::{
    put_backlog_line, put_cut, put_fed, put_id, put_line, put_named, put_peer_name, put_token,
    put_without_cr, put_words,
};
use crate::replies::put_replies;
use crate::reports::put_report;
use crate::segment_names::{put_added, put_name, put_place, put_sides};
use crate::settings::{
    put_fault, put_innd, put_login, put_names, put_numbers, put_settings, put_state,
};
use article_store::MemArticles;
use funnel::LineCutter;
use std::alloc::{AllocError, Global};

/// What the rows of a file leave to the next ones.
#[derive(Drop)]
pub struct Kept {
    cutter: LineCutter,
    store: MemArticles,
    buffer: Vec<u8>,
}

impl Kept {
    pub fn new(alloc: Global) -> Kept {
        Kept {
            cutter: LineCutter::new(alloc),
            store: MemArticles::new(alloc),
            buffer: Vec::new(alloc),
        }
    }
}

/// Adds the answer of a call (README.md lists them).
///
/// # Errors
/// No call has this name and so many arguments, an argument is not what it takes, or memory was refused.
pub fn answer(
    answer: &mut Vec<u8>,
    kept: &mut Kept,
    call: &str,
    arguments: &[Vec<u8>],
) -> Result<(), RowFault> {
    match (call, arguments) {
        ("numbers", [conf, peer]) => put_numbers(answer, conf, peer),
        ("settings", [conf]) => put_settings(answer, conf),
        ("innd", [conf]) => put_innd(answer, conf),
        ("login", [conf]) => put_login(answer, conf),
        ("state", [conf]) => put_state(answer, conf),
        ("into-peers", [conf]) => put_names(answer, conf),
        ("place", [_, ..]) => put_place(answer, arguments),
        ("sides", [_, ..]) => put_sides(answer, arguments),
        ("report", peers) => put_report(answer, peers),
        ("insert", [token, text]) => insert(*answer.allocator(), &mut kept.store, token, text),
        ("remove", [token]) => put_removed(answer, &mut kept.store, token),
        ("fetch", [token]) => put_fetched(answer, &mut kept.store, token),
        ("hand-out", [token]) => put_handed_out(answer, &mut kept.store, token),
        ("hand-out-broken", [token]) => put_handed_out(answer, &mut BrokenDisk, token),
        ("read", [text, _, end]) => put_read(answer, &mut kept.buffer, arguments, text, end),
        _ => match answer_text(answer, kept, call, arguments) {
            Some(done) => Ok(done?),
            None => Err(RowFault::NoCall),
        },
    }
}

// The same for the calls that take any text. `None` if there is no such call.
fn answer_text(
    answer: &mut Vec<u8>,
    kept: &mut Kept,
    call: &str,
    arguments: &[Vec<u8>],
) -> Option<Result<(), AllocError>> {
    Some(match (call, arguments) {
        ("line", [line]) => put_line(answer, line),
        ("backlog-line", [line]) => put_backlog_line(answer, line),
        ("names", [line, peer]) => put_named(answer, line, peer),
        ("message-id", [octets]) => put_id(answer, octets),
        ("token", [octets]) => put_token(answer, octets),
        ("peer-name", [octets]) => put_peer_name(answer, octets),
        ("words", [text]) => put_words(answer, text),
        ("without-cr", [line]) => put_without_cr(answer, line),
        ("cut", [text]) => put_cut(answer, text),
        ("feed", [piece]) => put_fed(answer, &mut kept.cutter, piece),
        ("block", [text]) => put_block(answer, text),
        ("output", [octets, text]) => put_output(answer, octets, text),
        ("sendable", [text]) => put_sendable(answer, text),
        ("text", [block]) => put_text(answer, block),
        ("replies", [octets]) => put_replies(answer, octets),
        ("fault", [conf]) => put_fault(answer, conf),
        ("segment-name", [name]) => put_name(answer, name),
        ("add", names) => put_added(answer, names),
        _ => return None,
    })
}
