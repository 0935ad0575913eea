// A configuration, read line by line.
ghost use Rattle.std.specs.Prelude.{◌≡◌, ◌==◌, ◌<◌, ◌≤◌, ◌+◌, ◌∷◌, ◌^◌, [], IfOk};
ghost use Rattle.std.specs.Prelude.{MatchOption, length, map, position};
ghost use Rattle.feed_conf.specs.Items.{items_of};
ghost use Rattle.feed_conf.specs.Reading.{finish, lines_of, run_line, run_lines, start, then_on};
ghost use Rattle.feed_conf.specs.ReaderView.{IsNamed, Runs, reader_view};

use crate::fault::{ConfFault, ConfFaultKind};
use crate::item::next_item;
use crate::reader::Reader;
use memchr::memchr;
use std::alloc::Global;

fn line_end(text: &[u8]) -> Option<usize>
    ensures { result ≡ position (λ octet. octet == 10) text.now }
{
    memchr(b'\n', text)
}

/// The first line without its LF, and the rest after that LF.
pub(crate) fn first_line(text: &[u8]) -> (&[u8], Option<&[u8]>)
    ensures lines { MatchOption result.1 (lines_of text.now ≡ result.0.now ∷ [])
        (λ behind. lines_of text.now ≡ result.0.now ∷ lines_of behind.now) }
    ensures within { MatchOption result.1 (length result.0.now ≤ length text.now)
        (λ behind. length result.0.now + length behind.now + 1 ≡ length text.now) }
{
    match line_end(text) {
        None => (text, None),
        Some(end) => {
            let line = text.split_at(end).0;
            let behind = text.split_at(end + 1).1;
            (line, Some(behind))
        }
    }
}

// `text` is the line without its LF, `line` its number.
fn read_line<'t>(mut reader: Reader<'t>, line: u64, text: &'t [u8]) -> Result<Reader<'t>, ConfFault>
    requires room { reader.opened + length text.now < 2 ^ 63 }
    requires named { IsNamed reader }
    ensures state { Runs (run_line (items_of text.now) (reader_view reader.entry) line) result }
    ensures named { IfOk result (λ r. IsNamed r) }
    ensures opened { IfOk result (λ r. r.opened ≤ reader.entry.opened + length text.now) }
{
    let mut rest = text;
    'items: while let Some((item, behind)) = next_item(rest) {
        match reader.apply(line, item) {
            Ok(next) => reader = next,
            Err(kind) => return Err(ConfFault { line, kind }),
        }
        rest = behind;
    }
    Ok(reader)
}

fn read_lines(alloc: Global, text: &[u8]) -> Result<Reader<'_>, ConfFault>
    ensures state { Runs (run_lines (map items_of (lines_of text.now)) start 1) result }
    ensures named { IfOk result (λ r. IsNamed r) }
{
    let mut reader = Reader::new(alloc);
    let mut line: u64 = 1;
    let mut rest = text;
    'lines: loop {
        let (octets, behind) = first_line(rest);
        match read_line(reader, line, octets) {
            Ok(next) => reader = next,
            Err(fault) => return Err(fault),
        }
        match behind {
            None => return Ok(reader),
            Some(behind) => {
                rest = behind;
                line += 1;
            }
        }
    }
}

// At the end no block may be open.
fn finish(reader: Reader<'_>) -> Result<Reader<'_>, ConfFault>
    ensures state { Runs (finish (reader_view reader.entry)) result }
    ensures keeps_names { IfOk result
        (λ r. (r.names ≡ reader.entry.names) × (r.peers ≡ reader.entry.peers)) }
{
    match reader.innermost() {
        None => Ok(reader),
        Some(block) => Err(ConfFault {
            line: block.line,
            kind: ConfFaultKind::Unbalanced,
        }),
    }
}

/// Reads a text, without looking up the values of its peers.
///
/// # Errors
/// The first fault in reading order.
pub(crate) fn read_text(alloc: Global, text: &[u8]) -> Result<Reader<'_>, ConfFault>
    ensures state { Runs (then_on (run_lines (map items_of (lines_of text.now)) start 1) finish)
        result }
    ensures named { IfOk result (λ r. IsNamed r) }
{
    match read_lines(alloc, text) {
        Ok(reader) => finish(reader),
        Err(fault) => Err(fault),
    }
}
