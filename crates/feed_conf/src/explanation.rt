// Messages that explain a faulty configuration (docs/MANUAL.md).
ghost use Rattle.std.specs.Prelude.{◌≡◌, ◌++◌, ◌∷◌, [], IfOk, MatchOption, OnOk, decimal};
ghost use Rattle.std.specs.Prelude.{filter, flat_map, map};
ghost use Rattle.std.specs.Option.{option_map};
ghost use Rattle.feed_conf.specs.Explanation.{allowed_text, explanation, item_text, items_text};
ghost use Rattle.feed_conf.specs.Explanation.{colon_text, fault_text, fault_words, is_peer, is_sync, item_at_fault};
ghost use Rattle.feed_conf.specs.Explanation.{lacks_colon};
ghost use Rattle.feed_conf.specs.Explanation.{line_at, may_be_unbalanced, may_have, may_lack_value, only, peer_text};
ghost use Rattle.feed_conf.specs.Explanation.{number_text, place_text, setting_text, stop_text, words_text};
ghost use Rattle.feed_conf.specs.Explanation.{reason_text, taken_text, words_of};
ghost use Rattle.feed_conf.specs.Items.{items_of};
ghost use Rattle.feed_conf.specs.ItemView.{item_view, stop_view};
ghost use Rattle.feed_conf.specs.Reading.{lines_of};
ghost use Rattle.feed_conf.specs.Values.{taken_of};
ghost use Rattle.feed_conf.specs.ValueView.{HasSmallBounds};

use crate::fault::{ConfFault, ConfFaultKind};
use crate::item::{Item, Stop, is_text, next_item};
use crate::key::{Kind, find_key};
use crate::read::first_line;
use crate::value::take_value;
use std::alloc::{AllocError, Global};

/// The messages that explain `fault`, the first fault of the configuration `text`, which was read from `file`: the
/// fault itself unless it is of a value, with the word that has it and the cure, if only one thing on its line may have
/// it; and each value that its key does not take, in reading order, with what is allowed.
///
/// # Errors
/// Memory was refused.
pub fn explain(
    alloc: Global,
    file: &[u8],
    text: &[u8],
    fault: ConfFault,
) -> Result<Vec<u8>, AllocError>
    ensures { IfOk result (λ lines. lines.items ≡ explanation file.now text.now fault) }
{
    let mut lines = Vec::new(alloc);
    add_fault(&mut lines, file, fault, item_at_fault(text, fault))?;
    add_values(&mut lines, file, text)?;
    Ok(lines)
}

// The item that has the fault: the only one of its line that may have a fault of that kind.
fn item_at_fault(text: &[u8], fault: ConfFault) -> Option<Item<'_>>
    ensures { option_map item_view result ≡ item_at_fault text.now fault }
{
    match next_suspect(line_at(text, fault.line), fault.kind) {
        None => None,
        Some((item, rest)) => match next_suspect(rest, fault.kind) {
            None => Some(item),
            Some(_) => None,
        },
    }
}

// The line of this number, counted from 1, without its LF.
fn line_at(text: &[u8], line: u64) -> &[u8]
    ensures { result.now ≡ line_at line text.now }
{
    let mut left = line.saturating_sub(1);
    let mut rest = text;
    'lines: loop {
        let (octets, behind) = first_line(rest);
        if left == 0 {
            return octets;
        }
        match behind {
            None => return &[],
            Some(behind) => {
                rest = behind;
                left -= 1;
            }
        }
    }
}

// The first item of a line that may have a fault of this kind, and the rest of the line after it.
fn next_suspect(line: &[u8], kind: ConfFaultKind) -> Option<(Item<'_>, &[u8])>
    ensures { MatchOption result (filter (may_have kind) (items_of line.now) ≡ [])
        (λ r. filter (may_have kind) (items_of line.now)
        ≡ item_view r.0 ∷ filter (may_have kind) (items_of r.1.now)) }
{
    let mut rest = line;
    'items: while let Some((item, behind)) = next_item(rest) {
        if may_have(kind, item) {
            return Some((item, behind));
        }
        rest = behind;
    }
    None
}

fn may_have(kind: ConfFaultKind, item: Item<'_>) -> bool
    ensures { result ≡ may_have kind (item_view item.entry) }
{
    match kind {
        ConfFaultKind::NoValue => may_lack_value(item),
        ConfFaultKind::Unbalanced => may_be_unbalanced(item),
        ConfFaultKind::BadPeerName => is_peer(item),
        ConfFaultKind::SamePeer => is_peer(item),
        ConfFaultKind::LowAboveHigh => is_peer(item),
        ConfFaultKind::NoCycbuffs => is_sync(item),
        _ => false,
    }
}

fn may_lack_value(item: Item<'_>) -> bool
    ensures { result ≡ may_lack_value (item_view item.entry) }
{
    match item {
        Item::Uses(key, None) => find_key(key).is_some(),
        Item::Stops(stop) => lacks_colon(stop),
        _ => false,
    }
}

fn may_be_unbalanced(item: Item<'_>) -> bool
    ensures { result ≡ may_be_unbalanced (item_view item.entry) }
{
    match item {
        Item::Uses(_, _) => false,
        Item::Stops(stop) => !lacks_colon(stop),
        _ => true,
    }
}

fn lacks_colon(stop: Stop<'_>) -> bool
    ensures { result ≡ lacks_colon (stop_view stop.entry) }
{
    match stop {
        Stop::NoColon(_) => true,
        _ => false,
    }
}

fn is_peer(item: Item<'_>) -> bool
    ensures { result ≡ is_peer (item_view item.entry) }
{
    match item {
        Item::Peer(_, _) => true,
        _ => false,
    }
}

// Whether an item is a use of `sync-spool`.
fn is_sync(item: Item<'_>) -> bool
    ensures { result ≡ is_sync (item_view item.entry) }
{
    match item {
        Item::Uses(key, _) => is_text(key, b"sync-spool"),
        _ => false,
    }
}

// Adds the line on a fault that is not of a value, with the word that is at fault, if it is known.
fn add_fault(
    out: &mut Vec<u8>,
    file: &[u8],
    fault: ConfFault,
    item: Option<Item<'_>>,
) -> Result<(), AllocError>
    ensures { OnOk result (out.new.items
        ≡ out.old.items ++ fault_text file.now fault (option_map item_view item.entry)) }
{
    match item {
        None => add_words(out, file, fault.line, words_of(fault.kind)),
        Some(item) => {
            add_place(out, file, fault.line)?;
            add_fault_words(out, fault.kind, item)?;
            out.push(b'\n')?;
            Ok(())
        }
    }
}

fn add_words(
    out: &mut Vec<u8>,
    file: &[u8],
    line: u64,
    words: Option<&[u8]>,
) -> Result<(), AllocError>
    ensures { OnOk result (out.new.items
        ≡ out.old.items ++ words_text file.now line (option_map (λ w. w.now) words.entry)) }
{
    match words {
        None => Ok(()),
        Some(words) => {
            add_place(out, file, line)?;
            out.extend_from_slice(words)?;
            out.push(b'\n')?;
            Ok(())
        }
    }
}

// Adds what is wrong with an item that has this fault.
fn add_fault_words(out: &mut Vec<u8>, kind: ConfFaultKind, item: Item<'_>) -> Result<(), AllocError>
    ensures { OnOk result
        (out.new.items ≡ out.old.items ++ fault_words kind (item_view item.entry)) }
{
    match item {
        Item::Peer(name, braced) => {
            out.extend_from_slice(b"peer ")?;
            out.extend_from_slice(name)?;
            out.extend_from_slice(b": ")?;
            out.extend_from_slice(peer_words(kind, braced))
        }
        Item::Group => out.extend_from_slice(
            b"group: this block is inside a peer, or has no closing brace",
        ),
        Item::Closes => out.extend_from_slice(b"}: no block is open"),
        Item::Uses(key, _) => {
            out.extend_from_slice(key)?;
            out.extend_from_slice(b": ")?;
            out.extend_from_slice(setting_words(kind))
        }
        Item::Stops(stop) => add_stop(out, stop),
    }
}

// What is wrong with a use of a key.
fn setting_words(kind: ConfFaultKind) -> &'static [u8]
    ensures { result.now ≡ setting_text kind }
{
    match kind {
        ConfFaultKind::NoCycbuffs => {
            b"true needs innd-cycbuffs; name innd's cycbuff.conf, or leave sync-spool out"
        }
        _ => b"no value follows; put it on the line of the key",
    }
}

// What is wrong with a peer's declaration.
fn peer_words(kind: ConfFaultKind, braced: bool) -> &'static [u8]
    ensures { result.now ≡ peer_text kind braced }
{
    match kind {
        ConfFaultKind::BadPeerName => {
            b"the name is missing or invalid; it has 1 to 64 letters, digits, '.', '-' and '_', the first not '.'"
        }
        ConfFaultKind::SamePeer => b"a peer of this name is declared above",
        ConfFaultKind::LowAboveHigh => b"no-check-low is above no-check-high",
        _ => {
            if braced {
                b"this block is inside a peer, or has no closing brace"
            } else {
                b"no brace follows; put it on the line of the name"
            }
        }
    }
}

// Adds why a line cannot be read further, and the cure.
fn add_stop(out: &mut Vec<u8>, stop: Stop<'_>) -> Result<(), AllocError>
    ensures { OnOk result (out.new.items ≡ out.old.items ++ stop_text (stop_view stop.entry)) }
{
    match stop {
        Stop::NoColon(word) => add_colon(out, word),
        Stop::NoBrace(name) => {
            out.extend_from_slice(b"group ")?;
            out.extend_from_slice(name)?;
            out.extend_from_slice(b": no brace follows; put it on the line of the name")
        }
        Stop::NoName => out.extend_from_slice(
            b"group: no name follows; write group NAME and a brace",
        ),
        Stop::LoneBrace => out.extend_from_slice(
            b"{: no name is before it; put the brace on the line of its name",
        ),
        Stop::LoneQuote => out.extend_from_slice(b"\": the quote has no counterpart on its line"),
    }
}

// Adds that a word is no key, and the cure.
fn add_colon(out: &mut Vec<u8>, word: &[u8]) -> Result<(), AllocError>
    ensures { OnOk result (out.new.items ≡ out.old.items ++ colon_text word.now) }
{
    if is_text(word, b"$INCLUDE") {
        return out.extend_from_slice(b"$INCLUDE is not read: put the lines of that file here");
    }
    out.extend_from_slice(word)?;
    out.extend_from_slice(b": no colon follows; write ")?;
    out.extend_from_slice(word)?;
    out.extend_from_slice(b":, without a blank before the colon")
}

// `None` for a fault of a value, which has a line of its own.
fn words_of(kind: ConfFaultKind) -> Option<&'static [u8]>
    ensures { option_map (λ words. words.now) result ≡ words_of kind }
{
    match kind {
        ConfFaultKind::NoValue => Some(b"a setting has no value, or a word is not a setting"),
        ConfFaultKind::Unbalanced => {
            Some(b"a quote or a brace has no counterpart, or a block is inside a peer")
        }
        ConfFaultKind::BadPeerName => Some(b"the name of the peer is missing or invalid"),
        ConfFaultKind::SamePeer => Some(b"a peer of this name is declared above"),
        ConfFaultKind::LowAboveHigh => {
            Some(b"no-check-low of this peer is above its no-check-high")
        }
        ConfFaultKind::NoCycbuffs => Some(b"sync-spool is true, and innd-cycbuffs is not given"),
        _ => None,
    }
}

/// Adds the file and the line number that a message begins with: `FILE:N: `.
///
/// # Errors
/// Memory was refused.
pub(crate) fn add_place(out: &mut Vec<u8>, file: &[u8], line: u64) -> Result<(), AllocError>
    ensures { OnOk result (out.new.items ≡ out.old.items ++ place_text file.now line) }
{
    out.extend_from_slice(file)?;
    out.extend_from_slice(b":")?;
    add_number(out, line)?;
    out.extend_from_slice(b": ")
}

pub(crate) fn add_number(out: &mut Vec<u8>, number: u64) -> Result<(), AllocError>
    ensures { OnOk result (out.new.items ≡ out.old.items ++ decimal number) }
{
    out.extend_from_slice(itoa::Buffer::new().format(number).as_bytes())
}

fn add_values(out: &mut Vec<u8>, file: &[u8], text: &[u8]) -> Result<(), AllocError>
    ensures { OnOk result (out.new.items
        ≡ out.old.items ++ items_text file.now 1 (map items_of (lines_of text.now))) }
{
    let mut line: u64 = 1;
    let mut rest = text;
    'lines: loop {
        let (octets, behind) = first_line(rest);
        add_line(out, file, line, octets)?;
        match behind {
            None => return Ok(()),
            Some(behind) => {
                rest = behind;
                line += 1;
            }
        }
    }
}

// `text` is one line, without its LF.
fn add_line(out: &mut Vec<u8>, file: &[u8], line: u64, text: &[u8]) -> Result<(), AllocError>
    ensures { OnOk result (out.new.items
        ≡ out.old.items ++ flat_map (item_text file.now line) (items_of text.now)) }
{
    let mut rest = text;
    'items: while let Some((item, behind)) = next_item(rest) {
        add_item(out, file, line, item)?;
        rest = behind;
    }
    Ok(())
}

fn add_item(out: &mut Vec<u8>, file: &[u8], line: u64, item: Item<'_>) -> Result<(), AllocError>
    ensures { OnOk result
        (out.new.items ≡ out.old.items ++ item_text file.now line (item_view item.entry)) }
{
    match item {
        Item::Uses(name, Some(value)) => match find_key(name) {
            Some(key) => add_use(out, file, line, name, key.kind(), value),
            None => Ok(()),
        },
        _ => Ok(()),
    }
}

fn add_use(
    out: &mut Vec<u8>,
    file: &[u8],
    line: u64,
    name: &[u8],
    kind: Kind,
    value: &[u8],
) -> Result<(), AllocError>
    requires { HasSmallBounds kind }
    ensures { OnOk result (out.new.items ≡ out.old.items
        ++ taken_text file.now line name.now kind value.now (taken_of kind value.now)) }
{
    match take_value(kind, value) {
        Ok(_) => Ok(()),
        Err(fault) => {
            add_place(out, file, line)?;
            out.extend_from_slice(name)?;
            out.extend_from_slice(b": ")?;
            add_reason(out, kind, value, fault)?;
            out.push(b'\n')?;
            Ok(())
        }
    }
}

fn add_reason(
    out: &mut Vec<u8>,
    kind: Kind,
    value: &[u8],
    fault: ConfFaultKind,
) -> Result<(), AllocError>
    ensures { OnOk result
        (out.new.items ≡ out.old.items ++ reason_text kind value.now fault) }
{
    match kind {
        Kind::AnyText => out.extend_from_slice(value),
        Kind::ShortText => out.extend_from_slice(b"the value must have 1 to 255 octets"),
        Kind::Switch => {
            out.extend_from_slice(value)?;
            out.extend_from_slice(b" is none of true, yes, on, false, no, off")
        }
        Kind::Connections => add_number_reason(
            out,
            value,
            b" is not a whole number",
            (0, 64),
            fault,
        ),
        Kind::Number(least, greatest) => {
            add_number_reason(
                out,
                value,
                b" is not a whole number",
                (least, greatest),
                fault,
            )
        }
        Kind::Whole(least, greatest) => {
            add_number_reason(out, value, b" is not a number", (least, greatest), fault)
        }
        Kind::Fraction(least, greatest) => {
            add_number_reason(
                out,
                value,
                b" is not a number",
                (least / 100, greatest / 100),
                fault,
            )
        }
    }
}

fn add_number_reason(
    out: &mut Vec<u8>,
    value: &[u8],
    kind: &[u8],
    bounds: (u64, u64),
    fault: ConfFaultKind,
) -> Result<(), AllocError>
    ensures { OnOk result (out.new.items
        ≡ out.old.items ++ number_text value.now kind.now bounds.0 bounds.1 fault) }
{
    match fault {
        ConfFaultKind::Range => {
            out.extend_from_slice(value)?;
            out.extend_from_slice(b" is below ")?;
            add_number(out, bounds.0)
        }
        _ => add_allowed(out, value, kind, bounds),
    }
}

// Adds that a value is not of this kind, and the least and the greatest that are allowed.
fn add_allowed(
    out: &mut Vec<u8>,
    value: &[u8],
    kind: &[u8],
    bounds: (u64, u64),
) -> Result<(), AllocError>
    ensures { OnOk result (out.new.items
        ≡ out.old.items ++ allowed_text value.now kind.now bounds.0 bounds.1) }
{
    out.extend_from_slice(value)?;
    out.extend_from_slice(kind)?;
    out.extend_from_slice(b"; ")?;
    add_number(out, bounds.0)?;
    out.extend_from_slice(b" to ")?;
    add_number(out, bounds.1)?;
    out.extend_from_slice(b" are allowed")
}
