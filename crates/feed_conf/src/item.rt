// The items of a line: what each line of a configuration says.
ghost use Rattle.std.specs.Prelude.{◌≡◌, ◌∷◌, ◌==◌, ◌<◌, [], List, ℕ, ◌≤◌, IfSome};
ghost use Rattle.std.specs.Prelude.{MatchOption, codes, length, position};
ghost use Rattle.std.specs.Str.{bytes_eq};
ghost use Rattle.feed_conf.specs.Items.{items, items_of, sort_of, split_pair, stop_kind, word_items};
ghost use Rattle.feed_conf.specs.Items.{GroupBegun, GroupNamed, KeyBegun, PeerBegun, PeerNamed};
ghost use Rattle.feed_conf.specs.Scan.{lexemes_of};
ghost use Rattle.feed_conf.specs.ItemView.{item_view, sort_view, stop_view};

use crate::fault::ConfFaultKind;
use crate::lexeme::{Lexeme, next_lexeme};

/// Why a line cannot be read further.
#[derive(Clone, Copy)]
pub(crate) enum Stop<'t> {
    /// A word, or a text in quotes, is no key, since no colon is in it.
    NoColon(&'t [u8]),
    /// `{` does not follow the name of this group.
    NoBrace(&'t [u8]),
    /// No name follows the word `group`.
    NoName,
    /// `{` without a name before it.
    LoneBrace,
    /// A quote without a second one on its line.
    LoneQuote,
}

impl<'t> Stop<'t> {
    pub(crate) fn kind(self) -> ConfFaultKind
        ensures { result ≡ stop_kind (stop_view self.entry) }
    {
        match self {
            Stop::NoColon(_) => ConfFaultKind::NoValue,
            _ => ConfFaultKind::Unbalanced,
        }
    }
}

/// One thing that a line says.
#[derive(Clone, Copy)]
pub(crate) enum Item<'t> {
    /// The word `peer`: the name after it, empty if there is none, and whether `{` follows.
    Peer(&'t [u8], bool),
    Group,
    /// The innermost block is closed.
    Closes,
    /// A key, and its value if it has one.
    Uses(&'t [u8], Option<&'t [u8]>),
    /// The line cannot be read further.
    Stops(Stop<'t>),
}

// What a word is when a new item may begin.
#[derive(Clone, Copy)]
enum Sort<'t> {
    PeerWord,
    GroupWord,
    // The text before the first colon and the text after it.
    Pair(&'t [u8], &'t [u8]),
    // A word without a colon.
    Plain(&'t [u8]),
}

fn colon(word: &[u8]) -> Option<usize>
    ensures { result ≡ position (λ octet. octet == 58) word.now }
{
    word.iter().position(|octet| *octet == b':')
}

// The key and the value that a colon separates.
fn split_pair(word: &[u8]) -> Sort<'_>
    ensures { split_pair (position (λ octet. octet == 58) word.now) word.now ≡ sort_view result }
{
    match colon(word) {
        None => Sort::Plain(word),
        Some(at) => {
            let key = word.split_at(at).0;
            let value = word.split_at(at + 1).1;
            Sort::Pair(key, value)
        }
    }
}

pub(crate) fn is_text(octets: &[u8], text: &[u8]) -> bool
    ensures { result ≡ bytes_eq octets.now text.now }
{
    octets == text
}

fn sort_word(word: &[u8]) -> Sort<'_>
    ensures { sort_of word.now ≡ sort_view result }
{
    if is_text(word, b"peer") {
        return Sort::PeerWord;
    }
    if is_text(word, b"group") {
        return Sort::GroupWord;
    }
    split_pair(word)
}

// Reads on after the name of a peer.
fn peer_named<'t>(name: &'t [u8], line: &'t [u8]) -> (Item<'t>, &'t [u8])
    ensures items { items (lexemes_of line.now) (PeerNamed name.now)
        ≡ item_view result.0 ∷ items_of result.1.now }
    ensures within { length result.1.now ≤ length line.now }
{
    match next_lexeme(line) {
        Some((Lexeme::Open, rest)) => (Item::Peer(name, true), rest),
        _ => (Item::Peer(name, false), &[]),
    }
}

// Reads on after the word `peer`.
fn peer_begun(line: &[u8]) -> (Item<'_>, &[u8])
    ensures items { items (lexemes_of line.now) PeerBegun
        ≡ item_view result.0 ∷ items_of result.1.now }
    ensures within { length result.1.now ≤ length line.now }
{
    match next_lexeme(line) {
        Some((Lexeme::Word(name), rest)) => peer_named(name, rest),
        Some((Lexeme::Unclosed, _)) => (Item::Stops(Stop::LoneQuote), &[]),
        _ => (Item::Peer(&[], false), &[]),
    }
}

// Reads on after the name of a group.
fn group_named<'t>(name: &'t [u8], line: &'t [u8]) -> (Item<'t>, &'t [u8])
    ensures items { items (lexemes_of line.now) (GroupNamed name.now)
        ≡ item_view result.0 ∷ items_of result.1.now }
    ensures within { length result.1.now ≤ length line.now }
{
    match next_lexeme(line) {
        Some((Lexeme::Open, rest)) => (Item::Group, rest),
        _ => (Item::Stops(Stop::NoBrace(name)), &[]),
    }
}

// Reads on after the word `group`.
fn group_begun(line: &[u8]) -> (Item<'_>, &[u8])
    ensures items { items (lexemes_of line.now) GroupBegun
        ≡ item_view result.0 ∷ items_of result.1.now }
    ensures within { length result.1.now ≤ length line.now }
{
    match next_lexeme(line) {
        Some((Lexeme::Word(name), rest)) => group_named(name, rest),
        _ => (Item::Stops(Stop::NoName), &[]),
    }
}

// Reads on after a key whose word ends at the colon.
fn key_begun<'t>(key: &'t [u8], line: &'t [u8]) -> (Item<'t>, &'t [u8])
    ensures items { items (lexemes_of line.now) (KeyBegun key.now)
        ≡ item_view result.0 ∷ items_of result.1.now }
    ensures within { length result.1.now ≤ length line.now }
{
    match next_lexeme(line) {
        Some((Lexeme::Word(value), rest)) => (Item::Uses(key, Some(value)), rest),
        Some((Lexeme::Quoted(value), rest)) => (Item::Uses(key, Some(value)), rest),
        Some((Lexeme::Unclosed, _)) => (Item::Stops(Stop::LoneQuote), &[]),
        _ => (Item::Uses(key, None), line),
    }
}

// Reads an item from its first word on.
fn word_begun<'t>(word: &'t [u8], line: &'t [u8]) -> (Item<'t>, &'t [u8])
    ensures items { word_items (sort_of word.now) (items (lexemes_of line.now))
        ≡ item_view result.0 ∷ items_of result.1.now }
    ensures within { length result.1.now ≤ length line.now }
{
    match sort_word(word) {
        Sort::PeerWord => peer_begun(line),
        Sort::GroupWord => group_begun(line),
        Sort::Pair(key, []) => key_begun(key, line),
        Sort::Pair(key, value) => (Item::Uses(key, Some(value)), line),
        Sort::Plain(word) => (Item::Stops(Stop::NoColon(word)), &[]),
    }
}

/// The first item of a line and the rest after it; `None` if the line says nothing more.
pub(crate) fn next_item(line: &[u8]) -> Option<(Item<'_>, &[u8])>
    ensures items { MatchOption result (items_of line.now ≡ [])
        (λ r. items_of line.now ≡ item_view r.0 ∷ items_of r.1.now) }
    ensures shorter { IfSome result (λ r. length r.1.now < length line.now) }
{
    match next_lexeme(line) {
        None => None,
        Some((Lexeme::Word(word), rest)) => Some(word_begun(word, rest)),
        Some((Lexeme::Quoted(octets), _)) => Some((Item::Stops(Stop::NoColon(octets)), &[])),
        Some((Lexeme::Close, rest)) => Some((Item::Closes, rest)),
        Some((Lexeme::Open, _)) => Some((Item::Stops(Stop::LoneBrace), &[])),
        Some((Lexeme::Unclosed, _)) => Some((Item::Stops(Stop::LoneQuote), &[])),
    }
}
