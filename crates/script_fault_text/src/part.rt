// The parts that a line of a script has after its first word (docs/FORMATS.md).
ghost use Rattle.std.specs.Prelude.{◌≡◌, ◌≤◌, ◌<◌, IfSome, length, option_map};
ghost use Rattle.drill_script.specs.StopRequest.{is_tape};
ghost use Rattle.script_fault_text.specs.Parts.{bad_escape, digits_misfit, first_count, is_call, is_disk, is_escape};
ghost use Rattle.script_fault_text.specs.Parts.{is_octet};
ghost use Rattle.script_fault_text.specs.Parts.{no_digit, odd_end};
ghost use Rattle.script_fault_text.specs.Parts.{may_lack, misfit_place, none_unless, parts_of, stands_alone};
ghost use Rattle.script_fault_text.specs.Parts.{names_connection, names_peer, wanted};

use drill_script::read_number;
use funnel::{Form, PeerNameForm};

/// What a part of a line has to be.
#[derive(Clone, Copy)]
pub enum Part {
    /// The name of a peer.
    Peer,
    /// The name of a peer, or `~intake`. Without it nothing else may follow.
    Tape,
    /// The name of a peer, or `~intake`, with `~b` or without.
    Disk,
    /// A number of 64 bits.
    Number,
    /// Such a number, but not 0.
    Call,
    /// A number of 8 bits, or nothing.
    Octet,
    /// One or more pairs of hexadecimal digits.
    Digits,
    /// A text with escapes.
    Written,
    /// Any text.
    Text,
    /// Any text, or nothing.
    Rest,
}

/// The parts after the first word of a line, if it is the word of a step, of a peer or of a tape.
pub fn parts_of(word: &[u8]) -> Option<&'static [Part]>
    ensures { option_map (λ parts. parts.now) result ≡ parts_of word.now }
{
    if stands_alone(word) {
        Some(&[])
    } else if names_peer(word) {
        Some(&[Part::Peer])
    } else if names_connection(word) {
        Some(&[Part::Number])
    } else if word == b"line".as_slice() {
        Some(&[Part::Rest])
    } else if word == b"peer".as_slice() {
        Some(&[Part::Peer, Part::Rest])
    } else if word == b"tape".as_slice() {
        Some(&[Part::Disk, Part::Digits])
    } else if word == b"import".as_slice() {
        Some(&[Part::Peer, Part::Written])
    } else if word == b"say".as_slice() {
        Some(&[Part::Number, Part::Text])
    } else if word == b"raw".as_slice() {
        Some(&[Part::Number, Part::Digits])
    } else if word == b"article".as_slice() {
        Some(&[Part::Number, Part::Written])
    } else if word == b"stop".as_slice() {
        Some(&[Part::Tape, Part::Call, Part::Number, Part::Octet])
    } else {
        None
    }
}

// Whether nothing may follow the word.
fn stands_alone(word: &[u8]) -> bool
    ensures { result ≡ stands_alone word.now }
{
    word == b"flush".as_slice()
        || word == b"begin".as_slice()
        || word == b"seal".as_slice()
        || word == b"restart".as_slice()
}

// Whether the word is followed by a peer's name alone.
fn names_peer(word: &[u8]) -> bool
    ensures { result ≡ names_peer word.now }
{
    word == b"part".as_slice()
        || word == b"connect".as_slice()
        || word == b"shed".as_slice()
        || word == b"rotate".as_slice()
}

// Whether the word is followed by a number alone: that of a connection, or a moment.
fn names_connection(word: &[u8]) -> bool
    ensures { result ≡ names_connection word.now }
{
    word == b"hand".as_slice() || word == b"break".as_slice() || word == b"tick".as_slice()
}

impl Part {
    /// Whether a line may end before this part.
    pub fn may_lack(self) -> bool
        ensures { result ≡ may_lack self }
    {
        match self {
            Part::Tape | Part::Octet | Part::Rest => true,
            _ => false,
        }
    }

    /// What is expected here, in words.
    pub fn wanted(self) -> &'static str
        ensures { result.now ≡ wanted self }
    {
        match self {
            Part::Peer => {
                "the name of a peer, of 1 to 64 letters, digits, '.', '-' and '_', the first not '.'"
            }
            Part::Tape => "the name of a peer, or ~intake",
            Part::Disk => "the name of a peer, or ~intake, and ~b after it for the second disk",
            Part::Number => "a number of 0 to 18446744073709551615",
            Part::Call => "the number of a disk call, from 1",
            Part::Octet => "a number of 0 to 255",
            Part::Digits => "pairs of hexadecimal digits",
            Part::Written => r"a text whose only escapes are \n, \r, \0 and \\",
            Part::Text | Part::Rest => "a text",
        }
    }

    /// Where in this text the first octet stands that this part can't have, or its end if something is missing;
    /// `None` if the text is such a part.
    pub fn misfit_place(self, text: &[u8]) -> Option<usize>
        ensures place { result ≡ misfit_place self text.now }
        ensures within { IfSome result (λ place. place ≤ length text.now) }
    {
        match self {
            Part::Peer => none_unless(PeerNameForm::holds(text)),
            Part::Tape => none_unless(is_tape(text)),
            Part::Disk => none_unless(is_disk(text)),
            Part::Number => none_unless(read_number(text).is_some()),
            Part::Call => none_unless(is_call(text)),
            Part::Octet => none_unless(is_octet(text)),
            Part::Digits => digits_misfit(text),
            Part::Written => bad_escape(text),
            Part::Text | Part::Rest => None,
        }
    }
}

// The first place, unless there is no misfit.
fn none_unless(fits: bool) -> Option<usize>
    ensures { result ≡ none_unless fits }
{
    if fits { None } else { Some(0) }
}

fn is_tape(text: &[u8]) -> bool
    ensures { result ≡ is_tape text.now }
{
    text == b"~intake".as_slice() || PeerNameForm::holds(text)
}

fn is_disk(text: &[u8]) -> bool
    ensures { result ≡ is_disk text.now }
{
    match text.strip_suffix(b"~b") {
        Some(tape) => is_tape(tape),
        None => is_tape(text),
    }
}

// Whether this is the number of a disk call.
fn is_call(text: &[u8]) -> bool
    ensures { result ≡ is_call text.now }
{
    match read_number(text) {
        Some(number) => number >= 1,
        None => false,
    }
}

// Whether this is a number of 8 bits.
fn is_octet(text: &[u8]) -> bool
    ensures { result ≡ is_octet text.now }
{
    match read_number(text) {
        Some(number) => number <= 255,
        None => false,
    }
}

// The first octet that is no hexadecimal digit, or the end if the last pair lacks a digit or there is no pair.
fn digits_misfit(text: &[u8]) -> Option<usize>
    ensures place { result ≡ digits_misfit text.now }
    ensures within { IfSome result (λ place. place ≤ length text.now) }
{
    match no_digit(text) {
        Some(place) => Some(place),
        None => odd_end(text),
    }
}

// The first octet that is no hexadecimal digit.
fn no_digit(text: &[u8]) -> Option<usize>
    ensures place { result ≡ no_digit text.now }
    ensures within { IfSome result (λ place. place < length text.now) }
{
    text.iter().position(|octet| !octet.is_ascii_hexdigit())
}

// The end of digits if the last pair lacks one, or if there is no pair.
fn odd_end(text: &[u8]) -> Option<usize>
    ensures place { result ≡ odd_end text.now }
    ensures within { IfSome result (λ place. place ≤ length text.now) }
{
    if text.is_empty() || text.len() % 2 == 1 {
        Some(text.len())
    } else {
        None
    }
}

// The first backslash that begins no escape, each escape before it taken as one.
fn bad_escape(text: &[u8]) -> Option<usize>
    ensures place { result ≡ bad_escape 0 text.now }
    ensures within { IfSome result (λ place. place ≤ length text.now) }
{
    let mut place = 0;
    let mut rest = text;
    while !rest.is_empty() {
        let Some(count) = first_count(rest) else {
            return Some(place);
        };
        place += count;
        rest = &rest[count..];
    }
    None
}

// How many octets the first one of a text is written with: two if it is an escape. `None` if a backslash begins none.
fn first_count(text: &[u8]) -> Option<usize>
    requires { 0 < length text.now }
    ensures count { result ≡ first_count text.now }
    ensures within { IfSome result (λ count. (0 < count) × (count ≤ length text.now)) }
{
    if text[0] != b'\\' {
        Some(1)
    } else if text.len() > 1 && is_escape(text[1]) {
        Some(2)
    } else {
        None
    }
}

// Whether a letter after a backslash stands for an octet.
fn is_escape(letter: u8) -> bool
    ensures { result ≡ is_escape letter }
{
    letter == b'n' || letter == b'r' || letter == b'0' || letter == b'\\'
}
