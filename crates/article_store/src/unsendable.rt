// Why a text can't be sent.
ghost use Rattle.std.specs.Prelude.{◌≡◌, ◌↔◌, IfSome, IsNone, drop, not};
ghost use Rattle.dot_codec.specs.Lines.{IsSendable};
ghost use Rattle.dot_codec.specs.Scan.{begins_with_crlf};
ghost use Rattle.article_store.specs.Causes.{bad_place, begins_with_nul, cause_of};

use dot_codec::is_sendable;
use memchr::memchr2_iter;

/// Why a text has no written form, so that it can't be sent (RFC 3977, section 3.1.1; the length is the profile's).
#[derive(Clone, Copy, Debug, PartialEq, Eq)]
pub enum Unsendable {
    /// It has no octet.
    Empty,
    /// It has a NUL.
    Nul,
    /// It has a CR that is not directly before an LF.
    BareCr,
    /// It has more than 16,777,216 octets.
    TooLong,
}

/// Why a text can't be sent: the first cause in reading order, and its length only if there is no other. `None` if it
/// can be sent.
pub fn unsendable_cause(text: &[u8]) -> Option<Unsendable>
    ensures none { IsNone result ↔ IsSendable text.now }
    ensures some { IfSome result (λ cause. cause ≡ cause_of text.now) }
{
    if is_sendable(text) {
        return None;
    }
    Some(cause_of(text))
}

// Why a text that can't be sent can't.
fn cause_of(text: &[u8]) -> Unsendable
    ensures { result ≡ cause_of text.now }
{
    if text.is_empty() {
        return Unsendable::Empty;
    }
    match bad_place(text) {
        Some(at) if is_nul_at(text, at) => Unsendable::Nul,
        Some(_) => Unsendable::BareCr,
        None => Unsendable::TooLong,
    }
}

// The place of the first NUL, or CR that is not directly before an LF.
fn bad_place(text: &[u8]) -> Option<usize>
    ensures { result ≡ bad_place text.now }
{
    memchr2_iter(b'\0', b'\r', text).find(|at| is_bad_at(text, *at))
}

fn is_nul_at(text: &[u8], at: usize) -> bool
    ensures { result ≡ begins_with_nul (drop at text.now) }
{
    matches!(text.get(at..), Some([b'\0', ..]))
}

// Whether what is at this place is no CR directly before an LF.
fn is_bad_at(text: &[u8], at: usize) -> bool
    ensures { result ≡ not (begins_with_crlf (drop at text.now)) }
{
    !matches!(text.get(at..), Some([b'\r', b'\n', ..]))
}
