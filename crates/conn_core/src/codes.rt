// Commands about an article, and what each code means as an answer.
ghost use Rattle.std.specs.Prelude.{◌≡◌, Some, option_to_list};
ghost use Rattle.conn_core.specs.Codes.{ends_all, is_welcome, meaning, stray};
ghost use Rattle.conn_core.specs.Checks.{counts};

use crate::reason::Reason;
use ledger_core::FinalCode;

// A command about an article (RFC 3977, section 6.3.2; RFC 4644, section 2).
#[derive(Clone, Copy, Debug, PartialEq, Eq)]
pub(crate) enum Verb {
    Check,
    Takethis,
    Ihave,
    // The block that follows an IHAVE answered with 335.
    Block,
}

/// What a code means as an answer to a command (RFC 3977, section 6.3.2; RFC 4644, section 2). No call returns it: it
/// is public for the laws on transcripts.
#[derive(Clone, Copy, Debug, PartialEq, Eq)]
pub enum Meaning {
    /// The article is wanted.
    Wanted,
    /// The block is to be sent.
    SendBlock,
    /// The article may be offered later.
    Later,
    /// The debt is answered for good.
    Final(FinalCode),
}

// The meaning of a code; `None` if it is no answer to this command (CHECK and TAKETHIS: RFC 4644, sections 2.4 and
// 2.5; IHAVE and its block: RFC 3977, section 6.3.2).
pub(crate) fn meaning_of(verb: Verb, code: u16) -> Option<Meaning>
    ensures value { result ≡ meaning verb code }
    ensures wants { result ≡ Some Meaning.Wanted → code ≡ 238 }
    ensures sends { result ≡ Some Meaning.SendBlock → (verb ≡ Verb.Ihave) × (code ≡ 335) }
{
    match verb {
        Verb::Check => match code {
            238 => Some(Meaning::Wanted),
            431 => Some(Meaning::Later),
            438 => Some(Meaning::Final(FinalCode::CheckNotWanted)),
            _ => None,
        },
        Verb::Takethis => match code {
            239 => Some(Meaning::Final(FinalCode::TakethisReceived)),
            439 => Some(Meaning::Final(FinalCode::TakethisRejected)),
            _ => None,
        },
        Verb::Ihave => match code {
            335 => Some(Meaning::SendBlock),
            435 => Some(Meaning::Final(FinalCode::IhaveNotWanted)),
            436 => Some(Meaning::Later),
            _ => None,
        },
        Verb::Block => match code {
            235 => Some(Meaning::Final(FinalCode::IhaveReceived)),
            437 => Some(Meaning::Final(FinalCode::IhaveRejected)),
            436 => Some(Meaning::Later),
            _ => None,
        },
    }
}

// Whether a greeting is good: 200 or 201 (RFC 3977, section 5.1).
pub(crate) fn is_welcome(code: u16) -> bool
    ensures { result ≡ is_welcome code }
{
    code == 200 || code == 201
}

// Whether the code ends the connection if it answers no command (RFC 3977, section 3.2.1).
pub(crate) fn ends_all(code: u16) -> bool
    ensures { result ≡ ends_all code }
{
    code == 400 || code == 480 || code == 502
}

pub(crate) fn stray(code: u16) -> Reason
    ensures { result ≡ stray code }
{
    if ends_all(code) {
        Reason::Ended(code)
    } else {
        Reason::Unmatched
    }
}

// Whether an answer of this code accepts the article; `None` if it does not count for the check switch
// (innfeed.conf(5)).
pub(crate) fn counted(code: u16) -> Option<bool>
    ensures { option_to_list result ≡ counts code }
{
    match code {
        239 => Some(true),
        438 | 439 => Some(false),
        _ => None,
    }
}
