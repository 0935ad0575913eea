// What is answered to a request.
ghost use Rattle.std.specs.Prelude.{◌≡◌, ◌++◌, IfNone, IfOk, IfSome, OnErr, OnOk};
ghost use Rattle.requests.specs.Answers.{IsNoAnswer, answer_text, status_text};

use std::alloc::{AllocError, Global};

/// What became of a request.
#[derive(Clone, Copy, Debug, PartialEq, Eq)]
pub enum AnswerStatus {
    /// It was done.
    Done,
    /// It was refused, and nothing was done.
    Refused,
    /// It was begun, and goes on.
    Begun,
}

/// An answer.
#[derive(Debug, Drop)]
pub struct Answer {
    pub status: AnswerStatus,
    /// What is told: any octets.
    pub text: Vec<u8>,
}

/// Reads an answer, which is all of these octets; `None` if they are none (docs/FORMATS.md).
///
/// # Errors
/// Memory was refused.
pub fn read_answer(alloc: Global, octets: &[u8]) -> Result<Option<Answer>, AllocError>
    ensures some { IfOk result (λ read.
        IfSome read (λ answer. octets.now ≡ answer_text answer.status answer.text.items)) }
    ensures none { IfOk result (λ read. IfNone read (IsNoAnswer octets.now)) }
{
    let Some((status, text)) = split(octets) else {
        return Ok(None);
    };
    let text = Vec::from_slice(alloc, text)?;
    Ok(Some(Answer { status, text }))
}

// The status, and the text after its line.
fn split(octets: &[u8]) -> Option<(AnswerStatus, &[u8])>
    ensures some { IfSome result (λ parts. octets.now ≡ answer_text parts.0 parts.1.now) }
    ensures none { IfNone result (IsNoAnswer octets.now) }
{
    if let Some(text) = octets.strip_prefix(b"done\n".as_slice()) {
        Some((AnswerStatus::Done, text))
    } else if let Some(text) = octets.strip_prefix(b"refused\n".as_slice()) {
        Some((AnswerStatus::Refused, text))
    } else if let Some(text) = octets.strip_prefix(b"begun\n".as_slice()) {
        Some((AnswerStatus::Begun, text))
    } else {
        None
    }
}

/// Writes an answer behind what is there (docs/FORMATS.md).
///
/// # Errors
/// Memory was refused: nothing is written.
pub fn write_answer(status: AnswerStatus, text: &[u8], out: &mut Vec<u8>) -> Result<(), AllocError>
    ensures ok { OnOk result (out.new.items ≡ out.old.items ++ answer_text status text.now) }
    ensures unchanged { OnErr result (out.new.items ≡ out.old.items) }
{
    let mut answer = Vec::from_slice(*out.allocator(), status_text(status))?;
    answer.push(b'\n')?;
    answer.extend_from_slice(text)?;
    out.extend_from_slice(&answer)
}

fn status_text(status: AnswerStatus) -> &'static [u8]
    ensures { result.now ≡ status_text status }
{
    match status {
        AnswerStatus::Done => b"done",
        AnswerStatus::Refused => b"refused",
        AnswerStatus::Begun => b"begun",
    }
}
