// What an article's octets, as they lie in a file or in a buffer, are for the message-id that is asked for.
ghost use Rattle.std.specs.Prelude.{◌≡◌, ◌==◌, ◌<◌, ◌≤◌, IfOk, IfSome, length, option_map};
ghost use Rattle.std.specs.List.{position};
ghost use Rattle.dot_codec.specs.Lines.{longest_text};
ghost use Rattle.article_store.specs.Finds.{IsFound};
ghost use Rattle.innd_spool.specs.Texts.{IsCutFor, IsFor, IsNamed, IsSentIfSendable, IsTextFor, begins_with_crlf_line};
ghost use Rattle.innd_spool.specs.Texts.{is_in_wire_format, text_in, IsUnnamedFor};

use article_store::{Found, Unsendable, unsendable_cause};
use bytes::Bytes;
use dot_codec::stored_text;
use funnel::MsgId;
use header_fields::message_id;
use std::alloc::{AllocError, Global};

/// The most octets that an article may have that is sent.
pub(crate) const TEXT_MAX_OCTETS: usize = 16_777_216;

/// How the text of an article lies in a file or a buffer.
#[derive(Clone, Copy)]
pub(crate) enum Form {
    /// As it is.
    Plain,
    /// In wire format: a block with a dot alone at its end (RFC 3977, section 3.1.1).
    Wire,
    /// In wire format if its first line ends with CR and LF; else as it is.
    ByFirstLine,
}

/// What these octets are for this message-id: the article itself; `Gone` if they are an article with another id, or
/// with none; `Unsendable` if there are more than 16,777,216, or if they are no text that can be sent.
///
/// # Errors
/// `AllocError` if memory was refused.
pub(crate) fn judge(
    alloc: Global,
    octets: &[u8],
    form: Form,
    id: &MsgId,
    cause: &mut Option<Unsendable>,
) -> Result<Found, AllocError>
    ensures sendable { IfOk result IsFound }
    ensures named { IfOk result (IsNamed id.now) }
    ensures long { longest_text < length octets.now
        → IfOk result (λ found. found ≡ Found.Unsendable) }
    ensures told { length octets.now ≤ longest_text
        → IfOk result (IsFor id.now octets.now (text_in form octets.now)) }
{
    if octets.len() > TEXT_MAX_OCTETS {
        return Ok(too_long(cause));
    }
    match text_in(alloc, octets, form)? {
        Some(text) => judge_text(alloc, text, id, cause),
        None => judge_cut(alloc, octets, id, cause),
    }
}

/// These octets as an article, whatever message-id it has; `Unsendable` as [`judge`] says.
///
/// # Errors
/// `AllocError` if memory was refused.
pub(crate) fn as_article(
    alloc: Global,
    octets: &[u8],
    form: Form,
    cause: &mut Option<Unsendable>,
) -> Result<Found, AllocError>
    ensures { IfOk result IsFound }
{
    if octets.len() > TEXT_MAX_OCTETS {
        return Ok(too_long(cause));
    }
    match text_in(alloc, octets, form)? {
        Some(text) => hand_out(text, cause),
        None => {
            *cause = unsendable_cause(octets);
            Ok(Found::Unsendable)
        }
    }
}

/// What an article is that has more than 16,777,216 octets.
pub(crate) fn too_long(cause: &mut Option<Unsendable>) -> Found
    ensures { result ≡ Found.Unsendable }
{
    *cause = Some(Unsendable::TooLong);
    Found::Unsendable
}

// The text that lies there in this form; `None` if octets in wire format are not one whole block.
fn text_in(alloc: Global, octets: &[u8], form: Form) -> Result<Option<Vec<u8>>, AllocError>
    ensures { IfOk result
        (λ text. option_map (λ t. t.items) text ≡ text_in form octets.now) }
{
    if is_in_wire_format(octets, form) {
        stored_text(alloc, octets)
    } else {
        Ok(Some(Vec::from_slice(alloc, octets)?))
    }
}

/// Whether octets that lie in this form are in wire format.
pub(crate) fn is_in_wire_format(octets: &[u8], form: Form) -> bool
    ensures { result ≡ is_in_wire_format form octets.now }
{
    match form {
        Form::Plain => false,
        Form::Wire => true,
        Form::ByFirstLine => begins_with_crlf_line(octets),
    }
}

// Whether a CR is directly before the first LF.
fn begins_with_crlf_line(octets: &[u8]) -> bool
    ensures { result ≡ begins_with_crlf_line octets.now }
{
    match first_lf(octets) {
        Some(end) => octets[..end].ends_with(b"\r"),
        None => false,
    }
}

fn first_lf(octets: &[u8]) -> Option<usize>
    ensures place { result ≡ position (λ octet. octet == 10) octets.now }
    ensures within { IfSome result (λ end. end < length octets.now) }
{
    octets.iter().position(|octet| *octet == b'\n')
}

// What this text is for the message-id.
fn judge_text(
    alloc: Global,
    text: Vec<u8>,
    id: &MsgId,
    cause: &mut Option<Unsendable>,
) -> Result<Found, AllocError>
    ensures { IfOk result (IsTextFor id.now text.items) }
{
    match message_id(alloc, text.as_slice())? {
        Some(named) if named.bytes() == id.bytes() => hand_out(text, cause),
        Some(_) => Ok(Found::Gone),
        None => Ok(without_id(text.as_slice(), cause)),
    }
}

// The text as an article, if it can be sent.
fn hand_out(text: Vec<u8>, cause: &mut Option<Unsendable>) -> Result<Found, AllocError>
    ensures { IfOk result (IsSentIfSendable text.items) }
{
    *cause = unsendable_cause(text.as_slice());
    if cause.is_some() {
        return Ok(Found::Unsendable);
    }
    Ok(Found::Article(Bytes::from_vec(text)?))
}

// What a text without a message-id is: one that can be sent is some other article.
fn without_id(text: &[u8], cause: &mut Option<Unsendable>) -> Found
    ensures { IsUnnamedFor text.now result }
{
    *cause = unsendable_cause(text);
    if cause.is_some() {
        Found::Unsendable
    } else {
        Found::Gone
    }
}

// What octets in wire format are that are not a whole block. No cause says that, so there is one only if they have
// another fault.
fn judge_cut(
    alloc: Global,
    octets: &[u8],
    id: &MsgId,
    cause: &mut Option<Unsendable>,
) -> Result<Found, AllocError>
    ensures { IfOk result (IsCutFor id.now octets.now) }
{
    *cause = unsendable_cause(octets);
    match message_id(alloc, octets)? {
        Some(named) if named.bytes() == id.bytes() => Ok(Found::Unsendable),
        Some(_) => Ok(Found::Gone),
        None => Ok(Found::Unsendable),
    }
}
