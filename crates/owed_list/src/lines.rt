// The lines of a list, and of what waits for strangers.
ghost use Rattle.std.specs.Prelude.{◌≡◌, ◌++◌, ◌↔◌, IfNone, IfOk, IfSome, IsTrue, OnOk, codes};
ghost use Rattle.ledger_core.specs.Keys.{key_text};
ghost use Rattle.funnel.specs.Line.{IsBacklogLine};
ghost use Rattle.owed_list.specs.Texts.{HasArticle, IsNoArticle, IsNoLine, IsNoUnknownLine, IsUnknownLine, place_of};
ghost use Rattle.owed_list.specs.Texts.{count_text, owed_text, waiting_text};

use funnel::{
    Form, LINE_MAX_OCTETS, LineFault, MsgId, PeerNameForm, Token, next_word, read_backlog_line,
};
use ledger_core::Key;
use std::alloc::{AllocError, Global};

/// A file of lines that are owed to peers, beside the tapes.
#[derive(Clone, Copy)]
pub(crate) enum Owed<'a> {
    /// `NAME~kept`, with the lines of the peer of this name: `TOKEN ID`.
    Kept(&'a [u8]),
    /// `~unknown`, with the lines of names that were no peers: `NAME TOKEN ID`.
    Unknown,
}

impl Owed<'_> {
    // How the list names this file, in place of a number.
    fn place(self) -> &'static [u8]
        ensures { result.now ≡ place_of self.entry }
    {
        match self {
            Owed::Kept(_) => b"~kept",
            Owed::Unknown => b"~unknown",
        }
    }
}

/// An article that waits in such a file.
#[derive(Drop)]
pub(crate) struct Article<'a> {
    /// The name of the peer for which it waits.
    pub name: &'a [u8],
    pub token: Token,
    pub id: MsgId,
}

/// The article of a line of this file; `None` if the line is malformed.
///
/// # Errors
/// Memory was refused.
pub(crate) fn article_of<'a>(
    alloc: Global,
    owed: Owed<'a>,
    line: &'a [u8],
) -> Result<Option<Article<'a>>, AllocError>
    ensures good { IfOk result (λ found. IfSome found (λ article.
        HasArticle owed.entry line.now article.name.now article.token article.id)) }
    ensures malformed { IfOk result (λ found. IfNone found (IsNoLine owed.entry line.now)) }
{
    match owed {
        Owed::Kept(name) => read_article(alloc, name, line),
        Owed::Unknown => read_unknown(alloc, line),
    }
}

// The article of a backlog file's line, which waits for the peer of this name.
fn read_article<'a>(
    alloc: Global,
    name: &'a [u8],
    line: &[u8],
) -> Result<Option<Article<'a>>, AllocError>
    ensures good { IfOk result (λ found. IfSome found (λ article.
        (article.name.now ≡ name.now) × IsBacklogLine line.now article.token article.id)) }
    ensures malformed { IfOk result (λ found. IfNone found (IsNoArticle line.now)) }
{
    match read_backlog_line(alloc, line) {
        Ok((token, id)) => Ok(Some(Article { name, token, id })),
        Err(LineFault::NoMemory) => Err(AllocError),
        Err(_) => Ok(None),
    }
}

// The article of a line of `~unknown`.
fn read_unknown<'a>(alloc: Global, line: &'a [u8]) -> Result<Option<Article<'a>>, AllocError>
    ensures good { IfOk result (λ found. IfSome found (λ article.
        IsUnknownLine line.now article.name.now article.token article.id)) }
    ensures malformed { IfOk result (λ found. IfNone found (IsNoUnknownLine line.now)) }
{
    if line.len() > LINE_MAX_OCTETS {
        return Ok(None);
    }
    let Some((name, rest)) = next_word(line) else {
        return Ok(None);
    };
    if !PeerNameForm::holds(name) {
        return Ok(None);
    }
    read_article(alloc, name, rest)
}

/// Adds the line of the list for an article of this file.
///
/// # Errors
/// Memory was refused.
pub(crate) fn add_article(
    out: &mut Vec<u8>,
    owed: Owed<'_>,
    article: &Article<'_>,
) -> Result<(), AllocError>
    ensures { OnOk result (out.new.items ≡ out.old.items
        ++ owed_text article.now.name.now (place_of owed.entry) article.now.token article.now.id) }
{
    let place = owed.place();
    add_owed(
        out,
        article.name,
        place,
        article.token.bytes(),
        article.id.bytes(),
    )
}

// Adds `NAME PLACE TOKEN ID` and an LF.
fn add_owed(
    out: &mut Vec<u8>,
    name: &[u8],
    place: &[u8],
    token: &[u8],
    id: &[u8],
) -> Result<(), AllocError>
    ensures { OnOk result (out.new.items
        ≡ out.old.items ++ owed_text name.now place.now token.now id.now) }
{
    add_word(out, name)?;
    add_word(out, place)?;
    add_word(out, token)?;
    out.extend_from_slice(id)?;
    out.push(b'\n')?;
    Ok(())
}

/// Adds a word and a space.
///
/// # Errors
/// Memory was refused.
pub(crate) fn add_word(out: &mut Vec<u8>, word: &[u8]) -> Result<(), AllocError>
    ensures { OnOk result (out.new.items ≡ out.old.items ++ (word.now ++ codes " ")) }
{
    out.extend_from_slice(word)?;
    out.push(b' ')?;
    Ok(())
}

/// Adds `NAME NUMBER TOKEN ID` and an LF, for a debt of the peer of this name.
///
/// # Errors
/// Memory was refused.
pub(crate) fn add_debt(
    out: &mut Vec<u8>,
    name: &[u8],
    key: Key,
    token: &[u8],
    id: &[u8],
) -> Result<(), AllocError>
    ensures { OnOk result (out.new.items
        ≡ out.old.items ++ owed_text name.now (key_text key) token.now id.now) }
{
    add_word(out, name)?;
    key.add_text(out)?;
    out.push(b' ')?;
    add_word(out, token)?;
    out.extend_from_slice(id)?;
    out.push(b'\n')?;
    Ok(())
}

/// `NAME~a: no such peer; N articles wait`, for the file of this ending.
///
/// # Errors
/// Memory was refused.
pub(crate) fn waiting_line(
    alloc: Global,
    name: &[u8],
    ending: &[u8],
    count: u64,
) -> Result<Vec<u8>, AllocError>
    ensures { IfOk result (λ text. text.items ≡ waiting_text name.now ending.now count) }
{
    let mut text = Vec::from_slice(alloc, name)?;
    text.extend_from_slice(ending)?;
    text.extend_from_slice(b": no such peer; ")?;
    add_count(&mut text, count)?;
    Ok(text)
}

// Adds `N articles wait`.
fn add_count(text: &mut Vec<u8>, count: u64) -> Result<(), AllocError>
    ensures { OnOk result (text.new.items ≡ text.old.items ++ count_text count) }
{
    if count == 1 {
        return text.extend_from_slice(b"1 article waits");
    }
    text.extend_from_slice(itoa::Buffer::new().format(count).as_bytes())?;
    text.extend_from_slice(b" articles wait")
}
