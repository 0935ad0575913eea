// How a note is spelled on a tape, and how it is read back.
ghost use Rattle.std.specs.Prelude.{◌≡◌, ◌≢◌, ◌↔◌, ◌<◌, ◌≤◌, ◌^◌, ◌++◌, List};
ghost use Rattle.std.specs.Prelude.{ℕ, IfNone, IfOk};
ghost use Rattle.std.specs.Prelude.{IfSome, IsTrue, OnOk, length};
ghost use Rattle.std.specs.Int.{to_be_bytes, w32, w64};
ghost use Rattle.ledger_core.specs.declared.note.Note.{Note};
ghost use Rattle.ledger_core.specs.declared.note.Cause.{Cause};
ghost use Rattle.ledger_core.specs.declared.note.FinalCode.{FinalCode};
ghost use Rattle.ledger_core.specs.Note.{IsNote, IsNumber};
ghost use Rattle.ledger_core.specs.Keys.{IsKey, key_of};
ghost use Rattle.ledger_core.specs.Spelling.{SpellsNoOther, SpellsNoOwe, SpellsNothing, SpellsOwe};
ghost use Rattle.ledger_core.specs.Spelling.{head, key_head, sized_text, spelling};

use crate::key::Key;
use crate::note::{Cause, FinalCode, Note};
use funnel::{Form, MsgId, MsgIdForm, Token, TokenForm};
use std::alloc::{AllocError, Global};

/// The one spelling of a note, in one allocation of its size.
///
/// # Errors
/// `NoMemory` if memory was refused.
pub fn encode(alloc: Global, note: &Note) -> Result<Vec<u8>, AllocError>
    ensures octets { IfOk result (λ v. v.items ≡ spelling note.now) }
    ensures note { OnOk result (IsNote note.now) }
{
    let mut octets = Vec::with_capacity(alloc, spelled_len(note))?;
    push_note(&mut octets, note)?;
    Ok(octets)
}

/// The note that these octets spell, all of them; `None` if they spell none.
///
/// # Errors
/// `NoMemory` if the octets spell an Owe and memory was refused.
pub fn decode(alloc: Global, octets: &[u8]) -> Result<Option<Note>, AllocError>
    ensures some { IfOk result
        (λ o. IfSome o (λ note. IsNote note × (octets.now ≡ spelling note))) }
    ensures none { IfOk result (λ o. IfNone o (SpellsNothing octets.now)) }
{
    match other_of(octets) {
        Some(note) => Ok(Some(note)),
        None => owe_of(alloc, octets),
    }
}

/// Whether these octets spell a note that owes a debt of this key, with texts of these lengths.
pub fn spells_owe(octets: &[u8], key: Key, token_len: u8, id_len: u8) -> bool
    ensures { IsTrue result ↔ SpellsOwe octets.now key token_len id_len }
{
    key.fits();
    let Some((source, number, rest)) = key_at(octets, 1, 6) else {
        return false;
    };
    if !is_key(key, source, number) {
        return false;
    }
    let Some((token, rest)) = sized_at(rest) else {
        return false;
    };
    if token.len() != usize::from(token_len) {
        return false;
    }
    let Some((id, rest)) = sized_at(rest) else {
        return false;
    };
    if id.len() != usize::from(id_len) {
        return false;
    }
    rest.is_empty()
}

/// A note has one spelling, which no other note has.
pub fn one_spelling()
    ensures { (one other : Note) → IsNote one → IsNote other → spelling one ≡ spelling other
        → one ≡ other }
{}

/// The spelling of the note that owes a debt, in one allocation of its size.
///
/// # Errors
/// `NoMemory` if memory was refused.
pub fn encode_owe(alloc: Global, key: Key, token: &Token, id: &MsgId) -> Result<Vec<u8>, AllocError>
    ensures octets { IfOk result (λ v. v.items ≡ spelling (Note.Owe key token.now id.now)) }
    ensures note { OnOk result (IsNote (Note.Owe key token.now id.now)) }
{
    let mut octets = Vec::with_capacity(alloc, owe_len(key, token, id))?;
    push_owe(&mut octets, key, token, id)?;
    Ok(octets)
}

fn owe_len(key: Key, token: &Token, id: &MsgId) -> usize
    ensures { result ≡ length (spelling (Note.Owe key token.now id.now)) }
{
    key_len(key) + 2 + token.bytes().len() + id.bytes().len()
}

pub(crate) fn key_len(key: Key) -> usize
    ensures len { (line imported : ℕ) → result ≡ length (key_head line imported key) }
    ensures short { result ≤ 13 }
{
    if key.source() == 0 { 9 } else { 13 }
}

pub(crate) fn spelled_len(note: &Note) -> usize
    ensures { result ≡ length (spelling note.now) }
{
    match note {
        Note::Owe { key, token, id } => owe_len(*key, token, id),
        Note::Final { key, .. } => key_len(*key) + 2,
        Note::Drop { key, .. } => key_len(*key) + 1,
        Note::Seen { .. } => 9,
        Note::Closed { .. } => 5,
    }
}

pub(crate) fn push_note(octets: &mut Vec<u8>, note: &Note) -> Result<(), AllocError>
    ensures octets { OnOk result (octets.new.items ≡ octets.old.items ++ spelling note.now) }
    ensures note { OnOk result (IsNote note.now) }
{
    match note {
        Note::Owe { key, token, id } => push_owe(octets, *key, token, id),
        Note::Final { key, code } => {
            push_key(octets, 2, 7, *key)?;
            octets.extend_from_slice(&code.number().to_be_bytes())
        }
        Note::Drop { key, cause } => {
            push_key(octets, 3, 8, *key)?;
            Ok(octets.push(cause.number())?)
        }
        Note::Seen { number } => push_head(octets, 5, *number),
        Note::Closed { source } => {
            octets.push(9)?;
            octets.extend_from_slice(&source.to_be_bytes())
        }
    }
}

fn push_owe(octets: &mut Vec<u8>, key: Key, token: &Token, id: &MsgId) -> Result<(), AllocError>
    ensures octets { OnOk result
        (octets.new.items ≡ octets.old.items ++ spelling (Note.Owe key token.now id.now)) }
    ensures note { OnOk result (IsNote (Note.Owe key token.now id.now)) }
{
    push_key(octets, 1, 6, key)?;
    push_sized(octets, token.bytes())?;
    push_sized(octets, id.bytes())
}

// Appends a key: after the first tag if it is a funnel line's, else after the second.
fn push_key(octets: &mut Vec<u8>, line: u8, imported: u8, key: Key) -> Result<(), AllocError>
    ensures octets { OnOk result
        (octets.new.items ≡ octets.old.items ++ key_head line imported key) }
    ensures is_key { IsKey key }
{
    if key.source() == 0 {
        push_head(octets, line, key.number())
    } else {
        octets.push(imported)?;
        octets.extend_from_slice(&key.source().to_be_bytes())?;
        push_number(octets, key.number())
    }
}

pub(crate) fn push_head(octets: &mut Vec<u8>, tag: u8, number: u64) -> Result<(), AllocError>
    ensures { OnOk result (octets.new.items ≡ octets.old.items ++ head tag number) }
{
    octets.push(tag)?;
    push_number(octets, number)
}

pub(crate) fn push_number(octets: &mut Vec<u8>, number: u64) -> Result<(), AllocError>
    ensures { OnOk result (octets.new.items ≡ octets.old.items ++ to_be_bytes w64 number) }
{
    octets.extend_from_slice(&number.to_be_bytes())
}

// Appends a text, after its length.
fn push_sized(octets: &mut Vec<u8>, text: &[u8]) -> Result<(), AllocError>
    requires { length text.now ≤ 255 }
    ensures { OnOk result (octets.new.items ≡ octets.old.items ++ sized_text text.now) }
{
    octets.push(text.len() as u8)?;
    octets.extend_from_slice(text)
}

// The tag and the number at the beginning, and what follows them.
pub(crate) fn head_at(octets: &[u8]) -> Option<(u8, u64, &[u8])>
    ensures some { IfSome result (λ found. octets.now ≡ head found.0 found.1 ++ found.2.now) }
    ensures none { IfNone result (length octets.now < 9) }
{
    let (tag, rest) = octets.split_first()?;
    let (number, rest) = number_at(rest)?;
    Some((*tag, number, rest))
}

// The source and the number of the key at the beginning, after the first of these tags or the second, and what follows
// it.
fn key_at(octets: &[u8], line: u8, imported: u8) -> Option<(u32, u64, &[u8])>
    requires { line ≢ imported }
    ensures some { IfSome result
        (λ found. (octets.now ≡ key_head line imported (key_of found.0 found.1) ++ found.2.now)
        × IsKey (key_of found.0 found.1)) }
    ensures none { IfNone result ((key : ℕ) (rest : List ℕ) → IsKey key
        → octets.now ≡ key_head line imported key ++ rest → ⊥) }
{
    let (tag, rest) = octets.split_first()?;
    if *tag == line {
        let (number, rest) = number_at(rest)?;
        return Some((0, number, rest));
    }
    if *tag != imported {
        return None;
    }
    let (source, rest) = source_at(rest)?;
    let (number, rest) = number_at(rest)?;
    if source == 0 {
        return None;
    }
    Key::new(source, number).fits();
    Some((source, number, rest))
}

fn is_key(key: Key, source: u32, number: u64) -> bool
    ensures { IsTrue result ↔ key ≡ key_of source number }
{
    key == Key::new(source, number)
}

pub(crate) fn source_at(octets: &[u8]) -> Option<(u32, &[u8])>
    ensures some { IfSome result
        (λ found. octets.now ≡ to_be_bytes w32 found.0 ++ found.1.now) }
    ensures none { IfNone result (length octets.now < 4) }
{
    let (source, rest) = octets.split_first_chunk::<4>()?;
    Some((u32::from_be_bytes(*source), rest))
}

pub(crate) fn number_at(octets: &[u8]) -> Option<(u64, &[u8])>
    ensures some { IfSome result
        (λ found. octets.now ≡ to_be_bytes w64 found.0 ++ found.1.now) }
    ensures none { IfNone result (length octets.now < 8) }
{
    let (number, rest) = octets.split_first_chunk::<8>()?;
    Some((u64::from_be_bytes(*number), rest))
}

// The text at the beginning, after its length, and what follows it.
fn sized_at(octets: &[u8]) -> Option<(&[u8], &[u8])>
    ensures some { IfSome result (λ found. octets.now ≡ sized_text found.0.now ++ found.1.now) }
    ensures none { IfNone result ((text rest : List ℕ) → octets.now ≡ sized_text text ++ rest → ⊥) }
{
    let (len, rest) = octets.split_first()?;
    rest.split_at_checked(usize::from(*len))
}

// The source and the number of the debt's key, and its texts, if these octets spell an Owe. Takes no memory.
pub(crate) fn owed_of(octets: &[u8]) -> Option<(u32, u64, &[u8], &[u8])>
    ensures some { IfSome result
        (λ owed. IsNote (Note.Owe (key_of owed.0 owed.1) owed.2.now owed.3.now)
        × (octets.now ≡ spelling (Note.Owe (key_of owed.0 owed.1) owed.2.now owed.3.now))) }
    ensures none { IfNone result (SpellsNoOwe octets.now) }
{
    let (source, number, token, id) = owe_parts(octets)?;
    if !TokenForm::holds(token) {
        return None;
    }
    if !MsgIdForm::holds(id) {
        return None;
    }
    Some((source, number, token, id))
}

// The note that these octets spell, unless it is an Owe. Takes no memory.
pub(crate) fn other_of(octets: &[u8]) -> Option<Note>
    ensures some { IfSome result (λ note. IsNote note × (octets.now ≡ spelling note)) }
    ensures none { IfNone result (SpellsNoOther octets.now) }
{
    let (tag, _) = octets.split_first()?;
    match *tag {
        2 | 7 => final_of(octets),
        3 | 8 => drop_of(octets),
        5 => seen_of(octets),
        9 => closed_of(octets),
        _ => None,
    }
}

fn owe_of(alloc: Global, octets: &[u8]) -> Result<Option<Note>, AllocError>
    ensures some { IfOk result
        (λ o. IfSome o (λ note. IsNote note × (octets.now ≡ spelling note))) }
    ensures none { IfOk result (λ o. IfNone o (SpellsNoOwe octets.now)) }
{
    let Some((source, number, token, id)) = owe_parts(octets) else {
        return Ok(None);
    };
    let key = Key::new(source, number);
    let Some(token) = Token::read(alloc, token)? else {
        return Ok(None);
    };
    let Some(id) = MsgId::read(alloc, id)? else {
        return Ok(None);
    };
    Ok(Some(Note::Owe { key, token, id }))
}

// The source and the number of the key of an Owe, and its two texts, whatever octets these are.
fn owe_parts(octets: &[u8]) -> Option<(u32, u64, &[u8], &[u8])>
    ensures some { IfSome result (λ parts. IsKey (key_of parts.0 parts.1)
        × (octets.now ≡ spelling (Note.Owe (key_of parts.0 parts.1) parts.2.now parts.3.now))) }
    ensures none { IfNone result ((key : ℕ) (token id : List ℕ) → IsKey key
        → spelling (Note.Owe key token id) ≡ octets.now → ⊥) }
{
    let (source, number, rest) = key_at(octets, 1, 6)?;
    let (token, rest) = sized_at(rest)?;
    let (id, rest) = sized_at(rest)?;
    if !rest.is_empty() {
        return None;
    }
    Some((source, number, token, id))
}

fn final_of(octets: &[u8]) -> Option<Note>
    ensures some { IfSome result (λ note. IsNote note × (octets.now ≡ spelling note)) }
    ensures none { IfNone result ((key : ℕ) (code : FinalCode) → IsKey key
        → spelling (Note.Final key code) ≡ octets.now → ⊥) }
{
    let Some((source, number, rest)) = key_at(octets, 2, 7) else {
        return None;
    };
    let key = Key::new(source, number);
    let [high, low] = rest else {
        return None;
    };
    let code = FinalCode::from_number(u16::from_be_bytes([*high, *low]))?;
    Some(Note::Final { key, code })
}

fn drop_of(octets: &[u8]) -> Option<Note>
    ensures some { IfSome result (λ note. IsNote note × (octets.now ≡ spelling note)) }
    ensures none { IfNone result ((key : ℕ) (cause : Cause) → IsKey key
        → spelling (Note.Drop key cause) ≡ octets.now → ⊥) }
{
    let Some((source, number, rest)) = key_at(octets, 3, 8) else {
        return None;
    };
    let key = Key::new(source, number);
    let [cause] = rest else {
        return None;
    };
    let cause = Cause::from_number(*cause)?;
    Some(Note::Drop { key, cause })
}

fn seen_of(octets: &[u8]) -> Option<Note>
    ensures some { IfSome result (λ note. IsNote note × (octets.now ≡ spelling note)) }
    ensures none { IfNone result ((number : ℕ) → IsNumber number
        → spelling (Note.Seen number) ≡ octets.now → ⊥) }
{
    let (tag, number, rest) = head_at(octets)?;
    if tag != 5 {
        return None;
    }
    if !rest.is_empty() {
        return None;
    }
    Some(Note::Seen { number })
}

fn closed_of(octets: &[u8]) -> Option<Note>
    ensures some { IfSome result (λ note. IsNote note × (octets.now ≡ spelling note)) }
    ensures none { IfNone result ((source : ℕ) → source < 2 ^ 32
        → spelling (Note.Closed source) ≡ octets.now → ⊥) }
{
    let (tag, rest) = octets.split_first()?;
    if *tag != 9 {
        return None;
    }
    let (source, rest) = source_at(rest)?;
    if !rest.is_empty() {
        return None;
    }
    Some(Note::Closed { source })
}
