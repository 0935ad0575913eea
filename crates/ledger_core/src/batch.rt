// Notes that are written together: several in one payload, under one gate.
ghost use Rattle.std.specs.Prelude.{[], ◌∷◌, ◌≡◌, ◌+◌, ◌^◌, ◌<◌, ◌≤◌, ◌++◌, ℕ};
ghost use Rattle.std.specs.Prelude.{List, IfNone, IfOk, IfSome, IsSome, OnOk, length};
ghost use Rattle.std.specs.Int.{to_be_bytes, w32};
ghost use Rattle.ledger_core.specs.declared.note.Note.{Note};
ghost use Rattle.ledger_core.specs.Base.{owe};
ghost use Rattle.ledger_core.specs.Batch.{AreSeveral, IsBatch, SpellsNoBatch, StandsIn, batch_spelling};
ghost use Rattle.ledger_core.specs.Batch.{body_of, prefix_length, longest_batch, payload_of, text_end, together};
ghost use Rattle.ledger_core.specs.Note.{AreNotes, IsNote};
ghost use Rattle.ledger_core.specs.Spelling.{spelling};
ghost use Rattle.ledger_core.specs.State.{Owing};

use crate::codec::{decode, key_len, push_note};
use crate::key::Key;
use crate::note::Note;
use std::alloc::{AllocError, Global};

/// The length of the longest payload of several notes, in octets.
pub const BATCH_MAX_OCTETS: usize = 65536;

// The first octet of a payload of several notes.
const BATCH: u8 = 11;

// The length of its tag and its count, in octets.
const HEAD_OCTETS: usize = 5;

/// The one payload of several notes.
///
/// # Errors
/// `NoMemory` if memory was refused.
pub fn encode_batch(alloc: Global, notes: &[Note]) -> Result<Vec<u8>, AllocError>
    requires several { 2 ≤ length notes.now }
    requires fits { length (batch_spelling notes.now) ≤ longest_batch }
    ensures octets { IfOk result (λ v. v.items ≡ batch_spelling notes.now) }
    ensures several { OnOk result (AreSeveral notes.now) }
{
    let mut octets = Vec::with_capacity(alloc, BATCH_MAX_OCTETS)?;
    let count = notes.len() as u32;
    octets.push(BATCH)?;
    octets.extend_from_slice(&count.to_be_bytes())?;
    push_notes(&mut octets, notes)?;
    Ok(octets)
}

/// The notes whose payload these octets are, all of them; `None` if they are no payload of several notes.
///
/// # Errors
/// `NoMemory` if memory was refused.
pub fn decode_batch(alloc: Global, octets: &[u8]) -> Result<Option<Vec<Note>>, AllocError>
    ensures some { IfOk result
        (λ o. IfSome o (λ v. AreSeveral v.items × (octets.now ≡ batch_spelling v.items))) }
    ensures none { IfOk result (λ o. IfNone o (SpellsNoBatch octets.now)) }
{
    match several_in(octets) {
        Some((count, body)) => notes_in(alloc, count, body),
        None => Ok(None),
    }
}

/// Several notes have one payload, and no other list of notes has it.
pub fn one_batch_spelling()
    ensures { (one other : List Note) → AreSeveral one → AreSeveral other
        → batch_spelling one ≡ batch_spelling other → one ≡ other }
{}

/// The octets of a note of this length in its payload, after `within` octets of other notes; `None` if the payload ends
/// sooner. A note that is alone in its payload comes after none.
pub fn note_in(payload: &[u8], within: u16, len: usize) -> Option<&[u8]>
    ensures note { (octets : List ℕ) → StandsIn payload.now within octets → length octets ≡ len
        → IsSome result × IfSome result (λ found. found.now ≡ octets) }
    ensures len { IfSome result (λ found. length found.now ≡ len) }
{
    let (_, behind) = body_of(payload).split_at_checked(usize::from(within))?;
    let (note, _) = behind.split_at_checked(len)?;
    Some(note)
}

/// The length, in octets, of the note that owes the debt of this key with texts of these lengths.
pub fn owed_len(key: Key, token_len: u8, id_len: u8) -> usize
    ensures len { (debt : Owing) → debt.0 ≡ key → length debt.1.0 ≡ token_len
        → length debt.1.1 ≡ id_len → result ≡ length (spelling (owe debt)) }
    ensures short { result ≤ 525 }
{
    key_len(key) + 2 + usize::from(token_len) + usize::from(id_len)
}

/// The length, in octets, of a payload once a note of this length has joined it.
pub fn joined_len(payload: &[u8], len: usize) -> usize
    requires { len ≤ 1024 }
    ensures joined { (batch : List Note) (note : Note) → IsBatch batch
        → payload.now ≡ payload_of batch → len ≡ length (spelling note)
        → result ≡ length (batch_spelling (batch ++ note ∷ [])) }
    ensures len { result ≡ 5 + length (body_of payload.now) + len }
{
    HEAD_OCTETS + body_of(payload).len() + len
}

/// Adds a note to the end of a payload, in place: a note that was alone in it is moved after the tag and the count. The
/// payload has room for it, so no memory is taken.
pub fn join(payload: &mut Vec<u8>, note: &[u8])
    requires room { length payload.old.items + 5 + length note.now ≤ payload.old.cap }
    ensures joined { (batch : List Note) (last : Note) → IsBatch batch
        → payload.old.items ≡ payload_of batch → note.now ≡ spelling last
        → length (batch_spelling (batch ++ last ∷ [])) ≤ longest_batch
        → payload.new.items ≡ payload_of (batch ++ last ∷ []) }
    ensures len { length payload.new.items
        ≤ 5 + length (body_of payload.old.items) + length note.now }
{
    make_several(payload);
    raise_count(payload);
    let _ = payload.extend_from_slice(note);
}

// Puts the tag and the count before a note that is alone in its payload.
fn make_several(payload: &mut Vec<u8>)
    requires room { length payload.old.items + 5 ≤ payload.old.cap }
    ensures octets { (batch : List Note) → IsBatch batch → payload.old.items ≡ payload_of batch
        → payload.new.items ≡ batch_spelling batch }
    ensures len { length payload.new.items ≤ length payload.old.items + 5 }
    ensures body { length payload.new.items ≤ 5 + length (body_of payload.old.items) }
    ensures cap { payload.old.cap ≤ payload.new.cap }
{
    if payload.first() == Some(&BATCH) {
        return;
    }
    let _ = payload.extend_from_slice(&[BATCH, 0, 0, 0, 1]);
    payload.rotate_right(HEAD_OCTETS);
}

fn raise_count(payload: &mut Vec<u8>)
    ensures octets { (count : ℕ) (body : List ℕ)
        → payload.old.items ≡ 11 ∷ (to_be_bytes w32 count ++ body) → count + 1 < 2 ^ 32
        → payload.new.items ≡ 11 ∷ (to_be_bytes w32 (count + 1) ++ body) }
    ensures len { length payload.new.items ≡ length payload.old.items }
    ensures cap { payload.new.cap ≡ payload.old.cap }
{
    if payload.len() < HEAD_OCTETS {
        return;
    }
    let count = u32::from_be_bytes([payload[1], payload[2], payload[3], payload[4]]);
    let [first, second, third, fourth] = count.wrapping_add(1).to_be_bytes();
    payload[1] = first;
    payload[2] = second;
    payload[3] = third;
    payload[4] = fourth;
}

// The octets of a payload that are notes.
fn body_of(payload: &[u8]) -> &[u8]
    ensures { result.now ≡ body_of payload.now }
{
    let Some((tag, rest)) = payload.split_first() else {
        return payload;
    };
    if *tag != BATCH {
        return payload;
    }
    match rest.split_at_checked(4) {
        Some((_, body)) => body,
        None => &[],
    }
}

fn push_notes(octets: &mut Vec<u8>, notes: &[Note]) -> Result<(), AllocError>
    ensures octets { OnOk result (octets.new.items ≡ octets.old.items ++ together notes.now) }
    ensures notes { OnOk result (AreNotes notes.now) }
{
    for note in notes {
        push_note(octets, note)?;
    }
    Ok(())
}

// The count that stands first, and what follows it.
fn count_at(octets: &[u8]) -> Option<(u32, &[u8])>
    ensures some { IfSome result
        (λ found. octets.now ≡ to_be_bytes w32 found.0 ++ found.1.now) }
    ensures fits { IfSome result (λ found. found.0 < 2 ^ 32) }
    ensures none { IfNone result (length octets.now < 4) }
{
    let (count, rest) = octets.split_first_chunk::<4>()?;
    Some((u32::from_be_bytes(*count), rest))
}

// How many notes a payload says that it has, if that is several, and the octets of these.
pub(crate) fn several_in(payload: &[u8]) -> Option<(u32, &[u8])>
    ensures some { IfSome result
        (λ found. payload.now ≡ 11 ∷ (to_be_bytes w32 found.0 ++ found.1.now)) }
    ensures several { IfSome result (λ found. (2 ≤ found.0) × (found.0 < 2 ^ 32)) }
    ensures fits { IfSome result (λ found. length found.1.now + 5 ≤ longest_batch) }
    ensures none { IfNone result (SpellsNoBatch payload.now) }
{
    if payload.len() > BATCH_MAX_OCTETS {
        return None;
    }
    let (tag, rest) = payload.split_first()?;
    if *tag != BATCH {
        return None;
    }
    let (count, body) = count_at(rest)?;
    if count < 2 {
        return None;
    }
    Some((count, body))
}

// The notes that these octets are: `count` of them, one after another.
fn notes_in(alloc: Global, count: u32, octets: &[u8]) -> Result<Option<Vec<Note>>, AllocError>
    ensures some { IfOk result (λ o. IfSome o (λ v. AreNotes v.items × (length v.items ≡ count)
        × (octets.now ≡ together v.items))) }
    ensures none { IfOk result (λ o. IfNone o ((notes : List Note) → AreNotes notes
        → length notes ≡ count → together notes ≡ octets.now → ⊥)) }
{
    let mut notes = Vec::new(alloc);
    let mut rest = octets;
    for _ in 0..count {
        let Some((note, behind)) = first_note(alloc, rest)? else {
            return Ok(None);
        };
        notes.push(note)?;
        rest = behind;
    }
    if rest.is_empty() {
        Ok(Some(notes))
    } else {
        Ok(None)
    }
}

// The first note, and what follows it.
fn first_note(alloc: Global, octets: &[u8]) -> Result<Option<(Note, &[u8])>, AllocError>
    ensures some { IfOk result (λ o. IfSome o
        (λ found. IsNote found.0 × (octets.now ≡ spelling found.0 ++ found.1.now))) }
    ensures none { IfOk result (λ o. IfNone o ((note : Note) (behind : List ℕ) → IsNote note
        → octets.now ≡ spelling note ++ behind → ⊥)) }
{
    let Some((prefix, behind)) = first_in(octets) else {
        return Ok(None);
    };
    match decode(alloc, prefix)? {
        Some(note) => Ok(Some((note, behind))),
        None => Ok(None),
    }
}

// The octets of the first note, if one stands first, and what follows them.
pub(crate) fn first_in(octets: &[u8]) -> Option<(&[u8], &[u8])>
    ensures parts { IfSome result (λ found. octets.now ≡ found.0.now ++ found.1.now) }
    ensures first { (note : Note) (behind : List ℕ) → octets.now ≡ spelling note ++ behind
        → IsSome result × IfSome result (λ found. found.0.now ≡ spelling note) }
{
    octets.split_at_checked(prefix_len(octets))
}

// How long the first note is, by its tag and the lengths of its texts; 0 if none stands first.
fn prefix_len(octets: &[u8]) -> usize
    ensures { result ≡ prefix_length octets.now }
{
    match octets {
        [1, ..] => text_end(octets, text_end(octets, 9)),
        [6, ..] => text_end(octets, text_end(octets, 13)),
        [2, ..] => 11,
        [7, ..] => 15,
        [3, ..] => 10,
        [8, ..] => 14,
        [5, ..] => 9,
        [9, ..] => 5,
        _ => 0,
    }
}

// Where the text ends whose length is here.
fn text_end(octets: &[u8], at: usize) -> usize
    requires { at ≤ 1024 }
    ensures ends { result ≡ text_end octets.now at }
    ensures near { result ≤ at + 256 }
{
    match octets.get(at) {
        Some(len) => at + 1 + usize::from(*len),
        None => at + 1,
    }
}
