// What one line of a script says (docs/FORMATS.md).
ghost use Rattle.std.specs.Prelude.{IfOk, List, MatchOption, ℕ};
ghost use Rattle.drill_script.specs.Line.{GivesText, Says, SentenceView};
ghost use Rattle.drill_script.specs.Sentence.{sentence_view};
ghost use Rattle.drill_script.specs.declared.disk_name.DiskName.{DiskName};

use crate::action::octets_of;
use crate::disk_name::DiskName;
use crate::peer::read_peer;
use crate::step::read_step;
use crate::words::split_word;
use feed_conf::PeerConf;
use std::alloc::{AllocError, Global};
use world_core::Step;

/// What one line says.
#[derive(Drop)]
pub enum Sentence {
    /// Nothing: it is empty or a comment.
    Nothing,
    /// A peer is declared.
    Peer(PeerConf),
    /// The disk of this name holds these octets.
    Tape(DiskName, Vec<u8>),
    /// A step is taken.
    Step(Step),
}

/// Reads a line, without its LF and the CR before that; `None` if it says none of these.
///
/// # Errors
/// Memory was refused.
pub fn read_sentence(alloc: Global, line: &[u8]) -> Result<Option<Sentence>, AllocError>
    ensures { IfOk result (λ sentence. MatchOption sentence
        ((said : SentenceView) → Says line.now said → ⊥)
        (λ made. Says line.now (sentence_view made))) }
{
    if line.is_empty() || line.starts_with(b"#") {
        return Ok(Some(Sentence::Nothing));
    }
    if let Some(declaration) = line.strip_prefix(b"peer ") {
        return match read_peer(alloc, declaration)? {
            Some(conf) => Ok(Some(Sentence::Peer(conf))),
            None => Ok(None),
        };
    }
    if let Some(text) = line.strip_prefix(b"tape ") {
        return match read_tape(alloc, text)? {
            Some((name, octets)) => Ok(Some(Sentence::Tape(name, octets))),
            None => Ok(None),
        };
    }
    match read_step(alloc, line)? {
        Some(step) => Ok(Some(Sentence::Step(step))),
        None => Ok(None),
    }
}

// The disk that the text after `tape ` names, and the octets that it gives; `None` if the text has not this form.
fn read_tape(alloc: Global, text: &[u8]) -> Result<Option<(DiskName, Vec<u8>)>, AllocError>
    ensures { IfOk result (λ given. MatchOption given
        ((name : DiskName) (octets : List ℕ) → GivesText text.now name octets → ⊥)
        (λ parts. GivesText text.now parts.0 parts.1.items)) }
{
    let (word, digits) = split_word(text);
    let Some(digits) = digits else {
        return Ok(None);
    };
    let Some(name) = DiskName::read(alloc, word)? else {
        return Ok(None);
    };
    match octets_of(alloc, digits)? {
        Some(octets) => Ok(Some((name, octets))),
        None => Ok(None),
    }
}
