// Words and names before a space.
ghost use Rattle.std.specs.Prelude.{◌≡◌, ◌++◌, ◌∷◌, ℕ, List, option_map, IfOk, IsTrue, MatchOption};
ghost use Rattle.funnel.specs.Names.{is_peer_name};
ghost use Rattle.drill_script.specs.Words.{IsCut, IsSolid};

use funnel::PeerName;
use memchr::memchr;
use std::alloc::{AllocError, Global};

/// The text before the first space, and the text after it if there is a space.
pub fn split_word(text: &[u8]) -> (&[u8], Option<&[u8]>)
    ensures cut { IsCut text.now result.0.now (option_map (λ t. t.now) result.1) }
    ensures solid { IsSolid result.0.now }
{
    match memchr(b' ', text) {
        Some(space) => (&text[..space], Some(&text[space + 1..])),
        None => (text, None),
    }
}

/// The peer's name before the first space, and the text after it; `None` if there is no such name or no space.
///
/// # Errors
/// Memory was refused.
pub fn split_name(alloc: Global, text: &[u8]) -> Result<Option<(PeerName, &[u8])>, AllocError>
    ensures { IfOk result (λ split. MatchOption split
        ((name behind : List ℕ) → text.now ≡ name ++ 32 ∷ behind → IsTrue (is_peer_name name) → ⊥)
        (λ parts. (text.now ≡ parts.0 ++ 32 ∷ parts.1.now) × IsTrue (is_peer_name parts.0))) }
{
    let (name, behind) = split_word(text);
    let Some(behind) = behind else {
        return Ok(None);
    };
    match PeerName::read(alloc, name)? {
        Some(name) => Ok(Some((name, behind))),
        None => Ok(None),
    }
}
