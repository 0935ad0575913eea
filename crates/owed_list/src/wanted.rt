// Whose articles a list has, if it is restricted to names.
ghost use Rattle.std.specs.Prelude.{◌↔◌, IsTrue};
ghost use Rattle.owed_list.specs.Wanted.{BeginsWithOne, IsNamed, IsWanted, MayList};

use crate::lines::Owed;
use funnel::next_word;

/// Whether a list of these names has what waits for this one: if there are no names, it has all.
pub(crate) fn is_wanted(names: &[&str], name: &[u8]) -> bool
    ensures { IsTrue result ↔ IsWanted names.now name.now }
{
    names.is_empty() || is_among(names, name)
}

// Whether this is one of these names.
fn is_among(names: &[&str], name: &[u8]) -> bool
    ensures { IsTrue result ↔ IsNamed names.now name.now }
{
    names.iter().any(|one| one.as_bytes() == name)
}

/// Whether a list of these names may have this line of this file: if it is one of `~unknown`, it begins with one of
/// them.
pub(crate) fn may_list(names: &[&str], owed: Owed<'_>, line: &[u8]) -> bool
    ensures { IsTrue result ↔ MayList names.now owed.entry line.now }
{
    match owed {
        Owed::Kept(_) => true,
        Owed::Unknown => names.is_empty() || begins_with_one(names, line),
    }
}

// Whether the first word of this line is one of these names.
fn begins_with_one(names: &[&str], line: &[u8]) -> bool
    ensures { IsTrue result ↔ BeginsWithOne names.now line.now }
{
    match next_word(line) {
        Some((word, _)) => is_among(names, word),
        None => false,
    }
}
