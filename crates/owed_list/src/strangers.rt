// The names in the backlog directory that no peer of the settings has.
ghost use Rattle.std.specs.Prelude.{◌≡◌, ◌⊎◌, ◌↔◌, ℕ, List, IfOk, OnOk, Contains, map, option_map};
ghost use Rattle.std.specs.Vec.{vec_items};
ghost use Rattle.owed_list.specs.Names.{AreNames, IsOfOne, IsStranger, name_before, names_in, peer_of};

use feed_conf::PeerConf;
use funnel::{Form, PeerNameForm};
use std::alloc::{AllocError, Global};
use std::collections::BTreeSet;

/// How the name of the first file of a tape ends, after the peer's.
pub(crate) const FIRST_FILE: &str = "~a";

/// How the name of the second file of a tape ends.
pub(crate) const SECOND_FILE: &str = "~b";

/// How the name of the file ends that has the lines of a peer whose tape could not be opened.
pub(crate) const KEPT_FILE: &str = "~kept";

/// The peer whose articles wait in a file of this name; `None` if it is the name of no such file.
fn peer_of(file: &[u8]) -> Option<&[u8]>
    ensures { option_map (λ name. name.now) result ≡ peer_of file.now }
{
    match name_before(FIRST_FILE.as_bytes(), file) {
        Some(name) => Some(name),
        None => match name_before(SECOND_FILE.as_bytes(), file) {
            Some(name) => Some(name),
            None => name_before(KEPT_FILE.as_bytes(), file),
        },
    }
}

// The name of a peer that this file name has before this ending.
fn name_before<'a>(ending: &[u8], file: &'a [u8]) -> Option<&'a [u8]>
    ensures { option_map (λ name. name.now) result ≡ name_before ending.now file.now }
{
    match file.strip_suffix(ending) {
        Some(name) if PeerNameForm::holds(name) => Some(name),
        _ => None,
    }
}

/// The names, in byte order, for which files of these names are there, and that no peer has.
///
/// # Errors
/// Memory was refused.
pub(crate) fn strangers_of(
    alloc: Global,
    files: &[Vec<u8>],
    peers: &[PeerConf],
) -> Result<BTreeSet<Vec<u8>>, AllocError>
    ensures { IfOk result (λ names. (name : List ℕ) → Contains (names_in names) name
        ↔ IsStranger (map vec_items files.now) (map (λ peer. peer.name) peers.now) name) }
{
    let known = names_of(alloc, peers)?;
    let mut names = BTreeSet::new(alloc);
    for file in files {
        add_stranger(alloc, &mut names, &known, file)?;
    }
    Ok(names)
}

// The names of these peers.
fn names_of(alloc: Global, peers: &[PeerConf]) -> Result<BTreeSet<Vec<u8>>, AllocError>
    ensures { IfOk result (AreNames (map (λ peer. peer.name) peers.now)) }
{
    let mut names = BTreeSet::new(alloc);
    for peer in peers {
        add_name(alloc, &mut names, peer.name.bytes())?;
    }
    Ok(names)
}

/// Adds this name to a set.
///
/// # Errors
/// Memory was refused.
pub(crate) fn add_name(
    alloc: Global,
    names: &mut BTreeSet<Vec<u8>>,
    name: &[u8],
) -> Result<(), AllocError>
    ensures { OnOk result ((other : List ℕ) → Contains (names_in names.new) other
        ↔ (Contains (names_in names.old) other ⊎ (name.now ≡ other))) }
{
    names.insert(Vec::from_slice(alloc, name)?)?;
    Ok(())
}

// Adds the peer of a file of this name, unless it is known.
fn add_stranger(
    alloc: Global,
    names: &mut BTreeSet<Vec<u8>>,
    known: &BTreeSet<Vec<u8>>,
    file: &[u8],
) -> Result<(), AllocError>
    ensures { OnOk result ((name : List ℕ) → Contains (names_in names.new) name
        ↔ (Contains (names_in names.old) name ⊎ IsOfOne (names_in known.now) file.now name)) }
{
    let Some(name) = peer_of(file) else {
        return Ok(());
    };
    if known.contains(name) {
        return Ok(());
    }
    add_name(alloc, names, name)
}
