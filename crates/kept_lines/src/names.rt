// Names of peers, in byte order.
ghost use Rattle.std.specs.Prelude.{◌≡◌, IsTrue};
ghost use Rattle.kept_lines.specs.Names.{AreRising, is_named};

use funnel::PeerName;

/// Whether a name is one of these, which are in byte order.
pub(crate) fn is_one_of(names: &[PeerName], name: &PeerName) -> bool
    ensures found { IsTrue result → IsTrue (is_named names.now name.now) }
    ensures value { AreRising names.now → result ≡ is_named names.now name.now }
{
    names
        .binary_search_by(|known| known.bytes().cmp(name.bytes()))
        .is_ok()
}

/// The same for few names, in any order.
pub(crate) fn is_among(names: &[PeerName], name: &PeerName) -> bool
    ensures { result ≡ is_named names.now name.now }
{
    names.iter().any(|one| one.bytes() == name.bytes())
}
