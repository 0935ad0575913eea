// Where an octet stands.
ghost use Rattle.std.specs.Prelude.{◌≡◌, ◌≤◌, length};
ghost use Rattle.innd_storage.specs.Places.{place_of};

use memchr::memchr;

// Where an octet stands first, or how many octets there are if it does not stand among them.
pub(crate) fn place_of(octet: u8, octets: &[u8]) -> usize
    ensures value { result ≡ place_of octet octets.now }
    ensures within { result ≤ length octets.now }
{
    memchr(octet, octets).unwrap_or(octets.len())
}
