// The names of the buffers of CNFS.
ghost use Rattle.std.specs.Prelude.{◌≡◌, ◌≤◌, length, slice_index};
ghost use Rattle.std.specs.List.{list_all};
ghost use Rattle.innd_storage.specs.BufferNames.{buffer_in, buffer_named, eight_at, is_name_field, is_nul, name_end};
ghost use Rattle.innd_storage.specs.BufferNames.{name_octets};

use crate::places::place_of;

/// The name of a buffer: 1 to 7 octets, none of them NUL (cycbuff.conf(5)).
#[derive(Clone, Copy, PartialEq, Eq)]
pub struct BufferName {
    // Padded with NUL, as in a token.
    field: [u8; 8],
}

impl BufferName {
    // The buffer that has this name; `None` if no buffer can have it.
    pub(crate) fn named(name: &[u8]) -> Option<Self>
        ensures { result ≡ buffer_named name.now }
    {
        if name.len() > 7 {
            return None;
        }
        Self::in_field(eight_at(name, 0))
    }

    /// The octets of the name.
    pub fn bytes(&self) -> &[u8]
        ensures { result.now ≡ name_octets self.now }
    {
        &self.field[..name_end(&self.field)]
    }

    // The name that these octets have, padded with NUL; `None` if they are none.
    pub(crate) fn in_field(field: [u8; 8]) -> Option<Self>
        ensures { result ≡ buffer_in field }
    {
        if !is_name_field(&field) {
            return None;
        }
        Some(BufferName { field })
    }
}

// Eight octets from here on; NUL where there are no more.
pub(crate) fn eight_at(octets: &[u8], at: usize) -> [u8; 8]
    requires { at ≤ 8 }
    ensures { result ≡ eight_at octets.now at }
{
    [
        octet_or_nul(octets, at),
        octet_or_nul(octets, at + 1),
        octet_or_nul(octets, at + 2),
        octet_or_nul(octets, at + 3),
        octet_or_nul(octets, at + 4),
        octet_or_nul(octets, at + 5),
        octet_or_nul(octets, at + 6),
        octet_or_nul(octets, at + 7),
    ]
}

fn octet_or_nul(octets: &[u8], at: usize) -> u8
    ensures { result ≡ slice_index octets.now at }
{
    if at < octets.len() { octets[at] } else { 0 }
}

fn is_name_field(field: &[u8]) -> bool
    ensures { result ≡ is_name_field field.now }
{
    let end = name_end(field);
    end > 0 && end < field.len() && are_nul(&field[end..])
}

// How many octets come before the first NUL.
fn name_end(field: &[u8]) -> usize
    ensures value { result ≡ name_end field.now }
    ensures within { result ≤ length field.now }
{
    place_of(0, field)
}

pub(crate) fn are_nul(octets: &[u8]) -> bool
    ensures { result ≡ list_all is_nul octets.now }
{
    octets.iter().all(|octet| *octet == 0)
}
