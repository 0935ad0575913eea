// Lines of `tradspool.map`, which numbers the newsgroups of a tradspool.
ghost use Rattle.std.specs.Prelude.{◌≡◌, ◌==◌, option_map};
ghost use Rattle.std.specs.List.{list_all, list_any, slice_split};
ghost use Rattle.innd_storage.specs.MapLines.{group_number, is_dots, is_group_path, is_path_octet, map_line_of};
ghost use Rattle.innd_storage.specs.MapLines.{map_parts};

use crate::numbers::read_number;
use crate::places::place_of;

/// A line of `tradspool.map`.
#[derive(Clone, Copy)]
pub struct MapLine<'a> {
    /// The directory of a newsgroup below the directory `articles` of the spool, as `misc/test`.
    pub group: &'a [u8],
    /// The number that tokens have for it.
    pub number: u32,
}

/// Reads a line of `tradspool.map`, given without its LF: the directory of a newsgroup, a space, and a number of 32
/// bits in decimal digits. `None` if it is not such a line; nor is it one if the directory's path has an octet that is
/// a blank, a control or DEL, or an empty part, or a part that is `.` or `..`.
pub fn read_map_line(line: &[u8]) -> Option<MapLine<'_>>
    ensures { option_map map_parts result ≡ map_line_of line.now }
{
    let end = place_of(b' ', line);
    if end >= line.len() {
        return None;
    }
    let group = &line[..end];
    if !is_group_path(group) {
        return None;
    }
    match group_number(&line[end + 1..]) {
        Some(number) => Some(MapLine { group, number }),
        None => None,
    }
}

fn group_number(digits: &[u8]) -> Option<u32>
    ensures { result ≡ group_number digits.now }
{
    let number = read_number(digits, 10)?;
    u32::try_from(number).ok()
}

// Whether this may be the path of a newsgroup's directory: it leads nowhere else.
#[tactic(auto, unfolding(crate::specs::MapLines::is_group_path))]
fn is_group_path(path: &[u8]) -> bool
    ensures { result ≡ is_group_path path.now }
{
    are_path_octets(path) && !has_dots(path)
}

fn are_path_octets(path: &[u8]) -> bool
    ensures { result ≡ list_all is_path_octet path.now }
{
    path.iter().all(|octet| is_path_octet(*octet))
}

fn is_path_octet(octet: u8) -> bool
    ensures { result ≡ is_path_octet octet }
{
    octet > 32 && octet != 127
}

fn has_dots(path: &[u8]) -> bool
    ensures { result ≡ list_any is_dots (slice_split (λ octet. octet == 47) path.now) }
{
    path.split(|octet| *octet == b'/').any(|part| is_dots(part))
}

// Whether a part of a path is empty or has no octets but dots, two at most.
fn is_dots(part: &[u8]) -> bool
    ensures { result ≡ is_dots part.now }
{
    part.len() <= 2 && part.iter().all(|octet| *octet == b'.')
}
