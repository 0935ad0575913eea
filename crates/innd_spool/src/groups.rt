// The newsgroups of a tradspool, as its map numbers them.
ghost use Rattle.std.specs.Prelude.{◌≡◌, ℕ, IfOk, OnOk, IsSome, Some};
ghost use Rattle.std.specs.BTreeMap.{get};
ghost use Rattle.std.specs.Ordering.{nat_cmp};
ghost use Rattle.innd_storage.specs.MapLines.{map_line_of, map_parts};
ghost use Rattle.innd_spool.specs.Groups.{IsMapOf, directory_of, with_parts};

use crate::faults::{named, no_group, not_text};
use crate::files::{FileState, read_whole, state_of};
use funnel::first_line;
use innd_storage::{MapLine, TradspoolToken, read_map_line, tradspool_path};
use std::alloc::{AllocError, Global};
use std::collections::BTreeMap;
use std::rt::Files;
use std::{io, str};

// The name of the map, in the spool.
const MAP: &str = "tradspool.map";

/// The directories of newsgroups by their numbers, as the map had them when it was read.
#[derive(Drop)]
pub(crate) struct GroupMap {
    path: String,
    groups: BTreeMap<u32, Vec<u8>>,
    // Of the map that was read; `None` if none was.
    seen: Option<FileState>,
}

impl GroupMap {
    /// The map of the spool at this path, which ends with a slash. It is not read yet.
    ///
    /// # Errors
    /// `AllocError` if memory was refused.
    pub fn new(alloc: Global, spool: &str) -> Result<Self, AllocError> {
        let mut path = String::from_str(alloc, spool)?;
        path.push_str(MAP)?;
        Ok(GroupMap {
            path,
            groups: BTreeMap::new(alloc),
            seen: None,
        })
    }

    /// Makes sure that a newsgroup is known. The map is read if it lacks the newsgroup, and is another than the one
    /// that was read before.
    ///
    /// # Errors
    /// The system's error; that the map has no such newsgroup.
    pub fn find<F: Files>(&mut self, files: &F, alloc: Global, number: u32) -> io::Result<()>
        ensures { OnOk result (IsSome (get nat_cmp self.new.groups number)) }
    {
        if self.groups.contains_key(&number) {
            return Ok(());
        }
        if let Err(error) = self.read(files, alloc) {
            return Err(named(alloc, MAP, error));
        }
        if self.groups.contains_key(&number) {
            Ok(())
        } else {
            Err(no_group(alloc, number))
        }
    }

    /// The path of an article, below the directory of the articles.
    ///
    /// # Errors
    /// That the map has no such newsgroup, or that its path is not UTF-8; that memory was refused.
    pub fn path_of(&self, alloc: Global, token: &TradspoolToken) -> io::Result<String> {
        let Some(group) = self.groups.get(&token.group) else {
            return Err(no_group(alloc, token.group));
        };
        match str::from_utf8(group.as_slice()) {
            Ok(group) => Ok(tradspool_path(alloc, group, token.number)?),
            Err(_) => Err(not_text()),
        }
    }

    // Reads the map, unless it is the one that was read before.
    fn read<F: Files>(&mut self, files: &F, alloc: Global) -> io::Result<()> {
        let state = state_of(files, self.path.as_str())?;
        if self.seen == Some(state) {
            return Ok(());
        }
        let mut text = Vec::new(alloc);
        read_whole(files, self.path.as_str(), &mut text)?;
        self.groups = groups_in(alloc, text.as_slice())?;
        self.seen = Some(state);
        Ok(())
    }
}

// The newsgroups of a map. What follows the last LF says nothing: it is not a whole line.
fn groups_in(alloc: Global, text: &[u8]) -> Result<BTreeMap<u32, Vec<u8>>, AllocError>
    ensures { IfOk result (IsMapOf text.now) }
{
    let mut groups = BTreeMap::new(alloc);
    let mut left = text;
    while let Some((line, behind)) = first_line(left) {
        add_line(alloc, &mut groups, line)?;
        left = behind;
    }
    Ok(groups)
}

// Takes in one line; one that is no line of a map is passed over.
fn add_line(
    alloc: Global,
    groups: &mut BTreeMap<u32, Vec<u8>>,
    line: &[u8],
) -> Result<(), AllocError>
    ensures { OnOk result ((number : ℕ) → directory_of groups.new number
        ≡ with_parts number (directory_of groups.old number) (map_line_of line.now)) }
{
    match read_map_line(line) {
        Some(found) => add(alloc, groups, &found),
        None => Ok(()),
    }
}

fn add(
    alloc: Global,
    groups: &mut BTreeMap<u32, Vec<u8>>,
    line: &MapLine<'_>,
) -> Result<(), AllocError>
    ensures { OnOk result ((number : ℕ) → directory_of groups.new number
        ≡ with_parts number (directory_of groups.old number) (Some (map_parts line.now))) }
{
    let group = Vec::from_slice(alloc, line.group)?;
    groups.insert(line.number, group)?;
    Ok(())
}
