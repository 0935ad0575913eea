// What keeps lines before they are taken.
ghost use Rattle.std.specs.Prelude.{◌≡◌, ◌++◌, ◌≤◌, ◌-◌, [], List, map, length, vec_items};
ghost use Rattle.std.specs.Prelude.{IfOk, OnOk, true, false};
ghost use Rattle.kept_lines.specs.Fits.{Fits};
ghost use Rattle.kept_lines.specs.Keeps.{Keeps, KeepsEach, KeepsOne};

use crate::fault::KeepFault;
use crate::kept_file::KeptFile;
use crate::names::is_among;
use crate::read_line::{ReadLine, ReadLines, Reading};
use crate::texts::{add_unknown, kept_text};
use disk_model::{Disk, DiskFault};
use funnel::PeerName;
use std::alloc::{AllocError, Global};

// A peer that is left out of the run, with the file of its lines.
#[derive(Drop)]
pub(crate) struct LeftOut<D: Disk> {
    pub name: PeerName,
    pub file: KeptFile<D>,
}

// The file of lines that name unknown peers.
#[derive(Drop)]
enum UnknownFile<D: Disk> {
    // It was not needed yet.
    Unopened,
    Open(KeptFile<D>),
    // It is full or has failed: lines are only counted.
    Closed,
}

/// What was kept of the lines of a batch that name unknown peers.
#[derive(Clone, Copy, Debug, PartialEq, Eq)]
pub enum UnknownKept {
    /// All of them; or there is none.
    All,
    /// The first ones: with the next one the file would become longer than its limit. No further one is kept.
    Full,
    /// Perhaps none: the file could not be written or synced. No further one is kept.
    Failed,
    /// None: the file was not opened, or an earlier batch had one of the last two answers.
    Closed,
}

/// Lines whose other names are kept: they may be taken.
#[derive(Debug, Drop)]
pub struct KeptLines {
    lines: Vec<ReadLine>,
    unknown: UnknownKept,
}

impl KeptLines {
    /// The lines, in their order.
    pub fn lines(&self) -> &[ReadLine]
        ensures { result.now ≡ self.now.lines.items }
    {
        &self.lines
    }

    /// What was kept of those that name unknown peers.
    pub fn unknown(&self) -> UnknownKept
        ensures { result ≡ self.now.unknown }
    {
        self.unknown
    }
}

/// Keeps lines of the funnel in files, before they are taken: those of peers that are left out of the run, each in a
/// file of its own without a limit, and those that name unknown peers, in one file with a limit.
#[derive(Drop)]
pub struct Keeper<D: Disk> {
    alloc: Global,
    left_out: Vec<LeftOut<D>>,
    // Their names.
    names: Vec<PeerName>,
    unknown: UnknownFile<D>,
    // The greatest length of the file of lines that name unknown peers, in octets.
    limit: u64,
}

impl<D: Disk + Drop> Keeper<D> {
    /// One that leaves out no peer; `limit` is the greatest length of the file of lines that name unknown peers, in
    /// octets.
    pub fn new(alloc: Global, limit: u64) -> Self
        ensures { (result.left_out.items ≡ []) × (result.limit ≡ limit) }
    {
        Keeper {
            alloc,
            left_out: Vec::new(alloc),
            names: Vec::new(alloc),
            unknown: UnknownFile::Unopened,
            limit,
        }
    }

    /// Leaves out the peer of this name: lines that name it are kept in the file on this disk.
    ///
    /// # Errors
    /// The disk's; memory was refused.
    pub fn leave_out(&mut self, name: PeerName, disk: D) -> Result<(), KeepFault> {
        let file = KeptFile::open(disk)?;
        self.names.push(name.clone()?)?;
        self.left_out.push(LeftOut { name, file })?;
        Ok(())
    }

    /// The names of the peers that are left out.
    pub fn left_out(&self) -> &[PeerName]
        ensures { result.now ≡ self.now.names.items }
    {
        &self.names
    }

    /// The name of the first peer that is left out whose file has failed.
    pub fn lost(&self) -> Option<&PeerName> {
        let lost = self.left_out.iter().find(|peer| peer.file.is_lost())?;
        Some(&lost.name)
    }

    /// The names on a line that neither a peer of the run nor one that is left out has, each once.
    ///
    /// # Errors
    /// Memory was refused.
    pub fn unknown_names(&self, line: &ReadLine) -> Result<Vec<PeerName>, AllocError> {
        let mut unknown = Vec::new(self.alloc);
        if let Reading::Good { others, .. } = line.reading() {
            for name in others {
                if !is_among(&self.names, name) {
                    unknown.push(name.clone()?)?;
                }
            }
        }
        Ok(unknown)
    }

    /// Whether the file of lines that name unknown peers has to be opened before these lines are kept.
    ///
    /// # Errors
    /// Memory was refused.
    pub fn wants_unknown(&self, lines: &ReadLines) -> Result<bool, AllocError> {
        if !matches!(self.unknown, UnknownFile::Unopened) {
            return Ok(false);
        }
        let mut text = Vec::new(self.alloc);
        for line in &lines.lines {
            add_unknown(&mut text, &self.names, line)?;
            if !text.is_empty() {
                return Ok(true);
            }
        }
        Ok(false)
    }

    /// The file of lines that name unknown peers is on this disk.
    ///
    /// # Errors
    /// The disk's: lines that name unknown peers are only counted then.
    pub fn open_unknown(&mut self, disk: D) -> Result<(), DiskFault> {
        self.unknown = UnknownFile::Closed;
        self.unknown = UnknownFile::Open(KeptFile::open(disk)?);
        Ok(())
    }

    /// Lines that name unknown peers are only counted from now on.
    pub fn close_unknown(&mut self) {
        self.unknown = UnknownFile::Closed;
    }

    /// Keeps these lines, so that they may be taken: what each names besides the peers of the run is durable then, as
    /// far as [`KeptLines::unknown`] says.
    ///
    /// # Errors
    /// `Disk` if the file of a peer that is left out could not be written or synced. `NoMemory` if memory was refused.
    /// No line may be taken then.
    pub fn keep(&mut self, lines: ReadLines) -> Result<KeptLines, KeepFault>
        ensures lines { IfOk result (λ kept. kept.lines ≡ lines.lines) }
        ensures ok { OnOk result (Keeps lines.lines.items self.old self.new) }
    {
        keep_each(self.alloc, &mut self.left_out, &lines.lines)?;
        let unknown = self.keep_unknown(&lines.lines)?;
        Ok(KeptLines {
            lines: lines.lines,
            unknown,
        })
    }

    fn keep_unknown(&mut self, lines: &[ReadLine]) -> Result<UnknownKept, AllocError>
        ensures names { self.new.names ≡ self.old.names }
        ensures left_out { self.new.left_out ≡ self.old.left_out }
    {
        let UnknownFile::Open(file) = &mut self.unknown else {
            return self.closed(lines);
        };
        let room = self.limit.saturating_sub(file.len());
        let Fitting { text, is_whole } = first_that_fit(self.alloc, &self.names, lines, room)?;
        let kept = match file.add(&text) {
            Ok(()) if is_whole => UnknownKept::All,
            Ok(()) => UnknownKept::Full,
            Err(_) => UnknownKept::Failed,
        };
        if kept != UnknownKept::All {
            self.unknown = UnknownFile::Closed;
        }
        Ok(kept)
    }

    // The answer if there is no file.
    fn closed(&self, lines: &[ReadLine]) -> Result<UnknownKept, AllocError> {
        let Fitting { is_whole, .. } = first_that_fit(self.alloc, &self.names, lines, 0)?;
        Ok(if is_whole {
            UnknownKept::All
        } else {
            UnknownKept::Closed
        })
    }
}

fn keep_each<D: Disk + Drop>(
    alloc: Global,
    left_out: &mut [LeftOut<D>],
    lines: &[ReadLine],
) -> Result<(), KeepFault>
    ensures { OnOk result (KeepsEach lines.now left_out.old left_out.new) }
{
    for peer in left_out {
        keep_one(alloc, peer, lines)?;
    }
    Ok(())
}

fn keep_one<D: Disk + Drop>(
    alloc: Global,
    peer: &mut LeftOut<D>,
    lines: &[ReadLine],
) -> Result<(), KeepFault>
    ensures { OnOk result (KeepsOne lines.now peer.old peer.new) }
{
    let text = kept_text(alloc, &peer.name, lines)?;
    peer.file.add(&text)?;
    Ok(())
}

// The text of lines that name unknown peers, as far as it fits.
#[derive(Drop)]
struct Fitting {
    text: Vec<u8>,
    // Whether it is that of all lines.
    is_whole: bool,
}

// The text of the first of these lines, as many as fit into this room, in octets.
fn first_that_fit(
    alloc: Global,
    left_out: &[PeerName],
    lines: &[ReadLine],
    room: u64,
) -> Result<Fitting, AllocError>
    ensures { IfOk result (λ fits. Fits left_out.now lines.now room fits.text.items fits.is_whole) }
{
    let mut text = Vec::new(alloc);
    for line in lines {
        let before = text.len();
        add_unknown(&mut text, left_out, line)?;
        if text.len() as u64 > room {
            text.truncate(before);
            return Ok(Fitting {
                text,
                is_whole: false,
            });
        }
    }
    Ok(Fitting {
        text,
        is_whole: true,
    })
}
