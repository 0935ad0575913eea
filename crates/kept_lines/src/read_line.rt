// Lines of the funnel as they were read.
ghost use Rattle.std.specs.Prelude.{◌≡◌, ◌++◌, ◌∷◌, [], length, IfOk, OnErr, OnOk};
ghost use Rattle.kept_lines.specs.Lines.{IsGood, IsReadAs, IsReading, others_of};
ghost use Rattle.kept_lines.specs.Names.{AreRising};
ghost use Rattle.kept_lines.specs.declared.read_line.ReadLine.{ReadLine};

use crate::names::{is_among, is_one_of};
use funnel::{FunnelLine, LineFault, MsgId, PeerName, Token, read_line};
use std::alloc::{AllocError, Global};

/// What a line of the funnel says.
#[derive(Debug, Drop)]
pub enum Reading {
    /// An article, and the names on the line that no peer of the run has, each once.
    Good {
        token: Token,
        id: MsgId,
        others: Vec<PeerName>,
    },
    /// It is malformed: its first fault.
    Malformed(LineFault),
}

/// A line of the funnel, as it was read.
#[derive(Debug, Drop)]
pub struct ReadLine {
    text: Vec<u8>,
    reading: Reading,
}

impl ReadLine {
    /// The octets before its LF.
    pub fn text(&self) -> &[u8]
        ensures { result.now ≡ self.now.text.items }
    {
        &self.text
    }

    /// What it says.
    pub fn reading(&self) -> &Reading
        ensures { result.now ≡ self.now.reading }
    {
        &self.reading
    }
}

/// Lines of the funnel, read one after another.
#[derive(Debug, Drop)]
pub struct ReadLines {
    pub(crate) lines: Vec<ReadLine>,
}

impl ReadLines {
    /// No line.
    pub fn new(alloc: Global) -> Self
        ensures { result.lines.items ≡ [] }
    {
        ReadLines {
            lines: Vec::new(alloc),
        }
    }

    /// How many there are.
    pub fn len(&self) -> usize
        ensures { result ≡ length self.now.lines.items }
    {
        self.lines.len()
    }

    /// Adds a line, the octets before its LF, of a run whose peers have these names, in byte order.
    ///
    /// # Errors
    /// Memory was refused: nothing is added.
    pub fn add(&mut self, text: Vec<u8>, names: &[PeerName]) -> Result<(), AllocError>
        ensures ok { OnOk result ((line : ReadLine) × IsReadAs names.now text.items line
            × (self.new.lines.items ≡ self.old.lines.items ++ line ∷ [])) }
        ensures unchanged { OnErr result (self.new.lines.items ≡ self.old.lines.items) }
    {
        let reading = reading_of(*self.lines.allocator(), &text, names)?;
        self.lines.push(ReadLine { text, reading })?;
        Ok(())
    }
}

fn reading_of(alloc: Global, text: &[u8], names: &[PeerName]) -> Result<Reading, AllocError>
    ensures { IfOk result (λ reading. IsReading names.now text.now reading) }
{
    match read_line(alloc, text) {
        Ok(line) => good_of(alloc, line, names),
        Err(LineFault::NoMemory) => Err(AllocError),
        Err(fault) => Ok(Reading::Malformed(fault)),
    }
}

fn good_of(alloc: Global, line: FunnelLine, names: &[PeerName]) -> Result<Reading, AllocError>
    ensures { IfOk result (IsGood names.now line) }
{
    let FunnelLine { token, id, peers } = line;
    let others = others_of(alloc, &peers, names)?;
    Ok(Reading::Good { token, id, others })
}

// Those of these peers, each once, that have none of these names, which are in byte order.
fn others_of(
    alloc: Global,
    peers: &[PeerName],
    names: &[PeerName],
) -> Result<Vec<PeerName>, AllocError>
    ensures { AreRising names.now
        → IfOk result (λ others. others.items ≡ others_of names.now [] peers.now) }
{
    let mut others = Vec::new(alloc);
    for peer in peers {
        if !is_one_of(names, peer) && !is_among(&others, peer) {
            others.push(peer.clone()?)?;
        }
    }
    Ok(others)
}
