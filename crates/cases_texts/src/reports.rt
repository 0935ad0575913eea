// The status report: the crate status.
use crate::fault::RowFault;
use crate::octets::{number_in, put, put_printed};
use funnel::PeerName;
use ledger_core::Totals;
use status::{PeerStatus, report};
use std::alloc::{AllocError, Global};
use std::io::{self, ErrorKind, Write};

// A writer that takes at most three octets at a time, reports every other write as interrupted, and fails once it is
// full.
#[derive(Drop)]
struct Narrow {
    out: Vec<u8>,
    room: usize,
    interrupted: bool,
}

impl Write for Narrow {
    fn write(&mut self, buf: &[u8]) -> io::Result<usize> {
        self.interrupted = !self.interrupted;
        if self.interrupted {
            return Err(io::Error::from(ErrorKind::Interrupted));
        }
        let count = buf.len().min(3).min(self.room);
        if count == 0 {
            return Err(io::Error::from(ErrorKind::StorageFull));
        }
        self.out.extend_from_slice(&buf[..count])?;
        self.room = self.room.saturating_sub(count);
        Ok(count)
    }

    fn flush(&mut self) -> io::Result<()> {
        Ok(())
    }
}

/// The report on peers, each given by six arguments: its name, and the numbers of its line. And whether it is cut
/// anywhere but at the end of the room, if there is room for fewer octets.
pub fn put_report(answer: &mut Vec<u8>, arguments: &[Vec<u8>]) -> Result<(), RowFault> {
    let alloc = *answer.allocator();
    let mut names = Vec::new(alloc);
    let mut totals = Vec::new(alloc);
    for line in arguments.chunks(6) {
        names.push(name_in(alloc, line)?)?;
        totals.push(totals_in(line)?)?;
    }
    let mut peers = Vec::new(alloc);
    for (name, totals) in names.iter().zip(&totals) {
        peers.push(PeerStatus {
            name,
            totals: *totals,
        })?;
    }
    put_whole(answer, &peers)?;
    Ok(())
}

fn name_in(alloc: Global, line: &[Vec<u8>]) -> Result<PeerName, RowFault> {
    let no_name = RowFault::Argument(1, "the name of a peer");
    match line.first() {
        Some(name) => PeerName::read(alloc, name)?.ok_or(no_name),
        None => Err(no_name),
    }
}

fn totals_in(line: &[Vec<u8>]) -> Result<Totals, RowFault> {
    Ok(Totals {
        taken: number_in(line, 2)?,
        answered: number_in(line, 3)?,
        dropped: number_in(line, 4)?,
        owed: number_in(line, 5)?,
        owed_bytes: number_in(line, 6)?,
    })
}

fn put_whole(answer: &mut Vec<u8>, peers: &[PeerStatus<'_>]) -> Result<(), AllocError> {
    let alloc = *answer.allocator();
    let (text, is_whole) = written(alloc, peers, usize::MAX);
    for room in 0..=text.len().saturating_add(1) {
        let (part, is_all) = written(alloc, peers, room);
        if text.get(..room.min(text.len())) != Some(part.as_slice())
            || is_all != (text.len() <= room)
        {
            put_printed(answer, &room)?;
            put(answer, b"octets have room, and others are written")?;
        }
    }
    if !is_whole {
        put(answer, b"Write")?;
    }
    answer.extend_from_slice(&text)
}

// What is written of a report if there is room for so many octets, and whether it reports success.
fn written(alloc: Global, peers: &[PeerStatus<'_>], room: usize) -> (Vec<u8>, bool) {
    let mut out = Narrow {
        out: Vec::new(alloc),
        room,
        interrupted: false,
    };
    let is_whole = report(peers, &mut out).is_ok();
    (out.out, is_whole)
}
