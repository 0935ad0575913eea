// Importing the lines of a backlog file.
ghost use Rattle.std.specs.Prelude.{◌≡◌, ◌⊎◌, ◌+◌, ◌<◌, ◌≤◌, [], ℕ, List};
ghost use Rattle.std.specs.Prelude.{Err, IfErr, IfOk, MatchResult, Ok, OnErr, OnOk, Some};
ghost use Rattle.backlog_files.specs.Faults.{IsImportFault};
ghost use Rattle.backlog_files.specs.Imports.{TakesIn, TakesLine, TakesSome, closed, no_line};
ghost use Rattle.flusher.specs.Sealed.{IsFlushed};
ghost use Rattle.funnel_files.specs.Lines.{HasGiven, left_of};
ghost use Rattle.ledger_core.specs.State.{after, step};
ghost use Rattle.ledger_core.specs.declared.note.Note.{Note};
ghost use Rattle.peer_queue.specs.Words.{ledger_of, open_key};

use crate::closed_source::ClosedSource;
use crate::fault::ImportFault;
use crate::import_report::ImportReport;
use crate::taken_in::TakenIn;
use disk_model::Disk;
use flusher::PostPeer;
use funnel::{LineFault, MsgId, Token, read_backlog_line};
use funnel_files::LineFile;
use ledger_core::LedgerFault;
use peer_queue::{Owed, StationFault};
use recovery::TapeFault;
use std::alloc::Global;
use std::io::{self, ErrorKind, Read};

/// Imports lines, and counts them.
#[derive(Drop)]
pub(crate) struct Import {
    alloc: Global,
    // The number of the last line, 0 before the first.
    number: u64,
    report: ImportReport,
}

impl Import {
    pub fn new(alloc: Global) -> Self
        ensures { (result.number ≡ 0) × (result.report ≡ no_line) }
    {
        Import {
            alloc,
            number: 0,
            report: ImportReport::none(),
        }
    }

    /// Takes the next line: it gets the next number, and a good one is owed to this peer, unless lines up to its
    /// number were noted before.
    ///
    /// # Errors
    /// `Tape(Note(CountFull))` if no number is left; the errors of [`PostPeer::import`], except `Tape(PendingFull)`,
    /// because a flush makes room; those of [`PostPeer::flush_or_rotate`]; `NoMemory`. The line is not taken then.
    pub fn take<D: Disk>(&mut self, peer: &mut PostPeer<D>, line: &[u8]) -> Result<(), StationFault>
        ensures taken { OnOk result ((notes : List Note)
            × TakesLine (ledger_of peer.old.station) self.new.number line.now self.old.report notes
            self.new.report
            × (ledger_of peer.new.station ≡ after (ledger_of peer.old.station) notes)) }
        ensures number { OnOk result (self.new.number ≡ self.old.number + 1) }
        ensures refused { OnErr result
            ((ledger_of peer.new.station ≡ ledger_of peer.old.station)
            × (self.new ≡ self.old)) }
        ensures kinds { IfErr result IsImportFault }
        ensures name { peer.new.name ≡ peer.old.name }
    {
        let Some(number) = self.number.checked_add(1) else {
            return Err(StationFault::Tape(TapeFault::Note(LedgerFault::CountFull)));
        };
        self.report = self.report_with(peer, number, line)?;
        self.number = number;
        Ok(())
    }

    fn report_with<D: Disk>(
        &self,
        peer: &mut PostPeer<D>,
        number: u64,
        line: &[u8],
    ) -> Result<ImportReport, StationFault>
        ensures taken { IfOk result (λ report. (notes : List Note)
            × TakesLine (ledger_of peer.old.station) number line.now self.now.report notes report
            × (ledger_of peer.new.station ≡ after (ledger_of peer.old.station) notes)) }
        ensures refused { OnErr result
            (ledger_of peer.new.station ≡ ledger_of peer.old.station) }
        ensures kinds { IfErr result IsImportFault }
        ensures name { peer.new.name ≡ peer.old.name }
    {
        match read_backlog_line(self.alloc, line) {
            Ok((token, id)) => {
                let owed = owe(peer, number, &token, &id)?;
                Ok(self.report.with_good(owed))
            }
            Err(LineFault::NoMemory) => Err(StationFault::NoMemory),
            Err(fault) => Ok(self.report.with_malformed(number, fault)),
        }
    }

    /// What became of the lines so far.
    pub fn report(&self) -> ImportReport
        ensures { result ≡ self.now.report }
    {
        self.report
    }
}

// Owes a line of the open source, after a flush if no more notes may be pending.
fn owe<D: Disk>(
    peer: &mut PostPeer<D>,
    number: u64,
    token: &Token,
    id: &MsgId,
) -> Result<Owed, StationFault>
    ensures new { result ≡ Ok Owed.New → ((ledger_of peer.old.station).import_mark < number)
        × (ledger_of peer.new.station ≡ step (ledger_of peer.old.station)
        (Note.Owe (open_key peer.old.station number) token.now id.now)) }
    ensures already { result ≡ Ok Owed.Already
        → (number ≤ (ledger_of peer.old.station).import_mark)
        × (ledger_of peer.new.station ≡ ledger_of peer.old.station) }
    ensures refused { OnErr result (ledger_of peer.new.station ≡ ledger_of peer.old.station) }
    ensures kinds { IfErr result IsImportFault }
    ensures name { peer.new.name ≡ peer.old.name }
{
    match peer.import(number, token, id) {
        Err(StationFault::Tape(TapeFault::PendingFull)) => {
            peer.flush_or_rotate()?;
            peer.import(number, token, id)
        }
        owed => owed,
    }
}

// Closes the open source, and returns it; after a flush if no more notes may be pending.
fn close_source<D: Disk>(peer: &mut PostPeer<D>) -> Result<u32, StationFault>
    ensures source { IfOk result (λ source. source ≡ (ledger_of peer.old.station).closed + 1) }
    ensures closed { OnOk result
        (ledger_of peer.new.station ≡ closed (ledger_of peer.old.station)) }
    ensures refused { OnErr result (ledger_of peer.new.station ≡ ledger_of peer.old.station) }
    ensures kinds { IfErr result IsImportFault }
    ensures name { peer.new.name ≡ peer.old.name }
{
    match peer.close_import() {
        Err(StationFault::Tape(TapeFault::PendingFull)) => {
            peer.flush_or_rotate()?;
            peer.close_import()
        }
        closed => closed,
    }
}

/// Closes the open source, flushes, and returns the source: from then on the next one is open, even after a crash.
///
/// # Errors
/// The errors of [`PostPeer::close_import`], except `Tape(PendingFull)`, because a flush makes room; those of
/// [`PostPeer::flush_or_rotate`].
pub(crate) fn close<D: Disk>(peer: &mut PostPeer<D>) -> Result<ClosedSource, StationFault>
    ensures source { IfOk result
        (λ source. source.number ≡ (ledger_of peer.old.station).closed + 1) }
    ensures closed { OnOk result
        ((ledger_of peer.new.station ≡ closed (ledger_of peer.old.station))
        × IsFlushed peer.new.station) }
    ensures refused { OnErr result
        ((ledger_of peer.new.station ≡ ledger_of peer.old.station)
        ⊎ (ledger_of peer.new.station ≡ closed (ledger_of peer.old.station))) }
    ensures kinds { IfErr result IsImportFault }
    ensures name { peer.new.name ≡ peer.old.name }
{
    let source = close_source(peer)?;
    peer.flush_or_rotate()?;
    Ok(ClosedSource::of(peer, source))
}

/// Takes in all lines of a file for this peer, as lines of the open source, closes that source, and flushes: once it
/// returns `Ok`, they are acknowledged, and the file is handed back as one that is no longer needed. The first line is
/// line 1; a malformed one has a number, and owes nothing; a rest without LF is not a line. No more than one piece of
/// the file is in memory.
///
/// # Errors
/// The file cannot be read further; the station's errors. What was taken in stays. Unless its last flush failed, the
/// source stays open, so that the next call with the same file goes on after what was taken in.
pub fn take_in<D: Disk, R: Read + Drop>(
    alloc: Global,
    peer: &mut PostPeer<D>,
    lines: LineFile<R>,
) -> Result<TakenIn<R>, ImportFault>
    ensures imports { (octets : List ℕ) → HasGiven lines [] []
        → left_of lines ≡ Some octets → MatchResult result
        (λ taken. TakesIn octets (ledger_of peer.old.station) (ledger_of peer.new.station)
        taken.report)
        (TakesSome octets (ledger_of peer.old.station) (ledger_of peer.new.station)) }
    ensures source { IfOk result
        (λ taken. taken.source.number ≡ (ledger_of peer.old.station).closed + 1) }
    ensures flushed { OnOk result (IsFlushed peer.new.station) }
    ensures kinds { (fault : StationFault) → result ≡ Err (ImportFault.Station fault)
        → IsImportFault fault }
    ensures name { peer.new.name ≡ peer.old.name }
{
    let mut lines = lines;
    let mut import = Import::new(alloc);
    for _ in 0..u64::MAX {
        match lines.next_read() {
            Some(line) => import.take(peer, &line)?,
            None => {
                if !lines.read_piece()? {
                    let source = close(peer)?;
                    let has_rest = lines.has_rest();
                    let report = ImportReport {
                        has_rest,
                        ..import.report()
                    };
                    return Ok(TakenIn::new(lines, report, source));
                }
            }
        }
    }
    Err(ImportFault::Unread(io::Error::from(ErrorKind::TimedOut)))
}
