// A file that was taken in.
ghost use Rattle.std.specs.Prelude.{◌≡◌};

use crate::closed_source::ClosedSource;
use crate::import_report::ImportReport;
use funnel_files::LineFile;
use std::io::Read;

/// A file of which all lines were taken in, as lines of a source that is closed for good. So it is no longer needed.
#[derive(Drop)]
pub struct TakenIn<R: Read + Drop> {
    lines: LineFile<R>,
    report: ImportReport,
    source: ClosedSource,
}

impl<R: Read + Drop> TakenIn<R> {
    // Made once these lines are read to their end, and the source is closed that they were taken in for.
    pub(crate) fn new(lines: LineFile<R>, report: ImportReport, source: ClosedSource) -> Self
        ensures { (result.report ≡ report) × (result.source ≡ source) }
    {
        TakenIn {
            lines,
            report,
            source,
        }
    }

    /// What became of its lines.
    pub fn report(&self) -> ImportReport
        ensures { result ≡ self.now.report }
    {
        self.report
    }

    /// What it was read from, and how many octets were read, at most 2 ^ 64 - 1.
    pub fn reader(&self) -> (&R, u64) {
        self.lines.reader()
    }
}
