// A segment that is open.
use crate::fault::FunnelFault;
use crate::line_file::{LineFile, SkipFault};
use crate::position::{Misfit, Position};
use crate::segment_directory::SegmentDirectory;
use segments::SegmentPlace;
use std::fs::File;
use std::io;
use std::rt::Files;

/// An open segment, and the position in it. Its lines are made durable before they are given: what is acknowledged
/// must not be lost from the funnel in a power cut that the mark survives, because other lines would then come under
/// the same numbers.
#[derive(Drop)]
pub(crate) struct OpenSegment {
    pub position: Position,
    lines: LineFile<File>,
}

impl OpenSegment {
    /// Opens the segment at this place, after the lines up to this mark; `next` is the segment after it, if there is
    /// one. Its name is not made durable.
    ///
    /// # Errors
    /// `NoFile`; if it does not have all lines up to the mark, `Gap` if there is a next segment and `Short` if not;
    /// the system's error.
    pub fn open<F: AllocGlobal + Files<File = File>>(
        directory: &SegmentDirectory<'_, F>,
        place: SegmentPlace,
        next: Option<u64>,
        mark: u64,
    ) -> Result<Self, FunnelFault> {
        let segment = place.first;
        let mut lines = LineFile::new(directory.alloc(), directory.open(segment)?)?;
        match lines.skip(place.skipped) {
            Ok(()) => {}
            Err(SkipFault::Failed(reason)) => return Err(FunnelFault::Segment { segment, reason }),
            Err(SkipFault::Short { missing }) => {
                return Err(lacking(segment, next, mark.saturating_sub(missing), mark));
            }
        }
        let open = OpenSegment {
            position: Position::new(segment, mark, next),
            lines,
        };
        open.sync()?;
        Ok(open)
    }

    /// The next line of what was read so far, without its LF.
    ///
    /// # Errors
    /// `Misfit` if the line is the next segment's.
    pub fn next_read(&mut self) -> Result<Option<Vec<u8>>, FunnelFault> {
        let Some(line) = self.lines.next_read() else {
            return Ok(None);
        };
        self.position.take_line()?;
        Ok(Some(line))
    }

    /// Reads a piece. Returns whether there was one.
    ///
    /// # Errors
    /// The system's error.
    pub fn read_piece(&mut self) -> Result<bool, FunnelFault> {
        let read = self.lines.read_piece();
        let is_more = read.map_err(|reason| self.failed(reason))?;
        if is_more {
            self.sync()?;
        }
        Ok(is_more)
    }

    /// The segment to go on with at the end of this one; `None` if no next one is known.
    ///
    /// # Errors
    /// `Misfit` if the two do not fit together.
    pub fn next_segment(&self) -> Result<Option<u64>, FunnelFault> {
        Ok(self.position.next_segment(self.lines.has_rest())?)
    }

    /// Checks that it still has what was read of it.
    ///
    /// # Errors
    /// `Shrunk` if not; the system's error.
    pub fn look(&self) -> Result<(), FunnelFault> {
        let (file, read) = self.lines.reader();
        let there = file.metadata().map_err(|reason| self.failed(reason))?;
        if there.len() < read {
            return Err(FunnelFault::Shrunk {
                segment: self.position.segment(),
            });
        }
        Ok(())
    }

    /// Whether another file has its name now, while nothing was read of it: the writer of the funnel may replace an
    /// empty segment by one with lines.
    ///
    /// # Errors
    /// The system's error.
    pub fn is_replaced<F: AllocGlobal + Files<File = File>>(
        &self,
        directory: &SegmentDirectory<'_, F>,
    ) -> Result<bool, FunnelFault> {
        let (file, read) = self.lines.reader();
        if read > 0 {
            return Ok(false);
        }
        let is_there = directory.has(self.position.segment(), file);
        Ok(!is_there.map_err(|reason| self.failed(reason))?)
    }

    fn sync(&self) -> Result<(), FunnelFault> {
        let (file, _) = self.lines.reader();
        file.sync_data().map_err(|reason| self.failed(reason))
    }

    fn failed(&self, reason: io::Error) -> FunnelFault {
        FunnelFault::Segment {
            segment: self.position.segment(),
            reason,
        }
    }
}

// What is wrong with a segment that ends at the line `last`, before the mark; `next` is the segment after it, if
// there is one.
fn lacking(segment: u64, next: Option<u64>, last: u64, mark: u64) -> FunnelFault {
    match next {
        Some(next) => FunnelFault::Misfit(Misfit::Gap { after: last, next }),
        None => FunnelFault::Short {
            segment,
            last,
            mark,
        },
    }
}
