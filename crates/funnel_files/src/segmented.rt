// A funnel that is a directory of segments: its lines, segment by segment.
use crate::end_pace::EndPace;
use crate::fault::FunnelFault;
use crate::held_names::HeldNames;
use crate::lines::Next;
use crate::listing_pace::ListingPace;
use crate::position::Misfit;
use crate::segment::OpenSegment;
use crate::segment_directory::SegmentDirectory;
use crate::tidying::Tidying;
use acknowledged_lines::Acknowledged;
use segments::SegmentPlace;
use std::fs::File;
use std::rt::{Clock, Files};

/// The lines of a directory of segments.
#[derive(Drop)]
pub(crate) struct SegmentedFunnel<'a, F> {
    directory: SegmentDirectory<'a, F>,
    names: HeldNames,
    pace: ListingPace,
    end_pace: EndPace,
    // `None` before there is a first segment.
    open: Option<OpenSegment>,
    // The segment that was opened first.
    begun: u64,
    // Reading begins after this line.
    mark: u64,
    is_followed: bool,
    // `None` if no segments are to be removed.
    tidying: Option<Tidying>,
}

impl<'a, F: AllocGlobal + Files<File = File>> SegmentedFunnel<'a, F> {
    /// The lines of this directory, after the line of this number.
    ///
    /// # Errors
    /// `NoSegment` if there is none and the directory is not followed; otherwise the errors of
    /// [`SegmentedFunnel::next`].
    pub fn open(
        directory: SegmentDirectory<'a, F>,
        mark: u64,
        is_followed: bool,
        is_tidied: bool,
    ) -> Result<Self, FunnelFault> {
        let names = HeldNames::new(directory.alloc());
        let mut reader = SegmentedFunnel {
            directory,
            names,
            pace: ListingPace::new(),
            end_pace: EndPace::new(),
            open: None,
            begun: 0,
            mark,
            is_followed,
            tidying: is_tidied.then_some(Tidying::new()),
        };
        if !reader.begin()? && !is_followed {
            return Err(FunnelFault::NoSegment);
        }
        Ok(reader)
    }

    /// What comes next.
    ///
    /// # Errors
    /// Segments do not fit together, are not regular files or become shorter; the system's error. Nothing more may be
    /// read then.
    pub fn next<R: Clock>(&mut self, rt: &R) -> Result<Next, FunnelFault> {
        for _ in 0..u64::MAX {
            let Some(open) = &mut self.open else {
                if self.begin()? {
                    continue;
                }
                return Ok(Next::Pause);
            };
            if let Some(line) = open.next_read()? {
                return Ok(Next::Line(line));
            }
            if open.read_piece()? {
                self.end_pace.read_on();
            } else if !self.pass_end(rt)? {
                return Ok(if self.is_followed {
                    Next::Pause
                } else {
                    Next::End
                });
            }
        }
        Ok(Next::End)
    }

    // Opens the segment with the first line to be read, if there is any segment.
    fn begin(&mut self) -> Result<bool, FunnelFault> {
        self.list()?;
        let (after, mark) = (self.mark, self.mark);
        let segments = self.names.segments();
        match (segments.place_of(mark), segments.after(0)) {
            (Some(place), _) => {
                self.begun = place.first;
                self.open_at(place, mark)?;
                Ok(true)
            }
            (None, Some(next)) => Err(Misfit::Gap { after, next }.into()),
            (None, None) => Ok(false),
        }
    }

    // Lists the directory, and holds the names.
    fn list(&mut self) -> Result<(), FunnelFault> {
        let listed = self.directory.list()?;
        let open = match &self.open {
            Some(open) => open.position.segment(),
            None => 0,
        };
        Ok(self.names.renew(listed, self.begun, open)?)
    }

    // Goes on from the end of the open segment, into the next one if there is one. Returns whether there may be more
    // to read.
    fn pass_end<R: Clock>(&mut self, rt: &R) -> Result<bool, FunnelFault> {
        let Some(open) = &mut self.open else {
            return Ok(false);
        };
        let known = open.next_segment()?;
        if known.is_none() && self.is_followed && !self.end_pace.is_due(rt) {
            return Ok(false);
        }
        if known.is_none() && self.find_awaited()? {
            return Ok(true);
        }
        let count = self.names.segments().len();
        let is_due = self.pace.is_due(rt, known.is_none(), count);
        if is_due || (known.is_none() && !self.is_followed) {
            self.list()?;
        }
        self.go_on(known)
    }

    // The open segment was read to its end, which is complete if the next one is known. Goes on with that one, or reads
    // the open one once more if another next one, or another file of its name, is there.
    fn go_on(&mut self, known: Option<u64>) -> Result<bool, FunnelFault> {
        let Some(open) = &mut self.open else {
            return Ok(false);
        };
        let first = open.position.segment();
        if known.is_none() && self.is_followed {
            open.look()?;
            if open.is_replaced(&self.directory)? {
                self.open_first(first)?;
                return Ok(true);
            }
        }
        match (known, self.names.segments().after(first)) {
            (Some(next), held) if held.is_none() || held == known => {
                self.open_first(next)?;
                Ok(true)
            }
            (_, Some(next)) => {
                // It was complete before the next one had its name, but may have grown since it was read.
                open.position.complete(next);
                Ok(true)
            }
            (_, None) => Ok(false),
        }
    }

    // Whether the segment is there whose name the number after the open one's last line is. Then the open one is
    // complete.
    fn find_awaited(&mut self) -> Result<bool, FunnelFault> {
        let Some(open) = &mut self.open else {
            return Ok(false);
        };
        let Some(next) = open.position.awaited() else {
            return Ok(false);
        };
        if !self.directory.has_name(next)? {
            return Ok(false);
        }
        self.names.add(next)?;
        open.position.complete(next);
        Ok(true)
    }

    fn open_first(&mut self, first: u64) -> Result<(), FunnelFault> {
        let place = SegmentPlace { first, skipped: 0 };
        self.open_at(place, first.saturating_sub(1))
    }

    // Opens the segment at this place, after the lines up to this mark. Its name is durable then.
    fn open_at(&mut self, place: SegmentPlace, mark: u64) -> Result<(), FunnelFault> {
        let next = self.names.segments().after(place.first);
        let open = OpenSegment::open(&self.directory, place, next, mark)?;
        if !self.names.is_durable(place.first) {
            self.directory.sync()?;
            self.names.keep_durable();
        }
        self.open = Some(open);
        if let Some(tidying) = &mut self.tidying {
            tidying.come(place.first);
        }
        Ok(())
    }

    /// Removes the segments before the one with the line after those that are acknowledged, as far as they were read,
    /// if the funnel is tidied and some may have become removable since the last call. The name of the one that stays
    /// is durable, since it was opened.
    ///
    /// # Errors
    /// `Unremoved`; memory was refused.
    pub fn tidy(&mut self, acknowledged: Acknowledged) -> Result<(), FunnelFault> {
        let (Some(tidying), Some(open)) = (&mut self.tidying, &self.open) else {
            return Ok(());
        };
        let mark = acknowledged.number();
        if !tidying.is_due(mark) {
            return Ok(());
        }
        let segments = self.names.segments();
        let Some(place) = segments.place_of(mark) else {
            return Ok(());
        };
        let kept = place.first.min(open.position.segment());
        let done = segments.before(kept);
        self.directory.remove(segments, done, acknowledged)?;
        tidying.remove(segments.after(kept));
        self.names.remove_before(kept);
        Ok(())
    }
}
