// The funnel: its lines as they come, whatever kind of file it is.
use crate::fault::FunnelFault;
use crate::plain::PlainFunnel;
use crate::segment_directory::SegmentDirectory;
use crate::segmented::SegmentedFunnel;
use acknowledged_lines::Acknowledged;
use std::fs::{self, File};
use std::net::Net;
use std::rt::{Clock, Files};

/// What comes next in a funnel.
#[derive(Drop)]
pub enum Next {
    /// A line without its LF.
    Line(Vec<u8>),
    /// Nothing has come, and it has been waited for a tenth of a second in all since the last `Silence`.
    Silence,
    /// The funnel is at its end for now, and more may be added.
    Pause,
    /// The funnel has ended; a rest without LF is not a line.
    End,
}

/// A funnel, with the path by which it was opened.
#[derive(Drop)]
pub struct Funnel<'a, F> {
    path: Vec<u8>,
    lines: Lines<'a, F>,
}

#[derive(Drop)]
enum Lines<'a, F> {
    File(PlainFunnel),
    Directory(SegmentedFunnel<'a, F>),
}

impl<'a, F: AllocGlobal + Files<File = File>> Funnel<'a, F> {
    /// Opens the funnel at this path, after the line `mark`: a file, a pipe or the like, or a directory of segments.
    /// If it is followed, more may be added at its end. If it is tidied, [`Funnel::tidy`] removes segments.
    ///
    /// # Errors
    /// `NotADirectory` if it is to be tidied and is not a directory; `FewLines` if a file has fewer lines; for a
    /// directory, `NoSegment` if it has none and is not followed, and the errors of [`Funnel::next`]; the system's
    /// error.
    pub fn open<C: Net>(
        files: &'a F,
        net: &C,
        path: &str,
        mark: u64,
        is_followed: bool,
        is_tidied: bool,
    ) -> Result<Self, FunnelFault> {
        let alloc = files.alloc();
        let lines = if fs::metadata(files, path).is_ok_and(|there| there.is_dir()) {
            let directory = SegmentDirectory::new(files, path)?;
            Lines::Directory(SegmentedFunnel::open(directory, mark, is_followed, is_tidied)?)
        } else {
            let file = PlainFunnel::open(files, net, path, mark, is_followed)?;
            if is_tidied {
                return Err(FunnelFault::NotADirectory);
            }
            Lines::File(file)
        };
        Ok(Funnel {
            path: Vec::from_slice(alloc, path.as_bytes())?,
            lines,
        })
    }

    /// The path by which it was opened.
    pub fn path(&self) -> &[u8] {
        &self.path
    }

    /// What comes next. Nothing more may be read after an error.
    ///
    /// # Errors
    /// `Shortened` if a file that is followed has become shorter than what was read of it; for a directory `NoNumber`,
    /// `NoFile`, `Short`, `Shrunk`, `Misfit` and `Segment`; the system's error.
    pub fn next<R: Clock>(&mut self, rt: &R) -> Result<Next, FunnelFault> {
        match &mut self.lines {
            Lines::File(file) => file.next(rt),
            Lines::Directory(segments) => segments.next(rt),
        }
    }

    /// Removes those segments of a tidied directory whose lines are all acknowledged and were read, if some may have
    /// become removable since the last call. The last segment stays. A funnel that is a file is left as it is: nothing
    /// that it keeps can remove one.
    ///
    /// # Errors
    /// `Unremoved` if one cannot be removed; the system's error; `NoNumber`.
    pub fn tidy(&mut self, acknowledged: Acknowledged) -> Result<(), FunnelFault> {
        match &mut self.lines {
            Lines::File(_) => Ok(()),
            Lines::Directory(segments) => segments.tidy(acknowledged),
        }
    }
}
