// Where the lines of a feed come from.

/// Where the lines of a feed come from.
#[derive(Clone, Copy, Debug, PartialEq, Eq)]
pub enum Source<'a> {
    /// From nowhere: peers are fed from their backlogs only.
    Backlogs,
    /// From the funnel at this path, a file or a directory of segments.
    Funnel {
        path: &'a str,
        /// Whether what is added to the funnel is read too, until the run is asked to end.
        is_followed: bool,
        /// Whether segments whose lines are all acknowledged are removed.
        is_tidied: bool,
    },
}
