// Where the line after a mark is.

/// Where the line after a mark is: in this segment, after `skipped` of its lines, or not yet written.
#[derive(Clone, Copy, Debug, PartialEq, Eq)]
pub struct SegmentPlace {
    /// The number of the segment's first line.
    pub first: u64,
    /// How many of the segment's lines are at or below the mark.
    pub skipped: u64,
}
