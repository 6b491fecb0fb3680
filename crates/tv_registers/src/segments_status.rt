//! Which segments a merge takes.

/// Where the segments of a merge stand.
#[derive(Clone, Copy, Debug, PartialEq, Eq)]
pub enum SegmentsStatus {
    /// In the register of the last commit.
    Committed,
    /// In the register of those that aren't committed yet.
    Uncommitted,
}
