//! When a reader follows the commits.

/// When a reader shows a new commit.
#[derive(Clone, Copy, Debug, PartialEq, Eq)]
pub enum ReloadPolicy {
    /// Where it is asked to reload.
    Manual,
    /// Where a commit is told to it.
    OnCommitWithDelay,
}
