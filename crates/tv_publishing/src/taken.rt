//! What a handle keeps of a snapshot.
use tv_formats::{Memory, Opstamp};
use tv_snapshots::snapshot::Snapshot;

/// What was read of a snapshot: its number at its reader, the number of the commit that it shows, and how
/// many segments this has, staying at `u32::MAX`.
#[derive(Clone, Copy, PartialEq, Eq, Debug)]
pub struct Seen {
    pub generation: u64,
    pub opstamp: Opstamp,
    pub segments: u32,
}

/// A snapshot that a handle found: which one of all it is, counted from 1, what there is to see, and one
/// more share of it, unless it has too many owners.
#[derive(Drop)]
pub struct Taken {
    pub number: u64,
    pub seen: Seen,
    pub kept: Result<Snapshot, Memory>,
}
