//! Places among deletes.

/// Which of the deletes that a writer got are applied to a segment: as many of the first ones as
/// its field says.
#[derive(Clone, Copy, Debug, PartialEq, Eq)]
pub struct DeleteCursor(pub u64);
