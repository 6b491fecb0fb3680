//! Counts that stand at their end.
use thiserror::Error;

/// The number or the count would pass `u64::MAX`.
#[derive(Debug, Drop, Error)]
#[error("Exhausted")]
pub struct Exhausted;
