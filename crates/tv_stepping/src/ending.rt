//! How a store stands.

/// How a store stands: open, or ended by an error, which was want of memory or another one.
#[derive(Clone, Copy, PartialEq, Eq, Debug)]
pub enum Ending {
    /// The next event may be applied.
    Open,
    /// Memory was wanting.
    Memory,
    /// Something else was refused.
    Failed,
}
