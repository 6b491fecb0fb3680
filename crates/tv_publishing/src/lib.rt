//! A list of published snapshots, which handles follow without a lock.
//!
//! One side publishes snapshots, one after the other; each handle reads the last one. All of them know a
//! first part of one list, and a handle's part only grows. Snapshots are shared, and their bodies aren't
//! copied.
#![tactic(auto)]

mod latest;
pub mod laws;
mod one_list;
mod publisher;
mod read_handle;
mod taken;

pub use publisher::Publisher;
pub use read_handle::ReadHandle;
pub use taken::Seen;
