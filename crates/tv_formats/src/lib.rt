//! The forms of what an index stores, and the data types that all crates share.
//!
//! The folder `specs` says what the contracts of the other crates mean below the machine of events: names, ids, checksums,
//! footers, the list of managed files, commits, and what a crash may leave of a directory.
#![tactic(auto)]

mod file_name;
mod id;
pub mod laws;
mod memory;
mod segment;

pub use file_name::{FileName, segment_file_name};
pub use id::{SegmentId, SegmentIdParseError};
pub use memory::Memory;
pub use segment::{DeleteMeta, LiveSegment, SegmentComponent};

/// The number of a commit, or of a delete. Later ones are larger.
pub type Opstamp = u64;

/// The file that has the current commit.
pub const META_FILEPATH: &str = "meta.json";

/// The file that lists the managed files.
pub const MANAGED_FILEPATH: &str = ".managed.json";
