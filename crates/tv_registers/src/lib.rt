//! The segments that a writer knows, in two registers: those of the last commit, and those that
//! aren't committed yet. Merges take some of them and put one in their place.
#![tactic(auto)]

mod bit_set;
mod choosing;
mod delete_cursor;
pub mod laws;
mod merge_operation;
mod replacing;
mod segment_entry;
mod segment_manager;
mod segment_register;
mod segments_status;
mod sharing;

pub use bit_set::BitSet;
pub use delete_cursor::DeleteCursor;
pub use merge_operation::{MergeOperation, MergeOperationInventory};
pub use segment_entry::SegmentEntry;
pub use segment_manager::SegmentManager;
pub use segment_register::SegmentRegister;
pub use segments_status::SegmentsStatus;
