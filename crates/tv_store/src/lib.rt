//! An index over a directory: its segments and their files, commits, collections, readers and
//! searchers.
//!
//! `IndexStore` applies one event after the other, and tells the line of each. It has two halves: the
//! catalog is what is known of the index beside its files, and the files are the directory with the
//! writers of open files.
#![tactic(auto)]

mod answers;
mod files;
mod files_collecting;
mod files_known;
mod index_store;
pub mod laws;
mod loading;
mod opening;
mod perform;

pub use index_store::IndexStore;
pub use tv_formats::{SegmentComponent, SegmentId};
pub use tv_machine::{Answer, Blob, Event, IdList, ReloadPolicy, Text};
