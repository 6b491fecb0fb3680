//! Commits with the names of their files, what a reader shows of one, and who reads.
//!
//! A snapshot is a commit with the bodies of its files, and is shared by the reader that shows it and the
//! searchers that it gave. Nothing here asks a device.
#![tactic(auto)]

pub mod commit;
pub mod names;
pub mod reader;
pub mod readers;
pub mod snapshot;
