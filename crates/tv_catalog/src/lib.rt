//! What is known of an index beside its directory, and what is to be done for an event by that alone.
//!
//! The catalog is the live segments, the current commit and who reads, which are those of `tv_snapshots`;
//! an event that touches no file is one of its methods. Any other event is planned: its plan looks up
//! what is known of the files, makes the line, and says which action on the files is the event's step.
//! Nothing here asks a device.
#![tactic(auto)]

pub mod action;
mod answers;
pub mod catalog;
mod catalog_events;
mod chosen;
pub mod known;
pub mod lines;
pub mod plan;
mod plan_collections;
mod plan_commit;
mod plan_readers;
mod plan_reports;
mod plan_segments;
mod registers;
