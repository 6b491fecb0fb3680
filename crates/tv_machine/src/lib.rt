//! The machine of events: what an index does, told line by line.
//!
//! The folder `specs` says what each event tells and leaves, and what runs of them come to. The types of events and of
//! the lines that are told are those of `tv_events`.
#![tactic(auto)]

pub mod laws;

pub use tv_events::{Answer, Blob, Event, IdList, ReloadPolicy, Text};
