//! A directory that lists the files that it manages before it makes them, and seals each with a footer.
#![tactic(auto)]

mod collecting;
mod collection;
pub mod laws;
mod list;
mod list_json;
mod managed_directory;
mod reading;
mod sharing;
mod telling;
mod writer;

pub use collection::{CollectStep, GarbageCollectionResult};
pub use managed_directory::{ManagedDirectory, Refused};
pub use writer::ManagedWriter;
