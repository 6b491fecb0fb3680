//! A store of which one event after the other is applied, as those see it who share it.
#![tactic(auto)]

mod ending;
mod event_store;

pub use ending::Ending;
pub use event_store::EventStore;
