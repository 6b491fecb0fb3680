//! A store that several threads share under one lock, and handles that show what it publishes without it.
//!
//! Under the lock stand the store, the history of its events with their answers, and the side that
//! publishes what the first reader shows. Of what stands there when the lock is taken a contract knows only
//! what always holds: the history is a run of the machine, the store holds the state that it comes to, and
//! what is published is what it shows. Each caller gets receipts, and compares them when the store is
//! closed.
#![tactic(auto)]

mod begun;
mod closed;
pub mod laws;
mod locked;
mod opening;
mod racing;
mod shared_store;

pub use begun::Begun;
pub use closed::Closed;
pub use locked::Locked;
pub use opening::Opening;
pub use racing::{Gate, NoGate, RacedStore, race_gated};
pub use shared_store::{NotShared, SharedStore};
