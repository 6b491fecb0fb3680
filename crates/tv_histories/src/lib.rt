//! The history of a store that several callers share, and the receipts that it gives them.
//!
//! An entry of a history is an event with its answer. A receipt says at which place its caller's event
//! stands. Receipts of several callers are merged into one list, and looked up in a history.
#![tactic(auto)]

mod comparing;
mod copying;
mod entry;
mod gathering;
mod interleaving;
pub mod laws;
mod marks;
mod merged;
mod shared_error;
mod telling;

pub use comparing::compare;
pub use copying::{share_answer, share_event};
pub use entry::{Entry, Receipt};
pub use gathering::gather;
pub use interleaving::{is_interleaving, merge_of};
pub use marks::{same_answer, same_event};
pub use merged::Merged;
pub use shared_error::SharedError;
pub use telling::publishes;
