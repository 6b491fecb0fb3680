//! The events of a script, and the lines that are told.
//!
//! The folder `specs` says which text is a line of which event, and how the words of an answer are spelled.
#![tactic(auto)]

mod answer;
mod blob;
mod event;
mod reload_policy;

pub use answer::Answer;
pub use blob::{Blob, IdList, Text};
pub use event::Event;
pub use reload_policy::ReloadPolicy;
