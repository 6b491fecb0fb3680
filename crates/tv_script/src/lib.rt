//! Scripts as they are read: their lines, one at a time from a source, and the events that the lines are.
//!
//! The grammar is that of `tv_events`; here is what reads it, and what is read is exactly what it says.
#![tactic(auto)]

pub mod laws;
mod lines;
mod script;
mod script_buffer;
mod script_events;
mod words;

pub use lines::LineError;
pub use script::{parse_event, words_of};
pub use script_buffer::ScriptBuffer;
pub use script_events::{ScriptError, next_event};
pub use words::number_of;
