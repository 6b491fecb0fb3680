//! What a crash leaves of an index at any moment: definitions and their laws.
#![tactic(auto)]

pub mod laws;
