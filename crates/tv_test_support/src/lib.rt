//! What tests in several crates use: answers compared as text, and a runtime some of whose calls fail.
#![tactic(auto)]

mod answers;
mod failing;

pub use answers::{Bytes, done, reads, told, whole};
pub use failing::{
    Failing, Piece, Pieces, Plan, Plans, Said, Way, failing_by, full_from, has_said, no_plan,
    nothing_said, refused_at,
};
