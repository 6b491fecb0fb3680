//! How much space the files of an index take, field by field: a report of its commit in lines.
#![tactic(auto)]

pub mod laws;
mod measuring;
mod printing;
mod reporting;
mod segment_report;

pub use measuring::{Measured, measure};
pub use reporting::space_report;
