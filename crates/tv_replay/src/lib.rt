//! Scripts replayed over a directory: their replay over an index, and the program's top call.
#![tactic(auto)]

mod bench_place;
mod command;
mod error_line;
mod folder_place;
mod generating;
pub mod laws;
mod place;
mod program;
mod replaying;
mod saying;
mod space;
mod summary;

pub use bench_place::BenchPlace;
pub use folder_place::FolderPlace;
pub use generating::generate;
pub use place::Place;
pub use program::run;
pub use replaying::{Replayed, Tally, replay};
pub use tv_formats::{SegmentComponent, SegmentId};
pub use tv_machine::{Answer, Blob, Event, IdList, ReloadPolicy, Text};
pub use tv_script::parse_event;
pub use tv_store::IndexStore;
