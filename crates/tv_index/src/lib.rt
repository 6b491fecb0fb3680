//! An index in a directory: how it is opened, made and saved, and its segments.
#![tactic(auto)]

mod folders;
mod index;
mod index_builder;
pub mod laws;
mod opening;
mod refusals;
mod saving;
mod segment;
mod segment_files;
mod tracking;
mod validating;

pub use index::Index;
pub use index_builder::IndexBuilder;
pub use opening::{check_openable, open_or_create};
pub use saving::{save_meta_text, save_metas};
pub use segment::Segment;
pub use tv_formats::{DeleteMeta, SegmentId, SegmentIdParseError};
pub use tv_metas::{
    Compressor, IndexMeta, IndexSettings, InnerSegmentMeta, Order, Schema, SegmentMeta,
    SegmentMetaInventory, UntrackedIndexMeta, metas_of, naming, print_meta,
};
