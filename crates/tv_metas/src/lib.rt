//! What a `meta.json` holds, read and printed: a commit, its settings and its schema. And segments of
//! commits, that an inventory keeps as long as they are shared.
#![tactic(auto)]

mod fields;
mod index_meta;
mod index_settings;
mod json_text;
pub mod laws;
mod meta_text;
pub mod naming;
mod printed;
mod printing;
mod read_error;
mod reading;
mod schema;
mod schema_tree;
mod segment_meta;
mod segments;
mod settings;
mod stripping;
mod tracked;
mod tracked_meta;
mod tracking;

pub use index_meta::UntrackedIndexMeta;
pub use index_settings::{Compressor, IndexSettings, Order};
pub use meta_text::print_meta;
pub use schema::Schema;
pub use segment_meta::InnerSegmentMeta;
pub use segments::{ids_of, metas_of};
pub use tracked::{SegmentMeta, SegmentMetaInventory};
pub use tracked_meta::IndexMeta;
pub use tracking::track_all;
pub use tv_formats::{DeleteMeta, SegmentId, SegmentIdParseError};
