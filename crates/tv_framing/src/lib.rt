//! How files are framed: their footers, files that are made of several fields' bodies, and reports of
//! how much space they take.
#![tactic(auto)]

mod address;
mod column_usage;
mod component_usage;
mod composite_file;
mod composite_write;
mod cursor;
mod entries;
mod faults;
mod field_usage;
mod footer;
mod footer_end;
mod footer_json;
mod footer_proxy;
pub mod laws;
mod per_field_usage;
mod ranges;
mod reports;
mod searcher_usage;
mod segment_usage;
mod starts;
mod store_usage;

pub use address::FileAddr;
pub use column_usage::ColumnSpaceUsage;
pub use component_usage::ComponentSpaceUsage;
pub use composite_file::CompositeFile;
pub use composite_write::CompositeWrite;
pub use field_usage::FieldUsage;
pub use footer::Footer;
pub use footer_proxy::FooterProxy;
pub use per_field_usage::{FieldUsages, PerFieldSpaceUsage};
pub use searcher_usage::SearcherSpaceUsage;
pub use segment_usage::SegmentSpaceUsage;
pub use store_usage::StoreSpaceUsage;
pub use tv_formats::SegmentComponent;
