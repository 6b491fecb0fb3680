//! How much space one kind of file takes.

use crate::per_field_usage::PerFieldSpaceUsage;
use crate::store_usage::StoreSpaceUsage;
use tv_base::ByteCount;

/// The space that one kind of a segment's files takes.
#[derive(Drop)]
pub enum ComponentSpaceUsage {
    /// A file that is made of fields.
    PerField(PerFieldSpaceUsage),
    /// The stored documents.
    Store(StoreSpaceUsage),
    /// Any other file.
    Basic(ByteCount),
}
