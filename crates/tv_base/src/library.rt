//! Which library this is.
ghost use Rattle.std.specs.Prelude.{◌≡◌, codes};
ghost use Rattle.tv_base.specs.Versions.{library_version};

use crate::versions::{INDEX_FORMAT_VERSION, Version};

/// The version of this library.
pub fn version() -> Version
    ensures version { result ≡ library_version }
{
    Version {
        major: 0,
        minor: 26,
        patch: 2,
        index_format_version: INDEX_FORMAT_VERSION,
    }
}

/// The version of this library, as a text.
pub fn version_string() -> &'static str
    ensures text { result.now ≡ codes "tantivy v0.26.2, index_format v7" }
{
    "tantivy v0.26.2, index_format v7"
}
