//! The settings in `meta.json`.
ghost use Rattle.std.specs.Prelude.{◌≡◌, codes};
ghost use Rattle.serde_json.specs.Find.{get};
ghost use Rattle.serde_json.specs.View.{view};
ghost use Rattle.tv_metas.specs.MetaReading.{compressor_of, compressor_or, index_settings_of, index_settings_or};

use crate::fields::{bool_or, u64_or};
use crate::index_settings::{Compressor, IndexSettings};
use serde_json::Value;

// The compressor of this name.
fn compressor_of(tree: &Value) -> Option<Compressor>
    ensures { result ≡ compressor_of (view tree.now) }
{
    if tree.as_str()? == "none" {
        Some(Compressor::None)
    } else {
        None
    }
}

// The compressor of some settings.
fn compressor_or_none(tree: &Value) -> Option<Compressor>
    ensures { result ≡ compressor_or (view tree.now) }
{
    match tree.get("docstore_compression") {
        Some(value) => compressor_of(value),
        None => Some(Compressor::None),
    }
}

// The settings that an object spells.
fn settings_of(tree: &Value) -> Option<IndexSettings>
    ensures { result ≡ index_settings_of (view tree.now) }
{
    tree.as_object()?;
    Some(IndexSettings {
        docstore_compression: compressor_or_none(tree)?,
        docstore_compress_dedicated_thread: bool_or(
            tree,
            "docstore_compress_dedicated_thread",
            true,
        )?,
        docstore_blocksize: u64_or(tree, "docstore_blocksize", 16384)?,
    })
}

/// The settings that `meta.json` holds; the defaults where it has none.
pub(crate) fn settings_or_default(tree: &Value) -> Option<IndexSettings>
    ensures { result ≡ index_settings_or (get (codes "index_settings") (view tree.now)) }
{
    match tree.get("index_settings") {
        Some(value) => settings_of(value),
        None => Some(IndexSettings::new()),
    }
}
