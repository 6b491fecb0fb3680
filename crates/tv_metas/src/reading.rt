//! What the tree of `meta.json` holds.
ghost use Rattle.std.specs.Prelude.{◌≡◌, Some, IfOk, codes};
ghost use Rattle.serde_json.specs.Find.{as_str, get};
ghost use Rattle.serde_json.specs.View.{view};
ghost use Rattle.tv_metas.specs.MetaReading.{held_by, held_of};
ghost use Rattle.tv_metas.specs.Metas.{text_of};
ghost use Rattle.tv_metas.specs.Reads.{Gives};
ghost use Rattle.tv_metas.specs.SchemaReading.{names_of, texts};
ghost use Rattle.tv_metas.specs.Segments.{optional};

use crate::fields::u64_at;
use crate::index_settings::IndexSettings;
use crate::read_error::ReadError;
use crate::schema_tree::names_of;
use crate::segment_meta::InnerSegmentMeta;
use crate::segments::segments_at;
use crate::settings::settings_or_default;
use serde_json::Value;
use std::alloc::Global;
use tv_formats::Opstamp;

/// What `meta.json` holds, with the names of its schema's fields in place of the schema.
#[derive(Drop)]
pub(crate) struct Body {
    pub(crate) index_settings: IndexSettings,
    pub(crate) segments: Vec<InnerSegmentMeta>,
    pub(crate) names: Vec<String>,
    pub(crate) opstamp: Opstamp,
    pub(crate) payload: Option<String>,
}

// The payload, which may be left out.
fn payload_of(alloc: Global, tree: &Value) -> Result<Option<String>, ReadError>
    ensures { Gives text_of result (optional as_str (get (codes "payload") (view tree.now))) }
{
    match tree.get("payload") {
        Some(value) => {
            if value.is_null() {
                Ok(None)
            } else {
                let text = value.as_str().ok_or(ReadError::Corrupt)?;
                Ok(Some(String::from_str(alloc, text)?))
            }
        }
        None => Ok(None),
    }
}

/// What a tree holds, and the tree of its schema.
pub(crate) fn body_of(alloc: Global, tree: &Value) -> Result<(Body, &Value), ReadError>
    ensures body { Gives (λ found. held_by found.0 (view found.1.now)) result
        (held_of (view tree.now)) }
    ensures names { IfOk result (λ found.
        names_of (view found.1.now) ≡ Some (texts found.0.names)) }
{
    let index_settings = settings_or_default(tree).ok_or(ReadError::Corrupt)?;
    let segments = segments_at(alloc, tree)?;
    let schema = tree.get("schema").ok_or(ReadError::Corrupt)?;
    let names = names_of(alloc, schema)?;
    let opstamp = u64_at(tree, "opstamp").ok_or(ReadError::Corrupt)?;
    let payload = payload_of(alloc, tree)?;
    Ok((
        Body {
            index_settings,
            segments,
            names,
            opstamp,
            payload,
        },
        schema,
    ))
}
