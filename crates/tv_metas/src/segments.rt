//! The segments in `meta.json`.
ghost use Rattle.std.specs.Prelude.{◌≡◌, [], IfOk, codes, map};
ghost use Rattle.serde_json.specs.Find.{as_array, get};
ghost use Rattle.serde_json.specs.View.{items_view, view};
ghost use Rattle.tv_formats.specs.JsonFields.{id_of};
ghost use Rattle.tv_formats.specs.Segments.{num_deleted};
ghost use Rattle.tv_metas.specs.MetaReading.{segments_at};
ghost use Rattle.tv_metas.specs.Reads.{Gives};
ghost use Rattle.tv_metas.specs.Segments.{delete_meta_of, entry_of, gathered, optional, segment_of};

use crate::fields::{u32_at, u64_at};
use crate::read_error::ReadError;
use crate::segment_meta::InnerSegmentMeta;
use serde_json::Value;
use std::alloc::Global;
use std::collections::BTreeMap;
use tv_formats::{DeleteMeta, LiveSegment, Memory, SegmentId};

// The id that a text spells.
fn id_of(tree: &Value) -> Option<SegmentId>
    ensures { result ≡ id_of (view tree.now) }
{
    SegmentId::from_uuid_string(tree.as_str()?).ok()
}

// The deletes that an object spells.
fn delete_meta_of(tree: &Value) -> Option<DeleteMeta>
    ensures { result ≡ delete_meta_of (view tree.now) }
{
    Some(DeleteMeta {
        num_deleted_docs: u32_at(tree, "num_deleted_docs")?,
        opstamp: u64_at(tree, "opstamp")?,
    })
}

// The deletes of a segment, which may be left out.
fn deletes_of(tree: &Value) -> Option<Option<DeleteMeta>>
    ensures { result ≡ optional delete_meta_of (get (codes "deletes") (view tree.now)) }
{
    match tree.get("deletes") {
        Some(value) => {
            if value.is_null() {
                Some(None)
            } else {
                Some(Some(delete_meta_of(value)?))
            }
        }
        None => Some(None),
    }
}

// How many documents are deleted.
fn num_deleted(deletes: Option<DeleteMeta>) -> u32
    ensures { result ≡ num_deleted deletes }
{
    match deletes {
        Some(meta) => meta.num_deleted_docs,
        None => 0,
    }
}

// The segment that an object spells.
fn segment_of(tree: &Value) -> Option<(SegmentId, LiveSegment)>
    ensures { result ≡ segment_of (view tree.now) }
{
    let id = id_of(tree.get("segment_id")?)?;
    let max_doc = u32_at(tree, "max_doc")?;
    let deletes = deletes_of(tree)?;
    if num_deleted(deletes) > max_doc {
        return None;
    }
    Some((id, LiveSegment { max_doc, deletes }))
}

// The segments of a list by their ids, none of which stands twice.
fn segments_in(alloc: Global, list: &[Value]) -> Result<BTreeMap<SegmentId, LiveSegment>, ReadError>
    ensures { Gives (λ found. found.entries) result (gathered [] (items_view list.now)) }
{
    let mut found = BTreeMap::new(alloc);
    for tree in list {
        let (id, segment) = segment_of(tree).ok_or(ReadError::Corrupt)?;
        if found.insert(id, segment)?.is_some() {
            return Err(ReadError::Corrupt);
        }
    }
    Ok(found)
}

/// Segments as `meta.json` has them, in the order of their ids.
pub fn metas_of(
    alloc: Global,
    found: &BTreeMap<SegmentId, LiveSegment>,
) -> Result<Vec<InnerSegmentMeta>, Memory>
    ensures { IfOk result (λ segments. map entry_of segments.items ≡ found.now.entries) }
{
    let mut segments = Vec::with_capacity(alloc, found.len())?;
    for (id, segment) in found {
        segments.push(InnerSegmentMeta {
            segment_id: *id,
            max_doc: segment.max_doc,
            deletes: segment.deletes,
        })?;
    }
    Ok(segments)
}

/// The ids of segments, in their order.
pub fn ids_of(alloc: Global, segments: &[InnerSegmentMeta]) -> Result<Vec<SegmentId>, Memory>
    ensures { IfOk result (λ ids. ids.items ≡ map (λ s. s.segment_id) segments.now) }
{
    let mut ids = Vec::with_capacity(alloc, segments.len())?;
    for segment in segments {
        ids.push(segment.segment_id)?;
    }
    Ok(ids)
}

/// The segments that `meta.json` holds, in the order of their ids.
pub(crate) fn segments_at(alloc: Global, tree: &Value) -> Result<Vec<InnerSegmentMeta>, ReadError>
    ensures { Gives (λ segments. map entry_of segments.items) result (segments_at (view tree.now)) }
{
    let value = tree.get("segments").ok_or(ReadError::Corrupt)?;
    let list = value.as_array().ok_or(ReadError::Corrupt)?;
    let found = segments_in(alloc, list.as_slice())?;
    Ok(metas_of(alloc, &found)?)
}
