//! Segments of a register, chosen without a share of them.
ghost use Rattle.std.specs.Prelude.{◌≡◌, ◌++◌, IfOk, OnOk, map};
ghost use Rattle.std.specs.List.Sorted.{IsStrictlySortedBy};
ghost use Rattle.tv_formats.specs.Names.{byte_cmp, has};
ghost use Rattle.tv_registers.specs.Registers.{empty_in, entries_at, entries_in, living_in, metas_in, outside};

use crate::segment_entry::SegmentEntry;
use std::alloc::Global;
use std::collections::{BTreeMap, BTreeSet};
use tv_formats::{Memory, SegmentId};
use tv_metas::SegmentMeta;

/// Adds every segment.
pub(crate) fn choose_all<'a>(
    segments: &'a BTreeMap<SegmentId, SegmentEntry>,
    chosen: &mut Vec<&'a SegmentEntry>,
) -> Result<(), Memory>
    ensures { OnOk result (map (λ c. c.now) chosen.new.items
        ≡ map (λ c. c.now) chosen.old.items ++ entries_in segments.now.entries) }
{
    for (_, entry) in segments {
        chosen.push(entry)?;
    }
    Ok(())
}

/// The segments of these ids, in their order; ids without a segment are left out.
pub(crate) fn choose_ids<'a>(
    alloc: Global,
    segments: &'a BTreeMap<SegmentId, SegmentEntry>,
    ids: &[SegmentId],
) -> Result<Vec<&'a SegmentEntry>, Memory>
    ensures { IfOk result
        (λ chosen. map (λ c. c.now) chosen.items ≡ entries_at segments.now.entries ids.now) }
{
    let mut chosen = Vec::new(alloc);
    for id in ids {
        if let Some(entry) = segments.get(id) {
            chosen.push(entry)?;
        }
    }
    Ok(chosen)
}

/// What is known of every segment.
pub(crate) fn choose_metas(
    alloc: Global,
    segments: &BTreeMap<SegmentId, SegmentEntry>,
) -> Result<Vec<&SegmentMeta>, Memory>
    ensures { IfOk result
        (λ chosen. map (λ c. c.now) chosen.items ≡ metas_in segments.now.entries) }
{
    let mut chosen = Vec::new(alloc);
    for (_, entry) in segments {
        chosen.push(entry.meta())?;
    }
    Ok(chosen)
}

/// What is known of the segments whose ids aren't among these.
pub(crate) fn choose_others<'a>(
    alloc: Global,
    segments: &'a BTreeMap<SegmentId, SegmentEntry>,
    ids: &BTreeSet<SegmentId>,
) -> Result<Vec<&'a SegmentMeta>, Memory>
    ensures { IfOk result (λ chosen. map (λ c. c.now) chosen.items
        ≡ metas_in (outside ids.now.keys segments.now.entries)) }
{
    let mut chosen = Vec::new(alloc);
    for (id, entry) in segments {
        if !is_among(ids, id) {
            chosen.push(entry.meta())?;
        }
    }
    Ok(chosen)
}

// Whether an id is among these.
fn is_among(ids: &BTreeSet<SegmentId>, id: &SegmentId) -> bool
    ensures { result ≡ has ids.now.keys id.now }
{
    ids.contains(id)
}

/// What is known of the segments that have living documents.
pub(crate) fn choose_living(
    alloc: Global,
    segments: &BTreeMap<SegmentId, SegmentEntry>,
) -> Result<Vec<&SegmentMeta>, Memory>
    ensures { IfOk result
        (λ chosen. map (λ c. c.now) chosen.items ≡ metas_in (living_in segments.now.entries)) }
{
    let mut chosen = Vec::new(alloc);
    for (_, entry) in segments {
        if entry.meta().num_docs() > 0 {
            chosen.push(entry.meta())?;
        }
    }
    Ok(chosen)
}

/// The ids of the segments.
pub(crate) fn ids_of_all(
    alloc: Global,
    segments: &BTreeMap<SegmentId, SegmentEntry>,
) -> Result<Vec<SegmentId>, Memory>
    ensures ids { IfOk result (λ ids. ids.items ≡ map (λ e. e.0) segments.now.entries) }
    ensures ordered { IsStrictlySortedBy byte_cmp (map (λ e. e.0) segments.now.entries) }
{
    let mut ids = Vec::new(alloc);
    for (id, _) in segments {
        ids.push(*id)?;
    }
    Ok(ids)
}

/// The ids of the segments that have no living documents.
pub(crate) fn ids_of_empty(
    alloc: Global,
    segments: &BTreeMap<SegmentId, SegmentEntry>,
) -> Result<Vec<SegmentId>, Memory>
    ensures ids { IfOk result
        (λ ids. ids.items ≡ map (λ e. e.0) (empty_in segments.now.entries)) }
    ensures ordered { IsStrictlySortedBy byte_cmp (map (λ e. e.0) segments.now.entries) }
{
    let mut ids = Vec::new(alloc);
    for (id, entry) in segments {
        if entry.meta().num_docs() == 0 {
            ids.push(*id)?;
        }
    }
    Ok(ids)
}
