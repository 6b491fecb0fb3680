//! The names of the files of segments.
ghost use Rattle.std.specs.Prelude.{◌≡◌, ◌++◌, ◌∷◌, List, ℕ, IfOk, OnOk, map, not, string_bytes, true};
ghost use Rattle.std.specs.List.{flat_map};
ghost use Rattle.tv_machine.specs.FileEvents.{lacks_deletes};
ghost use Rattle.tv_machine.specs.Index.{IsFileOf};
ghost use Rattle.tv_formats.specs.Segments.{segment_names, all_required, name_of, required_names};
ghost use Rattle.tv_formats.specs.Names.{has, is_plain, meta_name};

use std::alloc::Global;
use std::collections::{BTreeMap, BTreeSet};
use tv_base::META_FILEPATH;
use tv_formats::{
    DeleteMeta, FileName, LiveSegment, Memory, SegmentComponent, SegmentId, segment_file_name,
};
use tv_metas::naming::{push_name, push_names, set_of};

/// The name of a segment's file, which isn't that of the commit or of the list.
pub fn file_of(
    alloc: Global,
    id: SegmentId,
    deletes: Option<DeleteMeta>,
    component: SegmentComponent,
) -> Result<FileName, Memory>
    ensures name { IfOk result (λ name. name ≡ name_of id deletes component) }
    ensures plain { IfOk result (λ name. is_plain name ≡ true) }
    ensures file { IfOk result (λ name. IsFileOf name) }
{
    segment_file_name(alloc, id, deletes, component)
}

/// The names that a segment has, whether there are such files or not.
pub fn names_of(alloc: Global, id: SegmentId, segment: LiveSegment) -> Result<Vec<FileName>, Memory>
    ensures { IfOk result (λ names. names.items ≡ segment_names (id, segment)) }
{
    let mut names = Vec::new(alloc);
    push_names(alloc, &mut names, id, segment)?;
    Ok(names)
}

// Adds the names that some segments have.
fn push_all(
    alloc: Global,
    names: &mut Vec<FileName>,
    segments: &[(SegmentId, LiveSegment)],
) -> Result<(), Memory>
    ensures { OnOk result (names.new.items ≡ names.old.items
        ++ flat_map segment_names segments.now) }
{
    for entry in segments {
        let (id, segment) = *entry;
        push_names(alloc, names, id, segment)?;
    }
    Ok(())
}

/// The names that are needed: `meta.json`, and those of these segments.
pub fn needed_names(
    alloc: Global,
    committed: &[(SegmentId, LiveSegment)],
    live: &[(SegmentId, LiveSegment)],
) -> Result<BTreeSet<String>, Memory>
    ensures { IfOk result (λ set. (n : List ℕ) → has (map string_bytes set.keys) n
        ≡ has (meta_name ∷ flat_map segment_names (committed.now ++ live.now)) n) }
{
    let meta = String::from_str(alloc, META_FILEPATH)?;
    let mut names = Vec::new(alloc);
    names.push(FileName::new(meta))?;
    push_all(alloc, &mut names, committed)?;
    push_all(alloc, &mut names, live)?;
    set_of(alloc, names)
}

/// The names that these segments have, whether there are such files or not, as a set.
pub fn names_among(
    alloc: Global,
    segments: &[(SegmentId, LiveSegment)],
) -> Result<BTreeSet<String>, Memory>
    ensures { IfOk result (λ set. (n : List ℕ) → has (map string_bytes set.keys) n
        ≡ has (flat_map segment_names segments.now) n) }
{
    let mut names = Vec::new(alloc);
    push_all(alloc, &mut names, segments)?;
    set_of(alloc, names)
}

// Whether a segment has to have such a file sealed: each but the delete file where none is deleted.
fn is_required(segment: LiveSegment, component: SegmentComponent) -> bool
    ensures { result ≡ not (lacks_deletes segment component) }
{
    component != SegmentComponent::Delete || segment.has_deletes()
}

// Adds the names of the files that a segment has to have sealed.
fn push_required(
    alloc: Global,
    names: &mut Vec<FileName>,
    id: SegmentId,
    segment: LiveSegment,
) -> Result<(), Memory>
    ensures { OnOk result (names.new.items ≡ names.old.items ++ required_names id segment) }
{
    for component in SegmentComponent::iterator() {
        if is_required(segment, *component) {
            push_name(alloc, names, id, segment, *component)?;
        }
    }
    Ok(())
}

/// The names of the files that a segment has to have sealed, in their order.
pub fn required_of(
    alloc: Global,
    id: SegmentId,
    segment: LiveSegment,
) -> Result<Vec<FileName>, Memory>
    ensures { IfOk result (λ names. names.items ≡ required_names id segment) }
{
    let mut names = Vec::new(alloc);
    push_required(alloc, &mut names, id, segment)?;
    Ok(names)
}

/// The names of the files that these segments have to have sealed, in their order.
pub fn required_files(
    alloc: Global,
    segments: &BTreeMap<SegmentId, LiveSegment>,
) -> Result<Vec<FileName>, Memory>
    ensures { IfOk result (λ names. names.items ≡ all_required segments.now.entries) }
{
    let mut names = Vec::new(alloc);
    for (id, segment) in segments {
        push_required(alloc, &mut names, *id, *segment)?;
    }
    Ok(names)
}
