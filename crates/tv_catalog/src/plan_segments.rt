//! What is to be done for the events that change which segments are live, or which of their documents.
ghost use Rattle.std.specs.Prelude.{◌≡◌, [], ◌∷◌, codes, IfErr, IfOk};
ghost use Rattle.std.specs.Fmt.{decimal};
ghost use Rattle.hex.specs.Hex.{encode_lower};
ghost use Rattle.tv_machine.specs.DeleteEvents.{delete_name};
ghost use Rattle.tv_events.specs.AnswerLines.{line};
ghost use Rattle.tv_events.specs.declared.event.Event.TheVariants as events;
ghost use Rattle.tv_catalog.specs.Kept.{kept_with};
ghost use Rattle.tv_catalog.specs.Plans.{Plans, PlanCause};

use crate::action::{Action, Change};
use crate::catalog::Catalog;
use crate::known::KnownFiles;
use crate::plan::{Planned, refusal};
use std::alloc::Global;
use tv_base::TantivyError;
use tv_formats::{FileName, LiveSegment, Memory, Opstamp, SegmentComponent, SegmentId};
use tv_machine::Answer;
use tv_snapshots::names::{file_of, names_of};

// The line of the deletes of a segment.
fn deletes_line(
    alloc: Global,
    id: SegmentId,
    num_deleted_docs: u32,
    opstamp: Opstamp,
) -> Result<Answer, Memory>
    ensures { IfOk result (λ answer. answer ≡ line (codes "deletes")
        (encode_lower id ∷ decimal num_deleted_docs ∷ decimal opstamp ∷ [])) }
{
    Answer::new(alloc, "deletes")?
        .id(id)?
        .number(u64::from(num_deleted_docs))?
        .number(opstamp)
}

// The name of a segment's delete file, alone.
fn former_name(alloc: Global, id: SegmentId, segment: LiveSegment) -> Result<Vec<FileName>, Memory>
    ensures { IfOk result (λ names. names.items ≡ delete_name id segment.deletes ∷ []) }
{
    let name = file_of(alloc, id, segment.deletes, SegmentComponent::Delete)?;
    let mut names = Vec::new(alloc);
    names.push(name)?;
    Ok(names)
}

// The line of a segment that is live no more.
fn released_line(alloc: Global) -> Result<Answer, Memory>
    ensures { IfOk result (λ answer. answer ≡ codes "released") }
{
    Answer::new(alloc, "released")
}

/// So many documents of a live segment are deleted, and an open file of its former deletes is left.
pub fn plan_deletes<'a, K: KnownFiles>(
    alloc: Global,
    catalog: &Catalog,
    files: &K,
    id: SegmentId,
    n: u32,
) -> Result<Planned<'a>, TantivyError>
    ensures plans { IfOk result
        (Plans (kept_with catalog.now (K.known files.now)) (events.Deletes id n)) }
    ensures cause { IfErr result
        (PlanCause (kept_with catalog.now (K.known files.now)) (events.Deletes id n)) }
{
    let Some(segment) = catalog.live_segment(id) else {
        let refused = refusal(alloc, "unknown-segment")?;
        return Ok(refused);
    };
    if segment.max_doc < n {
        let refused = refusal(alloc, "wrong-docs")?;
        return Ok(refused);
    }
    if catalog.next_opstamp() == Opstamp::MAX {
        let refused = refusal(alloc, "stamps-spent")?;
        return Ok(refused);
    }
    let deletes = Some(catalog.next_deletes(n));
    let name = file_of(alloc, id, deletes, SegmentComponent::Delete)?;
    if files.is_held(&name) {
        let refused = refusal(alloc, "leaving")?;
        return Ok(refused);
    }
    if catalog.is_name_in_use(files.managed(), id, &name)? {
        let refused = refusal(alloc, "name-in-use")?;
        return Ok(refused);
    }
    let names = former_name(alloc, id, segment)?;
    let answer = deletes_line(alloc, id, n, catalog.next_opstamp())?;
    Ok(Planned {
        action: Action::Leave(names),
        change: Change::Deletes(id, segment, n),
        line: answer.into_bytes(),
    })
}

/// A live segment is live no more, and its open files are left.
pub fn plan_release<'a, K: KnownFiles>(
    alloc: Global,
    catalog: &Catalog,
    files: &K,
    id: SegmentId,
) -> Result<Planned<'a>, TantivyError>
    ensures plans { IfOk result (Plans (kept_with catalog.now (K.known files.now))
        (events.ReleaseSegment id)) }
    ensures cause { IfErr result (PlanCause (kept_with catalog.now (K.known files.now))
        (events.ReleaseSegment id)) }
{
    let Some(segment) = catalog.live_segment(id) else {
        let refused = refusal(alloc, "unknown-segment")?;
        return Ok(refused);
    };
    let names = names_of(alloc, id, segment)?;
    let answer = released_line(alloc)?;
    Ok(Planned {
        action: Action::Leave(names),
        change: Change::Release(id),
        line: answer.into_bytes(),
    })
}

/// The index is opened again: open files are left, nobody reads, and no collection is unfinished.
pub fn plan_reopen<'a, K: KnownFiles>(
    alloc: Global,
    catalog: &Catalog,
    files: &K,
) -> Result<Planned<'a>, TantivyError>
    ensures plans { IfOk result (Plans (kept_with catalog.now (K.known files.now)) events.Reopen) }
    ensures cause { IfErr result (PlanCause (kept_with catalog.now (K.known files.now)) events.Reopen) }
{
    let segments = catalog.committed()?;
    let answer = catalog.commit().opening_line(alloc)?;
    Ok(Planned {
        action: Action::Reopen,
        change: Change::Reopen(segments),
        line: answer.into_bytes(),
    })
}
