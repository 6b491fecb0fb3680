//! What is to be done for an event, by what is known without asking the device.
ghost use Rattle.std.specs.Prelude.{◌≡◌, ◌≤◌, ◌∷◌, [], codes, None, true, vec_capacity, IfOk, IfErr};
ghost use Rattle.std.specs.Fmt.{decimal};
ghost use Rattle.tv_formats.specs.Files.{has_no_feed};
ghost use Rattle.tv_machine.specs.FileEvents.{lacks_deletes};
ghost use Rattle.tv_events.specs.AnswerLines.{line};
ghost use Rattle.tv_machine.specs.Machine.{catalog_step};
ghost use Rattle.tv_events.specs.declared.event.Event.TheVariants as events;
ghost use Rattle.tv_catalog.specs.Kept.{kept_with};
ghost use Rattle.tv_catalog.specs.Plans.{Plans, PlanCause};
ghost use Rattle.tv_catalog.specs.declared.action.Action.TheVariants as actions;
ghost use Rattle.tv_catalog.specs.declared.action.Change.TheVariants as changes;

use crate::action::{Action, Change};
use crate::answers::refused;
use crate::catalog::Catalog;
use crate::known::KnownFiles;
use crate::plan_collections::{plan_gc, plan_gc_begin, plan_gc_end, plan_gc_step};
use crate::plan_commit::plan_commit;
use crate::plan_readers::{
    plan_deliver, plan_reader, plan_release_reader, plan_reload, plan_reload_lock, plan_reload_open,
};
use crate::plan_reports::plan_validate;
use crate::plan_segments::{plan_deletes, plan_release, plan_reopen};
use std::alloc::Global;
use tv_base::TantivyError;
use tv_formats::{FileName, LiveSegment, Memory, SegmentComponent, SegmentId};
use tv_machine::{Answer, Blob, Event};
use tv_snapshots::names::file_of;

// How long the line of a taken name is.
const TAKEN_LEN: usize = 14;

/// What is to be done for an event: the action, and the line of it that is told if it is done, in a vector that has
/// room for any other.
#[derive(Drop)]
pub struct Planned<'a> {
    pub action: Action<'a>,
    pub change: Change,
    pub line: Vec<u8>,
}

/// A line in a vector that has room for this many bytes.
pub(crate) fn with_room(answer: Answer, len: usize) -> Result<Vec<u8>, Memory>
    ensures line { IfOk result (λ line. line.items ≡ answer) }
    ensures feed { IfOk result (λ line. has_no_feed line.items ≡ true) }
    ensures room { IfOk result (λ line. len ≤ vec_capacity line) }
{
    let mut line = answer.into_bytes();
    line.reserve(len.saturating_sub(line.len()))?;
    Ok(line)
}

/// What refuses an event: nothing is done.
pub fn refusal<'a>(alloc: Global, word: &str) -> Result<Planned<'a>, Memory>
    requires { has_no_feed word.now ≡ true }
    ensures action { IfOk result (λ p. p.action ≡ actions.Nothing) }
    ensures change { IfOk result (λ p. p.change ≡ changes.Nothing) }
    ensures line { IfOk result (λ p. p.line.items ≡ line (codes "refused") (word.now ∷ [])) }
    ensures feed { IfOk result (λ p. has_no_feed p.line.items ≡ true) }
{
    let answer = refused(alloc, word)?;
    Ok(Planned {
        action: Action::Nothing,
        change: Change::Nothing,
        line: answer.into_bytes(),
    })
}

// Whether it is the delete file of a segment without deletes: there is none to write.
fn lacks_deletes(segment: LiveSegment, component: SegmentComponent) -> bool
    ensures { result ≡ lacks_deletes segment component }
{
    component == SegmentComponent::Delete && !segment.has_deletes()
}

// The line of a new open file.
fn opened_line(alloc: Global, name: &FileName) -> Result<Answer, Memory>
    ensures { IfOk result (λ answer. answer ≡ line (codes "opened") (name.now ∷ [])) }
{
    Answer::new(alloc, "opened")?.name(name)
}

// The line of a file that has this many bytes, after this word.
fn sized_line(alloc: Global, word: &str, name: &FileName, len: u64) -> Result<Answer, Memory>
    requires { has_no_feed word.now ≡ true }
    ensures { IfOk result (λ answer. answer ≡ line word.now (name.now ∷ decimal len ∷ [])) }
{
    Answer::new(alloc, word)?.name(name)?.number(len)
}

// A new open file.
fn plan_open<'a, K: KnownFiles>(
    alloc: Global,
    catalog: &Catalog,
    files: &K,
    id: SegmentId,
    component: SegmentComponent,
) -> Result<Planned<'a>, TantivyError>
    ensures plans { IfOk result (Plans (kept_with catalog.now (K.known files.now))
        (events.Open id component)) }
    ensures cause { IfErr result (PlanCause (kept_with catalog.now (K.known files.now))
        (events.Open id component)) }
{
    let Some(segment) = catalog.live_segment(id) else {
        let refused = refusal(alloc, "unknown-segment")?;
        return Ok(refused);
    };
    if lacks_deletes(segment, component) {
        let refused = refusal(alloc, "no-deletes")?;
        return Ok(refused);
    }
    let name = file_of(alloc, id, segment.deletes, component)?;
    let answer = opened_line(alloc, &name)?;
    let line = with_room(answer, TAKEN_LEN)?;
    Ok(Planned {
        action: Action::Make(name),
        change: Change::Nothing,
        line,
    })
}

// More bytes of an open file.
fn plan_write<'a, K: KnownFiles>(
    alloc: Global,
    catalog: &Catalog,
    files: &K,
    id: SegmentId,
    component: SegmentComponent,
    bytes: &'a Blob,
) -> Result<Planned<'a>, TantivyError>
    ensures plans { IfOk result (Plans (kept_with catalog.now (K.known files.now))
        (events.Write id component bytes.now)) }
    ensures cause { IfErr result (PlanCause (kept_with catalog.now (K.known files.now))
        (events.Write id component bytes.now)) }
{
    let Some(segment) = catalog.live_segment(id) else {
        let refused = refusal(alloc, "unknown-segment")?;
        return Ok(refused);
    };
    let name = file_of(alloc, id, segment.deletes, component)?;
    let Some(len) = files.body_len(&name) else {
        let refused = refusal(alloc, "not-open")?;
        return Ok(refused);
    };
    let Some(len) = len.checked_add(bytes.as_slice().len() as u64) else {
        return Err(TantivyError::Exhausted);
    };
    let answer = sized_line(alloc, "wrote", &name, len)?;
    Ok(Planned {
        action: Action::Append(name, bytes),
        change: Change::Nothing,
        line: answer.into_bytes(),
    })
}

// An open file is sealed.
fn plan_seal<'a, K: KnownFiles>(
    alloc: Global,
    catalog: &Catalog,
    files: &K,
    id: SegmentId,
    component: SegmentComponent,
) -> Result<Planned<'a>, TantivyError>
    ensures plans { IfOk result (Plans (kept_with catalog.now (K.known files.now))
        (events.Seal id component)) }
    ensures cause { IfErr result (PlanCause (kept_with catalog.now (K.known files.now))
        (events.Seal id component)) }
{
    let Some(segment) = catalog.live_segment(id) else {
        let refused = refusal(alloc, "unknown-segment")?;
        return Ok(refused);
    };
    let name = file_of(alloc, id, segment.deletes, component)?;
    let Some(len) = files.body_len(&name) else {
        let refused = refusal(alloc, "not-open")?;
        return Ok(refused);
    };
    let answer = sized_line(alloc, "sealed", &name, len)?;
    Ok(Planned {
        action: Action::Seal(name),
        change: Change::Nothing,
        line: answer.into_bytes(),
    })
}

/// What is to be done for an event that isn't one of the catalog alone.
pub fn plan<'a, K: KnownFiles>(
    alloc: Global,
    catalog: &Catalog,
    files: &K,
    event: &'a Event,
) -> Result<Planned<'a>, TantivyError>
    requires { catalog_step catalog.now (K.known files.now).managed event.now ≡ None }
    ensures plans { IfOk result (Plans (kept_with catalog.now (K.known files.now)) event.now) }
    ensures cause { IfErr result (PlanCause (kept_with catalog.now (K.known files.now)) event.now) }
{
    match event {
        Event::Open(id, component) => plan_open(alloc, catalog, files, *id, *component),
        Event::Write(id, component, bytes) => {
            plan_write(alloc, catalog, files, *id, *component, bytes)
        }
        Event::Seal(id, component) => plan_seal(alloc, catalog, files, *id, *component),
        Event::Deletes(id, n) => plan_deletes(alloc, catalog, files, *id, *n),
        Event::Commit(payload, ids) => plan_commit(alloc, catalog, files, payload, ids),
        Event::Gc => plan_gc(alloc, catalog, files),
        Event::GcBegin => plan_gc_begin(alloc, catalog, files),
        Event::GcStep(number) => plan_gc_step(alloc, catalog, files, *number),
        Event::GcEnd(number) => plan_gc_end(alloc, catalog, files, *number),
        Event::Reader(policy) => plan_reader(alloc, catalog, files, *policy),
        Event::Reload(number) => plan_reload(alloc, catalog, files, *number),
        Event::ReloadLock(number) => plan_reload_lock(alloc, catalog, files, *number),
        Event::ReloadOpen(number) => plan_reload_open(alloc, catalog, files, *number),
        Event::Deliver => plan_deliver(alloc, catalog, files),
        Event::ReleaseReader(number) => plan_release_reader(alloc, catalog, files, *number),
        Event::ReleaseSegment(id) => plan_release(alloc, catalog, files, *id),
        Event::Validate => plan_validate(alloc, catalog, files),
        Event::Reopen => plan_reopen(alloc, catalog, files),
        _ => unreachable!(),
    }
}
