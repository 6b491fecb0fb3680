//! Copies of events and of answers.
ghost use Rattle.std.specs.Prelude.{◌≡◌, IfOk};

use std::alloc::Global;
use tv_events::{Answer, Blob, Event, IdList, Text};
use tv_formats::Memory;

// A copy of some bytes.
fn share_blob(alloc: Global, blob: &Blob) -> Result<Blob, Memory>
    ensures { IfOk result (λ copy. copy ≡ blob.now) }
{
    Ok(Blob::new(Vec::from_slice(alloc, blob.as_slice())?))
}

// A copy of a payload.
fn share_payload(alloc: Global, payload: &Option<Text>) -> Result<Option<Text>, Memory>
    ensures { IfOk result (λ copy. copy ≡ payload.now) }
{
    let Some(text) = payload else {
        return Ok(None);
    };
    let copy = String::from_str(alloc, text.as_str())?;
    Ok(Some(Text::new(copy)))
}

// A copy of some ids.
fn share_ids(alloc: Global, ids: &IdList) -> Result<IdList, Memory>
    ensures { IfOk result (λ copy. copy ≡ ids.now) }
{
    let copy = Vec::from_slice(alloc, ids.as_slice())?;
    IdList::new(copy).ok_or(Memory)
}

/// A copy of an answer.
pub fn share_answer(alloc: Global, answer: &Answer) -> Result<Answer, Memory>
    ensures { IfOk result (λ copy. copy ≡ answer.now) }
{
    let bytes = Vec::from_slice(alloc, answer.as_slice())?;
    Ok(Answer::from_bytes(bytes))
}

/// A copy of an event.
pub fn share_event(alloc: Global, event: &Event) -> Result<Event, Memory>
    ensures { IfOk result (λ copy. copy ≡ event.now) }
{
    let copy = match event {
        Event::Segment(id) => Event::Segment(*id),
        Event::Open(id, component) => Event::Open(*id, *component),
        Event::Write(id, component, blob) => {
            Event::Write(*id, *component, share_blob(alloc, blob)?)
        }
        Event::Seal(id, component) => Event::Seal(*id, *component),
        Event::Docs(id, count) => Event::Docs(*id, *count),
        Event::Deletes(id, count) => Event::Deletes(*id, *count),
        Event::Commit(payload, ids) => {
            Event::Commit(share_payload(alloc, payload)?, share_ids(alloc, ids)?)
        }
        Event::Gc => Event::Gc,
        Event::GcBegin => Event::GcBegin,
        Event::GcStep(number) => Event::GcStep(*number),
        Event::GcEnd(number) => Event::GcEnd(*number),
        Event::Reader(policy) => Event::Reader(*policy),
        Event::Reload(number) => Event::Reload(*number),
        Event::ReloadLock(number) => Event::ReloadLock(*number),
        Event::ReloadOpen(number) => Event::ReloadOpen(*number),
        Event::ReloadPublish(number) => Event::ReloadPublish(*number),
        Event::Deliver => Event::Deliver,
        Event::Searcher(number) => Event::Searcher(*number),
        Event::Show(number) => Event::Show(*number),
        Event::Bytes(number, ord, component) => Event::Bytes(*number, *ord, *component),
        Event::ReleaseSegment(id) => Event::ReleaseSegment(*id),
        Event::ReleaseReader(number) => Event::ReleaseReader(*number),
        Event::ReleaseSearcher(number) => Event::ReleaseSearcher(*number),
        Event::Managed => Event::Managed,
        Event::Validate => Event::Validate,
        Event::Reopen => Event::Reopen,
    };
    Ok(copy)
}
