//! Whether two events, or two answers, are the same.
ghost use Rattle.std.specs.Prelude.{◌≡◌, ◌↔◌, ◌&&◌, IsTrue, None, Some};
ghost use Rattle.tv_histories.specs.Marks.{marks_of, bytes_of, ids_of};

use tv_events::{Answer, Event, ReloadPolicy};
use tv_formats::{SegmentComponent, SegmentId};

/// What there is to an event beside its bytes and its list of ids: of which kind it is, and what it names.
#[derive(Clone, Copy)]
pub struct Marks {
    pub kind: u8,
    pub id: Option<SegmentId>,
    pub component: Option<SegmentComponent>,
    pub policy: Option<ReloadPolicy>,
    pub number: u64,
    pub ord: u32,
}

// Marks of this kind alone.
fn kind(kind: u8) -> Marks
    ensures { result ≡ record {
      kind = kind;
      id = None;
      component = None;
      policy = None;
      number = 0;
      ord = 0;
    } }
{
    Marks {
        kind,
        id: None,
        component: None,
        policy: None,
        number: 0,
        ord: 0,
    }
}

// Marks of this kind with a number.
fn numbered(kind: u8, number: u64) -> Marks
    ensures { result ≡ record {
      kind = kind;
      id = None;
      component = None;
      policy = None;
      number = number;
      ord = 0;
    } }
{
    Marks {
        kind,
        id: None,
        component: None,
        policy: None,
        number,
        ord: 0,
    }
}

// Marks of this kind with a segment and a number.
fn of_segment(kind: u8, id: SegmentId, number: u64) -> Marks
    ensures { result ≡ record {
      kind = kind;
      id = Some id;
      component = None;
      policy = None;
      number = number;
      ord = 0;
    } }
{
    Marks {
        kind,
        id: Some(id),
        component: None,
        policy: None,
        number,
        ord: 0,
    }
}

// Marks of this kind with a file of a segment.
fn of_file(kind: u8, id: SegmentId, component: SegmentComponent) -> Marks
    ensures { result ≡ record {
      kind = kind;
      id = Some id;
      component = Some component;
      policy = None;
      number = 0;
      ord = 0;
    } }
{
    Marks {
        kind,
        id: Some(id),
        component: Some(component),
        policy: None,
        number: 0,
        ord: 0,
    }
}

// The marks of an event.
fn marks_of(event: &Event) -> Marks
    ensures { result ≡ marks_of event.now }
{
    match event {
        Event::Segment(id) => of_segment(0, *id, 0),
        Event::Open(id, component) => of_file(1, *id, *component),
        Event::Write(id, component, _) => of_file(2, *id, *component),
        Event::Seal(id, component) => of_file(3, *id, *component),
        Event::Docs(id, count) => of_segment(4, *id, u64::from(*count)),
        Event::Deletes(id, count) => of_segment(5, *id, u64::from(*count)),
        Event::Commit(None, _) => numbered(6, 0),
        Event::Commit(Some(_), _) => numbered(6, 1),
        Event::Gc => kind(7),
        Event::GcBegin => kind(8),
        Event::GcStep(number) => numbered(9, *number),
        Event::GcEnd(number) => numbered(10, *number),
        Event::Reader(policy) => Marks {
            policy: Some(*policy),
            ..kind(11)
        },
        Event::Reload(number) => numbered(12, *number),
        Event::ReloadLock(number) => numbered(13, *number),
        Event::ReloadOpen(number) => numbered(14, *number),
        Event::ReloadPublish(number) => numbered(15, *number),
        Event::Deliver => kind(16),
        Event::Searcher(number) => numbered(17, *number),
        Event::Show(number) => numbered(18, *number),
        Event::Bytes(number, ord, component) => Marks {
            component: Some(*component),
            ord: *ord,
            ..numbered(19, *number)
        },
        Event::ReleaseSegment(id) => of_segment(20, *id, 0),
        Event::ReleaseReader(number) => numbered(21, *number),
        Event::ReleaseSearcher(number) => numbered(22, *number),
        Event::Managed => kind(23),
        Event::Validate => kind(24),
        Event::Reopen => kind(25),
    }
}

// The bytes of an event: those that it writes, or those of its payload.
fn bytes_of(event: &Event) -> &[u8]
    ensures { result.now ≡ bytes_of event.now }
{
    match event {
        Event::Write(_, _, blob) => blob.as_slice(),
        Event::Commit(Some(text), _) => text.as_str().as_bytes(),
        _ => &[],
    }
}

// The ids that an event lists.
fn ids_of(event: &Event) -> &[SegmentId]
    ensures { result.now ≡ ids_of event.now }
{
    match event {
        Event::Commit(_, ids) => ids.as_slice(),
        _ => &[],
    }
}

// Whether the marks are the same.
fn same_marks(a: Marks, b: Marks) -> bool
    ensures { IsTrue result ↔ (a ≡ b) }
{
    a.kind == b.kind
        && a.id == b.id
        && a.component == b.component
        && a.policy == b.policy
        && a.number == b.number
        && a.ord == b.ord
}

// Whether the bytes are the same.
fn same_bytes(a: &[u8], b: &[u8]) -> bool
    ensures { IsTrue result ↔ (a.now ≡ b.now) }
{
    a == b
}

// Whether the ids are the same.
fn same_ids(a: &[SegmentId], b: &[SegmentId]) -> bool
    ensures { IsTrue result ↔ (a.now ≡ b.now) }
{
    a == b
}

// Whether all of it is so.
fn all_of(marks: bool, bytes: bool, ids: bool) -> bool
    ensures { result ≡ (marks && bytes && ids) }
{
    marks && bytes && ids
}

/// Whether two events are the same. Takes no memory.
pub fn same_event(a: &Event, b: &Event) -> bool
    ensures { IsTrue result ↔ (a.now ≡ b.now) }
{
    let marks = same_marks(marks_of(a), marks_of(b));
    let bytes = same_bytes(bytes_of(a), bytes_of(b));
    let ids = same_ids(ids_of(a), ids_of(b));
    all_of(marks, bytes, ids)
}

/// Whether two answers are the same. Takes no memory.
pub fn same_answer(a: &Answer, b: &Answer) -> bool
    ensures { IsTrue result ↔ (a.now ≡ b.now) }
{
    a.as_slice() == b.as_slice()
}
