//! Crashes around commits: the one before stands or the new one, whole, and the new one from the sync on that
//! settles it.
//!
//! When each may stand is known from the moments of the lines that were told. A line is the last recorded
//! call of its event, and a commit has three before it: a sync, the write of `meta.json`, and a sync. That
//! these are the calls is seen where one of them is refused: how many were recorded then tells which one it
//! was.
use crate::compare::is_number;
use crate::crash_images::{Span, look_from, may_stand, span_at};
use crate::crash_runs::{COMMIT, DELETES, ONE_COMMIT, SEGMENT, behind, refused, told_at};

// The recorded calls of a commit.
const COMMIT_CALLS: u64 = 4;

// No index stands until one is made. Its opening line is told by the fifth call: those before it are the
// list, a sync, `meta.json`, and a sync. The segment is committed behind this moment.
fn spans_of(begins: u64) -> [Span; 5] {
    [
        may_stand(0, 0, 0),
        may_stand(3, 0, 1),
        may_stand(4, 1, 1),
        may_stand(begins.saturating_add(2), 1, 2),
        may_stand(begins.saturating_add(3), 2, 2),
    ]
}

// Five calls of the opening and one of the segment, four that make each of the six files and at least two
// that seal it, one that writes, one of the documents and four of the commit: there are 49 moments or more.
// At each there are eleven choices: three of all files, and eight of one file alone.
#[test]
fn a_crash_leaves_the_commit_before_or_the_new_one(rt: HostRuntime) {
    let a = rt.alloc();
    let begins = told_at(&rt, a, &[SEGMENT]);
    let bench = behind(&rt, a, &[SEGMENT, COMMIT]);
    is_number(&rt, told_at(&rt, a, &[]), 5);
    is_number(&rt, bench.moment(), begins.saturating_add(COMMIT_CALLS));
    let images = look_from(&rt, a, &bench, ONE_COMMIT, &spans_of(begins), 0);
    assert!(rt; images >= 539, "{images} images");
}

// How many calls of the device there are. An opening that makes an index has eleven, of which the last three
// are `meta.json`, a sync and the line. The segment has 52: one for its id, and for its documents; five that
// make each of the six files and three that seal it; and two that write. The last four are those of the
// commit.
const CALLS: u64 = 67;

// The call of the commit that is refused, by its number from 0 on, and how many are recorded by then: of
// those that are refused, the write of `meta.json` alone.
const RECORDED: &[(u64, u64)] = &[(63, 0), (64, 2), (65, 2), (66, 3), (67, 4)];

#[test]
fn a_commit_is_a_sync_and_a_write_and_a_sync_and_a_line(rt: HostRuntime) {
    let a = rt.alloc();
    let begins = told_at(&rt, a, &[SEGMENT]);
    for (call, recorded) in RECORDED {
        let bench = refused(&rt, a, &[SEGMENT, COMMIT], *call);
        assert!(rt; (bench.faults() == 0) == (*call == CALLS), "call {call}");
        is_number(&rt, bench.moment(), begins.saturating_add(*recorded));
    }
}

// What may stand where a call from this number on is refused, and the run stops there.
fn stopped_spans() -> [Span; 5] {
    [
        may_stand(0, 0, 0),
        may_stand(8, 0, 1),
        may_stand(10, 1, 1),
        may_stand(64, 1, 2),
        may_stand(66, 2, 2),
    ]
}

// Eleven choices for each call.
#[test]
fn where_a_call_is_refused_the_commit_before_stands_or_the_new_one(rt: HostRuntime) {
    let a = rt.alloc();
    let mut images: u64 = 0;
    for call in 0..CALLS {
        let bench = refused(&rt, a, &[SEGMENT, COMMIT], call);
        is_number(&rt, bench.faults(), 1);
        let may = span_at(&rt, &stopped_spans(), call);
        let spans = [may_stand(0, may.oldest, may.newest)];
        let last = bench.moment();
        images = images.saturating_add(look_from(&rt, a, &bench, ONE_COMMIT, &spans, last));
    }
    assert!(rt; images >= 737, "{images} images");
}

// A document is deleted, and the file of deletes is sealed.
const DELETE: &str = "deletes a5c4dfcbdfe645089129e308e26d5523 1
open a5c4dfcbdfe645089129e308e26d5523 del
write a5c4dfcbdfe645089129e308e26d5523 del 313233343536373839
seal a5c4dfcbdfe645089129e308e26d5523 del
";

// One more is deleted, and the file of deletes is another one. A collection finds nothing: that of the commit
// lives.
const DELETE_MORE: &str = "deletes a5c4dfcbdfe645089129e308e26d5523 2
open a5c4dfcbdfe645089129e308e26d5523 del
seal a5c4dfcbdfe645089129e308e26d5523 del
gc
";

// The file of the first deletes is collected.
const COLLECT: &str = "gc\n";

// The segment is committed with deletes behind the first moment, and with more of them behind the second one.
fn delete_spans(first: u64, second: u64) -> [Span; 5] {
    [
        may_stand(0, 2, 2),
        may_stand(first.saturating_add(2), 2, 3),
        may_stand(first.saturating_add(3), 3, 3),
        may_stand(second.saturating_add(2), 3, 4),
        may_stand(second.saturating_add(3), 4, 4),
    ]
}

// The first deletes have eight calls: one of their own, four that make the file, one that writes, and two
// that seal. Each commit has four. The other deletes have one less, and there is the line of a collection.
// The last collection has six: a sync, the delete, a sync, the list, a sync and the line. With the moment at
// which the first of them begins there are 31, or more. At each there are thirteen choices.
#[test]
fn a_crash_leaves_the_deletes_before_or_the_new_ones(rt: HostRuntime) {
    let a = rt.alloc();
    let committed = told_at(&rt, a, &[SEGMENT, COMMIT]);
    let first = told_at(&rt, a, &[SEGMENT, COMMIT, DELETE]);
    let told = told_at(&rt, a, &[SEGMENT, COMMIT, DELETE, COMMIT]);
    let second = told_at(&rt, a, &[SEGMENT, COMMIT, DELETE, COMMIT, DELETE_MORE]);
    let script = [
        SEGMENT,
        COMMIT,
        DELETE,
        COMMIT,
        DELETE_MORE,
        COMMIT,
        COLLECT,
    ];
    let bench = behind(&rt, a, &script);
    is_number(&rt, told, first.saturating_add(COMMIT_CALLS));
    let spans = delete_spans(first, second);
    let images = look_from(&rt, a, &bench, DELETES, &spans, committed);
    assert!(rt; images >= 403, "{images} images");
}
