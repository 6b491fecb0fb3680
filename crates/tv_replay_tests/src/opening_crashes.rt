//! Crashes while an index is opened that stands: the commit that stood is never taken away.
use crate::crash_images::{SCHEMA, Span, look_from, may_stand};
use crate::crash_runs::{COMMIT, ONE_COMMIT, SEGMENT, behind, refused};
use crate::fixtures::{TestBench, replayed};
use std::alloc::Global;
use std::process::Abort;

// Opens the index of a directory, where these commits may stand before, and this one is found. An opening
// syncs the directory first, and from then on no other one may stand.
fn look_at_opening<R: Abort>(
    rt: &R,
    alloc: Global,
    before: TestBench,
    (oldest, newest, found): (usize, usize, usize),
) -> u64 {
    let mut before = before;
    before.fail_at(Vec::new(alloc));
    let begins = before.moment();
    let (opened, _events) = replayed(rt, alloc, before, SCHEMA, "");
    let spans = [
        may_stand(begins, oldest, newest),
        may_stand(begins.saturating_add(1), found, found),
    ];
    assert!(rt; begins < opened.moment(), "a line was told");
    look_from(rt, alloc, &opened, ONE_COMMIT, &spans, begins)
}

// The call that is refused in a run that makes an index, a segment and its commit; the commits that may stand
// then; and the one that an opening finds, which is what `meta.json` reads.
const STARTS: &[(u64, (usize, usize, usize))] = &[
    // The sync behind the first `meta.json`, and the opening line.
    (9, (0, 1, 1)),
    (10, (1, 1, 1)),
    // The sync of the commit before `meta.json`, which is then refused, the sync behind it, and the line.
    (63, (1, 1, 1)),
    (64, (1, 2, 1)),
    (65, (1, 2, 2)),
    (66, (2, 2, 2)),
    // Nothing is refused.
    (67, (2, 2, 2)),
];

// There are two moments at least in each opening, and eleven choices at each.
#[test]
fn a_crash_in_an_opening_leaves_the_commit_that_stood(rt: HostRuntime) {
    let a = rt.alloc();
    let mut images: u64 = 0;
    for (call, stands) in STARTS {
        let before = refused(&rt, a, &[SEGMENT, COMMIT], *call);
        images = images.saturating_add(look_at_opening(&rt, a, before, *stands));
    }
    assert!(rt; images >= 154, "{images} images");
}
