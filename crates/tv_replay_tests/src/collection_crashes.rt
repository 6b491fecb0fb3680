//! Crashes while files are collected, and a commit is made in between: a commit that may stand then stands
//! whole, and each file that is still there is on the list.
//!
//! When each commit may stand is known from the moments of the lines that were told, as it is around other
//! commits.
use crate::crash_images::{Span, look_from, may_stand};
use crate::crash_runs::{COLLECTIONS, COMMIT, SEGMENT, behind, refused, told_at};

// Two files that no commit needs, one of which isn't sealed.
const GARBAGE: &str = "segment 00000000000000000000000000000001
open 00000000000000000000000000000001 idx
write 00000000000000000000000000000001 idx 00
seal 00000000000000000000000000000001 idx
open 00000000000000000000000000000001 pos
release segment 00000000000000000000000000000001
";

// They are collected in steps, between which the segment is committed again.
const BEGIN: &str = "gc-begin\ngc-step 0\n";

const END: &str = "gc-step 0\ngc-end 0\n";

// They are collected at once.
const AT_ONCE: &str = "gc\n";

// The same, once the commit alone needs the files of its segment.
const RELEASE: &str = "release segment a5c4dfcbdfe645089129e308e26d5523
gc
";

// The next commit has no segments, and the files of the one before are collected.
const COMMIT_NONE: &str = "commit -\n";

const SCRIPT: &[&str] = &[
    SEGMENT,
    COMMIT,
    GARBAGE,
    BEGIN,
    COMMIT,
    END,
    GARBAGE,
    RELEASE,
    COMMIT_NONE,
    AT_ONCE,
];

// The commits that are told behind these moments.
fn spans_of(first: u64, second: u64) -> [Span; 5] {
    [
        may_stand(0, 2, 2),
        may_stand(first.saturating_add(2), 2, 3),
        may_stand(first.saturating_add(3), 3, 3),
        may_stand(second.saturating_add(2), 3, 4),
        may_stand(second.saturating_add(3), 4, 4),
    ]
}

// Each time, the files that no commit needs take 13 calls: one for the id, four that make each file, one that
// writes, two that seal, and one for the release. The collection in steps has ten: a sync and a line; a
// delete and a line, twice; and a sync, the list, a sync and a line. Each commit has four. With the release
// come eight: its line, a sync, two deletes, a sync, the list, a sync and a line. The last collection has
// eleven, of which six delete. With the moment at which the first of them begins there are 64. At each there
// are thirteen choices.
#[test]
fn a_crash_in_a_collection_leaves_a_commit(rt: HostRuntime) {
    let a = rt.alloc();
    let bench = behind(&rt, a, SCRIPT);
    let committed = told_at(&rt, a, &[SEGMENT, COMMIT]);
    let first = told_at(&rt, a, &[SEGMENT, COMMIT, GARBAGE, BEGIN]);
    let before = [
        SEGMENT, COMMIT, GARBAGE, BEGIN, COMMIT, END, GARBAGE, RELEASE,
    ];
    let spans = spans_of(first, told_at(&rt, a, &before));
    let images = look_from(&rt, a, &bench, COLLECTIONS, &spans, committed);
    assert!(rt; images >= 832, "{images} images");
}

// The calls of the device are counted from 0 on. What comes before a collection has 84: eleven of an opening
// that makes an index, 52 of the segment and four of its commit; and of the files that no commit needs one
// for the id, five that make each of them, two that write, three that seal, and one for the release.
const BEFORE: u64 = 84;

// A collection, and with which call it is behind. At once it has eight: the lock, a sync, two deletes, a
// sync, the list, a sync and the line. In steps it has three, the lock, a sync and a line; two for each step;
// and four, a sync, the list, a sync and a line.
const COLLECTS: &[(&[&str], u64)] = &[
    (&[SEGMENT, COMMIT, GARBAGE, AT_ONCE], 92),
    (&[SEGMENT, COMMIT, GARBAGE, BEGIN, END], 95),
];

// Each of the 19 calls is refused alone. A delete that is refused leaves its file.
#[test]
fn where_a_call_of_a_collection_is_refused_the_commit_stands(rt: HostRuntime) {
    let a = rt.alloc();
    let mut images: u64 = 0;
    for (script, end) in COLLECTS {
        for call in BEFORE..*end {
            let bench = refused(&rt, a, script, call);
            assert!(rt; bench.faults() == 1 || bench.refusals() == 1, "call {call}");
            let spans = [may_stand(0, 2, 2)];
            let last = bench.moment();
            images = images.saturating_add(look_from(&rt, a, &bench, COLLECTIONS, &spans, last));
        }
    }
    assert!(rt; images >= 247, "{images} images");
}
