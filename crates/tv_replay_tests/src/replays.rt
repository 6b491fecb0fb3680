//! The tally of a replay, and the script that is generated.
use crate::compare::are_bytes;
use crate::fixtures::{Shows, empty_bench, has_heard, replayed};
use std::alloc::Global;
use std::process::Abort;
use tv_replay::generate;

// Replays a script in this directory: how many events there were, and what was told.
fn assert_replay<R: Abort, O: Shows>(
    rt: &R,
    alloc: Global,
    outside: O,
    text: &str,
    (events, want): (u32, &str),
) {
    let (outside, found) = replayed(rt, alloc, outside, "[]", text);
    assert_eq!(rt; found, events, "at {text}");
    has_heard(rt, &outside, want);
}

// A script, how many events it has, and what is told of it.
const SCRIPTS: &[(&str, u32, &str)] = &[
    ("", 0, "open 0 0\n"),
    (
        "managed\ncommit -\n",
        2,
        "open 0 0\nmanaged meta.json\ncommit 1 0\n",
    ),
    // A refused event counts, and so does a line without a line feed.
    (
        "gc\nreload 0",
        2,
        "open 0 0\ngc deleted failed\nrefused unknown-reader\n",
    ),
];

#[test]
fn a_replay_counts_its_lines(rt: HostRuntime) {
    let a = rt.alloc();
    for (text, events, told) in SCRIPTS {
        assert_replay(&rt, a, empty_bench(&rt, a), text, (*events, told));
    }
}

// The script of two commits.
const TWO_COMMITS: &str = "segment 00000000000000000000000000000000
open 00000000000000000000000000000000 idx
write 00000000000000000000000000000000 idx 00
seal 00000000000000000000000000000000 idx
open 00000000000000000000000000000000 pos
write 00000000000000000000000000000000 pos 00
seal 00000000000000000000000000000000 pos
open 00000000000000000000000000000000 fast
write 00000000000000000000000000000000 fast 00
seal 00000000000000000000000000000000 fast
open 00000000000000000000000000000000 fieldnorm
write 00000000000000000000000000000000 fieldnorm 00
seal 00000000000000000000000000000000 fieldnorm
open 00000000000000000000000000000000 term
write 00000000000000000000000000000000 term 00
seal 00000000000000000000000000000000 term
open 00000000000000000000000000000000 store
write 00000000000000000000000000000000 store 00
seal 00000000000000000000000000000000 store
docs 00000000000000000000000000000000 1
commit - 00000000000000000000000000000000
gc
segment 00000000000000000000000000000001
open 00000000000000000000000000000001 idx
write 00000000000000000000000000000001 idx 01
seal 00000000000000000000000000000001 idx
open 00000000000000000000000000000001 pos
write 00000000000000000000000000000001 pos 01
seal 00000000000000000000000000000001 pos
open 00000000000000000000000000000001 fast
write 00000000000000000000000000000001 fast 01
seal 00000000000000000000000000000001 fast
open 00000000000000000000000000000001 fieldnorm
write 00000000000000000000000000000001 fieldnorm 01
seal 00000000000000000000000000000001 fieldnorm
open 00000000000000000000000000000001 term
write 00000000000000000000000000000001 term 01
seal 00000000000000000000000000000001 term
open 00000000000000000000000000000001 store
write 00000000000000000000000000000001 store 01
seal 00000000000000000000000000000001 store
docs 00000000000000000000000000000001 1
commit - 00000000000000000000000000000000 00000000000000000000000000000001
release segment 00000000000000000000000000000000
gc
";

const GENERATED: &[(u32, &str)] = &[(0, ""), (2, TWO_COMMITS)];

#[test]
fn a_script_is_generated(rt: HostRuntime) {
    for (n, want) in GENERATED {
        let script = generate(rt.alloc(), *n).expect(&rt, "memory");
        are_bytes(&rt, script.as_slice(), want.as_bytes());
    }
}
