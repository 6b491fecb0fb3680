//! What crashes leave of an index: each image is a sound start again, with a commit that may stand then.
use crate::fixtures::{Shows, TestBench, empty_bench, replayed};
use std::alloc::Global;
use std::process::Abort;
use tv_directory::Directory;
use tv_managed::ManagedDirectory;
use tv_replay::IndexStore;

// A script, cut at its two commits. Documents are deleted before and after the index is opened again, and a
// collection in steps takes the delete file in between.
const PARTS: &[&str] = &[
    "segment a5c4dfcbdfe645089129e308e26d5523
open a5c4dfcbdfe645089129e308e26d5523 idx
write a5c4dfcbdfe645089129e308e26d5523 idx 313233343536373839
seal a5c4dfcbdfe645089129e308e26d5523 idx
open a5c4dfcbdfe645089129e308e26d5523 pos
seal a5c4dfcbdfe645089129e308e26d5523 pos
open a5c4dfcbdfe645089129e308e26d5523 term
seal a5c4dfcbdfe645089129e308e26d5523 term
open a5c4dfcbdfe645089129e308e26d5523 store
seal a5c4dfcbdfe645089129e308e26d5523 store
open a5c4dfcbdfe645089129e308e26d5523 fast
seal a5c4dfcbdfe645089129e308e26d5523 fast
open a5c4dfcbdfe645089129e308e26d5523 fieldnorm
seal a5c4dfcbdfe645089129e308e26d5523 fieldnorm
docs a5c4dfcbdfe645089129e308e26d5523 3
",
    "commit - a5c4dfcbdfe645089129e308e26d5523
",
    "deletes a5c4dfcbdfe645089129e308e26d5523 1
open a5c4dfcbdfe645089129e308e26d5523 del
seal a5c4dfcbdfe645089129e308e26d5523 del
reopen
deletes a5c4dfcbdfe645089129e308e26d5523 1
gc-begin
deletes a5c4dfcbdfe645089129e308e26d5523 1
gc-step 0
gc-end 0
deletes a5c4dfcbdfe645089129e308e26d5523 1
commit - a5c4dfcbdfe645089129e308e26d5523
open a5c4dfcbdfe645089129e308e26d5523 del
seal a5c4dfcbdfe645089129e308e26d5523 del
",
    "commit - a5c4dfcbdfe645089129e308e26d5523
",
];

// What is told at an opening over an index: without a commit or with the first one, with the one of the
// segment, and with the one of the deletes, which have the number 2. The commit in between, whose delete
// file is gone, is refused.
const OPENINGS: &[&str] = &["open 0 0\n", "open 1 1\n", "open 3 1\n"];

// All files that there are at some time, the list apart, which comes before them in the order of names.
const NAMES: &[&str] = &[
    "a5c4dfcbdfe645089129e308e26d5523.2.del",
    "a5c4dfcbdfe645089129e308e26d5523.fast",
    "a5c4dfcbdfe645089129e308e26d5523.fieldnorm",
    "a5c4dfcbdfe645089129e308e26d5523.idx",
    "a5c4dfcbdfe645089129e308e26d5523.pos",
    "a5c4dfcbdfe645089129e308e26d5523.store",
    "a5c4dfcbdfe645089129e308e26d5523.term",
    "meta.json",
];

// All files in their oldest state, in the next one, and in the one behind that.
const OLDEST: &[u32] = &[0; 9];

const NEXT: &[u32] = &[1; 9];

const THIRD: &[u32] = &[2; 9];

// One file alone in the state behind its oldest one.
const ONE_ALONE: &[&[u32]] = &[
    &[1],
    &[0, 1],
    &[0, 0, 1],
    &[0, 0, 0, 1],
    &[0, 0, 0, 0, 1],
    &[0, 0, 0, 0, 0, 1],
    &[0, 0, 0, 0, 0, 0, 1],
    &[0, 0, 0, 0, 0, 0, 0, 1],
    &[0, 0, 0, 0, 0, 0, 0, 0, 1],
];

// The moments between which a commit is made: when its event begins, and when it was told.
#[derive(Clone, Copy)]
struct SavedCommit {
    begins: u64,
    ends: u64,
}

// The text of the first parts of the script.
fn text_of<R: Abort>(rt: &R, alloc: Global, parts: usize) -> String {
    let mut text = String::new(alloc);
    for part in PARTS.iter().take(parts) {
        text.push_str(part).expect(rt, "memory");
    }
    text
}

// The directory behind the first parts of the script.
fn behind<R: Abort>(rt: &R, alloc: Global, parts: usize) -> TestBench {
    let text = text_of(rt, alloc, parts);
    let (bench, _events) = replayed(rt, alloc, empty_bench(rt, alloc), "[]", text.as_str());
    bench
}

// The moment behind the first parts of the script.
fn moment_behind<R: Abort>(rt: &R, alloc: Global, parts: usize) -> u64 {
    behind(rt, alloc, parts).moment()
}

// Whether so many of the commits may stand at this moment: each that was told does, and none does whose event
// hasn't begun.
fn may_stand(commits: &[SavedCommit], moment: u64, stands: usize) -> bool {
    let told = commits
        .iter()
        .filter(|commit| commit.ends <= moment)
        .count();
    let begun = commits
        .iter()
        .filter(|commit| commit.begins < moment)
        .count();
    told <= stands && stands <= begun
}

// Whether each file that a crash left is on the list that it left.
fn lists_each<R: Abort, D: Directory>(rt: &R, alloc: Global, left: D) -> D {
    let mut managed = match ManagedDirectory::wrap(alloc, left) {
        Ok(managed) => managed,
        Err(_) => panic!(rt; "the list is one"),
    };
    for name in NAMES {
        let found = managed.exists(name).expect(rt, "asked");
        let listed = managed.list_managed_files().contains(*name);
        assert!(rt; listed || !found, "{name} is listed");
    }
    managed.into_directory()
}

// Which of the openings is told over what a crash left: how many commits of the script stand.
fn opens<R: Abort, O: Shows>(rt: &R, alloc: Global, left: O) -> usize {
    let store = match IndexStore::open(alloc, left, b"[]") {
        Ok(store) => store,
        Err(_) => panic!(rt; "it is opened"),
    };
    let heard = store.into_outside().heard().expect(rt, "memory");
    let told = OPENINGS
        .iter()
        .position(|line| line.as_bytes() == heard.as_slice());
    told.expect(rt, "a commit of the script")
}

// How many commits stand after a crash at this moment, by this choice.
fn stand_after<R: Abort>(
    rt: &R,
    alloc: Global,
    bench: &TestBench,
    moment: u64,
    choice: &[u32],
) -> usize {
    assert!(rt; moment <= bench.moment(), "a moment of the script");
    let left = bench.crash(moment, choice).expect(rt, "memory");
    opens(rt, alloc, lists_each(rt, alloc, left))
}

// Crashes at each moment by the same choice: what stands may stand then, and what stood once stands from then on.
// Counts the commits that stand at all moments.
fn crash_by<R: Abort>(
    rt: &R,
    alloc: Global,
    bench: &TestBench,
    commits: &[SavedCommit],
    choice: &[u32],
) -> usize {
    let mut stood = 0;
    let mut count: usize = 0;
    for moment in 0..=bench.moment() {
        let stands = stand_after(rt, alloc, bench, moment, choice);
        assert!(rt;
            stood <= stands && may_stand(commits, moment, stands),
            "at {moment} by {choice:?}"
        );
        stood = stands;
        count = count.saturating_add(stands);
    }
    count
}

// The commits are the one of the second part, and that of the last.
fn commits<R: Abort>(rt: &R, alloc: Global) -> [SavedCommit; 2] {
    [
        SavedCommit {
            begins: moment_behind(rt, alloc, 1),
            ends: moment_behind(rt, alloc, 2),
        },
        SavedCommit {
            begins: moment_behind(rt, alloc, 3),
            ends: moment_behind(rt, alloc, 4),
        },
    ]
}

// A commit is an atomic write of `meta.json` with a sync before it and one behind it. At the moment between the
// write and the sync behind it, and only then, the oldest state shows the commit before, and the next one this.
#[test]
fn a_crash_leaves_a_sound_start(rt: HostRuntime) {
    let a = rt.alloc();
    let commits = commits(&rt, a);
    let bench = behind(&rt, a, PARTS.len());
    let oldest = crash_by(&rt, a, &bench, &commits, OLDEST);
    let next = crash_by(&rt, a, &bench, &commits, NEXT);
    assert_eq!(rt; next, oldest.saturating_add(commits.len()));
    crash_by(&rt, a, &bench, &commits, THIRD);
    for choice in ONE_ALONE {
        crash_by(&rt, a, &bench, &commits, choice);
    }
}
