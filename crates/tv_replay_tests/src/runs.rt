//! Runs in a place to which little can be said.
ghost use Rattle.std.specs.Prelude.{◌≡◌, None};

use crate::compare::are_bytes;
use crate::fixtures::{all_owned, empty_bench, place, source};
use std::alloc::Global;
use std::process::Abort;
use tv_base::TextSource;
use tv_directory::Outside;
use tv_replay::{BenchPlace, run};

const USAGE: &str =
    "usage: tv replay FOLDER SCHEMA | space FOLDER SCHEMA | generate N | race FOLDER SCHEMA HANDLES SCRIPT..\n";

// Runs the words in this place: the status, and what was said.
fn run_in<O: Outside + Drop>(
    alloc: Global,
    place: BenchPlace<O>,
    words: &[String],
    script: &mut TextSource,
) -> (u8, Vec<u8>)
    requires { place.lent ≡ None }
{
    let mut place = place;
    let status = run(alloc, words, &mut place, script);
    let (_outside, said) = place.into_parts();
    (status, said)
}

// Runs the words in a place with this directory, to which as many bytes as `room` can be said.
fn found<R: Abort, O: Outside + Drop>(
    rt: &R,
    alloc: Global,
    outside: O,
    words: &[&str],
    room: usize,
) -> (u8, Vec<u8>) {
    let words = all_owned(rt, alloc, words);
    let mut script = source(rt, alloc, "managed\n");
    let place = place(rt, alloc, outside, room);
    run_in(alloc, place, words.as_slice(), &mut script)
}

const ABSENT: &[&str] = &["replay", "F", "absent.json"];

// The words of a run, for how many bytes there is room, the status, and what is said.
const RUNS: &[(&[&str], usize, u8, &str)] = &[
    (&[], 104, 2, USAGE),
    (&[], 103, 2, ""),
    (ABSENT, 9, 1, "error io\n"),
    (ABSENT, 8, 1, ""),
    (
        &["generate", "0"],
        104,
        0,
        "events 0 stamp 0 files 1 collected 0\n",
    ),
    (
        &["generate", "1"],
        104,
        0,
        "events 22 stamp 1 files 7 collected 0\n",
    ),
    (
        &["generate", "2"],
        104,
        0,
        "events 45 stamp 2 files 13 collected 0\n",
    ),
    (
        &["generate", "1000"],
        51,
        0,
        "events 22999 stamp 1000 files 13 collected 5988\n",
    ),
    (&["generate", "0"], 36, 1, "error io\n"),
    (&["generate", "0"], 8, 1, ""),
    (&["generate", "1001"], 104, 2, USAGE),
    (&["generate", "03"], 104, 2, USAGE),
    (&["generate", "+3"], 104, 2, USAGE),
    (&["generate"], 104, 2, USAGE),
    (&["generate", "3", "3"], 104, 2, USAGE),
];

// Looks at the status of a run, and at what was said.
fn assert_run<R: Abort>(
    rt: &R,
    alloc: Global,
    words: &[&str],
    room: usize,
    (want, line): (u8, &str),
) {
    let (status, said) = found(rt, alloc, empty_bench(rt, alloc), words, room);
    assert!(rt; status == want, "at {words:?} and {room}");
    are_bytes(rt, said.as_slice(), line.as_bytes());
}

#[test]
fn a_run_says_what_there_is_room_for(rt: HostRuntime) {
    for (words, room, status, line) in RUNS {
        assert_run(&rt, rt.alloc(), words, *room, (*status, line));
    }
}
