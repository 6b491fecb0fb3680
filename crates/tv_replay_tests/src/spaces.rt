//! How much space the files of an index take: what is reported, and what is said.
ghost use Rattle.std.specs.Prelude.{◌≡◌, None};

use crate::compare::are_bytes;
use crate::fixtures::{TestBench, all_owned, empty_bench, place, replayed, source};
use std::alloc::Global;
use std::process::Abort;
use tv_base::TantivyError;
use tv_index::{Index, Schema};
use tv_managed::Refused;
use tv_replay::run;
use tv_space::{Measured, measure, space_report};

// A segment of two documents, of which the first has two bytes and the second none.
const SCRIPT: &str = "segment 00000000000000000000000000000001
open 00000000000000000000000000000001 idx
seal 00000000000000000000000000000001 idx
open 00000000000000000000000000000001 pos
seal 00000000000000000000000000000001 pos
open 00000000000000000000000000000001 term
seal 00000000000000000000000000000001 term
open 00000000000000000000000000000001 fast
seal 00000000000000000000000000000001 fast
open 00000000000000000000000000000001 fieldnorm
seal 00000000000000000000000000000001 fieldnorm
open 00000000000000000000000000000001 store
write 00000000000000000000000000000001 store 02000000686900000000
seal 00000000000000000000000000000001 store
docs 00000000000000000000000000000001 2
commit - 00000000000000000000000000000001
";

const REPORT: &str = "segment 00000000000000000000000000000001 2 0 0 0 0 0 10 0 10\ntotal 10";

// A directory in which the script was replayed, under a schema without fields.
fn bench<R: Abort>(rt: &R, alloc: Global) -> TestBench {
    let (bench, _events) = replayed(rt, alloc, empty_bench(rt, alloc), "[]", SCRIPT);
    bench
}

// Looks at the text of a report.
fn is_report<R: Abort>(rt: &R, report: Result<Vec<u8>, TantivyError>) {
    are_bytes(
        rt,
        report.expect(rt, "a report").as_slice(),
        REPORT.as_bytes(),
    );
}

#[test]
fn a_directory_is_measured(rt: HostRuntime) {
    let schema = Schema::from_bytes(rt.alloc(), b"[]").expect(&rt, "a schema");
    let Measured {
        directory: _,
        outcome,
    } = measure(rt.alloc(), bench(&rt, rt.alloc()), schema);
    is_report(&rt, outcome);
}

#[test]
fn an_index_is_reported(rt: HostRuntime) {
    let mut index = match Index::open(rt.alloc(), bench(&rt, rt.alloc())) {
        Ok(index) => index,
        Err(
            Refused {
                error: _,
                directory: _,
            },
        ) => panic!(rt; "the index isn't open"),
    };
    is_report(&rt, space_report(rt.alloc(), &mut index));
    drop(index.into_directory());
}

// Runs `space F S` for a schema, in a place with this directory, and looks at the status and at what was
// said.
fn says<R: Abort>(rt: &R, alloc: Global, bench: TestBench, words: &[&str], want: (u8, &str)) {
    let words = all_owned(rt, alloc, words);
    let mut script = source(rt, alloc, "managed\n");
    let mut place = place(rt, alloc, bench, 80);
    let status = run(alloc, words.as_slice(), &mut place, &mut script);
    let (_bench, said) = place.into_parts();
    assert!(rt; status == want.0, "at {words:?}");
    are_bytes(rt, said.as_slice(), want.1.as_bytes());
}

#[test]
fn a_report_is_said(rt: HostRuntime) {
    let want = "segment 00000000000000000000000000000001 2 0 0 0 0 0 10 0 10\ntotal 10\n";
    says(
        &rt,
        rt.alloc(),
        bench(&rt, rt.alloc()),
        &["space", "F", "a.json"],
        (0, want),
    );
}

#[test]
fn without_an_index_nothing_is_said(rt: HostRuntime) {
    let empty = empty_bench(&rt, rt.alloc());
    says(&rt, rt.alloc(), empty, &["space", "F", "a.json"], (1, ""));
}

#[test]
fn bytes_that_are_no_schema_are_refused(rt: HostRuntime) {
    let want = (1, "error argument\n");
    says(
        &rt,
        rt.alloc(),
        bench(&rt, rt.alloc()),
        &["space", "F", "b.json"],
        want,
    );
}
