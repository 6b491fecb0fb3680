//! What crashes leave of a directory in memory, and that its list then has each of its files.

use crate::empty::{Empty, TestBench};
use crate::managed::{Call, Step, collect, taken, wrapped};
use std::alloc::Global;
use std::process::Abort;
use tv_base::is_plain_name;
use tv_directory::Directory;
use tv_managed::ManagedDirectory;
use tv_test_support::{done, reads, told};

// A choice, and what the file `a` reads after a crash that takes it.
type Row = (u32, &'static str);

const ABSENT: &str = r#"Err(FileDoesNotExist("a"))"#;

// Before the first sync: no file, and what each of two writes gave it.
const TWO_WRITES: &[Row] = &[(0, ABSENT), (1, "1"), (2, "2"), (3, ABSENT)];

// After a sync what it reads is left alone.
const SETTLED: &[Row] = &[(0, "2"), (1, "2")];

fn leaves<R: Abort + Eprint>(rt: &R, alloc: Global, bench: &TestBench, row: Row) -> bool {
    let (choice, want) = row;
    let mut left = bench.crash(bench.moment(), &[choice]).expect(rt, "memory");
    reads(rt, alloc, left.atomic_read("a"), want)
}

fn leave_all<R: Abort + Eprint>(rt: &R, alloc: Global, bench: &TestBench, rows: &[Row]) {
    for row in rows {
        assert!(rt; leaves(rt, alloc, bench, *row), "the choice {}", row.0);
    }
}

// Writes `a` twice.
fn write_twice<R: Abort + Eprint, D: Directory>(rt: &R, alloc: Global, directory: &mut D) {
    for text in ["1", "2"] {
        let written = directory.atomic_write("a", text.as_bytes());
        assert!(rt; told(rt, alloc, written, "Ok(())"));
    }
}

#[test]
fn a_crash_leaves_one_of_the_states_since_the_last_sync(rt: HostRuntime) {
    let mut bench = TestBench::empty(rt.alloc()).expect(&rt, "memory");
    write_twice(&rt, rt.alloc(), &mut bench);
    leave_all(&rt, rt.alloc(), &bench, TWO_WRITES);
    assert!(rt; told(&rt, rt.alloc(), bench.sync_directory(), "Ok(())"));
    leave_all(&rt, rt.alloc(), &bench, SETTLED);
}

const NAMES: &[&str] = &["some_path_for_test", "some_path_for_test_2"];

// The first file stays while its name lives.
const FIRST_LIVES: &[Step] = &[
    Step::On(Call::Seal, "some_path_for_test", "", "Ok(())"),
    Step::On(
        Call::AtomicWrite,
        "some_path_for_test_2",
        "\0\u{1}",
        "Ok(())",
    ),
    Step::Collect(
        &["some_path_for_test"],
        r#"Ok(GarbageCollectionResult { deleted_files: ["some_path_for_test_2"], failed_to_delete_files: [] })"#,
    ),
    Step::On(Call::Exists, "some_path_for_test", "", "Ok(true)"),
    Step::On(Call::Exists, "some_path_for_test_2", "", "Ok(false)"),
];

// The directory is opened again, and no name lives.
const NONE_LIVES: &[Step] = &[
    Step::Collect(
        &[],
        r#"Ok(GarbageCollectionResult { deleted_files: ["some_path_for_test"], failed_to_delete_files: [] })"#,
    ),
    Step::On(Call::Exists, "some_path_for_test", "", "Ok(false)"),
    Step::On(Call::Exists, "some_path_for_test_2", "", "Ok(false)"),
];

// Makes both files, and collects them, one after the other.
fn collected<R: Abort + Eprint, D: Empty>(rt: &R, alloc: Global, empty: D) -> D {
    let first = taken(rt, alloc, empty, &[], FIRST_LIVES);
    taken(rt, alloc, first, &[], NONE_LIVES)
}

fn is_gone<R: Abort, D: Directory>(rt: &R, managed: &mut ManagedDirectory<D>, name: &str) -> bool {
    is_plain_name(name) && !managed.exists(name).expect(rt, "asked")
}

// Whether a file of this name, where there is one, is on the list.
fn is_listed<R: Abort, D: Directory>(
    rt: &R,
    managed: &mut ManagedDirectory<D>,
    name: &str,
) -> bool {
    is_gone(rt, managed, name) || managed.list_managed_files().contains(name)
}

// Whether all files are on the list, and gone after a collection.
fn collects_all<R: Abort + Eprint, D: Directory>(
    rt: &R,
    alloc: Global,
    managed: &mut ManagedDirectory<D>,
) -> bool {
    NAMES.iter().all(|name| is_listed(rt, managed, name))
        && told(rt, alloc, done(collect(rt, managed, alloc, &[])), "Ok(())")
        && NAMES.iter().all(|name| is_gone(rt, managed, name))
}

// Wraps what a crash left, and collects all of it. Whether that goes well.
fn emptied<R: Abort + Eprint, D: Empty>(rt: &R, alloc: Global, left: D) -> (bool, D) {
    let mut managed = wrapped(rt, alloc, left);
    let is_emptied = collects_all(rt, alloc, &mut managed);
    (is_emptied, managed.into_directory())
}

// Crashes at this moment, by each of three choices for all files.
fn crash_at<R: Abort + Eprint>(rt: &R, alloc: Global, bench: &TestBench, moment: u64) {
    for choice in 0..3 {
        if moment <= bench.moment() {
            let left = bench.crash(moment, &[choice; 4]).expect(rt, "memory");
            let (is_emptied, left) = emptied(rt, alloc, left);
            assert!(rt; is_emptied && left.faults() == 0, "at {moment} by {choice}");
        }
    }
}

#[test]
fn a_crash_leaves_no_file_that_nothing_lists(rt: HostRuntime) {
    let empty = TestBench::empty(rt.alloc()).expect(&rt, "memory");
    let bench = collected(&rt, rt.alloc(), empty);
    let last = bench.moment();
    assert!(rt; last > 9, "the calls were recorded");
    for moment in 0..=last {
        crash_at(&rt, rt.alloc(), &bench, moment);
    }
}
