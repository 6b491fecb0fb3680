//! Collections of a managed directory: what they delete, what stays listed, and refused calls.

use crate::managed::{Call, Run, Step, take_runs};

// What a collection answers where the device refuses another of its calls than a delete.
const REFUSED: &str = r#"Err(IoError(IoFault { kind: Device, text: "" }))"#;

// The first file stays while its name lives.
const LIVING_AND_NOT: &[Step] = &[
    Step::On(Call::Seal, "some_path_for_test", "", "Ok(())"),
    Step::On(
        Call::AtomicWrite,
        "some_path_for_test_2",
        "\0\u{1}",
        "Ok(())",
    ),
    Step::On(Call::Exists, "some_path_for_test", "", "Ok(true)"),
    Step::On(Call::Exists, "some_path_for_test_2", "", "Ok(true)"),
    Step::Collect(
        &["some_path_for_test"],
        r#"Ok(GarbageCollectionResult { deleted_files: ["some_path_for_test_2"], failed_to_delete_files: [] })"#,
    ),
    Step::On(Call::Exists, "some_path_for_test", "", "Ok(true)"),
    Step::On(Call::Exists, "some_path_for_test_2", "", "Ok(false)"),
    Step::Collect(
        &[],
        r#"Ok(GarbageCollectionResult { deleted_files: ["some_path_for_test"], failed_to_delete_files: [] })"#,
    ),
    Step::On(Call::Exists, "some_path_for_test", "", "Ok(false)"),
    Step::List("[]\n"),
];

// Four files, of which the last one isn't there any more, by the calls 1 to 13 of the device, behind a read
// of the list. A collection takes the meta lock (call 14) and syncs, deletes (calls 16 to 19), and syncs,
// writes the list, and syncs again.
const FOUR: &[Step] = &[
    Step::On(Call::AtomicWrite, "a.idx", "a", "Ok(())"),
    Step::On(Call::AtomicWrite, "b.idx", "b", "Ok(())"),
    Step::On(Call::AtomicWrite, "c.idx", "c", "Ok(())"),
    Step::On(Call::AtomicWrite, "d.idx", "d", "Ok(())"),
    Step::On(Call::Delete, "d.idx", "", "Ok(())"),
];

// A file that is absent counts as deleted.
const ALL_BUT_ONE: &[Step] = &[
    Step::Collect(
        &["b.idx", "other"],
        r#"Ok(GarbageCollectionResult { deleted_files: ["a.idx", "c.idx", "d.idx"], failed_to_delete_files: [] })"#,
    ),
    Step::On(Call::Exists, "a.idx", "", "Ok(false)"),
    Step::On(Call::Exists, "b.idx", "", "Ok(true)"),
    Step::List("[\"b.idx\"]\n"),
];

// The calls 16 and 18 are refused.
const TWO_FAIL: &[Step] = &[
    Step::Collect(
        &["d.idx"],
        r#"Ok(GarbageCollectionResult { deleted_files: ["b.idx"], failed_to_delete_files: ["a.idx", "c.idx"] })"#,
    ),
    Step::On(Call::Exists, "a.idx", "", "Ok(true)"),
    Step::On(Call::Exists, "b.idx", "", "Ok(false)"),
    Step::On(Call::Exists, "c.idx", "", "Ok(true)"),
    Step::Names(r#"{"a.idx", "c.idx", "d.idx"}"#),
    Step::List("[\"a.idx\",\"c.idx\",\"d.idx\"]\n"),
];

// Call 16 is refused, which isn't one of the collection's.
const NOTHING_TO_DELETE: &[Step] = &[
    Step::Collect(
        &["a.idx", "b.idx", "c.idx", "d.idx"],
        r#"Ok(GarbageCollectionResult { deleted_files: [], failed_to_delete_files: [] })"#,
    ),
    Step::On(
        Call::AtomicWrite,
        "e.idx",
        "new",
        r#"Err(Fault(IoFault { kind: Device, text: "" }))"#,
    ),
    Step::Names(r#"{"a.idx", "b.idx", "c.idx", "d.idx"}"#),
];

// The sync before the deletes is refused.
const FAILS_BEFORE: &[Step] = &[
    Step::Collect(&[], REFUSED),
    Step::Number("0"),
    Step::Names(r#"{"a.idx", "b.idx", "c.idx", "d.idx"}"#),
    Step::On(Call::Exists, "a.idx", "", "Ok(true)"),
];

// The sync after the deletes is refused, before the list is written. The collection isn't finished, and keeps its
// number.
const FAILS_AFTER: &[Step] = &[
    Step::Collect(&[], REFUSED),
    Step::Number("1"),
    Step::Names(r#"{"a.idx", "b.idx", "c.idx", "d.idx"}"#),
    Step::List("[\"a.idx\",\"b.idx\",\"c.idx\",\"d.idx\"]\n"),
    Step::On(Call::Exists, "a.idx", "", "Ok(false)"),
];

// The write of the list, or the sync behind it, is refused. The collection isn't finished, and holds its names; a file
// that is made then is listed beside them.
const FAILS_SAVING: &[Step] = &[
    Step::Collect(&[], REFUSED),
    Step::Names(r#"{"a.idx", "b.idx", "c.idx", "d.idx"}"#),
    Step::On(Call::Exists, "a.idx", "", "Ok(false)"),
    Step::On(
        Call::Seal,
        "a.idx",
        "",
        r#"Err(OpenWriteError(Leaving("a.idx")))"#,
    ),
    Step::On(Call::AtomicWrite, "e.idx", "new", "Ok(())"),
    Step::List("[\"a.idx\",\"b.idx\",\"c.idx\",\"d.idx\",\"e.idx\"]\n"),
    Step::End(
        0,
        r#"Ok(GarbageCollectionResult { deleted_files: ["a.idx", "b.idx", "c.idx", "d.idx"], failed_to_delete_files: [] })"#,
    ),
    Step::List("[\"e.idx\"]\n"),
];

// Behind these four: two collections in steps, of which the second leaves to the first what that has.
const OVERLAPPING: &[Step] = &[
    Step::Begin(&["b.idx", "c.idx"], "Ok(0)"),
    Step::Taken(0, r#"(Some(["a.idx", "d.idx"]), Some(2))"#),
    Step::Begin(&["b.idx"], "Ok(1)"),
    Step::Taken(1, r#"(Some(["c.idx"]), Some(1))"#),
    Step::Try(0, r#"Ok(Done("a.idx"))"#),
    Step::Taken(0, r#"(Some(["a.idx", "d.idx"]), Some(1))"#),
    // What is done is managed up to the end, and nobody makes it anew.
    Step::Names(r#"{"a.idx", "b.idx", "c.idx", "d.idx"}"#),
    Step::On(
        Call::Seal,
        "a.idx",
        "",
        r#"Err(OpenWriteError(Leaving("a.idx")))"#,
    ),
    Step::On(
        Call::Seal,
        "c.idx",
        "",
        r#"Err(OpenWriteError(FileAlreadyExists("c.idx")))"#,
    ),
    Step::End(
        0,
        r#"Ok(GarbageCollectionResult { deleted_files: ["a.idx"], failed_to_delete_files: [] })"#,
    ),
    Step::Taken(0, "(None, None)"),
    Step::List("[\"b.idx\",\"c.idx\",\"d.idx\"]\n"),
    // One at once takes no number.
    Step::Collect(
        &["b.idx"],
        r#"Ok(GarbageCollectionResult { deleted_files: ["d.idx"], failed_to_delete_files: [] })"#,
    ),
    Step::Begin(&["b.idx"], "Ok(2)"),
    Step::Taken(2, r#"(Some([]), Some(0))"#),
    Step::Forget,
    Step::Taken(1, "(None, None)"),
    Step::Begin(&[], "Ok(0)"),
    Step::Taken(0, r#"(Some(["b.idx", "c.idx"]), Some(2))"#),
];

// Behind these four: the call 16 is the first delete, and 18 to 20 are the sync, the write of the list and the sync
// at an end.
const REFUSED_STEPS: &[Step] = &[
    Step::Begin(&["b.idx", "c.idx"], "Ok(0)"),
    Step::Try(0, r#"Ok(Failed("a.idx"))"#),
    Step::Try(0, r#"Ok(Done("d.idx"))"#),
    Step::End(0, REFUSED),
    // The list lacks what is done, which is still held.
    Step::List("[\"a.idx\",\"b.idx\",\"c.idx\"]\n"),
    Step::Names(r#"{"a.idx", "b.idx", "c.idx", "d.idx"}"#),
    Step::On(
        Call::Seal,
        "d.idx",
        "",
        r#"Err(OpenWriteError(Leaving("d.idx")))"#,
    ),
    Step::End(
        0,
        r#"Ok(GarbageCollectionResult { deleted_files: ["d.idx"], failed_to_delete_files: ["a.idx"] })"#,
    ),
    Step::Names(r#"{"a.idx", "b.idx", "c.idx"}"#),
    Step::On(Call::Seal, "d.idx", "", "Ok(())"),
];

// Behind these four: what a collection takes that begins now.
const FORETOLD: &[Step] = &[
    Step::Spare(&[], r#"Ok(["a.idx", "b.idx", "c.idx", "d.idx"])"#),
    Step::Spare(&["a.idx", "b.idx", "c.idx", "d.idx", "other"], "Ok([])"),
    Step::Spare(&["b.idx", "c.idx"], r#"Ok(["a.idx", "d.idx"])"#),
    Step::Begin(&["b.idx", "c.idx"], "Ok(0)"),
    Step::Taken(0, r#"(Some(["a.idx", "d.idx"]), Some(2))"#),
    // What another collection holds is left to that, whether it was tried or not.
    Step::Spare(&["b.idx"], r#"Ok(["c.idx"])"#),
    Step::Next(0, r#""a.idx""#),
    Step::Try(0, r#"Ok(Done("a.idx"))"#),
    Step::Next(0, r#""d.idx""#),
    Step::Spare(&["b.idx"], r#"Ok(["c.idx"])"#),
    Step::End(
        0,
        r#"Ok(GarbageCollectionResult { deleted_files: ["a.idx"], failed_to_delete_files: [] })"#,
    ),
    Step::Spare(&["b.idx"], r#"Ok(["c.idx", "d.idx"])"#),
    Step::Collect(
        &["b.idx"],
        r#"Ok(GarbageCollectionResult { deleted_files: ["c.idx", "d.idx"], failed_to_delete_files: [] })"#,
    ),
    Step::Spare(&[], r#"Ok(["b.idx"])"#),
];

// Behind these four: the number of the next collection. The call 15 is the sync at the beginning of the first one,
// which isn't begun.
const NUMBERED: &[Step] = &[
    Step::Number("0"),
    Step::Begin(&[], REFUSED),
    Step::Number("0"),
    Step::Begin(&["b.idx", "c.idx", "d.idx"], "Ok(0)"),
    Step::Number("1"),
    Step::Begin(&[], "Ok(1)"),
    Step::Number("2"),
    // No end gives a number back, and a collection at once takes none.
    Step::End(
        1,
        r#"Ok(GarbageCollectionResult { deleted_files: [], failed_to_delete_files: [] })"#,
    ),
    Step::Number("2"),
    Step::Collect(
        &["b.idx"],
        r#"Ok(GarbageCollectionResult { deleted_files: ["c.idx", "d.idx"], failed_to_delete_files: [] })"#,
    ),
    Step::Number("2"),
    Step::Forget,
    Step::Number("0"),
];

const RUNS: &[Run] = &[
    (&[], &[], LIVING_AND_NOT, 0),
    (&[], FOUR, ALL_BUT_ONE, 0),
    (&[16, 18], FOUR, TWO_FAIL, 0),
    (&[16], FOUR, NOTHING_TO_DELETE, 1),
    (&[15], FOUR, FAILS_BEFORE, 1),
    (&[20], FOUR, FAILS_AFTER, 1),
    (&[21], FOUR, FAILS_SAVING, 1),
    (&[22], FOUR, FAILS_SAVING, 1),
    (&[], FOUR, OVERLAPPING, 0),
    (&[16, 20], FOUR, REFUSED_STEPS, 1),
];

#[test]
fn collections_delete_what_does_not_live_and_go_on_after_refused_deletes_alone(rt: HostRuntime) {
    take_runs(&rt, rt.alloc(), RUNS);
}

#[test]
fn what_a_collection_takes_is_known_before_it_begins(rt: HostRuntime) {
    take_runs(&rt, rt.alloc(), &[(&[], FOUR, FORETOLD, 0)]);
}

#[test]
fn the_number_of_the_next_collection_is_known_before_it_begins(rt: HostRuntime) {
    take_runs(&rt, rt.alloc(), &[(&[15], FOUR, NUMBERED, 1)]);
}
