//! Events that are applied to an open index, one by one.
use crate::compare::are_bytes;
use crate::fixtures::{empty_bench, folder_desk, has_heard, make_folder, remove_folder};
use std::alloc::Global;
use std::fs::{self, File};
use std::process::Abort;
use std::rt::Files;
use tv_base::TantivyError;
use tv_directory::Outside;
use tv_replay::{Answer, Event, IndexStore, ReloadPolicy, parse_event};
use tv_test_support::{done, told};

// Lines, and what their events answer.
const LINES: &[(&str, &str)] = &[
    (
        "open 11111111111111111111111111111111 del",
        "refused unknown-segment",
    ),
    (
        "segment 11111111111111111111111111111111",
        "segment 11111111111111111111111111111111",
    ),
    (
        "open 11111111111111111111111111111111 del",
        "refused no-deletes",
    ),
    (
        "open 11111111111111111111111111111111 idx",
        "opened 11111111111111111111111111111111.idx",
    ),
    (
        "managed",
        "managed 11111111111111111111111111111111.idx meta.json",
    ),
];

// What is told of them.
const TOLD: &str = "open 0 0
refused unknown-segment
segment 11111111111111111111111111111111
refused no-deletes
opened 11111111111111111111111111111111.idx
managed 11111111111111111111111111111111.idx meta.json
";

// The folder in which another program writes.
const FOLDER: &str = "overwritten";

// A commit without segments, as another program may write it.
const SEVENTH: &str = "{\"segments\":[],\"schema\":[],\"opstamp\":7,\"payload\":\"p\"}";

// Another one.
const EIGHTH: &str = "{\"segments\":[],\"schema\":[],\"opstamp\":8}";

// One of another schema.
const OTHER: &str =
    "{\"segments\":[],\"schema\":[{\"name\":\"n\",\"type\":\"text\"}],\"opstamp\":9}";

// An index in a directory.
fn open<R: Abort, O: Outside + Drop>(rt: &R, alloc: Global, outside: O) -> IndexStore<O> {
    match IndexStore::open(alloc, outside, b"[]") {
        Ok(store) => store,
        Err(_) => panic!(rt; "it is opened"),
    }
}

// Applies an event, and looks at its answer.
fn apply<R: Abort, O: Outside>(rt: &R, store: &mut IndexStore<O>, event: &Event, want: &str) {
    assert!(rt; store.is_open());
    let answer = store.apply(event).expect(rt, "applied");
    are_bytes(rt, answer.as_slice(), want.as_bytes());
}

// Applies the event of a line, and looks at its answer.
fn apply_line<R: Abort, O: Outside>(
    rt: &R,
    alloc: Global,
    store: &mut IndexStore<O>,
    line: &str,
    want: &str,
) {
    let found = parse_event(alloc, line.as_bytes()).expect(rt, "memory");
    let event = found.expect(rt, "it is an event's line");
    apply(rt, store, &event, want);
}

fn apply_lines<R: Abort, O: Outside>(rt: &R, alloc: Global, store: &mut IndexStore<O>) {
    for (line, want) in LINES {
        apply_line(rt, alloc, store, line, want);
    }
    assert!(rt; store.is_open());
}

// The directory of an index, behind those events.
fn applied<R: Abort, O: Outside + Drop>(rt: &R, alloc: Global, outside: O) -> O {
    let mut store = open(rt, alloc, outside);
    apply_lines(rt, alloc, &mut store);
    store.into_outside()
}

#[test]
fn a_store_takes_events_one_by_one(rt: HostRuntime) {
    let bench = applied(&rt, rt.alloc(), empty_bench(&rt, rt.alloc()));
    has_heard(&rt, &bench, TOLD);
}

// Writes `meta.json` in the folder, as another program may.
fn overwrite<R: Files<File = File> + Abort>(rt: &R, text: &str) {
    fs::write(rt, "overwritten/meta.json", text.as_bytes()).expect(rt, "written");
}

// A new reader and a reload show what was written since the index was opened.
fn read_what_was_written<R: Files<File = File> + Abort, O: Outside>(
    rt: &R,
    store: &mut IndexStore<O>,
) {
    overwrite(rt, SEVENTH);
    let reader = Event::Reader(ReloadPolicy::Manual);
    apply(rt, store, &reader, "reader 0 0 0");
    apply(rt, store, &Event::Searcher(0), "searcher 0 0 7");
    apply(rt, store, &Event::Show(0), "show 0 7 +70");
    overwrite(rt, EIGHTH);
    apply(rt, store, &Event::Reload(0), "published 0 1 0");
    apply(rt, store, &Event::Searcher(0), "searcher 1 1 8");
}

// A reload in steps shows the commit that it has noted, whatever was written since; readers with a notice show
// what was written.
fn read_what_was_noted<R: Files<File = File> + Abort, O: Outside>(
    rt: &R,
    alloc: Global,
    store: &mut IndexStore<O>,
) {
    let reader = Event::Reader(ReloadPolicy::OnCommitWithDelay);
    apply(rt, store, &reader, "reader 0 0 8");
    overwrite(rt, SEVENTH);
    apply(rt, store, &Event::ReloadLock(0), "locked 0 8");
    apply(rt, store, &Event::ReloadOpen(0), "read 0");
    apply(rt, store, &Event::ReloadPublish(0), "published 0 1 8");
    apply(rt, store, &Event::Searcher(0), "searcher 0 1 8");
    apply_line(rt, alloc, store, "commit -", "commit 9 0");
    overwrite(rt, EIGHTH);
    apply(rt, store, &Event::Deliver, "delivered 0");
    apply(rt, store, &Event::Searcher(0), "searcher 1 2 8");
}

// The same of an index in this directory, that of a commit with the opstamp 8.
fn shows_what_was_noted<R: Files<File = File> + Abort, O: Outside + Drop>(
    rt: &R,
    alloc: Global,
    outside: O,
) {
    let mut store = open(rt, alloc, outside);
    read_what_was_noted(rt, alloc, &mut store);
    drop(store.into_outside());
}

// A new reader and a reload in an index in this directory do so.
fn shows_what_was_written<R: Files<File = File> + Abort, O: Outside + Drop>(
    rt: &R,
    alloc: Global,
    outside: O,
) {
    let mut store = open(rt, alloc, outside);
    read_what_was_written(rt, &mut store);
    drop(store.into_outside());
}

// What a new reader answers.
fn read<R: Abort, O: Outside>(rt: &R, store: &mut IndexStore<O>) -> Result<Answer, TantivyError> {
    assert!(rt; store.is_open());
    store.apply(&Event::Reader(ReloadPolicy::Manual))
}

// What it answers in an index in this directory, once this was written.
fn reads<R: Files<File = File> + Abort, O: Outside + Drop>(
    rt: &R,
    alloc: Global,
    outside: O,
    text: &str,
) -> Result<Answer, TantivyError> {
    let mut store = open(rt, alloc, outside);
    overwrite(rt, text);
    let answer = read(rt, &mut store);
    drop(store.into_outside());
    answer
}

// What is answered where the bytes of `meta.json` mean no commit, and where they mean one of another schema.
const CORRUPT: &str = r#"Err(DataCorruption(Data corruption (in file `"meta.json"`): ..))"#;

const OTHER_SCHEMA: &str = r#"Err(SchemaError("An index exists but the schema does not match."))"#;

// What is written, and for what a reader is refused: bytes that mean no commit, and a commit of another schema.
const REFUSED: &[(&str, &str)] = &[("{", CORRUPT), (OTHER, OTHER_SCHEMA)];

// Opens the index that stands in the folder, and then looks at what a reader answers.
fn is_refused<R: Files<File = File> + Clone + Drop + Abort + Eprint>(
    rt: &R,
    alloc: Global,
    text: &str,
    want: &str,
) {
    overwrite(rt, EIGHTH);
    let answer = reads(rt, alloc, folder_desk(rt, alloc, FOLDER), text);
    assert!(rt; told(rt, alloc, done(answer), want));
}

#[test]
fn a_reader_loads_what_was_written(rt: HostRuntime) {
    make_folder(&rt, rt.alloc(), FOLDER);
    shows_what_was_written(&rt, rt.alloc(), folder_desk(&rt, rt.alloc(), FOLDER));
    shows_what_was_noted(&rt, rt.alloc(), folder_desk(&rt, rt.alloc(), FOLDER));
    for (text, want) in REFUSED {
        is_refused(&rt, rt.alloc(), text, want);
    }
    remove_folder(&rt, FOLDER);
}
