//! The list of managed files, in spellings that JSON allows, and what is no list.

use crate::closing::Close;
use crate::empty::{Empty, TestBench};
use crate::sealed_files::{Bytes, slice_of};
use std::alloc::Global;
use std::process::Abort;
use tv_base::{MANAGED_FILEPATH, TantivyError};
use tv_managed::{ManagedDirectory, Refused};
use tv_test_support::told;

const DAMAGED: &str = r#"Err(DataCorruption(Data corruption (in file `".managed.json"`): ..))"#;

// What stands as the list, and the names that it lists, in their order, or what the opening answers.
const LISTS: &[(Bytes, &str)] = &[
    (Bytes::Text("[]"), "{}"),
    (Bytes::Text("\n[ ]"), "{}"),
    (
        Bytes::Text(" [\r\n\t\"a.idx\" ,\n\"meta.json\"\n]\n\n"),
        r#"{"a.idx", "meta.json"}"#,
    ),
    (
        Bytes::Text("[\"b\",\"c\",\"a\",\"b\"]"),
        r#"{"a", "b", "c"}"#,
    ),
    (
        Bytes::Text("[\"a\\u0062\",\"a\\u00e9\",\"aé\"]"),
        r#"{"ab", "aé"}"#,
    ),
    (Bytes::Text("[\".x\"]"), DAMAGED),
    (Bytes::Text("[\"meta.json\",\"failed\"]"), DAMAGED),
    (Bytes::Text("[\"\"]"), DAMAGED),
    (Bytes::Text("[\"a b\"]"), DAMAGED),
    (Bytes::Text("[\"a\\u002fb\"]"), DAMAGED),
    (Bytes::Text("[\"a\",1]"), DAMAGED),
    (Bytes::Text("[null]"), DAMAGED),
    (Bytes::Text("[[\"a\"]]"), DAMAGED),
    (Bytes::Text("{}"), DAMAGED),
    (Bytes::Text("{\"a\":\"b\"}"), DAMAGED),
    (Bytes::Text("\"a\""), DAMAGED),
    (Bytes::Text(""), DAMAGED),
    (Bytes::Text("[\"a\""), DAMAGED),
    (Bytes::Text("[\"a\",]"), DAMAGED),
    (Bytes::Text("[\"a\"][]"), DAMAGED),
    (Bytes::Text("[\"\\ud800\"]"), DAMAGED),
    (Bytes::Raw(b"\xff"), DAMAGED),
    (Bytes::Raw(b"[\"\xff\"]"), DAMAGED),
];

// A directory whose list reads these bytes.
fn with_list<R: Abort, D: Empty>(rt: &R, alloc: Global, bytes: &[u8]) -> D {
    let mut directory = D::empty(alloc).expect(rt, "memory");
    directory
        .atomic_write(MANAGED_FILEPATH, bytes)
        .expect(rt, "written");
    directory
}

// Whether a directory whose list reads these bytes has the wanted names, or is refused as it is wanted.
fn lists<R: Abort + Eprint, D: Empty>(rt: &R, alloc: Global, bytes: &[u8], want: &str) -> bool {
    let directory: D = with_list(rt, alloc, bytes);
    match ManagedDirectory::wrap(alloc, directory) {
        Ok(managed) => {
            let is_so = told(rt, alloc, managed.list_managed_files(), want);
            managed.close();
            is_so
        }
        Err(
            Refused {
                error,
                directory: _,
            },
        ) => told(rt, alloc, Err::<(), TantivyError>(error), want),
    }
}

#[test]
fn a_list_is_read_in_any_spelling_and_what_is_none_is_refused(rt: HostRuntime) {
    for (number, (bytes, want)) in LISTS.iter().enumerate() {
        assert!(rt;
            lists::<_, TestBench>(&rt, rt.alloc(), slice_of(*bytes), want),
            "list {number}"
        );
    }
}
