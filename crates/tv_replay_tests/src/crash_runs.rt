//! Scripts that are stopped by crashes, the commits that they make, and the directories behind them.
use crate::crash_images::{Meta, SCHEMA, Stored, Table};
use crate::fixtures::{TestBench, empty_bench, replayed, source};
use std::alloc::Global;
use std::process::Abort;
use tv_replay::{Replayed, replay};

/// A segment of three documents is made and its files are sealed, one with nine bytes and five without any.
pub(crate) const SEGMENT: &str = "segment a5c4dfcbdfe645089129e308e26d5523
open a5c4dfcbdfe645089129e308e26d5523 idx
write a5c4dfcbdfe645089129e308e26d5523 idx 313233343536373839
seal a5c4dfcbdfe645089129e308e26d5523 idx
open a5c4dfcbdfe645089129e308e26d5523 pos
seal a5c4dfcbdfe645089129e308e26d5523 pos
open a5c4dfcbdfe645089129e308e26d5523 term
seal a5c4dfcbdfe645089129e308e26d5523 term
open a5c4dfcbdfe645089129e308e26d5523 store
seal a5c4dfcbdfe645089129e308e26d5523 store
open a5c4dfcbdfe645089129e308e26d5523 fast
seal a5c4dfcbdfe645089129e308e26d5523 fast
open a5c4dfcbdfe645089129e308e26d5523 fieldnorm
seal a5c4dfcbdfe645089129e308e26d5523 fieldnorm
docs a5c4dfcbdfe645089129e308e26d5523 3
";

/// The segment is committed.
pub(crate) const COMMIT: &str = "commit - a5c4dfcbdfe645089129e308e26d5523\n";

// What is sealed: nine bytes whose checksum is CBF43926, and none.
const NINE: &str =
    "123456789{\"version\":{\"major\":0,\"minor\":26,\"patch\":2,\"index_format_version\":7},\"crc\":3421780262}\x56\x00\x00\x00\x39\x05\x00\x00";

const EMPTY: &str =
    "{\"version\":{\"major\":0,\"minor\":26,\"patch\":2,\"index_format_version\":7},\"crc\":0}\x4d\x00\x00\x00\x39\x05\x00\x00";

// The files of the segment, and those that it has once documents are deleted.
const FILES: &[(&str, &str)] = &[
    ("a5c4dfcbdfe645089129e308e26d5523.fast", EMPTY),
    ("a5c4dfcbdfe645089129e308e26d5523.fieldnorm", EMPTY),
    ("a5c4dfcbdfe645089129e308e26d5523.idx", NINE),
    ("a5c4dfcbdfe645089129e308e26d5523.pos", EMPTY),
    ("a5c4dfcbdfe645089129e308e26d5523.store", EMPTY),
    ("a5c4dfcbdfe645089129e308e26d5523.term", EMPTY),
];

const FILES_WITH_DELETES: &[(&str, &str)] = &[
    ("a5c4dfcbdfe645089129e308e26d5523.2.del", NINE),
    ("a5c4dfcbdfe645089129e308e26d5523.fast", EMPTY),
    ("a5c4dfcbdfe645089129e308e26d5523.fieldnorm", EMPTY),
    ("a5c4dfcbdfe645089129e308e26d5523.idx", NINE),
    ("a5c4dfcbdfe645089129e308e26d5523.pos", EMPTY),
    ("a5c4dfcbdfe645089129e308e26d5523.store", EMPTY),
    ("a5c4dfcbdfe645089129e308e26d5523.term", EMPTY),
];

const FILES_WITH_MORE_DELETES: &[(&str, &str)] = &[
    ("a5c4dfcbdfe645089129e308e26d5523.4.del", EMPTY),
    ("a5c4dfcbdfe645089129e308e26d5523.fast", EMPTY),
    ("a5c4dfcbdfe645089129e308e26d5523.fieldnorm", EMPTY),
    ("a5c4dfcbdfe645089129e308e26d5523.idx", NINE),
    ("a5c4dfcbdfe645089129e308e26d5523.pos", EMPTY),
    ("a5c4dfcbdfe645089129e308e26d5523.store", EMPTY),
    ("a5c4dfcbdfe645089129e308e26d5523.term", EMPTY),
];

// What `meta.json` has of the segment, of whose three documents none, one or two are deleted.
const ALL_DOCUMENTS: &str =
    r#"{"segment_id":"a5c4dfcb-dfe6-4508-9129-e308e26d5523","max_doc":3,"deletes":null}"#;

const WITH_ONE_DELETED: &str =
    r#"{"segment_id":"a5c4dfcb-dfe6-4508-9129-e308e26d5523","max_doc":3,"deletes":{"num_deleted_docs":1,"opstamp":2}}"#;

const WITH_TWO_DELETED: &str =
    r#"{"segment_id":"a5c4dfcb-dfe6-4508-9129-e308e26d5523","max_doc":3,"deletes":{"num_deleted_docs":2,"opstamp":4}}"#;

// No index was made. An opening makes one.
const NONE: Stored = Stored {
    meta: None,
    line: "open 0 0\n",
    files: &[],
};

const CREATED: Stored = Stored {
    meta: Some(Meta {
        segments: "",
        opstamp: "0",
    }),
    line: "open 0 0\n",
    files: &[],
};

// The segment is committed.
const COMMITTED: Stored = Stored {
    meta: Some(Meta {
        segments: ALL_DOCUMENTS,
        opstamp: "1",
    }),
    line: "open 1 1\n",
    files: FILES,
};

// It is committed once more.
const COMMITTED_AGAIN: Stored = Stored {
    meta: Some(Meta {
        segments: ALL_DOCUMENTS,
        opstamp: "2",
    }),
    line: "open 2 1\n",
    files: FILES,
};

// Then comes a commit without segments.
const WITHOUT_SEGMENTS: Stored = Stored {
    meta: Some(Meta {
        segments: "",
        opstamp: "3",
    }),
    line: "open 3 0\n",
    files: &[],
};

// A document of the segment is deleted, and it is committed again with the file of deletes.
const WITH_DELETES: Stored = Stored {
    meta: Some(Meta {
        segments: WITH_ONE_DELETED,
        opstamp: "3",
    }),
    line: "open 3 1\n",
    files: FILES_WITH_DELETES,
};

// The same with two documents, in another file.
const WITH_MORE_DELETES: Stored = Stored {
    meta: Some(Meta {
        segments: WITH_TWO_DELETED,
        opstamp: "5",
    }),
    line: "open 5 1\n",
    files: FILES_WITH_MORE_DELETES,
};

/// No index, one without segments, and the commit of the segment, at the places 0, 1 and 2.
pub(crate) const ONE_COMMIT: Table = Table {
    commits: &[NONE, CREATED, COMMITTED],
    names: &[
        "a5c4dfcbdfe645089129e308e26d5523.fast",
        "a5c4dfcbdfe645089129e308e26d5523.fieldnorm",
        "a5c4dfcbdfe645089129e308e26d5523.idx",
        "a5c4dfcbdfe645089129e308e26d5523.pos",
        "a5c4dfcbdfe645089129e308e26d5523.store",
        "a5c4dfcbdfe645089129e308e26d5523.term",
        "meta.json",
    ],
};

/// The same, and at the places 3 and 4 commits of the segment with deletes.
pub(crate) const DELETES: Table = Table {
    commits: &[NONE, CREATED, COMMITTED, WITH_DELETES, WITH_MORE_DELETES],
    names: &[
        "a5c4dfcbdfe645089129e308e26d5523.2.del",
        "a5c4dfcbdfe645089129e308e26d5523.4.del",
        "a5c4dfcbdfe645089129e308e26d5523.fast",
        "a5c4dfcbdfe645089129e308e26d5523.fieldnorm",
        "a5c4dfcbdfe645089129e308e26d5523.idx",
        "a5c4dfcbdfe645089129e308e26d5523.pos",
        "a5c4dfcbdfe645089129e308e26d5523.store",
        "a5c4dfcbdfe645089129e308e26d5523.term",
        "meta.json",
    ],
};

/// At the place 3 the segment is committed again, and at the place 4 no segment is. There are two files
/// besides that no commit needs.
pub(crate) const COLLECTIONS: Table = Table {
    commits: &[NONE, CREATED, COMMITTED, COMMITTED_AGAIN, WITHOUT_SEGMENTS],
    names: &[
        "00000000000000000000000000000001.idx",
        "00000000000000000000000000000001.pos",
        "a5c4dfcbdfe645089129e308e26d5523.fast",
        "a5c4dfcbdfe645089129e308e26d5523.fieldnorm",
        "a5c4dfcbdfe645089129e308e26d5523.idx",
        "a5c4dfcbdfe645089129e308e26d5523.pos",
        "a5c4dfcbdfe645089129e308e26d5523.store",
        "a5c4dfcbdfe645089129e308e26d5523.term",
        "meta.json",
    ],
};

// The text of these parts.
fn text_of<R: Abort>(rt: &R, alloc: Global, parts: &[&str]) -> String {
    let mut text = String::new(alloc);
    for part in parts {
        text.push_str(part).expect(rt, "memory");
    }
    text
}

/// The directory behind these parts of a script, replayed where nothing was.
pub(crate) fn behind<R: Abort>(rt: &R, alloc: Global, parts: &[&str]) -> TestBench {
    let text = text_of(rt, alloc, parts);
    let (bench, _events) = replayed(rt, alloc, empty_bench(rt, alloc), SCHEMA, text.as_str());
    bench
}

/// The moment at which the last line of these parts is told: its telling is the last call that is recorded.
pub(crate) fn told_at<R: Abort>(rt: &R, alloc: Global, parts: &[&str]) -> u64 {
    behind(rt, alloc, parts).moment()
}

/// The directory behind a replay of these parts where nothing was, whose device refuses the call with this
/// number.
pub(crate) fn refused<R: Abort>(rt: &R, alloc: Global, parts: &[&str], call: u64) -> TestBench {
    let text = text_of(rt, alloc, parts);
    let mut script = source(rt, alloc, text.as_str());
    let mut bench = empty_bench(rt, alloc);
    bench.fail_at(Vec::from_slice(alloc, &[call]).expect(rt, "memory"));
    let Replayed { outside, outcome } = replay(alloc, bench, SCHEMA.as_bytes(), &mut script);
    assert!(rt;
        outcome.is_ok() == (outside.faults() == 0),
        "a refused call is an error"
    );
    outside
}
