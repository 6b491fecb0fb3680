//! Files with footers of all kinds in a managed directory: what their bodies are, and which checksums
//! agree.

use crate::compare::is_file;
use crate::composites::assert_body;
use crate::empty::{Empty, TestBench};
use crate::managed::{Call, Run, Step, on_file, take_runs, wrapped};
use crate::written::{Content, written};
use std::alloc::Global;
use std::process::Abort;
use tv_base::FileSlice;
use tv_directory::Directory;
use tv_framing::CompositeFile;
use tv_managed::ManagedDirectory;

/// The bytes of a file, as a text where they are one: a long list of bytes in a table is dear to prove.
#[derive(Clone, Copy)]
pub(crate) enum Bytes {
    Text(&'static str),
    Raw(&'static [u8]),
}

// The checksum of `123456789` is CBF43926.
const SEALED: &str =
    "123456789{\"version\":{\"major\":0,\"minor\":26,\"patch\":2,\"index_format_version\":7},\"crc\":3421780262}\x56\x00\x00\x00\x39\x05\x00\x00";

const EMPTY: &str =
    r#"Err(IoError { io_error: IoFault { kind: UnexpectedEof, text: "File corrupted. The file is smaller than 8 bytes (len=0)." }, filepath: "a.idx" })"#;

const OTHER_MAGIC: &str =
    r#"Err(IoError { io_error: IoFault { kind: InvalidData, text: "Footer magic byte mismatch. File corrupted or index was created using old an tantivy version which is not supported anymore. Please use tantivy 0.15 or above to recreate the index." }, filepath: "a.idx" })"#;

const LONG: &str =
    r#"Err(IoError { io_error: IoFault { kind: InvalidData, text: "Footer seems invalid as it suggests a footer len of 50001. File is corrupted, or the index was created with a different & old version of tantivy." }, filepath: "a.idx" })"#;

const TOO_SHORT: &str =
    r#"Err(IoError { io_error: IoFault { kind: UnexpectedEof, text: "File corrupted. The file is smaller than it's footer bytes (len=94)." }, filepath: "a.idx" })"#;

const JUST_TOO_SHORT: &str =
    r#"Err(IoError { io_error: IoFault { kind: UnexpectedEof, text: "File corrupted. The file is smaller than it's footer bytes (len=86)." }, filepath: "a.idx" })"#;

const OTHER_FORM: &str =
    r#"Err(IoError { io_error: IoFault { kind: InvalidData, text: "Footer is not of the stated form." }, filepath: "a.idx" })"#;

// Of a format that isn't read.
const OF_FORMAT_3: &str =
    "Err(IncompatibleIndex(IndexMismatch { library_version: tantivy v0.26.2, index_format v7, index_version: tantivy v0.26.2, index_format v3 }))";

const OF_FORMAT_8: &str =
    "Err(IncompatibleIndex(IndexMismatch { library_version: tantivy v0.26.2, index_format v7, index_version: tantivy v0.26.2, index_format v8 }))";

/// The bytes of a file, what it reads, and whether its checksum agrees.
pub(crate) type Row = (Bytes, &'static str, &'static str);

const FILES: &[Step] = &[
    Step::Footer(&(Bytes::Text(SEALED), "123456789", "Ok(true)")),
    // The oldest format, and another spelling.
    Step::Footer(&(
        Bytes::Text(
            "body{\"version\":{\"major\":0,\"minor\":26,\"patch\":2,\"index_format_version\":4},\"crc\":7}\x4d\x00\x00\x00\x39\x05\x00\x00",
        ),
        "body",
        "Ok(false)",
    )),
    Step::Footer(&(
        Bytes::Text(
            " { \"crc\":1, \"x\":[], \"crc\":0, \"version\":{\"patch\":1,\"minor\":2,\"major\":3,\"index_format_version\":5}}\x60\x00\x00\x00\x39\x05\x00\x00",
        ),
        "",
        "Ok(true)",
    )),
    // Formats that aren't read, whose checksums are compared all the same.
    Step::Footer(&(
        Bytes::Text(
            "body{\"version\":{\"major\":0,\"minor\":26,\"patch\":2,\"index_format_version\":3},\"crc\":7}\x4d\x00\x00\x00\x39\x05\x00\x00",
        ),
        OF_FORMAT_3,
        "Ok(false)",
    )),
    Step::Footer(&(
        Bytes::Text(
            "123456789{\"version\":{\"major\":0,\"minor\":26,\"patch\":2,\"index_format_version\":8},\"crc\":3421780262}\x56\x00\x00\x00\x39\x05\x00\x00",
        ),
        OF_FORMAT_8,
        "Ok(true)",
    )),
    // Another checksum, and another body.
    Step::Footer(&(
        Bytes::Text(
            "123456789{\"version\":{\"major\":0,\"minor\":26,\"patch\":2,\"index_format_version\":7},\"crc\":3421780263}\x56\x00\x00\x00\x39\x05\x00\x00",
        ),
        "123456789",
        "Ok(false)",
    )),
    Step::Footer(&(
        Bytes::Text(
            "12345678{\"version\":{\"major\":0,\"minor\":26,\"patch\":2,\"index_format_version\":7},\"crc\":3421780262}\x56\x00\x00\x00\x39\x05\x00\x00",
        ),
        "12345678",
        "Ok(false)",
    )),
    Step::Footer(&(Bytes::Text(""), EMPTY, EMPTY)),
    Step::Footer(&(Bytes::Text("123456789"), OTHER_MAGIC, OTHER_MAGIC)),
    Step::Footer(&(
        Bytes::Text(
            "{\"version\":{\"major\":0,\"minor\":26,\"patch\":2,\"index_format_version\":7},\"crc\":7}\x4d\x00\x00\x00\x39\x05\x00",
        ),
        OTHER_MAGIC,
        OTHER_MAGIC,
    )),
    Step::Footer(&(Bytes::Raw(b"\x51\xc3\x00\x00\x39\x05\x00\x00"), LONG, LONG)),
    Step::Footer(&(
        Bytes::Text("\x56\x00\x00\x00\x39\x05\x00\x00"),
        TOO_SHORT,
        TOO_SHORT,
    )),
    Step::Footer(&(
        Bytes::Text(
            "{\"version\":{\"major\":0,\"minor\":26,\"patch\":2,\"index_format_version\":7},\"crc\":7}\x4e\x00\x00\x00\x39\x05\x00\x00",
        ),
        JUST_TOO_SHORT,
        JUST_TOO_SHORT,
    )),
    Step::Footer(&(
        Bytes::Text(
            "{\"version\":{\"major\":0,\"minor\":26,\"patch\":2,\"index_format_version\":7},\"crc\":07}\x4e\x00\x00\x00\x39\x05\x00\x00",
        ),
        OTHER_FORM,
        OTHER_FORM,
    )),
    Step::Footer(&(
        Bytes::Text(
            "{\"version\":{\"major\":0,\"minor\":26,\"patch\":2,\"index_format_version\":7},\"crc\":4294967296}\x56\x00\x00\x00\x39\x05\x00\x00",
        ),
        OTHER_FORM,
        OTHER_FORM,
    )),
];

/// These bytes.
pub(crate) fn slice_of(bytes: Bytes) -> &'static [u8] {
    match bytes {
        Bytes::Text(text) => text.as_bytes(),
        Bytes::Raw(bytes) => bytes,
    }
}

/// Whether a file of these bytes is read and checked as it is wanted.
pub(crate) fn takes<R: Eprint, D: Directory>(
    rt: &R,
    alloc: Global,
    managed: &mut ManagedDirectory<D>,
    (bytes, read, checked): Row,
) -> bool {
    let steps = [
        (Call::AtomicWrite, slice_of(bytes), "Ok(())"),
        (Call::OpenRead, b"".as_slice(), read),
        (Call::GetFileHandle, b"".as_slice(), read),
        (Call::ValidateChecksum, b"".as_slice(), checked),
    ];
    for (call, bytes, want) in steps {
        if !on_file(rt, alloc, managed, (call, "a.idx", bytes, want)) {
            return false;
        }
    }
    true
}

const RUNS: &[Run] = &[(&[], &[], FILES, 0)];

#[test]
fn footers_are_taken_or_refused(rt: HostRuntime) {
    take_runs(&rt, rt.alloc(), RUNS);
}

fn read_back<R: Abort, D: Directory>(
    rt: &R,
    managed: &mut ManagedDirectory<D>,
    bytes: &[u8],
) -> FileSlice {
    assert!(rt; !managed.is_held("a.idx"));
    managed.atomic_write("a.idx", bytes).expect(rt, "written");
    managed.open_read("a.idx").expect(rt, "a footer")
}

// The body of a file of these bytes, as a managed directory reads it.
fn body_in<R: Abort, D: Empty>(rt: &R, alloc: Global, directory: D, bytes: &[u8]) -> FileSlice {
    let mut managed = wrapped(rt, alloc, directory);
    let body = read_back(rt, &mut managed, bytes);
    drop(managed.into_directory());
    body
}

// The body of a file with this content.
fn body_of<R: Abort, D: Empty>(rt: &R, alloc: Global, content: Content) -> FileSlice {
    let bytes = written(rt, alloc, content);
    let directory = D::empty(alloc).expect(rt, "memory");
    body_in(rt, alloc, directory, bytes.as_slice())
}

// Looks at the body of field 4, which is the spelling of 2.
fn assert_two<R: Abort>(rt: &R, alloc: Global, body: &FileSlice) {
    let file = CompositeFile::open(alloc, body).expect(rt, "composite");
    assert_body(rt, &file, 4, &[0x82]);
}

#[test]
fn what_stands_behind_a_proxy_is_read_back(rt: HostRuntime) {
    let a = rt.alloc();
    is_file(
        &rt,
        &body_of::<_, TestBench>(&rt, a, Content::NineBytes),
        b"123456789",
    );
    assert_two(
        &rt,
        a,
        &body_of::<_, TestBench>(&rt, a, Content::SealedFields),
    );
}
