//! The footers of files: their bytes, what is read of them, and what is refused.
ghost use Rattle.std.specs.Prelude.{◌≡◌, false};

use crate::compare::{is_file, is_number};
use crate::written::{Content, file_of};
use std::alloc::Global;
use std::process::Abort;
use tv_base::TerminatingWrite;
use tv_checksum::Crc32;
use tv_framing::{Footer, FooterProxy};
use tv_test_support::{done, told};

// A footer of 79 bytes of JSON, with the length of that and the number by which footers are known.
const FOOTER_OF_123: &[u8] =
    b"{\"version\":{\"major\":0,\"minor\":26,\"patch\":2,\"index_format_version\":7},\"crc\":123}\x4f\0\0\0\x39\x05\0\0";

// Nine bytes and their footer, which has 86 bytes of JSON.
const NINE_BYTES: &[u8] =
    b"123456789{\"version\":{\"major\":0,\"minor\":26,\"patch\":2,\"index_format_version\":7},\"crc\":3421780262}\x56\0\0\0\x39\x05\0\0";

// A body, and a footer with blanks, a repeated key, an unknown key and another order: 102 bytes of JSON.
const OTHER_SPELLING: &[u8] =
    b"body { \"crc\" : 1, \"crc\":5, \"more\":[], \"version\":{\"patch\":3,\"minor\":2,\"major\":1,\"index_format_version\":8} }\x66\0\0\0\x39\x05\0\0";

// Appends a footer.
fn append_footer<W: TerminatingWrite>(rt: &impl Abort, alloc: Global, writer: &mut W)
    requires going { (W.view writer.old).ended ≡ false }
    ensures going { (W.view writer.new).ended ≡ false }
{
    Footer::new(123)
        .append_footer(alloc, writer)
        .expect(rt, "written");
}

// Writes a footer alone.
pub(crate) fn write_footer<W: TerminatingWrite + Drop>(
    rt: &impl Abort,
    alloc: Global,
    mut writer: W,
)
    requires going { (W.view writer).ended ≡ false }
{
    append_footer(rt, alloc, &mut writer);
    writer.terminate().expect(rt, "ended");
}

// Writes nine bytes in two pieces, and a footer with their checksum.
pub(crate) fn write_nine_bytes<W: TerminatingWrite + Drop>(
    rt: &impl Abort,
    alloc: Global,
    writer: W,
)
    requires going { (W.view writer).ended ≡ false }
{
    let mut proxy = FooterProxy::<W, Crc32>::new(alloc, writer);
    proxy.write_all(b"1234").expect(rt, "written");
    proxy.write_all(b"56789").expect(rt, "written");
    proxy.flush().expect(rt, "flushed");
    proxy.terminate().expect(rt, "ended");
}

// Writes four bytes and flushes them, and no footer.
pub(crate) fn flush_four_bytes<W: TerminatingWrite + Drop>(
    rt: &impl Abort,
    alloc: Global,
    writer: W,
)
    requires going { (W.view writer).ended ≡ false }
{
    let mut proxy = FooterProxy::<W, Crc32>::new(alloc, writer);
    proxy.write_all(b"1234").expect(rt, "written");
    proxy.flush().expect(rt, "flushed");
}

/// What files are to have.
pub(crate) const WRITTEN: &[(Content, &[u8])] = &[
    (Content::Footer, FOOTER_OF_123),
    (Content::FourBytes, b"1234"),
    (Content::NineBytes, NINE_BYTES),
];

// What is read of a file: its body, and its footer with whether the format of that is good.
type Row<'a> = (&'a [u8], &'a [u8], &'a str);

fn assert_read<R: Abort + Eprint>(rt: &R, alloc: Global, row: Row<'_>) {
    let (bytes, want, of_footer) = row;
    let file = file_of(rt, alloc, bytes);
    let (footer, body) = Footer::extract_footer(alloc, file).expect(rt, "a footer");
    assert!(rt; told(rt, alloc, (footer, footer.is_compatible()), of_footer));
    is_number(rt, u64::from(footer.crc()), u64::from(footer.crc));
    is_file(rt, &body, want);
}

const READ: &[Row<'static>] = &[
    (
        FOOTER_OF_123,
        b"",
        "(Footer { version: tantivy v0.26.2, index_format v7, crc: 123 }, Ok(()))",
    ),
    (
        NINE_BYTES,
        b"123456789",
        "(Footer { version: tantivy v0.26.2, index_format v7, crc: 3421780262 }, Ok(()))",
    ),
    (
        OTHER_SPELLING,
        b"body",
        "(Footer { version: tantivy v1.2.3, index_format v8, crc: 5 }, Err(IndexMismatch { library_version: tantivy v0.26.2, index_format v7, index_version: tantivy v1.2.3, index_format v8 }))",
    ),
];

// Bytes that aren't read, and what is answered.
const REFUSED: &[(&[u8], &str)] = &[
    (
        &[0, 0, 0, 0, 0x39, 0x05, 0],
        r#"Err(Fault(IoFault { kind: UnexpectedEof, text: "File corrupted. The file is smaller than 8 bytes (len=7)." }))"#,
    ),
    (
        &[0, 0, 0, 0, 0xb3, 0x15, 0, 0],
        r#"Err(Fault(IoFault { kind: InvalidData, text: "Footer magic byte mismatch. File corrupted or index was created using old an tantivy version which is not supported anymore. Please use tantivy 0.15 or above to recreate the index." }))"#,
    ),
    (
        &[0x64, 0, 0, 0, 0x39, 0x05, 0, 0],
        r#"Err(Fault(IoFault { kind: UnexpectedEof, text: "File corrupted. The file is smaller than it's footer bytes (len=108)." }))"#,
    ),
    (
        &[0x51, 0xc3, 0, 0, 0x39, 0x05, 0, 0],
        r#"Err(Fault(IoFault { kind: InvalidData, text: "Footer seems invalid as it suggests a footer len of 50001. File is corrupted, or the index was created with a different & old version of tantivy." }))"#,
    ),
    (
        &[b'{', b'}', 2, 0, 0, 0, 0x39, 0x05, 0, 0],
        r#"Err(Fault(IoFault { kind: InvalidData, text: "Footer is not of the stated form." }))"#,
    ),
];

fn assert_refused<R: Abort + Eprint>(rt: &R, alloc: Global, bytes: &[u8], want: &str) {
    let refused = done(Footer::extract_footer(alloc, file_of(rt, alloc, bytes)));
    assert!(rt; told(rt, alloc, refused, want));
}

#[test]
fn footers_are_read_or_refused(rt: HostRuntime) {
    for row in READ {
        assert_read(&rt, rt.alloc(), *row);
    }
    for (bytes, want) in REFUSED {
        assert_refused(&rt, rt.alloc(), bytes, want);
    }
}
