//! Files that are made of the bodies of several fields: their bytes, what is read of them, and what is
//! refused.
ghost use Rattle.std.specs.Prelude.{◌≡◌, [], false};

use crate::compare::is_file;
use crate::fixtures::all_owned;
use crate::written::{Content, file_of, written};
use std::alloc::Global;
use std::process::Abort;
use tv_base::{ByteCount, Field, TerminatingWrite};
use tv_framing::{CompositeFile, CompositeWrite};
use tv_test_support::{done, told};

// The spelling of 32431123, of 2 and of 1000000 as numbers of variable length.
const LARGE: &[u8] = &[0x13, 0x38, 0x3b, 0x8f];

const TWO: &[u8] = &[0x82];

const MILLION: &[u8] = &[0x40, 0x04, 0xbd];

// The file of the fields 0 and 4.
const TWO_FIELDS: &[u8] = &[
    0x13, 0x38, 0x3b, 0x8f, 0x82, 0x82, 0x80, 0, 0, 0, 0, 0x80, 0x84, 4, 0, 0, 0, 0x80, 13, 0, 0, 0,
];

// The file of two bodies of field 1, and one of field 0.
const TWO_BODIES_OF_ONE_FIELD: &[u8] = &[
    0x13, 0x38, 0x3b, 0x8f, 0x40, 0x04, 0xbd, 0x83, 0x80, 1, 0, 0, 0, 0x80, 0x84, 1, 0, 0, 0, 0x81,
    0x80, 0, 0, 0, 0, 0x80, 0x13, 0, 0, 0,
];

const NO_FIELDS: &[u8] = &[0x80, 1, 0, 0, 0];

fn field(id: u32) -> Field
    ensures { result ≡ id }
{
    Field::from_field_id(id)
}

fn put_two_fields<W: TerminatingWrite>(rt: &impl Abort, write: &mut CompositeWrite<W>)
    requires going { (W.view write.old.writer).ended ≡ false }
    requires none { write.old.parts ≡ [] }
    ensures going { (W.view write.new.writer).ended ≡ false }
{
    write.for_field(field(0)).expect(rt, "memory");
    write.write_all(LARGE).expect(rt, "written");
    write.for_field(field(4)).expect(rt, "memory");
    write.write_all(TWO).expect(rt, "written");
}

fn put_two_bodies_of_one_field<W: TerminatingWrite>(rt: &impl Abort, write: &mut CompositeWrite<W>)
    requires going { (W.view write.old.writer).ended ≡ false }
    requires none { write.old.parts ≡ [] }
    ensures going { (W.view write.new.writer).ended ≡ false }
{
    write.for_field_with_idx(field(1), 0).expect(rt, "memory");
    write.write_all(LARGE).expect(rt, "written");
    write.for_field_with_idx(field(1), 1).expect(rt, "memory");
    write.for_field_with_idx(field(0), 0).expect(rt, "memory");
    write.write_all(MILLION).expect(rt, "written");
}

// Writes the bodies of the fields 0 and 4.
pub(crate) fn write_two_fields<W: TerminatingWrite + Drop>(
    rt: &impl Abort,
    alloc: Global,
    writer: W,
)
    requires going { (W.view writer).ended ≡ false }
{
    let mut write = CompositeWrite::wrap(alloc, writer);
    put_two_fields(rt, &mut write);
    write.close().1.expect(rt, "closed");
}

// Writes two bodies of field 1, and one of field 0.
pub(crate) fn write_two_bodies_of_one_field<W: TerminatingWrite + Drop>(
    rt: &impl Abort,
    alloc: Global,
    writer: W,
)
    requires going { (W.view writer).ended ≡ false }
{
    let mut write = CompositeWrite::wrap(alloc, writer);
    put_two_bodies_of_one_field(rt, &mut write);
    write.close().1.expect(rt, "closed");
}

// Writes no bodies.
pub(crate) fn write_no_fields<W: TerminatingWrite + Drop>(rt: &impl Abort, alloc: Global, writer: W)
    requires going { (W.view writer).ended ≡ false }
{
    CompositeWrite::wrap(alloc, writer)
        .close()
        .1
        .expect(rt, "closed");
}

/// What files are to have.
pub(crate) const WRITTEN: &[(Content, &[u8])] = &[
    (Content::TwoFields, TWO_FIELDS),
    (Content::TwoBodiesOfOneField, TWO_BODIES_OF_ONE_FIELD),
    (Content::NoFields, NO_FIELDS),
];

// A file, an address, and the body that is read there, if there is one.
type Row<'a> = (&'a [u8], u32, u64, Option<&'a [u8]>);

/// Looks at the only body of a field.
pub(crate) fn assert_body(rt: &impl Abort, file: &CompositeFile, id: u32, want: &[u8]) {
    let body = file.open_read(field(id)).expect(rt, "memory");
    is_file(rt, &body.expect(rt, "a body"), want);
}

// Looks at the body at an address.
fn assert_body_at(rt: &impl Abort, file: &CompositeFile, id: u32, idx: u64, want: Option<&[u8]>) {
    match (
        file.open_read_with_idx(field(id), idx).expect(rt, "memory"),
        want,
    ) {
        (Some(body), Some(want)) => is_file(rt, &body, want),
        (None, None) => {}
        _ => panic!(rt; "field {id} has another body"),
    }
}

// The composite file of these bytes.
fn opened(rt: &impl Abort, alloc: Global, bytes: &[u8]) -> CompositeFile {
    CompositeFile::open(alloc, &file_of(rt, alloc, bytes)).expect(rt, "composite")
}

fn assert_read(rt: &impl Abort, alloc: Global, row: Row<'_>) {
    let (bytes, id, idx, want) = row;
    let file = opened(rt, alloc, bytes);
    assert_body_at(rt, &file, id, idx, want);
}

const READ: &[Row<'static>] = &[
    (TWO_FIELDS, 0, 0, Some(LARGE)),
    (TWO_FIELDS, 4, 0, Some(TWO)),
    (TWO_FIELDS, 1, 0, None),
    (TWO_BODIES_OF_ONE_FIELD, 1, 0, Some(LARGE)),
    (TWO_BODIES_OF_ONE_FIELD, 1, 1, Some(&[])),
    (TWO_BODIES_OF_ONE_FIELD, 0, 0, Some(MILLION)),
    (NO_FIELDS, 0, 0, None),
];

#[test]
fn composite_files_are_read(rt: HostRuntime) {
    for row in READ {
        assert_read(&rt, rt.alloc(), *row);
    }
    assert_body_at(&rt, &CompositeFile::empty(rt.alloc()), 0, 0, None);
    let bytes = written(&rt, rt.alloc(), Content::TwoFields);
    assert_read(&rt, rt.alloc(), (bytes.as_slice(), 0, 0, Some(LARGE)));
    assert_read(&rt, rt.alloc(), (bytes.as_slice(), 4, 0, Some(TWO)));
}

// What a file answers that isn't of the form.
const OTHER_FORM: &str =
    r#"Err(Fault(IoFault { kind: InvalidData, text: "Composite file is not of the stated form." }))"#;

// Whether a file of these bytes is refused.
fn is_refused<R: Abort + Eprint>(rt: &R, alloc: Global, bytes: &[u8]) -> bool {
    let opened = CompositeFile::open(alloc, &file_of(rt, alloc, bytes));
    told(rt, alloc, done(opened), OTHER_FORM)
}

const REFUSED: &[&[u8]] = &[
    // The first two bytes of `TWO_FIELDS` are gone, or its last one.
    &[
        0x3b, 0x8f, 0x82, 0x82, 0x80, 0, 0, 0, 0, 0x80, 0x84, 4, 0, 0, 0, 0x80, 13, 0, 0, 0,
    ],
    &[
        0x13, 0x38, 0x3b, 0x8f, 0x82, 0x82, 0x80, 0, 0, 0, 0, 0x80, 0x84, 4, 0, 0, 0, 0x80, 13, 0,
        0,
    ],
    // An address stands twice.
    &[
        0x13, 0x38, 0x3b, 0x8f, 0x82, 0x82, 0x80, 0, 0, 0, 0, 0x80, 0x84, 0, 0, 0, 0, 0x80, 13, 0,
        0, 0,
    ],
    // The count is spelled with a byte too many.
    &[
        0x13, 0x38, 0x3b, 0x8f, 0x82, 0x02, 0x80, 0x80, 0, 0, 0, 0, 0x80, 0x84, 4, 0, 0, 0, 0x80,
        14, 0, 0, 0,
    ],
    &[1, 2, 3],
    &[],
];

#[test]
fn refused_composite_files(rt: HostRuntime) {
    for bytes in REFUSED {
        assert!(rt; is_refused(&rt, rt.alloc(), bytes), "{bytes:?}");
    }
}

// Looks at how many bytes the bodies of five fields take.
fn assert_size(rt: &impl Abort, file: &CompositeFile, names: &[String]) {
    assert!(rt; names.len() == 5 && file.fields_below(5));
    let usage = file.space_usage(names).expect(rt, "small indexes");
    assert!(rt; usage.total() == ByteCount(5));
}

#[test]
fn sizes_of_the_bodies_of_five_fields(rt: HostRuntime) {
    let file = opened(&rt, rt.alloc(), TWO_FIELDS);
    let names = all_owned(&rt, rt.alloc(), &["f0", "f1", "f2", "f3", "f4"]);
    assert_size(&rt, &file, names.as_slice());
    assert_body(&rt, &file, 4, TWO);
}
