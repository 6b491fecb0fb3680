//! Reports of how much space files take.
ghost use Rattle.std.specs.Prelude.{◌≤◌};

use crate::compare::{is_number, is_text};
use std::alloc::Global;
use std::process::Abort;
use tv_base::ByteCount;
use tv_framing::{
    ColumnSpaceUsage, ComponentSpaceUsage, FieldUsage, PerFieldSpaceUsage, SearcherSpaceUsage,
    SegmentComponent, SegmentSpaceUsage, StoreSpaceUsage,
};

// Looks whether these sizes are the wanted ones.
fn are<T: PartialEq>(rt: &impl Abort, sizes: &[T], want: &[T]) {
    assert!(rt; sizes == want);
}

// The usage of a field of this name, with one part of this size and this column.
fn field_with(
    rt: &impl Abort,
    alloc: Global,
    name: &str,
    part: (usize, u64),
    column: ColumnSpaceUsage,
) -> FieldUsage
    requires { part.0 ≤ 65535 }
{
    let name = String::from_str(alloc, name).expect(rt, "memory");
    let mut field = FieldUsage::empty(alloc, name);
    field
        .add_field_idx(part.0, ByteCount(part.1))
        .expect(rt, "memory");
    field.set_column_usage(column);
    field
}

// The same with a column of this size, without a dictionary.
fn field_of(
    rt: &impl Abort,
    alloc: Global,
    name: &str,
    part: (usize, u64),
    column: u64,
) -> FieldUsage
    requires { part.0 ≤ 65535 }
{
    let column = ColumnSpaceUsage::new(ByteCount(column), None);
    field_with(rt, alloc, name, part, column)
}

fn three_fields(rt: &impl Abort, alloc: Global) -> Vec<FieldUsage> {
    let mut fields = Vec::new(alloc);
    for (name, part, column) in [
        ("title", (0, 3), 100),
        ("body", (1, 10), 0),
        ("title", (0, 4), 200),
    ] {
        fields
            .push(field_of(rt, alloc, name, part, column))
            .expect(rt, "memory");
    }
    fields
}

fn assert_total(rt: &impl Abort, field: &FieldUsage, name: &str, total: u64) {
    is_text(rt, field.field_name(), name);
    is_number(rt, field.total().get_bytes(), total);
}

// A field, and how much it takes.
const TOTALS: &[(&str, u64)] = &[("body", 10), ("title", 307)];

fn assert_totals(rt: &impl Abort, usage: &PerFieldSpaceUsage) {
    is_number(rt, usage.total().get_bytes(), 317);
    for (field, (name, total)) in usage.fields().zip(TOTALS) {
        assert_total(rt, field, name, *total);
    }
}

#[test]
fn totals_of_added_usages_are_their_sums(rt: HostRuntime) {
    let fields = three_fields(&rt, rt.alloc());
    let usage = PerFieldSpaceUsage::new(rt.alloc(), fields).expect(&rt, "memory");
    assert_totals(&rt, &usage);
}

// The usage of one field of this size.
fn of_size(rt: &impl Abort, alloc: Global, size: u64) -> PerFieldSpaceUsage {
    let mut fields = Vec::new(alloc);
    fields
        .push(field_of(rt, alloc, "title", (0, size), 0))
        .expect(rt, "memory");
    PerFieldSpaceUsage::new(alloc, fields).expect(rt, "memory")
}

// A segment of three documents, whose files take the powers of two up to 128.
fn segment_of_255(rt: &impl Abort, alloc: Global) -> SegmentSpaceUsage {
    SegmentSpaceUsage::new(
        3,
        of_size(rt, alloc, 1),
        of_size(rt, alloc, 2),
        of_size(rt, alloc, 4),
        of_size(rt, alloc, 8),
        of_size(rt, alloc, 16),
        StoreSpaceUsage::new(ByteCount(32), ByteCount(64)),
        ByteCount(128),
    )
}

// What one kind of file takes, whatever it is made of.
fn total_of(usage: &ComponentSpaceUsage) -> ByteCount {
    match usage {
        ComponentSpaceUsage::PerField(fields) => fields.total(),
        ComponentSpaceUsage::Store(store) => store.total(),
        ComponentSpaceUsage::Basic(size) => *size,
    }
}

fn assert_component(
    rt: &impl Abort,
    segment: &SegmentSpaceUsage,
    kind: SegmentComponent,
    size: u64,
) {
    let usage = segment.component(kind).expect(rt, "memory");
    is_number(rt, total_of(&usage).get_bytes(), size);
}

#[test]
fn sizes_of_each_kind_of_file(rt: HostRuntime) {
    let segment = segment_of_255(&rt, rt.alloc());
    let sizes: &[u64] = &[2, 4, 8, 16, 1, 96, 128];
    for (kind, size) in SegmentComponent::iterator().zip(sizes) {
        assert_component(&rt, &segment, *kind, *size);
    }
}

fn assert_segment(rt: &impl Abort, segment: &SegmentSpaceUsage) {
    is_number(rt, u64::from(segment.num_docs()), 3);
    let sizes = [
        segment.termdict().total().get_bytes(),
        segment.postings().total().get_bytes(),
        segment.positions().total().get_bytes(),
        segment.fast_fields().total().get_bytes(),
        segment.fieldnorms().total().get_bytes(),
        segment.store().data_usage().get_bytes(),
        segment.store().offsets_usage().get_bytes(),
        segment.deletes().get_bytes(),
    ];
    are(rt, sizes.as_slice(), &[1, 2, 4, 8, 16, 32, 64, 128]);
}

#[test]
fn sizes_of_a_searcher(rt: HostRuntime) {
    let mut searcher = SearcherSpaceUsage::new(rt.alloc());
    searcher
        .add_segment(segment_of_255(&rt, rt.alloc()))
        .expect(&rt, "memory");
    for segment in searcher.segments() {
        assert_segment(&rt, segment);
    }
    is_number(&rt, searcher.segments().len() as u64, 1);
    is_number(&rt, searcher.total().get_bytes(), 255);
}

// A column of 100 bytes with a dictionary of 7, as its field tells it and as it tells itself.
const COLUMN: &[Option<ByteCount>] = &[
    Some(ByteCount(100)),
    Some(ByteCount(7)),
    Some(ByteCount(100)),
    Some(ByteCount(7)),
];

// A field of a part of 3 bytes, and a column of 100 with a dictionary of 7.
fn assert_field(rt: &impl Abort, field: &FieldUsage, column: &ColumnSpaceUsage) {
    are(rt, field.sub_num_bytes(), &[Some(ByteCount(3))]);
    let sizes = [
        field.column_num_bytes(),
        field.dictionary_num_bytes(),
        Some(column.column_num_bytes()),
        column.dictionary_num_bytes(),
    ];
    are(rt, sizes.as_slice(), COLUMN);
    assert!(rt; field.column_space_usage() == Some(column));
    is_number(rt, field.total().get_bytes(), 110);
}

#[test]
fn sizes_of_a_field(rt: HostRuntime) {
    let column = ColumnSpaceUsage::new(ByteCount(100), Some(ByteCount(7)));
    let field = field_with(&rt, rt.alloc(), "title", (0, 3), column);
    assert_field(&rt, &field, &column);
}
