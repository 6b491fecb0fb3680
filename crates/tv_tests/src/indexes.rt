//! Indexes: how they are opened, and the commits that they show.
ghost use Rattle.std.specs.Prelude.{◌≡◌, None};

use crate::closing::{Close, outcome};
use crate::compare::{are_bytes, are_made, is_made, is_number};
use crate::empty::{Empty, TestRam};
use crate::index::{CORRUPT, FIRST, OTHER_SCHEMA, T, schema};
use std::alloc::Global;
use std::process::Abort;
use tv_base::{META_FILEPATH, Opstamp, TantivyError};
use tv_directory::Directory;
use tv_formats::SegmentComponent;
use tv_index::{
    Index, IndexBuilder, IndexMeta, IndexSettings, Segment, SegmentId, SegmentMeta,
    SegmentMetaInventory, save_metas,
};
use tv_managed::Refused;
use tv_test_support::{done, told};

// What stands as `meta.json`, the schema that is passed, and what comes of the opening.
type Opening = (Option<&'static str>, Option<&'static str>, &'static str);

const OPENINGS: &[Opening] = &[
    (None, None, r#"Err(InvalidArgument("no schema passed"))"#),
    (
        Some(FIRST),
        None,
        r#"Err(IndexBuilderMissingArgument("schema"))"#,
    ),
    (Some(FIRST), Some("[]"), OTHER_SCHEMA),
    (Some("{"), None, CORRUPT),
    (Some(FIRST), Some(T), "Ok(())"),
    (None, Some(T), "Ok(())"),
];

// A builder with this schema, if there is one.
fn builder<R: Abort>(rt: &R, alloc: Global, text: Option<&str>) -> IndexBuilder {
    match text {
        Some(text) => IndexBuilder::new().schema(schema(rt, alloc, text)),
        None => IndexBuilder::new(),
    }
}

// A directory with this `meta.json`, if there is one.
fn directory<R: Abort, D: Empty>(rt: &R, alloc: Global, meta: Option<&str>) -> D {
    let mut directory = D::empty(alloc).expect(rt, "memory");
    if let Some(text) = meta {
        directory
            .atomic_write(META_FILEPATH, text.as_bytes())
            .expect(rt, "memory");
    }
    directory
}

// Opens what stands, or makes an index, which ends as it is to end.
fn opens<R: Abort + Eprint, D: Empty>(rt: &R, alloc: Global, opening: Opening) -> bool {
    let (meta, schema, want) = opening;
    let directory: D = directory(rt, alloc, meta);
    let opened = builder(rt, alloc, schema).open_or_create(alloc, directory);
    told(rt, alloc, outcome(opened), want)
}

// T with its keys in the order of their bytes.
const SORTED: &str =
    "[{\"name\":\"text\",\"options\":{\"fast\":false,\"indexing\":{\"fieldnorms\":true,\"record\":\"position\",\"tokenizer\":\"default\"},\"stored\":false},\"type\":\"text\"}]";

// Whether an index was opened that has this schema.
fn is_open<R: Abort, D: Directory + Drop>(rt: &R, opened: Result<Index<D>, Refused<D>>) {
    match opened {
        Ok(index) => {
            are_bytes(rt, index.schema().text(), SORTED.as_bytes());
            index.close();
        }
        Err(_) => panic!(rt; "it is opened"),
    }
}

// Opens what stands.
fn stands<R: Abort, D: Empty>(rt: &R, alloc: Global, meta: &str) {
    let directory: D = directory(rt, alloc, Some(meta));
    is_open(rt, Index::open(alloc, directory));
}

#[test]
fn what_stands_is_opened_or_refused(rt: HostRuntime) {
    for (number, opening) in OPENINGS.iter().enumerate() {
        assert!(rt;
            opens::<_, TestRam>(&rt, rt.alloc(), *opening),
            "opening {number}"
        );
    }
    stands::<_, TestRam>(&rt, rt.alloc(), FIRST);
}

// A commit of another schema than T.
const OTHER: &str = "{\"segments\":[],\"schema\":[],\"opstamp\":7}";

// What stands as `meta.json`, whether that is an index, what comes of making one with the schema T, and what of
// opening the one that stands, or making one.
type Standing = (
    Option<&'static str>,
    &'static str,
    &'static str,
    &'static str,
);

const STANDINGS: &[Standing] = &[
    (None, "Ok(false)", "Ok(())", "Ok(())"),
    (Some(FIRST), "Ok(true)", "Ok(())", "Ok(())"),
    // A new index replaces what stands, whatever that is.
    (Some("{"), "Ok(true)", "Ok(())", CORRUPT),
    (Some(OTHER), "Ok(true)", "Ok(())", OTHER_SCHEMA),
];

// Whether it is told as it is to be that an index stands.
fn is_there<R: Abort + Eprint, D: Empty>(
    rt: &R,
    alloc: Global,
    meta: Option<&str>,
    want: &str,
) -> bool {
    let mut directory: D = directory(rt, alloc, meta);
    told(rt, alloc, Index::exists(&mut directory), want)
}

// Makes an index, which ends as it is to end.
fn makes<R: Abort + Eprint, D: Empty>(
    rt: &R,
    alloc: Global,
    meta: Option<&str>,
    want: &str,
) -> bool {
    let directory: D = directory(rt, alloc, meta);
    let schema = schema(rt, alloc, T);
    let made = Index::create(alloc, directory, schema, IndexSettings::new());
    told(rt, alloc, outcome(made), want)
}

// Opens the index that stands, or makes one, which ends as it is to end.
fn opens_or_makes<R: Abort + Eprint, D: Empty>(
    rt: &R,
    alloc: Global,
    meta: Option<&str>,
    want: &str,
) -> bool {
    let directory: D = directory(rt, alloc, meta);
    let opened = Index::open_or_create(alloc, directory, schema(rt, alloc, T));
    told(rt, alloc, outcome(opened), want)
}

// Whether all goes so.
fn goes_so<R: Abort + Eprint, D: Empty>(rt: &R, alloc: Global, standing: Standing) -> bool {
    let (meta, there, made, opened) = standing;
    is_there::<R, D>(rt, alloc, meta, there)
        && makes::<R, D>(rt, alloc, meta, made)
        && opens_or_makes::<R, D>(rt, alloc, meta, opened)
}

#[test]
fn what_stands_is_replaced_or_opened(rt: HostRuntime) {
    for (number, standing) in STANDINGS.iter().enumerate() {
        assert!(rt;
            goes_so::<_, TestRam>(&rt, rt.alloc(), *standing),
            "standing {number}"
        );
    }
}

// Adds a segment of five documents.
fn add_segment<R: Abort, D: Directory>(rt: &R, index: &mut Index<D>, meta: &mut IndexMeta, id: u8) {
    let share = index
        .new_segment_meta(SegmentId::from_bytes([id; 16]), 5)
        .expect(rt, "memory");
    meta.segments.push(share).expect(rt, "memory");
}

// A commit of this number with one segment more than the last one.
fn next_commit<R: Abort, D: Directory>(
    rt: &R,
    alloc: Global,
    index: &mut Index<D>,
    opstamp: Opstamp,
    id: u8,
) -> IndexMeta {
    let mut meta = index.load_metas(alloc).expect(rt, "a commit");
    add_segment(rt, index, &mut meta, id);
    meta.opstamp = opstamp;
    meta
}

// Saves that commit.
fn commit<R: Abort, D: Directory>(
    rt: &R,
    alloc: Global,
    index: &mut Index<D>,
    opstamp: Opstamp,
    id: u8,
) {
    let meta = next_commit(rt, alloc, index, opstamp, id);
    assert!(rt; !index.directory().is_held(META_FILEPATH));
    save_metas(alloc, &meta, index.directory_mut()).expect(rt, "saved");
}

// Looks at the segments of the last commit, of which the second was made first.
fn shows_two<R: Abort, D: Directory>(rt: &R, alloc: Global, index: &mut Index<D>) {
    let ids = index.searchable_segment_ids(alloc).expect(rt, "a commit");
    let want = [
        SegmentId::from_bytes([3; 16]),
        SegmentId::from_bytes([7; 16]),
    ];
    assert!(rt; ids.as_slice() == want.as_slice());
}

// Whether the segments of the last commit have these metas.
fn have<R: Abort, D: Directory>(
    rt: &R,
    alloc: Global,
    index: &mut Index<D>,
    metas: &[SegmentMeta],
) {
    let segments = index.searchable_segments(alloc).expect(rt, "a commit");
    for (meta, segment) in metas.iter().zip(segments.iter()) {
        assert!(rt; meta.id() == segment.id() && meta.max_doc() == segment.meta().max_doc());
    }
}

// Looks at the metas of the last commit, which are those of its segments.
fn shows_metas<R: Abort, D: Directory>(rt: &R, alloc: Global, index: &mut Index<D>) {
    let metas = index.searchable_segment_metas(alloc).expect(rt, "a commit");
    have(rt, alloc, index, metas.as_slice());
}

// Makes a file of a segment, and seals it without a text.
fn seal<R: Abort, D: Directory>(rt: &R, alloc: Global, index: &mut Index<D>, segment: &Segment) {
    let writer = segment
        .open_write(alloc, index, SegmentComponent::Postings)
        .expect(rt, "no such file");
    index.directory_mut().terminate(writer).expect(rt, "memory");
}

// Reads that file.
fn is_empty<R: Abort, D: Directory>(
    rt: &R,
    alloc: Global,
    index: &mut Index<D>,
    segment: &Segment,
) {
    let file = segment
        .open_read(alloc, index, SegmentComponent::Postings)
        .expect(rt, "a file");
    assert!(rt; file.len() == 0);
}

// Seals a file of the first segment, and reads it back.
fn seal_first<R: Abort, D: Directory>(rt: &R, alloc: Global, index: &mut Index<D>) {
    let segments = index.searchable_segments(alloc).expect(rt, "a commit");
    let Some(first) = segments.first() else {
        panic!(rt; "no segment")
    };
    seal(rt, alloc, index, first);
    is_empty(rt, alloc, index, first);
}

// Whether no file is damaged.
fn is_undamaged<R: Abort, D: Directory>(rt: &R, alloc: Global, index: &mut Index<D>) {
    let damaged = index.validate_checksum(alloc).expect(rt, "sealed files");
    assert!(rt; damaged.is_empty());
}

// Whether the id of a new segment is in use.
fn is_in_use<R: Abort + Eprint, D: Directory>(
    rt: &R,
    alloc: Global,
    index: &mut Index<D>,
    id: SegmentId,
) {
    let again = done(index.new_segment(alloc, id));
    let in_use = r#"Err(IdInUse("09090909090909090909090909090909"))"#;
    assert!(rt; told(rt, alloc, again, in_use));
}

// Deletes one of three documents of a new segment.
fn delete_one<R: Abort>(rt: &R, inventory: &mut SegmentMetaInventory, segment: Segment) -> Segment
    requires documents { segment.1.1.max_doc ≡ 0 }
    requires deletes { segment.1.1.deletes ≡ None }
{
    let counted = segment.with_max_doc(3, inventory).expect(rt, "memory");
    counted
        .with_delete_meta(1, 5, inventory)
        .expect(rt, "memory")
}

// Looks at the name of the delete file of that segment.
fn names_deletes<R: Abort>(rt: &R, alloc: Global, segment: &Segment) {
    let path = segment.relative_path(alloc, SegmentComponent::Delete);
    is_made(rt, path, "09090909090909090909090909090909.5.del");
}

// Makes a segment, whose id is in use from then on.
fn adds_one<R: Abort + Eprint, D: Directory>(rt: &R, alloc: Global, index: &mut Index<D>) {
    let id = SegmentId::from_bytes([9; 16]);
    let segment = index.new_segment(alloc, id).expect(rt, "a free id");
    assert!(rt; segment.id() == id && segment.meta().max_doc() == 0);
    is_in_use(rt, alloc, index, id);
    let segment = delete_one(rt, index.inventory(), segment);
    let segment = index.segment(segment.into_meta());
    names_deletes(rt, alloc, &segment);
    index.inventory().release(segment.into_meta());
}

// The shares of the calls above weren't given back.
fn keeps_shares<R: Abort, D: Directory>(rt: &R, alloc: Global, index: &mut Index<D>) {
    let all = index.list_all_segment_metas(alloc).expect(rt, "few shares");
    assert!(rt; all.len() > 2);
}

// Sets the size of a block, in memory.
fn sets_blocksize<R: Abort, D: Directory>(rt: &R, index: &mut Index<D>) {
    index.settings_mut().docstore_blocksize = 100;
    is_number(rt, index.settings().docstore_blocksize, 100);
}

// Makes two commits, and looks at what stands then.
fn commit_twice<R: Abort + Eprint, D: Directory>(rt: &R, alloc: Global, index: &mut Index<D>) {
    commit(rt, alloc, index, 1, 7);
    commit(rt, alloc, index, 2, 3);
    shows_two(rt, alloc, index);
    shows_metas(rt, alloc, index);
    seal_first(rt, alloc, index);
    is_undamaged(rt, alloc, index);
    adds_one(rt, alloc, index);
    keeps_shares(rt, alloc, index);
    sets_blocksize(rt, index);
}

// Makes two commits in a new index, and closes it.
fn shows_commits<R: Abort + Eprint, D: Directory + Drop>(
    rt: &R,
    alloc: Global,
    made: Result<Index<D>, TantivyError>,
) {
    let mut index = made.expect(rt, "memory");
    commit_twice(rt, alloc, &mut index);
    index.close();
}

// A new index in memory, as a builder makes it.
fn built<R: Abort>(rt: &R, alloc: Global) -> Result<Index<TestRam>, TantivyError> {
    Index::<TestRam>::builder()
        .schema(schema(rt, alloc, T))
        .settings(IndexSettings::new())
        .create_in_ram(alloc)
}

// Whether a commit is printed like the first one.
fn is_first<R: Abort>(rt: &R, alloc: Global, meta: &IndexMeta) {
    are_made(rt, meta.print(alloc), FIRST.as_bytes());
}

// A new index in memory.
fn in_ram<R: Abort>(rt: &R, alloc: Global) -> Result<Index<TestRam>, TantivyError> {
    Index::create_in_ram(alloc, schema(rt, alloc, T))
}

// Whether the commit that stands is printed like the first one.
fn stands_first<R: Abort, D: Directory>(rt: &R, alloc: Global, index: &mut Index<D>) {
    let meta = index.load_metas(alloc).expect(rt, "a commit");
    is_first(rt, alloc, &meta);
}

// Looks at the commit of a new index, and closes it.
fn shows_first<R: Abort, D: Directory + Drop>(
    rt: &R,
    alloc: Global,
    made: Result<Index<D>, TantivyError>,
) {
    let mut index = made.expect(rt, "memory");
    stands_first(rt, alloc, &mut index);
    index.close();
}

#[test]
fn an_index_shows_its_commits(rt: HostRuntime) {
    let a = rt.alloc();
    is_first(&rt, a, &IndexMeta::with_schema(a, schema(&rt, a, T)));
    shows_first(&rt, a, in_ram(&rt, a));
    shows_commits(&rt, a, built(&rt, a));
}
