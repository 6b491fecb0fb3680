//! Indexes in memory, and commits that are written in them.
ghost use Rattle.std.specs.Prelude.{◌≡◌};
ghost use Rattle.tv_reader.specs.ReaderStates.{seen};

use crate::compare::is_number;
use std::alloc::Global;
use std::process::Abort;
use tv_base::META_FILEPATH;
use tv_directory::{Directory, NoWatch, RamDirectory};
use tv_formats::SegmentComponent;
use tv_index::{Index, Schema, Segment};
use tv_reader::{IndexReader, Searcher};

/// An index in memory that nobody watches.
pub(crate) type TestIndex = Index<RamDirectory<NoWatch>>;

/// The first commit after that of a new index: a segment of two documents.
pub(crate) const ONE: &str =
    "{\"segments\":[{\"segment_id\":\"11111111111111111111111111111111\",\"max_doc\":2}],\"schema\":[],\"opstamp\":1,\"payload\":\"p\"}";

/// A commit without segments.
pub(crate) const NONE: &str = "{\"segments\":[],\"schema\":[],\"opstamp\":2}";

/// Again a commit of the segment of two documents.
pub(crate) const AGAIN: &str =
    "{\"segments\":[{\"segment_id\":\"11111111111111111111111111111111\",\"max_doc\":2}],\"schema\":[],\"opstamp\":3}";

/// A commit of two segments, of three documents and of two.
pub(crate) const TWO: &str =
    "{\"segments\":[{\"segment_id\":\"11111111111111111111111111111111\",\"max_doc\":3},{\"segment_id\":\"22222222222222222222222222222222\",\"max_doc\":2}],\"schema\":[],\"opstamp\":1}";

/// The body of a store file: the documents `hi` and one without a byte.
pub(crate) const STORE: &[u8] = &[2, 0, 0, 0, 0x68, 0x69, 0, 0, 0, 0];

// What a segment without deletes requires.
const REQUIRED: &[SegmentComponent] = &[
    SegmentComponent::Postings,
    SegmentComponent::Positions,
    SegmentComponent::FastFields,
    SegmentComponent::FieldNorms,
    SegmentComponent::Terms,
    SegmentComponent::Store,
];

/// A new index in memory without fields.
pub(crate) fn new_index<R: Abort>(rt: &R, alloc: Global) -> TestIndex {
    let schema = Schema::from_bytes(alloc, b"[]").expect(rt, "a schema");
    Index::create_in_ram(alloc, schema).expect(rt, "memory")
}

/// Writes `meta.json`, as a commit does.
pub(crate) fn save<R: Abort, D: Directory>(rt: &R, index: &mut Index<D>, text: &str) {
    assert!(rt; !index.directory().is_held(META_FILEPATH));
    index
        .directory_mut()
        .atomic_write(META_FILEPATH, text.as_bytes())
        .expect(rt, "written");
}

// Makes a file of a segment, and seals it with this body.
fn seal<R: Abort, D: Directory>(
    rt: &R,
    alloc: Global,
    index: &mut Index<D>,
    file: (&Segment, SegmentComponent),
    body: &[u8],
) {
    let (segment, component) = file;
    let mut writer = segment
        .open_write(alloc, index, component)
        .expect(rt, "no such file");
    let directory = index.directory_mut();
    directory.write(&mut writer, body).expect(rt, "memory");
    directory.terminate(writer).expect(rt, "memory");
}

// Seals what a segment requires: the store with this body, and the others without a byte.
fn seal_all<R: Abort, D: Directory>(
    rt: &R,
    alloc: Global,
    index: &mut Index<D>,
    segment: &Segment,
    store: &[u8],
) {
    for component in REQUIRED {
        let body = match component {
            SegmentComponent::Store => store,
            _ => &[],
        };
        seal(rt, alloc, index, (segment, *component), body);
    }
}

/// Writes this commit, and seals the files of its segments: the stores with this body, and the others
/// without a byte.
pub(crate) fn commit<R: Abort, D: Directory>(
    rt: &R,
    alloc: Global,
    index: &mut Index<D>,
    text: &str,
    store: &[u8],
) {
    save(rt, index, text);
    let segments = index.searchable_segments(alloc).expect(rt, "a commit");
    for segment in segments.iter() {
        seal_all(rt, alloc, index, segment, store);
    }
}

/// An index whose last commit has a segment of the two stored documents.
pub(crate) fn index_of_one<R: Abort>(rt: &R, alloc: Global) -> TestIndex {
    let mut index = new_index(rt, alloc);
    commit(rt, alloc, &mut index, ONE, STORE);
    index
}

/// Ends an index.
pub(crate) fn close<D: Directory + Drop>(index: Index<D>) {
    drop(index.into_directory());
}

/// Looks under which number a searcher shows its commit, and which commit that is.
pub(crate) fn is_shown<R: Abort>(rt: &R, searcher: &Searcher, generation: u64, opstamp: u64) {
    is_number(rt, searcher.generation().generation_id(), generation);
    is_number(rt, searcher.opstamp(), opstamp);
}

/// Looks under which number a reader shows a commit, and which commit that is.
pub(crate) fn shows<R: Abort>(rt: &R, reader: &mut IndexReader, generation: u64, opstamp: u64)
    ensures { (seen reader.new).reload ≡ (seen reader.old).reload }
{
    let searcher = reader.searcher().expect(rt, "few searchers");
    is_shown(rt, &searcher, generation, opstamp);
    reader.release(searcher);
}
