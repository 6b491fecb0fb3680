//! Searchers: what each shows of its commit, whatever becomes of the index.
use crate::compare::{is_file, is_number};
use crate::fixtures::{
    NONE, STORE, TWO, TestIndex, close, commit, index_of_one, is_shown, new_index, save, shows,
};
use std::alloc::Global;
use std::collections::BTreeSet;
use std::process::Abort;
use tv_formats::SegmentComponent;
use tv_index::SegmentId;
use tv_reader::{ReaderOf, Searcher, SearcherGeneration, SegmentReader};

// Looks at the space that the files of an index of no segments take.
fn takes_nothing<R: Abort>(rt: &R, searcher: &Searcher) {
    let usage = searcher.space_usage().expect(rt, "no files");
    assert!(rt; usage.segments().is_empty());
    is_number(rt, usage.total().0, 0);
    is_number(rt, searcher.num_docs(), 0);
}

// Looks at a searcher of an index without segments.
fn shows_nothing<R: Abort>(rt: &R, alloc: Global, index: &mut TestIndex) {
    let mut reader = index.reader(alloc).expect(rt, "no files");
    let searcher = reader.searcher().expect(rt, "few searchers");
    is_shown(rt, &searcher, 0, 0);
    takes_nothing(rt, &searcher);
    assert!(rt; searcher.payload().is_none());
    assert!(rt; searcher.segment_reader(0).is_none());
    reader.release(searcher);
}

#[test]
fn an_empty_index_takes_no_space(rt: HostRuntime) {
    let mut index = new_index(&rt, rt.alloc());
    shows_nothing(&rt, rt.alloc(), &mut index);
    close(index);
}

// Looks at a segment of so many documents, whose store alone has a body.
fn has_store<R: Abort>(rt: &R, segment: &SegmentReader, id: SegmentId, docs: u32) {
    assert!(rt; segment.segment_id() == id);
    assert!(rt; segment.max_doc() == docs && segment.num_docs() == docs);
    assert!(rt; segment.delete_opstamp().is_none());
    let store = segment
        .body(SegmentComponent::Store)
        .expect(rt, "a required file");
    is_file(rt, store, STORE);
    let terms = segment
        .body(SegmentComponent::Terms)
        .expect(rt, "a required file");
    is_file(rt, terms, &[]);
    assert!(rt; segment.body(SegmentComponent::Delete).is_none());
}

// Looks at the space that a store of two documents takes: two bytes of the first, none of the second, and
// four bytes for each length.
fn takes_ten<R: Abort>(rt: &R, searcher: &Searcher) {
    let usage = searcher.space_usage().expect(rt, "files of their form");
    is_number(rt, usage.segments().len() as u64, 1);
    is_number(rt, usage.total().0, 10);
}

// Looks at what a searcher shows of the commit of one segment.
fn shows_one<R: Abort>(rt: &R, searcher: &Searcher) {
    is_shown(rt, searcher, 0, 1);
    assert!(rt; searcher.payload() == Some("p"));
    assert!(rt; searcher.schema().names().is_empty());
    is_number(rt, searcher.num_docs(), 2);
    is_number(rt, searcher.segment_readers().len() as u64, 1);
    let segment = searcher.segment_reader(0).expect(rt, "a segment");
    has_store(rt, segment, SegmentId::from_bytes([0x11; 16]), 2);
    assert!(rt; searcher.segment_reader(1).is_none());
    takes_ten(rt, searcher);
}

// A later commit has no segment, and the files of the former one are collected.
fn collects_all<R: Abort>(rt: &R, alloc: Global, index: &mut TestIndex) {
    save(rt, index, NONE);
    let mut living = BTreeSet::new(alloc);
    let meta = String::from_str(alloc, "meta.json").expect(rt, "memory");
    living.insert(meta).expect(rt, "memory");
    let collected = index
        .directory_mut()
        .garbage_collect(|| living)
        .expect(rt, "memory");
    is_number(rt, collected.deleted_files.len() as u64, 6);
}

// A searcher shows its commit for life.
fn shows_for_life<R: Abort>(rt: &R, alloc: Global, index: &mut TestIndex) {
    let mut reader = index.reader(alloc).expect(rt, "good files");
    let searcher = reader.searcher().expect(rt, "few searchers");
    shows_one(rt, &searcher);
    collects_all(rt, alloc, index);
    shows_one(rt, &searcher);
    reader.reload(index).expect(rt, "a commit");
    shows(rt, &mut reader, 1, 2);
    shows_one(rt, &searcher);
    reader.release(searcher);
    shows(rt, &mut reader, 1, 2);
}

#[test]
fn a_searcher_shows_its_commit_for_life(rt: HostRuntime) {
    let mut index = index_of_one(&rt, rt.alloc());
    shows_for_life(&rt, rt.alloc(), &mut index);
    close(index);
}

// Looks at a generation of two segments without deletes.
fn has_two<R: Abort>(rt: &R, generation: &SearcherGeneration) {
    is_number(rt, generation.generation_id(), 7);
    is_number(rt, generation.segments().len() as u64, 2);
    for (number, byte) in [0x11, 0x22].iter().enumerate() {
        let deletes = generation
            .segments()
            .get(&SegmentId::from_bytes([*byte; 16]));
        assert!(rt; deletes == Some(&None), "segment {number}");
    }
}

// A generation is made of the segments of a searcher.
fn makes_generation<R: Abort>(rt: &R, alloc: Global, searcher: &Searcher) {
    let readers = searcher.segment_readers();
    let generation = SearcherGeneration::from_segment_readers(alloc, readers, 7);
    has_two(rt, &generation.expect(rt, "memory"));
}

// The segments of the last commit are opened one by one.
fn opens_each<R: Abort>(rt: &R, alloc: Global, index: &mut TestIndex) {
    let segments = index.searchable_segments(alloc).expect(rt, "a commit");
    for (segment, docs) in segments.iter().zip([3, 2]) {
        let reader = SegmentReader::open(alloc, segment, index).expect(rt, "good files");
        has_store(rt, &reader, segment.id(), docs);
    }
}

// Looks at the segments of an index, by a searcher and each by itself.
fn has_generation<R: Abort>(rt: &R, alloc: Global, index: &mut TestIndex) {
    let mut reader = index.reader(alloc).expect(rt, "good files");
    let searcher = reader.searcher().expect(rt, "few searchers");
    makes_generation(rt, alloc, &searcher);
    reader.release(searcher);
    opens_each(rt, alloc, index);
}

#[test]
fn a_generation_names_its_segments(rt: HostRuntime) {
    let mut index = new_index(&rt, rt.alloc());
    commit(&rt, rt.alloc(), &mut index, TWO, STORE);
    has_generation(&rt, rt.alloc(), &mut index);
    close(index);
}
