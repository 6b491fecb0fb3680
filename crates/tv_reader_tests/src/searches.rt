//! Searches by one thread and by two.
use crate::fixtures::{STORE, TWO, TestIndex, close, commit, new_index};
use std::alloc::Global;
use std::process::Abort;
use std::thread::Threads;
use tv_base::{DocId, Executor, TantivyError};
use tv_index::Schema;
use tv_reader::{Collector, Query, ReaderOf, Searcher, SegmentReader, Weight};
use tv_test_support::told;

// What matches all documents.
#[derive(Clone, Copy)]
struct All {
    alloc: Global,
}

impl Query for All {
    type W = All;

    ghost weighed = { λ _ _. Unit {0} };

    fn weight(&self) -> Result<All, TantivyError> {
        Ok(*self)
    }
}

impl Weight for All {
    ghost matched = { λ _ _ _ _. Unit {0} };

    fn matches(&self, _ord: u32, reader: &SegmentReader) -> Result<Vec<DocId>, TantivyError> {
        let mut docs = Vec::new(self.alloc);
        for doc in 0..reader.max_doc() {
            docs.push(doc)?;
        }
        Ok(docs)
    }
}

// Counts documents, or refuses what it is asked.
#[derive(Clone, Copy)]
enum Count {
    Counts,
    RefusesSchema,
    RefusesSegment(u32),
    RefusesMerge,
}

impl Collector for Count {
    type Child = u64;

    type Fruit = u64;

    ghost checked = { λ _ _ _. Unit {0} };

    ghost collected = { λ _ _ _ _ _. Unit {0} };

    ghost merged = { λ _ _ _. Unit {0} };

    fn check_schema(&self, _schema: &Schema) -> Result<(), TantivyError> {
        match self {
            Count::RefusesSchema => Err(TantivyError::Poisoned),
            _ => Ok(()),
        }
    }

    fn collect_segment(
        &self,
        docs: Vec<DocId>,
        ord: u32,
        _reader: &SegmentReader,
    ) -> Result<u64, TantivyError> {
        match self {
            Count::RefusesSegment(refused) if *refused == ord => Err(TantivyError::Poisoned),
            _ => Ok(docs.len() as u64),
        }
    }

    fn merge_fruits(&self, children: Vec<u64>) -> Result<u64, TantivyError>
        ensures { Unit {0} }
    {
        let mut sum: u64 = 0;
        for child in children.iter() {
            sum = sum.saturating_add(*child);
        }
        match self {
            Count::RefusesMerge => Err(TantivyError::Poisoned),
            _ => Ok(sum),
        }
    }
}

// Collectors, and what a search for all documents answers each.
const COUNTS: &[(Count, &str)] = &[
    (Count::Counts, "Ok(5)"),
    (Count::RefusesSchema, "Err(Poisoned)"),
    (Count::RefusesSegment(1), "Err(Poisoned)"),
    (Count::RefusesSegment(2), "Ok(5)"),
    (Count::RefusesMerge, "Err(Poisoned)"),
];

// Searches by a collector, under both names.
fn finds<R: Abort + Eprint + Threads + Sync>(
    rt: &R,
    alloc: Global,
    searcher: &Searcher,
    executor: &Executor,
) {
    let all = All { alloc };
    for (count, want) in COUNTS {
        let found = searcher.search(rt, &all, count, executor);
        assert!(rt; told(rt, alloc, found, want));
        let found = searcher.search_with_executor(rt, &all, count, executor);
        assert!(rt; told(rt, alloc, found, want));
    }
}

// Searches in the index by one thread, and by two.
fn index_finds<R: Abort + Eprint + Threads + Sync>(rt: &R, alloc: Global, index: &mut TestIndex) {
    let mut reader = index.reader(alloc).expect(rt, "good files");
    let searcher = reader.searcher().expect(rt, "few searchers");
    finds(rt, alloc, &searcher, &Executor::single_thread());
    finds(
        rt,
        alloc,
        &searcher,
        &Executor::multi_thread(2, "search-test"),
    );
    reader.release(searcher);
}

#[test]
fn a_search_counts_all_documents(rt: HostRuntime) {
    let mut index = new_index(&rt, rt.alloc());
    commit(&rt, rt.alloc(), &mut index, TWO, STORE);
    index_finds(&rt, rt.alloc(), &mut index);
    close(index);
}
