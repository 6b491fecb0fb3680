//! Stored documents: by a reader of a store, and by a searcher.
use crate::fixtures::{ONE, STORE, TestIndex, close, commit, new_index};
use std::alloc::Global;
use std::process::Abort;
use tv_base::{DocAddress, FileSlice, IoError, Memory, OwnedBytes, TantivyError};
use tv_reader::{ReaderOf, Searcher, StoreReader};
use tv_test_support::{done, reads, told};

// The documents of a store file with this body.
fn store_of<R: Abort>(rt: &R, alloc: Global, body: &[u8]) -> Result<StoreReader, IoError> {
    let bytes = body.to_vec(alloc).expect(rt, "memory");
    let bytes = OwnedBytes::new(bytes).expect(rt, "memory");
    StoreReader::open(alloc, &FileSlice::new(bytes))
}

// The bytes of a document that is there.
fn document<R: Abort>(rt: &R, store: &StoreReader, doc: u32) -> Result<OwnedBytes, Memory> {
    store.get(doc)?.expect(rt, "document").read_bytes()
}

#[test]
fn a_store_gives_its_documents(rt: HostRuntime) {
    let store = store_of(&rt, rt.alloc(), STORE).expect(&rt, "store");
    assert!(rt; reads(&rt, rt.alloc(), document(&rt, &store, 0), "hi"));
    assert!(rt; reads(&rt, rt.alloc(), document(&rt, &store, 1), ""));
    assert!(rt; store.get(2).expect(&rt, "memory").is_none());
}

#[test]
fn a_body_of_one_byte_is_no_store(rt: HostRuntime) {
    let refused = done(store_of(&rt, rt.alloc(), &[1]));
    let want =
        "Err(Fault(IoFault { kind: InvalidData, text: \"Store is not of the stated form.\" }))";
    assert!(rt; told(&rt, rt.alloc(), refused, want));
}

// The bytes of the document at a place of a segment, as a searcher gives them.
fn found(searcher: &Searcher, segment: u32, doc: u32) -> Result<OwnedBytes, TantivyError> {
    let file = searcher.doc(DocAddress::new(segment, doc))?;
    Ok(file.read_bytes()?)
}

// What is answered where there is no such document.
const NO_DOCUMENT: &str = "Err(InvalidArgument(..))";

// What is answered where the store file isn't one.
const NO_STORE: &str =
    r#"Err(DataCorruption(Data corruption (in file `"11111111111111111111111111111111.store"`): ..))"#;

// The segment and the number of a document, and what a searcher gives of a good store.
const DOCUMENTS: &[(u32, u32, &str)] = &[
    (0, 0, "hi"),
    (0, 1, ""),
    (0, 2, NO_DOCUMENT),
    (1, 0, NO_DOCUMENT),
];

// Looks at what the searcher gives.
fn gives<R: Abort + Eprint>(
    rt: &R,
    alloc: Global,
    searcher: &Searcher,
    documents: &[(u32, u32, &str)],
) {
    for (segment, doc, want) in documents {
        assert!(rt; reads(rt, alloc, found(searcher, *segment, *doc), want));
    }
}

// Looks at what a searcher of the index gives.
fn index_gives<R: Abort + Eprint>(
    rt: &R,
    alloc: Global,
    index: &mut TestIndex,
    documents: &[(u32, u32, &str)],
) {
    let mut reader = index.reader(alloc).expect(rt, "good files");
    let searcher = reader.searcher().expect(rt, "few searchers");
    gives(rt, alloc, &searcher, documents);
    reader.release(searcher);
}

// Looks at what a searcher gives of a store file with this body.
fn store_gives<R: Abort + Eprint>(
    rt: &R,
    alloc: Global,
    store: &[u8],
    documents: &[(u32, u32, &str)],
) {
    let mut index = new_index(rt, alloc);
    commit(rt, alloc, &mut index, ONE, store);
    index_gives(rt, alloc, &mut index, documents);
    close(index);
}

#[test]
fn a_searcher_gives_stored_documents(rt: HostRuntime) {
    store_gives(&rt, rt.alloc(), STORE, DOCUMENTS);
}

#[test]
fn a_searcher_names_a_store_file_that_is_none(rt: HostRuntime) {
    store_gives(&rt, rt.alloc(), &[1], &[(0, 0, NO_STORE)]);
}
