//! What both directories in memory answer, one call after the other.

use crate::calls::{Call, Step, take_all};
use crate::compare::is_number;
use crate::empty::{Empty, TestBench, TestRam};
use std::alloc::Global;
use std::process::Abort;
use tv_directory::{Directory, RamDirectory};
use tv_test_support::told;

const ABSENT: &str = r#"Err(FileDoesNotExist("test"))"#;

pub(crate) const FILES: &[Step] = &[
    (Call::Exists, "test", "", "Ok(false)"),
    (Call::OpenRead, "test", "", ABSENT),
    (Call::GetFileHandle, "test", "", ABSENT),
    (Call::AtomicRead, "test", "", ABSENT),
    (Call::AtomicWrite, "test", "old", "Ok(())"),
    (
        Call::Seal,
        "test",
        "new",
        r#"Err(OpenWriteError(FileAlreadyExists("test")))"#,
    ),
    (Call::AtomicRead, "test", "", "old"),
    (Call::Delete, "test", "", "Ok(())"),
    (Call::Delete, "test", "", ABSENT),
    (Call::Exists, "test", "", "Ok(false)"),
    (Call::Outlive, "test", "lost", "()"),
    (Call::Exists, "test", "", "Ok(false)"),
    (Call::Flush, "test", "flushed", "Ok(())"),
    (Call::AtomicRead, "test", "", "flushed"),
    (Call::Seal, "other", "sealed", "Ok(())"),
    (Call::LockBoth, "other", "", "true"),
    (Call::Sync, "other", "", "Ok(())"),
    (Call::OpenRead, "other", "", "sealed"),
    (Call::AtomicWrite, "other", "", "Ok(())"),
    (Call::OpenRead, "other", "", ""),
];

const FIRST_WRITE: &[Step] = &[
    (Call::AtomicWrite, "test", "firstwrite", "Ok(())"),
    (Call::AtomicRead, "test", "", "firstwrite"),
];

const OF_THE_ORIGINAL: &[Step] = &[
    (Call::AtomicWrite, "test", "original", "Ok(())"),
    (Call::Exists, "test2", "", "Ok(false)"),
];

const OF_THE_CLONE: &[Step] = &[
    (Call::AtomicRead, "test", "", "firstwrite"),
    (Call::AtomicWrite, "test", "clone", "Ok(())"),
    (Call::AtomicWrite, "test2", "clone2", "Ok(())"),
    (Call::AtomicRead, "test", "", "clone"),
    (Call::AtomicRead, "test2", "", "clone2"),
];

const OF_THE_ORIGINAL_AT_LAST: &[Step] = &[
    (Call::AtomicRead, "test", "", "original"),
    (Call::Exists, "test2", "", "Ok(false)"),
];

// Takes steps in a directory and in its clone.
fn go_apart<R: Abort + Eprint, D: Directory>(
    rt: &R,
    alloc: Global,
    original: &mut D,
    clone: &mut D,
) {
    take_all(rt, alloc, original, OF_THE_ORIGINAL);
    take_all(rt, alloc, clone, OF_THE_CLONE);
    take_all(rt, alloc, original, OF_THE_ORIGINAL_AT_LAST);
}

#[test]
fn a_file_that_is_there_stays_and_a_deep_clone_goes_its_own_way(rt: HostRuntime) {
    let mut original: TestRam = RamDirectory::create(rt.alloc());
    take_all(&rt, rt.alloc(), &mut original, FILES);
    take_all(&rt, rt.alloc(), &mut original, FIRST_WRITE);
    let mut clone = original.deep_clone().expect(&rt, "memory");
    go_apart(&rt, rt.alloc(), &mut original, &mut clone);
}

const TWO_WAYS: &[Step] = &[
    (Call::AtomicWrite, "atomic", "atomic is the way", "Ok(())"),
    (Call::Flush, "seq", "sequential is the way", "Ok(())"),
];

const BOTH_READ: &[Step] = &[
    (Call::AtomicRead, "atomic", "", "atomic is the way"),
    (Call::AtomicRead, "seq", "", "sequential is the way"),
];

// What it is to answer that two files are persisted, and persisted again.
const PERSISTED: &[&str] = &[
    "Ok(())",
    r#"Err(OpenWriteError(FileAlreadyExists("atomic")))"#,
];

// Persists two files, which is refused the second time.
fn persist_twice<R: Abort + Eprint, D: Directory>(
    rt: &R,
    alloc: Global,
    ram: &mut TestRam,
    dest: &mut D,
) {
    take_all(rt, alloc, ram, TWO_WAYS);
    for want in PERSISTED {
        assert!(rt; told(rt, alloc, ram.persist(dest), want));
    }
    take_all(rt, alloc, dest, BOTH_READ);
}

// A directory to which two files are persisted.
fn persisted<R: Abort + Eprint, D: Empty>(rt: &R, alloc: Global) -> D {
    let mut ram = RamDirectory::create(alloc);
    let mut dest = D::empty(alloc).expect(rt, "memory");
    persist_twice(rt, alloc, &mut ram, &mut dest);
    dest
}

#[test]
fn a_directory_is_persisted_once(rt: HostRuntime) {
    let dest: TestRam = persisted(&rt, rt.alloc());
    is_number(&rt, dest.total_mem_usage(), 38);
    let mut bench: TestBench = persisted(&rt, rt.alloc());
    take_all(&rt, rt.alloc(), &mut bench, FILES);
}
