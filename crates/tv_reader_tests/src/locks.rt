//! The meta lock of an index, under which commits are read.
use crate::fixtures::TestIndex;
use std::alloc::Global;
use std::process::Abort;
use tv_directory::{DirectoryLock, meta_lock};
use tv_test_support::{done, told};

/// Takes the meta lock, which is free.
pub(crate) fn hold<R: Abort>(rt: &R, index: &mut TestIndex) -> DirectoryLock {
    index
        .directory_mut()
        .acquire_lock(&meta_lock())
        .expect(rt, "a free lock")
}

/// Looks whether the meta lock is free.
pub(crate) fn is_free<R: Abort>(rt: &R, index: &mut TestIndex) {
    let lock = hold(rt, index);
    index.directory_mut().release(lock);
}

/// Looks whether the meta lock is held.
pub(crate) fn is_busy<R: Abort + Eprint>(rt: &R, alloc: Global, index: &mut TestIndex) {
    let answer = index.directory_mut().acquire_lock(&meta_lock());
    assert!(rt; told(rt, alloc, done(answer), "Err(LockBusy)"));
}
