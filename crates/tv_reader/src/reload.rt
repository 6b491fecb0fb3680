//! A reload in steps.
use crate::searcher::ReadCommit;
use std::alloc::Global;
use std::sync::Arc;
use tv_device::DirectoryLock;
use tv_metas::UntrackedIndexMeta;

/// A reload that was begun and isn't published: the commit was noted, and the meta lock is held; or
/// its files were read, and the lock is free again.
#[derive(Drop)]
pub(crate) enum Reload {
    Locked(Arc<UntrackedIndexMeta, Global>, DirectoryLock),
    Read(Arc<ReadCommit, Global>),
}
