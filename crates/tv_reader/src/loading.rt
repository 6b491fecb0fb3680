//! The last commit of an index is read, under the meta lock.
ghost use Rattle.std.specs.Prelude.{◌≡◌, false, true, IfErr, IfOk, OnErr, OnOk, Some, map};
ghost use Rattle.std.specs.Arc.{arc_value};
ghost use Rattle.tv_device.specs.Calls.{Acquires, Frees, LockFaults};
ghost use Rattle.tv_device.specs.Images.{KeepsDisk};
ghost use Rattle.tv_device.specs.View.{OnlyLocks, OnlyReads};
ghost use Rattle.tv_formats.specs.Segments.{all_required};
ghost use Rattle.tv_index.specs.Indexes.{KeepsIndex};
ghost use Rattle.tv_index.specs.Standing.{LoadsMeta, MetaFaults};
ghost use Rattle.tv_managed.specs.Collecting.{meta_lock_name};
ghost use Rattle.tv_metas.specs.Metas.{commit_of};
ghost use Rattle.tv_reader.specs.Bodies.{UnreadFaults};
ghost use Rattle.tv_reader.specs.Reloads.{AreBodies, CommitCause, IsOfCommit, LoadCause, LoadsLast, LocksMeta, NoteCause, NotesLast, ReadsLast, UnderFaults};

use crate::commit_opening::read_segments;
use crate::searcher::ReadCommit;
use std::alloc::Global;
use std::sync::Arc;
use tv_base::{LockError, TantivyError};
use tv_device::{Directory, DirectoryLock, meta_lock};
use tv_index::Index;
use tv_metas::UntrackedIndexMeta;

// Takes the meta lock of an index.
fn take_lock<D: Directory>(index: &mut Index<D>) -> Result<DirectoryLock, LockError>
    ensures token { IfOk result (λ token. token ≡ meta_lock_name) }
    ensures acquires { Acquires D.told (D.view index.old.directory.0)
        (D.view index.new.directory.0) meta_lock_name result }
    ensures faults { LockFaults D.told (D.view index.old.directory.0)
        (D.view index.new.directory.0) meta_lock_name result }
    ensures frame { KeepsIndex (OnlyLocks D.told) D.view index.old index.new }
    ensures images { D.tells_images
        → KeepsDisk (D.disk index.old.directory.0) (D.disk index.new.directory.0) }
{
    index.directory_mut().acquire_lock(&meta_lock())
}

// Frees the lock of this token. Takes no memory.
pub(crate) fn free_lock<D: Directory>(index: &mut Index<D>, lock: DirectoryLock)
    ensures frees { KeepsIndex (Frees D.told lock) D.view index.old index.new }
    ensures images { D.tells_images
        → KeepsDisk (D.disk index.old.directory.0) (D.disk index.new.directory.0) }
{
    index.directory_mut().release(lock);
}

// The last commit, for all who have it.
fn load_shared<D: Directory>(
    alloc: Global,
    index: &mut Index<D>,
) -> Result<Arc<UntrackedIndexMeta, Global>, TantivyError>
    ensures meta { IfOk result (λ meta.
        LoadsMeta D.Directory index.old.directory.0 (Some index.old.schema) (arc_value meta)) }
    ensures faults { MetaFaults D.Directory index.old.directory.0 index.new.directory.0
        (Some index.old.schema) result }
    ensures frame { KeepsIndex (OnlyReads D.told) D.view index.old index.new }
    ensures images { D.tells_images
        → KeepsDisk (D.disk index.old.directory.0) (D.disk index.new.directory.0) }
{
    let meta = index.load_untracked_metas(alloc)?;
    Ok(Arc::new(alloc, meta)?)
}

/// Notes the last commit, under the meta lock, which is held from then on.
pub(crate) fn note_last<D: Directory>(
    alloc: Global,
    index: &mut Index<D>,
) -> Result<(Arc<UntrackedIndexMeta, Global>, DirectoryLock), TantivyError>
    ensures notes { IfOk result (λ noted. NotesLast D.Directory index.old
        (arc_value noted.0).schema (commit_of (arc_value noted.0))) }
    ensures token { IfOk result (λ noted. noted.1 ≡ meta_lock_name) }
    ensures locks { LocksMeta D.told (D.view index.old.directory.0)
        (D.view index.new.directory.0) result }
    ensures faults { UnderFaults D.Directory index.old index.new
        (NoteCause D.Directory index.old index.new) result }
    ensures frame { KeepsIndex (OnlyLocks D.told) D.view index.old index.new }
    ensures images { D.tells_images
        → KeepsDisk (D.disk index.old.directory.0) (D.disk index.new.directory.0) }
{
    let lock = take_lock(index)?;
    match load_shared(alloc, index) {
        Ok(meta) => Ok((meta, lock)),
        Err(error) => {
            free_lock(index, lock);
            Err(error)
        },
    }
}

/// The files of a commit that was noted are read.
pub(crate) fn read_files<D: Directory>(
    alloc: Global,
    meta: Arc<UntrackedIndexMeta, Global>,
    index: &mut Index<D>,
) -> Result<Arc<ReadCommit, Global>, TantivyError>
    ensures commit { IfOk result (λ read.
        IsOfCommit (arc_value meta).schema (commit_of (arc_value meta)) (arc_value read)) }
    ensures bodies { IfOk result (λ read.
        AreBodies D.Directory index.old.directory.0 (arc_value read)) }
    ensures faults { UnreadFaults D.Directory index.old.directory.0 index.new.directory.0
        (all_required (commit_of (arc_value meta)).segments) result }
    ensures frame { KeepsIndex (OnlyReads D.told) D.view index.old index.new }
    ensures images { D.tells_images
        → KeepsDisk (D.disk index.old.directory.0) (D.disk index.new.directory.0) }
{
    let segment_readers = read_segments(alloc, meta.segments.as_slice(), index)?;
    Ok(Arc::new(
        alloc,
        ReadCommit {
            meta,
            segment_readers,
        },
    )?)
}

// The last commit is read, by one who holds the meta lock.
fn read_last<D: Directory>(
    alloc: Global,
    index: &mut Index<D>,
) -> Result<Arc<ReadCommit, Global>, TantivyError>
    ensures commit { IfOk result (λ read. ReadsLast D.Directory index.old (arc_value read)) }
    ensures quiet { OnOk result ((D.view index.new.directory.0).faults
        ≡ (D.view index.old.directory.0).faults) }
    ensures cause { IfErr result (CommitCause D.Directory index.old index.new) }
    ensures frame { KeepsIndex (OnlyReads D.told) D.view index.old index.new }
    ensures images { D.tells_images
        → KeepsDisk (D.disk index.old.directory.0) (D.disk index.new.directory.0) }
{
    let meta = load_shared(alloc, index)?;
    read_files(alloc, meta, index)
}

/// The last commit is read, under the meta lock, which is free again then.
pub(crate) fn load_last<D: Directory>(
    alloc: Global,
    index: &mut Index<D>,
) -> Result<Arc<ReadCommit, Global>, TantivyError>
    ensures commit { IfOk result (λ read.
        LoadsLast D.Directory index.old index.new (arc_value read)) }
    ensures cause { IfErr result (LoadCause D.Directory index.old index.new) }
    ensures frame { KeepsIndex (OnlyReads D.told) D.view index.old index.new }
    ensures images { D.tells_images
        → KeepsDisk (D.disk index.old.directory.0) (D.disk index.new.directory.0) }
{
    let lock = take_lock(index)?;
    let commit = read_last(alloc, index);
    free_lock(index, lock);
    commit
}
