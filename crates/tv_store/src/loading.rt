//! A commit is loaded, with the bodies of its files.
ghost use Rattle.std.specs.Prelude.{◌≡◌, Some, map, IfOk, OnOk};
ghost use Rattle.tv_device.specs.Images.{KeepsDisk};
ghost use Rattle.tv_device.specs.View.{OnlyReads};
ghost use Rattle.tv_formats.specs.Segments.{all_required, required_names};
ghost use Rattle.tv_index.specs.Standing.{MetaFaults};
ghost use Rattle.tv_machine.specs.Readable.{AreGoodFiles};
ghost use Rattle.tv_machine.specs.ReaderEvents.{bodies_in, snapshot_in};
ghost use Rattle.tv_machine.specs.SoundStates.{IsWhole};
ghost use Rattle.tv_machine.specs.State.{State};
ghost use Rattle.tv_store.specs.Bodies.{AreBodies, AreGood, AreSealed, ReadsSegment, ReadsSegments};
ghost use Rattle.tv_store.specs.Performing.{FilesHold, LoadFaults};
ghost use Rattle.tv_store.specs.SnapshotCalls.{BodiesFaults, CommitFaults};
ghost use Rattle.tv_store.specs.Stays.{KeepsFiles};

use crate::files::StoreFiles;
use std::alloc::Global;
use tv_base::{FileSlice, TantivyError};
use tv_device::{Outside, meta_lock};
use tv_formats::{FileName, LiveSegment, SegmentId};
use tv_snapshots::commit::Commit;
use tv_snapshots::names::required_of;
use tv_snapshots::snapshot::{SegmentReader, Snapshot};

// The bodies of some sealed files, in their order.
fn read_bodies<O: Outside>(
    alloc: Global,
    files: &mut StoreFiles<O>,
    names: &[FileName],
) -> Result<Vec<FileSlice>, TantivyError>
    ensures bodies { O.told.content → (s : State)
        → FilesHold O.Directory files.old s
        → AreSealed s names.entry.now
        → IfOk result (λ bodies. AreBodies s names.entry.now bodies.items) }
    ensures good { O.told.content
        → OnOk result (AreGood (O.view files.old.outside).reads names.entry.now) }
    ensures faults { BodiesFaults O.Directory files.old.outside files.new.outside
        names.entry.now result }
    ensures frame { KeepsFiles (OnlyReads O.told) O.view files.old files.new }
    ensures images { O.tells_images
        → KeepsDisk (O.disk files.old.outside) (O.disk files.new.outside) }
{
    let mut bodies = Vec::new(alloc);
    for name in names {
        let body = files.open_read(name)?;
        bodies.push(body)?;
    }
    Ok(bodies)
}

// A segment, with the bodies of its files.
fn read_segment<O: Outside>(
    alloc: Global,
    files: &mut StoreFiles<O>,
    id: SegmentId,
    segment: LiveSegment,
) -> Result<SegmentReader, TantivyError>
    ensures reader { O.told.content → (s : State)
        → FilesHold O.Directory files.old s
        → AreSealed s (required_names id segment)
        → IfOk result (λ reader.
        ReadsSegment s id segment reader.id reader.segment reader.bodies.items) }
    ensures good { O.told.content → OnOk result (AreGood
        (O.view files.old.outside).reads (required_names id segment)) }
    ensures faults { BodiesFaults O.Directory files.old.outside files.new.outside
        (required_names id segment) result }
    ensures frame { KeepsFiles (OnlyReads O.told) O.view files.old files.new }
    ensures images { O.tells_images
        → KeepsDisk (O.disk files.old.outside) (O.disk files.new.outside) }
{
    let names = required_of(alloc, id, segment)?;
    let bodies = read_bodies(alloc, files, names.as_slice())?;
    Ok(SegmentReader::new(id, segment, bodies))
}

// Some segments, with the bodies of their files.
fn read_segments<O: Outside>(
    alloc: Global,
    files: &mut StoreFiles<O>,
    segments: &[(SegmentId, LiveSegment)],
) -> Result<Vec<SegmentReader>, TantivyError>
    ensures readers { O.told.content → (s : State)
        → FilesHold O.Directory files.old s
        → AreSealed s (all_required segments.now)
        → IfOk result (λ readers. ReadsSegments s segments.now
        (map (λ r. (r.id, r.segment)) readers.items)
        (map (λ r. r.bodies.items) readers.items)) }
    ensures good { O.told.content → OnOk result (AreGood
        (O.view files.old.outside).reads (all_required segments.now)) }
    ensures faults { BodiesFaults O.Directory files.old.outside files.new.outside
        (all_required segments.now) result }
    ensures frame { KeepsFiles (OnlyReads O.told) O.view files.old files.new }
    ensures images { O.tells_images
        → KeepsDisk (O.disk files.old.outside) (O.disk files.new.outside) }
{
    let mut readers = Vec::new(alloc);
    for entry in segments {
        let (id, segment) = *entry;
        let reader = read_segment(alloc, files, id, segment)?;
        readers.push(reader)?;
    }
    Ok(readers)
}

// The commit that `meta.json` means.
fn read_commit<O: Outside>(alloc: Global, files: &mut StoreFiles<O>) -> Result<Commit, TantivyError>
    ensures commit { O.told.content → (s : State)
        → FilesHold O.Directory files.old s
        → IfOk result (λ commit. commit ≡ s.catalog.commit) }
    ensures faults { MetaFaults O.Directory files.old.outside files.new.outside
        (Some files.old.form.schema) result }
    ensures frame { KeepsFiles (OnlyReads O.told) O.view files.old files.new }
    ensures images { O.tells_images
        → KeepsDisk (O.disk files.old.outside) (O.disk files.new.outside) }
{
    let meta = files.load_untracked_metas(alloc)?;
    let payload = meta.payload;
    let segments = meta.segments.as_slice();
    let commit = Commit::from_meta(alloc, meta.opstamp, payload, segments)?;
    Ok(commit)
}

/// A commit with the bodies of its files, under this number, as they read now.
pub(crate) fn read_files<O: Outside>(
    alloc: Global,
    files: &mut StoreFiles<O>,
    generation: u64,
    commit: Commit,
) -> Result<Snapshot, TantivyError>
    ensures shown { O.told.content → (s : State)
        → FilesHold O.Directory files.old s
        → AreSealed s (all_required commit.segments)
        → IfOk result (λ shown. (shown ≡ record {
          generation = generation;
          commit = commit;
          bodies = bodies_in s commit;
        }) × AreGoodFiles s (all_required commit.segments)) }
    ensures faults { BodiesFaults O.Directory files.old.outside files.new.outside
        (all_required commit.segments) result }
    ensures frame { KeepsFiles (OnlyReads O.told) O.view files.old files.new }
    ensures images { O.tells_images
        → KeepsDisk (O.disk files.old.outside) (O.disk files.new.outside) }
{
    let segments = commit.segments(alloc)?;
    let readers = read_segments(alloc, files, segments.as_slice())?;
    let shown = Snapshot::new(alloc, generation, commit, readers)?;
    Ok(shown)
}

// The commit that `meta.json` means with the bodies of its files, under this number, as they read now.
fn read_snapshot<O: Outside>(
    alloc: Global,
    files: &mut StoreFiles<O>,
    generation: u64,
) -> Result<Snapshot, TantivyError>
    ensures shown { O.told.content → (s : State)
        → FilesHold O.Directory files.old s → IsWhole s
        → IfOk result (λ shown. (shown ≡ snapshot_in s generation)
        × AreGoodFiles s (all_required s.catalog.commit.segments)) }
    ensures faults { CommitFaults O.Directory files.old files.new result }
    ensures frame { KeepsFiles (OnlyReads O.told) O.view files.old files.new }
    ensures images { O.tells_images
        → KeepsDisk (O.disk files.old.outside) (O.disk files.new.outside) }
{
    let commit = read_commit(alloc, files)?;
    read_files(alloc, files, generation, commit)
}

/// The commit that `meta.json` means with the bodies of its files, under this number. All is read while
/// the meta lock is held.
pub(crate) fn load<O: Outside>(
    alloc: Global,
    files: &mut StoreFiles<O>,
    generation: u64,
) -> Result<Snapshot, TantivyError>
    ensures shown { O.told.content → (s : State)
        → FilesHold O.Directory files.old s → IsWhole s
        → IfOk result (λ shown. (shown ≡ snapshot_in s generation)
        × AreGoodFiles s (all_required s.catalog.commit.segments)) }
    ensures faults { LoadFaults O.Directory files.old files.new result }
    ensures frame { KeepsFiles (OnlyReads O.told) O.view files.old files.new }
    ensures images { O.tells_images
        → KeepsDisk (O.disk files.old.outside) (O.disk files.new.outside) }
{
    let lock = files.acquire_lock(&meta_lock())?;
    let shown = read_snapshot(alloc, files, generation);
    files.release(lock);
    shown
}
