//! How the text of `meta.json` is saved.
ghost use Rattle.std.specs.Prelude.{◌≡◌, ◌<◌, ◌^◌, IfOk, IsErrAnd, OnOk, false, map};
ghost use Rattle.std.specs.List.{AllByRecursion};
ghost use Rattle.tv_formats.specs.Collections.{held};
ghost use Rattle.tv_formats.specs.Commits.{Commit, IsCommit, IsSegment};
ghost use Rattle.tv_formats.specs.Names.{has, meta_name};
ghost use Rattle.tv_device.specs.Calls.{IoFaults};
ghost use Rattle.tv_managed.specs.Crashes.{LeavesSafely};
ghost use Rattle.tv_managed.specs.Managed.{KeepsOtherFiles, ManagesFile};
ghost use Rattle.tv_index.specs.Crashes.{SavesStates, giving};
ghost use Rattle.tv_index.specs.Saving.{FrameNotesUnless, LeavesText, SaveFaults, SavesCommit, SavesMeta, saved_text};
ghost use Rattle.tv_metas.specs.Schemas.{HasSchemaTree};
ghost use Rattle.tv_metas.specs.TrackedMetas.{IsInOrder, tracked_commit, tracked_form, tracked_settings};

use std::alloc::Global;
use tv_base::{IoError, META_FILEPATH, TantivyError};
use tv_device::Directory;
use tv_formats::Memory;
use tv_managed::ManagedDirectory;
use tv_metas::{IndexMeta, SegmentMeta};

/// Makes these bytes the text of `meta.json`, by one atomic write. The directory is synced before
/// and afterwards: a crash leaves what it might have left before the call, or the text that stood
/// then or this one, and at Ok this one. Where memory was wanted, no crash within the call leaves a
/// `meta.json` that neither stood nor could be left before. After an error `meta.json` may be
/// managed, where it wasn't before. No unfinished collection may have it.
pub fn save_meta_text<D: Directory>(
    directory: &mut ManagedDirectory<D>,
    text: &[u8],
) -> Result<(), IoError>
    requires { has (held directory.old.1.collections) meta_name ≡ false }
    ensures saves { OnOk result (SavesMeta D.Directory directory.old directory.new text.now) }
    ensures others { D.told.content → KeepsOtherFiles (D.view directory.old.0).reads
        (D.view directory.new.0).reads meta_name }
    ensures leaves { LeavesText D.Directory directory.old.0 directory.new.0 text.now result }
    ensures manages { ManagesFile D.Directory directory.old directory.new meta_name result }
    ensures faults { IoFaults (D.view directory.old.0) (D.view directory.new.0) result }
    ensures frame { FrameNotesUnless D.told (IsErrAnd result (λ error. error ≡ IoError.Memory))
        (D.view directory.old.0) (D.view directory.new.0) }
    ensures safe { D.tells_images → LeavesSafely D.Directory
        (SavesStates (D.disk directory.old.0) (D.disk directory.new.0) directory.old.1
        (giving meta_name text.now) IoError.Memory result) directory.old directory.new }
{
    directory.sync_directory()?;
    directory.atomic_write(META_FILEPATH, text)?;
    directory.sync_directory()?;
    Ok(())
}

// The segments of shares are ones of a commit, which a contract learns from each.
fn are_segments(segments: &[SegmentMeta])
    ensures { AllByRecursion IsSegment (map (λ s. s.1) segments.now) }
{
    for segment in segments {
        segment.is_segment();
    }
}

// A contract learns from it that the schema's text is one, that numbers are within their ranges, and
// so that the segments in the order of their ids make a commit.
fn learn_commit(meta: &IndexMeta)
    ensures schema { HasSchemaTree meta.now.schema }
    ensures blocksize { (tracked_settings meta.now).blocksize < 2 ^ 64 }
    ensures commit { (commit : Commit) → IsInOrder (tracked_commit meta.now) commit
        → IsCommit commit }
{
    let _schema = meta.schema.text();
    let _blocksize = meta.index_settings.docstore_blocksize;
    let _opstamp = meta.opstamp;
    are_segments(meta.segments.as_slice());
}

// The text of `meta.json` of a commit.
fn saved_text(alloc: Global, meta: &IndexMeta) -> Result<Vec<u8>, Memory>
    ensures { IfOk result (λ text. (commit : Commit)
        → IsInOrder (tracked_commit meta.now) commit
        → text.items ≡ saved_text (tracked_settings meta.now) meta.now.schema commit) }
{
    let mut text = meta.print(alloc)?;
    text.push(b'\n')?;
    Ok(text)
}

/// Saves a commit in one step: where no id stands twice, `meta.json` then has its printed form, with
/// the segments in the order of their ids, and a line feed, which mean that commit. Of two shares with
/// one id nothing is said.
///
/// The directory is synced before and afterwards: a crash leaves what it might have left before the
/// call, or the commit that stood then or this one, and at Ok this one. An `IoError` comes where
/// the device refused a call, and `Memory` where memory was wanted; then `meta.json` has what it
/// had, and no crash within the call leaves a `meta.json` that neither stood nor could be left
/// before. After an error `meta.json` may be managed, where it wasn't before. No unfinished
/// collection may have it.
pub fn save_metas<D: Directory>(
    alloc: Global,
    meta: &IndexMeta,
    directory: &mut ManagedDirectory<D>,
) -> Result<(), TantivyError>
    requires { has (held directory.old.1.collections) meta_name ≡ false }
    ensures saves { (commit : Commit) → IsInOrder (tracked_commit meta.now) commit
        → SavesCommit D.Directory directory.old directory.new (tracked_form meta.now) commit
        result }
    ensures others { D.told.content → KeepsOtherFiles (D.view directory.old.0).reads
        (D.view directory.new.0).reads meta_name }
    ensures manages { ManagesFile D.Directory directory.old directory.new meta_name result }
    ensures faults { SaveFaults (D.view directory.old.0) (D.view directory.new.0) result }
    ensures frame { FrameNotesUnless D.told
        (IsErrAnd result (λ error. error ≡ TantivyError.Memory))
        (D.view directory.old.0) (D.view directory.new.0) }
    ensures safe { D.tells_images → (commit : Commit) → IsInOrder (tracked_commit meta.now) commit
        → LeavesSafely D.Directory (SavesStates (D.disk directory.old.0) (D.disk directory.new.0)
        directory.old.1
        (giving meta_name (saved_text (tracked_settings meta.now) meta.now.schema commit))
        TantivyError.Memory result) directory.old directory.new }
{
    learn_commit(meta);
    let text = saved_text(alloc, meta)?;
    save_meta_text(directory, text.as_slice())?;
    Ok(())
}
