//! Laws of managed directories: what one may rely on, whatever the directory is. Each makes the calls of which it
//! speaks, and its contract is the law.
ghost use Rattle.std.specs.Prelude.{◌≡◌, ◌≢◌, ◌≤◌, ◌<◌, ◌⊎◌, ◌&&◌, not, ℕ, List, Option, true, false, IsSome, IfOk, IfErr, OnErr, OnOk};
ghost use Rattle.tv_formats.specs.Names.{has, is_file_name, list_name};
ghost use Rattle.tv_formats.specs.Collections.{collection_at, held};
ghost use Rattle.tv_formats.specs.Disk.{IsThere, MayLeave};
ghost use Rattle.tv_formats.specs.Files.{Reads};
ghost use Rattle.tv_formats.specs.Listed.{ListsItsFiles};
ghost use Rattle.tv_device.specs.View.{OnlyReads};
ghost use Rattle.tv_managed.specs.Collecting.{HasLeft, KeepsFailed, Spares, TookNoneOf, is_done, names_of, texts_of};
ghost use Rattle.tv_managed.specs.Crashes.{AreListed, IsTracked, LeavesWhatMight, StandsFor};
ghost use Rattle.tv_managed.specs.Frames.{KeepsNames};
ghost use Rattle.tv_managed.specs.Managed.{is_taken};
ghost use Rattle.tv_managed.specs.Writers.{IsSummed};

use crate::collection::{CollectStep, GarbageCollectionResult};
use crate::managed_directory::ManagedDirectory;
use crate::writer::ManagedWriter;
use std::collections::BTreeSet;
use tv_base::{OpenWriteError, OwnedBytes, TantivyError};
use tv_device::Directory;
use tv_formats::Memory;

/// Where track is kept, a crash at any moment of `open_write`, whatever that answers, leaves no undotted file but
/// those on the list that it leaves.
pub fn open_write_forgets_no_file<D: Directory>(
    directory: &mut ManagedDirectory<D>,
    name: &str,
) -> Result<ManagedWriter<D>, OpenWriteError>
    requires name { is_file_name name.now ≡ true }
    requires other { name.now ≢ list_name }
    ensures { D.tells_images → IsTracked D.Directory directory.old
        → (x : ℕ) (image : List ℕ → Option (List ℕ))
        → (D.disk directory.old.0).moment ≤ x → x ≤ (D.disk directory.new.0).moment
        → MayLeave (D.disk directory.new.0) x image → ListsItsFiles image }
{
    directory.open_write(name)
}

/// Where `open_write` answers that the file is there, or that an unfinished collection has the name, nothing
/// changed: each name reads what it read, and the managed names and the collections are as they were. Nor does a
/// crash leave anything, at any moment of the call, that it couldn't leave before.
pub fn open_write_spares_a_taken_name<D: Directory>(
    directory: &mut ManagedDirectory<D>,
    name: &str,
) -> Result<ManagedWriter<D>, OpenWriteError>
    requires name { is_file_name name.now ≡ true }
    requires other { name.now ≢ list_name }
    ensures frame { D.told.content → IfErr result (λ error. is_taken error ≡ true
        → KeepsNames (OnlyReads D.told) D.view directory.old directory.new) }
    ensures images { D.tells_images → IfErr result (λ error. is_taken error ≡ true
        → (x : ℕ) (image : Reads)
        → (D.disk directory.old.0).moment ≤ x → x ≤ (D.disk directory.new.0).moment
        → MayLeave (D.disk directory.new.0) x image
        → MayLeave (D.disk directory.old.0) (D.disk directory.old.0).moment image) }
{
    directory.open_write(name)
}

/// Where the name has a file, `open_write` gives a crash nothing to leave that it couldn't leave before, at any
/// moment of the call and whatever that answers. So it leaves no file unsealed that it couldn't leave so before.
pub fn open_write_unseals_no_file_that_is_there<D: Directory>(
    directory: &mut ManagedDirectory<D>,
    name: &str,
) -> Result<ManagedWriter<D>, OpenWriteError>
    requires name { is_file_name name.now ≡ true }
    requires other { name.now ≢ list_name }
    ensures { D.tells_images → IsThere ((D.disk directory.old.0).now name.now)
        → (x : ℕ) (image : Reads)
        → (D.disk directory.old.0).moment ≤ x → x ≤ (D.disk directory.new.0).moment
        → MayLeave (D.disk directory.new.0) x image
        → MayLeave (D.disk directory.old.0) (D.disk directory.old.0).moment image }
{
    directory.open_write(name)
}

/// What was written is read back where sealing and reading answer Ok: these are the bytes of the file's
/// body, provided that its name wasn't deleted since it was made, and that the writer's checksum is that of
/// what was written.
pub fn sealed_bytes_are_read_back<D: Directory>(
    directory: &mut ManagedDirectory<D>,
    writer: ManagedWriter<D>,
    name: &str,
) -> Result<OwnedBytes, TantivyError>
    requires name { is_file_name name.now ≡ true }
    requires opened { (D.view directory.old.0).opened writer.writer ≡ true }
    ensures { D.told.content → (D.view directory.old.0).lives writer.writer ≡ true
        → IsSummed D.state_of writer → (D.state_of writer.writer).name ≡ name.now
        → IfOk result (λ found. found ≡ (D.state_of writer.writer).written) }
{
    directory.terminate(writer)?;
    Ok(directory.get_file_handle(name)?)
}

/// A collection that is begun takes no living name, and none that a collection has which was unfinished before.
pub fn collect_begin_spares_what_is_needed<D: Directory>(
    directory: &mut ManagedDirectory<D>,
    living: &BTreeSet<String>,
) -> Result<u64, TantivyError>
    ensures living { IfOk result (TookNoneOf (names_of living.now.keys) directory.new.1) }
    ensures held { IfOk result (TookNoneOf (held directory.old.1.collections) directory.new.1) }
{
    directory.collect_begin(living)
}

/// The names that are told before a collection begins are the managed ones that are neither living nor of an
/// unfinished collection.
pub fn collectable_names_are_spare<'a, D: Directory>(
    directory: &'a ManagedDirectory<D>,
    living: &BTreeSet<String>,
) -> Result<Vec<&'a str>, Memory>
    ensures { IfOk result (λ names. (n : List ℕ) → has (texts_of names.items) n
        ≡ (not (has (names_of living.now.keys) n)
        && not (has (held directory.now.1.collections) n)
        && has directory.now.1.managed n)) }
{
    directory.collectable(living)
}

/// The number of a collection that is begun is below the one that the next collection gets.
pub fn collect_begin_gives_a_number_once<D: Directory>(
    directory: &mut ManagedDirectory<D>,
    living: &BTreeSet<String>,
) -> Result<u64, TantivyError>
    ensures { IfOk result (λ number. number < directory.new.1.collections.next) }
{
    directory.collect_begin(living)
}

/// Where the device refused the delete of a step, or memory was wanted, a crash after it leaves nothing that it
/// couldn't leave before it: no file is lost that couldn't be.
pub fn a_refused_delete_loses_no_file<D: Directory>(
    directory: &mut ManagedDirectory<D>,
    id: u64,
) -> Result<CollectStep, TantivyError>
    requires { HasLeft directory.old.1.collections id }
    ensures refused { D.tells_images → IfOk result (λ step. is_done step ≡ false
        → LeavesWhatMight (D.disk directory.old.0) (D.disk directory.new.0)) }
    ensures wanted { D.tells_images → OnErr result
        (LeavesWhatMight (D.disk directory.old.0) (D.disk directory.new.0)) }
{
    directory.collect_delete(id)
}

/// Where track is kept, and each managed name is on the list, whatever a crash may leave of that, both are so still
/// once a step of a collection was made and all collections are forgotten.
pub fn forgotten_collections_lose_no_file<D: Directory>(
    directory: &mut ManagedDirectory<D>,
    id: u64,
) -> Result<CollectStep, TantivyError>
    requires { HasLeft directory.old.1.collections id }
    ensures { D.tells_images → AreListed D.Directory directory.old
        → IsTracked D.Directory directory.old → OnOk result
        (AreListed D.Directory directory.new × IsTracked D.Directory directory.new) }
{
    let step = directory.collect_delete(id)?;
    directory.forget_collections();
    Ok(step)
}

/// A managed name that the end of a collection tells as failed stays managed. The next number stays, whatever the
/// end answers.
pub fn collect_end_keeps_failed_names<D: Directory>(
    directory: &mut ManagedDirectory<D>,
    id: u64,
) -> Result<GarbageCollectionResult, TantivyError>
    requires { IsSome (collection_at directory.old.1.collections id) }
    ensures failed { IfOk result (KeepsFailed directory.old.1 directory.new.1) }
    ensures next { directory.new.1.collections.next ≡ directory.old.1.collections.next }
{
    directory.collect_end(id)
}

/// A collection at once leaves each living name as it reads, and each that a collection had which was
/// unfinished before, whatever it answers, but for the list's. At Ok a managed name that it tells as failed
/// stays managed.
pub fn garbage_collect_spares_what_is_needed<D: Directory>(
    directory: &mut ManagedDirectory<D>,
    living: BTreeSet<String>,
) -> Result<GarbageCollectionResult, TantivyError>
    ensures living { D.told.content → Spares (names_of living.keys)
        (D.view directory.old.0).reads (D.view directory.new.0).reads }
    ensures held { D.told.content → Spares (held directory.old.1.collections)
        (D.view directory.old.0).reads (D.view directory.new.0).reads }
    ensures failed { IfOk result (KeepsFailed directory.old.1 directory.new.1) }
{
    directory.garbage_collect(|| living)
}

/// A crash at any moment of a collection at once, whatever that answers, leaves what it might have left
/// before, or leaves each living name but the list's as it stood at the beginning. So where `meta.json` is
/// living, what couldn't be left before, as where a file is gone, has the `meta.json` that stood. At Ok the
/// same is so of each name that is told as failed.
pub fn garbage_collect_deletes_behind_a_sync<D: Directory>(
    directory: &mut ManagedDirectory<D>,
    living: BTreeSet<String>,
) -> Result<GarbageCollectionResult, TantivyError>
    ensures living { D.tells_images → (x : ℕ) (image : Reads)
        → (D.disk directory.old.0).moment ≤ x → x ≤ (D.disk directory.new.0).moment
        → MayLeave (D.disk directory.new.0) x image
        → MayLeave (D.disk directory.old.0) (D.disk directory.old.0).moment image
        ⊎ StandsFor (names_of living.keys) (D.disk directory.old.0).now image }
    ensures failed { D.tells_images → IfOk result (λ told. (x : ℕ) (image : Reads)
        → (D.disk directory.old.0).moment ≤ x → x ≤ (D.disk directory.new.0).moment
        → MayLeave (D.disk directory.new.0) x image
        → MayLeave (D.disk directory.old.0) (D.disk directory.old.0).moment image
        ⊎ StandsFor (names_of told.failed_to_delete_files.items)
        (D.disk directory.old.0).now image) }
{
    directory.garbage_collect(|| living)
}
