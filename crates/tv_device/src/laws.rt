//! Laws of directories: what the clauses of their calls come to for those who use them.
ghost use Rattle.std.specs.Prelude.{◌≡◌, ℕ, List, None, Some, true, IsErr, IsSome, IfErr, IfOk, OnOk};
ghost use Rattle.tv_base.specs.Causes.{IoCause};
ghost use Rattle.tv_formats.specs.Disk.{MayLeave, Sealed, possible_now};
ghost use Rattle.tv_formats.specs.Files.{Reads, Same};
ghost use Rattle.tv_formats.specs.Sound.{IsSoundDirectory, IsSoundStart};
ghost use Rattle.tv_formats.specs.Listed.{ImagesListTheirFiles, IsListSettled, ListsEachFile};
ghost use Rattle.tv_formats.specs.Names.{is_file_name};

use crate::directory::Directory;
use crate::lock::{DirectoryLock, Lock};
use tv_base::{DeleteError, IoError, LockError, OpenWriteError};

/// Where it is told what a crash may leave, what a directory reads is one of the images that a crash now
/// may leave. So a sound directory is a sound start. Each of its images lists its files; and where a crash leaves
/// the list as it is, and each image lists its files, the list forgets none.
pub fn what_reads_is_an_image<D: Directory>(directory: &D)
    ensures image { D.tells_images → MayLeave (D.disk directory.now) (D.disk directory.now).moment
        (D.view directory.now).reads }
    ensures sound { D.tells_images → (schema : List ℕ) → IsSoundDirectory schema
        (D.disk directory.now) (D.view directory.now).locks
        → IsSoundStart schema (D.view directory.now).reads (D.view directory.now).locks }
    ensures listed { D.tells_images → IsListSettled (D.disk directory.now)
        → ImagesListTheirFiles (possible_now (D.disk directory.now))
        → ListsEachFile (possible_now (D.disk directory.now)) }
    ensures lists { D.tells_images → (schema : List ℕ) → IsSoundDirectory schema
        (D.disk directory.now) (D.view directory.now).locks
        → ImagesListTheirFiles (possible_now (D.disk directory.now)) }
{}

/// Where a name reads, opening it to write answers an error, and each name reads what it read.
pub fn open_write_spares_a_file_that_is_there<D: Directory>(
    directory: &mut D,
    name: &str,
) -> Result<D::Writer, OpenWriteError>
    requires { is_file_name name.now ≡ true }
    ensures refused { D.told.content → IsSome ((D.view directory.old).reads name.now)
        → IsErr result }
    ensures spared { D.told.content → IsSome ((D.view directory.old).reads name.now)
        → Same (D.view directory.old).reads (D.view directory.new).reads }
{
    directory.open_write(name)
}

/// A flush by a writer whose file was deleted doesn't bring the file back, whatever it answers.
pub fn flush_brings_no_deleted_file_back<D: Directory>(
    directory: &mut D,
    name: &str,
    writer: &mut D::Writer,
) -> Result<Result<(), IoError>, DeleteError>
    requires name { is_file_name name.now ≡ true }
    requires opened { (D.view directory.old).opened writer.old ≡ true }
    ensures { D.told.content → (D.state_of writer.old).name ≡ name.now
        → OnOk result ((D.view directory.new).reads name.now ≡ None) }
{
    directory.delete(name)?;
    Ok(directory.flush(writer))
}

/// Nor does sealing it.
pub fn terminate_brings_no_deleted_file_back<D: Directory>(
    directory: &mut D,
    name: &str,
    writer: D::Writer,
) -> Result<Result<(), IoError>, DeleteError>
    requires name { is_file_name name.now ≡ true }
    requires opened { (D.view directory.old).opened writer ≡ true }
    ensures { D.told.content → (D.state_of writer).name ≡ name.now
        → OnOk result ((D.view directory.new).reads name.now ≡ None) }
{
    directory.delete(name)?;
    Ok(directory.terminate(writer))
}

/// A lock that was taken isn't given a second time before it is released.
pub fn a_lock_is_given_once<D: Directory>(
    directory: &mut D,
    lock: &Lock,
) -> Result<Result<DirectoryLock, LockError>, LockError>
    requires { is_file_name lock.now.filepath.now ≡ true }
    ensures { D.told.locks → IfOk result IsErr }
{
    let _token = directory.acquire_lock(lock)?;
    Ok(directory.acquire_lock(lock))
}

/// Whatever a write answers, a crash may leave the name as it was before, until the next sync.
pub fn a_crash_may_undo_a_write<D: Directory>(
    directory: &mut D,
    name: &str,
    bytes: &[u8],
) -> Result<(), IoError>
    requires { is_file_name name.now ≡ true }
    ensures { D.tells_images → possible_now (D.disk directory.new) name.now
        ((D.disk directory.old).now name.now) }
{
    directory.atomic_write(name, bytes)
}

/// Where the device refuses a write, a crash may leave its bytes all the same.
pub fn a_refused_write_may_land<D: Directory>(
    directory: &mut D,
    name: &str,
    bytes: &[u8],
) -> Result<(), IoError>
    requires { is_file_name name.now ≡ true }
    ensures { D.tells_images → IfErr result (IoCause
        (possible_now (D.disk directory.new) name.now (Sealed bytes.now)) (Unit {0})) }
{
    directory.atomic_write(name, bytes)
}

/// What was written and then synced outlives a crash.
pub fn a_synced_write_outlives_a_crash<D: Directory>(
    directory: &mut D,
    name: &str,
    bytes: &[u8],
) -> Result<(), IoError>
    requires { is_file_name name.now ≡ true }
    ensures { D.tells_images → OnOk result ((image : Reads)
        → MayLeave (D.disk directory.new) (D.disk directory.new).moment image
        → image name.now ≡ Some bytes.now) }
{
    directory.atomic_write(name, bytes)?;
    directory.sync_directory()?;
    Ok(())
}
