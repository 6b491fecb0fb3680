//! Calls on the files of a directory.
ghost use Rattle.std.specs.Prelude.{◌≡◌, true, false};
ghost use Rattle.tv_formats.specs.Names.{is_file_name};
ghost use Rattle.tv_formats.specs.Files.{has_no_feed};

use std::alloc::Global;
use std::process::Abort;
use tv_base::{IoError, IoFault, LockError, TantivyError, TerminatingWrite, is_plain_name};
use tv_directory::{DirWriter, Directory, Lock, Outside, index_writer_lock, meta_lock};
use tv_test_support::{done, reads, told, whole};

#[derive(Clone, Copy)]
pub(crate) enum Call {
    Exists,
    OpenRead,
    GetFileHandle,
    AtomicRead,
    AtomicWrite,
    /// Makes a file, and flushes it without a write.
    Touch,
    /// Makes a file, and writes and flushes it.
    Flush,
    /// The same, and seals it: four calls of the device.
    Seal,
    /// Makes a file, deletes it, and flushes and seals it: four calls, too.
    Lose,
    /// The same, and the file is written before it is deleted.
    Outlive,
    Delete,
    Sync,
    /// Takes a lock and gives it back.
    Lock,
    /// Takes each lock, which is given once until it is released.
    LockBoth,
}

/// A call, the name of its file, a text to write, and what it is to answer: the text that a read gives, or what `Debug`
/// prints.
pub(crate) type Step = (Call, &'static str, &'static str, &'static str);

// Writes and flushes a text, and seals it where it is to be sealed.
fn write_out<W: TerminatingWrite>(
    writer: &mut W,
    text: &str,
    is_sealed: bool,
) -> Result<(), IoError>
    requires { (W.view writer.old).ended ≡ false }
{
    writer.write_all(text.as_bytes())?;
    writer.flush()?;
    if is_sealed {
        writer.terminate()
    } else {
        Ok(())
    }
}

// Makes a file of this text.
fn make<D: Directory>(
    directory: &mut D,
    name: &str,
    text: &str,
    is_sealed: bool,
) -> Result<(), TantivyError>
    requires { is_file_name name.now ≡ true }
{
    let writer = directory.open_write(name)?;
    let mut writer = DirWriter::new(directory, writer);
    Ok(write_out(&mut writer, text, is_sealed)?)
}

fn touch<D: Directory>(directory: &mut D, name: &str) -> Result<(), TantivyError>
    requires { is_file_name name.now ≡ true }
{
    let mut writer = directory.open_write(name)?;
    Ok(directory.flush(&mut writer)?)
}

// Deletes a file, and then flushes and seals it.
fn outlive<R: Abort, D: Directory>(rt: &R, directory: &mut D, writer: D::Writer, name: &str)
    requires name { is_file_name name.now ≡ true }
    requires opened { (D.view directory.old).opened writer ≡ true }
{
    let mut writer = writer;
    directory.delete(name).expect(rt, "deleted");
    directory.flush(&mut writer).expect(rt, "flushed");
    directory.terminate(writer).expect(rt, "sealed");
}

fn lose<R: Abort, D: Directory>(rt: &R, directory: &mut D, name: &str)
    requires { is_file_name name.now ≡ true }
{
    let writer = directory.open_write(name).expect(rt, "a new file");
    outlive(rt, directory, writer, name);
}

fn write_and_lose<R: Abort, D: Directory>(rt: &R, directory: &mut D, name: &str, text: &str)
    requires { is_file_name name.now ≡ true }
{
    let mut writer = directory.open_write(name).expect(rt, "a new file");
    directory
        .write(&mut writer, text.as_bytes())
        .expect(rt, "written");
    outlive(rt, directory, writer, name);
}

fn lock<D: Directory>(directory: &mut D) -> Result<(), LockError> {
    let token = directory.acquire_lock(&meta_lock())?;
    directory.release(token);
    Ok(())
}

// Whether the token of a lock has its name, and the lock is busy until it is released.
fn lock_twice<R: Abort + Eprint, D: Directory>(
    rt: &R,
    alloc: Global,
    directory: &mut D,
    lock: &Lock,
) -> bool
    requires { is_file_name lock.now.filepath.now ≡ true }
{
    let token = directory.acquire_lock(lock).expect(rt, "a free lock");
    let is_named = token.name() == lock.filepath;
    let again = done(directory.acquire_lock(lock));
    directory.release(token);
    is_named && told(rt, alloc, again, "Err(LockBusy)")
}

// Takes each lock twice, and then once more.
fn lock_both<R: Abort + Eprint, D: Directory>(rt: &R, alloc: Global, directory: &mut D) -> bool {
    lock_twice(rt, alloc, directory, &meta_lock())
        && lock_twice(rt, alloc, directory, &index_writer_lock())
        && lock_twice(rt, alloc, directory, &meta_lock())
}

/// Makes a call, and answers whether it ended as it is to end.
pub(crate) fn take<R: Abort + Eprint, D: Directory>(
    rt: &R,
    alloc: Global,
    directory: &mut D,
    step: Step,
) -> bool {
    let (call, name, text, want) = step;
    if !is_plain_name(name) {
        return false;
    }
    match call {
        Call::Exists => told(rt, alloc, directory.exists(name), want),
        Call::OpenRead => reads(rt, alloc, whole(directory.open_read(name)), want),
        Call::GetFileHandle => reads(rt, alloc, directory.get_file_handle(name), want),
        Call::AtomicRead => reads(rt, alloc, directory.atomic_read(name), want),
        Call::AtomicWrite => {
            told(
                rt,
                alloc,
                directory.atomic_write(name, text.as_bytes()),
                want,
            )
        }
        Call::Touch => told(rt, alloc, touch(directory, name), want),
        Call::Flush => told(rt, alloc, make(directory, name, text, false), want),
        Call::Seal => told(rt, alloc, make(directory, name, text, true), want),
        Call::Lose => told(rt, alloc, lose(rt, directory, name), want),
        Call::Outlive => told(rt, alloc, write_and_lose(rt, directory, name, text), want),
        Call::Delete => told(rt, alloc, directory.delete(name), want),
        Call::Sync => told(rt, alloc, directory.sync_directory(), want),
        Call::Lock => told(rt, alloc, lock(directory), want),
        Call::LockBoth => told(rt, alloc, lock_both(rt, alloc, directory), want),
    }
}

/// Whether these calls end as they are to end.
pub(crate) fn take_all<R: Abort + Eprint, D: Directory>(
    rt: &R,
    alloc: Global,
    directory: &mut D,
    steps: &[Step],
) {
    for (number, step) in steps.iter().enumerate() {
        assert!(rt;
            take(rt, alloc, directory, *step),
            "step {number} ends otherwise"
        );
    }
}

/// Tells a line, for which there is memory.
pub(crate) fn tell<R: Abort, O: Outside>(
    rt: &R,
    outside: &mut O,
    line: &[u8],
) -> Result<(), IoFault>
    requires { has_no_feed line.now ≡ true }
{
    outside.ready(line.len()).expect(rt, "memory");
    outside.tell(line)
}
