//! A directory as the layers above see it.
ghost use Rattle.std.specs.Prelude.{◌≡◌, true, Some, is_some, IfOk, IfErr, OnErr};
ghost use Rattle.tv_formats.specs.Names.{is_file_name};
ghost use Rattle.tv_device.specs.View.{View, Told, WriterState, Frame, Kept, OnlyReads, OnlyLocks, OnlyWatches, MayDelete};
ghost use Rattle.tv_device.specs.Calls.{AskFaults, ReadFaults, OpenFaults, IoFaults, DeviceFaults, DeleteFaults, LockFaults, Frees};
ghost use Rattle.tv_device.specs.Calls.{IsNewWriter, Makes, Appends, HandsBack, Touches, Flushes, Seals, Gives, Notes, Deletes, EndsWriters, Acquires};
ghost use Rattle.tv_formats.specs.Disk.{Disk, Sealed, Unsealed};
ghost use Rattle.tv_device.specs.Images.{StandsNow, KeepsDisk, GivesState, OpensState, WritesState, DeletesState, Settles};
ghost use Rattle.tv_device.specs.Calls.{IsSilent};
ghost use Rattle.tv_device.specs.Watch.{IsNewWatcher, delivered, unsubscribed};

use crate::lock::{DirectoryLock, Lock};
use crate::watch::{WatchCall, WatchHandle};
use tv_base::{
    DeleteError, FileSlice, IoError, IoFault, LockError, OpenReadError, OpenWriteError, OwnedBytes,
};
use tv_formats::Memory;

/// Files that are written once, under plain or dotted names.
///
/// There are two in memory: `RamDirectory`, whose calls no device refuses, and `Bench`, whose device refuses
/// the calls that it is told to. That of plain files is `MmapDirectory` of `tv_files`.
///
/// The device may refuse any call but `release`, `watch`, `unwatch` and `deliver`. It then answers a fault of
/// kind `Device`, and a count rises: `refusals` for a delete, and `faults` for any other call.
///
/// A writer doesn't write by itself, as tantivy's does: `open_write` gives it, and `write`, `flush` and at last
/// `terminate` are handed it in again, on the same directory. After a fault of one of them it is only dropped.
///
/// - `flush` is for those who read a file while it is written: its name then reads all that was written.
///   Nothing is kept from a crash by it.
/// - `terminate` ends a file and seals it. It needs no flush before it.
/// - `sync_directory` is for crashes. It is called behind what must stand before the next step is taken: behind
///   the sealed files of a commit, before `meta.json` names them, and behind `meta.json`. At Ok a crash
///   leaves each name as it is then; the clause `images` says so, where images are told.
/// - Dropping a writer does none of this. The file stays, unsealed, and what wasn't flushed may be lost.
pub trait Directory {
    /// What writes a file.
    type Writer: Drop;

    /// Who may watch this directory.
    type Callback: WatchCall;

    /// What the directory tells.
    ghost told: { Told };

    /// All that is said of it. The clause `frame` of a call says what the call leaves alone.
    ghost view: { Self → View Self.Writer };

    /// The file that a writer writes.
    ghost state_of: { Self.Writer → WriterState };

    /// Whether it is told what a crash may leave.
    ghost tells_images: { Type 0 };

    /// The clock, the state of each name now, and those in which a crash may leave it. The clause
    /// `images` of a call says what becomes of them, at each moment inside the call.
    ghost disk: { Self → Disk };

    /// Whether the name reads. It never answers that the file doesn't exist.
    fn exists(&mut self, name: &str) -> Result<bool, OpenReadError>
        requires { is_file_name name.now ≡ true }
        ensures answer { told.content → IfOk result
            (λ found. found ≡ is_some ((view self.old).reads name.now)) }
        ensures faults { AskFaults (view self.old) (view self.new) name.now result }
        ensures frame { OnlyReads told (view self.old) (view self.new) }
        ensures images { tells_images → KeepsDisk (disk self.old) (disk self.new) };

    /// The file that the name reads, whose bytes no later call changes. `FileDoesNotExist` comes where
    /// the name doesn't read.
    fn open_read(&mut self, name: &str) -> Result<FileSlice, OpenReadError>
        requires { is_file_name name.now ≡ true }
        ensures bytes { told.content → IfOk result
            (λ file. (view self.old).reads name.now ≡ Some file) }
        ensures faults { ReadFaults told (view self.old) (view self.new) name.now result }
        ensures frame { OnlyReads told (view self.old) (view self.new) }
        ensures images { tells_images → KeepsDisk (disk self.old) (disk self.new) };

    /// The bytes that the name reads, as `open_read` gives them.
    fn get_file_handle(&mut self, name: &str) -> Result<OwnedBytes, OpenReadError>
        requires { is_file_name name.now ≡ true }
        ensures bytes { told.content → IfOk result
            (λ bytes. (view self.old).reads name.now ≡ Some bytes) }
        ensures faults { ReadFaults told (view self.old) (view self.new) name.now result }
        ensures frame { OnlyReads told (view self.old) (view self.new) }
        ensures images { tells_images → KeepsDisk (disk self.old) (disk self.new) };

    /// Makes an empty file that isn't sealed. `FileAlreadyExists` comes where the name reads.
    fn open_write(&mut self, name: &str) -> Result<Self::Writer, OpenWriteError>
        requires { is_file_name name.now ≡ true }
        ensures writer { IfOk result (IsNewWriter told (view self.new) state_of name.now) }
        ensures makes { Makes told (view self.old) (view self.new) name.now result }
        ensures faults { OpenFaults told (view self.old) (view self.new) name.now result }
        ensures frame { Kept told (view self.old) (view self.new) }
        ensures images { tells_images
            → OpensState (disk self.old) (disk self.new) name.now result };

    /// Appends the bytes. Which bytes the file reads until it is flushed or sealed isn't said.
    fn write(&mut self, writer: &mut Self::Writer, bytes: &[u8]) -> Result<(), IoError>
        requires { (view self.old).opened writer.old ≡ true }
        ensures appends { Appends (state_of writer.old) (state_of writer.new) bytes.now result }
        ensures hands_back { HandsBack told (view self.old) (view self.new)
            writer.old writer.new result }
        ensures touches { Touches told (view self.old) (view self.new) state_of writer.old }
        ensures faults { IoFaults (view self.old) (view self.new) result }
        ensures frame { Kept told (view self.old) (view self.new) }
        ensures images { tells_images → KeepsDisk (disk self.old) (disk self.new) };

    /// Lets the file read all that was written. Where the name was deleted since, nothing changes. Which
    /// bytes the file reads after a refused call isn't said.
    fn flush(&mut self, writer: &mut Self::Writer) -> Result<(), IoError>
        requires { (view self.old).opened writer.old ≡ true }
        ensures flushes { Flushes told (view self.old) (view self.new) state_of writer.old result }
        ensures state { state_of writer.new ≡ state_of writer.old }
        ensures hands_back { HandsBack told (view self.old) (view self.new)
            writer.old writer.new result }
        ensures faults { IoFaults (view self.old) (view self.new) result }
        ensures frame { Kept told (view self.old) (view self.new) }
        ensures images { tells_images → WritesState ((view self.old).lives writer.old)
            (disk self.old) (disk self.new) (state_of writer.old).name Unsealed result };

    /// Seals the file with all bytes that were written. Where the name was deleted since, nothing changes.
    fn terminate(&mut self, writer: Self::Writer) -> Result<(), IoError>
        requires { (view self.old).opened writer ≡ true }
        ensures seals { Seals told (view self.old) (view self.new) state_of writer result }
        ensures faults { IoFaults (view self.old) (view self.new) result }
        ensures frame { Kept told (view self.old) (view self.new) }
        ensures images { tells_images → WritesState ((view self.old).lives writer)
            (disk self.old) (disk self.new) (state_of writer).name
            (Sealed (state_of writer).written) result };

    /// The bytes that the name reads. `FileDoesNotExist` comes where it doesn't read.
    fn atomic_read(&mut self, name: &str) -> Result<Vec<u8>, OpenReadError>
        requires { is_file_name name.now ≡ true }
        ensures bytes { told.content → IfOk result
            (λ bytes. (view self.old).reads name.now ≡ Some bytes.items) }
        ensures faults { ReadFaults told (view self.old) (view self.new) name.now result }
        ensures frame { OnlyReads told (view self.old) (view self.new) }
        ensures images { tells_images → KeepsDisk (disk self.old) (disk self.new) };

    /// Gives the name these bytes in one step. After `meta.json` was written, a notice stands for those
    /// who watch.
    fn atomic_write(&mut self, name: &str, bytes: &[u8]) -> Result<(), IoError>
        requires { is_file_name name.now ≡ true }
        ensures gives { Gives told (view self.old) (view self.new) name.now bytes.now result }
        ensures notes { Notes (view self.old) (view self.new) name.now result }
        ensures faults { IoFaults (view self.old) (view self.new) result }
        ensures frame { Frame told (view self.old) (view self.new) }
        ensures images { tells_images → GivesState (disk self.old) (disk self.new) name.now
            (Sealed bytes.now) result };

    /// Deletes the file. `FileDoesNotExist` comes where the name doesn't read. Nothing changes where
    /// it is refused. Its count is one of 64 bits.
    fn delete(&mut self, name: &str) -> Result<(), DeleteError>
        requires { is_file_name name.now ≡ true }
        ensures deletes { Deletes told (view self.old) (view self.new) name.now result }
        ensures writers { EndsWriters told (view self.old) (view self.new)
            state_of name.now result }
        ensures faults { DeleteFaults told (view self.old) (view self.new) name.now result }
        ensures frame { MayDelete told (view self.old) (view self.new) }
        ensures images { tells_images
            → DeletesState (disk self.old) (disk self.new) name.now result };

    /// Waits until the device has kept what was written. Takes no memory; the text of a fault is empty.
    fn sync_directory(&mut self) -> Result<(), IoFault>
        ensures faults { DeviceFaults (view self.old) (view self.new) result }
        ensures silent { IfErr result IsSilent }
        ensures frame { OnlyReads told (view self.old) (view self.new) }
        ensures images { tells_images → Settles (disk self.old) (disk self.new) result };

    /// Takes a lock. In memory `LockBusy` comes only where it is held. Over plain files a blocking
    /// lock waits until it is free, unless this very directory holds it.
    fn acquire_lock(&mut self, lock: &Lock) -> Result<DirectoryLock, LockError>
        requires { is_file_name lock.now.filepath.now ≡ true }
        ensures token { IfOk result (λ token. token ≡ lock.now.filepath.now) }
        ensures acquires { Acquires told (view self.old) (view self.new)
            lock.now.filepath.now result }
        ensures faults { LockFaults told (view self.old) (view self.new)
            lock.now.filepath.now result }
        ensures frame { OnlyLocks told (view self.old) (view self.new) }
        ensures images { tells_images → KeepsDisk (disk self.old) (disk self.new) };

    /// Frees the lock of this token's name. Takes no memory.
    fn release(&mut self, lock: DirectoryLock)
        ensures frees { Frees told lock (view self.old) (view self.new) }
        ensures images { tells_images → KeepsDisk (disk self.old) (disk self.new) };

    /// Registers a callback, which each delivered notice calls.
    fn watch(&mut self, callback: Self::Callback) -> Result<WatchHandle, Memory>
        ensures ok { IfOk result (IsNewWatcher (view self.old).watched (view self.new).watched
            (Self.Callback.calls callback)) }
        ensures err { OnErr result ((view self.new).watched ≡ (view self.old).watched) }
        ensures frame { OnlyWatches told (view self.old) (view self.new) }
        ensures images { tells_images → KeepsDisk (disk self.old) (disk self.new) };

    /// Gives a handle back. With its last one the callback isn't registered any more. Takes no memory.
    fn unwatch(&mut self, handle: WatchHandle)
        ensures left { (view self.new).watched ≡ unsubscribed handle (view self.old).watched }
        ensures frame { OnlyWatches told (view self.old) (view self.new) }
        ensures images { tells_images → KeepsDisk (disk self.old) (disk self.new) };

    /// Whether a notice stood. If so each registered callback is called once, in the order in which they
    /// were registered, and the notice ends. Takes no memory.
    fn deliver(&mut self) -> bool
        ensures answer { result ≡ (view self.old).watched.notice }
        ensures called { (view self.new).watched ≡ delivered (view self.old).watched }
        ensures frame { OnlyWatches told (view self.old) (view self.new) }
        ensures images { tells_images → KeepsDisk (disk self.old) (disk self.new) };

    /// Who is told what a crash may leave is told the content too.
    ghost tells_more: { tells_images → told.content };

    /// Where it is told, what reads is one of the images that a crash now may leave.
    ghost stands: { (d : Self) → tells_images → StandsNow (view d) (disk d) };
}
