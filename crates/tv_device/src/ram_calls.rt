//! The calls of a directory in memory.
ghost use Rattle.tv_formats.specs.Disk.{Absent, Sealed, Unsealed, no_disk};
ghost use Rattle.std.specs.Prelude.{◌≡◌, true, is_some, Some, IfOk, IfErr, OnErr};
ghost use Rattle.tv_formats.specs.Names.{is_file_name};
ghost use Rattle.tv_device.specs.View.{tells_all, Frame, Kept, MayDelete};
ghost use Rattle.tv_device.specs.Calls.{AskFaults, ReadFaults, OpenFaults, IoFaults, DeleteFaults, LockFaults};
ghost use Rattle.tv_device.specs.Calls.{IsNewWriter, Makes, Appends, HandsBack, Touches, Flushes, Seals, Gives, Notes, Deletes, EndsWriters, Acquires};
ghost use Rattle.tv_device.specs.Locks.{FreesLock, LockCause};
ghost use Rattle.tv_device.specs.Ram.{ram_view, ram_state, ram_states, ram_reads, ram_opened, ram_lives, ram_locks, ram_watched};
ghost use Rattle.tv_device.specs.Ram.{MakesRamFile, SameFile, OnlyFiles, OnlyNoted, OnlyHeld, OnlyWatchers, KeepsWriters};
ghost use Rattle.tv_device.specs.StoredFiles.{PutsState, bytes_of, disk_state_of};
ghost use Rattle.tv_device.specs.Watch.{IsNewWatcher, delivered, unsubscribed};

use crate::directory::Directory;
use crate::files::Content;
use crate::lock::{DirectoryLock, Lock};
use crate::ram_directory::{RamDirectory, RamWriter};
use crate::watch::{WatchCall, WatchHandle};
use std::alloc::Global;
use tv_base::{
    DeleteError, FileSlice, IoError, IoFault, LockError, META_FILEPATH, OpenReadError,
    OpenWriteError, OwnedBytes,
};
use tv_formats::{FileName, Memory};

/// A name with this text.
pub fn file_name(alloc: Global, name: &str) -> Result<FileName, Memory>
    requires { is_file_name name.now ≡ true }
    ensures { IfOk result (λ made. made ≡ name.now) }
{
    let text = String::from_str(alloc, name)?;
    Ok(FileName::new(text))
}

// What a flush of this writer gives to its file.
fn flushed_file(alloc: Global, writer: &RamWriter) -> Result<(FileName, Content), Memory>
    ensures { IfOk result (λ file. (file.0 ≡ writer.now.name)
        × (bytes_of file.1 ≡ writer.now.bytes.items) × (disk_state_of (Some file.1) ≡ Unsealed)) }
{
    let name = file_name(alloc, writer.name.as_str())?;
    let bytes = Vec::from_slice(alloc, writer.bytes.as_slice())?;
    Ok((name, Content::Unsealed(OwnedBytes::new(bytes)?)))
}

// A sealed file of this name and these bytes.
fn sealed_file(alloc: Global, name: &str, bytes: &[u8]) -> Result<(FileName, Content), Memory>
    requires { is_file_name name.now ≡ true }
    ensures { IfOk result (λ file. (file.0 ≡ name.now) × (bytes_of file.1 ≡ bytes.now)
        × (disk_state_of (Some file.1) ≡ Sealed bytes.now)) }
{
    let name = file_name(alloc, name)?;
    let bytes = Vec::from_slice(alloc, bytes)?;
    Ok((name, Content::Sealed(OwnedBytes::new(bytes)?)))
}

impl<C: WatchCall> Directory for RamDirectory<C> {
    type Writer = RamWriter;

    type Callback = C;

    ghost told = { tells_all };

    ghost view = { ram_view C.calls };

    ghost state_of = { ram_state };

    ghost tells_images = { ⊥ };

    ghost disk = { λ _. no_disk };

    ghost tells_more = { λ told. absurd told };

    ghost stands = { λ d told. absurd told };

    fn exists(&mut self, name: &str) -> Result<bool, OpenReadError>
        requires { is_file_name name.now ≡ true }
        ensures answer { IfOk result (λ found. found ≡ is_some (ram_reads self.old name.now)) }
        ensures faults { AskFaults (ram_view C.calls self.old) (ram_view C.calls self.new)
            name.now result }
        ensures frame { self.new ≡ self.old }
    {
        let name = file_name(self.alloc, name)?;
        Ok(self.files.has(&name))
    }

    fn open_read(&mut self, name: &str) -> Result<FileSlice, OpenReadError>
        requires { is_file_name name.now ≡ true }
        ensures bytes { IfOk result (λ file. ram_reads self.old name.now ≡ Some file) }
        ensures faults { ReadFaults tells_all (ram_view C.calls self.old)
            (ram_view C.calls self.new) name.now result }
        ensures frame { self.new ≡ self.old }
    {
        Ok(FileSlice::new(self.get_file_handle(name)?))
    }

    fn get_file_handle(&mut self, name: &str) -> Result<OwnedBytes, OpenReadError>
        requires { is_file_name name.now ≡ true }
        ensures bytes { IfOk result (λ bytes. ram_reads self.old name.now ≡ Some bytes) }
        ensures faults { ReadFaults tells_all (ram_view C.calls self.old)
            (ram_view C.calls self.new) name.now result }
        ensures frame { self.new ≡ self.old }
    {
        let name = file_name(self.alloc, name)?;
        match self.files.share(&name)? {
            Some(bytes) => Ok(bytes),
            None => Err(OpenReadError::FileDoesNotExist(name.into_string())),
        }
    }

    fn open_write(&mut self, name: &str) -> Result<RamWriter, OpenWriteError>
        requires { is_file_name name.now ≡ true }
        ensures writer { IfOk result
            (IsNewWriter tells_all (ram_view C.calls self.new) ram_state name.now) }
        ensures makes { Makes tells_all (ram_view C.calls self.old) (ram_view C.calls self.new)
            name.now result }
        ensures faults { OpenFaults tells_all (ram_view C.calls self.old)
            (ram_view C.calls self.new) name.now result }
        ensures frame { Kept tells_all (ram_view C.calls self.old) (ram_view C.calls self.new) }
        ensures file { MakesRamFile self.old self.new name.now result }
    {
        let key = file_name(self.alloc, name)?;
        if self.files.has(&key) {
            return Err(OpenWriteError::FileAlreadyExists(key.into_string()));
        }
        let name = file_name(self.alloc, name)?;
        let empty = Content::Unsealed(OwnedBytes::empty());
        let number = self.files.make(key, empty)?;
        Ok(RamWriter {
            name,
            number,
            bytes: Vec::new(self.alloc),
        })
    }

    fn write(&mut self, writer: &mut RamWriter, bytes: &[u8]) -> Result<(), IoError>
        requires { ram_opened self.old writer.old ≡ true }
        ensures appends { Appends (ram_state writer.old) (ram_state writer.new) bytes.now result }
        ensures hands_back { HandsBack tells_all (ram_view C.calls self.old)
            (ram_view C.calls self.new) writer.old writer.new result }
        ensures touches { Touches tells_all (ram_view C.calls self.old) (ram_view C.calls self.new)
            ram_state writer.old }
        ensures faults { IoFaults (ram_view C.calls self.old) (ram_view C.calls self.new) result }
        ensures frame { self.new ≡ self.old }
        ensures file { SameFile writer.old writer.new }
    {
        writer.bytes.extend_from_slice(bytes)?;
        Ok(())
    }

    fn flush(&mut self, writer: &mut RamWriter) -> Result<(), IoError>
        requires { ram_opened self.old writer.old ≡ true }
        ensures flushes { Flushes tells_all (ram_view C.calls self.old) (ram_view C.calls self.new)
            ram_state writer.old result }
        ensures state { writer.new ≡ writer.old }
        ensures faults { IoFaults (ram_view C.calls self.old) (ram_view C.calls self.new) result }
        ensures frame { Kept tells_all (ram_view C.calls self.old) (ram_view C.calls self.new) }
        ensures states { ram_lives self.old writer.old ≡ true → PutsState (ram_states self.old)
            (ram_states self.new) writer.old.name Unsealed result }
        ensures others { KeepsWriters writer.old self.old self.new }
    {
        if !self.files.is_made(&writer.name, writer.number) {
            return Ok(());
        }
        let (name, flushed) = flushed_file(self.alloc, writer)?;
        self.files.replace(name, writer.number, flushed)?;
        Ok(())
    }

    fn terminate(&mut self, writer: RamWriter) -> Result<(), IoError>
        requires { ram_opened self.old writer ≡ true }
        ensures seals { Seals tells_all (ram_view C.calls self.old) (ram_view C.calls self.new)
            ram_state writer result }
        ensures faults { IoFaults (ram_view C.calls self.old) (ram_view C.calls self.new) result }
        ensures frame { Kept tells_all (ram_view C.calls self.old) (ram_view C.calls self.new) }
        ensures states { ram_lives self.old writer ≡ true
            → PutsState (ram_states self.old) (ram_states self.new) writer.name
            (Sealed writer.bytes.items) result }
        ensures others { KeepsWriters writer self.old self.new }
    {
        let RamWriter {
            name,
            number,
            bytes,
        } = writer;
        if !self.files.is_made(&name, number) {
            return Ok(());
        }
        // The name has its place, so this takes memory for the count of owners alone.
        let sealed = Content::Sealed(OwnedBytes::new(bytes)?);
        self.files.replace(name, number, sealed)?;
        Ok(())
    }

    fn atomic_read(&mut self, name: &str) -> Result<Vec<u8>, OpenReadError>
        requires { is_file_name name.now ≡ true }
        ensures bytes { IfOk result (λ bytes. ram_reads self.old name.now ≡ Some bytes.items) }
        ensures faults { ReadFaults tells_all (ram_view C.calls self.old)
            (ram_view C.calls self.new) name.now result }
        ensures frame { self.new ≡ self.old }
    {
        let name = file_name(self.alloc, name)?;
        match self.files.read(self.alloc, &name)? {
            Some(bytes) => Ok(bytes),
            None => Err(OpenReadError::FileDoesNotExist(name.into_string())),
        }
    }

    fn atomic_write(&mut self, name: &str, bytes: &[u8]) -> Result<(), IoError>
        requires { is_file_name name.now ≡ true }
        ensures gives { Gives tells_all (ram_view C.calls self.old) (ram_view C.calls self.new)
            name.now bytes.now result }
        ensures notes { Notes (ram_view C.calls self.old) (ram_view C.calls self.new)
            name.now result }
        ensures faults { IoFaults (ram_view C.calls self.old) (ram_view C.calls self.new) result }
        ensures frame { Frame tells_all (ram_view C.calls self.old) (ram_view C.calls self.new) }
        ensures states { PutsState (ram_states self.old) (ram_states self.new) name.now
            (Sealed bytes.now) result }
        ensures others { OnlyNoted self.old self.new }
    {
        let (key, sealed) = sealed_file(self.alloc, name, bytes)?;
        self.files.write(key, sealed)?;
        if name == META_FILEPATH {
            self.watchers.note();
        }
        Ok(())
    }

    fn delete(&mut self, name: &str) -> Result<(), DeleteError>
        requires { is_file_name name.now ≡ true }
        ensures deletes { Deletes tells_all (ram_view C.calls self.old) (ram_view C.calls self.new)
            name.now result }
        ensures writers { EndsWriters tells_all (ram_view C.calls self.old)
            (ram_view C.calls self.new) ram_state name.now result }
        ensures faults { DeleteFaults tells_all (ram_view C.calls self.old)
            (ram_view C.calls self.new) name.now result }
        ensures frame { MayDelete tells_all (ram_view C.calls self.old)
            (ram_view C.calls self.new) }
        ensures states { PutsState (ram_states self.old) (ram_states self.new) name.now Absent
            result }
        ensures others { OnlyFiles self.old self.new }
    {
        let Ok(name) = file_name(self.alloc, name) else {
            return Err(DeleteError::Memory);
        };
        if !self.files.delete(&name) {
            return Err(DeleteError::FileDoesNotExist(name.into_string()));
        }
        Ok(())
    }

    fn sync_directory(&mut self) -> Result<(), IoFault>
        ensures faults { OnErr result ⊥ }
        ensures frame { self.new ≡ self.old }
    {
        Ok(())
    }

    fn acquire_lock(&mut self, lock: &Lock) -> Result<DirectoryLock, LockError>
        requires { is_file_name lock.now.filepath.now ≡ true }
        ensures token { IfOk result (λ token. token ≡ lock.now.filepath.now) }
        ensures acquires { Acquires tells_all (ram_view C.calls self.old)
            (ram_view C.calls self.new) lock.now.filepath.now result }
        ensures faults { LockFaults tells_all (ram_view C.calls self.old)
            (ram_view C.calls self.new) lock.now.filepath.now result }
        ensures busy { IfErr result (LockCause (self.new ≡ self.old) ⊥ (Unit {0})) }
        ensures frame { OnlyHeld self.old self.new }
    {
        match self.hold(lock.filepath) {
            Ok(Some(token)) => Ok(token),
            Ok(None) => Err(LockError::LockBusy),
            Err(Memory) => Err(LockError::Memory),
        }
    }

    fn release(&mut self, lock: DirectoryLock)
        ensures freed { FreesLock (ram_locks self.old) (ram_locks self.new) lock }
        ensures frame { OnlyHeld self.old self.new }
    {
        self.held.remove(&lock.into_name());
    }

    fn watch(&mut self, callback: C) -> Result<WatchHandle, Memory>
        ensures ok { IfOk result (IsNewWatcher (ram_watched C.calls self.old)
            (ram_watched C.calls self.new) (C.calls callback)) }
        ensures err { OnErr result (ram_watched C.calls self.new ≡ ram_watched C.calls self.old) }
        ensures frame { OnlyWatchers self.old self.new }
    {
        self.watchers.watch(callback)
    }

    fn unwatch(&mut self, handle: WatchHandle)
        ensures left { ram_watched C.calls self.new
            ≡ unsubscribed handle (ram_watched C.calls self.old) }
        ensures frame { OnlyWatchers self.old self.new }
    {
        self.watchers.unwatch(handle);
    }

    fn deliver(&mut self) -> bool
        ensures answer { result ≡ (ram_watched C.calls self.old).notice }
        ensures called { ram_watched C.calls self.new ≡ delivered (ram_watched C.calls self.old) }
        ensures frame { OnlyWatchers self.old self.new }
    {
        self.watchers.deliver()
    }
}
