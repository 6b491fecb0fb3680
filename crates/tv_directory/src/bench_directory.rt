//! The calls of a directory in memory.
ghost use Rattle.tv_formats.specs.Disk.{Sealed, Unsealed};
ghost use Rattle.std.specs.Prelude.{refl, ◌≡◌, ◌<◌, true, length, is_some, Some, IfOk, IfErr, OnErr};
ghost use Rattle.tv_formats.specs.Names.{is_file_name};
ghost use Rattle.tv_formats.specs.Files.{has_no_feed};
ghost use Rattle.tv_base.specs.Causes.{OpenReadCause, OpenWriteCause};
ghost use Rattle.tv_device.specs.View.{tells_all, Frame, Kept, OnlyReads, OnlyLocks, OnlyWatches, OnlyTells, MayDelete};
ghost use Rattle.tv_device.specs.Calls.{AskFaults, ReadFaults, OpenFaults, IoFaults, DeviceFaults, DeleteFaults, LockFaults, Frees, MakesRoom};
ghost use Rattle.tv_device.specs.Calls.{IsNewWriter, Makes, Appends, Touches, Flushes, Seals, Gives, Notes, Deletes, EndsWriters, Acquires, TellsLineTo};
ghost use Rattle.tv_device.specs.Calls.{IsSilent};
ghost use Rattle.tv_device.specs.Images.{KeepsDisk, GivesState, OpensState, WritesState, DeletesState, Settles};
ghost use Rattle.tv_directory.specs.RecordLaws.{reads_now, stands_now};
ghost use Rattle.tv_device.specs.Locks.{LockCause};
ghost use Rattle.tv_device.specs.Ram.{OnlyHeld, OnlyWatchers, ram_lives, ram_state, ram_states};
ghost use Rattle.tv_directory.specs.Bench.{view_in, disk_in, Untouched, Timed, Untold, OnlyTold, OnlyRoom, Below, NumberedBelow, ShowsNothing, WritesOut};
ghost use Rattle.tv_directory.specs.Bench.{Numbered, NumberedDelete, of_io, of_write, of_device};
ghost use Rattle.tv_device.specs.Watch.{IsNewWatcher, delivered, unsubscribed};

use crate::bench::Bench;
use crate::bench_changes::unsealed;
use crate::bench_record::Call;
use tv_base::{
    DeleteError, FileSlice, IoError, IoFault, LockError, OpenReadError, OpenWriteError, OwnedBytes,
};
use tv_device::{
    Directory, DirectoryLock, Lock, Outside, RamWriter, WatchCall, WatchHandle, file_name,
};
use tv_formats::Memory;

// Each call takes its number first. A refused one then changes nothing that reads; it is recorded where a
// crash could leave what the call would have made.
impl<C: WatchCall> Directory for Bench<C> {
    type Writer = RamWriter;

    type Callback = C;

    ghost told = { tells_all };

    ghost view = { view_in C.calls };

    ghost state_of = { ram_state };

    ghost tells_images = { Unit {0} };

    ghost disk = { disk_in };

    ghost tells_more = { λ told. told };

    ghost stands = { λ bench told. record {
      clock = refl;
      possible = λ n. stands_now bench.recorded.calls n (ram_states bench.ram n);
      reads = λ n. reads_now bench.ram.files.map.entries n;
    } };

    fn exists(&mut self, name: &str) -> Result<bool, OpenReadError>
        requires { is_file_name name.now ≡ true }
        ensures answer { IfOk result
            (λ found. found ≡ is_some ((view_in C.calls self.old).reads name.now)) }
        ensures faults { AskFaults (view_in C.calls self.old) (view_in C.calls self.new)
            name.now result }
        ensures frame { OnlyReads tells_all (view_in C.calls self.old) (view_in C.calls self.new) }
        ensures device { Numbered Untouched (OpenReadCause name.now) self.old self.new result }
        ensures images { KeepsDisk (disk_in self.old) (disk_in self.new) }
    {
        if self.device.refuses() {
            return Err(self.refused_read(name));
        }
        self.ram.exists(name)
    }

    fn open_read(&mut self, name: &str) -> Result<FileSlice, OpenReadError>
        requires { is_file_name name.now ≡ true }
        ensures bytes { IfOk result
            (λ file. (view_in C.calls self.old).reads name.now ≡ Some file) }
        ensures faults { ReadFaults tells_all (view_in C.calls self.old) (view_in C.calls self.new)
            name.now result }
        ensures frame { OnlyReads tells_all (view_in C.calls self.old) (view_in C.calls self.new) }
        ensures device { Numbered Untouched (OpenReadCause name.now) self.old self.new result }
        ensures images { KeepsDisk (disk_in self.old) (disk_in self.new) }
    {
        Ok(FileSlice::new(self.get_file_handle(name)?))
    }

    fn get_file_handle(&mut self, name: &str) -> Result<OwnedBytes, OpenReadError>
        requires { is_file_name name.now ≡ true }
        ensures bytes { IfOk result
            (λ bytes. (view_in C.calls self.old).reads name.now ≡ Some bytes) }
        ensures faults { ReadFaults tells_all (view_in C.calls self.old) (view_in C.calls self.new)
            name.now result }
        ensures frame { OnlyReads tells_all (view_in C.calls self.old) (view_in C.calls self.new) }
        ensures device { Numbered Untouched (OpenReadCause name.now) self.old self.new result }
        ensures images { KeepsDisk (disk_in self.old) (disk_in self.new) }
    {
        if self.device.refuses() {
            return Err(self.refused_read(name));
        }
        self.ram.get_file_handle(name)
    }

    fn open_write(&mut self, name: &str) -> Result<RamWriter, OpenWriteError>
        requires { is_file_name name.now ≡ true }
        ensures writer { IfOk result
            (IsNewWriter tells_all (view_in C.calls self.new) ram_state name.now) }
        ensures makes { Makes tells_all (view_in C.calls self.old) (view_in C.calls self.new)
            name.now result }
        ensures faults { OpenFaults tells_all (view_in C.calls self.old) (view_in C.calls self.new)
            name.now result }
        ensures frame { Kept tells_all (view_in C.calls self.old) (view_in C.calls self.new) }
        ensures device { Numbered Untold (OpenWriteCause name.now) self.old self.new result }
        ensures images { OpensState (disk_in self.old) (disk_in self.new) name.now result }
    {
        if self.device.refuses() {
            let filepath = String::from_str(self.alloc, name)?;
            self.record_refused_opening(name)?;
            return Err(OpenWriteError::IoError {
                io_error: self.device.fault(),
                filepath,
            });
        }
        let (key, before) = self.before(name)?;
        let writer = self.ram.open_write(name)?;
        self.recorded.add(Call::Replaced { name: key, before });
        Ok(writer)
    }

    fn write(&mut self, writer: &mut RamWriter, bytes: &[u8]) -> Result<(), IoError>
        requires { (view_in C.calls self.old).opened writer.old ≡ true }
        ensures appends { Appends (ram_state writer.old) (ram_state writer.new) bytes.now result }
        ensures touches { Touches tells_all (view_in C.calls self.old) (view_in C.calls self.new)
            ram_state writer.old }
        ensures faults { IoFaults (view_in C.calls self.old) (view_in C.calls self.new) result }
        ensures frame { OnlyReads tells_all (view_in C.calls self.old) (view_in C.calls self.new) }
        ensures device { Numbered (ShowsNothing writer.old writer.new)
            (of_write writer.old writer.new) self.old self.new result }
        ensures images { KeepsDisk (disk_in self.old) (disk_in self.new) }
    {
        if self.device.refuses() {
            return Err(IoError::Fault(self.device.fault()));
        }
        self.ram.write(writer, bytes)
    }

    fn flush(&mut self, writer: &mut RamWriter) -> Result<(), IoError>
        requires { (view_in C.calls self.old).opened writer.old ≡ true }
        ensures flushes { Flushes tells_all (view_in C.calls self.old) (view_in C.calls self.new)
            ram_state writer.old result }
        ensures state { writer.new ≡ writer.old }
        ensures faults { IoFaults (view_in C.calls self.old) (view_in C.calls self.new) result }
        ensures frame { Kept tells_all (view_in C.calls self.old) (view_in C.calls self.new) }
        ensures device { Numbered (WritesOut writer.old) of_io self.old self.new result }
        ensures images { WritesState (ram_lives self.old.ram writer.old) (disk_in self.old)
            (disk_in self.new) (ram_state writer.old).name Unsealed result }
    {
        let lives = self.ram.is_made(writer);
        if self.device.refuses() {
            self.record_refused_where(lives, writer.name().as_str(), unsealed())?;
            return Err(IoError::Fault(self.device.fault()));
        }
        if !lives {
            return Ok(());
        }
        let (name, before) = self.before(writer.name().as_str())?;
        self.ram.flush(writer)?;
        self.recorded.add(Call::Replaced { name, before });
        Ok(())
    }

    fn terminate(&mut self, writer: RamWriter) -> Result<(), IoError>
        requires { (view_in C.calls self.old).opened writer ≡ true }
        ensures seals { Seals tells_all (view_in C.calls self.old) (view_in C.calls self.new)
            ram_state writer result }
        ensures faults { IoFaults (view_in C.calls self.old) (view_in C.calls self.new) result }
        ensures frame { Kept tells_all (view_in C.calls self.old) (view_in C.calls self.new) }
        ensures device { Numbered (WritesOut writer) of_io self.old self.new result }
        ensures images { WritesState (ram_lives self.old.ram writer) (disk_in self.old)
            (disk_in self.new) (ram_state writer).name (Sealed (ram_state writer).written) result }
    {
        let lives = self.ram.is_made(&writer);
        if self.device.refuses() {
            self.record_refused_end(lives, writer)?;
            return Err(IoError::Fault(self.device.fault()));
        }
        if !lives {
            return Ok(());
        }
        let (name, before) = self.before(writer.name().as_str())?;
        self.ram.terminate(writer)?;
        self.recorded.add(Call::Replaced { name, before });
        Ok(())
    }

    fn atomic_read(&mut self, name: &str) -> Result<Vec<u8>, OpenReadError>
        requires { is_file_name name.now ≡ true }
        ensures bytes { IfOk result
            (λ bytes. (view_in C.calls self.old).reads name.now ≡ Some bytes.items) }
        ensures faults { ReadFaults tells_all (view_in C.calls self.old) (view_in C.calls self.new)
            name.now result }
        ensures frame { OnlyReads tells_all (view_in C.calls self.old) (view_in C.calls self.new) }
        ensures device { Numbered Untouched (OpenReadCause name.now) self.old self.new result }
        ensures images { KeepsDisk (disk_in self.old) (disk_in self.new) }
    {
        if self.device.refuses() {
            return Err(self.refused_read(name));
        }
        self.ram.atomic_read(name)
    }

    fn atomic_write(&mut self, name: &str, bytes: &[u8]) -> Result<(), IoError>
        requires { is_file_name name.now ≡ true }
        ensures gives { Gives tells_all (view_in C.calls self.old) (view_in C.calls self.new)
            name.now bytes.now result }
        ensures notes { Notes (view_in C.calls self.old) (view_in C.calls self.new)
            name.now result }
        ensures faults { IoFaults (view_in C.calls self.old) (view_in C.calls self.new) result }
        ensures frame { Frame tells_all (view_in C.calls self.old) (view_in C.calls self.new) }
        ensures device { Numbered Untold of_io self.old self.new result }
        ensures images { GivesState (disk_in self.old) (disk_in self.new) name.now
            (Sealed bytes.now) result }
    {
        if self.device.refuses() {
            self.record_refused_bytes(name, bytes)?;
            return Err(IoError::Fault(self.device.fault()));
        }
        let (key, before) = self.before(name)?;
        self.ram.atomic_write(name, bytes)?;
        self.recorded.add(Call::Replaced { name: key, before });
        Ok(())
    }

    fn delete(&mut self, name: &str) -> Result<(), DeleteError>
        requires { is_file_name name.now ≡ true }
        ensures deletes { Deletes tells_all (view_in C.calls self.old) (view_in C.calls self.new)
            name.now result }
        ensures writers { EndsWriters tells_all (view_in C.calls self.old)
            (view_in C.calls self.new) ram_state name.now result }
        ensures faults { DeleteFaults tells_all (view_in C.calls self.old)
            (view_in C.calls self.new) name.now result }
        ensures frame { MayDelete tells_all (view_in C.calls self.old) (view_in C.calls self.new) }
        ensures device { NumberedDelete self.old self.new name.now result }
        ensures images { DeletesState (disk_in self.old) (disk_in self.new) name.now result }
    {
        if self.device.refuses() {
            let Ok(name) = file_name(self.alloc, name) else {
                return Err(DeleteError::Memory);
            };
            return Err(DeleteError::IoError {
                io_error: self.device.refusal(),
                filepath: name.into_string(),
            });
        }
        let Ok((key, before)) = self.before(name) else {
            return Err(DeleteError::Memory);
        };
        self.ram.delete(name)?;
        self.recorded.add(Call::Replaced { name: key, before });
        Ok(())
    }

    fn sync_directory(&mut self) -> Result<(), IoFault>
        ensures faults { DeviceFaults (view_in C.calls self.old) (view_in C.calls self.new) result }
        ensures silent { IfErr result IsSilent }
        ensures frame { OnlyReads tells_all (view_in C.calls self.old) (view_in C.calls self.new) }
        ensures device { Numbered Timed (of_device self.old self.new) self.old self.new result }
        ensures images { Settles (disk_in self.old) (disk_in self.new) result }
    {
        if self.device.refuses() {
            return Err(self.device.fault());
        }
        self.recorded.settle();
        Ok(())
    }

    fn acquire_lock(&mut self, lock: &Lock) -> Result<DirectoryLock, LockError>
        requires { is_file_name lock.now.filepath.now ≡ true }
        ensures token { IfOk result (λ token. token ≡ lock.now.filepath.now) }
        ensures acquires { Acquires tells_all (view_in C.calls self.old) (view_in C.calls self.new)
            lock.now.filepath.now result }
        ensures faults { LockFaults tells_all (view_in C.calls self.old) (view_in C.calls self.new)
            lock.now.filepath.now result }
        ensures frame { OnlyLocks tells_all (view_in C.calls self.old) (view_in C.calls self.new) }
        ensures device { Numbered (NumberedBelow OnlyHeld) LockCause self.old self.new result }
        ensures images { KeepsDisk (disk_in self.old) (disk_in self.new) }
    {
        if self.device.refuses() {
            return Err(LockError::IoError(self.device.fault()));
        }
        self.ram.acquire_lock(lock)
    }

    fn release(&mut self, lock: DirectoryLock)
        ensures frees { Frees tells_all lock (view_in C.calls self.old) (view_in C.calls self.new) }
        ensures others { Below OnlyHeld self.old self.new }
        ensures images { KeepsDisk (disk_in self.old) (disk_in self.new) }
    {
        self.ram.release(lock);
    }

    fn watch(&mut self, callback: C) -> Result<WatchHandle, Memory>
        ensures ok { IfOk result (IsNewWatcher (view_in C.calls self.old).watched
            (view_in C.calls self.new).watched (C.calls callback)) }
        ensures err { OnErr result
            ((view_in C.calls self.new).watched ≡ (view_in C.calls self.old).watched) }
        ensures frame { OnlyWatches tells_all (view_in C.calls self.old)
            (view_in C.calls self.new) }
        ensures others { Below OnlyWatchers self.old self.new }
        ensures images { KeepsDisk (disk_in self.old) (disk_in self.new) }
    {
        self.ram.watch(callback)
    }

    fn unwatch(&mut self, handle: WatchHandle)
        ensures left { (view_in C.calls self.new).watched
            ≡ unsubscribed handle (view_in C.calls self.old).watched }
        ensures frame { OnlyWatches tells_all (view_in C.calls self.old)
            (view_in C.calls self.new) }
        ensures others { Below OnlyWatchers self.old self.new }
        ensures images { KeepsDisk (disk_in self.old) (disk_in self.new) }
    {
        self.ram.unwatch(handle);
    }

    fn deliver(&mut self) -> bool
        ensures answer { result ≡ (view_in C.calls self.old).watched.notice }
        ensures called { (view_in C.calls self.new).watched ≡ delivered
            (view_in C.calls self.old).watched }
        ensures frame { OnlyWatches tells_all (view_in C.calls self.old)
            (view_in C.calls self.new) }
        ensures others { Below OnlyWatchers self.old self.new }
        ensures images { KeepsDisk (disk_in self.old) (disk_in self.new) }
    {
        self.ram.deliver()
    }
}

impl<C: WatchCall> Outside for Bench<C> {
    fn ready(&mut self, len: usize) -> Result<(), Memory>
        ensures room { MakesRoom tells_all len result (view_in C.calls self.old)
            (view_in C.calls self.new) }
        ensures others { OnlyRoom self.old self.new }
        ensures images { KeepsDisk (disk_in self.old) (disk_in self.new) }
    {
        self.told.ready(len)?;
        self.recorded.reserve()
    }

    fn tell(&mut self, line: &[u8]) -> Result<(), IoFault>
        requires room { length line.now < (view_in C.calls self.old).room }
        requires feed { has_no_feed line.now ≡ true }
        ensures tells { TellsLineTo tells_all (view_in C.calls self.old) (view_in C.calls self.new)
            line.now result }
        ensures faults { DeviceFaults (view_in C.calls self.old) (view_in C.calls self.new) result }
        ensures frame { OnlyTells tells_all (view_in C.calls self.old) (view_in C.calls self.new) }
        ensures device { Numbered OnlyTold (of_device self.old self.new)
            self.old self.new result }
        ensures images { KeepsDisk (disk_in self.old) (disk_in self.new) }
    {
        if self.device.refuses() {
            return Err(self.device.fault());
        }
        self.told.tell(self.recorded.moment(), line);
        self.recorded.add(Call::Told);
        Ok(())
    }
}
