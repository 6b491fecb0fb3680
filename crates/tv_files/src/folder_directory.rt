//! The calls of a directory of plain files.
ghost use Rattle.tv_formats.specs.Disk.{no_disk};
ghost use Rattle.tv_device.specs.View.{tells_nothing};
ghost use Rattle.tv_files.specs.Folders.{folder_view};

use crate::mmap_directory::{MmapDirectory, file_name};
use crate::mmap_writer::MmapWriter;
use std::fs::File;
use std::io::ErrorKind;
use std::rt::Files;
use tv_base::{
    DeleteError, FileSlice, IoError, IoFault, LockError, OpenReadError, OpenWriteError, OwnedBytes,
};
use tv_device::{Directory, DirectoryLock, Lock, WatchCall, WatchHandle};
use tv_formats::Memory;

impl<R: Files<File = File> + Drop, C: WatchCall> Directory for MmapDirectory<R, C> {
    type Writer = MmapWriter;

    type Callback = C;

    ghost told = { tells_nothing };

    ghost view = { folder_view C.calls };

    ghost state_of = { λ w. w };

    ghost tells_images = { ⊥ };

    ghost disk = { λ _. no_disk };

    ghost tells_more = { λ told. absurd told };

    ghost stands = { λ d told. absurd told };

    fn exists(&mut self, name: &str) -> Result<bool, OpenReadError> {
        match self.folder.exists(name) {
            Ok(found) => Ok(found),
            Err(error) => Err(self.refused_read(name, &error)),
        }
    }

    fn open_read(&mut self, name: &str) -> Result<FileSlice, OpenReadError> {
        Ok(FileSlice::new(self.get_file_handle(name)?))
    }

    fn get_file_handle(&mut self, name: &str) -> Result<OwnedBytes, OpenReadError> {
        Ok(OwnedBytes::new(self.atomic_read(name)?)?)
    }

    fn open_write(&mut self, name: &str) -> Result<MmapWriter, OpenWriteError> {
        let key = file_name(self.alloc, name)?;
        match self.folder.create(name) {
            Ok(file) => Ok(MmapWriter::new(self.alloc, key, file)),
            Err(error) => Err(self.not_made(key, &error)),
        }
    }

    fn write(&mut self, writer: &mut MmapWriter, bytes: &[u8]) -> Result<(), IoError> {
        writer.append(bytes)?;
        Ok(())
    }

    // A part of the bytes may have reached the file where the call is refused, so that it is a
    // fault for whatever cause.
    fn flush(&mut self, writer: &mut MmapWriter) -> Result<(), IoError> {
        match writer.write_out() {
            Ok(()) => Ok(()),
            Err(error) => Err(IoError::Fault(self.fault(&error))),
        }
    }

    fn terminate(&mut self, writer: MmapWriter) -> Result<(), IoError> {
        match writer.seal() {
            Ok(()) => Ok(()),
            Err(error) => Err(IoError::Fault(self.fault(&error))),
        }
    }

    fn atomic_read(&mut self, name: &str) -> Result<Vec<u8>, OpenReadError> {
        match self.folder.read(name) {
            Ok(bytes) => Ok(bytes),
            Err(error) => Err(self.not_read(name, &error)),
        }
    }

    fn atomic_write(&mut self, name: &str, bytes: &[u8]) -> Result<(), IoError> {
        match self.folder.replace(name, bytes) {
            Ok(()) => {
                self.note(name);
                Ok(())
            }
            Err(error) => Err(self.refused_call(&error)),
        }
    }

    fn delete(&mut self, name: &str) -> Result<(), DeleteError> {
        let Ok(key) = file_name(self.alloc, name) else {
            return Err(DeleteError::Memory);
        };
        match self.folder.remove(name) {
            Ok(()) => Ok(()),
            Err(error) => Err(self.not_deleted(key, &error)),
        }
    }

    fn sync_directory(&mut self) -> Result<(), IoFault> {
        match self.folder.sync() {
            Ok(()) => Ok(()),
            Err(_) => Err(self.silent_fault()),
        }
    }

    fn acquire_lock(&mut self, lock: &Lock) -> Result<DirectoryLock, LockError> {
        let Ok(name) = file_name(self.alloc, lock.filepath) else {
            return Err(LockError::Memory);
        };
        match self.take(lock) {
            Ok(()) => Ok(DirectoryLock::new(name.into_string())),
            Err(error) => Err(self.not_locked(&error)),
        }
    }

    fn release(&mut self, lock: DirectoryLock) {
        self.let_go(&lock);
    }

    fn watch(&mut self, callback: C) -> Result<WatchHandle, Memory> {
        self.watchers.watch(callback)
    }

    fn unwatch(&mut self, handle: WatchHandle) {
        self.watchers.unwatch(handle);
    }

    fn deliver(&mut self) -> bool {
        self.watchers.deliver()
    }
}
