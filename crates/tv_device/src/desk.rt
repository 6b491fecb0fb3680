//! A directory whose lines are told to a sink.
ghost use Rattle.std.specs.Prelude.{◌≡◌, ◌<◌, ◌++◌, ◌∷◌, [], true, length, vec_capacity, vec_len};
ghost use Rattle.tv_formats.specs.Files.{has_no_feed};
ghost use Rattle.tv_device.specs.View.{OnlyTells};
ghost use Rattle.tv_device.specs.Calls.{DeviceFaults, TellsLineTo};
ghost use Rattle.tv_device.specs.Desk.{TellsSink, desk_view, told_at};

use crate::directory::Directory;
use crate::lock::{DirectoryLock, Lock};
use crate::outside::Outside;
use crate::watch::WatchHandle;
use std::alloc::Global;
use std::marker::Model;
use tv_base::{
    DeleteError, FileSlice, IoError, IoFault, LockError, OpenReadError, OpenWriteError, OwnedBytes,
    Sink,
};
use tv_formats::Memory;

/// A directory, and a sink that takes its lines.
#[derive(Drop)]
pub struct Desk<D: Directory + Drop, S: Sink + Drop> {
    directory: D,
    sink: S,
    // Empty between two calls. Its capacity is the room for a line, so that one put takes the line
    // and its line feed.
    line: Vec<u8>,
}

impl<D: Directory + Drop, S: Sink + Drop> Model for Desk<D, S> {
    ghost use Rattle.std.specs.Prelude.{◌≡◌, vec_capacity, vec_len};
    ghost use Rattle.tv_device.specs.Desk.{DeskState};

    ghost Value = { DeskState D S };

    ghost view = { λ a. record {
      directory = a.directory;
      sink = a.sink;
      room = vec_capacity a.line;
    } };

    ghost invariant = { λ a. vec_len a.line ≡ 0 };
}

impl<D: Directory + Drop, S: Sink + Drop> Desk<D, S> {
    /// A desk at which no line was told. Takes no memory.
    pub fn new(alloc: Global, directory: D, sink: S) -> Desk<D, S>
        ensures directory { result.directory ≡ directory }
        ensures sink { result.sink ≡ sink }
    {
        Desk {
            directory,
            sink,
            line: Vec::new(alloc),
        }
    }

    /// The directory and the sink. Takes no memory.
    pub fn split(self) -> (D, S)
        ensures parts { result ≡ (self.directory, self.sink) }
    {
        let Desk {
            directory,
            sink,
            line: _,
        } = self;
        (directory, sink)
    }
}

impl<D: Directory + Drop, S: Sink + Drop> Directory for Desk<D, S> {
    type Writer = D::Writer;

    type Callback = D::Callback;

    ghost told = { told_at D.told };

    ghost view = { desk_view D.view S.taken S.faults };

    ghost state_of = { D.state_of };

    ghost tells_images = { D.tells_images };

    ghost disk = { λ desk. D.disk desk.directory };

    ghost tells_more = { D.tells_more };

    ghost stands = { λ desk told. let now = D.stands desk.directory told in
        record { clock = now.clock; possible = now.possible; reads = now.reads } };

    fn exists(&mut self, name: &str) -> Result<bool, OpenReadError> {
        self.directory.exists(name)
    }

    fn open_read(&mut self, name: &str) -> Result<FileSlice, OpenReadError> {
        self.directory.open_read(name)
    }

    fn get_file_handle(&mut self, name: &str) -> Result<OwnedBytes, OpenReadError> {
        self.directory.get_file_handle(name)
    }

    fn open_write(&mut self, name: &str) -> Result<D::Writer, OpenWriteError> {
        self.directory.open_write(name)
    }

    fn write(&mut self, writer: &mut D::Writer, bytes: &[u8]) -> Result<(), IoError> {
        self.directory.write(writer, bytes)
    }

    fn flush(&mut self, writer: &mut D::Writer) -> Result<(), IoError> {
        self.directory.flush(writer)
    }

    fn terminate(&mut self, writer: D::Writer) -> Result<(), IoError> {
        self.directory.terminate(writer)
    }

    fn atomic_read(&mut self, name: &str) -> Result<Vec<u8>, OpenReadError> {
        self.directory.atomic_read(name)
    }

    fn atomic_write(&mut self, name: &str, bytes: &[u8]) -> Result<(), IoError> {
        self.directory.atomic_write(name, bytes)
    }

    fn delete(&mut self, name: &str) -> Result<(), DeleteError> {
        self.directory.delete(name)
    }

    fn sync_directory(&mut self) -> Result<(), IoFault> {
        self.directory.sync_directory()
    }

    fn acquire_lock(&mut self, lock: &Lock) -> Result<DirectoryLock, LockError> {
        self.directory.acquire_lock(lock)
    }

    fn release(&mut self, lock: DirectoryLock) {
        self.directory.release(lock);
    }

    fn watch(&mut self, callback: D::Callback) -> Result<WatchHandle, Memory> {
        self.directory.watch(callback)
    }

    fn unwatch(&mut self, handle: WatchHandle) {
        self.directory.unwatch(handle);
    }

    fn deliver(&mut self) -> bool {
        self.directory.deliver()
    }
}

impl<D: Directory + Drop, S: Sink + Drop> Outside for Desk<D, S> {
    fn ready(&mut self, len: usize) -> Result<(), Memory> {
        let needed = len.checked_add(1).ok_or(Memory)?;
        self.line.reserve(needed)?;
        Ok(())
    }

    fn tell(&mut self, line: &[u8]) -> Result<(), IoFault>
        requires room { length line.now < (desk_view D.view S.taken S.faults self.old).room }
        requires feed { has_no_feed line.now ≡ true }
        ensures tells { TellsLineTo (told_at D.told) (desk_view D.view S.taken S.faults self.old)
            (desk_view D.view S.taken S.faults self.new) line.now result }
        ensures faults { DeviceFaults (desk_view D.view S.taken S.faults self.old)
            (desk_view D.view S.taken S.faults self.new) result }
        ensures frame { OnlyTells (told_at D.told) (desk_view D.view S.taken S.faults self.old)
            (desk_view D.view S.taken S.faults self.new) }
        ensures sink { TellsSink S.taken self.old self.new line.now result }
    {
        end_line(&mut self.line, line);
        let answer = self.sink.put(self.line.as_slice());
        self.line.clear();
        answer
    }
}

// Writes a line and its line feed into an empty buffer, which has room for them. Takes no memory.
fn end_line(buffer: &mut Vec<u8>, line: &[u8])
    requires empty { vec_len buffer.old ≡ 0 }
    requires room { length line.now < vec_capacity buffer.old }
    ensures line { buffer.new.items ≡ line.now ++ 10 ∷ [] }
{
    buffer.extend_from_slice(line).unwrap();
    buffer.push(b'\n').unwrap();
}
