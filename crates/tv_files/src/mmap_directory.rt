//! A directory of plain files.
ghost use Rattle.std.specs.Prelude.{◌≡◌, [], true, false, IfOk, IfErr};
ghost use Rattle.tv_formats.specs.Names.{is_file_name};
ghost use Rattle.tv_base.specs.Causes.{DeleteCause, IoCause, IsDevice, OpenReadCause, OpenWriteCause};
ghost use Rattle.tv_device.specs.Calls.{IsSilent};
ghost use Rattle.tv_device.specs.Locks.{LockCause};
ghost use Rattle.tv_device.specs.Watch.{noted};
ghost use Rattle.tv_device.specs.WatchList.{watch_state_of};
ghost use Rattle.tv_files.specs.Folders.{OpenFolderCause, after_fault, after_refusal};

use crate::folder::Folder;
use std::alloc::Global;
use std::fs::File;
use std::io;
use std::io::ErrorKind;
use std::marker::Model;
use std::rt::Files;
use tv_base::{
    DeleteError, IoError, IoFault, IoKind, LockError, META_FILEPATH, OpenDirectoryError,
    OpenReadError, OpenWriteError,
};
use tv_device::{DirectoryLock, Lock, WatchCall, Watchers, index_writer_lock};
use tv_formats::{FileName, Memory};

/// A lock that this directory holds: its lock file, locked while it is open.
#[derive(Drop)]
pub(crate) struct HeldLock {
    name: String,
    file: File,
}

/// The plain files of a folder. A file is read whole. `R` is the runtime, and `C` is who may watch
/// the directory.
///
/// It tells nothing of its files and its locks, since other programs may change them at any time.
/// To a contract it is who watches it, and how many calls the operating system refused.
#[derive(Drop)]
pub struct MmapDirectory<R: Drop, C> {
    pub(crate) alloc: Global,
    pub(crate) folder: Folder<R>,
    pub(crate) held: Vec<HeldLock>,
    pub(crate) watchers: Watchers<C>,
    pub(crate) faults: u64,
    pub(crate) refusals: u64,
}

impl<R: Drop, C> Model for MmapDirectory<R, C> {
    ghost use Rattle.std.specs.Prelude.{◌≤◌};
    ghost use Rattle.tv_base.specs.Texts.{last};
    ghost use Rattle.tv_files.specs.Folders.{FolderState};

    ghost Value = { FolderState C };

    ghost view = { λ d. record { watchers = d.watchers; faults = d.faults; refusals = d.refusals } };

    ghost invariant = { λ d. d.refusals ≤ last };
}

// A name with this text.
pub(crate) fn file_name(alloc: Global, name: &str) -> Result<FileName, Memory>
    requires { is_file_name name.now ≡ true }
    ensures { IfOk result (λ made. made ≡ name.now) }
{
    let text = String::from_str(alloc, name)?;
    Ok(FileName::new(text))
}

impl<R: Files<File = File> + Drop, C: WatchCall> MmapDirectory<R, C> {
    /// The directory of the folder of this path. Nobody watches it, and the counts are 0.
    /// `DoesNotExist` comes where nothing has the path, and `NotADirectory` where something else
    /// than a folder has it.
    pub fn open(
        rt: R,
        alloc: Global,
        directory_path: &str,
    ) -> Result<MmapDirectory<R, C>, OpenDirectoryError>
        ensures nobody { IfOk result (λ directory. watch_state_of C.calls directory.watchers
            ≡ record { registered = []; notice = false }) }
        ensures counts { IfOk result
            (λ directory. (directory.faults ≡ 0) × (directory.refusals ≡ 0)) }
        ensures cause { IfErr result (OpenFolderCause directory_path.now) }
    {
        match Folder::open(rt, alloc, directory_path) {
            Ok(folder) => Ok(MmapDirectory {
                alloc,
                folder,
                held: Vec::new(alloc),
                watchers: Watchers::new(alloc),
                faults: 0,
                refusals: 0,
            }),
            Err(error) => Err(not_opened(alloc, &error, directory_path)),
        }
    }

    // Leaves a notice for those who watch, where the file of this name is the current commit.
    pub(crate) fn note(&mut self, name: &str)
        ensures watched { watch_state_of C.calls self.new.watchers
            ≡ noted name.now (watch_state_of C.calls self.old.watchers) }
        ensures kept { self.new ≡ record self.old { watchers = self.new.watchers } }
    {
        if name == META_FILEPATH {
            self.watchers.note();
        }
    }

    // Takes a lock, and keeps its file. Where somebody else holds it, the error is `WouldBlock`, and
    // so where this directory does: nobody else can free it, so it isn't waited for.
    pub(crate) fn take(&mut self, lock: &Lock) -> io::Result<()>
        ensures { self.new ≡ self.old }
    {
        if self.holds(lock.filepath) {
            return Err(io::Error::from(ErrorKind::WouldBlock));
        }
        let name = String::from_str(self.alloc, lock.filepath)?;
        self.held.reserve(1)?;
        let file = self.folder.lock(lock)?;
        self.remove_left(lock);
        self.held.push(HeldLock { name, file }).unwrap();
        Ok(())
    }

    // Removes what earlier processes left in the folder. Only who has the lock of the writer may do
    // that, so at another lock nothing is done.
    fn remove_left(&self, lock: &Lock) {
        if lock.filepath == index_writer_lock().filepath {
            let _stays = self.folder.remove_left();
        }
    }
}

impl<R: Drop, C> MmapDirectory<R, C> {
    // Counts a refused call that isn't a delete, and gives its fault.
    pub(crate) fn fault(&mut self, error: &io::Error) -> IoFault
        ensures device { IsDevice result }
        ensures counted { self.new ≡ after_fault self.old }
    {
        self.faults = self.faults.saturating_add(1);
        fault_of(self.alloc, error)
    }

    // Counts a refused call that isn't a delete, and gives a fault without a text. Takes no memory.
    pub(crate) fn silent_fault(&mut self) -> IoFault
        ensures silent { IsSilent result }
        ensures counted { self.new ≡ after_fault self.old }
    {
        self.faults = self.faults.saturating_add(1);
        IoFault {
            kind: IoKind::Device,
            text: String::new(self.alloc),
        }
    }

    // Counts a refused delete, and gives its fault.
    pub(crate) fn refusal(&mut self, error: &io::Error) -> IoFault
        ensures device { IsDevice result }
        ensures counted { self.new ≡ after_refusal self.old }
    {
        self.refusals = self.refusals.saturating_add(1);
        fault_of(self.alloc, error)
    }

    // Why a call that asks for this name fails, unless there is no such file.
    pub(crate) fn refused_read(&mut self, name: &str, error: &io::Error) -> OpenReadError
        ensures cause { OpenReadCause name.now ⊥ (self.new ≡ after_fault self.old)
            (self.new ≡ self.old) result }
        ensures kept { self.new ≡ record self.old { faults = self.new.faults } }
    {
        if error.kind() == ErrorKind::OutOfMemory {
            return OpenReadError::Memory;
        }
        let Ok(filepath) = String::from_str(self.alloc, name) else {
            return OpenReadError::Memory;
        };
        OpenReadError::IoError {
            io_error: self.fault(error),
            filepath,
        }
    }

    // Why the file of this name isn't read.
    pub(crate) fn not_read(&mut self, name: &str, error: &io::Error) -> OpenReadError
        ensures cause { OpenReadCause name.now (self.new ≡ self.old)
            (self.new ≡ after_fault self.old) (self.new ≡ self.old) result }
        ensures kept { self.new ≡ record self.old { faults = self.new.faults } }
    {
        if error.kind() != ErrorKind::NotFound {
            return self.refused_read(name, error);
        }
        match String::from_str(self.alloc, name) {
            Ok(path) => OpenReadError::FileDoesNotExist(path),
            Err(_) => OpenReadError::Memory,
        }
    }

    // Why no file of this name is made.
    pub(crate) fn not_made(&mut self, name: FileName, error: &io::Error) -> OpenWriteError
        ensures cause { OpenWriteCause name (self.new ≡ self.old) (self.new ≡ after_fault self.old)
            (self.new ≡ self.old) result }
        ensures kept { self.new ≡ record self.old { faults = self.new.faults } }
    {
        match error.kind() {
            ErrorKind::OutOfMemory => OpenWriteError::Memory,
            ErrorKind::AlreadyExists => OpenWriteError::FileAlreadyExists(name.into_string()),
            _ => OpenWriteError::IoError {
                io_error: self.fault(error),
                filepath: name.into_string(),
            },
        }
    }

    // Why the file of this name isn't deleted.
    pub(crate) fn not_deleted(&mut self, name: FileName, error: &io::Error) -> DeleteError
        ensures cause { DeleteCause name (self.new ≡ self.old) (self.new ≡ after_refusal self.old)
            (self.new ≡ self.old) result }
        ensures kept { self.new ≡ record self.old { refusals = self.new.refusals } }
    {
        match error.kind() {
            ErrorKind::OutOfMemory => DeleteError::Memory,
            ErrorKind::NotFound => DeleteError::FileDoesNotExist(name.into_string()),
            _ => DeleteError::IoError {
                io_error: self.refusal(error),
                filepath: name.into_string(),
            },
        }
    }

    // Why a call fails that reads no name.
    pub(crate) fn refused_call(&mut self, error: &io::Error) -> IoError
        ensures cause { IoCause (self.new ≡ after_fault self.old) (self.new ≡ self.old) result }
        ensures kept { self.new ≡ record self.old { faults = self.new.faults } }
    {
        if error.kind() == ErrorKind::OutOfMemory {
            return IoError::Memory;
        }
        IoError::Fault(self.fault(error))
    }

    // Why a lock isn't taken.
    pub(crate) fn not_locked(&mut self, error: &io::Error) -> LockError
        ensures cause { LockCause (self.new ≡ after_fault self.old)
            (self.new ≡ after_fault self.old) (self.new ≡ self.old) result }
        ensures kept { self.new ≡ record self.old { faults = self.new.faults } }
    {
        match error.kind() {
            ErrorKind::OutOfMemory => LockError::Memory,
            ErrorKind::WouldBlock => {
                let _busy = self.silent_fault();
                LockError::LockBusy
            }
            _ => LockError::IoError(self.fault(error)),
        }
    }

    // Whether this directory holds the lock of this name.
    fn holds(&self, name: &str) -> bool {
        self.held.iter().any(|held| held.name.as_str() == name)
    }

    // Frees the lock of this token's name. Takes no memory.
    pub(crate) fn let_go(&mut self, lock: &DirectoryLock)
        ensures { self.new ≡ self.old }
    {
        self.held.retain(|held| held.name.as_str() != lock.name());
    }
}

// Why a folder isn't opened.
fn not_opened(alloc: Global, error: &io::Error, path: &str) -> OpenDirectoryError
    ensures { OpenFolderCause path.now result }
{
    let Ok(text) = String::from_str(alloc, path) else {
        return OpenDirectoryError::Memory;
    };
    match error.kind() {
        ErrorKind::OutOfMemory => OpenDirectoryError::Memory,
        ErrorKind::NotFound => OpenDirectoryError::DoesNotExist(text),
        ErrorKind::NotADirectory => OpenDirectoryError::NotADirectory(text),
        _ => OpenDirectoryError::wrap_io_error(fault_of(alloc, error), text),
    }
}

// The fault of a call that the operating system refused, with its text where there is memory for
// it.
pub(crate) fn fault_of(alloc: Global, error: &io::Error) -> IoFault
    ensures { IsDevice result }
{
    let text = match format!(in alloc; "{error}") {
        Ok(text) => text,
        Err(_) => String::new(alloc),
    };
    IoFault {
        kind: IoKind::Device,
        text,
    }
}
