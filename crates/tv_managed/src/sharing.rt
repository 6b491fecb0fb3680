//! Locks of a managed directory, and those who watch it.
ghost use Rattle.std.specs.Prelude.{◌≡◌, true, IfOk, OnErr};
ghost use Rattle.tv_formats.specs.Names.{is_file_name};
ghost use Rattle.tv_device.specs.Images.{KeepsDisk};
ghost use Rattle.tv_device.specs.View.{OnlyLocks, OnlyWatches};
ghost use Rattle.tv_device.specs.Calls.{Acquires, Frees, LockFaults};
ghost use Rattle.tv_device.specs.Watch.{IsNewWatcher, delivered, unsubscribed};
ghost use Rattle.tv_managed.specs.Frames.{KeepsNames};

use crate::managed_directory::ManagedDirectory;
use tv_base::LockError;
use tv_device::{Directory, DirectoryLock, Lock, WatchHandle};
use tv_formats::Memory;

impl<D: Directory> ManagedDirectory<D> {
    /// Takes a lock. `LockBusy` comes where it is held. Over plain files a blocking lock waits until it
    /// is free, unless this very directory holds it.
    pub fn acquire_lock(&mut self, lock: &Lock) -> Result<DirectoryLock, LockError>
        requires { is_file_name lock.now.filepath.now ≡ true }
        ensures token { IfOk result (λ token. token ≡ lock.now.filepath.now) }
        ensures acquires { Acquires D.told (D.view self.old.0) (D.view self.new.0)
            lock.now.filepath.now result }
        ensures faults { LockFaults D.told (D.view self.old.0) (D.view self.new.0)
            lock.now.filepath.now result }
        ensures frame { KeepsNames (OnlyLocks D.told) D.view self.old self.new }
        ensures images { D.tells_images
            → KeepsDisk (D.disk self.old.0) (D.disk self.new.0) }
    {
        self.directory.acquire_lock(lock)
    }

    /// Frees the lock of this token's name. Takes no memory.
    pub fn release(&mut self, lock: DirectoryLock)
        ensures frees { KeepsNames (Frees D.told lock) D.view self.old self.new }
        ensures images { D.tells_images
            → KeepsDisk (D.disk self.old.0) (D.disk self.new.0) }
    {
        self.directory.release(lock);
    }

    /// Registers a callback, which each delivered notice calls.
    pub fn watch(&mut self, callback: D::Callback) -> Result<WatchHandle, Memory>
        ensures ok { IfOk result
            (IsNewWatcher (D.view self.old.0).watched (D.view self.new.0).watched
            (D.Callback.calls callback)) }
        ensures err { OnErr result ((D.view self.new.0).watched ≡ (D.view self.old.0).watched) }
        ensures frame { KeepsNames (OnlyWatches D.told) D.view self.old self.new }
        ensures images { D.tells_images
            → KeepsDisk (D.disk self.old.0) (D.disk self.new.0) }
    {
        self.directory.watch(callback)
    }

    /// Gives a handle back. With its last one the callback isn't registered any more. Takes no memory.
    pub fn unwatch(&mut self, handle: WatchHandle)
        ensures left { (D.view self.new.0).watched
            ≡ unsubscribed handle (D.view self.old.0).watched }
        ensures frame { KeepsNames (OnlyWatches D.told) D.view self.old self.new }
        ensures images { D.tells_images
            → KeepsDisk (D.disk self.old.0) (D.disk self.new.0) }
    {
        self.directory.unwatch(handle);
    }

    /// Whether a notice of a new commit stood. If so each registered callback is called once, in the
    /// order in which they were registered, and the notice ends. Takes no memory.
    pub fn deliver(&mut self) -> bool
        ensures answer { result ≡ (D.view self.old.0).watched.notice }
        ensures called { (D.view self.new.0).watched ≡ delivered (D.view self.old.0).watched }
        ensures frame { KeepsNames (OnlyWatches D.told) D.view self.old self.new }
        ensures images { D.tells_images
            → KeepsDisk (D.disk self.old.0) (D.disk self.new.0) }
    {
        self.directory.deliver()
    }
}
