//! Locks of a directory.
ghost use Rattle.std.specs.Prelude.{◌≡◌, true, false, codes, string_bytes};
ghost use Rattle.tv_formats.specs.Names.{is_file_name};

use std::marker::Model;
use tv_formats::FileName;

/// A lock of a directory: its name, and whether who takes it may wait until it is free.
#[derive(Clone, Copy)]
pub struct Lock {
    /// The name of the lock.
    pub filepath: &'static str,
    /// Whether `acquire_lock` waits over plain files. In memory there is one try.
    pub is_blocking: bool,
}

/// The lock of the one who writes the index.
pub fn index_writer_lock() -> Lock
    ensures name { result.filepath.now ≡ codes ".tantivy-writer.lock" }
    ensures once { result.is_blocking ≡ false }
{
    Lock {
        filepath: ".tantivy-writer.lock",
        is_blocking: false,
    }
}

/// The lock of those who read a commit's files, and of those who collect files.
pub fn meta_lock() -> Lock
    ensures name { result.filepath.now ≡ codes ".tantivy-meta.lock" }
    ensures waits { result.is_blocking ≡ true }
{
    Lock {
        filepath: ".tantivy-meta.lock",
        is_blocking: true,
    }
}

/// A lock that is held, which `Directory::release` frees. To a contract it is its name.
#[derive(Drop)]
pub struct DirectoryLock {
    name: FileName,
}

impl Model for DirectoryLock {
    ghost use Rattle.std.specs.Prelude.{List, ℕ};

    ghost Value = { List ℕ };

    ghost view = { λ a. a.name };
}

impl DirectoryLock {
    /// The token of a lock of this name, for those that implement `Directory`. Takes no memory.
    pub fn new(name: String) -> DirectoryLock
        requires { is_file_name (string_bytes name) ≡ true }
        ensures { result ≡ string_bytes name }
    {
        DirectoryLock {
            name: FileName::new(name),
        }
    }

    /// The name of the lock.
    pub fn name(&self) -> &str
        ensures text { result.now ≡ self.now }
        ensures name { is_file_name result.now ≡ true }
    {
        self.name.as_str()
    }

    // The name of the lock, taken out.
    pub(crate) fn into_name(self) -> FileName
        ensures { result ≡ self }
    {
        self.name
    }
}
