//! Directories: what the layers above may do with one, and those in memory.
#![tactic(auto)]

mod desk;
mod dir_writer;
mod directory;
mod files;
mod laws;
mod lock;
mod outside;
mod persist;
mod ram_calls;
mod ram_directory;
mod watch;
mod watch_list;

pub use desk::Desk;
pub use dir_writer::DirWriter;
pub use directory::Directory;
pub use files::{Content, Files, StoredFile, add_name};
pub use laws::what_reads_is_an_image;
pub use lock::{DirectoryLock, Lock, index_writer_lock, meta_lock};
pub use outside::Outside;
pub use ram_calls::file_name;
pub use ram_directory::{RamDirectory, RamWriter};
pub use watch::{NoWatch, WatchCall, WatchCallback, WatchHandle};
pub use watch_list::{CallbackList, WatchCallbackList, Watchers};
