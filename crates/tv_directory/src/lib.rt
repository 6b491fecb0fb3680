//! A directory in memory whose device fails where it is told to, and what a crash leaves of it; and all that
//! stands below it.
#![tactic(auto)]

mod bench;
mod bench_changes;
mod bench_crash;
mod bench_device;
mod bench_directory;
mod bench_record;
mod bench_told;
mod laws;

pub use bench::Bench;
pub use tv_device::{
    CallbackList, Desk, DirWriter, Directory, DirectoryLock, Lock, NoWatch, Outside, RamDirectory,
    RamWriter, WatchCall, WatchCallback, WatchCallbackList, WatchHandle, Watchers,
    index_writer_lock, meta_lock, what_reads_is_an_image,
};
