//! Plain files: a folder as a directory, a file that is watched, standard input and standard
//! output.
//!
//! What the operating system does is trusted, and no contract speaks of it: these tell nothing of
//! what files hold. Their contracts say why they fail, and what they keep.
#![tactic(auto)]

mod file_id;
mod file_watcher;
mod folder;
mod folder_directory;
pub mod laws;
mod mmap_directory;
mod mmap_writer;
mod source;
mod stdout_sink;

pub use file_watcher::FileWatcher;
pub use folder::read_at_most;
pub use mmap_directory::MmapDirectory;
pub use mmap_writer::MmapWriter;
pub use source::{ReadSource, StdinSource};
pub use stdout_sink::StdoutSink;
