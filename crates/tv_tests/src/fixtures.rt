//! Texts, and folders of the file system.
use std::alloc::Global;
use std::fs::File;
use std::process::Abort;
use std::rt::Files;
use std::{fs, io};
use tv_directory::WatchCall;
use tv_files::MmapDirectory;

/// A copy of a text.
pub(crate) fn owned<R: Abort>(rt: &R, alloc: Global, text: &str) -> String {
    String::from_str(alloc, text).expect(rt, "memory")
}

/// Copies of these texts.
pub(crate) fn all_owned<R: Abort>(rt: &R, alloc: Global, texts: &[&str]) -> Vec<String> {
    let mut all = Vec::new(alloc);
    for text in texts {
        all.push(owned(rt, alloc, text)).expect(rt, "memory");
    }
    all
}

// Makes a folder of this path without files. What an earlier run left there goes.
fn make_anew<R: Files>(rt: &R, alloc: Global, path: &str) -> io::Result<()> {
    if fs::exists(rt, path)? {
        rt.remove_dir_all(alloc, path)?;
    }
    fs::create_dir(rt, path)
}

/// Makes a folder of this path without files.
pub(crate) fn make_folder<R: Files + Abort>(rt: &R, alloc: Global, path: &str) {
    make_anew(rt, alloc, path).expect(rt, "a new folder");
}

pub(crate) fn remove_folder<R: Files + Alloc + Abort>(rt: &R, path: &str) {
    fs::remove_dir_all(rt, path).expect(rt, "removed");
}

/// Another handle.
pub(crate) fn handle<R: Clone + Abort>(rt: &R) -> R {
    rt.clone().expect(rt, "memory")
}

/// The directory of a folder.
pub(crate) fn folder<R: Files<File = File> + Clone + Drop + Abort, C: WatchCall>(
    rt: &R,
    alloc: Global,
    path: &str,
) -> MmapDirectory<R, C> {
    MmapDirectory::open(handle(rt), alloc, path).expect(rt, "a folder")
}
