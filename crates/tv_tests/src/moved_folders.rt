//! A folder that is moved away while it is open, with another one in its place.
ghost use Rattle.std.specs.Prelude.{◌≡◌, true};
ghost use Rattle.tv_formats.specs.Names.{is_file_name};

use crate::compare::are_bytes;
use crate::fixtures::{make_folder, remove_folder};
use std::alloc::Global;
use std::fs::{self, File};
use std::process::Abort;
use std::rt::Files;
use tv_base::is_plain_name;
use tv_directory::{Directory, NoWatch, index_writer_lock, meta_lock};
use tv_files::MmapDirectory;

const FOLDER: &str = "moved/here";

const AWAY: &str = "moved/away";

// The one file of the folder, and that of the folder which takes its place.
const A_HERE: &str = "moved/here/a.idx";

const A_AWAY: &str = "moved/away/a.idx";

#[derive(Clone, Copy)]
enum Call {
    OpenWrite,
    AtomicWrite,
    Delete,
    Sync,
    MetaLock,
    WriterLock,
}

const CALLS: &[(Call, &str)] = &[
    (Call::AtomicWrite, "a.idx"),
    (Call::AtomicWrite, "b.idx"),
    (Call::OpenWrite, "c.idx"),
    (Call::Delete, "a.idx"),
    (Call::Sync, "a.idx"),
    (Call::MetaLock, "a.idx"),
    (Call::WriterLock, "a.idx"),
];

// Whether a call on this name succeeds.
fn is_made<D: Directory>(directory: &mut D, call: Call, name: &str) -> bool
    requires { is_file_name name.now ≡ true }
{
    match call {
        Call::OpenWrite => directory.open_write(name).is_ok(),
        Call::AtomicWrite => directory.atomic_write(name, b"new").is_ok(),
        Call::Delete => directory.delete(name).is_ok(),
        Call::Sync => directory.sync_directory().is_ok(),
        Call::MetaLock => directory.acquire_lock(&meta_lock()).is_ok(),
        Call::WriterLock => directory.acquire_lock(&index_writer_lock()).is_ok(),
    }
}

// Looks whether each call succeeds, or none does.
fn take_all<R: Abort, D: Directory>(rt: &R, directory: &mut D, are_made: bool) {
    for (number, (call, name)) in CALLS.iter().enumerate() {
        assert!(rt; is_plain_name(name));
        assert!(rt;
            is_made(directory, *call, name) == are_made,
            "call {number}"
        );
    }
}

// The directory of the folder.
fn folder<R: Files<File = File> + Clone + Drop + Abort>(
    rt: &R,
    alloc: Global,
) -> MmapDirectory<R, NoWatch> {
    MmapDirectory::open(rt.clone().expect(rt, "memory"), alloc, FOLDER).expect(rt, "a folder")
}

// Makes the folder with a file of this text.
fn make_with_file<R: Files<File = File> + Abort>(rt: &R, alloc: Global, text: &str) {
    make_folder(rt, alloc, FOLDER);
    fs::write(rt, A_HERE, text.as_bytes()).expect(rt, "written");
}

// Looks whether a folder has one file alone, with this text.
fn has_one<R: Files<File = File> + Alloc + Clone + Drop + Abort>(
    rt: &R,
    (folder, file): (&str, &str),
    text: &str,
) {
    let bytes = fs::read(rt, file).expect(rt, "read");
    are_bytes(rt, bytes.as_slice(), text.as_bytes());
    let mut names = 0;
    for entry in fs::read_dir(rt, folder).expect(rt, "listed") {
        assert!(rt; entry.is_ok() && names == 0, "{folder} has other files");
        names = 1;
    }
}

// Puts the folder back in its place.
fn put_back<R: Files + Alloc + Abort>(rt: &R) {
    remove_folder(rt, FOLDER);
    fs::rename(rt, AWAY, FOLDER).expect(rt, "moved");
}

#[test]
fn a_folder_that_was_moved_takes_nothing_until_it_is_back(rt: HostRuntime) {
    let a = rt.alloc();
    make_folder(&rt, a, "moved");
    make_with_file(&rt, a, "old");
    let mut directory = folder(&rt, a);
    fs::rename(&rt, FOLDER, AWAY).expect(&rt, "moved");
    take_all(&rt, &mut directory, false);
    make_with_file(&rt, a, "other");
    take_all(&rt, &mut directory, false);
    has_one(&rt, (FOLDER, A_HERE), "other");
    has_one(&rt, (AWAY, A_AWAY), "old");
    put_back(&rt);
    take_all(&rt, &mut directory, true);
    remove_folder(&rt, "moved");
}
