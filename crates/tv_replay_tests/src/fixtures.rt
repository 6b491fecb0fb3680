//! Directories, scripts and places, and what was told to a directory.
ghost use Rattle.std.specs.Prelude.{◌≡◌, None};

use crate::compare::are_bytes;
use std::alloc::Global;
use std::fs::File;
use std::process::Abort;
use std::rt::Files;
use std::{fs, io};
use tv_base::{Memory, TextSource, VecSink};
use tv_directory::{Bench, Desk, NoWatch, Outside};
use tv_files::MmapDirectory;
use tv_replay::{BenchPlace, Replayed, replay};

/// A directory in memory that nobody watches.
pub(crate) type TestBench = Bench<NoWatch>;

// The directory of a folder, with a sink for its lines.
type FolderDesk<R> = Desk<MmapDirectory<R, NoWatch>, VecSink>;

/// A directory that shows what it was told.
pub(crate) trait Shows: Outside + Drop {
    fn heard(&self) -> Result<Vec<u8>, Memory>;
}

impl Shows for TestBench {
    fn heard(&self) -> Result<Vec<u8>, Memory> {
        self.heard_lines()
    }
}

/// A directory without files.
pub(crate) fn empty_bench<R: Abort>(rt: &R, alloc: Global) -> TestBench {
    Bench::new(alloc, Vec::new(alloc)).expect(rt, "memory")
}

/// Looks at all that was told to a directory.
pub(crate) fn has_heard<R: Abort, O: Shows>(rt: &R, outside: &O, want: &str) {
    let heard = outside.heard().expect(rt, "memory");
    are_bytes(rt, heard.as_slice(), want.as_bytes());
}

// The bytes of a text.
fn bytes_of<R: Abort>(rt: &R, alloc: Global, text: &str) -> Vec<u8> {
    Vec::from_slice(alloc, text.as_bytes()).expect(rt, "memory")
}

/// A script none of whose reads is refused.
pub(crate) fn source<R: Abort>(rt: &R, alloc: Global, text: &str) -> TextSource {
    TextSource::new(bytes_of(rt, alloc, text), Vec::new(alloc))
}

/// The directory behind a script that is replayed in it, and how many events there were.
pub(crate) fn replayed<R: Abort, O: Outside + Drop>(
    rt: &R,
    alloc: Global,
    outside: O,
    schema: &str,
    script: &str,
) -> (O, u32) {
    let mut script = source(rt, alloc, script);
    let Replayed { outside, outcome } = replay(alloc, outside, schema.as_bytes(), &mut script);
    (outside, outcome.expect(rt, "replayed").events)
}

/// A copy of a text.
pub(crate) fn owned<R: Abort>(rt: &R, alloc: Global, text: &str) -> String {
    String::from_str(alloc, text).expect(rt, "memory")
}

/// Copies of these texts.
pub(crate) fn all_owned<R: Abort>(rt: &R, alloc: Global, texts: &[&str]) -> Vec<String> {
    let mut all = Vec::new(alloc);
    for text in texts {
        all.push(owned(rt, alloc, text)).expect(rt, "memory");
    }
    all
}

// These texts, each under its path.
fn under_paths<R: Abort>(rt: &R, alloc: Global, texts: &[(&str, &str)]) -> Vec<(String, Vec<u8>)> {
    let mut pairs = Vec::new(alloc);
    for (path, text) in texts {
        let pair = (owned(rt, alloc, path), bytes_of(rt, alloc, text));
        pairs.push(pair).expect(rt, "memory");
    }
    pairs
}

/// A place with two schemas, one of which stands there twice, and a script. As many bytes as `room` can be
/// said.
pub(crate) fn place<R: Abort, O: Outside + Drop>(
    rt: &R,
    alloc: Global,
    outside: O,
    room: usize,
) -> BenchPlace<O>
    ensures { result.lent ≡ None }
{
    let schemas = [("a.json", "[]"), ("b.json", "{}"), ("a.json", "[3]")];
    let schemas = under_paths(rt, alloc, &schemas);
    let scripts = under_paths(rt, alloc, &[("a.json", "managed\n")]);
    BenchPlace::new(alloc, schemas, scripts, outside, room).expect(rt, "memory")
}

// Makes a folder of this path without files. What an earlier run left there goes.
fn make_anew<R: Files>(rt: &R, alloc: Global, path: &str) -> io::Result<()> {
    if fs::exists(rt, path)? {
        rt.remove_dir_all(alloc, path)?;
    }
    fs::create_dir(rt, path)
}

/// Makes a folder of this path without files.
pub(crate) fn make_folder<R: Files + Abort>(rt: &R, alloc: Global, path: &str) {
    make_anew(rt, alloc, path).expect(rt, "a new folder");
}

pub(crate) fn remove_folder<R: Files + Alloc + Abort>(rt: &R, path: &str) {
    fs::remove_dir_all(rt, path).expect(rt, "removed");
}

/// Another handle.
pub(crate) fn handle<R: Clone + Abort>(rt: &R) -> R {
    rt.clone().expect(rt, "memory")
}

// The directory of a folder.
fn folder<R: Files<File = File> + Clone + Drop + Abort>(
    rt: &R,
    alloc: Global,
    path: &str,
) -> MmapDirectory<R, NoWatch> {
    MmapDirectory::open(handle(rt), alloc, path).expect(rt, "a folder")
}

// A sink for a few lines.
fn sink<R: Abort>(rt: &R, alloc: Global) -> VecSink {
    VecSink::new(alloc, 4096).expect(rt, "memory")
}

/// The directory of a folder, whose lines a sink takes.
pub(crate) fn folder_desk<R: Files<File = File> + Clone + Drop + Abort>(
    rt: &R,
    alloc: Global,
    path: &str,
) -> FolderDesk<R> {
    Desk::new(alloc, folder(rt, alloc, path), sink(rt, alloc))
}
