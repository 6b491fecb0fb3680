//! Folders of the file system, which the tests make where they run.

use crate::calls::{Call, Step, take_all};
use crate::closing::closed;
use crate::compare::is_number;
use crate::fixtures::{folder, handle, make_folder, remove_folder};
use crate::index::schema;
use crate::ram::FILES;
use crate::watches::{boxed, watch_both};
use std::alloc::Global;
use std::fs::{self, File};
use std::process::Abort;
use std::rt::Files;
use std::sync::Arc;
use std::sync::atomic::{AtomicU64, Ordering};
use tv_base::{LockError, OpenDirectoryError, Sink, Source, TantivyError};
use tv_directory::{Directory, NoWatch, WatchCall, WatchCallback, index_writer_lock};
use tv_files::{FileWatcher, MmapDirectory, StdinSource, StdoutSink};
use tv_index::Index;
use tv_test_support::{done, told};

fn write_file<R: Files<File = File> + Abort>(rt: &R, path: &str, bytes: &[u8]) {
    fs::write(rt, path, bytes).expect(rt, "written");
}

fn remove_file<R: Files + Abort>(rt: &R, path: &str) {
    fs::remove_file(rt, path).expect(rt, "removed");
}

// Takes the steps in the directory of a folder.
fn take_all_in<R: Files<File = File> + Clone + Drop + Abort + Eprint>(
    rt: &R,
    alloc: Global,
    path: &str,
    steps: &[Step],
) {
    let mut directory: MmapDirectory<R, NoWatch> = folder(rt, alloc, path);
    take_all(rt, alloc, &mut directory, steps);
}

// A file that was only opened and flushed is empty.
const TOUCHED: &[Step] = &[
    (Call::Touch, "some_path", "", "Ok(())"),
    (Call::OpenRead, "some_path", "", ""),
];

#[test]
fn a_folder_does_what_a_directory_in_memory_does(rt: HostRuntime) {
    make_folder(&rt, rt.alloc(), "calls");
    for steps in [FILES, TOUCHED] {
        take_all_in(&rt, rt.alloc(), "calls", steps);
    }
    remove_folder(&rt, "calls");
}

const WRITTEN: &[Step] = &[
    (Call::AtomicWrite, "meta.json", "first", "Ok(())"),
    (Call::AtomicWrite, "meta.json", "second", "Ok(())"),
    (Call::Seal, "sealed", "text", "Ok(())"),
    (Call::LockBoth, "any", "", "true"),
    (Call::Sync, "any", "", "Ok(())"),
];

// What the operating system answers of a folder where a file is wanted.
const NO_FILE: &str =
    r#"Err(IoError { io_error: IoFault { kind: Device, text: ".." }, filepath: "folder" })"#;

const READ: &[Step] = &[
    (Call::AtomicRead, "meta.json", "", "second"),
    (Call::OpenRead, "sealed", "", "text"),
    (
        Call::Seal,
        "sealed",
        "",
        r#"Err(OpenWriteError(FileAlreadyExists("sealed")))"#,
    ),
    (Call::Exists, "folder", "", "Ok(true)"),
    (Call::AtomicRead, "folder", "", NO_FILE),
    (Call::Delete, "folder", "", NO_FILE),
];

// Files in the folder, whether they lie there before, and whether they do behind the lock of the
// writer. The temporary files of a run that was killed go, and so do those of this one. That of a run
// which still runs stays, and so does what isn't named as a temporary file is.
const LEFT: &[(&str, bool, bool)] = &[
    ("left/.tantivy-writer.lock", true, true),
    ("left/.new 0", true, false),
    ("left/.new 17", true, false),
    (RUNNING, true, true),
    ("left/.new 1", false, false),
    ("left/.new 2", false, false),
    ("left/.new-0", true, true),
    ("left/.new ", true, true),
    ("left/.new 4x", true, true),
];

// The temporary file of a run that still runs.
const RUNNING: &str = "left/.new 3";

fn leave_each<R: Files<File = File> + Abort>(rt: &R) {
    for (path, is_left, _) in LEFT {
        if *is_left {
            write_file(rt, path, b"left");
        }
    }
}

fn stays_or_goes<R: Files + Abort>(rt: &R) {
    for (path, _, stays) in LEFT {
        let is_there = fs::exists(rt, *path).expect(rt, "asked");
        assert!(rt; is_there == *stays, "{path}");
    }
}

// The file that a run has locked which still runs.
fn locked<R: Files<File = File> + Abort>(rt: &R) -> File {
    let file = File::open(rt, RUNNING).expect(rt, "opened");
    assert!(rt; file.try_lock().is_ok());
    file
}

#[test]
fn what_was_left_in_a_folder_is_in_nobodys_way(rt: HostRuntime) {
    make_folder(&rt, rt.alloc(), "left");
    make_folder(&rt, rt.alloc(), "left/folder");
    leave_each(&rt);
    let _running = locked(&rt);
    for steps in [WRITTEN, READ] {
        take_all_in(&rt, rt.alloc(), "left", steps);
    }
    stays_or_goes(&rt);
    remove_folder(&rt, "left");
}

// Takes the lock of the writer for good.
fn lock_writer<D: Directory>(directory: &mut D) -> Result<(), LockError> {
    done(directory.acquire_lock(&index_writer_lock()))
}

// Takes the lock in a directory that goes at once. What the other one answers meanwhile.
fn lock_meanwhile<R: Abort, D: Directory + Drop>(
    rt: &R,
    first: D,
    second: &mut D,
) -> Result<(), LockError> {
    let mut first = first;
    lock_writer(&mut first).expect(rt, "free");
    lock_writer(second)
}

// Takes the lock in two directories of one folder, of which the first goes.
fn lock_both<R: Files<File = File> + Clone + Drop + Abort + Eprint>(rt: &R, alloc: Global) {
    let first: MmapDirectory<R, NoWatch> = folder(rt, alloc, "locks");
    let mut second = folder(rt, alloc, "locks");
    let meanwhile = lock_meanwhile(rt, first, &mut second);
    assert!(rt; told(rt, alloc, meanwhile, "Err(LockBusy)"));
    assert!(rt; told(rt, alloc, lock_writer(&mut second), "Ok(())"));
}

#[test]
fn a_lock_is_free_once_its_directory_is_gone(rt: HostRuntime) {
    make_folder(&rt, rt.alloc(), "locks");
    lock_both(&rt, rt.alloc());
    remove_folder(&rt, "locks");
}

// What comes of the opening of a folder.
fn opened<R: Files<File = File> + Clone + Drop + Abort>(
    rt: &R,
    alloc: Global,
    path: &str,
) -> Result<(), OpenDirectoryError> {
    done(MmapDirectory::<R, NoWatch>::open(handle(rt), alloc, path))
}

// Paths that no folder has, and what comes of their opening.
const NO_FOLDERS: &[(&str, &str)] = &[
    ("./nowhere", r#"Err(DoesNotExist("./nowhere"))"#),
    ("a_file", r#"Err(NotADirectory("a_file"))"#),
    ("a_file/nowhere", r#"Err(DoesNotExist("a_file/nowhere"))"#),
];

#[test]
fn what_is_no_folder_is_not_opened(rt: HostRuntime) {
    write_file(&rt, "a_file", b"");
    for (path, want) in NO_FOLDERS {
        assert!(rt; told(&rt, rt.alloc(), opened(&rt, rt.alloc(), path), want));
    }
    remove_file(&rt, "a_file");
}

// What a watched file is given before a look, and what the look answers. Nothing: the file is
// removed.
const LOOKS: &[(Option<&[u8]>, bool)] = &[
    (None, false),
    (Some(b"foo"), true),
    (Some(b"foo"), false),
    (Some(b"bar"), true),
    (Some(b"ba\nr"), false),
    (Some(b"baz\r\n"), true),
    (None, false),
    // What isn't UTF-8 changes nothing.
    (Some(b"\xFF"), false),
];

// Gives the watched file these bytes, or removes it.
fn change<R: Files<File = File> + Abort>(rt: &R, bytes: Option<&[u8]>) {
    match bytes {
        Some(bytes) => write_file(rt, "watched", bytes),
        None => drop(fs::remove_file(rt, "watched")),
    }
}

type Watcher<R> = FileWatcher<R, WatchCallback>;

// Somebody watches the file, who adds one to the number at each call.
fn watching<R: Files<File = File> + Clone + Drop + Abort>(
    rt: &R,
    alloc: Global,
    number: &Arc<AtomicU64>,
) -> Watcher<R> {
    let mut watcher = FileWatcher::new(handle(rt), alloc, "watched").expect(rt, "memory");
    add_watch(rt, &mut watcher, boxed(rt, alloc, number, 1, 1));
    watcher
}

fn add_watch<R: Files<File = File> + Drop + Abort>(
    rt: &R,
    watcher: &mut Watcher<R>,
    callback: WatchCallback,
) {
    watcher.watch(callback).expect(rt, "memory");
}

// Looks at the file each time that it was changed.
fn look_at_all<R: Files<File = File> + Drop + Abort>(rt: &R, watcher: &mut Watcher<R>) {
    for (at, (bytes, want)) in LOOKS.iter().enumerate() {
        change(rt, *bytes);
        let answer = watcher.look().expect(rt, "looked");
        assert!(rt; answer == *want, "look {at}");
    }
}

#[test]
fn a_watched_file_is_looked_at_line_by_line(rt: HostRuntime) {
    let number = Arc::new(rt.alloc(), AtomicU64::new(0)).expect(&rt, "memory");
    let mut watcher = watching(&rt, rt.alloc(), &number);
    look_at_all(&rt, &mut watcher);
    is_number(&rt, number.load(Ordering::SeqCst), 3);
    remove_file(&rt, "watched");
}

// Two watch the folder, of which each writes its digit behind the others.
fn watch_folder<R: Files<File = File> + Clone + Drop + Abort>(
    rt: &R,
    alloc: Global,
    number: &Arc<AtomicU64>,
) {
    let one = boxed(rt, alloc, number, 10, 2);
    let other = boxed(rt, alloc, number, 10, 1);
    let mut directory: MmapDirectory<R, WatchCallback> = folder(rt, alloc, "watchers");
    watch_both(rt, &mut directory, one, other);
}

#[test]
fn a_notice_reaches_those_who_watch_a_folder(rt: HostRuntime) {
    make_folder(&rt, rt.alloc(), "watchers");
    let number = Arc::new(rt.alloc(), AtomicU64::new(0)).expect(&rt, "memory");
    watch_folder(&rt, rt.alloc(), &number);
    is_number(&rt, number.load(Ordering::SeqCst), 211);
    remove_folder(&rt, "watchers");
}

// Puts nothing, of which no fault is counted.
fn put_nothing<R: Abort + Print + Drop>(rt: &R, sink: &mut StdoutSink<R>) {
    sink.put(b"").expect(rt, "taken");
    is_number(rt, sink.faults(), 0);
}

#[test]
fn standard_input_and_output_answer(rt: HostRuntime) {
    put_nothing(&rt, &mut StdoutSink::new(handle(&rt), rt.alloc()));
    let mut source = StdinSource::new(&rt, rt.alloc());
    source.read(&mut []).expect(&rt, "read");
}

// The index of a folder that nobody watches.
type InFolder<R> = Index<MmapDirectory<R, NoWatch>>;

// Makes an index without fields in the folder, or opens the one that is there, and closes it.
fn make_or_open<R: Files<File = File> + Clone + Drop + Abort>(
    rt: &R,
    alloc: Global,
    is_new: bool,
) -> Result<(), TantivyError> {
    if is_new {
        let schema = schema(rt, alloc, "[]");
        return closed(InFolder::create_in_dir(handle(rt), alloc, "index", schema));
    }
    closed(InFolder::open_in_dir(handle(rt), alloc, "index"))
}

// Whether an index in the folder is made, or opened, and what comes of that.
const INDEXES: &[(bool, &str)] = &[
    (
        false,
        r#"Err(OpenReadError(FileDoesNotExist("meta.json")))"#,
    ),
    (true, "Ok(())"),
    (true, "Err(IndexAlreadyExists)"),
    (false, "Ok(())"),
];

#[test]
fn an_index_is_made_in_a_folder_and_opened_again(rt: HostRuntime) {
    make_folder(&rt, rt.alloc(), "index");
    for (is_new, want) in INDEXES {
        assert!(rt;
            told(
                &rt,
                rt.alloc(),
                make_or_open(&rt, rt.alloc(), *is_new),
                want
            )
        );
    }
    remove_folder(&rt, "index");
    let no_folder = r#"Err(OpenDirectoryError(DoesNotExist("index")))"#;
    assert!(rt;
        told(
            &rt,
            rt.alloc(),
            make_or_open(&rt, rt.alloc(), true),
            no_folder
        )
    );
}
