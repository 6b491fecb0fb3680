//! Calls on plain files that the operating system refuses: none is answered as if it had been made.
use crate::compare::is_number;
use crate::fixtures::{make_folder, remove_folder};
use std::alloc::Global;
use std::fs::{self, File};
use std::io::ErrorKind;
use std::process::Abort;
use std::rt::Files;
use tv_base::{Sink, Source, is_plain_name};
use tv_directory::{Directory, NoWatch, meta_lock};
use tv_files::{FileWatcher, MmapDirectory, ReadSource, StdoutSink};
use tv_test_support::{
    Failing, Piece, Pieces, Plans, Said, done, failing_by, full_from, has_said, no_plan,
    nothing_said, refused_at, told,
};

const FOLDER: &str = "refusing";

#[derive(Clone, Copy)]
enum Call {
    Exists,
    AtomicRead,
    OpenRead,
    GetFileHandle,
    OpenWrite,
    AtomicWrite,
    Delete,
    Sync,
    Lock,
}

// A call on `a.idx`, how many calls of the operating system may be refused in it, what it answers
// then, and what where none is.
type Row = (Call, u64, &'static str, &'static str);

const A_REFUSED: &str =
    "Err(IoError { io_error: IoFault { kind: Device, text: \"refused\" }, filepath: \"a.idx\" })";

const A_ABSENT: &str = "Err(FileDoesNotExist(\"a.idx\"))";

const SILENT: &str = "Err(IoFault { kind: Device, text: \"\" })";

const LOCK_REFUSED: &str = "Err(IoError(IoFault { kind: Device, text: \"refused\" }))";

const REFUSED: &str = "Err(Fault(IoFault { kind: Device, text: \"refused\" }))";

// Before a name is made, replaced or deleted, and before a lock is taken, the path of the folder is
// looked at: one call more. So is the path of a file that was locked, and then the folder's once more.
const ROWS: &[Row] = &[
    (Call::Exists, 1, A_REFUSED, "Ok(false)"),
    (Call::AtomicRead, 1, A_REFUSED, A_ABSENT),
    (Call::AtomicWrite, 5, REFUSED, "Ok(())"),
    (Call::Exists, 1, A_REFUSED, "Ok(true)"),
    (Call::AtomicRead, 1, A_REFUSED, "Ok([97, 98, 99])"),
    (Call::OpenRead, 1, A_REFUSED, "Ok(())"),
    (Call::GetFileHandle, 1, A_REFUSED, "Ok(())"),
    (Call::Delete, 2, A_REFUSED, "Ok(())"),
    (Call::OpenWrite, 2, A_REFUSED, "Ok(())"),
    (Call::Sync, 1, SILENT, "Ok(())"),
    (Call::Lock, 4, LOCK_REFUSED, "Ok(())"),
];

// Makes a call. Whether it answers what is wanted.
fn answers<R: Abort + Eprint, D: Directory>(
    rt: &R,
    alloc: Global,
    directory: &mut D,
    call: Call,
    want: &str,
) -> bool {
    let name = "a.idx";
    assert!(rt; is_plain_name(name));
    match call {
        Call::Exists => told(rt, alloc, directory.exists(name), want),
        Call::AtomicRead => told(rt, alloc, directory.atomic_read(name), want),
        Call::OpenRead => told(rt, alloc, done(directory.open_read(name)), want),
        Call::GetFileHandle => told(rt, alloc, done(directory.get_file_handle(name)), want),
        Call::OpenWrite => told(rt, alloc, done(directory.open_write(name)), want),
        Call::AtomicWrite => told(rt, alloc, directory.atomic_write(name, b"abc"), want),
        Call::Delete => told(rt, alloc, directory.delete(name), want),
        Call::Sync => told(rt, alloc, directory.sync_directory(), want),
        Call::Lock => told(rt, alloc, done(directory.acquire_lock(&meta_lock())), want),
    }
}

// Refuses one call of the operating system after the other, and then none.
fn refuse_each<R: Abort + Eprint, D: Directory>(
    rt: &R,
    alloc: Global,
    directory: &mut D,
    plans: &Plans,
    (call, calls, refused, made): Row,
) {
    for number in 0..calls {
        plans.set(refused_at(number));
        assert!(rt;
            answers(rt, alloc, directory, call, refused),
            "at call {number}"
        );
    }
    plans.set(refused_at(calls));
    assert!(rt; answers(rt, alloc, directory, call, made));
    is_next(rt, plans);
}

// Looks whether the next call is the one that is to fail.
fn is_next<R: Abort>(rt: &R, plans: &Plans) {
    let plan = plans.get();
    assert_eq!(rt; (plan.before, plan.failing), (0, 1));
}

// How a file is given its bytes.
#[derive(Clone, Copy)]
enum Writing {
    Flushed,
    Sealed,
    AtOnce,
}

// How bytes are given to a file that takes no byte and no sync, which bytes, and what comes of that.
const FULL_FILES: &[(Writing, &str, &str)] = &[
    (Writing::Flushed, "abc", NO_ROOM),
    (Writing::Sealed, "abc", NO_ROOM),
    (Writing::Sealed, "", NO_SYNC),
    (Writing::AtOnce, "abc", NO_ROOM),
    (Writing::AtOnce, "", NO_SYNC),
];

const NO_ROOM: &str =
    "Err(Fault(IoFault { kind: Device, text: \"No space left on device (os error 28)\" }))";

const NO_SYNC: &str =
    "Err(Fault(IoFault { kind: Device, text: \"Invalid argument (os error 22)\" }))";

// Makes such a file, and flushes or seals it.
fn write_full<R: Abort + Eprint, D: Directory>(
    rt: &R,
    alloc: Global,
    directory: &mut D,
    text: &str,
    is_sealed: bool,
    want: &str,
) {
    let mut writer = directory.open_write("full.idx").expect(rt, "opened");
    directory
        .write(&mut writer, text.as_bytes())
        .expect(rt, "memory");
    if is_sealed {
        assert!(rt; told(rt, alloc, directory.terminate(writer), want));
    } else {
        assert!(rt; told(rt, alloc, directory.flush(&mut writer), want));
    }
}

fn write_at_once<R: Abort + Eprint, D: Directory>(
    rt: &R,
    alloc: Global,
    directory: &mut D,
    text: &str,
    want: &str,
) {
    let answer = directory.atomic_write("full.idx", text.as_bytes());
    assert!(rt; told(rt, alloc, answer, want));
}

// The file is opened behind the look at the folder, and at once it is looked at too, by its path.
fn write_each_full<R: Abort + Eprint, D: Directory>(
    rt: &R,
    alloc: Global,
    directory: &mut D,
    plans: &Plans,
) {
    for (writing, text, want) in FULL_FILES {
        plans.set(full_from(1, 1));
        match writing {
            Writing::Flushed => write_full(rt, alloc, directory, text, false, want),
            Writing::Sealed => write_full(rt, alloc, directory, text, true, want),
            Writing::AtOnce => {
                plans.set(full_from(1, 2));
                write_at_once(rt, alloc, directory, text, want);
            }
        }
    }
}

// A folder that takes no sync, though its path leads to it before and after.
fn sync_in_vain<R: Abort + Eprint, D: Directory>(
    rt: &R,
    alloc: Global,
    directory: &mut D,
    plans: &Plans,
) {
    plans.set(full_from(0, 1));
    assert!(rt; told(rt, alloc, directory.sync_directory(), SILENT));
}

// A runtime some of whose calls fail by these plans.
fn runtime<R: Clone + Abort>(rt: &R, alloc: Global, plans: &Plans, said: &Said) -> Failing<R> {
    failing_by(rt, alloc, plans, said).expect(rt, "memory")
}

// The directory of the folder, some of whose calls fail by these plans.
fn folder<R: Files<File = File> + Clone + Drop + Abort>(
    rt: &R,
    alloc: Global,
    plans: &Plans,
) -> MmapDirectory<Failing<R>, NoWatch> {
    let said = nothing_said(alloc).expect(rt, "memory");
    MmapDirectory::open(runtime(rt, alloc, plans, &said), alloc, FOLDER).expect(rt, "a folder")
}

#[test]
fn a_refused_call_on_a_folder_is_answered_as_a_fault(rt: HostRuntime) {
    let a = rt.alloc();
    make_folder(&rt, a, FOLDER);
    let plans = no_plan(a).expect(&rt, "memory");
    let mut directory = folder(&rt, a, &plans);
    for row in ROWS {
        refuse_each(&rt, a, &mut directory, &plans, *row);
    }
    write_each_full(&rt, a, &mut directory, &plans);
    // The open of the folder, and the look whether its path leads there, are of `/dev/full`.
    plans.set(full_from(2, 2));
    sync_in_vain(&rt, a, &mut folder(&rt, a, &plans), &plans);
    remove_folder(&rt, FOLDER);
}

// Whether a look is refused, and what it answers.
const LOOKS: &[(bool, &str)] = &[
    (true, REFUSED),
    (false, "Ok(true)"),
    (true, REFUSED),
    (false, "Ok(false)"),
];

// Looks at a file that is there.
fn look_at_each<R: Files<File = File> + Drop + Abort + Eprint>(
    rt: &R,
    alloc: Global,
    runtime: Failing<R>,
    plans: &Plans,
) {
    fs::write(rt, "looked_at", b"text").expect(rt, "written");
    let mut watcher: FileWatcher<Failing<R>, NoWatch> = FileWatcher::new(
        runtime,
        alloc,
        "looked_at",
    ).expect(rt, "memory");
    for (is_refused, want) in LOOKS {
        if *is_refused {
            plans.set(refused_at(0));
        }
        assert!(rt; told(rt, alloc, watcher.look(), want));
    }
    fs::remove_file(rt, "looked_at").expect(rt, "removed");
}

// What is put, of which the second is refused.
const PUTS: &[(&str, &str)] = &[("one", "Ok(())"), ("two", SILENT), ("three", "Ok(())")];

fn put_each<R: Abort + Eprint, S: Sink>(rt: &R, alloc: Global, sink: &mut S, plans: &Plans) {
    plans.set(refused_at(1));
    for (text, want) in PUTS {
        assert!(rt; told(rt, alloc, sink.put(text.as_bytes()), want));
    }
}

// A refused put is counted, and of what was put only that is missing.
fn put_all<R: Drop + Abort + Eprint>(
    rt: &R,
    alloc: Global,
    runtime: Failing<R>,
    plans: &Plans,
    said: &Said,
) {
    let mut sink = StdoutSink::new(runtime, alloc);
    put_each(rt, alloc, &mut sink, plans);
    is_number(rt, sink.faults(), 1);
    assert!(rt; has_said(rt, said, "onethree"));
}

#[test]
fn a_refused_look_or_put_is_answered_as_a_fault(rt: HostRuntime) {
    let a = rt.alloc();
    let plans = no_plan(a).expect(&rt, "memory");
    let said = nothing_said(a).expect(&rt, "memory");
    look_at_each(&rt, a, runtime(&rt, a, &plans, &said), &plans);
    put_all(&rt, a, runtime(&rt, a, &plans, &said), &plans, &said);
}

// What a reader gives, and what is read of it: a read is made again after a signal.
const PIECES: &[Piece] = &[
    Piece::Text("one"),
    Piece::Fails(ErrorKind::Interrupted),
    Piece::Text("two"),
    Piece::Fails(ErrorKind::Other),
    Piece::Text("three"),
];

const READS: &[&str] = &["Ok(3)", "Ok(3)", SILENT, "Ok(5)", "Ok(0)"];

fn read_each<R: Abort + Eprint, S: Source>(rt: &R, alloc: Global, source: &mut S) {
    let mut into = [0; 8];
    for want in READS {
        assert!(rt; told(rt, alloc, source.read(&mut into), want));
    }
}

#[test]
fn a_refused_read_is_not_the_end(rt: HostRuntime) {
    let mut source = ReadSource::new(rt.alloc(), Pieces { left: PIECES });
    read_each(&rt, rt.alloc(), &mut source);
    is_number(&rt, source.faults(), 1);
}
