//! The texts of errors: a list a type, and what each of them prints.
use crate::compare::prints;
use crate::fixtures::owned;
use std::alloc::Global;
use std::fmt::Display;
use std::process::Abort;
use tv_base::{
    DataCorruption, DeleteError, Exhausted, Incompatibility, IoError, IoFault, IoKind, LockError,
    Memory, OpenDirectoryError, OpenReadError, OpenWriteError, TantivyError, Version,
    version_string,
};
use tv_test_support::told;

fn x<R: Abort>(rt: &R, alloc: Global) -> String {
    owned(rt, alloc, "x")
}

fn fault<R: Abort>(rt: &R, alloc: Global) -> IoFault {
    IoFault {
        kind: IoKind::Device,
        text: owned(rt, alloc, "bad disk"),
    }
}

fn version(index_format_version: u32) -> Version {
    Version {
        major: 0,
        minor: 26,
        patch: 2,
        index_format_version,
    }
}

fn mismatch() -> Incompatibility {
    Incompatibility::IndexMismatch {
        library_version: version(7),
        index_version: version(3),
    }
}

// Looks whether `Display` prints these texts, in this order.
fn print_all<R: Abort, E: Display>(rt: &R, alloc: Global, errors: &[E], texts: &[&str]) {
    assert_eq!(rt; errors.len(), texts.len());
    for (error, text) in errors.iter().zip(texts) {
        prints(rt, alloc, error, text);
    }
}

const PLAIN: &[&str] = &[
    "Index already exists",
    "A thread holding the locked panicked and poisoned the lock",
    "The field does not exist: 'x'",
    "An invalid argument was passed: 'x'",
    "An error occurred in a thread: 'x'",
    "Missing required index builder argument when open/create index: 'x'",
    "Schema error: 'x'",
    "System error.'x'",
    "Internal error: 'x'",
    "IdInUse",
    "Exhausted",
    "Memory",
];

#[test]
fn texts_of_the_plain_errors(rt: HostRuntime) {
    let a = rt.alloc();
    let errors = [
        TantivyError::IndexAlreadyExists,
        TantivyError::Poisoned,
        TantivyError::FieldNotFound(x(&rt, a)),
        TantivyError::InvalidArgument(x(&rt, a)),
        TantivyError::ErrorInThread(x(&rt, a)),
        TantivyError::IndexBuilderMissingArgument(x(&rt, a)),
        TantivyError::SchemaError(x(&rt, a)),
        TantivyError::SystemError(x(&rt, a)),
        TantivyError::InternalError(x(&rt, a)),
        TantivyError::IdInUse(x(&rt, a)),
        TantivyError::Exhausted,
        TantivyError::Memory,
    ];
    print_all(&rt, a, &errors, PLAIN);
}

const WITHIN: &[&str] = &[
    "Failed to open the directory: 'DoesNotExist(\"x\")'",
    "Failed to open file for read: 'FileDoesNotExist(\"x\")'",
    "Failed to open file for write: 'Leaving(\"x\")'",
    "Failed to acquire Lockfile: LockBusy. None",
    "Failed to acquire Lockfile: LockBusy. Some(\"x\")",
    "An IO error occurred: 'bad disk'",
    "Data corrupted: 'Data corruption: x.'",
];

#[test]
fn texts_of_errors_within_errors(rt: HostRuntime) {
    let a = rt.alloc();
    let errors = [
        TantivyError::OpenDirectoryError(OpenDirectoryError::DoesNotExist(x(&rt, a))),
        TantivyError::OpenReadError(OpenReadError::FileDoesNotExist(x(&rt, a))),
        TantivyError::OpenWriteError(OpenWriteError::Leaving(x(&rt, a))),
        TantivyError::LockFailure(LockError::LockBusy, None),
        TantivyError::LockFailure(LockError::LockBusy, Some(x(&rt, a))),
        TantivyError::IoError(fault(&rt, a)),
        TantivyError::DataCorruption(DataCorruption::comment_only(x(&rt, a))),
    ];
    print_all(&rt, a, &errors, WITHIN);
}

const OF_DIRECTORIES: &[&str] = &[
    "Directory does not exist: 'x'.",
    "Path exists but is not a directory: 'x'.",
    "Failed to create a temporary directory: 'bad disk'.",
    "IoError 'IoFault { kind: Device, text: \"bad disk\" }' while create directory in: '\"x\"'.",
    "Memory",
];

#[test]
fn texts_of_directory_errors(rt: HostRuntime) {
    let a = rt.alloc();
    let errors = [
        OpenDirectoryError::DoesNotExist(x(&rt, a)),
        OpenDirectoryError::NotADirectory(x(&rt, a)),
        OpenDirectoryError::FailedToCreateTempDir(fault(&rt, a)),
        OpenDirectoryError::wrap_io_error(fault(&rt, a), x(&rt, a)),
        OpenDirectoryError::Memory,
    ];
    print_all(&rt, a, &errors, OF_DIRECTORIES);
}

const OF_WRITES: &[&str] = &[
    "File already exists: 'x'",
    "Leaving",
    "IoError 'IoFault { kind: Device, text: \"bad disk\" }' while opening file for write: 'x'.",
    "Memory",
];

#[test]
fn texts_of_write_errors(rt: HostRuntime) {
    let a = rt.alloc();
    let errors = [
        OpenWriteError::FileAlreadyExists(x(&rt, a)),
        OpenWriteError::Leaving(x(&rt, a)),
        OpenWriteError::wrap_io_error(fault(&rt, a), x(&rt, a)),
        OpenWriteError::Memory,
    ];
    print_all(&rt, a, &errors, OF_WRITES);
}

const OF_READS: &[&str] = &[
    "Files does not exist: \"x\"",
    "IoError: 'IoFault { kind: Device, text: \"bad disk\" }' happened while opening the following file for Read: x.",
    "Memory",
];

#[test]
fn texts_of_read_errors(rt: HostRuntime) {
    let a = rt.alloc();
    let errors = [
        OpenReadError::FileDoesNotExist(x(&rt, a)),
        OpenReadError::wrap_io_error(fault(&rt, a), x(&rt, a)),
        OpenReadError::Memory,
    ];
    print_all(&rt, a, &errors, OF_READS);
}

const OF_DELETES: &[&str] = &[
    "File does not exist: 'x'.",
    "The following IO error happened while deleting file 'x': 'IoFault { kind: Device, text: \"bad disk\" }'.",
    "Memory",
];

#[test]
fn texts_of_delete_errors(rt: HostRuntime) {
    let a = rt.alloc();
    let refused = DeleteError::IoError {
        io_error: fault(&rt, a),
        filepath: x(&rt, a),
    };
    let errors = [
        DeleteError::FileDoesNotExist(x(&rt, a)),
        refused,
        DeleteError::Memory,
    ];
    print_all(&rt, a, &errors, OF_DELETES);
}

const OF_LOCKS: &[&str] = &[
    "Could not acquire lock as it is already held, possibly by a different process.",
    "Failed to acquire the lock due to an io:Error.",
    "Memory",
];

#[test]
fn texts_of_locks_and_devices(rt: HostRuntime) {
    let a = rt.alloc();
    let of_locks = [
        LockError::LockBusy,
        LockError::wrap_io_error(fault(&rt, a)),
        LockError::Memory,
    ];
    print_all(&rt, a, &of_locks, OF_LOCKS);
    let of_devices = [IoError::Fault(fault(&rt, a)), IoError::Memory];
    print_all(&rt, a, &of_devices, &["bad disk", "Memory"]);
    prints(&rt, a, fault(&rt, a), "bad disk");
    prints(&rt, a, Memory, "Memory");
    prints(&rt, a, Exhausted, "Exhausted");
}

#[test]
fn texts_of_versions_and_corruption(rt: HostRuntime) {
    let a = rt.alloc();
    prints(&rt, a, version(7), "tantivy v0.26.2, index_format v7");
    let in_file = DataCorruption::new(owned(&rt, a, "meta.json"), owned(&rt, a, "no json"));
    let in_none = DataCorruption::comment_only(owned(&rt, a, "no json"));
    assert!(rt; told(&rt, a, version(7), version_string()));
    assert!(rt;
        told(
            &rt,
            a,
            in_file,
            "Data corruption (in file `\"meta.json\"`): no json."
        )
    );
    assert!(rt; told(&rt, a, in_none, "Data corruption: no json."));
}

// `Display` prints these words, and behind them the debug form of the incompatibility.
fn prints_why<R: Abort, E: Display + Drop>(rt: &R, alloc: Global, shown: E, words: &str) {
    let want = format!(in alloc; "{words}{:?}", mismatch()).expect(rt, "memory");
    prints(rt, alloc, shown, want.as_str());
}

// How an incompatibility prints is open, but these texts hold its debug form.
#[test]
fn texts_with_incompatibilities(rt: HostRuntime) {
    let a = rt.alloc();
    let of_read = OpenReadError::from(mismatch());
    prints_why(&rt, a, TantivyError::IncompatibleIndex(mismatch()), "");
    prints_why(&rt, a, of_read, "Index version unsupported: ");
}
