//! What stands on the disk of a file that is written by steps.
ghost use Rattle.std.specs.Prelude.{◌≡◌, true};
ghost use Rattle.tv_formats.specs.Names.{is_file_name};

use crate::compare::are_bytes;
use crate::fixtures::{make_folder, remove_folder};
use std::alloc::Global;
use std::fs::{self, File};
use std::process::Abort;
use std::rt::Files;
use tv_base::is_plain_name;
use tv_directory::{Directory, NoWatch};
use tv_files::MmapDirectory;

const FOLDER: &str = "steps";

// Three texts that are written to a file one after the other, each with what stands on the disk once
// it is flushed. None: it isn't flushed.
type Writes = [(&'static str, Option<&'static str>); 3];

// The paths of files, their names, what is written, and what stands there at last.
const FILES: &[(&str, &str, &Writes, &str)] = &[
    (
        "steps/a.idx",
        "a.idx",
        &[
            ("one", Some("one")),
            ("two", Some("onetwo")),
            ("", Some("onetwo")),
        ],
        "onetwo",
    ),
    (
        "steps/b.idx",
        "b.idx",
        &[("one", Some("one")), ("two", None), ("three", None)],
        "onetwothree",
    ),
    (
        "steps/c.idx",
        "c.idx",
        &[("", Some("")), ("one", None), ("two", Some("onetwo"))],
        "onetwo",
    ),
    (
        "steps/d.idx",
        "d.idx",
        &[
            ("one", Some("one")),
            ("two", Some("onetwo")),
            ("three", None),
        ],
        "onetwothree",
    ),
    (
        "steps/e.idx",
        "e.idx",
        &[("", None), ("one", None), ("", None)],
        "one",
    ),
    (
        "steps/f.idx",
        "f.idx",
        &[("", None), ("", None), ("", None)],
        "",
    ),
];

// Looks at all bytes of the file on the disk.
fn has<R: Files<File = File> + Alloc + Abort>(rt: &R, path: &str, want: &str) {
    let bytes = fs::read(rt, path).expect(rt, "read");
    are_bytes(rt, bytes.as_slice(), want.as_bytes());
}

// Writes a text to a file, and looks at the disk where it is flushed.
fn write<R: Files<File = File> + Alloc + Abort, D: Directory>(
    rt: &R,
    directory: &mut D,
    writer: &mut D::Writer,
    path: &str,
    step: (&str, Option<&str>),
)
    requires { (D.view directory.old).opened writer.old ≡ true }
    ensures { (D.view directory.new).opened writer.new ≡ true }
{
    let (text, flushed) = step;
    directory
        .write(writer, text.as_bytes())
        .expect(rt, "memory");
    if let Some(want) = flushed {
        directory.flush(writer).expect(rt, "flushed");
        has(rt, path, want);
    }
}

// Writes a file by three steps, and seals it.
fn write_by<R: Files<File = File> + Alloc + Abort, D: Directory>(
    rt: &R,
    directory: &mut D,
    path: &str,
    name: &str,
    writes: &Writes,
)
    requires { is_file_name name.now ≡ true }
{
    let [first, second, third] = *writes;
    let mut writer = directory.open_write(name).expect(rt, "a new file");
    write(rt, directory, &mut writer, path, first);
    write(rt, directory, &mut writer, path, second);
    write(rt, directory, &mut writer, path, third);
    directory.terminate(writer).expect(rt, "sealed");
}

fn write_each<R: Files<File = File> + Alloc + Abort, D: Directory>(rt: &R, directory: &mut D) {
    for (path, name, writes, want) in FILES {
        assert!(rt; is_plain_name(name));
        write_by(rt, directory, path, name, writes);
        has(rt, path, want);
    }
}

// The directory of the folder.
fn folder<R: Files<File = File> + Clone + Drop + Abort>(
    rt: &R,
    alloc: Global,
) -> MmapDirectory<R, NoWatch> {
    MmapDirectory::open(rt.clone().expect(rt, "memory"), alloc, FOLDER).expect(rt, "a folder")
}

#[test]
fn a_flush_writes_what_no_flush_wrote(rt: HostRuntime) {
    make_folder(&rt, rt.alloc(), FOLDER);
    write_each(&rt, &mut folder(&rt, rt.alloc()));
    remove_folder(&rt, FOLDER);
}
