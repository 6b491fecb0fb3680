//! Runs of the program over the folders of the file system.
ghost use Rattle.std.specs.Prelude.{◌≡◌, None};

use crate::fixtures::{all_owned, make_folder, remove_folder};
use std::alloc::Global;
use std::fs::{self, File};
use std::io;
use std::io::ErrorKind;
use std::process::Abort;
use std::rt::Files;
use tv_base::Source;
use tv_files::ReadSource;
use tv_replay::{FolderPlace, run};
use tv_test_support::{Failing, Piece, Pieces, Said, failing_by, has_said, no_plan, nothing_said};

// A run: the paths of its folder and its schema, what its script gives, the status, and what is told
// and said.
struct Row {
    folder: &'static str,
    schema: &'static str,
    script: &'static [Piece],
    status: u8,
    said: &'static str,
}

const SCHEMA: &str = "places/schema.json";

const MANAGED: &[Piece] = &[Piece::Text("managed\n")];

const ROWS: &[Row] = &[
    Row {
        folder: "places/absent",
        schema: SCHEMA,
        script: MANAGED,
        status: 1,
        said: "error folder\n",
    },
    // A file is no folder.
    Row {
        folder: SCHEMA,
        schema: SCHEMA,
        script: MANAGED,
        status: 1,
        said: "error folder\n",
    },
    Row {
        folder: "places/inner",
        schema: "places/absent.json",
        script: MANAGED,
        status: 1,
        said: "error io\n",
    },
    Row {
        folder: "places/inner",
        schema: SCHEMA,
        script: MANAGED,
        status: 0,
        said: "open 0 0\nmanaged meta.json\n",
    },
    // A script one of whose reads is made again, and one of whose reads is refused.
    Row {
        folder: "places/inner",
        schema: SCHEMA,
        script: &[
            Piece::Text("mana"),
            Piece::Fails(ErrorKind::Interrupted),
            Piece::Text("ged\n"),
        ],
        status: 0,
        said: "open 0 0\nmanaged meta.json\n",
    },
    Row {
        folder: "places/inner",
        schema: SCHEMA,
        script: &[Piece::Text("managed\n"), Piece::Fails(ErrorKind::Other)],
        status: 1,
        said: "open 0 0\nmanaged meta.json\nerror io\n",
    },
];

// The folders of the file system, and what is said there.
fn place<R: Files<File = File> + Clone + Drop + Abort>(
    rt: &R,
    alloc: Global,
    said: &Said,
) -> FolderPlace<Failing<R>>
    ensures { result.lent ≡ None }
{
    let plan = no_plan(alloc).expect(rt, "memory");
    let runtime = failing_by(rt, alloc, &plan, said).expect(rt, "memory");
    FolderPlace::new(runtime, alloc).expect(rt, "memory")
}

// Replays a script over a folder, and looks at the status, and at what is told and said.
fn replays<R: Files<File = File> + Clone + Drop + Abort + Eprint, S: Source>(
    rt: &R,
    alloc: Global,
    paths: (&str, &str),
    script: &mut S,
    want: (u8, &str),
) {
    let words = all_owned(rt, alloc, &["replay", paths.0, paths.1]);
    let said = nothing_said(alloc).expect(rt, "memory");
    let mut place = place(rt, alloc, &said);
    let status = run(alloc, words.as_slice(), &mut place, script);
    assert!(rt; has_said(rt, &said, want.1));
    assert_eq!(rt; status, want.0);
}

fn replay_each<R: Files<File = File> + Clone + Drop + Abort + Eprint>(rt: &R, alloc: Global) {
    for row in ROWS {
        let mut script = ReadSource::new(alloc, Pieces { left: row.script });
        let paths = (row.folder, row.schema);
        replays(rt, alloc, paths, &mut script, (row.status, row.said));
    }
}

// Where the commit of an index may stand, and whether it does: in the folder of a run, and in no
// other.
const COMMITS: &[(&str, bool)] = &[
    ("places/inner/meta.json", true),
    ("places/meta.json", false),
    ("places/absent/meta.json", false),
    ("meta.json", false),
];

fn stand_where_they_are_wanted<R: Files + Abort>(rt: &R) {
    for (path, want) in COMMITS {
        let is_there = fs::exists(rt, *path).expect(rt, "asked");
        assert!(rt; is_there == *want, "{path}");
    }
}

fn make_schema<R: Files<File = File> + Abort>(rt: &R, path: &str) {
    fs::write(rt, path, b"[]").expect(rt, "written");
}

#[test]
fn a_run_takes_the_folder_of_its_path(rt: HostRuntime) {
    make_folder(&rt, rt.alloc(), "places");
    make_folder(&rt, rt.alloc(), "places/inner");
    make_schema(&rt, SCHEMA);
    replay_each(&rt, rt.alloc());
    stand_where_they_are_wanted(&rt);
    remove_folder(&rt, "places");
}

// A script in two pieces. Before the second one the folder is moved away, and another one put in its
// place.
#[derive(Drop)]
struct Moving<R: Drop> {
    rt: R,
    pieces: Pieces,
}

impl<R: Files + Drop> io::Read for Moving<R> {
    fn read(&mut self, buf: &mut [u8]) -> io::Result<usize> {
        if self.pieces.left.len() == 1 {
            fs::rename(&self.rt, "carried/here", "carried/away")?;
            fs::create_dir(&self.rt, "carried/here")?;
        }
        self.pieces.read(buf)
    }
}

// A commit in a folder that was moved.
const MOVED: &[Piece] = &[Piece::Text("managed\n"), Piece::Text("commit -\n")];

fn commit_where_it_was<R: Files<File = File> + Clone + Drop + Abort + Eprint>(
    rt: &R,
    alloc: Global,
) {
    let reader = Moving {
        rt: rt.clone().expect(rt, "memory"),
        pieces: Pieces { left: MOVED },
    };
    let mut script = ReadSource::new(alloc, reader);
    let paths = ("carried/here", "carried/schema.json");
    let want = "open 0 0\nmanaged meta.json\nerror io\n";
    replays(rt, alloc, paths, &mut script, (1, want));
}

// Looks whether nothing is in a folder.
fn is_empty<R: Files + Alloc + Clone + Drop + Abort>(rt: &R, folder: &str) {
    for _ in fs::read_dir(rt, folder).expect(rt, "listed") {
        panic!(rt; "something is in {folder}");
    }
}

#[test]
fn a_commit_over_a_folder_that_was_moved_is_not_told(rt: HostRuntime) {
    make_folder(&rt, rt.alloc(), "carried");
    make_folder(&rt, rt.alloc(), "carried/here");
    make_schema(&rt, "carried/schema.json");
    commit_where_it_was(&rt, rt.alloc());
    is_empty(&rt, "carried/here");
    remove_folder(&rt, "carried");
}
