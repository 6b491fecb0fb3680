//! The example, replayed over a folder of the file system.
ghost use Rattle.std.specs.Prelude.{◌≡◌, None};

use crate::compare::are_bytes;
use crate::fixtures::{
    all_owned, folder_desk, handle, make_folder, remove_folder, replayed, source,
};
use std::alloc::Global;
use std::fs::{self, File};
use std::process::Abort;
use std::rt::Files;
use tv_base::Source;
use tv_replay::{FolderPlace, Place, run};

const SCHEMA: &str = "[{\"name\":\"text\",\"type\":\"text\"}]";

const SCRIPT: &str = "segment a5c4dfcbdfe645089129e308e26d5523
open a5c4dfcbdfe645089129e308e26d5523 idx
write a5c4dfcbdfe645089129e308e26d5523 idx 313233343536373839
seal a5c4dfcbdfe645089129e308e26d5523 idx
open a5c4dfcbdfe645089129e308e26d5523 pos
seal a5c4dfcbdfe645089129e308e26d5523 pos
open a5c4dfcbdfe645089129e308e26d5523 fast
seal a5c4dfcbdfe645089129e308e26d5523 fast
open a5c4dfcbdfe645089129e308e26d5523 fieldnorm
seal a5c4dfcbdfe645089129e308e26d5523 fieldnorm
open a5c4dfcbdfe645089129e308e26d5523 term
seal a5c4dfcbdfe645089129e308e26d5523 term
open a5c4dfcbdfe645089129e308e26d5523 store
seal a5c4dfcbdfe645089129e308e26d5523 store
docs a5c4dfcbdfe645089129e308e26d5523 3
commit - a5c4dfcbdfe645089129e308e26d5523
";

const TOLD: &str = "open 0 0
segment a5c4dfcbdfe645089129e308e26d5523
opened a5c4dfcbdfe645089129e308e26d5523.idx
wrote a5c4dfcbdfe645089129e308e26d5523.idx 9
sealed a5c4dfcbdfe645089129e308e26d5523.idx 9
opened a5c4dfcbdfe645089129e308e26d5523.pos
sealed a5c4dfcbdfe645089129e308e26d5523.pos 0
opened a5c4dfcbdfe645089129e308e26d5523.fast
sealed a5c4dfcbdfe645089129e308e26d5523.fast 0
opened a5c4dfcbdfe645089129e308e26d5523.fieldnorm
sealed a5c4dfcbdfe645089129e308e26d5523.fieldnorm 0
opened a5c4dfcbdfe645089129e308e26d5523.term
sealed a5c4dfcbdfe645089129e308e26d5523.term 0
opened a5c4dfcbdfe645089129e308e26d5523.store
sealed a5c4dfcbdfe645089129e308e26d5523.store 0
docs a5c4dfcbdfe645089129e308e26d5523 3
commit 1 1
";

const MANAGED: &str = "open 1 1
managed a5c4dfcbdfe645089129e308e26d5523.fast a5c4dfcbdfe645089129e308e26d5523.fieldnorm a5c4dfcbdfe645089129e308e26d5523.idx a5c4dfcbdfe645089129e308e26d5523.pos a5c4dfcbdfe645089129e308e26d5523.store a5c4dfcbdfe645089129e308e26d5523.term meta.json
";

// Scripts, one after the other, and what is told of each.
const SCRIPTS: &[(&str, &str)] = &[(SCRIPT, TOLD), ("managed\n", MANAGED)];

// Replays a script over the folder, and looks at what was told.
fn is_told<R: Files<File = File> + Clone + Drop + Abort>(
    rt: &R,
    alloc: Global,
    script: &str,
    want: &str,
) {
    let desk = folder_desk(rt, alloc, "replayed");
    let (desk, _events) = replayed(rt, alloc, desk, SCHEMA, script);
    let (_directory, sink) = desk.split();
    are_bytes(rt, sink.as_slice(), want.as_bytes());
}

// Runs the program over the folder, with a script of no lines, and the schema of a file.
fn status<R: Files<File = File> + Print + Clone + Drop + Abort>(rt: &R, alloc: Global) -> u8 {
    let words = all_owned(rt, alloc, &["replay", "replayed", "replayed.json"]);
    let mut place = place(rt, alloc);
    let mut script = source(rt, alloc, "");
    run(alloc, words.as_slice(), &mut place, &mut script)
}

// The folders of the file system.
fn place<R: Files<File = File> + Print + Clone + Drop + Abort>(
    rt: &R,
    alloc: Global,
) -> FolderPlace<R>
    ensures { result.lent ≡ None }
{
    FolderPlace::new(handle(rt), alloc).expect(rt, "memory")
}

// Whether a script has the text of the schema.
fn reads_schema<R: Abort, S: Source>(rt: &R, script: &mut S) -> bool {
    let mut bytes = [0; 64];
    let len = script.read(&mut bytes).expect(rt, "read");
    bytes.get(..len) == Some(SCHEMA.as_bytes())
}

// Reads a script of the file system, and gives it back.
fn reads_script<R: Files<File = File> + Print + Clone + Drop + Abort>(rt: &R, alloc: Global) {
    let mut place = place(rt, alloc);
    let mut script = place.script("replayed.json").expect(rt, "a script");
    assert!(rt; reads_schema(rt, &mut script));
    place.end_script(script);
}

// How long the first file of the segment is.
fn length<R: Files<File = File> + Alloc + Abort>(rt: &R) -> usize {
    let file = fs::read(rt, "replayed/a5c4dfcbdfe645089129e308e26d5523.idx").expect(rt, "read");
    file.len()
}

#[test]
fn the_example_is_replayed_over_a_folder(rt: HostRuntime) {
    make_folder(&rt, rt.alloc(), "replayed");
    fs::write(&rt, "replayed.json", SCHEMA.as_bytes()).expect(&rt, "a schema");
    for (script, want) in SCRIPTS {
        is_told(&rt, rt.alloc(), script, want);
    }
    assert!(rt; status(&rt, rt.alloc()) == 0);
    reads_script(&rt, rt.alloc());
    assert!(rt; length(&rt) == 103);
    remove_folder(&rt, "replayed");
    fs::remove_file(&rt, "replayed.json").expect(&rt, "removed");
}
