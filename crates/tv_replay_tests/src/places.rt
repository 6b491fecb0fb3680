//! Places in memory: what is under a path, what is lent, and what is said.
ghost use Rattle.std.specs.Prelude.{◌≡◌, None, true};
ghost use Rattle.tv_formats.specs.Files.{has_no_feed};

use crate::compare::are_bytes;
use crate::fixtures::{Shows, empty_bench, has_heard, owned, place};
use std::alloc::Global;
use std::process::Abort;
use tv_base::{IoError, IoFault, Memory, OpenDirectoryError, Source};
use tv_directory::Outside;
use tv_replay::{BenchPlace, Place};
use tv_test_support::{reads, told};

// A call of a place.
#[derive(Clone, Copy, Debug)]
enum Call {
    Schema(&'static str),
    Script(&'static str),
    Lend(&'static str),
    Say(&'static str),
}

use Call::{Lend, Say, Schema, Script};

const NO_PATH: &str = r#"Err(Fault(IoFault { kind: Device, text: ".." }))"#;

const NO_ROOM: &str = r#"Err(IoFault { kind: Device, text: ".." })"#;

// Calls of a place to which ten bytes can be said, and what each gives: the bytes of a schema or of a script, all
// that was told to what was lent, or what a line is answered.
const CALLS: &[(Call, &str)] = &[
    (Schema("a.json"), "[]"),
    (Schema("b.json"), "{}"),
    (Schema("c.json"), NO_PATH),
    (Schema("a.json "), NO_PATH),
    (Schema(""), NO_PATH),
    (Script("a.json"), "managed\n"),
    (Script("b.json"), NO_PATH),
    (Lend("folder"), "told\n"),
    (Lend("another folder"), "told\ntold\n"),
    (Say("ten bytes."), NO_ROOM),
    (Say("four"), "Ok(())"),
    (Say("fives"), NO_ROOM),
    (Say("4444"), "Ok(())"),
    (Say(""), NO_ROOM),
];

// What one read of a script gives.
fn read<R: Abort, S: Source>(rt: &R, alloc: Global, script: &mut S) -> Vec<u8> {
    let mut bytes = [0; 16];
    let len = script.read(&mut bytes).expect(rt, "read");
    let read = bytes.get(..len).expect(rt, "so many bytes");
    Vec::from_slice(alloc, read).expect(rt, "memory")
}

// The text of a script, which is given back.
fn script<R: Abort, O: Outside + Drop>(
    rt: &R,
    alloc: Global,
    place: &mut BenchPlace<O>,
    path: &str,
) -> Result<Vec<u8>, IoError>
    requires { place.old.lent ≡ None }
    ensures { place.new.lent ≡ None }
{
    match place.script(path) {
        Ok(script) => {
            let mut script = script;
            let bytes = read(rt, alloc, &mut script);
            place.end_script(script);
            Ok(bytes)
        }
        Err(error) => Err(error),
    }
}

// Tells a line, for which there is memory.
fn tell<R: Abort, O: Outside>(rt: &R, outside: &mut O, line: &[u8]) -> Result<(), IoFault>
    requires { has_no_feed line.now ≡ true }
{
    outside.ready(line.len()).expect(rt, "memory");
    outside.tell(line)
}

// What is lent is told a line, and given back. All that was told to it.
fn lend<R: Abort, O: Shows>(
    rt: &R,
    place: &mut BenchPlace<O>,
    folder: &str,
) -> Result<Vec<u8>, Memory>
    requires { place.old.lent ≡ None }
    ensures { place.new.lent ≡ None }
{
    let mut outside = place.lend(folder).expect(rt, "memory");
    tell(rt, &mut outside, b"told").expect(rt, "told");
    let heard = outside.heard();
    place.give_back(outside);
    heard
}

// Whether the place answers what is wanted.
fn answer<R: Abort + Eprint, O: Shows>(
    rt: &R,
    alloc: Global,
    place: &mut BenchPlace<O>,
    call: Call,
    want: &str,
) -> bool
    requires { place.old.lent ≡ None }
    ensures { place.new.lent ≡ None }
{
    match call {
        Schema(path) => reads(rt, alloc, place.schema(path), want),
        Script(path) => reads(rt, alloc, script(rt, alloc, place, path), want),
        Lend(folder) => reads(rt, alloc, lend(rt, place, folder), want),
        Say(line) => told(rt, alloc, place.say(line.as_bytes()), want),
    }
}

// Looks at each answer.
fn answer_all<R: Abort + Eprint, O: Shows>(rt: &R, alloc: Global, place: &mut BenchPlace<O>)
    requires { place.old.lent ≡ None }
    ensures { place.new.lent ≡ None }
{
    for (call, want) in CALLS {
        assert!(rt; answer(rt, alloc, place, *call, want), "at {call:?}");
    }
}

// Whether a folder of this path is refused as one that isn't there.
fn is_absent<O: Outside + Drop>(place: &mut BenchPlace<O>, path: &str) -> bool
    requires { place.old.lent ≡ None }
    ensures { place.new.lent ≡ None }
{
    match place.lend(path) {
        Ok(outside) => {
            place.give_back(outside);
            false
        }
        Err(OpenDirectoryError::DoesNotExist(named)) => named.as_str() == path,
        Err(_) => false,
    }
}

#[test]
fn a_place_answers_with_what_it_has(rt: HostRuntime) {
    let mut place = place(&rt, rt.alloc(), empty_bench(&rt, rt.alloc()), 10);
    answer_all(&rt, rt.alloc(), &mut place);
    let mut place = place.in_folder(owned(&rt, rt.alloc(), "folder"));
    assert!(rt; is_absent(&mut place, "another folder"));
    let (bench, said) = place.into_parts();
    are_bytes(&rt, said.as_slice(), b"four\n4444\n");
    has_heard(&rt, &bench, "told\ntold\n");
}
