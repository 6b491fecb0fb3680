//! The directory in memory that fails and is told lines: which calls its device refuses, and which ones
//! its clock counts.
ghost use Rattle.std.specs.Prelude.{◌≡◌, true, string_bytes};
ghost use Rattle.std.specs.List.{AllByRecursion};
ghost use Rattle.tv_formats.specs.Names.{is_file_name};

use crate::calls::{Call, take, tell};
use crate::compare::{are_made, is_number};
use crate::empty::{TestBench, refusing};
use std::alloc::Global;
use std::process::Abort;
use tv_directory::Outside;
use tv_test_support::told;

// What is done with the directory.
#[derive(Clone, Copy)]
enum Turn {
    On(Call, &'static str),
    Tell,
}

use Turn::{On, Tell};

// Whether a turn ends as it is to end. What is written is `new`.
fn take_turn<R: Abort + Eprint, O: Outside>(
    rt: &R,
    alloc: Global,
    outside: &mut O,
    turn: Turn,
    want: &'static str,
) -> bool {
    match turn {
        On(call, name) => take(rt, alloc, outside, (call, name, "new", want)),
        Tell => told(rt, alloc, tell(rt, outside, b"line"), want),
    }
}

// One file.
fn one_file<R: Abort>(rt: &R, alloc: Global) -> Vec<(String, Vec<u8>)>
    ensures { AllByRecursion (λ file. is_file_name (string_bytes file.0) ≡ true) result.items }
{
    let name = String::from_str(alloc, "a.idx").expect(rt, "memory");
    let bytes = Vec::from_slice(alloc, b"first").expect(rt, "memory");
    let mut files = Vec::new(alloc);
    files.push((name, bytes)).expect(rt, "memory");
    files
}

// The calls of the device that are refused. It numbers them from 0 on.
const REFUSED: &[u64] = &[38, 20, 21, 22, 23, 24, 25, 27, 30, 34, 35, 36, 37];

// What a refused call on `b.idx` answers, one that names no file, and one of several calls of the device.
const REFUSED_B: &str =
    r#"Err(IoError { io_error: IoFault { kind: Device, text: "" }, filepath: "b.idx" })"#;

const REFUSED_ALL: &str = r#"Err(IoFault { kind: Device, text: "" })"#;

const REFUSED_LATE: &str = r#"Err(IoError(IoFault { kind: Device, text: "" }))"#;

// A call, what it answers, and the clock afterwards.
type Row = (Turn, &'static str, u64);

const ROWS: &[Row] = &[
    // Nothing is to be settled.
    (On(Call::Sync, "a.idx"), "Ok(())", 0),
    (On(Call::AtomicRead, "a.idx"), "first", 0),
    (On(Call::AtomicWrite, "a.idx"), "Ok(())", 1),
    (On(Call::Sync, "a.idx"), "Ok(())", 2),
    (On(Call::Sync, "a.idx"), "Ok(())", 2),
    (On(Call::Seal, "b.idx"), "Ok(())", 5),
    (On(Call::Lose, "c.idx"), "()", 7),
    (On(Call::Exists, "c.idx"), "Ok(false)", 7),
    (On(Call::OpenRead, "a.idx"), "new", 7),
    (On(Call::GetFileHandle, "a.idx"), "new", 7),
    (On(Call::Sync, "a.idx"), "Ok(())", 8),
    (Tell, "Ok(())", 9),
    (On(Call::Delete, "a.idx"), "Ok(())", 10),
    (On(Call::Lock, "a.idx"), "Ok(())", 10),
    // From here on calls are refused, the first one with the number 20.
    (On(Call::Exists, "b.idx"), REFUSED_B, 10),
    (On(Call::OpenRead, "b.idx"), REFUSED_B, 10),
    (On(Call::GetFileHandle, "b.idx"), REFUSED_B, 10),
    (On(Call::AtomicRead, "b.idx"), REFUSED_B, 10),
    (
        On(Call::AtomicWrite, "b.idx"),
        r#"Err(Fault(IoFault { kind: Device, text: "" }))"#,
        11,
    ),
    // The making of the file is refused, and then its write, its flush and its sealing.
    (
        On(Call::Seal, "c.idx"),
        r#"Err(OpenWriteError(IoError { io_error: IoFault { kind: Device, text: "" }, filepath: "c.idx" }))"#,
        12,
    ),
    (On(Call::Seal, "c.idx"), REFUSED_LATE, 13),
    (On(Call::Seal, "d.idx"), REFUSED_LATE, 15),
    (On(Call::Seal, "e.idx"), REFUSED_LATE, 18),
    (On(Call::Delete, "b.idx"), REFUSED_B, 18),
    (On(Call::Lock, "b.idx"), REFUSED_LATE, 18),
    (On(Call::Sync, "b.idx"), REFUSED_ALL, 18),
    (Tell, REFUSED_ALL, 18),
    (On(Call::Lock, "b.idx"), "Ok(())", 18),
    (On(Call::AtomicRead, "b.idx"), "new", 18),
    (Tell, "Ok(())", 19),
    (On(Call::Sync, "b.idx"), "Ok(())", 20),
];

// Whether a row ends as it is to end.
fn take_row<R: Abort + Eprint>(rt: &R, alloc: Global, bench: &mut TestBench, row: Row) -> bool {
    let (turn, want, moment) = row;
    take_turn(rt, alloc, bench, turn, want) && bench.moment() == moment
}

fn take_rows<R: Abort + Eprint>(rt: &R, alloc: Global, bench: &mut TestBench) {
    for (number, row) in ROWS.iter().enumerate() {
        assert!(rt; take_row(rt, alloc, bench, *row), "row {number}");
    }
}

#[test]
fn recorded_calls_take_a_moment_and_listed_ones_are_refused(rt: HostRuntime) {
    let mut bench = refusing(&rt, rt.alloc(), one_file(&rt, rt.alloc()), REFUSED);
    take_rows(&rt, rt.alloc(), &mut bench);
    are_made(&rt, bench.heard_lines(), b"line\nline\n");
    is_number(&rt, bench.faults(), 12);
    is_number(&rt, bench.refusals(), 1);
}
