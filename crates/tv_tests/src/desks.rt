//! A directory whose lines are told to a sink.
use crate::calls::{take_all, tell};
use crate::compare::is_number;
use crate::empty::TestRam;
use crate::ram::FILES;
use std::alloc::Global;
use std::process::Abort;
use tv_base::VecSink;
use tv_directory::{Desk, Directory, Outside, RamDirectory};
use tv_test_support::told;

// Takes steps, and tells lines to a sink with room for two of them that are short.
fn write_and_tell<R: Abort + Eprint, O: Outside>(rt: &R, alloc: Global, outside: &mut O) {
    take_all(rt, alloc, outside, FILES);
    assert!(rt; told(rt, alloc, tell(rt, outside, b"open"), "Ok(())"));
    let full = r#"Err(IoFault { kind: Device, text: "" })"#;
    assert!(rt; told(rt, alloc, tell(rt, outside, b"seal"), full));
    assert!(rt; told(rt, alloc, tell(rt, outside, b"gc"), "Ok(())"));
}

#[test]
fn lines_are_told_to_the_sink_and_files_written_to_the_directory(rt: HostRuntime) {
    let directory: TestRam = RamDirectory::create(rt.alloc());
    let sink = VecSink::new(rt.alloc(), 8).expect(&rt, "memory");
    let mut desk = Desk::new(rt.alloc(), directory, sink);
    write_and_tell(&rt, rt.alloc(), &mut desk);
    let (mut directory, sink) = desk.split();
    assert!(rt; sink.as_slice() == b"open\ngc\n".as_slice());
    is_number(&rt, sink.faults(), 1);
    assert!(rt; directory.exists("other").expect(&rt, "asked"));
}
