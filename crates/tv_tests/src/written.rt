//! Files that are written over a directory in memory, and read back.
ghost use Rattle.std.specs.Prelude.{◌≡◌, false};

use crate::compare::are_bytes;
use crate::composites::{self, write_no_fields, write_two_bodies_of_one_field, write_two_fields};
use crate::empty::{Empty, TestBench};
use crate::footers::{self, flush_four_bytes, write_footer, write_nine_bytes};
use std::alloc::Global;
use std::process::Abort;
use tv_base::{FileSlice, OwnedBytes, TerminatingWrite};
use tv_checksum::Crc32;
use tv_directory::{DirWriter, Directory};
use tv_framing::FooterProxy;

/// What a file gets.
#[derive(Clone, Copy)]
pub(crate) enum Content {
    Footer,
    /// Flushed, and not sealed.
    FourBytes,
    NineBytes,
    TwoFields,
    TwoBodiesOfOneField,
    NoFields,
    /// The same as `TwoFields`, and a footer.
    SealedFields,
}

fn write<W: TerminatingWrite + Drop>(rt: &impl Abort, alloc: Global, writer: W, content: Content)
    requires going { (W.view writer).ended ≡ false }
{
    match content {
        Content::Footer => write_footer(rt, alloc, writer),
        Content::FourBytes => flush_four_bytes(rt, alloc, writer),
        Content::NineBytes => write_nine_bytes(rt, alloc, writer),
        Content::TwoFields => write_two_fields(rt, alloc, writer),
        Content::TwoBodiesOfOneField => write_two_bodies_of_one_field(rt, alloc, writer),
        Content::NoFields => write_no_fields(rt, alloc, writer),
        Content::SealedFields => {
            write_two_fields(rt, alloc, FooterProxy::<W, Crc32>::new(alloc, writer))
        }
    }
}

// Writes a file with this content, reads it, and deletes it.
fn write_and_read<D: Directory>(
    rt: &impl Abort,
    alloc: Global,
    directory: &mut D,
    content: Content,
) -> Vec<u8> {
    let writer = directory.open_write("a.idx").expect(rt, "a new file");
    write(rt, alloc, DirWriter::new(directory, writer), content);
    let bytes = directory.atomic_read("a.idx").expect(rt, "the file");
    directory.delete("a.idx").expect(rt, "the file");
    bytes
}

/// The bytes of a file with this content.
pub(crate) fn written(rt: &impl Abort, alloc: Global, content: Content) -> Vec<u8> {
    let mut bench = TestBench::empty(alloc).expect(rt, "memory");
    write_and_read(rt, alloc, &mut bench, content)
}

// Looks whether files with these contents have these bytes.
fn are_written<D: Directory>(
    rt: &impl Abort,
    alloc: Global,
    directory: &mut D,
    rows: &[(Content, &[u8])],
) {
    for (content, want) in rows {
        let bytes = write_and_read(rt, alloc, directory, *content);
        are_bytes(rt, bytes.as_slice(), want);
    }
}

#[test]
fn footers_and_composite_files_are_written(rt: HostRuntime) {
    let mut bench = TestBench::empty(rt.alloc()).expect(&rt, "memory");
    are_written(&rt, rt.alloc(), &mut bench, footers::WRITTEN);
    are_written(&rt, rt.alloc(), &mut bench, composites::WRITTEN);
}

/// The file of these bytes.
pub(crate) fn file_of(rt: &impl Abort, alloc: Global, bytes: &[u8]) -> FileSlice {
    let bytes = bytes.to_vec(alloc).expect(rt, "memory");
    FileSlice::new(OwnedBytes::new(bytes).expect(rt, "memory"))
}
