//! Known spellings of numbers, and parts of files.
ghost use Rattle.std.specs.Prelude.{◌≡◌, [], ◌∷◌, length};

use crate::compare::{are_bytes, is_file};
use std::alloc::Global;
use std::process::Abort;
use tv_base::{ByteCount, DocAddress, Field, FileSlice, Memory, OwnedBytes, VInt};

fn assert_written(rt: &impl Abort, alloc: Global, number: u64, spelling: &[u8]) {
    let mut out = Vec::new(alloc);
    VInt(number).serialize(&mut out).expect(rt, "memory");
    are_bytes(rt, out.as_slice(), spelling);
}

fn assert_read(rt: &impl Abort, bytes: &[u8], want: Option<(VInt, usize)>) {
    assert_eq!(rt; VInt::deserialize(bytes), want);
}

// A number, and its spelling.
const SPELLINGS: &[(u64, &[u8])] = &[
    (0, &[0x80]),
    (127, &[0xff]),
    (128, &[0x00, 0x81]),
    (1_000_000, &[0x40, 0x04, 0xbd]),
    (32_431_123, &[0x13, 0x38, 0x3b, 0x8f]),
];

#[test]
fn spellings_of_numbers(rt: HostRuntime) {
    for (number, spelling) in SPELLINGS {
        assert_written(&rt, rt.alloc(), *number, spelling);
        assert_read(&rt, spelling, Some((VInt(*number), spelling.len())));
    }
}

// Bytes, and the number that their front spells, with the length of that.
const FRONTS: &[(&[u8], Option<(VInt, usize)>)] = &[
    (&[0x40, 0x04, 0xbd, 0x00], Some((VInt(1_000_000), 3))),
    (&[0x00, 0x80], None),
    (&[0x40], None),
    (&[], None),
];

#[test]
fn numbers_are_read_from_the_front(rt: HostRuntime) {
    for (bytes, want) in FRONTS {
        assert_read(&rt, bytes, *want);
    }
}

// Looks whether a part of a file is these bytes.
fn is_part<R: Abort>(rt: &R, part: Result<FileSlice, Memory>, want: &[u8]) {
    is_file(rt, &part.expect(rt, "memory"), want);
}

// All bytes of a file, for which there is memory.
fn abcd<R: Abort>(rt: &R, alloc: Global) -> OwnedBytes
    ensures { result ≡ 97 ∷ 98 ∷ 99 ∷ 100 ∷ [] }
{
    let bytes = b"abcd".to_vec(alloc).expect(rt, "memory");
    OwnedBytes::new(bytes).expect(rt, "memory")
}

// Looks whether the parts of `abcd` are what they should be.
fn has_parts<R: Abort>(rt: &R, file: &FileSlice)
    requires { length file.now ≡ 4 }
{
    is_part(rt, file.slice(1..3), b"bc");
    is_part(rt, file.slice_from(2), b"cd");
    is_part(rt, file.slice_to(1), b"a");
    is_part(rt, file.slice_from_end(1), b"d");
    is_part(rt, file.share(), b"abcd");
}

// Looks whether a share of the bytes is the same.
fn is_shared<R: Abort>(rt: &R, bytes: &OwnedBytes) {
    let share = bytes.share().expect(rt, "memory");
    are_bytes(rt, share.as_slice(), b"abcd");
}

#[test]
fn bytes_and_parts_of_a_file(rt: HostRuntime) {
    let bytes = abcd(&rt, rt.alloc());
    is_shared(&rt, &bytes);
    let file = FileSlice::new(bytes);
    has_parts(&rt, &file);
}

#[test]
fn numbers_are_ordered(rt: HostRuntime) {
    assert!(rt; DocAddress::new(0, 7) < DocAddress::new(1, 3));
    assert!(rt; DocAddress::new(1, 3) < DocAddress::new(1, 4));
    assert!(rt; Field::from_field_id(3) < Field::from_field_id(4));
    assert!(rt; ByteCount(2) < ByteCount(10));
}
