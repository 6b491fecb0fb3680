//! Comparisons of borrowed values: each that can fail is dear to prove where values are owned.
use std::process::Abort;
use tv_base::FileSlice;

pub(crate) fn are_bytes<R: Abort>(rt: &R, bytes: &[u8], want: &[u8]) {
    assert_eq!(rt; bytes, want);
}

pub(crate) fn is_number<R: Abort>(rt: &R, number: u64, want: u64) {
    assert_eq!(rt; number, want);
}

/// Looks whether a file has these bytes.
pub(crate) fn is_file<R: Abort>(rt: &R, file: &FileSlice, want: &[u8]) {
    let bytes = file.read_bytes().expect(rt, "memory");
    are_bytes(rt, bytes.as_slice(), want);
}
