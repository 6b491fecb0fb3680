//! Comparisons of borrowed values: each that can fail is dear to prove where values are owned.
use std::alloc::Global;
use std::fmt::Display;
use std::process::Abort;
use tv_base::{FileSlice, Memory};

pub(crate) fn is_text<R: Abort>(rt: &R, text: &str, want: &str) {
    assert_eq!(rt; text, want);
}

pub(crate) fn are_bytes<R: Abort>(rt: &R, bytes: &[u8], want: &[u8]) {
    assert_eq!(rt; bytes, want);
}

pub(crate) fn is_number<R: Abort>(rt: &R, number: u64, want: u64) {
    assert_eq!(rt; number, want);
}

/// `Display` prints this.
pub(crate) fn prints<R: Abort, E: Display + Drop>(rt: &R, alloc: Global, shown: E, want: &str) {
    let printed = format!(in alloc; "{shown}").expect(rt, "memory");
    is_text(rt, printed.as_str(), want);
}

/// Looks whether there was memory for a text, and it is this one.
pub(crate) fn is_made<R: Abort>(rt: &R, text: Result<String, Memory>, want: &str) {
    is_text(rt, text.expect(rt, "memory").as_str(), want);
}

/// Looks whether there was memory for bytes, and they are these.
pub(crate) fn are_made<R: Abort>(rt: &R, bytes: Result<Vec<u8>, Memory>, want: &[u8]) {
    are_bytes(rt, bytes.expect(rt, "memory").as_slice(), want);
}

/// Looks whether a file has these bytes.
pub(crate) fn is_file<R: Abort>(rt: &R, file: &FileSlice, want: &[u8]) {
    let bytes = file.read_bytes().expect(rt, "memory");
    are_bytes(rt, bytes.as_slice(), want);
}
