//! What calls answer, compared as text: what `Debug` prints of an answer, and what stands in a file that is read.
use std::alloc::Global;
use std::fmt::Debug;
use tv_base::{FileSlice, OpenReadError, OwnedBytes};

// Whether a text is the wanted one, in which `..` stands for any words.
fn is_wanted(text: &str, want: &str) -> bool {
    match want.split_once("..") {
        Some((front, back)) => text.starts_with(front) && text.ends_with(back),
        None => text == want,
    }
}

// Prints both texts where the one isn't wanted.
fn show<R: Eprint>(rt: &R, text: &str, want: &str, is_so: bool) -> bool {
    if !is_so {
        drop(eprintln!(rt; "told:   {text}\nwanted: {want}"));
    }
    is_so
}

/// Whether `Debug` prints this answer so. `..` stands for words that are free, or those of the operating system.
pub fn told<R: Eprint, A: Debug + Drop>(rt: &R, alloc: Global, answer: A, want: &str) -> bool {
    match format!(in alloc; "{answer:?}") {
        Ok(text) => show(rt, text.as_str(), want, is_wanted(text.as_str(), want)),
        Err(_error) => false,
    }
}

/// Bytes that a read gave.
pub trait Bytes {
    fn bytes(&self) -> &[u8];
}

impl Bytes for Vec<u8> {
    fn bytes(&self) -> &[u8] {
        self.as_slice()
    }
}

impl Bytes for OwnedBytes {
    fn bytes(&self) -> &[u8] {
        self.as_slice()
    }
}

/// Whether bytes are those of the text.
pub(crate) fn are_those<R: Eprint>(rt: &R, bytes: &[u8], want: &str) -> bool {
    let text = str::from_utf8(bytes).unwrap_or("bytes that are no text");
    show(rt, text, want, bytes == want.as_bytes())
}

/// Whether a read gave the bytes of this text, or an error of which `Debug` prints this.
pub fn reads<R: Eprint, B: Bytes + Drop, E: Debug + Drop>(
    rt: &R,
    alloc: Global,
    answer: Result<B, E>,
    want: &str,
) -> bool {
    match answer {
        Ok(bytes) => are_those(rt, bytes.bytes(), want),
        Err(error) => told(rt, alloc, Err::<(), E>(error), want),
    }
}

/// What stands in a file, if it was opened.
pub fn whole(file: Result<FileSlice, OpenReadError>) -> Result<OwnedBytes, OpenReadError> {
    Ok(file?.read_bytes()?)
}

/// What came of a call, without the value that it gave.
pub fn done<T: Drop, E>(answer: Result<T, E>) -> Result<(), E> {
    match answer {
        Ok(_value) => Ok(()),
        Err(error) => Err(error),
    }
}
