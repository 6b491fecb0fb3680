//! The contents of files, and parts of them, which several owners share.
ghost use Rattle.std.specs.Prelude.{◌≡◌, ◌-◌, ◌≤◌, [], length, take, drop, slice_range, IfOk};

use bytes::Bytes;
use std::marker::Model;
use std::ops::Range;
use tv_formats::Memory;

/// Bytes that have several owners. A share copies none of them.
#[derive(Drop)]
pub struct OwnedBytes(Bytes);

impl Model for OwnedBytes {
    ghost use Rattle.std.specs.Prelude.{ℕ, List};

    ghost Value = { List ℕ };

    ghost view = { λ b. b.0 };
}

impl OwnedBytes {
    /// The bytes of a vector, which aren't copied. Takes memory for the count of owners.
    pub fn new(bytes: Vec<u8>) -> Result<OwnedBytes, Memory>
        ensures bytes { IfOk result (λ b. b ≡ bytes.items) }
    {
        Ok(OwnedBytes(Bytes::from_vec(bytes)?))
    }

    /// No bytes. Takes no memory.
    pub fn empty() -> OwnedBytes
        ensures bytes { result ≡ [] }
    {
        OwnedBytes(Bytes::new())
    }

    /// The bytes. Takes no memory.
    pub fn as_slice(&self) -> &[u8]
        ensures bytes { result.now ≡ self.now }
    {
        self.0.as_slice()
    }

    /// How many bytes there are. Takes no memory.
    pub fn len(&self) -> usize
        ensures length { result ≡ length self.now }
    {
        self.0.len()
    }

    /// One more owner of the same bytes.
    pub fn share(&self) -> Result<OwnedBytes, Memory>
        ensures bytes { IfOk result (λ b. b ≡ self.now) }
    {
        Ok(OwnedBytes(self.0.clone()?))
    }
}

/// A part of a file's bytes. Ranges are counted from the start of the part.
#[derive(Drop)]
pub struct FileSlice(Bytes);

impl Model for FileSlice {
    ghost use Rattle.std.specs.Prelude.{ℕ, List};

    ghost Value = { List ℕ };

    ghost view = { λ s. s.0 };
}

impl FileSlice {
    /// All of these bytes. Takes no memory.
    pub fn new(bytes: OwnedBytes) -> FileSlice
        ensures bytes { result ≡ bytes }
    {
        FileSlice(bytes.0)
    }

    /// No bytes. Takes no memory.
    pub fn empty() -> FileSlice
        ensures bytes { result ≡ [] }
    {
        FileSlice(Bytes::new())
    }

    /// How many bytes there are. Takes no memory.
    pub fn len(&self) -> usize
        ensures length { result ≡ length self.now }
    {
        self.0.len()
    }

    /// The bytes from the start of the range up to its end, which isn't part of it.
    pub fn slice(&self, range: Range<usize>) -> Result<FileSlice, Memory>
        requires order { range.start ≤ range.end }
        requires inside { range.end ≤ length self.now }
        ensures bytes { IfOk result (λ s. s ≡ slice_range self.now range.start range.end) }
    {
        Ok(FileSlice(self.0.slice(range)?))
    }

    /// The bytes without the first `from` ones.
    pub fn slice_from(&self, from: usize) -> Result<FileSlice, Memory>
        requires inside { from ≤ length self.now }
        ensures bytes { IfOk result (λ s. s ≡ drop from self.now) }
    {
        Ok(FileSlice(self.0.slice(from..)?))
    }

    /// The first `to` bytes.
    pub fn slice_to(&self, to: usize) -> Result<FileSlice, Memory>
        requires inside { to ≤ length self.now }
        ensures bytes { IfOk result (λ s. s ≡ take to self.now) }
    {
        Ok(FileSlice(self.0.slice(..to)?))
    }

    /// The last `count` bytes.
    pub fn slice_from_end(&self, count: usize) -> Result<FileSlice, Memory>
        requires inside { count ≤ length self.now }
        ensures bytes { IfOk result (λ s. s ≡ drop (length self.now - count) self.now) }
    {
        self.slice_from(self.len() - count)
    }

    /// The bytes, which aren't copied.
    pub fn read_bytes(&self) -> Result<OwnedBytes, Memory>
        ensures bytes { IfOk result (λ b. b ≡ self.now) }
    {
        Ok(OwnedBytes(self.0.clone()?))
    }

    /// One more owner of the same part.
    pub fn share(&self) -> Result<FileSlice, Memory>
        ensures bytes { IfOk result (λ s. s ≡ self.now) }
    {
        Ok(FileSlice(self.0.clone()?))
    }
}
