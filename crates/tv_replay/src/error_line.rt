//! The line that a run tells or says of an error.
ghost use Rattle.std.specs.Prelude.{◌≡◌, ◌++◌, IfOk};
ghost use Rattle.tv_replay.specs.ErrorLines.{argument_line, io_line, format_line, lock_line, read_line, write_line, corrupt_line, error_line};

use std::alloc::Global;
use tv_base::{Incompatibility, IoKind, LockError, OpenReadError, OpenWriteError, TantivyError};
use tv_formats::Memory;

// A line of this text.
fn line(alloc: Global, text: &str) -> Result<Vec<u8>, Memory>
    ensures { IfOk result (λ line. line.items ≡ text.now) }
{
    let line = Vec::from_slice(alloc, text.as_bytes())?;
    Ok(line)
}

// The line of an argument that was refused with this text.
fn argument_line(alloc: Global, text: &str) -> Result<Vec<u8>, Memory>
    ensures { IfOk result (λ line. line.items ≡ argument_line text.now) }
{
    if !text.as_bytes().starts_with(b"line ") {
        return line(alloc, "error argument");
    }
    let mut all = Vec::from_slice(alloc, b"error ")?;
    all.extend_from_slice(text.as_bytes())?;
    Ok(all)
}

// A line of two words.
fn line_of(alloc: Global, text: &str, name: &str) -> Result<Vec<u8>, Memory>
    ensures { IfOk result (λ line. line.items ≡ text.now ++ name.now) }
{
    let mut line = Vec::from_slice(alloc, text.as_bytes())?;
    line.extend_from_slice(name.as_bytes())?;
    Ok(line)
}

// The line of a fault where no file is named.
fn io_line(alloc: Global, kind: IoKind) -> Result<Vec<u8>, Memory>
    ensures { IfOk result (λ line. line.items ≡ io_line kind) }
{
    match kind {
        IoKind::Device => line(alloc, "error io"),
        IoKind::UnexpectedEof | IoKind::InvalidData => line(alloc, "error data"),
    }
}

// The line of a file of another format.
fn format_line(alloc: Global, why: &Incompatibility) -> Result<Vec<u8>, Memory>
    ensures { IfOk result (λ line. line.items ≡ format_line why.now) }
{
    match why {
        Incompatibility::IndexMismatch { index_version, .. } => {
            let mut digits = itoa::Buffer::new();
            line_of(
                alloc,
                "error format ",
                digits.format(index_version.index_format_version),
            )
        }
        Incompatibility::CompressionMismatch { .. } => line(alloc, "error"),
    }
}

// The line of a file that can't be read.
fn read_line(alloc: Global, error: &OpenReadError) -> Result<Vec<u8>, Memory>
    ensures { IfOk result (λ line. line.items ≡ read_line error.now) }
{
    match error {
        OpenReadError::IoError { io_error, filepath } => match io_error.kind {
            IoKind::Device => line(alloc, "error io"),
            IoKind::UnexpectedEof => line_of(alloc, "error footer ", filepath.as_str()),
            IoKind::InvalidData => line_of(alloc, "error footer ", filepath.as_str()),
        },
        OpenReadError::FileDoesNotExist(path) => line_of(alloc, "error missing ", path.as_str()),
        OpenReadError::IncompatibleIndex(why) => format_line(alloc, why),
        OpenReadError::Memory => line(alloc, "error memory"),
    }
}

// The line of a file that can't be made.
fn write_line(alloc: Global, error: &OpenWriteError) -> Result<Vec<u8>, Memory>
    ensures { IfOk result (λ line. line.items ≡ write_line error.now) }
{
    match error {
        OpenWriteError::FileAlreadyExists(path) => line_of(alloc, "error exists ", path.as_str()),
        OpenWriteError::Leaving(_) => line(alloc, "error"),
        OpenWriteError::IoError { io_error, .. } => io_line(alloc, io_error.kind),
        OpenWriteError::Memory => line(alloc, "error memory"),
    }
}

// The line of bytes that aren't of their form.
fn corrupt_line(alloc: Global, filepath: &Option<String>) -> Result<Vec<u8>, Memory>
    ensures { IfOk result (λ line. line.items ≡ corrupt_line filepath.now) }
{
    match filepath {
        Some(path) => line_of(alloc, "error corrupt ", path.as_str()),
        None => line(alloc, "error corrupt"),
    }
}

// The line of a lock that isn't given.
fn lock_line(alloc: Global, why: &LockError) -> Result<Vec<u8>, Memory>
    ensures { IfOk result (λ line. line.items ≡ lock_line why.now) }
{
    match why {
        LockError::LockBusy => line(alloc, "error lock"),
        LockError::IoError(fault) => io_line(alloc, fault.kind),
        LockError::Memory => line(alloc, "error memory"),
    }
}

/// The line of an error.
pub(crate) fn error_line(alloc: Global, error: &TantivyError) -> Result<Vec<u8>, Memory>
    ensures { IfOk result (λ line. line.items ≡ error_line error.now) }
{
    match error {
        TantivyError::IoError(fault) => io_line(alloc, fault.kind),
        TantivyError::OpenWriteError(error) => write_line(alloc, error),
        TantivyError::LockFailure(why, _) => lock_line(alloc, why),
        TantivyError::OpenReadError(error) => read_line(alloc, error),
        TantivyError::OpenDirectoryError(_) => line(alloc, "error folder"),
        TantivyError::InvalidArgument(text) => argument_line(alloc, text.as_str()),
        TantivyError::Exhausted => line(alloc, "error lines"),
        TantivyError::Memory => line(alloc, "error memory"),
        TantivyError::DataCorruption(why) => corrupt_line(alloc, &why.filepath),
        TantivyError::SchemaError(_) => line(alloc, "error schema"),
        _ => line(alloc, "error"),
    }
}
