//! The error of the library.
ghost use Rattle.std.specs.Prelude.{◌≡◌};
ghost use Rattle.tv_base.specs.Errors.{of_io, of_lock, of_open_directory, of_open_read, of_open_write};

use crate::io::{IoError, IoFault};
use crate::open_errors::{LockError, OpenDirectoryError, OpenReadError, OpenWriteError};
use crate::versions::Incompatibility;
use std::alloc::{AllocError, AllocFailed};
use std::error::Error;
use std::fmt;
use tv_formats::Memory;

/// Bytes that are not what they should be, and in which file.
#[derive(Drop)]
pub struct DataCorruption {
    /// The name of the file, if it was one.
    pub filepath: Option<String>,
    /// What is wrong with the bytes.
    pub comment: String,
}

impl DataCorruption {
    /// In this file.
    pub fn new(filepath: String, comment: String) -> DataCorruption
        ensures { result ≡ record { filepath = Some filepath; comment = comment } }
    {
        DataCorruption {
            filepath: Some(filepath),
            comment,
        }
    }

    /// In no file.
    pub fn comment_only(comment: String) -> DataCorruption
        ensures { result ≡ record { filepath = None; comment = comment } }
    {
        DataCorruption {
            filepath: None,
            comment,
        }
    }
}

impl fmt::Debug for DataCorruption {
    fn fmt<W: fmt::Write>(&self, f: &mut fmt::Formatter<W>) -> fmt::Result {
        f.write_str("Data corruption")?;
        if let Some(filepath) = &self.filepath {
            write!(f, " (in file `{filepath:?}`)")?;
        }
        let comment = self.comment.as_str();
        write!(f, ": {comment}.")
    }
}

/// What a call of the library may answer in place of its result.
///
/// The variants and their texts are those of tantivy, but for the last three. Some of tantivy's are made by no
/// call here, and stay so that a `match` which names them stays right.
#[derive(Debug, Drop)]
pub enum TantivyError {
    /// A directory was not opened.
    OpenDirectoryError(OpenDirectoryError),
    /// A file was not read: it is absent, its footer is not read, or the device refused it.
    OpenReadError(OpenReadError),
    /// A file was not made.
    OpenWriteError(OpenWriteError),
    /// An index stands where one was to be made.
    IndexAlreadyExists,
    /// A lock was not taken. The text is `None`; tantivy has one here.
    LockFailure(LockError, Option<String>),
    /// The device refused a call, or bytes can't be read, where no file is named.
    IoError(IoFault),
    /// A file of an index is not of its form.
    DataCorruption(DataCorruption),
    /// A thread panicked. No call makes it: none panics.
    Poisoned,
    /// The schema lacks the field of this name. No call makes it.
    FieldNotFound(String),
    /// An argument is not of its form, and what is wrong with it.
    InvalidArgument(String),
    /// A thread failed. No call makes it.
    ErrorInThread(String),
    /// The argument of this name is missing.
    IndexBuilderMissingArgument(String),
    /// The schema of an index is another one.
    SchemaError(String),
    /// The sender of a `FutureResult` is gone: the message with which that was made.
    SystemError(String),
    /// A file of another version. No call makes it: a read answers `OpenReadError`.
    IncompatibleIndex(Incompatibility),
    /// The library contradicts itself. No call makes it.
    InternalError(String),
    /// The segment id that was handed in is used already.
    IdInUse(String),
    /// A number can't be counted further, or a script has more lines than can be counted.
    Exhausted,
    /// Memory was wanted. The call says what it left.
    Memory,
}

impl TantivyError {
    // The text before what it holds.
    fn before(&self) -> &'static str {
        match self {
            TantivyError::OpenDirectoryError(_) => "Failed to open the directory: '",
            TantivyError::OpenReadError(_) => "Failed to open file for read: '",
            TantivyError::OpenWriteError(_) => "Failed to open file for write: '",
            TantivyError::IndexAlreadyExists => "Index already exists",
            TantivyError::LockFailure(_, _) => "Failed to acquire Lockfile: ",
            TantivyError::IoError(_) => "An IO error occurred: '",
            TantivyError::DataCorruption(_) => "Data corrupted: '",
            TantivyError::Poisoned => "A thread holding the locked panicked and poisoned the lock",
            TantivyError::FieldNotFound(_) => "The field does not exist: '",
            TantivyError::InvalidArgument(_) => "An invalid argument was passed: '",
            TantivyError::ErrorInThread(_) => "An error occurred in a thread: '",
            TantivyError::IndexBuilderMissingArgument(_) => {
                "Missing required index builder argument when open/create index: '"
            }
            TantivyError::SchemaError(_) => "Schema error: '",
            TantivyError::SystemError(_) => "System error.'",
            TantivyError::IncompatibleIndex(_) => "",
            TantivyError::InternalError(_) => "Internal error: '",
            TantivyError::IdInUse(_) => "IdInUse",
            TantivyError::Exhausted => "Exhausted",
            TantivyError::Memory => "Memory",
        }
    }

    // The text that it holds, where it shows one as it stands.
    fn text(&self) -> Option<&String> {
        match self {
            TantivyError::FieldNotFound(text)
            | TantivyError::InvalidArgument(text)
            | TantivyError::ErrorInThread(text)
            | TantivyError::IndexBuilderMissingArgument(text)
            | TantivyError::SchemaError(text)
            | TantivyError::SystemError(text)
            | TantivyError::InternalError(text) => Some(text),
            _ => None,
        }
    }

    // Whether what it holds stands in quotes.
    fn is_quoted(&self) -> bool {
        matches!(
            self,
            TantivyError::OpenDirectoryError(_)
                | TantivyError::OpenReadError(_)
                | TantivyError::OpenWriteError(_)
                | TantivyError::IoError(_)
                | TantivyError::DataCorruption(_)
        ) || self.text().is_some()
    }

    // Writes what it holds.
    fn held<W: fmt::Write>(&self, f: &mut fmt::Formatter<W>) -> fmt::Result {
        match self {
            TantivyError::OpenDirectoryError(error) => fmt::Debug::fmt(error, f),
            TantivyError::OpenReadError(error) => fmt::Debug::fmt(error, f),
            TantivyError::OpenWriteError(error) => fmt::Debug::fmt(error, f),
            TantivyError::LockFailure(error, text) => write!(f, "{error:?}. {text:?}"),
            TantivyError::IoError(fault) => fmt::Display::fmt(fault, f),
            TantivyError::DataCorruption(error) => fmt::Debug::fmt(error, f),
            TantivyError::IncompatibleIndex(error) => fmt::Debug::fmt(error, f),
            other => f.write_str(other.text().map_or("", |text| text.as_str())),
        }
    }
}

// By hand and not by `thiserror`: a derived text of nineteen variants is dear to prove.
impl fmt::Display for TantivyError {
    fn fmt<W: fmt::Write>(&self, f: &mut fmt::Formatter<W>) -> fmt::Result {
        f.write_str(self.before())?;
        self.held(f)?;
        f.write_str(if self.is_quoted() { "'" } else { "" })
    }
}

impl Error for TantivyError {}

impl From<AllocError> for TantivyError {
    ghost use Rattle.tv_base.specs.declared.error.TantivyError.TheVariants.{Memory};

    ghost from_gives = { λ _ e. e ≡ Memory };

    fn from(_error: AllocError) -> TantivyError {
        TantivyError::Memory
    }
}

impl<T: Drop> From<AllocFailed<T>> for TantivyError {
    ghost use Rattle.tv_base.specs.declared.error.TantivyError.TheVariants.{Memory};

    ghost from_gives = { λ _ e. e ≡ Memory };

    fn from(_error: AllocFailed<T>) -> TantivyError {
        TantivyError::Memory
    }
}

impl From<Memory> for TantivyError {
    ghost use Rattle.tv_base.specs.declared.error.TantivyError.TheVariants.{Memory};

    ghost from_gives = { λ _ e. e ≡ Memory };

    fn from(_error: Memory) -> TantivyError {
        TantivyError::Memory
    }
}

impl From<IoFault> for TantivyError {
    ghost use Rattle.tv_base.specs.declared.error.TantivyError.TheVariants.{IoError};

    ghost from_gives = { λ fault e. e ≡ IoError fault };

    fn from(fault: IoFault) -> TantivyError {
        TantivyError::IoError(fault)
    }
}

impl From<IoError> for TantivyError {
    ghost from_gives = { λ from e. e ≡ of_io from };

    fn from(error: IoError) -> TantivyError {
        match error {
            IoError::Fault(fault) => TantivyError::IoError(fault),
            IoError::Memory => TantivyError::Memory,
        }
    }
}

impl From<DataCorruption> for TantivyError {
    ghost use Rattle.tv_base.specs.declared.error.TantivyError.TheVariants.{DataCorruption};

    ghost from_gives = { λ from e. e ≡ DataCorruption from };

    fn from(error: DataCorruption) -> TantivyError {
        TantivyError::DataCorruption(error)
    }
}

impl From<LockError> for TantivyError {
    ghost from_gives = { λ from e. e ≡ of_lock from };

    fn from(error: LockError) -> TantivyError {
        match error {
            LockError::Memory => TantivyError::Memory,
            other => TantivyError::LockFailure(other, None),
        }
    }
}

impl From<OpenDirectoryError> for TantivyError {
    ghost from_gives = { λ from e. e ≡ of_open_directory from };

    fn from(error: OpenDirectoryError) -> TantivyError {
        match error {
            OpenDirectoryError::Memory => TantivyError::Memory,
            other => TantivyError::OpenDirectoryError(other),
        }
    }
}

impl From<OpenReadError> for TantivyError {
    ghost from_gives = { λ from e. e ≡ of_open_read from };

    fn from(error: OpenReadError) -> TantivyError {
        match error {
            OpenReadError::Memory => TantivyError::Memory,
            other => TantivyError::OpenReadError(other),
        }
    }
}

impl From<OpenWriteError> for TantivyError {
    ghost from_gives = { λ from e. e ≡ of_open_write from };

    fn from(error: OpenWriteError) -> TantivyError {
        match error {
            OpenWriteError::Memory => TantivyError::Memory,
            other => TantivyError::OpenWriteError(other),
        }
    }
}
