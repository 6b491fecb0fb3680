//! The errors of a directory's calls.
ghost use Rattle.std.specs.Prelude.{◌≡◌};

use crate::io::IoFault;
use crate::versions::Incompatibility;
use std::alloc::{AllocError, AllocFailed};
use thiserror::Error;
use tv_formats::Memory;

/// Why a lock was not acquired. `Memory` is own, the other variants are tantivy's.
#[derive(Debug, Drop, Error)]
pub enum LockError {
    /// Somebody holds it.
    #[error("Could not acquire lock as it is already held, possibly by a different process.")]
    LockBusy,
    /// The device refused the call.
    #[error("Failed to acquire the lock due to an io:Error.")]
    IoError(IoFault),
    /// Memory was wanted. The lock was not taken.
    #[error("Memory")]
    Memory,
}

/// Why a directory was not opened. The `String` is the folder's path. `Memory` is own, the other variants are
/// tantivy's.
#[derive(Debug, Drop, Error)]
pub enum OpenDirectoryError {
    /// No folder has this path.
    #[error("Directory does not exist: '{0}'.")]
    DoesNotExist(String),
    /// What has this path is no folder.
    #[error("Path exists but is not a directory: '{0}'.")]
    NotADirectory(String),
    /// A folder for a while was not made. No call makes this error.
    #[error("Failed to create a temporary directory: '{0}'.")]
    FailedToCreateTempDir(IoFault),
    /// The device refused the call.
    #[error("IoError '{io_error:?}' while create directory in: '{directory_path:?}'.")]
    IoError {
        /// What the device answered.
        io_error: IoFault,
        /// The path of the folder.
        directory_path: String,
    },
    /// Memory was wanted.
    #[error("Memory")]
    Memory,
}

/// Why a file was not made. The `String` is the file's name. `Leaving` and `Memory` are own, the other variants
/// are tantivy's.
#[derive(Debug, Drop, Error)]
pub enum OpenWriteError {
    /// A file of this name is there. It is left alone.
    #[error("File already exists: '{0}'")]
    FileAlreadyExists(String),
    /// A collection that is under way holds this name.
    #[error("Leaving")]
    Leaving(String),
    /// The device refused the call.
    #[error("IoError '{io_error:?}' while opening file for write: '{filepath}'.")]
    IoError {
        /// What the device answered.
        io_error: IoFault,
        /// The name of the file.
        filepath: String,
    },
    /// Memory was wanted.
    #[error("Memory")]
    Memory,
}

/// Why a file was not read. The `String` is the file's name. `Memory` is own, the other variants are tantivy's.
#[derive(Debug, Drop, Error)]
pub enum OpenReadError {
    /// No file has this name.
    #[error("Files does not exist: {0:?}")]
    FileDoesNotExist(String),
    /// The device refused the call, or the file does not end in a footer.
    #[error("IoError: '{io_error:?}' happened while opening the following file for Read: {filepath}.")]
    IoError {
        /// The fault. Its kind says which of the two.
        io_error: IoFault,
        /// The name of the file.
        filepath: String,
    },
    /// The file has a footer of a format that is not read.
    #[error("Index version unsupported: {0:?}")]
    IncompatibleIndex(Incompatibility),
    /// Memory was wanted.
    #[error("Memory")]
    Memory,
}

/// Why a file was not deleted. The `String` is the file's name. `Memory` is own, the other variants are
/// tantivy's.
#[derive(Debug, Drop, Error)]
pub enum DeleteError {
    /// No file has this name.
    #[error("File does not exist: '{0}'.")]
    FileDoesNotExist(String),
    /// The device refused the call. The file is as it was.
    #[error("The following IO error happened while deleting file '{filepath}': '{io_error:?}'.")]
    IoError {
        /// What the device answered.
        io_error: IoFault,
        /// The name of the file.
        filepath: String,
    },
    /// Memory was wanted. The file is as it was.
    #[error("Memory")]
    Memory,
}

impl LockError {
    /// That the device refused a call.
    pub fn wrap_io_error(io_error: IoFault) -> LockError
        ensures wrapped { result ≡ LockError.IoError io_error }
    {
        LockError::IoError(io_error)
    }
}

impl OpenDirectoryError {
    /// That the device refused a call, at this directory.
    pub fn wrap_io_error(io_error: IoFault, directory_path: String) -> OpenDirectoryError
        ensures wrapped { result ≡ OpenDirectoryError.IoError io_error directory_path }
    {
        OpenDirectoryError::IoError {
            io_error,
            directory_path,
        }
    }
}

impl OpenWriteError {
    /// That the device refused a call, at this file.
    pub fn wrap_io_error(io_error: IoFault, filepath: String) -> OpenWriteError
        ensures wrapped { result ≡ OpenWriteError.IoError io_error filepath }
    {
        OpenWriteError::IoError { io_error, filepath }
    }
}

impl OpenReadError {
    /// That the device refused a call, at this file.
    pub fn wrap_io_error(io_error: IoFault, filepath: String) -> OpenReadError
        ensures wrapped { result ≡ OpenReadError.IoError io_error filepath }
    {
        OpenReadError::IoError { io_error, filepath }
    }
}

impl From<AllocError> for OpenWriteError {
    ghost use Rattle.tv_base.specs.declared.open_errors.OpenWriteError.TheVariants.{Memory};

    ghost from_gives = { λ _ e. e ≡ Memory };

    fn from(_error: AllocError) -> OpenWriteError {
        OpenWriteError::Memory
    }
}

impl<T: Drop> From<AllocFailed<T>> for OpenWriteError {
    ghost use Rattle.tv_base.specs.declared.open_errors.OpenWriteError.TheVariants.{Memory};

    ghost from_gives = { λ _ e. e ≡ Memory };

    fn from(_error: AllocFailed<T>) -> OpenWriteError {
        OpenWriteError::Memory
    }
}

impl From<Memory> for OpenWriteError {
    ghost use Rattle.tv_base.specs.declared.open_errors.OpenWriteError.TheVariants.{Memory};

    ghost from_gives = { λ _ e. e ≡ Memory };

    fn from(_error: Memory) -> OpenWriteError {
        OpenWriteError::Memory
    }
}

impl From<AllocError> for OpenReadError {
    ghost use Rattle.tv_base.specs.declared.open_errors.OpenReadError.TheVariants.{Memory};

    ghost from_gives = { λ _ e. e ≡ Memory };

    fn from(_error: AllocError) -> OpenReadError {
        OpenReadError::Memory
    }
}

impl<T: Drop> From<AllocFailed<T>> for OpenReadError {
    ghost use Rattle.tv_base.specs.declared.open_errors.OpenReadError.TheVariants.{Memory};

    ghost from_gives = { λ _ e. e ≡ Memory };

    fn from(_error: AllocFailed<T>) -> OpenReadError {
        OpenReadError::Memory
    }
}

impl From<Memory> for OpenReadError {
    ghost use Rattle.tv_base.specs.declared.open_errors.OpenReadError.TheVariants.{Memory};

    ghost from_gives = { λ _ e. e ≡ Memory };

    fn from(_error: Memory) -> OpenReadError {
        OpenReadError::Memory
    }
}

impl From<Incompatibility> for OpenReadError {
    ghost use Rattle.tv_base.specs.declared.open_errors.OpenReadError.TheVariants.{IncompatibleIndex};

    ghost from_gives = { λ why e. e ≡ IncompatibleIndex why };

    fn from(why: Incompatibility) -> OpenReadError {
        OpenReadError::IncompatibleIndex(why)
    }
}
