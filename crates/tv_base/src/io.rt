//! Faults of a device.
ghost use Rattle.std.specs.Prelude.{◌≡◌, string_bytes, Some};

use std::alloc::{AllocError, AllocFailed};
use std::fmt;
use thiserror::Error;
use tv_formats::Memory;

/// Of what kind a fault is.
#[derive(Clone, Copy, Debug, PartialEq, Eq)]
pub enum IoKind {
    /// The device refused a call.
    Device,
    /// A file ends too early.
    UnexpectedEof,
    /// The bytes of a file are not of the form that they should have.
    InvalidData,
}

/// A refused call, or bytes that can't be read. Stands for `std::io::Error`.
#[derive(Debug, Drop)]
pub struct IoFault {
    /// Whether the device refused a call, or what is wrong with the bytes.
    pub kind: IoKind,
    /// What is wrong, or nothing.
    pub text: String,
}

impl fmt::Display for IoFault {
    ghost output = { λ f. Some (string_bytes f.text) };

    fn fmt<W: fmt::Write>(&self, f: &mut fmt::Formatter<W>) -> fmt::Result {
        f.write_str(self.text.as_str())
    }
}

impl std::error::Error for IoFault {}

/// A fault, or want of memory.
#[derive(Debug, Drop, Error)]
pub enum IoError {
    /// A refused call, or bytes that can't be read.
    #[error("{0}")]
    Fault(IoFault),
    /// Memory was wanted.
    #[error("Memory")]
    Memory,
}

impl From<AllocError> for IoError {
    ghost use Rattle.tv_base.specs.declared.io.IoError.TheVariants.{Memory};

    ghost from_gives = { λ _ e. e ≡ Memory };

    fn from(_error: AllocError) -> IoError {
        IoError::Memory
    }
}

impl<T: Drop> From<AllocFailed<T>> for IoError {
    ghost use Rattle.tv_base.specs.declared.io.IoError.TheVariants.{Memory};

    ghost from_gives = { λ _ e. e ≡ Memory };

    fn from(_error: AllocFailed<T>) -> IoError {
        IoError::Memory
    }
}

impl From<Memory> for IoError {
    ghost use Rattle.tv_base.specs.declared.io.IoError.TheVariants.{Memory};

    ghost from_gives = { λ _ e. e ≡ Memory };

    fn from(_error: Memory) -> IoError {
        IoError::Memory
    }
}

impl From<IoFault> for IoError {
    ghost use Rattle.tv_base.specs.declared.io.IoError.TheVariants.{Fault};

    ghost from_gives = { λ fault e. e ≡ Fault fault };

    fn from(fault: IoFault) -> IoError {
        IoError::Fault(fault)
    }
}
