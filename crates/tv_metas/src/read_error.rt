//! Why a text or a tree is not read.
ghost use Rattle.std.specs.Prelude.{◌≡◌};

use std::alloc::{AllocError, AllocFailed};
use tv_formats::Memory;

/// Why a text or a tree is not read.
#[derive(Drop)]
pub(crate) enum ReadError {
    /// It is not of its form.
    Corrupt,
    /// Memory was wanted.
    Memory,
}

impl From<AllocError> for ReadError {
    ghost use Rattle.tv_metas.specs.declared.read_error.ReadError.TheVariants.{Memory};

    ghost from_gives = { λ _ e. e ≡ Memory };

    fn from(_error: AllocError) -> ReadError {
        ReadError::Memory
    }
}

impl<T: Drop> From<AllocFailed<T>> for ReadError {
    ghost use Rattle.tv_metas.specs.declared.read_error.ReadError.TheVariants.{Memory};

    ghost from_gives = { λ _ e. e ≡ Memory };

    fn from(_error: AllocFailed<T>) -> ReadError {
        ReadError::Memory
    }
}

impl From<Memory> for ReadError {
    ghost use Rattle.tv_metas.specs.declared.read_error.ReadError.TheVariants.{Memory};

    ghost from_gives = { λ _ e. e ≡ Memory };

    fn from(_error: Memory) -> ReadError {
        ReadError::Memory
    }
}
