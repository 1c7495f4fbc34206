//! Why a block was not read, or not stored.

use std::alloc::{AllocError, AllocFailed};
use thiserror::Error;

/// Why a block, or what blocks hold, was not read or not stored.
#[derive(Clone, Copy, Debug, PartialEq, Eq, Error)]
pub enum BlockError {
    #[error("no memory")]
    NoMemory = 1,
    /// A device call failed.
    #[error("a device call failed")]
    Device = 2,
    /// A sector of a block can't be read, a pointer leads past the disk, or a block is out of its
    /// grammar.
    #[error("a block is outside the format")]
    Damaged = 11,
}

impl From<AllocError> for BlockError {
    ghost use Rattle.std.specs.Prelude.{◌≡◌};
    ghost use Rattle.buffers.specs.declared.error.BlockError.TheVariants.{NoMemory};

    ghost from_gives = { λ _ e. e ≡ NoMemory };

    fn from(_: AllocError) -> BlockError {
        BlockError::NoMemory
    }
}

impl<T: Drop> From<AllocFailed<T>> for BlockError {
    ghost use Rattle.std.specs.Prelude.{◌≡◌};
    ghost use Rattle.buffers.specs.declared.error.BlockError.TheVariants.{NoMemory};

    ghost from_gives = { λ _ e. e ≡ NoMemory };

    fn from(_: AllocFailed<T>) -> BlockError {
        BlockError::NoMemory
    }
}
