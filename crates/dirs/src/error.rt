//! Why a name was not added.

use buffers::BlockError;
use std::alloc::{AllocError, AllocFailed};
use thiserror::Error;

/// Why a name was not added to a directory.
#[derive(Clone, Copy, Debug, PartialEq, Eq, Error)]
pub enum AddError {
    #[error("no memory")]
    NoMemory = 1,
    /// A device call failed.
    #[error("a device call failed")]
    Device = 2,
    /// A block of the directory, or one that leads to it, is out of its grammar.
    #[error("a directory's blocks are outside the format")]
    Damaged = 11,
    /// The directory has as many names as one may have.
    #[error("the directory is full")]
    DirFull = 12,
}

impl From<AllocError> for AddError {
    ghost use Rattle.std.specs.Prelude.{◌≡◌};
    ghost use Rattle.dirs.specs.declared.error.AddError.TheVariants.{NoMemory};

    ghost from_gives = { λ _ e. e ≡ NoMemory };

    fn from(_: AllocError) -> AddError {
        AddError::NoMemory
    }
}

impl<T: Drop> From<AllocFailed<T>> for AddError {
    ghost use Rattle.std.specs.Prelude.{◌≡◌};
    ghost use Rattle.dirs.specs.declared.error.AddError.TheVariants.{NoMemory};

    ghost from_gives = { λ _ e. e ≡ NoMemory };

    fn from(_: AllocFailed<T>) -> AddError {
        AddError::NoMemory
    }
}

impl From<BlockError> for AddError {
    ghost use Rattle.std.specs.Prelude.{◌≡◌};
    ghost use Rattle.dirs.specs.Errors.{add_error};

    ghost from_gives = { λ r e. e ≡ add_error r };

    fn from(error: BlockError) -> AddError {
        match error {
            BlockError::NoMemory => AddError::NoMemory,
            BlockError::Device => AddError::Device,
            BlockError::Damaged => AddError::Damaged,
        }
    }
}
