//! Why a change of a file was not prepared.

use buffers::BlockError;
use std::alloc::{AllocError, AllocFailed};
use thiserror::Error;

/// Why preparing a change was refused.
#[derive(Clone, Copy, Debug, PartialEq, Eq, Error)]
pub enum ChangeError {
    #[error("no memory")]
    NoMemory = 1,
    /// A device call failed.
    #[error("a device call failed")]
    Device = 2,
    /// The file would be greater than the greatest file.
    #[error("the file would be too big")]
    TooBig = 3,
    /// A pointer leads past the disk, or an indirect block is out of its grammar.
    #[error("a file's blocks are outside the format")]
    Damaged = 11,
}

impl From<AllocError> for ChangeError {
    ghost use Rattle.std.specs.Prelude.{◌≡◌};
    ghost use Rattle.inode.specs.declared.error.ChangeError.TheVariants.{NoMemory};

    ghost from_gives = { λ _ e. e ≡ NoMemory };

    fn from(_: AllocError) -> ChangeError {
        ChangeError::NoMemory
    }
}

impl<T: Drop> From<AllocFailed<T>> for ChangeError {
    ghost use Rattle.std.specs.Prelude.{◌≡◌};
    ghost use Rattle.inode.specs.declared.error.ChangeError.TheVariants.{NoMemory};

    ghost from_gives = { λ _ e. e ≡ NoMemory };

    fn from(_: AllocFailed<T>) -> ChangeError {
        ChangeError::NoMemory
    }
}

impl From<BlockError> for ChangeError {
    ghost use Rattle.std.specs.Prelude.{◌≡◌};
    ghost use Rattle.inode.specs.Errors.{change_error};

    ghost from_gives = { λ r e. e ≡ change_error r };

    fn from(error: BlockError) -> ChangeError {
        match error {
            BlockError::NoMemory => ChangeError::NoMemory,
            BlockError::Device => ChangeError::Device,
            BlockError::Damaged => ChangeError::Damaged,
        }
    }
}
