//! Why no consistency point was planned.

use buffers::BlockError;
use std::alloc::{AllocError, AllocFailed};
use thiserror::Error;

/// Why a point was not planned. Nothing was written. The numbers are those of the file system's
/// inner refusals.
#[derive(Clone, Copy, Debug, PartialEq, Eq, Error)]
pub enum PlanError {
    #[error("no memory")]
    NoMemory = 1,
    /// A read failed.
    #[error("a device call failed")]
    Device = 2,
    /// No block is left that the settled root doesn't need.
    #[error("no space")]
    NoSpace = 5,
    /// A block that had to be read is outside its format.
    #[error("a block is outside the format")]
    Damaged = 11,
}

impl From<AllocError> for PlanError {
    ghost use Rattle.std.specs.Prelude.{◌≡◌};
    ghost use Rattle.conspoint.specs.declared.error.PlanError.TheVariants.{NoMemory};

    ghost from_gives = { λ _ e. e ≡ NoMemory };

    fn from(_: AllocError) -> PlanError {
        PlanError::NoMemory
    }
}

impl<T: Drop> From<AllocFailed<T>> for PlanError {
    ghost use Rattle.std.specs.Prelude.{◌≡◌};
    ghost use Rattle.conspoint.specs.declared.error.PlanError.TheVariants.{NoMemory};

    ghost from_gives = { λ _ e. e ≡ NoMemory };

    fn from(_: AllocFailed<T>) -> PlanError {
        PlanError::NoMemory
    }
}

impl From<BlockError> for PlanError {
    ghost use Rattle.std.specs.Prelude.{◌≡◌};
    ghost use Rattle.conspoint.specs.Errors.{plan_error};

    ghost from_gives = { λ r e. e ≡ plan_error r };

    fn from(error: BlockError) -> PlanError {
        match error {
            BlockError::NoMemory => PlanError::NoMemory,
            BlockError::Device => PlanError::Device,
            BlockError::Damaged => PlanError::Damaged,
        }
    }
}
