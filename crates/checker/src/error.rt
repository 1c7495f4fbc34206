//! Why an image isn't checked to its end.

use crate::Fault;
use buffers::BlockError;
use std::alloc::{AllocError, AllocFailed};
use thiserror::Error;

/// Why a check ends without a report.
#[derive(Clone, Copy, Debug, PartialEq, Eq, Error)]
pub enum CheckError {
    #[error("no memory")]
    NoMemory = 1,
    /// A device call failed.
    #[error("a device call failed")]
    Device = 2,
}

/// Why a part of a check ends: there is no report, or a fault is found.
#[derive(Clone, Copy, Debug)]
pub(crate) enum CheckEnd {
    NoMemory,
    Device,
    Fault(Fault),
}

impl From<AllocError> for CheckError {
    ghost use Rattle.std.specs.Prelude.{◌≡◌};
    ghost use Rattle.checker.specs.declared.error.CheckError.TheVariants.{NoMemory};

    ghost from_gives = { λ _ e. e ≡ NoMemory };

    fn from(_: AllocError) -> CheckError {
        CheckError::NoMemory
    }
}

impl<T: Drop> From<AllocFailed<T>> for CheckError {
    ghost use Rattle.std.specs.Prelude.{◌≡◌};
    ghost use Rattle.checker.specs.declared.error.CheckError.TheVariants.{NoMemory};

    ghost from_gives = { λ _ e. e ≡ NoMemory };

    fn from(_: AllocFailed<T>) -> CheckError {
        CheckError::NoMemory
    }
}

impl From<AllocError> for CheckEnd {
    ghost use Rattle.std.specs.Prelude.{◌≡◌};
    ghost use Rattle.checker.specs.declared.error.CheckEnd.TheVariants.{NoMemory};

    ghost from_gives = { λ _ e. e ≡ NoMemory };

    fn from(_: AllocError) -> CheckEnd {
        CheckEnd::NoMemory
    }
}

impl<T: Drop> From<AllocFailed<T>> for CheckEnd {
    ghost use Rattle.std.specs.Prelude.{◌≡◌};
    ghost use Rattle.checker.specs.declared.error.CheckEnd.TheVariants.{NoMemory};

    ghost from_gives = { λ _ e. e ≡ NoMemory };

    fn from(_: AllocFailed<T>) -> CheckEnd {
        CheckEnd::NoMemory
    }
}

impl From<CheckError> for CheckEnd {
    ghost use Rattle.std.specs.Prelude.{◌≡◌};
    ghost use Rattle.checker.specs.Errors.{halt};

    ghost from_gives = { λ c e. e ≡ halt c };

    fn from(error: CheckError) -> CheckEnd {
        match error {
            CheckError::NoMemory => CheckEnd::NoMemory,
            CheckError::Device => CheckEnd::Device,
        }
    }
}

/// What was read, where a block outside its grammar is this fault.
pub(crate) fn or_fault<T>(read: Result<T, BlockError>, fault: Fault) -> Result<T, CheckEnd>
    ensures { OrFault fault read result }
{
    match read {
        Ok(value) => Ok(value),
        Err(BlockError::NoMemory) => Err(CheckEnd::NoMemory),
        Err(BlockError::Device) => Err(CheckEnd::Device),
        Err(BlockError::Damaged) => Err(CheckEnd::Fault(fault)),
    }
}

/// What a part of a check comes to: a fault, or none.
pub(crate) fn fault_of(done: Result<(), CheckEnd>) -> Result<Option<Fault>, CheckError>
    ensures { TellsFault done result }
{
    match done {
        Ok(()) => Ok(None),
        Err(CheckEnd::NoMemory) => Err(CheckError::NoMemory),
        Err(CheckEnd::Device) => Err(CheckError::Device),
        Err(CheckEnd::Fault(fault)) => Ok(Some(fault)),
    }
}

ghost use Rattle.checker.specs.Errors.{OrFault, TellsFault};
