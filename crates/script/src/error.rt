//! Why a line isn't read or written.

ghost use Rattle.std.specs.Prelude.{◌≡◌};
ghost use Rattle.script.specs.declared.error.ScriptError.TheVariants.{NoMemory};

use std::alloc::{AllocError, AllocFailed};
use thiserror::Error;

/// Why a line isn't read or written.
#[derive(Clone, Copy, Debug, PartialEq, Eq, Error)]
pub enum ScriptError {
    /// No memory was left.
    #[error("no memory")]
    NoMemory = 1,
    /// The line is no command's spelling.
    #[error("not a command")]
    NotACommand = 2,
}

impl From<AllocError> for ScriptError {
    ghost from_gives = { λ _ e. e ≡ NoMemory };

    fn from(_error: AllocError) -> ScriptError {
        ScriptError::NoMemory
    }
}

impl<T: Drop> From<AllocFailed<T>> for ScriptError {
    ghost from_gives = { λ _ e. e ≡ NoMemory };

    fn from(_error: AllocFailed<T>) -> ScriptError {
        ScriptError::NoMemory
    }
}
