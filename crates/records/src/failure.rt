//! Why a call isn't done.

use buffers::BlockError;
use model::Errno;
use std::alloc::{AllocError, AllocFailed};

/// Why a call isn't done.
#[derive(Clone, Copy, Debug, PartialEq, Eq)]
pub enum Failure {
    /// It is refused.
    Refused(Errno),
    /// A block wasn't read.
    Read(BlockError),
}

impl From<BlockError> for Failure {
    ghost use Rattle.std.specs.Prelude.{◌≡◌};
    ghost use Rattle.records.specs.declared.failure.Failure.TheVariants.{Read};

    ghost from_gives = { λ e f. f ≡ Read e };

    fn from(error: BlockError) -> Failure {
        Failure::Read(error)
    }
}

impl From<Errno> for Failure {
    ghost use Rattle.std.specs.Prelude.{◌≡◌};
    ghost use Rattle.records.specs.declared.failure.Failure.TheVariants.{Refused};

    ghost from_gives = { λ e f. f ≡ Refused e };

    fn from(errno: Errno) -> Failure {
        Failure::Refused(errno)
    }
}

impl From<AllocError> for Failure {
    ghost use Rattle.std.specs.Prelude.{◌≡◌};
    ghost use Rattle.buffers.specs.declared.error.BlockError.TheVariants.{NoMemory};
    ghost use Rattle.records.specs.declared.failure.Failure.TheVariants.{Read};

    ghost from_gives = { λ _ f. f ≡ Read NoMemory };

    fn from(_: AllocError) -> Failure {
        Failure::Read(BlockError::NoMemory)
    }
}

impl<T: Drop> From<AllocFailed<T>> for Failure {
    ghost use Rattle.std.specs.Prelude.{◌≡◌};
    ghost use Rattle.buffers.specs.declared.error.BlockError.TheVariants.{NoMemory};
    ghost use Rattle.records.specs.declared.failure.Failure.TheVariants.{Read};

    ghost from_gives = { λ _ f. f ≡ Read NoMemory };

    fn from(_: AllocFailed<T>) -> Failure {
        Failure::Read(BlockError::NoMemory)
    }
}
