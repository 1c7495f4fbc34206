//! Why an image was not mounted.

use buffers::BlockError;
use loading::RootError;
use oplog::SavedLogError;
use station::DeviceFault;
use thiserror::Error;

/// Why an image was not mounted.
#[derive(Clone, Copy, Debug, PartialEq, Eq, Error)]
pub enum MountError {
    #[error("NOMEMORY")]
    NoMemory = 1,
    /// A device call failed.
    #[error("DEVICE")]
    Device = 2,
    /// No slot holds a root.
    #[error("NOROOT")]
    NoRoot = 3,
    /// What stands on the devices is outside the formats, or its log has a record that can't be
    /// done again.
    #[error("DAMAGED")]
    Damaged = 4,
}

impl From<DeviceFault> for MountError {
    ghost use Rattle.std.specs.Prelude.{◌≡◌};
    ghost use Rattle.system.specs.declared.mount_error.MountError.TheVariants.{Device};

    ghost from_gives = { λ _ e. e ≡ Device };

    fn from(_: DeviceFault) -> MountError {
        MountError::Device
    }
}

impl From<RootError> for MountError {
    ghost use Rattle.std.specs.Prelude.{◌≡◌};
    ghost use Rattle.system.specs.Refusals.{refusal_of_root};

    ghost from_gives = { λ cause e. e ≡ refusal_of_root cause };

    fn from(error: RootError) -> MountError {
        match error {
            RootError::Device => MountError::Device,
            RootError::NoRoot => MountError::NoRoot,
            RootError::Damaged => MountError::Damaged,
        }
    }
}

impl From<SavedLogError> for MountError {
    ghost use Rattle.std.specs.Prelude.{◌≡◌};
    ghost use Rattle.system.specs.Refusals.{refusal_of_log};

    ghost from_gives = { λ cause e. e ≡ refusal_of_log cause };

    fn from(error: SavedLogError) -> MountError {
        match error {
            SavedLogError::NoMemory => MountError::NoMemory,
            SavedLogError::Device => MountError::Device,
            SavedLogError::Damaged => MountError::Damaged,
        }
    }
}

impl From<BlockError> for MountError {
    ghost use Rattle.std.specs.Prelude.{◌≡◌};
    ghost use Rattle.system.specs.Refusals.{refusal_of_read};

    ghost from_gives = { λ cause e. e ≡ refusal_of_read cause };

    fn from(error: BlockError) -> MountError {
        match error {
            BlockError::NoMemory => MountError::NoMemory,
            BlockError::Device => MountError::Device,
            BlockError::Damaged => MountError::Damaged,
        }
    }
}
