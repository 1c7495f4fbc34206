//! Why no root was found.

use station::DeviceFault;
use thiserror::Error;

/// Why no root was found. The numbers are those of a refused mount.
#[derive(Clone, Copy, Debug, PartialEq, Eq, Error)]
pub enum RootError {
    /// A read failed.
    #[error("a device call failed")]
    Device = 2,
    /// No slot holds a root.
    #[error("no slot holds a root")]
    NoRoot = 3,
    /// Two roots don't go together, or the station has another size than the root says.
    #[error("the roots don't fit one another, or the station")]
    Damaged = 4,
}

impl From<DeviceFault> for RootError {
    ghost use Rattle.std.specs.Prelude.{◌≡◌};
    ghost use Rattle.loading.specs.declared.error.RootError.TheVariants.{Device};

    ghost from_gives = { λ _ e. e ≡ Device };

    fn from(_: DeviceFault) -> RootError {
        RootError::Device
    }
}
