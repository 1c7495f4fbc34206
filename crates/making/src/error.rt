//! Why an image was not made.

use thiserror::Error;

/// Why `make` refused.
#[derive(Clone, Copy, Debug, PartialEq, Eq, Error)]
pub enum MakeError {
    /// The image's plan was refused, for want of memory. No device call was made.
    #[error("no memory")]
    NoMemory = 1,
    /// A device call failed.
    #[error("a device call failed")]
    Device = 2,
    /// A number is out of its range, or the station has another size.
    #[error("a number is out of its range, or the station has another size")]
    BadSize = 3,
}
