//! How a session ends.

ghost use Rattle.std.specs.Prelude.{◌≡◌};
ghost use Rattle.session.specs.Statuses.{status_of};
ghost use Rattle.session.specs.declared.ending.Fault.TheVariants.{NoMemory};

use crate::Status;
use mount::MountError;
use std::alloc::{AllocError, AllocFailed};

/// Why nothing is run.
#[derive(Clone, Copy, Debug, PartialEq, Eq)]
pub enum Fault {
    /// No memory for the script's commands.
    NoMemory,
    /// The first line that is no command, counted from 1.
    Line(usize),
    /// The station isn't mounted.
    Mount(MountError),
}

impl<T: Drop> From<AllocFailed<T>> for Fault {
    ghost from_gives = { λ _ e. e ≡ NoMemory };

    fn from(_error: AllocFailed<T>) -> Fault {
        Fault::NoMemory
    }
}

impl From<AllocError> for Fault {
    ghost from_gives = { λ _ e. e ≡ NoMemory };

    fn from(_error: AllocError) -> Fault {
        Fault::NoMemory
    }
}

/// How a session ended.
#[derive(Clone, Copy, Debug, PartialEq, Eq)]
pub enum Ending {
    /// The station was mounted, and commands ran.
    Ran(Status),
    /// Nothing was run, for this reason.
    Unrun(Fault, Status),
}

impl Ending {
    /// What the program ends with.
    pub fn status(self) -> Status
        ensures { result ≡ status_of self }
    {
        match self {
            Ending::Ran(status) | Ending::Unrun(_, status) => status,
        }
    }
}
