//! What the errors of a system are to who gave the command.

ghost use Rattle.std.specs.Prelude.{◌≡◌};
ghost use Rattle.mount.specs.Refusals as refusals;

use conspoint::PlanError;
use model::{Errno, Reply};
use system::{CallError, PointError, WaitError};

/// Of a call. Behind a consistency point the log is empty and a record fits, so `LogFull` comes
/// then only over images that open to no state.
pub(crate) fn errno_of_call(error: CallError) -> Errno
    ensures { result ≡ refusals.errno_of_call error }
{
    match error {
        CallError::NoMemory => Errno::ENOMEM,
        CallError::NotRead | CallError::NotWritten => Errno::EIO,
        CallError::NoRoom => Errno::ENOSPC,
        CallError::Damaged | CallError::LogFull => Errno::DAMAGED,
    }
}

/// The reply to a call that was to wait, and wasn't done: None where it can't wait.
pub(crate) fn refusal_of_wait(error: WaitError) -> Option<Reply>
    ensures { result ≡ refusals.refusal_of_wait error }
{
    match error {
        WaitError::NoMemory => Some(Reply::Refused(Errno::ENOMEM)),
        WaitError::NotRead => Some(Reply::Refused(Errno::EIO)),
        WaitError::Damaged => Some(Reply::Refused(Errno::DAMAGED)),
        WaitError::PlanDue | WaitError::NoRoom | WaitError::LogFull => None,
    }
}

/// Of a consistency point. Over a served state it has room, so `NoSpace` comes only over images
/// that open to no state.
pub(crate) fn errno_of_point(error: PointError) -> Errno
    ensures { result ≡ refusals.errno_of_point error }
{
    match error {
        PointError::NotPlanned(PlanError::NoMemory) => Errno::ENOMEM,
        PointError::NotPlanned(PlanError::NoSpace | PlanError::Damaged) => Errno::DAMAGED,
        PointError::NotPlanned(PlanError::Device) | PointError::NotWritten => Errno::EIO,
        PointError::NoGeneration => Errno::FAILED,
    }
}

/// Whether a call's error fails a system, until the next mount.
pub(crate) fn fails_call(error: CallError) -> bool
    ensures { result ≡ refusals.fails_call error }
{
    matches!(error, CallError::NotWritten)
}

/// Whether a consistency point's does.
pub(crate) fn fails_point(error: PointError) -> bool
    ensures { result ≡ refusals.fails_point error }
{
    !matches!(error, PointError::NotPlanned(_))
}
