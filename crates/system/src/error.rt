//! Why a system refused.

ghost use Rattle.std.specs.Prelude.{◌≡◌};
ghost use Rattle.system.specs.Errors.{call_error, log_error, wait_error};

use buffers::BlockError;
use conspoint::PlanError;
use oplog::AppendError;
use thiserror::Error;

/// Why a consistency point wasn't made.
#[derive(Clone, Copy, Debug, PartialEq, Eq, Error)]
pub enum PointError {
    /// It wasn't planned. Nothing was written, and nothing changed.
    #[error("no point was planned")]
    NotPlanned(PlanError),
    /// A write or a sync failed: of the disk is known only what a cut may leave.
    #[error("a device call failed")]
    NotWritten,
    /// The root has the last generation. Nothing changed.
    #[error("no generation is left")]
    NoGeneration,
}

/// Why a call wasn't answered. Nothing changed, but for `NotWritten`.
#[derive(Clone, Copy, Debug, PartialEq, Eq, Error)]
pub enum CallError {
    #[error("no memory")]
    NoMemory,
    /// A read failed.
    #[error("a read failed")]
    NotRead,
    /// A block that had to be read is outside its format.
    #[error("a block is outside the format")]
    Damaged,
    /// The disk has no room for the call beside what a consistency point may store.
    #[error("no room")]
    NoRoom,
    /// The call's record doesn't go into the log before a consistency point.
    #[error("the log is full")]
    LogFull,
    /// A write failed: of the log is known only what a cut may leave.
    #[error("a write failed")]
    NotWritten,
}

/// Why a call can't wait, or its record can't. Nothing changed.
#[derive(Clone, Copy, Debug, PartialEq, Eq, Error)]
pub enum WaitError {
    #[error("no memory")]
    NoMemory,
    /// A read failed.
    #[error("a read failed")]
    NotRead,
    /// A block that had to be read is outside its format.
    #[error("a block is outside the format")]
    Damaged,
    /// A consistency point is to be planned first: its root would hold what waits.
    #[error("a consistency point is due")]
    PlanDue,
    /// The disk has no room for the record beside what a consistency point may store.
    #[error("no room")]
    NoRoom,
    /// Behind those that wait the record doesn't go into the log before a consistency point.
    #[error("the log is full")]
    LogFull,
}

/// A failed read, to who gave a call that may wait.
pub fn wait_error(error: BlockError) -> WaitError
    ensures { result ≡ wait_error error }
{
    match error {
        BlockError::NoMemory => WaitError::NoMemory,
        BlockError::Device => WaitError::NotRead,
        BlockError::Damaged => WaitError::Damaged,
    }
}

/// A failed read, to who gave the call.
pub fn call_error(error: BlockError) -> CallError
    ensures { result ≡ call_error error }
{
    match error {
        BlockError::NoMemory => CallError::NoMemory,
        BlockError::Device => CallError::NotRead,
        BlockError::Damaged => CallError::Damaged,
    }
}

/// A failed append, to who gave the call.
pub(crate) fn log_error(error: AppendError) -> CallError
    ensures { result ≡ log_error error }
{
    match error {
        AppendError::NoMemory => CallError::NoMemory,
        AppendError::Device => CallError::NotWritten,
        AppendError::LogFull => CallError::LogFull,
    }
}
