//! What the program ends with where something fails.

ghost use Rattle.std.specs.Prelude.{◌≡◌};
ghost use Rattle.mount.specs.Systems.{MountError};
ghost use Rattle.tool.specs.Refusals.{IsSystemFault, IsTransferFault, check_status, line_status, report_status, serving_status};

use checker::{CheckError, Report};
use command_line::LineError;
use host_files::FileError;
use model::Errno;
use served::Ending;
use session::Status;
use transfer::TransferError;

/// What the program ends with where its words aren't obeyed.
pub fn status_of_line(error: &LineError) -> Status
    ensures { result ≡ line_status error.now }
{
    match error {
        LineError::NoMemory => Status::NoMemory,
        LineError::NotUnderstood(_) => Status::NotUnderstood,
        LineError::OutOfRange(_) => Status::FileFault,
    }
}

/// What the program ends with where a script or an image isn't read or stored.
pub fn status_of_file(error: &FileError<'_>) -> Status
    ensures system { IsSystemFault result }
    ensures memory { error.now ≡ FileError.NoMemory → result ≡ Status.NoMemory }
{
    if error.is_of_memory() {
        return Status::NoMemory;
    }
    Status::FileFault
}

/// What the program ends with where a file isn't stored in an image or brought back: `NoMemory`
/// where no memory was left, `NotMounted` where the image isn't mounted, else `FileFault`.
pub fn status_of_transfer(error: &TransferError<'_>) -> Status
    ensures fault { IsTransferFault result }
    ensures mount { (e : MountError) → error.now ≡ TransferError.Mount e
        → result ≡ Status.NotMounted }
{
    match error {
        TransferError::File(error) => status_of_file(error),
        TransferError::Mount(_) => Status::NotMounted,
        TransferError::Refused {
            errno: Errno::ENOMEM,
            ..
        } => Status::NoMemory,
        _ => Status::FileFault,
    }
}

/// What the program ends with where an image was checked.
pub fn status_of_report(report: &Report) -> Status
    ensures { result ≡ report_status report.now }
{
    match report {
        Report::Good(_) => Status::Done,
        Report::Bad(_) => Status::Faulty,
    }
}

/// What the program ends with where a check came to no report.
pub fn status_of_check(error: CheckError) -> Status
    ensures { result ≡ check_status error }
{
    match error {
        CheckError::NoMemory => Status::NoMemory,
        CheckError::Device => Status::FileFault,
    }
}

/// What the program ends with where a folder was served.
pub fn status_of_serving(ending: Ending) -> Status
    ensures { result ≡ serving_status ending }
{
    match ending {
        Ending::Unmounted => Status::Done,
        Ending::Failed | Ending::Lost => Status::FileFault,
        Ending::NoMemory => Status::NoMemory,
        Ending::Refused(_) => Status::Refused,
    }
}
