//! Telling why nothing is run.

ghost use Rattle.std.specs.Io.KnownBytes.{Appends};
ghost use Rattle.std.specs.Prelude.{◌≡◌, ℕ, IfOk, IsTrue, string_bytes, take};
ghost use Rattle.session.specs.Talks.{lost_text};
ghost use Rattle.session.specs.Scripts.{line_fault};
ghost use Rattle.session.specs.Sessions.{mount_fault, EndsTelling};

use crate::answering::write_whole;
use crate::streams::Closed;
use crate::{Fault, Sink, Status};
use mount::MountError;
use std::alloc::{AllocError, Global};
use std::io::Write;

/// Tells why nothing is run, and says what the program ends with: where that can't be told,
/// `NoMemory` for want of memory, else `FileFault`.
pub(crate) fn tell<E: Write>(alloc: Global, fault: Fault, err: &mut Sink<E>) -> Status
    ensures tells { EndsTelling fault
        (E.contents err.old.inner) (E.contents err.new.inner) result }
    ensures fault { result ≡ Status.FileFault → IsTrue err.new.has_failed }
{
    match fault {
        Fault::NoMemory => Status::NoMemory,
        Fault::Line(number) => tell_bad_line(alloc, number, err),
        Fault::Mount(error) => tell_mount_error(error, err),
    }
}

/// Tells which line is no command.
fn tell_bad_line<E: Write>(alloc: Global, number: usize, err: &mut Sink<E>) -> Status
    ensures tells { EndsTelling (Fault.Line number)
        (E.contents err.old.inner) (E.contents err.new.inner) result }
    ensures fault { result ≡ Status.FileFault → IsTrue err.new.has_failed }
{
    let Ok(text) = line_text(alloc, number) else {
        return Status::NoMemory;
    };
    match write_whole(err, text.as_bytes()) {
        Ok(()) => Status::NotACommand,
        Err(Closed) => Status::FileFault,
    }
}

fn line_text(alloc: Global, number: usize) -> Result<String, AllocError>
    ensures { IfOk result (λ text. string_bytes text ≡ line_fault number) }
{
    format!(in alloc; "wafl: line {number}\n")
}

/// Tells why the station isn't mounted.
fn tell_mount_error<E: Write>(error: MountError, err: &mut Sink<E>) -> Status
    ensures tells { EndsTelling (Fault.Mount error)
        (E.contents err.old.inner) (E.contents err.new.inner) result }
    ensures fault { result ≡ Status.FileFault → IsTrue err.new.has_failed }
{
    match write_whole(err, mount_text(error)) {
        Ok(()) => Status::NotMounted,
        Err(Closed) if error == MountError::NoMemory => Status::NoMemory,
        Err(Closed) => Status::FileFault,
    }
}

fn mount_text(error: MountError) -> &'static [u8]
    ensures { result.now ≡ mount_fault error }
{
    match error {
        MountError::NoMemory => b"wafl: mount NOMEMORY\n",
        MountError::Device => b"wafl: mount DEVICE\n",
        MountError::NoRoot => b"wafl: mount NOROOT\n",
        MountError::Damaged => b"wafl: mount DAMAGED\n",
    }
}

/// Tells how many commands are lost that were answered, and says what the program ends with.
pub(crate) fn tell_lost<E: Write>(alloc: Global, commands: u64, err: &mut Sink<E>) -> Status
    ensures status { result ≡ Status.FileFault }
    ensures tells { (k : ℕ) × Appends (E.contents err.old.inner) (E.contents err.new.inner)
        (take k (lost_text commands)) }
{
    let Ok(text) = lost_text(alloc, commands) else {
        return Status::FileFault;
    };
    match write_whole(err, text.as_bytes()) {
        Ok(()) => Status::FileFault,
        Err(Closed) => Status::FileFault,
    }
}

fn lost_text(alloc: Global, commands: u64) -> Result<String, AllocError>
    ensures { IfOk result (λ text. string_bytes text ≡ lost_text commands) }
{
    if commands == 1 {
        return String::from_str(alloc, "wafl: the last command is lost\n");
    }
    format!(in alloc; "wafl: the last {commands} commands are lost\n")
}
