//! Calls, served on a mounted system.

ghost use Rattle.std.specs.Prelude.{◌≡◌, IsTrue};
ghost use Rattle.model.specs.Steps.{is_reading_call};
ghost use Rattle.dispatch.specs.Answering.{Answers, answer_to, called, waited};
ghost use Rattle.dispatch.specs.Fulfilling.{Fulfils};
ghost use Rattle.dispatch.specs.Preparing.{only_looks};
ghost use Rattle.dispatch.specs.Serving.{IsCall};
ghost use Rattle.dispatch.specs.Waiting.{WaitsBehind};

use crate::changing::change;
use crate::open_files::{answer_at_once, close_file, look_at_open_file};
use crate::reading::{is_reading, read, tell_extent};
use crate::saying::{say_owner, say_time};
use crate::snapshot_reading::{list_snapshots, look_within};
use crate::waiting::change_waiting;
use buffers::BlockError;
use model::{Bytes, Command, PathCall, Reply};
use records::Failure;
use station::Station;
use system::{
    CallError, System, WaitError, WaitingRecords, call_error, served_states_open, wait_error,
};

/// A call that came to this, as it is answered.
pub(crate) fn answer(outcome: Result<Reply, Failure>) -> Result<Reply, BlockError>
    ensures { result ≡ answer_to outcome }
{
    match outcome {
        Ok(reply) => Ok(reply),
        Err(Failure::Refused(errno)) => Ok(Reply::Refused(errno)),
        Err(Failure::Read(error)) => Err(error),
    }
}

/// The same to who gave a call to be served.
pub(crate) fn called(answer: Result<Reply, BlockError>) -> Result<Reply, CallError>
    ensures { result ≡ called answer }
{
    match answer {
        Ok(reply) => Ok(reply),
        Err(error) => Err(call_error(error)),
    }
}

/// And to who gave one that may wait.
pub(crate) fn waited(answer: Result<Reply, BlockError>) -> Result<Reply, WaitError>
    ensures { result ≡ waited answer }
{
    match answer {
        Ok(reply) => Ok(reply),
        Err(error) => Err(wait_error(error)),
    }
}

/// Whether a call logs nothing, whatever it comes to.
fn looks_only(call: &Command<'_>) -> bool
    ensures { result ≡ only_looks call.now }
{
    match call {
        Command::Path(call) => is_reading(call),
        Command::Open { .. } => false,
        Command::OpenStat { .. } => false,
        Command::Write { .. } => false,
        Command::Pwrite { .. } => false,
        Command::Ftruncate { .. } => false,
        Command::Fchmod { .. } => false,
        Command::Fchown { .. } => false,
        Command::Futimens { .. } => false,
        _ => true,
    }
}

/// Serves a call on the tree, on a descriptor or on a snapshot's tree, or lists the snapshots:
/// answers it where the image doesn't change by it, or else logs its record and puts it in
/// force. `NoRoom` and `LogFull` only for a call that would change something: where the disk
/// has no room for it, and where a consistency point has to come first. After an error nothing
/// has changed, but for `NotWritten`: then a cut leaves the state before the call or the one
/// after it. A sure call is always answered.
pub fn call<S: Station>(system: &mut System<S>, call: &Command<'_>) -> Result<Reply, CallError>
    requires { IsCall call.now }
    ensures { Fulfils system.old system.new call.now result }
{
    served_states_open(system);
    if looks_only(call) {
        called(look(system, call))
    } else {
        change(system, call)
    }
}

/// Serves a call on a system whose records wait, which is ahead of what a cut leaves: answers it
/// where the image doesn't change by it, or else puts it in force in memory, and its record waits
/// behind those that do. Nothing is written. `PlanDue`, `NoRoom` and `LogFull` only for a call that
/// would change something, and can't wait: a consistency point is due, the disk has no room for it,
/// or its record doesn't fit. After an error nothing has changed. A sure call is always answered.
pub fn call_waiting<S: Station>(
    system: &mut System<S>,
    waiting: &mut WaitingRecords,
    call: &Command<'_>,
) -> Result<Reply, WaitError>
    requires { IsCall call.now }
    ensures { WaitsBehind system.old system.new waiting.old waiting.new call.now result }
{
    if looks_only(call) {
        waited(look(system, call))
    } else {
        change_waiting(system, waiting, call)
    }
}

// Serves a call that logs nothing.
fn look<S: Station>(system: &mut System<S>, call: &Command<'_>) -> Result<Reply, BlockError>
    requires is_call { IsCall call.now }
    requires looks { IsTrue (only_looks call.now) }
    ensures { Answers system.old system.new call.now result }
{
    match call {
        Command::Path(call) => look_at_path(system, call),
        Command::Within { name, call } => look_within(system, name, call),
        Command::Extent { path, offset } => look_at_blocks(system, path, *offset),
        Command::SnapList => list_snapshots(system),
        Command::At {
            seconds,
            nanoseconds,
        } => Ok(say_time(system, *seconds, *nanoseconds)),
        Command::As { owner, group } => Ok(say_owner(system, *owner, *group)),
        Command::Lseek { .. } => Ok(answer_at_once(system, call)),
        Command::Fsync { .. } => Ok(answer_at_once(system, call)),
        Command::Close { fd } => close_file(system, *fd),
        _ => look_at_open_file(system, call),
    }
}

// Answers a call by a path that only reads.
fn look_at_path<S: Station>(
    system: &mut System<S>,
    call: &PathCall<'_>,
) -> Result<Reply, BlockError>
    requires { IsTrue (is_reading_call call.now) }
    ensures { Answers system.old system.new (Command.Path call.now) result }
{
    answer(read(system.alloc, &mut system.inodes, &mut system.blocks, call))
}

// Tells what of a file is stored.
fn look_at_blocks<S: Station>(
    system: &mut System<S>,
    path: &Bytes<'_>,
    offset: i64,
) -> Result<Reply, BlockError>
    ensures { Answers system.old system.new (Command.Extent path.now offset) result }
{
    answer(tell_extent(
        system.alloc,
        &mut system.inodes,
        &mut system.blocks,
        path.as_bytes(),
        offset,
    ))
}
