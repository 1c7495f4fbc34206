//! Calls on descriptors that log nothing, served on a mounted system.

ghost use Rattle.std.specs.Prelude.{IsTrue, Ok};
ghost use Rattle.dispatch.specs.Answering.{Answers};
ghost use Rattle.dispatch.specs.OpenFiles.{is_looking_call, is_table_call};

use crate::open_file_reading::{answer_from_table, read_open_file};
use crate::serving::answer;
use buffers::BlockError;
use files::{close, named_files_have_paths, prepare_close};
use model::{Command, Reply};
use station::Station;
use system::{System, records_lead_on};

/// Answers a call that looks at the table of open files alone: no memory is taken, and no
/// device is called.
pub(crate) fn answer_at_once<S: Station>(system: &mut System<S>, call: &Command<'_>) -> Reply
    requires { IsTrue (is_table_call call.now) }
    ensures { Answers system.old system.new call.now (Ok result) }
{
    answer_from_table(&mut system.files, call)
}

/// Answers a call that only reads a file.
pub(crate) fn look_at_open_file<S: Station>(
    system: &mut System<S>,
    call: &Command<'_>,
) -> Result<Reply, BlockError>
    requires { IsTrue (is_looking_call call.now) }
    ensures { Answers system.old system.new call.now result }
{
    let outcome = read_open_file(
        system.alloc,
        &mut system.inodes,
        &mut system.blocks,
        &mut system.files,
        call,
    );
    answer(outcome)
}

/// Frees a descriptor. A file that it leaves with neither name nor descriptor goes from memory;
/// the image keeps it until the next consistency point.
pub(crate) fn close_file<S: Station>(system: &mut System<S>, fd: u32) -> Result<Reply, BlockError>
    ensures { Answers system.old system.new (Command.Close fd) result }
{
    records_lead_on();
    named_files_have_paths();
    match prepare_close(
        system.alloc,
        &mut system.inodes,
        &mut system.blocks,
        &system.files,
        fd,
    ) {
        Ok(()) => match close(&mut system.inodes, &mut system.files, fd) {
            Ok(()) => Ok(Reply::Done),
            Err(errno) => Ok(Reply::Refused(errno)),
        },
        Err(error) => Err(error),
    }
}
