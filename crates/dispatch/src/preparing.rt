//! Calls that change something, as they are prepared.

ghost use Rattle.std.specs.Prelude.{◌≡◌, IsFalse};
ghost use Rattle.records.specs.Opened.{HasNumbers};
ghost use Rattle.dispatch.specs.Preparing.{PreparesCall, only_looks};

use crate::open_file_change::{
    prepare_changing_mode, prepare_changing_owners, prepare_changing_times, prepare_opening,
    prepare_truncating, prepare_writing, prepare_writing_at,
};
use crate::path_change::prepare_path_call;
use crate::prepared_call::PreparedCall;
use buffers::Blocks;
use descriptors::Descriptors;
use inofile::InodeFile;
use model::{Command, Session};
use records::Failure;
use std::alloc::Global;

/// Prepares a call of a session, on the image in memory and the table of open files, as far as nothing
/// of it is seen yet; or tells why it is refused. NoMemory; Device where a read failed; Damaged where
/// a block on the way is outside its format.
pub(crate) fn prepare_call<'a, B: Blocks>(
    alloc: Global,
    inodes: &mut InodeFile,
    blocks: &mut B,
    session: &Session,
    files: &Descriptors,
    call: &'a Command<'_>,
) -> Result<PreparedCall<'a>, Failure>
    requires changes { IsFalse (only_looks call.now) }
    requires numbers { HasNumbers inodes.old.geometry.inodes files.now }
    ensures { PreparesCall B.Blocks blocks.old blocks.new inodes.old inodes.new session.now files.now
        call.now result }
{
    match call {
        Command::Path(call) => prepare_path_call(alloc, inodes, blocks, session, call),
        Command::Open {
            path,
            flags,
            mode,
            below,
        } => {
            let path = path.as_bytes();
            prepare_opening(
                alloc, inodes, blocks, session, files, path, *flags, *mode, *below, false,
            )
        }
        Command::OpenStat {
            path,
            flags,
            mode,
            below,
        } => {
            let path = path.as_bytes();
            prepare_opening(
                alloc, inodes, blocks, session, files, path, *flags, *mode, *below, true,
            )
        }
        Command::Write { fd, data } => {
            prepare_writing(alloc, inodes, blocks, session, files, *fd, data.as_bytes())
        }
        Command::Pwrite { fd, offset, data } => {
            prepare_writing_at(
                alloc,
                inodes,
                blocks,
                session,
                files,
                *fd,
                *offset,
                data.as_bytes(),
            )
        }
        Command::Ftruncate { fd, size } => {
            prepare_truncating(alloc, inodes, blocks, session, files, *fd, *size)
        }
        Command::Fchmod { fd, mode } => {
            prepare_changing_mode(alloc, inodes, blocks, session, files, *fd, *mode)
        }
        Command::Fchown { fd, owner, group } => {
            prepare_changing_owners(alloc, inodes, blocks, session, files, *fd, *owner, *group)
        }
        Command::Futimens { fd, time } => {
            prepare_changing_times(alloc, inodes, blocks, session, files, *fd, *time)
        }
        _ => unreachable!(),
    }
}
