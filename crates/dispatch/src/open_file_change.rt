//! Calls on descriptors that change something, as they are prepared for a session, on the image in memory
//! and the table of open files, as far as nothing of it is seen yet; or why they are refused. NoMemory;
//! Device where a read failed; Damaged where a block on the way is outside its format.

ghost use Rattle.std.specs.Prelude.{◌≡◌};
ghost use Rattle.model.specs.declared.command.Command.TheVariants as command;
ghost use Rattle.records.specs.Opened.{HasNumbers};
ghost use Rattle.files.specs.Opening.{opening_reply};
ghost use Rattle.dispatch.specs.Preparing.{PreparesCall, opening_call};

use crate::prepared_call::{
    CallRecord, PreparedCall, PreparedChange, permissions_of, said, time_of,
};
use crate::table_move::TableMove;
use buffers::Blocks;
use descriptors::Descriptors;
use files::{
    Opening, Writing, prepare_fchmod, prepare_fchown, prepare_ftruncate, prepare_futimens,
    prepare_open, prepare_pwrite, prepare_write,
};
use inofile::InodeFile;
use model::{Flags, Mode, NewTime, Reply, Session};
use records::Failure;
use std::alloc::Global;

/// Prepares a write at the descriptor's offset, which moves behind the bytes.
pub(crate) fn prepare_writing<'a, B: Blocks>(
    alloc: Global,
    inodes: &mut InodeFile,
    blocks: &mut B,
    session: &Session,
    files: &Descriptors,
    fd: u32,
    bytes: &'a [u8],
) -> Result<PreparedCall<'a>, Failure>
    ensures { PreparesCall B.Blocks blocks.old blocks.new inodes.old inodes.new session.now files.now
        (command.Write fd bytes.now) result }
{
    let now = time_of(session, inodes);
    let time = now;
    let found = prepare_write(alloc, inodes, blocks, now, files, fd, bytes)?;
    match found {
        Some(writing) => {
            let Writing { written, prepared } = writing;
            let record = CallRecord::Writes {
                number: written.number,
                offset: written.offset,
                bytes,
            };
            Ok(PreparedCall {
                reply: Reply::Wrote(bytes.len() as u32),
                change: Some(PreparedChange {
                    time,
                    record,
                    prepared,
                }),
                table: TableMove::Moves {
                    fd,
                    place: written.behind,
                },
            })
        }
        None => Ok(PreparedCall {
            reply: Reply::Wrote(0),
            change: None,
            table: TableMove::Stays,
        }),
    }
}

/// The same of a write at an offset, whatever the descriptor's own.
#[allow(clippy::too_many_arguments)]
pub(crate) fn prepare_writing_at<'a, B: Blocks>(
    alloc: Global,
    inodes: &mut InodeFile,
    blocks: &mut B,
    session: &Session,
    files: &Descriptors,
    fd: u32,
    offset: i64,
    bytes: &'a [u8],
) -> Result<PreparedCall<'a>, Failure>
    ensures { PreparesCall B.Blocks blocks.old blocks.new inodes.old inodes.new session.now files.now
        (command.Pwrite fd offset bytes.now) result }
{
    let now = time_of(session, inodes);
    let time = now;
    let found = prepare_pwrite(alloc, inodes, blocks, now, files, fd, offset, bytes)?;
    match found {
        Some(writing) => {
            let Writing { written, prepared } = writing;
            let record = CallRecord::Writes {
                number: written.number,
                offset: written.offset,
                bytes,
            };
            Ok(PreparedCall {
                reply: Reply::Wrote(bytes.len() as u32),
                change: Some(PreparedChange {
                    time,
                    record,
                    prepared,
                }),
                table: TableMove::Stays,
            })
        }
        None => Ok(PreparedCall {
            reply: Reply::Wrote(0),
            change: None,
            table: TableMove::Stays,
        }),
    }
}

/// The same of a new size.
pub(crate) fn prepare_truncating<'a, B: Blocks>(
    alloc: Global,
    inodes: &mut InodeFile,
    blocks: &mut B,
    session: &Session,
    files: &Descriptors,
    fd: u32,
    size: i64,
) -> Result<PreparedCall<'a>, Failure>
    requires { HasNumbers inodes.old.geometry.inodes files.now }
    ensures { PreparesCall B.Blocks blocks.old blocks.new inodes.old inodes.new session.now files.now
        (command.Ftruncate fd size) result }
{
    let now = time_of(session, inodes);
    let found = prepare_ftruncate(alloc, inodes, blocks, now, files, fd, size)?;
    Ok(PreparedCall {
        reply: Reply::Done,
        change: said(found),
        table: TableMove::Stays,
    })
}

/// The same of a new mode.
pub(crate) fn prepare_changing_mode<'a, B: Blocks>(
    alloc: Global,
    inodes: &mut InodeFile,
    blocks: &mut B,
    session: &Session,
    files: &Descriptors,
    fd: u32,
    mode: Mode,
) -> Result<PreparedCall<'a>, Failure>
    requires { HasNumbers inodes.old.geometry.inodes files.now }
    ensures { PreparesCall B.Blocks blocks.old blocks.new inodes.old inodes.new session.now files.now
        (command.Fchmod fd mode) result }
{
    let now = time_of(session, inodes);
    let found = prepare_fchmod(alloc, inodes, blocks, now, files, fd, mode)?;
    Ok(PreparedCall {
        reply: Reply::Done,
        change: said(found),
        table: TableMove::Stays,
    })
}

/// The same of a new owner and a new group, each where it is given.
#[allow(clippy::too_many_arguments)]
pub(crate) fn prepare_changing_owners<'a, B: Blocks>(
    alloc: Global,
    inodes: &mut InodeFile,
    blocks: &mut B,
    session: &Session,
    files: &Descriptors,
    fd: u32,
    owner: Option<u32>,
    group: Option<u32>,
) -> Result<PreparedCall<'a>, Failure>
    requires { HasNumbers inodes.old.geometry.inodes files.now }
    ensures { PreparesCall B.Blocks blocks.old blocks.new inodes.old inodes.new session.now files.now
        (command.Fchown fd owner group) result }
{
    let now = time_of(session, inodes);
    let found = prepare_fchown(alloc, inodes, blocks, now, files, fd, owner, group)?;
    Ok(PreparedCall {
        reply: Reply::Done,
        change: said(found),
        table: TableMove::Stays,
    })
}

/// The same of a new time of its data, where one is meant.
pub(crate) fn prepare_changing_times<'a, B: Blocks>(
    alloc: Global,
    inodes: &mut InodeFile,
    blocks: &mut B,
    session: &Session,
    files: &Descriptors,
    fd: u32,
    time: NewTime,
) -> Result<PreparedCall<'a>, Failure>
    requires { HasNumbers inodes.old.geometry.inodes files.now }
    ensures { PreparesCall B.Blocks blocks.old blocks.new inodes.old inodes.new session.now files.now
        (command.Futimens fd time) result }
{
    let now = time_of(session, inodes);
    let found = prepare_futimens(alloc, inodes, blocks, now, files, fd, time)?;
    Ok(PreparedCall {
        reply: Reply::Done,
        change: said(found),
        table: TableMove::Stays,
    })
}

/// The same of a file that is opened, and told of where `tells` says so. Its descriptor is the lowest
/// that is free, and below a number.
#[allow(clippy::too_many_arguments)]
pub(crate) fn prepare_opening<'a, B: Blocks>(
    alloc: Global,
    inodes: &mut InodeFile,
    blocks: &mut B,
    session: &Session,
    files: &Descriptors,
    path: &[u8],
    flags: Flags,
    mode: Mode,
    below: u32,
    tells: bool,
) -> Result<PreparedCall<'a>, Failure>
    ensures { PreparesCall B.Blocks blocks.old blocks.new inodes.old inodes.new session.now files.now
        (opening_call tells path.now flags mode below) result }
{
    let now = time_of(session, inodes);
    let permissions = permissions_of(session, inodes, mode);
    let opening = prepare_open(
        alloc,
        inodes,
        blocks,
        now,
        files,
        path,
        flags,
        permissions,
        below,
    )?;
    let reply = reply_of(&opening, tells);
    let Opening {
        fd,
        file,
        changing,
        ..
    } = opening;
    Ok(PreparedCall {
        reply,
        change: said(changing),
        table: TableMove::Opens { fd, file },
    })
}

// What is answered of a file that is opened.
fn reply_of(opening: &Opening, tells: bool) -> Reply
    ensures { result ≡ opening_reply tells opening.now }
{
    let fd = opening.fd;
    if tells {
        return Reply::Opened {
            fd,
            stat: opening.stat,
        };
    }
    Reply::Fd(fd)
}
