//! What calls by paths are to change, at the time of their session.

ghost use Rattle.std.specs.Prelude.{◌≡◌, IsFalse};
ghost use Rattle.layout.specs.StateLimits.{limits_of};
ghost use Rattle.model.specs.Attributes.{KeepsTime};
ghost use Rattle.model.specs.Sessions.{call_time};
ghost use Rattle.model.specs.Steps.{is_reading_call};
ghost use Rattle.model.specs.declared.command.Command.TheVariants as command;
ghost use Rattle.model.specs.declared.command.PathCall.TheVariants as call;
ghost use Rattle.calls.specs.Preparing.{Prepares, PreparesAny};
ghost use Rattle.descriptors.specs.declared.table.Descriptors.{Descriptors};
ghost use Rattle.dispatch.specs.Changing.{CallComes, RecordComes, is_writing_call, may_stay};
ghost use Rattle.dispatch.specs.Preparing.{PreparesCall};

use crate::prepared_call::{
    CallRecord, PreparedCall, PreparedChange, permissions_of, said, time_of,
};
use crate::table_move::TableMove;
use buffers::Blocks;
use calls::{Changing, Storing};
use inofile::InodeFile;
use model::{LINK_MODE, Mode, PathCall, Reply, Session, Time};
use records::Failure;
use std::alloc::Global;

/// Prepares a call on the image in memory, as far as nothing of it is seen yet; or tells why it is
/// refused. NoMemory; Device where a read failed; Damaged where a block on the way is outside its
/// format.
pub(crate) fn prepare_path_call<'a, B: Blocks>(
    alloc: Global,
    inodes: &mut InodeFile,
    blocks: &mut B,
    session: &Session,
    call: &'a PathCall<'_>,
) -> Result<PreparedCall<'a>, Failure>
    requires { IsFalse (is_reading_call call.now) }
    ensures { (files : Descriptors) → PreparesCall B.Blocks blocks.old blocks.new inodes.old inodes.new
        session.now files (command.Path call.now) result }
{
    match call {
        PathCall::Store { path, offset, data } => {
            let bytes = data.as_bytes();
            prepare_storing(
                alloc,
                inodes,
                blocks,
                session,
                path.as_bytes(),
                *offset,
                bytes,
            )
        }
        _ => prepare_done(alloc, inodes, blocks, session, call),
    }
}

// The same of bytes that go to a file over a path.
fn prepare_storing<'a, B: Blocks>(
    alloc: Global,
    inodes: &mut InodeFile,
    blocks: &mut B,
    session: &Session,
    path: &[u8],
    offset: i64,
    bytes: &'a [u8],
) -> Result<PreparedCall<'a>, Failure>
    ensures { (files : Descriptors) → PreparesCall B.Blocks blocks.old blocks.new inodes.old inodes.new
        session.now files (command.Path (call.Store path.now offset bytes.now)) result }
{
    let now = time_of(session, inodes);
    let time = now;
    let found = calls::store(alloc, inodes, blocks, now, path, offset, bytes)?;
    match found {
        Some(storing) => {
            let Storing {
                number,
                offset,
                prepared,
            } = storing;
            let record = CallRecord::Writes {
                number,
                offset,
                bytes,
            };
            Ok(PreparedCall {
                reply: Reply::Wrote(bytes.len() as u32),
                change: Some(PreparedChange {
                    time,
                    record,
                    prepared,
                }),
                table: TableMove::Stays,
            })
        }
        None => Ok(PreparedCall {
            reply: Reply::Wrote(0),
            change: None,
            table: TableMove::Stays,
        }),
    }
}

// The same of a call that is answered that it is done.
fn prepare_done<'a, B: Blocks>(
    alloc: Global,
    inodes: &mut InodeFile,
    blocks: &mut B,
    session: &Session,
    call: &PathCall<'_>,
) -> Result<PreparedCall<'a>, Failure>
    requires changes { IsFalse (is_reading_call call.now) }
    requires writes_none { IsFalse (is_writing_call call.now) }
    ensures { (files : Descriptors) → PreparesCall B.Blocks blocks.old blocks.new inodes.old inodes.new
        session.now files (command.Path call.now) result }
{
    let now = time_of(session, inodes);
    let changing = prepare_change(alloc, inodes, blocks, session, now, call)?;
    Ok(PreparedCall {
        reply: Reply::Done,
        change: said(changing),
        table: TableMove::Stays,
    })
}

// What it is to change; None where it is answered and changes nothing.
fn prepare_change<B: Blocks>(
    alloc: Global,
    inodes: &mut InodeFile,
    blocks: &mut B,
    session: &Session,
    now: Option<Time>,
    call: &PathCall<'_>,
) -> Result<Option<Changing>, Failure>
    requires changes { IsFalse (is_reading_call call.now) }
    requires writes_none { IsFalse (is_writing_call call.now) }
    requires now { KeepsTime (limits_of inodes.old.geometry).has_attributes now }
    requires said { now ≡ call_time (limits_of inodes.old.geometry) session.now }
    ensures { PreparesAny now B.Blocks blocks.old blocks.new inodes.old inodes.new
        (CallComes session.now call.now) result }
{
    match call {
        PathCall::Rename { old, new } => {
            calls::rename(
                alloc,
                inodes,
                blocks,
                now,
                old.as_bytes(),
                new.as_bytes(),
                false,
            )
        }
        PathCall::RenameNew { old, new } => {
            calls::rename(
                alloc,
                inodes,
                blocks,
                now,
                old.as_bytes(),
                new.as_bytes(),
                true,
            )
        }
        PathCall::Chown {
            path,
            follows,
            owner,
            group,
        } => {
            let path = path.as_bytes();
            calls::change_owners(alloc, inodes, blocks, now, path, *follows, *owner, *group)
        }
        PathCall::Utimens {
            path,
            follows,
            time,
        } => {
            let path = path.as_bytes();
            calls::change_times(alloc, inodes, blocks, now, path, *follows, *time)
        }
        PathCall::Truncate { path, size } => {
            calls::truncate(alloc, inodes, blocks, now, path.as_bytes(), *size)
        }
        PathCall::Set { path, settings } => {
            calls::set(alloc, inodes, blocks, now, path.as_bytes(), *settings)
        }
        _ => {
            let changing = prepare_record(alloc, inodes, blocks, session, now, call)?;
            Ok(Some(changing))
        }
    }
}

// The same of a call that has a record where it isn't refused.
fn prepare_record<B: Blocks>(
    alloc: Global,
    inodes: &mut InodeFile,
    blocks: &mut B,
    session: &Session,
    now: Option<Time>,
    call: &PathCall<'_>,
) -> Result<Changing, Failure>
    requires changes { IsFalse (is_reading_call call.now) }
    requires writes_none { IsFalse (is_writing_call call.now) }
    requires changes_always { IsFalse (may_stay call.now) }
    requires now { KeepsTime (limits_of inodes.old.geometry).has_attributes now }
    requires said { now ≡ call_time (limits_of inodes.old.geometry) session.now }
    ensures { Prepares now B.Blocks blocks.old blocks.new inodes.old inodes.new
        (RecordComes session.now call.now) result }
{
    match call {
        PathCall::Mkdir { path, mode } => {
            let permissions = permissions_of(session, inodes, *mode);
            let path = path.as_bytes();
            calls::make_directory(alloc, inodes, blocks, now, path, permissions)
        }
        PathCall::Symlink { text, path } => {
            let mode = Mode::new(LINK_MODE).unwrap();
            let permissions = permissions_of(session, inodes, mode);
            let text = text.as_bytes();
            calls::symlink(
                alloc,
                inodes,
                blocks,
                now,
                text,
                path.as_bytes(),
                permissions,
            )
        }
        PathCall::Link { old, new } => {
            calls::link(alloc, inodes, blocks, now, old.as_bytes(), new.as_bytes())
        }
        PathCall::Unlink { path } => calls::unlink(alloc, inodes, blocks, now, path.as_bytes()),
        PathCall::Rmdir { path } => {
            calls::remove_directory(alloc, inodes, blocks, now, path.as_bytes())
        }
        PathCall::Chmod { path, mode } => {
            calls::change_mode(alloc, inodes, blocks, now, path.as_bytes(), *mode)
        }
        _ => unreachable!(),
    }
}
