//! Calls by paths that only read.

ghost use Rattle.std.specs.Prelude.{◌≡◌, IfOk, IsTrue};
ghost use Rattle.model.specs.Replies.{IsReplyTo};
ghost use Rattle.model.specs.Steps.{is_reading_call};
ghost use Rattle.model.specs.declared.command.Command.{Command};
ghost use Rattle.calls.specs.Extent.{shows_extent};
ghost use Rattle.calls.specs.Seeing.{Answers};
ghost use Rattle.dispatch.specs.Answering.{asks, answered_reply};
ghost use Rattle.dispatch.specs.Serving.{TellsNoFault};

use buffers::Blocks;
use inofile::InodeFile;
use model::{PathCall, Reply};
use records::Failure;
use std::alloc::Global;

/// Whether a call by a path only reads.
pub(crate) fn is_reading(call: &PathCall<'_>) -> bool
    ensures { result ≡ is_reading_call call.now }
{
    match call {
        PathCall::List { .. } => true,
        PathCall::Entries { .. } => true,
        PathCall::Stat { .. } => true,
        PathCall::Lstat { .. } => true,
        PathCall::Attr { .. } => true,
        PathCall::Readlink { .. } => true,
        PathCall::Get { .. } => true,
        _ => false,
    }
}

/// What a call that only reads is answered on the image in memory. NoMemory; Device where a read
/// failed; Damaged where a block on the way is outside its format.
pub(crate) fn read<B: Blocks>(
    alloc: Global,
    inodes: &mut InodeFile,
    blocks: &mut B,
    call: &PathCall<'_>,
) -> Result<Reply, Failure>
    requires { IsTrue (is_reading_call call.now) }
    ensures no_fault { IfOk result TellsNoFault }
    ensures kind { IfOk result (IsReplyTo (Command.Path call.now)) }
    ensures tells { Answers B.Blocks blocks.old blocks.new inodes.old inodes.new (asks call.now)
        answered_reply result }
{
    match call {
        PathCall::List { path } => {
            let names = calls::list(alloc, inodes, blocks, path.as_bytes())?;
            Ok(Reply::Names(names))
        }
        PathCall::Entries { path, after, count } => {
            let entries = calls::entries(alloc, inodes, blocks, path.as_bytes(), *after, *count)?;
            Ok(Reply::Entries(entries))
        }
        PathCall::Stat { path } => {
            let stat = calls::stat(alloc, inodes, blocks, path.as_bytes())?;
            Ok(Reply::Stat(stat))
        }
        PathCall::Lstat { path } => {
            let stat = calls::lstat(alloc, inodes, blocks, path.as_bytes())?;
            Ok(Reply::Stat(stat))
        }
        PathCall::Attr { path, follows } => {
            let told = calls::attr(alloc, inodes, blocks, path.as_bytes(), *follows)?;
            let (stat, attributes) = told;
            Ok(Reply::Attributes { stat, attributes })
        }
        PathCall::Readlink { path } => {
            let text = calls::readlink(alloc, inodes, blocks, path.as_bytes())?;
            Ok(Reply::Text(text))
        }
        PathCall::Get {
            path,
            offset,
            count,
        } => {
            let bytes = calls::get(alloc, inodes, blocks, path.as_bytes(), *offset, *count)?;
            Ok(Reply::Data(bytes))
        }
        _ => unreachable!(),
    }
}

/// What is told of the stored blocks of a file. NoMemory; Device where a read failed; Damaged where
/// a block on the way is outside its format.
pub(crate) fn tell_extent<B: Blocks>(
    alloc: Global,
    inodes: &mut InodeFile,
    blocks: &mut B,
    path: &[u8],
    offset: i64,
) -> Result<Reply, Failure>
    ensures no_fault { IfOk result TellsNoFault }
    ensures kind { IfOk result (IsReplyTo (Command.Extent path.now offset)) }
    ensures tells { Answers B.Blocks blocks.old blocks.new inodes.old inodes.new
        (shows_extent B.Blocks blocks.old inodes.new path.now offset) answered_reply result }
{
    let extent = calls::extent(alloc, inodes, blocks, path, offset)?;
    Ok(Reply::Extent(extent))
}
