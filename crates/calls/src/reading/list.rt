//! Listing a directory over a path.

ghost use Rattle.model.specs.Reading.{lists};
ghost use Rattle.calls.specs.List.{names_reply};
ghost use Rattle.calls.specs.Seeing.{Answers};

use crate::leading::lead;
use buffers::Blocks;
use inofile::InodeFile;
use model::{Errno, Names};
use records::{Failure, is_directory_at};
use std::alloc::Global;

/// The names of the directory that a path leads to, sorted by their bytes, or why the call is
/// refused. NoMemory; Device where a read failed; Damaged where a block on the way is outside its
/// format.
pub fn list<B: Blocks>(
    alloc: Global,
    inodes: &mut InodeFile,
    blocks: &mut B,
    path: &[u8],
) -> Result<Names, Failure>
    ensures { Answers B.Blocks blocks.old blocks.new inodes.old inodes.new
        (λ limits t. lists limits t path.now) names_reply result }
{
    let number = lead(alloc, inodes, blocks, path, true)?;
    let found = is_directory_at(alloc, inodes, blocks, number)?;
    if !found {
        return Err(Failure::Refused(Errno::ENOTDIR));
    }
    let names = paths::list(alloc, inodes, blocks, number)?;
    Ok(names)
}
