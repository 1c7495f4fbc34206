//! The text of the symbolic link that a path leads to.

ghost use Rattle.model.specs.Reading.{reads_link};
ghost use Rattle.calls.specs.Readlink.{text_reply};
ghost use Rattle.calls.specs.Seeing.{Answers};

use crate::leading::lead;
use buffers::Blocks;
use inofile::InodeFile;
use model::{Errno, Text};
use paths::Found;
use records::{Failure, kind_at};
use std::alloc::Global;

/// The text of the symbolic link that a path leads to, which isn't followed, or why the call is
/// refused. NoMemory; Device where a read failed; Damaged where a block on the way is outside its
/// format.
pub fn readlink<B: Blocks>(
    alloc: Global,
    inodes: &mut InodeFile,
    blocks: &mut B,
    path: &[u8],
) -> Result<Text, Failure>
    ensures { Answers B.Blocks blocks.old blocks.new inodes.old inodes.new
        (λ limits t. reads_link limits t path.now) text_reply result }
{
    let number = lead(alloc, inodes, blocks, path, false)?;
    let found = kind_at(alloc, inodes, blocks, number)?;
    match found {
        Found::Link => {
            let text = paths::text_at(alloc, inodes, blocks, number)?;
            Ok(Text::new(text))
        }
        _ => Err(Failure::Refused(Errno::EINVAL)),
    }
}
