//! What stands where a path leads, with all attributes.

ghost use Rattle.model.specs.Reading.{attributes};
ghost use Rattle.paths.specs.Numbers.{IsInodeNumber};
ghost use Rattle.calls.specs.Attributes.{TellsAttributes, attributes_reply};
ghost use Rattle.calls.specs.Seeing.{Answers, Tells};

use crate::leading::lead;
use crate::reading::stat::stat_number;
use buffers::Blocks;
use inofile::InodeFile;
use layout::InodeNumber;
use model::{Attributes, Errno, Stat, volumes_tell_links};
use records::{Failure, attributes_at};
use std::alloc::Global;

/// What stands where a path leads, with its attributes, where a last symbolic link is followed or
/// not; or why the call is refused: ENOTSUP where none are kept. NoMemory; Device where a read failed;
/// Damaged where a block on the way is outside its format.
pub fn attr<B: Blocks>(
    alloc: Global,
    inodes: &mut InodeFile,
    blocks: &mut B,
    path: &[u8],
    follow: bool,
) -> Result<(Stat, Attributes), Failure>
    ensures { Answers B.Blocks blocks.old blocks.new inodes.old inodes.new
        (λ limits t. attributes limits t follow path.now) attributes_reply result }
{
    volumes_tell_links();
    if !inodes.limits().has_attributes {
        return Err(Failure::Refused(Errno::ENOTSUP));
    }
    let number = lead(alloc, inodes, blocks, path, follow)?;
    attr_number(alloc, inodes, blocks, number)
}

/// The same of the object with a number; DAMAGED where there is none.
pub fn attr_number<B: Blocks>(
    alloc: Global,
    inodes: &mut InodeFile,
    blocks: &mut B,
    number: InodeNumber,
) -> Result<(Stat, Attributes), Failure>
    requires { IsInodeNumber inodes.old.geometry.inodes number }
    ensures { Tells B.Blocks blocks.old blocks.new inodes.old inodes.new
        (λ v. TellsAttributes v number) result }
{
    let stat = stat_number(alloc, inodes, blocks, number)?;
    let attributes = attributes_at(alloc, inodes, blocks, number)?;
    Ok((stat, attributes))
}
