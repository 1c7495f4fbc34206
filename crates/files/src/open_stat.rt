//! What is told of the file of a descriptor.

ghost use Rattle.model.specs.Descriptors.{attributes_open, stats_open};
ghost use Rattle.layout.specs.StateLimits.{limits_of};
ghost use Rattle.calls.specs.Attributes.{attributes_reply};
ghost use Rattle.model.specs.Room.{nothing};
ghost use Rattle.calls.specs.Stat.{stat_reply};
ghost use Rattle.records.specs.Opened.{HasNumbers};
ghost use Rattle.files.specs.Opened.{tree_with};
ghost use Rattle.files.specs.Preparing.{AnswersOpen};

use buffers::Blocks;
use calls::{attr_number, stat_number};
use descriptors::Descriptors;
use inofile::InodeFile;
use layout::InodeNumber;
use model::{Attributes, Errno, Stat, volumes_tell_links};
use records::Failure;
use std::alloc::Global;

/// What `stat` would tell of the file of a descriptor, also where it has no name any more and so 0
/// links; or EBADF where the descriptor isn't open. NoMemory; Device where a read failed; Damaged
/// where a block on the way is outside its format.
pub fn fstat<B: Blocks>(
    alloc: Global,
    inodes: &mut InodeFile,
    blocks: &mut B,
    table: &Descriptors,
    fd: u32,
) -> Result<Stat, Failure>
    requires { HasNumbers inodes.old.geometry.inodes table.now }
    ensures { AnswersOpen B.Blocks blocks.old blocks.new inodes.old inodes.new table.now
        (λ v r. stats_open (tree_with table.now v) fd (stat_reply r) (tree_with table.now v) nothing)
        result }
{
    volumes_tell_links();
    let Some(file) = table.get(fd) else {
        return Err(Failure::Refused(Errno::EBADF));
    };
    stat_number(alloc, inodes, blocks, InodeNumber::new(file.number))
}

/// The same, with its attributes; ENOTSUP, before all else, where none are kept.
pub fn fattr<B: Blocks>(
    alloc: Global,
    inodes: &mut InodeFile,
    blocks: &mut B,
    table: &Descriptors,
    fd: u32,
) -> Result<(Stat, Attributes), Failure>
    requires { HasNumbers inodes.old.geometry.inodes table.now }
    ensures { AnswersOpen B.Blocks blocks.old blocks.new inodes.old inodes.new table.now
        (λ v r. attributes_open (limits_of inodes.old.geometry) (tree_with table.now v) fd
        (attributes_reply r) (tree_with table.now v) nothing) result }
{
    volumes_tell_links();
    if !inodes.limits().has_attributes {
        return Err(Failure::Refused(Errno::ENOTSUP));
    }
    let Some(file) = table.get(fd) else {
        return Err(Failure::Refused(Errno::EBADF));
    };
    attr_number(alloc, inodes, blocks, InodeNumber::new(file.number))
}
