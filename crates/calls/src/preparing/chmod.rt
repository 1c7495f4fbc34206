//! Changing a mode over a path.

ghost use Rattle.layout.specs.StateLimits.{limits_of};
ghost use Rattle.model.specs.Attributes.{KeepsTime};
ghost use Rattle.model.specs.Changing.{changes_mode};
ghost use Rattle.model.specs.Volumes.{tree_of};
ghost use Rattle.calls.specs.Changing.{Comes};
ghost use Rattle.calls.specs.Preparing.{Prepares};

use crate::Changing;
use crate::leading::lead;
use crate::preparing::attributes::{NewAttributes, change_attributes};
use buffers::Blocks;
use inofile::InodeFile;
use model::{Mode, Time};
use records::Failure;
use std::alloc::Global;

/// Gives this mode to the file or directory where a path leads, where a last symbolic link is
/// followed, as far as nothing of it is seen yet: prepares its record, or tells why the call is
/// refused. NoMemory; Device where a read failed; Damaged where a block on the way is outside its
/// format.
pub fn change_mode<B: Blocks>(
    alloc: Global,
    inodes: &mut InodeFile,
    blocks: &mut B,
    now: Option<Time>,
    path: &[u8],
    mode: Mode,
) -> Result<Changing, Failure>
    requires now { KeepsTime (limits_of inodes.old.geometry).has_attributes now }
    ensures { Prepares now B.Blocks blocks.old blocks.new inodes.old inodes.new
        (λ limits v table. Comes (changes_mode limits now (tree_of v table) path.now mode) limits v
        table) result }
{
    let number = lead(alloc, inodes, blocks, path, true)?;
    change_attributes(
        alloc,
        inodes,
        blocks,
        now,
        number,
        NewAttributes::Mode(mode),
    )
}
