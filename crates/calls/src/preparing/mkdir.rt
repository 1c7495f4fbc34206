//! Making a directory over a path.

ghost use Rattle.std.specs.Prelude.{is_some};
ghost use Rattle.layout.specs.StateLimits.{limits_of};
ghost use Rattle.model.specs.Attributes.{FitAttributes, KeepsTime, new_attributes};
ghost use Rattle.model.specs.Changing.{makes_directory};
ghost use Rattle.model.specs.Volumes.{tree_of};
ghost use Rattle.calls.specs.Changing.{Comes};
ghost use Rattle.calls.specs.Preparing.{Prepares};

use crate::making::make;
use crate::{Changing, OwnedObject};
use buffers::Blocks;
use inofile::InodeFile;
use model::{Permissions, Time};
use records::Failure;
use std::alloc::Global;

/// Makes a directory of these permissions where a path leads, as far as nothing of it is seen yet:
/// prepares its record, or tells why the call is refused. NoMemory; Device where a read failed;
/// Damaged where a block on the way is outside its format, or where a number that is free has an
/// object.
pub fn make_directory<B: Blocks>(
    alloc: Global,
    inodes: &mut InodeFile,
    blocks: &mut B,
    now: Option<Time>,
    path: &[u8],
    permissions: Permissions,
) -> Result<Changing, Failure>
    requires now { KeepsTime (limits_of inodes.old.geometry).has_attributes now }
    requires kept { FitAttributes (is_some now) (new_attributes permissions) }
    ensures { Prepares now B.Blocks blocks.old blocks.new inodes.old inodes.new
        (λ limits v table. Comes (makes_directory limits now (tree_of v table) path.now permissions)
        limits v table) result }
{
    make(
        alloc,
        inodes,
        blocks,
        now,
        path,
        OwnedObject::Directory { permissions },
    )
}
