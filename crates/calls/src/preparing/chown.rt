//! Changing owner and group, over a path or of an object's number.

ghost use Rattle.std.specs.Prelude.{◌≡◌, ◌&&◌, IsSome, is_none};
ghost use Rattle.layout.specs.StateLimits.{limits_of};
ghost use Rattle.model.specs.Attributes.{KeepsTime};
ghost use Rattle.model.specs.Changing.{changes_owners, gives_owners};
ghost use Rattle.model.specs.Volumes.{tree_of};
ghost use Rattle.paths.specs.Numbers.{IsInodeNumber};
ghost use Rattle.calls.specs.Changing.{ComesOrStays};
ghost use Rattle.calls.specs.Preparing.{PreparesAny};

use crate::Changing;
use crate::leading::lead;
use crate::preparing::attributes::{NewAttributes, change_attributes};
use buffers::Blocks;
use inofile::InodeFile;
use layout::InodeNumber;
use model::{Errno, Time};
use records::Failure;
use std::alloc::Global;

/// Gives the object where a path leads an owner and a group, each where it is given, where a last
/// symbolic link may be followed, as far as nothing of it is seen yet: prepares its record, or tells
/// that there is nothing to change, or why the call is refused: ENOTSUP where none are kept.
/// NoMemory; Device where a read failed; Damaged where a block on the way is outside its format.
#[allow(clippy::too_many_arguments)]
pub fn change_owners<B: Blocks>(
    alloc: Global,
    inodes: &mut InodeFile,
    blocks: &mut B,
    now: Option<Time>,
    path: &[u8],
    follow: bool,
    owner: Option<u32>,
    group: Option<u32>,
) -> Result<Option<Changing>, Failure>
    requires now { KeepsTime (limits_of inodes.old.geometry).has_attributes now }
    ensures { PreparesAny now B.Blocks blocks.old blocks.new inodes.old inodes.new
        (λ limits v table. ComesOrStays (changes_owners limits now (tree_of v table) follow path.now
        owner group) limits v table) result }
{
    if !inodes.limits().has_attributes {
        return Err(Failure::Refused(Errno::ENOTSUP));
    }
    let number = lead(alloc, inodes, blocks, path, follow)?;
    give_owners(alloc, inodes, blocks, now, number, owner, group)
}

/// The same of the object with a number.
pub fn give_owners<B: Blocks>(
    alloc: Global,
    inodes: &mut InodeFile,
    blocks: &mut B,
    now: Option<Time>,
    number: InodeNumber,
    owner: Option<u32>,
    group: Option<u32>,
) -> Result<Option<Changing>, Failure>
    requires now { KeepsTime (limits_of inodes.old.geometry).has_attributes now }
    requires number { IsInodeNumber inodes.old.geometry.inodes number }
    requires kept { IsSome now }
    ensures { PreparesAny now B.Blocks blocks.old blocks.new inodes.old inodes.new
        (λ limits v table r. IsSome (v number)
        → ComesOrStays (gives_owners now (tree_of v table) number owner group) limits v table r)
        result }
{
    if keeps_both(owner, group) {
        return Ok(None);
    }
    let new = NewAttributes::Owners { owner, group };
    let changing = change_attributes(alloc, inodes, blocks, now, number, new)?;
    Ok(Some(changing))
}

// Whether neither is given.
fn keeps_both(owner: Option<u32>, group: Option<u32>) -> bool
    ensures { result ≡ (is_none owner && is_none group) }
{
    owner.is_none() && group.is_none()
}
