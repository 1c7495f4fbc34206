//! Taking the name of a directory away over a path.

ghost use Rattle.layout.specs.StateLimits.{limits_of};
ghost use Rattle.model.specs.Attributes.{KeepsTime};
ghost use Rattle.model.specs.Changing.{removes_directory};
ghost use Rattle.model.specs.Volumes.{tree_of};
ghost use Rattle.paths.specs.Numbers.{IsInodeNumber};
ghost use Rattle.calls.specs.Changing.{ComesSwept};
ghost use Rattle.calls.specs.Preparing.{Prepares};
ghost use Rattle.calls.specs.Rmdir.{RemovesDirectory};

use crate::Changing;
use crate::preparing::unlink::prepare_removal;
use crate::root::is_root;
use crate::texts::refusal_of_new_path;
use buffers::Blocks;
use inofile::InodeFile;
use layout::InodeNumber;
use model::{Errno, Time, records_change_trees, volumes_are_trees};
use paths::{Found, Parts, Place, resolve_place};
use records::{Failure, kind_at};
use std::alloc::Global;

/// Takes away the name that a path leads to, of an empty directory, as `unlink` does of another
/// object.
pub fn remove_directory<B: Blocks>(
    alloc: Global,
    inodes: &mut InodeFile,
    blocks: &mut B,
    now: Option<Time>,
    path: &[u8],
) -> Result<Changing, Failure>
    requires now { KeepsTime (limits_of inodes.old.geometry).has_attributes now }
    ensures { Prepares now B.Blocks blocks.old blocks.new inodes.old inodes.new
        (λ limits v table. ComesSwept (removes_directory limits now (tree_of v table) path.now)
        limits v table) result }
{
    volumes_are_trees();
    records_change_trees();
    let parts = Parts::of(alloc, path)?;
    if let Some(errno) = refusal_of_new_path(inodes, path, &parts) {
        return Err(Failure::Refused(errno));
    }
    if is_root(path) {
        return Err(Failure::Refused(Errno::EBUSY));
    }
    let place = resolve_place(alloc, inodes, blocks, path, parts, false)?;
    match place {
        Place::Entry {
            trail,
            name,
            number,
        } => return remove_entry(alloc, inodes, blocks, now, trail.here(), name, number),
        // Only the path `/`, which doesn't come here, has no name at its end.
        Place::Directory(_trail) => return Err(Failure::Refused(Errno::EBUSY)),
        Place::Refusal(errno) => return Err(Failure::Refused(errno)),
        Place::Missing {
            trail: _trail,
            name: _name,
        } => return Err(Failure::Refused(Errno::ENOENT)),
    }
}

// Takes a name away that is this number's; ENOTDIR where that isn't a directory's.
fn remove_entry<B: Blocks>(
    alloc: Global,
    inodes: &mut InodeFile,
    blocks: &mut B,
    now: Option<Time>,
    parent: InodeNumber,
    name: Vec<u8>,
    number: InodeNumber,
) -> Result<Changing, Failure>
    requires now { KeepsTime (limits_of inodes.old.geometry).has_attributes now }
    requires number { IsInodeNumber inodes.old.geometry.inodes number }
    ensures { Prepares now B.Blocks blocks.old blocks.new inodes.old inodes.new
        (λ limits v table. RemovesDirectory limits now v parent name.items number) result }
{
    let found = kind_at(alloc, inodes, blocks, number)?;
    match found {
        Found::Directory => prepare_removal(alloc, inodes, blocks, now, parent, name),
        _ => Err(Failure::Refused(Errno::ENOTDIR)),
    }
}
