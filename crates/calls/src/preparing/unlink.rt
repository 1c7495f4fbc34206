//! Taking a name away over a path, of anything but a directory.

ghost use Rattle.layout.specs.StateLimits.{limits_of};
ghost use Rattle.model.specs.Attributes.{KeepsTime};
ghost use Rattle.model.specs.Changing.{unlinks};
ghost use Rattle.model.specs.Records.{remove_name, stamped};
ghost use Rattle.model.specs.Volumes.{tree_of};
ghost use Rattle.paths.specs.Numbers.{IsInodeNumber};
ghost use Rattle.calls.specs.Changing.{ComesSwept, Decides};
ghost use Rattle.calls.specs.Preparing.{Prepares};
ghost use Rattle.calls.specs.Unlink.{UnlinksEntry};

use crate::texts::refusal_of_new_path;
use crate::{Changing, EntryName, OwnedChange};
use buffers::Blocks;
use inofile::InodeFile;
use layout::InodeNumber;
use model::{Errno, Time, records_change_trees, volumes_are_trees};
use paths::{Found, Parts, Place, resolve_place};
use records::{Failure, kind_at, prepare_remove_name};
use std::alloc::Global;

/// Takes away the name that a path leads to, of a file or of a symbolic link, which isn't followed,
/// as far as nothing of it is seen yet: prepares its record, or tells why the call is refused.
/// NoMemory; Device where a read failed; Damaged where a block on the way is outside its format.
pub fn unlink<B: Blocks>(
    alloc: Global,
    inodes: &mut InodeFile,
    blocks: &mut B,
    now: Option<Time>,
    path: &[u8],
) -> Result<Changing, Failure>
    requires now { KeepsTime (limits_of inodes.old.geometry).has_attributes now }
    ensures { Prepares now B.Blocks blocks.old blocks.new inodes.old inodes.new
        (λ limits v table. ComesSwept (unlinks limits now (tree_of v table) path.now) limits v
        table) result }
{
    volumes_are_trees();
    records_change_trees();
    let parts = Parts::of(alloc, path)?;
    if let Some(errno) = refusal_of_new_path(inodes, path, &parts) {
        return Err(Failure::Refused(errno));
    }
    let place = resolve_place(alloc, inodes, blocks, path, parts, false)?;
    match place {
        Place::Entry {
            trail,
            name,
            number,
        } => return unlink_entry(alloc, inodes, blocks, now, trail.here(), name, number),
        Place::Directory(_trail) => return Err(Failure::Refused(Errno::EPERM)),
        Place::Refusal(errno) => return Err(Failure::Refused(errno)),
        Place::Missing {
            trail: _trail,
            name: _name,
        } => return Err(Failure::Refused(Errno::ENOENT)),
    }
}

// Takes a name away that is this number's; EPERM where it is a directory's.
fn unlink_entry<B: Blocks>(
    alloc: Global,
    inodes: &mut InodeFile,
    blocks: &mut B,
    now: Option<Time>,
    parent: InodeNumber,
    name: Vec<u8>,
    number: InodeNumber,
) -> Result<Changing, Failure>
    requires now { KeepsTime (limits_of inodes.old.geometry).has_attributes now }
    requires number { IsInodeNumber inodes.old.geometry.inodes number }
    ensures { Prepares now B.Blocks blocks.old blocks.new inodes.old inodes.new
        (λ limits v table. UnlinksEntry limits now v parent name.items number) result }
{
    let found = kind_at(alloc, inodes, blocks, number)?;
    match found {
        Found::Directory => Err(Failure::Refused(Errno::EPERM)),
        _ => prepare_removal(alloc, inodes, blocks, now, parent, name),
    }
}

/// Prepares that a name is taken away, or tells the first obstacle to its record.
pub(crate) fn prepare_removal<B: Blocks>(
    alloc: Global,
    inodes: &mut InodeFile,
    blocks: &mut B,
    now: Option<Time>,
    parent: InodeNumber,
    name: Vec<u8>,
) -> Result<Changing, Failure>
    requires now { KeepsTime (limits_of inodes.old.geometry).has_attributes now }
    ensures { Prepares now B.Blocks blocks.old blocks.new inodes.old inodes.new
        (λ limits v table. Decides limits v (stamped now (remove_name parent name.items))) result }
{
    let Some(name) = EntryName::new(name) else {
        return Err(Failure::Refused(Errno::ENOENT));
    };
    let time = now;
    let prepared = prepare_remove_name(alloc, inodes, blocks, now, parent, &name.bytes)?;
    Ok(Changing {
        time,
        change: OwnedChange::RemoveName { parent, name },
        prepared,
    })
}
