//! Making an object over a path.

ghost use Rattle.std.specs.Prelude.{◌≡◌, IfOk, is_some};
ghost use Rattle.layout.specs.Record.{permissions_of_made};
ghost use Rattle.layout.specs.StateLimits.{limits_of};
ghost use Rattle.model.specs.Attributes.{FitAttributes, KeepsTime, new_attributes};
ghost use Rattle.model.specs.Changing.{creates};
ghost use Rattle.model.specs.Changes.{with_made};
ghost use Rattle.model.specs.Records.{Made};
ghost use Rattle.model.specs.Volumes.{tree_of};
ghost use Rattle.calls.specs.Changing.{Comes, made_by};
ghost use Rattle.calls.specs.Making.{CreatesObject, HasNoNumber, MakesIn};
ghost use Rattle.calls.specs.Preparing.{Prepares};

use crate::texts::refusal_of_new_path;
use crate::{Changing, Creation, EntryName, OwnedChange, OwnedObject};
use buffers::{BlockError, Blocks};
use inode::Object;
use inofile::InodeFile;
use layout::{FIRST_NUMBER, InodeNumber};
use model::{Errno, Time, records_change_trees, volumes_are_trees, volumes_tell_fresh_numbers};
use paths::{Parts, Place, resolve_place};
use records::{Failure, is_vacant, new_object, prepare_new};
use std::alloc::Global;

/// Makes an object where a path leads, as far as nothing of it is seen yet: prepares its record, or
/// tells why the call is refused. NoMemory; Device where a read failed; Damaged where a block on
/// the way is outside its format, or where a number that is free has an object.
pub(crate) fn make<B: Blocks>(
    alloc: Global,
    inodes: &mut InodeFile,
    blocks: &mut B,
    now: Option<Time>,
    path: &[u8],
    object: OwnedObject,
) -> Result<Changing, Failure>
    requires now { KeepsTime (limits_of inodes.old.geometry).has_attributes now }
    requires kept { FitAttributes (is_some now)
        (new_attributes (permissions_of_made (made_by object))) }
    ensures { Prepares now B.Blocks blocks.old blocks.new inodes.old inodes.new
        (λ limits v table. Comes (creates limits now (tree_of v table) path.now (with_made (made_by
        object))) limits v table) result }
{
    volumes_are_trees();
    volumes_tell_fresh_numbers();
    records_change_trees();
    let parts = Parts::of(alloc, path)?;
    if let Some(errno) = refusal_of_new_path(inodes, path, &parts) {
        return Err(Failure::Refused(errno));
    }
    let place = resolve_place(alloc, inodes, blocks, path, parts, false)?;
    let (trail, name) = match place {
        Place::Missing { trail, name } => (trail, name),
        Place::Refusal(errno) => return Err(Failure::Refused(errno)),
        Place::Directory(_trail) => return Err(Failure::Refused(Errno::EEXIST)),
        Place::Entry {
            trail: _trail,
            name: _name,
            number: _number,
        } => return Err(Failure::Refused(Errno::EEXIST)),
    };
    make_in(alloc, inodes, blocks, now, trail.here(), name, object)
}

/// Makes an object at a name that its parent doesn't have.
pub(crate) fn make_in<B: Blocks>(
    alloc: Global,
    inodes: &mut InodeFile,
    blocks: &mut B,
    now: Option<Time>,
    parent: InodeNumber,
    name: Vec<u8>,
    object: OwnedObject,
) -> Result<Changing, Failure>
    requires now { KeepsTime (limits_of inodes.old.geometry).has_attributes now }
    requires kept { FitAttributes (is_some now)
        (new_attributes (permissions_of_made (made_by object))) }
    ensures creates { IfOk result (λ c. CreatesObject inodes.old.geometry.inodes c.change) }
    ensures prepares { Prepares now B.Blocks blocks.old blocks.new inodes.old inodes.new
        (λ limits v table. MakesIn limits now v parent name.items (made_by object)) result }
{
    let layout = inodes.geometry().layout();
    let new = new_object(alloc, layout, blocks, &object.as_new())?;
    let Some(free) = inodes.least_free() else {
        return refuse_in(alloc, inodes, blocks, now, parent, name.as_slice(), new);
    };
    let number = InodeNumber::new(free);
    let vacant = is_vacant(alloc, inodes, blocks, number)?;
    if !vacant {
        return Err(Failure::Read(BlockError::Damaged));
    }
    let Some(name) = EntryName::new(name) else {
        return Err(Failure::Refused(Errno::DIRFULL));
    };
    let time = now;
    let prepared = prepare_new(alloc, inodes, blocks, now, number, parent, &name.bytes, new)?;
    note_made(inodes, &object, number, parent, &name.bytes);
    let creation = Creation {
        number,
        parent,
        object,
        name,
    };
    Ok(Changing {
        time,
        change: OwnedChange::Create { creation },
        prepared,
    })
}

// Remembers where a directory that is made will stand, as a hint.
fn note_made(
    inodes: &mut InodeFile,
    object: &OwnedObject,
    number: InodeNumber,
    parent: InodeNumber,
    name: &[u8],
)
    ensures { inodes.new ≡ inodes.old }
{
    if matches!(
        object,
        OwnedObject::Directory {
            permissions: _permissions
        }
    ) {
        inodes.note_parent(number.get(), parent.get(), name);
    }
}

// The refusal where no number is left: a full directory is told before. Any number shows whether it
// is full.
fn refuse_in<B: Blocks>(
    alloc: Global,
    inodes: &mut InodeFile,
    blocks: &mut B,
    now: Option<Time>,
    parent: InodeNumber,
    name: &[u8],
    new: Object,
) -> Result<Changing, Failure>
    requires now { KeepsTime (limits_of inodes.old.geometry).has_attributes now }
    ensures creates { IfOk result (λ c. CreatesObject inodes.old.geometry.inodes c.change) }
    ensures prepares { Prepares now B.Blocks blocks.old blocks.new inodes.old inodes.new
        (λ limits v table r. (made : Made) → HasNoNumber limits.inodes v → MakesIn limits now v
        parent name.now made r) result }
{
    // An image has more inode numbers than the first.
    let _ = inodes.geometry().inodes();
    let number = InodeNumber::new(FIRST_NUMBER);
    let _prepared = prepare_new(alloc, inodes, blocks, now, number, parent, name, new)?;
    Err(Failure::Refused(Errno::NONUMBER))
}
