//! Moving a name over paths.

ghost use Rattle.std.specs.Prelude.{◌≡◌, ◌↔◌, false, IfOk, IfSome, IsTrue, Some};
ghost use Rattle.layout.specs.StateLimits.{limits_of};
ghost use Rattle.model.specs.Attributes.{KeepsTime};
ghost use Rattle.model.specs.Changing.{renames};
ghost use Rattle.model.specs.Finding.{IsPlaceAt, at_entry, here};
ghost use Rattle.model.specs.Paths.{Name, parts as parts_of};
ghost use Rattle.model.specs.Records.{IsBelow};
ghost use Rattle.model.specs.Resolution.{Resolution};
ghost use Rattle.model.specs.Volumes.{IsVolume, entries, tree_of};
ghost use Rattle.buffers.specs.Errors.{IsFault};
ghost use Rattle.paths.specs.Numbers.{AreInodeNumbers, IsInodeNumber};
ghost use Rattle.paths.specs.Standing.{Looks, NeverDamaged, OnVolumes};
ghost use Rattle.paths.specs.Starts.{Reaches};
ghost use Rattle.calls.specs.Changing.{ComesOrStays};
ghost use Rattle.calls.specs.Rename.{MovesAlong, MovesName, PassTests, TellsBelow};
ghost use Rattle.records.specs.Moving.{MovesOver};
ghost use Rattle.calls.specs.Preparing.{PreparesAny, PreparesKnowing};

use crate::root::{is_root, is_rooted};
use crate::texts::refusal_of_new_path;
use crate::{Changing, EntryName, OwnedChange};
use buffers::{BlockError, Blocks};
use inofile::InodeFile;
use layout::InodeNumber;
use model::{
    Errno, Time, numbers_tell_what_lies_below, records_change_trees, trails_tell_what_lies_below,
    volumes_are_trees,
};
use paths::{Parts, Place, Trail, resolve_place};
use records::{Failure, goes_below, prepare_move};
use std::alloc::Global;

/// Moves what stands where the path `old` leads, with all below it, to where `path` leads, in place
/// of what stood there, as far as nothing of it is seen yet: prepares its record, or tells why the
/// call is refused; where `only_new` says so, EEXIST where anything stands there. None where the
/// object has that name, or is a file of which it is another name: then nothing changes. Last
/// symbolic links aren't followed. NoMemory; Device where a read failed; Damaged where a block on
/// the way is outside its format.
pub fn rename<B: Blocks>(
    alloc: Global,
    inodes: &mut InodeFile,
    blocks: &mut B,
    now: Option<Time>,
    old: &[u8],
    path: &[u8],
    only_new: bool,
) -> Result<Option<Changing>, Failure>
    requires now { KeepsTime (limits_of inodes.old.geometry).has_attributes now }
    ensures { PreparesAny now B.Blocks blocks.old blocks.new inodes.old inodes.new
        (λ limits v table. ComesOrStays (renames limits now (tree_of v table) only_new old.now
        path.now) limits v table) result }
{
    let from = Parts::of(alloc, old)?;
    if let Some(errno) = refusal_of_new_path(inodes, old, &from) {
        return Err(Failure::Refused(errno));
    }
    let to = Parts::of(alloc, path)?;
    if let Some(errno) = refusal_of_new_path(inodes, path, &to) {
        return Err(Failure::Refused(errno));
    }
    let from_root = is_root(old);
    let to_root = is_root(path);
    if from_root || to_root {
        return Err(Failure::Refused(Errno::EBUSY));
    }
    rename_along(alloc, inodes, blocks, now, old, path, from, to, only_new)
}

// The same with texts that passed their tests, and their parts.
#[allow(clippy::too_many_arguments)]
fn rename_along<B: Blocks>(
    alloc: Global,
    inodes: &mut InodeFile,
    blocks: &mut B,
    now: Option<Time>,
    old: &[u8],
    path: &[u8],
    from: Parts,
    to: Parts,
    only_new: bool,
) -> Result<Option<Changing>, Failure>
    requires now { KeepsTime (limits_of inodes.old.geometry).has_attributes now }
    requires from { from ≡ parts_of old.now }
    requires to { to ≡ parts_of path.now }
    requires passed { PassTests (limits_of inodes.old.geometry) old.now path.now }
    ensures { PreparesAny now B.Blocks blocks.old blocks.new inodes.old inodes.new
        (λ limits v table. ComesOrStays (renames limits now (tree_of v table) only_new old.now
        path.now) limits v table) result }
{
    volumes_are_trees();
    let place = resolve_place(alloc, inodes, blocks, old, from, false)?;
    match place {
        Place::Entry {
            trail,
            name,
            number,
        } => {
            return rename_found(
                alloc, inodes, blocks, now, old, path, to, only_new, trail, name, number,
            );
        }
        // Only the path `/`, which doesn't come here, has no name at its end.
        Place::Directory(_trail) => return Err(Failure::Refused(Errno::EBUSY)),
        Place::Refusal(errno) => return Err(Failure::Refused(errno)),
        Place::Missing {
            trail: _trail,
            name: _name,
        } => return Err(Failure::Refused(Errno::ENOENT)),
    }
}

// The same of the object that the first path leads to, by its name in the directory at the end of
// the trail.
#[allow(clippy::too_many_arguments)]
fn rename_found<B: Blocks>(
    alloc: Global,
    inodes: &mut InodeFile,
    blocks: &mut B,
    now: Option<Time>,
    old: &[u8],
    path: &[u8],
    to: Parts,
    only_new: bool,
    trail: Trail,
    name: Vec<u8>,
    number: InodeNumber,
) -> Result<Option<Changing>, Failure>
    requires now { KeepsTime (limits_of inodes.old.geometry).has_attributes now }
    requires to { to ≡ parts_of path.now }
    requires passed { PassTests (limits_of inodes.old.geometry) old.now path.now }
    requires within { AreInodeNumbers inodes.old.geometry.inodes trail }
    requires number { IsInodeNumber inodes.old.geometry.inodes number }
    ensures { PreparesKnowing (λ v. entries v (here trail) name.items ≡ Some number) now
        B.Blocks blocks.old blocks.new inodes.old inodes.new
        (λ limits v table r. (from : Resolution) → Reaches (tree_of v table) false old.now from
        → IsPlaceAt v (at_entry trail name.items number) from
        → ComesOrStays (renames limits now (tree_of v table) only_new old.now path.now) limits v
        table r) result }
{
    volumes_are_trees();
    records_change_trees();
    numbers_tell_what_lies_below();
    trails_tell_what_lies_below();
    let parent = trail.here();
    let rooted = is_rooted(path);
    let place = resolve_place(alloc, inodes, blocks, path, to, false)?;
    match place {
        Place::Entry {
            trail: above,
            name: new_name,
            number: other,
        } => {
            if only_new {
                return Err(Failure::Refused(Errno::EEXIST));
            }
            if other.get() == number.get() {
                return Ok(None);
            }
            let target = Some(other);
            return move_name(
                alloc, inodes, blocks, now, parent, name, number, rooted, above, new_name, target,
            );
        }
        Place::Missing {
            trail: above,
            name: new_name,
        } => {
            return move_name(
                alloc, inodes, blocks, now, parent, name, number, rooted, above, new_name, None,
            );
        }
        Place::Directory(_trail) => return Err(Failure::Refused(Errno::EBUSY)),
        Place::Refusal(errno) => return Err(Failure::Refused(errno)),
    }
}

// Moves the name that an object has in a directory to another one, in the directory at the end of a
// trail, where the target has it, if anything does; EINVAL where that directory lies below the
// object.
#[allow(clippy::too_many_arguments)]
fn move_name<B: Blocks>(
    alloc: Global,
    inodes: &mut InodeFile,
    blocks: &mut B,
    now: Option<Time>,
    parent: InodeNumber,
    name: Vec<u8>,
    number: InodeNumber,
    rooted: bool,
    trail: Trail,
    new_name: Vec<u8>,
    target: Option<InodeNumber>,
) -> Result<Option<Changing>, Failure>
    requires now { KeepsTime (limits_of inodes.old.geometry).has_attributes now }
    requires parent { IsInodeNumber inodes.old.geometry.inodes parent }
    requires number { IsInodeNumber inodes.old.geometry.inodes number }
    requires within { AreInodeNumbers inodes.old.geometry.inodes trail }
    requires target { IfSome target (IsInodeNumber inodes.old.geometry.inodes) }
    ensures { PreparesKnowing
        (λ v. MovesOver v parent name.items number (here trail) new_name.items target) now
        B.Blocks blocks.old blocks.new inodes.old inodes.new
        (λ limits v table r. MovesAlong v number rooted trail new_name.items
        → MovesName limits now v parent name.items (here trail) new_name.items r) result }
{
    let new_parent = trail.here();
    let below = comes_below(alloc, inodes, blocks, parent, number, rooted, &trail)?;
    if below {
        return Err(Failure::Refused(Errno::EINVAL));
    }
    record_move(
        alloc, inodes, blocks, now, parent, name, number, new_parent, new_name, target,
    )
}

// Whether an object, which has a name in the parent, would come below itself in the directory at
// the end of a trail. A trail from the root passes all above that directory; one from a number
// doesn't, and then the object is looked for above that directory, or this one below the object.
fn comes_below<B: Blocks>(
    alloc: Global,
    inodes: &mut InodeFile,
    blocks: &mut B,
    parent: InodeNumber,
    number: InodeNumber,
    rooted: bool,
    trail: &Trail,
) -> Result<bool, BlockError>
    requires number { IsInodeNumber inodes.old.geometry.inodes number }
    requires within { AreInodeNumbers inodes.old.geometry.inodes trail.now }
    ensures looks { Looks B.Blocks IsFault blocks.old blocks.new inodes.old inodes.new result }
    ensures below { OnVolumes B.Blocks blocks.old inodes.old (λ disk settled v.
        (name : Name) → IsVolume (limits_of inodes.old.geometry) v → entries v parent name ≡ Some
        number → TellsBelow v number rooted trail.now → IfOk result (λ below. IsTrue below ↔ IsBelow
        (entries v) number (here trail.now))) }
    ensures damaged { NeverDamaged B.Blocks blocks.old inodes.old result }
{
    if rooted {
        return Ok(trail.passes(number));
    }
    goes_below(alloc, inodes, blocks, parent, number, trail.here())
}

// Prepares that a name is moved to a directory outside of what has it, or tells the first obstacle
// to its record. Where a directory will stand then is remembered at once: who names it by its number
// needn't look it up again.
#[allow(clippy::too_many_arguments)]
fn record_move<B: Blocks>(
    alloc: Global,
    inodes: &mut InodeFile,
    blocks: &mut B,
    now: Option<Time>,
    parent: InodeNumber,
    name: Vec<u8>,
    number: InodeNumber,
    new_parent: InodeNumber,
    new_name: Vec<u8>,
    target: Option<InodeNumber>,
) -> Result<Option<Changing>, Failure>
    requires now { KeepsTime (limits_of inodes.old.geometry).has_attributes now }
    requires parent { IsInodeNumber inodes.old.geometry.inodes parent }
    requires number { IsInodeNumber inodes.old.geometry.inodes number }
    requires new_parent { IsInodeNumber inodes.old.geometry.inodes new_parent }
    requires target { IfSome target (IsInodeNumber inodes.old.geometry.inodes) }
    ensures { PreparesKnowing
        (λ v. MovesOver v parent name.items number new_parent new_name.items target) now
        B.Blocks blocks.old blocks.new inodes.old inodes.new
        (λ limits v table r. (IsBelow (entries v) number new_parent → ⊥)
        → MovesName limits now v parent name.items new_parent new_name.items r) result }
{
    let Some(name) = EntryName::new(name) else {
        return Err(Failure::Refused(Errno::ENOENT));
    };
    let Some(new_name) = EntryName::new(new_name) else {
        return Err(Failure::Refused(Errno::ENAMETOOLONG));
    };
    let time = now;
    let prepared = prepare_move(
        alloc,
        inodes,
        blocks,
        now,
        parent,
        &name.bytes,
        number,
        new_parent,
        &new_name.bytes,
        target,
    )?;
    inodes.note_move(number.get(), new_parent.get(), &new_name.bytes);
    Ok(Some(Changing {
        time,
        change: OwnedChange::Rename {
            parent,
            name,
            new_parent,
            new_name,
        },
        prepared,
    }))
}
