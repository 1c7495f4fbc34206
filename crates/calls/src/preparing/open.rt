//! Opening a file over a path: one that is there, or a new one.

ghost use Rattle.std.specs.Prelude.{◌≡◌, ◌≢◌, ◌<◌, ◌&&◌, IfOk, IsTrue, None, Some, is_some, not};
ghost use Rattle.layout.specs.StateLimits.{limits_of};
ghost use Rattle.model.specs.Attributes.{FitAttributes, KeepsTime, new_attributes};
ghost use Rattle.model.specs.Descriptors.{opens_object};
ghost use Rattle.model.specs.Paths.{first_refusal, parts as parts_of, text_tests};
ghost use Rattle.model.specs.Trees as trees;
ghost use Rattle.model.specs.Volumes.{object_of, tree_of};
ghost use Rattle.paths.specs.Numbers.{IsInodeNumber};
ghost use Rattle.paths.specs.Steps.{found_in};
ghost use Rattle.paths.specs.declared.lookup.Found.TheVariants as found;
ghost use Rattle.calls.specs.Open.{KeepsOpenedBounds, OpensAt, OpensNew, opens_along};
ghost use Rattle.calls.specs.Preparing.{PreparesOpening};

use crate::making::make_in;
use crate::{Changing, OwnedObject, stat_number, truncate_file};
use buffers::Blocks;
use inofile::InodeFile;
use layout::InodeNumber;
use model::{
    Errno, FileType, Flags, Mode, Permissions, Time, records_change_trees, records_keep_volumes,
    sweeps_keep_volumes, volumes_are_trees, volumes_tell_fresh_numbers, volumes_tell_links,
};
use paths::{Parts, Place, Target, resolve};
use records::Failure;
use std::alloc::Global;

/// A file that is to be opened.
#[derive(Drop)]
pub struct Opened {
    /// Its inode number.
    pub number: InodeNumber,
    /// Its size in bytes, once it is open.
    pub size: u64,
    /// How many names it has.
    pub links: u32,
    /// Its mode.
    pub mode: Mode,
    /// What is changed beside: the file is made, or truncated to no bytes.
    pub changing: Option<Changing>,
}

/// Finds the file where the parts of a path lead, or prepares the record of a new one, as far as
/// nothing of it is seen yet; and prepares the record that truncates a file to no bytes, where the
/// flags say so. Or tells why the call is refused. A last symbolic link is followed, but not where
/// a new file is wanted. NoMemory; Device where a read failed; Damaged where a block on the way is
/// outside its format, or where a number that is free has an object.
#[allow(clippy::too_many_arguments)]
pub fn open_along<B: Blocks>(
    alloc: Global,
    inodes: &mut InodeFile,
    blocks: &mut B,
    now: Option<Time>,
    path: &[u8],
    parts: Parts,
    flags: Flags,
    permissions: Permissions,
) -> Result<Opened, Failure>
    requires now { KeepsTime (limits_of inodes.old.geometry).has_attributes now }
    requires kept { FitAttributes (is_some now) (new_attributes permissions) }
    requires parts { parts ≡ parts_of path.now }
    requires passed { first_refusal (text_tests (limits_of inodes.old.geometry) path.now) ≡ None }
    ensures within { IfOk result (KeepsOpenedBounds inodes.old.geometry.inodes) }
    ensures opens { PreparesOpening now B.Blocks blocks.old blocks.new inodes.old inodes.new
        (λ limits v table. OpensAt (opens_along limits now (tree_of v table) path.now flags
        permissions) limits flags v table) result }
{
    volumes_are_trees();
    volumes_tell_fresh_numbers();
    volumes_tell_links();
    records_change_trees();
    records_keep_volumes();
    sweeps_keep_volumes();
    let follow = !wants_new(flags);
    let target = resolve(alloc, inodes, blocks, path, parts, follow)?;
    let place = match target {
        Target::Object(number) => return open_object(alloc, inodes, blocks, now, number, flags),
        Target::Place(place) => place,
    };
    match place {
        Place::Missing { trail, name } => {
            let parent = trail.here();
            open_new(alloc, inodes, blocks, now, parent, name, flags, permissions)
        }
        Place::Refusal(errno) => Err(Failure::Refused(errno)),
        Place::Directory(trail) => open_object(alloc, inodes, blocks, now, trail.here(), flags),
        Place::Entry {
            trail: _trail,
            name: _name,
            number,
        } => open_object(alloc, inodes, blocks, now, number, flags),
    }
}

// Whether flags want a file that isn't there yet.
fn wants_new(flags: Flags) -> bool
    ensures { result ≡ (flags.creates && flags.exclusive) }
{
    flags.creates && flags.exclusive
}

// Opens the object with a number, if it is a file; EEXIST where a new file is wanted, EISDIR where
// it is a directory.
fn open_object<B: Blocks>(
    alloc: Global,
    inodes: &mut InodeFile,
    blocks: &mut B,
    now: Option<Time>,
    number: InodeNumber,
    flags: Flags,
) -> Result<Opened, Failure>
    requires now { KeepsTime (limits_of inodes.old.geometry).has_attributes now }
    requires number { IsInodeNumber inodes.old.geometry.inodes number }
    ensures within { IfOk result (KeepsOpenedBounds inodes.old.geometry.inodes) }
    ensures opens { PreparesOpening now B.Blocks blocks.old blocks.new inodes.old inodes.new
        (λ limits v table r. (o : trees.Object) → object_of number (v number) ≡ Some o → (IsTrue
        (not (flags.creates && flags.exclusive)) → found_in (v number) ≢ found.Link) → OpensAt
        (λ tells. opens_object tells now (tree_of v table) o flags) limits flags v table r) result }
{
    volumes_tell_links();
    records_keep_volumes();
    if wants_new(flags) {
        return Err(Failure::Refused(Errno::EEXIST));
    }
    let stat = stat_number(alloc, inodes, blocks, number)?;
    let FileType::File = stat.kind else {
        return Err(Failure::Refused(Errno::EISDIR));
    };
    if !flags.truncates {
        return Ok(Opened {
            number,
            size: stat.size,
            links: stat.links,
            mode: stat.mode,
            changing: None,
        });
    }
    let changing = truncate_file(alloc, inodes, blocks, now, number, 0)?;
    Ok(Opened {
        number,
        size: 0,
        links: stat.links,
        mode: stat.mode,
        changing,
    })
}

// Makes a file at a name that its parent doesn't have; ENOENT where none is to be made.
#[allow(clippy::too_many_arguments)]
fn open_new<B: Blocks>(
    alloc: Global,
    inodes: &mut InodeFile,
    blocks: &mut B,
    now: Option<Time>,
    parent: InodeNumber,
    name: Vec<u8>,
    flags: Flags,
    permissions: Permissions,
) -> Result<Opened, Failure>
    requires now { KeepsTime (limits_of inodes.old.geometry).has_attributes now }
    requires kept { FitAttributes (is_some now) (new_attributes permissions) }
    ensures within { IfOk result (KeepsOpenedBounds inodes.old.geometry.inodes) }
    ensures opens { PreparesOpening now B.Blocks blocks.old blocks.new inodes.old inodes.new
        (λ limits v table. OpensNew limits now v flags permissions parent name.items) result }
{
    if !flags.creates {
        return Err(Failure::Refused(Errno::ENOENT));
    }
    let Permissions { mode, owner, group } = permissions;
    let object = OwnedObject::File {
        permissions: Permissions { mode, owner, group },
    };
    let changing = make_in(alloc, inodes, blocks, now, parent, name, object)?;
    let Some(number) = changing.change.number_made() else {
        unreachable!()
    };
    Ok(Opened {
        number,
        size: 0,
        links: 1,
        mode,
        changing: Some(changing),
    })
}
