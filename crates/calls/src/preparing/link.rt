//! Giving a file one more name over a path.

ghost use Rattle.std.specs.Prelude.{◌≡◌, ◌++◌, None, Ok, false};
ghost use Rattle.layout.specs.StateLimits.{limits_of};
ghost use Rattle.model.specs.Attributes.{KeepsTime};
ghost use Rattle.model.specs.Changing.{links};
ghost use Rattle.model.specs.Paths.{first_refusal, new_text_tests, text_tests, parts as parts_of};
ghost use Rattle.model.specs.Records.{link, stamped};
ghost use Rattle.model.specs.Volumes.{tree_of};
ghost use Rattle.paths.specs.Steps.{found_in};
ghost use Rattle.paths.specs.declared.lookup.Found.TheVariants as found;
ghost use Rattle.calls.specs.Changing.{Comes, Decides};
ghost use Rattle.calls.specs.Leading.{LeadsAlong};
ghost use Rattle.calls.specs.Preparing.{Prepares};

use crate::leading::find_object;
use crate::texts::{refusal_of_new_path, refusal_of_path};
use crate::{Changing, EntryName, OwnedChange};
use buffers::Blocks;
use inofile::InodeFile;
use layout::InodeNumber;
use model::{Errno, Time, records_change_trees, volumes_are_trees, volumes_tell_links};
use paths::{Found, Parts, Place, resolve_place};
use records::{Failure, kind_at, prepare_link};
use std::alloc::Global;

/// Gives the file where the path `old` leads one more name, where `path` leads, as far as nothing
/// of it is seen yet: prepares its record, or tells why the call is refused. A last symbolic link
/// isn't followed. NoMemory; Device where a read failed; Damaged where a block on the way is
/// outside its format.
pub fn link<B: Blocks>(
    alloc: Global,
    inodes: &mut InodeFile,
    blocks: &mut B,
    now: Option<Time>,
    old: &[u8],
    path: &[u8],
) -> Result<Changing, Failure>
    requires now { KeepsTime (limits_of inodes.old.geometry).has_attributes now }
    ensures { Prepares now B.Blocks blocks.old blocks.new inodes.old inodes.new
        (λ limits v table. Comes (links limits now (tree_of v table) old.now path.now) limits v
        table) result }
{
    let from = Parts::of(alloc, old)?;
    if let Some(errno) = refusal_of_path(inodes, old, &from) {
        return Err(Failure::Refused(errno));
    }
    let parts = Parts::of(alloc, path)?;
    if let Some(errno) = refusal_of_new_path(inodes, path, &parts) {
        return Err(Failure::Refused(errno));
    }
    link_along(alloc, inodes, blocks, now, old, path, from, parts)
}

// The same with texts that passed their tests, and their parts.
#[allow(clippy::too_many_arguments)]
fn link_along<B: Blocks>(
    alloc: Global,
    inodes: &mut InodeFile,
    blocks: &mut B,
    now: Option<Time>,
    old: &[u8],
    path: &[u8],
    from: Parts,
    parts: Parts,
) -> Result<Changing, Failure>
    requires now { KeepsTime (limits_of inodes.old.geometry).has_attributes now }
    requires from { from ≡ parts_of old.now }
    requires parts { parts ≡ parts_of path.now }
    requires passed { first_refusal (text_tests (limits_of inodes.old.geometry) old.now
        ++ new_text_tests (limits_of inodes.old.geometry) path.now) ≡ None }
    ensures { Prepares now B.Blocks blocks.old blocks.new inodes.old inodes.new
        (λ limits v table. Comes (links limits now (tree_of v table) old.now path.now) limits v
        table) result }
{
    volumes_are_trees();
    let number = find_object(alloc, inodes, blocks, old, from, false)?;
    let found = kind_at(alloc, inodes, blocks, number)?;
    match found {
        Found::File => link_file(alloc, inodes, blocks, now, old, path, parts, number),
        _ => Err(Failure::Refused(Errno::EPERM)),
    }
}

// Gives the file with a number one name more where a path leads.
#[allow(clippy::too_many_arguments)]
fn link_file<B: Blocks>(
    alloc: Global,
    inodes: &mut InodeFile,
    blocks: &mut B,
    now: Option<Time>,
    old: &[u8],
    path: &[u8],
    parts: Parts,
    number: InodeNumber,
) -> Result<Changing, Failure>
    requires now { KeepsTime (limits_of inodes.old.geometry).has_attributes now }
    requires parts { parts ≡ parts_of path.now }
    requires passed { first_refusal (text_tests (limits_of inodes.old.geometry) old.now
        ++ new_text_tests (limits_of inodes.old.geometry) path.now) ≡ None }
    ensures { Prepares now B.Blocks blocks.old blocks.new inodes.old inodes.new
        (λ limits v table r. found_in (v number) ≡ found.File → LeadsAlong (tree_of v table)
        v false old.now (Ok number) → Comes (links limits now (tree_of v table) old.now path.now)
        limits v table r) result }
{
    volumes_are_trees();
    volumes_tell_links();
    records_change_trees();
    let place = resolve_place(alloc, inodes, blocks, path, parts, false)?;
    match place {
        Place::Missing { trail, name } => {
            return link_in(alloc, inodes, blocks, now, trail.here(), name, number);
        }
        Place::Refusal(errno) => return Err(Failure::Refused(errno)),
        Place::Directory(_trail) => return Err(Failure::Refused(Errno::EEXIST)),
        Place::Entry {
            trail: _trail,
            name: _name,
            number: _number,
        } => return Err(Failure::Refused(Errno::EEXIST)),
    }
}

// The same at a name that its directory doesn't have.
fn link_in<B: Blocks>(
    alloc: Global,
    inodes: &mut InodeFile,
    blocks: &mut B,
    now: Option<Time>,
    parent: InodeNumber,
    name: Vec<u8>,
    number: InodeNumber,
) -> Result<Changing, Failure>
    requires now { KeepsTime (limits_of inodes.old.geometry).has_attributes now }
    ensures { Prepares now B.Blocks blocks.old blocks.new inodes.old inodes.new
        (λ limits v table. Decides limits v (stamped now (link number parent name.items))) result }
{
    let Some(name) = EntryName::new(name) else {
        return Err(Failure::Refused(Errno::ENAMETOOLONG));
    };
    let time = now;
    let prepared = prepare_link(alloc, inodes, blocks, now, number, parent, &name.bytes)?;
    Ok(Changing {
        time,
        change: OwnedChange::Link {
            number,
            parent,
            name,
        },
        prepared,
    })
}
