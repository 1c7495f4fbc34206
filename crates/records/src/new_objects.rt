//! Numbers for what is made.

ghost use Rattle.std.specs.Prelude.{◌≡◌, ◌<◌, ◌≤◌, ◌↔◌, ℕ, List, [], Some, None, IfOk, IsErrOf, IsTrue};
ghost use Rattle.layout.specs.StateLimits.{limits_of};
ghost use Rattle.layout.specs.Limits.{Sizes};
ghost use Rattle.layout.specs.Record.{KeepsMadeLimits, made_of, permissions_of_made};
ghost use Rattle.layout.specs.Trees.{has_attributes};
ghost use Rattle.layout.specs.declared.inode.Inode.{Inode};
ghost use Rattle.model.specs.Records.{IsMade, is_vacant, node_of};
ghost use Rattle.layout.specs.LinkText.{IsLinkText};
ghost use Rattle.layout.specs.declared.limits.TheConstants.{PATH_BYTES};
ghost use Rattle.model.specs.Volumes.{directory_node, file_node, link_node};
ghost use Rattle.model.specs.Attributes.{FitAttributes, new_attributes};
ghost use Rattle.model.specs.declared.limits.TheConstants.{LINK_MODE};
ghost use Rattle.buffers.specs.Reads.{ReadsBlocks};
ghost use Rattle.buffers.specs.Errors.{IsFault};
ghost use Rattle.images.specs.Soundness.{Detail};
ghost use Rattle.inode.specs.Room.{file_room};
ghost use Rattle.records.specs.Room.{HasRoomOfNew};
ghost use Rattle.inofile.specs.Objects.{IsObjectIn};
ghost use Rattle.records.specs.Looking.{Finds};

use crate::loading::load;
use buffers::{BlockError, Blocks};
use entries::Known;
use inode::{ChangeError, File, Object, Status};
use inofile::InodeFile;
use layout::{FIRST_NUMBER, InodeNumber, Kind, Layout, NewObject, is_link_text};
use model::{Attributes, LINK_MODE, Permissions};
use std::alloc::Global;

/// Whether nothing has a number, or an orphan.
pub fn is_vacant<B: Blocks>(
    alloc: Global,
    inodes: &mut InodeFile,
    blocks: &mut B,
    number: InodeNumber,
) -> Result<bool, BlockError>
    requires low { FIRST_NUMBER ≤ number }
    requires high { number < inodes.old.geometry.inodes }
    ensures { Finds B.Blocks blocks.old blocks.new inodes.old inodes.new
        (λ detail disk settled v vacant. vacant ≡ is_vacant (v number)) result }
{
    load(alloc, inodes, blocks, number)?;
    let Some(object) = paths::object(inodes, number) else {
        return Ok(true);
    };
    match object.status.kind {
        Kind::File => Ok(object.status.links == 0),
        _ => Ok(false),
    }
}

/// Whether what a record makes keeps to the limits of an image of this layout.
pub(crate) fn is_made(layout: Layout, object: &NewObject<'_>) -> bool
    ensures { (s : Sizes) → s.layout ≡ layout
        → IsTrue result ↔ IsMade (limits_of s) (made_of object.now) }
{
    match object {
        NewObject::Directory { permissions } => are_kept(layout, *permissions),
        NewObject::File { permissions } => are_kept(layout, *permissions),
        NewObject::Link { permissions, text } => {
            are_kept(layout, *permissions)
                && permissions.mode.bits() == LINK_MODE
                && is_link_text(text)
        }
    }
}

// Whether an object of an image of this layout may be made with these permissions.
fn are_kept(layout: Layout, permissions: Permissions) -> bool
    ensures { IsTrue result ↔ FitAttributes (has_attributes layout) (new_attributes permissions) }
{
    Attributes::new(permissions).are_kept(layout.has_attributes())
}

/// The object that a record makes in an image of this layout, with its one name.
pub fn new_object<B: Blocks>(
    alloc: Global,
    layout: Layout,
    blocks: &mut B,
    object: &NewObject<'_>,
) -> Result<Object, BlockError>
    requires limits { KeepsMadeLimits (made_of object.now) }
    requires kept { FitAttributes (has_attributes layout)
        (new_attributes (permissions_of_made (made_of object.now))) }
    ensures reads { ReadsBlocks B.Blocks IsFault blocks.old blocks.new result }
    ensures object { (detail : Detail) (disk : ℕ → List ℕ) → B.Shows blocks.old disk → IfOk result
        (λ o. (inodes : ℕ) (settled : Inode) → settled.layout ≡ layout
        → IsObjectIn detail disk inodes settled o (Some (node_of (made_of object.now)))) }
    ensures room { IfOk result HasRoomOfNew }
    ensures damaged { (disk : ℕ → List ℕ) → B.Shows blocks.old disk
        → IsErrOf result BlockError.Damaged → ⊥ }
{
    match object {
        NewObject::Directory { permissions } => Ok(new_directory(alloc, layout, *permissions)),
        NewObject::File { permissions } => Ok(new_file(alloc, layout, *permissions)),
        NewObject::Link { permissions, text } => {
            new_link(alloc, layout, blocks, *permissions, text)
        }
    }
}

// A symbolic link of this text.
fn new_link<B: Blocks>(
    alloc: Global,
    layout: Layout,
    blocks: &mut B,
    permissions: Permissions,
    text: &[u8],
) -> Result<Object, BlockError>
    requires text { IsLinkText PATH_BYTES text.now }
    requires mode { permissions.mode ≡ LINK_MODE }
    requires kept { FitAttributes (has_attributes layout) (new_attributes permissions) }
    ensures reads { ReadsBlocks B.Blocks IsFault blocks.old blocks.new result }
    ensures object { (detail : Detail) (disk : ℕ → List ℕ) → B.Shows blocks.old disk → IfOk result
        (λ o. (inodes : ℕ) (settled : Inode) → settled.layout ≡ layout
        → IsObjectIn detail disk inodes settled o
        (Some (link_node (new_attributes permissions) text.now))) }
    ensures room { IfOk result HasRoomOfNew }
    ensures damaged { (disk : ℕ → List ℕ) → B.Shows blocks.old disk
        → IsErrOf result BlockError.Damaged → ⊥ }
{
    let mut file = File::empty(alloc, layout);
    let change = match file.prepare_write(alloc, blocks, 0, text) {
        Ok(change) => change,
        Err(ChangeError::NoMemory) => return Err(BlockError::NoMemory),
        Err(ChangeError::Device) => return Err(BlockError::Device),
        Err(ChangeError::Damaged) => return Err(BlockError::Damaged),
        Err(ChangeError::TooBig) => unreachable!(),
    };
    file.commit(change);
    let attributes = Attributes::new(permissions);
    let status = Status::new(Kind::Link, attributes);
    Ok(Object {
        status,
        file,
        known: Known::new(alloc),
    })
}

// A file of one name without bytes.
fn new_file(alloc: Global, layout: Layout, permissions: Permissions) -> Object
    requires { FitAttributes (has_attributes layout) (new_attributes permissions) }
    ensures object { (detail : Detail) (disk : ℕ → List ℕ) (inodes : ℕ) (settled : Inode)
        → settled.layout ≡ layout → IsObjectIn detail disk inodes settled result
        (Some (file_node (new_attributes permissions) 1 [])) }
    ensures room { file_room result.file ≡ 0 }
{
    let attributes = Attributes::new(permissions);
    let status = Status::new(Kind::File, attributes);
    Object {
        status,
        file: File::empty(alloc, layout),
        known: Known::new(alloc),
    }
}

/// A directory without names.
pub(crate) fn new_directory(alloc: Global, layout: Layout, permissions: Permissions) -> Object
    requires { FitAttributes (has_attributes layout) (new_attributes permissions) }
    ensures object { (detail : Detail) (disk : ℕ → List ℕ) (inodes : ℕ) (settled : Inode)
        → settled.layout ≡ layout → IsObjectIn detail disk inodes settled result
        (Some (directory_node (new_attributes permissions) (λ name. None))) }
    ensures room { file_room result.file ≡ 0 }
{
    let attributes = Attributes::new(permissions);
    let status = Status::new(Kind::Directory, attributes);
    Object {
        status,
        file: File::empty(alloc, layout),
        known: Known::new(alloc),
    }
}
