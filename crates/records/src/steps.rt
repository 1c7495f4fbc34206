//! Steps of a prepared change: each changes one object in memory.

ghost use Rattle.std.specs.Prelude.{◌+◌, ◌≤◌, ◌||◌, ℕ, List, Option, Some, IsTrue};
ghost use Rattle.layout.specs.declared.inode.Inode.{Inode};
ghost use Rattle.layout.specs.Trees.{has_attributes};
ghost use Rattle.model.specs.Attributes.{set_given};
ghost use Rattle.model.specs.Records.{TakesGiven, with_file_bytes, with_node_attributes, with_node_mode};
ghost use Rattle.model.specs.Volumes.{Node, is_directory_node, is_file_node};
ghost use Rattle.layout.specs.declared.limits.TheConstants.{FILE_NAMES};
ghost use Rattle.images.specs.Soundness.{Detail};
ghost use Rattle.inofile.specs.Objects.{IsObjectOrNone};
ghost use Rattle.inofile.specs.Room.{room_of};
ghost use Rattle.inofile.specs.declared.inode_file.ObjectSlot.{ObjectSlot};
ghost use Rattle.inofile.specs.declared.inode_file.ObjectSlot.TheVariants.{Changed};
ghost use Rattle.records.specs.Contents.{FitsFile, RewritesIn};
ghost use Rattle.records.specs.Room.{CountsObject, RaisesFile, StoresIn, UpdateRoom};
ghost use Rattle.records.specs.Steps.{Commits, FitsUpdate, TakesSome, TakesUpdate, Updates, with_given_mode, with_node_links};

use crate::contents::commit_bytes;
use crate::directory_names::commit_edit;
use dirs::Edit;
use inode::{FileUpdate, Object};
use inofile::InodeFile;
use layout::InodeNumber;
use model::{Mode, Permissions, Time};

/// What becomes of an object.
#[derive(Drop)]
pub(crate) enum Update {
    /// It is this one from then on, or none.
    Set(Option<Object>),
    /// The directory has these names.
    Names(Edit),
    /// The object has these permissions and this time of its data.
    Attributes(Permissions, Time),
    /// The file has the bytes that this change gives it, and this mode, where it is given.
    Bytes(FileUpdate, Option<Mode>),
    /// The file has so many names.
    Links(u32),
}

/// The object with a number, and what becomes of it.
#[derive(Drop)]
pub(crate) struct ObjectUpdate {
    pub(crate) number: InodeNumber,
    pub(crate) update: Update,
}

/// Puts a step in force. It takes no memory and can't fail.
pub(crate) fn commit_update(inodes: &mut InodeFile, step: ObjectUpdate)
    requires { TakesUpdate inodes.old step.number step.update }
    ensures { Commits inodes.old inodes.new (Some step) }
{
    let ObjectUpdate { number, update } = step;
    let n = number.get();
    let mut object = inodes.take(n);
    update_object(&mut object, update);
    inodes.commit_set(n, object);
}

/// Puts a step in force, if there is one.
pub(crate) fn commit_some(inodes: &mut InodeFile, step: Option<ObjectUpdate>)
    requires { TakesSome inodes.old step }
    ensures { Commits inodes.old inodes.new step }
{
    if let Some(step) = step {
        commit_update(inodes, step);
    }
}

// Makes of an object in memory what an update says.
fn update_object(object: &mut Option<Object>, update: Update)
    requires { FitsUpdate object.old update }
    ensures updates { (detail : Detail) (disk : ℕ → List ℕ) (inodes : ℕ) (settled : Inode)
        (found to : Option Node) → IsObjectOrNone detail disk inodes settled object.old found
        → Updates detail disk inodes settled found object.old update to
        → IsObjectOrNone detail disk inodes settled object.new to }
    ensures room { (detail : Detail) (disk : ℕ → List ℕ) (inodes : ℕ) (settled : Inode)
        (base found to : Option Node) (slot : Option ObjectSlot) (k : ℕ)
        → IsObjectOrNone detail disk inodes settled object.old found → Updates detail disk inodes settled found object.old update to → CountsObject object.old slot
        → UpdateRoom object.old update k
        → room_of (Some (Changed object.new)) base to ≤ room_of slot base found + k }
{
    match update {
        Update::Set(new) => *object = new,
        Update::Names(edit) => commit_edit(object, edit),
        Update::Attributes(permissions, modified) => set_attributes(object, permissions, modified),
        Update::Bytes(change, mode) => commit_file(object, change, mode),
        Update::Links(links) => set_links(object, links),
    }
}

// Puts a change of a file's bytes in force, and gives it a mode, where it is given.
fn commit_file(object: &mut Option<Object>, change: FileUpdate, mode: Option<Mode>)
    requires { FitsFile object.old change }
    ensures room { (k : ℕ) → StoresIn object.old change k → RaisesFile object.old object.new k }
    ensures rewrites { (detail : Detail) (disk : ℕ → List ℕ) (inodes : ℕ) (settled : Inode)
        (found : Option Node) (f : List ℕ → List ℕ)
        → IsObjectOrNone detail disk inodes settled object.old found
        → IsTrue (is_file_node found) → RewritesIn detail disk f object.old change
        → IsObjectOrNone detail disk inodes settled object.new
        (with_given_mode mode (with_file_bytes f found)) }
{
    commit_bytes(object, change);
    match mode {
        Some(mode) => set_mode(object, mode),
        None => {}
    }
}

// Gives an object other permissions and another time of its data.
fn set_attributes(object: &mut Option<Object>, permissions: Permissions, modified: Time)
    ensures sets { (detail : Detail) (disk : ℕ → List ℕ) (inodes : ℕ) (settled : Inode)
        (found : Option Node) → IsObjectOrNone detail disk inodes settled object.old found
        → TakesGiven (has_attributes settled.layout) found permissions modified
        → IsObjectOrNone detail disk inodes settled object.new
        (with_node_attributes (set_given permissions modified) found) }
    ensures room { RaisesFile object.old object.new 0 }
{
    if let Some(object) = object {
        object.status.attributes = object.status.attributes.given(permissions, modified);
    }
}

// Gives a file or directory another mode.
fn set_mode(object: &mut Option<Object>, mode: Mode)
    ensures sets { (detail : Detail) (disk : ℕ → List ℕ) (inodes : ℕ) (settled : Inode)
        (found : Option Node) → IsObjectOrNone detail disk inodes settled object.old found
        → IsTrue (is_file_node found || is_directory_node found)
        → IsObjectOrNone detail disk inodes settled object.new (with_node_mode mode found) }
    ensures room { RaisesFile object.old object.new 0 }
{
    // The type of a mode holds it to its bits.
    let _ = mode.bits();
    if let Some(object) = object {
        object.status.attributes = object.status.attributes.with_mode(mode);
    }
}

// Gives a file so many names.
fn set_links(object: &mut Option<Object>, links: u32)
    ensures sets { (detail : Detail) (disk : ℕ → List ℕ) (inodes : ℕ) (settled : Inode)
        (found : Option Node) → IsObjectOrNone detail disk inodes settled object.old found
        → IsTrue (is_file_node found) → links ≤ FILE_NAMES
        → IsObjectOrNone detail disk inodes settled object.new (with_node_links links found) }
    ensures room { RaisesFile object.old object.new 0 }
{
    if let Some(object) = object {
        object.status.links = links;
    }
}
