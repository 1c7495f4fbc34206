//! Names that directories get and lose.

ghost use Rattle.std.specs.Prelude.{◌≡◌, ◌≢◌, ◌≤◌, ◌*◌, ◌↔◌, ℕ, List, Option, Some, IsTrue, IfOk, IfSome, IsErrOf};
ghost use Rattle.layout.specs.StateLimits.{limits_of};
ghost use Rattle.layout.specs.DirectoryNames.{NameMap};
ghost use Rattle.layout.specs.declared.limits.TheConstants.{DIRECTORY_NAMES};
ghost use Rattle.layout.specs.declared.inode.Inode.{Inode};
ghost use Rattle.layout.specs.declared.kind.Kind.TheVariants as kinds;
ghost use Rattle.model.specs.Volumes.{Node};
ghost use Rattle.buffers.specs.Reads.{ReadsBlocks};
ghost use Rattle.buffers.specs.Errors.{IsFault};
ghost use Rattle.blocktree.specs.Trees.{IsSoundAt};
ghost use Rattle.images.specs.Soundness.{Detail};
ghost use Rattle.dirs.specs.Room.{piece_count};
ghost use Rattle.inode.specs.Room.{edit_room};
ghost use Rattle.inode.specs.declared.object.Object.{Object};
ghost use Rattle.inofile.specs.Inodes.{loaded};
ghost use Rattle.inofile.specs.Objects.{IsObjectOrNone, IsSameOrNone, StaysKnown};
ghost use Rattle.paths.specs.Numbers.{IsInodeNumber};
ghost use Rattle.records.specs.Entering.{EditsIn, FitsObject, IsDirectoryObject, IsNameEdit, PreparesEdit, with_node_names};
ghost use Rattle.records.specs.Looking.{Finds};
ghost use Rattle.records.specs.Room.{RaisesFile};
ghost use Rattle.records.specs.Steps.{IsAtHand, TakesUpdate};
ghost use Rattle.records.specs.declared.steps.Update.TheVariants as updates;

use crate::loading::load_to_change;
use crate::naming::{NameEdit, edit_file};
use buffers::{BlockError, Blocks};
use dirs::Edit;
use entries::Known;
use inode::Object;
use inofile::{InodeFile, objects_stand_in_their_grammar};
use layout::{InodeNumber, Kind};
use model::Limits;
use std::alloc::Global;
use std::mem;

/// An edit of a directory's names, as it is known in memory from then on; None where the number is
/// of no directory, or of one that can't be edited so.
pub(crate) fn edit_parent<B: Blocks>(
    alloc: Global,
    inodes: &mut InodeFile,
    blocks: &mut B,
    parent: InodeNumber,
    wanted: &NameEdit<'_>,
) -> Result<Option<Edit>, BlockError>
    requires parent { IsInodeNumber inodes.old.geometry.inodes parent }
    requires wanted { IsNameEdit inodes.old.geometry.inodes wanted.now }
    ensures edit { Finds B.Blocks blocks.old blocks.new inodes.old inodes.new (λ detail disk settled v.
        PreparesEdit disk (limits_of inodes.new.geometry) wanted.now (v parent)
        (loaded inodes.new parent)) result }
    ensures ready { IfOk result
        (λ e. IfSome e (λ x. TakesUpdate inodes.new parent (updates.Names x))) }
{
    load_to_change(alloc, inodes, blocks, parent)?;
    edit_known(alloc, inodes, blocks, parent, wanted)
}

/// The same of a number that is known in memory, with room for a change of it.
pub(crate) fn edit_known<B: Blocks>(
    alloc: Global,
    inodes: &mut InodeFile,
    blocks: &mut B,
    parent: InodeNumber,
    wanted: &NameEdit<'_>,
) -> Result<Option<Edit>, BlockError>
    requires parent { IsAtHand inodes.old parent }
    requires wanted { IsNameEdit inodes.old.geometry.inodes wanted.now }
    ensures edit { Finds B.Blocks blocks.old blocks.new inodes.old inodes.new (λ detail disk settled v.
        PreparesEdit disk (limits_of inodes.new.geometry) wanted.now (v parent)
        (loaded inodes.new parent)) result }
    ensures ready { IfOk result
        (λ e. IfSome e (λ x. TakesUpdate inodes.new parent (updates.Names x))) }
    ensures rest { (n : ℕ) → (n ≢ parent) → loaded inodes.new n ≡ loaded inodes.old n }
{
    objects_stand_in_their_grammar();
    let limits = inodes.limits();
    let n = parent.get();
    let mut object = inodes.take(n);
    let edit = edit_object(alloc, &mut object, blocks, limits, wanted);
    inodes.put_back(n, object);
    edit
}

// The same of an object in memory.
fn edit_object<B: Blocks>(
    alloc: Global,
    object: &mut Option<Object>,
    blocks: &mut B,
    limits: Limits,
    wanted: &NameEdit<'_>,
) -> Result<Option<Edit>, BlockError>
    requires wanted { IsNameEdit limits.inodes wanted.now }
    requires few { limits.directory_names ≤ DIRECTORY_NAMES }
    ensures reads { ReadsBlocks B.Blocks IsFault blocks.old blocks.new result }
    ensures same { IsSameOrNone object.old object.new }
    ensures knows { (disk : ℕ → List ℕ) → StaysKnown limits.inodes disk object.old object.new }
    ensures fits { IfOk result (λ e. IfSome e (FitsObject object.new)) }
    ensures edits { (detail : Detail) (disk : ℕ → List ℕ) (settled : Inode) (found : Option Node)
        → B.Shows blocks.old disk → IsObjectOrNone detail disk limits.inodes settled object.old found
        → IfOk result (PreparesEdit disk limits wanted.now found object.new) }
    ensures damaged { (detail : Detail) (disk : ℕ → List ℕ) (settled : Inode) (found : Option Node)
        → B.Shows blocks.old disk → IsErrOf result BlockError.Damaged
        → IsObjectOrNone detail disk limits.inodes settled object.old found
        → ((o : Object) → object.old ≡ Some o → o.status.kind ≡ kinds.Directory
        → (i : ℕ) → IsSoundAt (B.count blocks.old) disk o.file.tree i) → ⊥ }
{
    if !is_directory(object) {
        return Ok(None);
    }
    let Some(mut directory) = object.take() else {
        return Ok(None);
    };
    // What is known of the blocks goes with the edit, which changes them; where there is none, it
    // is learned anew.
    let mut known = mem::replace(&mut directory.known, Known::new(alloc));
    let edit = edit_file(
        alloc,
        &mut directory.file,
        &mut known,
        blocks,
        limits,
        wanted,
    );
    *object = Some(directory);
    let Some(mut edit) = edit? else {
        return Ok(None);
    };
    edit.keep(known);
    Ok(Some(edit))
}

fn is_directory(object: &Option<Object>) -> bool
    ensures { IsTrue result ↔ IsDirectoryObject object.now }
{
    match object {
        Some(object) => matches!(object.status.kind, Kind::Directory),
        None => false,
    }
}

/// Puts an edit of a directory in force.
pub(crate) fn commit_edit(object: &mut Option<Object>, edit: Edit)
    requires { FitsObject object.old edit }
    ensures room { RaisesFile object.old object.new (edit_room (piece_count edit)) }
    ensures edits { (detail : Detail) (disk : ℕ → List ℕ) (inodes : ℕ) (settled : Inode)
        (found : Option Node) (f : NameMap → NameMap) → IsObjectOrNone detail disk inodes settled object.old found
        → EditsIn disk inodes f found object.old edit
        → IsObjectOrNone detail disk inodes settled object.new (with_node_names f found) }
{
    if let Some(directory) = object {
        directory.known = edit.commit(&mut directory.file);
    }
}
