//! Records that take a name away.

ghost use Rattle.std.specs.Prelude.{◌≡◌, ◌↔◌, ℕ, List, Option, IfOk, IfSome, IsTrue};
ghost use Rattle.std.specs.Option.{option_map};
ghost use Rattle.layout.specs.StateLimits.{limits_of};
ghost use Rattle.layout.specs.declared.inode.Inode.{Inode};
ghost use Rattle.model.specs.Attributes.{KeepsTime};
ghost use Rattle.model.specs.Records.{IsEmpty, remove_name, stamped};
ghost use Rattle.model.specs.Volumes.{Volume, entries, with_name_less};
ghost use Rattle.images.specs.Soundness.{Detail};
ghost use Rattle.inode.specs.declared.object.Object.{Object};
ghost use Rattle.inofile.specs.Inodes.{IsKnown};
ghost use Rattle.inofile.specs.Volumes.{IsVolumeIn};
ghost use Rattle.paths.specs.Numbers.{IsInodeNumber};
ghost use Rattle.records.specs.Looking.{Finds};
ghost use Rattle.records.specs.Moving.{Releases};
ghost use Rattle.records.specs.Planning.{DecidesEdit};
ghost use Rattle.records.specs.Preparing.{DecidesRecord};
ghost use Rattle.records.specs.Room.{UpdateRoom};
ghost use Rattle.records.specs.Shown.{OnVolumesIn};
ghost use Rattle.records.specs.Steps.{IsAlone, IsAtHand, Updates};

use crate::directory_names::edit_parent;
use crate::loading::{is_number, load_to_change};
use crate::marks::Marks;
use crate::naming::NameEdit;
use crate::plans::{Plan, number_of};
use crate::prepared::with_marks;
use crate::steps::{ObjectUpdate, Update};
use crate::{Failure, Prepared};
use buffers::{BlockError, Blocks};
use inofile::InodeFile;
use layout::{InodeNumber, Kind};
use model::{Errno, Time, Touch};
use std::alloc::Global;

/// Prepares that a name is taken away, and with it what it named, but a file stays, with a name
/// less; or tells the first obstacle: ENOENT where the name isn't there, ENOTEMPTY where it is that
/// of a directory with names.
pub fn prepare_remove_name<B: Blocks>(
    alloc: Global,
    inodes: &mut InodeFile,
    blocks: &mut B,
    time: Option<Time>,
    parent: InodeNumber,
    name: &[u8],
) -> Result<Prepared, Failure>
    requires { KeepsTime (limits_of inodes.old.geometry).has_attributes time }
    ensures { DecidesRecord B.Blocks blocks.old blocks.new inodes.old inodes.new
        (stamped time (remove_name parent name.now)) result }
{
    let plan = plan_remove_name(alloc, inodes, blocks, parent, name)?;
    let marks = Marks::of_entry(time, Touch::Status, number_of(&plan.next), parent);
    let prepared = with_marks(alloc, inodes, blocks, plan, marks)?;
    Ok(prepared)
}

// What becomes of the objects: the parent first, and then of what has the name.
fn plan_remove_name<B: Blocks>(
    alloc: Global,
    inodes: &mut InodeFile,
    blocks: &mut B,
    parent: InodeNumber,
    name: &[u8],
) -> Result<Plan, Failure>
    ensures decides { DecidesEdit B.Blocks blocks.old blocks.new inodes.old inodes.new
        (remove_name parent name.now) result }
    ensures parent { IfOk result (λ _. IsInodeNumber inodes.old.geometry.inodes parent) }
    ensures number { IfOk result (λ p. IfSome p.next
        (λ step. IsInodeNumber inodes.old.geometry.inodes step.number)) }
    ensures named { (detail : Detail) → OnVolumesIn detail B.Blocks blocks.old inodes.old (λ disk settled v.
        IfOk result (λ p. option_map (λ step. step.number) p.next ≡ entries v parent name.now)) }
{
    if !is_number(inodes, parent) {
        return Err(Failure::Refused(Errno::ENOENT));
    }
    let found = number_in(alloc, inodes, blocks, parent, name)?;
    let Some(number) = found else {
        return Err(Failure::Refused(Errno::ENOENT));
    };
    let released = release(alloc, inodes, blocks, number)?;
    let Some(update) = released else {
        return Err(Failure::Refused(Errno::ENOTEMPTY));
    };
    let planned = edit_parent(alloc, inodes, blocks, parent, &NameEdit::Remove(name))?;
    let Some(edit) = planned else {
        return Err(Failure::Refused(Errno::ENOENT));
    };
    Ok(Plan {
        first: ObjectUpdate {
            number: parent,
            update: Update::Names(edit),
        },
        next: Some(ObjectUpdate { number, update }),
        last: None,
    })
}

/// The number at a name of a directory; None where it doesn't have it, or is no directory.
pub(crate) fn number_in<B: Blocks>(
    alloc: Global,
    inodes: &mut InodeFile,
    blocks: &mut B,
    directory: InodeNumber,
    name: &[u8],
) -> Result<Option<InodeNumber>, BlockError>
    requires { IsInodeNumber inodes.old.geometry.inodes directory }
    ensures number { Finds B.Blocks blocks.old blocks.new inodes.old inodes.new
        (λ detail disk settled v n. n ≡ entries v directory name.now) result }
    ensures within { IfOk result (λ n. IfSome n (IsInodeNumber inodes.old.geometry.inodes)) }
{
    paths::number_at(alloc, inodes, blocks, directory, name)
}

/// What becomes of an object that loses a name, which is known in memory from then on, with room
/// for a change of it; None where it is a directory that isn't empty.
pub(crate) fn release<B: Blocks>(
    alloc: Global,
    inodes: &mut InodeFile,
    blocks: &mut B,
    number: InodeNumber,
) -> Result<Option<Update>, BlockError>
    requires { IsInodeNumber inodes.old.geometry.inodes number }
    ensures released { Finds B.Blocks blocks.old blocks.new inodes.old inodes.new
        (λ detail disk settled v. Releases detail disk settled v number) result }
    ensures ready { IfOk result (λ u. IfSome u (λ x. IsAlone x × IsAtHand inodes.new number)) }
{
    let empty = is_empty(alloc, inodes, blocks, number)?;
    if !empty {
        return Ok(None);
    }
    load_to_change(alloc, inodes, blocks, number)?;
    Ok(Some(released(inodes, number)))
}

/// Whether there are no names in an object.
pub(crate) fn is_empty<B: Blocks>(
    alloc: Global,
    inodes: &mut InodeFile,
    blocks: &mut B,
    number: InodeNumber,
) -> Result<bool, BlockError>
    requires { IsInodeNumber inodes.old.geometry.inodes number }
    ensures { Finds B.Blocks blocks.old blocks.new inodes.old inodes.new
        (λ detail disk settled v empty. IsTrue empty ↔ IsEmpty v number) result }
{
    let names = paths::list(alloc, inodes, blocks, number)?;
    Ok(names.as_slice().is_empty())
}

// What becomes of an object that loses a name.
fn released(inodes: &InodeFile, number: InodeNumber) -> Update
    requires { IsKnown inodes.now number }
    ensures alone { IsAlone result }
    ensures updates { (detail : Detail) (count : ℕ) (disk : ℕ → List ℕ) (settled : ℕ → Inode)
        (v : Volume) → IsVolumeIn detail count disk settled inodes.now v
        → (many : ℕ) (o : Option Object) → Updates detail disk many (settled number) (v number) o result (with_name_less (v number))
        × UpdateRoom o result 6 }
{
    let Some(object) = paths::object(inodes, number) else {
        return Update::Set(None);
    };
    match object.status.kind {
        Kind::File => Update::Links(object.status.links.saturating_sub(1)),
        _ => Update::Set(None),
    }
}
