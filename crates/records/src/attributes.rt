//! Records that give an object permissions and a time of its data; and the attributes that it has.

ghost use Rattle.std.specs.Prelude.{◌≡◌, ◌↔◌, ℕ, List, IfOk, IsTrue, unwrap_or};
ghost use Rattle.layout.specs.StateLimits.{limits_of};
ghost use Rattle.layout.specs.declared.inode.Inode.{Inode};
ghost use Rattle.model.specs.Attributes.{FitAttributes, KeepsTime, given_attributes, no_attributes};
ghost use Rattle.model.specs.Records.{TakesMode, change_attributes, stamped};
ghost use Rattle.model.specs.Volumes.{Volume, attributes_of};
ghost use Rattle.images.specs.Soundness.{Detail};
ghost use Rattle.inofile.specs.Inodes.{IsKnown};
ghost use Rattle.inofile.specs.Volumes.{IsVolumeIn};
ghost use Rattle.paths.specs.Numbers.{IsInodeNumber};
ghost use Rattle.records.specs.Attributes.{HasLinkMode};
ghost use Rattle.records.specs.Looking.{Finds};
ghost use Rattle.records.specs.Planning.{DecidesEdit};
ghost use Rattle.records.specs.Preparing.{DecidesRecord};

use crate::loading::{is_number, load, load_to_change};
use crate::marks::Marks;
use crate::plans::Plan;
use crate::prepared::with_marks;
use crate::steps::{ObjectUpdate, Update};
use crate::{Failure, Prepared};
use buffers::{BlockError, Blocks};
use inofile::InodeFile;
use layout::{InodeNumber, Kind};
use model::{Attributes, Errno, LINK_MODE, Permissions, Time, Touch};
use std::alloc::Global;

/// Prepares that an object gets permissions and a time of its data; or tells the obstacle: DAMAGED
/// where the number is of none that may get them.
pub fn prepare_attributes<B: Blocks>(
    alloc: Global,
    inodes: &mut InodeFile,
    blocks: &mut B,
    time: Option<Time>,
    number: InodeNumber,
    permissions: Permissions,
    modified: Time,
) -> Result<Prepared, Failure>
    requires { KeepsTime (limits_of inodes.old.geometry).has_attributes time }
    ensures decides { DecidesRecord B.Blocks blocks.old blocks.new inodes.old inodes.new
        (stamped time (change_attributes number permissions modified)) result }
    ensures kept { IfOk result (λ _. FitAttributes (limits_of inodes.old.geometry).has_attributes
        (given_attributes permissions modified)) }
{
    let plan = plan_attributes(alloc, inodes, blocks, number, permissions, modified)?;
    let marks = Marks::of_object(time, Touch::Status, number);
    let prepared = with_marks(alloc, inodes, blocks, plan, marks)?;
    Ok(prepared)
}

// What becomes of the objects.
fn plan_attributes<B: Blocks>(
    alloc: Global,
    inodes: &mut InodeFile,
    blocks: &mut B,
    number: InodeNumber,
    permissions: Permissions,
    modified: Time,
) -> Result<Plan, Failure>
    ensures decides { DecidesEdit B.Blocks blocks.old blocks.new inodes.old inodes.new
        (change_attributes number permissions modified) result }
    ensures kept { IfOk result (λ _. FitAttributes (limits_of inodes.old.geometry).has_attributes
        (given_attributes permissions modified)) }
    ensures number { IfOk result (λ _. IsInodeNumber inodes.old.geometry.inodes number) }
{
    if !are_kept(inodes.limits().has_attributes, &permissions, &modified) {
        return Err(Failure::Refused(Errno::DAMAGED));
    }
    if !is_number(inodes, number) {
        return Err(Failure::Refused(Errno::DAMAGED));
    }
    load_to_change(alloc, inodes, blocks, number)?;
    if !takes_mode(inodes, number, &permissions) {
        return Err(Failure::Refused(Errno::DAMAGED));
    }
    Ok(Plan {
        first: ObjectUpdate {
            number,
            update: Update::Attributes(permissions, modified),
        },
        next: None,
        last: None,
    })
}

// Whether an object may get these where all attributes are kept, or the mode alone.
fn are_kept(has_attributes: bool, permissions: &Permissions, modified: &Time) -> bool
    ensures { IsTrue result
        ↔ FitAttributes has_attributes (given_attributes permissions.now modified.now) }
{
    Attributes::none()
        .given(*permissions, *modified)
        .are_kept(has_attributes)
}

// Whether the object with a number may get the mode of these permissions: a link its own alone,
// where it has more than a mode.
fn takes_mode(inodes: &InodeFile, number: InodeNumber, permissions: &Permissions) -> bool
    requires { IsKnown inodes.now number }
    ensures { (detail : Detail) (count : ℕ) (disk : ℕ → List ℕ) (settled : ℕ → Inode)
        (v : Volume) → IsVolumeIn detail count disk settled inodes.now v
        → IsTrue result
        ↔ TakesMode (limits_of inodes.now.geometry).has_attributes (v number)
        permissions.now.mode }
{
    let Some(object) = inodes.get(number.get()) else {
        return false;
    };
    match object.status.kind {
        Kind::File => true,
        Kind::Directory => true,
        Kind::Link => inodes.limits().has_attributes && permissions.mode.bits() == LINK_MODE,
        _ => false,
    }
}

/// The attributes of the object with a number; none where nothing has it. NoMemory; Device where a
/// read failed; Damaged where a block on the way is outside its format.
pub fn attributes_at<B: Blocks>(
    alloc: Global,
    inodes: &mut InodeFile,
    blocks: &mut B,
    number: InodeNumber,
) -> Result<Attributes, BlockError>
    requires { IsInodeNumber inodes.old.geometry.inodes number }
    ensures { Finds B.Blocks blocks.old blocks.new inodes.old inodes.new (λ detail disk settled v a.
        (a ≡ unwrap_or (attributes_of (v number)) no_attributes) × HasLinkMode (v number)) result }
{
    load(alloc, inodes, blocks, number)?;
    match paths::object(inodes, number) {
        Some(object) => Ok(object.status.attributes),
        None => Ok(Attributes::none()),
    }
}
