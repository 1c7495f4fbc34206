//! Records that give a file a name more.

ghost use Rattle.std.specs.Prelude.{◌≡◌, ℕ, List, IfOk, IfSome, IfNone, false};
ghost use Rattle.layout.specs.StateLimits.{limits_of};
ghost use Rattle.layout.specs.declared.inode.Inode.{Inode};
ghost use Rattle.model.specs.Attributes.{KeepsTime};
ghost use Rattle.model.specs.Records.{link, stamped};
ghost use Rattle.model.specs.Volumes.{Volume, is_file_node};
ghost use Rattle.images.specs.Soundness.{Detail};
ghost use Rattle.inofile.specs.Inodes.{IsKnown};
ghost use Rattle.inofile.specs.Volumes.{IsVolumeIn};
ghost use Rattle.paths.specs.Numbers.{IsInodeNumber};
ghost use Rattle.records.specs.Planning.{DecidesEdit};
ghost use Rattle.records.specs.Preparing.{DecidesRecord};
ghost use Rattle.records.specs.Steps.{IsFileWithLinks};

use crate::directory_names::edit_parent;
use crate::loading::{is_number, load_to_change};
use crate::marks::Marks;
use crate::naming::NameEdit;
use crate::plans::Plan;
use crate::prepared::with_marks;
use crate::steps::{ObjectUpdate, Update};
use crate::{Failure, Prepared};
use buffers::Blocks;
use inofile::InodeFile;
use layout::{Entry, InodeNumber, Kind, is_name};
use model::{Errno, Time, Touch};
use std::alloc::Global;

/// Prepares that a file gets a name more; or tells the first obstacle: ENAMETOOLONG where the name
/// is none, EPERM where the number is of no file, EMLINK where the file has as many names as it may
/// have, DIRFULL where the parent doesn't take the name.
pub fn prepare_link<B: Blocks>(
    alloc: Global,
    inodes: &mut InodeFile,
    blocks: &mut B,
    time: Option<Time>,
    number: InodeNumber,
    parent: InodeNumber,
    name: &[u8],
) -> Result<Prepared, Failure>
    requires { KeepsTime (limits_of inodes.old.geometry).has_attributes time }
    ensures { DecidesRecord B.Blocks blocks.old blocks.new inodes.old inodes.new
        (stamped time (link number parent name.now)) result }
{
    let plan = plan_link(alloc, inodes, blocks, number, parent, name)?;
    let marks = Marks::of_entry(time, Touch::Status, Some(number), parent);
    let prepared = with_marks(alloc, inodes, blocks, plan, marks)?;
    Ok(prepared)
}

// What becomes of the objects.
fn plan_link<B: Blocks>(
    alloc: Global,
    inodes: &mut InodeFile,
    blocks: &mut B,
    number: InodeNumber,
    parent: InodeNumber,
    name: &[u8],
) -> Result<Plan, Failure>
    ensures decides { DecidesEdit B.Blocks blocks.old blocks.new inodes.old inodes.new
        (link number parent name.now) result }
    ensures numbers { IfOk result (λ _. IsInodeNumber inodes.old.geometry.inodes number
        × IsInodeNumber inodes.old.geometry.inodes parent) }
{
    if !is_name(name) {
        return Err(Failure::Refused(Errno::ENAMETOOLONG));
    }
    let entry = Entry { number, name };
    if !entry.fits(inodes.geometry().inodes()) {
        return Err(Failure::Refused(Errno::EPERM));
    }
    load_to_change(alloc, inodes, blocks, number)?;
    let Some(links) = links_of(inodes, number) else {
        return Err(Failure::Refused(Errno::EPERM));
    };
    if links >= inodes.limits().file_names {
        return Err(Failure::Refused(Errno::EMLINK));
    }
    if !is_number(inodes, parent) {
        return Err(Failure::Refused(Errno::DIRFULL));
    }
    let planned = edit_parent(alloc, inodes, blocks, parent, &NameEdit::Add(entry))?;
    let Some(edit) = planned else {
        return Err(Failure::Refused(Errno::DIRFULL));
    };
    Ok(Plan {
        first: ObjectUpdate {
            number: parent,
            update: Update::Names(edit),
        },
        next: Some(ObjectUpdate {
            number,
            update: Update::Links(links + 1),
        }),
        last: None,
    })
}

// How many names a file has; None where the number is of none.
fn links_of(inodes: &InodeFile, number: InodeNumber) -> Option<u32>
    requires { IsKnown inodes.now number }
    ensures file { (detail : Detail) (count : ℕ) (disk : ℕ → List ℕ) (settled : ℕ → Inode)
        (v : Volume) → IsVolumeIn detail count disk settled inodes.now v
        → IfSome result (λ links. IsFileWithLinks links (v number)) }
    ensures other { (detail : Detail) (count : ℕ) (disk : ℕ → List ℕ) (settled : ℕ → Inode)
        (v : Volume) → IsVolumeIn detail count disk settled inodes.now v
        → IfNone result (is_file_node (v number) ≡ false) }
{
    let Some(object) = paths::object(inodes, number) else {
        return None;
    };
    match object.status.kind {
        Kind::File => Some(object.status.links),
        _ => None,
    }
}
